//! Printed texts of calls, ranks and match sets (docs/FORMATS.md, "Text of show").

ghost use Rattle.std.specs.Prelude.{◌≡◌, ◌++◌, ◌<◌, IfOk, OnOk, OnErr, IfSome, IsSome, length, slice_get, string_bytes};
ghost use Rattle.mpd_model.specs.steps.World.{call_at};
ghost use Rattle.mpd_model.specs.texts.Texts.{buffer_text, pairing_text, got_text, place_text, call_text, rank_text, set_text};

use crate::state::Core;
use mpd_model::{Activity, CallId, CallKind, Message, Mode};
use std::alloc::AllocError;

/// Adds the value that a receive got.
fn push_got(out: &mut String, kind: CallKind, message: Option<Message>) -> Result<(), AllocError>
    ensures { OnOk result (string_bytes out.new ≡ string_bytes out.old ++ got_text kind message) }
{
    if let (CallKind::Recv(_), Some(got)) = (kind, message) {
        let value = got.value;
        write!(out, " value {value}")?;
    }
    Ok(())
}

/// Adds the line that a running rank is at, or that it has ended.
fn push_place(out: &mut String, lines: &[usize], next: Option<usize>) -> Result<(), AllocError>
    ensures { OnOk result (string_bytes out.new ≡ string_bytes out.old ++ place_text lines.now next) }
{
    match next {
        None => out.push_str("ended")?,
        Some(number) => {
            let line = lines.get(number).copied().unwrap_or(0);
            write!(out, "at {line}")?;
        }
    }
    Ok(())
}

/// Adds that a send was buffered as it was issued, in a mode whose buffers run out.
fn push_buffered(out: &mut String, mode: Mode, kind: CallKind) -> Result<(), AllocError>
    ensures { OnOk result (string_bytes out.new ≡ string_bytes out.old ++ buffer_text mode kind) }
{
    if let (Mode::Slots(_), CallKind::Send(send)) = (mode, kind) {
        if send.buffered {
            out.push_str(" buffered")?;
        }
    }
    Ok(())
}

impl<'c> Core<'c> {
    /// Adds that a send or a receive is free, or the call that a call was paired with.
    fn push_pairing(&self, out: &mut String, id: CallId) -> Result<(), AllocError>
        ensures { OnOk result (string_bytes out.new ≡ string_bytes out.old ++ pairing_text self.now.world.board id) }
    {
        if self.board().is_free(id) {
            out.push_str(" free")?;
        } else if let Some(partner) = self.board().partner(id) {
            write!(out, " with {partner}")?;
        }
        Ok(())
    }

    /// A call as `show` prints it after its name, if it exists. `Err` means that memory was
    /// refused.
    fn text_of_call(&self, id: CallId) -> Result<String, AllocError>
        ensures { IfOk result (λ t. string_bytes t ≡ call_text self.now.world.board id) }
    {
        let mut text = String::new(self.allocator());
        if let Some(kind) = self.board().kind(id) {
            write!(text, "{kind}")?;
            push_buffered(&mut text, self.board().mode(), kind)?;
            self.push_pairing(&mut text, id)?;
            push_got(&mut text, kind, self.board().buffer(id))?;
        }
        Ok(text)
    }

    /// Adds a call as `show` prints it after its name. `Err` means that memory was refused; then
    /// `out` is as before.
    pub fn push_call(&self, out: &mut String, id: CallId) -> Result<(), AllocError>
        ensures ok { OnOk result (string_bytes out.new ≡ string_bytes out.old ++ call_text self.now.world.board id) }
        ensures err { OnErr result (string_bytes out.new ≡ string_bytes out.old) }
    {
        let text = self.text_of_call(id)?;
        out.push_str(&text)
    }

    /// Adds what a rank is doing. `Err` means that memory was refused; then `out` is as before.
    pub fn push_rank(&self, out: &mut String, rank: usize) -> Result<(), AllocError>
        requires { rank < length self.now.world.ranks }
        ensures ok { OnOk result (string_bytes out.new ≡ string_bytes out.old ++ rank_text self.now.program self.now.world rank) }
        ensures err { OnErr result (string_bytes out.new ≡ string_bytes out.old) }
    {
        let text = self.rank_text(rank)?;
        out.push_str(&text)
    }

    /// A call as `show` prints it after its name: what it is, its partner, and the value that a
    /// receive got. `Err` means that memory was refused.
    pub fn call_text(&self, id: CallId) -> Result<String, AllocError>
        requires { IsSome (call_at self.now.world.board id) }
        ensures { IfOk result (λ t. string_bytes t ≡ call_text self.now.world.board id) }
    {
        self.text_of_call(id)
    }

    /// What a rank is doing: `at` and a line, `ended`, `blocked` and a call's number, or `trapped`
    /// and a name. `Err` means that memory was refused.
    pub fn rank_text(&self, rank: usize) -> Result<String, AllocError>
        requires { rank < length self.now.world.ranks }
        ensures { IfOk result (λ t. string_bytes t ≡ rank_text self.now.program self.now.world rank) }
    {
        let mut text = String::new(self.allocator());
        match self.activity(rank) {
            None => {}
            Some(Activity::Running) => {
                let next = self.next_statement(rank);
                push_place(&mut text, self.code().lines(), next)?;
            }
            Some(Activity::Blocked) => {
                let number = self.board().last_call(rank).index;
                write!(text, "blocked {number}")?;
            }
            Some(Activity::Trapped(trap)) => {
                let name = trap.name();
                write!(text, "trapped {name}")?;
            }
        }
        Ok(text)
    }

    /// The match set at a place, from 0, in the order formed. `Err` means that memory was refused.
    pub fn set_text(&self, place: usize) -> Result<String, AllocError>
        requires { place < length self.now.world.board.sets }
        ensures { IfOk result (λ t. IfSome (slice_get self.now.world.board.sets place) (λ m. string_bytes t ≡ set_text m)) }
    {
        let set = self.board().sets()[place];
        format!(in self.allocator(); "{set}")
    }
}
