//! Answers that wait to be written.
ghost use Rattle.std.specs.Prelude.{◌≡◌, ◌+◌, ◌<◌, ◌≤◌, [], ◌∷◌, length, IfOk, vec_len, vec_capacity, ℕ, List};
ghost use Rattle.mpd_lines.specs.Gathering.{Gathered, Relieved, Written};
ghost use Rattle.mpd_lines.specs.Telling.{waiting_below};

use crate::desk::{LINE_ROOM, LineDesk};
use mpd_model::{DeviceFault, LINE_MAX, Sink};
use std::alloc::{AllocError, Global};
use std::marker::Model;

/// As soon as this many bytes of gathered answers wait, they are written.
const WAITING_MAX: usize = 65_536;

/// Answers that wait to be written. There is always room for a line and a short one.
#[derive(Drop)]
pub(crate) struct Outbox {
    waiting: Vec<u8>,
}

impl Model for Outbox {
    ghost use Rattle.std.specs.Prelude.{◌≤◌, ◌<◌, List, ℕ, vec_len, vec_capacity};

    ghost Value = { List ℕ };

    ghost view = { λ o. o.waiting.items };

    ghost invariant = { λ o. (vec_len o.waiting < 65536) × (69760 ≤ vec_capacity o.waiting) };
}

/// Writes all bytes, however the sink cuts them. `Err` comes only if a write failed; then a part of
/// them was written.
#[tactic(auto, using(crate::proofs::SentLaws::sending))]
pub fn write_all<W: Sink>(sink: &mut W, bytes: &[u8]) -> Result<(), DeviceFault>
    ensures { Written bytes.now (W.seen sink.old) (W.seen sink.new) result }
{
    let mut rest = bytes;
    while !rest.is_empty() {
        let count = sink.write(rest)?;
        let (_, left) = rest.split_at(count);
        rest = left;
    }
    Ok(())
}

/// The number of waiting bytes from which on they are written.
fn waiting_below(gathers: bool) -> usize
    ensures value { result ≡ waiting_below gathers }
    ensures some { 0 < result }
    ensures few { result ≤ WAITING_MAX }
{
    if gathers { WAITING_MAX } else { 1 }
}

/// Writes what waits if it is at least `below` bytes. What a failed write leaves over is dropped.
#[tactic(auto, using(crate::proofs::GatherLaws::relieving))]
fn relieve<W: Sink>(waiting: &mut Vec<u8>, below: usize, sink: &mut W) -> Result<(), DeviceFault>
    requires { 0 < below }
    ensures relieved { Relieved waiting.old.items (W.seen sink.old) (W.seen sink.new) waiting.new.items result }
    ensures few { vec_len waiting.new < below }
    ensures capacity { vec_capacity waiting.new ≡ vec_capacity waiting.old }
{
    if waiting.len() < below {
        return Ok(());
    }
    let written = write_all(sink, waiting);
    waiting.clear();
    written
}

impl Outbox {
    /// Nothing waits. `Err` means that memory was refused.
    pub(crate) fn new(alloc: Global) -> Result<Outbox, AllocError>
        ensures { IfOk result (λ o. o ≡ []) }
    {
        Ok(Outbox {
            waiting: Vec::with_capacity(alloc, WAITING_MAX + LINE_ROOM)?,
        })
    }

    /// Gathers the answer to a line, and writes what waits if that is much.
    #[tactic(auto, using(crate::proofs::GatherLaws::gathering))]
    pub(crate) fn answer<D: LineDesk, W: Sink>(
        &mut self,
        desk: &mut D,
        line: &[u8],
        sink: &mut W,
    ) -> Result<(), DeviceFault>
        requires line { length line.now ≤ LINE_MAX }
        requires few { length self.old < waiting_below D.gathers }
        ensures { Gathered D.says (waiting_below D.gathers) desk.old (line.now ∷ []) (W.seen sink.old) self.old (W.seen sink.new) self.new desk.new result }
    {
        desk.answer(line, &mut self.waiting);
        relieve(&mut self.waiting, waiting_below(desk.is_gathering()), sink)
    }

    /// Gathers the answer to a line that is too long, and writes what waits if that is much.
    #[tactic(auto, using(crate::proofs::GatherLaws::gathering))]
    pub(crate) fn refuse_long<D: LineDesk, W: Sink>(
        &mut self,
        desk: &mut D,
        sink: &mut W,
    ) -> Result<(), DeviceFault>
        requires { length self.old < waiting_below D.gathers }
        ensures { (line : List ℕ) → LINE_MAX < length line → Gathered D.says (waiting_below D.gathers) desk.old (line ∷ []) (W.seen sink.old) self.old (W.seen sink.new) self.new desk.new result }
    {
        desk.refuse_long(&mut self.waiting);
        relieve(&mut self.waiting, waiting_below(desk.is_gathering()), sink)
    }

    /// Writes all that waits. What a failed write leaves over is dropped.
    pub(crate) fn flush<W: Sink>(&mut self, sink: &mut W) -> Result<(), DeviceFault>
        ensures written { Written self.old (W.seen sink.old) (W.seen sink.new) result }
        ensures none { self.new ≡ [] }
    {
        let written = write_all(sink, &self.waiting);
        self.waiting.clear();
        written
    }
}
