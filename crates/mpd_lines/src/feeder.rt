//! Cuts what comes in pieces into lines, and asks a desk each of them.
ghost use Rattle.std.specs.Prelude.{◌≡◌, ◌+◌, ◌<◌, ◌≤◌, [], ◌∷◌, ◌++◌, length, IfOk, OnOk};
ghost use Rattle.mpd_model.specs.texts.Lines.{bare};
ghost use Rattle.mpd_lines.specs.Gathering.{Gathered};
ghost use Rattle.mpd_lines.specs.Telling.{waiting_below};
ghost use Rattle.mpd_lines.specs.Forward.{ended_from, part_from, last_line};

use crate::desk::LineDesk;
use crate::line_bytes::Seen;
use crate::outbox::Outbox;
use mpd_model::{DeviceFault, LINE_MAX, Sink, without_return};
use std::alloc::{AllocError, Global};
use std::marker::Model;

/// The beginning of a line that has not ended yet.
#[derive(Drop)]
pub(crate) struct Feeder {
    // its bytes, at most one more than a line may have: that one can be a carriage return
    part: Vec<u8>,
    // it has more bytes than that, and none is kept
    is_long: bool,
    seen: Seen,
}

impl Model for Feeder {
    ghost use Rattle.std.specs.Prelude.{◌≡◌, ◌≤◌, ◌<◌, List, ℕ, true, false, length, vec_capacity};

    ghost Value = { List ℕ };

    ghost view = { λ f. f.seen };

    ghost invariant = { λ f. (f.is_long ≡ false → f.part.items ≡ f.seen) × (f.is_long ≡ true → 4097 < length f.seen) × (length f.part.items ≤ 4097) × (4097 ≤ vec_capacity f.part) };
}

impl Feeder {
    /// No line has begun. `Err` means that memory was refused.
    pub(crate) fn new(alloc: Global) -> Result<Feeder, AllocError>
        ensures { IfOk result (λ f. f ≡ []) }
    {
        Ok(Feeder {
            part: Vec::with_capacity(alloc, LINE_MAX + 1)?,
            is_long: false,
            seen: Seen::new(),
        })
    }

    /// Gathers the answers to the lines that end within the piece.
    pub(crate) fn feed<D: LineDesk, W: Sink>(
        &mut self,
        desk: &mut D,
        piece: &[u8],
        outbox: &mut Outbox,
        sink: &mut W,
    ) -> Result<(), DeviceFault>
        requires { length outbox.old < waiting_below D.gathers }
        ensures gathered { Gathered D.says (waiting_below D.gathers) desk.old (ended_from self.old piece.now) (W.seen sink.old) outbox.old (W.seen sink.new) outbox.new desk.new result }
        ensures part { OnOk result (self.new ≡ part_from self.old piece.now) }
    {
        for byte in piece {
            match self.take(desk, *byte, outbox, sink) {
                Ok(()) => {}
                Err(fault) => return Err(fault),
            }
        }
        Ok(())
    }

    /// Gathers the answer to the last line, which the end of the input ends.
    #[tactic(auto, using(crate::proofs::GatherLaws::gathering))]
    pub(crate) fn finish<D: LineDesk, W: Sink>(
        &mut self,
        desk: &mut D,
        outbox: &mut Outbox,
        sink: &mut W,
    ) -> Result<(), DeviceFault>
        requires { length outbox.old < waiting_below D.gathers }
        ensures { Gathered D.says (waiting_below D.gathers) desk.old (last_line self.old) (W.seen sink.old) outbox.old (W.seen sink.new) outbox.new desk.new result }
    {
        if self.is_long {
            return outbox.refuse_long(desk, sink);
        }
        if self.part.len() > LINE_MAX {
            return outbox.refuse_long(desk, sink);
        }
        if self.part.is_empty() {
            return Ok(());
        }
        outbox.answer(desk, &self.part, sink)
    }

    // one byte more
    fn take<D: LineDesk, W: Sink>(
        &mut self,
        desk: &mut D,
        byte: u8,
        outbox: &mut Outbox,
        sink: &mut W,
    ) -> Result<(), DeviceFault>
        requires { length outbox.old < waiting_below D.gathers }
        ensures gathered { Gathered D.says (waiting_below D.gathers) desk.old (ended_from self.old (byte ∷ [])) (W.seen sink.old) outbox.old (W.seen sink.new) outbox.new desk.new result }
        ensures part { OnOk result (self.new ≡ part_from self.old (byte ∷ [])) }
    {
        if byte == b'\n' {
            let told = self.end_line(desk, outbox, sink);
            self.part.clear();
            self.is_long = false;
            self.seen = Seen::new();
            return told;
        }
        self.add(byte);
        Ok(())
    }

    // the answer to the line that a line feed ends here
    fn end_line<D: LineDesk, W: Sink>(
        &self,
        desk: &mut D,
        outbox: &mut Outbox,
        sink: &mut W,
    ) -> Result<(), DeviceFault>
        requires { length outbox.old < waiting_below D.gathers }
        ensures { Gathered D.says (waiting_below D.gathers) desk.old (bare (self.now ++ 10 ∷ []) ∷ []) (W.seen sink.old) outbox.old (W.seen sink.new) outbox.new desk.new result }
    {
        if self.is_long {
            return outbox.refuse_long(desk, sink);
        }
        let line = without_return(&self.part);
        if line.len() > LINE_MAX {
            return outbox.refuse_long(desk, sink);
        }
        outbox.answer(desk, line, sink)
    }

    // one byte more of the line
    fn add(&mut self, byte: u8)
        ensures { self.new ≡ self.old ++ byte ∷ [] }
    {
        if self.is_long {
            self.seen.add(byte);
            return;
        }
        if self.part.len() > LINE_MAX {
            self.is_long = true;
            self.part.clear();
        } else {
            self.part.push_reserved(byte);
        }
        self.seen.add(byte);
    }
}
