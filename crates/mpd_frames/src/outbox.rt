//! The answer that is written.
ghost use Rattle.std.specs.Prelude.{◌≡◌, ◌≤◌, ◌∷◌, [], false, length, IfOk};
ghost use Rattle.mpd_lines.specs.Gathering.{Spoken};
ghost use Rattle.mpd_frames.specs.Answered.{Answers};

use crate::desk::FrameDesk;
use crate::limits::{BODY_MAX, FRAME_ROOM};
use mpd_lines::write_all;
use mpd_model::{DeviceFault, Sink};
use std::alloc::{AllocError, Global};
use std::marker::Model;

/// Where an answer stands until it is written. There is always room for a short one, and none waits.
#[derive(Drop)]
pub(crate) struct Outbox {
    waiting: Vec<u8>,
}

impl Model for Outbox {
    ghost use Rattle.std.specs.Prelude.{◌≡◌, ◌≤◌, List, ℕ, [], vec_capacity};

    ghost Value = { List ℕ };

    ghost view = { λ o. o.waiting.items };

    ghost invariant = { λ o. (o.waiting.items ≡ []) × (512 ≤ vec_capacity o.waiting) };
}

impl Outbox {
    /// Nothing waits. An `Err` is want of memory.
    pub(crate) fn new(alloc: Global) -> Result<Outbox, AllocError> {
        Ok(Outbox {
            waiting: Vec::with_capacity(alloc, FRAME_ROOM)?,
        })
    }

    /// Asks a desk one message, and writes the answer.
    #[tactic(auto, using(crate::proofs::SpokenLemmas::speaking))]
    pub(crate) fn answer<D: FrameDesk, W: Sink>(
        &mut self,
        desk: &mut D,
        body: &[u8],
        sink: &mut W,
    ) -> Result<(), DeviceFault>
        requires waiting { D.over desk.old ≡ false }
        requires body { length body.now ≤ BODY_MAX }
        ensures { Spoken (Answers D.says D.over) 1 desk.old (body.now ∷ []) (W.seen sink.old) (W.seen sink.new) desk.new result }
    {
        desk.answer(body, &mut self.waiting);
        let written = write_all(sink, &self.waiting);
        self.waiting.clear();
        written
    }
}
