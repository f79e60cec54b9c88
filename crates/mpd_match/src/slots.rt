//! The slots that ranks hold for buffered sends (docs/DEFINITIONS.md, "Modes").
ghost use Rattle.std.specs.Prelude.{◌≡◌, ℕ, ◌+◌, ◌<◌, ◌≤◌, length};
ghost use Rattle.mpd_match.specs.Slots.{slots_of, held_in, at_rank};

use crate::kinds;
use mpd_model::CallKind;
use mpd_queue::Tape;

/// A rank holds one slot more if a call of this kind holds one. One write at most.
pub(crate) fn take_slot(slots: &mut Tape<usize>, rank: usize, kind: Option<CallKind>)
    requires within { rank < length slots.old.items }
    requires few { held_in slots.old.items rank + slots_of kind ≤ 4294967295 }
    ensures ranks { length slots.new.items ≡ length slots.old.items }
    ensures held { (p : ℕ) → held_in slots.new.items p ≡ held_in slots.old.items p + at_rank rank (slots_of kind) p }
    ensures writes { slots.new.writes ≡ slots.old.writes + slots_of kind }
{
    if kinds::is_buffered(kind) {
        let held = slots.items()[rank];
        slots.set(rank, held + 1);
    }
}

/// A rank holds one slot less if a call of this kind held one. One write at most.
pub(crate) fn give_slot_back(slots: &mut Tape<usize>, rank: usize, kind: Option<CallKind>)
    requires within { rank < length slots.old.items }
    requires some { slots_of kind ≤ held_in slots.old.items rank }
    ensures ranks { length slots.new.items ≡ length slots.old.items }
    ensures held { (p : ℕ) → held_in slots.old.items p ≡ held_in slots.new.items p + at_rank rank (slots_of kind) p }
    ensures writes { slots.new.writes ≡ slots.old.writes + slots_of kind }
{
    if kinds::is_buffered(kind) {
        let held = slots.items()[rank];
        slots.set(rank, held - 1);
    }
}
