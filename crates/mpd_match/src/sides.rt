//! One of several sides is changed, or all of them.
ghost use Rattle.std.specs.Prelude.{◌≡◌, ℕ, suc, ◌+◌, ◌-◌, ◌<◌, ◌≤◌, Some, None, is_none, false, [], ◌∷◌, ◌++◌, length, replicate, slice_get, slice_set, take, vec_len, IfOk, OnOk, OnErr};
ghost use Rattle.mpd_queue.specs.InOrder.{next_of};
ghost use Rattle.mpd_model.specs.steps.World.{listed_calls};
ghost use Rattle.mpd_model.specs.steps.Next.{HasReceiver};
ghost use Rattle.mpd_match.specs.Views.{side_at, calls_in, lines_in, room_in, writes_in};
ghost use Rattle.mpd_match.specs.Lines.{line_of as line_in, with_mark, waiting, mark_in, mark_at, kind_on, waiting_on, with_partner};
ghost use Rattle.mpd_match.specs.Changes.{issue_writes, unissue_writes};

use crate::side::Side;
use mpd_model::{Call, CallId, CallKind, RANKS_MAX};
use mpd_queue::Spot;
use std::alloc::{AllocError, Global};

/// What a call is, if it exists.
pub(crate) fn kind_on(sides: &Vec<Side>, id: CallId) -> Option<CallKind>
    ensures { result ≡ kind_on sides.now.items id }
{
    let side = sides.get(id.rank)?;
    side.kind(id.index)
}

/// `ranks` sides without calls.
#[tactic(auto, using(crate::proofs::AtSide::copying))]
pub(crate) fn new_sides(alloc: Global, ranks: usize) -> Result<Vec<Side>, AllocError>
    requires few { ranks ≤ RANKS_MAX }
    ensures calls { IfOk result (λ sides. calls_in sides.items ≡ replicate ranks []) }
    ensures marks { IfOk result (λ sides. (c : CallId) → mark_at sides.items c ≡ None) }
    ensures lines { IfOk result (λ sides. lines_in sides.items ≡ replicate ranks (suc ranks)) }
    ensures writes { IfOk result (λ sides. writes_in sides.items ≡ 0) }
{
    let mut sides = Vec::new(alloc);
    for _ in 0..ranks {
        sides.push(Side::new(alloc, ranks + 1)?)?;
    }
    Ok(sides)
}

/// Reserves room for one call more of each rank.
#[tactic(auto, using(crate::proofs::AtSide::keeping))]
pub(crate) fn keep_rooms(sides: &mut Vec<Side>) -> Result<(), AllocError>
    ensures calls { calls_in sides.new.items ≡ calls_in sides.old.items }
    ensures marks { (c : CallId) → mark_at sides.new.items c ≡ mark_at sides.old.items c }
    ensures lines { lines_in sides.new.items ≡ lines_in sides.old.items }
    ensures writes { writes_in sides.new.items ≡ writes_in sides.old.items }
    ensures room { OnOk result ((set_room : ℕ) → 1 ≤ set_room → 1 ≤ room_in set_room sides.new.items) }
    ensures never_less { (set_room : ℕ) → room_in set_room sides.old.items ≤ room_in set_room sides.new.items }
    ensures missing { OnErr result ((set_room : ℕ) → room_in set_room sides.old.items ≡ 0) }
{
    let count = sides.len();
    for rank in 0..count {
        let side = &mut sides[rank];
        side.keep_room()?;
    }
    Ok(())
}

/// A rank issues a call. Returns the call's number.
pub(crate) fn issue_at(sides: &mut Vec<Side>, rank: usize, call: Call) -> u32
    requires within { rank < length sides.old.items }
    requires lines { lines_in sides.old.items ≡ replicate (length sides.old.items) (suc (length sides.old.items)) }
    requires receiver { HasReceiver (length sides.old.items) call.kind }
    requires room { 0 < (side_at sides.old.items rank).room }
    ensures calls { calls_in sides.new.items ≡ slice_set (calls_in sides.old.items) rank (listed_calls (slice_get (calls_in sides.old.items) rank) ++ call ∷ []) }
    ensures marks { (c : CallId) → mark_at sides.new.items c ≡ mark_at sides.old.items c }
    ensures number { result ≡ length (listed_calls (slice_get (calls_in sides.old.items) rank)) }
    ensures small { result < 4294967295 }
    ensures lines { lines_in sides.new.items ≡ lines_in sides.old.items }
    ensures free { mark_at sides.new.items (record { rank = rank; index = length (listed_calls (slice_get (calls_in sides.old.items) rank)) }) ≡ None }
    ensures room { (set_room : ℕ) → room_in set_room sides.old.items ≤ room_in set_room sides.new.items + 1 }
    ensures writes { writes_in sides.new.items ≡ writes_in sides.old.items + issue_writes (Some call.kind) }
{
    let side = &mut sides[rank];
    side.issue(call)
}

/// The last call of a rank is taken back.
pub(crate) fn unissue_at(sides: &mut Vec<Side>, rank: usize)
    requires within { rank < length sides.old.items }
    requires some { 0 < length (listed_calls (slice_get (calls_in sides.old.items) rank)) }
    requires free { mark_at sides.old.items (record { rank = rank; index = length (listed_calls (slice_get (calls_in sides.old.items) rank)) - 1 }) ≡ None }
    ensures calls { calls_in sides.new.items ≡ slice_set (calls_in sides.old.items) rank (take (length (listed_calls (slice_get (calls_in sides.old.items) rank)) - 1) (listed_calls (slice_get (calls_in sides.old.items) rank))) }
    ensures marks { (c : CallId) → mark_at sides.new.items c ≡ mark_at sides.old.items c }
    ensures lines { lines_in sides.new.items ≡ lines_in sides.old.items }
    ensures room { (set_room : ℕ) → room_in set_room sides.old.items ≤ room_in set_room sides.new.items }
    ensures writes { writes_in sides.new.items ≡ writes_in sides.old.items + unissue_writes (kind_on sides.old.items (record { rank = rank; index = length (listed_calls (slice_get (calls_in sides.old.items) rank)) - 1 })) }
{
    let side = &mut sides[rank];
    side.unissue();
}

/// A free call gets its partner, and leaves its line.
pub(crate) fn pair_at(sides: &mut Vec<Side>, line: usize, id: CallId, partner: CallId) -> Spot
    requires within { id.rank < length sides.old.items }
    requires line { line_in (kind_on sides.old.items id) ≡ Some line }
    requires free { mark_at sides.old.items id ≡ None }
    ensures calls { calls_in sides.new.items ≡ calls_in sides.old.items }
    ensures marks { (c : CallId) → mark_at sides.new.items c ≡ with_partner (mark_at sides.old.items) id (Some partner) c }
    ensures lines { lines_in sides.new.items ≡ lines_in sides.old.items }
    ensures spot { result ≡ next_of (waiting_on sides.old.items id.rank line) id.index }
    ensures room { (set_room : ℕ) → room_in set_room sides.new.items ≡ room_in set_room sides.old.items }
    ensures writes { writes_in sides.new.items ≡ writes_in sides.old.items + 3 }
{
    let side = &mut sides[id.rank];
    side.pair(line, id.index, partner)
}

/// A paired call is free again, at its old place in its line.
pub(crate) fn unpair_at(sides: &mut Vec<Side>, line: usize, id: CallId, spot: Spot)
    requires within { id.rank < length sides.old.items }
    requires line { line_in (kind_on sides.old.items id) ≡ Some line }
    requires paired { is_none (mark_at sides.old.items id) ≡ false }
    requires spot { spot ≡ next_of (waiting (side_at sides.old.items id.rank).calls (with_mark (mark_in (side_at sides.old.items id.rank).marks) id.index None) line) id.index }
    ensures calls { calls_in sides.new.items ≡ calls_in sides.old.items }
    ensures marks { (c : CallId) → mark_at sides.new.items c ≡ with_partner (mark_at sides.old.items) id None c }
    ensures lines { lines_in sides.new.items ≡ lines_in sides.old.items }
    ensures room { (set_room : ℕ) → room_in set_room sides.new.items ≡ room_in set_room sides.old.items }
    ensures few { length (side_at sides.new.items id.rank).calls ≤ 4294967295 }
    ensures writes { writes_in sides.new.items ≡ writes_in sides.old.items + 5 }
{
    let side = &mut sides[id.rank];
    side.unpair(line, id.index, spot);
}

/// The same calls and partners, in memory of their own.
#[tactic(auto, using(crate::proofs::AtSide::copying))]
pub(crate) fn copy_sides(sides: &Vec<Side>) -> Result<Vec<Side>, AllocError>
    ensures calls { IfOk result (λ copied. calls_in copied.items ≡ calls_in sides.now.items) }
    ensures marks { IfOk result (λ copied. (c : CallId) → mark_at copied.items c ≡ mark_at sides.now.items c) }
    ensures lines { IfOk result (λ copied. lines_in copied.items ≡ lines_in sides.now.items) }
    ensures writes { IfOk result (λ copied. writes_in copied.items ≡ 0) }
{
    let mut copied = Vec::new(*sides.allocator());
    let count = sides.len();
    for rank in 0..count {
        copied.push(sides[rank].copy()?)?;
    }
    Ok(copied)
}
