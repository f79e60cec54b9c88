//! Where ranks stand in a script.

ghost use Rattle.std.specs.Prelude.{◌≡◌, ◌++◌, IfOk, OnOk, slice_get};
ghost use Rattle.mpd_model.specs.steps.World.{last_call};
ghost use Rattle.mpd_model.specs.steps.Next.{waits, can_wake};
ghost use Rattle.mpd_names.specs.Placed.{placed_call_of, rank_line};
ghost use Rattle.mpd_names.specs.Stand as standing;

use crate::place::Stands;
use crate::placed::{placed_call, rank_line};
use mpd_core::Core;
use mpd_model::Activity;
use std::alloc::{AllocError, Global};

/// Whether a rank exists and is blocked.
pub fn is_blocked(core: &Core<'_>, rank: usize) -> bool
    ensures { result ≡ waits (slice_get core.now.world.ranks rank) }
{
    match core.activity(rank) {
        None | Some(Activity::Running) | Some(Activity::Trapped(_)) => false,
        Some(Activity::Blocked) => true,
    }
}

/// Whether a rank waits for a call that is complete.
pub fn can_wake(core: &Core<'_>, rank: usize) -> bool
    ensures { result ≡ can_wake core.now.world rank }
{
    is_blocked(core, rank) && core.board().is_complete(core.board().last_call(rank))
}

/// Whether a rank is there, and has ended.
#[tactic(auto, using(crate::proofs::StandLemmas::absent))]
pub fn has_ended(core: &Core<'_>, rank: usize) -> bool
    ensures { result ≡ standing.rank_ended core.now.world rank }
{
    if rank >= core.rank_count() {
        return false;
    }
    core.rank(rank).has_ended(core.code())
}

/// Where a rank that is neither blocked nor trapped stands.
fn running(core: &Core<'_>, rank: usize) -> Stands
    ensures { result ≡ standing.running (standing.rank_ended core.now.world rank) (rank_line core.now.program.lines (slice_get core.now.world.ranks rank)) }
{
    if has_ended(core, rank) {
        return Stands::Ended;
    }
    Stands::At(rank_line(core, rank))
}

/// Where a blocked rank stands.
fn blocked(core: &Core<'_>, rank: usize) -> Stands
    ensures { result ≡ standing.blocked (can_wake core.now.world rank) (placed_call_of core.now.program core.now.world.board (last_call core.now.world.board rank)) }
{
    let call = placed_call(core, core.board().last_call(rank));
    if can_wake(core, rank) {
        return Stands::CanGoOn(call);
    }
    Stands::Waits(call)
}

/// Where a rank stands; `None` if there is no such rank.
pub fn stands(core: &Core<'_>, rank: usize) -> Option<Stands>
    ensures { result ≡ standing.stands_of core.now.program core.now.world rank }
{
    match core.activity(rank) {
        None => None,
        Some(Activity::Running) => Some(running(core, rank)),
        Some(Activity::Blocked) => Some(blocked(core, rank)),
        Some(Activity::Trapped(trap)) => Some(Stands::Trapped(rank_line(core, rank), trap)),
    }
}

/// Adds where a rank stands, if there is such a rank.
fn push_stands(core: &Core<'_>, all: &mut Vec<Stands>, rank: usize) -> Result<(), AllocError>
    ensures { OnOk result (all.new.items ≡ all.old.items ++ standing.stands_if core.now.program core.now.world rank) }
{
    if let Some(stands) = stands(core, rank) {
        all.push(stands)?;
    }
    Ok(())
}

/// Where each rank stands, by rank. `Err` means that memory was refused.
pub fn all_stands(alloc: Global, core: &Core<'_>) -> Result<Vec<Stands>, AllocError>
    ensures { IfOk result (λ all. all.items ≡ standing.all_stands core.now.program core.now.world) }
{
    let mut all = Vec::new(alloc);
    let count = core.rank_count();
    for rank in 0..count {
        push_stands(core, &mut all, rank)?;
    }
    Ok(all)
}

/// The line, from 1, where a rank stands: none of one that has ended, or that isn't there.
#[tactic(auto, using(crate::proofs::StandLemmas::lined))]
pub fn stand(core: &Core<'_>, rank: usize) -> Option<usize>
    ensures { result ≡ standing.stand core.now.program core.now.world rank }
{
    match stands(core, rank) {
        None => None,
        Some(stands) => stands.line(),
    }
}
