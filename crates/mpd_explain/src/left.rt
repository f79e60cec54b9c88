//! Calls that are left over: sends and receives that are not matched where a run ends
//! (docs/FORMATS.md, "Explanations").

ghost use Rattle.std.specs.Prelude.{◌≡◌, ◌++◌, IfOk, OnOk, map};
ghost use Rattle.mpd_names.specs.Placed.{placed_call_of};
ghost use Rattle.mpd_explain.specs.Left as spec;

use crate::near_miss::is_among;
use crate::request_calls::push_requested;
use mpd_core::Core;
use mpd_model::CallId;
use mpd_names::{PlacedCall, placed_call};
use std::alloc::{AllocError, Global};

/// Adds a blocked call and, if it is a wait or a waitany, the requests that it waits for.
fn push_awaited(core: &Core<'_>, calls: &mut Vec<CallId>, blocked: CallId) -> Result<(), AllocError>
    ensures { OnOk result (calls.new.items ≡ calls.old.items ++ spec.awaited_by core.now.world blocked) }
{
    calls.push(blocked)?;
    push_requested(core, calls, blocked.rank, core.board().kind(blocked))
}

/// Blocked calls, each with the requests that it waits for if it is a wait or a waitany.
pub(crate) fn awaited(
    alloc: Global,
    core: &Core<'_>,
    blocked: &[CallId],
) -> Result<Vec<CallId>, AllocError>
    ensures { IfOk result (λ calls. calls.items ≡ spec.awaited core.now.world blocked.now) }
{
    let mut calls = Vec::new(alloc);
    for call in blocked {
        push_awaited(core, &mut calls, *call)?;
    }
    Ok(calls)
}

/// Whether a call is free, and none of those of which something is told.
fn is_left(core: &Core<'_>, told: &[CallId], call: CallId) -> bool
    ensures { result ≡ spec.is_left core.now.world.board told.now call }
{
    core.board().is_free(call) && !is_among(told, call)
}

/// Adds a call with its place, if it is free, and none of those of which something is told.
fn push_if_left(
    core: &Core<'_>,
    left: &mut Vec<PlacedCall>,
    told: &[CallId],
    call: CallId,
) -> Result<(), AllocError>
    ensures { OnOk result (left.new.items ≡ left.old.items ++ spec.left_with core.now.program core.now.world.board told.now call) }
{
    if is_left(core, told, call) {
        left.push(placed_call(core, call))?;
    }
    Ok(())
}

/// Adds those of a rank.
fn push_left_at(
    core: &Core<'_>,
    left: &mut Vec<PlacedCall>,
    told: &[CallId],
    rank: usize,
) -> Result<(), AllocError>
    ensures { OnOk result (left.new.items ≡ left.old.items ++ spec.left_at core.now.program core.now.world.board told.now rank) }
{
    let count = core.board().call_count(rank);
    for index in 0..count {
        push_if_left(core, left, told, CallId { rank, index })?;
    }
    Ok(())
}

/// All free calls but some of which something is told, by rank and number.
pub(crate) fn left_beside(
    alloc: Global,
    core: &Core<'_>,
    told: &[CallId],
) -> Result<Vec<PlacedCall>, AllocError>
    ensures { IfOk result (λ left. left.items ≡ spec.left_beside core.now.program core.now.world.board told.now) }
{
    let mut left = Vec::new(alloc);
    let count = core.rank_count();
    for rank in 0..count {
        push_left_at(core, &mut left, told, rank)?;
    }
    Ok(left)
}

/// Calls with their places.
pub(crate) fn placed_calls(
    alloc: Global,
    core: &Core<'_>,
    calls: &[CallId],
) -> Result<Vec<PlacedCall>, AllocError>
    ensures { IfOk result (λ placed. placed.items ≡ map (placed_call_of core.now.program core.now.world.board) calls.now) }
{
    let mut placed = Vec::new(alloc);
    for call in calls {
        placed.push(placed_call(core, *call))?;
    }
    Ok(placed)
}
