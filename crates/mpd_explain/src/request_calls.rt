//! What a wait and a waitany are for, and who is at a barrier.

ghost use Rattle.std.specs.Prelude.{◌≡◌, ◌++◌, IfOk, OnOk, take, drop, slice_get};
ghost use Rattle.std.specs.List.{flat_map};
ghost use Rattle.mpd_model.specs.steps.Next.{is_at_barrier as at_barrier};
ghost use Rattle.mpd_explain.specs.Requests as requested;

use mpd_core::Core;
use mpd_model::{Activity, CallId, CallKind, WaitanyCall, is_barrier};
use std::alloc::{AllocError, Global};

/// Adds the call of a rank with that number, if there is a number.
fn push_target(
    calls: &mut Vec<CallId>,
    rank: usize,
    target: Option<usize>,
) -> Result<(), AllocError>
    ensures { OnOk result (calls.new.items ≡ calls.old.items ++ requested.call_of rank target) }
{
    if let Some(index) = target {
        calls.push(CallId { rank, index })?;
    }
    Ok(())
}

/// What the handles of a waitany hold, of all handles of a rank.
#[tactic(auto, using(crate::proofs::TellLemmas::handling))]
fn own_handles<'h>(handles: &'h [Option<usize>], wait: WaitanyCall) -> &'h [Option<usize>]
    ensures { result.now ≡ take wait.count (drop wait.first handles.now) }
{
    let (_, behind) = handles.split_at(wait.first.min(handles.len()));
    let (own, _) = behind.split_at(wait.count.min(behind.len()));
    own
}

/// Adds the calls of a rank that some handles hold.
fn push_targets(
    calls: &mut Vec<CallId>,
    rank: usize,
    handles: &[Option<usize>],
) -> Result<(), AllocError>
    ensures { OnOk result (calls.new.items ≡ calls.old.items ++ flat_map (requested.call_of rank) handles.now) }
{
    for handle in handles {
        push_target(calls, rank, *handle)?;
    }
    Ok(())
}

/// Adds the calls that the handles of a waitany of a rank hold.
#[tactic(auto, using(crate::proofs::TellLemmas::telling))]
fn push_held(
    core: &Core<'_>,
    calls: &mut Vec<CallId>,
    rank: usize,
    wait: WaitanyCall,
) -> Result<(), AllocError>
    ensures { OnOk result (calls.new.items ≡ calls.old.items ++ flat_map (requested.call_of rank) (requested.request_handles wait (slice_get core.now.world.ranks rank))) }
{
    if rank >= core.rank_count() {
        return Ok(());
    }
    push_targets(calls, rank, own_handles(core.rank(rank).handles(), wait))
}

/// Adds the calls that a wait or a waitany of a rank is for; none of any other call.
pub(crate) fn push_requested(
    core: &Core<'_>,
    calls: &mut Vec<CallId>,
    rank: usize,
    kind: Option<CallKind>,
) -> Result<(), AllocError>
    ensures { OnOk result (calls.new.items ≡ calls.old.items ++ requested.requests core.now.world rank kind) }
{
    match kind {
        Some(CallKind::Wait(wait)) => push_target(calls, rank, wait.target),
        Some(CallKind::Waitany(wait)) => push_held(core, calls, rank, wait),
        None | Some(CallKind::Send(_)) | Some(CallKind::Recv(_)) | Some(CallKind::Barrier) => Ok(
            (),
        ),
    }
}

/// The calls that a wait or a waitany of a rank is for; none of any other call.
pub fn requests(
    alloc: Global,
    core: &Core<'_>,
    rank: usize,
    kind: Option<CallKind>,
) -> Result<Vec<CallId>, AllocError>
    ensures { IfOk result (λ calls. calls.items ≡ requested.requests core.now.world rank kind) }
{
    let mut calls = Vec::new(alloc);
    push_requested(core, &mut calls, rank, kind)?;
    Ok(calls)
}

/// Whether a rank is blocked on a barrier.
#[tactic(auto, using(crate::proofs::TellLemmas::telling))]
pub(crate) fn is_at_barrier(core: &Core<'_>, rank: usize) -> bool
    ensures { result ≡ at_barrier core.now.world rank }
{
    match core.activity(rank) {
        None | Some(Activity::Running) | Some(Activity::Trapped(_)) => false,
        Some(Activity::Blocked) => is_barrier(core.board().kind(core.board().last_call(rank))),
    }
}
