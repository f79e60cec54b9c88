//! Looks at the free calls of a state (docs/CONSOLE.md, "Looks").

ghost use Rattle.std.specs.Prelude.{◌≡◌, ◌++◌, IfOk, OnOk};
ghost use Rattle.mpd_model.specs.steps.World.{is_pending as pending_on, is_posted as posted_on};
ghost use Rattle.mpd_explain.specs.Shown as shown;

use crate::ends::PlacedList;
use mpd_core::Core;
use mpd_model::{CallId, CallKind};
use mpd_names::{PlacedCall, placed_call};
use std::alloc::{AllocError, Global};

/// Whether a call of a rank is a free send to another.
fn is_pending(core: &Core<'_>, sender: usize, receiver: usize, index: usize) -> bool
    ensures { result ≡ pending_on core.now.world.board sender receiver index }
{
    let call = CallId {
        rank: sender,
        index,
    };
    match core.board().kind(call) {
        Some(CallKind::Send(send)) => send.to == receiver && core.board().is_free(call),
        _ => false,
    }
}

/// Whether a call of a rank is a free receive.
fn is_posted(core: &Core<'_>, rank: usize, index: usize) -> bool
    ensures { result ≡ posted_on core.now.world.board rank index }
{
    let call = CallId { rank, index };
    match core.board().kind(call) {
        Some(CallKind::Recv(_)) => core.board().is_free(call),
        _ => false,
    }
}

/// Adds a call of a rank, if it is a free send to another.
fn push_if_pending(
    core: &Core<'_>,
    calls: &mut Vec<PlacedCall>,
    sender: usize,
    receiver: usize,
    index: usize,
) -> Result<(), AllocError>
    ensures { OnOk result (calls.new.items ≡ calls.old.items ++ shown.pending_at core.now.program core.now.world.board sender receiver index) }
{
    if is_pending(core, sender, receiver, index) {
        let rank = sender;
        calls.push(placed_call(core, CallId { rank, index }))?;
    }
    Ok(())
}

/// Adds a call of a rank, if it is a free receive.
fn push_if_posted(
    core: &Core<'_>,
    calls: &mut Vec<PlacedCall>,
    rank: usize,
    index: usize,
) -> Result<(), AllocError>
    ensures { OnOk result (calls.new.items ≡ calls.old.items ++ shown.posted_at core.now.program core.now.world.board rank index) }
{
    if is_posted(core, rank, index) {
        calls.push(placed_call(core, CallId { rank, index }))?;
    }
    Ok(())
}

/// Adds the free sends of a rank to another.
fn push_pending(
    core: &Core<'_>,
    calls: &mut Vec<PlacedCall>,
    sender: usize,
    receiver: usize,
) -> Result<(), AllocError>
    ensures { OnOk result (calls.new.items ≡ calls.old.items ++ shown.pending_to core.now.program core.now.world.board sender receiver) }
{
    let count = core.board().call_count(sender);
    for index in 0..count {
        push_if_pending(core, calls, sender, receiver, index)?;
    }
    Ok(())
}

/// Adds the free receives of a rank.
fn push_posted(core: &Core<'_>, calls: &mut Vec<PlacedCall>, rank: usize) -> Result<(), AllocError>
    ensures { OnOk result (calls.new.items ≡ calls.old.items ++ shown.posted_of core.now.program core.now.world.board rank) }
{
    let count = core.board().call_count(rank);
    for index in 0..count {
        push_if_posted(core, calls, rank, index)?;
    }
    Ok(())
}

/// Adds the free sends of a rank, by receiver.
fn push_pending_from(
    core: &Core<'_>,
    calls: &mut Vec<PlacedCall>,
    sender: usize,
) -> Result<(), AllocError>
    ensures { OnOk result (calls.new.items ≡ calls.old.items ++ shown.pending_from core.now.program core.now.world.board sender) }
{
    let count = core.rank_count();
    for receiver in 0..count {
        push_pending(core, calls, sender, receiver)?;
    }
    Ok(())
}

/// All free sends, by sender, then by receiver, then in the order of issue. `Err` means that memory
/// was refused.
pub fn pending_calls(alloc: Global, core: &Core<'_>) -> Result<PlacedList, AllocError>
    ensures { IfOk result (λ calls. calls ≡ shown.pending_calls core.now.program core.now.world.board) }
{
    let mut items = Vec::new(alloc);
    let count = core.rank_count();
    for sender in 0..count {
        push_pending_from(core, &mut items, sender)?;
    }
    Ok(PlacedList { items })
}

/// All free receives, by rank, and then in the order of issue. `Err` means that memory was refused.
pub fn posted_calls(alloc: Global, core: &Core<'_>) -> Result<PlacedList, AllocError>
    ensures { IfOk result (λ calls. calls ≡ shown.posted_calls core.now.program core.now.world.board) }
{
    let mut items = Vec::new(alloc);
    let count = core.rank_count();
    for rank in 0..count {
        push_posted(core, &mut items, rank)?;
    }
    Ok(PlacedList { items })
}
