//! Requests that are lost: nobody can wait for them any more (docs/CONSOLE.md, "Answers").

ghost use Rattle.std.specs.Prelude.{◌≡◌, ◌<◌, ◌++◌, ◌||◌, ◌∷◌, ℕ, false, if◌then◌else◌, nat_lt, [], IfOk, OnOk, get_or, length};
ghost use Rattle.std.specs.List.{list_any};
ghost use Rattle.mpd_model.specs.steps.World.{call_id, calls_of};
ghost use Rattle.mpd_model.specs.runs.Breakpoints.{is_number};
ghost use Rattle.mpd_explain.specs.Lost as lost;

use mpd_core::Core;
use mpd_model::{Call, CallId, CallKind, blocks};
use mpd_names::{PlacedCall, issue_line, placed_call};
use std::alloc::{AllocError, Global};
use std::marker::Model;

/// Requests of one rank that are lost, all issued at one line.
#[derive(Clone, Copy)]
pub struct Loss {
    /// The first of them.
    pub first: PlacedCall,
    /// How many they are, at least 1.
    pub count: usize,
}

/// Requests that are lost, as contracts see them.
#[derive(Drop)]
pub struct LossList {
    pub items: Vec<Loss>,
}

impl Model for LossList {
    ghost use Rattle.std.specs.Prelude.{List};
    ghost use Rattle.mpd_explain.specs.declared.lost.Loss.{Loss};

    ghost Value = { List Loss };

    ghost view = { λ l. l.items.items };
}

/// Whether its rank doesn't wait for a call of this kind as it issues it.
fn is_request(kind: Option<CallKind>) -> bool
    ensures { result ≡ lost.is_request kind }
{
    match kind {
        None => false,
        Some(kind) => !blocks(kind),
    }
}

/// The number of the call that a wait is for.
fn target_of(kind: CallKind) -> Option<usize>
    ensures { result ≡ lost.target_of kind }
{
    match kind {
        CallKind::Wait(wait) => wait.target,
        _ => None,
    }
}

/// Whether it is a waitany.
fn is_waitany(kind: CallKind) -> bool
    ensures { result ≡ lost.is_waitany kind }
{
    match kind {
        CallKind::Waitany(_) => true,
        _ => false,
    }
}

/// Whether one of these calls is a waitany.
fn has_waitany(calls: &[Call]) -> bool
    ensures { result ≡ lost.has_waitany calls.now }
{
    calls.iter().any(|call| is_waitany(call.kind))
}

/// Whether one of these calls is a request.
fn has_request(calls: &[Call]) -> bool
    ensures { result ≡ list_any (λ c. lost.is_request (Some c.kind)) calls.now }
{
    calls.iter().any(|call| is_request(Some(call.kind)))
}

/// Notes that the call of a number is kept, if there is one.
#[tactic(auto, using(crate::proofs::LostLemmas::keeping))]
fn keep(kept: &mut [bool], number: Option<usize>)
    ensures count { length kept.new ≡ length kept.old }
    ensures kept { (i : ℕ) → i < length kept.old → get_or kept.new i false ≡ (get_or kept.old i false || is_number number i) }
{
    let Some(number) = number else {
        return;
    };
    if number < kept.len() {
        kept[number] = true;
    }
}

/// Notes the calls that handles hold.
fn keep_held(kept: &mut [bool], handles: &[Option<usize>])
    ensures count { length kept.new ≡ length kept.old }
    ensures kept { (i : ℕ) → i < length kept.old → get_or kept.new i false ≡ (get_or kept.old i false || list_any (λ h. is_number h i) handles.now) }
{
    for handle in handles {
        keep(kept, *handle);
    }
}

/// Notes the calls that waits are for.
fn keep_waited(kept: &mut [bool], calls: &[Call])
    ensures count { length kept.new ≡ length kept.old }
    ensures kept { (i : ℕ) → i < length kept.old → get_or kept.new i false ≡ (get_or kept.old i false || lost.is_waited calls.now i) }
{
    for call in calls {
        keep(kept, target_of(call.kind));
    }
}

/// For each call of a rank, whether a handle holds it, or a wait is for it.
fn kept_calls(alloc: Global, core: &Core<'_>, rank: usize) -> Result<Vec<bool>, AllocError>
    requires rank { rank < length core.now.world.ranks }
    requires calls { rank < length core.now.world.board.calls }
    ensures count { IfOk result (λ kept. length kept.items ≡ length (calls_of core.now.world.board rank)) }
    ensures kept { IfOk result (λ kept. (i : ℕ) → i < length (calls_of core.now.world.board rank) → get_or kept.items i false ≡ lost.is_kept core.now.world (call_id rank i)) }
{
    let calls = core.board().calls(rank);
    let mut kept = vec![in alloc; false; calls.len()]?;
    keep_held(&mut kept, core.rank(rank).handles());
    keep_waited(&mut kept, calls);
    Ok(kept)
}

/// Whether it is a send.
fn is_send(kind: Option<CallKind>) -> bool
    ensures { result ≡ lost.is_send kind }
{
    match kind {
        Some(CallKind::Send(_)) => true,
        _ => false,
    }
}

/// Whether a request of a rank is lost, if it is known whether it is kept and whether the rank has
/// issued a waitany.
fn is_lost(core: &Core<'_>, call: CallId, is_kept: bool, has_waitany: bool) -> bool
    requires kept { is_kept ≡ lost.is_kept core.now.world call }
    requires waitany { has_waitany ≡ lost.has_waitany (calls_of core.now.world.board call.rank) }
    ensures { result ≡ lost.is_lost core.now.world call }
{
    let kind = core.board().kind(call);
    is_request(kind)
        && !is_kept
        && !((is_send(kind) || has_waitany) && core.board().is_complete(call))
}

/// Lists a call if it is lost.
fn list_if_lost(
    core: &Core<'_>,
    calls: &mut Vec<CallId>,
    call: CallId,
    is_kept: bool,
    has_waitany: bool,
) -> Result<(), AllocError>
    requires kept { is_kept ≡ lost.is_kept core.now.world call }
    requires waitany { has_waitany ≡ lost.has_waitany (calls_of core.now.world.board call.rank) }
    ensures { OnOk result (calls.new.items ≡ calls.old.items ++ (if lost.is_lost core.now.world call then call ∷ [] else [])) }
{
    if is_lost(core, call, is_kept, has_waitany) {
        calls.push(call)?;
    }
    Ok(())
}

/// Lists the calls of a rank that are lost, if it is known of each whether it is kept.
fn list_lost_of(
    core: &Core<'_>,
    calls: &mut Vec<CallId>,
    rank: usize,
    kept: &[bool],
    has_waitany: bool,
) -> Result<(), AllocError>
    requires count { length kept.now ≡ length (calls_of core.now.world.board rank) }
    requires kept { (i : ℕ) → i < length (calls_of core.now.world.board rank) → get_or kept.now i false ≡ lost.is_kept core.now.world (call_id rank i) }
    requires waitany { has_waitany ≡ lost.has_waitany (calls_of core.now.world.board rank) }
    ensures { OnOk result (calls.new.items ≡ calls.old.items ++ lost.lost_calls_of core.now.world rank) }
{
    let count = kept.len();
    for index in 0..count {
        list_if_lost(
            core,
            calls,
            CallId { rank, index },
            kept[index],
            has_waitany,
        )?;
    }
    Ok(())
}

/// Lists the requests of a rank that are lost; of a rank that isn't there none.
#[tactic(auto, using(crate::proofs::LostLemmas::losing))]
fn list_lost(core: &Core<'_>, calls: &mut Vec<CallId>, rank: usize) -> Result<(), AllocError>
    ensures { OnOk result (calls.new.items ≡ calls.old.items ++ lost.lost_calls_of core.now.world rank) }
{
    if rank >= core.rank_count() {
        return Ok(());
    }
    let issued = core.board().calls(rank);
    if !has_request(issued) {
        return Ok(());
    }
    let kept = kept_calls(*calls.allocator(), core, rank)?;
    list_lost_of(core, calls, rank, &kept, has_waitany(issued))
}

/// The requests that are lost, by rank and call. `Err` means that memory was refused.
pub fn lost_calls(alloc: Global, core: &Core<'_>) -> Result<Vec<CallId>, AllocError>
    ensures { IfOk result (λ calls. calls.items ≡ lost.lost_calls core.now.world) }
{
    let mut calls = Vec::new(alloc);
    let count = core.rank_count();
    for rank in 0..count {
        list_lost(core, &mut calls, rank)?;
    }
    Ok(calls)
}

/// Whether two calls are of one rank and one line.
fn is_beside(core: &Core<'_>, call: CallId, other: CallId) -> bool
    ensures { result ≡ lost.is_beside core.now.program core.now.world.board call other }
{
    call.rank == other.rank && issue_line(core, call) == issue_line(core, other)
}

/// Whether one of some calls is beside another.
fn has_beside(core: &Core<'_>, call: CallId, calls: &[CallId]) -> bool
    ensures { result ≡ list_any (lost.is_beside core.now.program core.now.world.board call) calls.now }
{
    calls.iter().any(|other| is_beside(core, call, *other))
}

/// The first of some calls that is beside another.
fn first_beside(core: &Core<'_>, call: CallId, calls: &[CallId]) -> Option<CallId>
    ensures { result ≡ lost.first_beside core.now.program core.now.world.board call calls.now }
{
    for other in calls {
        if is_beside(core, call, *other) {
            return Some(*other);
        }
    }
    None
}

/// How many of some calls are beside another.
fn count_beside(core: &Core<'_>, call: CallId, calls: &[CallId]) -> usize
    ensures { result ≡ lost.count_beside core.now.program core.now.world.board call calls.now }
{
    let mut count = 0;
    for other in calls {
        if is_beside(core, call, *other) {
            count += 1;
        }
    }
    count
}

/// Whether it is this call.
fn is_this(call: CallId, other: Option<CallId>) -> bool
    ensures { result ≡ lost.is_this call other }
{
    match other {
        None => false,
        Some(other) => other.rank == call.rank && other.index == call.index,
    }
}

/// Adds the requests of the rank and the line of a call that are lost, if the call is the first of
/// them, and none of these was lost before.
fn push_loss(
    core: &Core<'_>,
    losses: &mut Vec<Loss>,
    before: &[CallId],
    calls: &[CallId],
    call: CallId,
) -> Result<(), AllocError>
    ensures { OnOk result (losses.new.items ≡ losses.old.items ++ lost.loss_at core.now.program core.now.world.board before.now calls.now call) }
{
    if is_this(call, first_beside(core, call, calls)) && !has_beside(core, call, before) {
        losses.push(Loss {
            first: placed_call(core, call),
            count: count_beside(core, call, calls),
        })?;
    }
    Ok(())
}

/// Of requests that are lost those of one rank and one line together, in the order of the first of
/// each, but for lines of which some were lost before. `Err` means that memory was refused.
pub fn losses(
    alloc: Global,
    core: &Core<'_>,
    before: &[CallId],
    calls: &[CallId],
) -> Result<Vec<Loss>, AllocError>
    ensures { IfOk result (λ losses. losses.items ≡ lost.losses core.now.program core.now.world.board before.now calls.now) }
{
    let mut losses = Vec::new(alloc);
    for call in calls {
        push_loss(core, &mut losses, before, calls, *call)?;
    }
    Ok(losses)
}

/// The requests of a rank that are lost, a line of the script together; of a rank that isn't there
/// none. `Err` means that memory was refused.
pub fn losses_of(alloc: Global, core: &Core<'_>, rank: usize) -> Result<Vec<Loss>, AllocError>
    ensures { IfOk result (λ losses. losses.items ≡ lost.losses core.now.program core.now.world.board [] (lost.lost_calls_of core.now.world rank)) }
{
    let mut calls = Vec::new(alloc);
    list_lost(core, &mut calls, rank)?;
    losses(alloc, core, &[], &calls)
}

/// The requests of all ranks that are lost. `Err` means that memory was refused.
pub fn all_losses(alloc: Global, core: &Core<'_>) -> Result<Vec<Loss>, AllocError>
    ensures { IfOk result (λ losses. losses.items ≡ lost.all_losses core.now.program core.now.world) }
{
    let calls = lost_calls(alloc, core)?;
    losses(alloc, core, &[], &calls)
}
