//! Why a rank waits (docs/PAGES.md, "States").

ghost use Rattle.std.specs.Prelude.{◌≡◌, ◌++◌, [], ◌∷◌, if◌then◌else◌, Some, IfOk, OnOk, map};
ghost use Rattle.mpd_model.specs.steps.Next.{is_at_barrier as at_barrier};
ghost use Rattle.mpd_explain.specs.Requests.{requests as requested};
ghost use Rattle.mpd_explain.specs.Waits.{absent as absent_ranks};
ghost use Rattle.mpd_page.specs.Reasons as spec;

use mpd_core::Core;
use mpd_explain::requests;
use mpd_model::{CallId, CallKind, is_barrier};
use mpd_names::is_blocked;
use std::alloc::{AllocError, Global};
use std::marker::Model;

/// Calls that a call could be matched with, each with the call that holds the match back, if one
/// does, as contracts see them.
#[derive(Drop)]
pub struct PartnerList {
    pub items: Vec<(CallId, Option<CallId>)>,
}

impl Model for PartnerList {
    ghost use Rattle.std.specs.Prelude.{List, Option};
    ghost use Rattle.mpd_model.specs.declared.step.CallId.{CallId};

    ghost Value = { List (CallId × Option CallId) };

    ghost view = { λ l. l.items.items };
}

/// What a send or a receive that is waited for comes to.
#[derive(Drop)]
pub enum Prospect {
    Complete,
    /// It could be matched with these.
    Fits(PartnerList),
}

/// A send or a receive that is waited for.
#[derive(Drop)]
pub struct Awaited {
    pub call: CallId,
    pub prospect: Prospect,
}

/// Those that are waited for, as contracts see them.
#[derive(Drop)]
pub struct AwaitedList {
    pub items: Vec<Awaited>,
}

impl Model for AwaitedList {
    ghost use Rattle.std.specs.Prelude.{List};
    ghost use Rattle.mpd_page.specs.declared.reasons.Awaited.{Awaited};
    ghost use Rattle.mpd_page.specs.ReasonCodes.{awaited_code};

    ghost Value = { List Awaited };

    ghost coded = { awaited_code };

    ghost view = { λ l. l.items.items };
}

/// Ranks, as contracts see them.
#[derive(Drop)]
pub struct RankList {
    pub items: Vec<usize>,
}

impl Model for RankList {
    ghost use Rattle.std.specs.Prelude.{List, ℕ};

    ghost Value = { List ℕ };

    ghost view = { λ l. l.items.items };
}

/// Why a rank waits.
#[derive(Drop)]
pub enum Reason {
    /// It doesn't wait.
    NoWait,
    /// For these ranks, which aren't at a barrier.
    AtBarrier(RankList),
    /// For these sends and receives.
    For(AwaitedList),
}

/// That a call is complete, or what it could be matched with.
fn prospect_of(alloc: Global, core: &Core<'_>, call: CallId) -> Result<Prospect, AllocError>
    ensures { IfOk result (λ p. p ≡ spec.prospect core.now.world.board call) }
{
    if core.board().is_done(call) {
        return Ok(Prospect::Complete);
    }
    let why = core.board().why(alloc, call)?;
    Ok(Prospect::Fits(PartnerList {
        items: why.partners,
    }))
}

/// A send or a receive that is waited for.
fn awaited_call(alloc: Global, core: &Core<'_>, call: CallId) -> Result<Awaited, AllocError>
    ensures { IfOk result (λ a. a ≡ spec.awaited core.now.world.board call) }
{
    let prospect = prospect_of(alloc, core, call)?;
    Ok(Awaited { call, prospect })
}

/// Those that are waited for.
fn all_awaited(alloc: Global, core: &Core<'_>, calls: &[CallId]) -> Result<AwaitedList, AllocError>
    ensures { IfOk result (λ list. list ≡ map (spec.awaited core.now.world.board) calls.now) }
{
    let mut items = Vec::new(alloc);
    for call in calls {
        let one = awaited_call(alloc, core, *call)?;
        items.push(one)?;
    }
    Ok(AwaitedList { items })
}

/// Whether a rank is blocked on a barrier.
fn is_at_barrier(core: &Core<'_>, rank: usize) -> bool
    ensures { result ≡ at_barrier core.now.world rank }
{
    is_blocked(core, rank) && is_barrier(core.board().kind(core.board().last_call(rank)))
}

/// Adds a rank, if it is chosen.
fn push_if(ranks: &mut Vec<usize>, rank: usize, is_chosen: bool) -> Result<(), AllocError>
    ensures { OnOk result (ranks.new.items ≡ ranks.old.items ++ (if is_chosen then rank ∷ [] else [])) }
{
    if is_chosen {
        ranks.push(rank)?;
    }
    Ok(())
}

/// The ranks that aren't at a barrier.
fn absent(alloc: Global, core: &Core<'_>) -> Result<RankList, AllocError>
    ensures { IfOk result (λ list. list ≡ absent_ranks core.now.world) }
{
    let mut items = Vec::new(alloc);
    let count = core.rank_count();
    for rank in 0..count {
        push_if(&mut items, rank, !is_at_barrier(core, rank))?;
    }
    Ok(RankList { items })
}

/// What a wait or a waitany is for.
fn requested_by(
    alloc: Global,
    core: &Core<'_>,
    call: CallId,
    kind: CallKind,
) -> Result<AwaitedList, AllocError>
    ensures { IfOk result (λ list. list ≡ map (spec.awaited core.now.world.board) (requested core.now.world call.rank (Some kind))) }
{
    let calls = requests(alloc, core, call.rank, Some(kind))?;
    all_awaited(alloc, core, &calls)
}

/// The call that a rank waits in, or what that is for.
fn waited(alloc: Global, core: &Core<'_>, call: CallId) -> Result<Reason, AllocError>
    ensures { IfOk result (λ r. r ≡ spec.waited core.now.world call) }
{
    match core.board().kind(call) {
        None => Ok(Reason::For(AwaitedList {
            items: Vec::new(alloc),
        })),
        Some(CallKind::Send(_)) | Some(CallKind::Recv(_)) => {
            Ok(Reason::For(all_awaited(alloc, core, &[call])?))
        }
        Some(CallKind::Wait(wait)) => {
            let list = requested_by(alloc, core, call, CallKind::Wait(wait))?;
            Ok(Reason::For(list))
        }
        Some(CallKind::Waitany(wait)) => {
            let list = requested_by(alloc, core, call, CallKind::Waitany(wait))?;
            Ok(Reason::For(list))
        }
        Some(CallKind::Barrier) => Ok(Reason::AtBarrier(absent(alloc, core)?)),
    }
}

/// Why a rank waits, if it does.
pub(crate) fn reason_of(alloc: Global, core: &Core<'_>, rank: usize) -> Result<Reason, AllocError>
    ensures { IfOk result (λ r. r ≡ spec.reason core.now.world rank) }
{
    if !is_blocked(core, rank) {
        return Ok(Reason::NoWait);
    }
    waited(alloc, core, core.board().last_call(rank))
}
