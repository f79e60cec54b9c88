//! Why a call isn't matched (docs/CONSOLE.md, "Looks").

ghost use Rattle.std.specs.Prelude.{◌≡◌, IfOk, map};
ghost use Rattle.std.specs.Option.{option_map};
ghost use Rattle.mpd_model.specs.steps.World.{kind_at};
ghost use Rattle.mpd_names.specs.Placed.{placed_call_of};
ghost use Rattle.mpd_explain.specs.Whys as spec;

use crate::ends::{AbsenceList, absences};
use crate::near_miss::{Wish, wish_of};
use crate::request_calls::requests;
use mpd_core::Core;
use mpd_model::{CallId, CallKind};
use mpd_names::{PlacedCall, is_blocked, placed_call};
use std::alloc::{AllocError, Global};
use std::marker::Model;

/// A call that a free call could be matched with.
#[derive(Clone, Copy)]
pub struct Partner {
    pub call: PlacedCall,
    /// What holds the match back, if anything does: an earlier call that goes first (MPI 4.0,
    /// section 3.5).
    pub held_by: Option<PlacedCall>,
}

/// Calls that a free call could be matched with, as contracts see them.
#[derive(Drop)]
pub struct PartnerList {
    pub items: Vec<Partner>,
}

impl Model for PartnerList {
    ghost use Rattle.std.specs.Prelude.{List};
    ghost use Rattle.mpd_explain.specs.declared.why.Partner.{Partner};

    ghost Value = { List Partner };

    ghost view = { λ l. l.items.items };
}

/// What a call can be matched with.
#[derive(Drop)]
pub enum Chances {
    /// It is not a free send or receive.
    NotFree,
    /// It is free, and fits these, one at least.
    With(PartnerList),
    /// It is free, and fits none: what nearly fits it or would have.
    Lonely(Wish),
}

/// A call, and what it can be matched with.
#[derive(Drop)]
pub struct Fit {
    pub call: CallId,
    pub chances: Chances,
}

/// Calls, each with what it can be matched with, as contracts see them.
#[derive(Drop)]
pub struct FitList {
    pub items: Vec<Fit>,
}

impl Model for FitList {
    ghost use Rattle.std.specs.Prelude.{List};
    ghost use Rattle.mpd_explain.specs.declared.why.Fit.{Fit};
    ghost use Rattle.mpd_explain.specs.WhyCodes.{fits_code};

    ghost Value = { List Fit };

    ghost coded = { fits_code };

    ghost view = { λ l. l.items.items };
}

/// Why a call isn't matched, or isn't complete.
#[derive(Drop)]
pub struct Why {
    /// The call.
    pub fit: Fit,
    /// The calls that a wait is for, and those that a waitany is for while its rank waits there.
    pub requests: FitList,
    /// The ranks that are not at a barrier while the call's rank waits there.
    pub absent: AbsenceList,
}

/// The call that holds a match back, with its place.
fn placed_holder(core: &Core<'_>, holder: Option<CallId>) -> Option<PlacedCall>
    ensures { result ≡ option_map (placed_call_of core.now.program core.now.world.board) holder }
{
    match holder {
        None => None,
        Some(call) => Some(placed_call(core, call)),
    }
}

/// Calls that fit another, with their places.
fn partners_of(
    alloc: Global,
    core: &Core<'_>,
    partners: &[(CallId, Option<CallId>)],
) -> Result<PartnerList, AllocError>
    ensures { IfOk result (λ list. list ≡ map (spec.partner_of core.now.program core.now.world.board) partners.now) }
{
    let mut items = Vec::new(alloc);
    for partner in partners {
        let (call, holder) = *partner;
        items.push(Partner {
            call: placed_call(core, call),
            held_by: placed_holder(core, holder),
        })?;
    }
    Ok(PartnerList { items })
}

/// What a free call can be matched with, given the calls that fit it.
fn chances_by(
    alloc: Global,
    core: &Core<'_>,
    call: CallId,
    partners: &[(CallId, Option<CallId>)],
) -> Result<Chances, AllocError>
    ensures { IfOk result (λ chances. chances ≡ spec.chances_by core.now.program core.now.world call partners.now) }
{
    if partners.is_empty() {
        return Ok(Chances::Lonely(wish_of(alloc, core, call)?));
    }
    Ok(Chances::With(partners_of(alloc, core, partners)?))
}

/// What a call can be matched with.
fn chances_of(alloc: Global, core: &Core<'_>, call: CallId) -> Result<Chances, AllocError>
    ensures { IfOk result (λ chances. chances ≡ spec.chances_of core.now.program core.now.world call) }
{
    if !core.board().is_free(call) {
        return Ok(Chances::NotFree);
    }
    let why = core.board().why(alloc, call)?;
    chances_by(alloc, core, call, &why.partners)
}

/// A call, and what it can be matched with.
fn fit_of(alloc: Global, core: &Core<'_>, call: CallId) -> Result<Fit, AllocError>
    ensures { IfOk result (λ fit. fit ≡ spec.fit_of core.now.program core.now.world call) }
{
    let chances = chances_of(alloc, core, call)?;
    Ok(Fit { call, chances })
}

/// The same of several.
fn fits_of(alloc: Global, core: &Core<'_>, calls: &[CallId]) -> Result<FitList, AllocError>
    ensures { IfOk result (λ list. list ≡ map (spec.fit_of core.now.program core.now.world) calls.now) }
{
    let mut items = Vec::new(alloc);
    for call in calls {
        let fit = fit_of(alloc, core, *call)?;
        items.push(fit)?;
    }
    Ok(FitList { items })
}

/// Whether a rank waits in this call.
fn waits_in(core: &Core<'_>, call: CallId) -> bool
    ensures { result ≡ spec.waits_in core.now.world call }
{
    let last = core.board().last_call(call.rank);
    is_blocked(core, call.rank) && (last.rank == call.rank && last.index == call.index)
}

/// The calls that a wait is for, and those that a waitany is for while its rank waits there.
fn awaited_calls(
    alloc: Global,
    core: &Core<'_>,
    call: CallId,
    kind: CallKind,
) -> Result<Vec<CallId>, AllocError>
    ensures { IfOk result (λ calls. calls.items ≡ spec.awaited_calls core.now.world call kind) }
{
    match kind {
        CallKind::Waitany(_) if !waits_in(core, call) => Ok(Vec::new(alloc)),
        _ => requests(alloc, core, call.rank, Some(kind)),
    }
}

/// The ranks that are not at a barrier, while the call's rank waits there.
fn absent_at(
    alloc: Global,
    core: &Core<'_>,
    call: CallId,
    kind: CallKind,
) -> Result<AbsenceList, AllocError>
    ensures { IfOk result (λ list. list ≡ spec.absent_at core.now.program core.now.world call kind) }
{
    match kind {
        CallKind::Barrier if waits_in(core, call) => absences(alloc, core),
        _ => Ok(AbsenceList {
            items: Vec::new(alloc),
        }),
    }
}

/// Why a call of this kind isn't matched.
fn why_by(alloc: Global, core: &Core<'_>, call: CallId, kind: CallKind) -> Result<Why, AllocError>
    ensures { IfOk result (λ why. why ≡ spec.why_by core.now.program core.now.world call kind) }
{
    let fit = fit_of(alloc, core, call)?;
    let calls = awaited_calls(alloc, core, call, kind)?;
    let requests = fits_of(alloc, core, &calls)?;
    let absent = absent_at(alloc, core, call, kind)?;
    Ok(Why {
        fit,
        requests,
        absent,
    })
}

/// Why a call isn't matched, or isn't complete; `None` if there is no such call. `Err` means that
/// memory was refused.
pub fn why_of(alloc: Global, core: &Core<'_>, call: CallId) -> Result<Option<Why>, AllocError>
    ensures { IfOk result (λ why. why ≡ option_map (spec.why_by core.now.program core.now.world call) (kind_at core.now.world.board call)) }
{
    match core.board().kind(call) {
        None => Ok(None),
        Some(kind) => Ok(Some(why_by(alloc, core, call, kind)?)),
    }
}
