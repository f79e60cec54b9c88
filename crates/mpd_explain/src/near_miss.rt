//! What nearly fits a call that waits, and what would have fitted it.

ghost use Rattle.std.specs.Prelude.{◌≡◌, ◌++◌, IfOk, OnOk, Some, map};
ghost use Rattle.std.specs.List.{list_any};
ghost use Rattle.std.specs.Option.{option_map};
ghost use Rattle.mpd_model.specs.steps.World.{id_eq, fits as fits_on};
ghost use Rattle.mpd_model.specs.steps.Why.{or_else};
ghost use Rattle.mpd_explain.specs.Missed as missed;
ghost use Rattle.mpd_explain.specs.Wishes as wished;

use crate::request_calls::requests;
use mpd_core::Core;
use mpd_match::is_any_or;
use mpd_model::{Activity, CallId, CallKind, MatchSet};
use mpd_names::{PlacedCall, placed_call};
use std::alloc::{AllocError, Global};

/// The one thing in which a send and a receive don't fit (MPI 4.0, section 3.2.4).
#[derive(Clone, Copy)]
pub enum Miss {
    /// The tag.
    Tag,
    /// The source that the receive names.
    Source,
    /// The rank that the send goes to.
    Destination,
}

/// A free call that fits another but for one thing.
#[derive(Clone, Copy)]
pub struct NearMiss {
    /// The call.
    pub call: PlacedCall,
    /// In what it doesn't fit.
    pub miss: Miss,
}

/// A call that would have fitted another, and is matched with a third.
#[derive(Clone, Copy)]
pub struct TakenCall {
    /// The call.
    pub call: PlacedCall,
    /// The call that it is matched with.
    pub by: PlacedCall,
}

/// A call that isn't matched, and what nearly fits it or would have.
#[derive(Clone, Copy)]
pub struct Wish {
    /// The call.
    pub call: PlacedCall,
    /// The free call that fits it but for one thing, if there is one: of several the nearest
    /// (docs/FORMATS.md, "Near misses").
    pub nearest: Option<NearMiss>,
    /// The last call that fits it and is matched with another, if there is one.
    pub taken: Option<TakenCall>,
}

/// Which of three things fails, if exactly one does.
fn miss_of(to: bool, from: bool, tag: bool) -> Option<Miss>
    ensures { result ≡ missed.miss_of to from tag }
{
    match (to, from, tag) {
        (true, true, false) => Some(Miss::Tag),
        (true, false, true) => Some(Miss::Source),
        (false, true, true) => Some(Miss::Destination),
        (true, true, true)
        | (true, false, false)
        | (false, true, false)
        | (false, false, true)
        | (false, false, false) => None,
    }
}

/// The one thing in which a send of one rank and a receive of another don't fit.
fn missing(
    one: Option<CallKind>,
    other: Option<CallKind>,
    sender: usize,
    receiver: usize,
) -> Option<Miss>
    ensures { result ≡ missed.missing one other sender receiver }
{
    match (one, other) {
        (Some(CallKind::Send(send)), Some(CallKind::Recv(recv))) => miss_of(
            send.to == receiver,
            is_any_or(recv.from, sender),
            is_any_or(recv.tag, send.tag),
        ),
        _ => None,
    }
}

/// The one thing in which two calls don't fit, of which either may be the send.
fn near_miss(core: &Core<'_>, call: CallId, other: CallId) -> Option<Miss>
    ensures { result ≡ missed.near_miss core.now.world.board call other }
{
    let kind = core.board().kind(call);
    let its = core.board().kind(other);
    match missing(kind, its, call.rank, other.rank) {
        Some(miss) => Some(miss),
        None => missing(its, kind, other.rank, call.rank),
    }
}

/// The one thing in which a free call doesn't fit another.
fn free_miss(core: &Core<'_>, call: CallId, other: CallId) -> Option<Miss>
    ensures { result ≡ missed.free_miss core.now.world.board call other }
{
    if core.board().is_free(other) {
        near_miss(core, call, other)
    } else {
        None
    }
}

/// Adds a call, if it is free and nearly fits another.
fn push_miss(
    core: &Core<'_>,
    call: CallId,
    other: CallId,
    out: &mut Vec<(CallId, Miss)>,
) -> Result<(), AllocError>
    ensures { OnOk result (out.new.items ≡ out.old.items ++ missed.misses_with core.now.world.board call other) }
{
    if let Some(miss) = free_miss(core, call, other) {
        out.push((other, miss))?;
    }
    Ok(())
}

/// Adds the free calls of a rank that nearly fit a call.
fn push_misses_at(
    core: &Core<'_>,
    call: CallId,
    rank: usize,
    out: &mut Vec<(CallId, Miss)>,
) -> Result<(), AllocError>
    ensures { OnOk result (out.new.items ≡ out.old.items ++ missed.misses_at core.now.world.board call rank) }
{
    let count = core.board().call_count(rank);
    for index in 0..count {
        push_miss(core, call, CallId { rank, index }, out)?;
    }
    Ok(())
}

/// The free calls that nearly fit a call, by rank and number.
fn misses(alloc: Global, core: &Core<'_>, call: CallId) -> Result<Vec<(CallId, Miss)>, AllocError>
    ensures { IfOk result (λ ms. ms.items ≡ missed.misses core.now.world.board call) }
{
    let mut found = Vec::new(alloc);
    let count = core.rank_count();
    for rank in 0..count {
        push_misses_at(core, call, rank, &mut found)?;
    }
    Ok(found)
}

/// Whether two are the same.
fn is_same(one: Miss, other: Miss) -> bool
    ensures { result ≡ missed.same_miss one other }
{
    match (one, other) {
        (Miss::Tag, Miss::Tag) => true,
        (Miss::Source, Miss::Source) => true,
        (Miss::Destination, Miss::Destination) => true,
        _ => false,
    }
}

/// The first that differs in this alone.
fn first_miss(wanted: Miss, misses: &[(CallId, Miss)]) -> Option<(CallId, Miss)>
    ensures { result ≡ missed.first_miss wanted misses.now }
{
    for entry in misses {
        let (_, miss) = *entry;
        if is_same(wanted, miss) {
            return Some(*entry);
        }
    }
    None
}

/// The first that differs in the tag alone, else in this one thing, else in that one.
fn by_order(next: Miss, last: Miss, misses: &[(CallId, Miss)]) -> Option<(CallId, Miss)>
    ensures { result ≡ missed.by_order next last misses.now }
{
    if let Some(entry) = first_miss(Miss::Tag, misses) {
        return Some(entry);
    }
    if let Some(entry) = first_miss(next, misses) {
        return Some(entry);
    }
    first_miss(last, misses)
}

/// The first that differs in the tag alone, else the first of the rank that is waited for, else the
/// first of another.
fn nearest_of(kind: Option<CallKind>, misses: &[(CallId, Miss)]) -> Option<(CallId, Miss)>
    ensures { result ≡ missed.nearest_of kind misses.now }
{
    match kind {
        Some(CallKind::Recv(_)) => by_order(Miss::Destination, Miss::Source, misses),
        None
        | Some(CallKind::Send(_))
        | Some(CallKind::Wait(_))
        | Some(CallKind::Waitany(_))
        | Some(CallKind::Barrier) => by_order(Miss::Source, Miss::Destination, misses),
    }
}

/// Whether a rank waits for a call of this kind from when it issues it, or it is a send that is
/// buffered.
fn is_at_once(kind: Option<CallKind>) -> bool
    ensures { result ≡ missed.is_at_once kind }
{
    match kind {
        Some(CallKind::Send(send)) => send.blocks || send.buffered,
        Some(CallKind::Recv(recv)) => recv.blocks,
        None | Some(CallKind::Wait(_)) | Some(CallKind::Waitany(_)) | Some(CallKind::Barrier) =>
            false,
    }
}

/// Whether a call is one of these.
pub(crate) fn is_among(calls: &[CallId], wanted: CallId) -> bool
    ensures { result ≡ list_any (λ d. id_eq d wanted) calls.now }
{
    calls.iter().any(|call| call.rank == wanted.rank && call.index == wanted.index)
}

/// Whether a call is one that the wait or the waitany is for in which its rank is blocked.
fn is_waited(alloc: Global, core: &Core<'_>, call: CallId) -> Result<bool, AllocError>
    ensures { IfOk result (λ b. b ≡ missed.is_waited core.now.world call) }
{
    match core.activity(call.rank) {
        None | Some(Activity::Running) | Some(Activity::Trapped(_)) => Ok(false),
        Some(Activity::Blocked) => {
            let last = core.board().last_call(call.rank);
            let calls = requests(alloc, core, call.rank, core.board().kind(last))?;
            Ok(is_among(&calls, call))
        }
    }
}

/// Whether a call is due: it isn't one that may be meant for a call that is still to come.
fn is_due(alloc: Global, core: &Core<'_>, call: CallId) -> Result<bool, AllocError>
    ensures { IfOk result (λ b. b ≡ missed.is_due core.now.world call) }
{
    let waited = is_waited(alloc, core, call)?;
    Ok(is_at_once(core.board().kind(call)) || waited)
}

/// Adds a near miss, if it is due.
fn push_if_due(
    alloc: Global,
    core: &Core<'_>,
    call: CallId,
    miss: Miss,
    out: &mut Vec<(CallId, Miss)>,
) -> Result<(), AllocError>
    ensures { OnOk result (out.new.items ≡ out.old.items ++ missed.due_entry core.now.world call (Some miss)) }
{
    if is_due(alloc, core, call)? {
        out.push((call, miss))?;
    }
    Ok(())
}

/// Adds a call, if it is free and due, and nearly fits another.
fn push_due(
    alloc: Global,
    core: &Core<'_>,
    call: CallId,
    other: CallId,
    out: &mut Vec<(CallId, Miss)>,
) -> Result<(), AllocError>
    ensures { OnOk result (out.new.items ≡ out.old.items ++ missed.due_with core.now.world call other) }
{
    match free_miss(core, call, other) {
        None => Ok(()),
        Some(miss) => push_if_due(alloc, core, other, miss, out),
    }
}

/// Adds the free calls of a rank that are due and nearly fit a call.
fn push_due_at(
    alloc: Global,
    core: &Core<'_>,
    call: CallId,
    rank: usize,
    out: &mut Vec<(CallId, Miss)>,
) -> Result<(), AllocError>
    ensures { OnOk result (out.new.items ≡ out.old.items ++ missed.due_at core.now.world call rank) }
{
    let count = core.board().call_count(rank);
    for index in 0..count {
        push_due(alloc, core, call, CallId { rank, index }, out)?;
    }
    Ok(())
}

/// The free calls that are due and nearly fit a call, by rank and number.
fn due(alloc: Global, core: &Core<'_>, call: CallId) -> Result<Vec<(CallId, Miss)>, AllocError>
    ensures { IfOk result (λ ms. ms.items ≡ missed.due core.now.world call) }
{
    let mut found = Vec::new(alloc);
    let count = core.rank_count();
    for rank in 0..count {
        push_due_at(alloc, core, call, rank, &mut found)?;
    }
    Ok(found)
}

/// The free call that fits a call but for one thing, if there is one: one that is due before one
/// that isn't; the tag before a call of the rank that is waited for, and that before one of another
/// rank (docs/FORMATS.md, "Near misses"). `Err` means that memory was refused.
fn nearest(
    alloc: Global,
    core: &Core<'_>,
    call: CallId,
) -> Result<Option<(CallId, Miss)>, AllocError>
    ensures { IfOk result (λ o. o ≡ missed.nearest core.now.world call) }
{
    let kind = core.board().kind(call);
    let first = due(alloc, core, call)?;
    if let Some(entry) = nearest_of(kind, &first) {
        return Ok(Some(entry));
    }
    let found = misses(alloc, core, call)?;
    Ok(nearest_of(kind, &found))
}

/// Whether the second is a receive that fits the first, a send.
fn fits(core: &Core<'_>, send: CallId, recv: CallId) -> bool
    ensures { result ≡ fits_on core.now.world.board send recv }
{
    match (core.board().kind(send), core.board().kind(recv)) {
        (Some(CallKind::Send(sent)), Some(CallKind::Recv(wanted))) => {
            sent.to == recv.rank
                && is_any_or(wanted.from, send.rank)
                && is_any_or(wanted.tag, sent.tag)
        }
        _ => false,
    }
}

/// The call of a pair that fits a call, with the call that has it.
fn taken_of(core: &Core<'_>, call: CallId, set: MatchSet) -> Option<(CallId, CallId)>
    ensures { result ≡ missed.taken_of core.now.world.board call set }
{
    match set {
        MatchSet::Pair(send, recv) => {
            if fits(core, call, recv) {
                Some((recv, send))
            } else if fits(core, send, call) {
                Some((send, recv))
            } else {
                None
            }
        }
        MatchSet::Woke(_) | MatchSet::Barrier => None,
    }
}

/// The later one, if there is one.
fn later(
    found: Option<(CallId, CallId)>,
    next: Option<(CallId, CallId)>,
) -> Option<(CallId, CallId)>
    ensures { result ≡ or_else next found }
{
    match next {
        None => found,
        Some(pair) => Some(pair),
    }
}

/// The last call that fits a call and was paired with another, with that one.
fn taken(core: &Core<'_>, call: CallId) -> Option<(CallId, CallId)>
    ensures { result ≡ missed.taken core.now.world.board call }
{
    let mut found = None;
    for set in core.board().sets() {
        found = later(found, taken_of(core, call, *set));
    }
    found
}

/// A near miss with the place of its call.
fn placed_miss(core: &Core<'_>, found: Option<(CallId, Miss)>) -> Option<NearMiss>
    ensures { result ≡ option_map (wished.near_of core.now.program core.now.world.board) found }
{
    match found {
        None => None,
        Some((call, miss)) => Some(NearMiss {
            call: placed_call(core, call),
            miss,
        }),
    }
}

/// A call that is taken, with its place and that of the call that has it.
fn placed_taken(core: &Core<'_>, found: Option<(CallId, CallId)>) -> Option<TakenCall>
    ensures { result ≡ option_map (wished.taken_at core.now.program core.now.world.board) found }
{
    match found {
        None => None,
        Some((call, by)) => Some(TakenCall {
            call: placed_call(core, call),
            by: placed_call(core, by),
        }),
    }
}

/// A call that isn't matched, and what nearly fits it or would have (docs/FORMATS.md, "Near
/// misses"). `Err` means that memory was refused.
pub fn wish_of(alloc: Global, core: &Core<'_>, call: CallId) -> Result<Wish, AllocError>
    ensures { IfOk result (λ wish. wish ≡ wished.wish_of core.now.program core.now.world call) }
{
    let found = nearest(alloc, core, call)?;
    Ok(Wish {
        call: placed_call(core, call),
        nearest: placed_miss(core, found),
        taken: placed_taken(core, taken(core, call)),
    })
}

/// The same of several calls.
pub(crate) fn wishes(
    alloc: Global,
    core: &Core<'_>,
    calls: &[CallId],
) -> Result<Vec<Wish>, AllocError>
    ensures { IfOk result (λ all. all.items ≡ map (wished.wish_of core.now.program core.now.world) calls.now) }
{
    let mut all = Vec::new(alloc);
    for call in calls {
        let next = wish_of(alloc, core, *call)?;
        all.push(next)?;
    }
    Ok(all)
}
