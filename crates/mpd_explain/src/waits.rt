//! Whom the ranks of a deadlock wait for, and which of them wait for one another.

ghost use Rattle.std.specs.Prelude.{◌≡◌, ◌++◌, [], ◌∷◌, None, option_and_then, IfOk, OnOk, slice_index_or};
ghost use Rattle.std.specs.List.{filter, list_any};
ghost use Rattle.mpd_model.specs.steps.World.{kind_at, rank_numbers};
ghost use Rattle.mpd_model.specs.runs.Breakpoints.{is_number as same_number};
ghost use Rattle.mpd_explain.specs.Waits as waits;

use crate::list::push_if;
use crate::request_calls::{is_at_barrier, requests};
use mpd_core::Core;
use mpd_model::{Activity, CallId, CallKind, is_barrier};
use std::alloc::{AllocError, Global};
use std::marker::Model;

/// Ranks of which each waits for the next alone, and the last for the first; the first is the
/// lowest. Contracts see a list.
#[derive(Drop)]
pub struct Cycle {
    pub ranks: Vec<usize>,
}

impl Model for Cycle {
    ghost use Rattle.std.specs.Prelude.{List, ℕ};

    ghost Value = { List ℕ };

    ghost view = { λ c. c.ranks.items };
}

/// Whether a receive of a rank may get a message of another.
fn is_source(rank: usize, source: Option<usize>, other: usize) -> bool
    ensures { result ≡ waits.is_source rank source other }
{
    match source {
        None => !(rank == other),
        Some(named) => named == other,
    }
}

/// Whether a call of a rank is a send to another, or a receive that may get a message of it.
fn is_partner(rank: usize, kind: Option<CallKind>, other: usize) -> bool
    ensures { result ≡ waits.is_partner rank kind other }
{
    match kind {
        Some(CallKind::Send(send)) => send.to == other,
        Some(CallKind::Recv(recv)) => is_source(rank, recv.from, other),
        None | Some(CallKind::Wait(_)) | Some(CallKind::Waitany(_)) | Some(CallKind::Barrier) =>
            false,
    }
}

/// Whether one of some calls can be matched by rank `other`.
fn is_partner_of_any(core: &Core<'_>, calls: &[CallId], other: usize) -> bool
    ensures { result ≡ list_any (λ d. waits.is_partner d.rank (kind_at core.now.world.board d) other) calls.now }
{
    calls.iter().any(|call| is_partner(call.rank, core.board().kind(*call), other))
}

/// Whether `call`, or a request that it waits for, can be matched by rank `other`.
fn is_awaited(core: &Core<'_>, call: CallId, calls: &[CallId], other: usize) -> bool
    ensures { result ≡ waits.is_awaited core.now.world.board call calls.now other }
{
    is_partner(call.rank, core.board().kind(call), other) || is_partner_of_any(core, calls, other)
}

/// The ranks that are not at a barrier.
pub(crate) fn absent(alloc: Global, core: &Core<'_>) -> Result<Vec<usize>, AllocError>
    ensures { IfOk result (λ ranks. ranks.items ≡ waits.absent core.now.world) }
{
    let mut ranks = Vec::new(alloc);
    let count = core.rank_count();
    for rank in 0..count {
        push_if(&mut ranks, rank, !is_at_barrier(core, rank))?;
    }
    Ok(ranks)
}

/// The ranks that a call waits for, which is no barrier and waits for these requests.
fn awaited_by(
    alloc: Global,
    core: &Core<'_>,
    call: CallId,
    calls: &[CallId],
) -> Result<Vec<usize>, AllocError>
    ensures { IfOk result (λ ranks. ranks.items ≡ filter (waits.is_awaited core.now.world.board call calls.now) (rank_numbers core.now.world.board)) }
{
    let mut ranks = Vec::new(alloc);
    let count = core.rank_count();
    for rank in 0..count {
        push_if(&mut ranks, rank, is_awaited(core, call, calls, rank))?;
    }
    Ok(ranks)
}

/// The ranks that a blocked call waits for.
pub(crate) fn awaited_ranks(
    alloc: Global,
    core: &Core<'_>,
    call: CallId,
) -> Result<Vec<usize>, AllocError>
    ensures { IfOk result (λ ranks. ranks.items ≡ waits.awaited_ranks core.now.world call) }
{
    let kind = core.board().kind(call);
    if is_barrier(kind) {
        return absent(alloc, core);
    }
    let calls = requests(alloc, core, call.rank, kind)?;
    awaited_by(alloc, core, call, &calls)
}

/// The one of some ranks, if there is one alone.
fn only(ranks: &[usize]) -> Option<usize>
    ensures { result ≡ waits.only ranks.now }
{
    if ranks.len() == 1 {
        Some(ranks[0])
    } else {
        None
    }
}

/// The rank that a blocked rank waits for, if it waits for one alone.
fn single(alloc: Global, core: &Core<'_>, rank: usize) -> Result<Option<usize>, AllocError>
    ensures { IfOk result (λ o. o ≡ waits.single core.now.world rank) }
{
    match core.activity(rank) {
        None | Some(Activity::Running) | Some(Activity::Trapped(_)) => Ok(None),
        Some(Activity::Blocked) => {
            let ranks = awaited_ranks(alloc, core, core.board().last_call(rank))?;
            Ok(only(&ranks))
        }
    }
}

/// Adds what one rank waits for alone.
fn push_single(next: &mut Vec<Option<usize>>, single: Option<usize>) -> Result<(), AllocError>
    ensures { OnOk result (next.new.items ≡ next.old.items ++ single ∷ []) }
{
    next.push(single)?;
    Ok(())
}

/// That of each rank.
fn singles(alloc: Global, core: &Core<'_>) -> Result<Vec<Option<usize>>, AllocError>
    ensures { IfOk result (λ next. next.items ≡ waits.singles core.now.world) }
{
    let mut next = Vec::new(alloc);
    let count = core.rank_count();
    for rank in 0..count {
        push_single(&mut next, single(alloc, core, rank)?)?;
    }
    Ok(next)
}

/// The rank that a rank waits for alone, if there is one.
fn next_of(next: &[Option<usize>], rank: Option<usize>) -> Option<usize>
    ensures { result ≡ option_and_then (λ q. slice_index_or next.now q None) rank }
{
    match rank {
        None => None,
        Some(rank) => { if rank < next.len() { next[rank] } else { None } }
    }
}

/// The rank that is reached from a rank by going `count` times to the rank that is waited for.
fn after(next: &[Option<usize>], rank: usize, count: usize) -> Option<usize>
    ensures { result ≡ waits.after next.now rank count }
{
    let mut here = Some(rank);
    for past in 0..count {
        here = next_of(next, here);
    }
    here
}

/// Whether it is this number.
fn is_number(number: Option<usize>, wanted: usize) -> bool
    ensures { result ≡ same_number number wanted }
{
    number == Some(wanted)
}

/// The least number of such steps that leads back to a rank, if any does.
fn round(next: &[Option<usize>], rank: usize) -> Option<usize>
    ensures { result ≡ waits.round next.now rank }
{
    let count = next.len();
    for past in 0..count {
        let turns = past + 1;
        if is_number(after(next, rank, turns), rank) {
            return Some(turns);
        }
    }
    None
}

/// Adds a rank, if there is one.
fn push_step(out: &mut Vec<usize>, rank: Option<usize>) -> Result<(), AllocError>
    ensures { OnOk result (out.new.items ≡ out.old.items ++ waits.step_ranks rank) }
{
    if let Some(rank) = rank {
        out.push(rank)?;
    }
    Ok(())
}

/// The first `count` ranks along such steps, from a rank on.
fn ring(
    alloc: Global,
    next: &[Option<usize>],
    rank: usize,
    count: usize,
) -> Result<Vec<usize>, AllocError>
    ensures { IfOk result (λ ranks. ranks.items ≡ waits.ring next.now rank count) }
{
    let mut ranks = Vec::new(alloc);
    for past in 0..count {
        push_step(&mut ranks, after(next, rank, past))?;
    }
    Ok(ranks)
}

/// Whether none of some ranks is lower.
fn is_lowest(rank: usize, ranks: &[usize]) -> bool
    ensures { result ≡ waits.is_lowest rank ranks.now }
{
    ranks.iter().all(|other| *other >= rank)
}

/// The ranks of the cycle that a rank is on, from that rank on, if it is the lowest of it.
fn cycle_at(alloc: Global, next: &[Option<usize>], rank: usize) -> Result<Option<Cycle>, AllocError>
    ensures { IfOk result (λ found. found ≡ waits.cycle next.now rank) }
{
    let Some(count) = round(next, rank) else {
        return Ok(None);
    };
    let ranks = ring(alloc, next, rank, count)?;
    if is_lowest(rank, &ranks) {
        return Ok(Some(Cycle { ranks }));
    }
    Ok(None)
}

/// Adds a cycle, if there is one.
fn push_cycle(cycles: &mut Vec<Cycle>, found: Option<Cycle>) -> Result<(), AllocError>
    ensures { OnOk result (cycles.new.items ≡ cycles.old.items ++ waits.listed found) }
{
    if let Some(cycle) = found {
        cycles.push(cycle)?;
    }
    Ok(())
}

/// All cycles in which each rank waits for the next alone, by their lowest ranks.
pub(crate) fn cycles(alloc: Global, core: &Core<'_>) -> Result<Vec<Cycle>, AllocError>
    ensures { IfOk result (λ cycles. cycles.items ≡ waits.cycles core.now.world) }
{
    let next = singles(alloc, core)?;
    let mut cycles = Vec::new(alloc);
    let count = core.rank_count();
    for rank in 0..count {
        push_cycle(&mut cycles, cycle_at(alloc, &next, rank)?)?;
    }
    Ok(cycles)
}
