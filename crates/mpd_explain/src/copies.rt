//! Copies of ends of runs, of requests that are lost, and of steps with what they are about.

ghost use Rattle.std.specs.Prelude.{◌≡◌, IfOk};
ghost use Rattle.mpd_explain.specs.declared.ends.End.TheVariants as the_end;

use crate::ends::{
    AbsenceList, AwaitedRankList, CycleList, End, PlacedList, TrapPlace, TrapPlaceList, Wait,
    WaitList, WishList,
};
use crate::lost::{Loss, LossList};
use crate::steps::{PlacedStep, PlacedStepList};
use crate::waits::Cycle;
use mpd_names::{PlacedCall, copy_holdings};
use std::alloc::{AllocError, Global};

/// A call that blocks its rank, with all that is known of it, of its own.
fn copy_wait(alloc: Global, wait: &Wait) -> Result<Wait, AllocError>
    ensures { IfOk result (λ copy. copy ≡ wait.now) }
{
    Ok(Wait {
        wish: wait.wish,
        requests: WishList {
            items: Vec::from_slice(alloc, &wait.requests.items)?,
        },
        absent: AbsenceList {
            items: Vec::from_slice(alloc, &wait.absent.items)?,
        },
        awaited: AwaitedRankList {
            items: Vec::from_slice(alloc, &wait.awaited.items)?,
        },
    })
}

/// The same of several.
fn copy_waits(alloc: Global, waits: &[Wait]) -> Result<WaitList, AllocError>
    ensures { IfOk result (λ copy. copy ≡ waits.now) }
{
    let mut items = Vec::new(alloc);
    for wait in waits {
        items.push(copy_wait(alloc, wait)?)?;
    }
    Ok(WaitList { items })
}

/// A cycle of its own.
fn copy_cycle(alloc: Global, cycle: &Cycle) -> Result<Cycle, AllocError>
    ensures { IfOk result (λ copy. copy ≡ cycle.now) }
{
    Ok(Cycle {
        ranks: Vec::from_slice(alloc, &cycle.ranks)?,
    })
}

/// Cycles of their own.
fn copy_cycles(alloc: Global, cycles: &[Cycle]) -> Result<CycleList, AllocError>
    ensures { IfOk result (λ copy. copy ≡ cycles.now) }
{
    let mut items = Vec::new(alloc);
    for cycle in cycles {
        items.push(copy_cycle(alloc, cycle)?)?;
    }
    Ok(CycleList { items })
}

/// Calls with their places, of their own.
fn copy_calls(alloc: Global, calls: &[PlacedCall]) -> Result<PlacedList, AllocError>
    ensures { IfOk result (λ copy. copy ≡ calls.now) }
{
    Ok(PlacedList {
        items: Vec::from_slice(alloc, calls)?,
    })
}

/// A rank that is trapped, of its own.
fn copy_trap(alloc: Global, place: &TrapPlace) -> Result<TrapPlace, AllocError>
    ensures { IfOk result (λ copy. copy ≡ place.now) }
{
    Ok(TrapPlace {
        rank: place.rank,
        line: place.line,
        trap: place.trap,
        reads: copy_holdings(alloc, &place.reads.items)?,
    })
}

/// The same of several.
fn copy_traps(alloc: Global, places: &[TrapPlace]) -> Result<TrapPlaceList, AllocError>
    ensures { IfOk result (λ copy. copy ≡ places.now) }
{
    let mut items = Vec::new(alloc);
    for place in places {
        items.push(copy_trap(alloc, place)?)?;
    }
    Ok(TrapPlaceList { items })
}

/// A deadlock of its own.
fn copy_deadlock(
    alloc: Global,
    waits: &WaitList,
    cycles: &CycleList,
    left: &PlacedList,
) -> Result<End, AllocError>
    ensures { IfOk result (λ copy. copy ≡ the_end.Deadlock waits.now cycles.now left.now) }
{
    Ok(End::Deadlock {
        waits: copy_waits(alloc, &waits.items)?,
        cycles: copy_cycles(alloc, &cycles.items)?,
        left: copy_calls(alloc, &left.items)?,
    })
}

/// An end of a run, of its own. `Err` means that memory was refused.
pub fn copy_end(alloc: Global, end: &End) -> Result<End, AllocError>
    ensures { IfOk result (λ copy. copy ≡ end.now) }
{
    match end {
        End::Cut => Ok(End::Cut),
        End::Done => Ok(End::Done),
        End::Leftovers(calls) => Ok(End::Leftovers(copy_calls(alloc, &calls.items)?)),
        End::Deadlock {
            waits,
            cycles,
            left,
        } => copy_deadlock(alloc, waits, cycles, left),
        End::Trap(places) => Ok(End::Trap(copy_traps(alloc, &places.items)?)),
    }
}

/// Requests that are lost, of their own. `Err` means that memory was refused.
pub fn copy_losses(alloc: Global, losses: &[Loss]) -> Result<LossList, AllocError>
    ensures { IfOk result (λ copy. copy ≡ losses.now) }
{
    Ok(LossList {
        items: Vec::from_slice(alloc, losses)?,
    })
}

/// Steps with what they are about, of their own. `Err` means that memory was refused.
pub fn copy_steps(alloc: Global, steps: &[PlacedStep]) -> Result<PlacedStepList, AllocError>
    ensures { IfOk result (λ copy. copy ≡ steps.now) }
{
    Ok(PlacedStepList {
        items: Vec::from_slice(alloc, steps)?,
    })
}
