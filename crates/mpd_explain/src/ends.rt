//! How a run ends, with what is known of that end (docs/FORMATS.md, "Explanations").

ghost use Rattle.std.specs.Prelude.{◌≡◌, IfOk, OnErr, IsTrue, map};
ghost use Rattle.mpd_explain.specs.Ends as spec;

use crate::left::{awaited, left_beside, placed_calls};
use crate::near_miss::{Wish, wish_of, wishes};
use crate::request_calls::requests;
use crate::waits::{Cycle, absent, awaited_ranks, cycles};
use mpd_core::Core;
use mpd_explore::Ending;
use mpd_model::{CallId, Outcome, Trap, TrappedRank, is_barrier};
use mpd_names::{
    HoldingList, PlacedCall, Stands, has_ended, placed_call, rank_line, reads, stands,
};
use std::alloc::{AllocError, Global};
use std::marker::Model;

/// Calls that are not matched, as contracts see them.
#[derive(Drop)]
pub struct WishList {
    pub items: Vec<Wish>,
}

impl Model for WishList {
    ghost use Rattle.std.specs.Prelude.{List};
    ghost use Rattle.mpd_explain.specs.declared.near_miss.Wish.{Wish};

    ghost Value = { List Wish };

    ghost view = { λ l. l.items.items };
}

/// A rank that is not at a barrier.
#[derive(Clone, Copy)]
pub struct Absence {
    pub rank: usize,
    /// Where it stands instead.
    pub stands: Option<Stands>,
}

/// Ranks that are not at a barrier, as contracts see them.
#[derive(Drop)]
pub struct AbsenceList {
    pub items: Vec<Absence>,
}

impl Model for AbsenceList {
    ghost use Rattle.std.specs.Prelude.{List};
    ghost use Rattle.mpd_explain.specs.declared.ends.Absence.{Absence};

    ghost Value = { List Absence };

    ghost view = { λ l. l.items.items };
}

/// A rank that another waits for.
#[derive(Clone, Copy)]
pub struct AwaitedRank {
    pub rank: usize,
    /// Whether it has ended.
    pub has_ended: bool,
}

/// Ranks that another waits for, as contracts see them.
#[derive(Drop)]
pub struct AwaitedRankList {
    pub items: Vec<AwaitedRank>,
}

impl Model for AwaitedRankList {
    ghost use Rattle.std.specs.Prelude.{List};
    ghost use Rattle.mpd_explain.specs.declared.ends.AwaitedRank.{AwaitedRank};

    ghost Value = { List AwaitedRank };

    ghost view = { λ l. l.items.items };
}

/// A call that blocks its rank where a run has ended.
#[derive(Drop)]
pub struct Wait {
    /// The call. Of a barrier nothing is near, and nothing taken.
    pub wish: Wish,
    /// The calls that it is for, if it is a wait or a waitany.
    pub requests: WishList,
    /// The ranks that are not there, if it is a barrier.
    pub absent: AbsenceList,
    /// The ranks that its rank waits for: all of them at a barrier, else any of them.
    pub awaited: AwaitedRankList,
}

/// Calls that block their ranks, as contracts see them.
#[derive(Drop)]
pub struct WaitList {
    pub items: Vec<Wait>,
}

impl Model for WaitList {
    ghost use Rattle.std.specs.Prelude.{List};
    ghost use Rattle.mpd_explain.specs.declared.ends.Wait.{Wait};
    ghost use Rattle.mpd_explain.specs.EndCodes.{waits_code};

    ghost Value = { List Wait };

    ghost coded = { waits_code };

    ghost view = { λ l. l.items.items };
}

/// Cycles of ranks, as contracts see them.
#[derive(Drop)]
pub struct CycleList {
    pub items: Vec<Cycle>,
}

impl Model for CycleList {
    ghost use Rattle.std.specs.Prelude.{List, ℕ};

    ghost Value = { List (List ℕ) };

    ghost view = { λ l. l.items.items };
}

/// Calls with their places, as contracts see them.
#[derive(Drop)]
pub struct PlacedList {
    pub items: Vec<PlacedCall>,
}

impl Model for PlacedList {
    ghost use Rattle.std.specs.Prelude.{List};
    ghost use Rattle.mpd_names.specs.declared.place.PlacedCall.{PlacedCall};

    ghost Value = { List PlacedCall };

    ghost view = { λ l. l.items.items };
}

/// A rank that is trapped.
#[derive(Drop)]
pub struct TrapPlace {
    pub rank: usize,
    /// The line, from 1, of the statement that trapped it.
    pub line: usize,
    pub trap: Trap,
    /// What the rank holds in the variables that the statement reads.
    pub reads: HoldingList,
}

/// Ranks that are trapped, as contracts see them.
#[derive(Drop)]
pub struct TrapPlaceList {
    pub items: Vec<TrapPlace>,
}

impl Model for TrapPlaceList {
    ghost use Rattle.std.specs.Prelude.{List};
    ghost use Rattle.mpd_explain.specs.declared.ends.TrapPlace.{TrapPlace};
    ghost use Rattle.mpd_explain.specs.EndCodes.{traps_code};

    ghost Value = { List TrapPlace };

    ghost coded = { traps_code };

    ghost view = { λ l. l.items.items };
}

/// How a run has ended, and what is known of that.
#[derive(Drop)]
pub enum End {
    /// It was cut, since it has as many steps as it may have.
    Cut,
    /// Every rank has ended, and all calls are matched.
    Done,
    /// Every rank has ended, and these calls are free.
    Leftovers(PlacedList),
    /// No rank can go on.
    Deadlock {
        /// What each rank that hasn't ended waits in, by rank.
        waits: WaitList,
        /// The cycles in which each rank waits for the next alone.
        cycles: CycleList,
        /// Free calls beside those that ranks wait in or for.
        left: PlacedList,
    },
    /// These ranks are trapped, and the others can't go on.
    Trap(TrapPlaceList),
}

/// Whether there is more to the end of a run than that it ends so.
pub fn tells_of(ending: &Ending) -> bool
    ensures { result ≡ spec.tells_of ending.now }
{
    match ending {
        Ending::Ended(Outcome::Deadlock(_)) => true,
        Ending::Ended(Outcome::Trap(_)) => true,
        Ending::Ended(Outcome::Leftovers(_)) => true,
        Ending::Ended(Outcome::Done) | Ending::Cut => false,
    }
}

/// Where ranks stand.
fn absences_of(alloc: Global, core: &Core<'_>, ranks: &[usize]) -> Result<AbsenceList, AllocError>
    ensures { IfOk result (λ list. list ≡ map (spec.absence_of core.now.program core.now.world) ranks.now) }
{
    let mut items = Vec::new(alloc);
    for rank in ranks {
        items.push(Absence {
            rank: *rank,
            stands: stands(core, *rank),
        })?;
    }
    Ok(AbsenceList { items })
}

/// The ranks that are not at a barrier, and where they stand. `Err` means that memory was refused.
pub fn absences(alloc: Global, core: &Core<'_>) -> Result<AbsenceList, AllocError>
    ensures { IfOk result (λ list. list ≡ spec.absences core.now.program core.now.world) }
{
    let ranks = absent(alloc, core)?;
    absences_of(alloc, core, &ranks)
}

/// Ranks, and whether they have ended.
fn awaited_list(
    alloc: Global,
    core: &Core<'_>,
    ranks: &[usize],
) -> Result<AwaitedRankList, AllocError>
    ensures { IfOk result (λ list. list ≡ map (spec.awaited_of core.now.world) ranks.now) }
{
    let mut items = Vec::new(alloc);
    for rank in ranks {
        items.push(AwaitedRank {
            rank: *rank,
            has_ended: has_ended(core, *rank),
        })?;
    }
    Ok(AwaitedRankList { items })
}

/// A barrier that a rank waits at.
fn barrier_wait(
    alloc: Global,
    core: &Core<'_>,
    call: CallId,
    awaited: AwaitedRankList,
) -> Result<Wait, AllocError>
    ensures { IfOk result (λ wait. wait ≡ spec.barrier_wait core.now.program core.now.world call awaited) }
{
    let absent = absences(alloc, core)?;
    Ok(Wait {
        wish: Wish {
            call: placed_call(core, call),
            nearest: None,
            taken: None,
        },
        requests: WishList {
            items: Vec::new(alloc),
        },
        absent,
        awaited,
    })
}

/// Another call that a rank waits in.
fn call_wait(
    alloc: Global,
    core: &Core<'_>,
    call: CallId,
    awaited: AwaitedRankList,
) -> Result<Wait, AllocError>
    ensures { IfOk result (λ wait. wait ≡ spec.call_wait core.now.program core.now.world call awaited) }
{
    let wish = wish_of(alloc, core, call)?;
    let calls = requests(alloc, core, call.rank, core.board().kind(call))?;
    let requests = wishes(alloc, core, &calls)?;
    Ok(Wait {
        wish,
        requests: WishList { items: requests },
        absent: AbsenceList {
            items: Vec::new(alloc),
        },
        awaited,
    })
}

/// A call that blocks its rank.
fn wait_of(alloc: Global, core: &Core<'_>, call: CallId) -> Result<Wait, AllocError>
    ensures { IfOk result (λ wait. wait ≡ spec.wait_of core.now.program core.now.world call) }
{
    let ranks = awaited_ranks(alloc, core, call)?;
    let awaited = awaited_list(alloc, core, &ranks)?;
    if is_barrier(core.board().kind(call)) {
        return barrier_wait(alloc, core, call, awaited);
    }
    call_wait(alloc, core, call, awaited)
}

/// Calls that block their ranks.
fn waits_of(alloc: Global, core: &Core<'_>, calls: &[CallId]) -> Result<WaitList, AllocError>
    ensures { IfOk result (λ list. list ≡ map (spec.wait_of core.now.program core.now.world) calls.now) }
{
    let mut items = Vec::new(alloc);
    for call in calls {
        let wait = wait_of(alloc, core, *call)?;
        items.push(wait)?;
    }
    Ok(WaitList { items })
}

/// A deadlock in which these calls are blocked.
fn deadlock_of(alloc: Global, core: &Core<'_>, calls: &[CallId]) -> Result<End, AllocError>
    ensures { IfOk result (λ end. end ≡ spec.deadlock_of core.now.program core.now.world calls.now) }
{
    let waits = waits_of(alloc, core, calls)?;
    let cycles = cycles(alloc, core)?;
    let told = awaited(alloc, core, calls)?;
    let left = left_beside(alloc, core, &told)?;
    Ok(End::Deadlock {
        waits,
        cycles: CycleList { items: cycles },
        left: PlacedList { items: left },
    })
}

/// A rank that is trapped, with its line and what it read.
fn trap_of(alloc: Global, core: &Core<'_>, trapped: TrappedRank) -> Result<TrapPlace, AllocError>
    ensures { IfOk result (λ place. place ≡ spec.trap_of core.now.program core.now.world trapped) }
{
    let reads = reads(alloc, core, trapped.rank)?;
    Ok(TrapPlace {
        rank: trapped.rank,
        line: rank_line(core, trapped.rank),
        trap: trapped.trap,
        reads,
    })
}

/// The same of several.
fn traps_of(
    alloc: Global,
    core: &Core<'_>,
    traps: &[TrappedRank],
) -> Result<TrapPlaceList, AllocError>
    ensures { IfOk result (λ list. list ≡ map (spec.trap_of core.now.program core.now.world) traps.now) }
{
    let mut items = Vec::new(alloc);
    for trapped in traps {
        let place = trap_of(alloc, core, *trapped)?;
        items.push(place)?;
    }
    Ok(TrapPlaceList { items })
}

/// The end of a run with this outcome in this state. `Err` means that memory was refused, which
/// happens only if it is a deadlock, a trap, or leftovers.
pub fn outcome_end(alloc: Global, core: &Core<'_>, outcome: &Outcome) -> Result<End, AllocError>
    ensures end { IfOk result (λ end. end ≡ spec.outcome_end core.now.program core.now.world outcome.now) }
    ensures memory { OnErr result (IsTrue (spec.has_more outcome.now)) }
{
    match outcome {
        Outcome::Deadlock(calls) => {
            let blocked = calls.ids(alloc)?;
            deadlock_of(alloc, core, &blocked.items)
        }
        Outcome::Trap(traps) => Ok(End::Trap(traps_of(alloc, core, &traps.items)?)),
        Outcome::Leftovers(calls) => {
            let free = calls.ids(alloc)?;
            let items = placed_calls(alloc, core, &free.items)?;
            Ok(End::Leftovers(PlacedList { items }))
        }
        Outcome::Done => Ok(End::Done),
    }
}

/// The end of a run that ends so in this state. `Err` means that memory was refused, which happens
/// only if it ends in a deadlock, with a trap, or with leftovers.
pub fn end_of(alloc: Global, core: &Core<'_>, ending: &Ending) -> Result<End, AllocError>
    ensures end { IfOk result (λ end. end ≡ spec.end_of core.now.program core.now.world ending.now) }
    ensures memory { OnErr result (IsTrue (spec.tells_of ending.now)) }
{
    match ending {
        Ending::Ended(outcome) => outcome_end(alloc, core, outcome),
        Ending::Cut => Ok(End::Cut),
    }
}
