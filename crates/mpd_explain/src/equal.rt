//! Whether two ends of runs are one, and the requests that are lost, and steps with what they are about.

ghost use Rattle.std.specs.Prelude.{◌≡◌};
ghost use Rattle.std.specs.Bool.{Decides};
ghost use Rattle.mpd_explain.specs.declared.ends.End.TheVariants as the_end;
ghost use Rattle.mpd_explain.specs.declared.steps.PlacedStep.TheVariants as at;

use crate::ends::{Absence, AwaitedRank, CycleList, End, PlacedList, TrapPlace, Wait, WaitList};
use crate::lost::Loss;
use crate::near_miss::{NearMiss, TakenCall, Wish};
use crate::steps::{Completed, PlacedStep};
use crate::waits::Cycle;
use mpd_model::Message;
use mpd_names::{PlacedCall, same_call, same_holdings, same_stands};

// ---- calls that aren't matched

/// Whether two near misses are one, or there are none.
fn same_near(one: Option<NearMiss>, other: Option<NearMiss>) -> bool
    ensures { Decides result (one ≡ other) }
{
    match one {
        None => other.is_none(),
        Some(near) => {
            matches!(other, Some(also) if same_call(near.call, also.call) && near.miss == also.miss)
        }
    }
}

/// Whether two calls that are taken are one, or there are none.
fn same_taken(one: Option<TakenCall>, other: Option<TakenCall>) -> bool
    ensures { Decides result (one ≡ other) }
{
    match one {
        None => other.is_none(),
        Some(taken) => {
            matches!(other, Some(also) if same_call(taken.call, also.call) && same_call(taken.by, also.by))
        }
    }
}

/// Whether two calls that aren't matched are one, and what nearly fits them or would have.
fn same_wish(one: Wish, other: Wish) -> bool
    ensures { Decides result (one ≡ other) }
{
    same_call(one.call, other.call)
        && same_near(one.nearest, other.nearest)
        && same_taken(one.taken, other.taken)
}

/// The same of lists of them.
fn same_wishes(one: &[Wish], other: &[Wish]) -> bool
    ensures { Decides result (one.now ≡ other.now) }
{
    if one.len() != other.len() {
        return false;
    }
    for number in 0..one.len() {
        if !same_wish(one[number], other[number]) {
            return false;
        }
    }
    true
}

// ---- waits

/// Whether one rank is not at a barrier, and stands where it stood.
fn same_absence(one: Absence, other: Absence) -> bool
    ensures { Decides result (one ≡ other) }
{
    one.rank == other.rank && same_stands(one.stands, other.stands)
}

/// The same of lists of them.
fn same_absences(one: &[Absence], other: &[Absence]) -> bool
    ensures { Decides result (one.now ≡ other.now) }
{
    if one.len() != other.len() {
        return false;
    }
    for number in 0..one.len() {
        if !same_absence(one[number], other[number]) {
            return false;
        }
    }
    true
}

/// Whether one rank is waited for, and has ended or not in both.
fn same_awaited(one: AwaitedRank, other: AwaitedRank) -> bool
    ensures { Decides result (one ≡ other) }
{
    one.rank == other.rank && one.has_ended == other.has_ended
}

/// The same of lists of them.
fn same_awaited_ranks(one: &[AwaitedRank], other: &[AwaitedRank]) -> bool
    ensures { Decides result (one.now ≡ other.now) }
{
    if one.len() != other.len() {
        return false;
    }
    for number in 0..one.len() {
        if !same_awaited(one[number], other[number]) {
            return false;
        }
    }
    true
}

/// Whether two calls that block their ranks are one, with all that is known of them.
fn same_wait(one: &Wait, other: &Wait) -> bool
    ensures { Decides result (one.now ≡ other.now) }
{
    same_wish(one.wish, other.wish)
        && same_wishes(&one.requests.items, &other.requests.items)
        && same_absences(&one.absent.items, &other.absent.items)
        && same_awaited_ranks(&one.awaited.items, &other.awaited.items)
}

/// The same of lists of them.
fn same_waits(one: &[Wait], other: &[Wait]) -> bool
    ensures { Decides result (one.now ≡ other.now) }
{
    if one.len() != other.len() {
        return false;
    }
    for number in 0..one.len() {
        if !same_wait(&one[number], &other[number]) {
            return false;
        }
    }
    true
}

// ---- ends

/// Whether two cycles are one.
fn same_ranks(one: &Cycle, other: &Cycle) -> bool
    ensures { Decides result (one.now ≡ other.now) }
{
    one.ranks == other.ranks
}

/// Whether two lists of cycles are one.
fn same_cycles(one: &[Cycle], other: &[Cycle]) -> bool
    ensures { Decides result (one.now ≡ other.now) }
{
    if one.len() != other.len() {
        return false;
    }
    for number in 0..one.len() {
        if !same_ranks(&one[number], &other[number]) {
            return false;
        }
    }
    true
}

/// Whether two lists of calls are one.
fn same_calls(one: &[PlacedCall], other: &[PlacedCall]) -> bool
    ensures { Decides result (one.now ≡ other.now) }
{
    if one.len() != other.len() {
        return false;
    }
    for number in 0..one.len() {
        if !same_call(one[number], other[number]) {
            return false;
        }
    }
    true
}

/// Whether one rank is trapped so at one line, and read the same.
fn same_trap(one: &TrapPlace, other: &TrapPlace) -> bool
    ensures { Decides result (one.now ≡ other.now) }
{
    one.rank == other.rank
        && one.line == other.line
        && one.trap == other.trap
        && same_holdings(&one.reads.items, &other.reads.items)
}

/// The same of lists of them.
fn same_traps(one: &[TrapPlace], other: &[TrapPlace]) -> bool
    ensures { Decides result (one.now ≡ other.now) }
{
    if one.len() != other.len() {
        return false;
    }
    for number in 0..one.len() {
        if !same_trap(&one[number], &other[number]) {
            return false;
        }
    }
    true
}

/// Whether an end is this deadlock.
fn is_deadlock(end: &End, waits: &WaitList, cycles: &CycleList, left: &PlacedList) -> bool
    ensures { Decides result (the_end.Deadlock waits.now cycles.now left.now ≡ end.now) }
{
    match end {
        End::Deadlock {
            waits: told_waits,
            cycles: told_cycles,
            left: told_left,
        } => {
            same_waits(&told_waits.items, &waits.items)
                && same_cycles(&told_cycles.items, &cycles.items)
                && same_calls(&told_left.items, &left.items)
        }
        _ => false,
    }
}

/// Whether two ends of runs are one, with all that is known of them.
pub fn same_end(one: &End, other: &End) -> bool
    ensures { Decides result (one.now ≡ other.now) }
{
    match one {
        End::Cut => matches!(other, End::Cut),
        End::Done => matches!(other, End::Done),
        End::Leftovers(calls) => {
            matches!(other, End::Leftovers(also) if same_calls(&also.items, &calls.items))
        }
        End::Deadlock {
            waits,
            cycles,
            left,
        } => is_deadlock(other, waits, cycles, left),
        End::Trap(places) => {
            matches!(other, End::Trap(also) if same_traps(&also.items, &places.items))
        }
    }
}

// ---- requests that are lost

/// Whether as many requests are lost of one line, and the first of them is one.
fn same_loss(one: Loss, other: Loss) -> bool
    ensures { Decides result (one ≡ other) }
{
    same_call(one.first, other.first) && one.count == other.count
}

/// Whether the same requests are lost.
pub fn same_losses(one: &[Loss], other: &[Loss]) -> bool
    ensures { Decides result (one.now ≡ other.now) }
{
    if one.len() != other.len() {
        return false;
    }
    for number in 0..one.len() {
        if !same_loss(one[number], other[number]) {
            return false;
        }
    }
    true
}

// ---- steps

/// Whether two messages are one.
fn same_message(one: Message, other: Message) -> bool
    ensures { Decides result (one ≡ other) }
{
    one.value == other.value && one.source == other.source && one.tag == other.tag
}

/// Whether the same was got, or nothing.
fn same_got(one: Option<Message>, other: Option<Message>) -> bool
    ensures { Decides result (one ≡ other) }
{
    match one {
        None => other.is_none(),
        Some(message) => matches!(other, Some(also) if same_message(message, also)),
    }
}

/// Whether two requests that a waitany goes on by are one.
fn same_completed(one: Completed, other: Completed) -> bool
    ensures { Decides result (one ≡ other) }
{
    one.handle == other.handle && same_call(one.call, other.call) && same_got(one.got, other.got)
}

/// Whether they are, or there are none.
fn same_request(one: Option<Completed>, other: Option<Completed>) -> bool
    ensures { Decides result (one ≡ other) }
{
    match one {
        None => other.is_none(),
        Some(request) => matches!(other, Some(also) if same_completed(request, also)),
    }
}

/// Whether a step is that a rank runs this line.
fn is_local(step: PlacedStep, rank: usize, line: usize) -> bool
    ensures { Decides result (at.Local rank line ≡ step) }
{
    match step {
        PlacedStep::Local {
            rank: own,
            line: place,
        } => own == rank && place == line,
        _ => false,
    }
}

/// Whether a step matches these calls.
fn is_match(step: PlacedStep, send: PlacedCall, receive: PlacedCall) -> bool
    ensures { Decides result (at.Match send receive ≡ step) }
{
    match step {
        PlacedStep::Match {
            send: sent,
            receive: received,
        } => same_call(sent, send) && same_call(received, receive),
        _ => false,
    }
}

/// Whether a step is that a rank goes on from this waitany, by this request.
fn is_wake_any(step: PlacedStep, call: PlacedCall, index: usize, request: Option<Completed>) -> bool
    ensures { Decides result (at.WakeAny call index request ≡ step) }
{
    match step {
        PlacedStep::WakeAny {
            call: own,
            index: place,
            request: by,
        } => same_call(own, call) && place == index && same_request(by, request),
        _ => false,
    }
}

/// Whether two steps are one, with what they are about.
fn same_step(one: PlacedStep, other: PlacedStep) -> bool
    ensures { Decides result (one ≡ other) }
{
    match one {
        PlacedStep::Local { rank, line } => is_local(other, rank, line),
        PlacedStep::Match { send, receive } => is_match(other, send, receive),
        PlacedStep::Wake(call) => matches!(other, PlacedStep::Wake(also) if same_call(call, also)),
        PlacedStep::WakeAny {
            call,
            index,
            request,
        } => is_wake_any(other, call, index, request),
        PlacedStep::Release => matches!(other, PlacedStep::Release),
    }
}

/// Whether two lists of steps are one.
pub fn same_steps(one: &[PlacedStep], other: &[PlacedStep]) -> bool
    ensures { Decides result (one.now ≡ other.now) }
{
    if one.len() != other.len() {
        return false;
    }
    for number in 0..one.len() {
        if !same_step(one[number], other[number]) {
            return false;
        }
    }
    true
}
