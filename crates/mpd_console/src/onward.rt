//! What `until`, `finish` and `back rank` ask for: how far they go on, or back (docs/CONSOLE.md, "Words that move").

ghost use Rattle.std.specs.Prelude.{◌≡◌, ◌≤◌, ◌<◌, IfOk, IfSome, drop, length};
ghost use Rattle.std.specs.List.{position};
ghost use Rattle.mpd_console.specs.Onward as spec;
ghost use Rattle.mpd_console.specs.Moves as moves;

use crate::along::{Goal, along_of};
use crate::moves::{Doing, begins};
use mpd_model::{Breakpoint, Cause, STEPS_MAX, Step, Stop};
use mpd_names::is_blocked;
use mpd_policy::{Breaks, run_on};
use mpd_session::Command;
use mpd_trail::Debugger;
use mpd_vocabulary::Word;
use std::alloc::{AllocError, Global};

/// The last line that a breakpoint may be on.
const LAST_LINE: usize = 65_537;

/// Whether a breakpoint may be on a line.
pub(crate) fn is_line(line: usize) -> bool
    ensures { result ≡ spec.is_line line }
{
    1 <= line && line <= LAST_LINE
}

/// A breakpoint on a line, of any rank, and whatever holds there.
fn on_line(line: usize) -> Breakpoint
    ensures { result ≡ spec.on_line line }
{
    Breakpoint::Line {
        line,
        of: None,
        when: None,
    }
}

/// One breakpoint, and no other.
#[tactic(auto, using(crate::proofs::OnwardLemmas::added_alone))]
pub(crate) fn alone(stop: Breakpoint) -> Breaks
    ensures { result ≡ spec.alone stop }
{
    let mut breaks = Breaks::new();
    let _ = breaks.add_breakpoint(stop);
    breaks
}

/// As many steps as a run made that stopped for a breakpoint; else as many as there can be.
fn steps_by(stop: Stop) -> usize
    ensures { result ≡ spec.steps_by stop }
{
    match stop.cause {
        Cause::Break(_) => stop.steps,
        _ => STEPS_MAX,
    }
}

/// How many steps a run on takes to where one hits a breakpoint. A copy of the debugger runs. An `Err` is want of memory.
fn steps_to(alloc: Global, debugger: &Debugger<'_>, stop: Breakpoint) -> Result<usize, AllocError>
    ensures { IfOk result (λ n. n ≡ spec.steps_to debugger.now.trail debugger.now.world stop) }
{
    debugger.state_is_reached();
    let mut copy = debugger.copy()?;
    match run_on(alloc, &mut copy, &alone(stop), STEPS_MAX) {
        Ok(stop) => {
            drop(copy);
            Ok(steps_by(stop))
        }
        Err(fault) => {
            drop(copy);
            Err(fault)
        }
    }
}

/// Whether by a step a rank goes on that waited.
pub(crate) fn frees(rank: usize, step: Step) -> bool
    ensures { result ≡ spec.frees rank step }
{
    match step {
        Step::Wake(other) => other == rank,
        Step::WakeAny { rank: other, .. } => other == rank,
        Step::Release => true,
        Step::Local(_) | Step::Match(_, _) => false,
    }
}

/// The place of the first step by which a rank goes on.
fn place_of_wake(rank: usize, steps: &[Step]) -> Option<usize>
    ensures place { result ≡ position (spec.frees rank) steps.now }
    ensures small { IfSome result (λ place. place < length steps.now) }
{
    steps.iter().position(|step| frees(rank, *step))
}

/// How many steps there are up to that place, with it; as many as there can be where no rank goes on.
fn count_to_wake(rank: usize, steps: &[Step]) -> usize
    ensures { result ≡ spec.steps_with (position (spec.frees rank) steps.now) }
{
    match place_of_wake(rank, steps) {
        None => STEPS_MAX,
        Some(place) => place + 1,
    }
}

/// The steps that a copy of a debugger has taken since.
fn steps_since<'d>(debugger: &Debugger<'_>, copy: &'d Debugger<'_>) -> &'d [Step]
    requires { debugger.now.trail.depth ≤ length copy.now.trail.steps }
    ensures { result.now ≡ drop debugger.now.trail.depth copy.now.trail.steps }
{
    let (_, since) = copy.steps().split_at(debugger.depth());
    since
}

/// How many steps a run on takes to where a rank goes on that waits. A copy of the debugger runs. An `Err` is want of memory.
fn steps_to_wake(alloc: Global, debugger: &Debugger<'_>, rank: usize) -> Result<usize, AllocError>
    ensures { IfOk result (λ n. n ≡ spec.steps_to_wake debugger.now.trail debugger.now.world rank) }
{
    debugger.state_is_reached();
    let mut copy = debugger.copy()?;
    match run_on(alloc, &mut copy, &Breaks::new(), STEPS_MAX) {
        Ok(_) => {
            let count = count_to_wake(rank, steps_since(debugger, &copy));
            drop(copy);
            Ok(count)
        }
        Err(fault) => {
            drop(copy);
            Err(fault)
        }
    }
}

/// The rank of a step, from 0: of a match that of its receive; a release is of no rank.
pub fn rank_of(step: Step) -> Option<usize>
    ensures { result ≡ spec.rank_of step }
{
    match step {
        Step::Local(rank) | Step::Wake(rank) => Some(rank),
        Step::WakeAny { rank, .. } => Some(rank),
        Step::Match(_, recv) => Some(recv.rank),
        Step::Release => None,
    }
}

/// That of the last of so many steps.
fn rank_behind(steps: &[Step], depth: usize) -> Option<usize>
    ensures { result ≡ spec.rank_behind steps.now depth }
{
    if depth == 0 {
        return None;
    }
    let step = steps.get(depth - 1).copied()?;
    rank_of(step)
}

/// The rank that is named, or that of the last step.
pub fn finish_rank(debugger: &Debugger<'_>, rank: Option<usize>) -> Option<usize>
    ensures { result ≡ spec.finish_rank debugger.now.trail rank }
{
    match rank {
        None => rank_behind(debugger.steps(), debugger.depth()),
        Some(rank) => Some(rank),
    }
}

/// How many steps a run on takes at most to what it goes on to.
fn steps_on(alloc: Global, debugger: &Debugger<'_>, goal: Goal) -> Result<usize, AllocError>
    ensures { IfOk result (λ n. n ≡ spec.steps_on debugger.now.trail debugger.now.world goal) }
{
    match goal {
        Goal::Steps(count) => Ok(count),
        Goal::Hit(stop) => steps_to(alloc, debugger, stop),
        Goal::Freed(rank) => steps_to_wake(alloc, debugger, rank),
    }
}

/// What a word does that goes on: it goes along the steps ahead, or where none is runs on.
pub(crate) fn onward(
    alloc: Global,
    debugger: &Debugger<'_>,
    breaks: &Breaks,
    word: Word,
    goal: Goal,
) -> Result<Doing, AllocError>
    ensures { IfOk result (λ doing. doing ≡ moves.onward debugger.now.trail debugger.now.world breaks.now word goal) }
{
    if debugger.next_undone().is_some() {
        return Ok(Doing::Goes(along_of(alloc, debugger, breaks, word, goal)?));
    }
    Ok(Doing::Asks(Command::RunOn(steps_on(alloc, debugger, goal)?)))
}

/// What `until` does of a line: where a statement begins at it, it goes on to where a rank comes to it. What is no line is refused as a
/// breakpoint on it is.
pub(crate) fn until_doing(
    alloc: Global,
    debugger: &Debugger<'_>,
    breaks: &Breaks,
    line: usize,
) -> Result<Doing, AllocError>
    ensures { IfOk result (λ doing. doing ≡ moves.until_doing debugger.now.trail debugger.now.world breaks.now line) }
{
    if !is_line(line) {
        return Ok(Doing::Asks(Command::Break(on_line(line))));
    }
    if !begins(debugger.core().code().lines(), line) {
        return Ok(Doing::Looks);
    }
    onward(
        alloc,
        debugger,
        breaks,
        Word::Until(line),
        Goal::Hit(on_line(line)),
    )
}

/// Whether there is such a rank.
fn is_rank(debugger: &Debugger<'_>, rank: usize) -> bool
    ensures { result ≡ spec.is_rank debugger.now.world rank }
{
    rank < debugger.core().rank_count()
}

/// What `until rank` does of a rank: where there is such a rank, it goes on to where the rank has gone on.
pub(crate) fn until_rank_doing(
    alloc: Global,
    debugger: &Debugger<'_>,
    breaks: &Breaks,
    rank: usize,
) -> Result<Doing, AllocError>
    ensures { IfOk result (λ doing. doing ≡ moves.until_rank_doing debugger.now.trail debugger.now.world breaks.now rank) }
{
    if !is_rank(debugger, rank) {
        return Ok(Doing::Looks);
    }
    let goal = Goal::Hit(Breakpoint::Rank(rank));
    onward(alloc, debugger, breaks, Word::UntilRank(rank), goal)
}

/// Whether a step is a local one of a rank.
fn is_local_of(rank: usize, step: Step) -> bool
    ensures { result ≡ spec.is_local_of rank step }
{
    match step {
        Step::Local(other) => other == rank,
        Step::Match(_, _) | Step::Wake(_) | Step::WakeAny { .. } | Step::Release => false,
    }
}

/// How many steps come before the last local one of a rank, of the first so many; 0 where none is.
#[tactic(auto, using(crate::proofs::OnwardLemmas::seeking_local))]
fn depth_before(rank: usize, steps: &[Step], depth: usize) -> usize
    requires { depth ≤ length steps.now }
    ensures { result ≡ spec.depth_before rank steps.now depth }
{
    for undone in 0..depth {
        let place = depth - undone - 1;
        if is_local_of(rank, steps[place]) {
            return place;
        }
    }
    0
}

/// What `back rank` does of a rank: where there is such a rank, it goes back to before its last local step.
pub(crate) fn back_rank_doing(debugger: &Debugger<'_>, rank: usize) -> Doing
    ensures { result ≡ moves.back_rank_doing debugger.now.trail debugger.now.world rank }
{
    if !is_rank(debugger, rank) {
        return Doing::Looks;
    }
    debugger.state_is_reached();
    let depth = depth_before(rank, debugger.steps(), debugger.depth());
    Doing::Asks(Command::Goto(depth))
}

/// What `finish` does of a rank: where it waits it goes on to where that rank goes on.
pub(crate) fn finish_doing(
    alloc: Global,
    debugger: &Debugger<'_>,
    breaks: &Breaks,
    rank: Option<usize>,
) -> Result<Doing, AllocError>
    ensures { IfOk result (λ doing. doing ≡ moves.finish_doing debugger.now.trail debugger.now.world breaks.now rank) }
{
    let Some(rank) = rank else {
        return Ok(Doing::Looks);
    };
    if !is_blocked(debugger.core(), rank) {
        return Ok(Doing::Looks);
    }
    onward(
        alloc,
        debugger,
        breaks,
        Word::Finish(Some(rank)),
        Goal::Freed(rank),
    )
}
