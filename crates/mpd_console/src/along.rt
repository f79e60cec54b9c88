//! How far words go along the steps ahead, and why no further (docs/CONSOLE.md, "How these words go
//! along steps ahead").

ghost use Rattle.std.specs.Prelude.{◌≡◌, IfOk, OnOk};
ghost use Rattle.mpd_model.specs.runs.Decisions.{decision};
ghost use Rattle.mpd_model.specs.runs.Trail.{IsReached, gone_back};
ghost use Rattle.mpd_trail.specs.DebuggerViews.{AsFound, standing_of};
ghost use Rattle.mpd_runs.specs.LastChoice.{is_choice, is_hit_at};
ghost use Rattle.mpd_console.specs.Along as spec;

use crate::carried::{stopped_asked, stopped_at};
use crate::onward::{alone, frees};
use crate::told::Stopped;
use mpd_core::Core;
use mpd_model::{Breakpoint, Decision, Step};
use mpd_policy::{Breaks, decide, last_hit, only_step};
use mpd_trail::Debugger;
use mpd_vocabulary::Word;
use std::alloc::{AllocError, Global};

/// What a move goes on to.
#[derive(Clone, Copy)]
pub enum Goal {
    /// So many steps; it stops at a choice, too.
    Steps(usize),
    /// A step that hits this breakpoint, which needn't be set.
    Hit(Breakpoint),
    /// A step by which this rank, from 0, goes on that waits.
    Freed(usize),
}

/// A move along steps ahead.
#[derive(Clone, Copy)]
pub struct Along {
    /// How many of them it takes, 1 at least.
    pub steps: usize,
    /// Why no more.
    pub stopped: Stopped,
}

/// Whether a choice is open, of two candidates or more.
fn is_open(alloc: Global, core: &Core<'_>) -> Result<bool, AllocError>
    ensures { IfOk result (λ b. b ≡ is_choice (decision core.now.world)) }
{
    match decide(alloc, core)? {
        Decision::Choice(steps) => Ok(steps.items.len() > 1),
        Decision::Forced(_) | Decision::Leaf(_) => Ok(false),
    }
}

/// Whether by the last of so many steps a rank goes on that waited.
fn is_freed(rank: usize, steps: &[Step], depth: usize) -> bool
    ensures { result ≡ spec.is_freed_at rank steps.now depth }
{
    if depth == 0 {
        return false;
    }
    match steps.get(depth - 1).copied() {
        None => false,
        Some(step) => frees(rank, step),
    }
}

/// Whether the last step hits a breakpoint that needn't be set. The debugger is as it was found.
#[tactic(auto, using(crate::proofs::AlongLemmas::stopping))]
fn is_hit(debugger: &mut Debugger<'_>, breaks: &Breaks) -> Result<bool, AllocError>
    ensures hit { IfOk result (λ b. b ≡ is_hit_at breaks.now debugger.old.trail debugger.old.trail.depth) }
    ensures as_found { AsFound (standing_of debugger.old) (standing_of debugger.new) }
{
    let hit = last_hit(debugger, breaks)?;
    Ok(hit.is_some())
}

/// Whether a move that began after so many steps has come to what was asked for. The debugger is as
/// it was found.
fn is_asked(debugger: &mut Debugger<'_>, goal: Goal, begun: usize) -> Result<bool, AllocError>
    ensures asked { IfOk result (λ b. b ≡ spec.is_asked_at goal begun debugger.old.trail debugger.old.trail.depth) }
    ensures as_found { AsFound (standing_of debugger.old) (standing_of debugger.new) }
{
    debugger.state_is_reached();
    match goal {
        Goal::Steps(count) => Ok(debugger.depth().saturating_sub(begun) == count),
        Goal::Hit(stop) => is_hit(debugger, &alone(stop)),
        Goal::Freed(rank) => Ok(is_freed(rank, debugger.steps(), debugger.depth())),
    }
}

/// Whether a choice is open at which a move stops.
#[tactic(auto, using(crate::proofs::AlongLemmas::stopping))]
fn is_choice_for(alloc: Global, debugger: &Debugger<'_>, goal: Goal) -> Result<bool, AllocError>
    ensures { IfOk result (λ b. b ≡ spec.is_choice_at goal debugger.now.trail debugger.now.trail.depth) }
{
    debugger.state_is_reached();
    match goal {
        Goal::Steps(_) => is_open(alloc, debugger.core()),
        Goal::Hit(_) | Goal::Freed(_) => Ok(false),
    }
}

/// Whether a move that began after so many steps stops here. The debugger is as it was found.
#[tactic(auto, using(crate::proofs::AlongLemmas::halting))]
fn halts(
    alloc: Global,
    debugger: &mut Debugger<'_>,
    breaks: &Breaks,
    goal: Goal,
    begun: usize,
) -> Result<bool, AllocError>
    ensures halts { IfOk result (λ b. b ≡ spec.halts_at breaks.now goal begun debugger.old.trail debugger.old.trail.depth) }
    ensures as_found { AsFound (standing_of debugger.old) (standing_of debugger.new) }
{
    if is_hit(debugger, breaks)? {
        return Ok(true);
    }
    if is_asked(debugger, goal, begun)? {
        return Ok(true);
    }
    is_choice_for(alloc, debugger, goal)
}

/// Goes along the steps ahead to where a move stops, or to their end.
#[tactic(auto, using(crate::proofs::AlongLemmas::going))]
fn go_along(
    alloc: Global,
    debugger: &mut Debugger<'_>,
    breaks: &Breaks,
    goal: Goal,
) -> Result<(), AllocError>
    ensures end { OnOk result (debugger.new.trail ≡ gone_back debugger.old.trail (spec.end_along breaks.now goal debugger.old.trail)) }
    ensures reached { OnOk result (IsReached (standing_of debugger.new)) }
{
    debugger.state_is_reached();
    let begun = debugger.depth();
    let end = debugger.steps().len();
    for _depth in begun..end {
        let Ok(()) = debugger.redo() else {
            return Err(AllocError);
        };
        if halts(alloc, debugger, breaks, goal, begun)? {
            return Ok(());
        }
    }
    Ok(())
}

/// Why a move stops that hits no breakpoint, given whether it has come to what was asked for, and the
/// single step that comes next.
fn stopped_short(word: Word, asked: bool, only: Option<Step>) -> Stopped
    ensures { result ≡ spec.stopped_short word asked only }
{
    match only {
        None => Stopped::There,
        Some(_) if asked => stopped_asked(word),
        Some(_) => Stopped::AheadEnds,
    }
}

/// Why a move stops, given the lowest breakpoint that its last step hits, and why else.
fn stopped_by(breaks: &Breaks, hit: Option<usize>, otherwise: Stopped) -> Stopped
    ensures { result ≡ spec.stopped_by breaks.now hit otherwise }
{
    match hit {
        None => otherwise,
        Some(number) => stopped_at(number, breaks.breakpoint(number)),
    }
}

/// Why a move that began after so many steps stops here.
#[tactic(auto, using(crate::proofs::AlongLemmas::telling))]
fn stopped_here(
    alloc: Global,
    debugger: &mut Debugger<'_>,
    breaks: &Breaks,
    word: Word,
    goal: Goal,
    begun: usize,
) -> Result<Stopped, AllocError>
    ensures stopped { IfOk result (λ stopped. stopped ≡ spec.stopped_along breaks.now word goal begun debugger.old.trail debugger.old.trail.depth) }
    ensures as_found { AsFound (standing_of debugger.old) (standing_of debugger.new) }
{
    let hit = last_hit(debugger, breaks)?;
    let asked = is_asked(debugger, goal, begun)?;
    let only = only_step(alloc, debugger.core())?;
    Ok(stopped_by(breaks, hit, stopped_short(word, asked, only)))
}

/// How far a word goes along the steps ahead. The debugger is left there.
#[tactic(auto, using(crate::proofs::AlongLemmas::ending))]
fn along_by(
    alloc: Global,
    debugger: &mut Debugger<'_>,
    breaks: &Breaks,
    word: Word,
    goal: Goal,
) -> Result<Along, AllocError>
    ensures { IfOk result (λ along. along ≡ spec.along_of breaks.now word goal debugger.old.trail) }
{
    let begun = debugger.depth();
    go_along(alloc, debugger, breaks, goal)?;
    let steps = debugger.depth().saturating_sub(begun);
    let stopped = stopped_here(alloc, debugger, breaks, word, goal, begun)?;
    Ok(Along { steps, stopped })
}

/// A debugger of its own that stands where this one does, with the same steps ahead.
pub(crate) fn twin_of<'c>(
    alloc: Global,
    debugger: &Debugger<'c>,
) -> Result<Debugger<'c>, AllocError>
    ensures { IfOk result (λ d. AsFound (standing_of debugger.now) (standing_of d)) }
{
    debugger.state_is_reached();
    let steps = Vec::from_slice(alloc, debugger.steps())?;
    let mut twin = debugger.copy()?;
    twin.put_steps(steps);
    Ok(twin)
}

/// How far a word goes along the steps ahead, and why no further. A copy of the debugger goes there.
/// An `Err` is want of memory.
pub(crate) fn along_of(
    alloc: Global,
    debugger: &Debugger<'_>,
    breaks: &Breaks,
    word: Word,
    goal: Goal,
) -> Result<Along, AllocError>
    ensures { IfOk result (λ along. along ≡ spec.along_of breaks.now word goal debugger.now.trail) }
{
    let mut twin = twin_of(alloc, debugger)?;
    let along = along_by(alloc, &mut twin, breaks, word, goal);
    drop(twin);
    along
}
