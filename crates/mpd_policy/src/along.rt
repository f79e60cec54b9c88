//! A walk along decisions.

ghost use Rattle.std.specs.Prelude.{◌≡◌, ◌<◌, ◌≤◌, ◌+◌, ◌++◌, IfOk, OnOk, OnErr, IsSome, Some, length, Decides};
ghost use Rattle.mpd_policy.specs.declared.along.WalkEnd.TheVariants as stop_is;
ghost use Rattle.mpd_model.specs.steps.Next.{fold};
ghost use Rattle.mpd_model.specs.runs.Trail.{Standing, done_steps, gone_back, forgotten, IsReached};
ghost use Rattle.mpd_trail.specs.DebuggerViews.{AsFound, standing_of};
ghost use Rattle.mpd_policy.specs.Walk.{ending_by, run_by, steps_by};
ghost use Rattle.mpd_policy.specs.Walks.{Beyond, Goes, Walks, ending_after};

use crate::chooser::Chooser;
use crate::choosers::ByChoices;
use crate::ending::Ending;
use crate::schedule::Schedule;
use mpd_model::{Decision, Outcome, STEPS_MAX};
use mpd_trail::Debugger;
use std::alloc::{AllocError, Global};

/// Why a walk stops.
#[derive(Drop)]
pub enum WalkEnd {
    /// The run has ended.
    Ended(Outcome),
    /// The limit is reached.
    Fuel,
    /// None of the candidates of a choice is taken.
    Untaken,
}

impl WalkEnd {
    /// Whether none of the candidates of a choice is taken.
    pub fn is_untaken(&self) -> bool
        ensures { Decides result (self.now ≡ stop_is.Untaken) }
    {
        matches!(self, WalkEnd::Untaken)
    }
}

/// Goes on by one step, or says why not. The chooser is told of a forced step before it is taken.
fn go_on<S: Schedule, C: Chooser>(
    alloc: Global,
    schedule: &S,
    debugger: &mut Debugger<'_>,
    chooser: &mut C,
) -> Result<Option<WalkEnd>, AllocError>
    requires few { debugger.old.trail.depth < STEPS_MAX }
    ensures goes { IfOk result (λ o. Goes S.decides C.takes C.leaves C.passes (standing_of debugger.old) chooser.old o (standing_of debugger.new) chooser.new) }
    ensures beyond { Beyond (standing_of debugger.old) (standing_of debugger.new) }
{
    debugger.state_is_reached();
    schedule.can_be_followed();
    match schedule.decide(alloc, debugger.core())? {
        Decision::Leaf(outcome) => Ok(Some(WalkEnd::Ended(outcome))),
        Decision::Forced(step) => {
            chooser.pass(debugger, step)?;
            debugger.forward(step)?;
            Ok(None)
        }
        Decision::Choice(candidates) => {
            let Some(step) = chooser.choose(debugger, candidates)? else {
                return Ok(Some(WalkEnd::Untaken));
            };
            debugger.forward(step)?;
            Ok(None)
        }
    }
}

/// Leads a debugger along decisions, up to a depth, and returns why it stops. The chooser is told
/// of each forced step before it is taken; at each choice the candidate is taken that it chooses.
/// `Err` means that memory was refused; the debugger is then somewhere on that way.
pub fn walk<S: Schedule, C: Chooser>(
    alloc: Global,
    schedule: &S,
    debugger: &mut Debugger<'_>,
    limit: usize,
    chooser: &mut C,
) -> Result<WalkEnd, AllocError>
    requires within { debugger.old.trail.depth ≤ limit }
    requires few { limit ≤ STEPS_MAX }
    ensures walks { IfOk result (λ s. Walks S.decides C.takes C.leaves C.passes limit (standing_of debugger.old) chooser.old s (standing_of debugger.new) chooser.new) }
    ensures beyond { Beyond (standing_of debugger.old) (standing_of debugger.new) }
{
    debugger.state_is_reached();
    let begun = debugger.depth();
    for depth in begun..limit {
        if let Some(stop) = go_on(alloc, schedule, debugger, chooser)? {
            return Ok(stop);
        }
    }
    Ok(WalkEnd::Fuel)
}

/// Leads a debugger along the run that some choices describe from its state, to the end of the run
/// or of its fuel, which counts from here. `Err` means that memory was refused; the debugger is
/// then somewhere on that run.
pub fn follow<S: Schedule>(
    alloc: Global,
    schedule: &S,
    debugger: &mut Debugger<'_>,
    fuel: usize,
    choices: &[usize],
) -> Result<(), AllocError>
    requires fits { debugger.old.trail.depth + fuel ≤ STEPS_MAX }
    requires some { IsSome (run_by S.decides fuel choices.now debugger.old.world) }
    ensures steps { OnOk result (done_steps debugger.new.trail ≡ done_steps debugger.old.trail ++ steps_by (run_by S.decides fuel choices.now debugger.old.world)) }
    ensures leads { OnOk result (fold debugger.old.world (steps_by (run_by S.decides fuel choices.now debugger.old.world)) ≡ Some debugger.new.world) }
    ensures beyond { Beyond (standing_of debugger.old) (standing_of debugger.new) }
{
    debugger.state_is_reached();
    let base = debugger.depth();
    let mut chooser = ByChoices { left: choices };
    let stop = walk(alloc, schedule, debugger, base + fuel, &mut chooser)?;
    drop(stop);
    Ok(())
}

/// How a run ends if its fuel is used up here.
fn ending_here<S: Schedule>(
    alloc: Global,
    schedule: &S,
    debugger: &Debugger<'_>,
) -> Result<Ending, AllocError>
    ensures { IfOk result (λ e. e ≡ ending_by (S.decides debugger.now.world)) }
{
    match schedule.decide(alloc, debugger.core())? {
        Decision::Leaf(outcome) => Ok(Ending::Ended(outcome)),
        Decision::Forced(_) => Ok(Ending::Cut),
        Decision::Choice(_) => Ok(Ending::Cut),
    }
}

/// How the run ends at the state in which a walk has stopped; none if it stopped at a choice. `Err`
/// means that memory was refused, which happens only at the limit, where the schedule is asked once
/// more.
pub fn ending_of<S: Schedule>(
    alloc: Global,
    schedule: &S,
    debugger: &Debugger<'_>,
    stop: WalkEnd,
) -> Result<Option<Ending>, AllocError>
    ensures ending { IfOk result (λ o. o ≡ ending_after S.decides stop debugger.now.world) }
    ensures memory { OnErr result (stop ≡ stop_is.Fuel) }
{
    match stop {
        WalkEnd::Ended(outcome) => Ok(Some(Ending::Ended(outcome))),
        WalkEnd::Fuel => {
            let ending = ending_here(alloc, schedule, debugger)?;
            Ok(Some(ending))
        }
        WalkEnd::Untaken => Ok(None),
    }
}

/// Takes steps back down to a depth, and keeps no undone step. A debugger that was at this depth
/// with no undone step, and has gone on from there, is then as it was.
pub fn put_back(debugger: &mut Debugger<'_>, base: usize)
    requires { base ≤ debugger.old.trail.depth }
    ensures trail { debugger.new.trail ≡ forgotten (gone_back debugger.old.trail base) }
    ensures reached { IsReached (standing_of debugger.new) }
    ensures found { (d : Standing) → IsReached d → length d.trail.steps ≡ d.trail.depth → base ≡ d.trail.depth → Beyond d (standing_of debugger.old) → AsFound d (standing_of debugger.new) }
{
    let _ = debugger.undo_to(base);
    debugger.forget_undone();
}
