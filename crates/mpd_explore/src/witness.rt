//! The witness of a leaf: its run is made again, along its choices and the schedule that it was listed by.

ghost use Rattle.std.specs.Prelude.{◌≡◌, ◌+◌, ◌≤◌, ◌++◌, IfOk, OnErr, IsSome, length};
ghost use Rattle.mpd_model.specs.runs.Trail.{done_steps};
ghost use Rattle.mpd_trail.specs.DebuggerViews.{AsFound, standing_of};
ghost use Rattle.mpd_policy.specs.Walk.{run_by, steps_by};
ghost use Rattle.mpd_policy.specs.Walks.{Beyond};
ghost use Rattle.mpd_explore.specs.Witness.{witness_by, end_of};

use crate::ends::end_of;
use crate::report::{EndWitness, SearchLeaf};
use mpd_model::{STEPS_MAX, StepList};
use mpd_policy::{Schedule, follow, put_back};
use mpd_trail::Debugger;
use std::alloc::{AllocError, Global};

/// The steps that are not undone.
fn steps_here(alloc: Global, debugger: &Debugger<'_>) -> Result<StepList, AllocError>
    ensures { IfOk result (λ steps. steps ≡ done_steps debugger.now.trail) }
{
    debugger.state_is_reached();
    let depth = debugger.depth();
    let (steps, _) = debugger.steps().split_at(depth);
    let items = Vec::from_slice(alloc, steps)?;
    Ok(StepList { items })
}

/// All steps from the start to the end of a run. On return the debugger may be at any later state.
fn retrace<S: Schedule>(
    alloc: Global,
    schedule: &S,
    debugger: &mut Debugger<'_>,
    fuel: usize,
    choices: &[usize],
) -> Result<StepList, AllocError>
    requires fits { debugger.old.trail.depth + fuel ≤ STEPS_MAX }
    requires some { IsSome (run_by S.decides fuel choices.now debugger.old.world) }
    ensures steps { IfOk result (λ steps. steps ≡ done_steps debugger.old.trail ++ steps_by (run_by S.decides fuel choices.now debugger.old.world)) }
    ensures beyond { Beyond (standing_of debugger.old) (standing_of debugger.new) }
{
    follow(alloc, schedule, debugger, fuel, choices)?;
    let steps = steps_here(alloc, debugger)?;
    Ok(steps)
}

/// The same, and the debugger is left as found.
pub(crate) fn retraced<S: Schedule>(
    alloc: Global,
    schedule: &S,
    debugger: &mut Debugger<'_>,
    fuel: usize,
    choices: &[usize],
) -> Result<StepList, AllocError>
    requires clean { length debugger.old.trail.steps ≡ debugger.old.trail.depth }
    requires fits { debugger.old.trail.depth + fuel ≤ STEPS_MAX }
    requires some { IsSome (run_by S.decides fuel choices.now debugger.old.world) }
    ensures steps { IfOk result (λ steps. steps ≡ done_steps debugger.old.trail ++ steps_by (run_by S.decides fuel choices.now debugger.old.world)) }
    ensures as_found { AsFound (standing_of debugger.old) (standing_of debugger.new) }
{
    debugger.state_is_reached();
    let base = debugger.depth();
    let found = retrace(alloc, schedule, debugger, fuel, choices);
    put_back(debugger, base);
    found
}

/// The witness of a leaf that was listed along a schedule, if it is a deadlock or a trap: the steps
/// that led to the debugger's state, then those of the leaf's run, made again, and what they lead
/// to. `fuel` is that of the exploration. The debugger is left as found, also on `Err`, which means
/// that memory was refused; this happens only if the leaf is a deadlock or a trap.
pub fn witness_of<S: Schedule>(
    alloc: Global,
    schedule: &S,
    debugger: &mut Debugger<'_>,
    fuel: usize,
    leaf: &SearchLeaf,
) -> Result<Option<EndWitness>, AllocError>
    requires clean { length debugger.old.trail.steps ≡ debugger.old.trail.depth }
    requires fits { debugger.old.trail.depth + fuel ≤ STEPS_MAX }
    requires listed { IsSome (run_by S.decides fuel leaf.now.choices debugger.old.world) }
    ensures witness { IfOk result (λ o. o ≡ witness_by (done_steps debugger.old.trail ++ steps_by (run_by S.decides fuel leaf.now.choices debugger.old.world)) leaf.now.ending) }
    ensures as_found { AsFound (standing_of debugger.old) (standing_of debugger.new) }
    ensures memory { OnErr result (IsSome (end_of leaf.now.ending)) }
{
    debugger.state_is_reached();
    let Some(end) = end_of(alloc, &leaf.ending)? else {
        return Ok(None);
    };
    match retraced(alloc, schedule, debugger, fuel, &leaf.choices.items) {
        Ok(steps) => Ok(Some(EndWitness { steps, end })),
        Err(fault) => {
            drop(end);
            Err(fault)
        }
    }
}
