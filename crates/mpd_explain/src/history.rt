//! The steps that are not undone, each with what it is about (docs/CONSOLE.md, "Looks").

ghost use Rattle.std.specs.Prelude.{◌≡◌, ◌++◌, ◌∷◌, ◌<◌, ◌≤◌, [], IfOk, OnOk, Some, length, drop, slice_get};
ghost use Rattle.mpd_model.specs.declared.step.Step.{Step};
ghost use Rattle.mpd_model.specs.steps.Next.{next};
ghost use Rattle.mpd_model.specs.runs.Trail.{done_steps, redone};
ghost use Rattle.mpd_explain.specs.Past as past;
ghost use Rattle.mpd_explain.specs.Steps.{placed_step_of};

use crate::steps::{PlacedStep, PlacedStepList, placed_step};
use mpd_trail::Debugger;
use std::alloc::{AllocError, Global};

/// Lists the first step that is undone, and takes it again.
fn push_past(debugger: &mut Debugger<'_>, steps: &mut Vec<PlacedStep>) -> Result<(), AllocError>
    requires { debugger.old.trail.depth < length debugger.old.trail.steps }
    ensures listed { OnOk result ((step : Step) → slice_get debugger.old.trail.steps debugger.old.trail.depth ≡ Some step → steps.new.items ≡ steps.old.items ++ placed_step_of debugger.old.trail.program debugger.old.world step ∷ []) }
    ensures leads { OnOk result ((step : Step) → slice_get debugger.old.trail.steps debugger.old.trail.depth ≡ Some step → next debugger.old.world step ≡ Some debugger.new.world) }
    ensures trail { OnOk result (debugger.new.trail ≡ redone debugger.old.trail) }
{
    let Some(step) = debugger.next_undone() else {
        unreachable!();
    };
    steps.push(placed_step(debugger.core(), step))?;
    match debugger.redo() {
        Ok(()) => Ok(()),
        Err(_) => Err(AllocError),
    }
}

/// Lists all steps that are undone, and takes them again.
fn push_undone(debugger: &mut Debugger<'_>, steps: &mut Vec<PlacedStep>) -> Result<(), AllocError>
    ensures { OnOk result (steps.new.items ≡ steps.old.items ++ past.past_steps debugger.old.trail.program debugger.old.world (drop debugger.old.trail.depth debugger.old.trail.steps)) }
{
    debugger.state_is_reached();
    let first = debugger.depth();
    let count = debugger.steps().len();
    for place in first..count {
        push_past(debugger, steps)?;
    }
    Ok(())
}

/// Takes steps back until `first` are left, and lists all after those. No step was undone before.
#[tactic(auto, using(crate::proofs::PastLemmas::going_back))]
fn push_behind(
    debugger: &mut Debugger<'_>,
    steps: &mut Vec<PlacedStep>,
    first: usize,
) -> Result<(), AllocError>
    requires within { first ≤ debugger.old.trail.depth }
    requires clean { length debugger.old.trail.steps ≡ debugger.old.trail.depth }
    ensures { OnOk result (steps.new.items ≡ steps.old.items ++ past.past_behind debugger.old.trail.program debugger.old.trail.mode (done_steps debugger.old.trail) first) }
{
    let _ = debugger.undo_to(first);
    push_undone(debugger, steps)
}

/// Lists the steps that are not undone, after the first `first`.
#[tactic(auto, using(crate::proofs::PastLemmas::going_back))]
fn push_last(
    debugger: &Debugger<'_>,
    steps: &mut Vec<PlacedStep>,
    first: usize,
) -> Result<(), AllocError>
    requires { first ≤ debugger.now.trail.depth }
    ensures { OnOk result (steps.new.items ≡ steps.old.items ++ past.past_behind debugger.now.trail.program debugger.now.trail.mode (done_steps debugger.now.trail) first) }
{
    match debugger.copy() {
        Err(_) => Err(AllocError),
        Ok(mut copy) => {
            let listed = push_behind(&mut copy, steps, first);
            drop(copy);
            listed
        }
    }
}

/// The last `count` steps that are not undone, or all if there are fewer, each on the state before
/// it. A copy of the debugger goes back and takes them again. `Err` means that memory was refused.
pub fn history_of(
    alloc: Global,
    debugger: &Debugger<'_>,
    count: usize,
) -> Result<PlacedStepList, AllocError>
    ensures { IfOk result (λ steps. steps ≡ past.history debugger.now.trail count) }
{
    let mut items = Vec::new(alloc);
    push_last(debugger, &mut items, debugger.depth().saturating_sub(count))?;
    Ok(PlacedStepList { items })
}
