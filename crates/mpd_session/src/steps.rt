//! Commands that take steps, and take them back.

ghost use Rattle.std.specs.Prelude.{◌≡◌, ◌+◌, ◌-◌, ◌<◌, ◌≤◌, ℕ, IfOk, OnOk, OnErr, IfSome, IfNone, Some, None, length, nat_lt, slice_get};
ghost use Rattle.mpd_model.specs.steps.Next.{next};
ghost use Rattle.mpd_model.specs.runs.Trail.{IsReached, applied, gone_back};
ghost use Rattle.mpd_model.specs.runs.Decisions.{decision};
ghost use Rattle.mpd_trail.specs.DebuggerViews.{standing_of};
ghost use Rattle.mpd_session.specs.declared.reply.Answer.{Answer};
ghost use Rattle.mpd_session.specs.Effects.{step_effect, taken_effect, picked_effect, next_effect, back_effect, redo_effect, goto_effect};

use crate::effect::{Effect, is_within};
use crate::reply::{Answer, Refusal};
use mpd_model::{Decision, STEPS_MAX, Step};
use mpd_policy::decide;
use mpd_trail::{ApplyFault, Debugger};
use std::alloc::{AllocError, Global};

/// Whether a number is below another.
pub fn is_below(one: usize, other: usize) -> bool
    ensures { result ≡ nat_lt one other }
{
    one < other
}

/// Takes a step. `Err` means that memory was refused; then nothing has changed.
#[tactic(auto, using(crate::proofs::StepLemmas::stepping))]
pub fn step(debugger: &mut Debugger<'_>, step: Step) -> Result<Effect, AllocError>
    ensures effect { IfOk result (λ effect. effect ≡ (step_effect debugger.old.trail debugger.old.world step).0) }
    ensures trail { OnOk result (debugger.new.trail ≡ (step_effect debugger.old.trail debugger.old.world step).1) }
    ensures err { OnErr result (debugger.new.trail ≡ debugger.old.trail) }
{
    let depth = debugger.depth();
    match debugger.apply(step) {
        Ok(()) => Ok(Effect::Changed(Answer::Depth(depth + 1))),
        Err(ApplyFault::NotEnabled) => Ok(Effect::Refused(Refusal::NotEnabled)),
        Err(ApplyFault::Full) => Ok(Effect::Refused(Refusal::Full)),
        Err(ApplyFault::Memory) => Err(AllocError),
    }
}

/// Takes the step that was decided on. `Err` means that memory was refused; then nothing has
/// changed.
#[tactic(auto, using(crate::proofs::StepLemmas::stepping))]
fn take(debugger: &mut Debugger<'_>, step: Step) -> Result<Effect, AllocError>
    ensures effect { IfOk result (λ effect. effect ≡ (taken_effect debugger.old.trail debugger.old.world step).0) }
    ensures trail { OnOk result (debugger.new.trail ≡ (taken_effect debugger.old.trail debugger.old.world step).1) }
    ensures err { OnErr result (debugger.new.trail ≡ debugger.old.trail) }
{
    let depth = debugger.depth() + 1;
    match debugger.apply(step) {
        Ok(()) => Ok(Effect::Changed(Answer::Stepped { depth, step })),
        Err(ApplyFault::NotEnabled) => Ok(Effect::Refused(Refusal::NotEnabled)),
        Err(ApplyFault::Full) => Ok(Effect::Refused(Refusal::Full)),
        Err(ApplyFault::Memory) => Err(AllocError),
    }
}

/// Takes the step that was picked, if any.
fn pick(debugger: &mut Debugger<'_>, picked: Option<Step>) -> Result<Effect, AllocError>
    ensures effect { IfOk result (λ effect. effect ≡ (picked_effect debugger.old.trail debugger.old.world picked).0) }
    ensures trail { OnOk result (debugger.new.trail ≡ (picked_effect debugger.old.trail debugger.old.world picked).1) }
    ensures err { OnErr result (debugger.new.trail ≡ debugger.old.trail) }
{
    match picked {
        None => Ok(Effect::Refused(Refusal::BadNumber)),
        Some(step) => take(debugger, step),
    }
}

/// The candidate of a number, if there is one.
fn step_at(steps: &[Step], index: usize) -> Option<Step>
    ensures { result ≡ slice_get steps.now index }
{
    steps.get(index).copied()
}

/// Follows a decision.
fn follow(
    debugger: &mut Debugger<'_>,
    choice: Option<usize>,
    decision: &Decision,
) -> Result<Effect, AllocError>
    ensures effect { IfOk result (λ effect. effect ≡ (next_effect debugger.old.trail debugger.old.world choice decision.now).0) }
    ensures trail { OnOk result (debugger.new.trail ≡ (next_effect debugger.old.trail debugger.old.world choice decision.now).1) }
    ensures err { OnErr result (debugger.new.trail ≡ debugger.old.trail) }
{
    match decision {
        Decision::Leaf(_) => Ok(Effect::Refused(Refusal::NotEnabled)),
        Decision::Forced(step) => take(debugger, *step),
        Decision::Choice(steps) => match choice {
            None => Ok(Effect::Refused(Refusal::NeedsChoice {
                count: steps.items.len(),
            })),
            Some(index) => pick(debugger, step_at(&steps.items, index)),
        },
    }
}

/// Takes the step that comes next. `Err` means that memory was refused; then nothing has changed.
pub fn next(
    alloc: Global,
    debugger: &mut Debugger<'_>,
    choice: Option<usize>,
) -> Result<Effect, AllocError>
    ensures effect { IfOk result (λ effect. effect ≡ (next_effect debugger.old.trail debugger.old.world choice (decision debugger.old.world)).0) }
    ensures trail { OnOk result (debugger.new.trail ≡ (next_effect debugger.old.trail debugger.old.world choice (decision debugger.old.world)).1) }
    ensures err { OnErr result (debugger.new.trail ≡ debugger.old.trail) }
{
    let decision = decide(alloc, debugger.core())?;
    follow(debugger, choice, &decision)
}

/// Takes steps back until `depth` are left. It takes no memory.
#[tactic(auto, using(crate::proofs::StepLemmas::going))]
pub fn goto(debugger: &mut Debugger<'_>, depth: usize) -> Effect
    ensures effect { result ≡ (goto_effect debugger.old.trail depth).0 }
    ensures trail { debugger.new.trail ≡ (goto_effect debugger.old.trail depth).1 }
{
    match debugger.undo_to(depth) {
        Ok(()) => Effect::Changed(Answer::Depth(depth)),
        Err(_) => Effect::Refused(Refusal::NotBefore),
    }
}

/// Takes `count` steps back. It takes no memory.
#[tactic(auto, using(crate::proofs::StepLemmas::going))]
pub fn back(debugger: &mut Debugger<'_>, count: usize) -> Effect
    ensures effect { result ≡ (back_effect debugger.old.trail count).0 }
    ensures trail { debugger.new.trail ≡ (back_effect debugger.old.trail count).1 }
{
    if !is_within(1, STEPS_MAX, count) {
        return Effect::Refused(Refusal::BadNumber);
    }
    let Some(left) = debugger.depth().checked_sub(count) else {
        return Effect::Refused(Refusal::AtStart);
    };
    let _ = debugger.undo_to(left);
    Effect::Changed(Answer::Depth(left))
}

/// Takes `count` undone steps again. `Err` means that memory was refused on the way; then those
/// before it are taken.
#[tactic(auto, using(crate::proofs::StepLemmas::again))]
fn take_again(debugger: &mut Debugger<'_>, count: usize) -> Result<(), AllocError>
    requires { debugger.old.trail.depth + count ≤ length debugger.old.trail.steps }
    ensures depth { OnOk result (debugger.new.trail.depth ≡ debugger.old.trail.depth + count) }
    ensures trail { debugger.new.trail ≡ gone_back debugger.old.trail debugger.new.trail.depth }
    ensures deeper { debugger.old.trail.depth ≤ debugger.new.trail.depth }
{
    for _made in 0..count {
        match debugger.redo() {
            Ok(()) => {}
            Err(_) => return Err(AllocError),
        }
    }
    Ok(())
}

/// Takes `count` undone steps again. `Err` means that memory was refused; then nothing has changed.
#[tactic(auto, using(crate::proofs::StepLemmas::going))]
pub fn redo(debugger: &mut Debugger<'_>, count: usize) -> Result<Effect, AllocError>
    ensures effect { IfOk result (λ effect. effect ≡ (redo_effect debugger.old.trail count).0) }
    ensures trail { OnOk result (debugger.new.trail ≡ (redo_effect debugger.old.trail count).1) }
    ensures err { OnErr result (debugger.new.trail ≡ debugger.old.trail) }
{
    if !is_within(1, STEPS_MAX, count) {
        return Ok(Effect::Refused(Refusal::BadNumber));
    }
    debugger.state_is_reached();
    let depth = debugger.depth();
    let undone = debugger.steps().len() - depth;
    if is_below(undone, count) {
        return Ok(Effect::Refused(Refusal::NoRedo));
    }
    match take_again(debugger, count) {
        Ok(()) => Ok(Effect::Changed(Answer::Depth(depth + count))),
        Err(fault) => {
            let _ = debugger.undo_to(depth);
            Err(fault)
        }
    }
}
