//! Looks at steps, at what comes next, and at how a run has ended.

ghost use Rattle.std.specs.Prelude.{◌≡◌, IfOk, take, length, nat_le, option_map};
ghost use Rattle.mpd_model.specs.runs.Decisions.{decision};
ghost use Rattle.mpd_session.specs.Looks as spec;

use crate::copy::copy_decls;
use crate::effect::{Effect, is_within};
use crate::looks::step_texts;
use crate::reply::{Answer, Coming, DeclList, Explained, Refusal, Text};
use mpd_core::Core;
use mpd_explain::{LossList, PlacedStepList, all_losses, outcome_end, placed_steps};
use mpd_model::{Decision, Outcome, STEPS_MAX, Step, print_outcome};
use mpd_policy::decide;
use mpd_trail::Debugger;
use std::alloc::{AllocError, Global};

/// The first of some steps, `count` at most.
fn first_of(steps: &[Step], count: usize) -> &[Step]
    ensures { result.now ≡ take count steps.now }
{
    if count >= steps.len() {
        return steps;
    }
    let (first, _) = steps.split_at(count);
    first
}

/// Whether there are at least `from` steps.
fn are_there(steps: &[Step], from: usize) -> bool
    ensures { result ≡ nat_le from (length steps.now) }
{
    from <= steps.len()
}

/// Lists steps that are taken or ahead, `count` at most, from the one on that follows the first
/// `from`. `Err` means that memory was refused.
pub fn steps(
    alloc: Global,
    debugger: &Debugger<'_>,
    from: usize,
    count: usize,
) -> Result<Effect, AllocError>
    ensures { IfOk result (λ effect. effect ≡ spec.steps_effect debugger.now.trail from count) }
{
    let all = debugger.steps();
    if !is_within(1, STEPS_MAX, count) {
        return Ok(Effect::Refused(Refusal::BadNumber));
    }
    if !are_there(all, from) {
        return Ok(Effect::Refused(Refusal::BadNumber));
    }
    debugger.state_is_reached();
    let depth = debugger.depth();
    let (_, rest) = all.split_at(from);
    Ok(Effect::Told(Answer::Steps {
        depth,
        steps: step_texts(alloc, first_of(rest, count))?,
        undone: all.len() - depth,
    }))
}

/// Tells that one of some steps comes next.
fn coming(
    alloc: Global,
    core: &Core<'_>,
    coming: Coming,
    steps: &[Step],
) -> Result<Effect, AllocError>
    ensures { IfOk result (λ effect. effect ≡ spec.coming_effect core.now.program core.now.world coming steps.now) }
{
    Ok(Effect::Told(Answer::Decided {
        coming,
        steps: placed_steps(alloc, core, steps)?,
        decls: copy_decls(alloc, core.code().decls())?,
        outcome: None,
    }))
}

/// Tells how the run has ended.
fn ended(alloc: Global, outcome: &Outcome) -> Result<Effect, AllocError>
    ensures { IfOk result (λ effect. effect ≡ spec.ended_effect outcome.now) }
{
    let string = print_outcome(alloc, outcome)?;
    Ok(Effect::Told(Answer::Decided {
        coming: Coming::Leaf,
        steps: PlacedStepList {
            items: Vec::new(alloc),
        },
        decls: DeclList {
            items: Vec::new(alloc),
        },
        outcome: Some(Text { string }),
    }))
}

/// Tells a decision.
fn decided(alloc: Global, core: &Core<'_>, decision: &Decision) -> Result<Effect, AllocError>
    ensures { IfOk result (λ effect. effect ≡ spec.decision_effect core.now.program core.now.world decision.now) }
{
    match decision {
        Decision::Forced(step) => coming(alloc, core, Coming::Forced, &[*step]),
        Decision::Choice(steps) => coming(alloc, core, Coming::Choice, &steps.items),
        Decision::Leaf(outcome) => ended(alloc, outcome),
    }
}

/// Tells what comes next. `Err` means that memory was refused.
pub fn decision(alloc: Global, core: &Core<'_>) -> Result<Effect, AllocError>
    ensures { IfOk result (λ effect. effect ≡ spec.decision_effect core.now.program core.now.world (decision core.now.world)) }
{
    let decision = decide(alloc, core)?;
    decided(alloc, core, &decision)
}

/// How a run has ended with this outcome, with what is known of that.
fn explained_of(alloc: Global, core: &Core<'_>, outcome: &Outcome) -> Result<Explained, AllocError>
    ensures { IfOk result (λ told. told ≡ spec.explained_of core.now.program core.now.world outcome.now) }
{
    let lost = all_losses(alloc, core)?;
    Ok(Explained {
        end: outcome_end(alloc, core, outcome)?,
        lost: LossList { items: lost },
        decls: copy_decls(alloc, core.code().decls())?,
    })
}

/// The same, if it has ended.
fn explained(
    alloc: Global,
    core: &Core<'_>,
    outcome: &Option<Outcome>,
) -> Result<Option<Explained>, AllocError>
    ensures { IfOk result (λ told. told ≡ option_map (spec.explained_of core.now.program core.now.world) outcome.now) }
{
    match outcome {
        None => Ok(None),
        Some(outcome) => Ok(Some(explained_of(alloc, core, outcome)?)),
    }
}

/// Explains how the run has ended. `Err` means that memory was refused.
pub fn explain(alloc: Global, core: &Core<'_>) -> Result<Effect, AllocError>
    ensures { IfOk result (λ effect. effect ≡ spec.explain_effect core.now.program core.now.world) }
{
    let outcome = core.outcome(alloc)?;
    Ok(Effect::Told(Answer::Explained(explained(alloc, core, &outcome)?)))
}
