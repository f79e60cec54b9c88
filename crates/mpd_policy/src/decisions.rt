//! What comes next in a state.

ghost use Rattle.std.specs.Prelude.{◌≡◌, ◌<◌, [], length, None, IfOk, OnOk, OnErr};
ghost use Rattle.mpd_model.specs.steps.World.{World};
ghost use Rattle.mpd_model.specs.steps.Next.{enabled};
ghost use Rattle.mpd_model.specs.steps.Outcomes.{ending};
ghost use Rattle.mpd_model.specs.runs.Decisions as decisions;
ghost use Rattle.mpd_model.specs.runs.Decisions.{is_local, is_release, is_wake, is_named_match, first_enabled, any_choices, decision, CanFollow};
ghost use Rattle.mpd_model.specs.declared.decision.Decision.TheVariants as next_is;
ghost use Rattle.mpd_policy.specs.Entries.{entries_of};
ghost use Rattle.mpd_policy.specs.Single as singles;

use mpd_core::Core;
use mpd_model::{Decision, Step, StepList};
use std::alloc::{AllocError, Global};

/// The local step of the lowest rank that has one.

fn first_local(core: &Core<'_>) -> Option<Step>
    ensures { result ≡ first_enabled core.now.world is_local }
{
    let count = core.rank_count();
    for rank in 0..count {
        if core.is_enabled(Step::Local(rank)) {
            return Some(Step::Local(rank));
        }
    }
    None
}

/// The release, if it is enabled.
#[tactic(auto, using(crate::proofs::StepKinds::releasing))]
pub(crate) fn release(core: &Core<'_>) -> Option<Step>
    ensures { result ≡ first_enabled core.now.world is_release }
{
    if core.is_enabled(Step::Release) {
        return Some(Step::Release);
    }
    None
}

/// The wake of the lowest rank that can be woken.
#[inline(always)]
pub(crate) fn first_wake(core: &Core<'_>) -> Option<Step>
    ensures { result ≡ first_enabled core.now.world is_wake }
{
    let count = core.rank_count();
    for rank in 0..count {
        if core.is_enabled(Step::Wake(rank)) {
            return Some(Step::Wake(rank));
        }
    }
    None
}

/// The first match whose receive names its source.
#[tactic(auto, using(crate::proofs::StepKinds::naming))]
fn first_named_match(core: &Core<'_>) -> Option<Step>
    ensures { result ≡ first_enabled core.now.world (is_named_match core.now.world.board) }
{
    core.board().first_named_match()
}

/// The forced step, which nobody has to choose, if there is one (docs/DEFINITIONS.md, "Decisions").
/// Takes no memory.
#[inline(always)]
#[tactic(auto, using(crate::proofs::StepKinds::first_of_four))]
pub fn forced_step(core: &Core<'_>) -> Option<Step>
    ensures { result ≡ decisions.forced_step core.now.world }
{
    let local = first_local(core);
    if local.is_some() {
        return local;
    }
    let release = release(core);
    if release.is_some() {
        return release;
    }
    let wake = first_wake(core);
    if wake.is_some() {
        return wake;
    }
    first_named_match(core)
}

/// Lists the steps of the waitany of the lowest rank that has one, by index: those of its requests that are complete.
#[tactic(auto, using(crate::proofs::StepKinds::finding_any))]
fn push_any_choices(core: &Core<'_>, steps: &mut Vec<Step>) -> Result<(), AllocError>
    requires { steps.old.items ≡ [] }
    ensures ok { OnOk result (steps.new.items ≡ any_choices core.now.world) }
    ensures memory { OnErr result (0 < length (any_choices core.now.world)) }
{
    let count = core.rank_count();
    for rank in 0..count {
        core.push_any_wakes_of(rank, steps)?;
        if !steps.is_empty() {
            return Ok(());
        }
    }
    Ok(())
}

/// The candidates of a choice: the steps of one rank's waitany, else the matches of receives of any
/// source, by receiver, receive and sender. `Err` means that memory for the list was refused, which
/// happens only if it has an entry.
#[tactic(auto, using(crate::proofs::StepKinds::opening))]
fn choices(alloc: Global, core: &Core<'_>) -> Result<Vec<Step>, AllocError>
    ensures ok { IfOk result (λ steps. steps.items ≡ decisions.choices core.now.world) }
    ensures memory { OnErr result (0 < length (decisions.choices core.now.world)) }
{
    let mut steps = Vec::new(alloc);
    push_any_choices(core, &mut steps)?;
    if !steps.is_empty() {
        return Ok(steps);
    }
    core.board().push_open_matches(&mut steps)?;
    Ok(steps)
}

/// What comes next in a state (docs/DEFINITIONS.md, "Decisions"): the forced step, or the
/// candidates of a choice, or how the run has ended. It reads the state, and lists of free calls,
/// and lists no enabled step but those of a choice. `Err` means that memory for that list or the
/// list of an outcome was refused, which happens only if it has an entry.
#[tactic(auto, using(crate::proofs::StepKinds::deciding))]
pub fn decide(alloc: Global, core: &Core<'_>) -> Result<Decision, AllocError>
    ensures ok { IfOk result (λ d. d ≡ decision core.now.world) }
    ensures memory { OnErr result (0 < entries_of (decision core.now.world)) }
{
    if let Some(step) = forced_step(core) {
        return Ok(Decision::Forced(step));
    }
    let steps = choices(alloc, core)?;
    if !steps.is_empty() {
        return Ok(Decision::Choice(StepList { items: steps }));
    }
    let outcome = core.ending(alloc)?;
    Ok(Decision::Leaf(outcome))
}

/// The step of a list of one; none of any other list.
#[tactic(auto, using(crate::proofs::SingleLemmas::sole_none))]
pub fn sole(steps: &[Step]) -> Option<Step>
    ensures { result ≡ singles.sole steps.now }
{
    if steps.len() == 1 {
        return Some(steps[0]);
    }
    None
}

/// The step that comes next if a single candidate counts as no choice: the forced step, or the only
/// candidate of a choice. `Err` means that memory for the candidates was refused, which happens
/// only if no step is forced and there is a candidate.
#[tactic(auto, using(crate::proofs::SingleLemmas::only))]
pub fn only_step(alloc: Global, core: &Core<'_>) -> Result<Option<Step>, AllocError>
    ensures ok { IfOk result (λ step. step ≡ singles.only_step core.now.world) }
    ensures forced { OnErr result (decisions.forced_step core.now.world ≡ None) }
    ensures memory { OnErr result (0 < length (decisions.choices core.now.world)) }
{
    if let Some(step) = forced_step(core) {
        return Ok(Some(step));
    }
    let steps = choices(alloc, core)?;
    Ok(sole(&steps))
}

/// A law: in every world a forced step is enabled, and so are all candidates of a choice, of which
/// there is one at least; and the run has ended exactly if no step is enabled.
#[tactic(auto, using(crate::proofs::Followed::following))]
pub fn decisions_can_be_followed()
    ensures follow { (w : World) → CanFollow w (decision w) }
    ensures leaf { (w : World) → enabled w ≡ [] → decision w ≡ next_is.Leaf (ending w) }
{}
