//! What comes next in a state along the wide walk, which steps conflict there, and the sleep set
//! after a step.

ghost use Rattle.std.specs.Prelude.{◌≡◌, ◌<◌, ◌&&◌, ◌==◌, [], None, length, IfOk, OnOk, OnErr};
ghost use Rattle.std.specs.List.{filter, list_any};
ghost use Rattle.mpd_model.specs.declared.step.Step.TheVariants as steps;
ghost use Rattle.mpd_model.specs.steps.World.{World, kind_at, is_buffered};
ghost use Rattle.mpd_model.specs.steps.Next.{is_enabled, enabled, any_wakes_in, local_at};
ghost use Rattle.mpd_model.specs.runs.Decisions.{first_enabled, CanFollow};
ghost use Rattle.mpd_policy.specs.Entries.{entries_of};
ghost use Rattle.mpd_policy.specs.Wide as wide;

use crate::quiet::{first_quiet, holds_all, is_buffered, issues_standard};
use mpd_core::Core;
use mpd_model::{CallId, Decision, Step, StepList};
use std::alloc::{AllocError, Global};

/// Adds the steps of waitanys that are enabled, by rank and index.
fn push_any_wakes(core: &Core<'_>, steps: &mut Vec<Step>) -> Result<(), AllocError>
    requires { steps.old.items ≡ [] }
    ensures ok { OnOk result (steps.new.items ≡ filter (is_enabled core.now.world) (any_wakes_in core.now.world.board)) }
    ensures memory { OnErr result (0 < length (filter (is_enabled core.now.world) (any_wakes_in core.now.world.board))) }
{
    let count = core.rank_count();
    for rank in 0..count {
        core.push_any_wakes_of(rank, steps)?;
    }
    Ok(())
}

/// The enabled steps, if none of them is quiet. If buffers never run out, only steps of waitanys
/// and matches are left, and no rank is asked for another. `Err` means that memory for the list was
/// refused, which happens only if it has an entry.
fn wide_choices(alloc: Global, core: &Core<'_>) -> Result<Vec<Step>, AllocError>
    requires { first_enabled core.now.world (wide.is_quiet core.now.world) ≡ None }
    ensures ok { IfOk result (λ steps. steps.items ≡ enabled core.now.world) }
    ensures memory { OnErr result (0 < length (enabled core.now.world)) }
{
    if core.board().mode().is_limited() {
        let steps = core.enabled(alloc)?;
        return Ok(steps);
    }
    let mut steps = Vec::new(alloc);
    push_any_wakes(core, &mut steps)?;
    core.board().push_matches(&mut steps)?;
    Ok(steps)
}

/// What comes next in a state along the wide walk (docs/DEFINITIONS.md, "The wide walk"): the first
/// quiet step that is enabled; if there is none, all enabled steps, of which one must be chosen; or
/// how the run has ended. It lists no step but those of a choice. `Err` means that memory for that
/// list or the list of an outcome was refused, which happens only if it has an entry.
#[tactic(auto, using(crate::proofs::WideLemmas::deciding))]
pub fn wide_decide(alloc: Global, core: &Core<'_>) -> Result<Decision, AllocError>
    ensures ok { IfOk result (λ d. d ≡ wide.wide_decision core.now.world) }
    ensures memory { OnErr result (0 < entries_of (wide.wide_decision core.now.world)) }
{
    if let Some(step) = first_quiet(core) {
        return Ok(Decision::Forced(step));
    }
    let steps = wide_choices(alloc, core)?;
    if !steps.is_empty() {
        return Ok(Decision::Choice(StepList { items: steps }));
    }
    let outcome = core.ending(alloc)?;
    Ok(Decision::Leaf(outcome))
}

/// Whether the local step of a rank issues a standard send, and a send is one of that rank's that was buffered as it was issued. It is
/// seldom asked, and stays apart from what is asked of each step that is asleep.
#[inline(never)]
fn waits_for_slot(core: &Core<'_>, rank: usize, send: CallId) -> bool
    ensures { result ≡ (wide.issues_standard (local_at core.now.world rank) && (rank == send.rank && is_buffered (kind_at core.now.world.board send))) }
{
    issues_standard(core, rank) && (rank == send.rank && is_buffered(core.board().kind(send)))
}

/// Whether a rank lacks the slot that a send holds. More is asked only if the rank holds all its
/// slots.
fn gives_slot(core: &Core<'_>, rank: usize, send: CallId) -> bool
    ensures { result ≡ wide.gives_slot core.now.world rank send }
{
    holds_all(core, rank) && waits_for_slot(core, rank, send)
}

/// The rank whose step it is, if it is one rank's.
fn mover(step: Step) -> Option<usize>
    ensures { result ≡ wide.mover step }
{
    match step {
        Step::Local(rank) | Step::Wake(rank) | Step::WakeAny { rank, index: _ } => Some(rank),
        Step::Match(_, _) | Step::Release => None,
    }
}

/// Whether two steps are of one rank. A step of no particular rank counts as of all.
fn of_one_rank(one: Option<usize>, other: Option<usize>) -> bool
    ensures { result ≡ wide.of_one_rank one other }
{
    match (one, other) {
        (Some(p), Some(q)) => p == q,
        _ => true,
    }
}

/// Whether a match conflicts with a step.
#[inline(always)]
fn match_conflicts(core: &Core<'_>, send: CallId, recv: CallId, other: Step) -> bool
    ensures { result ≡ wide.conflict core.now.world (steps.Match send recv) other }
{
    match other {
        Step::Match(sent, taken) => send == sent || recv == taken,
        Step::Local(rank) => gives_slot(core, rank, send),
        Step::Wake(_) | Step::WakeAny { .. } | Step::Release => false,
    }
}

/// Whether two steps conflict: the order in which they are taken may matter, or one may disable the
/// other (docs/DEFINITIONS.md, "The wide walk"). It is inlined into each loop that asks it, which
/// then looks at the kind of the one step once.
#[inline(always)]
pub fn conflict(core: &Core<'_>, a: Step, b: Step) -> bool
    ensures { result ≡ wide.conflict core.now.world a b }
{
    match (a, b) {
        (Step::Match(send, recv), _) => match_conflicts(core, send, recv, b),
        (Step::Local(rank), Step::Match(send, _)) => gives_slot(core, rank, send),
        (_, Step::Match(_, _)) => false,
        (_, _) => of_one_rank(mover(a), mover(b)),
    }
}

/// Whether a step conflicts with one of some others.
fn conflicts_with_any(core: &Core<'_>, step: Step, others: &[Step]) -> bool
    ensures { result ≡ list_any (wide.conflict core.now.world step) others.now }
{
    for other in others {
        if conflict(core, step, *other) {
            return true;
        }
    }
    false
}

/// Keeps those of some steps, in order, that don't conflict with another. Most steps conflict with
/// none, and don't come here.
#[inline(never)]
fn leave_others(core: &Core<'_>, step: Step, others: &mut Vec<Step>)
    ensures { others.new.items ≡ wide.sleeps_on core.now.world step others.old.items }
{
    match step {
        Step::Match(send, recv) => {
            others.retain(|other| !match_conflicts(core, send, recv, *other));
        }
        _ => others.retain(|other| !conflict(core, step, *other)),
    }
}

/// Reduces the sleep set of this state, in order, to the steps that stay asleep after a step that
/// is taken there: all that don't conflict with it. Takes no memory.
pub fn wake(core: &Core<'_>, step: Step, asleep: &mut Vec<Step>)
    ensures { asleep.new.items ≡ wide.sleeps_on core.now.world step asleep.old.items }
{
    if conflicts_with_any(core, step, asleep) {
        leave_others(core, step, asleep);
    }
}

/// A law: in every world a forced step of the wide walk is enabled, and so are all candidates of a choice, of which there is one at
/// least; and a leaf has the outcome.
#[tactic(auto, using(crate::proofs::WideLemmas::wide_followed))]
pub fn wide_decisions_can_be_followed()
    ensures { (w : World) → CanFollow w (wide.wide_decision w) }
{}
