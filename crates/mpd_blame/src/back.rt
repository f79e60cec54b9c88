//! The last step of a run before which some run still ends well, found by going back along the run.

ghost use Rattle.std.specs.Prelude.{◌≡◌, ◌↔◌, ◌+◌, ◌-◌, ◌<◌, ◌≤◌, true, IfOk, OnOk, OnErr, Some, None, length, slice_get};
ghost use Rattle.mpd_model.specs.steps.World.{start};
ghost use Rattle.mpd_model.specs.steps.Next.{next};
ghost use Rattle.mpd_model.specs.runs.Trail.{forgotten, gone_back, step_eq, IsReached};
ghost use Rattle.mpd_trail.specs.DebuggerViews.{standing_of};
ghost use Rattle.mpd_policy.specs.Wide.{wide_decision};
ghost use Rattle.mpd_outcomes.specs.Goals.{states_along};
ghost use Rattle.mpd_outcomes.specs.Outcomes.{leaves_from};
ghost use Rattle.mpd_blame.specs.declared.sight.Sight.TheVariants as sight_is;
ghost use Rattle.mpd_blame.specs.Blame.{is_doomed, tells, IsBack, IsBlame, IsOnly, IsThere, Spends, Turned};

use crate::sight::{Looked, Sight, look};
use mpd_meaning::steps::{every_step_that_leads_on_is_listed, reached_worlds_have_calls};
use mpd_model::{Decision, STEPS_MAX, Step};
use mpd_outcomes::StateLimits;
use mpd_policy::{put_back, wide_decide, wide_decisions_can_be_followed};
use mpd_trail::Debugger;
use std::alloc::{AllocError, Global};

/// The step that decided how a run ends.
#[derive(Clone, Copy)]
pub struct Decided {
    /// How many steps of the run come before it.
    pub depth: usize,
    /// The step.
    pub taken: Step,
    /// The first step of the first run that ends well from there.
    pub other: Step,
}

/// Where it was decided how a run ends. A run ends well if it ends done, also with messages left
/// over; it ends badly if it ends in a deadlock or with a trap.
#[derive(Clone, Copy)]
pub enum Blame {
    /// By this step: before it some run ends well, and from there on every run ends badly.
    At(Decided),
    /// From the start of the script on every run ends badly.
    FromStart,
    /// After more than this many steps every run ends badly. Of the runs after this many steps none
    /// was found that ends well, but some were not visited or are cut.
    OrEarlier(usize),
    /// From the end of the run some run still ends well.
    Open,
    /// Of the runs from the end of the run none was found that ends well, but some were not visited
    /// or are cut.
    Unknown,
}

/// Whether two steps are the same.
fn is_same(one: Step, other: Step) -> bool
    ensures { result ≡ step_eq one other }
{
    one == other
}

/// Whether this step is all that can come next along the wide walk.
fn is_only(alloc: Global, debugger: &Debugger<'_>, step: Step) -> Result<bool, AllocError>
    ensures { IfOk result (λ b. b ≡ true ↔ IsOnly (wide_decision debugger.now.world) step) }
{
    match wide_decide(alloc, debugger.core())? {
        Decision::Leaf(outcome) => {
            drop(outcome);
            Ok(false)
        }
        Decision::Forced(forced) => Ok(is_same(forced, step)),
        Decision::Choice(candidates) => {
            let is_one = candidates.items.len() == 1 && is_same(candidates.items[0], step);
            drop(candidates);
            Ok(is_one)
        }
    }
}

/// The last step that was taken.
fn last_step(debugger: &Debugger<'_>) -> Step
    requires clean { length debugger.now.trail.steps ≡ debugger.now.trail.depth }
    requires some { 0 < debugger.now.trail.depth }
    ensures { slice_get debugger.now.trail.steps (debugger.now.trail.depth - 1) ≡ Some result }
{
    let last = debugger.depth() - 1;
    debugger.steps()[last]
}

/// Takes the last step back, and returns it.
fn step_back(debugger: &mut Debugger<'_>) -> Step
    requires clean { length debugger.old.trail.steps ≡ debugger.old.trail.depth }
    requires some { 0 < debugger.old.trail.depth }
    ensures step { slice_get debugger.old.trail.steps (debugger.old.trail.depth - 1) ≡ Some result }
    ensures leads { next debugger.new.world result ≡ Some debugger.old.world }
    ensures trail { debugger.new.trail ≡ forgotten (gone_back debugger.old.trail (debugger.old.trail.depth - 1)) }
    ensures reached { IsReached (standing_of debugger.new) }
{
    debugger.state_is_reached();
    let step = last_step(debugger);
    let last = debugger.depth() - 1;
    put_back(debugger, last);
    step
}

/// What is known of a step that was taken after `depth` others: nothing if every run from there
/// ends badly.
fn told(depth: usize, taken: Step, sight: Sight) -> Option<Blame>
    requires { sight ≡ sight_is.Well None → ⊥ }
    ensures { result ≡ tells depth taken sight }
{
    match sight {
        Sight::Doomed => None,
        Sight::Unknown => Some(Blame::OrEarlier(depth)),
        Sight::Well(other) => {
            let Some(other) = other else { unreachable!() };
            Some(Blame::At(Decided {
                depth,
                taken,
                other,
            }))
        }
    }
}

/// The limits of a search after `visited` states.
fn limits_after(limits: StateLimits, visited: usize) -> StateLimits
    ensures { result ≡ record limits { visited = limits.visited - visited } }
{
    StateLimits {
        visited: limits.visited.saturating_sub(visited),
        ..limits
    }
}

/// Takes a step back, and returns what is known then: nothing if every run from there ends badly,
/// too. The states that are visited are counted off the limits.
fn turn(
    alloc: Global,
    debugger: &mut Debugger<'_>,
    limits: &mut StateLimits,
) -> Result<Option<Blame>, AllocError>
    requires clean { length debugger.old.trail.steps ≡ debugger.old.trail.depth }
    requires some { 0 < debugger.old.trail.depth }
    requires within { debugger.old.trail.depth ≤ limits.old.fuel }
    requires few { limits.old.fuel ≤ STEPS_MAX }
    requires doomed { is_doomed (limits.old.fuel - debugger.old.trail.depth) debugger.old.world ≡ true }
    ensures turned { IfOk result (λ o. Turned limits.old.visited limits.old.fuel (standing_of debugger.old) o (standing_of debugger.new)) }
    ensures spent { OnOk result (limits.old.visited ≤ limits.new.visited + states_along (leaves_from (limits.old.fuel - debugger.new.trail.depth) debugger.new.world)) }
    ensures budget { IfOk result (λ o. Spends limits.old (limits.old.fuel - debugger.new.trail.depth) debugger.new.world (slice_get debugger.old.trail.steps debugger.new.trail.depth) limits.new) }
    ensures fuel { limits.new.fuel ≡ limits.old.fuel }
    ensures trail { debugger.new.trail ≡ forgotten (gone_back debugger.old.trail (debugger.old.trail.depth - 1)) }
    ensures reached { IsReached (standing_of debugger.new) }
{
    debugger.state_is_reached();
    let taken = step_back(debugger);
    wide_decisions_can_be_followed();
    reached_worlds_have_calls();
    every_step_that_leads_on_is_listed();
    if is_only(alloc, debugger, taken)? {
        return Ok(None);
    }
    let Looked { sight, visited } = look(alloc, debugger, *limits)?;
    *limits = limits_after(*limits, visited);
    Ok(told(debugger.depth(), taken, sight))
}

/// The same, step after step, from the end of a run from which every run ends badly, as was found
/// by visiting `visited` states.
fn turns(
    alloc: Global,
    debugger: &mut Debugger<'_>,
    limits: StateLimits,
    visited: usize,
) -> Result<Blame, AllocError>
    requires clean { length debugger.old.trail.steps ≡ debugger.old.trail.depth }
    requires within { debugger.old.trail.depth ≤ limits.fuel }
    requires few { limits.fuel ≤ STEPS_MAX }
    requires doomed { is_doomed (limits.fuel - debugger.old.trail.depth) debugger.old.world ≡ true }
    requires come { visited ≤ states_along (leaves_from (limits.fuel - debugger.old.trail.depth) debugger.old.world) }
    ensures blame { IfOk result (λ b. IsBlame limits.visited limits.fuel (start debugger.old.trail.program debugger.old.trail.mode) debugger.old.trail.steps b) }
    ensures there { IfOk result (λ b. IsThere (start debugger.old.trail.program debugger.old.trail.mode) debugger.old.trail.steps b debugger.new.world) }
    ensures back { IsBack (standing_of debugger.old) (standing_of debugger.new) }
{
    debugger.state_is_reached();
    let mut limits = limits_after(limits, visited);
    let depth = debugger.depth();
    for _undone in 0..depth {
        if let Some(blame) = turn(alloc, debugger, &mut limits)? {
            return Ok(blame);
        }
    }
    Ok(Blame::FromStart)
}

/// The step that decided how the run ends that a debugger has taken from the start of its script.
/// Each run that is looked at has at most `fuel` steps, counted from the start of the script. At
/// most `visited` states are visited, from all states of the run together. `Err` means that memory
/// was refused, which happens only if a state may be visited. On return the debugger is on the way
/// back along its run: in the state before the deciding step, if one is found.
pub fn blame_run(
    alloc: Global,
    debugger: &mut Debugger<'_>,
    limits: StateLimits,
) -> Result<Blame, AllocError>
    requires clean { length debugger.old.trail.steps ≡ debugger.old.trail.depth }
    requires within { debugger.old.trail.depth ≤ limits.fuel }
    requires few { limits.fuel ≤ STEPS_MAX }
    ensures blame { IfOk result (λ b. IsBlame limits.visited limits.fuel (start debugger.old.trail.program debugger.old.trail.mode) debugger.old.trail.steps b) }
    ensures there { IfOk result (λ b. IsThere (start debugger.old.trail.program debugger.old.trail.mode) debugger.old.trail.steps b debugger.new.world) }
    ensures back { IsBack (standing_of debugger.old) (standing_of debugger.new) }
    ensures memory { OnErr result (0 < limits.visited) }
{
    debugger.state_is_reached();
    let Looked { sight, visited } = look(alloc, debugger, limits)?;
    match sight {
        Sight::Well(_) => Ok(Blame::Open),
        Sight::Unknown => Ok(Blame::Unknown),
        Sight::Doomed => turns(alloc, debugger, limits, visited),
    }
}
