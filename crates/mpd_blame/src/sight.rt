//! What is known of the runs from a state: whether one of them ends well, or none.

ghost use Rattle.std.specs.Prelude.{◌≡◌, ◌-◌, ◌+◌, ◌≤◌, ◌<◌, [], true, IfOk, OnErr, IsSome, Some, length, slice_get};
ghost use Rattle.std.specs.List.{AllByRecursion, find, list_all};
ghost use Rattle.std.specs.Option.{option_map};
ghost use Rattle.mpd_model.specs.runs.Trail.{done_steps};
ghost use Rattle.mpd_trail.specs.DebuggerViews.{AsFound, standing_of};
ghost use Rattle.mpd_policy.specs.Wide.{wide_decision};
ghost use Rattle.mpd_policy.specs.Walk.{run_by, steps_by};
ghost use Rattle.mpd_policy.specs.Walks.{Beyond};
ghost use Rattle.mpd_explore.specs.Witness.{HasWitness};
ghost use Rattle.mpd_outcomes.specs.declared.report.Goal.TheVariants as goal_is;
ghost use Rattle.mpd_outcomes.specs.Outcomes.{leaves_from};
ghost use Rattle.mpd_outcomes.specs.Goals.{states_along, StopsFor, StopsRuns};
ghost use Rattle.mpd_blame.specs.declared.sight.Sight.TheVariants as sight_is;
ghost use Rattle.mpd_blame.specs.Blame.{ends_well, ends_badly, Sees};

use mpd_explore::{SearchLeaf, Witnesses};
use mpd_model::{STEPS_MAX, Step};
use mpd_outcomes::{Goal, Outcomes, StateLimits, explore_outcomes};
use mpd_policy::{Wide, follow, put_back};
use mpd_trail::Debugger;
use std::alloc::{AllocError, Global};

/// What is known of the runs from a state.
#[derive(Clone, Copy)]
pub(crate) enum Sight {
    /// Some run ends well. The first of those has this first step; none if it ends where it begins.
    Well(Option<Step>),
    /// Every run ends in a deadlock or with a trap.
    Doomed,
    /// None was found that ends well, but some were not visited or are cut.
    Unknown,
}

/// The result of looking at the runs from a state.
#[derive(Clone, Copy)]
pub(crate) struct Looked {
    pub(crate) sight: Sight,
    /// How many states were visited.
    pub(crate) visited: usize,
}

/// The first leaf that ends well.
fn first_well(leaves: &[SearchLeaf]) -> Option<&SearchLeaf>
    ensures { option_map (λ l. l.now) result ≡ find ends_well leaves.now }
{
    for leaf in leaves {
        if Goal::Well.is_met(&leaf.ending) {
            return Some(leaf);
        }
    }
    None
}

/// Whether all leaves are deadlocks and traps.
fn all_badly(leaves: &[SearchLeaf]) -> bool
    ensures { result ≡ list_all ends_badly leaves.now }
{
    for leaf in leaves {
        if !Goal::Bad.is_met(&leaf.ending) {
            return false;
        }
    }
    true
}

/// The first step of the run that a leaf's choices tell, if it has one. On return the debugger may
/// be at any later state.
fn first_step_there(
    alloc: Global,
    debugger: &mut Debugger<'_>,
    fuel: usize,
    leaf: &SearchLeaf,
) -> Result<Option<Step>, AllocError>
    requires fits { debugger.old.trail.depth + fuel ≤ STEPS_MAX }
    requires some { IsSome (run_by wide_decision fuel leaf.now.choices debugger.old.world) }
    ensures step { IfOk result (λ o. o ≡ slice_get (steps_by (run_by wide_decision fuel leaf.now.choices debugger.old.world)) 0) }
    ensures beyond { Beyond (standing_of debugger.old) (standing_of debugger.new) }
{
    debugger.state_is_reached();
    let base = debugger.depth();
    follow(alloc, &Wide, debugger, fuel, &leaf.choices.items)?;
    let depth = debugger.depth();
    let (steps, _) = debugger.steps().split_at(depth);
    Ok(steps.get(base).copied())
}

/// The same, and the debugger is left as found.
fn first_step(
    alloc: Global,
    debugger: &mut Debugger<'_>,
    fuel: usize,
    leaf: &SearchLeaf,
) -> Result<Option<Step>, AllocError>
    requires clean { length debugger.old.trail.steps ≡ debugger.old.trail.depth }
    requires fits { debugger.old.trail.depth + fuel ≤ STEPS_MAX }
    requires some { IsSome (run_by wide_decision fuel leaf.now.choices debugger.old.world) }
    ensures step { IfOk result (λ o. o ≡ slice_get (steps_by (run_by wide_decision fuel leaf.now.choices debugger.old.world)) 0) }
    ensures as_found { AsFound (standing_of debugger.old) (standing_of debugger.new) }
{
    debugger.state_is_reached();
    let base = debugger.depth();
    let step = first_step_there(alloc, debugger, fuel, leaf);
    put_back(debugger, base);
    step
}

/// What the ways tell that the runs from here end. `Err` means that memory was refused, which
/// happens only if a way is told.
fn sight_of(
    alloc: Global,
    debugger: &mut Debugger<'_>,
    limits: StateLimits,
    outcomes: &Outcomes,
) -> Result<Sight, AllocError>
    requires clean { length debugger.old.trail.steps ≡ debugger.old.trail.depth }
    requires fits { debugger.old.trail.depth + limits.fuel ≤ STEPS_MAX }
    requires until { limits.until ≡ Some goal_is.Well }
    requires told { StopsRuns limits.until limits.fuel debugger.old.world outcomes.now }
    requires limit { StopsFor limits outcomes.now.firsts.more outcomes.now.visited outcomes.now.firsts.leaves.items }
    requires witnesses { AllByRecursion (HasWitness wide_decision debugger.old.trail.program debugger.old.trail.mode (done_steps debugger.old.trail) limits.fuel debugger.old.world) outcomes.now.firsts.leaves.items }
    ensures sees { IfOk result (λ s. Sees limits.visited limits.fuel debugger.old.world s) }
    ensures none { IfOk result (λ s. outcomes.now.firsts.leaves.items ≡ [] → outcomes.now.firsts.more ≡ true → s ≡ sight_is.Unknown) }
    ensures memory { OnErr result (0 < length outcomes.now.firsts.leaves.items) }
    ensures as_found { AsFound (standing_of debugger.old) (standing_of debugger.new) }
{
    debugger.state_is_reached();
    if let Some(leaf) = first_well(&outcomes.firsts.leaves) {
        let step = first_step(alloc, debugger, limits.fuel, leaf)?;
        return Ok(Sight::Well(step));
    }
    if outcomes.firsts.more || !all_badly(&outcomes.firsts.leaves) {
        return Ok(Sight::Unknown);
    }
    Ok(Sight::Doomed)
}

/// How the runs from a depth are looked at: up to the first that ends well.
fn limits_at(limits: StateLimits, depth: usize) -> StateLimits
    requires { depth ≤ limits.fuel }
    ensures { result ≡ record { fuel = limits.fuel - depth; kept = limits.kept; visited = limits.visited; witnesses = Witnesses.OfNone; until = Some goal_is.Well } }
{
    StateLimits {
        fuel: limits.fuel - depth,
        kept: limits.kept,
        visited: limits.visited,
        witnesses: Witnesses::OfNone,
        until: Some(Goal::Well),
    }
}

/// Looks at the runs from here, which end within `fuel` steps from the start of the script. The
/// debugger is left as found. `Err` means that memory was refused, which happens only if a state
/// may be visited; else nothing is known.
pub(crate) fn look(
    alloc: Global,
    debugger: &mut Debugger<'_>,
    limits: StateLimits,
) -> Result<Looked, AllocError>
    requires clean { length debugger.old.trail.steps ≡ debugger.old.trail.depth }
    requires within { debugger.old.trail.depth ≤ limits.fuel }
    requires few { limits.fuel ≤ STEPS_MAX }
    ensures sees { IfOk result (λ l. Sees limits.visited (limits.fuel - debugger.old.trail.depth) debugger.old.world l.sight) }
    ensures few { IfOk result (λ l. l.visited ≤ states_along (leaves_from (limits.fuel - debugger.old.trail.depth) debugger.old.world)) }
    ensures some { IfOk result (λ l. 0 < limits.visited → 0 < l.visited) }
    ensures none { IfOk result (λ l. limits.visited ≡ 0 → l.sight ≡ sight_is.Unknown) }
    ensures memory { OnErr result (0 < limits.visited) }
    ensures as_found { AsFound (standing_of debugger.old) (standing_of debugger.new) }
{
    debugger.state_is_reached();
    let asked = limits_at(limits, debugger.depth());
    let outcomes = explore_outcomes(alloc, debugger, asked)?;
    let visited = outcomes.visited;
    let sight = sight_of(alloc, debugger, asked, &outcomes);
    drop(outcomes);
    match sight {
        Ok(sight) => Ok(Looked { sight, visited }),
        Err(fault) => Err(fault),
    }
}
