//! The first run that ends in one way, found by visiting each state once.

ghost use Rattle.std.specs.Prelude.{◌≡◌, ◌≤◌, ◌+◌, IfOk, IfSome, length};
ghost use Rattle.mpd_model.specs.runs.Trail.{done_steps};
ghost use Rattle.mpd_trail.specs.DebuggerViews.{AsFound, standing_of};
ghost use Rattle.mpd_runs.specs.Seek as spec;
ghost use Rattle.mpd_runs.specs.Seek.{LiesAhead, StatesTell};

use crate::counts::{WayCounts, counts_told};
use crate::search::{WholeRun, found_in};
use crate::way::Way;
use mpd_explore::Witnesses;
use mpd_model::STEPS_MAX;
use mpd_outcomes::{Goal, StateLimits, explore_outcomes};
use mpd_trail::Debugger;
use std::alloc::{AllocError, Global};

/// How many states are kept at most.
pub const STATES_KEPT: usize = 1_000_000;

/// How many states are visited at most, kept or not.
pub const STATES_VISITED: usize = 1_000_000;

/// What came of visiting each state once.
#[derive(Drop)]
pub(crate) struct ByStates {
    /// The first run that ends in the way that was looked for.
    pub(crate) found: Option<WholeRun>,
    /// How the runs end that were visited.
    pub(crate) counts: WayCounts,
    /// How many states were visited.
    pub(crate) states: usize,
}

/// The end that the search stops for.
fn goal_of(way: Way) -> Option<Goal>
    ensures { result ≡ spec.goal_of way }
{
    match way {
        Way::Deadlock => Some(Goal::Deadlock),
        Way::Trap => Some(Goal::Trap),
        _ => None,
    }
}

/// Looks for the first run that ends in a way, and visits each state once.
#[tactic(auto, using(crate::proofs::StateLemmas::telling))]
pub(crate) fn by_states(
    alloc: Global,
    copy: &mut Debugger<'_>,
    fuel: usize,
    way: Way,
) -> Result<ByStates, AllocError>
    requires clean { length copy.old.trail.steps ≡ copy.old.trail.depth }
    requires fits { copy.old.trail.depth + fuel ≤ STEPS_MAX }
    ensures told { IfOk result (StatesTell way (done_steps copy.old.trail) fuel copy.old.world) }
    ensures lies { IfOk result (λ b. IfSome b.found (LiesAhead copy.old.trail)) }
    ensures as_found { AsFound (standing_of copy.old) (standing_of copy.new) }
{
    let limits = StateLimits {
        fuel,
        kept: STATES_KEPT,
        visited: STATES_VISITED,
        witnesses: Witnesses::OfNone,
        until: goal_of(way),
    };
    let outcomes = explore_outcomes(alloc, copy, limits)?;
    let counts = counts_told(&outcomes);
    let states = outcomes.visited;
    let found = found_in(alloc, copy, fuel, &outcomes.firsts.leaves, way);
    drop(outcomes);
    match found {
        Ok(found) => Ok(ByStates {
            found,
            counts,
            states,
        }),
        Err(fault) => Err(fault),
    }
}
