//! The word `blame`: the step that decided how the run ends that is kept (docs/CONSOLE.md, "The step
//! that decides").

ghost use Rattle.std.specs.Prelude.{◌≡◌, ◌+◌, ◌<◌, ◌≤◌, IfOk, IfSome, length};
ghost use Rattle.std.specs.List.{position};
ghost use Rattle.mpd_model.specs.runs.Trail.{step_eq};
ghost use Rattle.mpd_console.specs.Blamed as way;
ghost use Rattle.mpd_console.specs.Blamed.{kept_limit, IsBlamed, IsWhole};

use crate::along::twin_of;
use mpd_blame::{Blame, PlacedBlame, blame_run, place_blame};
use mpd_core::Core;
use mpd_explore::Witnesses;
use mpd_model::{Decision, STEPS_MAX, Step};
use mpd_outcomes::StateLimits;
use mpd_policy::decide;
use mpd_runs::{FUEL, STATES_KEPT, STATES_VISITED};
use mpd_session::Session;
use mpd_trail::Debugger;
use std::alloc::{AllocError, Global};

/// Where it was decided how the kept run ends.
#[derive(Clone, Copy)]
pub(crate) struct Decider {
    pub(crate) blame: PlacedBlame,
    /// The number from 1 with which `next` takes the other step there, if it has one.
    pub(crate) number: Option<usize>,
}

/// How many steps a run has at most, from the start, if `kept` are kept.
fn limit_of(kept: usize) -> usize
    requires { kept ≤ STEPS_MAX }
    ensures value { result ≡ kept_limit kept }
    ensures within { kept ≤ result }
    ensures few { result ≤ STEPS_MAX }
{
    if STEPS_MAX - kept < FUEL {
        STEPS_MAX
    } else {
        kept + FUEL
    }
}

/// A debugger of its own, which has taken all steps that are kept.
fn whole_copy<'c>(alloc: Global, debugger: &Debugger<'c>) -> Result<Debugger<'c>, AllocError>
    ensures { IfOk result (λ d. IsWhole debugger.now.trail d.trail) }
{
    debugger.state_is_reached();
    let ahead = debugger.steps().len() - debugger.depth();
    let mut copy = twin_of(alloc, debugger)?;
    for _taken in 0..ahead {
        let Ok(()) = copy.redo() else {
            return Err(AllocError);
        };
    }
    Ok(copy)
}

/// Whether two steps are one.
fn is_same(one: Step, other: Step) -> bool
    ensures { result ≡ step_eq one other }
{
    one == other
}

/// The place of a step in a list, from 0, if it is there.
fn place_in(step: Step, steps: &[Step]) -> Option<usize>
    ensures place { result ≡ position (λ b. step_eq b step) steps.now }
    ensures small { IfSome result (λ place. place < length steps.now) }
{
    steps.iter().position(|other| is_same(*other, step))
}

/// Its place among candidates, if these are two or more.
fn place_among(step: Step, candidates: &[Step]) -> Option<usize>
    ensures place { result ≡ way.place_among step candidates.now }
    ensures small { IfSome result (λ place. place < length candidates.now) }
{
    if 1 < candidates.len() {
        return place_in(step, candidates);
    }
    None
}

/// Its number among these, from 1.
fn number_among(step: Step, candidates: &[Step]) -> Option<usize>
    ensures { result ≡ way.number_at (way.place_among step candidates.now) }
{
    let place = place_among(step, candidates)?;
    Some(place + 1)
}

/// The number with which `next` takes a step, by what comes next.
fn number_by(step: Step, decided: &Decision) -> Option<usize>
    ensures { result ≡ way.number_by step decided.now }
{
    match decided {
        Decision::Choice(candidates) => number_among(step, &candidates.items),
        Decision::Forced(_) | Decision::Leaf(_) => None,
    }
}

/// The number with which `next` takes the step that ends well, if it is known which, in the state
/// before it.
fn number_for(alloc: Global, core: &Core<'_>, blame: Blame) -> Result<Option<usize>, AllocError>
    ensures { IfOk result (λ number. number ≡ way.number_for core.now.world blame) }
{
    let Blame::At(decided) = blame else {
        return Ok(None);
    };
    let next = decide(alloc, core)?;
    Ok(number_by(decided.other, &next))
}

/// Where it was decided how the run of a debugger ends. The debugger is left on the way back along
/// its run.
fn decider_of(alloc: Global, whole: &mut Debugger<'_>) -> Result<Decider, AllocError>
    requires clean { length whole.old.trail.steps ≡ whole.old.trail.depth }
    ensures { IfOk result (λ b. IsBlamed whole.old.trail b.blame b.number) }
{
    whole.state_is_reached();
    let limits = StateLimits {
        fuel: limit_of(whole.depth()),
        kept: STATES_KEPT,
        visited: STATES_VISITED,
        witnesses: Witnesses::OfNone,
        until: None,
    };
    let blame = blame_run(alloc, whole, limits)?;
    let number = number_for(alloc, whole.core(), blame)?;
    Ok(Decider {
        blame: place_blame(whole.core(), blame),
        number,
    })
}

/// The same of the run that a session keeps.
pub(crate) fn decider_in(alloc: Global, session: &Session<'_>) -> Result<Decider, AllocError>
    ensures { IfOk result (λ b. IsBlamed session.now.trail b.blame b.number) }
{
    let mut whole = whole_copy(alloc, session.debugger())?;
    let found = decider_of(alloc, &mut whole);
    drop(whole);
    found
}
