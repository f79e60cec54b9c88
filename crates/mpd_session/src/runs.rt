//! Commands that run by themselves, and the runs from here.

ghost use Rattle.std.specs.Prelude.{◌≡◌, ◌+◌, ◌≤◌, IfOk, OnOk, OnErr, length, map, take, nat_lt};
ghost use Rattle.mpd_model.specs.runs.Trail.{IsReached};
ghost use Rattle.mpd_trail.specs.DebuggerViews.{standing_of};
ghost use Rattle.mpd_policy.specs.Walk.{walk};
ghost use Rattle.mpd_explore.specs.Report.{shown};
ghost use Rattle.mpd_session.specs.Effects.{run_effect, run_on_effect, run_back_effect};

use crate::effect::{Effect, is_within};
use crate::reply::{Answer, Refusal};
use mpd_explore::{SearchLimits, SearchReport, Unwatched, Witnesses, explore_watched};
use mpd_model::STEPS_MAX;
use mpd_policy::{Breaks, runs as policy};
use mpd_trail::Debugger;
use std::alloc::{AllocError, Global};

/// Runs along decisions. `Err` means that memory was refused; then nothing has changed.
#[tactic(auto, using(crate::proofs::RunLemmas::running))]
pub fn run(
    alloc: Global,
    debugger: &mut Debugger<'_>,
    breaks: &Breaks,
    max: usize,
) -> Result<Effect, AllocError>
    ensures effect { IfOk result (λ effect. effect ≡ (run_effect debugger.old.trail breaks.now debugger.old.world max).0) }
    ensures trail { OnOk result (debugger.new.trail ≡ (run_effect debugger.old.trail breaks.now debugger.old.world max).1) }
    ensures err { OnErr result (debugger.new.trail ≡ debugger.old.trail) }
{
    if !is_within(1, STEPS_MAX, max) {
        return Ok(Effect::Refused(Refusal::BadNumber));
    }
    let stop = policy::run(alloc, debugger, breaks, max)?;
    Ok(Effect::Changed(Answer::Ran {
        depth: debugger.depth(),
        stop,
    }))
}

/// Runs along decisions, a single candidate taken as if it were forced. `Err` means that memory was
/// refused; then nothing has changed.
#[tactic(auto, using(crate::proofs::RunLemmas::running))]
pub fn run_on(
    alloc: Global,
    debugger: &mut Debugger<'_>,
    breaks: &Breaks,
    max: usize,
) -> Result<Effect, AllocError>
    ensures effect { IfOk result (λ effect. effect ≡ (run_on_effect debugger.old.trail breaks.now debugger.old.world max).0) }
    ensures trail { OnOk result (debugger.new.trail ≡ (run_on_effect debugger.old.trail breaks.now debugger.old.world max).1) }
    ensures err { OnErr result (debugger.new.trail ≡ debugger.old.trail) }
{
    if !is_within(1, STEPS_MAX, max) {
        return Ok(Effect::Refused(Refusal::BadNumber));
    }
    let stop = policy::run_on(alloc, debugger, breaks, max)?;
    Ok(Effect::Changed(Answer::Ran {
        depth: debugger.depth(),
        stop,
    }))
}

/// Runs back. It takes no memory.
#[tactic(auto, using(crate::proofs::RunLemmas::running))]
pub fn run_back(debugger: &mut Debugger<'_>, breaks: &Breaks) -> Effect
    ensures effect { result ≡ (run_back_effect debugger.old.trail breaks.now).0 }
    ensures trail { debugger.new.trail ≡ (run_back_effect debugger.old.trail breaks.now).1 }
{
    let stop = policy::run_back(debugger, breaks);
    Effect::Changed(Answer::Ran {
        depth: debugger.depth(),
        stop,
    })
}

/// The first leaves of the runs from here. If steps are undone, a copy goes along them, so that
/// these are kept. `Err` means that memory was refused; nothing changes in any case.
#[tactic(auto, using(crate::proofs::RunLemmas::copying))]
pub fn report(
    alloc: Global,
    debugger: &mut Debugger<'_>,
    runs: usize,
    fuel: usize,
) -> Result<SearchReport, AllocError>
    requires { debugger.old.trail.depth + fuel ≤ STEPS_MAX }
    ensures leaves { IfOk result (λ r. r.leaves.items ≡ take runs (map shown (walk fuel debugger.old.world))) }
    ensures more { IfOk result (λ r. r.more ≡ nat_lt runs (length (map shown (walk fuel debugger.old.world)))) }
    ensures trail { debugger.new.trail ≡ debugger.old.trail }
{
    debugger.state_is_reached();
    let limits = SearchLimits {
        runs,
        fuel,
        witnesses: Witnesses::OfNone,
        until_bad: false,
        ends: false,
    };
    if debugger.steps().len() == debugger.depth() {
        return explore_watched(alloc, debugger, limits, &mut Unwatched);
    }
    let mut copy = debugger.copy()?;
    explore_watched(alloc, &mut copy, limits, &mut Unwatched)
}
