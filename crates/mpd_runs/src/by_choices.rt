//! The steps of the run that some choices tell along a schedule.

ghost use Rattle.std.specs.Prelude.{◌≡◌, ◌+◌, ◌≤◌, ℕ, IfOk, Err, length, drop};
ghost use Rattle.mpd_model.specs.runs.Trail.{done_steps};
ghost use Rattle.mpd_trail.specs.DebuggerViews.{AsFound, standing_of};
ghost use Rattle.mpd_runs.specs.Led.{Led};
ghost use Rattle.mpd_policy.specs.Walks.{Beyond};
ghost use Rattle.mpd_runs.specs.Along.{Ends, GoesOn};

use crate::fault::WordsFault;
use mpd_model::{STEPS_MAX, StepList};
use mpd_policy::{ByChoices, Schedule, put_back, walk};
use mpd_trail::Debugger;
use std::alloc::Global;

/// If the run is over, no choice may be left.
fn end(left: &[usize], place: usize) -> Result<(), WordsFault>
    ensures { Ends place left.now result }
{
    if left.is_empty() {
        return Ok(());
    }
    Err(WordsFault::BadChoices(place))
}

/// Goes along choices to the end of their run, or of the fuel.
fn follow<S: Schedule>(
    alloc: Global,
    schedule: &S,
    debugger: &mut Debugger<'_>,
    limit: usize,
    choices: &[usize],
) -> Result<(), WordsFault>
    requires within { debugger.old.trail.depth ≤ limit }
    requires few { limit ≤ STEPS_MAX }
    ensures on { GoesOn S.decides limit choices.now (standing_of debugger.old) result (standing_of debugger.new) }
    ensures beyond { Beyond (standing_of debugger.old) (standing_of debugger.new) }
{
    let mut chooser = ByChoices { left: choices };
    let Ok(stop) = walk(alloc, schedule, debugger, limit, &mut chooser) else {
        return Err(WordsFault::Memory);
    };
    let place = choices.len() - chooser.left.len();
    if stop.is_untaken() {
        return Err(WordsFault::BadChoices(place));
    }
    end(chooser.left, place)
}

/// The steps after the first `base`.
fn steps_behind(alloc: Global, debugger: &Debugger<'_>, base: usize) -> Result<StepList, WordsFault>
    requires { base ≤ debugger.now.trail.depth }
    ensures steps { IfOk result (λ steps. steps ≡ drop base (done_steps debugger.now.trail)) }
    ensures memory { (place : ℕ) → result ≡ Err (WordsFault.BadChoices place) → ⊥ }
{
    debugger.state_is_reached();
    let depth = debugger.depth();
    let (steps, _) = debugger.steps().split_at(depth);
    let (_, behind) = steps.split_at(base);
    match Vec::from_slice(alloc, behind) {
        Ok(items) => Ok(StepList { items }),
        Err(_) => Err(WordsFault::Memory),
    }
}

/// The steps of the run that makes these choices. On return the debugger may be at any later state.
#[tactic(auto, using(crate::proofs::AlongLemmas::leading))]
fn steps_from<S: Schedule>(
    alloc: Global,
    schedule: &S,
    debugger: &mut Debugger<'_>,
    choices: &[usize],
    fuel: usize,
) -> Result<StepList, WordsFault>
    requires fits { debugger.old.trail.depth + fuel ≤ STEPS_MAX }
    ensures led { Led S.decides fuel choices.now debugger.old.world result }
    ensures beyond { Beyond (standing_of debugger.old) (standing_of debugger.new) }
{
    debugger.state_is_reached();
    let base = debugger.depth();
    follow(alloc, schedule, debugger, base + fuel, choices)?;
    steps_behind(alloc, debugger, base)
}

/// The steps of the run that makes exactly these choices along a schedule, from the debugger's
/// state to the end of the run or of its fuel, which counts from here. `BadChoices` means that
/// there is no such run: it has the index, from 0, of the first choice that can't be made, since
/// there are fewer candidates, or the run or its fuel ends before it; or the number of choices, if
/// the run needs more. `Memory` means that memory was refused. The debugger is left as found in
/// every case. Requires that no step is undone, and that depth and fuel together are at most
/// 1,000,000 steps.
pub fn steps_by_choices<S: Schedule>(
    alloc: Global,
    schedule: &S,
    debugger: &mut Debugger<'_>,
    choices: &[usize],
    fuel: usize,
) -> Result<StepList, WordsFault>
    requires clean { length debugger.old.trail.steps ≡ debugger.old.trail.depth }
    requires fits { debugger.old.trail.depth + fuel ≤ STEPS_MAX }
    ensures led { Led S.decides fuel choices.now debugger.old.world result }
    ensures as_found { AsFound (standing_of debugger.old) (standing_of debugger.new) }
{
    debugger.state_is_reached();
    let base = debugger.depth();
    let found = steps_from(alloc, schedule, debugger, choices, fuel);
    put_back(debugger, base);
    found
}
