//! Steps that are given.

ghost use Rattle.std.specs.Prelude.{◌≡◌, ◌++◌, ◌∷◌, [], ℕ, Some, None, OnOk, IsErrOf};
ghost use Rattle.mpd_model.specs.steps.Next.{fold, next};
ghost use Rattle.mpd_model.specs.runs.Trail.{done_steps};
ghost use Rattle.mpd_runs.specs.Given.{StopsAt};

use mpd_model::Step;
use mpd_trail::{ApplyFault, Debugger};

/// Why steps aren't taken.
#[derive(Clone, Copy)]
pub enum StepsFault {
    /// The step at this place, from 0, isn't enabled.
    NotEnabled(usize),
    /// There are more than 1,000,000 with those taken before.
    Full,
    /// Memory was refused.
    Memory,
}

/// Takes the step at a place.
fn take_at(debugger: &mut Debugger<'_>, place: usize, step: Step) -> Result<(), StepsFault>
    ensures leads { OnOk result (next debugger.old.world step ≡ Some debugger.new.world) }
    ensures steps { OnOk result (done_steps debugger.new.trail ≡ done_steps debugger.old.trail ++ step ∷ []) }
    ensures at { (other : ℕ) → IsErrOf result (StepsFault.NotEnabled other) → other ≡ place }
    ensures not_enabled { (other : ℕ) → IsErrOf result (StepsFault.NotEnabled other) → next debugger.old.world step ≡ None }
{
    match debugger.apply(step) {
        Ok(()) => Ok(()),
        Err(ApplyFault::NotEnabled) => Err(StepsFault::NotEnabled(place)),
        Err(ApplyFault::Full) => Err(StepsFault::Full),
        Err(ApplyFault::Memory) => Err(StepsFault::Memory),
    }
}

/// Takes steps one after another. `NotEnabled` has the index of the first that isn't enabled. If
/// not all are taken, the debugger is left after those that were.
#[tactic(auto, using(crate::proofs::GivenLemmas::taking))]
pub fn take_steps(debugger: &mut Debugger<'_>, steps: &[Step]) -> Result<(), StepsFault>
    ensures taken { OnOk result (done_steps debugger.new.trail ≡ done_steps debugger.old.trail ++ steps.now) }
    ensures leads { OnOk result (fold debugger.old.world steps.now ≡ Some debugger.new.world) }
    ensures not_enabled { (place : ℕ) → IsErrOf result (StepsFault.NotEnabled place) → StopsAt debugger.old.world steps.now place }
{
    let mut place = 0;
    for step in steps {
        match take_at(debugger, place, *step) {
            Ok(()) => {}
            Err(fault) => return Err(fault),
        }
        place += 1;
    }
    Ok(())
}
