//! What chooses one of some candidates.

ghost use Rattle.std.specs.Prelude.{◌<◌, length, IfOk, OnOk};
ghost use Rattle.mpd_policy.specs.Walked.{Chose};

use mpd_model::{Step, StepList};
use mpd_trail::Debugger;
use std::alloc::AllocError;

/// What chooses one of the candidates of a choice, or none of them.
pub trait Chooser {
    ghost use Rattle.std.specs.Prelude.{ℕ, List};
    ghost use Rattle.mpd_model.specs.declared.step.Step.{Step};
    ghost use Rattle.mpd_model.specs.steps.World.{World};

    /// The chooser before, the depth and the world of the choice, its candidates, the number of the
    /// one that is taken, and the chooser after.
    ghost takes: { Self → ℕ → World → List Step → ℕ → Self → Type 0 };

    /// The same if none is taken.
    ghost leaves: { Self → ℕ → World → List Step → Self → Type 0 };

    /// The chooser before, the depth and the world in which a forced step is taken, that step, and
    /// the chooser after.
    ghost passes: { Self → ℕ → World → Step → Self → Type 0 };

    /// Chooses one of the candidates of the debugger's choice, or none. `Err` means that memory was
    /// refused.
    fn choose(
        &mut self,
        debugger: &Debugger<'_>,
        candidates: StepList,
    ) -> Result<Option<Step>, AllocError>
        requires some { 0 < length candidates }
        ensures chose { IfOk result (λ o. Chose takes leaves self.old debugger.now.trail.depth debugger.now.world candidates o self.new) };

    /// Is told of a forced step before it is taken. `Err` means that memory was refused.
    fn pass(&mut self, debugger: &Debugger<'_>, step: Step) -> Result<(), AllocError>
        ensures passed { OnOk result (passes self.old debugger.now.trail.depth debugger.now.world step self.new) };
}
