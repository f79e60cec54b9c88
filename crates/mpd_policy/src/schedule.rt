//! Schedules: what comes next in a state, and which steps stay in the sleep set after a step.

ghost use Rattle.std.specs.Prelude.{◌≡◌, [], IfOk};
ghost use Rattle.mpd_model.specs.runs.Decisions.{CanFollow};

use crate::decisions::{decide, decisions_can_be_followed};
use crate::wide::{wake, wide_decide, wide_decisions_can_be_followed};
use mpd_core::Core;
use mpd_model::{Decision, Step, StepList};
use mpd_trail::Debugger;
use std::alloc::{AllocError, Global};

/// A schedule says what comes next in a state: a forced step, or the candidates of a choice, or how
/// the run has ended. A search with sleep sets also asks it which candidates are asleep, and which
/// steps stay in the sleep set.
pub trait Schedule {
    ghost use Rattle.std.specs.Prelude.{Bool, List};
    ghost use Rattle.mpd_model.specs.declared.decision.Decision.{Decision};
    ghost use Rattle.mpd_model.specs.declared.step.Step.{Step};
    ghost use Rattle.mpd_model.specs.steps.World.{World};

    /// What it says of a state.
    ghost decides: { World → Decision };

    /// Whether a candidate is a step that is asleep.
    ghost same: { Step → Step → Bool };

    /// The state before a step, that step, the sleep set there, and the sleep set after the step.
    ghost keeps: { World → Step → List Step → List Step };

    /// What comes next in a state. `Err` means that memory for the steps of a choice or the list of
    /// an outcome was refused.
    fn decide(&self, alloc: Global, core: &Core<'_>) -> Result<Decision, AllocError>
        ensures ok { IfOk result (λ d. d ≡ decides core.now.world) };

    /// Whether a candidate is a step that is asleep.
    fn is_same(&self, candidate: Step, asleep: Step) -> bool
        ensures { result ≡ same candidate asleep };

    /// Reduces the sleep set of the debugger's state to the steps that stay asleep after a step,
    /// which is forced or chosen there.
    fn keep_asleep(&self, debugger: &Debugger<'_>, step: Step, asleep: &mut StepList)
        ensures kept { asleep.new ≡ keeps debugger.now.world step asleep.old };

    /// A law of every schedule and state: what it says can be followed, and an empty sleep set
    /// stays empty. A call does nothing.
    fn can_be_followed(&self)
        ensures follow { (w : World) → CanFollow w (decides w) }
        ensures none { (w : World) (a : Step) → keeps w a [] ≡ [] };
}

/// The decisions as they are defined (docs/DEFINITIONS.md, "Decisions"). A match that is asleep stays so, and no other step is.
#[derive(Clone, Copy)]
pub struct Plain;

impl Schedule for Plain {
    ghost use Rattle.mpd_model.specs.runs.Decisions.{decision};
    ghost use Rattle.mpd_policy.specs.Asleep.{same_match, nothing_wakes};

    ghost decides = { decision };

    ghost same = { same_match };

    ghost keeps = { nothing_wakes };

    fn decide(&self, alloc: Global, core: &Core<'_>) -> Result<Decision, AllocError> {
        let next = decide(alloc, core)?;
        Ok(next)
    }

    fn is_same(&self, candidate: Step, asleep: Step) -> bool {
        match (candidate, asleep) {
            (Step::Match(send, receive), Step::Match(other_send, other_receive)) => {
                send == other_send && receive == other_receive
            }
            _ => false,
        }
    }

    fn keep_asleep(&self, _debugger: &Debugger<'_>, _step: Step, _asleep: &mut StepList) {}

    fn can_be_followed(&self) {
        decisions_can_be_followed();
    }
}

/// The wide decisions (docs/DEFINITIONS.md, "The wide walk"), along which nothing is left out of any script, in any mode. A step that is
/// asleep stays so until one is taken that conflicts with it.
#[derive(Clone, Copy)]
pub struct Wide;

impl Schedule for Wide {
    ghost use Rattle.mpd_model.specs.runs.Trail.{step_eq};
    ghost use Rattle.mpd_policy.specs.Wide.{wide_decision, sleeps_on};

    ghost decides = { wide_decision };

    ghost same = { step_eq };

    ghost keeps = { sleeps_on };

    fn decide(&self, alloc: Global, core: &Core<'_>) -> Result<Decision, AllocError> {
        let next = wide_decide(alloc, core)?;
        Ok(next)
    }

    fn is_same(&self, candidate: Step, asleep: Step) -> bool {
        match (candidate, asleep) {
            (Step::Match(send, receive), Step::Match(sent, taken)) => {
                send == sent && receive == taken
            }
            _ => candidate == asleep,
        }
    }

    fn keep_asleep(&self, debugger: &Debugger<'_>, step: Step, asleep: &mut StepList) {
        wake(debugger.core(), step, &mut asleep.items);
    }

    fn can_be_followed(&self) {
        wide_decisions_can_be_followed();
    }
}
