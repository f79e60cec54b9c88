//! What comes next in a state.

use crate::outcome::Outcome;
use crate::step::Step;
use std::marker::Model;

/// Steps in order, which contracts see as a list.
#[derive(Drop)]
pub struct StepList {
    pub items: Vec<Step>,
}

impl Model for StepList {
    ghost use Rattle.std.specs.Prelude.{List};
    ghost use Rattle.mpd_model.specs.declared.step.Step.{Step};

    ghost Value = { List Step };

    ghost view = { λ l. l.items.items };
}

/// What comes next in a state (docs/DEFINITIONS.md, "Decisions").
#[derive(Drop)]
pub enum Decision {
    /// This step, which nobody has to choose.
    Forced(Step),
    /// One of these steps, one of them at least: by one of its requests a rank goes on from a waitany, or a receive of any source is
    /// matched.
    Choice(StepList),
    /// No step is enabled, and the run has ended so.
    Leaf(Outcome),
}
