//! Two choosers: one by a list of choices, and one that takes the first candidate.

ghost use Rattle.std.specs.Prelude.{◌<◌, length, IfOk, OnOk};
ghost use Rattle.mpd_policy.specs.Choosers.{takes_listed, leaves_listed, takes_first, never_leaves, stays};

use crate::chooser::Chooser;
use mpd_model::{Step, StepList};
use mpd_trail::Debugger;
use std::alloc::AllocError;

/// Takes the candidates that some choices name, in order. `left` are those that are still to be made.
#[derive(Drop)]
pub struct ByChoices<'a> {
    pub left: &'a [usize],
}

impl<'a> Chooser for ByChoices<'a> {
    ghost takes = { takes_listed };

    ghost leaves = { leaves_listed };

    ghost passes = { stays };

    fn choose(
        &mut self,
        debugger: &Debugger<'_>,
        candidates: StepList,
    ) -> Result<Option<Step>, AllocError> {
        let Some((choice, rest)) = self.left.split_first() else {
            return Ok(None);
        };
        if *choice >= candidates.items.len() {
            return Ok(None);
        }
        let step = candidates.items[*choice];
        self.left = rest;
        Ok(Some(step))
    }

    fn pass(&mut self, debugger: &Debugger<'_>, step: Step) -> Result<(), AllocError> {
        Ok(())
    }
}

/// Takes the first candidate.
#[derive(Drop)]
pub struct First;

impl Chooser for First {
    ghost takes = { takes_first };

    ghost leaves = { never_leaves };

    ghost passes = { stays };

    fn choose(
        &mut self,
        debugger: &Debugger<'_>,
        candidates: StepList,
    ) -> Result<Option<Step>, AllocError> {
        Ok(Some(candidates.items[0]))
    }

    fn pass(&mut self, debugger: &Debugger<'_>, step: Step) -> Result<(), AllocError> {
        Ok(())
    }
}
