//! Following choices from a debugger's state.

ghost use Rattle.std.specs.Prelude.{◌≡◌, ◌-◌, ◌<◌, ◌≤◌, IfOk, OnErr, Some, [], length};
ghost use Rattle.mpd_trail.specs.DebuggerViews.{standing_of};
ghost use Rattle.mpd_policy.specs.Walks.{Beyond};
ghost use Rattle.mpd_explore.specs.Pieces.{Reaches, rules_of};
ghost use Rattle.mpd_explore.specs.Along.{Going};
ghost use Rattle.mpd_explore.specs.Slept.{asleep_there, takes_noted, leaves_noted, passes_noted};

use crate::asleep::asleep_at;
use crate::sleep::Sleep;
use mpd_model::{STEPS_MAX, Step, StepList};
use mpd_policy::{Chooser, Schedule, walk};
use mpd_trail::Debugger;
use std::alloc::{AllocError, Global};

/// Takes the candidates that some choices name, in order, and notes what is asleep after each, and
/// after each forced step. `left` are those that are still to be made.
#[derive(Drop)]
struct ByPiece<'a, S: Schedule> {
    alloc: Global,
    schedule: &'a S,
    sleeps: bool,
    left: &'a [usize],
    sleep: Sleep,
}

impl<'a, S: Schedule> Chooser for ByPiece<'a, S> {
    ghost takes = { takes_noted (rules_of S.decides S.same S.keeps) (λ c. c.sleeps) (λ c. c.left.now) (λ c. c.sleep) };

    ghost leaves = { leaves_noted (λ c. c.left.now) };

    ghost passes = { passes_noted (rules_of S.decides S.same S.keeps) (λ c. c.sleeps) (λ c. c.left.now) (λ c. c.sleep) };

    fn choose(
        &mut self,
        debugger: &Debugger<'_>,
        candidates: StepList,
    ) -> Result<Option<Step>, AllocError> {
        let Some((choice, rest)) = self.left.split_first() else {
            return Ok(None);
        };
        if *choice >= candidates.items.len() {
            return Ok(None);
        }
        let step = candidates.items[*choice];
        let below = asleep_at(
            self.alloc,
            self.sleeps,
            &self.sleep.steps.items,
            &candidates.items,
            *choice,
        )?;
        self.sleep.take(self.schedule, debugger, step, below);
        self.left = rest;
        Ok(Some(step))
    }

    fn pass(&mut self, debugger: &Debugger<'_>, step: Step) -> Result<(), AllocError> {
        self.sleep.pass(self.schedule, debugger, step);
        Ok(())
    }
}

/// Goes along choices, and after the last of them on to the next choice or to the end of the run,
/// and returns what is asleep there. With no choice to be made it stays. `Err` means that memory
/// was refused, which happens only if there is a choice.
pub(crate) fn follow<S: Schedule>(
    alloc: Global,
    schedule: &S,
    debugger: &mut Debugger<'_>,
    limit: usize,
    choices: &[usize],
    sleeps: bool,
) -> Result<Sleep, AllocError>
    requires within { debugger.old.trail.depth ≤ limit }
    requires few { limit ≤ STEPS_MAX }
    requires reaches { Reaches S.decides (limit - debugger.old.trail.depth) choices.now debugger.old.world }
    ensures going { IfOk result (λ s. Going (rules_of S.decides S.same S.keeps sleeps) (limit - debugger.old.trail.depth) choices.now (Some []) (standing_of debugger.old) [] (asleep_there s) (standing_of debugger.new)) }
    ensures beyond { Beyond (standing_of debugger.old) (standing_of debugger.new) }
    ensures still { IfOk result (λ s. length choices.now ≡ 0 → s.steps ≡ []) }
    ensures memory { OnErr result (0 < length choices.now) }
{
    debugger.state_is_reached();
    let sleep = Sleep::none(alloc);
    if choices.is_empty() {
        return Ok(sleep);
    }
    let mut chooser = ByPiece {
        alloc,
        schedule,
        sleeps,
        left: choices,
        sleep,
    };
    let stop = walk(alloc, schedule, debugger, limit, &mut chooser)?;
    drop(stop);
    let ByPiece { sleep, .. } = chooser;
    Ok(sleep)
}
