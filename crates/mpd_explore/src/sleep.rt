//! The sleep set after some choices: if tried candidates fall asleep, the candidates before those
//! that were taken, as long as no step wakes them.

ghost use Rattle.std.specs.Prelude.{◌≡◌, ◌||◌, [], false};
ghost use Rattle.std.specs.List.{list_any};

use crate::asleep::is_asleep;
use mpd_model::{Step, StepList};
use mpd_policy::Schedule;
use mpd_trail::Debugger;
use std::alloc::Global;

/// The steps that are asleep, and whether a step was taken that was asleep: then no run goes there.
#[derive(Drop)]
pub(crate) struct Sleep {
    pub(crate) steps: StepList,
    pub(crate) is_passed: bool,
}

impl Sleep {
    /// Nothing is asleep.
    pub(crate) fn none(alloc: Global) -> Sleep
        ensures steps { result.steps ≡ [] }
        ensures passed { result.is_passed ≡ false }
    {
        let steps = StepList {
            items: Vec::new(alloc),
        };
        Sleep {
            steps,
            is_passed: false,
        }
    }

    /// Notes that a candidate is taken in the debugger's state, whose sleep set these steps are. It
    /// may be one of them.
    pub(crate) fn take<S: Schedule>(
        &mut self,
        schedule: &S,
        debugger: &Debugger<'_>,
        step: Step,
        below: StepList,
    )
        ensures steps { self.new.steps ≡ S.keeps debugger.now.world step below }
        ensures passed { self.new.is_passed ≡ (list_any (S.same step) below || self.old.is_passed) }
    {
        self.is_passed = is_asleep(schedule, &below.items, step) || self.is_passed;
        self.steps = below;
        schedule.keep_asleep(debugger, step, &mut self.steps);
    }

    /// Notes that a forced step is taken in the debugger's state.
    pub(crate) fn pass<S: Schedule>(&mut self, schedule: &S, debugger: &Debugger<'_>, step: Step)
        ensures steps { self.new.steps ≡ S.keeps debugger.now.world step self.old.steps }
        ensures passed { self.new.is_passed ≡ self.old.is_passed }
    {
        schedule.keep_asleep(debugger, step, &mut self.steps);
    }
}
