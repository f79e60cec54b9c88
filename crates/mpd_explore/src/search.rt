//! The search: open choices on a stack, the debugger going forward and back.

ghost use Rattle.std.specs.Prelude.{◌≡◌, ◌+◌, ◌<◌, ◌≤◌, [], ◌∷◌, IfOk, OnOk, length, take, reverse};
ghost use Rattle.mpd_model.specs.runs.Trail.{done_steps, gone_back, IsReached};
ghost use Rattle.mpd_trail.specs.Run.{first_of};
ghost use Rattle.mpd_trail.specs.DebuggerViews.{standing_of};
ghost use Rattle.mpd_explore.specs.Search.{At, Tried, Stopped, Advanced, Found, Safe, search_by, takes_awake, leaves_asleep, passes_on};

use crate::asleep::{asleep_at, first_awake};
use crate::report::Ending;
use mpd_model::{STEPS_MAX, Step, StepList};
use mpd_policy::{Chooser, Schedule, ending_of, walk};
use mpd_trail::Debugger;
use std::alloc::{AllocError, Global};
use std::mem;

/// An open choice: its depth, its candidates, the index of the one that is taken, and its sleep
/// set.
#[derive(Drop)]
pub(crate) struct Open {
    pub(crate) depth: usize,
    pub(crate) candidates: StepList,
    pub(crate) index: usize,
    pub(crate) asleep: StepList,
}

/// The depth at which a search begins, the one at which its fuel ends, and whether the candidates
/// that were tried fall asleep.
#[derive(Clone, Copy)]
pub(crate) struct Bounds {
    pub(crate) base: usize,
    pub(crate) limit: usize,
    pub(crate) sleeps: bool,
}

/// What is still to be tried: the open choices, the innermost last, and the sleep set of the
/// debugger's state.
#[derive(Drop)]
pub(crate) struct Frontier {
    pub(crate) stack: Vec<Open>,
    pub(crate) asleep: StepList,
}

/// Takes what is asleep out of a frontier.
fn take_asleep(alloc: Global, frontier: &mut Frontier) -> StepList
    ensures asleep { result ≡ frontier.old.asleep }
    ensures stack { frontier.new.stack ≡ frontier.old.stack }
{
    let none = StepList {
        items: Vec::new(alloc),
    };
    mem::replace(&mut frontier.asleep, none)
}

/// Opens the choice of the debugger's state at its first candidate that is awake, from the index
/// that it names on, and returns that candidate; none if all of these are asleep. `Err` means that
/// memory was refused.
fn open_choice<S: Schedule>(
    alloc: Global,
    schedule: &S,
    debugger: &Debugger<'_>,
    sleeps: bool,
    frontier: &mut Frontier,
    choice: Open,
) -> Result<Option<Step>, AllocError>
    requires { choice.index ≤ length choice.candidates }
    ensures { IfOk result (λ o. Tried S.same S.keeps sleeps debugger.now.world choice frontier.old o frontier.new) }
{
    let Open {
        depth,
        candidates,
        index: from,
        asleep,
    } = choice;
    let index = first_awake(schedule, sleeps, &asleep.items, &candidates.items, from);
    if index == candidates.items.len() {
        return Ok(None);
    }
    let step = candidates.items[index];
    let mut below = asleep_at(alloc, sleeps, &asleep.items, &candidates.items, index)?;
    schedule.keep_asleep(debugger, step, &mut below);
    frontier.asleep = below;
    frontier.stack.push(Open {
        depth,
        candidates,
        index,
        asleep,
    })?;
    Ok(Some(step))
}

/// Takes the first candidate that is awake, and keeps the choice open.
#[derive(Drop)]
struct Untried<'a, S: Schedule> {
    alloc: Global,
    schedule: &'a S,
    sleeps: bool,
    frontier: &'a mut Frontier,
}

impl<'a, S: Schedule> Chooser for Untried<'a, S> {
    ghost takes = { takes_awake S.same S.keeps (λ c. c.sleeps) (λ c. c.frontier.now) (λ c. c.frontier.ghost_name) };

    ghost leaves = { leaves_asleep S.same (λ c. c.sleeps) (λ c. c.frontier.now) (λ c. c.frontier.ghost_name) };

    ghost passes = { passes_on S.keeps (λ c. c.sleeps) (λ c. c.frontier.now) (λ c. c.frontier.ghost_name) };

    fn choose(
        &mut self,
        debugger: &Debugger<'_>,
        candidates: StepList,
    ) -> Result<Option<Step>, AllocError> {
        let asleep = take_asleep(self.alloc, self.frontier);
        let choice = Open {
            depth: debugger.depth(),
            candidates,
            index: 0,
            asleep,
        };
        open_choice(
            self.alloc,
            self.schedule,
            debugger,
            self.sleeps,
            self.frontier,
            choice,
        )
    }

    fn pass(&mut self, debugger: &Debugger<'_>, step: Step) -> Result<(), AllocError> {
        let asleep = &mut self.frontier.asleep;
        self.schedule.keep_asleep(debugger, step, asleep);
        Ok(())
    }
}

/// Takes steps back to a depth.
fn go_back(debugger: &mut Debugger<'_>, depth: usize)
    requires { depth ≤ debugger.old.trail.depth }
    ensures trail { debugger.new.trail ≡ gone_back debugger.old.trail depth }
    ensures steps { done_steps debugger.new.trail ≡ take depth (done_steps debugger.old.trail) }
    ensures reached { IsReached (standing_of debugger.new) }
{
    let _ = debugger.undo_to(depth);
}

/// Goes on to the end of a run from here; none if it comes to a choice whose candidates are all
/// asleep.
fn descend<S: Schedule>(
    alloc: Global,
    schedule: &S,
    debugger: &mut Debugger<'_>,
    bounds: Bounds,
    frontier: &mut Frontier,
) -> Result<Option<Ending>, AllocError>
    requires at { At (search_by S.decides S.same S.keeps bounds (first_of debugger.old.trail)) (reverse frontier.old.stack.items) (standing_of debugger.old) }
    requires few { bounds.limit ≤ STEPS_MAX }
    ensures stopped { IfOk result (λ o. Stopped (search_by S.decides S.same S.keeps bounds (first_of debugger.old.trail)) (reverse frontier.old.stack.items) frontier.old.asleep (standing_of debugger.old) o (reverse frontier.new.stack.items) (standing_of debugger.new)) }
    ensures safe { Safe bounds.base (standing_of debugger.old) (standing_of debugger.new) }
{
    schedule.can_be_followed();
    let mut untried = Untried {
        alloc,
        schedule,
        sleeps: bounds.sleeps,
        frontier,
    };
    let stop = walk(alloc, schedule, debugger, bounds.limit, &mut untried)?;
    let ending = ending_of(alloc, schedule, debugger, stop)?;
    Ok(ending)
}

/// Goes back to the innermost open choice with a candidate left that is awake, and takes that;
/// false if there is none.
pub(crate) fn advance<S: Schedule>(
    alloc: Global,
    schedule: &S,
    debugger: &mut Debugger<'_>,
    bounds: Bounds,
    frontier: &mut Frontier,
) -> Result<bool, AllocError>
    requires at { At (search_by S.decides S.same S.keeps bounds (first_of debugger.old.trail)) (reverse frontier.old.stack.items) (standing_of debugger.old) }
    requires few { bounds.limit ≤ STEPS_MAX }
    ensures advanced { IfOk result (λ b. Advanced (search_by S.decides S.same S.keeps bounds (first_of debugger.old.trail)) (reverse frontier.old.stack.items) (standing_of debugger.old) b (reverse frontier.new.stack.items) frontier.new.asleep (standing_of debugger.new)) }
    ensures safe { Safe bounds.base (standing_of debugger.old) (standing_of debugger.new) }
{
    while let Some(top) = frontier.stack.pop() {
        let Open {
            depth,
            candidates,
            index,
            asleep,
        } = top;
        go_back(debugger, depth);
        let next = Open {
            depth,
            candidates,
            index: index + 1,
            asleep,
        };
        let taken = open_choice(alloc, schedule, debugger, bounds.sleeps, frontier, next)?;
        if let Some(step) = taken {
            debugger.forward(step)?;
            return Ok(true);
        }
    }
    Ok(false)
}

/// Goes on to the end of the first run from here; none if there is no run any more.
pub(crate) fn seek<S: Schedule>(
    alloc: Global,
    schedule: &S,
    debugger: &mut Debugger<'_>,
    bounds: Bounds,
    frontier: &mut Frontier,
) -> Result<Option<Ending>, AllocError>
    requires at { At (search_by S.decides S.same S.keeps bounds (first_of debugger.old.trail)) (reverse frontier.old.stack.items) (standing_of debugger.old) }
    requires few { bounds.limit ≤ STEPS_MAX }
    ensures found { IfOk result (λ o. Found (search_by S.decides S.same S.keeps bounds (first_of debugger.old.trail)) (reverse frontier.old.stack.items) frontier.old.asleep (standing_of debugger.old) o (reverse frontier.new.stack.items) (standing_of debugger.new)) }
    ensures safe { Safe bounds.base (standing_of debugger.old) (standing_of debugger.new) }
{
    loop {
        if let Some(ending) = descend(alloc, schedule, debugger, bounds, frontier)? {
            return Ok(Some(ending));
        }
        let is_taken = advance(alloc, schedule, debugger, bounds, frontier)?;
        if !is_taken {
            return Ok(None);
        }
    }
}
