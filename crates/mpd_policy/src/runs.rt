//! Runs that go by themselves, forward along decisions, and back.

ghost use Rattle.std.specs.Prelude.{◌≡◌, ◌<◌, ◌≤◌, ◌+◌, ◌-◌, ◌⊎◌, ◌++◌, ◌∷◌, [], IfOk, OnOk, OnErr, IfSome, IfNone, IsSome, Some, None, length, take, slice_get};
ghost use Rattle.mpd_model.specs.steps.Next.{next, fold};
ghost use Rattle.mpd_model.specs.runs.Trail.{IsReached, IsRun, applied, done_steps, gone_back, forgotten, with_steps};
ghost use Rattle.mpd_model.specs.runs.Decisions as decisions;
ghost use Rattle.mpd_model.specs.runs.Breakpoints.{lowest_hit};
ghost use Rattle.mpd_model.specs.runs.Running.{ran, ran_along, stop_of, all_applied, hit_at, ran_back};
ghost use Rattle.mpd_trail.specs.DebuggerViews.{standing_of};
ghost use Rattle.mpd_policy.specs.Ahead.{comes, forced_in, ahead_of, Lists, Wants, Went};
ghost use Rattle.mpd_policy.specs.Single.{ran_on};

use crate::breaks::Breaks;
use crate::decisions::{forced_step, only_step};
use crate::hits::lower;
use mpd_core::Core;
use mpd_model::{Cause, STEPS_MAX, Step, Stop};
use mpd_trail::Debugger;
use std::alloc::{AllocError, Global};

/// What a run does next: a step, or it stops.
#[derive(Clone, Copy)]
pub(crate) enum Ahead {
    Take(Step),
    Halt(Cause),
}

/// Which steps a run takes.
#[derive(Clone, Copy)]
pub(crate) enum Taking {
    /// Those that are forced.
    Forced,
    /// The single candidate of a choice, too.
    Single,
}

/// The step that a run takes next, where it takes one. An `Err` is want of memory for candidates, and comes only where some are listed.
#[tactic(auto, using(crate::proofs::SingleLemmas::coming))]
fn coming(alloc: Global, core: &Core<'_>, taking: Taking) -> Result<Option<Step>, AllocError>
    ensures step { IfOk result (λ step. step ≡ forced_in (comes taking core.now.world)) }
    ensures lists { OnErr result (Lists taking core.now.world) }
{
    match taking {
        Taking::Forced => Ok(forced_step(core)),
        Taking::Single => only_step(alloc, core),
    }
}

/// What a run does next. Before a step it stops at a leaf, at a choice, and where 1,000,000 steps are not undone. An `Err` is want of
/// memory for candidates, and comes only where some are listed.
#[tactic(auto, using(crate::proofs::RunLemmas::looking))]
fn look_ahead(alloc: Global, debugger: &Debugger<'_>, taking: Taking) -> Result<Ahead, AllocError>
    ensures ahead { IfOk result (λ ahead. ahead ≡ ahead_of debugger.now.trail.depth (comes taking debugger.now.world)) }
    ensures lists { OnErr result (Lists taking debugger.now.world) }
{
    let depth = debugger.depth();
    let core = debugger.core();
    let next = coming(alloc, core, taking)?;
    if let Some(step) = next {
        if depth >= STEPS_MAX {
            return Ok(Ahead::Halt(Cause::Full));
        }
        return Ok(Ahead::Take(step));
    }
    if core.is_stuck() {
        return Ok(Ahead::Halt(Cause::Leaf));
    }
    Ok(Ahead::Halt(Cause::Choice))
}

/// Takes a step that is enabled, and answers the lowest breakpoint that it hits. An `Err` is want of memory, and nothing has changed.
fn take_watched(
    debugger: &mut Debugger<'_>,
    breaks: &Breaks,
    step: Step,
) -> Result<Option<usize>, AllocError>
    requires enabled { IsSome (next debugger.old.world step) }
    requires few { debugger.old.trail.depth < STEPS_MAX }
    ensures hit { IfOk result (λ n. n ≡ lowest_hit debugger.old.trail.program breaks.now debugger.old.world step debugger.new.world) }
    ensures ok { OnOk result (debugger.new.trail ≡ applied debugger.old.trail step) }
    ensures world { OnOk result (next debugger.old.world step ≡ Some debugger.new.world) }
    ensures steps { OnOk result (done_steps debugger.new.trail ≡ done_steps debugger.old.trail ++ step ∷ []) }
    ensures reached { IsReached (standing_of debugger.new) }
    ensures err { OnErr result (debugger.new.trail ≡ debugger.old.trail) }
    ensures err_world { OnErr result (debugger.new.world ≡ debugger.old.world) }
{
    let values = breaks.watch(debugger.core());
    debugger.forward(step)?;
    let core = debugger.core();
    let told = breaks.lowest_told(core, step);
    let changed = breaks.lowest_changed(core, &values);
    Ok(lower(told, changed))
}

/// Takes a step that is enabled, and answers the lowest breakpoint that it hits; where no breakpoint is set, nothing is looked at for
/// them. An `Err` is want of memory, and nothing has changed.
fn take(
    debugger: &mut Debugger<'_>,
    breaks: &Breaks,
    step: Step,
) -> Result<Option<usize>, AllocError>
    requires enabled { IsSome (next debugger.old.world step) }
    requires few { debugger.old.trail.depth < STEPS_MAX }
    ensures hit { IfOk result (λ n. n ≡ lowest_hit debugger.old.trail.program breaks.now debugger.old.world step debugger.new.world) }
    ensures ok { OnOk result (debugger.new.trail ≡ applied debugger.old.trail step) }
    ensures world { OnOk result (next debugger.old.world step ≡ Some debugger.new.world) }
    ensures steps { OnOk result (done_steps debugger.new.trail ≡ done_steps debugger.old.trail ++ step ∷ []) }
    ensures reached { IsReached (standing_of debugger.new) }
    ensures err { OnErr result (debugger.new.trail ≡ debugger.old.trail) }
    ensures err_world { OnErr result (debugger.new.world ≡ debugger.old.world) }
{
    if breaks.is_unset() {
        debugger.forward(step)?;
        return Ok(None);
    }
    take_watched(debugger, breaks, step)
}

/// Runs, and where memory is refused on the way leaves the steps that it made. It is refused only where it makes a step, or lists
/// candidates.
#[tactic(auto, using(crate::proofs::RunLemmas::going))]
fn go(
    alloc: Global,
    debugger: &mut Debugger<'_>,
    breaks: &Breaks,
    max: usize,
    taking: Taking,
) -> Result<Stop, AllocError>
    ensures went { Went taking breaks.now max (standing_of debugger.old) (standing_of debugger.new) result }
    ensures reached { IsReached (standing_of debugger.new) }
{
    debugger.state_is_reached();
    for made in 0..max {
        let ahead = look_ahead(alloc, debugger, taking)?;
        let step = match ahead {
            Ahead::Halt(cause) => return Ok(Stop { steps: made, cause }),
            Ahead::Take(step) => step,
        };
        let hit = take(debugger, breaks, step)?;
        if let Some(number) = hit {
            return Ok(Stop {
                steps: made + 1,
                cause: Cause::Break(number),
            });
        }
    }
    let last = look_ahead(alloc, debugger, taking)?;
    match last {
        Ahead::Halt(cause) => Ok(Stop { steps: max, cause }),
        Ahead::Take(_) => Ok(Stop {
            steps: max,
            cause: Cause::Max,
        }),
    }
}

/// All steps kept, where some are undone. An `Err` is want of memory, and comes only there.
fn set_aside(alloc: Global, debugger: &Debugger<'_>) -> Result<Option<Vec<Step>>, AllocError>
    ensures some { IfOk result (λ saved. IfSome saved (λ steps. steps.items ≡ debugger.now.trail.steps)) }
    ensures none { IfOk result (λ saved. IfNone saved (length debugger.now.trail.steps ≡ debugger.now.trail.depth)) }
    ensures memory { OnErr result (debugger.now.trail.depth < length debugger.now.trail.steps) }
{
    debugger.state_is_reached();
    let steps = debugger.steps();
    if debugger.depth() == steps.len() {
        return Ok(None);
    }
    let mut saved = Vec::new(alloc);
    saved.extend_from_slice(steps)?;
    Ok(Some(saved))
}

/// Goes back to a depth, and has the steps that were set aside, or no undone ones.
fn put_back(debugger: &mut Debugger<'_>, depth: usize, saved: Option<Vec<Step>>)
    requires before { depth ≤ debugger.old.trail.depth }
    requires begins { IfSome saved (λ steps. take depth steps.items ≡ take depth (done_steps debugger.old.trail)) }
    requires run { IfSome saved (λ steps. IsRun debugger.old.trail.program debugger.old.trail.mode steps.items) }
    ensures some { IfSome saved (λ steps. debugger.new.trail ≡ with_steps (gone_back debugger.old.trail depth) steps.items) }
    ensures none { IfNone saved (debugger.new.trail ≡ forgotten (gone_back debugger.old.trail depth)) }
    ensures reached { IsReached (standing_of debugger.new) }
{
    let _ = debugger.undo_to(depth);
    match saved {
        Some(steps) => debugger.put_steps(steps),
        None => debugger.forget_undone(),
    }
}

/// Runs, and stops after the first step that hits a breakpoint, and before a step at a leaf, at a choice, where 1,000,000 steps are
/// not undone, or after `max` steps, in this order. An `Err` is want of memory, and then the state and all steps, undone ones too, are
/// as before.
fn run_by(
    alloc: Global,
    debugger: &mut Debugger<'_>,
    breaks: &Breaks,
    max: usize,
    taking: Taking,
) -> Result<Stop, AllocError>
    ensures stop { IfOk result (λ stop. stop ≡ stop_of (ran_along (comes taking) debugger.old.trail.program breaks.now max debugger.old.trail.depth debugger.old.world)) }
    ensures trail { OnOk result (debugger.new.trail ≡ all_applied debugger.old.trail (ran_along (comes taking) debugger.old.trail.program breaks.now max debugger.old.trail.depth debugger.old.world).steps) }
    ensures world { OnOk result (fold debugger.old.world (ran_along (comes taking) debugger.old.trail.program breaks.now max debugger.old.trail.depth debugger.old.world).steps ≡ Some debugger.new.world) }
    ensures reached { IsReached (standing_of debugger.new) }
    ensures err { OnErr result (debugger.new.trail ≡ debugger.old.trail) }
    ensures err_world { OnErr result (debugger.new.world ≡ debugger.old.world) }
    ensures memory { OnErr result ((debugger.old.trail.depth < length debugger.old.trail.steps) ⊎ Wants taking (length (ran_along (comes taking) debugger.old.trail.program breaks.now max debugger.old.trail.depth debugger.old.world).steps) debugger.old.world) }
{
    debugger.state_is_reached();
    let depth = debugger.depth();
    let saved = set_aside(alloc, debugger)?;
    match go(alloc, debugger, breaks, max, taking) {
        Ok(stop) => Ok(stop),
        Err(fault) => {
            put_back(debugger, depth, saved);
            Err(fault)
        }
    }
}

/// Runs along decisions (docs/DEFINITIONS.md, "Runs"): it makes every forced step, and stops after the first that a breakpoint
/// hits, and before a step at a leaf, at a choice, where 1,000,000 steps are not undone, or after `max` steps, in this order. An
/// `Err` is want of memory, and then the state and all steps, undone ones too, are as before; it comes only where steps are undone,
/// whose list is set aside, or where the run makes a step.
pub fn run(
    alloc: Global,
    debugger: &mut Debugger<'_>,
    breaks: &Breaks,
    max: usize,
) -> Result<Stop, AllocError>
    ensures stop { IfOk result (λ stop. stop ≡ stop_of (ran debugger.old.trail.program breaks.now max debugger.old.trail.depth debugger.old.world)) }
    ensures trail { OnOk result (debugger.new.trail ≡ all_applied debugger.old.trail (ran debugger.old.trail.program breaks.now max debugger.old.trail.depth debugger.old.world).steps) }
    ensures world { OnOk result (fold debugger.old.world (ran debugger.old.trail.program breaks.now max debugger.old.trail.depth debugger.old.world).steps ≡ Some debugger.new.world) }
    ensures reached { IsReached (standing_of debugger.new) }
    ensures err { OnErr result (debugger.new.trail ≡ debugger.old.trail) }
    ensures err_world { OnErr result (debugger.new.world ≡ debugger.old.world) }
    ensures memory { OnErr result ((debugger.old.trail.depth < length debugger.old.trail.steps) ⊎ (0 < length (ran debugger.old.trail.program breaks.now max debugger.old.trail.depth debugger.old.world).steps)) }
{
    run_by(alloc, debugger, breaks, max, Taking::Forced)
}

/// Runs as `run` does, but takes the single candidate of a choice as if it were forced (docs/DEFINITIONS.md, "Runs"): so it stops at
/// choices of two candidates or more. An `Err` is want of memory, and then the state and all steps, undone ones too, are as before; it
/// comes only where steps are undone, whose list is set aside, where the run makes a step, or where it begins at a choice, whose
/// candidates are listed.
pub fn run_on(
    alloc: Global,
    debugger: &mut Debugger<'_>,
    breaks: &Breaks,
    max: usize,
) -> Result<Stop, AllocError>
    ensures stop { IfOk result (λ stop. stop ≡ stop_of (ran_on debugger.old.trail.program breaks.now max debugger.old.trail.depth debugger.old.world)) }
    ensures trail { OnOk result (debugger.new.trail ≡ all_applied debugger.old.trail (ran_on debugger.old.trail.program breaks.now max debugger.old.trail.depth debugger.old.world).steps) }
    ensures world { OnOk result (fold debugger.old.world (ran_on debugger.old.trail.program breaks.now max debugger.old.trail.depth debugger.old.world).steps ≡ Some debugger.new.world) }
    ensures reached { IsReached (standing_of debugger.new) }
    ensures err { OnErr result (debugger.new.trail ≡ debugger.old.trail) }
    ensures err_world { OnErr result (debugger.new.world ≡ debugger.old.world) }
    ensures memory { OnErr result ((debugger.old.trail.depth < length debugger.old.trail.steps) ⊎ ((0 < length (ran_on debugger.old.trail.program breaks.now max debugger.old.trail.depth debugger.old.world).steps) ⊎ ((decisions.forced_step debugger.old.world ≡ None) × (0 < length (decisions.choices debugger.old.world))))) }
{
    run_by(alloc, debugger, breaks, max, Taking::Single)
}

/// Takes the last step back, and answers the lowest breakpoint that it hits.
pub(crate) fn take_back_watched(debugger: &mut Debugger<'_>, breaks: &Breaks) -> Option<usize>
    requires { 0 < debugger.old.trail.depth }
    ensures hit { result ≡ hit_at breaks.now debugger.old.trail (debugger.old.trail.depth - 1) }
    ensures trail { debugger.new.trail ≡ gone_back debugger.old.trail (debugger.old.trail.depth - 1) }
    ensures reached { IsReached (standing_of debugger.new) }
    ensures room_left { debugger.old.room ≤ debugger.new.room }
{
    let depth = debugger.depth();
    let core = debugger.core();
    let step = debugger.steps()[depth - 1];
    let told = breaks.lowest_told(core, step);
    let values = breaks.watch(core);
    let _ = debugger.undo();
    let changed = breaks.lowest_changed(debugger.core(), &values);
    lower(told, changed)
}

/// Takes the last step back, and answers the lowest breakpoint that it hits; where no breakpoint is set, nothing is looked at for them.
fn take_back(debugger: &mut Debugger<'_>, breaks: &Breaks) -> Option<usize>
    requires { 0 < debugger.old.trail.depth }
    ensures hit { result ≡ hit_at breaks.now debugger.old.trail (debugger.old.trail.depth - 1) }
    ensures trail { debugger.new.trail ≡ gone_back debugger.old.trail (debugger.old.trail.depth - 1) }
    ensures reached { IsReached (standing_of debugger.new) }
{
    if breaks.is_unset() {
        let _ = debugger.undo();
        return None;
    }
    take_back_watched(debugger, breaks)
}

/// Runs back: it takes steps back until it has taken back one that hits a breakpoint, or to the start. It takes no memory.
#[tactic(auto, using(crate::proofs::BackLemmas::backing))]
pub fn run_back(debugger: &mut Debugger<'_>, breaks: &Breaks) -> Stop
    ensures stop { result ≡ ran_back breaks.now debugger.old.trail debugger.old.trail.depth }
    ensures trail { debugger.new.trail ≡ gone_back debugger.old.trail (debugger.old.trail.depth - result.steps) }
    ensures reached { IsReached (standing_of debugger.new) }
{
    debugger.state_is_reached();
    let depth = debugger.depth();
    for undone in 0..depth {
        let hit = take_back(debugger, breaks);
        if let Some(number) = hit {
            return Stop {
                steps: undone + 1,
                cause: Cause::Break(number),
            };
        }
    }
    Stop {
        steps: depth,
        cause: Cause::Start,
    }
}
