//! How the runs of a page end (docs/PAGES.md, "Ends").

ghost use Rattle.std.specs.Prelude.{◌≡◌, ◌≤◌, IfOk, OnOk, length};
ghost use Rattle.mpd_model.specs.runs.Trail.{done_steps};
ghost use Rattle.mpd_explain.specs.Ends.{end_of as end_there};
ghost use Rattle.mpd_page.specs.Ends as spec;
ghost use Rattle.mpd_page.specs.Ends.{DecidesIf, EndAdded, IsEndIn};
ghost use Rattle.mpd_blame.specs.Told.{IsBlamed};
ghost use Rattle.mpd_outcomes.specs.Goals.{meets};
ghost use Rattle.mpd_outcomes.specs.declared.report.Goal.TheVariants.{Bad};

use mpd_blame::{MarkedBlame, PlacedBlame, blame_run, place_blame};
use mpd_core::Core;
use mpd_explain::{End, Loss, LossList, all_losses, end_of, push_end as push_told, push_losses};
use mpd_explore::Witnesses;
use mpd_model::{Decl, STEPS_MAX};
use mpd_names::Marks;
use mpd_outcomes::{Goal, StateLimits};
use mpd_policy::Ending;
use mpd_runs::{FUEL, STATES_KEPT};
use mpd_trail::Debugger;
use std::alloc::{AllocError, Global};

/// How a run ends, and what is known of that.
#[derive(Drop)]
pub struct RunEnd {
    /// How.
    pub ending: Ending,
    /// That, with what is known of it.
    pub end: End,
    /// The requests that are lost; none of a run that is cut.
    pub lost: LossList,
    /// Where it was decided that it ends so, if it hangs or traps.
    pub decided: Option<PlacedBlame>,
}

/// How a run of a page ends.
#[derive(Drop)]
pub struct PageEnd {
    /// The number of the state in which it ends.
    pub node: usize,
    pub end: RunEnd,
}

// ---- what is known of an end

/// How a run ends that leads to a state.
fn ending_at(alloc: Global, core: &Core<'_>) -> Result<Ending, AllocError>
    ensures { IfOk result (λ e. e ≡ spec.ending_at core.now.world) }
{
    let ended = core.outcome(alloc)?;
    match ended {
        None => Ok(Ending::Cut),
        Some(outcome) => Ok(Ending::Ended(outcome)),
    }
}

/// The requests that are lost where a run ends so.
fn lost_at(alloc: Global, core: &Core<'_>, ending: &Ending) -> Result<LossList, AllocError>
    ensures { IfOk result (λ lost. lost ≡ spec.lost_at core.now.program core.now.world ending.now) }
{
    match ending {
        Ending::Cut => Ok(LossList {
            items: Vec::new(alloc),
        }),
        Ending::Ended(_) => {
            let items = all_losses(alloc, core)?;
            Ok(LossList { items })
        }
    }
}

/// How a run ends that leads to a state, but for where that was decided.
fn end_here(alloc: Global, core: &Core<'_>) -> Result<RunEnd, AllocError>
    ensures ending { IfOk result (λ e. e.ending ≡ spec.ending_at core.now.world) }
    ensures end { IfOk result (λ e. e.end ≡ end_there core.now.program core.now.world (spec.ending_at core.now.world)) }
    ensures lost { IfOk result (λ e. e.lost ≡ spec.lost_at core.now.program core.now.world (spec.ending_at core.now.world)) }
{
    let ending = ending_at(alloc, core)?;
    let lost = lost_at(alloc, core, &ending)?;
    let end = end_of(alloc, core, &ending)?;
    Ok(RunEnd {
        ending,
        end,
        lost,
        decided: None,
    })
}

/// How many steps a run has at most, from the start, if `taken` of them are taken.
fn limit_of(taken: usize) -> usize
    requires { taken ≤ STEPS_MAX }
    ensures value { result ≡ spec.run_limit taken }
    ensures within { taken ≤ result }
    ensures few { result ≤ STEPS_MAX }
{
    if STEPS_MAX - taken < FUEL {
        STEPS_MAX
    } else {
        taken + FUEL
    }
}

/// Where it was decided how the run of a debugger ends, as far as a search tells it that visits
/// `most` states at most. On return the debugger is on the way back along its run.
fn decided(alloc: Global, whole: &mut Debugger<'_>, most: usize) -> Result<PlacedBlame, AllocError>
    requires clean { length whole.old.trail.steps ≡ whole.old.trail.depth }
    ensures { IfOk result (IsBlamed most (spec.run_limit (length whole.old.trail.steps)) whole.old.trail.program whole.old.trail.mode whole.old.trail.steps) }
{
    whole.state_is_reached();
    let limits = StateLimits {
        fuel: limit_of(whole.depth()),
        kept: STATES_KEPT,
        visited: most,
        witnesses: Witnesses::OfNone,
        until: None,
    };
    let blame = blame_run(alloc, whole, limits)?;
    Ok(place_blame(whole.core(), blame))
}

/// That, of a run that hangs or traps; nothing of another.
fn decided_if(
    alloc: Global,
    whole: &mut Debugger<'_>,
    ending: &Ending,
    most: usize,
) -> Result<Option<PlacedBlame>, AllocError>
    requires clean { length whole.old.trail.steps ≡ whole.old.trail.depth }
    ensures { IfOk result (DecidesIf most (meets Bad ending.now) whole.old.trail.program whole.old.trail.mode whole.old.trail.steps) }
{
    if !Goal::Bad.is_met(ending) {
        return Ok(None);
    }
    let blame = decided(alloc, whole, most)?;
    Ok(Some(blame))
}

/// How the run of a debugger ends; the step that decides is looked for in so many states at most.
/// The debugger is left on the way back along its run.
fn end_in(alloc: Global, whole: &mut Debugger<'_>, most: usize) -> Result<RunEnd, AllocError>
    requires clean { length whole.old.trail.steps ≡ whole.old.trail.depth }
    ensures { IfOk result (IsEndIn most whole.old.trail.program whole.old.trail.mode whole.old.world whole.old.trail.steps) }
{
    let mut end = end_here(alloc, whole.core())?;
    match decided_if(alloc, whole, &end.ending, most) {
        Ok(decided) => {
            end.decided = decided;
            Ok(end)
        }
        Err(refused) => {
            drop(end);
            Err(refused)
        }
    }
}

// ---- what is added

/// Adds the end of the run of a debugger, in the state of this number; the step that decides is
/// looked for in so many states at most. The debugger is left on the way back along its run.
#[tactic(auto, using(crate::proofs::EndLemmas::ending))]
pub(crate) fn push_end(
    whole: &mut Debugger<'_>,
    ends: &mut Vec<PageEnd>,
    node: usize,
    most: usize,
) -> Result<(), AllocError>
    ensures { OnOk result (EndAdded most whole.old.trail.program whole.old.trail.mode node (done_steps whole.old.trail) ends.old.items ends.new.items) }
{
    whole.state_is_reached();
    whole.forget_undone();
    let end = end_in(*ends.allocator(), whole, most)?;
    ends.push(PageEnd { node, end })?;
    Ok(())
}

// ---- what is told of it

/// What is told of an end, given the declarations and the marks of the script.
pub(crate) fn told_words(
    alloc: Global,
    decls: &[Decl],
    marks: Marks<'_>,
    end: &End,
) -> Result<String, AllocError> {
    let mut told = String::new(alloc);
    push_told(&mut told, decls, marks, end)?;
    Ok(told)
}

/// What is told of the requests that are lost.
pub(crate) fn lost_words(
    alloc: Global,
    marks: Marks<'_>,
    lost: &[Loss],
) -> Result<String, AllocError> {
    let mut told = String::new(alloc);
    push_losses(&mut told, marks, lost)?;
    Ok(told)
}

/// What is told of where it was decided; nothing if that was not looked for.
pub(crate) fn decided_words(
    alloc: Global,
    marks: Marks<'_>,
    decided: Option<PlacedBlame>,
) -> Result<String, AllocError> {
    let mut told = String::new(alloc);
    if let Some(blame) = decided {
        write!(told, "{}", MarkedBlame(blame, marks))?;
    }
    Ok(told)
}
