//! What is known of a word before it is done: the step that it takes, and what tells afterwards what
//! its steps brought.

ghost use Rattle.std.specs.Prelude.{◌≡◌, IfOk, slice_get};
ghost use Rattle.mpd_model.specs.runs.Decisions.{decision};
ghost use Rattle.mpd_console.specs.Moves as spec;

use crate::moves::{ahead_of, from_one, redo_command, single};
use crate::news::{Known, known_for};
use mpd_model::{Decision, Step};
use mpd_policy::decide;
use mpd_session::Command;
use mpd_trail::Debugger;
use mpd_vocabulary::Word;
use std::alloc::{AllocError, Global};

/// A word, and what is known before it is done.
#[derive(Drop)]
pub struct Lead {
    pub word: Word,
    /// The step that it takes; none if it takes none, or several, or if it isn't known which.
    pub step: Option<Step>,
    /// What tells afterwards what its steps brought.
    pub known: Known,
}

/// The candidate of a number, from 1, where there is a choice to make.
fn candidate(decision: &Decision, number: usize) -> Option<Step>
    ensures { result ≡ spec.candidate number decision.now }
{
    match decision {
        Decision::Choice(steps) => steps.items.get(from_one(number)).copied(),
        Decision::Forced(_) | Decision::Leaf(_) => None,
    }
}

/// The step that is taken next by the candidate of a number, from 1, where none comes next.
fn picked_at(decision: &Decision, number: usize, only: Option<Step>) -> Option<Step>
    ensures { result ≡ spec.picked_at number decision.now only }
{
    match only {
        None => candidate(decision, number),
        Some(_) => None,
    }
}

/// The step that is taken next: the one that lies ahead, else the one that comes next, or the candidate of this number, from 1, at a choice.
fn picked(decision: &Decision, number: Option<usize>, ahead: Option<Step>) -> Option<Step>
    ensures { result ≡ spec.picked ahead number decision.now }
{
    match number {
        None => ahead.or(single(decision)),
        Some(number) => picked_at(decision, number, single(decision)),
    }
}

/// The step that `next` takes, where it takes one.
fn next_step(
    alloc: Global,
    debugger: &Debugger<'_>,
    number: Option<usize>,
) -> Result<Option<Step>, AllocError>
    ensures { IfOk result (λ step. step ≡ spec.picked (slice_get debugger.now.trail.steps debugger.now.trail.depth) number (decision debugger.now.world)) }
{
    let decision = decide(alloc, debugger.core())?;
    Ok(picked(&decision, number, debugger.next_undone()))
}

/// The step that is taken again by a request for one.
fn redone_step(debugger: &Debugger<'_>, command: Command) -> Option<Step>
    ensures { result ≡ spec.redone_step debugger.now.trail command }
{
    match command {
        Command::Redo(1) => debugger.next_undone(),
        _ => None,
    }
}

/// The step that a word takes, where it takes one that can be told before.
fn step_of(alloc: Global, debugger: &Debugger<'_>, word: Word) -> Result<Option<Step>, AllocError>
    ensures { IfOk result (λ step. step ≡ spec.step_for debugger.now.trail debugger.now.world word) }
{
    match word {
        Word::Next(number) => next_step(alloc, debugger, number),
        Word::Redo(count) => Ok(redone_step(debugger, redo_command(debugger, count))),
        Word::Step(step) => Ok(Some(step)),
        _ => Ok(None),
    }
}

/// Whether a step is taken in the place of the one that lies ahead.
fn leaves_way(ahead: Option<Step>, taken: Option<Step>) -> bool
    ensures { result ≡ spec.leaves_way ahead taken }
{
    match (ahead, taken) {
        (Some(ahead), Some(taken)) => ahead != taken,
        _ => false,
    }
}

/// How many steps that lie ahead are gone by a step.
fn gone_by(debugger: &Debugger<'_>, taken: Option<Step>) -> usize
    ensures { result ≡ spec.gone_by debugger.now.trail taken }
{
    if leaves_way(debugger.next_undone(), taken) {
        ahead_of(debugger)
    } else {
        0
    }
}

/// A word, and what is known before it is done. An `Err` is want of memory.
pub fn lead_of(alloc: Global, debugger: &Debugger<'_>, word: Word) -> Result<Lead, AllocError>
    ensures { IfOk result (λ lead. lead ≡ spec.lead_of debugger.now.trail debugger.now.world word) }
{
    let step = step_of(alloc, debugger, word)?;
    let gone = gone_by(debugger, step);
    let known = known_for(alloc, debugger, word, gone)?;
    Ok(Lead { word, step, known })
}
