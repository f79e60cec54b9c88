//! What words do with the session (docs/CONSOLE.md, "Words that move").

ghost use Rattle.std.specs.Prelude.{◌≡◌, IfOk};
ghost use Rattle.mpd_policy.specs.Single.{single};
ghost use Rattle.mpd_console.specs.Moves as spec;
ghost use Rattle.mpd_console.specs.Onward.{begins};

use crate::along::{Along, Goal};
use crate::onward::{
    back_rank_doing, finish_doing, finish_rank, onward, until_doing, until_rank_doing,
};
use mpd_model::{Decision, STEPS_MAX, Step};
use mpd_policy::{Breaks, only_step, sole};
use mpd_runs::Way;
use mpd_session::Command;
use mpd_trail::Debugger;
use mpd_vocabulary::Word;
use std::alloc::{AllocError, Global};

/// A number of a candidate, from 0, that none has.
pub const NO_CANDIDATE: usize = 1_000_000_000;

/// The number of a candidate from 0, of one from 1.
pub(crate) fn from_one(number: usize) -> usize
    ensures { result ≡ spec.from_one number }
{
    if number == 0 {
        NO_CANDIDATE
    } else {
        number - 1
    }
}

/// What a word does with the session.
#[derive(Clone, Copy)]
pub enum Doing {
    /// It asks for this, which changes something.
    Asks(Command),
    /// It goes along steps ahead.
    Goes(Along),
    /// It goes back to the last choice.
    Undoes,
    /// It looks for the first run that ends so, and lays its steps ahead.
    Seeks(Way),
    /// It lays the steps of the run of this number ahead.
    Follows(usize),
    /// It goes to the step that decided how the run ends.
    Blames,
    /// It changes nothing.
    Looks,
}

/// How many steps are undone.
pub(crate) fn ahead_of(debugger: &Debugger<'_>) -> usize
    ensures { result ≡ spec.ahead_of debugger.now.trail }
{
    debugger.steps().len().saturating_sub(debugger.depth())
}

/// The step that comes next by a decision: a forced one, or the single candidate of a choice.
pub(crate) fn single(decision: &Decision) -> Option<Step>
    ensures { result ≡ single decision.now }
{
    match decision {
        Decision::Forced(step) => Some(*step),
        Decision::Choice(steps) => sole(&steps.items),
        Decision::Leaf(_) => None,
    }
}

/// What `next` asks for alone if no step lies ahead, where it is known whether one comes next.
fn next_alone(comes: bool) -> Command
    ensures { result ≡ spec.next_alone comes }
{
    if comes {
        return Command::Next(Some(0));
    }
    Command::Next(None)
}

/// What `next` asks for alone: the step that lies ahead, else the one that comes next, or at a choice a candidate.
fn next_one(alloc: Global, debugger: &Debugger<'_>) -> Result<Command, AllocError>
    ensures { IfOk result (λ c. c ≡ spec.next_one debugger.now.trail debugger.now.world) }
{
    if debugger.next_undone().is_some() {
        return Ok(Command::Redo(1));
    }
    let comes = only_step(alloc, debugger.core())?.is_some();
    Ok(next_alone(comes))
}

/// What `next` does: it takes the step that comes next, or with a number goes on as `run` does; at a choice it takes a candidate, or the step
/// that lies ahead.
fn next_doing(
    alloc: Global,
    debugger: &Debugger<'_>,
    breaks: &Breaks,
    number: Option<usize>,
) -> Result<Doing, AllocError>
    ensures { IfOk result (λ doing. doing ≡ spec.next_doing debugger.now.trail debugger.now.world breaks.now number) }
{
    let Some(number) = number else {
        return Ok(Doing::Asks(next_one(alloc, debugger)?));
    };
    if only_step(alloc, debugger.core())?.is_some() {
        return run_doing(alloc, debugger, breaks, Word::Next(Some(number)), number);
    }
    Ok(Doing::Asks(Command::Next(Some(from_one(number)))))
}

/// What a word does that goes on by so many steps, as `run` does; none, and more than are kept, are refused as a run on by so many is.
fn run_doing(
    alloc: Global,
    debugger: &Debugger<'_>,
    breaks: &Breaks,
    word: Word,
    max: usize,
) -> Result<Doing, AllocError>
    ensures { IfOk result (λ doing. doing ≡ spec.run_doing debugger.now.trail debugger.now.world breaks.now word max) }
{
    if 1 <= max && max <= STEPS_MAX {
        return onward(alloc, debugger, breaks, word, Goal::Steps(max));
    }
    Ok(Doing::Asks(Command::RunOn(max)))
}

/// What `redo` asks for: no more steps than lie ahead, where one does.
pub(crate) fn redo_command(debugger: &Debugger<'_>, count: usize) -> Command
    ensures { result ≡ spec.redo_command debugger.now.trail count }
{
    let ahead = ahead_of(debugger);
    if ahead > 0 && count > ahead {
        return Command::Redo(ahead);
    }
    Command::Redo(count)
}

/// What `goto` asks for: to go back, or along the steps that lie ahead.
pub fn goto_command(debugger: &Debugger<'_>, depth: usize) -> Command
    ensures { result ≡ spec.goto_command debugger.now.trail depth }
{
    let here = debugger.depth();
    if depth > here && depth - here <= ahead_of(debugger) {
        return Command::Redo(depth - here);
    }
    Command::Goto(depth)
}

/// What a word does with the session of a debugger, given the breakpoints that are set. An `Err` is want of memory.
pub fn doing_of(
    alloc: Global,
    debugger: &Debugger<'_>,
    breaks: &Breaks,
    word: Word,
) -> Result<Doing, AllocError>
    ensures { IfOk result (λ doing. doing ≡ spec.doing_of debugger.now.trail debugger.now.world breaks.now word) }
{
    match word {
        Word::Next(number) => next_doing(alloc, debugger, breaks, number),
        Word::Run(max) => run_doing(alloc, debugger, breaks, word, max),
        Word::Until(line) => until_doing(alloc, debugger, breaks, line),
        Word::UntilRank(rank) => until_rank_doing(alloc, debugger, breaks, rank),
        Word::Finish(rank) => finish_doing(alloc, debugger, breaks, finish_rank(debugger, rank)),
        Word::Back(count) => Ok(Doing::Asks(Command::Back(count))),
        Word::BackRank(rank) => Ok(back_rank_doing(debugger, rank)),
        Word::RunBack => Ok(Doing::Asks(Command::RunBack)),
        Word::UndoChoice => Ok(Doing::Undoes),
        Word::Goto(depth) => Ok(Doing::Asks(goto_command(debugger, depth))),
        Word::Redo(count) => Ok(Doing::Asks(redo_command(debugger, count))),
        Word::Step(step) => Ok(Doing::Asks(Command::Step(step))),
        Word::Break(stop) => Ok(Doing::Asks(Command::Break(stop))),
        Word::Delete(number) => Ok(Doing::Asks(Command::Unbreak(number))),
        Word::Follow(number) => Ok(Doing::Follows(number)),
        Word::Deadlock => Ok(Doing::Seeks(Way::Deadlock)),
        Word::Trap => Ok(Doing::Seeks(Way::Trap)),
        Word::Blame => Ok(Doing::Blames),
        Word::Breaks
        | Word::List(_)
        | Word::Print(_, _)
        | Word::Vars(_)
        | Word::Ranks
        | Word::Calls(_)
        | Word::Queues
        | Word::WhyCall(_)
        | Word::WhyRank(_)
        | Word::History(_)
        | Word::Picture
        | Word::Check(_)
        | Word::Words
        | Word::Enabled
        | Word::Show
        | Word::Help(_)
        | Word::Quit => Ok(Doing::Looks),
    }
}

/// Whether a statement begins at a line, given the line of each.
pub(crate) fn begins(lines: &[usize], line: usize) -> bool
    ensures { result ≡ begins lines.now line }
{
    lines.iter().any(|other| *other == line)
}
