//! The words of the console that the moves of an editor stand for (docs/ADAPTER.md, "Moves").

ghost use Rattle.std.specs.Prelude.{◌≡◌, ◌++◌, ◌<◌, [], IfOk, OnOk, length};
ghost use Rattle.mpd_model.specs.runs.Decisions.{decision};
ghost use Rattle.mpd_vocabulary.specs.declared.word.Word.TheVariants as word;
ghost use Rattle.mpd_runs.specs.LastChoice.{last_stop};
ghost use Rattle.mpd_adapter.specs.Moves as spec;

use mpd_core::Core;
use mpd_model::{Decision, STEPS_MAX, Step};
use mpd_policy::decide;
use mpd_runs::last_stop;
use mpd_session::Session;
use mpd_trail::Debugger;
use mpd_vocabulary::Word;
use std::alloc::{AllocError, Global};

/// What a session stands still after.
#[derive(Clone, Copy)]
pub enum After {
    /// A run, forward or back, that a message about this rank asked for, from 0.
    Run(usize),
    /// A step, or some, that a message about this rank asked for, from 0.
    Step(usize),
    /// Any other word.
    Jump,
}

/// What an editor asks to be done, about a rank, from 0.
#[derive(Clone, Copy)]
pub enum Move {
    /// Go on.
    Continue(usize),
    /// Go on to the next line of the rank.
    Next(usize),
    /// Take one step: the candidate of this number, from 1, if there is one.
    StepIn {
        /// The rank, from 0.
        rank: usize,
        /// The number of the candidate, from 1.
        target: Option<usize>,
    },
    /// Go on until the rank's call is over.
    StepOut(usize),
    /// Go back by a line of the rank.
    StepBack(usize),
    /// Go back to where a run would have stopped.
    ReverseContinue(usize),
    /// Go back to the start.
    Restart,
}

impl Move {
    /// What the session stands still after, once it is done.
    pub fn after(self) -> After
        ensures { result ≡ spec.after self }
    {
        match self {
            Move::Continue(rank) | Move::ReverseContinue(rank) => After::Run(rank),
            Move::Next(rank) | Move::StepOut(rank) | Move::StepBack(rank) => After::Step(rank),
            Move::StepIn { rank, target: _ } => After::Step(rank),
            Move::Restart => After::Jump,
        }
    }
}

/// Whether a rank, from 0, takes part in a step: by its send or its receive, or by a step of its own.
pub(crate) fn takes_part(rank: usize, step: Step) -> bool
    ensures { result ≡ spec.takes_part rank step }
{
    match step {
        Step::Local(other) | Step::Wake(other) => other == rank,
        Step::WakeAny { rank: other, .. } => other == rank,
        Step::Match(send, recv) => send.rank == rank || recv.rank == rank,
        Step::Release => false,
    }
}

/// Adds the number, from 1, of the candidate at a place if the rank takes part in it.
fn push_own(
    numbers: &mut Vec<usize>,
    rank: usize,
    candidates: &[Step],
    place: usize,
) -> Result<(), AllocError>
    requires { place < length candidates.now }
    ensures { OnOk result (numbers.new.items ≡ numbers.old.items ++ spec.own_at rank candidates.now place) }
{
    if takes_part(rank, candidates[place]) {
        numbers.push(place + 1)?;
    }
    Ok(())
}

/// The numbers, from 1, of the candidates in which a rank takes part. An `Err` is want of memory.
pub(crate) fn own_among(
    alloc: Global,
    rank: usize,
    candidates: &[Step],
) -> Result<Vec<usize>, AllocError>
    ensures { IfOk result (λ numbers. numbers.items ≡ spec.own_among rank candidates.now) }
{
    let mut numbers = Vec::new(alloc);
    let count = candidates.len();
    for place in 0..count {
        push_own(&mut numbers, rank, candidates, place)?;
    }
    Ok(numbers)
}

/// The candidates of a choice that is open, which has two at least; else none.
pub(crate) fn open_among(decided: &Decision) -> &[Step]
    ensures { result.now ≡ spec.open_among decided.now }
{
    match decided {
        Decision::Choice(candidates) if candidates.items.len() >= 2 => &candidates.items,
        _ => &[],
    }
}

/// The numbers, from 1, of the candidates that are open and in which a rank takes part. An `Err` is want of memory.
pub(crate) fn own_candidates(
    alloc: Global,
    core: &Core<'_>,
    rank: usize,
) -> Result<Vec<usize>, AllocError>
    ensures { IfOk result (λ numbers. numbers.items ≡ spec.own_candidates core.now.world rank) }
{
    let decided = decide(alloc, core)?;
    own_among(alloc, rank, open_among(&decided))
}

/// What `stepIn` stands for if it names no candidate, by the numbers of those in which its rank takes part.
fn step_alone(numbers: &[usize]) -> Word
    ensures { result ≡ spec.step_alone numbers.now }
{
    match numbers {
        [number] => Word::Next(Some(*number)),
        _ => Word::Next(None),
    }
}

/// What `stepIn` stands for.
fn step_in(
    alloc: Global,
    core: &Core<'_>,
    rank: usize,
    target: Option<usize>,
) -> Result<Word, AllocError>
    ensures { IfOk result (λ word. word ≡ spec.step_in core.now.world rank target) }
{
    match target {
        Some(number) => Ok(Word::Next(Some(number))),
        None => {
            let numbers = own_candidates(alloc, core, rank)?;
            Ok(step_alone(&numbers))
        }
    }
}

/// Where to go back to, by where a run would have stopped last before: there, or to the start.
fn stop_depth(found: Option<usize>) -> usize
    ensures { result ≡ spec.stop_depth found }
{
    match found {
        Some(depth) => depth,
        None => 0,
    }
}

/// What `reverseContinue` stands for. `Err` means that memory was refused.
fn back_to_stop(alloc: Global, session: &Session<'_>) -> Result<Word, AllocError>
    ensures { IfOk result (λ w. w ≡ word.Goto (spec.stop_depth (last_stop session.now.breaks session.now.trail))) }
{
    let found = last_stop(alloc, session.debugger(), session.breaks())?;
    Ok(Word::Goto(stop_depth(found)))
}

/// The word that a move stands for in a session, given its debugger. `Err` means that memory was
/// refused.
pub fn word_for(
    alloc: Global,
    session: &Session<'_>,
    debugger: &Debugger<'_>,
    asked: Move,
) -> Result<Word, AllocError>
    ensures { IfOk result (λ word. word ≡ spec.word_for session.now debugger.now.world asked) }
{
    match asked {
        Move::Continue(_) => Ok(Word::Run(STEPS_MAX)),
        Move::Next(rank) => Ok(Word::UntilRank(rank)),
        Move::StepIn { rank, target } => step_in(alloc, debugger.core(), rank, target),
        Move::StepOut(rank) => Ok(Word::Finish(Some(rank))),
        Move::StepBack(rank) => Ok(Word::BackRank(rank)),
        Move::ReverseContinue(_) => back_to_stop(alloc, session),
        Move::Restart => Ok(Word::Goto(0)),
    }
}

/// The word that a move stands for in a session. An `Err` is want of memory.
#[tactic(auto, using(crate::proofs::SeenLemmas::word_seen))]
pub(crate) fn word_in(alloc: Global, session: &Session<'_>, asked: Move) -> Result<Word, AllocError>
    ensures { IfOk result (λ word. word ≡ spec.word_in session.now asked) }
{
    let debugger = session.debugger();
    debugger.state_is_reached();
    word_for(alloc, session, debugger, asked)
}
