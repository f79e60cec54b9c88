//! What a message comes to, by its command, its fields and whether a `launch` was answered (docs/ADAPTER.md).

ghost use Rattle.std.specs.Prelude.{◌≡◌};
ghost use Rattle.mpd_adapter.specs.Tasks as spec;

use crate::moves::Move;
use crate::numbers::{Shelf, rank_of_thread, shelf_of};
use mpd_dap::{Ask, Command, Manner, Message, Refusal};

/// What changes nothing.
#[derive(Clone, Copy)]
pub enum Look {
    /// What the adapter can.
    Capabilities,
    /// Nothing is told.
    Nothing,
    /// The threads.
    Threads,
    /// The frame of this rank, from 0.
    Stack(usize),
    /// The scopes of this rank, from 0.
    Scopes(usize),
    /// What a rank holds in a scope.
    Variables(Shelf),
    /// The candidates that are open and in which this rank takes part, from 0.
    Targets(usize),
    /// How the run has ended.
    Exception,
}

/// What a message comes to. Ranks count from 0.
#[derive(Clone, Copy)]
pub enum Task {
    /// It is refused.
    Refused(Refusal),
    /// It changes nothing.
    Looks(Look),
    /// The script has a path from now on.
    Launches,
    /// All threads are told, and where they stand.
    Begins,
    /// The session ends.
    Ends,
    /// Breakpoints are set in the place of those of kind `line`.
    Marks,
    /// It stands for a word of the console.
    Moves(Move),
    /// It is a line of the console.
    Types,
    /// What an expression comes to is told, of this rank, from 0, or of all.
    Values(Option<usize>),
}

/// Why a command that comes too early, or too late, is refused, given whether a `launch` was answered.
fn untimely(is_launched: bool, command: Command) -> Option<Refusal>
    ensures { result ≡ spec.untimely is_launched command }
{
    match command {
        Command::Launch if is_launched => Some(Refusal::Launched),
        Command::Initialize | Command::Launch | Command::Disconnect | Command::Terminate => None,
        _ if is_launched => None,
        _ => Some(Refusal::NotLaunched),
    }
}

/// What a look comes to, if its number names something.
fn looking(look: Option<Look>) -> Task
    ensures { result ≡ spec.looking look }
{
    match look {
        None => Task::Refused(Refusal::BadNumber),
        Some(look) => Task::Looks(look),
    }
}

/// What it comes to that is asked how the run has ended, if the thread is there.
fn explaining(rank: Option<usize>) -> Task
    ensures { result ≡ spec.explaining rank }
{
    match rank {
        None => Task::Refused(Refusal::BadNumber),
        Some(_) => Task::Looks(Look::Exception),
    }
}

/// What a move comes to, if its thread is there.
fn moving(asked: Option<Move>) -> Task
    ensures { result ≡ spec.moving asked }
{
    match asked {
        None => Task::Refused(Refusal::BadNumber),
        Some(asked) => Task::Moves(asked),
    }
}

/// What `stepIn` comes to, by its rank if that is there.
fn stepping(rank: Option<usize>, target: Option<usize>) -> Task
    ensures { result ≡ spec.stepping rank target }
{
    match rank {
        None => Task::Refused(Refusal::BadNumber),
        Some(rank) => Task::Moves(Move::StepIn { rank, target }),
    }
}

/// What an expression that is meant so comes to, of a rank or of all.
fn valuing(manner: Manner, rank: Option<usize>) -> Task
    ensures { result ≡ spec.valuing manner rank }
{
    match manner {
        Manner::Line => Task::Types,
        Manner::Value => Task::Values(rank),
    }
}

/// What `evaluate` comes to, of so many ranks.
fn evaluating(ranks: usize, manner: Manner, frame: Option<usize>) -> Task
    ensures { result ≡ spec.evaluating ranks manner frame }
{
    let Some(frame) = frame else {
        return valuing(manner, None);
    };
    match rank_of_thread(frame, ranks) {
        None => Task::Refused(Refusal::BadNumber),
        Some(rank) => valuing(manner, Some(rank)),
    }
}

/// What is asked comes to, of so many ranks.
fn asked_task(ranks: usize, ask: &Ask) -> Task
    ensures { result ≡ spec.asked_task ranks ask.now }
{
    match ask {
        Ask::Initialize => Task::Looks(Look::Capabilities),
        Ask::Launch { program: _ } => Task::Launches,
        Ask::ConfigurationDone => Task::Begins,
        Ask::Disconnect | Ask::Terminate => Task::Ends,
        Ask::Threads => Task::Looks(Look::Threads),
        Ask::StackTrace { thread } => looking(rank_of_thread(*thread, ranks).map(Look::Stack)),
        Ask::Scopes { frame } => looking(rank_of_thread(*frame, ranks).map(Look::Scopes)),
        Ask::Variables { reference } => looking(shelf_of(*reference, ranks).map(Look::Variables)),
        Ask::StepInTargets { frame } => looking(rank_of_thread(*frame, ranks).map(Look::Targets)),
        Ask::ExceptionInfo { thread } => explaining(rank_of_thread(*thread, ranks)),
        Ask::SetExceptionBreakpoints | Ask::Pause => Task::Looks(Look::Nothing),
        Ask::SetBreakpoints { path: _, wanted: _ } => Task::Marks,
        Ask::Evaluate {
            expression: _,
            manner,
            frame,
        } => evaluating(ranks, *manner, *frame),
        Ask::Continue { thread } => moving(rank_of_thread(*thread, ranks).map(Move::Continue)),
        Ask::Next { thread } => moving(rank_of_thread(*thread, ranks).map(Move::Next)),
        Ask::StepIn { thread, target } => stepping(rank_of_thread(*thread, ranks), *target),
        Ask::StepOut { thread } => moving(rank_of_thread(*thread, ranks).map(Move::StepOut)),
        Ask::StepBack { thread } => moving(rank_of_thread(*thread, ranks).map(Move::StepBack)),
        Ask::ReverseContinue { thread } => {
            moving(rank_of_thread(*thread, ranks).map(Move::ReverseContinue))
        }
        Ask::Restart => Task::Moves(Move::Restart),
    }
}

/// What a message comes to, of so many ranks, given whether a `launch` was answered.
pub(crate) fn task_of(ranks: usize, is_launched: bool, message: &Message) -> Task
    ensures { result ≡ spec.task_of ranks is_launched message.now }
{
    let Some(command) = message.command else {
        return Task::Refused(Refusal::UnknownCommand);
    };
    if let Some(refusal) = untimely(is_launched, command) {
        return Task::Refused(refusal);
    }
    match &message.ask {
        None => Task::Refused(Refusal::BadField),
        Some(ask) => asked_task(ranks, ask),
    }
}
