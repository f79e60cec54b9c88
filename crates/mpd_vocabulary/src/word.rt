//! What a line of the console asks for.

use crate::topic::Topic;
use mpd_model::{Breakpoint, CallId, Condition, Step};
use mpd_names::Named;

/// A word with what follows it. Numbers are as they were given, whatever the script has; where one may be left out and is, its usual
/// one stands.
#[derive(Clone, Copy)]
pub enum Word {
    /// Take the step that comes next: at a choice the candidate of this number, from 1; elsewhere so many steps at most.
    Next(Option<usize>),
    /// Go on to a breakpoint, a choice or the end, by so many steps at most.
    Run(usize),
    /// Go on until a rank comes to this line.
    Until(usize),
    /// Go on until this rank has gone on.
    UntilRank(usize),
    /// Go on until the call is over that this rank waits in, or the rank of the last step.
    Finish(Option<usize>),
    /// Take so many steps back.
    Back(usize),
    /// Go back to before the last local step of this rank.
    BackRank(usize),
    /// Go back to a breakpoint, or to the start.
    RunBack,
    /// Go back to the last choice.
    UndoChoice,
    /// Go back until so many steps are left.
    Goto(usize),
    /// Take so many undone steps again.
    Redo(usize),
    /// Take this step.
    Step(Step),
    /// Set this breakpoint.
    Break(Breakpoint),
    /// Remove the breakpoint of this number.
    Delete(usize),
    /// List the breakpoints.
    Breaks,
    /// Show the script, or the lines about this rank.
    List(Option<usize>),
    /// Show what a name stands for, of all ranks or of this one.
    Print(Named, Option<usize>),
    /// Show all variables and requests, of all ranks or of this one.
    Vars(Option<usize>),
    /// Show what each rank is doing.
    Ranks,
    /// List the calls, of all ranks or of this one.
    Calls(Option<usize>),
    /// List the sends and receives that are free.
    Queues,
    /// Say why this call isn't matched.
    WhyCall(CallId),
    /// Say why the calls that all ranks wait for, or this one, aren't matched.
    WhyRank(Option<usize>),
    /// List so many of the last steps.
    History(usize),
    /// Draw the steps that are not undone.
    Picture,
    /// Try the choices from here, so many runs at most.
    Check(usize),
    /// Lay the steps of the run of this number ahead, from 1.
    Follow(usize),
    /// Lay the steps to the first deadlock ahead.
    Deadlock,
    /// Lay the steps to the first trap ahead.
    Trap,
    /// Go to the step that decided how the run ends.
    Blame,
    /// List the steps taken as trace words.
    Words,
    /// List the steps that are enabled.
    Enabled,
    /// Show the whole state.
    Show,
    /// Tell of the words.
    Help(HelpOn),
    /// End.
    Quit,
}

/// When a breakpoint of a line stops, as it is told after the line: `rank 1 if x == 3`.
#[derive(Clone, Copy)]
pub struct When {
    /// The rank before whose steps it stops, from 0; of any if there is none.
    pub of: Option<usize>,
    /// What must hold, if anything must.
    pub condition: Option<Condition>,
}

/// What help is asked for.
#[derive(Clone, Copy)]
pub enum HelpOn {
    /// The words that one needs first.
    First,
    /// All words.
    All,
    /// What a choice is.
    Choice,
    /// This word.
    Word(Topic),
}

/// Why a line asks for nothing that can be done. A word of the line is told by its number, from 0.
#[derive(Clone, Copy)]
pub enum WordFault {
    /// This word of the line is none of the console.
    Unknown(usize),
    /// What follows this word doesn't fit it.
    Usage(Topic),
    /// This word of the line is no name of a variable or a request.
    NoName(usize),
    /// An index is none of its array.
    NoSuchIndex,
    /// An array has no index where one cell is meant.
    NoIndex,
    /// This word of the line begins with no name of a variable or a request, up to an operator.
    NoNameIn(usize),
    /// A request stands where a variable is compared.
    NoValue,
}
