//! What a client asks (docs/SESSIONS.md, "Requests").

use mpd_model::{Breakpoint, CallId, Step};

/// What a client is told of the script, of all ranks and of steps (docs/SESSIONS.md, "Looks"); nothing changes by it.
#[derive(Clone, Copy)]
pub enum Look {
    /// Tell what the script declares, and where its statements stand.
    Script,
    /// Tell where each rank stands, and which can go on.
    Where,
    /// Tell that, and what each rank holds.
    All,
    /// Tell what comes next.
    Decision,
    /// List steps that are taken or ahead.
    Steps {
        /// How many stand before the first of them.
        from: usize,
        /// How many at most, 1 to 1,000,000.
        count: usize,
    },
    /// List the lines of the calls of this rank, and the calls that these were matched with.
    Lines(usize),
    /// Explain how the run has ended.
    Explain,
}

/// A command with its fields (docs/SESSIONS.md, "Requests"); numbers are as they were given, also
/// if a session refuses them.
#[derive(Clone, Copy)]
pub enum Command {
    /// Take this step.
    Step(Step),
    /// Take the step that comes next: at a choice the candidate of this number, from 0.
    Next(Option<usize>),
    /// Run along decisions, up to a choice, an end, a breakpoint, or this many steps, 1 to
    /// 1,000,000.
    Run(usize),
    /// Run so, but take the single candidate of a choice as if it were forced.
    RunOn(usize),
    /// Take this many steps back, 1 to 1,000,000.
    Back(usize),
    /// Take this many undone steps again, 1 to 1,000,000.
    Redo(usize),
    /// Take steps back until this many are left.
    Goto(usize),
    /// Run back to a step that hits a breakpoint, or to the start.
    RunBack,
    /// List the steps that are enabled.
    Enabled,
    /// Tell where the session stands.
    State,
    /// Tell what this rank holds; ranks count from 0.
    Vars(usize),
    /// List the calls of this rank.
    Calls(usize),
    /// List what this call could be matched with, and what holds each of these back.
    Why(CallId),
    /// Set this breakpoint.
    Break(Breakpoint),
    /// Remove the breakpoint of this number, 0 to 63.
    Unbreak(usize),
    /// List the breakpoints.
    Breaks,
    /// Tell which breakpoint the last step hits.
    Hit,
    /// List the runs from here, in the order of their choices.
    Explore {
        /// How many at most, 1 to 65,536.
        runs: usize,
        /// How many steps each takes at most, 1 to 1,000,000 less the depth.
        fuel: usize,
    },
    /// Look at something else.
    Look(Look),
}

/// What a client asks: a command, and which version it is for, if it names one.
#[derive(Clone, Copy)]
pub struct Request {
    /// What is to be done.
    pub command: Command,
    /// The version that the session must have, if one is given.
    pub at: Option<u64>,
}
