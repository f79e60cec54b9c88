//! Breakpoints, and where a run that goes by itself stops.

use crate::comparison::Comparison;

/// What a cell of a rank is compared with.
#[derive(Clone, Copy, Debug, PartialEq, Eq)]
pub struct Condition {
    /// Which cell of the rank, from 0.
    pub cell: usize,
    pub comparison: Comparison,
    /// The number to the right.
    pub value: i64,
}

/// What a run stops after (docs/DEFINITIONS.md, "Breakpoints").
#[derive(Clone, Copy, Debug, PartialEq, Eq)]
pub enum Breakpoint {
    /// A rank comes to a statement of a line.
    Line {
        /// Which line, from 1.
        line: usize,
        /// Which rank, from 0; any where none is given.
        of: Option<usize>,
        /// What holds of a cell of the rank that comes there, if something must.
        when: Option<Condition>,
    },
    /// A cell of a rank changes.
    Change {
        /// Which rank, from 0.
        rank: usize,
        /// Which of its cells, from 0.
        cell: usize,
    },
    /// A handle of a rank changes: it holds another call, or one where it held none, or none where it held one.
    Handle {
        /// Which rank, from 0.
        rank: usize,
        /// Which of its handles, from 0.
        handle: usize,
    },
    /// A call is matched that a statement of a line has issued.
    Match {
        /// Which line, from 1.
        line: usize,
        /// Which rank has issued the call, from 0; any where none is given.
        of: Option<usize>,
    },
    /// This rank, from 0, has taken a step, or goes on, and isn't blocked then.
    Rank(usize),
}

/// Why a run stops.
#[derive(Clone, Copy, Debug, PartialEq, Eq)]
pub enum Cause {
    /// The step before has hit the breakpoint of this number, and none of a lower one.
    Break(usize),
    /// No step is enabled.
    Leaf,
    /// Somebody has to choose.
    Choice,
    /// 1,000,000 steps are not undone.
    Full,
    /// As many steps were made as were asked for.
    Max,
    /// No step is left that could be undone.
    Start,
}

/// How far a run went, and why it stopped.
#[derive(Clone, Copy, Debug, PartialEq, Eq)]
pub struct Stop {
    /// How many steps it made, or undid.
    pub steps: usize,
    pub cause: Cause,
}
