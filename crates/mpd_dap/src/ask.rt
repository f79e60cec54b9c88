//! What a message asks (docs/ADAPTER.md).

use crate::command::Command;
use crate::text::Text;
use std::marker::Model;

/// A breakpoint that is wanted.
#[derive(Drop)]
pub struct Wanted {
    /// The line, as it was given.
    pub line: usize,
    /// The condition, if one was given.
    pub condition: Option<Text>,
}

/// The breakpoints that are wanted, in the order of the message; contracts see a list.
#[derive(Drop)]
pub struct WantedList {
    pub items: Vec<Wanted>,
}

impl Model for WantedList {
    ghost use Rattle.std.specs.Prelude.{List};
    ghost use Rattle.mpd_dap.specs.declared.ask.Wanted.{Wanted};
    ghost use Rattle.mpd_dap.specs.Wants.{wants_code};

    ghost Value = { List Wanted };

    ghost coded = { wants_code };

    ghost view = { λ l. l.items.items };
}

/// How an expression is meant.
#[derive(Clone, Copy)]
pub enum Manner {
    /// As a line of the console: the context is `repl`.
    Line,
    /// As an expression whose value is shown: there is another context, or none.
    Value,
}

/// What a message asks, by its command. Threads, frames, references and targets are numbers as they were given.
#[derive(Drop)]
pub enum Ask {
    /// `initialize`
    Initialize,
    /// `launch`
    Launch {
        /// The path of the script as the editor knows it.
        program: Text,
    },
    /// `configurationDone`
    ConfigurationDone,
    /// `disconnect`
    Disconnect,
    /// `terminate`
    Terminate,
    /// `threads`
    Threads,
    /// `stackTrace`
    StackTrace {
        /// The number of a thread.
        thread: usize,
    },
    /// `scopes`
    Scopes {
        /// The number of a frame.
        frame: usize,
    },
    /// `variables`
    Variables {
        /// The reference.
        reference: usize,
    },
    /// `stepInTargets`
    StepInTargets {
        /// The number of a frame.
        frame: usize,
    },
    /// `exceptionInfo`
    ExceptionInfo {
        /// The number of a thread.
        thread: usize,
    },
    /// `setExceptionBreakpoints`
    SetExceptionBreakpoints,
    /// `pause`
    Pause,
    /// `setBreakpoints`
    SetBreakpoints {
        /// The path of the source.
        path: Text,
        /// The breakpoints that are wanted in it.
        wanted: WantedList,
    },
    /// `continue`
    Continue {
        /// The number of a thread.
        thread: usize,
    },
    /// `next`
    Next {
        /// The number of a thread.
        thread: usize,
    },
    /// `stepIn`
    StepIn {
        /// The number of a thread.
        thread: usize,
        /// The number of a target, if one was given.
        target: Option<usize>,
    },
    /// `stepOut`
    StepOut {
        /// The number of a thread.
        thread: usize,
    },
    /// `stepBack`
    StepBack {
        /// The number of a thread.
        thread: usize,
    },
    /// `reverseContinue`
    ReverseContinue {
        /// The number of a thread.
        thread: usize,
    },
    /// `restart`
    Restart,
    /// `evaluate`
    Evaluate {
        /// The expression, 4,000 bytes at most.
        expression: Text,
        /// How it is meant.
        manner: Manner,
        /// The number of a frame, if one was given.
        frame: Option<usize>,
    },
}

/// A message that is answered.
#[derive(Drop)]
pub struct Message {
    /// Its number, 0 to 18446744073709551615.
    pub seq: u64,
    /// Its command as it stands there, which each response repeats.
    pub name: Text,
    /// The command, or `None` if it is none that is answered (`unknown-command`).
    pub command: Option<Command>,
    /// What it asks; `None` if there is no such command, or a field isn't what it must be (`bad-field`).
    pub ask: Option<Ask>,
}
