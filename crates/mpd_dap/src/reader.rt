//! What the arguments of a command ask.

ghost use Rattle.std.specs.Prelude.{◌≡◌, IfOk, option_map, codes};
ghost use Rattle.serde_json.specs.View.{view, items_view};
ghost use Rattle.mpd_dap.specs.Fields.{text_at, optional_number_at};
ghost use Rattle.mpd_dap.specs.Asks as spec;
ghost use Rattle.mpd_dap.specs.declared.ask.Ask.TheVariants as ask;

use crate::ask::{Ask, Manner, Wanted, WantedList};
use crate::command::Command;
use crate::fields::{number_at, optional_number_at, optional_text_at, present, text_at};
use crate::text::Text;
use serde_json::Value;
use std::alloc::{AllocError, Global};

/// Bytes of an expression.
const EXPRESSION_MAX: usize = 4_000;

/// A text of its own.
fn owned(alloc: Global, text: &str) -> Result<Text, AllocError>
    ensures { IfOk result (λ t. t ≡ text.now) }
{
    Ok(Text {
        string: String::from_str(alloc, text)?,
    })
}

/// A text of its own, if there is one.
fn owned_if(alloc: Global, text: Option<&str>) -> Result<Option<Text>, AllocError>
    ensures { IfOk result (λ t. t ≡ option_map (λ s. s.now) text.entry) }
{
    match text {
        None => Ok(None),
        Some(text) => Ok(Some(owned(alloc, text)?)),
    }
}

/// Of `initialize`.
fn initialize_in(arguments: &Value) -> Option<Ask>
    ensures { result ≡ spec.initialize_in (view arguments.now) }
{
    match present(arguments, "linesStartAt1") {
        None => Some(Ask::Initialize),
        Some(value) => match value.as_bool() {
            Some(true) => Some(Ask::Initialize),
            Some(false) | None => None,
        },
    }
}

/// Of `launch`.
fn launch_in(alloc: Global, arguments: &Value) -> Result<Option<Ask>, AllocError>
    ensures { IfOk result (λ a. a ≡ option_map ask.Launch (text_at (codes "program") (view arguments.now))) }
{
    match text_at(arguments, "program") {
        None => Ok(None),
        Some(text) => Ok(Some(Ask::Launch {
            program: owned(alloc, text)?,
        })),
    }
}

/// A breakpoint of the list of `setBreakpoints`.
fn wanted_of(alloc: Global, value: &Value) -> Result<Option<Wanted>, AllocError>
    ensures { IfOk result (λ w. w ≡ spec.wanted_of (view value.now)) }
{
    let Some(line) = number_at(value, "line") else {
        return Ok(None);
    };
    let Some(text) = optional_text_at(value, "condition") else {
        return Ok(None);
    };
    let condition = owned_if(alloc, text)?;
    Ok(Some(Wanted { line, condition }))
}

/// The breakpoints of a list.
fn all_wanted(alloc: Global, values: &[Value]) -> Result<Option<WantedList>, AllocError>
    ensures { IfOk result (λ w. w ≡ spec.all_wanted (items_view values.now)) }
{
    let mut items = Vec::new(alloc);
    for value in values {
        let Some(wanted) = wanted_of(alloc, value)? else {
            return Ok(None);
        };
        items.push(wanted)?;
    }
    Ok(Some(WantedList { items }))
}

/// The breakpoints that are wanted; none of a list that isn't there.
fn wanted_in(alloc: Global, value: Option<&Value>) -> Result<Option<WantedList>, AllocError>
    ensures { IfOk result (λ w. w ≡ spec.wanted_in (option_map (λ v. view v.now) value.entry)) }
{
    match value {
        None => Ok(Some(WantedList {
            items: Vec::new(alloc),
        })),
        Some(value) => match value.as_array() {
            None => Ok(None),
            Some(values) => {
                let wanted = all_wanted(alloc, values)?;
                Ok(wanted)
            }
        },
    }
}

/// The path of the source.
fn path_at(arguments: &Value) -> Option<&str>
    ensures { option_map (λ s. s.now) result ≡ spec.path_at (view arguments.now) }
{
    text_at(arguments.get("source")?, "path")
}

/// Of `setBreakpoints`.
fn set_breakpoints_in(alloc: Global, arguments: &Value) -> Result<Option<Ask>, AllocError>
    ensures { IfOk result (λ a. a ≡ spec.set_breakpoints_in (view arguments.now)) }
{
    let Some(path) = path_at(arguments) else {
        return Ok(None);
    };
    let Some(wanted) = wanted_in(alloc, present(arguments, "breakpoints"))? else {
        return Ok(None);
    };
    match owned(alloc, path) {
        Ok(path) => Ok(Some(Ask::SetBreakpoints { path, wanted })),
        Err(refused) => {
            drop(wanted);
            Err(refused)
        }
    }
}

/// The field `threadId`.
fn thread_at(arguments: &Value) -> Option<usize>
    ensures { result ≡ spec.thread_at (view arguments.now) }
{
    number_at(arguments, "threadId")
}

/// The field `frameId`.
fn frame_at(arguments: &Value) -> Option<usize>
    ensures { result ≡ spec.frame_at (view arguments.now) }
{
    number_at(arguments, "frameId")
}

/// Of `stepIn`.
fn step_in_in(arguments: &Value) -> Option<Ask>
    ensures { result ≡ spec.step_in_with (spec.thread_at (view arguments.now)) (optional_number_at (codes "targetId") (view arguments.now)) }
{
    let thread = thread_at(arguments)?;
    let target = optional_number_at(arguments, "targetId")?;
    Some(Ask::StepIn { thread, target })
}

/// How an expression is meant, by the context.
fn manner_of(context: Option<&str>) -> Manner
    ensures { result ≡ spec.manner_of (option_map (λ s. s.now) context.entry) }
{
    match context {
        Some("repl") => Manner::Line,
        Some(_) | None => Manner::Value,
    }
}

/// The field `expression`, if it isn't too long.
fn expression_at(arguments: &Value) -> Option<&str>
    ensures { option_map (λ s. s.now) result ≡ spec.expression_at (view arguments.now) }
{
    let text = text_at(arguments, "expression")?;
    if text.len() <= EXPRESSION_MAX {
        Some(text)
    } else {
        None
    }
}

/// Of `evaluate`.
fn evaluate_in(alloc: Global, arguments: &Value) -> Result<Option<Ask>, AllocError>
    ensures { IfOk result (λ a. a ≡ spec.evaluate_in (view arguments.now)) }
{
    let Some(text) = expression_at(arguments) else {
        return Ok(None);
    };
    let Some(context) = optional_text_at(arguments, "context") else {
        return Ok(None);
    };
    let Some(frame) = optional_number_at(arguments, "frameId") else {
        return Ok(None);
    };
    Ok(Some(Ask::Evaluate {
        expression: owned(alloc, text)?,
        manner: manner_of(context),
        frame,
    }))
}

/// What the arguments of a command ask that has no text, as `ask_in`; `None` of the others.
#[tactic(auto, unfolding(crate::specs::Asks::number_ask))]
fn number_ask(command: Command, arguments: &Value) -> Option<Ask>
    ensures { result ≡ spec.number_ask command (view arguments.now) }
{
    match command {
        Command::Initialize => initialize_in(arguments),
        Command::ConfigurationDone => Some(Ask::ConfigurationDone),
        Command::Disconnect => Some(Ask::Disconnect),
        Command::Terminate => Some(Ask::Terminate),
        Command::Threads => Some(Ask::Threads),
        Command::SetExceptionBreakpoints => Some(Ask::SetExceptionBreakpoints),
        Command::Pause => Some(Ask::Pause),
        Command::Restart => Some(Ask::Restart),
        Command::StackTrace => Some(Ask::StackTrace {
            thread: thread_at(arguments)?,
        }),
        Command::ExceptionInfo => Some(Ask::ExceptionInfo {
            thread: thread_at(arguments)?,
        }),
        Command::Scopes => Some(Ask::Scopes {
            frame: frame_at(arguments)?,
        }),
        Command::StepInTargets => Some(Ask::StepInTargets {
            frame: frame_at(arguments)?,
        }),
        Command::Variables => Some(Ask::Variables {
            reference: number_at(arguments, "variablesReference")?,
        }),
        Command::Continue => Some(Ask::Continue {
            thread: thread_at(arguments)?,
        }),
        Command::Next => Some(Ask::Next {
            thread: thread_at(arguments)?,
        }),
        Command::StepIn => step_in_in(arguments),
        Command::StepOut => Some(Ask::StepOut {
            thread: thread_at(arguments)?,
        }),
        Command::StepBack => Some(Ask::StepBack {
            thread: thread_at(arguments)?,
        }),
        Command::ReverseContinue => Some(Ask::ReverseContinue {
            thread: thread_at(arguments)?,
        }),
        Command::Launch | Command::SetBreakpoints | Command::Evaluate => None,
    }
}

/// What the arguments of a command ask; `None` if a field isn't what it must be.
#[tactic(auto, unfolding(crate::specs::Asks::ask_in))]
pub(crate) fn ask_in(
    alloc: Global,
    command: Command,
    arguments: &Value,
) -> Result<Option<Ask>, AllocError>
    ensures { IfOk result (λ a. a ≡ spec.ask_in command (view arguments.now)) }
{
    match command {
        Command::Launch => launch_in(alloc, arguments),
        Command::SetBreakpoints => set_breakpoints_in(alloc, arguments),
        Command::Evaluate => evaluate_in(alloc, arguments),
        Command::Initialize
        | Command::ConfigurationDone
        | Command::Disconnect
        | Command::Terminate
        | Command::Threads
        | Command::StackTrace
        | Command::Scopes
        | Command::Variables
        | Command::StepInTargets
        | Command::ExceptionInfo
        | Command::SetExceptionBreakpoints
        | Command::Pause
        | Command::Continue
        | Command::Next
        | Command::StepIn
        | Command::StepOut
        | Command::StepBack
        | Command::ReverseContinue
        | Command::Restart => Ok(number_ask(command, arguments)),
    }
}
