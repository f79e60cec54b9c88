//! Scripts, lines, calls, steps and counts.

use mpd_code::Code;
use mpd_explain::PlacedStep;
use mpd_explore::Ending;
use mpd_lines::Verdict;
use mpd_model::{CallId, IssuedCall, Mode, Outcome, TrappedRank};
use mpd_names::{Marks, PlacedCall};
use mpd_object::{Object, list};
use mpd_outcomes::Count;
use mpd_runs::WayCounts;
use serde_json::Value;
use std::alloc::{AllocError, Global};

/// A script of which something was found, in a mode.
#[derive(Clone, Copy)]
pub struct ToldScript<'s> {
    pub code: &'s Code,
    pub mode: Mode,
    /// Its text, whose marks name places of a program (docs/FROM_A_RUN.md, "Marks").
    pub text: &'s [u8],
}

/// The line of a statement, 0 if there is none.
fn statement_line(script: ToldScript<'_>, statement: usize) -> usize {
    script.code.lines().get(statement).copied().unwrap_or(0)
}

/// The place that the mark of a line names, or null.
fn place_value(alloc: Global, place: Option<&str>) -> Result<Value, AllocError> {
    match place {
        None => Ok(Value::Null),
        Some(place) => Value::try_from_str(alloc, place),
    }
}

/// An object that has a line, and the place that its mark names.
pub(crate) fn at_line(alloc: Global, script: ToldScript<'_>, line: usize) -> Object {
    let marks = Marks {
        script: script.text,
    };
    let line = marks.line(line);
    Object::new(alloc)
        .number("line", line.number)
        .with("place", place_value(alloc, line.mark))
}

/// An object that has a call, its rank and its line.
fn called(alloc: Global, script: ToldScript<'_>, call: CallId, line: usize) -> Object {
    at_line(alloc, script, line)
        .number("rank", call.rank)
        .shown("call", call)
}

/// The same, with what the call is.
pub(crate) fn at_call(alloc: Global, script: ToldScript<'_>, call: PlacedCall) -> Object {
    let object = called(alloc, script, call.call, call.line);
    match call.kind {
        Some(kind) => object.shown("kind", kind),
        None => object.null("kind"),
    }
}

/// Calls as a list.
pub(crate) fn calls_value(
    alloc: Global,
    script: ToldScript<'_>,
    calls: &[PlacedCall],
) -> Result<Value, AllocError> {
    let mut values = Vec::new(alloc);
    for call in calls {
        values.push(at_call(alloc, script, *call).done()?)?;
    }
    Ok(Value::Array(values))
}

// ---- how a run ends

/// Calls by the statements that issued them, as a list.
fn issued_value(
    alloc: Global,
    script: ToldScript<'_>,
    calls: &[IssuedCall],
) -> Result<Value, AllocError> {
    let mut values = Vec::new(alloc);
    for call in calls {
        let line = statement_line(script, call.statement);
        values.push(called(alloc, script, call.id, line).done()?)?;
    }
    Ok(Value::Array(values))
}

/// Trapped ranks as a list.
fn trapped_value(
    alloc: Global,
    script: ToldScript<'_>,
    ranks: &[TrappedRank],
) -> Result<Value, AllocError> {
    let mut values = Vec::new(alloc);
    for trapped in ranks {
        let line = statement_line(script, trapped.statement);
        let value = at_line(alloc, script, line)
            .number("rank", trapped.rank)
            .text("trap", trapped.trap.name())
            .done()?;
        values.push(value)?;
    }
    Ok(Value::Array(values))
}

/// How a run ends: in a word, and of which calls or ranks.
pub(crate) fn ending_value(
    alloc: Global,
    script: ToldScript<'_>,
    ending: &Ending,
) -> Result<Value, AllocError> {
    let object = Object::new(alloc);
    let object = match ending {
        Ending::Cut => object.text("ends", "cut"),
        Ending::Ended(Outcome::Done) => object.text("ends", "done"),
        Ending::Ended(Outcome::Leftovers(calls)) => object
            .text("ends", "leftovers")
            .with("calls", issued_value(alloc, script, &calls.items)),
        Ending::Ended(Outcome::Deadlock(calls)) => object
            .text("ends", "deadlock")
            .with("calls", issued_value(alloc, script, &calls.items)),
        Ending::Ended(Outcome::Trap(ranks)) => object
            .text("ends", "trap")
            .with("traps", trapped_value(alloc, script, &ranks.items)),
    };
    object.done()
}

// ---- steps

/// A step: its trace word, and the line or the calls that it is about.
pub(crate) fn step_value(
    alloc: Global,
    script: ToldScript<'_>,
    step: PlacedStep,
) -> Result<Value, AllocError> {
    let object = match step {
        PlacedStep::Local { rank, line } => at_line(alloc, script, line).number("rank", rank),
        PlacedStep::Match { send, receive } => Object::new(alloc)
            .with("send", at_call(alloc, script, send).done())
            .with("receive", at_call(alloc, script, receive).done()),
        PlacedStep::Wake(call) => at_call(alloc, script, call),
        PlacedStep::WakeAny { call, request, .. } => {
            let by = match request {
                Some(request) => at_call(alloc, script, request.call).done(),
                None => Ok(Value::Null),
            };
            at_call(alloc, script, call).with("by", by)
        }
        PlacedStep::Release => Object::new(alloc),
    };
    object.shown("step", step.step()).done()
}

// ---- counts

/// How many there are of something: if they can't be counted, as many as can be, at least.
pub(crate) fn count_value(alloc: Global, count: Count, of: &str) -> Result<Value, AllocError> {
    let (number, is_exact) = match count {
        Count::Exactly(number) => (number, true),
        Count::More => (u64::MAX, false),
    };
    Object::new(alloc)
        .with("count", Ok(Value::from(number)))
        .flag("exact", is_exact)
        .text("of", of)
        .done()
}

/// How many of some runs, or of something else that is listed, end in each way.
pub(crate) fn counts_value(
    alloc: Global,
    counts: WayCounts,
    of: &str,
) -> Result<Value, AllocError> {
    Object::new(alloc)
        .with("total", count_value(alloc, counts.total, of))
        .with("done", count_value(alloc, counts.done, of))
        .with("leftovers", count_value(alloc, counts.leftovers, of))
        .with("deadlock", count_value(alloc, counts.deadlock, of))
        .with("trap", count_value(alloc, counts.trap, of))
        .with("cut", count_value(alloc, counts.cut, of))
        .done()
}

// ---- what a report begins with

/// The word of a verdict.
fn verdict_word(verdict: Verdict) -> &'static str {
    match verdict {
        Verdict::Good => "good",
        Verdict::Bad => "bad",
        Verdict::NotWhole => "not_whole",
    }
}

/// With a verdict, and the status that it ends the program with.
pub(crate) fn judged(object: Object, verdict: Verdict) -> Object {
    object
        .text("verdict", verdict_word(verdict))
        .number("status", usize::from(verdict.status()))
}

/// What the object of a report begins with: which report it is, and the mode and how many ranks
/// there are.
pub(crate) fn begun(alloc: Global, report: &str, script: ToldScript<'_>) -> Object {
    Object::new(alloc)
        .text("report", report)
        .shown("mode", script.mode)
        .number("ranks", script.code.ranks())
}
