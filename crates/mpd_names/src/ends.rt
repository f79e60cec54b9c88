//! How a run has ended, for people: by ranks and lines (docs/CONSOLE.md, "Ends").

use crate::line::Marks;
use crate::placed::statement_line;
use mpd_model::{IssuedCall, Outcome, TrappedRank};
use std::alloc::AllocError;

/// Adds a rank, and the line of its statement of a number, after `before`.
fn push_at(
    out: &mut String,
    lines: &[usize],
    marks: Marks<'_>,
    before: &str,
    rank: usize,
    statement: usize,
) -> Result<(), AllocError> {
    let line = marks.line(statement_line(lines, Some(statement)));
    write!(out, "{before}rank {rank} at line {line}")
}

/// Adds where a rank is trapped, and why, after `before`.
fn push_trapped(
    out: &mut String,
    lines: &[usize],
    marks: Marks<'_>,
    before: &str,
    trapped: TrappedRank,
) -> Result<(), AllocError> {
    push_at(out, lines, marks, before, trapped.rank, trapped.statement)?;
    let name = trapped.trap.name();
    write!(out, " ({name})")
}

/// Adds the places of calls, with a comma between two.
fn push_calls(
    out: &mut String,
    lines: &[usize],
    marks: Marks<'_>,
    calls: &[IssuedCall],
) -> Result<(), AllocError> {
    let mut before = ": ";
    for call in calls {
        push_at(out, lines, marks, before, call.id.rank, call.statement)?;
        before = ", ";
    }
    Ok(())
}

/// Adds the places of trapped ranks, with a comma between two.
fn push_traps(
    out: &mut String,
    lines: &[usize],
    marks: Marks<'_>,
    traps: &[TrappedRank],
) -> Result<(), AllocError> {
    let mut before = ": ";
    for trapped in traps {
        push_trapped(out, lines, marks, before, *trapped)?;
        before = ", ";
    }
    Ok(())
}

/// How a run has ended, in a word: `done`, `leftovers`, `deadlock` or `trap`.
pub fn end_name(outcome: &Outcome) -> &'static str {
    match outcome {
        Outcome::Done => "done",
        Outcome::Leftovers(_) => "leftovers",
        Outcome::Deadlock(_) => "deadlock",
        Outcome::Trap(_) => "trap",
    }
}

/// Adds which ranks that is about, and their lines, given the line of each statement and the marks
/// of the script. `Err` means that memory was refused.
pub fn push_end_places(
    out: &mut String,
    lines: &[usize],
    marks: Marks<'_>,
    outcome: &Outcome,
) -> Result<(), AllocError> {
    match outcome {
        Outcome::Done => Ok(()),
        Outcome::Leftovers(calls) | Outcome::Deadlock(calls) => {
            push_calls(out, lines, marks, &calls.items)
        }
        Outcome::Trap(traps) => push_traps(out, lines, marks, &traps.items),
    }
}

/// Adds how a run has ended, and where. `Err` means that memory was refused.
pub fn push_end(
    out: &mut String,
    lines: &[usize],
    marks: Marks<'_>,
    outcome: &Outcome,
) -> Result<(), AllocError> {
    out.push_str(end_name(outcome))?;
    push_end_places(out, lines, marks, outcome)
}
