//! What is said of where a debugger stands, and of looks, for people (docs/CONSOLE.md).

use crate::ends::End;
use crate::lost::Loss;
use crate::position::{Ahead, Coming, Position};
use crate::steps::PlacedStep;
use crate::why::{Chances, Fit, Partner, Why, why_of};
use crate::words::{
    MarkedStep, WaitsFor, push_absence, push_candidate, push_end, push_helps, push_losses,
};
use mpd_code::Code;
use mpd_core::Core;
use mpd_model::{CallId, CallKind, Decl, Outcome};
use mpd_names::{
    Issuer, MarkedCall, MarkedStands, Marks, PlacedCall, Stands, can_wake, is_blocked, issue_line,
    push_end as push_outcome, push_source,
};
use mpd_trail::Debugger;
use std::alloc::{AllocError, Global};

/// Adds lines, or one that says that there are none.
fn push_or_none(out: &mut String, none: &str, lines: &str) -> Result<(), AllocError> {
    if lines.is_empty() {
        return write!(out, "{none}\n");
    }
    out.push_str(lines)
}

// ---- where it stands

/// The lines of the script that a step is about: of a match that of the send, and that of the
/// receive if it is another.
fn push_step_source(out: &mut String, text: &[u8], step: &PlacedStep) -> Result<(), AllocError> {
    match *step {
        PlacedStep::Local { rank: _, line } => push_source(out, text, line),
        PlacedStep::Match { send, receive } => {
            push_source(out, text, send.line)?;
            if send.line == receive.line {
                return Ok(());
            }
            push_source(out, text, receive.line)
        }
        PlacedStep::Wake(call) | PlacedStep::WakeAny { call, .. } => {
            push_source(out, text, call.line)
        }
        PlacedStep::Release => Ok(()),
    }
}

/// The steps that are undone.
fn push_ahead(
    out: &mut String,
    text: &[u8],
    marks: Marks<'_>,
    ahead: Ahead,
) -> Result<(), AllocError> {
    let step = MarkedStep(ahead.step, marks);
    write!(out, "{} ahead: {step}\n", ahead.count)?;
    push_step_source(out, text, &ahead.step)
}

/// A choice and its candidates, numbered from 1.
fn push_choice(
    out: &mut String,
    text: &[u8],
    code: &Code,
    marks: Marks<'_>,
    chooser: Option<PlacedCall>,
    candidates: &[PlacedStep],
) -> Result<(), AllocError> {
    out.push_str("stopped at a choice")?;
    if let Some(call) = chooser {
        write!(out, " of {}", Issuer(call, marks))?;
    }
    out.push_str("; next N takes one:\n")?;
    if let Some(call) = chooser {
        push_source(out, text, call.line)?;
    }
    for (place, step) in candidates.iter().enumerate() {
        write!(out, "  {}: ", place.saturating_add(1))?;
        push_candidate(out, code.decls(), marks, chooser.is_some(), step)?;
        out.push('\n')?;
    }
    Ok(())
}

/// The end of a run, what is known of it, and the requests that are lost.
fn push_ended(
    out: &mut String,
    code: &Code,
    marks: Marks<'_>,
    outcome: &Outcome,
    end: &End,
    lost: &[Loss],
) -> Result<(), AllocError> {
    out.push_str("ended: ")?;
    push_outcome(out, code.lines(), marks, outcome)?;
    out.push('\n')?;
    push_end(out, code.decls(), marks, end)?;
    push_losses(out, marks, lost)
}

/// Adds where a debugger stands, given the text of the script, its code, and the marks that lines
/// are told with: the steps that are undone, and the choice, the end, or, if no step is undone, the
/// step that comes next. `Err` means that memory was refused.
pub fn push_position(
    out: &mut String,
    text: &[u8],
    code: &Code,
    marks: Marks<'_>,
    position: &Position,
) -> Result<(), AllocError> {
    if let Some(ahead) = position.ahead {
        push_ahead(out, text, marks, ahead)?;
    }
    match &position.coming {
        Coming::Next(_) if position.ahead.is_some() => Ok(()),
        Coming::Next(step) => {
            write!(out, "next: {}\n", MarkedStep(*step, marks))?;
            push_step_source(out, text, step)
        }
        Coming::Choice {
            chooser,
            candidates,
        } => push_choice(out, text, code, marks, *chooser, &candidates.items),
        Coming::Ended { outcome, end, lost } => {
            push_ended(out, code, marks, outcome, end, &lost.items)
        }
    }
}

// ---- why a call isn't matched

/// The line of a call that another could be matched with.
fn push_partner(out: &mut String, marks: Marks<'_>, partner: &Partner) -> Result<(), AllocError> {
    let call = MarkedCall(partner.call, marks);
    match partner.held_by {
        None => write!(out, "  can be matched with {call}\n"),
        Some(holder) => {
            let holder = MarkedCall(holder, marks);
            write!(out, "  could be matched with {call}, but for {holder}\n")
        }
    }
}

/// A call, and what it can be matched with.
fn push_fit(
    core: &Core<'_>,
    out: &mut String,
    marks: Marks<'_>,
    fit: &Fit,
) -> Result<(), AllocError> {
    push_call(core, out, marks, fit.call)?;
    match &fit.chances {
        Chances::NotFree => Ok(()),
        Chances::With(partners) => {
            for partner in &partners.items {
                push_partner(out, marks, partner)?;
            }
            Ok(())
        }
        Chances::Lonely(wish) => {
            write!(out, "  has no partner yet: {}\n", WaitsFor(wish.call))?;
            push_helps(out, marks, wish)
        }
    }
}

/// Adds why a call of a core isn't matched (`why_of`). `Err` means that memory was refused.
pub fn push_why(
    core: &Core<'_>,
    out: &mut String,
    marks: Marks<'_>,
    why: &Why,
) -> Result<(), AllocError> {
    push_fit(core, out, marks, &why.fit)?;
    for request in &why.requests.items {
        push_fit(core, out, marks, request)?;
    }
    for absence in &why.absent.items {
        push_absence(out, marks, absence)?;
    }
    Ok(())
}

/// Why the call isn't matched that a rank waits for, if it waits for one.
fn push_waiting(
    alloc: Global,
    core: &Core<'_>,
    out: &mut String,
    marks: Marks<'_>,
    rank: usize,
) -> Result<(), AllocError> {
    if !is_blocked(core, rank) {
        return Ok(());
    }
    if let Some(why) = why_of(alloc, core, core.board().last_call(rank))? {
        push_why(core, out, marks, &why)?;
    }
    if can_wake(core, rank) {
        write!(out, "  the call is complete: rank {rank} can go on\n")?;
    }
    Ok(())
}

/// Adds why the call that a rank waits for isn't matched, or that it waits for none. `Err` means
/// that memory was refused.
pub fn push_why_rank(
    alloc: Global,
    core: &Core<'_>,
    out: &mut String,
    marks: Marks<'_>,
    rank: usize,
) -> Result<(), AllocError> {
    if !is_blocked(core, rank) {
        return write!(out, "rank {rank} waits for no call\n");
    }
    push_waiting(alloc, core, out, marks, rank)
}

/// Adds why the calls that ranks wait for aren't matched, by rank, or that no rank waits for one.
/// `Err` means that memory was refused.
pub fn push_why_ranks(
    alloc: Global,
    core: &Core<'_>,
    out: &mut String,
    marks: Marks<'_>,
) -> Result<(), AllocError> {
    let mut lines = String::new(alloc);
    let count = core.rank_count();
    for rank in 0..count {
        push_waiting(alloc, core, &mut lines, marks, rank)?;
    }
    push_or_none(out, "no rank waits for a call", &lines)
}

// ---- lists

/// Adds a line for each rank: what it is doing, and where, given where all stand (`all_stands`).
/// `Err` means that memory was refused.
pub fn push_ranks(
    out: &mut String,
    marks: Marks<'_>,
    standing: &[Stands],
) -> Result<(), AllocError> {
    for (rank, stands) in standing.iter().enumerate() {
        write!(out, "rank {rank}{}\n", MarkedStands(*stands, marks))?;
    }
    Ok(())
}

/// Adds the line of a call, with the call as traces show it. `Err` means that memory was refused.
pub fn push_call(
    core: &Core<'_>,
    out: &mut String,
    marks: Marks<'_>,
    call: CallId,
) -> Result<(), AllocError> {
    let line = marks.line(issue_line(core, call));
    write!(out, "line {line}, {call} ")?;
    core.push_call(out, call)?;
    out.push('\n')
}

/// Adds the calls of a rank.
fn push_calls_of(
    core: &Core<'_>,
    out: &mut String,
    marks: Marks<'_>,
    rank: usize,
) -> Result<(), AllocError> {
    let count = core.board().call_count(rank);
    for index in 0..count {
        push_call(core, out, marks, CallId { rank, index })?;
    }
    Ok(())
}

/// Adds the calls of a rank, or of all, or that there is none. A rank that isn't there has none.
/// `Err` means that memory was refused.
pub fn push_calls(
    core: &Core<'_>,
    out: &mut String,
    marks: Marks<'_>,
    rank: Option<usize>,
) -> Result<(), AllocError> {
    let mut lines = String::new(*out.allocator());
    match rank {
        Some(rank) => push_calls_of(core, &mut lines, marks, rank)?,
        None => {
            let count = core.rank_count();
            for rank in 0..count {
                push_calls_of(core, &mut lines, marks, rank)?;
            }
        }
    }
    push_or_none(out, "no call", &lines)
}

/// Adds the sends (`pending_calls`) and the receives (`posted_calls`) that are free, or that there
/// is none. `Err` means that memory was refused.
pub fn push_queues(
    out: &mut String,
    marks: Marks<'_>,
    pending: &[PlacedCall],
    posted: &[PlacedCall],
) -> Result<(), AllocError> {
    if pending.is_empty() && posted.is_empty() {
        return out.push_str("no free call\n");
    }
    for placed in pending {
        if let Some(CallKind::Send(send)) = placed.kind {
            let (rank, call) = (placed.call.rank, MarkedCall(*placed, marks));
            write!(out, "pending {rank} to {}: {call}\n", send.to)?;
        }
    }
    for placed in posted {
        let (rank, call) = (placed.call.rank, MarkedCall(*placed, marks));
        write!(out, "posted {rank}: {call}\n")?;
    }
    Ok(())
}

/// Adds steps that are enabled (`enabled_steps`), or that there is none. `decls` are the
/// declarations of the script. `Err` means that memory was refused.
pub fn push_enabled(
    out: &mut String,
    decls: &[Decl],
    marks: Marks<'_>,
    steps: &[PlacedStep],
) -> Result<(), AllocError> {
    if steps.is_empty() {
        return out.push_str("no step is enabled\n");
    }
    for step in steps {
        push_candidate(out, decls, marks, false, step)?;
        out.push('\n')?;
    }
    Ok(())
}

/// Adds the last of `depth` steps that are not undone (`history_of`), in words, each after its
/// number, or that there is none. `Err` means that memory was refused.
pub fn push_history(
    out: &mut String,
    marks: Marks<'_>,
    depth: usize,
    steps: &[PlacedStep],
) -> Result<(), AllocError> {
    if depth == 0 {
        return out.push_str("no step is taken\n");
    }
    let before = depth.saturating_sub(steps.len());
    for (place, step) in steps.iter().enumerate() {
        let number = before.saturating_add(place).saturating_add(1);
        write!(out, "{number} {}\n", MarkedStep(*step, marks))?;
    }
    Ok(())
}

/// Adds the steps that are not undone as trace words, a line each. `Err` means that memory was
/// refused.
pub fn push_words(debugger: &Debugger<'_>, out: &mut String) -> Result<(), AllocError> {
    let depth = debugger.depth();
    for step in debugger.steps().iter().take(depth) {
        write!(out, "{step}\n")?;
    }
    Ok(())
}
