//! What is said of calls, steps and ends, for people (docs/FORMATS.md, "Explanations";
//! docs/CONSOLE.md).

use crate::ends::{Absence, AwaitedRankList, End, TrapPlace, Wait};
use crate::lost::Loss;
use crate::near_miss::{Miss, Wish};
use crate::steps::{Completed, PlacedStep};
use crate::waits::Cycle;
use mpd_model::{CallId, CallKind, Decl, DeclKind, is_barrier};
use mpd_names::{Issuer, MarkedCall, Marks, PlacedCall, Stands, push_cell_name, push_holdings};
use std::alloc::AllocError;
use std::fmt;

// ---- calls

/// A name with its number, as `rank 1`, or `any rank`.
#[derive(Clone, Copy)]
struct AnyOr<'n>(&'n str, Option<usize>);

impl<'n> fmt::Display for AnyOr<'n> {
    fn fmt<W: fmt::Write>(&self, f: &mut fmt::Formatter<W>) -> fmt::Result {
        match self.1 {
            None => write!(f, "any {}", self.0),
            Some(number) => write!(f, "{} {number}", self.0),
        }
    }
}

/// What a call waits for, as `for a send of rank 1 with tag 2`.
#[derive(Clone, Copy)]
pub struct WaitsFor(pub PlacedCall);

impl fmt::Display for WaitsFor {
    fn fmt<W: fmt::Write>(&self, f: &mut fmt::Formatter<W>) -> fmt::Result {
        let rank = self.0.call.rank;
        match self.0.kind {
            None => write!(f, "for nothing"),
            Some(CallKind::Send(send)) => write!(
                f,
                "for a receive of rank {} from rank {rank} with tag {}",
                send.to, send.tag
            ),
            Some(CallKind::Recv(recv)) => write!(
                f,
                "for a send of {} with {}",
                AnyOr("rank", recv.from),
                AnyOr("tag", recv.tag)
            ),
            Some(CallKind::Wait(wait)) => match wait.target {
                None => write!(f, "for no request"),
                Some(index) => write!(f, "for request {}", CallId { rank, index }),
            },
            Some(CallKind::Waitany(_)) => write!(f, "for one of these requests"),
            Some(CallKind::Barrier) => write!(f, "for all ranks at a barrier"),
        }
    }
}

impl fmt::Display for Miss {
    fn fmt<W: fmt::Write>(&self, f: &mut fmt::Formatter<W>) -> fmt::Result {
        match self {
            Miss::Tag => write!(f, "another tag"),
            Miss::Source => write!(f, "another source"),
            Miss::Destination => write!(f, "another destination"),
        }
    }
}

/// The lines of what nearly fits a call, and of what would have.
pub(crate) fn push_helps(
    out: &mut String,
    marks: Marks<'_>,
    wish: &Wish,
) -> Result<(), AllocError> {
    if let Some(near) = wish.nearest {
        let call = MarkedCall(near.call, marks);
        write!(out, "    nearest miss: {call}: {}\n", near.miss)?;
    }
    if let Some(taken) = wish.taken {
        let (call, by) = (MarkedCall(taken.call, marks), MarkedCall(taken.by, marks));
        write!(out, "    the last that fits is taken: {call}, by {by}\n")?;
    }
    Ok(())
}

/// The line of a rank that is not at a barrier.
pub(crate) fn push_absence(
    out: &mut String,
    marks: Marks<'_>,
    absence: &Absence,
) -> Result<(), AllocError> {
    write!(out, "    rank {} is not there: ", absence.rank)?;
    match absence.stands {
        None => write!(out, "it is none\n"),
        Some(Stands::Ended) => write!(out, "it has ended\n"),
        Some(Stands::At(line)) | Some(Stands::Trapped(line, _)) => {
            write!(out, "it is at line {}\n", marks.line(line))
        }
        Some(Stands::Waits(call)) | Some(Stands::CanGoOn(call)) => {
            write!(out, "it waits at {}\n", MarkedCall(call, marks))
        }
    }
}

// ---- ends

/// The lines of a call that blocks its rank.
fn push_wait(out: &mut String, marks: Marks<'_>, wait: &Wait) -> Result<(), AllocError> {
    let rank = wait.wish.call.call.rank;
    let call = MarkedCall(wait.wish.call, marks);
    write!(
        out,
        "  rank {rank} waits at {call}: {}\n",
        WaitsFor(wait.wish.call)
    )?;
    for absence in &wait.absent.items {
        push_absence(out, marks, absence)?;
    }
    push_helps(out, marks, &wait.wish)?;
    for request in &wait.requests.items {
        let call = MarkedCall(request.call, marks);
        write!(out, "    {call}: {}\n", WaitsFor(request.call))?;
        push_helps(out, marks, request)?;
    }
    Ok(())
}

/// Ranks, with a comma between two.
fn push_awaited(out: &mut String, ranks: &AwaitedRankList) -> Result<(), AllocError> {
    if ranks.items.is_empty() {
        return out.push_str("nobody");
    }
    let mut before = "";
    for awaited in &ranks.items {
        let ended = if awaited.has_ended { " (ended)" } else { "" };
        write!(out, "{before}rank {}{ended}", awaited.rank)?;
        before = ", ";
    }
    Ok(())
}

/// The line of whom a rank waits for.
fn push_waits_line(out: &mut String, wait: &Wait) -> Result<(), AllocError> {
    let call = wait.wish.call;
    let several = if wait.awaited.items.len() < 2 {
        ""
    } else if is_barrier(call.kind) {
        "all of "
    } else {
        "any of "
    };
    write!(out, "  rank {} waits for {several}", call.call.rank)?;
    push_awaited(out, &wait.awaited)?;
    out.push('\n')
}

/// The line of a cycle.
fn push_cycle(out: &mut String, cycle: &Cycle) -> Result<(), AllocError> {
    let Some(first) = cycle.ranks.first() else {
        return Ok(());
    };
    out.push_str("  a cycle, where each waits for the next: ")?;
    for rank in &cycle.ranks {
        write!(out, "rank {rank}, ")?;
    }
    write!(out, "rank {first}\n")
}

/// The lines of calls that are left over.
fn push_left(out: &mut String, marks: Marks<'_>, calls: &[PlacedCall]) -> Result<(), AllocError> {
    for call in calls {
        write!(out, "  left over: {}\n", MarkedCall(*call, marks))?;
    }
    Ok(())
}

/// The line of a rank that is trapped.
fn push_trap(
    out: &mut String,
    decls: &[Decl],
    marks: Marks<'_>,
    place: &TrapPlace,
) -> Result<(), AllocError> {
    let rank = place.rank;
    let line = marks.line(place.line);
    write!(
        out,
        "  rank {rank}, line {line}: trap {}",
        place.trap.name()
    )?;
    push_holdings(out, ", with ", decls, rank, &place.reads.items)?;
    out.push('\n')
}

/// The lines of a deadlock.
fn push_deadlock(
    out: &mut String,
    marks: Marks<'_>,
    waits: &[Wait],
    cycles: &[Cycle],
    left: &[PlacedCall],
) -> Result<(), AllocError> {
    for wait in waits {
        push_wait(out, marks, wait)?;
    }
    for wait in waits {
        push_waits_line(out, wait)?;
    }
    for cycle in cycles {
        push_cycle(out, cycle)?;
    }
    push_left(out, marks, left)
}

/// Adds the lines of an end, each with two spaces before it; none of one that there is no more to
/// than that a run ends so. `decls` are the declarations of the script, `marks` its marks. `Err`
/// means that memory was refused.
pub fn push_end(
    out: &mut String,
    decls: &[Decl],
    marks: Marks<'_>,
    end: &End,
) -> Result<(), AllocError> {
    match end {
        End::Cut | End::Done => Ok(()),
        End::Leftovers(calls) => push_left(out, marks, &calls.items),
        End::Deadlock {
            waits,
            cycles,
            left,
        } => push_deadlock(out, marks, &waits.items, &cycles.items, &left.items),
        End::Trap(places) => {
            for place in &places.items {
                push_trap(out, decls, marks, place)?;
            }
            Ok(())
        }
    }
}

/// Adds the line of requests that a rank has lost.
fn push_loss(out: &mut String, marks: Marks<'_>, loss: &Loss) -> Result<(), AllocError> {
    let PlacedCall { call, line, kind } = loss.first;
    let rank = call.rank;
    if loss.count < 2 {
        let call = MarkedCall(loss.first, marks);
        return write!(out, "rank {rank} has lost a request: {call}\n");
    }
    let line = marks.line(line);
    write!(
        out,
        "rank {rank} has lost {} requests of line {line}, the first {call}",
        loss.count
    )?;
    if let Some(kind) = kind {
        write!(out, " {kind}")?;
    }
    out.push('\n')
}

/// Adds a line for each line of the script of which a rank has lost requests. `Err` means that
/// memory was refused.
pub fn push_losses(out: &mut String, marks: Marks<'_>, losses: &[Loss]) -> Result<(), AllocError> {
    for loss in losses {
        push_loss(out, marks, loss)?;
    }
    Ok(())
}

// ---- steps

/// A step, and what it is about, as it is told of a script with these marks:
/// `match 0.0 1.0: rank 0, line 4 (farm.c:58), to rank 1, line 7` (docs/CONSOLE.md, "Steps in
/// words").
#[derive(Clone, Copy)]
pub struct MarkedStep<'s>(pub PlacedStep, pub Marks<'s>);

impl<'s> fmt::Display for MarkedStep<'s> {
    fn fmt<W: fmt::Write>(&self, f: &mut fmt::Formatter<W>) -> fmt::Result {
        let MarkedStep(placed, marks) = *self;
        let step = placed.step();
        match placed {
            PlacedStep::Local { rank: _, line } => {
                write!(f, "{step}: line {}", marks.line(line))
            }
            PlacedStep::Match { send, receive } => {
                let (send, receive) = (Issuer(send, marks), Issuer(receive, marks));
                write!(f, "{step}: {send}, to {receive}")
            }
            PlacedStep::Wake(call) => write!(f, "{step}: line {}", marks.line(call.line)),
            PlacedStep::WakeAny {
                call,
                index: _,
                request: None,
            } => write!(f, "{step}: line {}", marks.line(call.line)),
            PlacedStep::WakeAny {
                call,
                index: _,
                request: Some(request),
            } => {
                let (line, by) = (marks.line(call.line), MarkedCall(request.call, marks));
                write!(f, "{step}: line {line}, by {by}")
            }
            PlacedStep::Release => write!(f, "{step}: all ranks leave the barrier"),
        }
    }
}

/// A message, and its receive unless that is told for all candidates.
fn push_message(
    out: &mut String,
    marks: Marks<'_>,
    is_one: bool,
    send: PlacedCall,
    receive: PlacedCall,
) -> Result<(), AllocError> {
    write!(out, "rank {}", send.call.rank)?;
    if let Some(CallKind::Send(sent)) = send.kind {
        write!(out, " sends {}, tag {}", sent.value, sent.tag)?;
    }
    write!(out, " (line {})", marks.inner(send.line))?;
    if is_one {
        return Ok(());
    }
    let line = marks.inner(receive.line);
    write!(out, ", to rank {} (line {line})", receive.call.rank)
}

/// A request that a waitany goes on by.
fn push_completed(
    out: &mut String,
    decls: &[Decl],
    marks: Marks<'_>,
    request: Completed,
) -> Result<(), AllocError> {
    out.push_str("request ")?;
    if let Some(handle) = request.handle {
        push_cell_name(out, decls, DeclKind::Handle, handle)?;
    }
    let (word, value) = match (request.call.kind, request.got) {
        (Some(CallKind::Send(send)), _) => ("send", Some(send.value)),
        (Some(CallKind::Recv(_)), Some(message)) => ("receive", Some(message.value)),
        (Some(CallKind::Recv(_)), None) => ("receive", None),
        _ => ("call", None),
    };
    write!(
        out,
        ", the {word} of line {}",
        marks.line(request.call.line)
    )?;
    match value {
        None => Ok(()),
        Some(value) => write!(out, " (value {value})"),
    }
}

/// What a step does.
fn push_told(
    out: &mut String,
    decls: &[Decl],
    marks: Marks<'_>,
    is_one: bool,
    step: &PlacedStep,
) -> Result<(), AllocError> {
    match *step {
        PlacedStep::Local { rank, line } => {
            write!(out, "rank {rank} runs line {}", marks.line(line))
        }
        PlacedStep::Match { send, receive } => push_message(out, marks, is_one, send, receive),
        PlacedStep::Wake(call) => {
            let line = marks.line(call.line);
            write!(out, "rank {} goes on from line {line}", call.call.rank)
        }
        PlacedStep::WakeAny {
            call,
            index: _,
            request,
        } => {
            if let Some(request) = request {
                push_completed(out, decls, marks, request)?;
            }
            if is_one {
                return Ok(());
            }
            write!(out, ", for rank {}", call.call.rank)
        }
        PlacedStep::Release => out.push_str("all ranks leave the barrier"),
    }
}

/// Adds a step by what it does, and its trace word after that (docs/CONSOLE.md, "Candidates"). If
/// it is one of candidates that are all for one call, that call isn't repeated. `decls` are the
/// declarations of the script, `marks` its marks. `Err` means that memory was refused.
pub fn push_candidate(
    out: &mut String,
    decls: &[Decl],
    marks: Marks<'_>,
    is_one: bool,
    step: &PlacedStep,
) -> Result<(), AllocError> {
    push_told(out, decls, marks, is_one, step)?;
    write!(out, "; {}", step.step())
}
