//! The text of each shape of a drawing (docs/PICTURES.md, "Elements").

use crate::ends::{Finish, Wanted};
use crate::glyph::{Deed, Note};
use crate::paths::{ArrowPath, Bow, CandidatePath, Spot, WantPath, Way};
use crate::picture::Picture;
use crate::places::{column_x, lane_x, row_y, told_y};
use crate::shape::Shape;
use mpd_core::Core;
use mpd_model::{CallId, CallKind, recv_word, send_word};
use mpd_names::PlacedCall;
use std::alloc::{AllocError, Global};
use std::fmt;

// ---- what shapes of calls look like

/// The word of a call.
pub(crate) fn word_of(kind: Option<CallKind>) -> &'static str {
    match kind {
        None => "none",
        Some(CallKind::Send(send)) => send_word(send.synchronous, send.blocks),
        Some(CallKind::Recv(recv)) => recv_word(recv.blocks),
        Some(CallKind::Wait(_)) => "wait",
        Some(CallKind::Waitany(_)) => "waitany",
        Some(CallKind::Barrier) => "barrier",
    }
}

/// The class of a call's shape, and its path.
fn class_and_path(kind: Option<CallKind>) -> (&'static str, &'static str) {
    const DISC: &str = "m-5 0a5 5 0 1 0 10 0a5 5 0 1 0 -10 0z";
    const SQUARE: &str = "m-5 -5h10v10h-10z";
    match kind {
        None => ("none", SQUARE),
        Some(CallKind::Send(_)) => ("send", DISC),
        Some(CallKind::Recv(_)) => ("recv", DISC),
        Some(CallKind::Wait(_)) => ("wait", SQUARE),
        Some(CallKind::Waitany(_)) => ("waitany", SQUARE),
        Some(CallKind::Barrier) => ("barrier", "m-8 -3h16v6h-16z"),
    }
}

/// The path of the stub of a free call: of a send towards its receiver, of a receive to the left.
fn stub_path(call: PlacedCall) -> &'static str {
    match call.kind {
        Some(CallKind::Recv(_)) => "l-26 0m-3 0a3 3 0 1 0 6 0a3 3 0 1 0 -6 0",
        Some(CallKind::Send(send)) if send.to < call.call.rank => {
            "l-12 16m-3 0a3 3 0 1 0 6 0a3 3 0 1 0 -6 0"
        }
        _ => "l12 16m-3 0a3 3 0 1 0 6 0a3 3 0 1 0 -6 0",
    }
}

/// Whether a call is a send to a higher rank: its label stands out of the way of its arrow.
fn goes_right(call: PlacedCall) -> bool {
    match call.kind {
        Some(CallKind::Send(send)) => call.call.rank < send.to,
        _ => false,
    }
}

// ---- what is told

/// What is told of a call, as `line 4, 0.0 send to 1 tag 7 value 5 with 1.0`. What it is stands
/// there as `show` prints it, which the engine does.
fn call_told(alloc: Global, core: &Core<'_>, call: PlacedCall) -> Result<String, AllocError> {
    let (line, id) = (call.line, call.call);
    let mut told = format!(in alloc; "line {line}, {id} ")?;
    core.push_call(&mut told, id)?;
    Ok(told)
}

/// A message. Its words are `0.0 to 1.0: value 5 tag 7`.
#[derive(Clone, Copy)]
struct Message {
    send: PlacedCall,
    receive: CallId,
}

impl fmt::Display for Message {
    fn fmt<W: fmt::Write>(&self, f: &mut fmt::Formatter<W>) -> fmt::Result {
        write!(f, "{} to {}: value ", self.send.call, self.receive)?;
        match self.send.kind {
            Some(CallKind::Send(send)) => write!(f, "{} tag {}", send.value, send.tag),
            _ => Ok(()),
        }
    }
}

/// A label, or a shorter one if it has more than 16 characters: if that has more, too, it is left
/// to the list.
fn short_by(alloc: Global, whole: String, short: String) -> Result<String, AllocError> {
    if whole.len() <= 16 {
        return Ok(whole);
    }
    if short.len() <= 16 {
        return Ok(short);
    }
    format!(in alloc; "..")
}

/// What stands beside the match of a message.
fn message_label(alloc: Global, send: PlacedCall) -> Result<String, AllocError> {
    let Some(CallKind::Send(send)) = send.kind else {
        return Ok(String::new(alloc));
    };
    let (value, tag) = (send.value, send.tag);
    let whole = format!(in alloc; "{value} tag {tag}")?;
    let short = format!(in alloc; "{value}")?;
    short_by(alloc, whole, short)
}

/// What stands beside a note, as `7 print 42`.
fn note_label(alloc: Global, note: Note) -> Result<String, AllocError> {
    let line = note.line;
    match note.deed {
        Deed::Printed(value) => {
            let whole = format!(in alloc; "{line} print {value}")?;
            let short = format!(in alloc; "{value}")?;
            short_by(alloc, whole, short)
        }
        Deed::Trapped(trap) => {
            let name = trap.name();
            let whole = format!(in alloc; "{line} {name}")?;
            let short = format!(in alloc; "{name}")?;
            short_by(alloc, whole, short)
        }
    }
}

/// The beginning of a text beside a lane, up to what it says.
#[derive(Clone, Copy)]
struct Beside {
    rank: usize,
    row: usize,
    is_left: bool,
}

impl fmt::Display for Beside {
    fn fmt<W: fmt::Write>(&self, f: &mut fmt::Formatter<W>) -> fmt::Result {
        let (x, y) = (lane_x(self.rank), row_y(self.row) + 4);
        if self.is_left {
            write!(f, r#"<text class="mpd-left" x="{}" y="{y}">"#, x - 24)
        } else {
            write!(f, r#"<text class="mpd-right" x="{}" y="{y}">"#, x + 12)
        }
    }
}

// ---- shapes

/// Adds a lane.
fn push_lane(out: &mut String, rank: usize, row: usize) -> Result<(), AllocError> {
    let (x, y) = (lane_x(rank), row_y(row));
    write!(
        out,
        r#"<line class="mpd-lane" x1="{x}" y1="60" x2="{x}" y2="{y}"/>
<text class="mpd-name" x="{x}" y="52">rank {rank}</text>
"#
    )
}

/// Adds that a rank waits.
fn push_waiting(out: &mut String, rank: usize, from: usize, to: usize) -> Result<(), AllocError> {
    let (x, top, end) = (lane_x(rank), row_y(from) + 5, row_y(to) + 5);
    write!(
        out,
        "<line class=\"mpd-waiting\" x1=\"{x}\" y1=\"{top}\" x2=\"{x}\" y2=\"{end}\"/>\n"
    )
}

/// Adds that a receive is posted: out, down and back beside its lane. Receives after one another
/// stand at other places.
fn push_posted(out: &mut String, call: CallId, from: usize, to: usize) -> Result<(), AllocError> {
    let x = lane_x(call.rank);
    let (near, far) = (x - 5, x - 8 - 4 * (call.index % 4));
    let (top, end) = (row_y(from), row_y(to));
    write!(
        out,
        "<path class=\"mpd-posted\" d=\"M{near} {top}H{far}V{end}H{near}\"/>\n"
    )
}

/// Adds the stub of a free call.
fn push_stub(out: &mut String, call: PlacedCall, row: usize) -> Result<(), AllocError> {
    let rank = call.call.rank;
    let (spot, path) = (Spot { rank, row }, stub_path(call));
    write!(out, "<path class=\"mpd-stub\" d=\"{spot}{path}\"/>\n")
}

/// Adds a call.
fn push_call(
    alloc: Global,
    core: &Core<'_>,
    out: &mut String,
    call: PlacedCall,
    row: usize,
) -> Result<(), AllocError> {
    let told = call_told(alloc, core, call)?;
    let (rank, line, word) = (call.call.rank, call.line, word_of(call.kind));
    let (class, path) = class_and_path(call.kind);
    let spot = Spot { rank, row };
    let is_left = goes_right(call);
    let beside = Beside { rank, row, is_left };
    write!(
        out,
        r#"<g><title>{told}</title>
<path class="mpd-{class}" d="{spot}{path}"/>
{beside}{line} {word}</text>
</g>
"#
    )
}

/// Adds the arrow of a message.
fn push_arrow(
    alloc: Global,
    out: &mut String,
    message: Message,
    from: usize,
    to: usize,
) -> Result<(), AllocError> {
    let label = message_label(alloc, message.send)?;
    let (sender, receiver) = (message.send.call.rank, message.receive.rank);
    let spot = Spot {
        rank: sender,
        row: from,
    };
    let path = ArrowPath(Way {
        sender,
        from,
        receiver,
        to,
    });
    let beside = Beside {
        rank: receiver,
        row: to,
        is_left: receiver < sender,
    };
    write!(
        out,
        r#"<g><title>{message}</title>
<path class="mpd-arrow" d="{spot}{path}"/>
{beside}{label}</text>
</g>
"#
    )
}

/// Adds the bar of a release of so many ranks.
fn push_bar(out: &mut String, ranks: usize, row: usize) -> Result<(), AllocError> {
    let first = lane_x(0) - 14;
    let last = lane_x(ranks.saturating_sub(1)) + 14;
    let y = row_y(row);
    write!(
        out,
        r#"<g><title>release: all ranks leave the barrier</title>
<line class="mpd-bar" x1="{first}" y1="{y}" x2="{last}" y2="{y}"/>
</g>
"#
    )
}

/// Adds what a rank printed, or by what it was trapped.
fn push_note(alloc: Global, out: &mut String, note: Note, row: usize) -> Result<(), AllocError> {
    let label = note_label(alloc, note)?;
    let (rank, line) = (note.rank, note.line);
    let (class, path) = match note.deed {
        Deed::Printed(_) => ("print", "m0 -5l5 5l-5 5l-5 -5z"),
        Deed::Trapped(_) => ("trapped", "m-5 -5l10 10m0 -10l-10 10"),
    };
    let spot = Spot { rank, row };
    let is_left = false;
    let beside = Beside { rank, row, is_left };
    write!(
        out,
        r#"<g><title>line {line}, {note}</title>
<path class="mpd-{class}" d="{spot}{path}"/>
{beside}{label}</text>
</g>
"#
    )
}

/// Adds the number of a candidate above its beginning, and the end of its group.
fn push_number(out: &mut String, spot: Spot, number: usize) -> Result<(), AllocError> {
    let (x, y) = (lane_x(spot.rank), row_y(spot.row) - 9);
    write!(
        out,
        r#"<text class="mpd-number" x="{x}" y="{y}">{number}</text>
</g>
"#
    )
}

/// Adds a candidate.
fn push_candidate(
    out: &mut String,
    message: Message,
    from: usize,
    to: usize,
    number: usize,
) -> Result<(), AllocError> {
    let (sender, receiver) = (message.send.call.rank, message.receive.rank);
    let spot = Spot {
        rank: sender,
        row: from,
    };
    let path = CandidatePath(Way {
        sender,
        from,
        receiver,
        to,
    });
    write!(
        out,
        r#"<g><title>{number}: {message}</title>
<path class="mpd-candidate" d="{spot}{path}"/>
"#
    )?;
    push_number(out, spot, number)
}

/// Adds a request that a waitany can go on by, which is told as the call is.
fn push_request(out: &mut String, told: &str, bow: Bow, number: usize) -> Result<(), AllocError> {
    let spot = Spot {
        rank: bow.rank,
        row: bow.from,
    };
    write!(
        out,
        r#"<g><title>{number}: {told}</title>
<path class="mpd-candidate" d="{spot}{bow}"/>
"#
    )?;
    push_number(out, spot, number)
}

// ---- how a rank is at the end

/// The class of its shape, its path, and its words.
fn finish_look(finish: Finish) -> (&'static str, &'static str, &'static str) {
    match finish {
        Finish::Ended => ("ended", "m-9 0h18", "ended"),
        Finish::Running(_) => ("running", "m-6 -5h12l-6 10z", "can go on"),
        Finish::Held(_, _) => ("held", "m-6 -7h12l-12 14h12z", "waits"),
        Finish::Blocked(_, _) => ("blocked", "m-3 -7h6l5 5v5l-5 5h-6l-5 -5v-5z", "blocked"),
        Finish::Trapped(_, trap) => ("trapped", "m-6 -6l12 12m0 -12l-12 12", trap.name()),
    }
}

/// Adds at which line a rank stands.
fn push_place(out: &mut String, spot: Spot, line: usize) -> Result<(), AllocError> {
    let (x, y) = (lane_x(spot.rank), row_y(spot.row) + 52);
    write!(
        out,
        "<text class=\"mpd-name\" x=\"{x}\" y=\"{y}\">line {line}</text>\n"
    )
}

/// Adds whom a rank waits for.
fn push_wanted(out: &mut String, spot: Spot, wanted: Wanted) -> Result<(), AllocError> {
    let (x, y) = (lane_x(spot.rank), row_y(spot.row) + 66);
    write!(
        out,
        "<text class=\"mpd-name\" x=\"{x}\" y=\"{y}\">{wanted}</text>\n"
    )
}

/// Adds the arrow from a rank, one of so many, to one that it waits for.
fn push_want(out: &mut String, ranks: usize, spot: Spot, wanted: Wanted) -> Result<(), AllocError> {
    let Wanted::Rank(wanted) = wanted else {
        return Ok(());
    };
    let path = WantPath {
        ranks,
        rank: spot.rank,
        row: spot.row,
        wanted,
    };
    write!(out, "<path class=\"mpd-want\" d=\"{path}\"/>\n")
}

/// Adds where a rank stands, one of so many, and whom it waits for: nothing of one that has ended.
fn push_standing(
    out: &mut String,
    ranks: usize,
    spot: Spot,
    finish: Finish,
) -> Result<(), AllocError> {
    match finish {
        Finish::Ended => Ok(()),
        Finish::Running(line) | Finish::Trapped(line, _) => push_place(out, spot, line),
        Finish::Held(line, wanted) => {
            push_place(out, spot, line)?;
            push_wanted(out, spot, wanted)
        }
        Finish::Blocked(line, wanted) => {
            push_place(out, spot, line)?;
            push_wanted(out, spot, wanted)?;
            push_want(out, ranks, spot, wanted)
        }
    }
}

/// Adds how a rank, one of so many, is at the end.
fn push_end(out: &mut String, ranks: usize, spot: Spot, finish: Finish) -> Result<(), AllocError> {
    let rank = spot.rank;
    let (class, path, told) = finish_look(finish);
    let (x, y) = (lane_x(rank), row_y(spot.row));
    let (name_y, told_y) = (y + 24, y + 38);
    write!(
        out,
        r#"<g><title>rank {rank}: {told}</title>
<path class="mpd-{class}" d="{spot}{path}"/>
<text class="mpd-name" x="{x}" y="{name_y}">rank {rank}</text>
<text class="mpd-name" x="{x}" y="{told_y}">{told}</text>
"#
    )?;
    push_standing(out, ranks, spot, finish)?;
    out.push_str("</g>\n")
}

// ---- any shape

/// Adds the elements of a shape.
fn push_shape(
    alloc: Global,
    core: &Core<'_>,
    out: &mut String,
    ranks: usize,
    shape: Shape,
) -> Result<(), AllocError> {
    match shape {
        Shape::Lane { rank, row } => push_lane(out, rank, row),
        Shape::Waiting { rank, from, to } => push_waiting(out, rank, from, to),
        Shape::Posted { call, from, to } => push_posted(out, call, from, to),
        Shape::Call { call, row, .. } => push_call(alloc, core, out, call, row),
        Shape::Stub { call, row } => push_stub(out, call, row),
        Shape::Arrow {
            send,
            from,
            receive,
            to,
            ..
        } => push_arrow(alloc, out, Message { send, receive }, from, to),
        Shape::Bar { row, .. } => push_bar(out, ranks, row),
        Shape::Note { note, row, .. } => push_note(alloc, out, note, row),
        Shape::Candidate {
            send,
            from,
            receive,
            to,
            number,
        } => push_candidate(out, Message { send, receive }, from, to, number),
        Shape::Request {
            call,
            from,
            to,
            number,
        } => {
            let told = call_told(alloc, core, call)?;
            let rank = call.call.rank;
            push_request(out, &told, Bow { rank, from, to }, number)
        }
        Shape::End { rank, row, finish } => push_end(out, ranks, Spot { rank, row }, finish),
    }
}

/// Adds the elements of all shapes. `Err` means that memory was refused.
pub(crate) fn push_shapes(
    alloc: Global,
    core: &Core<'_>,
    out: &mut String,
    picture: &Picture,
) -> Result<(), AllocError> {
    let ranks = picture.ranks;
    for shape in &picture.shapes {
        push_shape(alloc, core, out, ranks, *shape)?;
    }
    Ok(())
}

// ---- the list beside the drawing

/// Adds what is told of a shape, if it is a call, a match, a release or a note, at its place of the
/// list.
fn push_shape_told(
    alloc: Global,
    core: &Core<'_>,
    out: &mut String,
    x: usize,
    shape: Shape,
) -> Result<(), AllocError> {
    let (place, told) = match shape {
        Shape::Call { call, place, .. } => (place, call_told(alloc, core, call)?),
        Shape::Arrow {
            send,
            receive,
            place,
            ..
        } => {
            let message = Message { send, receive };
            (place, format!(in alloc; "{message}")?)
        }
        Shape::Bar { place, .. } => (place, format!(in alloc; "release")?),
        Shape::Note { note, place, .. } => {
            let line = note.line;
            (place, format!(in alloc; "line {line}, {note}")?)
        }
        _ => return Ok(()),
    };
    let y = told_y(place);
    write!(
        out,
        "<text class=\"mpd-row\" x=\"{x}\" y=\"{y}\">{told}</text>\n"
    )
}

/// Adds what is told of all shapes. `Err` means that memory was refused.
pub(crate) fn push_list(
    alloc: Global,
    core: &Core<'_>,
    out: &mut String,
    picture: &Picture,
) -> Result<(), AllocError> {
    let x = column_x(picture.ranks);
    for shape in &picture.shapes {
        push_shape_told(alloc, core, out, x, *shape)?;
    }
    Ok(())
}
