//! A picture in text: a line for each row, with a sign in the lane of each rank (docs/PICTURES.md,
//! "As text").

use crate::ends::Finish;
use crate::glyph::{Deed, Note};
use crate::picture::Picture;
use crate::shape::Shape;
use crate::style::LETTERS;
use crate::svg::word_of;
use mpd_model::CallKind;
use mpd_names::PlacedCall;
use std::alloc::AllocError;

// ---- the sign in each lane, two columns wide

/// The letter of a call.
fn letter_of(kind: Option<CallKind>) -> &'static str {
    match kind {
        None => "? ",
        Some(CallKind::Send(_)) => "S ",
        Some(CallKind::Recv(_)) => "R ",
        Some(CallKind::Wait(_)) => "W ",
        Some(CallKind::Waitany(_)) => "A ",
        Some(CallKind::Barrier) => "B ",
    }
}

/// The sign of a lane in the row of a match.
fn arrow_sign(sender: usize, receiver: usize, rank: usize) -> &'static str {
    let is_higher = sender < receiver;
    if rank == receiver {
        return if is_higher {
            "> "
        } else if receiver < sender {
            "<-"
        } else {
            "@ "
        };
    }
    if rank == sender {
        return if is_higher { "o-" } else { "o " };
    }
    if (rank < sender) == (rank < receiver) {
        "| "
    } else {
        "--"
    }
}

/// The letter of what a rank does by itself.
fn deed_sign(deed: Deed) -> &'static str {
    match deed {
        Deed::Printed(_) => "P ",
        Deed::Trapped(_) => "X ",
    }
}

/// The sign of how a rank is at the end.
fn finish_sign(finish: Finish) -> &'static str {
    match finish {
        Finish::Ended => "E ",
        Finish::Running(_) => "V ",
        Finish::Held(_, _) => "~ ",
        Finish::Blocked(_, _) => "! ",
        Finish::Trapped(_, _) => "X ",
    }
}

/// The sign of a lane in the row of a shape, if it has one.
fn sign_of(shape: Shape, rank: usize) -> Option<&'static str> {
    let (at, letter) = match shape {
        Shape::Call { call, .. } => (call.call.rank, letter_of(call.kind)),
        Shape::Note { note, .. } => (note.rank, deed_sign(note.deed)),
        Shape::Arrow { send, receive, .. } => {
            return Some(arrow_sign(send.call.rank, receive.rank, rank));
        }
        Shape::Bar { .. } => return Some("=="),
        _ => return None,
    };
    Some(if rank == at { letter } else { "| " })
}

// ---- rows

/// Adds the words of a call, as `4: 0.0 send to 1 tag 7`. A send is told without its value, which
/// its match tells.
fn push_call_words(out: &mut String, call: PlacedCall, is_free: bool) -> Result<(), AllocError> {
    let (line, id) = (call.line, call.call);
    write!(out, " {line}: {id} ")?;
    match call.kind {
        None => {}
        Some(CallKind::Send(send)) => {
            let (word, to, tag) = (word_of(call.kind), send.to, send.tag);
            write!(out, "{word} to {to} tag {tag}")?;
        }
        Some(kind) => write!(out, "{kind}")?,
    }
    out.push_str(if is_free { " free\n" } else { "\n" })
}

/// Adds the words of a note, as `7: rank 0 prints 42`.
fn push_note_words(out: &mut String, note: Note) -> Result<(), AllocError> {
    let line = note.line;
    write!(out, " {line}: {note}\n")
}

/// Adds the words of the row of a shape, if it has one.
fn push_words(out: &mut String, shape: Shape) -> Result<(), AllocError> {
    match shape {
        Shape::Call { call, is_free, .. } => push_call_words(out, call, is_free),
        Shape::Arrow { send, receive, .. } => {
            let id = send.call;
            match send.kind {
                Some(CallKind::Send(sent)) => {
                    let value = sent.value;
                    write!(out, " {id} to {receive}: {value}\n")
                }
                _ => write!(out, " {id} to {receive}: \n"),
            }
        }
        Shape::Bar { .. } => out.push_str(" release\n"),
        Shape::Note { note, .. } => push_note_words(out, note),
        _ => Ok(()),
    }
}

/// Adds the sign of each lane in the row of a shape, if it has one.
fn push_signs(out: &mut String, ranks: usize, shape: Shape) -> Result<(), AllocError> {
    for rank in 0..ranks {
        if let Some(sign) = sign_of(shape, rank) {
            out.push_str(sign)?;
        }
    }
    Ok(())
}

/// Adds how each rank is at the end.
fn push_ends(out: &mut String, shapes: &[Shape]) -> Result<(), AllocError> {
    for shape in shapes {
        if let Shape::End { finish, .. } = shape {
            out.push_str(finish_sign(*finish))?;
        }
    }
    out.push_str(" at the end\n")
}

/// Adds a picture in text. `Err` means that memory was refused.
pub(crate) fn push_rows(out: &mut String, picture: &Picture) -> Result<(), AllocError> {
    for rank in 0..picture.ranks {
        let digit = rank % 10;
        write!(out, "{digit} ")?;
    }
    out.push_str(" line: call\n")?;
    for shape in &picture.shapes {
        push_signs(out, picture.ranks, *shape)?;
        push_words(out, *shape)?;
    }
    push_ends(out, &picture.shapes)?;
    out.push_str(LETTERS)
}
