//! The screen of a view as a text: the panes, where it stands, and the last answer.

use crate::layout::{BETWEEN, above, left_columns, pane_rows, right_columns};
use crate::sight::Sight;
use mpd_code::Code;
use mpd_explain::push_position;
use mpd_model::{bare_line, cut_line};
use mpd_names::{MarkedStands, Marks, Stands};
use std::alloc::{AllocError, Global};

/// What clears a terminal, and begins in its upper left corner.
const CLEAR: &[u8] = b"\x1b[2J\x1b[H";

/// How many columns stand before the number of a line.
const GUTTER: usize = 9;

/// How many columns the number of a line has.
const NUMBER: usize = 4;

/// How many rows and columns a screen has.
#[derive(Clone, Copy)]
pub struct Size {
    /// How many rows, the prompt's among them.
    pub rows: usize,
    /// How many columns.
    pub columns: usize,
}

// ---- texts in columns

/// How a byte is shown: printable ASCII as it is, a tab as a blank, any other as a question mark.
fn shown(byte: u8) -> u8 {
    match byte {
        b'\t' => b' ',
        32..=126 => byte,
        _ => b'?',
    }
}

/// Adds a text as it is shown, in so many columns at most.
fn push_cut(out: &mut Vec<u8>, text: &[u8], width: usize) -> Result<(), AllocError> {
    let (front, _) = text.split_at(width.min(text.len()));
    for byte in front {
        out.push(shown(*byte))?;
    }
    Ok(())
}

/// Adds as many blanks as a text lacks to be so wide.
fn push_blanks(out: &mut Vec<u8>, text: &[u8], width: usize) -> Result<(), AllocError> {
    for _column in text.len()..width {
        out.push(b' ')?;
    }
    Ok(())
}

/// Adds a text to the right in so many columns, as it is if it has more.
fn push_to_right(out: &mut Vec<u8>, text: &[u8], width: usize) -> Result<(), AllocError> {
    push_blanks(out, text, width)?;
    out.extend_from_slice(text)
}

/// The lines of a text, each with what ends it.
fn lines_of(alloc: Global, text: &[u8]) -> Result<Vec<&[u8]>, AllocError> {
    let mut rest = text;
    let mut lines = Vec::new(alloc);
    while let Some((line, behind)) = cut_line(rest) {
        lines.push(line)?;
        rest = behind;
    }
    Ok(lines)
}

// ---- the panes

/// What points to a line: the ranks that stand there, as `0 2 >`, or how many they are if these
/// have too many columns; nothing if there is none.
fn pointer(alloc: Global, ranks: &[Stands], line: usize) -> Result<String, AllocError> {
    let mut named = String::new(alloc);
    let mut count = 0usize;
    for (rank, stands) in ranks.iter().enumerate() {
        if stands.line() == Some(line) {
            write!(named, "{rank} ")?;
            count = count.saturating_add(1);
        }
    }
    if count == 0 {
        return Ok(named);
    }
    named.push('>')?;
    if named.len() > GUTTER {
        named = String::new(alloc);
        write!(named, "{count} here >")?;
    }
    Ok(named)
}

/// Adds a line of the script, which has this number, and what points to it, in the left pane.
fn push_left(
    out: &mut Vec<u8>,
    ranks: &[Stands],
    number: usize,
    line: Option<&[u8]>,
    width: usize,
) -> Result<(), AllocError> {
    let alloc = *out.allocator();
    let mut left = Vec::new(alloc);
    if let Some(line) = line {
        let mut digits = String::new(alloc);
        write!(digits, "{number}")?;
        push_to_right(&mut left, pointer(alloc, ranks, number)?.as_bytes(), GUTTER)?;
        push_to_right(&mut left, digits.as_bytes(), NUMBER)?;
        left.extend_from_slice(b"  ")?;
        left.extend_from_slice(bare_line(line))?;
    }
    push_cut(out, &left, width)?;
    push_blanks(out, &left, width)
}

/// Adds what a rank does, in the right pane; nothing if it isn't there.
fn push_right(
    out: &mut Vec<u8>,
    ranks: &[Stands],
    rank: usize,
    width: usize,
) -> Result<(), AllocError> {
    let Some(stands) = ranks.get(rank) else {
        return Ok(());
    };
    let mut right = String::new(*out.allocator());
    write!(right, "rank {rank}{}", MarkedStands(*stands, Marks::none()))?;
    push_cut(out, right.as_bytes(), width)
}

/// Adds the panes, in so many rows.
fn push_panes(
    out: &mut Vec<u8>,
    sight: &Sight,
    script: &[u8],
    rows: usize,
    columns: usize,
) -> Result<(), AllocError> {
    let lines = lines_of(*out.allocator(), script)?;
    let ranks = &sight.ranks.items;
    let above = above(lines.len(), sight.focus, rows);
    for row in 0..rows {
        let place = above + row;
        let line = lines.get(place).copied();
        push_left(
            out,
            ranks,
            place.saturating_add(1),
            line,
            left_columns(columns),
        )?;
        out.extend_from_slice(BETWEEN)?;
        push_right(out, ranks, row, right_columns(columns))?;
        out.push(b'\n')?;
    }
    Ok(())
}

// ---- the whole

/// Adds the row that says where it stands.
fn push_state(
    out: &mut Vec<u8>,
    sight: &Sight,
    code: &Code,
    script: &[u8],
    columns: usize,
) -> Result<(), AllocError> {
    let alloc = *out.allocator();
    let mut standing = String::new(alloc);
    push_position(&mut standing, script, code, Marks::none(), &sight.position)?;
    let mut state = String::new(alloc);
    write!(state, "-- depth {}; ", sight.depth)?;
    let mut row = Vec::new(alloc);
    row.extend_from_slice(state.as_bytes())?;
    if let Some((line, _)) = cut_line(standing.as_bytes()) {
        row.extend_from_slice(bare_line(line))?;
    }
    row.push(b' ')?;
    for _column in row.len()..columns {
        row.push(b'-')?;
    }
    push_cut(out, &row, columns)?;
    out.push(b'\n')?;
    Ok(())
}

/// Adds a line of an answer, with its line feed, if it has one.
fn push_answer_line(out: &mut Vec<u8>, line: &[u8], columns: usize) -> Result<(), AllocError> {
    push_cut(out, bare_line(line), columns)?;
    if line.ends_with(b"\n") {
        out.push(b'\n')?;
    }
    Ok(())
}

/// Adds the last lines of an answer, so many rows at most; of those above how many they are.
fn push_answer(
    out: &mut Vec<u8>,
    told: &[u8],
    rows: usize,
    columns: usize,
) -> Result<(), AllocError> {
    let alloc = *out.allocator();
    let lines = lines_of(alloc, told)?;
    let mut above = 0;
    if lines.len() > rows {
        above = (lines.len() - rows).saturating_add(1);
        let mut more = String::new(alloc);
        write!(more, ".. {above} lines above")?;
        push_cut(out, more.as_bytes(), columns)?;
        out.push(b'\n')?;
    }
    for (place, line) in lines.iter().enumerate() {
        if place >= above {
            push_answer_line(out, line, columns)?;
        }
    }
    Ok(())
}

/// Adds the screen of this size after an answer, given the script's code and text. `Err` means that
/// memory was refused.
pub(crate) fn push_screen(
    out: &mut Vec<u8>,
    sight: &Sight,
    code: &Code,
    script: &[u8],
    told: &[u8],
    size: Size,
) -> Result<(), AllocError> {
    let rows = pane_rows(size.rows, sight.ranks.items.len());
    out.extend_from_slice(CLEAR)?;
    push_panes(out, sight, script, rows, size.columns)?;
    push_state(out, sight, code, script, size.columns)?;
    let count = size.rows.saturating_sub(rows).saturating_sub(1);
    push_answer(out, told, count, size.columns)
}
