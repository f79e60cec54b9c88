//! The script, and which ranks stand at its lines.

ghost use Rattle.std.specs.Prelude.{◌<◌};

use crate::place::Stands;
use mpd_model::{bare_line, cut_line};
use std::alloc::AllocError;

/// What is said of a rank that stands so, after its name: nothing of one that runs.
fn note_of(stands: Stands) -> &'static str {
    match stands {
        Stands::Ended | Stands::At(_) => "",
        Stands::Waits(_) => " waits",
        Stands::CanGoOn(_) => " can go on",
        Stands::Trapped(..) => " trapped",
    }
}

/// Adds the ranks that stand at a line.
fn push_ranks_at(out: &mut String, standing: &[Stands], line: usize) -> Result<(), AllocError> {
    let mut before = "  <- ";
    for (rank, stands) in standing.iter().enumerate() {
        if stands.line() == Some(line) {
            write!(out, "{before}rank {rank}{}", note_of(*stands))?;
            before = ", ";
        }
    }
    Ok(())
}

/// How a byte of a script is shown.
fn shown(byte: u8) -> u8
    ensures ascii { result < 128 }
{
    if byte < 128 { byte } else { b'?' }
}

/// Adds the bytes of a line.
pub(crate) fn push_shown(out: &mut String, line: &[u8]) -> Result<(), AllocError> {
    for byte in line {
        out.push(shown(*byte) as char)?;
    }
    Ok(())
}

/// Adds a number, to the right in five columns.
pub(crate) fn push_column(out: &mut String, number: usize) -> Result<(), AllocError> {
    write!(out, "{number:>5}")
}

/// Adds a line of the script, which has this number, with the ranks that stand there.
fn push_line(
    out: &mut String,
    standing: &[Stands],
    number: usize,
    line: &[u8],
) -> Result<(), AllocError> {
    push_column(out, number)?;
    out.push_str("  ")?;
    push_shown(out, line)?;
    push_ranks_at(out, standing, number)?;
    out.push('\n')
}

/// Whether a line is shown: each, or those about one.
fn is_shown(about: Option<usize>, number: usize) -> bool {
    match about {
        None => true,
        Some(about) => about.abs_diff(number) <= 4,
    }
}

/// Adds the lines of a text, all or those about one.
fn push_lines(
    out: &mut String,
    text: &[u8],
    standing: &[Stands],
    about: Option<usize>,
) -> Result<(), AllocError> {
    let mut rest = text;
    let mut number = 0usize;
    while let Some((line, behind)) = cut_line(rest) {
        number = number.saturating_add(1);
        if is_shown(about, number) {
            push_line(out, standing, number, bare_line(line))?;
        }
        rest = behind;
    }
    Ok(())
}

/// Adds the line of the ranks that have ended, if some have.
fn push_ended(out: &mut String, standing: &[Stands]) -> Result<(), AllocError> {
    let mut before = "ended: ";
    let mut end = "";
    for (rank, stands) in standing.iter().enumerate() {
        if let Stands::Ended = stands {
            write!(out, "{before}rank {rank}")?;
            (before, end) = (", ", "\n");
        }
    }
    out.push_str(end)
}

/// Adds the text of a script line by line, with the ranks that stand at each, and below it those
/// that have ended, given where all ranks stand (`all_stands`). `Err` means that memory was refused.
pub fn push_list(out: &mut String, text: &[u8], standing: &[Stands]) -> Result<(), AllocError> {
    push_lines(out, text, standing, None)?;
    push_ended(out, standing)
}

/// Adds the lines of a script about the one where a rank stands, or that it has ended, and nothing
/// if there is no such rank, given where all ranks stand. `Err` means that memory was refused.
pub fn push_list_about(
    out: &mut String,
    text: &[u8],
    standing: &[Stands],
    rank: usize,
) -> Result<(), AllocError> {
    match standing.get(rank).map(|stands| stands.line()) {
        None => Ok(()),
        Some(None) => write!(out, "rank {rank} has ended\n"),
        Some(about) => push_lines(out, text, standing, about),
    }
}
