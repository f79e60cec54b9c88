//! What a diagnosis comes to, in a line for a number of ranks or a mode (docs/FORMATS.md, "Several
//! numbers of ranks", "Several modes").

use crate::diagnosis::Diagnosis;
use crate::told::{push_in_mode, push_number, push_runs};
use crate::verdict::{drawn_counts, ends_well};
use mpd_lines::push_folded;
use mpd_model::Mode;
use mpd_outcomes::Count;
use mpd_runs::{WayCounts, is_count};
use std::alloc::{AllocError, Global};

/// A number of ranks.
fn ranks_head(alloc: Global, ranks: usize) -> Result<String, AllocError> {
    let mut out = String::new(alloc);
    write!(out, "{ranks}")?;
    out.push_str(if ranks == 1 { " rank: " } else { " ranks: " })?;
    Ok(out)
}

/// A mode, before what is told of it.
fn mode_head(alloc: Global, mode: Mode) -> Result<String, AllocError> {
    let mut out = String::new(alloc);
    write!(out, "{mode}: ")?;
    Ok(out)
}

/// A mode, in what is told of a number of ranks.
fn mode_place(alloc: Global, mode: Mode) -> Result<String, AllocError> {
    let mut out = String::new(alloc);
    push_in_mode(&mut out, mode)?;
    Ok(out)
}

/// Adds how many runs do something, where some do.
fn push_count_if(out: &mut String, count: Count, does: &str) -> Result<(), AllocError> {
    if is_count(count, 0) {
        return Ok(());
    }
    out.push_str(", ")?;
    push_number(out, count)?;
    out.push_str(does)
}

/// Adds that there are others, where there are.
fn push_and_more(out: &mut String, more: bool) -> Result<(), AllocError> {
    if more {
        out.push_str(" and more")
    } else {
        Ok(())
    }
}

/// Adds that no run hangs or traps, where none does.
fn push_none(out: &mut String, counts: WayCounts) -> Result<(), AllocError> {
    if ends_well(counts) {
        out.push_str(", none hangs or traps")
    } else {
        Ok(())
    }
}

/// Adds how many of some runs hang, trap, and end with calls left over.
fn push_ways(out: &mut String, counts: WayCounts) -> Result<(), AllocError> {
    push_count_if(out, counts.deadlock, " hang")?;
    push_count_if(out, counts.trap, " trap")?;
    push_none(out, counts)?;
    push_count_if(out, counts.leftovers, " with calls left over")?;
    Ok(())
}

/// Adds what becomes of runs that were drawn.
fn push_drawn_text(out: &mut String, counts: WayCounts) -> Result<(), AllocError> {
    out.push_str("; drawn at random: ")?;
    push_runs(out, counts.total)?;
    push_ways(out, counts)?;
    Ok(())
}

/// The same where some were drawn.
fn push_drawn(out: &mut String, drawn: Option<WayCounts>) -> Result<(), AllocError> {
    match drawn {
        None => Ok(()),
        Some(counts) => push_drawn_text(out, counts),
    }
}

/// What a diagnosis comes to, with what it is told of before it, and where that is said again after
/// how many runs there are.
fn brief_text(
    alloc: Global,
    head: &str,
    place: &str,
    counts: WayCounts,
    drawn: Option<WayCounts>,
) -> Result<String, AllocError> {
    let mut out = String::new(alloc);
    out.push_str(head)?;
    push_runs(&mut out, counts.total)?;
    push_and_more(&mut out, counts.more)?;
    out.push_str(place)?;
    push_ways(&mut out, counts)?;
    push_count_if(&mut out, counts.cut, " cut")?;
    push_drawn(&mut out, drawn)?;
    Ok(out)
}

/// Its line. A long one goes on in further lines.
fn brief_line(
    alloc: Global,
    head: &str,
    place: &str,
    diagnosis: &Diagnosis,
) -> Result<Vec<u8>, AllocError> {
    let mut text = brief_text(
        alloc,
        head,
        place,
        diagnosis.found.counts,
        drawn_counts(diagnosis),
    )?;
    text.push('\n')?;
    let mut out = Vec::new(alloc);
    push_folded(&mut out, text.as_bytes())?;
    Ok(out)
}

/// A line of what a diagnosis comes to, for a number of ranks and in a mode: how many runs there
/// are, and how many of them hang, trap, end with calls left over and are cut. A long one goes on
/// in further lines. An `Err` is want of memory.
pub fn ranks_line(
    alloc: Global,
    ranks: usize,
    mode: Mode,
    diagnosis: &Diagnosis,
) -> Result<Vec<u8>, AllocError> {
    let head = ranks_head(alloc, ranks)?;
    let place = mode_place(alloc, mode)?;
    brief_line(alloc, &head, &place, diagnosis)
}

/// The same for a mode. An `Err` is want of memory.
pub fn mode_line(alloc: Global, mode: Mode, diagnosis: &Diagnosis) -> Result<Vec<u8>, AllocError> {
    let head = mode_head(alloc, mode)?;
    brief_line(alloc, &head, "", diagnosis)
}
