//! What is written of a listing (docs/FORMATS.md, "Reports", "Explanations", "Groups"). If nothing
//! is asked for beside its leaves, that is the text of a report.

ghost use Rattle.std.specs.Prelude.{◌≡◌, IfOk, map, string_bytes};
ghost use Rattle.mpd_explore.specs.Printed.{told_text};
ghost use Rattle.mpd_check.specs.Listing.{IsTextOf, PutListing};

use crate::counts::Tally;
use crate::fault::CheckFault;
use crate::listing::{Listing, Telling};
use crate::{Told, put};
use mpd_code::Code;
use mpd_explain::push_end;
use mpd_explore::{Ending, SearchLeaf, print_search, push_leaf_text};
use mpd_lines::EngineFault;
use mpd_model::{Sink, print_outcome};
use mpd_names::Marks;
use std::alloc::{AllocError, Global};

/// Adds how a run ends, as its line has it.
fn push_ending(alloc: Global, out: &mut String, ending: &Ending) -> Result<(), AllocError> {
    match ending {
        Ending::Cut => out.push_str("cut"),
        Ending::Ended(outcome) => {
            let text = print_outcome(alloc, outcome)?;
            out.push_str(&text)
        }
    }
}

/// Adds the line of the leaf that is shown at a place, or of its group, and returns its number.
fn push_head(
    alloc: Global,
    out: &mut String,
    listing: &Listing,
    place: usize,
    leaf: &SearchLeaf,
) -> Result<usize, AllocError> {
    let number = match listing.groups.get(place) {
        None => {
            write!(out, "leaf {place} ")?;
            push_leaf_text(alloc, out, leaf)?;
            place
        }
        Some(group) => {
            let first = group.first;
            write!(out, "end {place} leaves {} first {first} ", group.count)?;
            push_ending(alloc, out, &leaf.ending)?;
            first
        }
    };
    out.push('\n')?;
    Ok(number)
}

/// Adds the line of the witness at a place, if there is one, with its number.
pub(crate) fn push_witness(
    out: &mut String,
    witnesses: &[String],
    place: usize,
    number: usize,
) -> Result<(), AllocError> {
    match witnesses.get(place) {
        Some(text) if !text.is_empty() => write!(out, "witness {number}{text}"),
        _ => Ok(()),
    }
}

/// A listing with what stands beside its leaves, as text.
fn explained_text(
    alloc: Global,
    code: &Code,
    marks: Marks<'_>,
    listing: &Listing,
) -> Result<String, AllocError> {
    let mut out = String::new(alloc);
    for (place, leaf) in listing.shown.leaves.iter().enumerate() {
        let number = push_head(alloc, &mut out, listing, place, leaf)?;
        push_witness(&mut out, &listing.shown.witnesses, place, number)?;
        if let Some(end) = listing.ends.get(place) {
            push_end(&mut out, code.decls(), marks, end)?;
        }
    }
    let more = if listing.tally.more { "yes" } else { "no" };
    write!(out, "leaves {} more {more}\n", listing.tally.runs)?;
    Ok(out)
}

/// A listing that has nothing beside its leaves, as text.
fn plain_text(alloc: Global, listing: &Listing) -> Result<Vec<u8>, AllocError>
    ensures { IfOk result (λ t. t.items ≡ told_text (map string_bytes listing.now.shown.witnesses.items) listing.now.shown.leaves.items listing.now.shown.more) }
{
    let text = print_search(alloc, &listing.shown)?;
    Ok(text.into_bytes())
}

/// A listing as text.
fn text_of(
    alloc: Global,
    code: &Code,
    telling: Telling<'_>,
    listing: &Listing,
) -> Result<Vec<u8>, AllocError>
    ensures { IfOk result (λ t. IsTextOf telling.entry listing.now t.items) }
{
    if !telling.explain && !telling.group {
        return plain_text(alloc, listing);
    }
    let marks = Marks {
        script: telling.script,
    };
    let text = explained_text(alloc, code, marks, listing)?;
    Ok(text.into_bytes())
}

/// Writes a listing, and returns what it tells. `WriteFailed` (46) comes only if a write failed,
/// and `Memory` only before anything is written.
pub fn put_listing<W: Sink>(
    alloc: Global,
    code: &Code,
    telling: Telling<'_>,
    listing: &Listing,
    sink: &mut W,
) -> Result<Tally, CheckFault>
    ensures { PutListing telling.entry listing.now (W.seen sink.old) (W.seen sink.new) result }
{
    let tally = listing.tally;
    match text_of(alloc, code, telling, listing) {
        Ok(text) => put(Told { text, tally }, sink),
        Err(_) => Err(CheckFault::Engine(EngineFault::Memory)),
    }
}
