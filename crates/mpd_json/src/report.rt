//! Reports of `check` as JSON.

use crate::blame::blame_value;
use crate::end::end_value;
use crate::place::{ToldScript, begun, count_value, counts_value, ending_value, judged};
use mpd_check::{Listing, OutcomesListing, Tally, Telling, found_in};
use mpd_explore::SearchLeaf;
use mpd_lines::Verdict;
use mpd_model::Mode;
use mpd_object::{Object, line, numbers};
use mpd_outcomes::Count;
use serde_json::Value;
use std::alloc::{AllocError, Global};

/// The steps of the witness at a place as `verify` reads them, or null.
fn witness_value(alloc: Global, witnesses: &[String], place: usize) -> Result<Value, AllocError> {
    match witnesses.get(place) {
        Some(text) if !text.is_empty() => {
            let steps = text.as_str();
            let steps = steps.strip_prefix(": ").unwrap_or(steps);
            let steps = steps.strip_suffix('\n').unwrap_or(steps);
            Value::try_from_str(alloc, steps)
        }
        _ => Ok(Value::Null),
    }
}

/// A leaf that is shown at a place, with what stands beside it.
fn leaf_value(
    alloc: Global,
    script: ToldScript<'_>,
    listing: &Listing,
    place: usize,
    leaf: &SearchLeaf,
) -> Result<Value, AllocError> {
    let (number, count) = match listing.groups.get(place) {
        None => (place, 1),
        Some(group) => (group.first, group.count),
    };
    let end = match listing.ends.get(place) {
        None => Ok(Value::Null),
        Some(end) => end_value(alloc, script, end),
    };
    let count = count_value(alloc, Count::Exactly(count as u64), "runs");
    let witness = witness_value(alloc, &listing.shown.witnesses, place);
    Object::new(alloc)
        .number("leaf", number)
        .with("runs", count)
        .with("choices", numbers(alloc, &leaf.choices.items))
        .with("ending", ending_value(alloc, script, &leaf.ending))
        .with("witness", witness)
        .with("end", end)
        .done()
}

/// The leaves that are shown, as a list.
fn leaves_value(
    alloc: Global,
    script: ToldScript<'_>,
    listing: &Listing,
) -> Result<Value, AllocError> {
    let mut values = Vec::new(alloc);
    for (place, leaf) in listing.shown.leaves.iter().enumerate() {
        values.push(leaf_value(alloc, script, listing, place, leaf)?)?;
    }
    Ok(Value::Array(values))
}

/// A report by its leaves, as an object on a line. `is_whole` says whether it has every way in
/// which the script can end. `Err` means that memory was refused, here and below.
pub fn listing_json(
    alloc: Global,
    script: ToldScript<'_>,
    telling: Telling<'_>,
    listing: &Listing,
    verdict: Verdict,
    is_whole: bool,
) -> Result<String, AllocError> {
    let counts = counts_value(alloc, listing.tally.ways(), "runs");
    let report = if telling.group { "groups" } else { "leaves" };
    let object = judged(begun(alloc, report, script), verdict)
        .with("counts", counts)
        .flag("more", listing.tally.more)
        .flag("whole", is_whole)
        .with("leaves", leaves_value(alloc, script, listing));
    line(alloc, object.done())
}

/// A way to end, by its number.
fn outcome_value(
    alloc: Global,
    script: ToldScript<'_>,
    listing: &OutcomesListing,
    number: usize,
    first: &SearchLeaf,
) -> Result<Value, AllocError> {
    let outcomes = &listing.outcomes;
    let count = outcomes
        .counts
        .get(number)
        .copied()
        .unwrap_or(Count::Exactly(0));
    let end = match listing.ends.get(number) {
        None => Ok(Value::Null),
        Some(end) => end_value(alloc, script, end),
    };
    let blame = listing.blames.get(number).copied().unwrap_or(None);
    let witness = witness_value(alloc, &outcomes.firsts.witnesses, number);
    Object::new(alloc)
        .number("outcome", number)
        .with("runs", count_value(alloc, count, "runs"))
        .with("choices", numbers(alloc, &first.choices.items))
        .with("ending", ending_value(alloc, script, &first.ending))
        .with("witness", witness)
        .with("end", end)
        .with("decided", blame_value(alloc, script, blame))
        .done()
}

/// The ways to end, as a list.
fn outcomes_value(
    alloc: Global,
    script: ToldScript<'_>,
    listing: &OutcomesListing,
) -> Result<Value, AllocError> {
    let mut values = Vec::new(alloc);
    for (number, first) in listing.outcomes.firsts.leaves.iter().enumerate() {
        values.push(outcome_value(alloc, script, listing, number, first)?)?;
    }
    Ok(Value::Array(values))
}

/// The ways to end, as an object on a line.
pub fn outcomes_json(
    alloc: Global,
    script: ToldScript<'_>,
    listing: &OutcomesListing,
    verdict: Verdict,
    is_whole: bool,
) -> Result<String, AllocError> {
    let found = found_in(&listing.outcomes);
    let object = judged(begun(alloc, "outcomes", script), verdict)
        .with("counts", counts_value(alloc, found.counts, "runs"))
        .number("states", found.states)
        .flag("more", found.tally.more)
        .flag("whole", is_whole)
        .with("outcomes", outcomes_value(alloc, script, listing));
    line(alloc, object.done())
}

/// What the report of a mode that is tried in turn tells, as an object on a line; `of` says what is
/// counted.
pub fn mode_json(
    alloc: Global,
    script: ToldScript<'_>,
    of: &str,
    tally: Tally,
) -> Result<String, AllocError> {
    let object = begun(alloc, "mode", script)
        .with("counts", counts_value(alloc, tally.ways(), of))
        .flag("more", tally.more);
    line(alloc, object.done())
}

/// The first of these modes in which no deadlock and no trap is listed, as an object on a line.
pub fn least_json(
    alloc: Global,
    least: Option<Mode>,
    verdict: Verdict,
) -> Result<String, AllocError> {
    let object = judged(Object::new(alloc).text("report", "least"), verdict);
    let object = match least {
        Some(mode) => object.shown("mode", mode),
        None => object.null("mode"),
    };
    line(alloc, object.done())
}
