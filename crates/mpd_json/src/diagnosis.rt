//! Diagnoses as JSON.

use crate::blame::blame_value;
use crate::end::end_value;
use crate::place::{ToldScript, begun, count_value, counts_value, judged};
use mpd_blame::PlacedBlame;
use mpd_diagnose::{Diagnosis, EndKind, Group, Runs};
use mpd_lines::Verdict;
use mpd_object::{Object, line, numbers};
use serde_json::Value;
use std::alloc::{AllocError, Global};

/// The word of a kind of end.
fn kind_word(kind: EndKind) -> &'static str {
    match kind {
        EndKind::Done => "done",
        EndKind::Leftovers => "leftovers",
        EndKind::Deadlock => "deadlock",
        EndKind::Trap => "trap",
        EndKind::Cut => "cut",
    }
}

/// The choices of the run of a number, as a list.
fn choices_value(alloc: Global, runs: &Runs, number: usize) -> Result<Value, AllocError> {
    match runs.outcomes.firsts.leaves.get(number) {
        Some(leaf) => numbers(alloc, &leaf.choices.items),
        None => Ok(Value::Null),
    }
}

/// Ends that are told together: of which kind they are, at which lines they stand, how many runs
/// end so, and of these one.
fn group_value(
    alloc: Global,
    script: ToldScript<'_>,
    runs: &Runs,
    group: Group,
    blame: Option<PlacedBlame>,
) -> Result<Value, AllocError> {
    let Some(first) = runs.ends.get(group.first) else {
        return Ok(Value::Null);
    };
    let Some(shown) = runs.ends.get(group.shown) else {
        return Ok(Value::Null);
    };
    Object::new(alloc)
        .text("ends", kind_word(first.cause.kind))
        .with("lines", numbers(alloc, &first.cause.lines.items))
        .with("runs", count_value(alloc, group.count, "runs"))
        .with("choices", choices_value(alloc, runs, group.shown))
        .number("steps", shown.steps)
        .with("end", end_value(alloc, script, &shown.end))
        .with("decided", blame_value(alloc, script, blame))
        .done()
}

/// Groups of ends, as a list.
fn groups_value(alloc: Global, script: ToldScript<'_>, runs: &Runs) -> Result<Value, AllocError> {
    let mut values = Vec::new(alloc);
    for (place, group) in runs.groups.iter().enumerate() {
        let blame = runs.blames.get(place).copied().unwrap_or(None);
        values.push(group_value(alloc, script, runs, *group, blame)?)?;
    }
    Ok(Value::Array(values))
}

/// What is known of runs.
fn runs_value(alloc: Global, script: ToldScript<'_>, runs: &Runs) -> Result<Value, AllocError> {
    Object::new(alloc)
        .with("counts", counts_value(alloc, runs.counts, "runs"))
        .flag("more", runs.counts.more)
        .number("states", runs.outcomes.visited)
        .with("groups", groups_value(alloc, script, runs))
        .done()
}

/// A diagnosis as an object on a line. `Err` means that memory was refused.
pub fn diagnosis_json(
    alloc: Global,
    script: ToldScript<'_>,
    diagnosis: &Diagnosis,
    verdict: Verdict,
) -> Result<String, AllocError> {
    let drawn = match &diagnosis.drawn {
        Some(runs) => runs_value(alloc, script, runs),
        None => Ok(Value::Null),
    };
    let object = judged(begun(alloc, "diagnosis", script), verdict)
        .with("found", runs_value(alloc, script, &diagnosis.found))
        .with("drawn", drawn);
    line(alloc, object.done())
}
