//! The runs from a debugger's state, along the wide walk, which takes two steps that do not
//! conflict in one order alone; and what is said of them (docs/CONSOLE.md, "Looking ahead").

ghost use Rattle.std.specs.Prelude.{◌≡◌, ◌≤◌, ◌+◌, true, IfOk, length};
ghost use Rattle.std.specs.List.{AllByRecursion};
ghost use Rattle.mpd_model.specs.runs.Trail.{done_steps};
ghost use Rattle.mpd_trail.specs.DebuggerViews.{AsFound, standing_of};
ghost use Rattle.mpd_explore.specs.Report.{ended_by, left_out};
ghost use Rattle.mpd_explore.specs.Witness.{HasWitness};
ghost use Rattle.mpd_policy.specs.Wide.{wide_decision};
ghost use Rattle.mpd_runs.specs.Runs as spec;

use crate::counts::{WayCounts, counts_of, is_count};
use crate::way::{WAYS, Way};
use mpd_explore::{
    Ending, SearchLeaf, SearchLimits, SearchReport, Unwatched, Witnesses, explore_watched,
};
use mpd_model::{RUNS_MAX, STEPS_MAX};
use mpd_names::{Marks, end_name, push_end_places};
use mpd_outcomes::{Count, push_count};
use mpd_trail::Debugger;
use std::alloc::{AllocError, Global};

/// How many steps a run has at most that is tried.
pub const FUEL: usize = 100_000;

/// How many choices of a run are told in its line; of the others their number is.
pub const CHOICES_TOLD: usize = 40;

/// How many steps a run may have after `depth` others: as many as can be kept.
pub(crate) fn fuel_at(depth: usize) -> usize
    requires { depth ≤ STEPS_MAX }
    ensures value { result ≡ spec.fuel_at depth }
    ensures fits { depth + result ≤ STEPS_MAX }
{
    let left = STEPS_MAX - depth;
    if left < FUEL { left } else { FUEL }
}

/// The first `runs` runs from the debugger's state, if there are as many; with `until_bad`, up to
/// the first deadlock or trap. `Err` means that memory was refused.
pub(crate) fn first_runs(
    alloc: Global,
    debugger: &mut Debugger<'_>,
    runs: usize,
    fuel: usize,
    until_bad: bool,
) -> Result<SearchReport, AllocError>
    requires clean { length debugger.old.trail.steps ≡ debugger.old.trail.depth }
    requires fits { debugger.old.trail.depth + fuel ≤ STEPS_MAX }
    ensures leaves { IfOk result (λ r. r.leaves.items ≡ ended_by until_bad (spec.first_runs runs fuel debugger.old.world)) }
    ensures more { IfOk result (λ r. r.more ≡ left_out (record { runs = runs; fuel = fuel; witnesses = Witnesses.OfNone; until_bad = until_bad; ends = true }) (spec.all_runs fuel debugger.old.world)) }
    ensures has { IfOk result (λ r. AllByRecursion (HasWitness wide_decision debugger.old.trail.program debugger.old.trail.mode (done_steps debugger.old.trail) fuel debugger.old.world) r.leaves.items) }
    ensures as_found { AsFound (standing_of debugger.old) (standing_of debugger.new) }
{
    let limits = SearchLimits {
        runs,
        fuel,
        witnesses: Witnesses::OfNone,
        until_bad,
        ends: true,
    };
    explore_watched(alloc, debugger, limits, &mut Unwatched)
}

/// The first runs from the debugger's state, in the order of the walk.
fn runs_from(
    alloc: Global,
    debugger: &Debugger<'_>,
    runs: usize,
) -> Result<SearchReport, AllocError>
    ensures leaves { IfOk result (λ r. r.leaves.items ≡ spec.first_runs runs (spec.fuel_at debugger.now.trail.depth) debugger.now.world) }
    ensures more { IfOk result (λ r. r.more ≡ spec.are_more runs (spec.fuel_at debugger.now.trail.depth) debugger.now.world) }
{
    debugger.state_is_reached();
    let fuel = fuel_at(debugger.depth());
    let mut copy = debugger.copy()?;
    first_runs(alloc, &mut copy, runs, fuel, false)
}

/// Whether this number of runs may be asked for.
pub(crate) fn is_number(runs: usize) -> bool
    ensures { result ≡ spec.is_number runs }
{
    !(runs == 0 || runs > RUNS_MAX)
}

// ---- what is said of them

/// Adds the numbers of candidates, from 1.
fn push_choices(out: &mut String, choices: &[usize]) -> Result<(), AllocError> {
    for choice in choices {
        let number = *choice as u128 + 1;
        write!(out, " {number}")?;
    }
    Ok(())
}

/// Adds which candidates are taken: the first of them, and how many follow.
fn push_choices_words(out: &mut String, choices: &[usize]) -> Result<(), AllocError> {
    if choices.is_empty() {
        return out.push_str("no choice");
    }
    out.push_str("choices")?;
    if choices.len() <= CHOICES_TOLD {
        return push_choices(out, choices);
    }
    let (told, untold) = choices.split_at(CHOICES_TOLD);
    push_choices(out, told)?;
    write!(out, " .. {} more", untold.len())
}

/// How a run ends, in a word.
pub(crate) fn ending_name(ending: &Ending) -> &'static str {
    match ending {
        Ending::Cut => "cut",
        Ending::Ended(outcome) => end_name(outcome),
    }
}

/// Adds where it has ended, given the line of each statement.
pub(crate) fn push_ending_places(
    out: &mut String,
    lines: &[usize],
    marks: Marks<'_>,
    ending: &Ending,
) -> Result<(), AllocError> {
    match ending {
        Ending::Cut => Ok(()),
        Ending::Ended(outcome) => push_end_places(out, lines, marks, outcome),
    }
}

/// Adds the line of a run, after `place` others.
fn push_leaf(
    out: &mut String,
    lines: &[usize],
    marks: Marks<'_>,
    place: usize,
    leaf: &SearchLeaf,
) -> Result<(), AllocError> {
    let number = place as u128 + 1;
    write!(out, "{number} ")?;
    push_choices_words(out, &leaf.choices.items)?;
    write!(out, ": {}", ending_name(&leaf.ending))?;
    push_ending_places(out, lines, marks, &leaf.ending)?;
    out.push('\n')
}

/// Adds how many runs end in each way in which any does.
fn push_tally(out: &mut String, counts: WayCounts) -> Result<(), AllocError> {
    let mut before = " (";
    for way in WAYS {
        let count = counts.of(way);
        if !is_count(count, 0) {
            out.push_str(before)?;
            push_count(out, count)?;
            write!(out, " {}", way.name())?;
            before = ", ";
        }
    }
    Ok(())
}

/// Adds the last line: how many runs there are, whether there are more, and how many end in each
/// way.
fn push_total(out: &mut String, counts: WayCounts) -> Result<(), AllocError> {
    push_count(out, counts.total)?;
    let unit = if is_count(counts.total, 1) {
        "run"
    } else {
        "runs"
    };
    let more = if counts.more {
        "there are more"
    } else {
        "no more"
    };
    write!(out, " {unit}, and {more}")?;
    push_tally(out, counts)?;
    out.push_str(")\n")
}

/// Adds the first `runs` runs from the debugger's state, or which numbers may be asked for. `Err`
/// means that memory was refused.
pub fn push_runs(
    alloc: Global,
    debugger: &Debugger<'_>,
    out: &mut String,
    marks: Marks<'_>,
    runs: usize,
) -> Result<(), AllocError> {
    if !is_number(runs) {
        return out.push_str("refused: 1 to 65536 runs can be asked for\n");
    }
    let report = runs_from(alloc, debugger, runs)?;
    let lines = debugger.core().code().lines();
    for (place, leaf) in report.leaves.iter().enumerate() {
        push_leaf(out, lines, marks, place, leaf)?;
    }
    push_total(out, counts_of(&report.leaves, report.more))?;
    out.push_str("one run for all orders of independent steps; diagnose counts each order\n")
}

/// Whether some runs have all ways to end: there are no more, and none is cut.
pub fn sees_all(counts: WayCounts) -> bool
    ensures { result ≡ spec.sees_all counts }
{
    !counts.more && is_count(counts.cut, 0)
}

/// Adds that no run ends in a way, and what was looked at. `Err` means that memory was refused.
pub fn push_none(out: &mut String, way: Way, counts: WayCounts) -> Result<(), AllocError> {
    let found = if sees_all(counts) { "" } else { " found" };
    write!(out, "no {}{found} from here: ", way.name())?;
    push_total(out, counts)
}
