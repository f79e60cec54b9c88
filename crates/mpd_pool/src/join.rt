//! The reports of all pieces joined in their order.
ghost use Rattle.std.specs.Prelude.{◌≡◌, ◌<◌, ◌+◌, ◌++◌, ◌||◌, List, [], length, map, IfOk, OnOk, IfSome, take, string_bytes};
ghost use Rattle.mpd_model.specs.runs.Trail.{Standing};
ghost use Rattle.mpd_trail.specs.DebuggerViews.{standing_of};
ghost use Rattle.mpd_explore.specs.declared.report.SearchLimits.{SearchLimits};
ghost use Rattle.mpd_explore.specs.declared.splitter.Piece.{Piece};
ghost use Rattle.mpd_pool.specs.Parts.{AtNumber, CanExplore, Filled, IsJoined, IsReport, Added};

use crate::gate::Gate;
use crate::work::{Task, compute};
use mpd_explore::{SearchReport, is_left, is_more};
use mpd_policy::decisions_can_be_followed;
use mpd_trail::Debugger;
use std::alloc::{AllocError, Global};

/// Takes what is in a place.
fn taken(slots: &mut Vec<Option<SearchReport>>, number: usize) -> Option<SearchReport>
    requires within { number < length slots.old.items }
    ensures part { (d : Standing) (l : SearchLimits) (ps : List Piece) → Filled d l ps slots.old.items → IfSome result (λ r. AtNumber d l ps number r) }
    ensures filled { (d : Standing) (l : SearchLimits) (ps : List Piece) → Filled d l ps slots.old.items → Filled d l ps slots.new.items }
{
    slots[number].take()
}

/// The report of a piece: what was brought, or else what is computed here.
fn report_of<G: Gate>(
    alloc: Global,
    debugger: &mut Debugger<'_>,
    task: Task<'_, G>,
    number: usize,
    slots: &mut Vec<Option<SearchReport>>,
) -> Result<SearchReport, AllocError>
    requires within { number < length task.pieces.now }
    requires can { CanExplore (standing_of debugger.old) task.limits task.pieces.now }
    requires filled { Filled (standing_of debugger.old) task.limits task.pieces.now slots.old.items }
    ensures part { IfOk result (λ r. AtNumber (standing_of debugger.old) task.entry.limits task.entry.pieces.now number r) }
    ensures filled { Filled (standing_of debugger.old) task.entry.limits task.entry.pieces.now slots.new.items }
    ensures same { standing_of debugger.new ≡ standing_of debugger.old }
{
    match taken(slots, number) {
        Some(report) => Ok(report),
        None => compute(alloc, debugger, task, number),
    }
}

/// Adds the leaves of a report, and their texts, after those of another. One of the two has more, or neither.
fn add(all: &mut SearchReport, report: SearchReport) -> Result<(), AllocError>
    ensures leaves { OnOk result (all.new.leaves.items ≡ all.old.leaves.items ++ report.leaves.items) }
    ensures more { OnOk result (all.new.more ≡ (all.old.more || report.more)) }
    ensures texts { OnOk result (map string_bytes all.new.witnesses.items ≡ map string_bytes all.old.witnesses.items ++ map string_bytes report.witnesses.items) }
{
    let SearchReport {
        mut leaves,
        more,
        mut witnesses,
    } = report;
    all.leaves.append(&mut leaves)?;
    all.witnesses.append(&mut witnesses)?;
    all.more = all.more || more;
    Ok(())
}

/// Adds the report of a piece, and returns whether the report of all ends with it.
fn add_piece<G: Gate>(
    alloc: Global,
    debugger: &mut Debugger<'_>,
    task: Task<'_, G>,
    number: usize,
    slots: &mut Vec<Option<SearchReport>>,
    all: &mut SearchReport,
) -> Result<bool, AllocError>
    requires within { number < length task.pieces.now }
    requires can { CanExplore (standing_of debugger.old) task.limits task.pieces.now }
    requires filled { Filled (standing_of debugger.old) task.limits task.pieces.now slots.old.items }
    requires joined { IsJoined (standing_of debugger.old) task.limits (take number task.pieces.now) all.old }
    ensures added { IfOk result (λ last. Added (standing_of debugger.old) task.entry.limits task.entry.pieces.now (number + 1) last all.new) }
    ensures filled { Filled (standing_of debugger.old) task.entry.limits task.entry.pieces.now slots.new.items }
    ensures same { standing_of debugger.new ≡ standing_of debugger.old }
{
    decisions_can_be_followed();
    let report = report_of(alloc, debugger, task, number, slots)?;
    let is_last = task.limits.ends_with_report(&report);
    add(all, report)?;
    if !is_last {
        return Ok(false);
    }
    let others = is_left(alloc, debugger, task.pieces, number + 1, task.limits)?;
    all.more = is_more(all.more, others);
    Ok(true)
}

/// Adds the reports of the pieces, up to the one that the report ends with. What nobody brought is computed here.
fn add_all<G: Gate>(
    alloc: Global,
    debugger: &mut Debugger<'_>,
    task: Task<'_, G>,
    slots: &mut Vec<Option<SearchReport>>,
    all: &mut SearchReport,
) -> Result<(), AllocError>
    requires can { CanExplore (standing_of debugger.old) task.limits task.pieces.now }
    requires filled { Filled (standing_of debugger.old) task.limits task.pieces.now slots.old.items }
    requires joined { IsJoined (standing_of debugger.old) task.limits [] all.old }
    ensures report { OnOk result (IsReport (standing_of debugger.old) task.entry.limits task.entry.pieces.now all.new) }
    ensures same { standing_of debugger.new ≡ standing_of debugger.old }
{
    for number in 0..task.pieces.len() {
        let is_last = add_piece(alloc, debugger, task, number, slots, all)?;
        if is_last {
            return Ok(());
        }
    }
    Ok(())
}

/// The report of all pieces, in order, up to the first bad leaf if a list ends with that. What
/// nobody brought is computed here. The debugger is left as found.
pub(crate) fn join_all<G: Gate>(
    alloc: Global,
    debugger: &mut Debugger<'_>,
    task: Task<'_, G>,
    slots: &mut Vec<Option<SearchReport>>,
) -> Result<SearchReport, AllocError>
    requires can { CanExplore (standing_of debugger.old) task.limits task.pieces.now }
    requires filled { Filled (standing_of debugger.old) task.limits task.pieces.now slots.old.items }
    ensures report { IfOk result (λ r. IsReport (standing_of debugger.old) task.entry.limits task.entry.pieces.now r) }
    ensures same { standing_of debugger.new ≡ standing_of debugger.old }
{
    let mut all = SearchReport {
        leaves: Vec::new(alloc),
        more: false,
        witnesses: Vec::new(alloc),
    };
    match add_all(alloc, debugger, task, slots, &mut all) {
        Ok(()) => Ok(all),
        Err(fault) => {
            drop(all);
            Err(fault)
        }
    }
}
