//! A report made piece by piece: what workers that explore pieces come to when their parts are joined in order.

ghost use Rattle.std.specs.Prelude.{◌≡◌, ◌+◌, ◌<◌, ◌≤◌, ◌++◌, ◌||◌, ◌&&◌, nat_lt, false, map, drop, IfOk, OnOk, IsErrOf, length, string_bytes};
ghost use Rattle.std.specs.List.{AllByRecursion};
ghost use Rattle.mpd_model.specs.runs.Trail.{done_steps};
ghost use Rattle.mpd_trail.specs.DebuggerViews.{AsFound, standing_of};
ghost use Rattle.mpd_explore.specs.Report.{any_bad};
ghost use Rattle.mpd_explore.specs.Sleeping.{decides_by};
ghost use Rattle.mpd_explore.specs.WitnessTexts.{witness_texts};
ghost use Rattle.mpd_explore.specs.Pieces.{Reaches, pieces, walk_at, part, part_left, split_report, split_more};
ghost use Rattle.mpd_explore.specs.Along.{choices_of, have_run, report_of, more_of};

use crate::piece_explorer::explore_at_watched;
use crate::report::{SearchLimits, SearchReport, Witnesses};
use crate::splitter::{PIECES_MAX, Piece, SplitFault, split_by};
use crate::watch::{Unwatched, Watch};
use mpd_model::STEPS_MAX;
use mpd_policy::decisions_can_be_followed;
use mpd_trail::Debugger;
use std::alloc::{AllocError, Global};

/// Adds what was found to a report.
fn join(report: &mut SearchReport, found: SearchReport) -> Result<(), AllocError>
    ensures leaves { OnOk result (report.new.leaves.items ≡ report.old.leaves.items ++ found.leaves.items) }
    ensures more { OnOk result (report.new.more ≡ (report.old.more || found.more)) }
    ensures texts { OnOk result (map string_bytes report.new.witnesses.items ≡ map string_bytes report.old.witnesses.items ++ map string_bytes found.witnesses.items) }
{
    let SearchReport {
        mut leaves,
        more,
        mut witnesses,
    } = found;
    report.leaves.append(&mut leaves)?;
    report.witnesses.append(&mut witnesses)?;
    report.more = report.more || more;
    Ok(())
}

/// Explores the runs of a piece, and adds what is found to a report. Returns whether the report
/// ends there.
fn add_part<W: Watch>(
    alloc: Global,
    debugger: &mut Debugger<'_>,
    piece: &Piece,
    limits: SearchLimits,
    watch: &mut W,
    report: &mut SearchReport,
) -> Result<bool, AllocError>
    requires clean { length debugger.old.trail.steps ≡ debugger.old.trail.depth }
    requires fits { debugger.old.trail.depth + limits.fuel ≤ STEPS_MAX }
    requires reaches { Reaches (decides_by limits.ends) limits.fuel piece.now.choices debugger.old.world }
    ensures leaves { OnOk result (report.new.leaves.items ≡ report.old.leaves.items ++ part limits piece.now.choices debugger.old.world) }
    ensures more { OnOk result (report.new.more ≡ (report.old.more || part_left limits piece.now.choices debugger.old.world)) }
    ensures texts { OnOk result (map string_bytes report.new.witnesses.items ≡ map string_bytes report.old.witnesses.items ++ witness_texts (decides_by limits.ends) limits.witnesses (done_steps debugger.old.trail) limits.fuel debugger.old.world (part limits piece.now.choices debugger.old.world)) }
    ensures last { IfOk result (λ last. last ≡ (limits.until_bad && any_bad (part limits piece.now.choices debugger.old.world))) }
    ensures as_found { AsFound (standing_of debugger.old) (standing_of debugger.new) }
{
    let found = explore_at_watched(alloc, debugger, &piece.choices.items, limits, watch)?;
    let is_last = limits.ends_with_report(&found);
    join(report, found)?;
    Ok(is_last)
}

/// The limits of a search for one run alone.
fn no_leaf(limits: SearchLimits) -> SearchLimits
    ensures { result ≡ record { runs = 0; fuel = limits.fuel; witnesses = Witnesses.OfNone; until_bad = false; ends = limits.ends } }
{
    SearchLimits {
        runs: 0,
        fuel: limits.fuel,
        witnesses: Witnesses::OfNone,
        until_bad: false,
        ends: limits.ends,
    }
}

/// Whether a piece has a run. The debugger is left as found.
fn has_run(
    alloc: Global,
    debugger: &mut Debugger<'_>,
    piece: &Piece,
    limits: SearchLimits,
) -> Result<bool, AllocError>
    requires clean { length debugger.old.trail.steps ≡ debugger.old.trail.depth }
    requires fits { debugger.old.trail.depth + limits.fuel ≤ STEPS_MAX }
    requires reaches { Reaches (decides_by limits.ends) limits.fuel piece.now.choices debugger.old.world }
    ensures run { IfOk result (λ b. b ≡ nat_lt 0 (length (walk_at limits piece.now.choices debugger.old.world))) }
    ensures as_found { AsFound (standing_of debugger.old) (standing_of debugger.new) }
{
    let found = explore_at_watched(
        alloc,
        debugger,
        &piece.choices.items,
        no_leaf(limits),
        &mut Unwatched,
    )?;
    Ok(found.more)
}

/// Whether one of some pieces has a run. The debugger is left as found.
fn have_run(
    alloc: Global,
    debugger: &mut Debugger<'_>,
    pieces: &[Piece],
    limits: SearchLimits,
) -> Result<bool, AllocError>
    requires clean { length debugger.old.trail.steps ≡ debugger.old.trail.depth }
    requires fits { debugger.old.trail.depth + limits.fuel ≤ STEPS_MAX }
    requires reaches { AllByRecursion (λ cs. Reaches (decides_by limits.ends) limits.fuel cs debugger.old.world) (choices_of pieces.now) }
    ensures run { IfOk result (λ b. b ≡ have_run limits debugger.old.world pieces.now) }
    ensures as_found { AsFound (standing_of debugger.old) (standing_of debugger.new) }
{
    debugger.state_is_reached();
    for place in 0..pieces.len() {
        let is_run = has_run(alloc, debugger, &pieces[place], limits)?;
        if is_run {
            return Ok(true);
        }
    }
    Ok(false)
}

/// Whether there is a run in the pieces after the first `place`, with which a report ends. Unless
/// each end is looked for once (`ends`), each piece has a run. The debugger is left as found.
pub fn is_left(
    alloc: Global,
    debugger: &mut Debugger<'_>,
    pieces: &[Piece],
    place: usize,
    limits: SearchLimits,
) -> Result<bool, AllocError>
    requires clean { length debugger.old.trail.steps ≡ debugger.old.trail.depth }
    requires fits { debugger.old.trail.depth + limits.fuel ≤ STEPS_MAX }
    requires reaches { AllByRecursion (λ cs. Reaches (decides_by limits.ends) limits.fuel cs debugger.old.world) (choices_of pieces.now) }
    requires within { place ≤ length pieces.now }
    ensures left { IfOk result (λ b. b ≡ have_run limits debugger.old.world (drop place pieces.now)) }
    ensures as_found { AsFound (standing_of debugger.old) (standing_of debugger.new) }
{
    decisions_can_be_followed();
    debugger.state_is_reached();
    if !limits.ends {
        return Ok(place < pieces.len());
    }
    let (_, behind) = pieces.split_at(place);
    have_run(alloc, debugger, behind, limits)
}

/// Whether there is more after the end of a report: one of its pieces has more, or there is a run
/// after them.
pub fn is_more(more: bool, left: bool) -> bool
    ensures { result ≡ (more || left) }
{
    more || left
}

/// The report of some pieces: their parts joined in order, and whether there are others. The debugger is left as found.
fn explore_pieces<W: Watch>(
    alloc: Global,
    debugger: &mut Debugger<'_>,
    pieces: &[Piece],
    limits: SearchLimits,
    watch: &mut W,
) -> Result<SearchReport, AllocError>
    requires clean { length debugger.old.trail.steps ≡ debugger.old.trail.depth }
    requires fits { debugger.old.trail.depth + limits.fuel ≤ STEPS_MAX }
    requires reaches { AllByRecursion (λ cs. Reaches (decides_by limits.ends) limits.fuel cs debugger.old.world) (choices_of pieces.now) }
    ensures leaves { IfOk result (λ r. r.leaves.items ≡ report_of limits debugger.old.world pieces.now) }
    ensures more { IfOk result (λ r. r.more ≡ more_of limits debugger.old.world pieces.now) }
    ensures texts { IfOk result (λ r. map string_bytes r.witnesses.items ≡ witness_texts (decides_by limits.ends) limits.witnesses (done_steps debugger.old.trail) limits.fuel debugger.old.world r.leaves.items) }
    ensures as_found { AsFound (standing_of debugger.old) (standing_of debugger.new) }
{
    decisions_can_be_followed();
    debugger.state_is_reached();
    let mut report = SearchReport {
        leaves: Vec::new(alloc),
        more: false,
        witnesses: Vec::new(alloc),
    };
    for place in 0..pieces.len() {
        let is_last = add_part(alloc, debugger, &pieces[place], limits, watch, &mut report)?;
        if is_last {
            let others = is_left(alloc, debugger, pieces, place + 1, limits)?;
            report.more = is_more(report.more, others);
            return Ok(report);
        }
    }
    Ok(report)
}

/// The parts of all pieces of the runs from here, joined in order, and whether one of them has more
/// (docs/DEFINITIONS.md, "Pieces"): a part has at most `runs` leaves. If a list ends with the first
/// deadlock or trap, so does the report: no piece after it is explored, and there is more if some
/// run isn't listed. Refused if there are more than 1,024 pieces (31), or if memory is refused.
/// Requires that no step is undone, and that depth and fuel together are at most 1,000,000 steps.
/// The debugger is left as found, also on a refusal.
pub fn explore_by_pieces<W: Watch>(
    alloc: Global,
    debugger: &mut Debugger<'_>,
    choices: usize,
    limits: SearchLimits,
    watch: &mut W,
) -> Result<SearchReport, SplitFault>
    requires clean { length debugger.old.trail.steps ≡ debugger.old.trail.depth }
    requires fits { debugger.old.trail.depth + limits.fuel ≤ STEPS_MAX }
    ensures leaves { IfOk result (λ r. r.leaves.items ≡ split_report choices limits debugger.old.world) }
    ensures more { IfOk result (λ r. r.more ≡ split_more choices limits debugger.old.world) }
    ensures texts { IfOk result (λ r. map string_bytes r.witnesses.items ≡ witness_texts (decides_by limits.ends) limits.witnesses (done_steps debugger.old.trail) limits.fuel debugger.old.world r.leaves.items) }
    ensures few { OnOk result (length (pieces (decides_by limits.ends) choices limits.fuel debugger.old.world) ≤ PIECES_MAX) }
    ensures many { IsErrOf result SplitFault.TooManyPieces → PIECES_MAX < length (pieces (decides_by limits.ends) choices limits.fuel debugger.old.world) }
    ensures as_found { AsFound (standing_of debugger.old) (standing_of debugger.new) }
{
    match split_by(alloc, debugger, choices, limits) {
        Ok(pieces) => {
            let report = explore_pieces(alloc, debugger, &pieces, limits, watch)?;
            Ok(report)
        }
        Err(fault) => Err(fault),
    }
}
