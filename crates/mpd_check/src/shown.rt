//! The leaves of a report that are shown: all of them, or if these are grouped the first of each
//! group, with the texts of their witnesses.

ghost use Rattle.std.specs.Prelude.{◌≡◌, ◌≤◌, ◌+◌, false, IfOk, IsSome, length, map, string_bytes};
ghost use Rattle.std.specs.List.{AllByRecursion};
ghost use Rattle.mpd_model.specs.runs.Trail.{done_steps};
ghost use Rattle.mpd_trail.specs.DebuggerViews.{AsFound, standing_of};
ghost use Rattle.mpd_policy.specs.Walk.{run_by};
ghost use Rattle.mpd_policy.specs.Walks.{Beyond};
ghost use Rattle.mpd_explore.specs.Witness.{HasWitness};
ghost use Rattle.mpd_explore.specs.WitnessTexts.{witness_text, witness_texts};
ghost use Rattle.mpd_check.specs.Shown.{AreFirsts, IsShown};

use crate::groups::{Group, first_leaves, groups_of};
use mpd_explore::{SearchLeaf, SearchLimits, SearchReport, Witnesses, witness_here};
use mpd_model::STEPS_MAX;
use mpd_policy::{Schedule, follow, put_back};
use mpd_trail::Debugger;
use std::alloc::{AllocError, Global};

/// Leaves that are shown, and the group that each stands for, if they are grouped.
#[derive(Drop)]
pub(crate) struct Shown {
    pub(crate) report: SearchReport,
    pub(crate) groups: Vec<Group>,
}

/// Goes along the run of a leaf, and makes the text of its witness, empty if it isn't asked for, or
/// is neither a deadlock nor a trap. On return the debugger may be at any later state.
fn witness_there<S: Schedule>(
    alloc: Global,
    schedule: &S,
    debugger: &mut Debugger<'_>,
    asked: Witnesses,
    fuel: usize,
    leaf: &SearchLeaf,
) -> Result<String, AllocError>
    requires fits { debugger.old.trail.depth + fuel ≤ STEPS_MAX }
    requires listed { IsSome (run_by S.decides fuel leaf.now.choices debugger.old.world) }
    ensures text { IfOk result (λ t. string_bytes t ≡ witness_text S.decides asked (done_steps debugger.old.trail) fuel debugger.old.world leaf.now) }
    ensures beyond { Beyond (standing_of debugger.old) (standing_of debugger.new) }
{
    follow(alloc, schedule, debugger, fuel, &leaf.choices.items)?;
    witness_here(alloc, debugger, asked, &leaf.ending)
}

/// The same, and the debugger is left as found.
fn witness_of<S: Schedule>(
    alloc: Global,
    schedule: &S,
    debugger: &mut Debugger<'_>,
    asked: Witnesses,
    fuel: usize,
    leaf: &SearchLeaf,
) -> Result<String, AllocError>
    requires clean { length debugger.old.trail.steps ≡ debugger.old.trail.depth }
    requires fits { debugger.old.trail.depth + fuel ≤ STEPS_MAX }
    requires listed { IsSome (run_by S.decides fuel leaf.now.choices debugger.old.world) }
    ensures text { IfOk result (λ t. string_bytes t ≡ witness_text S.decides asked (done_steps debugger.old.trail) fuel debugger.old.world leaf.now) }
    ensures as_found { AsFound (standing_of debugger.old) (standing_of debugger.new) }
{
    debugger.state_is_reached();
    let base = debugger.depth();
    let text = witness_there(alloc, schedule, debugger, asked, fuel, leaf);
    put_back(debugger, base);
    text
}

/// The texts of the witnesses of leaves, if any are asked for. The debugger is left as found.
fn witnesses_of<S: Schedule>(
    alloc: Global,
    schedule: &S,
    debugger: &mut Debugger<'_>,
    limits: SearchLimits,
    leaves: &[SearchLeaf],
) -> Result<Vec<String>, AllocError>
    requires clean { length debugger.old.trail.steps ≡ debugger.old.trail.depth }
    requires fits { debugger.old.trail.depth + limits.fuel ≤ STEPS_MAX }
    requires listed { AllByRecursion (HasWitness S.decides debugger.old.trail.program debugger.old.trail.mode (done_steps debugger.old.trail) limits.fuel debugger.old.world) leaves.now }
    ensures texts { IfOk result (λ texts. map string_bytes texts.items ≡ witness_texts S.decides limits.witnesses (done_steps debugger.old.trail) limits.fuel debugger.old.world leaves.now) }
    ensures as_found { AsFound (standing_of debugger.old) (standing_of debugger.new) }
{
    debugger.state_is_reached();
    let mut texts = Vec::new(alloc);
    let asked = limits.witnesses;
    if !asked.are_asked() {
        return Ok(texts);
    }
    for leaf in leaves {
        let text = witness_of(alloc, schedule, debugger, asked, limits.fuel, leaf)?;
        texts.push(text)?;
    }
    Ok(texts)
}

/// The first leaf of each group, the texts of their witnesses, and the groups. The debugger is left
/// as found.
fn firsts_of<S: Schedule>(
    alloc: Global,
    schedule: &S,
    debugger: &mut Debugger<'_>,
    report: &SearchReport,
    limits: SearchLimits,
) -> Result<Shown, AllocError>
    requires clean { length debugger.old.trail.steps ≡ debugger.old.trail.depth }
    requires fits { debugger.old.trail.depth + limits.fuel ≤ STEPS_MAX }
    requires listed { AllByRecursion (HasWitness S.decides debugger.old.trail.program debugger.old.trail.mode (done_steps debugger.old.trail) limits.fuel debugger.old.world) report.now.leaves.items }
    ensures shown { IfOk result (λ s. AreFirsts S.decides limits (standing_of debugger.old) report.now.leaves.items report.now.more s.report s.groups.items) }
    ensures has { IfOk result (λ s. AllByRecursion (HasWitness S.decides debugger.old.trail.program debugger.old.trail.mode (done_steps debugger.old.trail) limits.fuel debugger.old.world) s.report.leaves.items) }
    ensures as_found { AsFound (standing_of debugger.old) (standing_of debugger.new) }
{
    debugger.state_is_reached();
    let leaves = first_leaves(alloc, &report.leaves)?;
    let groups = groups_of(alloc, &report.leaves, &leaves)?;
    let witnesses = witnesses_of(alloc, schedule, debugger, limits, &leaves)?;
    let report = SearchReport {
        leaves,
        more: report.more,
        witnesses,
    };
    Ok(Shown { report, groups })
}

/// What is shown of a report whose leaves were listed along a schedule. If it is grouped, it may be
/// without the texts of witnesses, since those of the first leaves are made here. The debugger is
/// left as found, also on `Err`, which means that memory was refused.
pub(crate) fn shown_of<S: Schedule>(
    alloc: Global,
    schedule: &S,
    debugger: &mut Debugger<'_>,
    report: SearchReport,
    limits: SearchLimits,
    group: bool,
) -> Result<Shown, AllocError>
    requires clean { length debugger.old.trail.steps ≡ debugger.old.trail.depth }
    requires fits { debugger.old.trail.depth + limits.fuel ≤ STEPS_MAX }
    requires listed { AllByRecursion (HasWitness S.decides debugger.old.trail.program debugger.old.trail.mode (done_steps debugger.old.trail) limits.fuel debugger.old.world) report.leaves.items }
    requires texts { group ≡ false → map string_bytes report.witnesses.items ≡ witness_texts S.decides limits.witnesses (done_steps debugger.old.trail) limits.fuel debugger.old.world report.leaves.items }
    ensures shown { IfOk result (λ s. IsShown S.decides group limits (standing_of debugger.old) report.leaves.items report.more s.report s.groups.items) }
    ensures has { IfOk result (λ s. AllByRecursion (HasWitness S.decides debugger.old.trail.program debugger.old.trail.mode (done_steps debugger.old.trail) limits.fuel debugger.old.world) s.report.leaves.items) }
    ensures as_found { AsFound (standing_of debugger.old) (standing_of debugger.new) }
{
    debugger.state_is_reached();
    if group {
        let shown = firsts_of(alloc, schedule, debugger, &report, limits);
        drop(report);
        return shown;
    }
    let groups = Vec::new(alloc);
    Ok(Shown { report, groups })
}
