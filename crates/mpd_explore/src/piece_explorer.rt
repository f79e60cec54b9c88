//! Exploring the runs that begin with some choices.

ghost use Rattle.std.specs.Prelude.{◌≡◌, ◌+◌, ◌<◌, ◌≤◌, ◌⊎◌, [], false, map, IfOk, OnOk, OnErr, length, string_bytes};
ghost use Rattle.std.specs.List.{AllByRecursion};
ghost use Rattle.mpd_model.specs.runs.Trail.{done_steps};
ghost use Rattle.mpd_trail.specs.DebuggerViews.{AsFound, standing_of};
ghost use Rattle.mpd_explore.specs.Report.{shown, listed, left_out};
ghost use Rattle.mpd_explore.specs.Sleeping.{decides_by};
ghost use Rattle.mpd_explore.specs.Witness.{HasWitness};
ghost use Rattle.mpd_explore.specs.WitnessTexts.{witness_texts};
ghost use Rattle.mpd_explore.specs.Pieces.{Reaches, rules_of, walk_from, part, part_left, behind};
ghost use Rattle.mpd_policy.specs.Walks.{Beyond};

use crate::explorer::explore_with;
use crate::follow::follow;
use crate::report::{ChoiceList, SearchLeaf, SearchLimits, SearchReport};
use crate::watch::Watch;
use mpd_model::STEPS_MAX;
use mpd_policy::{Plain, Schedule, Wide, put_back};
use mpd_trail::Debugger;
use std::alloc::{AllocError, Global};

/// Puts choices in front of those of a leaf.
fn put_choices(alloc: Global, leaf: &mut SearchLeaf, choices: &[usize]) -> Result<(), AllocError>
    ensures { OnOk result (leaf.new ≡ behind choices.now leaf.old) }
{
    let behind = leaf.choices.items.len();
    let mut items = Vec::with_capacity(alloc, choices.len().saturating_add(behind))?;
    items.extend_from_slice(choices)?;
    items.extend_from_slice(&leaf.choices.items)?;
    leaf.choices = ChoiceList { items };
    Ok(())
}

/// Puts choices in front of those of each leaf. `Err` means that memory was refused, which happens
/// only if there is a leaf.
fn put_in_front(
    alloc: Global,
    leaves: &mut Vec<SearchLeaf>,
    choices: &[usize],
) -> Result<(), AllocError>
    ensures leaves { OnOk result (leaves.new.items ≡ map (behind choices.now) leaves.old.items) }
    ensures memory { OnErr result (0 < length leaves.old.items) }
{
    for place in 0..leaves.len() {
        put_choices(alloc, &mut leaves[place], choices)?;
    }
    Ok(())
}

/// The report of no runs.
fn nothing_found(alloc: Global) -> SearchReport
    ensures leaves { result.leaves.items ≡ [] }
    ensures more { result.more ≡ false }
    ensures witnesses { result.witnesses.items ≡ [] }
{
    SearchReport {
        leaves: Vec::new(alloc),
        more: false,
        witnesses: Vec::new(alloc),
    }
}

/// The first leaves of the runs along a schedule that begin with some choices. On return the
/// debugger may be at any later state.
fn explore_behind<S: Schedule, W: Watch>(
    alloc: Global,
    schedule: &S,
    debugger: &mut Debugger<'_>,
    choices: &[usize],
    limits: SearchLimits,
    watch: &mut W,
) -> Result<SearchReport, AllocError>
    requires fits { debugger.old.trail.depth + limits.fuel ≤ STEPS_MAX }
    requires reaches { Reaches S.decides limits.fuel choices.now debugger.old.world }
    ensures leaves { IfOk result (λ r. r.leaves.items ≡ listed limits (map shown (walk_from (rules_of S.decides S.same S.keeps limits.ends) limits.fuel choices.now [] debugger.old.world))) }
    ensures more { IfOk result (λ r. r.more ≡ left_out limits (map shown (walk_from (rules_of S.decides S.same S.keeps limits.ends) limits.fuel choices.now [] debugger.old.world))) }
    ensures witnesses { IfOk result (λ r. AllByRecursion (HasWitness S.decides debugger.old.trail.program debugger.old.trail.mode (done_steps debugger.old.trail) limits.fuel debugger.old.world) r.leaves.items) }
    ensures texts { IfOk result (λ r. map string_bytes r.witnesses.items ≡ witness_texts S.decides limits.witnesses (done_steps debugger.old.trail) limits.fuel debugger.old.world r.leaves.items) }
    ensures beyond { Beyond (standing_of debugger.old) (standing_of debugger.new) }
    ensures memory { OnErr result ((0 < limits.runs) ⊎ (0 < length choices.now)) }
{
    let base = debugger.depth();
    let limit = base + limits.fuel;
    let sleep = follow(alloc, schedule, debugger, limit, choices, limits.ends)?;
    debugger.forget_undone();
    if sleep.is_passed {
        let report = nothing_found(alloc);
        return Ok(report);
    }
    let rest = SearchLimits {
        runs: limits.runs,
        fuel: limit - debugger.depth(),
        witnesses: limits.witnesses,
        until_bad: limits.until_bad,
        ends: limits.ends,
    };
    let mut report = explore_with(alloc, schedule, debugger, &sleep.steps.items, rest, watch)?;
    match put_in_front(alloc, &mut report.leaves, choices) {
        Ok(()) => Ok(report),
        Err(fault) => {
            drop(report);
            Err(fault)
        }
    }
}

/// The same, and the debugger is left as found.
fn explore_piece<S: Schedule, W: Watch>(
    alloc: Global,
    schedule: &S,
    debugger: &mut Debugger<'_>,
    choices: &[usize],
    limits: SearchLimits,
    watch: &mut W,
) -> Result<SearchReport, AllocError>
    requires clean { length debugger.old.trail.steps ≡ debugger.old.trail.depth }
    requires fits { debugger.old.trail.depth + limits.fuel ≤ STEPS_MAX }
    requires reaches { Reaches S.decides limits.fuel choices.now debugger.old.world }
    ensures leaves { IfOk result (λ r. r.leaves.items ≡ listed limits (map shown (walk_from (rules_of S.decides S.same S.keeps limits.ends) limits.fuel choices.now [] debugger.old.world))) }
    ensures more { IfOk result (λ r. r.more ≡ left_out limits (map shown (walk_from (rules_of S.decides S.same S.keeps limits.ends) limits.fuel choices.now [] debugger.old.world))) }
    ensures witnesses { IfOk result (λ r. AllByRecursion (HasWitness S.decides debugger.old.trail.program debugger.old.trail.mode (done_steps debugger.old.trail) limits.fuel debugger.old.world) r.leaves.items) }
    ensures texts { IfOk result (λ r. map string_bytes r.witnesses.items ≡ witness_texts S.decides limits.witnesses (done_steps debugger.old.trail) limits.fuel debugger.old.world r.leaves.items) }
    ensures as_found { AsFound (standing_of debugger.old) (standing_of debugger.new) }
    ensures memory { OnErr result ((0 < limits.runs) ⊎ (0 < length choices.now)) }
{
    debugger.state_is_reached();
    let base = debugger.depth();
    let found = explore_behind(alloc, schedule, debugger, choices, limits, watch);
    put_back(debugger, base);
    found
}

/// The first leaves of the runs from here that begin with some choices, and whether there are
/// others of these (docs/DEFINITIONS.md, "Pieces"). Fuel, choices and texts count from here. Each
/// leaf has a run, and each deadlock and each trap a witness, as those of `explore`. Requires that
/// some run has these choices, as those of each piece of `split` by these limits; that no step is
/// undone; and that depth and fuel together are at most 1,000,000 steps. The debugger is left as
/// found, also on `Err`, which means that memory was refused; this happens only if a leaf is asked
/// for, or there is a choice. `watch` is told of each leaf as by `explore`, counted from 1.
pub fn explore_at_watched<W: Watch>(
    alloc: Global,
    debugger: &mut Debugger<'_>,
    choices: &[usize],
    limits: SearchLimits,
    watch: &mut W,
) -> Result<SearchReport, AllocError>
    requires clean { length debugger.old.trail.steps ≡ debugger.old.trail.depth }
    requires fits { debugger.old.trail.depth + limits.fuel ≤ STEPS_MAX }
    requires reaches { Reaches (decides_by limits.ends) limits.fuel choices.now debugger.old.world }
    ensures leaves { IfOk result (λ r. r.leaves.items ≡ part limits choices.now debugger.old.world) }
    ensures more { IfOk result (λ r. r.more ≡ part_left limits choices.now debugger.old.world) }
    ensures witnesses { IfOk result (λ r. AllByRecursion (HasWitness (decides_by limits.ends) debugger.old.trail.program debugger.old.trail.mode (done_steps debugger.old.trail) limits.fuel debugger.old.world) r.leaves.items) }
    ensures texts { IfOk result (λ r. map string_bytes r.witnesses.items ≡ witness_texts (decides_by limits.ends) limits.witnesses (done_steps debugger.old.trail) limits.fuel debugger.old.world r.leaves.items) }
    ensures as_found { AsFound (standing_of debugger.old) (standing_of debugger.new) }
    ensures memory { OnErr result ((0 < limits.runs) ⊎ (0 < length choices.now)) }
{
    if limits.ends {
        return explore_piece(alloc, &Wide, debugger, choices, limits, watch);
    }
    explore_piece(alloc, &Plain, debugger, choices, limits, watch)
}
