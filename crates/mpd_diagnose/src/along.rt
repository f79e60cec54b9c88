//! The ends of runs, which are made again.

ghost use Rattle.std.specs.Prelude.{◌≡◌, ◌+◌, ◌≤◌, IfOk, OnOk, IsSome, Some, length, map};
ghost use Rattle.std.specs.List.{AllByRecursion};
ghost use Rattle.mpd_model.specs.runs.Trail.{done_steps};
ghost use Rattle.mpd_trail.specs.DebuggerViews.{AsFound, standing_of};
ghost use Rattle.mpd_policy.specs.Wide.{wide_decision};
ghost use Rattle.mpd_model.specs.steps.Next.{fold};
ghost use Rattle.mpd_policy.specs.Walk.{run_by, steps_by};
ghost use Rattle.mpd_policy.specs.Walks.{Beyond};
ghost use Rattle.mpd_explore.specs.Witness.{HasWitness};
ghost use Rattle.mpd_diagnose.specs.Causes as spec;

use crate::cause::{Cause, cause_of};
use mpd_explain::{End, end_of};
use mpd_explore::SearchLeaf;
use mpd_model::STEPS_MAX;
use mpd_policy::{Wide, follow, put_back};
use mpd_trail::Debugger;
use std::alloc::{AllocError, Global};

/// How the run of a leaf ends.
#[derive(Drop)]
pub struct LeafEnd {
    pub cause: Cause,
    /// How many steps the run has.
    pub steps: usize,
    pub end: End,
}

/// Goes along the run with these choices to its end, and answers how many steps it has. The
/// debugger is left anywhere beyond where it stood.
fn go_along(
    alloc: Global,
    debugger: &mut Debugger<'_>,
    fuel: usize,
    choices: &[usize],
) -> Result<usize, AllocError>
    requires fits { debugger.old.trail.depth + fuel ≤ STEPS_MAX }
    requires listed { IsSome (run_by wide_decision fuel choices.now debugger.old.world) }
    ensures steps { IfOk result (λ n. n ≡ length (steps_by (run_by wide_decision fuel choices.now debugger.old.world))) }
    ensures leads { OnOk result (fold debugger.old.world (steps_by (run_by wide_decision fuel choices.now debugger.old.world)) ≡ Some debugger.new.world) }
    ensures beyond { Beyond (standing_of debugger.old) (standing_of debugger.new) }
{
    debugger.state_is_reached();
    let base = debugger.depth();
    follow(alloc, &Wide, debugger, fuel, choices)?;
    Ok(debugger.depth() - base)
}

/// Goes along the run of a leaf to its end. The debugger is left anywhere beyond where it stood.
fn end_there(
    alloc: Global,
    debugger: &mut Debugger<'_>,
    fuel: usize,
    leaf: &SearchLeaf,
) -> Result<LeafEnd, AllocError>
    requires fits { debugger.old.trail.depth + fuel ≤ STEPS_MAX }
    requires listed { IsSome (run_by wide_decision fuel leaf.now.choices debugger.old.world) }
    ensures end { IfOk result (λ e. e ≡ spec.leaf_end debugger.old.trail.program fuel debugger.old.world leaf.now) }
    ensures beyond { Beyond (standing_of debugger.old) (standing_of debugger.new) }
{
    let steps = go_along(alloc, debugger, fuel, &leaf.choices.items)?;
    let cause = cause_of(alloc, debugger.core(), &leaf.ending)?;
    let end = end_of(alloc, debugger.core(), &leaf.ending)?;
    Ok(LeafEnd { cause, steps, end })
}

/// The end of the run of a leaf. The debugger is left as found.
fn leaf_end(
    alloc: Global,
    debugger: &mut Debugger<'_>,
    fuel: usize,
    leaf: &SearchLeaf,
) -> Result<LeafEnd, AllocError>
    requires clean { length debugger.old.trail.steps ≡ debugger.old.trail.depth }
    requires fits { debugger.old.trail.depth + fuel ≤ STEPS_MAX }
    requires listed { IsSome (run_by wide_decision fuel leaf.now.choices debugger.old.world) }
    ensures end { IfOk result (λ e. e ≡ spec.leaf_end debugger.old.trail.program fuel debugger.old.world leaf.now) }
    ensures as_found { AsFound (standing_of debugger.old) (standing_of debugger.new) }
{
    debugger.state_is_reached();
    let base = debugger.depth();
    let end = end_there(alloc, debugger, fuel, leaf);
    put_back(debugger, base);
    end
}

/// The ends of the runs of leaves that were listed along the wide walk from where the debugger
/// stands, with this fuel: each run is gone along once. The debugger is left as found.
pub(crate) fn ends_of(
    alloc: Global,
    debugger: &mut Debugger<'_>,
    fuel: usize,
    leaves: &[SearchLeaf],
) -> Result<Vec<LeafEnd>, AllocError>
    requires clean { length debugger.old.trail.steps ≡ debugger.old.trail.depth }
    requires fits { debugger.old.trail.depth + fuel ≤ STEPS_MAX }
    requires listed { AllByRecursion (HasWitness wide_decision debugger.old.trail.program debugger.old.trail.mode (done_steps debugger.old.trail) fuel debugger.old.world) leaves.now }
    ensures ends { IfOk result (λ ends. ends.items ≡ map (spec.leaf_end debugger.old.trail.program fuel debugger.old.world) leaves.now) }
    ensures as_found { AsFound (standing_of debugger.old) (standing_of debugger.new) }
{
    debugger.state_is_reached();
    let mut ends = Vec::new(alloc);
    for leaf in leaves {
        let end = leaf_end(alloc, debugger, fuel, leaf)?;
        ends.push(end)?;
    }
    Ok(ends)
}
