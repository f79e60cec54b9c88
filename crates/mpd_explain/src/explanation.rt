//! The end of a leaf of a report: its run is made again, along the schedule that it was listed by.

ghost use Rattle.std.specs.Prelude.{◌≡◌, ◌+◌, ◌≤◌, ◌<◌, IfOk, OnErr, IsSome, IsTrue, Option, false, length};
ghost use Rattle.std.specs.List.{AllByRecursion};
ghost use Rattle.mpd_model.specs.script.Program.{Program};
ghost use Rattle.mpd_model.specs.steps.World.{World};
ghost use Rattle.mpd_model.specs.steps.Next.{fold};
ghost use Rattle.mpd_model.specs.runs.Trail.{done_steps};
ghost use Rattle.mpd_trail.specs.DebuggerViews.{AsFound, standing_of};
ghost use Rattle.mpd_policy.specs.Walk.{run_by, steps_by};
ghost use Rattle.mpd_policy.specs.Walks.{Beyond};
ghost use Rattle.mpd_explore.specs.Witness.{HasWitness};
ghost use Rattle.mpd_explain.specs.Ends.{tells_of};
ghost use Rattle.mpd_explain.specs.Explanations.{end_at, end_of_leaf, ends_of_leaves};

use crate::ends::{End, end_of, tells_of};
use mpd_explore::{Ending, SearchLeaf};
use mpd_model::STEPS_MAX;
use mpd_policy::{Schedule, follow, put_back};
use mpd_trail::Debugger;
use std::alloc::{AllocError, Global};

/// Goes along the run of a leaf to its end. On return the debugger may be at any later state.
fn end_there<S: Schedule>(
    alloc: Global,
    schedule: &S,
    debugger: &mut Debugger<'_>,
    fuel: usize,
    leaf: &SearchLeaf,
) -> Result<End, AllocError>
    requires fits { debugger.old.trail.depth + fuel ≤ STEPS_MAX }
    requires listed { IsSome (run_by S.decides fuel leaf.now.choices debugger.old.world) }
    ensures end { IfOk result (λ end. end ≡ end_at debugger.old.trail.program (fold debugger.old.world (steps_by (run_by S.decides fuel leaf.now.choices debugger.old.world))) leaf.now.ending) }
    ensures beyond { Beyond (standing_of debugger.old) (standing_of debugger.new) }
{
    follow(alloc, schedule, debugger, fuel, &leaf.choices.items)?;
    end_of(alloc, debugger.core(), &leaf.ending)
}

/// An end that there is no more to than that a run ends so.
fn bare_end(ending: &Ending) -> End
    requires { tells_of ending.now ≡ false }
    ensures { (s : Program) (o : Option World) → result ≡ end_at s o ending.now }
{
    match ending {
        Ending::Cut => End::Cut,
        Ending::Ended(_) => End::Done,
    }
}

/// The end of a leaf that was listed along a schedule: its run is made again from the debugger's
/// state, if there is more to its end than that it ends so. The fuel is the one of that
/// exploration. The debugger is left as found, also on `Err`, which means that memory was refused;
/// this happens only if the leaf is a deadlock or a trap, or has leftovers.
pub fn explain<S: Schedule>(
    alloc: Global,
    schedule: &S,
    debugger: &mut Debugger<'_>,
    leaf: &SearchLeaf,
    fuel: usize,
) -> Result<End, AllocError>
    requires clean { length debugger.old.trail.steps ≡ debugger.old.trail.depth }
    requires fits { debugger.old.trail.depth + fuel ≤ STEPS_MAX }
    requires listed { IsSome (run_by S.decides fuel leaf.now.choices debugger.old.world) }
    ensures end { IfOk result (λ end. end ≡ end_of_leaf S.decides debugger.old.trail.program debugger.old.trail.mode (done_steps debugger.old.trail) fuel debugger.old.world leaf.now) }
    ensures as_found { AsFound (standing_of debugger.old) (standing_of debugger.new) }
    ensures memory { OnErr result (IsTrue (tells_of leaf.now.ending)) }
{
    debugger.state_is_reached();
    if !tells_of(&leaf.ending) {
        return Ok(bare_end(&leaf.ending));
    }
    let base = debugger.depth();
    let end = end_there(alloc, schedule, debugger, fuel, leaf);
    put_back(debugger, base);
    end
}

/// The ends of all leaves that were listed along a schedule with this fuel from the debugger's
/// state, one for each. The debugger is left as found, also on `Err`, which means that memory was
/// refused; this happens only if there is a leaf.
pub fn explain_all<S: Schedule>(
    alloc: Global,
    schedule: &S,
    debugger: &mut Debugger<'_>,
    leaves: &[SearchLeaf],
    fuel: usize,
) -> Result<Vec<End>, AllocError>
    requires clean { length debugger.old.trail.steps ≡ debugger.old.trail.depth }
    requires fits { debugger.old.trail.depth + fuel ≤ STEPS_MAX }
    requires listed { AllByRecursion (HasWitness S.decides debugger.old.trail.program debugger.old.trail.mode (done_steps debugger.old.trail) fuel debugger.old.world) leaves.now }
    ensures ends { IfOk result (λ ends. ends.items ≡ ends_of_leaves S.decides debugger.old.trail.program debugger.old.trail.mode (done_steps debugger.old.trail) fuel debugger.old.world leaves.now) }
    ensures as_found { AsFound (standing_of debugger.old) (standing_of debugger.new) }
    ensures memory { OnErr result (0 < length leaves.now) }
{
    debugger.state_is_reached();
    let mut ends = Vec::new(alloc);
    for leaf in leaves {
        let end = explain(alloc, schedule, debugger, leaf, fuel)?;
        ends.push(end)?;
    }
    Ok(ends)
}
