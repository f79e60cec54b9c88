//! The step that decided, for each of some runs from the start of a script (docs/FORMATS.md, "The
//! step that decides").

ghost use Rattle.std.specs.Prelude.{◌≡◌, ◌≤◌, ◌<◌, true, IfOk, OnErr, IsSome, length};
ghost use Rattle.std.specs.List.{AllByRecursion};
ghost use Rattle.mpd_model.specs.runs.Trail.{done_steps};
ghost use Rattle.mpd_trail.specs.DebuggerViews.{AsFound, standing_of};
ghost use Rattle.mpd_policy.specs.Wide.{wide_decision};
ghost use Rattle.mpd_policy.specs.Walk.{run_by, steps_by};
ghost use Rattle.mpd_policy.specs.Walks.{Beyond};
ghost use Rattle.mpd_explore.specs.Witness.{HasWitness};
ghost use Rattle.mpd_blame.specs.Told as spec;
ghost use Rattle.mpd_blame.specs.Told.{AreJudged, IsBlamed, IsJudged};
ghost use Rattle.mpd_blame.specs.Blame.{ends_badly, IsBack};

use crate::back::{Blame, blame_run};
use mpd_core::Core;
use mpd_explain::{PlacedStep, placed_step};
use mpd_explore::SearchLeaf;
use mpd_model::STEPS_MAX;
use mpd_names::PlacedCall;
use mpd_outcomes::{Goal, StateLimits};
use mpd_policy::{Wide, follow, put_back};
use mpd_trail::Debugger;
use std::alloc::{AllocError, Global};

/// A step that decided how a run ends, on the state before it.
#[derive(Clone, Copy)]
pub struct Deciding {
    /// The step.
    pub taken: PlacedStep,
    /// The first step of the first run that ends well from there.
    pub other: PlacedStep,
}

impl Deciding {
    /// The send of the other step, if that matches the same receive.
    pub fn other_message(self) -> Option<PlacedCall>
        ensures { result ≡ spec.other_message self }
    {
        match (self.taken, self.other) {
            (
                PlacedStep::Match { send: _, receive },
                PlacedStep::Match {
                    send,
                    receive: same,
                },
            ) if receive.call == same.call => Some(send),
            _ => None,
        }
    }
}

/// Where it was decided how a run ends, with the step that did.
#[derive(Clone, Copy)]
pub struct PlacedBlame {
    pub blame: Blame,
    /// The step, if one decided it.
    pub deciding: Option<Deciding>,
}

/// What is known of a decision, with the step that was taken and the other. The core is in the
/// state before the step that decided it.
pub fn place_blame(core: &Core<'_>, blame: Blame) -> PlacedBlame
    ensures { result ≡ spec.placed_blame core.now.program core.now.world blame }
{
    match blame {
        Blame::At(decided) => PlacedBlame {
            blame,
            deciding: Some(Deciding {
                taken: placed_step(core, decided.taken),
                other: placed_step(core, decided.other),
            }),
        },
        Blame::FromStart | Blame::OrEarlier(_) | Blame::Open | Blame::Unknown => PlacedBlame {
            blame,
            deciding: None,
        },
    }
}

/// Where it was decided how the run ends that a debugger has taken from the start of its script.
/// The debugger is left on the way back along this run.
fn blame_here(
    alloc: Global,
    debugger: &mut Debugger<'_>,
    limits: StateLimits,
) -> Result<PlacedBlame, AllocError>
    requires clean { length debugger.old.trail.steps ≡ debugger.old.trail.depth }
    requires within { debugger.old.trail.depth ≤ limits.fuel }
    requires few { limits.fuel ≤ STEPS_MAX }
    ensures blamed { IfOk result (IsBlamed limits.visited limits.fuel debugger.old.trail.program debugger.old.trail.mode debugger.old.trail.steps) }
    ensures back { IsBack (standing_of debugger.old) (standing_of debugger.new) }
{
    let blame = blame_run(alloc, debugger, limits)?;
    Ok(place_blame(debugger.core(), blame))
}

/// The same of the run from the start that some choices tell. The debugger is left on this run.
fn blame_there(
    alloc: Global,
    debugger: &mut Debugger<'_>,
    limits: StateLimits,
    choices: &[usize],
) -> Result<PlacedBlame, AllocError>
    requires at_start { debugger.old.trail.depth ≡ 0 }
    requires few { limits.fuel ≤ STEPS_MAX }
    requires some { IsSome (run_by wide_decision limits.fuel choices.now debugger.old.world) }
    ensures blamed { IfOk result (IsBlamed limits.visited limits.fuel debugger.old.trail.program debugger.old.trail.mode (steps_by (run_by wide_decision limits.fuel choices.now debugger.old.world))) }
    ensures beyond { Beyond (standing_of debugger.old) (standing_of debugger.new) }
{
    debugger.state_is_reached();
    follow(alloc, &Wide, debugger, limits.fuel, choices)?;
    debugger.forget_undone();
    blame_here(alloc, debugger, limits)
}

/// Where it was decided how the run of a leaf of the wide walk ends, if that is a deadlock or a
/// trap; else nothing is told. Requires a debugger at the start of its script, with no undone
/// step. It is left as found, also on `Err`, which means that memory was refused; this happens only
/// if the leaf ends so. Requires a fuel of at most 1,000,000 steps.
pub fn blame_of_leaf(
    alloc: Global,
    debugger: &mut Debugger<'_>,
    limits: StateLimits,
    leaf: &SearchLeaf,
) -> Result<Option<PlacedBlame>, AllocError>
    requires clean { length debugger.old.trail.steps ≡ debugger.old.trail.depth }
    requires at_start { debugger.old.trail.depth ≡ 0 }
    requires few { limits.fuel ≤ STEPS_MAX }
    requires some { IsSome (run_by wide_decision limits.fuel leaf.now.choices debugger.old.world) }
    ensures blamed { IfOk result (IsJudged limits.visited limits.fuel (standing_of debugger.old) leaf.now) }
    ensures as_found { AsFound (standing_of debugger.old) (standing_of debugger.new) }
    ensures memory { OnErr result (ends_badly leaf.now ≡ true) }
{
    debugger.state_is_reached();
    if !Goal::Bad.is_met(&leaf.ending) {
        return Ok(None);
    }
    let blame = blame_there(alloc, debugger, limits, &leaf.choices.items);
    put_back(debugger, 0);
    Ok(Some(blame?))
}

/// The same of each of some leaves of the wide walk. Requires a debugger at the start of its
/// script, with no undone step. It is left as found, also on `Err`, which means that memory was
/// refused; this happens only if there is a leaf. Requires a fuel of at most 1,000,000 steps.
pub fn blames_of_leaves(
    alloc: Global,
    debugger: &mut Debugger<'_>,
    limits: StateLimits,
    leaves: &[SearchLeaf],
) -> Result<Vec<Option<PlacedBlame>>, AllocError>
    requires clean { length debugger.old.trail.steps ≡ debugger.old.trail.depth }
    requires at_start { debugger.old.trail.depth ≡ 0 }
    requires few { limits.fuel ≤ STEPS_MAX }
    requires listed { AllByRecursion (HasWitness wide_decision debugger.old.trail.program debugger.old.trail.mode (done_steps debugger.old.trail) limits.fuel debugger.old.world) leaves.now }
    ensures blamed { IfOk result (λ blames. AreJudged limits.visited limits.fuel (standing_of debugger.old) leaves.now blames.items) }
    ensures as_found { AsFound (standing_of debugger.old) (standing_of debugger.new) }
    ensures memory { OnErr result (0 < length leaves.now) }
{
    debugger.state_is_reached();
    let mut blames = Vec::new(alloc);
    for leaf in leaves {
        let blame = blame_of_leaf(alloc, debugger, limits, leaf)?;
        blames.push(blame)?;
    }
    Ok(blames)
}
