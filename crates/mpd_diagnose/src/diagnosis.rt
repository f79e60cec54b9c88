//! The diagnosis of a script: whether its runs can hang or trap, how, and where that was decided.

ghost use Rattle.std.specs.Prelude.{◌≡◌, ◌≤◌, true, IfOk, OnOk, length, map, slice_get};
ghost use Rattle.std.specs.List.{AllByRecursion};
ghost use Rattle.mpd_model.specs.runs.Trail.{done_steps, first_standing};
ghost use Rattle.mpd_trail.specs.DebuggerViews.{AsFound, standing_of};
ghost use Rattle.mpd_policy.specs.Wide.{wide_decision};
ghost use Rattle.mpd_explore.specs.Witness.{HasWitness};
ghost use Rattle.mpd_diagnose.specs.Diagnosed.{blaming, AreBlamed, AreDrawn, AreRuns, BlamedAt, IsDiagnosis};
ghost use Rattle.mpd_diagnose.specs.Diagnosed as spec;

use crate::along::{LeafEnd, ends_of};
use crate::groups::{Group, groups_of};
use crate::verdict::draws;
use mpd_blame::{PlacedBlame, blame_of_leaf};
use mpd_code::Subject;
use mpd_explore::{SearchLeaf, SearchLimits, Unwatched, Witnesses};
use mpd_model::STEPS_MAX;
use mpd_outcomes::{Count, Outcomes, StateLimits, explore_outcomes};
use mpd_runs::{WayCounts, counts_told, sample};
use mpd_trail::Debugger;
use std::alloc::{AllocError, Global};

/// How a script is diagnosed.
#[derive(Clone, Copy)]
pub struct DiagnosisPlan {
    /// How far the search for the ways to end goes.
    pub limits: StateLimits,
    /// How many states the search for the step that decided one end comes to at most.
    pub blamed: usize,
    /// How many runs are drawn, if there are more than were come to, and none of these hangs or
    /// traps.
    pub drawn: usize,
}

/// Runs of a script, and what is known of them.
#[derive(Drop)]
pub struct Runs {
    /// The ways in which they end, each with its first run.
    pub outcomes: Outcomes,
    /// How many runs end in each way.
    pub counts: WayCounts,
    /// The end of the first run of each way.
    pub ends: Vec<LeafEnd>,
    /// These ends, those together that are of one kind and stand at the same lines.
    pub groups: Vec<Group>,
    /// For each group, where it was decided how the run ends that is shown, if that is a deadlock
    /// or a trap.
    pub blames: Vec<Option<PlacedBlame>>,
}

/// What was found.
#[derive(Drop)]
pub struct Diagnosis {
    /// The runs that the search came to.
    pub found: Runs,
    /// Those that were drawn, if some were.
    pub drawn: Option<Runs>,
}

/// How the search for the step that decides is limited.
fn blaming(limits: StateLimits, most: usize) -> StateLimits
    ensures { result ≡ blaming limits most }
{
    StateLimits {
        visited: most,
        ..limits
    }
}

/// Where it was decided how the run of the leaf of a number ends, if there is such a leaf, and it
/// is a deadlock or a trap. The debugger is left as found.
fn blame_at(
    alloc: Global,
    debugger: &mut Debugger<'_>,
    limits: StateLimits,
    leaves: &[SearchLeaf],
    number: usize,
) -> Result<Option<PlacedBlame>, AllocError>
    requires clean { length debugger.old.trail.steps ≡ debugger.old.trail.depth }
    requires at_start { debugger.old.trail.depth ≡ 0 }
    requires few { limits.fuel ≤ STEPS_MAX }
    requires listed { AllByRecursion (HasWitness wide_decision debugger.old.trail.program debugger.old.trail.mode (done_steps debugger.old.trail) limits.fuel debugger.old.world) leaves.now }
    ensures blamed { IfOk result (BlamedAt limits (standing_of debugger.old) (slice_get leaves.now number)) }
    ensures as_found { AsFound (standing_of debugger.old) (standing_of debugger.new) }
{
    debugger.state_is_reached();
    if number >= leaves.len() {
        return Ok(None);
    }
    blame_of_leaf(alloc, debugger, limits, &leaves[number])
}

/// The same of the leaf that is shown of each of some groups. The debugger is left as found.
fn blames_of(
    alloc: Global,
    debugger: &mut Debugger<'_>,
    limits: StateLimits,
    leaves: &[SearchLeaf],
    groups: &[Group],
) -> Result<Vec<Option<PlacedBlame>>, AllocError>
    requires clean { length debugger.old.trail.steps ≡ debugger.old.trail.depth }
    requires at_start { debugger.old.trail.depth ≡ 0 }
    requires few { limits.fuel ≤ STEPS_MAX }
    requires listed { AllByRecursion (HasWitness wide_decision debugger.old.trail.program debugger.old.trail.mode (done_steps debugger.old.trail) limits.fuel debugger.old.world) leaves.now }
    ensures blamed { IfOk result (λ blames. AreBlamed limits (standing_of debugger.old) leaves.now groups.now blames.items) }
    ensures as_found { AsFound (standing_of debugger.old) (standing_of debugger.new) }
{
    debugger.state_is_reached();
    let mut blames = Vec::new(alloc);
    for group in groups {
        let blame = blame_at(alloc, debugger, limits, leaves, group.shown)?;
        blames.push(blame)?;
    }
    Ok(blames)
}

/// What is known of runs by the ways in which they end. The debugger is left as found.
fn runs_of(
    alloc: Global,
    debugger: &mut Debugger<'_>,
    plan: DiagnosisPlan,
    outcomes: Outcomes,
) -> Result<Runs, AllocError>
    requires clean { length debugger.old.trail.steps ≡ debugger.old.trail.depth }
    requires at_start { debugger.old.trail.depth ≡ 0 }
    requires few { plan.limits.fuel ≤ STEPS_MAX }
    requires listed { AllByRecursion (HasWitness wide_decision debugger.old.trail.program debugger.old.trail.mode (done_steps debugger.old.trail) plan.limits.fuel debugger.old.world) outcomes.firsts.leaves.items }
    ensures same { IfOk result (λ runs. runs.outcomes ≡ outcomes) }
    ensures runs { IfOk result (AreRuns plan.limits plan.blamed (standing_of debugger.old)) }
    ensures as_found { AsFound (standing_of debugger.old) (standing_of debugger.new) }
{
    debugger.state_is_reached();
    let leaves = &outcomes.firsts.leaves;
    let ends = ends_of(alloc, debugger, plan.limits.fuel, leaves)?;
    let groups = groups_of(alloc, &ends, &outcomes.counts)?;
    let limits = blaming(plan.limits, plan.blamed);
    let blames = blames_of(alloc, debugger, limits, leaves, &groups)?;
    Ok(Runs {
        counts: counts_told(&outcomes),
        outcomes,
        ends,
        groups,
        blames,
    })
}

/// That each of some runs is one.
fn ones(alloc: Global, leaves: &[SearchLeaf]) -> Result<Vec<Count>, AllocError>
    ensures { IfOk result (λ counts. counts.items ≡ map spec.one leaves.now) }
{
    let mut counts = Vec::new(alloc);
    for _leaf in leaves {
        counts.push(Count::Exactly(1))?;
    }
    Ok(counts)
}

/// So many runs that are drawn, each different one told once; no other was drawn. The debugger is
/// left as found.
fn drawn_runs(
    alloc: Global,
    debugger: &mut Debugger<'_>,
    fuel: usize,
    runs: usize,
) -> Result<Outcomes, AllocError>
    requires clean { length debugger.old.trail.steps ≡ debugger.old.trail.depth }
    requires at_start { debugger.old.trail.depth ≡ 0 }
    requires few { fuel ≤ STEPS_MAX }
    ensures drawn { IfOk result (AreDrawn fuel runs debugger.old.world) }
    ensures listed { IfOk result (λ o. AllByRecursion (HasWitness wide_decision debugger.old.trail.program debugger.old.trail.mode (done_steps debugger.old.trail) fuel debugger.old.world) o.firsts.leaves.items) }
    ensures as_found { AsFound (standing_of debugger.old) (standing_of debugger.new) }
{
    debugger.state_is_reached();
    let limits = SearchLimits {
        runs,
        fuel,
        witnesses: Witnesses::OfNone,
        until_bad: false,
        ends: false,
    };
    let mut firsts = sample(alloc, debugger, 0, limits, &mut Unwatched)?;
    firsts.more = false;
    let counts = ones(alloc, &firsts.leaves)?;
    let total = Count::Exactly(firsts.leaves.len() as u64);
    Ok(Outcomes {
        firsts,
        counts,
        total,
        visited: 0,
    })
}

/// The diagnosis of the script at whose start a debugger stands. The debugger is left as found.
fn diagnose_there(
    alloc: Global,
    debugger: &mut Debugger<'_>,
    plan: DiagnosisPlan,
) -> Result<Diagnosis, AllocError>
    requires clean { length debugger.old.trail.steps ≡ debugger.old.trail.depth }
    requires at_start { debugger.old.trail.depth ≡ 0 }
    requires few { plan.limits.fuel ≤ STEPS_MAX }
    ensures diagnosis { IfOk result (IsDiagnosis plan.limits plan.blamed plan.drawn (standing_of debugger.old)) }
{
    debugger.state_is_reached();
    let outcomes = explore_outcomes(alloc, debugger, plan.limits)?;
    let found = runs_of(alloc, debugger, plan, outcomes)?;
    if !draws(found.counts) {
        return Ok(Diagnosis { found, drawn: None });
    }
    let outcomes = drawn_runs(alloc, debugger, plan.limits.fuel, plan.drawn)?;
    let drawn = runs_of(alloc, debugger, plan, outcomes)?;
    Ok(Diagnosis {
        found,
        drawn: Some(drawn),
    })
}

/// Whether the runs of a script in a mode can hang or trap, how, and where that was decided
/// (docs/FORMATS.md, "Diagnosis"), as far as the limits let its states be come to; and the same of
/// runs that are drawn, if there are more, and none of these hangs or traps. `Err` means that
/// memory was refused. The fuel is at most 1,000,000 steps.
pub fn diagnose(
    alloc: Global,
    subject: Subject<'_>,
    plan: DiagnosisPlan,
) -> Result<Diagnosis, AllocError>
    requires { plan.limits.fuel ≤ STEPS_MAX }
    ensures { IfOk result (IsDiagnosis plan.limits plan.blamed plan.drawn (first_standing subject.entry.code.now.program subject.entry.mode)) }
{
    let mut debugger = Debugger::start(alloc, subject.code, subject.mode)?;
    let found = diagnose_there(alloc, &mut debugger, plan);
    drop(debugger);
    found
}
