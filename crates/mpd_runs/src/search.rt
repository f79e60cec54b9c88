//! The first run that ends in one way, and the run of a number, with their steps from the start of
//! the script. Both are of the wide walk, which takes two steps that do not conflict in one order
//! alone.

ghost use Rattle.std.specs.Prelude.{◌≡◌, ◌≤◌, ◌+◌, ◌++◌, IfOk, IfSome, length, slice_get};
ghost use Rattle.std.specs.List.{AllByRecursion};
ghost use Rattle.std.specs.Option.{option_map};
ghost use Rattle.mpd_model.specs.runs.Trail.{done_steps};
ghost use Rattle.mpd_trail.specs.DebuggerViews.{AsFound, standing_of};
ghost use Rattle.mpd_explore.specs.Witness.{HasWitness};
ghost use Rattle.mpd_policy.specs.Wide.{wide_decision};
ghost use Rattle.mpd_policy.specs.Walk.{run_by, steps_by};
ghost use Rattle.mpd_runs.specs.Ways as ways;
ghost use Rattle.mpd_runs.specs.Seek as spec;
ghost use Rattle.mpd_runs.specs.Seek.{LiesAhead, Looked, IsSoughtFrom, IsSearch, FoundLies, TooMany};
ghost use Rattle.mpd_runs.specs.declared.search.Scope.TheVariants as scope_is;

use crate::by_choices::steps_by_choices;
use crate::counts::{WayCounts, counts_of};
use crate::listing::{ending_name, first_runs, fuel_at, is_number, push_ending_places};
use crate::states::{ByStates, STATES_VISITED, by_states};
use crate::way::{Way, first_in};
use mpd_explore::{Ending, SearchLeaf, SearchReport};
use mpd_model::{IssuedList, Outcome, RUNS_MAX, STEPS_MAX, StepList, TrapList};
use mpd_names::Marks;
use mpd_policy::{Wide, wide_decisions_can_be_followed};
use mpd_trail::Debugger;
use std::alloc::{AllocError, Global};

/// A run from the start of the script: its steps, and how it ends.
#[derive(Drop)]
pub struct WholeRun {
    pub steps: StepList,
    pub ending: Ending,
}

/// Which runs are looked at.
#[derive(Clone, Copy)]
pub enum Scope {
    /// All runs of the wide walk, by visiting each state once.
    WideWalk,
    /// The first 65,536 of the runs that are listed, since there are too many states.
    Listed,
}

/// What the search found among them.
#[derive(Drop)]
pub enum Sought {
    /// The first run that ends in the way that was looked for.
    Found(WholeRun),
    /// There is none, and so the runs end.
    Nothing(WayCounts),
}

/// The result of looking for a run.
#[derive(Drop)]
pub struct Search {
    /// Which runs were looked at.
    pub scope: Scope,
    /// How many states were visited before that.
    pub states: usize,
    /// The result.
    pub sought: Sought,
}

// ---- one run

/// A copy of how a run has ended.
fn copy_outcome(alloc: Global, outcome: &Outcome) -> Result<Outcome, AllocError>
    ensures { IfOk result (λ o. o ≡ outcome.now) }
{
    match outcome {
        Outcome::Done => Ok(Outcome::Done),
        Outcome::Leftovers(calls) => Ok(Outcome::Leftovers(IssuedList {
            items: Vec::from_slice(alloc, &calls.items)?,
        })),
        Outcome::Deadlock(calls) => Ok(Outcome::Deadlock(IssuedList {
            items: Vec::from_slice(alloc, &calls.items)?,
        })),
        Outcome::Trap(ranks) => Ok(Outcome::Trap(TrapList {
            items: Vec::from_slice(alloc, &ranks.items)?,
        })),
    }
}

/// A copy of how a run ends. `Err` means that memory was refused.
pub fn copy_ending(alloc: Global, ending: &Ending) -> Result<Ending, AllocError>
    ensures { IfOk result (λ e. e ≡ ending.now) }
{
    match ending {
        Ending::Cut => Ok(Ending::Cut),
        Ending::Ended(outcome) => {
            let outcome = copy_outcome(alloc, outcome)?;
            Ok(Ending::Ended(outcome))
        }
    }
}

/// The steps that are not undone, and after them some others.
fn joined(alloc: Global, debugger: &Debugger<'_>, more: StepList) -> Result<StepList, AllocError>
    ensures { IfOk result (λ steps. steps ≡ done_steps debugger.now.trail ++ more) }
{
    debugger.state_is_reached();
    let depth = debugger.depth();
    let (steps, _) = debugger.steps().split_at(depth);
    let mut items = Vec::from_slice(alloc, steps)?;
    items.extend_from_slice(&more.items)?;
    Ok(StepList { items })
}

/// The steps that led here, then those of a leaf's run.
#[tactic(auto, using(crate::proofs::SeekLemmas::leading))]
fn steps_of(
    alloc: Global,
    debugger: &mut Debugger<'_>,
    fuel: usize,
    leaf: &SearchLeaf,
) -> Result<StepList, AllocError>
    requires clean { length debugger.old.trail.steps ≡ debugger.old.trail.depth }
    requires fits { debugger.old.trail.depth + fuel ≤ STEPS_MAX }
    ensures steps { IfOk result (λ steps. steps ≡ done_steps debugger.old.trail ++ steps_by (run_by wide_decision fuel leaf.now.choices debugger.old.world)) }
    ensures as_found { AsFound (standing_of debugger.old) (standing_of debugger.new) }
{
    match steps_by_choices(alloc, &Wide, debugger, &leaf.choices.items, fuel) {
        Ok(more) => joined(alloc, debugger, more),
        Err(_) => Err(AllocError),
    }
}

/// The whole run of a leaf that was listed.
#[tactic(auto, using(crate::proofs::SeekLemmas::lying))]
fn whole_run(
    alloc: Global,
    debugger: &mut Debugger<'_>,
    fuel: usize,
    leaf: &SearchLeaf,
) -> Result<WholeRun, AllocError>
    requires clean { length debugger.old.trail.steps ≡ debugger.old.trail.depth }
    requires fits { debugger.old.trail.depth + fuel ≤ STEPS_MAX }
    requires has { HasWitness wide_decision debugger.old.trail.program debugger.old.trail.mode (done_steps debugger.old.trail) fuel debugger.old.world leaf.now }
    ensures steps { IfOk result (λ r. r.steps ≡ done_steps debugger.old.trail ++ steps_by (run_by wide_decision fuel leaf.now.choices debugger.old.world)) }
    ensures ending { IfOk result (λ r. r.ending ≡ leaf.now.ending) }
    ensures lies { IfOk result (LiesAhead debugger.old.trail) }
    ensures as_found { AsFound (standing_of debugger.old) (standing_of debugger.new) }
{
    wide_decisions_can_be_followed();
    debugger.state_is_reached();
    let ending = copy_ending(alloc, &leaf.ending)?;
    let steps = steps_of(alloc, debugger, fuel, leaf)?;
    Ok(WholeRun { steps, ending })
}

// ---- the first that ends in one way

/// Whether runs up to the first deadlock or trap are too few.
fn falls_short(report: &SearchReport, way: Way) -> bool
    ensures { result ≡ spec.falls_short way report.now.leaves.items }
{
    report.has_bad() && first_in(way, &report.leaves).is_none()
}

/// The runs that are looked at: up to the first deadlock or trap, and if that isn't one that is
/// looked for, as many as there are.
#[tactic(auto, using(crate::proofs::LookLemmas::looking))]
fn look(
    alloc: Global,
    copy: &mut Debugger<'_>,
    fuel: usize,
    way: Way,
) -> Result<SearchReport, AllocError>
    requires clean { length copy.old.trail.steps ≡ copy.old.trail.depth }
    requires fits { copy.old.trail.depth + fuel ≤ STEPS_MAX }
    ensures looked { IfOk result (λ r. Looked way fuel copy.old.world r.leaves.items r.more) }
    ensures has { IfOk result (λ r. AllByRecursion (HasWitness wide_decision copy.old.trail.program copy.old.trail.mode (done_steps copy.old.trail) fuel copy.old.world) r.leaves.items) }
    ensures as_found { AsFound (standing_of copy.old) (standing_of copy.new) }
{
    let report = first_runs(alloc, copy, RUNS_MAX, fuel, true)?;
    if falls_short(&report, way) {
        drop(report);
        return first_runs(alloc, copy, RUNS_MAX, fuel, false);
    }
    Ok(report)
}

/// The first of some runs that ends in a way.
#[tactic(auto, using(crate::proofs::SeekLemmas::finding))]
pub(crate) fn found_in(
    alloc: Global,
    copy: &mut Debugger<'_>,
    fuel: usize,
    leaves: &[SearchLeaf],
    way: Way,
) -> Result<Option<WholeRun>, AllocError>
    requires clean { length copy.old.trail.steps ≡ copy.old.trail.depth }
    requires fits { copy.old.trail.depth + fuel ≤ STEPS_MAX }
    requires has { AllByRecursion (HasWitness wide_decision copy.old.trail.program copy.old.trail.mode (done_steps copy.old.trail) fuel copy.old.world) leaves.now }
    ensures value { IfOk result (λ o. o ≡ option_map (spec.whole_run (done_steps copy.old.trail) fuel copy.old.world) (ways.first_in way leaves.now)) }
    ensures lies { IfOk result (λ o. IfSome o (LiesAhead copy.old.trail)) }
    ensures as_found { AsFound (standing_of copy.old) (standing_of copy.new) }
{
    copy.state_is_reached();
    match first_in(way, leaves) {
        None => Ok(None),
        Some(leaf) => {
            let run = whole_run(alloc, copy, fuel, leaf)?;
            Ok(Some(run))
        }
    }
}

/// Looks for the first run that ends in a way among the first 65,536 that are listed.
#[tactic(auto, using(crate::proofs::SeekLemmas::listing))]
fn by_runs(
    alloc: Global,
    copy: &mut Debugger<'_>,
    fuel: usize,
    way: Way,
) -> Result<Sought, AllocError>
    requires clean { length copy.old.trail.steps ≡ copy.old.trail.depth }
    requires fits { copy.old.trail.depth + fuel ≤ STEPS_MAX }
    ensures sought { IfOk result (IsSoughtFrom scope_is.Listed way (done_steps copy.old.trail) fuel copy.old.world) }
    ensures lies { IfOk result (FoundLies copy.old.trail) }
{
    let report = look(alloc, copy, fuel, way)?;
    let found = found_in(alloc, copy, fuel, &report.leaves, way)?;
    match found {
        Some(run) => Ok(Sought::Found(run)),
        None => Ok(Sought::Nothing(counts_of(&report.leaves, report.more))),
    }
}

/// Looks for the first run that ends in a way, by states, and if these are too many among the first
/// runs that are listed.
#[tactic(auto, using(crate::proofs::SeekLemmas::seeking))]
fn seek_on(
    alloc: Global,
    copy: &mut Debugger<'_>,
    fuel: usize,
    way: Way,
) -> Result<Search, AllocError>
    requires clean { length copy.old.trail.steps ≡ copy.old.trail.depth }
    requires fits { copy.old.trail.depth + fuel ≤ STEPS_MAX }
    ensures sought { IfOk result (λ s. IsSoughtFrom s.scope way (done_steps copy.old.trail) fuel copy.old.world s.sought) }
    ensures stopped { IfOk result (λ s. s.scope ≡ scope_is.Listed → (s.states ≡ STATES_VISITED) × TooMany way fuel copy.old.world) }
    ensures lies { IfOk result (λ s. FoundLies copy.old.trail s.sought) }
{
    let ByStates {
        found,
        counts,
        states,
    } = by_states(alloc, copy, fuel, way)?;
    if let Some(run) = found {
        return Ok(Search {
            scope: Scope::WideWalk,
            states,
            sought: Sought::Found(run),
        });
    }
    if !counts.more {
        return Ok(Search {
            scope: Scope::WideWalk,
            states,
            sought: Sought::Nothing(counts),
        });
    }
    let sought = by_runs(alloc, copy, fuel, way)?;
    Ok(Search {
        scope: Scope::Listed,
        states,
        sought,
    })
}

/// Looks for the first run that ends in a way, from the debugger's state, in the order of the wide
/// walk, and visits each state once. If `STATES_VISITED` states were visited and no such run was
/// found, it looks among the first 65,536 of the runs that are listed. `Err` means that memory was
/// refused.
#[tactic(auto, using(crate::proofs::SeekLemmas::seeking))]
pub fn seek(alloc: Global, debugger: &Debugger<'_>, way: Way) -> Result<Search, AllocError>
    ensures search { IfOk result (IsSearch way debugger.now.trail debugger.now.world) }
    ensures lies { IfOk result (λ s. FoundLies debugger.now.trail s.sought) }
{
    debugger.state_is_reached();
    let fuel = fuel_at(debugger.depth());
    let mut copy = debugger.copy()?;
    seek_on(alloc, &mut copy, fuel, way)
}

// ---- the run of a number

/// The run that stands at a place among some runs.
#[tactic(auto, using(crate::proofs::SeekLemmas::placing))]
fn run_at_place(
    alloc: Global,
    copy: &mut Debugger<'_>,
    fuel: usize,
    leaves: &[SearchLeaf],
    place: usize,
) -> Result<Option<WholeRun>, AllocError>
    requires clean { length copy.old.trail.steps ≡ copy.old.trail.depth }
    requires fits { copy.old.trail.depth + fuel ≤ STEPS_MAX }
    requires has { AllByRecursion (HasWitness wide_decision copy.old.trail.program copy.old.trail.mode (done_steps copy.old.trail) fuel copy.old.world) leaves.now }
    ensures value { IfOk result (λ o. o ≡ option_map (spec.whole_run (done_steps copy.old.trail) fuel copy.old.world) (slice_get leaves.now place)) }
    ensures lies { IfOk result (λ o. IfSome o (LiesAhead copy.old.trail)) }
{
    match leaves.get(place) {
        None => Ok(None),
        Some(leaf) => {
            let run = whole_run(alloc, copy, fuel, leaf)?;
            Ok(Some(run))
        }
    }
}

/// The run of a number, from 1, among those from the debugger's state, in the order of the walk;
/// none if there is no such run, or no such number. `Err` means that memory was refused.
#[tactic(auto, using(crate::proofs::SeekLemmas::numbering))]
pub fn numbered_run(
    alloc: Global,
    debugger: &Debugger<'_>,
    number: usize,
) -> Result<Option<WholeRun>, AllocError>
    ensures value { IfOk result (λ o. o ≡ spec.numbered_run number debugger.now.trail debugger.now.world) }
    ensures lies { IfOk result (λ o. IfSome o (LiesAhead debugger.now.trail)) }
{
    if !is_number(number) {
        return Ok(None);
    }
    debugger.state_is_reached();
    let fuel = fuel_at(debugger.depth());
    let mut copy = debugger.copy()?;
    let report = first_runs(alloc, &mut copy, number, fuel, false)?;
    let found = run_at_place(alloc, &mut copy, fuel, &report.leaves, number - 1)?;
    Ok(found)
}

// ---- what is said of them

/// Adds a number of steps, in words. `Err` means that memory was refused.
pub fn push_count(out: &mut String, count: usize) -> Result<(), AllocError> {
    if count == 1 {
        return out.push_str("1 step");
    }
    write!(out, "{count} steps")
}

/// Adds how the run ends that lies ahead, by how many steps, and where, given the line of each
/// statement and the marks of the script; of the run of a number this number, too. `Err` means that
/// memory was refused.
pub fn push_ahead(
    out: &mut String,
    lines: &[usize],
    marks: Marks<'_>,
    number: Option<usize>,
    ending: &Ending,
    ahead: usize,
) -> Result<(), AllocError> {
    let name = ending_name(ending);
    match number {
        None => write!(out, "{name} is ")?,
        Some(number) => write!(out, "run {number}, {name}, is ")?,
    }
    push_count(out, ahead)?;
    out.push_str(" ahead")?;
    push_ending_places(out, lines, marks, ending)?;
    out.push('\n')
}

/// Adds that there is no run of a number. `Err` means that memory was refused.
pub fn push_no_run(out: &mut String) -> Result<(), AllocError> {
    out.push_str("refused: there is no such run\n")
}
