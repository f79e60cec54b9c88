//! The ways that the runs of a script end, each with how many runs end so (docs/FORMATS.md,
//! "Outcomes").

ghost use Rattle.std.specs.Prelude.{◌≡◌, ◌≤◌, IfOk, length};
ghost use Rattle.mpd_model.specs.steps.World.{start};
ghost use Rattle.std.specs.List.{AllByRecursion};
ghost use Rattle.mpd_model.specs.runs.Trail.{done_steps, first_standing};
ghost use Rattle.mpd_policy.specs.Wide.{wide_decision};
ghost use Rattle.mpd_explore.specs.Witness.{HasWitness};
ghost use Rattle.mpd_trail.specs.DebuggerViews.{AsFound, standing_of};
ghost use Rattle.mpd_outcomes.specs.Goals.{AreTold};
ghost use Rattle.mpd_check.specs.Outcomes.{found_in, AreDecided, AreOutcomes, IsAnyText, IsModeLine, IsTextOf, ModeOutcomesAnswered, OutcomesAnswered, PutOutcomes};

use crate::counts::{Tally, tally_of};
use crate::listing::ends_if;
use crate::modes::{Listed, line_of};
use crate::print::push_witness;
use mpd_blame::{MarkedBlame, PlacedBlame, blames_of_leaves};
use mpd_code::{Code, Subject};
use mpd_explain::{End, push_end};
use mpd_explore::{SearchLeaf, push_leaf_text};
use mpd_lines::{EngineFault, write_all};
use mpd_model::{STEPS_MAX, Sink};
use mpd_names::Marks;
use mpd_outcomes::{Count, Outcomes, StateLimits, explore_outcomes, push_count};
use mpd_policy::Wide;
use mpd_runs::{WayCounts, counts_told};
use mpd_trail::Debugger;
use std::alloc::{AllocError, Global};

/// How the ways to end are looked for.
#[derive(Clone, Copy)]
pub struct OutcomesPlan<'t> {
    /// How far the search goes, and whether witnesses are wanted.
    pub limits: StateLimits,
    /// Whether each deadlock and each trap is explained.
    pub explain: bool,
    /// The text of the script, the places of whose marks stand beside lines that are told
    /// (docs/FROM_A_RUN.md, "Marks").
    pub script: &'t [u8],
}

/// The ways to end, with what is asked for beside them.
#[derive(Drop)]
pub struct OutcomesListing {
    /// The ways, each with its first run, and the texts of the witnesses of these, if they are
    /// asked for.
    pub outcomes: Outcomes,
    /// The end of each first run, if these are explained.
    pub ends: Vec<End>,
    /// Where it was decided how each first run ends, if these are explained, and it is a deadlock
    /// or a trap.
    pub blames: Vec<Option<PlacedBlame>>,
}

/// What was found of the ways to end.
#[derive(Clone, Copy)]
pub struct OutcomesFound {
    /// What the report of the first run of each way tells.
    pub tally: Tally,
    /// How many of all runs end in each way.
    pub counts: WayCounts,
    /// How many states were visited. It says nothing of the runs.
    pub states: usize,
}

/// The ways to end as text, and what was found of them.
#[derive(Drop)]
struct ToldOutcomes {
    text: Vec<u8>,
    found: OutcomesFound,
}

// ---- what is found

/// What was found of these ways to end.
pub fn found_in(outcomes: &Outcomes) -> OutcomesFound
    ensures { result ≡ found_in outcomes.now }
{
    let tally = tally_of(&outcomes.firsts);
    OutcomesFound {
        tally,
        counts: counts_told(outcomes),
        states: outcomes.visited,
    }
}

/// Where it was decided how the first runs end, if these are explained. The debugger is left as
/// found.
fn blames_if(
    alloc: Global,
    debugger: &mut Debugger<'_>,
    plan: OutcomesPlan<'_>,
    leaves: &[SearchLeaf],
) -> Result<Vec<Option<PlacedBlame>>, AllocError>
    requires clean { length debugger.old.trail.steps ≡ debugger.old.trail.depth }
    requires at_start { debugger.old.trail.depth ≡ 0 }
    requires few { plan.limits.fuel ≤ STEPS_MAX }
    requires listed { AllByRecursion (HasWitness wide_decision debugger.old.trail.program debugger.old.trail.mode (done_steps debugger.old.trail) plan.limits.fuel debugger.old.world) leaves.now }
    ensures decided { IfOk result (λ blames. AreDecided plan.entry.explain plan.entry.limits (standing_of debugger.old) leaves.now blames.items) }
    ensures as_found { AsFound (standing_of debugger.old) (standing_of debugger.new) }
{
    debugger.state_is_reached();
    if !plan.explain {
        return Ok(Vec::new(alloc));
    }
    blames_of_leaves(alloc, debugger, plan.limits, leaves)
}

/// Looks for the ways to end from a script's start.
fn list_there(
    alloc: Global,
    debugger: &mut Debugger<'_>,
    plan: OutcomesPlan<'_>,
) -> Result<OutcomesListing, AllocError>
    requires clean { length debugger.old.trail.steps ≡ debugger.old.trail.depth }
    requires at_start { debugger.old.trail.depth ≡ 0 }
    requires few { plan.limits.fuel ≤ STEPS_MAX }
    ensures { IfOk result (AreOutcomes plan.entry.explain plan.entry.limits (standing_of debugger.old)) }
{
    debugger.state_is_reached();
    let outcomes = explore_outcomes(alloc, debugger, plan.limits)?;
    let leaves = &outcomes.firsts.leaves;
    let blames = blames_if(alloc, debugger, plan, leaves)?;
    let fuel = plan.limits.fuel;
    let ends = ends_if(alloc, &Wide, debugger, leaves, fuel, plan.explain)?;
    Ok(OutcomesListing {
        outcomes,
        ends,
        blames,
    })
}

/// Looks for the ways that the runs of the wide walk of a script end, from its start in a mode: for
/// each how many runs end so, the first of them, and what is asked for of that (docs/FORMATS.md,
/// "Outcomes"). If the limits name an end, these are of the runs up to the first that ends so.
/// `Err` means that memory was refused. Requires a fuel of at most 1,000,000 steps.
pub fn list_outcomes(
    alloc: Global,
    subject: Subject<'_>,
    plan: OutcomesPlan<'_>,
) -> Result<OutcomesListing, AllocError>
    requires { plan.limits.fuel ≤ STEPS_MAX }
    ensures { IfOk result (AreOutcomes plan.entry.explain plan.entry.limits (first_standing subject.entry.code.now.program subject.entry.mode)) }
{
    let mut debugger = Debugger::start(alloc, subject.code, subject.mode)?;
    let listing = list_there(alloc, &mut debugger, plan);
    drop(debugger);
    listing
}

// ---- what is said of it

/// Adds the line of the way to end of this number, by its first run and how many runs end so.
fn push_outcome(
    alloc: Global,
    out: &mut String,
    number: usize,
    first: &SearchLeaf,
    count: Count,
) -> Result<(), AllocError> {
    write!(out, "outcome {number} runs ")?;
    push_count(out, count)?;
    out.push_str(" first ")?;
    push_leaf_text(alloc, out, first)?;
    out.push('\n')
}

/// Adds what stands beside the first run of the way to end of this number.
fn push_beside(
    out: &mut String,
    code: &Code,
    marks: Marks<'_>,
    listing: &OutcomesListing,
    number: usize,
) -> Result<(), AllocError> {
    push_witness(out, &listing.outcomes.firsts.witnesses, number, number)?;
    if let Some(end) = listing.ends.get(number) {
        push_end(out, code.decls(), marks, end)?;
    }
    if let Some(Some(blame)) = listing.blames.get(number) {
        write!(out, "  {}\n", MarkedBlame(*blame, marks))?;
    }
    Ok(())
}

/// Adds the last line: how many ways to end there are, how many runs in all, and whether there are
/// others.
fn push_all(out: &mut String, outcomes: &Outcomes) -> Result<(), AllocError> {
    let more = if outcomes.firsts.more { "yes" } else { "no" };
    write!(out, "outcomes {} runs ", outcomes.firsts.leaves.len())?;
    push_count(out, outcomes.total)?;
    write!(out, " more {more}\n")
}

/// The ways to end as text.
fn text_of(
    alloc: Global,
    code: &Code,
    plan: OutcomesPlan<'_>,
    listing: &OutcomesListing,
) -> Result<String, AllocError> {
    let marks = Marks {
        script: plan.script,
    };
    let mut out = String::new(alloc);
    let outcomes = &listing.outcomes;
    for (number, first) in outcomes.firsts.leaves.iter().enumerate() {
        let count = outcomes.counts.get(number).copied();
        let count = count.unwrap_or(Count::Exactly(0));
        push_outcome(alloc, &mut out, number, first, count)?;
        push_beside(&mut out, code, marks, listing, number)?;
    }
    push_all(&mut out, outcomes)?;
    Ok(out)
}

/// Looks for the ways to end from a script's start, and makes their text.
fn tell(
    alloc: Global,
    subject: Subject<'_>,
    plan: OutcomesPlan<'_>,
) -> Result<ToldOutcomes, AllocError>
    requires { plan.limits.fuel ≤ STEPS_MAX }
    ensures { IfOk result (IsTextOf IsAnyText plan.entry.limits (start subject.entry.code.now.program subject.entry.mode)) }
{
    let listing = list_outcomes(alloc, subject, plan)?;
    let text = text_of(alloc, subject.code, plan, &listing)?;
    let text = text.into_bytes();
    let found = found_in(&listing.outcomes);
    Ok(ToldOutcomes { text, found })
}

/// Looks for the ways to end from a script's start in a mode, with nothing beside them. `Err` means
/// that memory was refused. Requires a fuel of at most 1,000,000 steps.
pub fn outcomes_in(
    alloc: Global,
    subject: Subject<'_>,
    limits: StateLimits,
) -> Result<Outcomes, AllocError>
    requires { limits.fuel ≤ STEPS_MAX }
    ensures { IfOk result (AreTold limits (start subject.entry.code.now.program subject.entry.mode)) }
{
    let mut at_start = Debugger::start(alloc, subject.code, subject.mode)?;
    let outcomes = explore_outcomes(alloc, &mut at_start, limits);
    drop(at_start);
    outcomes
}

/// Looks for the ways to end from a script's start in a mode, and makes the line of what they tell.
fn tell_mode(
    alloc: Global,
    subject: Subject<'_>,
    limits: StateLimits,
) -> Result<ToldOutcomes, AllocError>
    requires { limits.fuel ≤ STEPS_MAX }
    ensures { IfOk result (IsTextOf (IsModeLine subject.entry.mode) limits (start subject.entry.code.now.program subject.entry.mode)) }
{
    let outcomes = outcomes_in(alloc, subject, limits)?;
    let found = found_in(&outcomes);
    drop(outcomes);
    let text = line_of(alloc, Listed::Outcomes, subject.mode, found.tally)?;
    let text = text.into_bytes();
    Ok(ToldOutcomes { text, found })
}

/// Writes the text, if it was told, and returns what was found.
fn put_outcomes<W: Sink>(
    told: Result<ToldOutcomes, AllocError>,
    sink: &mut W,
) -> Result<OutcomesFound, EngineFault>
    ensures { PutOutcomes told (W.seen sink.old) (W.seen sink.new) result }
{
    let Ok(told) = told else {
        return Err(EngineFault::Memory);
    };
    if write_all(sink, &told.text).is_err() {
        return Err(EngineFault::WriteFailed);
    }
    Ok(told.found)
}

/// Looks for the ways to end, and writes a line for each, with how many runs end so and the first
/// of them, and with what is asked for after it; last, how many runs there are (docs/FORMATS.md,
/// "Outcomes"). Returns what a report of the first runs would tell, how many of all runs end in
/// each way, and how many states were visited. `WriteFailed` (46) comes only if a write failed, and
/// `Memory` only before anything is written. Requires a fuel of at most 1,000,000 steps.
pub fn check_outcomes<W: Sink>(
    alloc: Global,
    subject: Subject<'_>,
    plan: OutcomesPlan<'_>,
    sink: &mut W,
) -> Result<OutcomesFound, EngineFault>
    requires { plan.limits.fuel ≤ STEPS_MAX }
    ensures { OutcomesAnswered plan.entry.limits subject.entry.code.now.program subject.entry.mode (W.seen sink.old) (W.seen sink.new) result }
{
    put_outcomes(tell(alloc, subject, plan), sink)
}

/// Looks for the same ways, and writes one line of what they tell (docs/FORMATS.md, "Modes tried in
/// turn"): how many there are, how many of them are deadlocks, traps, such as leave messages over,
/// and cut, and whether there are runs that were not visited. Returns what `check_outcomes` does,
/// and is refused as that is.
pub fn check_mode_outcomes<W: Sink>(
    alloc: Global,
    subject: Subject<'_>,
    limits: StateLimits,
    sink: &mut W,
) -> Result<OutcomesFound, EngineFault>
    requires { limits.fuel ≤ STEPS_MAX }
    ensures { ModeOutcomesAnswered limits subject.entry.code.now.program subject.entry.mode (W.seen sink.old) (W.seen sink.new) result }
{
    put_outcomes(tell_mode(alloc, subject, limits), sink)
}
