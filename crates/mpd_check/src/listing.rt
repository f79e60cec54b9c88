//! A report by its leaves, all of them or those that end in the same way together, each with what
//! is asked for beside it; and a sample of a script's runs (docs/FORMATS.md, "Reports").

ghost use Rattle.std.specs.Prelude.{◌≡◌, ◌≤◌, ◌<◌, ◌+◌, ◌⊎◌, false, IfOk, OnOk, IsErrOf, length, map, string_bytes, if◌then◌else◌};
ghost use Rattle.std.specs.List.{AllByRecursion};
ghost use Rattle.mpd_model.specs.runs.Trail.{done_steps, first_standing};
ghost use Rattle.mpd_trail.specs.DebuggerViews.{AsFound, standing_of};
ghost use Rattle.mpd_policy.specs.Wide.{wide_decision};
ghost use Rattle.mpd_explore.specs.Sleeping.{decides_by};
ghost use Rattle.mpd_explore.specs.Witness.{HasWitness};
ghost use Rattle.mpd_explore.specs.WitnessTexts.{witness_texts};
ghost use Rattle.mpd_check.specs.Shown.{ends_if};
ghost use Rattle.mpd_check.specs.Checked.{pieces_of, leaves_of, more_of, AreFew};
ghost use Rattle.mpd_check.specs.Listing.{sample_leaves, sample_more, IsListing, IsListed, ListingAnswered, SampleAnswered};

use crate::counts::{Tally, tally_of};
use crate::fault::CheckFault;
use crate::groups::Group;
use crate::print::put_listing;
use crate::shown::{Shown, shown_of};
use crate::{is_crew, refused};
use mpd_code::Subject;
use mpd_explain::{End, explain_all};
use mpd_explore::{PIECES_MAX, SearchLeaf, SearchLimits, SearchReport, Watch, Witnesses};
use mpd_lines::EngineFault;
use mpd_model::{STEPS_MAX, Sink};
use mpd_policy::{Plain, Schedule, Wide};
use mpd_pool::{Crew, Gate, PoolFault, SearchPlan, WORKERS_MAX};
use mpd_runs::sample;
use mpd_trail::Debugger;
use std::alloc::{AllocError, Global};
use std::marker::Sync;
use std::thread::Threads;

/// What a report has beside its leaves.
#[derive(Clone, Copy)]
pub struct Telling<'t> {
    /// Whether each deadlock and each trap is explained.
    pub explain: bool,
    /// Whether each different end is listed once, in place of the leaves.
    pub group: bool,
    /// The text of the script, the places of whose marks stand beside lines that are told
    /// (docs/FROM_A_RUN.md, "Marks").
    pub script: &'t [u8],
}

/// What is wanted of a report: of which runs it is, and what it has beside its leaves.
#[derive(Clone, Copy)]
pub struct Wanted<'t> {
    /// How the runs are cut into pieces, and the limits of each.
    pub plan: SearchPlan,
    /// What it has beside its leaves.
    pub telling: Telling<'t>,
}

/// Which runs are drawn.
#[derive(Clone, Copy)]
pub struct SamplePlan {
    /// What the generator is seeded with.
    pub seed: u64,
    /// How many runs are drawn, the fuel of each, and what else is asked of a report.
    pub limits: SearchLimits,
}

/// A report by its leaves.
#[derive(Drop)]
pub struct Listing {
    /// What it tells of all of them.
    pub tally: Tally,
    /// Those that are shown: all, or if they are grouped the first of each group; with the texts of
    /// their witnesses, if these are asked for.
    pub shown: SearchReport,
    /// The group of each leaf that is shown, if they are grouped.
    pub groups: Vec<Group>,
    /// The end of each leaf that is shown, if these are explained.
    pub ends: Vec<End>,
}

/// The ends of leaves that were listed along a schedule, if they are asked for. The debugger is
/// left as found.
pub(crate) fn ends_if<S: Schedule>(
    alloc: Global,
    schedule: &S,
    debugger: &mut Debugger<'_>,
    leaves: &[SearchLeaf],
    fuel: usize,
    explain: bool,
) -> Result<Vec<End>, AllocError>
    requires clean { length debugger.old.trail.steps ≡ debugger.old.trail.depth }
    requires fits { debugger.old.trail.depth + fuel ≤ STEPS_MAX }
    requires listed { AllByRecursion (HasWitness S.decides debugger.old.trail.program debugger.old.trail.mode (done_steps debugger.old.trail) fuel debugger.old.world) leaves.now }
    ensures ends { IfOk result (λ ends. ends.items ≡ ends_if S.decides explain fuel (standing_of debugger.old) leaves.now) }
    ensures as_found { AsFound (standing_of debugger.old) (standing_of debugger.new) }
{
    debugger.state_is_reached();
    if !explain {
        return Ok(Vec::new(alloc));
    }
    explain_all(alloc, schedule, debugger, leaves, fuel)
}

/// The limits by which a report is made: if it is grouped, no texts of witnesses, since those of
/// the first leaves are made afterwards.
pub(crate) fn limits_for(limits: SearchLimits, telling: Telling<'_>) -> SearchLimits
    ensures { result ≡ record limits { witnesses = if telling.entry.group then Witnesses.OfNone else limits.witnesses } }
{
    let witnesses = if telling.group {
        Witnesses::OfNone
    } else {
        limits.witnesses
    };
    SearchLimits {
        witnesses,
        ..limits
    }
}

/// A report whose leaves were listed along a schedule.
fn listing_of<S: Schedule>(
    alloc: Global,
    schedule: &S,
    debugger: &mut Debugger<'_>,
    report: SearchReport,
    limits: SearchLimits,
    telling: Telling<'_>,
) -> Result<Listing, AllocError>
    requires clean { length debugger.old.trail.steps ≡ debugger.old.trail.depth }
    requires fits { debugger.old.trail.depth + limits.fuel ≤ STEPS_MAX }
    requires listed { AllByRecursion (HasWitness S.decides debugger.old.trail.program debugger.old.trail.mode (done_steps debugger.old.trail) limits.fuel debugger.old.world) report.leaves.items }
    requires texts { telling.group ≡ false → map string_bytes report.witnesses.items ≡ witness_texts S.decides limits.witnesses (done_steps debugger.old.trail) limits.fuel debugger.old.world report.leaves.items }
    ensures { IfOk result (IsListing S.decides telling.entry limits (standing_of debugger.old) report.leaves.items report.more) }
{
    let tally = tally_of(&report);
    let Shown { report, groups } = shown_of(
        alloc,
        schedule,
        debugger,
        report,
        limits,
        telling.group,
    )?;
    let ends = ends_if(
        alloc,
        schedule,
        debugger,
        &report.leaves,
        limits.fuel,
        telling.explain,
    )?;
    Ok(Listing {
        tally,
        shown: report,
        groups,
        ends,
    })
}

/// A report that was made with these limits. If it is grouped, it may be without the texts of
/// witnesses.
pub(crate) fn listing_by(
    alloc: Global,
    debugger: &mut Debugger<'_>,
    report: SearchReport,
    limits: SearchLimits,
    telling: Telling<'_>,
) -> Result<Listing, AllocError>
    requires clean { length debugger.old.trail.steps ≡ debugger.old.trail.depth }
    requires fits { debugger.old.trail.depth + limits.fuel ≤ STEPS_MAX }
    requires listed { AllByRecursion (HasWitness (decides_by limits.ends) debugger.old.trail.program debugger.old.trail.mode (done_steps debugger.old.trail) limits.fuel debugger.old.world) report.leaves.items }
    requires texts { telling.group ≡ false → map string_bytes report.witnesses.items ≡ witness_texts (decides_by limits.ends) limits.witnesses (done_steps debugger.old.trail) limits.fuel debugger.old.world report.leaves.items }
    ensures { IfOk result (IsListing (decides_by limits.ends) telling.entry limits (standing_of debugger.old) report.leaves.items report.more) }
{
    if limits.ends {
        return listing_of(alloc, &Wide, debugger, report, limits, telling);
    }
    listing_of(alloc, &Plain, debugger, report, limits, telling)
}

/// Explores a script from its start by the workers of a crew.
fn list_all<G: Gate, R: Threads + Sync>(
    crew: Crew<'_, R>,
    alloc: Global,
    subject: Subject<'_>,
    wanted: Wanted<'_>,
    gate: &G,
) -> Result<Listing, PoolFault>
    requires { wanted.plan.limits.fuel ≤ STEPS_MAX }
    ensures listing { IfOk result (IsListing (decides_by wanted.entry.plan.limits.ends) wanted.entry.telling wanted.entry.plan.limits (first_standing subject.entry.code.now.program subject.entry.mode) (leaves_of subject.entry.code.now.program subject.entry.mode wanted.entry.plan) (more_of subject.entry.code.now.program subject.entry.mode wanted.entry.plan)) }
    ensures workers { IsErrOf result PoolFault.BadWorkers → (crew.entry.workers ≡ 0) ⊎ (WORKERS_MAX < crew.entry.workers) }
    ensures few { OnOk result (AreFew subject.entry.code.now.program subject.entry.mode wanted.entry.plan) }
    ensures many { IsErrOf result PoolFault.TooManyPieces → PIECES_MAX < length (pieces_of subject.entry.code.now.program subject.entry.mode wanted.entry.plan) }
{
    let Ok(mut debugger) = Debugger::start(alloc, subject.code, subject.mode) else {
        return Err(PoolFault::Memory);
    };
    let plan = SearchPlan {
        limits: limits_for(wanted.plan.limits, wanted.telling),
        ..wanted.plan
    };
    let report = match mpd_pool::check_watched(crew, alloc, &mut debugger, plan, gate) {
        Ok(report) => report,
        Err(fault) => {
            drop(debugger);
            return Err(fault);
        }
    };
    let listing = listing_by(
        alloc,
        &mut debugger,
        report,
        wanted.plan.limits,
        wanted.telling,
    );
    drop(debugger);
    match listing {
        Ok(listing) => Ok(listing),
        Err(_) => Err(PoolFault::Memory),
    }
}

/// Explores a script from its start in a mode, as `check` does, and lists the leaves of the report
/// with what is asked for beside them. Refused as `check` is, but no write can fail. Requires a
/// fuel of at most 1,000,000 steps. `gate` is told how far the exploration is, and of its end;
/// nothing else depends on it.
pub fn list_search<G: Gate, R: Threads + Sync>(
    crew: Crew<'_, R>,
    alloc: Global,
    subject: Subject<'_>,
    wanted: Wanted<'_>,
    gate: &G,
) -> Result<Listing, CheckFault>
    requires { wanted.plan.limits.fuel ≤ STEPS_MAX }
    ensures { IsListed wanted.entry.telling subject.entry.code.now.program subject.entry.mode wanted.entry.plan crew.entry.workers result }
{
    if !is_crew(crew.workers) {
        return Err(CheckFault::BadWorkers);
    }
    let listed = list_all(crew, alloc, subject, wanted, gate);
    gate.done();
    match listed {
        Ok(listing) => Ok(listing),
        Err(fault) => Err(refused(fault)),
    }
}

/// The same, and the report is written (docs/FORMATS.md, "Reports"): if nothing is asked for beside
/// its leaves, as `check_search` writes it. Refused as `check` is.
pub fn check_listing<W: Sink, G: Gate, R: Threads + Sync>(
    crew: Crew<'_, R>,
    alloc: Global,
    subject: Subject<'_>,
    wanted: Wanted<'_>,
    sink: &mut W,
    gate: &G,
) -> Result<Tally, CheckFault>
    requires { wanted.plan.limits.fuel ≤ STEPS_MAX }
    ensures { ListingAnswered wanted.entry.telling subject.entry.code.now.program subject.entry.mode wanted.entry.plan crew.entry.workers (W.seen sink.old) (W.seen sink.new) result }
{
    match list_search(crew, alloc, subject, wanted, gate) {
        Ok(listing) => put_listing(alloc, subject.code, wanted.telling, &listing, sink),
        Err(fault) => Err(fault),
    }
}

/// Draws runs of a script from its start.
fn list_drawn<P: Watch>(
    alloc: Global,
    subject: Subject<'_>,
    plan: SamplePlan,
    telling: Telling<'_>,
    watch: &mut P,
) -> Result<Listing, AllocError>
    requires { plan.limits.fuel ≤ STEPS_MAX }
    ensures { IfOk result (IsListing wide_decision telling.entry plan.limits (first_standing subject.entry.code.now.program subject.entry.mode) (sample_leaves subject.entry.code.now.program subject.entry.mode plan.seed plan.limits) (sample_more subject.entry.code.now.program subject.entry.mode plan.seed plan.limits)) }
{
    let mut debugger = Debugger::start(alloc, subject.code, subject.mode)?;
    let limits = limits_for(plan.limits, telling);
    let report = sample(alloc, &mut debugger, plan.seed, limits, watch)?;
    let listing = listing_of(alloc, &Wide, &mut debugger, report, plan.limits, telling);
    drop(debugger);
    listing
}

/// Draws as many runs of the wide walk of a script from its start in a mode as the plan says, by a
/// generator that is seeded with its number, and lists each different list of choices once, in
/// order, with what is asked for beside it (docs/FORMATS.md, "Samples"). `Err` means that memory
/// was refused. Requires a fuel of at most 1,000,000 steps. `watch` is told of each run that is
/// drawn, and of the end; nothing else depends on it.
pub fn list_sample<P: Watch>(
    alloc: Global,
    subject: Subject<'_>,
    plan: SamplePlan,
    telling: Telling<'_>,
    watch: &mut P,
) -> Result<Listing, AllocError>
    requires { plan.limits.fuel ≤ STEPS_MAX }
    ensures { IfOk result (IsListing wide_decision telling.entry plan.limits (first_standing subject.entry.code.now.program subject.entry.mode) (sample_leaves subject.entry.code.now.program subject.entry.mode plan.seed plan.limits) (sample_more subject.entry.code.now.program subject.entry.mode plan.seed plan.limits)) }
{
    let listing = list_drawn(alloc, subject, plan, telling, watch);
    watch.end();
    listing
}

/// The same, and the report is written. Returns what it tells. `WriteFailed` (46) comes only if a
/// write failed, and `Memory` only before anything is written.
pub fn check_sample<W: Sink, P: Watch>(
    alloc: Global,
    subject: Subject<'_>,
    plan: SamplePlan,
    telling: Telling<'_>,
    sink: &mut W,
    watch: &mut P,
) -> Result<Tally, CheckFault>
    requires { plan.limits.fuel ≤ STEPS_MAX }
    ensures { SampleAnswered telling.entry subject.entry.code.now.program subject.entry.mode plan.seed plan.limits (W.seen sink.old) (W.seen sink.new) result }
{
    match list_sample(alloc, subject, plan, telling, watch) {
        Ok(listing) => put_listing(alloc, subject.code, telling, &listing, sink),
        Err(_) => Err(CheckFault::Engine(EngineFault::Memory)),
    }
}
