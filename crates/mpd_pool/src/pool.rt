//! The runs of a script explored by several workers.
ghost use Rattle.std.specs.Prelude.{◌≡◌, ◌↔◌, ◌<◌, ◌≤◌, ◌+◌, ◌⊎◌, true, false, [], All, length, map, IfOk, OnOk, IsErrOf, string_bytes};
ghost use Rattle.std.specs.List.{AllByRecursion};
ghost use Rattle.crossbeam_deque.specs.Handles.{view, IsPassOf, worker_deque, worker_view, stealer_deque};
ghost use Rattle.mpd_model.specs.runs.Trail.{done_steps};
ghost use Rattle.mpd_trail.specs.DebuggerViews.{AsFound, standing_of};
ghost use Rattle.mpd_explore.specs.Sleeping.{decides_by};
ghost use Rattle.mpd_explore.specs.Witness.{HasWitness};
ghost use Rattle.mpd_explore.specs.WitnessTexts.{witness_texts};
ghost use Rattle.mpd_explore.specs.Pieces.{pieces, numbered, split_report, split_more};
ghost use Rattle.mpd_model.specs.runs.Decisions.{decision};
ghost use Rattle.mpd_explore.specs.Deadlocks.{search_of, leaves_told, HasOwnWitness};
ghost use Rattle.mpd_pool.specs.Numbers.{hand};
ghost use Rattle.mpd_pool.specs.Plans.{limits_of};
ghost use Rattle.mpd_pool.specs.Parts.{CanBegin, CanExplore, Filled, IsReport};
ghost use Rattle.mpd_pool.specs.Brought.{AllRight, CanStart, IsJob, IsBatch};
ghost use Rattle.mpd_pool.specs.Faults.{pool_fault_number, pool_fault_name};

use crate::deque::{Given, Owner, filled};
use crate::gate::Gate;
use crate::join::join_all;
use crate::slots::{collect, no_reports};
use crate::work::{Batch, Job, Task, work};
use mpd_explore::{
    Limits, PIECES_MAX, Piece, Report, SearchLimits, SearchReport, SplitFault, split_by,
    with_witnesses,
};
use mpd_model::STEPS_MAX;
use mpd_trail::Debugger;
use std::alloc::{AllocError, Global};
use std::error::Error;
use std::marker::Sync;
use std::thread::Threads;
use std::{fmt, thread};

/// How many workers there are at most.
pub const WORKERS_MAX: usize = 16;

/// Who works: what starts threads, and how many workers explore at the same time.
#[derive_where(Clone, Copy)]
pub struct Crew<'r, R> {
    /// What starts their threads.
    pub rt: &'r R,
    /// How many they are: 1 to 16 are taken.
    pub workers: usize,
}

/// By how many choices the runs of a script are cut into pieces, and the limits of each piece.
#[derive(Clone, Copy)]
pub struct SearchPlan {
    pub split: usize,
    pub limits: SearchLimits,
}

/// The same, of reports that have the witness of each deadlock: how many leaves of each piece are
/// listed at most, and how many steps a run has at most.
#[derive(Clone, Copy)]
pub struct CheckPlan {
    pub split: usize,
    pub runs: usize,
    pub fuel: usize,
}

impl CheckPlan {
    /// The limits of each piece.
    pub fn limits(self) -> Limits
        ensures { result ≡ limits_of self }
    {
        Limits {
            runs: self.runs,
            fuel: self.fuel,
        }
    }
}

/// Why there is no report.
#[derive(Clone, Copy, PartialEq, Eq, Debug)]
pub enum PoolFault {
    /// The number of workers is not 1 to 16.
    BadWorkers,
    /// There are more than 1,024 pieces.
    TooManyPieces,
    /// Memory was refused.
    Memory,
}

impl PoolFault {
    /// Its number: 35 for workers, 31 for pieces; 0 for refused memory, which has none here.
    pub fn number(self) -> u8
        ensures { result ≡ pool_fault_number self }
    {
        match self {
            PoolFault::BadWorkers => 35,
            PoolFault::TooManyPieces => 31,
            PoolFault::Memory => 0,
        }
    }

    /// Its name: `bad-workers`, `too-many-pieces` or `memory`.
    pub fn name(self) -> &'static str
        ensures { result.now ≡ pool_fault_name self }
    {
        match self {
            PoolFault::BadWorkers => "bad-workers",
            PoolFault::TooManyPieces => "too-many-pieces",
            PoolFault::Memory => "memory",
        }
    }
}

impl fmt::Display for PoolFault {
    ghost use Rattle.std.specs.Prelude.{Some};

    ghost output = { λ fault. Some (pool_fault_name fault) };

    fn fmt<W: fmt::Write>(&self, f: &mut fmt::Formatter<W>) -> fmt::Result {
        f.write_str(self.name())
    }
}

impl Error for PoolFault {}

/// Adds a worker, with a copy of the debugger and a pass to draw by.
fn add_job<'c>(
    debugger: &Debugger<'c>,
    owner: &mut Owner,
    jobs: &mut Vec<Job<'c>>,
    limits: SearchLimits,
    pieces: &[Piece],
) -> Result<(), AllocError>
    requires owner { ((worker_view owner.old).live ≡ true) × ((worker_view owner.old).next ≡ length pieces.now) }
    requires can { CanExplore (standing_of debugger.now) limits pieces.now }
    requires jobs { All (IsJob (worker_deque owner.old) (standing_of debugger.now) limits pieces.now) jobs.old.items }
    ensures jobs { All (IsJob (worker_deque owner.old) (standing_of debugger.now) limits pieces.now) jobs.new.items }
    ensures owner { (worker_deque owner.new ≡ worker_deque owner.old) × ((worker_view owner.new).live ≡ true) × ((worker_view owner.new).next ≡ length pieces.now) }
{
    jobs.reserve(1)?;
    let debugger = debugger.copy()?;
    jobs.push_reserved(Job {
        debugger,
        pass: owner.another::<Given>(),
    });
    Ok(())
}

/// `workers` workers; one for which memory is refused is left out.
fn jobs<'c>(
    alloc: Global,
    debugger: &Debugger<'c>,
    owner: &mut Owner,
    limits: SearchLimits,
    pieces: &[Piece],
    workers: usize,
) -> Vec<Job<'c>>
    requires owner { ((worker_view owner.old).live ≡ true) × ((worker_view owner.old).next ≡ length pieces.now) }
    requires can { CanExplore (standing_of debugger.now) limits pieces.now }
    ensures jobs { All (IsJob (worker_deque owner.old) (standing_of debugger.now) limits pieces.now) result.items }
    ensures owner { (worker_deque owner.new ≡ worker_deque owner.old) × ((worker_view owner.new).live ≡ true) × ((worker_view owner.new).next ≡ length pieces.now) }
{
    let mut jobs = Vec::new(alloc);
    for _ in 0..workers {
        let _refused = add_job(debugger, owner, &mut jobs, limits, pieces);
    }
    jobs
}

/// Has workers explore pieces, and puts what they bring in its places.
fn explore_by_workers<G: Gate, R: Threads + Sync>(
    crew: Crew<'_, R>,
    alloc: Global,
    debugger: &Debugger<'_>,
    task: Task<'_, G>,
    slots: &mut Vec<Option<SearchReport>>,
) -> Result<(), AllocError>
    requires can { CanExplore (standing_of debugger.now) task.limits task.pieces.now }
    requires filled { Filled (standing_of debugger.now) task.limits task.pieces.now slots.old.items }
    ensures filled { OnOk result (Filled (standing_of debugger.now) task.entry.limits task.entry.pieces.now slots.new.items) }
{
    let Crew { rt, workers } = crew;
    let Task {
        pieces,
        limits,
        gate,
    } = task;
    let mut owner = filled(alloc, pieces.len())?;
    let stealer = owner.stealer()?;
    let thief = &stealer;
    // a worker more than there are pieces would have nothing to do
    let hands = workers.min(pieces.len());
    let jobs = jobs(alloc, debugger, &mut owner, limits, pieces, hands);
    let batches = thread::map_vec(
        rt,
        jobs,
        &|job: Job<'_>| -> Batch
            requires { CanStart (stealer_deque thief.now) limits pieces.now job }
            ensures { IsBatch (stealer_deque thief.entry.now) (standing_of job.entry.debugger) limits pieces.entry.now result }
        {
            let task = Task {
                pieces,
                limits,
                gate,
            };
            work(alloc, thief, task, job)
        },
    )?;
    collect(&mut owner, batches, slots);
    Ok(())
}

/// The same, unless there is one worker or one piece: then no thread is started.
fn share_out<G: Gate, R: Threads + Sync>(
    crew: Crew<'_, R>,
    alloc: Global,
    debugger: &Debugger<'_>,
    task: Task<'_, G>,
    slots: &mut Vec<Option<SearchReport>>,
) -> Result<(), AllocError>
    requires can { CanExplore (standing_of debugger.now) task.limits task.pieces.now }
    requires filled { Filled (standing_of debugger.now) task.limits task.pieces.now slots.old.items }
    ensures filled { OnOk result (Filled (standing_of debugger.now) task.entry.limits task.entry.pieces.now slots.new.items) }
{
    if crew.workers < 2 || task.pieces.len() < 2 {
        return Ok(());
    }
    explore_by_workers(crew, alloc, debugger, task, slots)
}

/// The report of all pieces, whatever the number of workers. The debugger is left as found.
fn explore_pieces<G: Gate, R: Threads + Sync>(
    crew: Crew<'_, R>,
    alloc: Global,
    debugger: &mut Debugger<'_>,
    task: Task<'_, G>,
) -> Result<SearchReport, AllocError>
    requires can { CanExplore (standing_of debugger.old) task.limits task.pieces.now }
    ensures report { IfOk result (λ r. IsReport (standing_of debugger.old) task.entry.limits task.entry.pieces.now r) }
    ensures same { standing_of debugger.new ≡ standing_of debugger.old }
{
    let mut slots = no_reports(alloc, task.pieces.len())?;
    share_out(crew, alloc, debugger, task, &mut slots)?;
    join_all(alloc, debugger, task, &mut slots)
}

/// The pieces of a plan. The debugger is left as found.
fn cut(
    alloc: Global,
    debugger: &mut Debugger<'_>,
    plan: SearchPlan,
) -> Result<Vec<Piece>, PoolFault>
    requires can { CanBegin (standing_of debugger.old) plan.limits }
    ensures ok { IfOk result (λ v. v.items ≡ numbered 0 (pieces (decides_by plan.limits.ends) plan.split plan.limits.fuel debugger.old.world)) }
    ensures few { OnOk result (length (pieces (decides_by plan.limits.ends) plan.split plan.limits.fuel debugger.old.world) ≤ PIECES_MAX) }
    ensures many { IsErrOf result PoolFault.TooManyPieces → PIECES_MAX < length (pieces (decides_by plan.limits.ends) plan.split plan.limits.fuel debugger.old.world) }
    ensures workers { IsErrOf result PoolFault.BadWorkers → ⊥ }
    ensures same { standing_of debugger.new ≡ standing_of debugger.old }
{
    match split_by(alloc, debugger, plan.split, plan.limits) {
        Ok(pieces) => Ok(pieces),
        Err(SplitFault::TooManyPieces) => Err(PoolFault::TooManyPieces),
        Err(SplitFault::Memory) => Err(PoolFault::Memory),
    }
}

/// The first leaves of the runs from here, found by the workers of a crew. The runs are cut into
/// pieces by their first choices, and the reports of the pieces are joined in order
/// (docs/DEFINITIONS.md, "Pieces"), whatever the number of workers and whoever is first. With
/// `ends` the runs are those of the wide walk. Fuel counts from here, and `runs` is for each piece;
/// there is more if some piece has more. If a list ends with the first deadlock or trap, so does
/// the report, and there is more if some run isn't listed; a worker that has found one explores no
/// piece after it. Requires that no step is undone, and that depth and fuel together are at most
/// 1,000,000 steps. Each leaf has a run, and each deadlock and each trap a witness, as those of
/// `explore`, with their texts if these are wanted. Refused if the number of workers is not 1 to 16
/// (35), if there are more than 1,024 pieces (31), or if memory is refused. A worker that is
/// refused memory stops, and what it doesn't bring is computed here, as far as it is listed. The
/// debugger is left as found, also on a refusal. `gate` is told how many pieces there are, and by
/// whoever computes one of it before and after that, and of each leaf.
pub fn check_watched<G: Gate, R: Threads + Sync>(
    crew: Crew<'_, R>,
    alloc: Global,
    debugger: &mut Debugger<'_>,
    plan: SearchPlan,
    gate: &G,
) -> Result<SearchReport, PoolFault>
    requires clean { length debugger.old.trail.steps ≡ debugger.old.trail.depth }
    requires fits { debugger.old.trail.depth + plan.limits.fuel ≤ STEPS_MAX }
    ensures leaves { IfOk result (λ r. r.leaves.items ≡ split_report plan.split plan.limits debugger.old.world) }
    ensures more { IfOk result (λ r. r.more ≡ split_more plan.split plan.limits debugger.old.world) }
    ensures witnesses { IfOk result (λ r. AllByRecursion (HasWitness (decides_by plan.limits.ends) debugger.old.trail.program debugger.old.trail.mode (done_steps debugger.old.trail) plan.limits.fuel debugger.old.world) r.leaves.items) }
    ensures texts { IfOk result (λ r. map string_bytes r.witnesses.items ≡ witness_texts (decides_by plan.limits.ends) plan.limits.witnesses (done_steps debugger.old.trail) plan.limits.fuel debugger.old.world r.leaves.items) }
    ensures workers { IsErrOf result PoolFault.BadWorkers ↔ ((crew.entry.workers ≡ 0) ⊎ (WORKERS_MAX < crew.entry.workers)) }
    ensures few { OnOk result (length (pieces (decides_by plan.limits.ends) plan.split plan.limits.fuel debugger.old.world) ≤ PIECES_MAX) }
    ensures many { IsErrOf result PoolFault.TooManyPieces → PIECES_MAX < length (pieces (decides_by plan.limits.ends) plan.split plan.limits.fuel debugger.old.world) }
    ensures as_found { AsFound (standing_of debugger.old) (standing_of debugger.new) }
{
    debugger.state_is_reached();
    if crew.workers == 0 || crew.workers > WORKERS_MAX {
        return Err(PoolFault::BadWorkers);
    }
    let pieces = match cut(alloc, debugger, plan) {
        Ok(pieces) => pieces,
        Err(fault) => return Err(fault),
    };
    gate.cut(pieces.len());
    let task = Task {
        pieces: &pieces,
        limits: plan.limits,
        gate,
    };
    match explore_pieces(crew, alloc, debugger, task) {
        Ok(report) => Ok(report),
        Err(_) => Err(PoolFault::Memory),
    }
}

/// The first leaves of the runs from here, found by 1 to 16 workers, each deadlock with its witness,
/// which has all steps from the start of the script and which `verify` accepts. All else is as by
/// `check_watched`, for the walk and without a list's end at the first deadlock or trap: `runs` is
/// for each piece, fuel counts from here, and the report is the same whatever the number of workers
/// and whoever is first. The witnesses are made here, after the pieces. Refused if the number of
/// workers is not 1 to 16 (35), if there are more than 1,024 pieces (31), or if memory is refused.
pub fn check<G: Gate, R: Threads + Sync>(
    rt: &R,
    alloc: Global,
    debugger: &mut Debugger<'_>,
    plan: CheckPlan,
    workers: usize,
    gate: &G,
) -> Result<Report, PoolFault>
    requires clean { length debugger.old.trail.steps ≡ debugger.old.trail.depth }
    requires fits { debugger.old.trail.depth + plan.fuel ≤ STEPS_MAX }
    ensures leaves { IfOk result (λ r. r.leaves.items ≡ leaves_told (done_steps debugger.old.trail) plan.fuel debugger.old.world (split_report plan.split (search_of (limits_of plan)) debugger.old.world)) }
    ensures more { IfOk result (λ r. r.more ≡ split_more plan.split (search_of (limits_of plan)) debugger.old.world) }
    ensures witnesses { IfOk result (λ r. AllByRecursion (HasOwnWitness debugger.old.trail.program debugger.old.trail.mode) r.leaves.items) }
    ensures workers { IsErrOf result PoolFault.BadWorkers ↔ ((workers ≡ 0) ⊎ (WORKERS_MAX < workers)) }
    ensures few { OnOk result (length (pieces decision plan.split plan.fuel debugger.old.world) ≤ PIECES_MAX) }
    ensures many { IsErrOf result PoolFault.TooManyPieces → PIECES_MAX < length (pieces decision plan.split plan.fuel debugger.old.world) }
    ensures as_found { AsFound (standing_of debugger.old) (standing_of debugger.new) }
{
    let search = SearchPlan {
        split: plan.split,
        limits: plan.limits().searched(),
    };
    let found = match check_watched(Crew { rt, workers }, alloc, debugger, search, gate) {
        Ok(found) => found,
        Err(fault) => return Err(fault),
    };
    match with_witnesses(alloc, debugger, plan.fuel, found) {
        Ok(report) => Ok(report),
        Err(_) => Err(PoolFault::Memory),
    }
}
