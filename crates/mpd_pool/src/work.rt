//! What a worker does: it draws numbers of pieces, and explores these.
ghost use Rattle.std.specs.Prelude.{◌≡◌, ◌<◌, true, false, length, IfOk, OnErr, OnOk};
ghost use Rattle.crossbeam_deque.specs.Handles.{view, IsPassOf, stealer_deque};
ghost use Rattle.mpd_trail.specs.DebuggerViews.{standing_of};
ghost use Rattle.mpd_explore.specs.Sleeping.{decides_by};
ghost use Rattle.mpd_explore.specs.Pieces.{Reaches};
ghost use Rattle.mpd_pool.specs.Numbers.{hand};
ghost use Rattle.mpd_pool.specs.Parts.{IsPart, AtNumber, CanExplore, CanBegin};
ghost use Rattle.mpd_pool.specs.Brought.{AllRight, CanStart};

use crate::deque::{Taken, Thief, WorkerPass};
use crate::gate::Gate;
use crossbeam_deque::Steal;
use mpd_explore::{PIECES_MAX, Piece, SearchLimits, SearchReport, Watch, explore_at_watched};
use mpd_trail::Debugger;
use std::alloc::{AllocError, Global};
use std::thread;

/// How often a worker draws at most. A draw takes a number, or finds that another worker has just taken the one that it saw: either way
/// one is gone since it looked, and there are 1,024 at most. One draw more finds none.
const DRAWS_MAX: usize = PIECES_MAX + 1;

/// The report of a piece, and its number.
#[derive(Drop)]
pub(crate) struct Brought {
    pub(crate) piece: usize,
    pub(crate) report: SearchReport,
}

/// What a worker is given: a debugger of its own, and what it draws numbers by.
#[derive(Drop)]
pub(crate) struct Job<'c> {
    pub(crate) debugger: Debugger<'c>,
    pub(crate) pass: WorkerPass,
}

/// What a worker brings.
#[derive(Drop)]
pub(crate) struct Batch {
    pub(crate) pass: WorkerPass,
    pub(crate) brought: Vec<Brought>,
}

/// What is explored: pieces, the limits of each, and the gate that is told how far that is.
#[derive_where(Clone, Copy)]
pub(crate) struct Task<'p, G> {
    pub(crate) pieces: &'p [Piece],
    pub(crate) limits: SearchLimits,
    pub(crate) gate: &'p G,
}

/// Tells a gate of the leaves of a piece.
#[derive(Drop)]
struct Leaves<'g, G> {
    gate: &'g G,
}

impl<'g, G: Gate> Watch for Leaves<'g, G> {
    fn leaf(&mut self, _count: usize) {
        self.gate.leaf();
    }

    fn end(&mut self) {}
}

/// Explores a piece. The debugger is left as found.
fn explore_piece<G: Gate>(
    alloc: Global,
    debugger: &mut Debugger<'_>,
    piece: &Piece,
    limits: SearchLimits,
    gate: &G,
) -> Result<SearchReport, AllocError>
    requires can { CanBegin (standing_of debugger.old) limits }
    requires reaches { Reaches (decides_by limits.ends) limits.fuel piece.now.choices debugger.old.world }
    ensures part { IfOk result (λ r. IsPart (standing_of debugger.old) limits piece.now.choices r) }
    ensures same { standing_of debugger.new ≡ standing_of debugger.old }
{
    explore_at_watched(
        alloc,
        debugger,
        &piece.choices.items,
        limits,
        &mut Leaves { gate },
    )
}

/// Explores the piece of some number, and tells where it is begun and ended. The debugger is left as found.
pub(crate) fn compute<G: Gate>(
    alloc: Global,
    debugger: &mut Debugger<'_>,
    task: Task<'_, G>,
    number: usize,
) -> Result<SearchReport, AllocError>
    requires within { number < length task.pieces.now }
    requires can { CanExplore (standing_of debugger.old) task.limits task.pieces.now }
    ensures part { IfOk result (λ r. AtNumber (standing_of debugger.old) task.entry.limits task.entry.pieces.now number r) }
    ensures same { standing_of debugger.new ≡ standing_of debugger.old }
{
    let Task {
        pieces,
        limits,
        gate,
    } = task;
    gate.begin(number);
    let found = explore_piece(alloc, debugger, &pieces[number], limits, gate);
    gate.end(number);
    found
}

/// Adds the report of a piece to those that are brought, and returns whether nothing after that
/// piece is listed.
fn bring<G: Gate>(
    alloc: Global,
    debugger: &mut Debugger<'_>,
    task: Task<'_, G>,
    number: usize,
    brought: &mut Vec<Brought>,
) -> Result<bool, AllocError>
    requires within { number < length task.pieces.now }
    requires can { CanExplore (standing_of debugger.old) task.limits task.pieces.now }
    requires right { AllRight (standing_of debugger.old) task.limits task.pieces.now brought.old.items }
    ensures right { AllRight (standing_of debugger.old) task.entry.limits task.entry.pieces.now brought.new.items }
    ensures same { standing_of debugger.new ≡ standing_of debugger.old }
{
    brought.reserve(1)?;
    let report = compute(alloc, debugger, task, number)?;
    let is_last = task.limits.ends_with_report(&report);
    brought.push_reserved(Brought {
        piece: number,
        report,
    });
    Ok(is_last)
}

/// Does with a number that was drawn what a worker does: it explores the piece, or drops the
/// number. Returns whether it drops the numbers after it.
fn take_number<G: Gate>(
    alloc: Global,
    debugger: &mut Debugger<'_>,
    task: Task<'_, G>,
    number: usize,
    brought: &mut Vec<Brought>,
    drops: bool,
) -> Result<bool, AllocError>
    requires within { number < length task.pieces.now }
    requires can { CanExplore (standing_of debugger.old) task.limits task.pieces.now }
    requires right { AllRight (standing_of debugger.old) task.limits task.pieces.now brought.old.items }
    ensures right { AllRight (standing_of debugger.old) task.entry.limits task.entry.pieces.now brought.new.items }
    ensures same { standing_of debugger.new ≡ standing_of debugger.old }
{
    if drops {
        return Ok(true);
    }
    bring(alloc, debugger, task, number, brought)
}

/// Draws numbers until none is left, memory is refused, or it has drawn 1,025 times, and explores
/// the piece of each. After a piece with which a report ends, numbers are drawn and dropped: they
/// are drawn in rising order, so those that are still needed are with others already.
pub(crate) fn work<G: Gate>(alloc: Global, thief: &Thief, task: Task<'_, G>, job: Job<'_>) -> Batch
    requires can { CanStart (stealer_deque thief.now) task.limits task.pieces.now job }
    ensures pass { IsPassOf (stealer_deque thief.now) result.pass × (view result.pass ≡ hand false true (length task.entry.pieces.now)) }
    ensures right { AllRight (standing_of job.entry.debugger) task.entry.limits task.entry.pieces.now result.brought.items }
{
    let Job {
        mut debugger,
        mut pass,
    } = job;
    let mut brought = Vec::new(alloc);
    let mut drops = false;
    for _ in 0..DRAWS_MAX {
        match thief.steal_as::<Taken>(&mut pass) {
            Steal::Success(number) => {
                let taken = take_number(alloc, &mut debugger, task, number, &mut brought, drops);
                match taken {
                    Ok(drops_more) => drops = drops_more,
                    Err(_) => break,
                }
            }
            Steal::Empty => break,
            Steal::Retry => thread::yield_now(),
        }
    }
    Batch { pass, brought }
}
