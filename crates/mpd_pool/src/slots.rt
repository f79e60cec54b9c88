//! A place for the report of each piece, by its number.
ghost use Rattle.std.specs.Prelude.{◌≡◌, ◌<◌, true, List, All, IfOk, length};
ghost use Rattle.crossbeam_deque.specs.Handles.{IsPassOf, worker_deque, worker_view};
ghost use Rattle.mpd_model.specs.runs.Trail.{Standing};
ghost use Rattle.mpd_explore.specs.declared.report.SearchLimits.{SearchLimits};
ghost use Rattle.mpd_explore.specs.declared.splitter.Piece.{Piece};
ghost use Rattle.mpd_pool.specs.Parts.{AtNumber, Filled, AllNone};
ghost use Rattle.mpd_pool.specs.Brought.{AllRight};

use crate::deque::{Given, Owner};
use crate::work::{Batch, Brought};
use mpd_explore::SearchReport;
use std::alloc::{AllocError, Global};

/// A place for the report of each piece, none of which is there.
#[tactic(auto, using(crate::proofs::Places::none_more))]
pub(crate) fn no_reports(
    alloc: Global,
    count: usize,
) -> Result<Vec<Option<SearchReport>>, AllocError>
    ensures { IfOk result (λ v. (length v.items ≡ count) × AllNone v.items) }
{
    let mut slots = Vec::with_capacity(alloc, count)?;
    for _ in 0..count {
        slots.push_reserved(None);
    }
    Ok(slots)
}

/// Whether there is a place of this number, and nothing in it.
fn is_free(slots: &[Option<SearchReport>], number: usize) -> bool
    ensures { result ≡ true → number < length slots.now }
{
    match slots.get(number) {
        Some(slot) => slot.is_none(),
        None => false,
    }
}

/// Puts a report in the place of its piece. One that has no place, or whose place is taken, is refused.
#[tactic(auto, using(crate::proofs::Places::filled_set))]
fn place(slots: &mut Vec<Option<SearchReport>>, one: Brought)
    ensures { (d : Standing) (l : SearchLimits) (ps : List Piece) → AtNumber d l ps one.piece one.report → Filled d l ps slots.old.items → Filled d l ps slots.new.items }
{
    let Brought { piece, report } = one;
    if is_free(slots, piece) {
        slots[piece] = Some(report);
    }
}

/// Puts the reports that a worker brought in their places.
fn gather(slots: &mut Vec<Option<SearchReport>>, mut brought: Vec<Brought>)
    ensures { (d : Standing) (l : SearchLimits) (ps : List Piece) → AllRight d l ps brought.items → Filled d l ps slots.old.items → Filled d l ps slots.new.items }
{
    while let Some(one) = brought.pop() {
        place(slots, one);
    }
}

/// Takes the passes back, and puts all reports in their places.
pub(crate) fn collect(
    owner: &mut Owner,
    mut batches: Vec<Batch>,
    slots: &mut Vec<Option<SearchReport>>,
)
    requires live { (worker_view owner.old).live ≡ true }
    requires passes { All (λ b. IsPassOf (worker_deque owner.old) b.pass) batches.items }
    ensures { (d : Standing) (l : SearchLimits) (ps : List Piece) → All (λ b. AllRight d l ps b.brought.items) batches.items → Filled d l ps slots.old.items → Filled d l ps slots.new.items }
{
    while let Some(batch) = batches.pop() {
        let Batch { pass, brought } = batch;
        owner.absorb::<Given>(pass);
        gather(slots, brought);
    }
}
