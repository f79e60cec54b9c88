//! How many runs end in each way.

ghost use Rattle.std.specs.Prelude.{◌≡◌, ℕ, take};
ghost use Rattle.mpd_model.specs.steps.World.{World};
ghost use Rattle.mpd_outcomes.specs.Outcomes.{counted, leaves_from, TellsRuns};
ghost use Rattle.mpd_outcomes.specs.declared.report.Count.TheVariants as count_is;
ghost use Rattle.mpd_runs.specs.Ways.{count_in as count_of_way};
ghost use Rattle.mpd_runs.specs.Counts as spec;

use crate::way::{Way, count_in, ends_in};
use mpd_explore::SearchLeaf;
use mpd_outcomes::{Count, Outcomes};

/// How many of some runs end in each way, how many they are, and whether there are more.
#[derive(Clone, Copy)]
pub struct WayCounts {
    pub done: Count,
    pub leftovers: Count,
    pub deadlock: Count,
    pub trap: Count,
    pub cut: Count,
    /// How many runs these are.
    pub total: Count,
    /// Whether there are runs that are not among these.
    pub more: bool,
}

impl WayCounts {
    /// How many end in a way.
    pub(crate) fn of(self, way: Way) -> Count
        ensures { result ≡ spec.count_of self way }
    {
        match way {
            Way::Done => self.done,
            Way::Leftovers => self.leftovers,
            Way::Deadlock => self.deadlock,
            Way::Trap => self.trap,
            Way::Cut => self.cut,
        }
    }
}

/// Whether it is exactly `many`.
pub fn is_count(count: Count, many: u64) -> bool
    ensures { result ≡ spec.is_count many count }
{
    match count {
        Count::Exactly(runs) => runs == many,
        Count::More => false,
    }
}

/// How many runs end in a way.
fn listed_in(way: Way, leaves: &[SearchLeaf]) -> Count
    ensures { result ≡ counted (count_of_way way leaves.now) }
{
    Count::Exactly(count_in(way, leaves) as u64)
}

/// How some runs end, beside which there may be more.
pub(crate) fn counts_of(leaves: &[SearchLeaf], more: bool) -> WayCounts
    ensures { result ≡ spec.counts_of leaves.now more }
{
    WayCounts {
        done: listed_in(Way::Done, leaves),
        leftovers: listed_in(Way::Leftovers, leaves),
        deadlock: listed_in(Way::Deadlock, leaves),
        trap: listed_in(Way::Trap, leaves),
        cut: listed_in(Way::Cut, leaves),
        total: Count::Exactly(leaves.len() as u64),
        more,
    }
}

/// How many of the runs end in a way that are told by the first of each end and how many end so.
fn told_in(way: Way, firsts: &[SearchLeaf], counts: &[Count]) -> Count
    ensures { result ≡ spec.with_told way (count_is.Exactly 0) firsts.now counts.now }
{
    let mut sum = Count::Exactly(0);
    for (first, count) in firsts.iter().zip(counts.iter()) {
        if ends_in(way, first) {
            sum = sum.plus(*count);
        }
    }
    sum
}

/// How the runs end that were visited by states: how many of all of them in each way.
pub fn counts_told(outcomes: &Outcomes) -> WayCounts
    ensures told { result ≡ spec.told_counts outcomes.now }
    ensures counts { (fuel : ℕ) (w : World) (h : TellsRuns fuel w outcomes.now) → result ≡ spec.counts_of (take h.runs (leaves_from fuel w)) outcomes.now.firsts.more }
{
    let firsts = &outcomes.firsts.leaves;
    let counts = &outcomes.counts;
    WayCounts {
        done: told_in(Way::Done, firsts, counts),
        leftovers: told_in(Way::Leftovers, firsts, counts),
        deadlock: told_in(Way::Deadlock, firsts, counts),
        trap: told_in(Way::Trap, firsts, counts),
        cut: told_in(Way::Cut, firsts, counts),
        total: outcomes.total,
        more: outcomes.firsts.more,
    }
}
