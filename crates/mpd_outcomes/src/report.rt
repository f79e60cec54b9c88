//! What is found of the ways that runs end.

ghost use Rattle.std.specs.Prelude.{◌≡◌};
ghost use Rattle.mpd_outcomes.specs.Outcomes.{plus};
ghost use Rattle.mpd_outcomes.specs.Goals.{meets};

use mpd_explore::{Ending, SearchReport, Witnesses};
use mpd_model::Outcome;

/// How many runs there are.
#[derive(Clone, Copy, PartialEq, Eq)]
pub enum Count {
    /// Exactly this many.
    Exactly(u64),
    /// More than 18,446,744,073,709,551,615.
    More,
}

impl Count {
    /// The sum of both; `More` if it exceeds 18,446,744,073,709,551,615, or one of them is `More`.
    pub fn plus(self, other: Count) -> Count
        ensures { result ≡ plus self other }
    {
        match (self, other) {
            (Count::Exactly(one), Count::Exactly(more)) => match one.checked_add(more) {
                Some(sum) => Count::Exactly(sum),
                None => Count::More,
            },
            _ => Count::More,
        }
    }
}

/// An end of a run for which a search stops.
#[derive(Clone, Copy)]
pub enum Goal {
    /// In a deadlock.
    Deadlock,
    /// With a trap.
    Trap,
    /// In a deadlock or with a trap.
    Bad,
    /// Done, also with messages left over.
    Well,
}

impl Goal {
    /// Whether a run that ends so is one for which the search stops.
    pub fn is_met(self, ending: &Ending) -> bool
        ensures { result ≡ meets self ending.now }
    {
        match (self, ending) {
            (Goal::Deadlock | Goal::Bad, Ending::Ended(Outcome::Deadlock(_))) => true,
            (Goal::Trap | Goal::Bad, Ending::Ended(Outcome::Trap(_))) => true,
            (Goal::Well, Ending::Ended(Outcome::Done | Outcome::Leftovers(_))) => true,
            _ => false,
        }
    }
}

/// The limits of a search that visits each state once.
#[derive(Clone, Copy)]
pub struct StateLimits {
    /// How many steps a run has at most.
    pub fuel: usize,
    /// How many states are kept at most.
    pub kept: usize,
    /// How many states are visited at most, kept or not.
    pub visited: usize,
    /// Of which first runs the witnesses are wanted.
    pub witnesses: Witnesses,
    /// The end for which the search stops, as soon as a run is found that ends so. Without one, all
    /// runs are visited.
    pub until: Option<Goal>,
}

/// The ways that runs end, in the order of the first run of each.
#[derive(Drop)]
pub struct Outcomes {
    /// The first run of each way, and whether there are runs that were not visited.
    pub firsts: SearchReport,
    /// How many runs end so, for each of the first runs, in order.
    pub counts: Vec<Count>,
    /// How many runs there are in all.
    pub total: Count,
    /// How many states were visited: choices and ends. It says nothing of the runs.
    pub visited: usize,
}
