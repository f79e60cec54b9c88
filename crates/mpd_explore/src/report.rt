//! What an exploration answers.

ghost use Rattle.std.specs.Prelude.{◌≡◌, ◌&&◌};
ghost use Rattle.mpd_explore.specs.Report.{is_bad, any_bad};
ghost use Rattle.mpd_explore.specs.Asked.{are_asked, asks};

use mpd_model::{CallList, Outcome, StepList, Trap};
pub use mpd_policy::Ending;
use std::marker::Model;

/// Of which leaves the witnesses are wanted.
#[derive(Clone, Copy)]
pub enum Witnesses {
    /// Of none.
    OfNone,
    /// Of deadlocks.
    OfDeadlocks,
    /// Of deadlocks and traps.
    OfAll,
}

impl Witnesses {
    /// Whether those of any are.
    pub fn are_asked(self) -> bool
        ensures { result ≡ are_asked self }
    {
        match self {
            Witnesses::OfNone => false,
            Witnesses::OfDeadlocks => true,
            Witnesses::OfAll => true,
        }
    }

    /// Whether that of a run is which ends so.
    pub fn asks(self, ending: &Ending) -> bool
        ensures { result ≡ asks self ending.now }
    {
        match self {
            Witnesses::OfNone => false,
            Witnesses::OfDeadlocks => matches!(ending, Ending::Ended(Outcome::Deadlock(_))),
            Witnesses::OfAll => true,
        }
    }
}

/// How far an exploration goes, and what is listed.
#[derive(Clone, Copy)]
pub struct SearchLimits {
    /// How many leaves are listed at most.
    pub runs: usize,
    /// How many steps a run has at most.
    pub fuel: usize,
    /// Of which leaves the witnesses are wanted.
    pub witnesses: Witnesses,
    /// Whether the list ends with the first leaf that is a deadlock or a trap.
    pub until_bad: bool,
    /// Whether the ends are looked for: along the wide walk, and of runs that differ only in the order of steps that don't conflict, one
    /// is listed.
    pub ends: bool,
}

/// Numbers of candidates, from 0, one for each choice, in order; contracts see them as a list.
#[derive(Drop)]
pub struct ChoiceList {
    pub items: Vec<usize>,
}

impl Model for ChoiceList {
    ghost use Rattle.std.specs.Prelude.{List, ℕ};

    ghost Value = { List ℕ };

    ghost view = { λ l. l.items.items };
}

/// A run: the candidates that it takes at its choices, and how it ends. Its steps follow from its choices, and are not kept.
#[derive(Drop)]
pub struct SearchLeaf {
    pub choices: ChoiceList,
    pub ending: Ending,
}

/// Whether a run that ends so has come to a deadlock or a trap.
pub(crate) fn is_bad(ending: &Ending) -> bool
    ensures { result ≡ is_bad ending.now }
{
    match ending {
        Ending::Ended(Outcome::Deadlock(_)) => true,
        Ending::Ended(Outcome::Trap(_)) => true,
        Ending::Ended(Outcome::Done | Outcome::Leftovers(_)) => false,
        Ending::Cut => false,
    }
}

impl SearchLeaf {
    /// Whether the run of this leaf ends in a deadlock or with a trap.
    pub fn is_bad(&self) -> bool
        ensures { result ≡ is_bad self.now.ending }
    {
        is_bad(&self.ending)
    }
}

/// The first leaves, in the order of their choices, and whether there are others that aren't listed.
#[derive(Drop)]
pub struct SearchReport {
    pub leaves: Vec<SearchLeaf>,
    pub more: bool,
    /// If witnesses are wanted, a text for each leaf, in order: for a leaf whose witness is wanted,
    /// and which has one, what its line has after the number, with the line feed; for any other leaf
    /// the empty text. Else there are none.
    pub witnesses: Vec<String>,
}

/// Whether one of some leaves is a deadlock or a trap.
fn any_bad(leaves: &[SearchLeaf]) -> bool
    ensures { result ≡ any_bad leaves.now }
{
    for leaf in leaves {
        if leaf.is_bad() {
            return true;
        }
    }
    false
}

impl SearchReport {
    /// Whether the run of one of its leaves ends in a deadlock or with a trap.
    pub fn has_bad(&self) -> bool
        ensures { result ≡ any_bad self.now.leaves.items }
    {
        any_bad(&self.leaves)
    }
}

impl SearchLimits {
    /// Whether a list ends with this leaf: lists end with the first deadlock or trap (`until_bad`), and
    /// this leaf is one.
    pub fn ends_with(self, leaf: &SearchLeaf) -> bool
        ensures { result ≡ (self.until_bad && is_bad leaf.now.ending) }
    {
        self.until_bad && leaf.is_bad()
    }

    /// Whether a list of reports ends with this one: lists end with the first deadlock or trap
    /// (`until_bad`), and this report has one.
    pub fn ends_with_report(self, report: &SearchReport) -> bool
        ensures { result ≡ (self.until_bad && any_bad report.now.leaves.items) }
    {
        self.until_bad && report.has_bad()
    }
}

/// A rank that is trapped, and why: what a report tells of it.
#[derive(Clone, Copy)]
pub struct RankTrap {
    pub rank: usize,
    pub trap: Trap,
}

/// Trapped ranks with their traps, in ascending order, which contracts see as a list.
#[derive(Drop)]
pub struct RankTrapList {
    pub items: Vec<RankTrap>,
}

impl Model for RankTrapList {
    ghost use Rattle.std.specs.Prelude.{List};
    ghost use Rattle.mpd_explore.specs.declared.report.RankTrap.{RankTrap};

    ghost Value = { List RankTrap };

    ghost view = { λ l. l.items.items };
}

/// What the steps of a witness lead to.
#[derive(Drop)]
pub enum WitnessEnd {
    /// A deadlock, in which these calls are blocked, by rank.
    Deadlock(CallList),
    /// A trap of these ranks.
    Trap(RankTrapList),
}

/// Steps from the start that lead to a deadlock, and the calls that are blocked in it, by rank.
#[derive(Drop)]
pub struct Witness {
    pub steps: StepList,
    pub blocked: CallList,
}

/// Steps from the start that lead to a deadlock or a trap, and to which one.
#[derive(Drop)]
pub struct EndWitness {
    pub steps: StepList,
    pub end: WitnessEnd,
}
