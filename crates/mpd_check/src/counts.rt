//! What a report tells of a script, counted (docs/FORMATS.md, "Reports").

ghost use Rattle.std.specs.Prelude.{◌≡◌, ◌<◌, Bool, false, length, count_by};
ghost use Rattle.std.specs.Bool.{Decides};
ghost use Rattle.mpd_check.specs.Tally.{tally_of, ways_of, is_of, is_bad, is_whole, LeavesOutNone, TellsAll, verdict_of};

use mpd_code::Subject;
use mpd_explore::{Ending, SearchLeaf, SearchReport};
use mpd_lines::Verdict;
use mpd_model::{Mode, Outcome};
use mpd_outcomes::Count;
use mpd_runs::WayCounts;

/// How a run ends, as far as it is counted.
#[derive(Clone, Copy)]
enum Kind {
    Leftovers,
    Deadlock,
    Trap,
    Cut,
}

/// What a report tells of a script.
#[derive(Clone, Copy)]
pub struct Tally {
    /// How many runs it lists.
    pub runs: usize,
    /// How many of them end done but for messages that are left over.
    pub leftovers: usize,
    /// How many of them end in a deadlock.
    pub deadlocks: usize,
    /// How many end with a trap.
    pub traps: usize,
    /// How many were cut, since their fuel was used up.
    pub cut: usize,
    /// Whether there are more runs than it lists.
    pub more: bool,
}

impl Tally {
    /// Whether the report lists a deadlock or a trap.
    pub fn is_bad(self) -> bool
        ensures { result ≡ is_bad self }
    {
        self.deadlocks > 0 || self.traps > 0
    }

    /// How many of the runs that the report lists end in each way: those that are done are the
    /// others.
    pub fn ways(self) -> WayCounts
        ensures { result ≡ ways_of self }
    {
        let done = self
            .runs
            .saturating_sub(self.leftovers)
            .saturating_sub(self.deadlocks)
            .saturating_sub(self.traps)
            .saturating_sub(self.cut);
        WayCounts {
            done: Count::Exactly(done as u64),
            leftovers: Count::Exactly(self.leftovers as u64),
            deadlock: Count::Exactly(self.deadlocks as u64),
            trap: Count::Exactly(self.traps as u64),
            cut: Count::Exactly(self.cut as u64),
            total: Count::Exactly(self.runs as u64),
            more: self.more,
        }
    }

    /// Bad if the report lists a deadlock or a trap, else good.
    pub(crate) fn judged(self) -> Verdict
        ensures { result ≡ verdict_of false false self }
    {
        if !self.is_bad() {
            return Verdict::Good;
        }
        Verdict::Bad
    }

    /// Whether it is whole: there are no more runs than it lists, and none was cut.
    pub fn is_whole(self) -> bool
        ensures { result ≡ is_whole self }
    {
        !self.more && self.cut == 0
    }

    /// Whether a report of all pieces lists every way in which its script can end in a mode. It
    /// does if it is whole, and its runs are those of the wide walk (`is_wide`), or the script has
    /// no waitany and the mode's buffers don't run out. For what a waitany takes, and which sends
    /// get one of few buffers, depends on the order of steps, of which the walk by the decisions
    /// tries one. A whole report of one piece says nothing of the others. For modes that are tried
    /// in turn, `Tried::verdict` asks only whether the report of each is whole.
    pub fn tells_all(self, subject: Subject<'_>, is_wide: bool) -> bool
        ensures { Decides result (TellsAll is_wide subject.entry.code.now.program subject.entry.mode self) }
    {
        self.is_whole() && leaves_out_none(subject, is_wide)
    }

    /// The verdict of a check of this script in a mode, by runs of the wide walk or not: bad if a
    /// deadlock or a trap is listed; else not whole if the report must list every way in which the
    /// script can end, and doesn't; else good.
    #[tactic(auto, using(crate::proofs::VerdictLemmas::telling))]
    pub fn verdict(self, complete: bool, subject: Subject<'_>, is_wide: bool) -> Verdict
        ensures { (all : Bool) → Decides all (TellsAll is_wide subject.entry.code.now.program subject.entry.mode self) → result ≡ verdict_of complete all self }
    {
        if self.is_bad() {
            return Verdict::Bad;
        }
        if complete && !self.tells_all(subject, is_wide) {
            return Verdict::NotWhole;
        }
        Verdict::Good
    }
}

/// Whether runs, of the wide walk or not, leave out no end of a script in a mode.
fn leaves_out_none(subject: Subject<'_>, is_wide: bool) -> bool
    ensures { Decides result (LeavesOutNone is_wide subject.entry.code.now.program subject.entry.mode) }
{
    if is_wide {
        return true;
    }
    subject.code.has_no_waitany() && !subject.mode.is_limited()
}

/// Whether a run ends in this kind.
fn is_of(kind: Kind, leaf: &SearchLeaf) -> bool
    ensures { result ≡ is_of kind leaf.now }
{
    match &leaf.ending {
        Ending::Ended(Outcome::Leftovers(_)) => matches!(kind, Kind::Leftovers),
        Ending::Ended(Outcome::Deadlock(_)) => matches!(kind, Kind::Deadlock),
        Ending::Ended(Outcome::Trap(_)) => matches!(kind, Kind::Trap),
        Ending::Ended(Outcome::Done) => false,
        Ending::Cut => matches!(kind, Kind::Cut),
    }
}

/// How many of some runs end so.
fn count(kind: Kind, leaves: &[SearchLeaf]) -> usize
    ensures { result ≡ count_by (is_of kind) leaves.now }
{
    let mut found = 0;
    for leaf in leaves {
        if is_of(kind, leaf) {
            found += 1;
        }
    }
    found
}

/// What a report tells.
pub(crate) fn tally_of(report: &SearchReport) -> Tally
    ensures { result ≡ tally_of report.now.leaves.items report.now.more }
{
    Tally {
        runs: report.leaves.len(),
        leftovers: count(Kind::Leftovers, &report.leaves),
        deadlocks: count(Kind::Deadlock, &report.leaves),
        traps: count(Kind::Trap, &report.leaves),
        cut: count(Kind::Cut, &report.leaves),
        more: report.more,
    }
}
