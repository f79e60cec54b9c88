//! What a report tells of all runs, in one line for a person (docs/FORMATS.md, "Reports").

use mpd_check::{Tally, Tried};
use mpd_code::Subject;
use mpd_model::Mode;
use mpd_outcomes::Count;
use mpd_runs::WayCounts;
use std::io;

/// Which option leaves runs out of a report.
#[derive(Clone, Copy)]
pub(crate) enum Limit {
    /// How many runs of each piece are listed.
    Runs,
    /// How many runs are drawn.
    Sample,
    /// How many states are kept.
    States,
}

/// How a report was made, as far as what is said of it depends on that.
#[derive(Clone, Copy)]
pub(crate) struct Made {
    /// What leaves runs out.
    pub(crate) limit: Limit,
    /// Whether as many runs, or states, were asked for as can be.
    pub(crate) is_most: bool,
    /// Whether it ends with the first deadlock or trap.
    pub(crate) until_bad: bool,
    /// Whether its runs are those of the wide walk.
    pub(crate) is_wide: bool,
    /// Whether each end is listed, and not each run.
    pub(crate) is_ends: bool,
}

impl Made {
    /// What was done with the runs: the search by states counts them.
    fn how(self) -> &'static str {
        match self.limit {
            Limit::States => "counted",
            Limit::Runs | Limit::Sample => "tried",
        }
    }

    /// The options that list more runs.
    fn options(self, is_bad: bool) -> &'static str {
        if self.until_bad && is_bad {
            return "--until";
        }
        match (self.limit, self.is_most, self.is_wide) {
            (Limit::Runs, false, false) => "--ends, --runs",
            (Limit::Runs, true, false) => "--ends",
            (Limit::Runs, false, true) => "--runs, --sample",
            (Limit::Runs, true, true) => "--sample",
            (Limit::Sample, false, _) => "--sample",
            (Limit::Sample, true, _) => "--ends",
            (Limit::States, false, _) => "--states",
            (Limit::States, true, _) => "--sample",
        }
    }
}

/// What becomes of a run, in the words of one and of several.
#[derive(Clone, Copy)]
enum Deed {
    Finishes,
    Leaves,
    Hangs,
    Traps,
}

impl Deed {
    /// What one does.
    fn of_one(self) -> &'static str {
        match self {
            Deed::Finishes => "finishes",
            Deed::Leaves => "leaves messages that nobody receives",
            Deed::Hangs => "hangs",
            Deed::Traps => "traps",
        }
    }

    /// What several do.
    fn of_several(self) -> &'static str {
        match self {
            Deed::Finishes => "finish",
            Deed::Leaves => "leave messages that nobody receives",
            Deed::Hangs => "hang",
            Deed::Traps => "trap",
        }
    }
}

/// Says how many runs do so, where some do; whether some were told before, by other deeds, is answered again.
fn say_deed<R: Eprint>(rt: &R, begun: bool, count: Count, deed: Deed) -> io::Result<bool> {
    let between = if begun { ", " } else { ": " };
    match count {
        Count::Exactly(0) => return Ok(begun),
        Count::Exactly(1) => {
            let does = deed.of_one();
            eprint!(rt; "{between}1 {does}")?;
        }
        Count::Exactly(runs) => {
            let they_do = deed.of_several();
            eprint!(rt; "{between}{runs} {they_do}")?;
        }
        Count::More => {
            let they_do = deed.of_several();
            eprint!(rt; "{between}at least 18446744073709551615 {they_do}")?;
        }
    }
    Ok(true)
}

/// Says what becomes of runs, each of which comes to its end.
fn say_deeds<R: Eprint>(rt: &R, counts: WayCounts) -> io::Result<()> {
    let begun = say_deed(rt, false, counts.done, Deed::Finishes)?;
    let begun = say_deed(rt, begun, counts.leftovers, Deed::Leaves)?;
    let begun = say_deed(rt, begun, counts.deadlock, Deed::Hangs)?;
    let _begun = say_deed(rt, begun, counts.trap, Deed::Traps)?;
    eprintln!(rt; "")
}

/// What becomes of the only run.
fn only_deed(counts: WayCounts) -> Deed {
    match (counts.leftovers, counts.deadlock, counts.trap) {
        (Count::Exactly(1), _, _) => Deed::Leaves,
        (_, Count::Exactly(1), _) => Deed::Hangs,
        (_, _, Count::Exactly(1)) => Deed::Traps,
        _ => Deed::Finishes,
    }
}

/// Says that all runs were tried, each to its end, or counted, how many these are, and what becomes of them.
fn say_whole<R: Eprint>(rt: &R, counts: WayCounts, made: Made) -> io::Result<()> {
    let what = if made.is_ends { "ends" } else { "runs" };
    let how = made.how();
    match counts.total {
        Count::Exactly(1) => {
            let does = only_deed(counts).of_one();
            return eprintln!(rt; "its one run was {how}: it {does}");
        }
        Count::Exactly(runs) => eprint!(rt; "all {runs} {what} were {how}")?,
        Count::More => eprint!(rt; "all {what} were {how}, at least 18446744073709551615")?,
    }
    say_deeds(rt, counts)
}

/// Says that there are more runs than are listed, or counted, and how these are too.
fn say_more<R: Eprint>(rt: &R, tally: Tally, made: Made) -> io::Result<()> {
    let options = made.options(tally.is_bad());
    if let Limit::States = made.limit {
        return eprint!(rt; "there are runs that aren't counted ({options})");
    }
    let runs = tally.runs;
    let are = if runs == 1 { "run was" } else { "runs were" };
    eprint!(rt; "{runs} {are} listed, and there are more ({options})")
}

/// Says how many runs were cut, or of counted runs that some were.
fn say_cut<R: Eprint>(rt: &R, tally: Tally, made: Made) -> io::Result<()> {
    if tally.cut == 0 {
        return Ok(());
    }
    if tally.more {
        eprint!(rt; ", ")?;
    }
    if let Limit::States = made.limit {
        return eprint!(rt; "some runs were cut (--fuel)");
    }
    let cut = tally.cut;
    let are = if cut == 1 { "run was" } else { "runs were" };
    eprint!(rt; "{cut} {are} cut (--fuel)")
}

/// Says what a report that isn't of the wide walk leaves open, where what is tried depends on the order of steps, even where it is whole:
/// what a waitany takes, and which sends are buffered where buffers run out.
fn say_order<R: Eprint>(
    rt: &R,
    has_waitany: bool,
    is_limited: bool,
    tally: Tally,
) -> io::Result<()> {
    if has_waitany {
        let comma = if tally.is_whole() { "" } else { ", " };
        eprint!(rt; "{comma}what a waitany takes may depend on the order of steps (--ends)")?;
    }
    if is_limited {
        let comma = if tally.is_whole() && !has_waitany {
            ""
        } else {
            ", "
        };
        eprint!(rt; "{comma}which sends are buffered may depend on the order of steps (--ends)")?;
    }
    Ok(())
}

/// Says what wasn't tried.
fn say_untried<R: Eprint>(
    rt: &R,
    subject: Subject<'_>,
    tally: Tally,
    made: Made,
) -> io::Result<()> {
    eprint!(rt; "not everything was tried: ")?;
    if tally.more {
        say_more(rt, tally, made)?;
    }
    say_cut(rt, tally, made)?;
    if !made.is_wide {
        let has_waitany = !subject.code.has_no_waitany();
        say_order(rt, has_waitany, subject.mode.is_limited(), tally)?;
    }
    eprintln!(rt; "")
}

/// Says how other commands take the choices of a report of the wide walk, where these may be others than those of the decisions.
fn say_choices<R: Eprint>(rt: &R, subject: Subject<'_>, made: Made) -> io::Result<()> {
    let may_differ = !subject.code.has_no_waitany() || subject.mode.is_limited();
    if made.is_wide && may_differ {
        eprintln!(rt; "words and picture take the choices of these leaves with --ends")?;
    }
    Ok(())
}

/// Says of one piece what wasn't tried; that all of it was says nothing of others.
pub(crate) fn say_part<R: Eprint>(
    rt: &R,
    subject: Subject<'_>,
    tally: Tally,
    made: Made,
) -> io::Result<()> {
    if !tally.tells_all(subject, made.is_wide) {
        say_untried(rt, subject, tally, made)?;
    }
    say_choices(rt, subject, made)
}

/// Says in one line what a report of runs tells of all of them (`say_counts`).
pub(crate) fn say_tally<R: Eprint>(
    rt: &R,
    subject: Subject<'_>,
    tally: Tally,
    made: Made,
) -> io::Result<()> {
    say_counts(rt, subject, tally, tally.ways(), made)
}

/// Says in one line what a report tells of all runs: what becomes of them, where it tells every way in which the script can end, or else
/// what wasn't tried. Where a listing ends with the first deadlock or trap, that is why there are more.
pub(crate) fn say_counts<R: Eprint>(
    rt: &R,
    subject: Subject<'_>,
    tally: Tally,
    counts: WayCounts,
    made: Made,
) -> io::Result<()> {
    if tally.tells_all(subject, made.is_wide) {
        say_whole(rt, counts, made)?;
    } else {
        say_untried(rt, subject, tally, made)?;
    }
    say_choices(rt, subject, made)
}

/// Says how many states were come to.
pub(crate) fn say_states<R: Eprint>(rt: &R, states: usize) -> io::Result<()> {
    let are = if states == 1 {
        "state was"
    } else {
        "states were"
    };
    eprintln!(rt; "{states} {are} come to")
}

/// Says of the modes that were tried which ones list a deadlock or a trap, as far as the first that lists none.
pub(crate) fn say_least<R: Eprint>(rt: &R, tried: Tried) -> io::Result<()> {
    match tried.least {
        Some(Mode::Rendezvous) if tried.is_bad => {
            eprintln!(rt; "no deadlock or trap is listed without buffers, but with some one is")
        }
        Some(Mode::Rendezvous) => {
            eprintln!(rt; "no deadlock or trap is listed in any of these modes")
        }
        Some(Mode::Slots(1)) => eprintln!(rt; "hangs or traps without a slot"),
        Some(Mode::Slots(count)) => eprintln!(rt; "hangs or traps with fewer than {count} slots"),
        Some(Mode::Buffered) => {
            eprintln!(rt; "hangs or traps with each number of slots that was tried (--modes)")
        }
        None => eprintln!(rt; "hangs or traps in each of these modes"),
    }
}
