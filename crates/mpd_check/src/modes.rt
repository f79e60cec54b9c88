//! What a script does in several modes, a line for each (docs/FORMATS.md, "Modes tried in turn").

ghost use Rattle.std.specs.Prelude.{◌≡◌, ◌++◌, ◌<◌, ◌≤◌, ◌⊎◌, IfOk, OnOk, IsErrOf, Some, None, true, false, length, string_bytes};
ghost use Rattle.mpd_check.specs.Checked.{pieces_of, leaves_of, more_of, AreFew, IsTallied, ModeAnswered, PutCount, LeastPut};
ghost use Rattle.mpd_check.specs.ModeText.{yes_or_no, listed_word, counts_text, left_text, mode_line, least_line, tried_more};
ghost use Rattle.mpd_check.specs.Tally.{judged, tally_of};

use crate::counts::{Tally, tally_of};
use crate::fault::CheckFault;
use crate::{Told, is_crew, put, refused};
use mpd_code::Subject;
use mpd_explore::PIECES_MAX;
use mpd_lines::{EngineFault, Verdict, write_all};
use mpd_model::{Mode, STEPS_MAX, Sink};
use mpd_pool::{Crew, Gate, PoolFault, SearchPlan, WORKERS_MAX};
use mpd_trail::Debugger;
use std::alloc::{AllocError, Global};
use std::marker::Sync;
use std::thread::Threads;

/// What modes that were tried one after another have told.
#[derive(Clone, Copy)]
pub struct Tried {
    /// Whether a deadlock or a trap is listed in one of them.
    pub is_bad: bool,
    /// Whether the report of each of them is whole.
    pub are_whole: bool,
    /// The first of them in which none is.
    pub least: Option<Mode>,
}

impl Tried {
    /// Nothing tried yet.
    pub fn none() -> Tried
        ensures { result ≡ record { is_bad = false; are_whole = true; least = None } }
    {
        Tried {
            is_bad: false,
            are_whole: true,
            least: None,
        }
    }

    /// The same with the report of one more mode.
    pub fn and(self, mode: Mode, tally: Tally) -> Tried
        ensures { result ≡ tried_more self mode tally }
    {
        let least = match self.least {
            Some(first) => Some(first),
            None if tally.is_bad() => None,
            None => Some(mode),
        };
        Tried {
            is_bad: self.is_bad || tally.is_bad(),
            are_whole: self.are_whole && tally.is_whole(),
            least,
        }
    }

    /// The verdict of a check of these modes: bad if a deadlock or a trap is listed in one of them;
    /// else not whole if the report of each must be, and one isn't; else good. A whole report
    /// needn't list every way in which the script can end (`Tally::tells_all`), but by the wide
    /// walk it does.
    pub fn verdict(self, complete: bool) -> Verdict
        ensures { result ≡ judged complete self.are_whole self.is_bad }
    {
        if self.is_bad {
            return Verdict::Bad;
        }
        if complete && !self.are_whole {
            return Verdict::NotWhole;
        }
        Verdict::Good
    }
}

/// What the report of a mode lists.
#[derive(Clone, Copy)]
pub(crate) enum Listed {
    /// Runs.
    Leaves,
    /// Ways to end.
    Outcomes,
}

impl Listed {
    /// Its word.
    fn word(self) -> &'static str
        ensures { result.now ≡ listed_word self }
    {
        match self {
            Listed::Leaves => "leaves",
            Listed::Outcomes => "outcomes",
        }
    }
}

/// Yes or no.
fn yes_or_no(is_so: bool) -> &'static str
    ensures { result.now ≡ yes_or_no is_so }
{
    if is_so { "yes" } else { "no" }
}

/// Adds how many of these a report lists, and how many of them are deadlocks and traps.
fn push_counts(out: &mut String, listed: Listed, tally: Tally) -> Result<(), AllocError>
    ensures { OnOk result (string_bytes out.new ≡ string_bytes out.old ++ counts_text listed tally) }
{
    write!(
        out,
        " {} {} deadlocks {} traps {}",
        listed.word(),
        tally.runs,
        tally.deadlocks,
        tally.traps
    )
}

/// Adds how many leave messages over, and how many are cut.
fn push_left(out: &mut String, tally: Tally) -> Result<(), AllocError>
    ensures { OnOk result (string_bytes out.new ≡ string_bytes out.old ++ left_text tally) }
{
    let Tally { leftovers, cut, .. } = tally;
    write!(out, " leftovers {leftovers} cut {cut}")
}

/// What the report of a mode tells, as a line.
pub(crate) fn line_of(
    alloc: Global,
    listed: Listed,
    mode: Mode,
    tally: Tally,
) -> Result<String, AllocError>
    ensures { IfOk result (λ t. string_bytes t ≡ mode_line listed mode tally) }
{
    let mut out = String::new(alloc);
    write!(out, "{mode}")?;
    push_counts(&mut out, listed, tally)?;
    push_left(&mut out, tally)?;
    out.push_str(" more ")?;
    out.push_str(yes_or_no(tally.more))?;
    out.push_str("\n")?;
    Ok(out)
}

/// What the report of a mode tells.
fn tally_in<G: Gate, R: Threads + Sync>(
    crew: Crew<'_, R>,
    alloc: Global,
    subject: Subject<'_>,
    plan: SearchPlan,
    gate: &G,
) -> Result<Tally, PoolFault>
    requires { plan.limits.fuel ≤ STEPS_MAX }
    ensures tally { IfOk result (λ t. t ≡ tally_of (leaves_of subject.entry.code.now.program subject.entry.mode plan) (more_of subject.entry.code.now.program subject.entry.mode plan)) }
    ensures workers { IsErrOf result PoolFault.BadWorkers → (crew.entry.workers ≡ 0) ⊎ (WORKERS_MAX < crew.entry.workers) }
    ensures few { OnOk result (AreFew subject.entry.code.now.program subject.entry.mode plan) }
    ensures many { IsErrOf result PoolFault.TooManyPieces → PIECES_MAX < length (pieces_of subject.entry.code.now.program subject.entry.mode plan) }
{
    let Ok(mut debugger) = Debugger::start(alloc, subject.code, subject.mode) else {
        return Err(PoolFault::Memory);
    };
    match mpd_pool::check_watched(crew, alloc, &mut debugger, plan, gate) {
        Ok(report) => {
            drop(debugger);
            let tally = tally_of(&report);
            drop(report);
            Ok(tally)
        }
        Err(fault) => {
            drop(debugger);
            Err(fault)
        }
    }
}

/// Explores a script from its start in a mode, as `check` does, and returns what the report tells:
/// how many runs it lists, how many of them end in a deadlock, with a trap, or cut, and whether
/// there are more. Refused as `check` is, but no write can fail. Requires a fuel of at most
/// 1,000,000 steps.
pub fn mode_tally<G: Gate, R: Threads + Sync>(
    crew: Crew<'_, R>,
    alloc: Global,
    subject: Subject<'_>,
    plan: SearchPlan,
    gate: &G,
) -> Result<Tally, CheckFault>
    requires { plan.limits.fuel ≤ STEPS_MAX }
    ensures { IsTallied subject.entry.code.now.program subject.entry.mode plan crew.entry.workers result }
{
    if !is_crew(crew.workers) {
        return Err(CheckFault::BadWorkers);
    }
    let told = tally_in(crew, alloc, subject, plan, gate);
    gate.done();
    match told {
        Ok(tally) => Ok(tally),
        Err(fault) => Err(refused(fault)),
    }
}

/// The same, and one line of what the report tells is written.
pub fn check_mode<W: Sink, G: Gate, R: Threads + Sync>(
    crew: Crew<'_, R>,
    alloc: Global,
    subject: Subject<'_>,
    plan: SearchPlan,
    sink: &mut W,
    gate: &G,
) -> Result<Tally, CheckFault>
    requires { plan.limits.fuel ≤ STEPS_MAX }
    ensures { ModeAnswered subject.entry.code.now.program subject.entry.mode plan crew.entry.workers (W.seen sink.old) (W.seen sink.new) result }
{
    match mode_tally(crew, alloc, subject, plan, gate) {
        Ok(tally) => match line_of(alloc, Listed::Leaves, subject.mode, tally) {
            Ok(text) => {
                let text = text.into_bytes();
                put(Told { text, tally }, sink)
            }
            Err(_) => Err(CheckFault::Engine(EngineFault::Memory)),
        },
        Err(fault) => Err(fault),
    }
}

/// Which of the modes that were tried is the first without a deadlock or a trap, as a line.
fn least_of(alloc: Global, least: Option<Mode>) -> Result<String, AllocError>
    ensures { IfOk result (λ t. string_bytes t ≡ least_line least) }
{
    let mut out = String::new(alloc);
    out.push_str("least ")?;
    match least {
        None => out.push_str("none")?,
        Some(mode) => write!(out, "{mode}")?,
    }
    out.push_str("\n")?;
    Ok(out)
}

/// Writes a text.
pub(crate) fn put_text<W: Sink>(text: String, sink: &mut W) -> Result<(), CheckFault>
    ensures { PutCount (string_bytes text) (W.seen sink.old) (W.seen sink.new) result }
{
    if write_all(sink, text.as_bytes()).is_err() {
        return Err(CheckFault::Engine(EngineFault::WriteFailed));
    }
    Ok(())
}

/// Writes which of the modes that were tried is the first without a deadlock or a trap: `least
/// slots:2`, or `least none`. `WriteFailed` (46) comes only if a write failed, and `Memory` only
/// before anything is written.
pub fn put_least<W: Sink>(
    alloc: Global,
    least: Option<Mode>,
    sink: &mut W,
) -> Result<(), CheckFault>
    ensures { LeastPut least (W.seen sink.old) (W.seen sink.new) result }
{
    match least_of(alloc, least) {
        Ok(text) => put_text(text, sink),
        Err(_) => Err(CheckFault::Engine(EngineFault::Memory)),
    }
}
