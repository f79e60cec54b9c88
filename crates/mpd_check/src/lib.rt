//! Looks for deadlocks and traps: a script is explored from its start by workers, with the same
//! report for every number of them, or runs of it are drawn, and the report is written to a sink.
#![tactic(auto)]

pub mod counts;
pub mod fault;
pub mod groups;
pub mod listing;
pub mod modes;
pub mod outcomes;
pub mod part;
mod print;
mod shown;

ghost use Rattle.mpd_check.specs.Checked.{pieces_of, leaves_of, more_of, text_of, AreFew, IsCrew, Answered, Put, Judged, plan_by};
ghost use Rattle.mpd_check.specs.Refused.{refused_by};
ghost use Rattle.mpd_check.specs.Tally.{tally_of};
ghost use Rattle.std.specs.Prelude.{◌≡◌, ◌↔◌, ◌≤◌, ◌<◌, ◌⊎◌, true, IfOk, OnOk, IsErrOf, length};

use crate::counts::tally_of;
pub use counts::Tally;
pub use fault::CheckFault;
pub use groups::Group;
pub use listing::{
    Listing, SamplePlan, Telling, Wanted, check_listing, check_sample, list_sample, list_search,
};
pub use modes::{Tried, check_mode, mode_tally, put_least};
use mpd_code::{Code, Subject};
use mpd_explore::{PIECES_MAX, SearchLimits, Witnesses};
use mpd_lines::{EngineFault, Verdict, write_all};
use mpd_model::{Mode, STEPS_MAX, Sink};
use mpd_pool::{Crew, Gate, PoolFault, SearchPlan, Ungated, WORKERS_MAX, print_report};
use mpd_trail::Debugger;
pub use outcomes::{
    OutcomesFound, OutcomesListing, OutcomesPlan, check_mode_outcomes, check_outcomes, found_in,
    list_outcomes, outcomes_in,
};
pub use part::{check_piece, count_pieces};
pub use print::put_listing;
use std::alloc::Global;
use std::marker::Sync;
use std::thread::Threads;

/// A report as text, and what it tells.
#[derive(Drop)]
pub(crate) struct Told {
    pub(crate) text: Vec<u8>,
    pub(crate) tally: Tally,
}

/// Why a check is refused whose workers or pieces are.
pub(crate) fn refused(fault: PoolFault) -> CheckFault
    ensures { result ≡ refused_by fault }
{
    match fault {
        PoolFault::BadWorkers => CheckFault::BadWorkers,
        PoolFault::TooManyPieces => CheckFault::TooManyPieces,
        PoolFault::Memory => CheckFault::Engine(EngineFault::Memory),
    }
}

/// Whether this number of workers is taken: 1 to 16.
pub fn is_crew(workers: usize) -> bool
    ensures { result ≡ true ↔ IsCrew workers }
{
    workers > 0 && workers <= WORKERS_MAX
}

/// Writes the text of a report, and returns what it tells.
pub(crate) fn put<W: Sink>(told: Told, sink: &mut W) -> Result<Tally, CheckFault>
    ensures { Put told.text.items told.tally (W.seen sink.old) (W.seen sink.new) result }
{
    if write_all(sink, &told.text).is_err() {
        return Err(CheckFault::Engine(EngineFault::WriteFailed));
    }
    Ok(told.tally)
}

/// Explores a script from its start by the workers of a crew, and has them make the report's text.
fn tell<G: Gate, R: Threads + Sync>(
    crew: Crew<'_, R>,
    alloc: Global,
    subject: Subject<'_>,
    plan: SearchPlan,
    gate: &G,
) -> Result<Told, PoolFault>
    requires { plan.limits.fuel ≤ STEPS_MAX }
    ensures text { IfOk result (λ told. told.text.items ≡ text_of subject.entry.code.now.program subject.entry.mode plan (leaves_of subject.entry.code.now.program subject.entry.mode plan) (more_of subject.entry.code.now.program subject.entry.mode plan)) }
    ensures tally { IfOk result (λ told. told.tally ≡ tally_of (leaves_of subject.entry.code.now.program subject.entry.mode plan) (more_of subject.entry.code.now.program subject.entry.mode plan)) }
    ensures workers { IsErrOf result PoolFault.BadWorkers → (crew.entry.workers ≡ 0) ⊎ (WORKERS_MAX < crew.entry.workers) }
    ensures few { OnOk result (AreFew subject.entry.code.now.program subject.entry.mode plan) }
    ensures many { IsErrOf result PoolFault.TooManyPieces → PIECES_MAX < length (pieces_of subject.entry.code.now.program subject.entry.mode plan) }
{
    let Ok(mut debugger) = Debugger::start(alloc, subject.code, subject.mode) else {
        return Err(PoolFault::Memory);
    };
    let report = match mpd_pool::check_watched(crew, alloc, &mut debugger, plan, gate) {
        Ok(report) => report,
        Err(fault) => {
            drop(debugger);
            return Err(fault);
        }
    };
    drop(debugger);
    let printed = print_report(crew, alloc, &report);
    let tally = tally_of(&report);
    drop(report);
    match printed {
        Ok(text) => {
            let text = text.into_bytes();
            Ok(Told { text, tally })
        }
        Err(_) => Err(PoolFault::Memory),
    }
}

/// Explores a script from its start in a mode, by 1 to 16 workers, and writes the report to a sink
/// (docs/FORMATS.md, "Reports"): the same for every number of workers. Returns what the report
/// tells: how many runs it lists, how many of them end in a deadlock, with a trap, or cut, and
/// whether there are more. Refused if the number of workers is not 1 to 16 (35), then if there are
/// more than 1,024 pieces (31); `WriteFailed` (46) comes only if a write failed, and `Memory` only
/// before anything is written. Requires a fuel of at most 1,000,000 steps. `gate` is told how far
/// the exploration is, and of its end before anything is written; nothing else depends on it.
pub fn check_search<W: Sink, G: Gate, R: Threads + Sync>(
    crew: Crew<'_, R>,
    alloc: Global,
    subject: Subject<'_>,
    plan: SearchPlan,
    sink: &mut W,
    gate: &G,
) -> Result<Tally, CheckFault>
    requires { plan.limits.fuel ≤ STEPS_MAX }
    ensures { Answered subject.entry.code.now.program subject.entry.mode plan crew.entry.workers (W.seen sink.old) (W.seen sink.new) result }
{
    if !is_crew(crew.workers) {
        return Err(CheckFault::BadWorkers);
    }
    let told = tell(crew, alloc, subject, plan, gate);
    gate.done();
    match told {
        Ok(told) => put(told, sink),
        Err(fault) => Err(refused(fault)),
    }
}

/// How a script is checked where no more is asked for (docs/FORMATS.md, "Reports").
#[derive(Clone, Copy)]
pub struct ReportOptions {
    /// How standard sends go.
    pub mode: Mode,
    /// How many runs of each piece are listed at most, 1 to 65,536.
    pub runs: usize,
    /// How many steps a run has at most, up to 1,000,000.
    pub fuel: usize,
    /// By how many first choices the runs are cut into pieces, 0 to 8.
    pub split: usize,
    /// How many workers explore, 1 to 16.
    pub workers: usize,
    /// Whether a deadlock is followed by its witness.
    pub witness: bool,
}

impl ReportOptions {
    /// The search that they ask for.
    fn plan(self) -> SearchPlan
        ensures { result ≡ plan_by self }
    {
        let witnesses = if self.witness {
            Witnesses::OfDeadlocks
        } else {
            Witnesses::OfNone
        };
        SearchPlan {
            split: self.split,
            limits: SearchLimits {
                runs: self.runs,
                fuel: self.fuel,
                witnesses,
                until_bad: false,
                ends: false,
            },
        }
    }
}

/// The report of a script's runs, written to a sink: a line for each, the witness after a deadlock
/// if it is wanted, and how many there are (docs/FORMATS.md, "Reports"). The verdict is bad if a
/// deadlock or a trap is listed, else good; its `status` is the program's. Refused as
/// `check_search` is, in the same order. Requires a fuel of at most 1,000,000 steps.
pub fn check<W: Sink, R: Threads + Sync>(
    rt: &R,
    alloc: Global,
    code: &Code,
    options: ReportOptions,
    sink: &mut W,
) -> Result<Verdict, CheckFault>
    requires { options.fuel ≤ STEPS_MAX }
    ensures { Judged code.now.program options (W.seen sink.old) (W.seen sink.new) result }
{
    let crew = Crew {
        rt,
        workers: options.workers,
    };
    let subject = Subject {
        code,
        mode: options.mode,
    };
    let tally = check_search(crew, alloc, subject, options.plan(), sink, &Ungated)?;
    Ok(tally.judged())
}
