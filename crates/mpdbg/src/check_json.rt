//! `mpdbg check --json`: what is found is written as JSON, an object on a line (docs/FORMATS.md,
//! "JSON of reports").

ghost use Rattle.std.specs.Prelude.{◌≤◌};

use crate::check::{
    CheckedScript, crew_of, is_wide, outcomes_plan_of, plan_of, sample_plan_of, state_limits_of,
    telling_of, wanted_of,
};
use crate::progress::Progress;
use mpd_check::{
    CheckFault, Listing, OutcomesFound, Tally, Tried, found_in, list_outcomes, list_sample,
    list_search, mode_tally, outcomes_in,
};
use mpd_code::Subject;
use mpd_explore::{Watch, Witnesses};
use mpd_json::{ToldScript, least_json, listing_json, mode_json, outcomes_json};
use mpd_lines::{EngineFault, write_all};
use mpd_model::{STEPS_MAX, Sink};
use mpd_options::CheckOptions;
use std::alloc::AllocError;
use std::marker::Sync;
use std::rt::Clock;
use std::thread::Threads;

/// Writes a line that was made.
fn put<W: Sink>(line: Result<String, AllocError>, sink: &mut W) -> Result<(), CheckFault> {
    let Ok(line) = line else {
        return Err(CheckFault::Engine(EngineFault::Memory));
    };
    if write_all(sink, line.as_bytes()).is_err() {
        return Err(CheckFault::Engine(EngineFault::WriteFailed));
    }
    Ok(())
}

/// The script as it is told.
fn told<'s>(script: CheckedScript<'s>) -> ToldScript<'s> {
    ToldScript {
        code: script.subject.code,
        mode: script.subject.mode,
        text: script.text,
    }
}

/// Writes a report by its leaves, and returns what it tells.
fn put_listing<R: AllocGlobal, W: Sink>(
    rt: &R,
    script: CheckedScript<'_>,
    options: CheckOptions,
    listing: &Listing,
    sink: &mut W,
) -> Result<Tally, CheckFault> {
    let tally = listing.tally;
    let wide = is_wide(options);
    let json = listing_json(
        rt.alloc(),
        told(script),
        telling_of(options, script.text),
        listing,
        tally.verdict(options.complete, script.subject, wide),
        tally.tells_all(script.subject, wide),
    );
    put(json, sink)?;
    Ok(tally)
}

/// Explores all pieces, and writes the report.
pub(crate) fn whole_as_json<R: Clock + Eprint + Threads + Sync + AllocGlobal, W: Sink>(
    rt: &R,
    script: CheckedScript<'_>,
    options: CheckOptions,
    sink: &mut W,
    progress: &Progress<'_, R>,
) -> Result<Tally, CheckFault>
    requires { options.fuel ≤ STEPS_MAX }
{
    let crew = crew_of(rt, options);
    let wanted = wanted_of(options, script.text);
    let listing = list_search(crew, rt.alloc(), script.subject, wanted, progress)?;
    put_listing(rt, script, options, &listing, sink)
}

/// Draws runs, and writes the report.
pub(crate) fn drawn_as_json<R: AllocGlobal, W: Sink, P: Watch>(
    rt: &R,
    script: CheckedScript<'_>,
    options: CheckOptions,
    runs: usize,
    sink: &mut W,
    watch: &mut P,
) -> Result<Tally, CheckFault>
    requires { options.fuel ≤ STEPS_MAX }
{
    let plan = sample_plan_of(options, runs);
    let telling = telling_of(options, script.text);
    let Ok(listing) = list_sample(rt.alloc(), script.subject, plan, telling, watch) else {
        return Err(CheckFault::Engine(EngineFault::Memory));
    };
    put_listing(rt, script, options, &listing, sink)
}

/// Looks for the ways to end, and writes them.
pub(crate) fn ways_as_json<R: AllocGlobal, W: Sink>(
    rt: &R,
    script: CheckedScript<'_>,
    options: CheckOptions,
    sink: &mut W,
) -> Result<OutcomesFound, CheckFault>
    requires { options.fuel ≤ STEPS_MAX }
{
    let alloc = rt.alloc();
    let plan = outcomes_plan_of(options, script.text);
    let Ok(listing) = list_outcomes(alloc, script.subject, plan) else {
        return Err(CheckFault::Engine(EngineFault::Memory));
    };
    let found = found_in(&listing.outcomes);
    let tally = found.tally;
    let wide = is_wide(options);
    let json = outcomes_json(
        alloc,
        told(script),
        &listing,
        tally.verdict(options.complete, script.subject, wide),
        tally.tells_all(script.subject, wide),
    );
    put(json, sink)?;
    Ok(found)
}

/// Explores all pieces in a mode, or looks for the ways to end in it, and writes what came of it.
pub(crate) fn mode_as_json<R: Clock + Eprint + Threads + Sync + AllocGlobal, W: Sink>(
    rt: &R,
    subject: Subject<'_>,
    options: CheckOptions,
    sink: &mut W,
    is_terminal: bool,
) -> Result<Tally, CheckFault>
    requires { options.fuel ≤ STEPS_MAX }
{
    let alloc = rt.alloc();
    let (of, tally) = if options.outcomes {
        let limits = state_limits_of(options, Witnesses::OfNone);
        let Ok(outcomes) = outcomes_in(alloc, subject, limits) else {
            return Err(CheckFault::Engine(EngineFault::Memory));
        };
        ("outcomes", found_in(&outcomes).tally)
    } else {
        let crew = crew_of(rt, options);
        let progress = Progress::new(rt, is_terminal);
        let tally = mode_tally(crew, alloc, subject, plan_of(options), &progress)?;
        ("runs", tally)
    };
    let script = CheckedScript { subject, text: &[] };
    put(mode_json(alloc, told(script), of, tally), sink)?;
    Ok(tally)
}

/// Writes which of the modes that were tried is the first without a deadlock or a trap.
pub(crate) fn least_as_json<R: AllocGlobal, W: Sink>(
    rt: &R,
    tried: Tried,
    options: CheckOptions,
    sink: &mut W,
) -> Result<(), CheckFault> {
    let verdict = tried.verdict(options.complete);
    put(least_json(rt.alloc(), tried.least, verdict), sink)
}
