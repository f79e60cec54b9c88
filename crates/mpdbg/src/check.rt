//! `mpdbg check`: a script explored by workers, a piece of it alone, or how many pieces there are.

ghost use Rattle.std.specs.Prelude.{◌≡◌, ◌≤◌, if◌then◌else◌};
ghost use Rattle.mpd_options.specs.Clashes.{wants_traps};

use crate::check_json::{drawn_as_json, least_as_json, mode_as_json, ways_as_json, whole_as_json};
use crate::progress::{OfPiece, Progress};
use crate::summary::{Limit, Made, say_counts, say_least, say_part, say_states, say_tally};
use crate::tell::Fault;
use mpd_check::{
    CheckFault, OutcomesFound, OutcomesPlan, SamplePlan, Tally, Telling, Tried, Wanted,
    check_listing, check_mode, check_mode_outcomes, check_outcomes, check_piece, check_sample,
    check_search, count_pieces, is_crew, put_least,
};
use mpd_code::{Code, Subject};
use mpd_explore::{SearchLimits, Witnesses};
use mpd_lines::Verdict;
use mpd_model::{Mode, RUNS_MAX, STEPS_MAX, Sink};
use mpd_options::{CheckOptions, Clash, Form};
use mpd_outcomes::{Goal, StateLimits};
use mpd_pool::{Crew, SearchPlan};
use std::marker::Sync;
use std::rt::Clock;
use std::thread::Threads;

/// How many states are kept at most where that isn't said.
const USUAL_STATES: usize = 1_000_000;

/// How many states can be asked to be kept.
const STATES_MAX: usize = 16_000_000;

/// How many states are come to at most, kept or not.
const VISITED_MAX: usize = 20_000_000;

/// A script that is checked: its code in a mode, and its text, whose marks name places of a
/// program.
#[derive(Clone, Copy)]
pub(crate) struct CheckedScript<'s> {
    pub(crate) subject: Subject<'s>,
    pub(crate) text: &'s [u8],
}

/// What is looked at.
#[derive(Clone, Copy)]
enum Part {
    /// All pieces, in each mode up to so many slots.
    Modes(usize),
    /// All pieces.
    Whole,
    /// The piece of this number.
    Piece(usize),
    /// How many pieces there are, and no run.
    Count,
    /// So many runs that are drawn.
    Sample(usize),
    /// The ways to end, by states.
    Outcomes,
}

/// What is looked at, by the words: several modes are asked for before all else, and how many
/// pieces there are before one of them. What is drawn stands beside none of these, and the ways to
/// end stand beside several modes alone.
fn part_of(options: CheckOptions) -> Part {
    if let Some(most) = options.modes {
        return Part::Modes(most);
    }
    if options.outcomes {
        return Part::Outcomes;
    }
    if let Some(runs) = options.sample {
        return Part::Sample(runs);
    }
    match (options.count_pieces, options.piece) {
        (true, _) => Part::Count,
        (false, Some(number)) => Part::Piece(number),
        (false, None) => Part::Whole,
    }
}

/// Of which leaves the witnesses are wanted: of none unless they are asked for, and of deadlocks
/// alone unless something else asks for those of traps.
fn witnesses_of(options: CheckOptions) -> Witnesses
    ensures { result ≡ (if options.witness then (if wants_traps options then Witnesses.OfAll else Witnesses.OfDeadlocks) else Witnesses.OfNone) }
{
    if !options.witness {
        return Witnesses::OfNone;
    }
    if options.wants_traps() {
        return Witnesses::OfAll;
    }
    Witnesses::OfDeadlocks
}

/// What is asked of the report.
pub(crate) fn plan_of(options: CheckOptions) -> SearchPlan
    ensures { result.limits.fuel ≡ options.fuel }
{
    SearchPlan {
        split: options.split,
        limits: SearchLimits {
            runs: options.runs,
            fuel: options.fuel,
            witnesses: witnesses_of(options),
            until_bad: options.until_bad,
            ends: options.ends,
        },
    }
}

/// What is asked of a sample of so many runs.
pub(crate) fn sample_plan_of(options: CheckOptions, runs: usize) -> SamplePlan
    ensures { result.limits.fuel ≡ options.fuel }
{
    SamplePlan {
        seed: options.seed.unwrap_or(0),
        limits: SearchLimits {
            runs,
            fuel: options.fuel,
            witnesses: witnesses_of(options),
            until_bad: options.until_bad,
            ends: false,
        },
    }
}

/// How many states are kept at most.
fn states_of(options: CheckOptions) -> usize {
    options.states.unwrap_or(USUAL_STATES)
}

/// The end that the search for ways to end stops at.
fn goal_of(options: CheckOptions) -> Option<Goal> {
    if options.until_bad {
        return Some(Goal::Bad);
    }
    None
}

/// How far the search for ways to end goes, with the texts of witnesses or without.
pub(crate) fn state_limits_of(options: CheckOptions, witnesses: Witnesses) -> StateLimits
    ensures { result.fuel ≡ options.fuel }
{
    StateLimits {
        fuel: options.fuel,
        kept: states_of(options),
        visited: VISITED_MAX,
        witnesses,
        until: goal_of(options),
    }
}

/// How the ways to end are looked for.
pub(crate) fn outcomes_plan_of(options: CheckOptions, text: &[u8]) -> OutcomesPlan<'_>
    ensures { result.limits.fuel ≡ options.fuel }
{
    OutcomesPlan {
        limits: state_limits_of(options, witnesses_of(options)),
        explain: options.explain,
        script: text,
    }
}

/// Whether a report's runs are those of the wide walk: each end once, drawn, or counted.
pub(crate) fn is_wide(options: CheckOptions) -> bool {
    options.ends || options.sample.is_some() || options.outcomes
}

/// How a report is made.
fn made_by(options: CheckOptions) -> Made {
    let (limit, is_most) = match (options.outcomes, options.sample) {
        (true, _) => (Limit::States, states_of(options) == STATES_MAX),
        (false, Some(runs)) => (Limit::Sample, runs == RUNS_MAX),
        (false, None) => (Limit::Runs, options.runs == RUNS_MAX),
    };
    Made {
        limit,
        is_most,
        until_bad: options.until_bad,
        is_wide: is_wide(options),
        is_ends: options.ends,
    }
}

/// Refuses options that can't stand together.
pub(crate) fn fit_together<'a>(options: CheckOptions) -> Result<(), Fault<'a>> {
    match options.clash() {
        None => Ok(()),
        Some(Clash::Both(one, other)) => Err(Fault::Clash(one.word(), other.word())),
        Some(Clash::SeedAlone) => Err(Fault::SeedAlone),
        Some(Clash::StatesAlone) => Err(Fault::StatesAlone),
        Some(Clash::TrapsAlone) => Err(Fault::TrapsAlone),
    }
}

/// Explores all pieces, and has the report written as it is asked for.
fn check_told<R: Clock + Eprint + Threads + Sync + AllocGlobal, W: Sink>(
    rt: &R,
    script: CheckedScript<'_>,
    options: CheckOptions,
    sink: &mut W,
    progress: &Progress<'_, R>,
) -> Result<Tally, CheckFault>
    requires { options.fuel ≤ STEPS_MAX }
{
    if let Form::Json = options.form {
        return whole_as_json(rt, script, options, sink, progress);
    }
    let crew = crew_of(rt, options);
    if !options.explain && !options.group {
        return check_search(
            crew,
            rt.alloc(),
            script.subject,
            plan_of(options),
            sink,
            progress,
        );
    }
    check_listing(
        crew,
        rt.alloc(),
        script.subject,
        wanted_of(options, script.text),
        sink,
        progress,
    )
}

/// Who explores.
pub(crate) fn crew_of<'r, R>(rt: &'r R, options: CheckOptions) -> Crew<'r, R> {
    Crew {
        rt,
        workers: options.workers,
    }
}

/// What a report has beside its leaves.
pub(crate) fn telling_of(options: CheckOptions, text: &[u8]) -> Telling<'_> {
    Telling {
        explain: options.explain,
        group: options.group,
        script: text,
    }
}

/// What is wanted of a report.
pub(crate) fn wanted_of(options: CheckOptions, text: &[u8]) -> Wanted<'_>
    ensures { result.plan.limits.fuel ≡ options.fuel }
{
    Wanted {
        plan: plan_of(options),
        telling: telling_of(options, text),
    }
}

/// Draws runs, and tells at a terminal how many there are so far and what came of it.
fn check_drawn<R: Clock + Eprint + AllocGlobal, W: Sink>(
    rt: &R,
    script: CheckedScript<'_>,
    options: CheckOptions,
    runs: usize,
    sink: &mut W,
    is_terminal: bool,
) -> Result<Tally, CheckFault>
    requires { options.fuel ≤ STEPS_MAX }
{
    let progress = Progress::new(rt, is_terminal);
    let mut watch = OfPiece {
        progress: &progress,
    };
    let tally = match options.form {
        Form::Json => drawn_as_json(rt, script, options, runs, sink, &mut watch)?,
        Form::Text => check_sample(
            rt.alloc(),
            script.subject,
            sample_plan_of(options, runs),
            telling_of(options, script.text),
            sink,
            &mut watch,
        )?,
    };
    if is_terminal {
        let _unwritten = say_tally(rt, script.subject, tally, made_by(options));
    }
    Ok(tally)
}

/// Looks for the ways to end, and has them written.
fn ways_told<R: AllocGlobal, W: Sink>(
    rt: &R,
    script: CheckedScript<'_>,
    options: CheckOptions,
    sink: &mut W,
) -> Result<OutcomesFound, CheckFault>
    requires { options.fuel ≤ STEPS_MAX }
{
    if let Form::Json = options.form {
        return ways_as_json(rt, script, options, sink);
    }
    let plan = outcomes_plan_of(options, script.text);
    match check_outcomes(rt.alloc(), script.subject, plan, sink) {
        Ok(found) => Ok(found),
        Err(fault) => Err(CheckFault::Engine(fault)),
    }
}

/// Looks for the ways to end, and tells at a terminal what came of it and how many states were come
/// to.
fn check_ways<R: Eprint + AllocGlobal, W: Sink>(
    rt: &R,
    script: CheckedScript<'_>,
    options: CheckOptions,
    sink: &mut W,
    is_terminal: bool,
) -> Result<Tally, CheckFault>
    requires { options.fuel ≤ STEPS_MAX }
{
    let found = ways_told(rt, script, options, sink)?;
    if is_terminal {
        let _unwritten = say_counts(
            rt,
            script.subject,
            found.tally,
            found.counts,
            made_by(options),
        );
        let _unwritten = say_states(rt, found.states);
    }
    Ok(found.tally)
}

/// Explores all pieces, and tells at a terminal how far that is and what came of it.
fn check_all<R: Clock + Eprint + Threads + Sync + AllocGlobal, W: Sink>(
    rt: &R,
    script: CheckedScript<'_>,
    options: CheckOptions,
    sink: &mut W,
    is_terminal: bool,
) -> Result<Tally, CheckFault>
    requires { options.fuel ≤ STEPS_MAX }
{
    let progress = Progress::new(rt, is_terminal);
    let tally = check_told(rt, script, options, sink, &progress)?;
    if is_terminal {
        let _unwritten = say_tally(rt, script.subject, tally, made_by(options));
    }
    Ok(tally)
}

/// Explores one piece, and tells at a terminal how far that is, and what of it wasn't tried. That
/// all of it was says nothing of others.
fn check_one<R: Clock + Eprint + AllocGlobal, W: Sink>(
    rt: &R,
    script: CheckedScript<'_>,
    options: CheckOptions,
    number: usize,
    sink: &mut W,
    is_terminal: bool,
) -> Result<Tally, CheckFault>
    requires { options.fuel ≤ STEPS_MAX }
{
    let progress = Progress::new(rt, is_terminal);
    let mut watch = OfPiece {
        progress: &progress,
    };
    let wanted = wanted_of(options, script.text);
    let tally = check_piece(rt.alloc(), script.subject, wanted, number, sink, &mut watch)?;
    if is_terminal {
        let _unwritten = say_part(rt, script.subject, tally, made_by(options));
    }
    Ok(tally)
}

/// Explores all pieces in a mode, or looks for the ways to end in it, and writes what came of it.
fn tally_in_mode<R: Clock + Eprint + Threads + Sync + AllocGlobal, W: Sink>(
    rt: &R,
    subject: Subject<'_>,
    options: CheckOptions,
    sink: &mut W,
    is_terminal: bool,
) -> Result<Tally, CheckFault>
    requires { options.fuel ≤ STEPS_MAX }
{
    if let Form::Json = options.form {
        return mode_as_json(rt, subject, options, sink, is_terminal);
    }
    let alloc = rt.alloc();
    if options.outcomes {
        return match check_mode_outcomes(
            alloc,
            subject,
            state_limits_of(options, Witnesses::OfNone),
            sink,
        ) {
            Ok(found) => Ok(found.tally),
            Err(fault) => Err(CheckFault::Engine(fault)),
        };
    }
    let crew = crew_of(rt, options);
    let progress = Progress::new(rt, is_terminal);
    check_mode(crew, alloc, subject, plan_of(options), sink, &progress)
}

/// Does so in one mode more.
fn check_one_mode<R: Clock + Eprint + Threads + Sync + AllocGlobal, W: Sink>(
    rt: &R,
    subject: Subject<'_>,
    options: CheckOptions,
    tried: Tried,
    sink: &mut W,
    is_terminal: bool,
) -> Result<Tried, CheckFault>
    requires { options.fuel ≤ STEPS_MAX }
{
    let tally = tally_in_mode(rt, subject, options, sink, is_terminal)?;
    Ok(tried.and(subject.mode, tally))
}

/// Looks at rendezvous, at 1 slot and more up to `most`, and at buffered, and tells at a terminal
/// which modes list a deadlock or a trap.
fn check_modes<R: Clock + Eprint + Threads + Sync + AllocGlobal, W: Sink>(
    rt: &R,
    code: &Code,
    most: usize,
    options: CheckOptions,
    sink: &mut W,
    is_terminal: bool,
) -> Result<Tried, CheckFault>
    requires { options.fuel ≤ STEPS_MAX }
{
    let mut subject = Subject {
        code,
        mode: Mode::Rendezvous,
    };
    let mut tried = Tried::none();
    tried = check_one_mode(rt, subject, options, tried, sink, is_terminal)?;
    for before in 0..most {
        subject.mode = Mode::Slots(before + 1);
        tried = check_one_mode(rt, subject, options, tried, sink, is_terminal)?;
    }
    subject.mode = Mode::Buffered;
    tried = check_one_mode(rt, subject, options, tried, sink, is_terminal)?;
    match options.form {
        Form::Json => least_as_json(rt, tried, options, sink)?,
        Form::Text => put_least(rt.alloc(), tried.least, sink)?,
    }
    if is_terminal {
        let _unwritten = say_least(rt, tried);
    }
    Ok(tried)
}

/// Why a check is refused.
fn fault_of<'a>(fault: CheckFault) -> Fault<'a> {
    match fault {
        CheckFault::BadWorkers => Fault::Workers,
        CheckFault::TooManyPieces => Fault::Pieces,
        CheckFault::NoSuchPiece { number, count } => Fault::Piece { number, count },
        CheckFault::Engine(fault) => Fault::from(fault),
    }
}

/// Looks for deadlocks and traps in a script.
fn verdict_of<R: Clock + Eprint + Threads + Sync + AllocGlobal, W: Sink>(
    rt: &R,
    script: CheckedScript<'_>,
    options: CheckOptions,
    sink: &mut W,
    is_terminal: bool,
) -> Result<Verdict, CheckFault>
    requires { options.fuel ≤ STEPS_MAX }
{
    if !is_crew(options.workers) {
        return Err(CheckFault::BadWorkers);
    }
    let tally = match part_of(options) {
        Part::Modes(most) => {
            let tried = check_modes(rt, script.subject.code, most, options, sink, is_terminal)?;
            return Ok(tried.verdict(options.complete));
        }
        Part::Sample(runs) => check_drawn(rt, script, options, runs, sink, is_terminal)?,
        Part::Outcomes => check_ways(rt, script, options, sink, is_terminal)?,
        Part::Whole => check_all(rt, script, options, sink, is_terminal)?,
        Part::Piece(number) => check_one(rt, script, options, number, sink, is_terminal)?,
        Part::Count => {
            count_pieces(rt.alloc(), script.subject, plan_of(options), sink)?;
            return Ok(Verdict::Good);
        }
    };
    Ok(tally.verdict(options.complete, script.subject, is_wide(options)))
}

/// Looks for deadlocks and traps in a script, given its text too. The number of workers is tested
/// first.
pub(crate) fn check_script<'a, R: Clock + Eprint + Threads + Sync + AllocGlobal, W: Sink>(
    rt: &R,
    subject: Subject<'_>,
    text: &[u8],
    options: CheckOptions,
    sink: &mut W,
    is_terminal: bool,
) -> Result<Verdict, Fault<'a>>
    requires { options.fuel ≤ STEPS_MAX }
{
    let script = CheckedScript { subject, text };
    match verdict_of(rt, script, options, sink, is_terminal) {
        Ok(verdict) => Ok(verdict),
        Err(fault) => Err(fault_of(fault)),
    }
}
