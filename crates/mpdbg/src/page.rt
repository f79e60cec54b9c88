//! `mpdbg page`: runs of a script as one file for a browser (docs/PAGES.md).

ghost use Rattle.std.specs.Prelude.{◌≤◌};

use crate::diagnose::verdict_of_runs;
use crate::picture::{Asked, steps_of_asked};
use crate::tell::Fault;
use mpd_code::{Code, Subject};
use mpd_explore::{SearchLeaf, SearchLimits, SearchReport, Unwatched, Witnesses, explore_watched};
use mpd_lines::{EngineFault, write_all};
use mpd_model::{Mode, STEPS_MAX, Sink, StepList};
use mpd_options::PageOptions;
use mpd_outcomes::{Count, Goal, Outcomes, StateLimits, explore_outcomes};
use mpd_page::{PageFault, Title, Walk, make_page};
use mpd_policy::{Ending, Plain, Wide};
use mpd_runs::{WordsFault, steps_by_choices};
use mpd_trail::Debugger;
use std::alloc::{AllocError, Global};

/// Which runs are shown.
#[derive(Drop)]
pub(crate) enum Wanted<'a> {
    /// One that is given by its choices, along the wide walk or not.
    Choices { asked: Asked<'a>, ends: bool },
    /// One that is given by its steps.
    Steps(Asked<'a>),
    /// So many leaves of a check.
    Leaves { runs: usize, ends: bool },
    /// One that hangs or traps, and one that ends well.
    Both { ends: bool },
}

/// The script of a page, and how it is named.
#[derive(Clone, Copy)]
struct PageScript<'s> {
    code: &'s Code,
    mode: Mode,
    text: &'s [u8],
    file: &'s str,
    /// How many steps a run has at most.
    fuel: usize,
    /// How many states each search comes to at most.
    states: usize,
    /// Whether how runs end is covered at first.
    hide: bool,
}

/// What is run of it.
fn subject_of<'s>(script: PageScript<'s>) -> Subject<'s> {
    Subject {
        code: script.code,
        mode: script.mode,
    }
}

/// The runs that are shown.
#[derive(Drop)]
struct Found {
    runs: Vec<StepList>,
    walk: Walk,
    said: String,
    more: bool,
}

/// Adds a run.
fn add_run(runs: &mut Vec<StepList>, run: StepList) -> Result<(), AllocError> {
    runs.push(run)?;
    Ok(())
}

/// One run that is given.
fn given<'a>(
    alloc: Global,
    subject: Subject<'_>,
    asked: Asked<'a>,
    walk: Walk,
    fuel: usize,
) -> Result<Found, Fault<'a>>
    requires { fuel ≤ STEPS_MAX }
{
    let run = steps_of_asked(alloc, subject, asked, fuel)?;
    let mut runs = Vec::new(alloc);
    add_run(&mut runs, run)?;
    Ok(Found {
        runs,
        walk,
        said: String::new(alloc),
        more: true,
    })
}

/// The steps of the run with these choices.
fn steps_with<'a>(
    alloc: Global,
    subject: Subject<'_>,
    choices: &[usize],
    wide: bool,
    fuel: usize,
) -> Result<StepList, Fault<'a>>
    requires { fuel ≤ STEPS_MAX }
{
    let Ok(mut debugger) = Debugger::start(alloc, subject.code, subject.mode) else {
        return Err(Fault::from(EngineFault::Memory));
    };
    let found = if wide {
        steps_by_choices(alloc, &Wide, &mut debugger, choices, fuel)
    } else {
        steps_by_choices(alloc, &Plain, &mut debugger, choices, fuel)
    };
    drop(debugger);
    match found {
        Ok(steps) => Ok(steps),
        Err(WordsFault::BadChoices(place)) => Err(Fault::BadChoices(place)),
        Err(WordsFault::Memory) => Err(Fault::from(EngineFault::Memory)),
    }
}

/// Adds the run of a leaf.
fn add_leaf<'a>(
    alloc: Global,
    subject: Subject<'_>,
    runs: &mut Vec<StepList>,
    leaf: &SearchLeaf,
    wide: bool,
    fuel: usize,
) -> Result<(), Fault<'a>>
    requires { fuel ≤ STEPS_MAX }
{
    let run = steps_with(alloc, subject, &leaf.choices.items, wide, fuel)?;
    add_run(runs, run)?;
    Ok(())
}

/// The runs of leaves.
fn runs_of<'a>(
    alloc: Global,
    subject: Subject<'_>,
    leaves: &[SearchLeaf],
    wide: bool,
    fuel: usize,
) -> Result<Vec<StepList>, Fault<'a>>
    requires { fuel ≤ STEPS_MAX }
{
    let mut runs = Vec::new(alloc);
    for leaf in leaves {
        add_leaf(alloc, subject, &mut runs, leaf, wide, fuel)?;
    }
    Ok(runs)
}

/// Along what choices are told.
fn walk_of(wide: bool) -> Walk {
    if wide { Walk::Wide } else { Walk::Decisions }
}

/// Whether one of the runs of some leaves is cut: it goes on, and so there are more runs.
fn any_cut(leaves: &[SearchLeaf]) -> bool {
    leaves.iter().any(|leaf| matches!(leaf.ending, Ending::Cut))
}

/// The leaves of a check.
fn report_of<'a>(
    alloc: Global,
    subject: Subject<'_>,
    limits: SearchLimits,
) -> Result<SearchReport, Fault<'a>>
    requires { limits.fuel ≤ STEPS_MAX }
{
    let Ok(mut debugger) = Debugger::start(alloc, subject.code, subject.mode) else {
        return Err(Fault::from(EngineFault::Memory));
    };
    let report = explore_watched(alloc, &mut debugger, limits, &mut Unwatched);
    drop(debugger);
    match report {
        Ok(report) => Ok(report),
        Err(_) => Err(Fault::from(EngineFault::Memory)),
    }
}

/// The runs of the first leaves of a check, and whether there are more.
fn first_runs<'a>(
    alloc: Global,
    subject: Subject<'_>,
    runs: usize,
    ends: bool,
    fuel: usize,
) -> Result<(Vec<StepList>, bool), Fault<'a>>
    requires { fuel ≤ STEPS_MAX }
{
    let limits = SearchLimits {
        runs,
        fuel,
        witnesses: Witnesses::OfNone,
        until_bad: false,
        ends,
    };
    let report = report_of(alloc, subject, limits)?;
    let found = runs_of(alloc, subject, &report.leaves, ends, fuel)?;
    let more = report.more || any_cut(&report.leaves);
    Ok((found, more))
}

/// The same, as they are shown.
fn first_leaves<'a>(
    alloc: Global,
    subject: Subject<'_>,
    runs: usize,
    ends: bool,
    fuel: usize,
) -> Result<Found, Fault<'a>>
    requires { fuel ≤ STEPS_MAX }
{
    let (found, more) = first_runs(alloc, subject, runs, ends, fuel)?;
    Ok(Found {
        runs: found,
        walk: walk_of(ends),
        said: String::new(alloc),
        more,
    })
}

/// The ways that runs end.
fn outcomes_of<'a>(
    alloc: Global,
    subject: Subject<'_>,
    limits: StateLimits,
) -> Result<Outcomes, Fault<'a>>
    requires { limits.fuel ≤ STEPS_MAX }
{
    let Ok(mut debugger) = Debugger::start(alloc, subject.code, subject.mode) else {
        return Err(Fault::from(EngineFault::Memory));
    };
    let outcomes = explore_outcomes(alloc, &mut debugger, limits);
    drop(debugger);
    match outcomes {
        Ok(outcomes) => Ok(outcomes),
        Err(_) => Err(Fault::from(EngineFault::Memory)),
    }
}

/// The place of the first leaf that ends so.
fn first_that(leaves: &[SearchLeaf], goal: Goal) -> Option<usize> {
    leaves.iter().position(|leaf| goal.is_met(&leaf.ending))
}

/// Which leaves are shown: the first that hangs or traps and the first that ends well, in their order, or else the first.
fn chosen(leaves: &[SearchLeaf]) -> (usize, Option<usize>) {
    match (
        first_that(leaves, Goal::Bad),
        first_that(leaves, Goal::Well),
    ) {
        (Some(bad), Some(well)) => (bad.min(well), Some(bad.max(well))),
        _ => (0, None),
    }
}

/// Adds the run of the leaf at a place, where there is one.
fn add_at<'a>(
    alloc: Global,
    subject: Subject<'_>,
    runs: &mut Vec<StepList>,
    leaf: Option<&SearchLeaf>,
    wide: bool,
    fuel: usize,
) -> Result<(), Fault<'a>>
    requires { fuel ≤ STEPS_MAX }
{
    match leaf {
        None => Ok(()),
        Some(leaf) => add_leaf(alloc, subject, runs, leaf, wide, fuel),
    }
}

/// The runs of those leaves; the first run that a check lists where there is no leaf.
fn chosen_runs<'a>(
    alloc: Global,
    subject: Subject<'_>,
    leaves: &[SearchLeaf],
    wide: bool,
    fuel: usize,
) -> Result<Vec<StepList>, Fault<'a>>
    requires { fuel ≤ STEPS_MAX }
{
    if leaves.is_empty() {
        let (runs, _) = first_runs(alloc, subject, 1, wide, fuel)?;
        return Ok(runs);
    }
    let (first, second) = chosen(leaves);
    let mut runs = Vec::new(alloc);
    add_at(alloc, subject, &mut runs, leaves.get(first), wide, fuel)?;
    if let Some(second) = second {
        add_at(alloc, subject, &mut runs, leaves.get(second), wide, fuel)?;
    }
    Ok(runs)
}

/// Whether there are more runs than so many.
fn is_more(total: Count, shown: usize) -> bool {
    match total {
        Count::Exactly(count) => count > shown as u64,
        Count::More => true,
    }
}

/// A run that hangs or traps and one that ends well, or the first that there is.
fn both<'a>(alloc: Global, script: PageScript<'_>, ends: bool) -> Result<Found, Fault<'a>>
    requires { script.fuel ≤ STEPS_MAX }
{
    let subject = subject_of(script);
    let fuel = script.fuel;
    let wide = ends || !subject.code.has_no_waitany() || subject.mode.is_limited();
    let limits = StateLimits {
        fuel,
        kept: script.states,
        visited: script.states,
        witnesses: Witnesses::OfNone,
        until: None,
    };
    let outcomes = outcomes_of(alloc, subject, limits)?;
    let runs = chosen_runs(alloc, subject, &outcomes.firsts.leaves, wide, fuel)?;
    let said = verdict_of_runs(alloc, subject, limits)?;
    let leaves = &outcomes.firsts.leaves;
    let more = outcomes.firsts.more || is_more(outcomes.total, runs.len()) || any_cut(leaves);
    Ok(Found {
        runs,
        walk: walk_of(wide),
        said,
        more,
    })
}

/// The runs that are wanted.
fn found_runs<'a>(
    alloc: Global,
    script: PageScript<'_>,
    wanted: Wanted<'a>,
) -> Result<Found, Fault<'a>>
    requires { script.fuel ≤ STEPS_MAX }
{
    let subject = subject_of(script);
    let fuel = script.fuel;
    match wanted {
        Wanted::Choices { asked, ends } => given(alloc, subject, asked, walk_of(ends), fuel),
        Wanted::Steps(asked) => given(alloc, subject, asked, Walk::Words, fuel),
        Wanted::Leaves { runs, ends } => first_leaves(alloc, subject, runs, ends, fuel),
        Wanted::Both { ends } => both(alloc, script, ends),
    }
}

/// The last part of the name of a file.
fn last_part(file: &[u8]) -> &[u8] {
    let mut rest = file;
    while let Some(place) = rest.iter().position(|byte| *byte == b'/') {
        let (_, behind) = rest.split_at(place + 1);
        rest = behind;
    }
    rest
}

/// The page of some runs.
fn page_of<'a>(alloc: Global, script: PageScript<'_>, found: &Found) -> Result<Vec<u8>, Fault<'a>> {
    let title = Title {
        name: last_part(script.file.as_bytes()),
        text: script.text,
        walk: found.walk,
        hide: script.hide,
        said: found.said.as_bytes(),
        more: found.more,
    };
    match make_page(
        alloc,
        script.code,
        script.mode,
        title,
        &found.runs,
        script.states,
    ) {
        Ok(page) => Ok(page),
        Err(PageFault::TooMany) => Err(Fault::LongPage),
        Err(PageFault::Memory) => Err(Fault::from(EngineFault::Memory)),
    }
}

/// Writes the page of the runs that are wanted.
fn write_page<'a, W: Sink>(
    alloc: Global,
    script: PageScript<'_>,
    wanted: Wanted<'a>,
    sink: &mut W,
) -> Result<(), Fault<'a>>
    requires { script.fuel ≤ STEPS_MAX }
{
    let found = found_runs(alloc, script, wanted)?;
    let page = page_of(alloc, script, &found)?;
    drop(found);
    if write_all(sink, &page).is_err() {
        return Err(Fault::from(EngineFault::WriteFailed));
    }
    Ok(())
}

/// Refuses runs that are told in two ways at once.
pub(crate) fn runs_alone<'a>(page: PageOptions<'a>) -> Result<(), Fault<'a>> {
    if page.runs.is_none() {
        return Ok(());
    }
    if page.choices.is_some() {
        return Err(Fault::Clash("--choices", "--runs"));
    }
    if page.witness.is_some() {
        return Err(Fault::Clash("--witness", "--runs"));
    }
    if page.words.is_some() {
        return Err(Fault::Clash("--words", "--runs"));
    }
    Ok(())
}

/// Writes a page of the runs that are wanted of a script.
pub(crate) fn page_script<'a, W: Sink>(
    alloc: Global,
    subject: Subject<'_>,
    text: &[u8],
    page: PageOptions<'a>,
    wanted: Wanted<'a>,
    sink: &mut W,
) -> Result<(), Fault<'a>>
    requires fuel { page.fuel ≤ STEPS_MAX }
{
    let shown = PageScript {
        code: subject.code,
        mode: subject.mode,
        text,
        file: page.file,
        fuel: page.fuel,
        states: page.states,
        hide: page.hide,
    };
    write_page(alloc, shown, wanted, sink)
}
