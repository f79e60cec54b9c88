//! A script that is read again (docs/CONSOLE.md, "The script once more"): what is kept of a console, and the console that begins anew.

ghost use Rattle.std.specs.Prelude.{◌≡◌, ◌++◌, ◌∷◌, [], IfOk, OnOk, None, flat_map, length};
ghost use Rattle.std.specs.List.{range_with_len};
ghost use Rattle.mpd_model.specs.runs.Breakpoints.{break_at};
ghost use Rattle.mpd_model.specs.runs.Trail.{done_steps};
ghost use Rattle.mpd_session.specs.Held.{opened};
ghost use Rattle.mpd_console.specs.Again as spec;
ghost use Rattle.mpd_console.specs.Says as says;

use crate::desk::{ConsoleDesk, Screen};
use crate::elsewhere::break_again;
use crate::opening::Opened;
use crate::prompts::{laid_out, prompt_in};
use crate::saying::{push_break_line, push_where};
use crate::told::{First, Numbered, NumberedList};
use mpd_code::{Code, Subject};
use mpd_model::{BREAKS_MAX, Breakpoint, ReadFault, Step};
use mpd_names::Marks;
use mpd_policy::Breaks;
use mpd_runs::push_count;
use mpd_session::{Command, Reply, Request, Session};
use std::alloc::{AllocError, Global};

/// What is kept of a console while its script is read again.
#[derive(Drop)]
pub struct Kept {
    /// The steps that are taken.
    pub steps: Vec<Step>,
    /// The breakpoints by number, as the script that was read again has them: none in a place that is
    /// free, and of one that can't be set there.
    pub breaks: Vec<Option<Breakpoint>>,
    /// The latter, as the script that was has them.
    pub lost: NumberedList,
    /// A line for each of these, with the places of marks of that script.
    words: String,
}

/// What the breakpoint of a place is in another script, if it has it.
fn place_again(old: &Code, new: &Code, breaks: &Breaks, number: usize) -> Option<Breakpoint>
    ensures { result ≡ spec.place_again old.now.program.decls new.now.program (break_at breaks.now number) }
{
    match breaks.breakpoint(number) {
        None => None,
        Some(stop) => break_again(old, new, stop),
    }
}

/// The same of all places.
fn places_again(
    alloc: Global,
    old: &Code,
    new: &Code,
    breaks: &Breaks,
) -> Result<Vec<Option<Breakpoint>>, AllocError>
    ensures { IfOk result (λ v. v.items ≡ spec.places_again old.now.program.decls new.now.program breaks.now) }
{
    let mut places = Vec::new(alloc);
    for number in 0..BREAKS_MAX {
        let place = place_again(old, new, breaks, number);
        places.push(place)?;
    }
    Ok(places)
}

/// Adds the breakpoint of a place if it can't be set in the other script.
fn push_lost(
    list: &mut Vec<Numbered>,
    old: &Code,
    new: &Code,
    breaks: &Breaks,
    number: usize,
) -> Result<(), AllocError>
    ensures { OnOk result (list.new.items ≡ list.old.items ++ spec.lost_at old.now.program.decls new.now.program number (break_at breaks.now number)) }
{
    let Some(stop) = breaks.breakpoint(number) else {
        return Ok(());
    };
    if break_again(old, new, stop).is_none() {
        list.push(Numbered { number, stop })?;
    }
    Ok(())
}

/// All that can't be.
fn lost_again(
    alloc: Global,
    old: &Code,
    new: &Code,
    breaks: &Breaks,
) -> Result<Vec<Numbered>, AllocError>
    ensures { IfOk result (λ list. list.items ≡ spec.lost_again old.now.program.decls new.now.program breaks.now) }
{
    let mut list = Vec::new(alloc);
    for number in 0..BREAKS_MAX {
        push_lost(&mut list, old, new, breaks, number)?;
    }
    Ok(list)
}

/// What is said of these, with the places of marks of the script that has them.
fn lost_words(
    alloc: Global,
    desk: &ConsoleDesk<'_, '_>,
    lost: &[Numbered],
) -> Result<String, AllocError> {
    let decls = desk.session().code().decls();
    let marks = Marks {
        script: desk.screen().script,
    };
    let mut words = String::new(alloc);
    for set in lost {
        words.push_str("not set again: ")?;
        push_break_line(&mut words, decls, marks, *set)?;
    }
    Ok(words)
}

/// The steps that a session has taken.
fn steps_of(alloc: Global, session: &Session<'_>) -> Result<Vec<Step>, AllocError>
    ensures { IfOk result (λ v. v.items ≡ done_steps session.now.trail) }
{
    let debugger = session.debugger();
    debugger.state_is_reached();
    let (taken, _) = debugger.steps().split_at(debugger.depth());
    let mut steps = Vec::new(alloc);
    steps.extend_from_slice(taken)?;
    Ok(steps)
}

/// What is kept of a console if its script is read again, given the code of that. An `Err` is want
/// of memory. The console is as it was.
pub fn keep(alloc: Global, desk: &ConsoleDesk<'_, '_>, new: &Code) -> Result<Kept, AllocError>
    ensures steps { IfOk result (λ k. k.steps.items ≡ done_steps desk.now.session.trail) }
    ensures breaks { IfOk result (λ k. k.breaks.items ≡ spec.places_again desk.now.session.trail.program.decls new.now.program desk.now.session.breaks) }
    ensures lost { IfOk result (λ k. k.lost ≡ spec.lost_again desk.now.session.trail.program.decls new.now.program desk.now.session.breaks) }
{
    let session = desk.session();
    let lost = lost_again(alloc, session.code(), new, session.breaks())?;
    let words = lost_words(alloc, desk, &lost)?;
    Ok(Kept {
        steps: steps_of(alloc, session)?,
        breaks: places_again(alloc, session.code(), new, session.breaks())?,
        lost: NumberedList { items: lost },
        words,
    })
}

/// Asks a session something, and tells whether it is done.
fn ask(alloc: Global, session: &mut Session<'_>, command: Command) -> Result<bool, AllocError>
    ensures done { IfOk result (λ b. b ≡ spec.does session.old command) }
    ensures session { OnOk result (session.new ≡ spec.asked session.old command) }
{
    let request = Request { command, at: None };
    match session.answer(alloc, &request)? {
        Reply::Done { .. } => Ok(true),
        Reply::Refused(_) => Ok(false),
    }
}

/// The breakpoint that stands in a place, or one in its place that is taken away again.
fn or_filler(place: Option<Breakpoint>) -> Breakpoint
    ensures { result ≡ spec.or_filler place }
{
    match place {
        None => Breakpoint::Rank(0),
        Some(stop) => stop,
    }
}

/// Sets a breakpoint in each place, from the lowest on.
fn fill(
    alloc: Global,
    session: &mut Session<'_>,
    places: &[Option<Breakpoint>],
) -> Result<(), AllocError>
    ensures { OnOk result (session.new ≡ spec.filled session.old places.now) }
{
    for place in places {
        let _is_done = ask(alloc, session, Command::Break(or_filler(*place)))?;
    }
    Ok(())
}

/// Takes away what stands in a place that is to be free.
fn free_place(
    alloc: Global,
    session: &mut Session<'_>,
    number: usize,
    place: Option<Breakpoint>,
) -> Result<(), AllocError>
    ensures { OnOk result (session.new ≡ spec.freed session.old number place) }
{
    if place.is_some() {
        return Ok(());
    }
    let _is_done = ask(alloc, session, Command::Unbreak(number))?;
    Ok(())
}

/// The same of all places.
fn free_places(
    alloc: Global,
    session: &mut Session<'_>,
    places: &[Option<Breakpoint>],
) -> Result<(), AllocError>
    ensures { OnOk result (session.new ≡ spec.all_freed session.old 0 places.now) }
{
    for (number, place) in places.iter().enumerate() {
        free_place(alloc, session, number, *place)?;
    }
    Ok(())
}

/// Takes steps one after another, as far as they fit, and answers how many were taken.
fn take_again(alloc: Global, session: &mut Session<'_>, steps: &[Step]) -> Result<usize, AllocError>
    ensures count { IfOk result (λ n. n ≡ spec.fitting session.old steps.now) }
    ensures session { OnOk result (session.new ≡ spec.retaken session.old steps.now) }
{
    for (taken, step) in steps.iter().enumerate() {
        if !ask(alloc, session, Command::Step(*step))? {
            return Ok(taken);
        }
    }
    Ok(steps.len())
}

/// What is said of a session that began anew, and where it stands.
fn again_bytes(
    alloc: Global,
    session: &Session<'_>,
    screen: Screen<'_>,
    taken: usize,
    kept: &Kept,
) -> Result<Vec<u8>, AllocError> {
    let Screen { script, look } = screen;
    let mut told = String::new(alloc);
    write!(told, "{taken} of ")?;
    push_count(&mut told, kept.steps.len())?;
    told.push_str(" taken again\n")?;
    told.push_str(&kept.words)?;
    push_where(alloc, session, script, &mut told)?;
    laid_out(
        alloc,
        told.as_bytes(),
        look.width,
        prompt_in(session, look.is_prompting),
    )
}

/// Has a session at the start of a script be where the one was that is kept: sets its breakpoints again, and takes its steps again as far as
/// they fit. Answers how many.
fn go_there(alloc: Global, session: &mut Session<'_>, kept: &Kept) -> Result<usize, AllocError>
    ensures count { IfOk result (λ n. n ≡ spec.fitting (spec.with_breaks session.old kept.now.breaks.items) kept.now.steps.items) }
    ensures session { OnOk result (session.new ≡ spec.retaken (spec.with_breaks session.old kept.now.breaks.items) kept.now.steps.items) }
{
    fill(alloc, session, &kept.breaks)?;
    free_places(alloc, session, &kept.breaks)?;
    take_again(alloc, session, &kept.steps)
}

/// A console on a session that has gone where the one was that is kept, of whose steps it has taken
/// so many. `Err` means that memory was refused.
fn console_again<'c, 't>(
    alloc: Global,
    session: Session<'c>,
    screen: Screen<'t>,
    taken: usize,
    kept: &Kept,
) -> Result<Opened<'c, 't>, AllocError>
    ensures desk { IfOk result (λ o. o.desk ≡ says.console_of session.entry screen.entry.script.now screen.entry.look) }
    ensures first { IfOk result (λ o. o.first ≡ First.Again taken (length kept.now.steps.items)) }
{
    match again_bytes(alloc, &session, screen, taken, kept) {
        Ok(said) => Ok(Opened {
            desk: ConsoleDesk::new(alloc, session, screen),
            first: First::Again {
                taken,
                all: kept.steps.len(),
            },
            said,
        }),
        Err(error) => {
            drop(session);
            Err(error)
        }
    }
}

/// A console at the start of the script that was read again, which has gone where the one was that is
/// kept: its breakpoints are set again, and its steps are taken again one after another, up to the
/// first that isn't enabled. It says how many, which breakpoints are not set, and where it stands. An
/// `Err` is want of memory.
pub fn reopen<'c, 't>(
    alloc: Global,
    subject: Subject<'c>,
    screen: Screen<'t>,
    kept: &Kept,
) -> Result<Opened<'c, 't>, AllocError>
    ensures desk { IfOk result (λ o. o.desk ≡ says.console_of (spec.gone_again (opened subject.entry.code.now.program subject.entry.mode) kept.now.breaks.items kept.now.steps.items) screen.entry.script.now screen.entry.look) }
    ensures first { IfOk result (λ o. o.first ≡ spec.told_again (opened subject.entry.code.now.program subject.entry.mode) kept.now.breaks.items kept.now.steps.items) }
{
    let mut session = Session::start(alloc, subject.code, subject.mode)?;
    match go_there(alloc, &mut session, kept) {
        Ok(taken) => console_again(alloc, session, screen, taken, kept),
        Err(error) => {
            drop(session);
            Err(error)
        }
    }
}

/// Why a script isn't read again.
#[derive(Clone, Copy)]
pub enum Unread {
    /// It has a fault, in this line, from 1.
    Script(ReadFault, usize),
    /// Its file can't be opened or read.
    File,
    /// Memory was refused.
    Memory,
}

/// What a console says if its script isn't read again: one line. Nothing has changed. An `Err` is
/// want of memory.
pub fn refused_again(
    alloc: Global,
    desk: &ConsoleDesk<'_, '_>,
    why: Unread,
) -> Result<Vec<u8>, AllocError> {
    let mut told = String::new(alloc);
    match why {
        Unread::Script(fault, line) => {
            write!(
                told,
                "refused: the script has a fault, {fault} line {line}\n"
            )?
        }
        Unread::File => told.push_str("refused: the file can't be read\n")?,
        Unread::Memory => told.push_str("refused: memory\n")?,
    }
    let look = desk.screen().look;
    let prompt = prompt_in(desk.session(), look.is_prompting);
    laid_out(alloc, told.as_bytes(), look.width, prompt)
}
