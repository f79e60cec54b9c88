//! `mpdbg debug`: a console for a person, or for a file of words (docs/CONSOLE.md).

ghost use Rattle.mpd_trace.specs.Ranks.{AreRanks};

use crate::outside::{Outside, Terminals};
use crate::picture::{NamedChoices, steps_fault, steps_of_choices};
use crate::script::{NamedScript, bytes_of, code_of};
use crate::tell::{Fault, say_file, say_refused};
use crate::view::talk_in_view;
use mpd_code::{Code, Subject};
use mpd_console::{
    ConsoleDesk, Kept, Look, OpenFault, Opened, Screen, Unread, Unsourced, UntilWish, WORDS_MAX,
    Wish, ended_words, keep, open, open_along, open_with, refused_again, reopen, run_console,
    source_refused, source_taken,
};
use mpd_explore::EndWitness;
use mpd_lines::{EngineFault, write_all};
use mpd_model::{Mode, READS_MAX, Sink, Source};
use mpd_runs::FUEL;
use mpd_trace::PlainFault;
use mpd_view::{Size, ViewDesk};
use std::alloc::{AllocError, Global};
use std::fs::Files;

/// What lies ahead of a console from the start on.
#[derive(Drop)]
pub(crate) enum Ahead<'a> {
    /// Nothing.
    Nothing,
    /// The steps of the run with the choices of a word.
    Choices(NamedChoices<'a>),
    /// Those of a witness, which is checked first.
    Witness(EndWitness),
}

/// How a console is shown: how its answers look, and how many rows a view has, where one is drawn.
#[derive(Clone, Copy)]
pub(crate) struct Shown {
    pub(crate) look: Look,
    pub(crate) rows: Option<usize>,
}

/// How the answers of a console look, where lines of so many bytes are wanted, and whether those that are read are to be shown: then there
/// are prompts, too. A terminal shows what is typed itself.
pub(crate) fn look_of(terminals: Terminals, echo: bool, width: usize) -> Look {
    Look {
        is_prompting: terminals.is_prompting || echo,
        is_echoing: echo && !terminals.is_prompting,
        width,
    }
}

/// How many rows a view has: none if no view is drawn, as where no person sits at a terminal.
pub(crate) fn view_rows(terminals: Terminals, view: bool, height: usize) -> Option<usize> {
    if view && terminals.is_prompting {
        Some(height)
    } else {
        None
    }
}

/// A console with the steps ahead of the run with the choices of a word.
fn console_along<'c, 't, 'a>(
    alloc: Global,
    subject: Subject<'c>,
    screen: Screen<'t>,
    named: NamedChoices<'a>,
) -> Result<Opened<'c, 't>, Fault<'a>> {
    let steps = steps_of_choices(alloc, subject, named, FUEL)?;
    match open_along(alloc, subject, screen, steps) {
        Ok(opened) => Ok(opened),
        Err(fault) => Err(steps_fault(fault)),
    }
}

/// A console at the start of a script, with the steps of a witness ahead where there is one.
fn console_with<'c, 't, 'a>(
    alloc: Global,
    subject: Subject<'c>,
    screen: Screen<'t>,
    witness: Option<EndWitness>,
) -> Result<Opened<'c, 't>, Fault<'a>> {
    let opened = match witness {
        None => open(alloc, subject, screen),
        Some(witness) => open_with(alloc, subject, screen, witness),
    };
    match opened {
        Ok(opened) => Ok(opened),
        Err(OpenFault::Refused(fault)) => Err(Fault::Witness(fault)),
        Err(OpenFault::TooLong) => Err(Fault::LongWitness),
        Err(OpenFault::Memory) => Err(Fault::from(EngineFault::Memory)),
    }
}

/// A console at the start of a script, with what is to lie ahead.
pub(crate) fn console_of<'c, 't, 'a>(
    alloc: Global,
    subject: Subject<'c>,
    screen: Screen<'t>,
    ahead: Ahead<'a>,
) -> Result<Opened<'c, 't>, Fault<'a>> {
    match ahead {
        Ahead::Nothing => console_with(alloc, subject, screen, None),
        Ahead::Choices(named) => console_along(alloc, subject, screen, named),
        Ahead::Witness(witness) => console_with(alloc, subject, screen, Some(witness)),
    }
}

/// What is debugged, and where a person sits.
#[derive(Clone, Copy)]
pub(crate) struct Place<'a> {
    pub(crate) named: NamedScript<'a>,
    look: Look,
    mode: Mode,
    /// Whether standard error is a terminal on which more is said of a file.
    pub(crate) is_terminal: bool,
    /// How many rows a view has, if one is drawn.
    rows: Option<usize>,
}

/// A script that was read again, its text, and what is kept of the console that had it before.
#[derive(Drop)]
pub(crate) struct NewScript {
    code: Code,
    text: Vec<u8>,
    kept: Kept,
}

/// What a console has come to.
#[derive(Drop)]
pub(crate) enum Turn {
    /// Its input has ended, or it was told to end.
    Over,
    /// Its script was read again.
    Again(NewScript),
}

/// Ends the line of the last prompt, if the input has ended after it.
pub(crate) fn end_prompt<'a, W: Sink>(
    is_prompting: bool,
    wish: Option<Wish>,
    sink: &mut W,
) -> Result<(), Fault<'a>> {
    if !is_prompting || wish.is_some() {
        return Ok(());
    }
    write(sink, b"\n")
}

/// Writes bytes.
fn write<'a, W: Sink>(sink: &mut W, bytes: &[u8]) -> Result<(), Fault<'a>> {
    if write_all(sink, bytes).is_err() {
        return Err(Fault::from(EngineFault::WriteFailed));
    }
    Ok(())
}

/// Says more, at a terminal, of why a script isn't read again.
fn say_more<R: Eprint + AllocGlobal>(rt: &R, fault: &Fault<'_>, text: &[u8]) {
    let _unwritten = match fault {
        Fault::File(file, error) => say_file(rt, file, *error),
        Fault::Plain(PlainFault::Script(refused, _)) => say_refused(rt, *refused, text),
        _ => Ok(()),
    };
}

/// Why a script isn't read again.
fn unread(fault: &Fault<'_>) -> Unread {
    match fault {
        Fault::File(_, _) => Unread::File,
        Fault::Plain(PlainFault::Script(refused, line)) => Unread::Script(*refused, *line),
        _ => Unread::Memory,
    }
}

/// Reads the script again, for a console: its code, and what is kept of the console. A script that is refused is left in `text`.
fn read_again<'a, R: Files + AllocGlobal>(
    rt: &R,
    named: NamedScript<'a>,
    desk: &ConsoleDesk<'_, '_>,
    text: &mut Vec<u8>,
) -> Result<(Code, Kept), Fault<'a>>
    requires { AreRanks named.ranks }
{
    let code = code_of(rt, named, text)?;
    match keep(rt.alloc(), desk, &code) {
        Ok(kept) => Ok((code, kept)),
        Err(_) => Err(Fault::from(EngineFault::Memory)),
    }
}

/// What comes of a script that is to be read again.
#[derive(Drop)]
pub(crate) enum Reloaded {
    /// It was read again.
    Script(NewScript),
    /// That was refused, and this is said of it.
    Refused(Result<Vec<u8>, AllocError>),
}

/// Reads the script again. If that is refused, the console goes on.
pub(crate) fn reload<R: Files + Eprint + AllocGlobal>(
    rt: &R,
    place: Place<'_>,
    desk: &ConsoleDesk<'_, '_>,
) -> Reloaded
    requires { AreRanks place.named.ranks }
{
    let mut text = Vec::new(rt.alloc());
    match read_again(rt, place.named, desk, &mut text) {
        Ok((code, kept)) => Reloaded::Script(NewScript { code, text, kept }),
        Err(fault) => {
            if place.is_terminal {
                say_more(rt, &fault, &text);
            }
            Reloaded::Refused(refused_again(rt.alloc(), desk, unread(&fault)))
        }
    }
}

/// The words of a file.
fn words_of<'n, R: Files + AllocGlobal>(rt: &R, name: &'n str) -> Result<Vec<u8>, Fault<'n>> {
    let file = bytes_of(rt, name, WORDS_MAX)?;
    if file.len() > WORDS_MAX {
        return Err(Fault::LongWords);
    }
    match ended_words(file) {
        Ok(words) => Ok(words),
        Err(_) => Err(Fault::from(EngineFault::Memory)),
    }
}

/// Why the words of a file aren't answered.
fn unsourced_by(fault: &Fault<'_>) -> Unsourced {
    match fault {
        Fault::File(_, _) => Unsourced::File,
        Fault::LongWords => Unsourced::TooLong,
        _ => Unsourced::Memory,
    }
}

/// The words of the file that a line names, which is one of a file itself or not. At a terminal it is said why a file can't be read.
fn words_named<R: Files + Eprint + AllocGlobal>(
    rt: &R,
    is_terminal: bool,
    is_in_file: bool,
    name: &[u8],
) -> Result<Vec<u8>, Unsourced> {
    if is_in_file {
        return Err(Unsourced::Nested);
    }
    let Ok(name) = str::from_utf8(name) else {
        return Err(Unsourced::File);
    };
    match words_of(rt, name) {
        Ok(words) => Ok(words),
        Err(fault) => {
            if is_terminal {
                say_more(rt, &fault, b"");
            }
            Err(unsourced_by(&fault))
        }
    }
}

/// Writes what a console says, or that memory for it is refused.
fn write_said<'a, W: Sink>(
    sink: &mut W,
    said: Result<Vec<u8>, AllocError>,
) -> Result<(), Fault<'a>> {
    match said {
        Ok(said) => write(sink, &said),
        Err(_) => write(sink, b"refused: memory\n"),
    }
}

/// Has the words of a file answered next, and gives what is said of it. If they can't be, that tells why, and nothing changes.
pub(crate) fn source_words<R: Files + Eprint + AllocGlobal, S: Source>(
    rt: &R,
    is_terminal: bool,
    desk: &ConsoleDesk<'_, '_>,
    name: &[u8],
    source: &mut UntilWish<'_, S>,
) -> Result<Vec<u8>, AllocError> {
    let words = match words_named(rt, is_terminal, source.is_in_file(), name) {
        Ok(words) => words,
        Err(why) => return source_refused(rt.alloc(), desk, name, why),
    };
    let said = source_taken(rt.alloc(), desk)?;
    source.insert(words);
    Ok(said)
}

/// The same for a console, if its last line names a file; what is said is written.
fn source_at<'a, R: Files + Eprint + AllocGlobal, S: Source, W: Sink>(
    rt: &R,
    is_terminal: bool,
    desk: &mut ConsoleDesk<'_, '_>,
    source: &mut UntilWish<'_, S>,
    sink: &mut W,
) -> Result<(), Fault<'a>> {
    let name = desk.take_named(rt.alloc());
    if name.is_empty() {
        return Ok(());
    }
    write_said(sink, source_words(rt, is_terminal, desk, &name, source))
}

/// Writes what a console says first, and answers the words of a source, up to `quit` or its end, or until its script was read again.
fn talk_plainly<'a, R: Files + Eprint + AllocGlobal, S: Source, W: Sink>(
    rt: &R,
    place: Place<'a>,
    opened: &mut Opened<'_, '_>,
    source: &mut UntilWish<'_, S>,
    sink: &mut W,
) -> Result<Turn, Fault<'a>>
    requires { AreRanks place.named.ranks }
{
    write(sink, &opened.said)?;
    for _turn in 0..READS_MAX {
        run_console(rt.alloc(), &mut opened.desk, source, sink)?;
        let wish = source.wish();
        source.go_on();
        match wish {
            Some(Wish::Source) => {
                source_at(rt, place.is_terminal, &mut opened.desk, source, sink)?
            }
            Some(Wish::Reload) => match reload(rt, place, &opened.desk) {
                Reloaded::Script(script) => return Ok(Turn::Again(script)),
                Reloaded::Refused(said) => write_said(sink, said)?,
            },
            _ => {
                end_prompt(place.look.is_prompting, wish, sink)?;
                return Ok(Turn::Over);
            }
        }
    }
    Err(Fault::from(EngineFault::TooManyTurns))
}

/// The same by a view if one is drawn, given the text of the script.
fn talk<'a, R: Files + Eprint + AllocGlobal, S: Source, W: Sink>(
    rt: &R,
    place: Place<'a>,
    script: &[u8],
    opened: Opened<'_, '_>,
    source: &mut UntilWish<'_, S>,
    sink: &mut W,
) -> Result<Turn, Fault<'a>>
    requires { AreRanks place.named.ranks }
{
    let Some(rows) = place.rows else {
        let mut opened = opened;
        let turn = talk_plainly(rt, place, &mut opened, source, sink);
        drop(opened);
        return turn;
    };
    let Opened { desk, said, .. } = opened;
    let size = Size {
        rows,
        columns: place.look.width,
    };
    let mut view = ViewDesk::new(desk, script, size);
    let turn = talk_in_view(rt, place, &mut view, &said, source, sink);
    drop(view);
    drop(said);
    turn
}

/// The same of the console that begins anew on a script that was read again.
fn talk_again<'a, R: Files + Eprint + AllocGlobal, S: Source, W: Sink>(
    rt: &R,
    place: Place<'a>,
    script: &NewScript,
    source: &mut UntilWish<'_, S>,
    sink: &mut W,
) -> Result<Turn, Fault<'a>>
    requires { AreRanks place.named.ranks }
{
    let subject = Subject {
        code: &script.code,
        mode: place.mode,
    };
    let screen = Screen {
        script: &script.text,
        look: place.look,
    };
    let Ok(opened) = reopen(rt.alloc(), subject, screen, &script.kept) else {
        return Err(Fault::from(EngineFault::Memory));
    };
    talk(rt, place, &script.text, opened, source, sink)
}

/// Goes on from a console to the next, as long as the script is read again, 1,000,000 times at most.
fn go_on<'a, R: Files + Eprint + AllocGlobal, S: Source, W: Sink>(
    rt: &R,
    place: Place<'a>,
    first: Turn,
    source: &mut UntilWish<'_, S>,
    sink: &mut W,
) -> Result<(), Fault<'a>>
    requires { AreRanks place.named.ranks }
{
    let Turn::Again(mut script) = first else {
        return Ok(());
    };
    for _turn in 0..READS_MAX {
        match talk_again(rt, place, &script, source, sink)? {
            Turn::Over => return Ok(()),
            Turn::Again(next) => script = next,
        }
    }
    Err(Fault::from(EngineFault::TooManyTurns))
}

/// Which script is debugged, and how many rows its view has, if one is drawn.
#[derive(Clone, Copy)]
pub(crate) struct Debugged<'a> {
    pub(crate) named: NamedScript<'a>,
    pub(crate) rows: Option<usize>,
}

/// Answers the words of a source on a script, up to `quit` or its end, by a view if that has rows. At a terminal it says first how to go on.
pub(crate) fn debug_script<'a, R: Files + Eprint + AllocGlobal, S: Source, W: Sink>(
    rt: &R,
    debugged: Debugged<'a>,
    subject: Subject<'_>,
    screen: Screen<'_>,
    ahead: Ahead<'a>,
    outside: Outside<'_, S, W>,
) -> Result<(), Fault<'a>>
    requires { AreRanks debugged.named.ranks }
{
    let Outside {
        source,
        sink,
        terminals,
    } = outside;
    let place = Place {
        named: debugged.named,
        look: screen.look,
        mode: subject.mode,
        // a view clears what would be said beside it
        is_terminal: terminals.is_terminal && debugged.rows.is_none(),
        rows: debugged.rows,
    };
    let opened = console_of(rt.alloc(), subject, screen, ahead)?;
    if terminals.is_terminal {
        let _unwritten = eprintln!(rt;
            "help lists the words, an empty line repeats the last, quit ends; docs/CONSOLE.md"
        );
    }
    let mut source = UntilWish::new(rt.alloc(), source);
    let first = talk(rt, place, screen.script, opened, &mut source, sink)?;
    go_on(rt, place, first, &mut source, sink)
}
