//! `mpdbg debug --view`: a console whose screen is drawn anew after each line (docs/CONSOLE.md, "A view").

ghost use Rattle.mpd_trace.specs.Ranks.{AreRanks};

use crate::debug::{Place, Reloaded, Turn, end_prompt, reload, source_words};
use crate::tell::Fault;
use mpd_console::{UntilWish, Wish};
use mpd_lines::{EngineFault, write_all};
use mpd_model::{READS_MAX, Sink, Source};
use mpd_view::{ViewDesk, run_view};
use std::alloc::{AllocError, Global};
use std::fs::Files;
/// Writes the screen after what a console says.
fn write_screen<'a, W: Sink>(
    alloc: Global,
    view: &ViewDesk<'_, '_>,
    said: &[u8],
    sink: &mut W,
) -> Result<(), Fault<'a>> {
    let Ok(first) = view.screen(alloc, said) else {
        return Err(Fault::from(EngineFault::Memory));
    };
    if write_all(sink, &first).is_err() {
        return Err(Fault::from(EngineFault::WriteFailed));
    }
    Ok(())
}

/// Writes the screen after what is said of a file, or that memory for that is refused.
fn write_said<'a, W: Sink>(
    alloc: Global,
    view: &ViewDesk<'_, '_>,
    said: Result<Vec<u8>, AllocError>,
    sink: &mut W,
) -> Result<(), Fault<'a>> {
    match said {
        Ok(said) => write_screen(alloc, view, &said, sink),
        Err(_) => Err(Fault::from(EngineFault::Memory)),
    }
}

/// Has the words of a file answered next, if the last line names one.
fn source_in_view<'a, R: Files + Eprint + AllocGlobal, S: Source, W: Sink>(
    rt: &R,
    is_terminal: bool,
    view: &mut ViewDesk<'_, '_>,
    source: &mut UntilWish<'_, S>,
    sink: &mut W,
) -> Result<(), Fault<'a>> {
    let name = view.take_named(rt.alloc());
    if name.is_empty() {
        return Ok(());
    }
    let said = source_words(rt, is_terminal, view.console(), &name, source);
    write_said(rt.alloc(), view, said, sink)
}

/// Writes the first screen, and answers the words of a source, up to `quit` or its end, or until its script was read again.
pub(crate) fn talk_in_view<'a, R: Files + Eprint + AllocGlobal, S: Source, W: Sink>(
    rt: &R,
    place: Place<'a>,
    view: &mut ViewDesk<'_, '_>,
    said: &[u8],
    source: &mut UntilWish<'_, S>,
    sink: &mut W,
) -> Result<Turn, Fault<'a>>
    requires { AreRanks place.named.ranks }
{
    write_screen(rt.alloc(), view, said, sink)?;
    for _turn in 0..READS_MAX {
        run_view(rt.alloc(), view, source, sink)?;
        let wish = source.wish();
        source.go_on();
        match wish {
            Some(Wish::Source) => source_in_view(rt, place.is_terminal, view, source, sink)?,
            Some(Wish::Reload) => match reload(rt, place, view.console()) {
                Reloaded::Script(script) => return Ok(Turn::Again(script)),
                Reloaded::Refused(said) => write_said(rt.alloc(), view, said, sink)?,
            },
            _ => {
                end_prompt(true, wish, sink)?;
                return Ok(Turn::Over);
            }
        }
    }
    Err(Fault::from(EngineFault::TooManyTurns))
}
