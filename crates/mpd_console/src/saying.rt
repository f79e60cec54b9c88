//! What is said of what a word did: words for people, over the values that tell it
//! (docs/CONSOLE.md, "Answers").

use crate::desk::Screen;
use crate::looks::push_sight;
use crate::prompts::{laid_out, prompt_in, push_prompt};
use crate::told::{
    Blamed, Carried, Laid, Moved, News, Numbered, Printed, Sight, Stopped, Told, Went, Why,
};
use mpd_blame::{Blame, MarkedBlame};
use mpd_core::Core;
use mpd_explain::{MarkedStep, PlacedStep, losses, position_of, push_losses, push_position};
use mpd_lines::push_folded_at;
use mpd_model::{Breakpoint, Decision, Decl};
use mpd_names::{Marks, push_break};
use mpd_policy::decide;
use mpd_runs::{push_ahead, push_count, push_no_choice, push_no_run, push_none};
use mpd_session::Session;
use std::alloc::{AllocError, Global};
use std::fmt;

// ---- breakpoints

/// Adds the line of a breakpoint.
pub(crate) fn push_break_line(
    out: &mut String,
    decls: &[Decl],
    marks: Marks<'_>,
    set: Numbered,
) -> Result<(), AllocError> {
    let number = set.number;
    write!(out, "breakpoint {number}: ")?;
    push_break(out, decls, marks, set.stop)?;
    out.push('\n')
}

/// Adds that no statement begins at the line of a breakpoint.
fn push_idle(out: &mut String, marks: Marks<'_>, stop: Breakpoint) -> Result<(), AllocError> {
    match stop {
        Breakpoint::Line { line, .. } | Breakpoint::Match { line, .. } => {
            write!(out, "no statement begins at line {}\n", marks.line(line))
        }
        Breakpoint::Rank(_) | Breakpoint::Change { .. } | Breakpoint::Handle { .. } => Ok(()),
    }
}

// ---- the step that decided

/// Adds where it was decided how a run ends, and the word that takes the other step there.
fn push_blamed(out: &mut String, marks: Marks<'_>, blamed: &Blamed) -> Result<(), AllocError> {
    write!(out, "{}\n", MarkedBlame(blamed.blame, marks))?;
    if let Blame::At(decided) = blamed.blame.blame {
        match blamed.number {
            Some(number) => write!(out, "to try that: next {number}\n")?,
            None => write!(out, "to try that: {}\n", decided.other)?,
        }
    }
    Ok(())
}

// ---- moves

/// Adds how a word has moved, given the step if it took one that is known.
fn push_went(
    out: &mut String,
    marks: Marks<'_>,
    went: Went,
    step: Option<PlacedStep>,
    depth: usize,
) -> Result<(), AllocError> {
    match went {
        Went::One(_) => {
            write!(out, "{depth} ")?;
            if let Some(step) = step {
                write!(out, "{}", MarkedStep(step, marks))?;
            }
            out.push('\n')
        }
        Went::There => write!(out, "depth {depth}\n"),
        Went::On(count) => {
            push_count(out, count)?;
            write!(out, ", depth {depth}\n")
        }
        Went::Back(count) => {
            push_count(out, count)?;
            write!(out, " back, depth {depth}\n")
        }
    }
}

/// Adds that steps ahead are gone, if any are.
fn push_gone(out: &mut String, count: usize) -> Result<(), AllocError> {
    match count {
        0 => Ok(()),
        1 => out.push_str("the step that lay ahead is gone\n"),
        _ => write!(out, "the {count} steps that lay ahead are gone\n"),
    }
}

/// Adds what ranks have printed, a line for each.
fn push_printed(out: &mut String, list: &[Printed]) -> Result<(), AllocError> {
    let mut last = None;
    for Printed { rank, value } in list {
        if last != Some(*rank) {
            if last.is_some() {
                out.push('\n')?;
            }
            write!(out, "rank {rank} prints")?;
            last = Some(*rank);
        }
        write!(out, " {value}")?;
    }
    if last.is_some() {
        out.push('\n')?;
    }
    Ok(())
}

/// Adds what the steps of a word brought. An end tells by itself which requests are lost.
fn push_news(
    core: &Core<'_>,
    out: &mut String,
    marks: Marks<'_>,
    news: &News,
    decided: &Decision,
) -> Result<(), AllocError> {
    push_gone(out, news.gone)?;
    push_printed(out, &news.printed.items)?;
    match decided {
        Decision::Leaf(_) => Ok(()),
        Decision::Forced(_) | Decision::Choice(_) => {
            let alloc = *out.allocator();
            let lost = losses(alloc, core, &news.lost_before.items, &news.lost.items)?;
            push_losses(out, marks, &lost)
        }
    }
}

/// Adds why a move went no further, if that isn't told by where it stands.
fn push_stopped(
    out: &mut String,
    decls: &[Decl],
    marks: Marks<'_>,
    stopped: Stopped,
) -> Result<(), AllocError> {
    match stopped {
        Stopped::There => Ok(()),
        Stopped::At(set) => push_break_line(out, decls, marks, set),
        Stopped::Before(set) => {
            out.push_str("before ")?;
            push_break_line(out, decls, marks, set)
        }
        Stopped::AheadEnds => out.push_str("stopped: the steps ahead end here\n"),
        Stopped::AsAsked => out.push_str("stopped: as many steps as were asked for\n"),
        Stopped::AtLine(line) => {
            write!(out, "stopped: a rank is at line {}\n", marks.line(line))
        }
        Stopped::GoneOn(rank) => write!(out, "stopped: rank {rank} has gone on\n"),
        Stopped::CallOver => out.push_str("stopped: that call is over\n"),
        Stopped::Full => out.push_str("stopped: no more than 1000000 steps are kept\n"),
        Stopped::AtStart => out.push_str("at the start\n"),
    }
}

/// Adds where a session stands, given the text of its script.
pub(crate) fn push_where(
    alloc: Global,
    session: &Session<'_>,
    script: &[u8],
    out: &mut String,
) -> Result<(), AllocError> {
    let debugger = session.debugger();
    let decided = decide(alloc, debugger.core())?;
    let position = position_of(alloc, debugger, decided)?;
    push_position(out, script, session.code(), Marks { script }, &position)
}

/// Adds what is said of a move, given the step if it took one that is known.
fn push_moved(
    alloc: Global,
    session: &Session<'_>,
    script: &[u8],
    out: &mut String,
    moved: &Moved,
    step: Option<PlacedStep>,
) -> Result<(), AllocError> {
    let debugger = session.debugger();
    let core = debugger.core();
    let marks = Marks { script };
    push_went(out, marks, moved.went, step, moved.depth)?;
    let decided = decide(alloc, core)?;
    if let Some(news) = &moved.news {
        push_news(core, out, marks, news, &decided)?;
    }
    push_stopped(out, core.code().decls(), marks, moved.stopped)?;
    let position = position_of(alloc, debugger, decided)?;
    push_position(out, script, core.code(), marks, &position)
}

// ---- refusals

impl fmt::Display for Why {
    fn fmt<W: fmt::Write>(&self, f: &mut fmt::Formatter<W>) -> fmt::Result {
        match *self {
            Why::Standing => Ok(()),
            Why::NotEnabled => write!(f, "refused: this step is not enabled\n"),
            Why::Full => write!(f, "refused: no more than 1000000 steps are kept\n"),
            Why::FewTaken => write!(f, "refused: fewer steps are taken\n"),
            Why::NotKept => write!(f, "refused: so many steps are neither taken nor ahead\n"),
            Why::NoneAhead => write!(f, "refused: no step is ahead\n"),
            Why::NoBreak => write!(f, "refused: no breakpoint has this number\n"),
            Why::BreaksFull => write!(f, "refused: 64 breakpoints are set\n"),
            Why::NoCandidate => write!(f, "refused: there is no such candidate\n"),
            Why::NoLine => write!(f, "refused: lines are 1 to 65537\n"),
            Why::NoRank => write!(f, "refused: there is no such rank\n"),
            Why::NoCount => write!(f, "refused: 1 to 1000000 steps can be asked for\n"),
        }
    }
}

/// Whether where it stands is told after this, if the step that comes next was asked for.
fn stands_behind(why: Why) -> bool {
    !matches!(why, Why::Full)
}

// ---- any word

/// Adds what is said of what a request came to, given the step if it took one that is known.
fn push_carried(
    alloc: Global,
    session: &Session<'_>,
    script: &[u8],
    out: &mut String,
    carried: &Carried,
    step: Option<PlacedStep>,
) -> Result<(), AllocError> {
    match carried {
        Carried::Moved(moved) => push_moved(alloc, session, script, out, moved, step),
        Carried::Added { added, is_idle } => {
            let marks = Marks { script };
            push_break_line(out, session.code().decls(), marks, *added)?;
            if *is_idle {
                push_idle(out, marks, added.stop)?;
            }
            Ok(())
        }
        Carried::Removed(number) => write!(out, "deleted {number}\n"),
        Carried::Refused { why, is_next } => {
            write!(out, "{why}")?;
            if *is_next && stands_behind(*why) {
                push_where(alloc, session, script, out)?;
            }
            Ok(())
        }
        Carried::Nothing => Ok(()),
    }
}

/// Adds what is said of a run that lies ahead, and where the session stands.
pub(crate) fn push_laid(
    alloc: Global,
    session: &Session<'_>,
    script: &[u8],
    out: &mut String,
    laid: &Laid,
) -> Result<(), AllocError> {
    let lines = session.code().lines();
    let marks = Marks { script };
    push_ahead(out, lines, marks, laid.number, &laid.ending, laid.ahead)?;
    push_where(alloc, session, script, out)
}

/// Adds what is said of a word, given the step if it took one that is known.
fn push_told(
    alloc: Global,
    session: &Session<'_>,
    script: &[u8],
    out: &mut String,
    told: &Told,
    step: Option<PlacedStep>,
) -> Result<(), AllocError> {
    match told {
        Told::Carried(carried) => push_carried(alloc, session, script, out, carried, step),
        Told::Laid(laid) => push_laid(alloc, session, script, out, laid),
        Told::NoneEnds { way, counts, .. } => push_none(out, *way, *counts),
        Told::NoRun => push_no_run(out),
        Told::NoChoice => push_no_choice(out),
        Told::Blamed(blamed) => {
            push_blamed(out, Marks { script }, blamed)?;
            match &blamed.gone {
                Some(carried) => push_carried(alloc, session, script, out, carried, None),
                None => Ok(()),
            }
        }
        Told::Looks(sight) => push_sight(alloc, session, script, out, *sight),
    }
}

/// Whether long lines go on in further lines that are said of a word.
fn is_folded(told: &Told) -> bool {
    match told {
        Told::Looks(Sight::Script(_) | Sight::Whole | Sight::Words | Sight::Picture) => false,
        _ => true,
    }
}

/// What a console says of what a word did, given the step if it took one that is known, with the
/// prompt after it. `Err` means that memory was refused.
pub(crate) fn told_bytes(
    alloc: Global,
    session: &Session<'_>,
    screen: Screen<'_>,
    told: &Told,
    step: Option<PlacedStep>,
) -> Result<Vec<u8>, AllocError> {
    let Screen { script, look } = screen;
    let mut text = String::new(alloc);
    push_told(alloc, session, script, &mut text, told, step)?;
    let mut out = Vec::new(alloc);
    if is_folded(told) {
        push_folded_at(&mut out, text.as_bytes(), look.width)?;
    } else {
        out.extend_from_slice(text.as_bytes())?;
    }
    let is_prompting = look.is_prompting && !matches!(told, Told::Looks(Sight::End));
    push_prompt(&mut out, prompt_in(session, is_prompting))?;
    Ok(out)
}

/// What a console says of a run that lies ahead, with the prompt after it.
pub(crate) fn laid_bytes(
    alloc: Global,
    session: &Session<'_>,
    screen: Screen<'_>,
    laid: &Laid,
) -> Result<Vec<u8>, AllocError> {
    let Screen { script, look } = screen;
    let mut text = String::new(alloc);
    push_laid(alloc, session, script, &mut text, laid)?;
    laid_out(
        alloc,
        text.as_bytes(),
        look.width,
        prompt_in(session, look.is_prompting),
    )
}
