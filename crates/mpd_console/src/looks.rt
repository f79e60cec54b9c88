//! Words that change nothing (docs/CONSOLE.md, "Looks"): what they look at, and what is said of that.

ghost use Rattle.std.specs.Prelude.{◌≡◌};
ghost use Rattle.mpd_console.specs.Looks as spec;

use crate::onward::finish_rank;
use crate::saying::push_break_line;
use crate::told::{Numbered, Sight};
use mpd_core::Core;
use mpd_explain::{
    enabled_steps, history_of, losses_of, pending_calls, posted_calls, push_calls, push_enabled,
    push_history, push_losses, push_queues, push_ranks, push_why, push_why_rank, push_why_ranks,
    push_words, why_of,
};
use mpd_model::{BREAKS_MAX, CallId, Decl};
use mpd_names::{Marks, Named, all_stands, push_list, push_list_about, push_named, push_variables};
use mpd_picture::push_picture;
use mpd_policy::Breaks;
use mpd_runs::push_runs;
use mpd_session::Session;
use mpd_trace::show;
use mpd_trail::Debugger;
use mpd_vocabulary::{Word, push_help};
use std::alloc::{AllocError, Global};

// ---- what is looked at

/// What is looked at, if there is the rank that it is of.
fn in_ranks(core: &Core<'_>, rank: Option<usize>, sight: Sight) -> Sight
    ensures { result ≡ spec.in_ranks core.now.world rank sight }
{
    match rank {
        Some(rank) if rank >= core.rank_count() => Sight::NoRank,
        _ => sight,
    }
}

/// A call, if there is one.
fn call_sight(core: &Core<'_>, call: CallId) -> Sight
    ensures { result ≡ spec.call_sight core.now.world call }
{
    match core.board().call(call) {
        None => Sight::NoCall,
        Some(_) => Sight::WhyCall(call),
    }
}

/// Why `finish` doesn't go on: the rank waits for no call, or none is named and the last step is of
/// none.
fn unfinished(core: &Core<'_>, rank: Option<usize>) -> Sight
    ensures { result ≡ spec.unfinished core.now.world rank }
{
    match rank {
        None => Sight::NoLast,
        Some(_) => in_ranks(core, rank, Sight::Why(rank)),
    }
}

/// What a word looks at; nothing of another.
pub fn sight_of(debugger: &Debugger<'_>, word: Word) -> Sight
    ensures { result ≡ spec.sight_of debugger.now.trail debugger.now.world word }
{
    let core = debugger.core();
    match word {
        Word::Breaks => Sight::Breaks,
        Word::List(rank) => in_ranks(core, rank, Sight::Script(rank)),
        Word::Print(named, rank) => in_ranks(core, rank, Sight::Named(named, rank)),
        Word::Vars(rank) => in_ranks(core, rank, Sight::Held(rank)),
        Word::Ranks => Sight::Ranks,
        Word::Calls(rank) => in_ranks(core, rank, Sight::Calls(rank)),
        Word::Queues => Sight::Queues,
        Word::WhyCall(call) => call_sight(core, call),
        Word::WhyRank(rank) => in_ranks(core, rank, Sight::Why(rank)),
        Word::Finish(rank) => unfinished(core, finish_rank(debugger, rank)),
        Word::Until(line) => Sight::NoStatement(line),
        Word::UntilRank(_) | Word::BackRank(_) => Sight::NoRank,
        Word::History(count) => Sight::History(count),
        Word::Picture => Sight::Picture,
        Word::Check(runs) => Sight::Runs(runs),
        Word::Words => Sight::Words,
        Word::Enabled => Sight::Enabled,
        Word::Show => Sight::Whole,
        Word::Help(topic) => Sight::Help(topic),
        Word::Quit => Sight::End,
        Word::Next(_)
        | Word::Run(_)
        | Word::Back(_)
        | Word::RunBack
        | Word::UndoChoice
        | Word::Goto(_)
        | Word::Redo(_)
        | Word::Step(_)
        | Word::Break(_)
        | Word::Delete(_)
        | Word::Follow(_)
        | Word::Deadlock
        | Word::Blame
        | Word::Trap => Sight::Nothing,
    }
}

// ---- what is said of it

/// Adds the lines of all breakpoints.
fn push_all_breaks(
    out: &mut String,
    decls: &[Decl],
    marks: Marks<'_>,
    breaks: &Breaks,
) -> Result<(), AllocError> {
    for number in 0..BREAKS_MAX {
        if let Some(stop) = breaks.breakpoint(number) {
            push_break_line(out, decls, marks, Numbered { number, stop })?;
        }
    }
    Ok(())
}

/// Adds the breakpoints, or that there is none.
fn push_breaks(
    out: &mut String,
    decls: &[Decl],
    marks: Marks<'_>,
    breaks: &Breaks,
) -> Result<(), AllocError> {
    let mut lines = String::new(*out.allocator());
    push_all_breaks(&mut lines, decls, marks, breaks)?;
    if lines.is_empty() {
        return out.push_str("no breakpoint\n");
    }
    out.push_str(&lines)
}

/// Adds the script, or the lines about a rank.
fn push_script(
    core: &Core<'_>,
    out: &mut String,
    text: &[u8],
    rank: Option<usize>,
) -> Result<(), AllocError> {
    let standing = all_stands(*out.allocator(), core)?;
    match rank {
        None => push_list(out, text, &standing),
        Some(rank) => push_list_about(out, text, &standing, rank),
    }
}

/// Adds what a name stands for, of all ranks or of one.
fn push_print(
    core: &Core<'_>,
    out: &mut String,
    marks: Marks<'_>,
    named: Named,
    rank: Option<usize>,
) -> Result<(), AllocError> {
    let Some(rank) = rank else {
        let count = core.rank_count();
        for rank in 0..count {
            push_named(core, out, marks, rank, named)?;
        }
        return Ok(());
    };
    push_named(core, out, marks, rank, named)
}

/// Adds the variables and requests of a rank, what it has printed, and its requests that are lost.
fn push_vars_of(
    core: &Core<'_>,
    out: &mut String,
    marks: Marks<'_>,
    rank: usize,
) -> Result<(), AllocError> {
    push_variables(core, out, rank)?;
    let lost = losses_of(*out.allocator(), core, rank)?;
    push_losses(out, marks, &lost)
}

/// Adds that of all ranks, or of one.
fn push_vars(
    core: &Core<'_>,
    out: &mut String,
    marks: Marks<'_>,
    rank: Option<usize>,
) -> Result<(), AllocError> {
    let Some(rank) = rank else {
        let count = core.rank_count();
        for rank in 0..count {
            push_vars_of(core, out, marks, rank)?;
        }
        return Ok(());
    };
    push_vars_of(core, out, marks, rank)
}

/// Adds why the calls that all ranks wait for, or one, aren't matched.
fn push_why_of(
    alloc: Global,
    core: &Core<'_>,
    out: &mut String,
    marks: Marks<'_>,
    rank: Option<usize>,
) -> Result<(), AllocError> {
    match rank {
        None => push_why_ranks(alloc, core, out, marks),
        Some(rank) => push_why_rank(alloc, core, out, marks, rank),
    }
}

/// Adds why a call isn't matched, if there is one.
fn push_why_call(
    core: &Core<'_>,
    out: &mut String,
    marks: Marks<'_>,
    call: CallId,
) -> Result<(), AllocError> {
    match why_of(*out.allocator(), core, call)? {
        None => Ok(()),
        Some(why) => push_why(core, out, marks, &why),
    }
}

/// Adds the free calls.
fn push_free(core: &Core<'_>, out: &mut String, marks: Marks<'_>) -> Result<(), AllocError> {
    let alloc = *out.allocator();
    let pending = pending_calls(alloc, core)?;
    let posted = posted_calls(alloc, core)?;
    push_queues(out, marks, &pending.items, &posted.items)
}

/// Adds what each rank is doing.
fn push_standing(core: &Core<'_>, out: &mut String, marks: Marks<'_>) -> Result<(), AllocError> {
    let standing = all_stands(*out.allocator(), core)?;
    push_ranks(out, marks, &standing)
}

/// Adds the steps that are enabled.
fn push_steps(core: &Core<'_>, out: &mut String, marks: Marks<'_>) -> Result<(), AllocError> {
    let steps = enabled_steps(*out.allocator(), core)?;
    push_enabled(out, core.code().decls(), marks, &steps.items)
}

/// Adds the last steps that are taken.
fn push_last(
    debugger: &Debugger<'_>,
    out: &mut String,
    marks: Marks<'_>,
    count: usize,
) -> Result<(), AllocError> {
    let steps = history_of(*out.allocator(), debugger, count)?;
    push_history(out, marks, debugger.depth(), &steps.items)
}

/// Adds the whole state.
fn push_whole(alloc: Global, debugger: &Debugger<'_>, out: &mut String) -> Result<(), AllocError> {
    let kept = debugger.steps().len();
    let text = show(alloc, debugger.core(), debugger.depth(), kept)?;
    out.push_str(&text)
}

/// Adds what is said of what is looked at. `Err` means that memory was refused.
pub(crate) fn push_sight(
    alloc: Global,
    session: &Session<'_>,
    script: &[u8],
    out: &mut String,
    sight: Sight,
) -> Result<(), AllocError> {
    let debugger = session.debugger();
    let core = debugger.core();
    let marks = Marks { script };
    match sight {
        Sight::Breaks => push_breaks(out, core.code().decls(), marks, session.breaks()),
        Sight::Script(rank) => push_script(core, out, script, rank),
        Sight::Named(named, rank) => push_print(core, out, marks, named, rank),
        Sight::Held(rank) => push_vars(core, out, marks, rank),
        Sight::Ranks => push_standing(core, out, marks),
        Sight::Calls(rank) => push_calls(core, out, marks, rank),
        Sight::Queues => push_free(core, out, marks),
        Sight::WhyCall(call) => push_why_call(core, out, marks, call),
        Sight::Why(rank) => push_why_of(alloc, core, out, marks, rank),
        Sight::History(count) => push_last(debugger, out, marks, count),
        Sight::Picture => push_picture(debugger, out),
        Sight::Runs(runs) => push_runs(alloc, debugger, out, marks, runs),
        Sight::Words => push_words(debugger, out),
        Sight::Enabled => push_steps(core, out, marks),
        Sight::Whole => push_whole(alloc, debugger, out),
        Sight::Help(topic) => push_help(out, topic),
        Sight::NoRank => out.push_str("refused: there is no such rank\n"),
        Sight::NoCall => out.push_str("refused: there is no such call\n"),
        Sight::NoLast => {
            out.push_str("refused: the last step is of no rank; finish P names one\n")
        }
        Sight::NoStatement(line) => {
            let line = marks.line(line);
            write!(out, "refused: no statement begins at line {line}\n")
        }
        Sight::End | Sight::Nothing => Ok(()),
    }
}
