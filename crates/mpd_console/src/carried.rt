//! What a request of the session came to: how it has moved and why no further, or why it is refused
//! (docs/CONSOLE.md, "Answers").

ghost use Rattle.std.specs.Prelude.{◌≡◌, IfOk};
ghost use Rattle.mpd_console.specs.Carried as spec;
ghost use Rattle.mpd_console.specs.Along as along;
ghost use Rattle.mpd_console.specs.Moves as moves;
ghost use Rattle.mpd_console.specs.Says.{along_in, carried_in};

use crate::along::Along;
use crate::lead::Lead;
use crate::moves::{ahead_of, begins, single};
use crate::news::news_by;
use crate::onward::is_line;
use crate::told::{Carried, Moved, Numbered, Stopped, Went, Why};
use mpd_model::{Breakpoint, Cause, Decision, Step, Stop};
use mpd_policy::{Breaks, decide};
use mpd_session::{Answer, Refusal, Reply, Session};
use mpd_trail::Debugger;
use mpd_vocabulary::Word;
use std::alloc::{AllocError, Global};

// ---- why a move went no further

/// At the breakpoint of a number, if there is one.
pub(crate) fn stopped_at(number: usize, stop: Option<Breakpoint>) -> Stopped
    ensures { result ≡ along.stopped_at number stop }
{
    match stop {
        None => Stopped::There,
        Some(stop) => Stopped::At(Numbered { number, stop }),
    }
}

/// Before that breakpoint.
fn stopped_before(number: usize, stop: Option<Breakpoint>) -> Stopped
    ensures { result ≡ spec.stopped_before number stop }
{
    match stop {
        None => Stopped::There,
        Some(stop) => Stopped::Before(Numbered { number, stop }),
    }
}

/// After a single step, given the lowest breakpoint that it hits.
fn stopped_hit(breaks: &Breaks, hit: Option<usize>) -> Stopped
    ensures { result ≡ spec.stopped_hit breaks.now hit }
{
    match hit {
        None => Stopped::There,
        Some(number) => stopped_at(number, breaks.breakpoint(number)),
    }
}

/// After the step that is told, if one is. The session is as it was found. An `Err` is want of
/// memory.
fn stopped_step(session: &mut Session<'_>, step: Option<Step>) -> Result<Stopped, AllocError>
    ensures stopped { IfOk result (λ stopped. stopped ≡ spec.stopped_step session.old.trail session.old.breaks step) }
    ensures held { session.new ≡ session.old }
{
    if step.is_none() {
        return Ok(Stopped::There);
    }
    let hit = session.last_hit()?;
    Ok(stopped_hit(session.breaks(), hit))
}

/// Why a run made no more steps than it was to make.
pub(crate) fn stopped_asked(word: Word) -> Stopped
    ensures { result ≡ along.stopped_asked word }
{
    match word {
        Word::Until(line) => Stopped::AtLine(line),
        Word::UntilRank(rank) => Stopped::GoneOn(rank),
        Word::Finish(_) => Stopped::CallOver,
        _ => Stopped::AsAsked,
    }
}

/// For which breakpoint a run stopped: a run back before the step that hits it.
fn stopped_break(word: Word, number: usize, stop: Option<Breakpoint>) -> Stopped
    ensures { result ≡ spec.stopped_break word number stop }
{
    match word {
        Word::RunBack => stopped_before(number, stop),
        _ => stopped_at(number, stop),
    }
}

/// Why a run stopped.
fn stopped_run(breaks: &Breaks, word: Word, cause: Cause) -> Stopped
    ensures { result ≡ spec.stopped_run breaks.now word cause }
{
    match cause {
        Cause::Leaf | Cause::Choice => Stopped::There,
        Cause::Max => stopped_asked(word),
        Cause::Full => Stopped::Full,
        Cause::Start => Stopped::AtStart,
        Cause::Break(number) => stopped_break(word, number, breaks.breakpoint(number)),
    }
}

// ---- moves

/// By one step, if it is known which.
fn went_by(step: Option<Step>) -> Went
    ensures { result ≡ spec.went_by step }
{
    match step {
        None => Went::There,
        Some(step) => Went::One(step),
    }
}

/// By so many steps, on or back.
fn ran_by(word: Word, count: usize) -> Went
    ensures { result ≡ spec.ran_by word count }
{
    match word {
        Word::RunBack => Went::Back(count),
        _ => Went::On(count),
    }
}

/// A move, given how it went, the depth after it and why it went no further.
fn moved(
    alloc: Global,
    debugger: &Debugger<'_>,
    lead: Lead,
    went: Went,
    depth: usize,
    stopped: Stopped,
) -> Result<Moved, AllocError>
    ensures { IfOk result (λ moved. moved ≡ spec.moved debugger.now.trail debugger.now.world lead went depth stopped) }
{
    let news = news_by(alloc, debugger, lead.known)?;
    Ok(Moved {
        went,
        depth,
        ahead: ahead_of(debugger),
        news,
        stopped,
    })
}

// ---- breakpoints

/// Whether no statement begins at the line of a breakpoint.
fn is_idle(lines: &[usize], stop: Breakpoint) -> bool
    ensures { result ≡ spec.is_idle lines.now stop }
{
    match stop {
        Breakpoint::Line { line, .. } | Breakpoint::Match { line, .. } => !begins(lines, line),
        Breakpoint::Rank(_) | Breakpoint::Change { .. } | Breakpoint::Handle { .. } => false,
    }
}

/// The breakpoint that a word has set.
fn added_by(lines: &[usize], word: Word, number: usize) -> Carried
    ensures { result ≡ spec.added_by lines.now word number }
{
    match word {
        Word::Break(stop) => Carried::Added {
            added: Numbered { number, stop },
            is_idle: is_idle(lines, stop),
        },
        _ => Carried::Nothing,
    }
}

/// The breakpoint that a word has removed.
fn removed_by(word: Word) -> Carried
    ensures { result ≡ spec.removed_by word }
{
    match word {
        Word::Delete(number) => Carried::Removed(number),
        _ => Carried::Nothing,
    }
}

// ---- refusals

/// Whether a word asks for the step that comes next, by what is decided.
fn asks_next(decided: &Decision, word: Word) -> bool
    ensures { result ≡ moves.asks_by decided.now word }
{
    match word {
        Word::Next(None) => true,
        Word::Next(Some(_)) => single(decided).is_none(),
        _ => false,
    }
}

/// What isn't there, of a line and a rank.
fn no_place(line: usize) -> Why
    ensures { result ≡ spec.no_place line }
{
    if is_line(line) {
        Why::NoRank
    } else {
        Why::NoLine
    }
}

/// Which number is out of its range.
fn no_number(word: Word) -> Why
    ensures { result ≡ spec.no_number word }
{
    match word {
        Word::Break(Breakpoint::Line { line, .. } | Breakpoint::Match { line, .. }) => {
            no_place(line)
        }
        Word::Break(_) => Why::NoRank,
        Word::Until(_) => Why::NoLine,
        _ => Why::NoCount,
    }
}

/// Why a word is refused.
fn why_refused(is_next: bool, word: Word, refusal: Refusal) -> Why
    ensures { result ≡ spec.why_refused is_next word refusal }
{
    match refusal {
        Refusal::NotEnabled if is_next => Why::Standing,
        Refusal::NotEnabled => Why::NotEnabled,
        Refusal::Full => Why::Full,
        Refusal::AtStart => Why::FewTaken,
        Refusal::NotBefore => Why::NotKept,
        Refusal::NoRedo => Why::NoneAhead,
        Refusal::NoSuchBreak => Why::NoBreak,
        Refusal::BreaksFull => Why::BreaksFull,
        Refusal::BadNumber if is_next => Why::NoCandidate,
        Refusal::BadNumber => no_number(word),
        Refusal::NeedsChoice { .. } | Refusal::Stale { .. } => Why::Standing,
    }
}

/// A word that is refused.
fn refused_by(
    alloc: Global,
    debugger: &Debugger<'_>,
    word: Word,
    refusal: Refusal,
) -> Result<Carried, AllocError>
    ensures { IfOk result (λ carried. carried ≡ spec.refused_by (moves.asks_next debugger.now.world word) word refusal) }
{
    let decided = decide(alloc, debugger.core())?;
    let is_next = asks_next(&decided, word);
    Ok(Carried::Refused {
        why: why_refused(is_next, word, refusal),
        is_next,
    })
}

// ---- by the reply, and the session after it

/// What a move along steps ahead came to, by the session after it.
#[tactic(auto, using(crate::proofs::DoneLemmas::carrying))]
pub(crate) fn along_told(
    alloc: Global,
    session: &Session<'_>,
    lead: Lead,
    along: Along,
) -> Result<Carried, AllocError>
    ensures { IfOk result (λ carried. carried ≡ along_in session.now lead along) }
{
    let debugger = session.debugger();
    debugger.state_is_reached();
    let went = Went::On(along.steps);
    let moved = moved(alloc, debugger, lead, went, debugger.depth(), along.stopped)?;
    Ok(Carried::Moved(moved))
}

/// What a request came to that is done, given why a step that is told went no further.
fn done_by(
    alloc: Global,
    debugger: &Debugger<'_>,
    breaks: &Breaks,
    lead: Lead,
    answer: &Answer,
    stopped: Stopped,
) -> Result<Carried, AllocError>
    requires stopped { stopped ≡ spec.stopped_step debugger.now.trail breaks.now lead.step }
    ensures { IfOk result (λ carried. carried ≡ spec.done_by debugger.now.trail debugger.now.world breaks.now lead answer.now) }
{
    let lines = debugger.core().code().lines();
    let word = lead.word;
    match answer {
        Answer::Depth(depth) | Answer::Stepped { depth, .. } => {
            let went = went_by(lead.step);
            let moved = moved(alloc, debugger, lead, went, *depth, stopped)?;
            Ok(Carried::Moved(moved))
        }
        Answer::Ran { depth, stop } => {
            let Stop { steps, cause } = *stop;
            let stopped = stopped_run(breaks, word, cause);
            let moved = moved(alloc, debugger, lead, ran_by(word, steps), *depth, stopped)?;
            Ok(Carried::Moved(moved))
        }
        Answer::Added(number) => Ok(added_by(lines, word, *number)),
        Answer::Removed => Ok(removed_by(word)),
        Answer::Enabled(_)
        | Answer::State { .. }
        | Answer::Vars { .. }
        | Answer::Calls(_)
        | Answer::Partners(_)
        | Answer::Breaks(_)
        | Answer::Hit(_)
        | Answer::Explored { .. }
        | Answer::Script { .. }
        | Answer::Where { .. }
        | Answer::Decided { .. }
        | Answer::Steps { .. }
        | Answer::Lines { .. }
        | Answer::Explained(_) => Ok(Carried::Nothing),
    }
}

/// What a request came to, by its reply and the session after it.
#[tactic(auto, using(crate::proofs::DoneLemmas::carrying))]
fn carried_there(
    alloc: Global,
    session: &Session<'_>,
    lead: Lead,
    reply: &Reply,
    stopped: Stopped,
) -> Result<Carried, AllocError>
    requires stopped { stopped ≡ spec.stopped_step session.now.trail session.now.breaks lead.step }
    ensures { IfOk result (λ carried. carried ≡ carried_in session.now lead reply.now) }
{
    let debugger = session.debugger();
    debugger.state_is_reached();
    match reply {
        Reply::Refused(refusal) => refused_by(alloc, debugger, lead.word, *refusal),
        Reply::Done { answer, .. } => {
            done_by(alloc, debugger, session.breaks(), lead, answer, stopped)
        }
    }
}

/// The same. The session is as it was found. An `Err` is want of memory.
pub(crate) fn carried_by(
    alloc: Global,
    session: &mut Session<'_>,
    lead: Lead,
    reply: &Reply,
) -> Result<Carried, AllocError>
    ensures carried { IfOk result (λ carried. carried ≡ carried_in session.old lead reply.now) }
    ensures held { session.new ≡ session.old }
{
    let stopped = stopped_step(session, lead.step)?;
    carried_there(alloc, session, lead, reply, stopped)
}
