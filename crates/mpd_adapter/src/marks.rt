//! The breakpoints that an editor sets (docs/ADAPTER.md, "Breakpoints").

ghost use Rattle.std.specs.Prelude.{◌≡◌, ◌∷◌, ◌+◌, ◌++◌, ◌<◌, ◌≤◌, [], map, length, false, Some, IfOk, OnOk, OnErr, vec_len, vec_capacity};
ghost use Rattle.mpd_session.specs.Respond.{may_want};
ghost use Rattle.mpd_adapter.specs.Marks as spec;

use crate::numbers::from_one;
use mpd_code::Code;
use mpd_console::ConsoleDesk;
use mpd_dap::{Mark, Trouble, Wanted};
use mpd_model::{BREAKS_MAX, Breakpoint};
use mpd_session::{Answer, Command, Refusal, Reply, Request};
use mpd_vocabulary::{When, condition_in, when_in};
use std::alloc::{AllocError, Global};

/// What a breakpoint that is wanted comes to, before any is set.
#[derive(Clone, Copy)]
pub enum Plan {
    /// It can't be set.
    Fails {
        /// The line as it was given.
        given: usize,
        /// Why not.
        trouble: Trouble,
    },
    /// It is to be set.
    Sets {
        /// The line as it was given.
        given: usize,
        /// The line of it, from 1.
        line: usize,
        /// When it stops there.
        when: When,
    },
}

/// Asks a session for what takes no memory.
#[tactic(auto, using(crate::proofs::MarkLemmas::never_wants))]
fn ask(console: &mut ConsoleDesk<'_, '_>, alloc: Global, command: Command) -> Reply
    requires { may_want command ≡ false }
    ensures reply { result ≡ spec.replied console.old.session command }
    ensures held { console.new ≡ record console.old { session = spec.asked console.old.session command } }
{
    let request = Request { command, at: None };
    match console.ask(alloc, &request) {
        Ok(reply) => reply,
        Err(_) => unreachable!(),
    }
}

/// Whether a breakpoint is of kind `line`.
fn is_of_line(stop: Option<Breakpoint>) -> bool
    ensures { result ≡ spec.is_of_line stop }
{
    matches!(stop, Some(Breakpoint::Line { .. }))
}

/// Removes the breakpoint of a number, if it is of kind `line`.
#[tactic(auto, using(crate::proofs::MarkLemmas::removing))]
fn remove(console: &mut ConsoleDesk<'_, '_>, alloc: Global, number: usize)
    ensures { console.new ≡ record console.old { session = spec.without console.old.session number } }
{
    if is_of_line(console.session().breaks().breakpoint(number)) {
        let _ = ask(console, alloc, Command::Unbreak(number));
    }
}

/// Removes all breakpoints of kind `line`.
fn remove_lines(console: &mut ConsoleDesk<'_, '_>, alloc: Global)
    ensures { console.new ≡ record console.old { session = spec.without_lines console.old.session } }
{
    let count = BREAKS_MAX;
    for number in 0..count {
        remove(console, alloc, number);
    }
}

/// The lesser of two numbers, or the one that is there.
fn nearest(one: Option<usize>, other: Option<usize>) -> Option<usize>
    ensures { result ≡ spec.nearest one other }
{
    match (one, other) {
        (None, _) => other,
        (Some(n), Some(k)) if k < n => other,
        (Some(_), _) => one,
    }
}

/// A line, if it doesn't stand above another.
fn from_on(from: usize, line: usize) -> Option<usize>
    ensures { result ≡ spec.from_on from line }
{
    if line < from {
        return None;
    }
    Some(line)
}

/// The least of some lines from one on.
fn line_from(from: usize, lines: &[usize]) -> Option<usize>
    ensures { result ≡ spec.line_from from lines.now }
{
    let mut found = None;
    for line in lines {
        found = nearest(found, from_on(from, *line));
    }
    found
}

/// When a breakpoint stops that has a condition, before which `if` may be left out.
fn when_for(code: &Code, condition: &[u8]) -> Option<When>
    ensures { result ≡ spec.when_for code.now.program.decls (Some condition.now) }
{
    match when_in(code, 0, condition) {
        Ok(when) => Some(when),
        Err(_) => match condition_in(code, 0, condition) {
            Ok(condition) => Some(When {
                of: None,
                condition: Some(condition),
            }),
            Err(_) => None,
        },
    }
}

/// The same of what is wanted, which may have no condition.
fn when_of(code: &Code, wanted: &Wanted) -> Option<When>
    ensures { result ≡ spec.when_for code.now.program.decls wanted.now.condition }
{
    match &wanted.condition {
        None => Some(When {
            of: None,
            condition: None,
        }),
        Some(condition) => when_for(code, condition.as_str().as_bytes()),
    }
}

/// What a breakpoint that is wanted comes to.
fn plan_of(code: &Code, wanted: &Wanted) -> Plan
    ensures { result ≡ spec.plan_of code.now.program wanted.now }
{
    let given = wanted.line;
    let Some(line) = line_from(given, code.lines()) else {
        let trouble = Trouble::NoStatement;
        return Plan::Fails { given, trouble };
    };
    match when_of(code, wanted) {
        None => {
            let trouble = Trouble::BadCondition;
            Plan::Fails { given, trouble }
        }
        Some(when) => Plan::Sets { given, line, when },
    }
}

/// What all that are wanted come to.
fn plans_of(alloc: Global, code: &Code, wanted: &[Wanted]) -> Result<Vec<Plan>, AllocError>
    ensures { IfOk result (λ plans. plans.items ≡ map (spec.plan_of code.now.program) wanted.now) }
{
    let mut plans = Vec::new(alloc);
    for one in wanted {
        plans.push(plan_of(code, one))?;
    }
    Ok(plans)
}

/// The breakpoint of a line that stops so.
fn stop_at(line: usize, when: When) -> Breakpoint
    ensures { result ≡ spec.stop_at line when }
{
    Breakpoint::Line {
        line,
        of: when.of,
        when: when.condition,
    }
}

/// What becomes of a breakpoint, by the reply to the request for it.
fn mark_by(given: usize, line: usize, reply: &Reply) -> Mark
    ensures { result ≡ spec.mark_by given line reply.now }
{
    match reply {
        Reply::Done {
            version: _,
            answer: Answer::Added(number),
        } => Mark::Set {
            id: from_one(*number),
            line,
        },
        Reply::Refused(Refusal::BreaksFull) => Mark::Unset {
            line: given,
            trouble: Trouble::Full,
        },
        _ => Mark::Unset {
            line: given,
            trouble: Trouble::BadCondition,
        },
    }
}

/// Sets a breakpoint, if it can be, and tells what becomes of it.
fn set(console: &mut ConsoleDesk<'_, '_>, alloc: Global, plan: Plan) -> Mark
    ensures mark { result ≡ spec.mark_of console.old.session plan }
    ensures held { console.new ≡ record console.old { session = spec.held_after console.old.session plan } }
{
    match plan {
        Plan::Fails { given, trouble } => Mark::Unset {
            line: given,
            trouble,
        },
        Plan::Sets { given, line, when } => {
            let reply = ask(console, alloc, Command::Break(stop_at(line, when)));
            mark_by(given, line, &reply)
        }
    }
}

/// Adds a mark for which there is room, so it takes no memory.
fn put(marks: &mut Vec<Mark>, mark: Mark)
    requires { vec_len marks.old < vec_capacity marks.old }
    ensures items { marks.new.items ≡ marks.old.items ++ mark ∷ [] }
    ensures len { vec_len marks.new ≡ vec_len marks.old + 1 }
    ensures capacity { vec_capacity marks.old ≤ vec_capacity marks.new }
{
    match marks.push(mark) {
        Ok(()) => {}
        Err(_) => unreachable!(),
    }
}

/// Sets one breakpoint after another, and adds what becomes of each, for which there is room.
fn set_all(console: &mut ConsoleDesk<'_, '_>, alloc: Global, plans: &[Plan], marks: &mut Vec<Mark>)
    requires none { vec_len marks.old ≡ 0 }
    requires empty { marks.old.items ≡ [] }
    requires room { length plans.now ≤ vec_capacity marks.old }
    ensures marks { marks.new.items ≡ spec.marks_of console.old.session plans.now }
    ensures held { console.new ≡ record console.old { session = spec.held_after_all console.old.session plans.now } }
{
    for plan in plans {
        let mark = set(console, alloc, *plan);
        put(marks, mark);
    }
}

/// That what is wanted is of another script.
fn of_another(wanted: &Wanted) -> Mark
    ensures { result ≡ spec.of_another wanted.now }
{
    Mark::Unset {
        line: wanted.line,
        trouble: Trouble::AnotherScript,
    }
}

/// That all that are wanted are of another script.
fn all_of_another(alloc: Global, wanted: &[Wanted]) -> Result<Vec<Mark>, AllocError>
    ensures { IfOk result (λ marks. marks.items ≡ map spec.of_another wanted.now) }
{
    let mut marks = Vec::new(alloc);
    for one in wanted {
        marks.push(of_another(one))?;
    }
    Ok(marks)
}

/// Sets the breakpoints that are wanted in the place of those of kind `line`, if they are of the
/// script, and tells what becomes of each. An `Err` is want of memory, and then nothing has changed.
#[tactic(auto, using(crate::proofs::MarkLemmas::marking))]
pub(crate) fn set_marks(
    console: &mut ConsoleDesk<'_, '_>,
    alloc: Global,
    is_own: bool,
    wanted: &[Wanted],
) -> Result<Vec<Mark>, AllocError>
    ensures marks { IfOk result (λ marks. marks.items ≡ spec.marks_in is_own console.old.session wanted.now) }
    ensures held { OnOk result (console.new ≡ record console.old { session = spec.marked is_own console.old.session wanted.now }) }
    ensures err { OnErr result (console.new ≡ console.old) }
{
    if !is_own {
        return all_of_another(alloc, wanted);
    }
    let plans = plans_of(alloc, console.session().code(), wanted)?;
    let mut marks = Vec::with_capacity(alloc, plans.len())?;
    remove_lines(console, alloc);
    set_all(console, alloc, &plans, &mut marks);
    Ok(marks)
}
