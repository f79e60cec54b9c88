//! Printed texts that need no state (docs/FORMATS.md, "Text of show").

ghost use Rattle.std.specs.Prelude.{◌≡◌, ◌++◌, IfOk, OnOk, string_bytes, codes};
ghost use Rattle.mpd_model.specs.steps.Outcomes.{ids_of};
ghost use Rattle.mpd_model.specs.texts.Texts.{id_text, step_text, send_word, recv_word, kind_text, any_text, trap_name, set_text, trapped_text, outcome_text, spaced, meant_text, compared_text};

use crate::call::{CallKind, MatchSet, Trap};
use crate::comparison::Comparison;
use crate::outcome::{IssuedCall, Outcome, TrappedRank};
use crate::step::{CallId, Step};
use std::alloc::{AllocError, Global};
use std::fmt;

impl fmt::Display for CallId {
    ghost use Rattle.std.specs.Prelude.{Some};

    ghost output = { λ c. Some (id_text c) };

    fn fmt<W: fmt::Write>(&self, f: &mut fmt::Formatter<W>) -> fmt::Result {
        write!(f, "{}.{}", self.rank, self.index)
    }
}

impl fmt::Display for Step {
    ghost use Rattle.std.specs.Prelude.{Some};

    ghost output = { λ a. Some (step_text a) };

    fn fmt<W: fmt::Write>(&self, f: &mut fmt::Formatter<W>) -> fmt::Result {
        match *self {
            Step::Local(rank) => write!(f, "local {rank}"),
            Step::Match(send, receive) => write!(f, "match {send} {receive}"),
            Step::Wake(rank) => write!(f, "wake {rank}"),
            Step::WakeAny { rank, index } => write!(f, "wakeany {rank} {index}"),
            Step::Release => write!(f, "release"),
        }
    }
}

/// A step as trace words write it. `step_of` reads it back if its numbers have at most nine digits.
/// `Err` means that memory was refused.
pub fn print_step(alloc: Global, step: Step) -> Result<String, AllocError>
    ensures { IfOk result (λ t. string_bytes t ≡ step_text step) }
{
    let mut out = String::new(alloc);
    write!(out, "{step}")?;
    Ok(out)
}

/// The word of a send: whether it is synchronous (MPI 4.0, section 3.4), and whether its rank waits for it.
pub fn send_word(synchronous: bool, blocks: bool) -> &'static str
    ensures { result.now ≡ send_word synchronous blocks }
{
    match (synchronous, blocks) {
        (false, true) => "send",
        (false, false) => "isend",
        (true, true) => "ssend",
        (true, false) => "issend",
    }
}

/// The word of a receive: `recv` if its rank waits for it, else `irecv`.
pub fn recv_word(blocks: bool) -> &'static str
    ensures { result.now ≡ recv_word blocks }
{
    if blocks { "recv" } else { "irecv" }
}

/// The source or the tag of a receive.
#[derive(Clone, Copy)]
struct NumberOrAny {
    number: Option<usize>,
}

impl fmt::Display for NumberOrAny {
    ghost use Rattle.std.specs.Prelude.{Some};

    ghost output = { λ n. Some (any_text n.number) };

    fn fmt<W: fmt::Write>(&self, f: &mut fmt::Formatter<W>) -> fmt::Result {
        match self.number {
            None => write!(f, "any"),
            Some(number) => write!(f, "{number}"),
        }
    }
}

impl fmt::Display for CallKind {
    ghost use Rattle.std.specs.Prelude.{Some};

    ghost output = { λ k. Some (kind_text k) };

    fn fmt<W: fmt::Write>(&self, f: &mut fmt::Formatter<W>) -> fmt::Result {
        match *self {
            CallKind::Send(s) => write!(
                f,
                "{} to {} tag {} value {}",
                send_word(s.synchronous, s.blocks),
                s.to,
                s.tag,
                s.value
            ),
            CallKind::Recv(r) => {
                let from = NumberOrAny { number: r.from };
                let tag = NumberOrAny { number: r.tag };
                write!(f, "{} from {from} tag {tag}", recv_word(r.blocks))
            }
            CallKind::Wait(w) => match w.target {
                None => write!(f, "wait none"),
                Some(call) => write!(f, "wait {call}"),
            },
            CallKind::Waitany(w) => {
                let note = if w.active { "" } else { " none" };
                write!(f, "waitany {} {}{note}", w.first, w.count)
            }
            CallKind::Barrier => write!(f, "barrier"),
        }
    }
}

impl fmt::Display for MatchSet {
    ghost use Rattle.std.specs.Prelude.{Some};

    ghost output = { λ m. Some (set_text m) };

    fn fmt<W: fmt::Write>(&self, f: &mut fmt::Formatter<W>) -> fmt::Result {
        match *self {
            MatchSet::Pair(send, receive) => write!(f, "pair {send} {receive}"),
            MatchSet::Woke(call) => write!(f, "woke {call}"),
            MatchSet::Barrier => write!(f, "barrier"),
        }
    }
}

impl Trap {
    /// The name that outcomes and states show, such as `zero-divisor` (docs/LANGUAGE.md, "Traps").
    pub fn name(self) -> &'static str
        ensures { result.now ≡ trap_name self }
    {
        match self {
            Trap::Overflow => "overflow",
            Trap::ZeroDivisor => "zero-divisor",
            Trap::BadRank => "bad-rank",
            Trap::BadTag => "bad-tag",
            Trap::BadIndex => "bad-index",
            Trap::Assertion => "assert",
        }
    }
}

/// How a run has ended, in one line without its end. `Err` means that memory was refused.
pub fn print_outcome(alloc: Global, outcome: &Outcome) -> Result<String, AllocError>
    ensures { IfOk result (λ t. string_bytes t ≡ outcome_text outcome.now) }
{
    let mut out = String::new(alloc);
    match outcome {
        Outcome::Done => out.push_str("done")?,
        Outcome::Leftovers(calls) => push_calls(&mut out, "leftovers", &calls.items)?,
        Outcome::Deadlock(calls) => push_calls(&mut out, "deadlock", &calls.items)?,
        Outcome::Trap(traps) => push_traps(&mut out, &traps.items)?,
    }
    Ok(out)
}

/// Adds a name, and calls with one space before each.
fn push_calls(out: &mut String, name: &str, calls: &[IssuedCall]) -> Result<(), AllocError>
    ensures { OnOk result (string_bytes out.new ≡ string_bytes out.old ++ (name.now ++ spaced id_text (ids_of calls.now))) }
{
    out.push_str(name)?;
    for call in calls {
        let id = call.id;
        write!(out, " {id}")?;
    }
    Ok(())
}

/// Adds trapped ranks with their traps.
fn push_traps(out: &mut String, traps: &[TrappedRank]) -> Result<(), AllocError>
    ensures { OnOk result (string_bytes out.new ≡ string_bytes out.old ++ (codes "trap" ++ spaced trapped_text traps.now)) }
{
    out.push_str("trap")?;
    for trapped in traps {
        let rank = trapped.rank;
        let name = trapped.trap.name();
        write!(out, " {rank} {name}")?;
    }
    Ok(())
}

/// Adds which rank is meant, ` rank 1`, and nothing where none is. An `Err` is want of memory.
pub fn push_meant(out: &mut String, of: Option<usize>) -> Result<(), AllocError>
    ensures { OnOk result (string_bytes out.new ≡ string_bytes out.old ++ meant_text of) }
{
    match of {
        None => Ok(()),
        Some(rank) => write!(out, " rank {rank}"),
    }
}

/// Adds an operator and a number, ` == 3`. An `Err` is want of memory.
pub fn push_compared(out: &mut String, comparison: Comparison, value: i64) -> Result<(), AllocError>
    ensures { OnOk result (string_bytes out.new ≡ string_bytes out.old ++ compared_text comparison value) }
{
    let operator = comparison.text();
    write!(out, " {operator} {value}")
}
