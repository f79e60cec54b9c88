//! Why and where a session stands still, as the event `stopped` tells it (docs/ADAPTER.md, "Stops").

ghost use Rattle.std.specs.Prelude.{◌≡◌, ◌++◌, IfOk, OnOk, string_bytes};
ghost use Rattle.serde_json.specs.View.{view};
ghost use Rattle.mpd_model.specs.runs.Decisions.{decision};
ghost use Rattle.mpd_adapter.specs.Halts as spec;

use crate::moves::After;
use crate::numbers::thread_of;
use mpd_console::{finish_rank, rank_of};
use mpd_dap::{Json, Reason, stopped};
use mpd_model::{Decision, Outcome, Step};
use mpd_policy::decide;
use mpd_session::Session;
use mpd_trail::Debugger;
use std::alloc::{AllocError, Global};

/// Why a session stands still. Ranks count from 0.
#[derive(Clone, Copy)]
pub enum Halt {
    /// The run has ended in a deadlock, of whose ranks this is the first.
    Deadlock(usize),
    /// The run has ended in a trap, of whose ranks this is the first.
    Trap(usize),
    /// The run has ended otherwise, and no call is left over.
    Done,
    /// The run has ended otherwise, and calls are left over.
    Leftovers,
    /// Of two candidates or more one has to be chosen, for a call of this rank.
    Choice(usize),
    /// No step is taken.
    Start,
    /// A run has come to its end, with a step of this rank.
    Breakpoint(usize),
    /// A step of this rank was asked for.
    Step(usize),
    /// Something else has led there.
    Jumped,
}

impl Halt {
    /// The reason, as `stopped` names it.
    pub fn reason(self) -> Reason
        ensures { result ≡ spec.reason self }
    {
        match self {
            Halt::Deadlock(_) | Halt::Trap(_) => Reason::Exception,
            Halt::Done | Halt::Leftovers => Reason::End,
            Halt::Choice(_) => Reason::Choice,
            Halt::Start => Reason::Entry,
            Halt::Breakpoint(_) => Reason::Breakpoint,
            Halt::Step(_) => Reason::Step,
            Halt::Jumped => Reason::Goto,
        }
    }

    /// The rank, from 0; the first where it is about none.
    pub fn rank(self) -> usize
        ensures { result ≡ spec.halt_rank self }
    {
        match self {
            Halt::Deadlock(rank) | Halt::Trap(rank) | Halt::Choice(rank) => rank,
            Halt::Breakpoint(rank) | Halt::Step(rank) => rank,
            Halt::Done | Halt::Leftovers | Halt::Start | Halt::Jumped => 0,
        }
    }
}

/// Adds the description, as `stopped` has it, where so many steps are not undone. An `Err` is want of memory.
pub(crate) fn push_description(out: &mut String, halt: Halt, depth: usize) -> Result<(), AllocError>
    ensures { OnOk result (string_bytes out.new ≡ string_bytes out.old ++ spec.description depth halt) }
{
    match halt {
        Halt::Deadlock(_) => out.push_str("deadlock"),
        Halt::Trap(_) => out.push_str("trap"),
        Halt::Done => out.push_str("done"),
        Halt::Leftovers => out.push_str("leftovers"),
        Halt::Choice(_) => out.push_str("choice"),
        Halt::Start => out.push_str("start"),
        Halt::Breakpoint(_) | Halt::Step(_) | Halt::Jumped => write!(out, "depth {depth}"),
    }
}

/// The rank, or the one that is meant where there is none.
fn rank_or(other: usize, rank: Option<usize>) -> usize
    ensures { result ≡ spec.rank_or other rank }
{
    match rank {
        None => other,
        Some(rank) => rank,
    }
}

/// Where a run has ended.
fn ended(outcome: &Outcome) -> Halt
    ensures { result ≡ spec.ended outcome.now }
{
    match outcome {
        Outcome::Done => Halt::Done,
        Outcome::Leftovers(_) => Halt::Leftovers,
        Outcome::Deadlock(calls) => match calls.items.first() {
            None => Halt::Deadlock(0),
            Some(call) => Halt::Deadlock(call.id.rank),
        },
        Outcome::Trap(traps) => match traps.items.first() {
            None => Halt::Trap(0),
            Some(trap) => Halt::Trap(trap.rank),
        },
    }
}

/// Where a session stands that has neither ended nor has a choice open, by the rank of its last step.
fn moved(after: After, last: Option<usize>) -> Halt
    ensures { result ≡ spec.moved after last }
{
    match after {
        After::Run(rank) => Halt::Breakpoint(rank_or(rank, last)),
        After::Step(rank) => Halt::Step(rank),
        After::Jump => Halt::Jumped,
    }
}

/// The same, by its debugger.
fn on_the_way(debugger: &Debugger<'_>, after: After) -> Halt
    ensures { result ≡ spec.on_the_way after debugger.now.trail }
{
    if debugger.depth() == 0 {
        return Halt::Start;
    }
    moved(after, finish_rank(debugger, None))
}

/// Where a session stands that has these candidates.
fn chosen(debugger: &Debugger<'_>, after: After, candidates: &[Step]) -> Halt
    ensures { result ≡ spec.chosen after debugger.now.trail candidates.now }
{
    if candidates.len() < 2 || debugger.next_undone().is_some() {
        return on_the_way(debugger, after);
    }
    Halt::Choice(rank_or(0, rank_of(candidates[0])))
}

/// Where a session stands, by its debugger, given what it stands still after. An `Err` is want of memory.
pub(crate) fn halt_of(
    alloc: Global,
    debugger: &Debugger<'_>,
    after: After,
) -> Result<Halt, AllocError>
    ensures { IfOk result (λ halt. halt ≡ spec.halt_at after debugger.now.trail (decision debugger.now.world)) }
{
    let decided = decide(alloc, debugger.core())?;
    Ok(match &decided {
        Decision::Leaf(outcome) => ended(outcome),
        Decision::Choice(candidates) => chosen(debugger, after, &candidates.items),
        Decision::Forced(_) => on_the_way(debugger, after),
    })
}

/// Where a session stands. An `Err` is want of memory.
#[tactic(auto, using(crate::proofs::SeenLemmas::halt_seen))]
fn halt_in(alloc: Global, session: &Session<'_>, after: After) -> Result<Halt, AllocError>
    ensures { IfOk result (λ halt. halt ≡ spec.halt_in after session.now) }
{
    let debugger = session.debugger();
    debugger.state_is_reached();
    halt_of(alloc, debugger, after)
}

/// The description of where a session stands, which has so many steps that are not undone.
fn description_of(alloc: Global, halt: Halt, depth: usize) -> Result<String, AllocError>
    ensures { IfOk result (λ told. string_bytes told ≡ spec.description depth halt) }
{
    let mut told = String::new(alloc);
    push_description(&mut told, halt, depth)?;
    Ok(told)
}

/// The body of the event that tells where a session stands. An `Err` is want of memory.
#[tactic(auto, using(crate::proofs::SeenLemmas::stopped_seen))]
pub(crate) fn stopped_in(
    alloc: Global,
    session: &Session<'_>,
    after: After,
) -> Result<Json, AllocError>
    ensures { IfOk result (λ body. view body.value ≡ spec.stopped_in after session.now) }
{
    let halt = halt_in(alloc, session, after)?;
    let told = description_of(alloc, halt, session.debugger().depth())?;
    stopped(alloc, halt.reason(), told.as_str(), thread_of(halt.rank()))
}
