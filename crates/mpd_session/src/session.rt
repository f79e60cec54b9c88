//! A session, which answers requests one at a time.

ghost use Rattle.std.specs.Prelude.{◌≡◌, ◌<◌, ℕ, IfOk, OnOk, OnErr, true, take};
ghost use Rattle.mpd_model.specs.runs.Trail.{IsReached, IsRun, done_steps};
ghost use Rattle.mpd_trail.specs.DebuggerViews.{standing_of};
ghost use Rattle.mpd_policy.specs.Last as last;
ghost use Rattle.mpd_session.specs.Held.{opened};
ghost use Rattle.mpd_session.specs.Respond.{carried, respond, reply_to, version_then, raised, is_current, may_want, laid};

use crate::desk::{Desk, DeskFault};
use crate::effect::Effect;
use crate::limits::VERSION_MAX;
use crate::reply::{Refusal, Reply};
use crate::request::{Command, Request};
use crate::{breaks, looks, runs, steps};
use mpd_code::Code;
use mpd_model::{Mode, Step};
use mpd_policy::{Breaks, last_hit};
use mpd_trail::Debugger;
use std::alloc::{AllocError, Global};
use std::marker::Model;

/// The version after a change.
fn raised(version: u64) -> u64
    ensures { result ≡ raised version }
{
    if version == VERSION_MAX {
        return version;
    }
    version + 1
}

/// Whether a request is for a version, if it names one.
fn is_current(version: u64, at: Option<u64>) -> bool
    ensures { result ≡ is_current version at }
{
    match at {
        None => true,
        Some(at) => at == version,
    }
}

/// Raises the version if something has changed.
fn count(version: &mut u64, effect: &Effect)
    ensures { version.new ≡ version_then version.old effect.now }
{
    match effect {
        Effect::Refused(_) | Effect::Told(_) => {}
        Effect::Changed(_) => *version = raised(*version),
    }
}

/// The reply that tells what a command came to. The version is the one after it.
fn reply_with(version: u64, effect: Effect) -> Reply
    ensures { (before : ℕ) → version ≡ version_then before effect → result ≡ reply_to before effect }
{
    match effect {
        Effect::Refused(refusal) => Reply::Refused(refusal),
        Effect::Told(answer) | Effect::Changed(answer) => Reply::Done { version, answer },
    }
}

/// Carries out a command. `Err` means that memory was refused; then nothing has changed.
fn carry_out(
    alloc: Global,
    debugger: &mut Debugger<'_>,
    breaks: &mut Breaks,
    command: Command,
) -> Result<Effect, AllocError>
    ensures effect { IfOk result (λ effect. effect ≡ (carried debugger.old.trail breaks.old debugger.old.world command).0) }
    ensures trail { OnOk result (debugger.new.trail ≡ (carried debugger.old.trail breaks.old debugger.old.world command).1.0) }
    ensures breaks { OnOk result (breaks.new ≡ (carried debugger.old.trail breaks.old debugger.old.world command).1.1) }
    ensures err { OnErr result (debugger.new.trail ≡ debugger.old.trail) }
    ensures err_breaks { OnErr result (breaks.new ≡ breaks.old) }
    ensures wants { OnErr result (may_want command ≡ true) }
{
    match command {
        Command::Step(step) => steps::step(debugger, step),
        Command::Next(choice) => steps::next(alloc, debugger, choice),
        Command::Run(max) => runs::run(alloc, debugger, breaks, max),
        Command::RunOn(max) => runs::run_on(alloc, debugger, breaks, max),
        Command::Back(count) => Ok(steps::back(debugger, count)),
        Command::Redo(count) => steps::redo(debugger, count),
        Command::Goto(depth) => Ok(steps::goto(debugger, depth)),
        Command::RunBack => Ok(runs::run_back(debugger, breaks)),
        Command::Enabled => looks::enabled(alloc, debugger.core()),
        Command::State => looks::state(alloc, debugger),
        Command::Vars(rank) => looks::vars(alloc, debugger.core(), rank),
        Command::Calls(rank) => looks::calls(alloc, debugger.core(), rank),
        Command::Why(call) => looks::why(alloc, debugger.core(), call),
        Command::Break(stop) => Ok(breaks::add(debugger.core(), breaks, stop)),
        Command::Unbreak(number) => Ok(breaks::remove(breaks, number)),
        Command::Breaks => breaks::list(alloc, breaks),
        Command::Hit => breaks::hit(debugger, breaks),
        Command::Explore { runs, fuel } => looks::explore(alloc, debugger, runs, fuel),
        Command::Look(look) => looks::look(alloc, debugger, look),
    }
}

/// A debugger with up to 64 breakpoints and a version, which answers requests (docs/SESSIONS.md); contracts see what it holds.
#[derive(Drop)]
pub struct Session<'c> {
    debugger: Debugger<'c>,
    /// In a box, since their 64 places take 4,600 bytes, and a session is handed on by value.
    breaks: Box<Breaks>,
    version: u64,
}

impl<'c> Model for Session<'c> {
    ghost use Rattle.mpd_session.specs.Held.{Held, held_code};

    ghost Value = { Held };

    ghost coded = { held_code };

    ghost view = { λ s. record { trail = s.debugger.trail; breaks = s.breaks.value; version = s.version } };
}

impl<'c> Session<'c> {
    /// A session at the start of a script: no step was taken, no breakpoint is set, and the version
    /// is 0. `Err` means that memory was refused.
    pub fn start(alloc: Global, code: &'c Code, mode: Mode) -> Result<Session<'c>, AllocError>
        ensures { IfOk result (λ s. s ≡ opened code.now.program mode) }
    {
        let breaks = Box::new(alloc, Breaks::new())?;
        let debugger = Debugger::start(alloc, code, mode)?;
        Ok(Session {
            debugger,
            breaks,
            version: 0,
        })
    }

    /// The code of its script.
    pub fn code(&self) -> &'c Code
        ensures { result.now.program ≡ self.now.trail.program }
    {
        self.debugger.core().code()
    }

    /// Its debugger, to look at.
    pub fn debugger(&self) -> &Debugger<'c>
        ensures { result.now.trail ≡ self.now.trail }
    {
        &self.debugger
    }

    /// Its breakpoints, to look at.
    pub fn breaks(&self) -> &Breaks
        ensures { result.now ≡ self.now.breaks }
    {
        &self.breaks
    }

    /// The lowest of its breakpoints that the last step hits, before which a run back would stop at
    /// once; none if no step is taken, or if it hits none. The session is as it was found. `Err`
    /// means that memory was refused, which happens only if a step is taken.
    #[tactic(auto, using(crate::proofs::AnswerLemmas::found))]
    pub fn last_hit(&mut self) -> Result<Option<usize>, AllocError>
        ensures hit { IfOk result (λ hit. hit ≡ last.last_hit self.old.breaks self.old.trail) }
        ensures held { self.new ≡ self.old }
        ensures taken { OnErr result (0 < self.old.trail.depth) }
    {
        last_hit(&mut self.debugger, &self.breaks)
    }

    /// Keeps these steps in the place of those that it had: those after the depth are ahead then,
    /// as if they had been taken and taken back. They begin with the steps that are not undone, and
    /// lead on from there. It raises the version, and takes no memory.
    pub fn lay(&mut self, steps: Vec<Step>)
        requires begins { take self.old.trail.depth steps.items ≡ done_steps self.old.trail }
        requires run { IsRun self.old.trail.program self.old.trail.mode steps.items }
        ensures { self.new ≡ laid self.old steps.items }
    {
        self.debugger.put_steps(steps);
        self.version = raised(self.version);
    }

    /// Replies to a request, and does what it asks for unless it is refused (docs/SESSIONS.md,
    /// "Requests" and "Refusals"). `Err` means that memory was refused; then nothing has changed.
    #[tactic(auto, using(crate::proofs::AnswerLemmas::answering))]
    pub fn answer(&mut self, alloc: Global, request: &Request) -> Result<Reply, AllocError>
        ensures reply { IfOk result (λ reply. reply ≡ (respond self.old request.now).0) }
        ensures held { OnOk result (self.new ≡ (respond self.old request.now).1) }
        ensures err { OnErr result (self.new ≡ self.old) }
        ensures wants { OnErr result (may_want request.now.command ≡ true) }
        ensures current { OnErr result (is_current self.old.version request.now.at ≡ true) }
    {
        self.debugger.state_is_reached();
        let now = self.version;
        if !is_current(now, request.at) {
            return Ok(Reply::Refused(Refusal::Stale { now }));
        }
        let effect = carry_out(alloc, &mut self.debugger, &mut self.breaks, request.command)?;
        count(&mut self.version, &effect);
        Ok(reply_with(self.version, effect))
    }
}

impl<'c> Desk for Session<'c> {
    ghost use Rattle.mpd_session.specs.Respond.{Responds, KeepsNoHistory};

    ghost asks = { Responds };

    ghost is_full = { KeepsNoHistory };

    fn ask(&mut self, alloc: Global, request: &Request) -> Result<Reply, DeskFault> {
        match self.answer(alloc, request) {
            Ok(reply) => Ok(reply),
            Err(_) => Err(DeskFault::Memory),
        }
    }
}
