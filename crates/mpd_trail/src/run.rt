//! Lists of steps taken, taken back and taken again: the replies, and where they lead.

ghost use Rattle.std.specs.Prelude.{◌≡◌, ◌<◌, ◌≤◌, ◌+◌, ℕ, length, Some, [], IfOk, OnOk, OnErr};
ghost use Rattle.std.specs.List.{AllByRecursion};
ghost use Rattle.mpd_model.specs.steps.World.{start};
ghost use Rattle.mpd_model.specs.steps.Next.{fold};
ghost use Rattle.mpd_model.specs.runs.Trail.{done_steps, opening, IsReached};
ghost use Rattle.mpd_trail.specs.Run.{Answers, Carried, IsGiven, Run, RunFrom, SameScript, Stays, Written, steps_in, taken};
ghost use Rattle.mpd_trail.specs.DebuggerViews.{place_of, standing_of};

use crate::debugger::{ApplyFault, Debugger, RedoFault};
use mpd_code::Code;
use mpd_model::{Mode, Step};
use std::alloc::{AllocError, Global};

/// What is asked of a debugger.
#[derive(Clone, Copy, Debug, PartialEq, Eq)]
pub enum TrailCommand {
    /// Take a step.
    Apply(Step),
    /// Take the last step back.
    Undo,
    /// Take the step again that was undone last.
    Redo,
    /// Take steps back until this many are left that are not undone.
    UndoTo(usize),
}

/// What it replies.
#[derive(Clone, Copy, Debug, PartialEq, Eq)]
pub enum Reply {
    Done,
    NotEnabled,
    Full,
    AtStart,
    NoRedo,
    NotBefore,
    Memory,
}

/// Carries out one command: the reply, the steps kept and the depth are those of docs/DEFINITIONS.md, "Trails".
#[tactic(auto, using(crate::proofs::RunLemmas::answering))]
pub fn answer(debugger: &mut Debugger<'_>, command: TrailCommand) -> Reply
    ensures answers { Answers debugger.old.trail command result debugger.new.trail }
    ensures carried { Carried (standing_of debugger.old) command result (standing_of debugger.new) }
    ensures memory { result ≡ Reply.Memory → debugger.old.room ≡ 0 }
    ensures room_left { debugger.old.room ≤ debugger.new.room + taken command result }
    ensures writes { Written debugger.old.trail.program.ranks (done_steps debugger.old.trail) command result (done_steps debugger.new.trail) debugger.old.writes debugger.new.writes }
    ensures script { SameScript debugger.old.trail debugger.new.trail }
    ensures reached { IsReached (standing_of debugger.new) }
{
    debugger.state_is_reached();
    match command {
        TrailCommand::Apply(step) => match debugger.apply(step) {
            Ok(()) => Reply::Done,
            Err(ApplyFault::NotEnabled) => Reply::NotEnabled,
            Err(ApplyFault::Full) => Reply::Full,
            Err(ApplyFault::Memory) => Reply::Memory,
        },
        TrailCommand::Undo => match debugger.undo() {
            Ok(()) => Reply::Done,
            Err(_) => Reply::AtStart,
        },
        TrailCommand::Redo => match debugger.redo() {
            Ok(()) => Reply::Done,
            Err(RedoFault::NoRedo) => Reply::NoRedo,
            Err(RedoFault::Memory) => Reply::Memory,
        },
        TrailCommand::UndoTo(depth) => match debugger.undo_to(depth) {
            Ok(()) => Reply::Done,
            Err(_) => Reply::NotBefore,
        },
    }
}

/// Carries out a list of commands, with the reply to each. A reply is `Memory` only if no room was
/// left, so none is if room was reserved for as many steps as the list takes. `Err` means that
/// memory for the replies was refused; then no command was carried out.
#[tactic(auto, using(crate::proofs::RunLemmas::spending))]
pub fn follow(
    alloc: Global,
    debugger: &mut Debugger<'_>,
    commands: &[TrailCommand],
) -> Result<Vec<Reply>, AllocError>
    ensures run { IfOk result (λ replies. Run (place_of debugger.old) commands.now replies.items (place_of debugger.new)) }
    ensures given { IfOk result (λ replies. steps_in commands.now ≤ debugger.old.room → AllByRecursion IsGiven replies.items) }
    ensures room_left { debugger.old.room ≤ debugger.new.room + steps_in commands.now }
    ensures script { SameScript debugger.old.trail debugger.new.trail }
    ensures reached { IsReached (standing_of debugger.new) }
    ensures err { OnErr result (Stays (standing_of debugger.old) (standing_of debugger.new)) }
    ensures err_writes { OnErr result (debugger.new.writes ≡ debugger.old.writes) }
    ensures memory { OnErr result (0 < length commands.now) }
{
    debugger.state_is_reached();
    let mut replies = Vec::with_capacity(alloc, commands.len())?;
    for command in commands {
        replies.push_reserved(answer(debugger, *command));
    }
    Ok(replies)
}

/// Carries out a list of commands as `follow` does, and reserves room for a step before each, so
/// that none is refused memory. `Err` means that memory for the replies or for a step was refused;
/// the commands before that were carried out.
#[tactic(auto, using(crate::proofs::RunLemmas::keeping_room))]
fn follow_with_room(
    alloc: Global,
    debugger: &mut Debugger<'_>,
    commands: &[TrailCommand],
) -> Result<Vec<Reply>, AllocError>
    ensures run { IfOk result (λ replies. RunFrom debugger.old.trail debugger.old.writes commands.now replies.items (place_of debugger.new)) }
    ensures given { IfOk result (λ replies. AllByRecursion IsGiven replies.items) }
    ensures script { OnOk result (SameScript debugger.old.trail debugger.new.trail) }
    ensures reached { OnOk result (IsReached (standing_of debugger.new)) }
{
    let mut answered = Vec::with_capacity(alloc, commands.len())?;
    debugger.keep_room()?;
    for command in commands {
        let reply = answer(debugger, *command);
        debugger.keep_room()?;
        answered.push_reserved(reply);
    }
    Ok(answered)
}

/// The headline: from the start of any script, a list of steps taken, taken back and taken again
/// gets the replies of docs/DEFINITIONS.md, "Trails", each within its writes and its room, and the
/// state in the end is exactly if the relation of steps leads along those not undone. Room for a
/// step is reserved before each command, so none of them is refused memory. `Err` means that memory
/// was refused.
#[tactic(auto, using(crate::proofs::RunLemmas::replaying))]
pub fn replay<'c>(
    alloc: Global,
    code: &'c Code,
    mode: Mode,
    commands: &[TrailCommand],
) -> Result<(Debugger<'c>, Vec<Reply>), AllocError>
    ensures run { IfOk result (λ r. RunFrom (opening code.now.program mode) 0 commands.now r.1.items (place_of r.0)) }
    ensures given { IfOk result (λ r. AllByRecursion IsGiven r.1.items) }
    ensures world { IfOk result (λ r. fold (start code.now.program mode) (done_steps r.0.trail) ≡ Some r.0.world) }
    ensures script { IfOk result (λ r. (r.0.trail.program ≡ code.now.program) × (r.0.trail.mode ≡ mode)) }
    ensures reached { IfOk result (λ r. IsReached (standing_of r.0)) }
{
    let mut debugger = Debugger::start(alloc, code, mode)?;
    let replies = follow_with_room(alloc, &mut debugger, commands)?;
    Ok((debugger, replies))
}
