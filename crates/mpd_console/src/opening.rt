//! Opens a console: at the start of a script, or with steps ahead, of a witness or of any run.

ghost use Rattle.std.specs.Prelude.{◌≡◌, ◌≤◌, ℕ, IfOk, IsErrOf, length};
ghost use Rattle.mpd_model.specs.steps.World.{start};
ghost use Rattle.mpd_model.specs.runs.Trail.{IsRun};
ghost use Rattle.mpd_explore.specs.Witness.{IsEndWitness};
ghost use Rattle.mpd_session.specs.Held.{opened};
ghost use Rattle.mpd_session.specs.Respond.{laid};
ghost use Rattle.mpd_runs.specs.Given.{StopsAt};
ghost use Rattle.mpd_runs.specs.Seek.{EndsAs, LeadsTo};
ghost use Rattle.mpd_console.specs.Says as says;
ghost use Rattle.mpd_console.specs.Says.{TellsRun, TellsWitness};

use crate::desk::{ConsoleDesk, Screen};
use crate::prompts::{idle_bytes, prompt_in};
use crate::saying::laid_bytes;
use crate::told::{First, Laid};
use mpd_code::Subject;
use mpd_explore::{EndWitness, Ending, WitnessFault, verify_end};
use mpd_model::{STEPS_MAX, Step, StepList};
use mpd_runs::{StepsFault, take_steps};
use mpd_session::Session;
use mpd_trail::Debugger;
use std::alloc::{AllocError, Global};

/// Why no console is opened.
#[derive(Clone, Copy)]
pub enum OpenFault {
    /// The witness is refused.
    Refused(WitnessFault),
    /// The witness has more than 1,000,000 steps.
    TooLong,
    /// Memory was refused.
    Memory,
}

/// A console, and what it says first.
#[derive(Drop)]
pub struct Opened<'c, 't> {
    pub desk: ConsoleDesk<'c, 't>,
    /// What it tells first.
    pub first: First,
    /// That in words.
    pub said: Vec<u8>,
}

/// A console at the start of a script, given its text. It says a prompt, if prompts are wanted.
pub fn open<'c, 't>(
    alloc: Global,
    subject: Subject<'c>,
    screen: Screen<'t>,
) -> Result<Opened<'c, 't>, OpenFault>
    ensures desk { IfOk result (λ o. o.desk ≡ says.console_of (opened subject.entry.code.now.program subject.entry.mode) screen.entry.script.now screen.entry.look) }
    ensures first { IfOk result (λ o. o.first ≡ First.Nothing) }
{
    let Ok(session) = Session::start(alloc, subject.code, subject.mode) else {
        return Err(OpenFault::Memory);
    };
    let Ok(said) = idle_bytes(alloc, prompt_in(&session, screen.look.is_prompting)) else {
        return Err(OpenFault::Memory);
    };
    Ok(Opened {
        desk: ConsoleDesk::new(alloc, session, screen),
        first: First::Nothing,
        said,
    })
}

/// Checks a witness for a script, of which no more steps are taken than a debugger has room for.
fn check_witness(alloc: Global, subject: Subject<'_>, witness: &EndWitness) -> Result<(), OpenFault>
    ensures is { IfOk result (λ _. IsEndWitness subject.entry.code.now.program subject.entry.mode witness.now) }
    ensures fits { IfOk result (λ _. length witness.now.steps ≤ STEPS_MAX) }
{
    if witness.steps.items.len() > STEPS_MAX {
        return Err(OpenFault::TooLong);
    }
    match verify_end(alloc, subject.code, subject.mode, witness) {
        Ok(()) => Ok(()),
        Err(WitnessFault::Memory) => Err(OpenFault::Memory),
        Err(fault) => Err(OpenFault::Refused(fault)),
    }
}

/// A console on a session with steps ahead. It says how the run ends that they make, and where it
/// stands. `Err` means that memory was refused.
fn console_before<'c, 't>(
    alloc: Global,
    session: Session<'c>,
    screen: Screen<'t>,
    run: Laid,
) -> Result<Opened<'c, 't>, AllocError>
    ensures desk { IfOk result (λ o. o.desk ≡ says.console_of session.entry screen.entry.script.now screen.entry.look) }
    ensures first { IfOk result (λ o. o.first ≡ First.Ahead run) }
{
    match laid_bytes(alloc, &session, screen, &run) {
        Ok(said) => Ok(Opened {
            desk: ConsoleDesk::new(alloc, session, screen),
            first: First::Ahead(run),
            said,
        }),
        Err(error) => {
            drop(session);
            Err(error)
        }
    }
}

/// A console at the start of a script, with steps ahead that can be taken from there, given how the
/// run ends that they make. `Err` means that memory was refused.
fn console_along<'c, 't>(
    alloc: Global,
    subject: Subject<'c>,
    screen: Screen<'t>,
    steps: StepList,
    ending: Ending,
) -> Result<Opened<'c, 't>, AllocError>
    requires { IsRun subject.code.now.program subject.mode steps }
    ensures desk { IfOk result (λ o. o.desk ≡ says.console_of (laid (opened subject.entry.code.now.program subject.entry.mode) steps) screen.entry.script.now screen.entry.look) }
    ensures first { IfOk result (λ o. o.first ≡ First.Ahead (says.run_ahead steps ending)) }
{
    let mut session = Session::start(alloc, subject.code, subject.mode)?;
    let ahead = steps.items.len();
    session.lay(steps.items);
    let run = Laid {
        number: None,
        ending,
        ahead,
    };
    console_before(alloc, session, screen, run)
}

/// How the run ends that a debugger has made: in the outcome of its state, or it is cut, if a step
/// is still enabled. `Err` means that memory was refused.
fn ending_there(alloc: Global, debugger: &Debugger<'_>) -> Result<Ending, AllocError>
    ensures { IfOk result (EndsAs debugger.now.world) }
{
    match debugger.core().outcome(alloc)? {
        Some(outcome) => Ok(Ending::Ended(outcome)),
        None => Ok(Ending::Cut),
    }
}

/// Takes steps one after another, and tells how the run ends that they make.
#[tactic(auto, using(crate::proofs::OpeningLemmas::opening))]
fn ending_behind(
    alloc: Global,
    debugger: &mut Debugger<'_>,
    steps: &[Step],
) -> Result<Ending, StepsFault>
    ensures few { IfOk result (λ _. length steps.now ≤ STEPS_MAX) }
    ensures ends { IfOk result (LeadsTo debugger.old.world steps.now) }
    ensures not_enabled { (place : ℕ) → IsErrOf result (StepsFault.NotEnabled place) → StopsAt debugger.old.world steps.now place }
{
    take_steps(debugger, steps)?;
    debugger.state_is_reached();
    match ending_there(alloc, debugger) {
        Ok(ending) => Ok(ending),
        Err(_) => Err(StepsFault::Memory),
    }
}

/// How the run ends that some steps make from the start of a script.
#[tactic(auto, using(crate::proofs::OpeningLemmas::opening))]
fn ending_along(alloc: Global, subject: Subject<'_>, steps: &[Step]) -> Result<Ending, StepsFault>
    ensures run { IfOk result (λ _. IsRun subject.entry.code.now.program subject.entry.mode steps.now) }
    ensures ends { IfOk result (LeadsTo (start subject.entry.code.now.program subject.entry.mode) steps.now) }
    ensures not_enabled { (place : ℕ) → IsErrOf result (StepsFault.NotEnabled place) → StopsAt (start subject.entry.code.now.program subject.entry.mode) steps.now place }
{
    let Ok(mut debugger) = Debugger::start(alloc, subject.code, subject.mode) else {
        return Err(StepsFault::Memory);
    };
    let ending = ending_behind(alloc, &mut debugger, steps);
    drop(debugger);
    ending
}

/// A console at the start of a script, with steps ahead, which are taken once to see that they can
/// be. It says how the run ends that they make, and where it stands: at the start. `NotEnabled` tells
/// the first step that isn't enabled where it stands, `Full` that there are more than 1,000,000.
#[tactic(auto, using(crate::proofs::OpeningLemmas::opening))]
pub fn open_along<'c, 't>(
    alloc: Global,
    subject: Subject<'c>,
    screen: Screen<'t>,
    steps: StepList,
) -> Result<Opened<'c, 't>, StepsFault>
    ensures run { IfOk result (λ _. IsRun subject.entry.code.now.program subject.entry.mode steps) }
    ensures desk { IfOk result (λ o. o.desk ≡ says.console_of (laid (opened subject.entry.code.now.program subject.entry.mode) steps) screen.entry.script.now screen.entry.look) }
    ensures first { IfOk result (λ o. TellsRun subject.entry.code.now.program subject.entry.mode steps o.first) }
    ensures not_enabled { (place : ℕ) → IsErrOf result (StepsFault.NotEnabled place) → StopsAt (start subject.entry.code.now.program subject.entry.mode) steps place }
{
    let ending = ending_along(alloc, subject, &steps.items)?;
    match console_along(alloc, subject, screen, steps, ending) {
        Ok(opened) => Ok(opened),
        Err(_) => Err(StepsFault::Memory),
    }
}

/// A console at the start of a script, with the steps of a witness ahead, which it is checked for
/// first (docs/DEFINITIONS.md, "Witnesses"). It says how the run ends that they make, which is what
/// the witness leads to, and where it stands.
#[tactic(auto, using(crate::proofs::OpeningLemmas::witnessing))]
pub fn open_with<'c, 't>(
    alloc: Global,
    subject: Subject<'c>,
    screen: Screen<'t>,
    witness: EndWitness,
) -> Result<Opened<'c, 't>, OpenFault>
    ensures is { IfOk result (λ _. IsEndWitness subject.entry.code.now.program subject.entry.mode witness) }
    ensures desk { IfOk result (λ o. o.desk ≡ says.console_of (laid (opened subject.entry.code.now.program subject.entry.mode) witness.steps) screen.entry.script.now screen.entry.look) }
    ensures first { IfOk result (λ o. TellsWitness subject.entry.code.now.program subject.entry.mode witness o.first) }
{
    check_witness(alloc, subject, &witness)?;
    let EndWitness { steps, end } = witness;
    drop(end);
    match open_along(alloc, subject, screen, steps) {
        Ok(opened) => Ok(opened),
        Err(StepsFault::NotEnabled(place)) => {
            Err(OpenFault::Refused(WitnessFault::NoSuchStep(place)))
        }
        Err(StepsFault::Full) => Err(OpenFault::TooLong),
        Err(StepsFault::Memory) => Err(OpenFault::Memory),
    }
}
