//! The words of a run, written to a sink.

ghost use Rattle.std.specs.Prelude.{◌≡◌, ◌≤◌, ◌++◌, ℕ, Some, None, IfOk, OnOk, IsErrOf, string_bytes};
ghost use Rattle.mpd_model.specs.steps.World.{start};
ghost use Rattle.mpd_policy.specs.Walk.{Run, run_by};
ghost use Rattle.mpd_runs.specs.Place.{bad_place};
ghost use Rattle.mpd_runs.specs.Written.{words_text, Put, WroteWords};

use crate::by_choices::steps_by_choices;
use crate::fault::{WordsFault, WriteFault};
use mpd_code::Subject;
use mpd_lines::{EngineFault, write_all};
use mpd_model::{STEPS_MAX, Sink, Step};
use mpd_policy::Schedule;
use mpd_trail::Debugger;
use std::alloc::{AllocError, Global};

/// Steps as trace words, a line for each.
fn words_text(alloc: Global, steps: &[Step]) -> Result<String, AllocError>
    ensures { IfOk result (λ t. string_bytes t ≡ words_text steps.now) }
{
    let mut out = String::new(alloc);
    for step in steps {
        write!(out, "{step}\n")?;
    }
    Ok(out)
}

/// The words of the run that makes these choices from a script's start along a schedule.
#[tactic(auto, using(crate::proofs::WriteLemmas::telling))]
fn tell<S: Schedule>(
    alloc: Global,
    schedule: &S,
    subject: Subject<'_>,
    choices: &[usize],
    fuel: usize,
) -> Result<String, WordsFault>
    requires { fuel ≤ STEPS_MAX }
    ensures text { IfOk result (λ t. (r : Run) × (run_by S.decides fuel choices.now (start subject.entry.code.now.program subject.entry.mode) ≡ Some r) × (string_bytes t ≡ words_text r.steps)) }
    ensures bad { (place : ℕ) → IsErrOf result (WordsFault.BadChoices place) → (run_by S.decides fuel choices.now (start subject.entry.code.now.program subject.entry.mode) ≡ None) × (bad_place S.decides fuel 0 choices.now (start subject.entry.code.now.program subject.entry.mode) ≡ Some place) }
{
    let Ok(mut debugger) = Debugger::start(alloc, subject.code, subject.mode) else {
        return Err(WordsFault::Memory);
    };
    let found = steps_by_choices(alloc, schedule, &mut debugger, choices, fuel);
    drop(debugger);
    let steps = match found {
        Ok(steps) => steps,
        Err(fault) => return Err(fault),
    };
    match words_text(alloc, &steps.items) {
        Ok(text) => Ok(text),
        Err(_) => Err(WordsFault::Memory),
    }
}

/// Writes a text.
fn put<W: Sink>(text: String, sink: &mut W) -> Result<(), WriteFault>
    ensures { Put (string_bytes text) (W.seen sink.old) (W.seen sink.new) result }
{
    if write_all(sink, text.as_bytes()).is_err() {
        return Err(WriteFault::Engine(EngineFault::WriteFailed));
    }
    Ok(())
}

/// Writes the trace words of the run that makes exactly these choices along a schedule, from a
/// script's start to the end of the run or of its fuel, at most 1,000,000 steps: a line for each
/// step (docs/FORMATS.md, "Trace words"). `BadChoices` means that there is no such run, and has the
/// place as `steps_by_choices` does; nothing is written then. `WriteFailed` (46) comes only if a
/// write failed, and `Memory` only before anything is written.
#[tactic(auto, using(crate::proofs::WriteLemmas::writing))]
pub fn write_words<S: Schedule, W: Sink>(
    alloc: Global,
    schedule: &S,
    subject: Subject<'_>,
    choices: &[usize],
    fuel: usize,
    sink: &mut W,
) -> Result<(), WriteFault>
    requires { fuel ≤ STEPS_MAX }
    ensures { WroteWords S.decides subject.entry.code.now.program subject.entry.mode fuel choices.now (W.seen sink.old) (W.seen sink.new) result }
{
    match tell(alloc, schedule, subject, choices, fuel) {
        Ok(text) => put(text, sink),
        Err(WordsFault::BadChoices(place)) => Err(WriteFault::BadChoices(place)),
        Err(WordsFault::Memory) => Err(WriteFault::Engine(EngineFault::Memory)),
    }
}
