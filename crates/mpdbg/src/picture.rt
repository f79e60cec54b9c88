//! `mpdbg picture`: a drawing of a run (docs/PICTURES.md).

ghost use Rattle.std.specs.Prelude.{◌≤◌};

use crate::tell::Fault;
use mpd_code::Subject;
use mpd_explore::{EndWitness, WitnessFault, verify_end};
use mpd_lines::{EngineFault, write_all};
use mpd_model::{STEPS_MAX, Sink, Step, StepList};
use mpd_picture::{DrawFault, Look, draw};
use mpd_policy::{Plain, Wide};
use mpd_runs::{
    ChoicesFault, ReadFault, StepsFault, WordsFault, choices_of, lead_first, steps_by_choices,
    steps_of, take_steps,
};
use mpd_trail::Debugger;
use std::alloc::Global;

/// The choices of a run, as a word of the command line names them.
#[derive(Clone, Copy)]
pub(crate) struct NamedChoices<'a> {
    pub(crate) word: &'a str,
    /// Whether their numbers are among the candidates of the wide walk.
    pub(crate) ends: bool,
}

/// Which run is drawn.
#[derive(Drop)]
pub(crate) enum Asked<'a> {
    /// That of the first candidates: of the wide walk, or of the decisions.
    First { ends: bool },
    /// That of the choices of a word.
    Choices(NamedChoices<'a>),
    /// That of a witness, which is checked first.
    Witness(EndWitness),
    /// That of a text of trace words.
    Words(Vec<u8>),
}

/// A debugger at the start of a script.
fn started<'c, 'a>(alloc: Global, subject: Subject<'c>) -> Result<Debugger<'c>, Fault<'a>> {
    match Debugger::start(alloc, subject.code, subject.mode) {
        Ok(debugger) => Ok(debugger),
        Err(_) => Err(Fault::from(EngineFault::Memory)),
    }
}

/// The steps of the run with the choices of a word.
pub(crate) fn steps_of_choices<'a>(
    alloc: Global,
    subject: Subject<'_>,
    named: NamedChoices<'a>,
    fuel: usize,
) -> Result<StepList, Fault<'a>>
    requires { fuel ≤ STEPS_MAX }
{
    let NamedChoices { word, ends } = named;
    let choices = match choices_of(alloc, word.as_bytes()) {
        Ok(choices) => choices,
        Err(ChoicesFault::NotANumber) => return Err(Fault::NotChoices(word)),
        Err(ChoicesFault::Memory) => return Err(Fault::from(EngineFault::Memory)),
    };
    let Ok(mut debugger) = Debugger::start(alloc, subject.code, subject.mode) else {
        return Err(Fault::from(EngineFault::Memory));
    };
    let found = if ends {
        steps_by_choices(alloc, &Wide, &mut debugger, &choices.items, fuel)
    } else {
        steps_by_choices(alloc, &Plain, &mut debugger, &choices.items, fuel)
    };
    drop(debugger);
    match found {
        Ok(steps) => Ok(steps),
        Err(WordsFault::BadChoices(place)) => Err(Fault::BadChoices(place)),
        Err(WordsFault::Memory) => Err(Fault::from(EngineFault::Memory)),
    }
}

/// The fault of steps that aren't taken. Where one isn't enabled, its number from 1 is that of its line. Of words alone there can be too
/// many.
pub(crate) fn steps_fault<'a>(fault: StepsFault) -> Fault<'a> {
    match fault {
        StepsFault::NotEnabled(place) => Fault::Words(place.saturating_add(1)),
        StepsFault::Full => Fault::ManyWords,
        StepsFault::Memory => Fault::from(EngineFault::Memory),
    }
}

/// Takes steps.
fn take_all<'a>(debugger: &mut Debugger<'_>, steps: &[Step]) -> Result<(), Fault<'a>> {
    match take_steps(debugger, steps) {
        Ok(()) => Ok(()),
        Err(fault) => Err(steps_fault(fault)),
    }
}

/// Takes the steps of a witness, which is checked first.
fn take_witness<'a>(
    alloc: Global,
    subject: Subject<'_>,
    debugger: &mut Debugger<'_>,
    witness: &EndWitness,
) -> Result<(), Fault<'a>> {
    if witness.steps.items.len() > STEPS_MAX {
        return Err(Fault::LongWitness);
    }
    match verify_end(alloc, subject.code, subject.mode, witness) {
        Ok(()) => take_all(debugger, &witness.steps.items),
        Err(WitnessFault::Memory) => Err(Fault::from(EngineFault::Memory)),
        Err(fault) => Err(Fault::Witness(fault)),
    }
}

/// Takes the steps of a text of trace words.
fn take_words<'a>(
    alloc: Global,
    debugger: &mut Debugger<'_>,
    text: &[u8],
) -> Result<(), Fault<'a>> {
    match steps_of(alloc, text) {
        Ok(steps) => take_all(debugger, &steps),
        Err(ReadFault::NotAStep(line)) => Err(Fault::Words(line)),
        Err(ReadFault::Memory) => Err(Fault::from(EngineFault::Memory)),
    }
}

/// Takes the steps of the run of the first candidates.
fn lead_on<'a>(
    alloc: Global,
    debugger: &mut Debugger<'_>,
    fuel: usize,
    ends: bool,
) -> Result<(), Fault<'a>> {
    let led = if ends {
        lead_first(alloc, &Wide, debugger, fuel)
    } else {
        lead_first(alloc, &Plain, debugger, fuel)
    };
    match led {
        Ok(()) => Ok(()),
        Err(_) => Err(Fault::from(EngineFault::Memory)),
    }
}

/// Takes the steps of the run that is asked for.
fn lead<'a>(
    alloc: Global,
    subject: Subject<'_>,
    debugger: &mut Debugger<'_>,
    asked: Asked<'a>,
    fuel: usize,
) -> Result<(), Fault<'a>>
    requires { fuel ≤ STEPS_MAX }
{
    match asked {
        Asked::First { ends } => lead_on(alloc, debugger, fuel, ends),
        Asked::Choices(named) => {
            let steps = steps_of_choices(alloc, subject, named, fuel)?;
            take_all(debugger, &steps.items)
        }
        Asked::Witness(witness) => take_witness(alloc, subject, debugger, &witness),
        Asked::Words(text) => take_words(alloc, debugger, &text),
    }
}

/// The steps of a run that is asked for, by a debugger at the start.
fn steps_led<'a>(
    alloc: Global,
    subject: Subject<'_>,
    debugger: &mut Debugger<'_>,
    asked: Asked<'a>,
    fuel: usize,
) -> Result<StepList, Fault<'a>>
    requires { fuel ≤ STEPS_MAX }
{
    lead(alloc, subject, debugger, asked, fuel)?;
    match Vec::from_slice(alloc, debugger.steps()) {
        Ok(items) => Ok(StepList { items }),
        Err(_) => Err(Fault::from(EngineFault::Memory)),
    }
}

/// The steps of the run that is asked for.
pub(crate) fn steps_of_asked<'a>(
    alloc: Global,
    subject: Subject<'_>,
    asked: Asked<'a>,
    fuel: usize,
) -> Result<StepList, Fault<'a>>
    requires { fuel ≤ STEPS_MAX }
{
    let mut debugger = started(alloc, subject)?;
    let steps = steps_led(alloc, subject, &mut debugger, asked, fuel);
    drop(debugger);
    steps
}

/// Writes the drawing of the steps of a debugger.
fn write_drawing<'a, W: Sink>(
    alloc: Global,
    debugger: &Debugger<'_>,
    look: Look,
    sink: &mut W,
) -> Result<(), Fault<'a>> {
    let svg = match draw(alloc, debugger, look) {
        Ok(svg) => svg,
        Err(DrawFault::TooLong) => return Err(Fault::LongPicture),
        Err(DrawFault::Memory) => return Err(Fault::from(EngineFault::Memory)),
    };
    if write_all(sink, svg.as_bytes()).is_err() {
        return Err(Fault::from(EngineFault::WriteFailed));
    }
    Ok(())
}

/// Writes the drawing of a debugger, if it has taken the steps.
fn write_led<'a, W: Sink>(
    alloc: Global,
    debugger: &Debugger<'_>,
    led: Result<(), Fault<'a>>,
    look: Look,
    sink: &mut W,
) -> Result<(), Fault<'a>> {
    led?;
    write_drawing(alloc, debugger, look, sink)
}

/// Draws the run that is asked for, and writes it.
pub(crate) fn draw_run<'a, W: Sink>(
    alloc: Global,
    subject: Subject<'_>,
    asked: Asked<'a>,
    fuel: usize,
    look: Look,
    sink: &mut W,
) -> Result<(), Fault<'a>>
    requires { fuel ≤ STEPS_MAX }
{
    let mut debugger = started(alloc, subject)?;
    let led = lead(alloc, subject, &mut debugger, asked, fuel);
    let drawn = write_led(alloc, &debugger, led, look, sink);
    drop(debugger);
    drawn
}
