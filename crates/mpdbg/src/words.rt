//! `mpdbg words`: the trace words of a run (docs/FORMATS.md, "Choices").

ghost use Rattle.std.specs.Prelude.{◌≤◌};

use crate::picture::NamedChoices;
use crate::tell::Fault;
use mpd_code::Subject;
use mpd_lines::EngineFault;
use mpd_model::{STEPS_MAX, Sink};
use mpd_policy::{Plain, Wide};
use mpd_runs::{ChoicesFault, WriteFault, choices_of, write_words};
use std::alloc::Global;

/// Writes the trace words of the run of a script with the choices of a word.
pub(crate) fn write_run<'a, W: Sink>(
    alloc: Global,
    subject: Subject<'_>,
    named: NamedChoices<'a>,
    fuel: usize,
    sink: &mut W,
) -> Result<(), Fault<'a>>
    requires { fuel ≤ STEPS_MAX }
{
    let NamedChoices { word, ends } = named;
    let choices = match choices_of(alloc, word.as_bytes()) {
        Ok(choices) => choices,
        Err(ChoicesFault::NotANumber) => return Err(Fault::NotChoices(word)),
        Err(ChoicesFault::Memory) => return Err(Fault::from(EngineFault::Memory)),
    };
    let written = if ends {
        write_words(alloc, &Wide, subject, &choices.items, fuel, sink)
    } else {
        write_words(alloc, &Plain, subject, &choices.items, fuel, sink)
    };
    match written {
        Ok(()) => Ok(()),
        Err(WriteFault::BadChoices(place)) => Err(Fault::BadChoices(place)),
        Err(WriteFault::Engine(fault)) => Err(Fault::from(fault)),
    }
}
