//! Steps as a text of trace words.

ghost use Rattle.std.specs.Prelude.{◌≡◌, ◌∷◌, [], ◌++◌, ℕ, Ok, Err, IfOk, OnOk, IsErrOf};
ghost use Rattle.mpd_model.specs.texts.Lines.{lines_of};
ghost use Rattle.mpd_runs.specs.Read as spec;

use mpd_model::{Step, TraceWord, bare_line, cut_line, trace_word_of};
use std::alloc::{AllocError, Global};

/// Why a text is no list of steps.
#[derive(Clone, Copy)]
pub enum ReadFault {
    /// The line of this number, from 1, is no step.
    NotAStep(usize),
    /// Memory was refused.
    Memory,
}

/// The step that a line is.
fn line_step(line: &[u8]) -> Option<Step>
    ensures { result ≡ spec.line_step line.now }
{
    match trace_word_of(line) {
        Some(TraceWord::Step(step)) => Some(step),
        _ => None,
    }
}

/// Adds a step.
fn add(steps: &mut Vec<Step>, step: Step) -> Result<(), AllocError>
    ensures { OnOk result (steps.new.items ≡ steps.old.items ++ step ∷ []) }
{
    steps.push(step)?;
    Ok(())
}

/// The steps that the lines of a text are, each a trace word. `NotAStep` tells the first line that is none.
#[tactic(auto, using(crate::proofs::ReadLemmas::reading))]
pub fn steps_of(alloc: Global, text: &[u8]) -> Result<Vec<Step>, ReadFault>
    ensures ok { IfOk result (λ steps. spec.steps_in 1 (lines_of text.now) ≡ Ok steps.items) }
    ensures wrong { (number : ℕ) → IsErrOf result (ReadFault.NotAStep number) → spec.steps_in 1 (lines_of text.now) ≡ Err number }
{
    let mut steps = Vec::new(alloc);
    let mut rest = text;
    let mut above = 0;
    while let Some((line, behind)) = cut_line(rest) {
        let Some(step) = line_step(bare_line(line)) else {
            return Err(ReadFault::NotAStep(above + 1));
        };
        match add(&mut steps, step) {
            Ok(()) => {}
            Err(_) => return Err(ReadFault::Memory),
        }
        above += 1;
        rest = behind;
    }
    Ok(steps)
}
