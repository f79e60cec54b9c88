//! The text of a witness, as a report has it (docs/FORMATS.md, "Witnesses").

ghost use Rattle.std.specs.Prelude.{◌≡◌, ◌<◌, Some, None, IfSome, bytes_eq, length, MatchOption};
ghost use Rattle.mpd_model.specs.texts.Texts.{trap_name};
ghost use Rattle.mpd_model.specs.texts.Words.{call_of, step_of};
ghost use Rattle.mpd_witness.specs.FaultTexts.{text_fault_shown};
ghost use Rattle.mpd_witness.specs.WitnessText.{parts_at, behind_word, trap_of, rank_trap_of, pairs_read, each_read, some_of, end_read, behind_cut, cut_at, steps_of, all_empty, witness_of, Skipped, PairRead, ReadsLine, ReadsText};

use crate::pieces::{Pieces, cut};
use mpd_explore::{EndWitness, RankTrap, RankTrapList, WitnessEnd};
use mpd_model::{
    CallList, Step, StepList, TraceWord, Trap, call_of, number_of, trace_word_of, without_return,
};
use std::alloc::Global;
use std::error::Error;
use std::fmt;

/// Why a text is no witness.
#[derive(Clone, Copy, PartialEq, Eq, Debug)]
pub enum WitnessTextFault {
    /// This line, 1 or 2, is the first that is wrong.
    BadLine(usize),
    /// Memory was refused.
    Memory,
}

impl fmt::Display for WitnessTextFault {
    ghost use Rattle.std.specs.Prelude.{Some};

    ghost output = { λ fault. Some (text_fault_shown fault) };

    fn fmt<W: fmt::Write>(&self, f: &mut fmt::Formatter<W>) -> fmt::Result {
        match *self {
            WitnessTextFault::BadLine(line) => write!(f, "line {line}"),
            WitnessTextFault::Memory => f.write_str("memory"),
        }
    }
}

impl Error for WitnessTextFault {}

/// A step, as trace words write it.
#[tactic(auto, using(crate::proofs::TextLemmas::stepping))]
fn step_of(text: &[u8]) -> Option<Step>
    ensures { result ≡ step_of text.now }
{
    match trace_word_of(text) {
        Some(TraceWord::Step(step)) => Some(step),
        Some(TraceWord::Back) => None,
        Some(TraceWord::Redo) => None,
        Some(TraceWord::Goto(_)) => None,
        Some(TraceWord::Enabled) => None,
        Some(TraceWord::Show) => None,
        None => None,
    }
}

/// Goes past the first piece that is this word, and returns whether there is one.
fn skip_to(pieces: &mut Pieces<'_>, word: &[u8]) -> bool
    ensures { Skipped (behind_word word.now pieces.old) pieces.new result }
{
    while let Some(piece) = pieces.next() {
        if piece == word {
            return true;
        }
    }
    false
}

/// The pieces of a line after the first that is this word, if there is one.
pub(crate) fn pieces_behind<'a>(line: &'a [u8], word: &[u8]) -> Option<Pieces<'a>>
    ensures { MatchOption result (behind_word word.now (parts_at 32 line.now) ≡ None) (λ pieces. behind_word word.now (parts_at 32 line.now) ≡ Some pieces) }
{
    let mut pieces = Pieces::new(line, b' ');
    if skip_to(&mut pieces, word) {
        Some(pieces)
    } else {
        None
    }
}

/// Reads calls. `BadLine(1)`: a piece is no call.
#[tactic(auto, using(crate::proofs::TextLemmas::going))]
fn read_calls(alloc: Global, pieces: &mut Pieces<'_>) -> Result<CallList, WitnessTextFault>
    ensures { ReadsLine 1 (each_read call_of pieces.old) result }
{
    let mut items = Vec::new(alloc);
    while let Some(piece) = pieces.next() {
        let Some(call) = call_of(piece) else {
            return Err(WitnessTextFault::BadLine(1));
        };
        if items.push(call).is_err() {
            return Err(WitnessTextFault::Memory);
        }
    }
    Ok(CallList { items })
}

/// Reads the blocked calls of a deadlock, one or more.
#[tactic(auto, using(crate::proofs::TextLemmas::blocking))]
fn read_blocked(alloc: Global, pieces: &mut Pieces<'_>) -> Result<CallList, WitnessTextFault>
    ensures { ReadsLine 1 (some_of (each_read call_of) pieces.old) result }
{
    let calls = read_calls(alloc, pieces)?;
    if calls.items.is_empty() {
        return Err(WitnessTextFault::BadLine(1));
    }
    Ok(calls)
}

/// Whether a text is the name of a trap.
fn is_named(text: &[u8], trap: Trap) -> bool
    ensures { result ≡ bytes_eq text.now (trap_name trap) }
{
    text == trap.name().as_bytes()
}

/// The trap that has this name.
fn trap_of(text: &[u8]) -> Option<Trap>
    ensures { result ≡ trap_of text.now }
{
    if is_named(text, Trap::Overflow) {
        return Some(Trap::Overflow);
    }
    if is_named(text, Trap::ZeroDivisor) {
        return Some(Trap::ZeroDivisor);
    }
    if is_named(text, Trap::BadRank) {
        return Some(Trap::BadRank);
    }
    if is_named(text, Trap::BadTag) {
        return Some(Trap::BadTag);
    }
    if is_named(text, Trap::BadIndex) {
        return Some(Trap::BadIndex);
    }
    if is_named(text, Trap::Assertion) {
        return Some(Trap::Assertion);
    }
    None
}

/// A rank and its trap.
fn rank_trap_of(rank: &[u8], trap: &[u8]) -> Option<RankTrap>
    ensures { result ≡ rank_trap_of rank.now trap.now }
{
    let rank = number_of(rank)?;
    let trap = trap_of(trap)?;
    Some(RankTrap { rank, trap })
}

/// A rank, whose piece was taken, with its trap, which is the next piece.
#[tactic(auto, using(crate::proofs::TextLemmas::pairing))]
fn next_trap(pieces: &mut Pieces<'_>, rank: &[u8]) -> Option<RankTrap>
    ensures pair { PairRead rank_trap_of rank.now pieces.old pieces.new result }
    ensures fewer { IfSome result (λ _. length pieces.new < length pieces.old) }
{
    let Some(trap) = pieces.next() else {
        return None;
    };
    rank_trap_of(rank, trap)
}

/// Reads ranks, each with its trap. `BadLine(1)`: two pieces are no rank and trap, or a rank has no
/// trap.
#[tactic(auto, using(crate::proofs::TextLemmas::trapping))]
fn read_traps(alloc: Global, pieces: &mut Pieces<'_>) -> Result<RankTrapList, WitnessTextFault>
    ensures { ReadsLine 1 (pairs_read rank_trap_of pieces.old) result }
{
    let mut items = Vec::new(alloc);
    while let Some(rank) = pieces.next() {
        let Some(trapped) = next_trap(pieces, rank) else {
            return Err(WitnessTextFault::BadLine(1));
        };
        if items.push(trapped).is_err() {
            return Err(WitnessTextFault::Memory);
        }
    }
    Ok(RankTrapList { items })
}

/// Reads the trapped ranks of a trap, one or more.
#[tactic(auto, using(crate::proofs::TextLemmas::trapped))]
fn read_trapped(alloc: Global, pieces: &mut Pieces<'_>) -> Result<RankTrapList, WitnessTextFault>
    ensures { ReadsLine 1 (some_of (pairs_read rank_trap_of) pieces.old) result }
{
    let ranks = read_traps(alloc, pieces)?;
    if ranks.items.is_empty() {
        return Err(WitnessTextFault::BadLine(1));
    }
    Ok(ranks)
}

/// Reads the first line: after `deadlock` the blocked calls, or else after `trap` the trapped
/// ranks, one or more.
#[tactic(auto, using(crate::proofs::TextLemmas::ending))]
pub(crate) fn read_end(alloc: Global, line: &[u8]) -> Result<WitnessEnd, WitnessTextFault>
    ensures { ReadsLine 1 (end_read line.now) result }
{
    if let Some(mut pieces) = pieces_behind(line, b"deadlock") {
        let calls = read_blocked(alloc, &mut pieces)?;
        return Ok(WitnessEnd::Deadlock(calls));
    }
    let Some(mut pieces) = pieces_behind(line, b"trap") else {
        return Err(WitnessTextFault::BadLine(1));
    };
    let ranks = read_trapped(alloc, &mut pieces)?;
    Ok(WitnessEnd::Trap(ranks))
}

/// What stands after the first colon; the whole line if there is none.
fn behind_label(line: &[u8]) -> &[u8]
    ensures { result.now ≡ behind_cut line.now (cut_at 58 line.now) }
{
    match cut(line, b':') {
        Some((_, behind)) => behind,
        None => line,
    }
}

/// Reads the second line: the steps, one or more.
#[tactic(auto, using(crate::proofs::TextLemmas::going))]
pub(crate) fn read_steps(alloc: Global, line: &[u8]) -> Result<StepList, WitnessTextFault>
    ensures { ReadsLine 2 (steps_of line.now) result }
{
    let mut pieces = Pieces::new(behind_label(line), b',');
    let mut items = Vec::new(alloc);
    while let Some(piece) = pieces.next() {
        let Some(step) = step_of(piece) else {
            return Err(WitnessTextFault::BadLine(2));
        };
        if items.push(step).is_err() {
            return Err(WitnessTextFault::Memory);
        }
    }
    Ok(StepList { items })
}

/// Whether all lines that are left are empty.
fn are_empty(lines: &mut Pieces<'_>) -> bool
    ensures { result ≡ all_empty lines.old }
{
    while let Some(line) = lines.next() {
        if !without_return(line).is_empty() {
            return false;
        }
    }
    true
}

/// Reads a witness from its text, as `check` writes it (docs/FORMATS.md, "Witnesses"). `BadLine`
/// has the first line that is wrong, 1 or 2; `Memory` means that memory was refused.
#[tactic(auto, using(crate::proofs::TextLemmas::reading))]
pub fn read_witness(alloc: Global, text: &[u8]) -> Result<EndWitness, WitnessTextFault>
    ensures { ReadsText (witness_of text.now) result }
{
    let mut lines = Pieces::new(text, b'\n');
    let Some(first) = lines.next() else {
        return Err(WitnessTextFault::BadLine(1));
    };
    let end = read_end(alloc, without_return(first))?;
    let Some(second) = lines.next() else {
        return Err(WitnessTextFault::BadLine(2));
    };
    let steps = read_steps(alloc, without_return(second))?;
    if !are_empty(&mut lines) {
        return Err(WitnessTextFault::BadLine(2));
    }
    Ok(EndWitness { steps, end })
}
