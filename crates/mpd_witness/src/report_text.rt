//! A witness from the text of a whole report (docs/FORMATS.md, "Witnesses").

ghost use Rattle.std.specs.Prelude.{◌≡◌, ◌≤◌, ◌<◌, ◌+◌, ◌^◌, Ok, Err, IfOk, drop, length};
ghost use Rattle.mpd_witness.specs.FaultTexts.{report_fault_shown};
ghost use Rattle.mpd_witness.specs.WitnessText.{parts_at, line_of};
ghost use Rattle.mpd_witness.specs.ReadBack.{has_word, unwitnessed, sole_leaf, named_leaf, leaf_wanted, witness_at, are_alone, as_two, witness_of_report, ReadsReport};
ghost use Rattle.mpd_witness.specs.WitnessText.{witness_of, end_read, steps_of};
ghost use Rattle.mpd_witness.specs.ReadBack.{with_both};

use crate::pieces::Pieces;
use crate::report_lines::{are_two, is_witness, next_leaf, next_witness, wrong_line};
use crate::witness_text::{WitnessTextFault, pieces_behind, read_end, read_steps, read_witness};
use mpd_explore::EndWitness;
use mpd_lines::EngineFault;
use mpd_model::without_return;
use std::alloc::Global;
use std::error::Error;
use std::fmt;

/// Why no witness is read of a report.
#[derive(Clone, Copy, PartialEq, Eq, Debug)]
pub enum ReportFault {
    /// This line, from 1, is the first that is wrong: 2 if the text is too long, whatever is in it.
    BadLine(usize),
    /// There is no witness, or none after the leaf that is asked for, which is a deadlock or a
    /// trap.
    NoWitness,
    /// There are several, and no leaf is asked for.
    SeveralWitnesses,
    /// No leaf has the number that is asked for.
    NoSuchLeaf,
    /// The leaf that is asked for is neither a deadlock nor a trap.
    NoDeadlock,
    /// A read failed, or memory was refused.
    Engine(EngineFault),
}

impl fmt::Display for ReportFault {
    ghost use Rattle.std.specs.Prelude.{Some};

    ghost output = { λ fault. Some (report_fault_shown fault) };

    fn fmt<W: fmt::Write>(&self, f: &mut fmt::Formatter<W>) -> fmt::Result {
        match *self {
            ReportFault::BadLine(line) => write!(f, "line {line}"),
            ReportFault::NoWitness => f.write_str("no-witness"),
            ReportFault::SeveralWitnesses => f.write_str("several-witnesses"),
            ReportFault::NoSuchLeaf => f.write_str("no-such-leaf"),
            ReportFault::NoDeadlock => f.write_str("no-deadlock"),
            ReportFault::Engine(fault) => f.write_str(fault.name()),
        }
    }
}

impl Error for ReportFault {}

/// Whether a piece of a line is a word.
fn has_word(line: &[u8], word: &[u8]) -> bool
    ensures { result ≡ has_word word.now line.now }
{
    pieces_behind(line, word).is_some()
}

/// What is wrong with a leaf that has no witness.
fn unwitnessed(line: &[u8]) -> ReportFault
    ensures { result ≡ unwitnessed (line_of line.now) }
{
    let line = without_return(line);
    if has_word(line, b"deadlock") || has_word(line, b"trap") {
        ReportFault::NoWitness
    } else {
        ReportFault::NoDeadlock
    }
}

/// The place of the leaf that the only witness is of.
#[tactic(auto, using(crate::proofs::ReportLemmas::choosing))]
fn sole_leaf(text: &[u8]) -> Result<usize, ReportFault>
    ensures leaf { result ≡ sole_leaf (parts_at 10 text.now) }
    ensures within { IfOk result (λ place. place < length (parts_at 10 text.now)) }
{
    let mut lines = Pieces::new(text, b'\n');
    let Some(place) = next_witness(&mut lines, 0) else {
        return Err(ReportFault::NoWitness);
    };
    if next_witness(&mut lines, place + 1).is_some() {
        return Err(ReportFault::SeveralWitnesses);
    }
    Ok(place.saturating_sub(1))
}

/// The place of the leaf of a number, which has a witness.
#[tactic(auto, using(crate::proofs::ReportLemmas::choosing))]
fn named_leaf(text: &[u8], number: usize) -> Result<usize, ReportFault>
    ensures leaf { result ≡ named_leaf number (parts_at 10 text.now) }
    ensures within { IfOk result (λ place. place < length (parts_at 10 text.now)) }
{
    let mut lines = Pieces::new(text, b'\n');
    let Some((place, line)) = next_leaf(&mut lines, number) else {
        return Err(ReportFault::NoSuchLeaf);
    };
    let Some(behind) = lines.next() else {
        return Err(unwitnessed(line));
    };
    if is_witness(behind) {
        return Ok(place);
    }
    Err(unwitnessed(line))
}

/// The place of the leaf whose witness is wanted.
fn leaf_wanted(text: &[u8], leaf: Option<usize>) -> Result<usize, ReportFault>
    ensures leaf { result ≡ leaf_wanted leaf (parts_at 10 text.now) }
    ensures within { IfOk result (λ place. place < length (parts_at 10 text.now)) }
{
    match leaf {
        None => sole_leaf(text),
        Some(number) => named_leaf(text, number),
    }
}

/// Passes over `count` lines.
#[tactic(auto, using(crate::proofs::ReportLemmas::skipping))]
fn skip(lines: &mut Pieces<'_>, count: usize)
    requires { count ≤ length lines.old }
    ensures { lines.new ≡ drop count lines.old }
{
    for turn in 0..count {
        match lines.next() {
            Some(_) => {}
            None => unreachable!(),
        }
    }
}

/// Reads the line of a leaf, which has this place, and that of its witness.
#[tactic(auto, using(crate::proofs::ReportLemmas::joining))]
fn read_both(
    alloc: Global,
    place: usize,
    leaf: &[u8],
    witness: &[u8],
) -> Result<EndWitness, ReportFault>
    requires { place + 2 < 2 ^ 64 }
    ensures { ReadsReport (with_both place (end_read (line_of leaf.now)) (steps_of (line_of witness.now))) result }
{
    let end = match read_end(alloc, without_return(leaf)) {
        Ok(end) => end,
        Err(WitnessTextFault::BadLine(_)) => return Err(ReportFault::BadLine(place + 1)),
        Err(WitnessTextFault::Memory) => return Err(ReportFault::Engine(EngineFault::Memory)),
    };
    match read_steps(alloc, without_return(witness)) {
        Ok(steps) => Ok(EndWitness { steps, end }),
        Err(fault) => {
            drop(end);
            Err(match fault {
                WitnessTextFault::BadLine(_) => ReportFault::BadLine(place + 2),
                WitnessTextFault::Memory => ReportFault::Engine(EngineFault::Memory),
            })
        }
    }
}

/// Reads the witness of the leaf that has a place.
#[tactic(auto, using(crate::proofs::ReportLemmas::joining))]
fn witness_at(alloc: Global, text: &[u8], place: usize) -> Result<EndWitness, ReportFault>
    requires { place < length (parts_at 10 text.now) }
    ensures { ReadsReport (witness_at place (drop place (parts_at 10 text.now))) result }
{
    let mut lines = Pieces::new(text, b'\n');
    skip(&mut lines, place);
    let Some(leaf) = lines.next() else {
        return Err(ReportFault::NoSuchLeaf);
    };
    let Some(witness) = lines.next() else {
        return Err(ReportFault::NoWitness);
    };
    read_both(alloc, place, leaf, witness)
}

/// Whether a text is read as two lines alone.
fn are_alone(text: &[u8], leaf: Option<usize>) -> bool
    ensures { result ≡ are_alone leaf (parts_at 10 text.now) }
{
    match leaf {
        None => are_two(text),
        Some(_) => false,
    }
}

/// Reads a witness of two lines.
#[tactic(auto, using(crate::proofs::ReportLemmas::reporting))]
fn read_two(alloc: Global, text: &[u8]) -> Result<EndWitness, ReportFault>
    ensures { ReadsReport (as_two (witness_of text.now)) result }
{
    match read_witness(alloc, text) {
        Ok(witness) => Ok(witness),
        Err(WitnessTextFault::BadLine(line)) => Err(ReportFault::BadLine(line)),
        Err(WitnessTextFault::Memory) => Err(ReportFault::Engine(EngineFault::Memory)),
    }
}

/// Reads a witness from the text of a report, as `check --witness` writes it, or of two lines alone
/// (docs/FORMATS.md, "Witnesses"): the only one there, or that of the leaf of this number.
/// `BadLine` has the first line that is wrong. If none is, the other faults say that there is no
/// witness, or no single one, or no such leaf, or that it is neither a deadlock nor a trap.
/// `Memory` means that memory was refused.
#[tactic(auto, using(crate::proofs::ReportLemmas::reporting))]
pub fn read_report(
    alloc: Global,
    text: &[u8],
    leaf: Option<usize>,
) -> Result<EndWitness, ReportFault>
    ensures { ReadsReport (witness_of_report leaf text.now) result }
{
    if are_alone(text, leaf) {
        return read_two(alloc, text);
    }
    if let Some(line) = wrong_line(text) {
        return Err(ReportFault::BadLine(line));
    }
    match leaf_wanted(text, leaf) {
        Ok(place) => witness_at(alloc, text, place),
        Err(fault) => Err(fault),
    }
}
