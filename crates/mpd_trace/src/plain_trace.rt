//! A script and the lines of a trace from one source.
ghost use Rattle.std.specs.Prelude.{◌≡◌, ◌≤◌, length, true, IfOk, IfErr, ◌==◌, count_by};
ghost use Rattle.mpd_model.specs.runs.Trail.{Standing, first_standing};
ghost use Rattle.mpd_model.specs.texts.Answers.{AnswerOrMemory};
ghost use Rattle.mpd_lines.specs.FaultWords.{failed_reads, failed_writes};
ghost use Rattle.mpd_lines.specs.Served.{Served, Counted};
ghost use Rattle.mpd_lines.specs.Telling.{waiting_below};
ghost use Rattle.mpd_trace.specs.Collected.{Collected, CollectCounted};
ghost use Rattle.mpd_trace.specs.Plain.{line_at, PlainServed, KeepsRefused};
ghost use Rattle.mpd_trace.specs.PlainFaults.{fault_line, fault_status, refused_as, plain_failed_reads, plain_failed_writes};

use crate::divider::{Divider, Division};
use crate::tracer::trace_behind;
use mpd_code::{Subject, lower};
use mpd_lines::{EngineFault, READ_MAX};
use mpd_model::{FaultCode, Mode, READS_MAX, ReadFault, Script, Sink, Source};
use mpd_script::read;
use std::alloc::Global;
use std::fmt;

/// Why no more of the input was read for the script.
#[derive(Clone, Copy)]
pub enum HeadEnd {
    /// The input has ended before a line that divides, or with it.
    InputEnds,
    /// The line that divides has come.
    LineDivides,
    /// The script is too long.
    TooLong,
}

/// What was read of an input up to the line that divides it.
#[derive(Drop)]
pub struct Head {
    /// The script; where it is too long, a beginning of it that is too long.
    pub script: Vec<u8>,
    /// The bytes that the last read gave after the line that divides.
    pub behind: Vec<u8>,
    pub end: HeadEnd,
    /// The reads that were made, at most 1,000,000.
    pub reads: usize,
}

// what was read where the line that divides has come
fn head_behind(
    alloc: Global,
    divider: Divider,
    rest: &[u8],
    reads: usize,
) -> Result<Head, EngineFault>
    ensures ok { IfOk result (λ head. (head.script.items ≡ divider.known) × (head.behind.items ≡ rest.now) × (head.end ≡ HeadEnd.LineDivides) × (head.reads ≡ reads)) }
    ensures fault { IfErr result (λ fault. fault ≡ EngineFault.Memory) }
{
    let mut behind = Vec::new(alloc);
    match behind.extend_from_slice(rest) {
        Ok(()) => Ok(Head {
            script: divider.into_script(),
            behind,
            end: HeadEnd::LineDivides,
            reads,
        }),
        Err(_) => Err(EngineFault::Memory),
    }
}

/// Reads a script, and no more than the read that shows where it ends.
#[tactic(auto, using(crate::proofs::CollectLaws::collecting))]
fn collect<S: Source>(alloc: Global, source: &mut S) -> Result<Head, EngineFault>
    ensures collected { Collected (S.seen source.old) (S.seen source.new) result }
    ensures counted { CollectCounted (S.seen source.old) (S.seen source.new) result }
{
    let mut buffer = [0u8; READ_MAX];
    let Ok(mut divider) = Divider::new(alloc) else {
        return Err(EngineFault::Memory);
    };
    for turn in 0..READS_MAX {
        let Ok(count) = source.read(&mut buffer) else {
            return Err(EngineFault::ReadFailed);
        };
        let reads = turn + 1;
        if count == 0 {
            return Ok(Head {
                script: divider.finish(),
                behind: Vec::new(alloc),
                end: HeadEnd::InputEnds,
                reads,
            });
        }
        let (piece, _) = buffer.split_at(count);
        match divider.feed(piece) {
            Division::Open => {}
            Division::Here(used) => {
                let (_, behind) = piece.split_at(used);
                return head_behind(alloc, divider, behind, reads);
            }
            Division::TooLong => {
                return Ok(Head {
                    script: divider.into_script(),
                    behind: Vec::new(alloc),
                    end: HeadEnd::TooLong,
                    reads,
                });
            }
        }
    }
    Err(EngineFault::TooManyTurns)
}

/// Why `plain` has ended before its input has. Its text is the line on standard error (docs/FORMATS.md, "Faults and
/// statuses"), which takes no memory.
#[derive(Clone, Copy, Debug, PartialEq, Eq)]
pub enum PlainFault {
    /// The script is refused, with the line of the fault's place, from 1.
    Script(ReadFault, usize),
    /// The engine's own.
    Engine(EngineFault),
}

/// The line of a fault of the engine.
fn engine_line(fault: EngineFault) -> &'static str
    ensures { result.now ≡ fault_line (PlainFault.Engine fault) }
{
    match fault {
        EngineFault::ReadFailed | EngineFault::WriteFailed => "mpdbg: device",
        EngineFault::TooManyTurns => "mpdbg: turns",
        EngineFault::Memory => "mpdbg: memory",
    }
}

impl fmt::Display for PlainFault {
    ghost use Rattle.std.specs.Prelude.{Some};

    ghost output = { λ f. Some (fault_line f) };

    fn fmt<W: fmt::Write>(&self, f: &mut fmt::Formatter<W>) -> fmt::Result {
        match *self {
            PlainFault::Script(fault, line) => {
                let number = fault.code.number();
                let name = fault.code.name();
                let place = fault.place;
                write!(
                    f,
                    "mpdbg: script refused {number} {name} at {place} line {line}"
                )
            }
            PlainFault::Engine(fault) => f.write_str(engine_line(fault)),
        }
    }
}

impl PlainFault {
    /// The status that the program ends with: 2 where the script is refused, else 3.
    pub fn status(self) -> u8
        ensures { result ≡ fault_status self }
    {
        match self {
            PlainFault::Script(..) => 2,
            PlainFault::Engine(_) => 3,
        }
    }
}

/// The line feeds of a text.
fn feeds(text: &[u8]) -> usize
    ensures value { result ≡ count_by (λ b. b == 10) text.now }
    ensures bound { result ≤ length text.now }
{
    text.iter().filter(|byte| **byte == b'\n').count()
}

/// The line of a place in a text, from 1.
#[tactic(auto, using(std::proofs::lemmas::List::take_all))]
fn line_at(text: &[u8], place: usize) -> usize
    ensures { result ≡ line_at text.now place }
{
    if place < text.len() {
        let (front, _) = text.split_at(place);
        return feeds(front) + 1;
    }
    feeds(text) + 1
}

/// The answer to a script that could not be read.
pub(crate) fn refusal(text: &[u8], fault: ReadFault) -> PlainFault
    ensures { result ≡ refused_as fault (line_at text.now fault.place) }
{
    match fault.code {
        FaultCode::Memory => PlainFault::Engine(EngineFault::Memory),
        _ => PlainFault::Script(fault, line_at(text, fault.place)),
    }
}

/// Traces a script after bytes that were read before, in so many reads at most.
fn trace_script<S: Source, W: Sink>(
    alloc: Global,
    script: Script,
    source: &mut S,
    sink: &mut W,
    before: &[u8],
    turns: usize,
) -> Result<(), EngineFault>
    ensures served { (e : Standing) × Served AnswerOrMemory (waiting_below true) (first_standing script Mode.Rendezvous) before.now turns (S.seen source.old) (S.seen source.new) (W.seen sink.old) (W.seen sink.new) e result }
    ensures counted { Counted turns (failed_reads result) (failed_writes result) (S.seen source.old) (S.seen source.new) (W.seen sink.old) (W.seen sink.new) }
{
    let Ok(code) = lower(alloc, script) else {
        return Err(EngineFault::Memory);
    };
    let subject = Subject {
        code: &code,
        mode: Mode::Rendezvous,
    };
    trace_behind(alloc, subject, source, sink, before, turns)
}

/// Reads a script up to a line `---` (docs/FORMATS.md) and answers the trace words after it. Standard sends are not
/// buffered. A script that is refused writes nothing, and the reads of the script count towards 1,000,000.
pub fn plain<S: Source, W: Sink>(
    alloc: Global,
    source: &mut S,
    sink: &mut W,
) -> Result<(), PlainFault>
    ensures served { PlainServed (S.seen source.old) (S.seen source.new) (W.seen sink.old) (W.seen sink.new) result }
    ensures counted { Counted READS_MAX (plain_failed_reads result) (plain_failed_writes result) (S.seen source.old) (S.seen source.new) (W.seen sink.old) (W.seen sink.new) }
{
    let mut text = Vec::new(alloc);
    plain_keeping(alloc, source, sink, &mut text)
}

/// The same; where the script is refused, its bytes are left in `text`, as far as they were read.
#[tactic(auto, using(crate::proofs::PlainLaws::plainly))]
pub fn plain_keeping<S: Source, W: Sink>(
    alloc: Global,
    source: &mut S,
    sink: &mut W,
    text: &mut Vec<u8>,
) -> Result<(), PlainFault>
    ensures served { PlainServed (S.seen source.old) (S.seen source.new) (W.seen sink.old) (W.seen sink.new) result }
    ensures counted { Counted READS_MAX (plain_failed_reads result) (plain_failed_writes result) (S.seen source.old) (S.seen source.new) (W.seen sink.old) (W.seen sink.new) }
    ensures kept { KeepsRefused text.new.items result }
{
    let head = match collect(alloc, source) {
        Ok(head) => head,
        Err(fault) => return Err(PlainFault::Engine(fault)),
    };
    let script = match read(alloc, &head.script) {
        Ok(script) => script,
        Err(fault) => {
            let fault = refusal(&head.script, fault);
            *text = head.script;
            return Err(fault);
        }
    };
    if let HeadEnd::InputEnds = head.end {
        return Ok(());
    }
    let turns = READS_MAX - head.reads;
    match trace_script(alloc, script, source, sink, &head.behind, turns) {
        Ok(()) => Ok(()),
        Err(fault) => Err(PlainFault::Engine(fault)),
    }
}
