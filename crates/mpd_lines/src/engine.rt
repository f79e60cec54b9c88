//! Reads lines from a source, asks a desk each of them, and writes the answers to a sink.
ghost use Rattle.std.specs.Prelude.{◌≡◌, [], OnOk, length};
ghost use Rattle.mpd_lines.specs.FaultWords.{engine_fault_number, engine_fault_name, failed_reads, failed_writes};
ghost use Rattle.mpd_lines.specs.Forward.{ended_from, part_from, last_line};
ghost use Rattle.mpd_lines.specs.Gathering.{Spoken};
ghost use Rattle.mpd_lines.specs.Served.{Served, Counted};
ghost use Rattle.mpd_lines.specs.Telling.{waiting_below};
ghost use Rattle.mpd_lines.specs.Turned.{Turned, CountedOnce};

use crate::desk::LineDesk;
use crate::feeder::Feeder;
use crate::outbox::Outbox;
use mpd_model::{DeviceFault, READS_MAX, Sink, Source};
use std::alloc::Global;
use std::error::Error;
use std::fmt;

/// Bytes that one read can give.
pub const READ_MAX: usize = 4096;

/// Why the engine has ended before its input has.
#[derive(Clone, Copy, PartialEq, Eq, Debug)]
pub enum EngineFault {
    /// A read failed.
    ReadFailed,
    /// A write failed.
    WriteFailed,
    /// As many reads were made as one engine may make.
    TooManyTurns,
    /// A buffer that the engine keeps was refused, before anything was read.
    Memory,
}

impl EngineFault {
    /// The number of the fault; 0 for refused memory, which has none.
    pub fn number(self) -> u8
        ensures { result ≡ engine_fault_number self }
    {
        match self {
            EngineFault::ReadFailed => 45,
            EngineFault::WriteFailed => 46,
            EngineFault::TooManyTurns => 47,
            EngineFault::Memory => 0,
        }
    }

    /// The name of the fault: `read-failed`, `write-failed`, `too-many-turns` or `memory`.
    pub fn name(self) -> &'static str
        ensures { result.now ≡ engine_fault_name self }
    {
        match self {
            EngineFault::ReadFailed => "read-failed",
            EngineFault::WriteFailed => "write-failed",
            EngineFault::TooManyTurns => "too-many-turns",
            EngineFault::Memory => "memory",
        }
    }
}

impl fmt::Display for EngineFault {
    ghost use Rattle.std.specs.Prelude.{Some};

    ghost output = { λ fault. Some (engine_fault_name fault) };

    fn fmt<W: fmt::Write>(&self, f: &mut fmt::Formatter<W>) -> fmt::Result {
        f.write_str(self.name())
    }
}

impl Error for EngineFault {}

/// What the engine keeps between reads.
#[derive(Drop)]
struct Buffers {
    feeder: Feeder,
    outbox: Outbox,
}

/// What one read has brought.
#[derive(Clone, Copy)]
enum Turn {
    /// Bytes.
    More,
    /// The end of the input.
    End,
}

/// Writes the answers to the lines that end within the piece.
#[tactic(auto, using(crate::proofs::SpokenLaws::speaking))]
fn tell<W: Sink, D: LineDesk>(
    feeder: &mut Feeder,
    outbox: &mut Outbox,
    desk: &mut D,
    sink: &mut W,
    piece: &[u8],
) -> Result<(), DeviceFault>
    requires { outbox.old ≡ [] }
    ensures spoken { Spoken D.says (waiting_below D.gathers) desk.old (ended_from feeder.old piece.now) (W.seen sink.old) (W.seen sink.new) desk.new result }
    ensures part { OnOk result (feeder.new ≡ part_from feeder.old piece.now) }
    ensures none { OnOk result (outbox.new ≡ []) }
{
    feeder.feed(desk, piece, outbox, sink)?;
    outbox.flush(sink)
}

/// Writes the answer to the last line, which the end of the input ends.
#[tactic(auto, using(crate::proofs::SpokenLaws::speaking))]
fn tell_last<W: Sink, D: LineDesk>(
    feeder: &mut Feeder,
    outbox: &mut Outbox,
    desk: &mut D,
    sink: &mut W,
) -> Result<(), DeviceFault>
    requires { outbox.old ≡ [] }
    ensures spoken { Spoken D.says (waiting_below D.gathers) desk.old (last_line feeder.old) (W.seen sink.old) (W.seen sink.new) desk.new result }
    ensures none { OnOk result (outbox.new ≡ []) }
{
    feeder.finish(desk, outbox, sink)?;
    outbox.flush(sink)
}

/// Makes one read, of 4,096 bytes at most, and writes the answers to all lines that have ended.
fn take_turn<S: Source, W: Sink, D: LineDesk>(
    source: &mut S,
    buffer: &mut [u8; READ_MAX],
    feeder: &mut Feeder,
    outbox: &mut Outbox,
    desk: &mut D,
    sink: &mut W,
) -> Result<Turn, EngineFault>
    requires { outbox.old ≡ [] }
    ensures turned { Turned D.says (waiting_below D.gathers) desk.old feeder.old (S.seen source.old) (S.seen source.new) (W.seen sink.old) (W.seen sink.new) desk.new feeder.new result }
    ensures counted { CountedOnce (S.seen source.old) (S.seen source.new) (W.seen sink.old) (W.seen sink.new) result }
    ensures none { OnOk result (outbox.new ≡ []) }
    ensures asked { length buffer.new ≡ 4096 }
{
    let Ok(count) = source.read(buffer) else {
        return Err(EngineFault::ReadFailed);
    };
    if count == 0 {
        return match tell_last(feeder, outbox, desk, sink) {
            Ok(()) => Ok(Turn::End),
            Err(_) => Err(EngineFault::WriteFailed),
        };
    }
    let (piece, _) = buffer.split_at(count);
    match tell(feeder, outbox, desk, sink, piece) {
        Ok(()) => Ok(Turn::More),
        Err(_) => Err(EngineFault::WriteFailed),
    }
}

/// Answers the lines of a source, however they are cut into reads, in 1,000,000 reads at most. The answers to what one
/// read brought are written before the next.
pub fn run<S: Source, W: Sink, D: LineDesk>(
    alloc: Global,
    source: &mut S,
    sink: &mut W,
    desk: &mut D,
) -> Result<(), EngineFault>
    ensures served { Served D.says (waiting_below D.gathers) desk.old [] READS_MAX (S.seen source.old) (S.seen source.new) (W.seen sink.old) (W.seen sink.new) desk.new result }
    ensures counted { Counted READS_MAX (failed_reads result) (failed_writes result) (S.seen source.old) (S.seen source.new) (W.seen sink.old) (W.seen sink.new) }
{
    run_behind(alloc, source, sink, desk, &[], READS_MAX)
}

/// Answers the lines of a source after the bytes `before`, which were read already, in at most
/// `turns` reads.
pub fn run_behind<S: Source, W: Sink, D: LineDesk>(
    alloc: Global,
    source: &mut S,
    sink: &mut W,
    desk: &mut D,
    before: &[u8],
    turns: usize,
) -> Result<(), EngineFault>
    ensures served { Served D.says (waiting_below D.gathers) desk.old before.now turns (S.seen source.old) (S.seen source.new) (W.seen sink.old) (W.seen sink.new) desk.new result }
    ensures counted { Counted turns (failed_reads result) (failed_writes result) (S.seen source.old) (S.seen source.new) (W.seen sink.old) (W.seen sink.new) }
{
    let Ok(feeder) = Feeder::new(alloc) else {
        return Err(EngineFault::Memory);
    };
    let Ok(outbox) = Outbox::new(alloc) else {
        return Err(EngineFault::Memory);
    };
    let buffers = Buffers { feeder, outbox };
    run_kept(buffers, source, sink, desk, before, turns)
}

/// The same with the buffers that it keeps.
fn run_kept<S: Source, W: Sink, D: LineDesk>(
    buffers: Buffers,
    source: &mut S,
    sink: &mut W,
    desk: &mut D,
    before: &[u8],
    turns: usize,
) -> Result<(), EngineFault>
    requires part { buffers.feeder ≡ [] }
    requires none { buffers.outbox ≡ [] }
    ensures served { Served D.says (waiting_below D.gathers) desk.old before.now turns (S.seen source.old) (S.seen source.new) (W.seen sink.old) (W.seen sink.new) desk.new result }
    ensures counted { Counted turns (failed_reads result) (failed_writes result) (S.seen source.old) (S.seen source.new) (W.seen sink.old) (W.seen sink.new) }
{
    let Buffers {
        mut feeder,
        mut outbox,
    } = buffers;
    match tell(&mut feeder, &mut outbox, desk, sink, before) {
        Ok(()) => {}
        Err(_) => return Err(EngineFault::WriteFailed),
    }
    let mut buffer = [0u8; READ_MAX];
    for _turn in 0..turns {
        match take_turn(source, &mut buffer, &mut feeder, &mut outbox, desk, sink) {
            Ok(Turn::More) => {}
            Ok(Turn::End) => return Ok(()),
            Err(fault) => return Err(fault),
        }
    }
    Err(EngineFault::TooManyTurns)
}
