//! Reads frames from a source, asks a desk the body of each, and writes its answers to a sink.
ghost use Rattle.std.specs.Prelude.{◌≡◌, ◌∷◌, [], false, length};
ghost use Rattle.mpd_lines.specs.Served.{Counted};
ghost use Rattle.mpd_frames.specs.FaultWords.{failed_reads, failed_writes};
ghost use Rattle.mpd_frames.specs.Answered.{Answers};
ghost use Rattle.mpd_frames.specs.Fed.{Fed};
ghost use Rattle.mpd_frames.specs.Reading.{Holds, held_bytes, nothing_held};
ghost use Rattle.mpd_frames.specs.Served.{Served};
ghost use Rattle.mpd_frames.specs.Turned.{Turned, CountedOnce};

use crate::desk::FrameDesk;
use crate::fault::StreamFault;
use crate::outbox::Outbox;
use crate::reader::{Added, Reader};
use mpd_lines::{EngineFault, READ_MAX};
use mpd_model::{READS_MAX, Sink, Source};
use std::alloc::Global;

/// Why a session has ended without a fault.
#[derive(Clone, Copy, PartialEq, Eq, Debug)]
pub enum Ending {
    /// The input has ended, after a whole frame or without any.
    InputEnded,
    /// The desk takes no more messages.
    DeskOver,
}

/// What some bytes, or one read, have brought.
#[derive(Clone, Copy)]
enum Turn {
    /// There may be more.
    More,
    /// The desk takes no more messages.
    Over,
    /// The end of the input.
    End,
}

/// What the engine keeps between reads.
#[derive(Drop)]
struct Buffers {
    reader: Reader,
    outbox: Outbox,
}

/// Takes one byte, and answers the frame that is whole with it.
fn take<W: Sink, D: FrameDesk>(
    reader: &mut Reader,
    outbox: &mut Outbox,
    desk: &mut D,
    sink: &mut W,
    byte: u8,
) -> Result<Turn, StreamFault>
    requires waiting { D.over desk.old ≡ false }
    requires held { Holds reader.old }
    ensures { Fed (Answers D.says D.over) D.over desk.old (held_bytes reader.old) (byte ∷ []) (W.seen sink.old) (W.seen sink.new) desk.new reader.new result }
{
    match reader.add(byte) {
        Err(fault) => return Err(fault),
        Ok(Added::Within) => return Ok(Turn::More),
        Ok(Added::Whole) => {}
    }
    let told = outbox.answer(desk, reader.body(), sink);
    reader.start();
    match told {
        Err(_) => Err(StreamFault::Engine(EngineFault::WriteFailed)),
        Ok(()) if desk.is_over() => Ok(Turn::Over),
        Ok(()) => Ok(Turn::More),
    }
}

/// Answers the frames that end within the piece, up to the last message that the desk takes.
#[tactic(auto, using(crate::proofs::FedLemmas::beginning))]
fn feed<W: Sink, D: FrameDesk>(
    reader: &mut Reader,
    outbox: &mut Outbox,
    desk: &mut D,
    sink: &mut W,
    piece: &[u8],
) -> Result<Turn, StreamFault>
    requires waiting { D.over desk.old ≡ false }
    requires held { Holds reader.old }
    ensures { Fed (Answers D.says D.over) D.over desk.old (held_bytes reader.old) piece.now (W.seen sink.old) (W.seen sink.new) desk.new reader.new result }
{
    for byte in piece {
        match take(reader, outbox, desk, sink, *byte) {
            Ok(Turn::More) => {}
            Ok(Turn::Over) => return Ok(Turn::Over),
            Ok(Turn::End) => return Ok(Turn::End),
            Err(fault) => return Err(fault),
        }
    }
    Ok(Turn::More)
}

/// Makes one read, of 4,096 bytes at most, and answers all frames that have ended.
fn take_turn<S: Source, W: Sink, D: FrameDesk>(
    source: &mut S,
    buffer: &mut [u8; READ_MAX],
    buffers: &mut Buffers,
    desk: &mut D,
    sink: &mut W,
) -> Result<Turn, StreamFault>
    requires waiting { D.over desk.old ≡ false }
    requires held { Holds buffers.old.reader }
    ensures turned { Turned (Answers D.says D.over) D.over desk.old buffers.old.reader (S.seen source.old) (S.seen source.new) (W.seen sink.old) (W.seen sink.new) desk.new buffers.new.reader result }
    ensures counted { CountedOnce (S.seen source.old) (S.seen source.new) (W.seen sink.old) (W.seen sink.new) result }
    ensures asked { length buffer.new ≡ 4096 }
{
    let Ok(count) = source.read(buffer) else {
        return Err(StreamFault::Engine(EngineFault::ReadFailed));
    };
    if count == 0 {
        return Ok(Turn::End);
    }
    let (piece, _) = buffer.split_at(count);
    feed(&mut buffers.reader, &mut buffers.outbox, desk, sink, piece)
}

/// Answers the frames of a source, however they are cut into reads, in 1,000,000 reads at most. The answer to each message is
/// written before the next is asked, and before the next read.
pub fn run<S: Source, W: Sink, D: FrameDesk>(
    alloc: Global,
    source: &mut S,
    sink: &mut W,
    desk: &mut D,
) -> Result<Ending, StreamFault>
    requires { D.over desk.old ≡ false }
    ensures served { Served (Answers D.says D.over) D.over desk.old READS_MAX (S.seen source.old) (S.seen source.new) (W.seen sink.old) (W.seen sink.new) desk.new result }
    ensures counted { Counted READS_MAX (failed_reads result) (failed_writes result) (S.seen source.old) (S.seen source.new) (W.seen sink.old) (W.seen sink.new) }
{
    run_in(alloc, source, sink, desk, READS_MAX)
}

/// The same in so many reads at most.
pub fn run_in<S: Source, W: Sink, D: FrameDesk>(
    alloc: Global,
    source: &mut S,
    sink: &mut W,
    desk: &mut D,
    turns: usize,
) -> Result<Ending, StreamFault>
    requires { D.over desk.old ≡ false }
    ensures served { Served (Answers D.says D.over) D.over desk.old turns (S.seen source.old) (S.seen source.new) (W.seen sink.old) (W.seen sink.new) desk.new result }
    ensures counted { Counted turns (failed_reads result) (failed_writes result) (S.seen source.old) (S.seen source.new) (W.seen sink.old) (W.seen sink.new) }
{
    let Ok(reader) = Reader::new(alloc) else {
        return Err(StreamFault::Engine(EngineFault::Memory));
    };
    let Ok(outbox) = Outbox::new(alloc) else {
        return Err(StreamFault::Engine(EngineFault::Memory));
    };
    run_kept(Buffers { reader, outbox }, source, sink, desk, turns)
}

/// The same with the buffers that it keeps.
fn run_kept<S: Source, W: Sink, D: FrameDesk>(
    buffers: Buffers,
    source: &mut S,
    sink: &mut W,
    desk: &mut D,
    turns: usize,
) -> Result<Ending, StreamFault>
    requires waiting { D.over desk.old ≡ false }
    requires none { buffers.reader ≡ nothing_held }
    ensures served { Served (Answers D.says D.over) D.over desk.old turns (S.seen source.old) (S.seen source.new) (W.seen sink.old) (W.seen sink.new) desk.new result }
    ensures counted { Counted turns (failed_reads result) (failed_writes result) (S.seen source.old) (S.seen source.new) (W.seen sink.old) (W.seen sink.new) }
{
    let mut buffers = buffers;
    let mut buffer = [0u8; READ_MAX];
    for _turn in 0..turns {
        match take_turn(source, &mut buffer, &mut buffers, desk, sink) {
            Ok(Turn::More) => {}
            Ok(Turn::Over) => return Ok(Ending::DeskOver),
            Ok(Turn::End) if buffers.reader.is_empty() => return Ok(Ending::InputEnded),
            Ok(Turn::End) => return Err(StreamFault::CutOff),
            Err(fault) => return Err(fault),
        }
    }
    Err(StreamFault::Engine(EngineFault::TooManyTurns))
}
