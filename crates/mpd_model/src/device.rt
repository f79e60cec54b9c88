//! Where bytes come from and where they go: one read and one write at a time, each counted.
ghost use Rattle.std.specs.Prelude.{◌≡◌, ◌↔◌, ◌+◌, ◌<◌, length, true, OnOk, OnErr, IfOk};
ghost use Rattle.std.specs.IoError.{error_kind};
ghost use Rattle.mpd_model.specs.devices.Ends.{ends_of};
ghost use Rattle.mpd_model.specs.devices.Seen.{SourceSeen, SinkSeen};
ghost use Rattle.std.specs.Io.{ReadsAtMost, WritesAtMost};
ghost use Rattle.std.specs.Io.KnownBytes.{ReadConsumes, WriteAppends};

use mpd_counter::Counter;
use std::io;
use std::io::{ErrorKind, Read, Write};
use thiserror::Error;

/// A call of a device that failed.
#[derive(Clone, Copy, PartialEq, Eq, Debug, Error)]
#[error("device")]
pub struct DeviceFault;

/// What is read from, one read at a time.
pub trait Source {
    /// Its reads so far, and the bytes that are still to come.
    ghost seen: { Self → SourceSeen };

    /// Reads into the front of `buffer`, and returns how many bytes were read: 0 at the end of the
    /// input, or if there is no room. A failed read takes no byte from the input.
    fn read(&mut self, buffer: &mut [u8]) -> Result<usize, DeviceFault>
        ensures bound { ReadsAtMost result buffer.new }
        ensures bytes { ReadConsumes (seen self.old).remaining (seen self.new).remaining result buffer.new }
        ensures counted { (seen self.new).calls ≡ (seen self.old).calls + 1 }
        ensures ok { OnOk result ((seen self.new).failures ≡ (seen self.old).failures) }
        ensures failed { OnErr result ((seen self.new).failures ≡ (seen self.old).failures + 1) }
        ensures ended { (seen self.new).ends ≡ (seen self.old).ends + ends_of result };
}

/// What is written to, one write at a time.
pub trait Sink {
    /// Its writes so far, and the bytes that were written.
    ghost seen: { Self → SinkSeen };

    /// Writes the front of `piece`, and returns how many bytes were written. A write of a nonempty
    /// piece that takes no byte has failed. A failed write writes nothing.
    fn write(&mut self, piece: &[u8]) -> Result<usize, DeviceFault>
        ensures bound { WritesAtMost result piece.now }
        ensures some { 0 < length piece.now → IfOk result (λ n. 0 < n) }
        ensures bytes { WriteAppends (seen self.old).contents (seen self.new).contents result piece.now }
        ensures counted { (seen self.new).calls ≡ (seen self.old).calls + 1 }
        ensures ok { OnOk result ((seen self.new).failures ≡ (seen self.old).failures) }
        ensures failed { OnErr result ((seen self.new).failures ≡ (seen self.old).failures + 1) };
}

/// A call that a signal has interrupted: it did nothing, and may be made again.
fn is_interrupted(error: &io::Error) -> bool
    ensures { (result ≡ true) ↔ (error_kind error.now ≡ ErrorKind.Interrupted) }
{
    error.kind() == ErrorKind::Interrupted
}

/// One read of a reader. A read that is interrupted is made again, and all of them are one.
#[tactic(auto, using(crate::proofs::KeepLaws::keeping))]
fn read_again<R: Read>(reader: &mut R, buffer: &mut [u8]) -> Result<usize, DeviceFault>
    ensures bound { ReadsAtMost result buffer.new }
    ensures bytes { ReadConsumes (R.remaining reader.old) (R.remaining reader.new) result buffer.new }
{
    for _try in 0..u64::MAX {
        match reader.read(buffer) {
            Ok(count) => return Ok(count),
            Err(error) if is_interrupted(&error) => {}
            Err(_) => return Err(DeviceFault),
        }
    }
    Err(DeviceFault)
}

/// One write to a writer. A write that is interrupted is made again, and all of them are one.
#[tactic(auto, using(crate::proofs::KeepLaws::keeping))]
fn write_again<W: Write>(writer: &mut W, piece: &[u8]) -> Result<usize, DeviceFault>
    ensures bound { WritesAtMost result piece.now }
    ensures bytes { WriteAppends (W.contents writer.old) (W.contents writer.new) result piece.now }
{
    for _try in 0..u64::MAX {
        match writer.write(piece) {
            Ok(count) => return Ok(count),
            Err(error) if is_interrupted(&error) => {}
            Err(_) => return Err(DeviceFault),
        }
    }
    Err(DeviceFault)
}

/// Any reader of std as a source. A read that a signal interrupts is made again: that is no failure, and no further call.
/// Memory is one: `FromReader::new(bytes)` reads the slice `bytes`.
#[derive(Drop)]
pub struct FromReader<R> {
    reader: R,
    calls: Counter,
    failures: Counter,
    ends: Counter,
}

impl<R: Read> FromReader<R> {
    /// A source over a reader, with no call counted yet.
    pub fn new(reader: R) -> FromReader<R>
        ensures { ⟦<FromReader<R> as Source>⟧.seen result ≡ record { calls = 0; failures = 0; ends = 0; remaining = R.remaining reader } }
    {
        FromReader {
            reader,
            calls: Counter::new(),
            failures: Counter::new(),
            ends: Counter::new(),
        }
    }
}

impl<R: Read> Source for FromReader<R> {
    ghost seen = { λ s. record { calls = s.calls; failures = s.failures; ends = s.ends; remaining = R.remaining s.reader } };

    fn read(&mut self, buffer: &mut [u8]) -> Result<usize, DeviceFault> {
        self.calls.tick();
        match read_again(&mut self.reader, buffer) {
            Ok(count) => {
                if count == 0 {
                    self.ends.tick();
                }
                Ok(count)
            }
            Err(fault) => {
                self.failures.tick();
                Err(fault)
            }
        }
    }
}

/// Any writer of std as a sink. A write that a signal interrupts is made again: that is no failure, and no further call.
/// Memory is one: `ToWriter::new(Vec::new(alloc))` keeps what was written.
#[derive(Drop)]
pub struct ToWriter<W> {
    writer: W,
    calls: Counter,
    failures: Counter,
}

impl<W: Write> ToWriter<W> {
    /// A sink over a writer, with no call counted yet.
    pub fn new(writer: W) -> ToWriter<W>
        ensures { ⟦<ToWriter<W> as Sink>⟧.seen result ≡ record { calls = 0; failures = 0; contents = W.contents writer } }
    {
        ToWriter {
            writer,
            calls: Counter::new(),
            failures: Counter::new(),
        }
    }

    /// Returns the writer.
    pub fn into_writer(self) -> W
        ensures { W.contents result ≡ (⟦<ToWriter<W> as Sink>⟧.seen self).contents }
    {
        self.writer
    }
}

impl<W: Write> Sink for ToWriter<W> {
    ghost seen = { λ s. record { calls = s.calls; failures = s.failures; contents = W.contents s.writer } };

    fn write(&mut self, piece: &[u8]) -> Result<usize, DeviceFault> {
        self.calls.tick();
        match write_again(&mut self.writer, piece) {
            Ok(count) if count > 0 || piece.is_empty() => Ok(count),
            _ => {
                self.failures.tick();
                Err(DeviceFault)
            }
        }
    }
}
