//! What a server writes of itself.

ghost use Rattle.std.specs.Prelude.{◌++◌, decimal};
ghost use Rattle.mpd_lines.specs.Gathering.{Written};
ghost use Rattle.mpd_model.specs.texts.Texts.{line};
ghost use Rattle.mpd_server.specs.Announced.{Concluded, IsOutcome, Listened};

use crate::fault::HostFault;
use itoa::Buffer;
use mpd_lines::write_all;
use mpd_model::{DeviceFault, Sink};
use std::net::TcpListener;

/// Writes a number, and ends its line. Takes no memory.
#[tactic(auto, using(crate::proofs::AnnouncedLemmas::saying))]
fn end_line<W: Sink>(sink: &mut W, number: usize) -> Result<(), DeviceFault>
    ensures { Written (line (decimal number)) (W.seen sink.old) (W.seen sink.new) result }
{
    let mut digits = Buffer::new();
    match write_all(sink, digits.format(number).as_bytes()) {
        Ok(()) => write_all(sink, b"\n"),
        Err(fault) => Err(fault),
    }
}

/// Writes a line: a word, and a number. Takes no memory.
#[tactic(auto, using(crate::proofs::AnnouncedLemmas::saying))]
fn say<W: Sink>(sink: &mut W, word: &str, number: usize) -> Result<(), DeviceFault>
    ensures { Written (line (word.now ++ decimal number)) (W.seen sink.old) (W.seen sink.new) result }
{
    match write_all(sink, word.as_bytes()) {
        Ok(()) => end_line(sink, number),
        Err(fault) => Err(fault),
    }
}

/// Writes `listening P`, with the port of the listener.
pub(crate) fn listen<W: Sink>(listener: &TcpListener, sink: &mut W) -> Result<(), HostFault>
    ensures { Listened (W.seen sink.old) (W.seen sink.new) result }
{
    let port = match listener.local_addr() {
        Ok(address) => address.port(),
        Err(error) => return Err(HostFault::NoPort(error)),
    };
    match say(sink, "listening ", usize::from(port)) {
        Ok(()) => Ok(()),
        Err(_) => Err(HostFault::WriteFailed),
    }
}

/// Writes `served E` if clients were served to the end, and else passes the fault on.
pub(crate) fn conclude<W: Sink>(
    outcome: Result<usize, HostFault>,
    sink: &mut W,
) -> Result<usize, HostFault>
    requires { IsOutcome outcome }
    ensures { Concluded outcome (W.seen sink.old) (W.seen sink.new) result }
{
    match outcome {
        Ok(entries) => match say(sink, "served ", entries) {
            Ok(()) => Ok(entries),
            Err(_) => Err(HostFault::WriteFailed),
        },
        Err(fault) => Err(fault),
    }
}
