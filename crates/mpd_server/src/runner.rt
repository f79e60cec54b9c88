//! Answers the requests of a source on a script: what `mpdbg run` does.

ghost use Rattle.mpd_lines.specs.FaultWords.{failed_reads, failed_writes};
ghost use Rattle.mpd_lines.specs.Served.{Counted};
ghost use Rattle.mpd_wire.specs.Ended.{Ended};
ghost use Rattle.mpd_wire.specs.Requests.{request_by, request_in};
ghost use Rattle.mpd_session.specs.Held.{Held, opened};
ghost use Rattle.mpd_session.specs.Respond.{Responds, KeepsNoHistory};

use mpd_code::Code;
use mpd_lines::EngineFault;
use mpd_model::{Mode, READS_MAX, Sink, Source};
use mpd_session::Session;
use mpd_wire::{End, serve_by};
use std::alloc::Global;

/// Answers the requests of a source (docs/SESSIONS.md) with a session at the start of a script, and
/// writes exactly what the session replies, however the lines were cut into reads; each reply is
/// written before the next request is asked. `Ok` comes only if the input has ended, `ReadFailed`
/// (45) and `WriteFailed` (46) only if that device failed in this call, `TooManyTurns` (47) only
/// after 1,000,000 reads none of which was the end, and `Memory` only before anything was read or
/// written. What is read with `--wide` alone is no request here.
pub fn run<S: Source, W: Sink>(
    alloc: Global,
    code: &Code,
    mode: Mode,
    source: &mut S,
    sink: &mut W,
) -> Result<End, EngineFault>
    ensures served { (e : Held) × Ended request_in Responds KeepsNoHistory (opened code.now.program mode) (S.seen source.old) (S.seen source.new) (W.seen sink.old) (W.seen sink.new) e result }
    ensures counted { Counted READS_MAX (failed_reads result) (failed_writes result) (S.seen source.old) (S.seen source.new) (W.seen sink.old) (W.seen sink.new) }
{
    run_by(alloc, code, mode, false, source, sink)
}

/// The same; with `wide` what is read with `--wide` alone is a request, too.
pub fn run_by<S: Source, W: Sink>(
    alloc: Global,
    code: &Code,
    mode: Mode,
    wide: bool,
    source: &mut S,
    sink: &mut W,
) -> Result<End, EngineFault>
    ensures served { (e : Held) × Ended (request_by wide) Responds KeepsNoHistory (opened code.now.program mode) (S.seen source.old) (S.seen source.new) (W.seen sink.old) (W.seen sink.new) e result }
    ensures counted { Counted READS_MAX (failed_reads result) (failed_writes result) (S.seen source.old) (S.seen source.new) (W.seen sink.old) (W.seen sink.new) }
{
    let Ok(mut session) = Session::start(alloc, code, mode) else {
        return Err(EngineFault::Memory);
    };
    serve_by(alloc, wide, source, sink, &mut session)
}
