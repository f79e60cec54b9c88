//! Traces a script: trace words in, answers out.

ghost use Rattle.std.specs.Prelude.{[], true, codes};
ghost use Rattle.mpd_model.specs.runs.Trail.{Standing, first_standing};
ghost use Rattle.mpd_model.specs.texts.Answers.{AnswerOrMemory};
ghost use Rattle.mpd_lines.specs.Echo.{Echoes};
ghost use Rattle.mpd_lines.specs.FaultWords.{failed_reads, failed_writes};
ghost use Rattle.mpd_lines.specs.Served.{Served, Counted};
ghost use Rattle.mpd_lines.specs.Telling.{waiting_below};

use crate::desk::{EchoDesk, TraceDesk};
use mpd_code::{Code, Subject};
use mpd_lines::{EngineFault, run, run_behind};
use mpd_model::{Mode, READS_MAX, Sink, Source};
use std::alloc::Global;

/// Answers the trace words of a source (docs/FORMATS.md, "Trace words") from the start of a script, and writes exactly
/// the answers to the lines read, however they were cut into reads. `Ok` comes only where the input has ended,
/// `ReadFailed` (45) and `WriteFailed` (46) only where that device failed in this call, `TooManyTurns` (47) only after
/// 1,000,000 reads none of which was the end, and `Memory` only before anything was read or written.
pub fn trace<S: Source, W: Sink>(
    alloc: Global,
    code: &Code,
    mode: Mode,
    source: &mut S,
    sink: &mut W,
) -> Result<(), EngineFault>
    ensures served { (e : Standing) × Served AnswerOrMemory (waiting_below true) (first_standing code.now.program mode) [] READS_MAX (S.seen source.old) (S.seen source.new) (W.seen sink.old) (W.seen sink.new) e result }
    ensures counted { Counted READS_MAX (failed_reads result) (failed_writes result) (S.seen source.old) (S.seen source.new) (W.seen sink.old) (W.seen sink.new) }
{
    let subject = Subject { code, mode };
    trace_behind(alloc, subject, source, sink, &[], READS_MAX)
}

/// The same, with each line shown before its answer, after `> `: a line that was too long to be kept as `..`.
pub fn trace_echoing<S: Source, W: Sink>(
    alloc: Global,
    subject: Subject<'_>,
    source: &mut S,
    sink: &mut W,
) -> Result<(), EngineFault>
    ensures served { (e : Standing) × Served (Echoes (codes "> ") AnswerOrMemory) (waiting_below true) (first_standing subject.entry.code.now.program subject.entry.mode) [] READS_MAX (S.seen source.old) (S.seen source.new) (W.seen sink.old) (W.seen sink.new) e result }
    ensures counted { Counted READS_MAX (failed_reads result) (failed_writes result) (S.seen source.old) (S.seen source.new) (W.seen sink.old) (W.seen sink.new) }
{
    let Ok(desk) = TraceDesk::start(alloc, subject.code, subject.mode) else {
        return Err(EngineFault::Memory);
    };
    let mut desk = EchoDesk::new(desk);
    run(alloc, source, sink, &mut desk)
}

/// The same as `trace` after bytes that were read before, in so many reads at most.
pub(crate) fn trace_behind<S: Source, W: Sink>(
    alloc: Global,
    subject: Subject<'_>,
    source: &mut S,
    sink: &mut W,
    before: &[u8],
    turns: usize,
) -> Result<(), EngineFault>
    ensures served { (e : Standing) × Served AnswerOrMemory (waiting_below true) (first_standing subject.entry.code.now.program subject.entry.mode) before.now turns (S.seen source.old) (S.seen source.new) (W.seen sink.old) (W.seen sink.new) e result }
    ensures counted { Counted turns (failed_reads result) (failed_writes result) (S.seen source.old) (S.seen source.new) (W.seen sink.old) (W.seen sink.new) }
{
    let Ok(mut desk) = TraceDesk::start(alloc, subject.code, subject.mode) else {
        return Err(EngineFault::Memory);
    };
    run_behind(alloc, source, sink, &mut desk, before, turns)
}
