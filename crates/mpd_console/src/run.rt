//! Answers the lines of a source on a script: what `mpdbg debug` does.

ghost use Rattle.std.specs.Prelude.{[], false};
ghost use Rattle.mpd_lines.specs.FaultWords.{failed_reads, failed_writes};
ghost use Rattle.mpd_lines.specs.Served.{Served, Counted};
ghost use Rattle.mpd_lines.specs.Telling.{waiting_below};
ghost use Rattle.mpd_console.specs.Says.{ConsoleSays};

use crate::desk::ConsoleDesk;
use mpd_lines::{EngineFault, run};
use mpd_model::{READS_MAX, Sink, Source};
use std::alloc::Global;

/// Answers the lines of a source by a console (docs/CONSOLE.md), however they were cut into reads;
/// the answer to each is written before the next is looked at. `Ok` comes only if the input has
/// ended, `ReadFailed` (45) and `WriteFailed` (46) only if that device failed in this call,
/// `TooManyTurns` (47) only after 1,000,000 reads none of which was the end, and `Memory` only
/// before anything was read or written.
pub fn run_console<S: Source, W: Sink>(
    alloc: Global,
    desk: &mut ConsoleDesk<'_, '_>,
    source: &mut S,
    sink: &mut W,
) -> Result<(), EngineFault>
    ensures served { Served ConsoleSays (waiting_below false) desk.old [] READS_MAX (S.seen source.old) (S.seen source.new) (W.seen sink.old) (W.seen sink.new) desk.new result }
    ensures counted { Counted READS_MAX (failed_reads result) (failed_writes result) (S.seen source.old) (S.seen source.new) (W.seen sink.old) (W.seen sink.new) }
{
    run(alloc, source, sink, desk)
}
