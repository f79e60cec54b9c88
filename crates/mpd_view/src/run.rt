//! Answers the lines of a source by a view: what `mpdbg debug --view` does at a terminal.

ghost use Rattle.std.specs.Prelude.{[], false};
ghost use Rattle.mpd_lines.specs.FaultWords.{failed_reads, failed_writes};
ghost use Rattle.mpd_lines.specs.Served.{Served, Counted};
ghost use Rattle.mpd_lines.specs.Telling.{waiting_below};
ghost use Rattle.mpd_view.specs.Says.{ViewSays};

use crate::desk::ViewDesk;
use mpd_lines::{EngineFault, run};
use mpd_model::{READS_MAX, Sink, Source};
use std::alloc::Global;

/// Answers the lines of a source by a view (docs/CONSOLE.md, "A view"), however they were cut into reads; the screen after each is
/// written before the next is looked at. `Ok` comes only if the input has ended, `ReadFailed` (45) and `WriteFailed` (46) only if that
/// device failed in this call, `TooManyTurns` (47) only after 1,000,000 reads none of which was the end, and `Memory` only before
/// anything was read or written.
pub fn run_view<S: Source, W: Sink>(
    alloc: Global,
    desk: &mut ViewDesk<'_, '_>,
    source: &mut S,
    sink: &mut W,
) -> Result<(), EngineFault>
    ensures served { Served ViewSays (waiting_below false) desk.old [] READS_MAX (S.seen source.old) (S.seen source.new) (W.seen sink.old) (W.seen sink.new) desk.new result }
    ensures counted { Counted READS_MAX (failed_reads result) (failed_writes result) (S.seen source.old) (S.seen source.new) (W.seen sink.old) (W.seen sink.new) }
{
    run(alloc, source, sink, desk)
}
