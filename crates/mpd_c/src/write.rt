//! The text of a script in C, written to a sink.

ghost use Rattle.mpd_c.specs.Written.{WroteC};

use crate::script::print_c;
use mpd_lines::{EngineFault, write_all};
use mpd_model::{Script, Sink};
use std::alloc::Global;

/// Writes a script as a C program with MPI calls (docs/FORMATS.md, "A script in C"). `WriteFailed`
/// (46) comes only if a write failed, and `Memory` only before anything is written.
pub fn write_c<W: Sink>(alloc: Global, script: &Script, sink: &mut W) -> Result<(), EngineFault>
    ensures { WroteC (W.seen sink.old) (W.seen sink.new) result }
{
    let Ok(text) = print_c(alloc, script) else {
        return Err(EngineFault::Memory);
    };
    if write_all(sink, text.as_bytes()).is_err() {
        return Err(EngineFault::WriteFailed);
    }
    Ok(())
}
