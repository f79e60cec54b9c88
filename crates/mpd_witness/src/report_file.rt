//! A witness from the file of a report.

ghost use Rattle.mpd_witness.specs.ReportFile.{IsFromReport};

use crate::report_text::{ReportFault, read_report};
use mpd_explore::EndWitness;
use mpd_lines::read_up_to;
use mpd_model::Source;
use std::alloc::Global;

/// Bytes of a text with a witness: that of a run of 1,000,000 steps fits.
pub const WITNESS_MAX: usize = 33_554_432;

/// Reads a witness of a source, which has the text of a report, or two lines alone (docs/FORMATS.md, "Witnesses"): the only one there, or
/// that of the leaf of this number. A text of more than 33,554,432 bytes is wrong in line 2, and is not read to its end.
#[tactic(auto, using(crate::proofs::ReportFileLemmas::answering))]
pub fn read_report_witness<S: Source>(
    alloc: Global,
    source: &mut S,
    leaf: Option<usize>,
) -> Result<EndWitness, ReportFault>
    ensures { IsFromReport leaf (S.seen source.old) (S.seen source.new) result }
{
    let text = match read_up_to(alloc, source, WITNESS_MAX) {
        Ok(text) => text,
        Err(fault) => return Err(ReportFault::Engine(fault)),
    };
    if text.len() > WITNESS_MAX {
        return Err(ReportFault::BadLine(2));
    }
    let read = read_report(alloc, &text, leaf);
    drop(text);
    read
}
