//! Lines of the script that something is about.

ghost use Rattle.std.specs.Prelude.{◌≡◌, MatchOption, None, Some, slice_get};
ghost use Rattle.mpd_model.specs.texts.Lines.{lines_of};

use crate::list::{push_column, push_shown};
use mpd_model::{bare_line, cut_line};
use std::alloc::AllocError;

/// The line of a text after `above` others, without its line end, if there is one.
#[tactic(auto, using(crate::proofs::SourceLemmas::passing))]
pub(crate) fn line_behind(text: &[u8], above: usize) -> Option<&[u8]>
    ensures { MatchOption result (slice_get (lines_of text.now) above ≡ None) (λ l. slice_get (lines_of text.now) above ≡ Some l.now) }
{
    let mut rest = text;
    let mut left = above;
    while let Some((line, behind)) = cut_line(rest) {
        if left > 0 {
            left -= 1;
            rest = behind;
        } else {
            return Some(bare_line(line));
        }
    }
    None
}

/// Adds a line of the script, which has this number.
fn push_source_line(out: &mut String, number: usize, line: &[u8]) -> Result<(), AllocError> {
    push_column(out, number)?;
    out.push_str("  ")?;
    push_shown(out, line)?;
    out.push('\n')
}

/// Adds the line of a number of a text, and nothing if there is none. `Err` means that memory was
/// refused.
pub fn push_source(out: &mut String, text: &[u8], number: usize) -> Result<(), AllocError> {
    if number < 1 {
        return Ok(());
    }
    match line_behind(text, number - 1) {
        None => Ok(()),
        Some(line) => push_source_line(out, number, line),
    }
}
