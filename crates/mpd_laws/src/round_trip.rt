//! What holds of reading and printing together.

ghost use Rattle.mpd_model.specs.grammar.Printable as printable;

use crate::canonical;
use crate::reading::{scripts_are_written, written_scripts_are_read};

/// What is read can be printed and read again: its names, places, numbers, brackets and blocks are as the grammar and the limits allow.
pub fn read_scripts_are_printable()
    ensures { printable.ReadScriptsArePrintable }
{
    scripts_are_written();
    canonical::read_scripts_are_printable();
}

/// The canonical text of what can be printed is read as that, in every field but the lines, if it
/// isn't too long.
pub fn canonical_is_read_again()
    ensures { printable.CanonicalIsReadAgain }
{
    written_scripts_are_read();
    canonical::canonical_is_read_again();
}
