//! What holds of the canonical text (docs/LANGUAGE.md, "Canonical text").

ghost use Rattle.mpd_model.specs.grammar.Printable as printable;
ghost use Rattle.mpd_model.specs.grammar.ReaderLaws.{WrittenScriptsAreRead, ScriptsAreWritten};

/// If each text that the grammar writes as a script is read as that script, the canonical text of a
/// printable script is read as that script, with the lines of this text.
pub fn canonical_is_read_again()
    ensures { WrittenScriptsAreRead → printable.CanonicalIsReadAgain }
{}

/// If each script that is read is also written so by the grammar, it is printable.
pub fn read_scripts_are_printable()
    ensures { ScriptsAreWritten → printable.ReadScriptsArePrintable }
{}

/// No way to write an expression has fewer brackets and operators than its canonical text.
pub fn fewest_brackets()
    ensures { printable.FewestBrackets }
{}
