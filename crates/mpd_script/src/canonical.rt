//! The canonical text of a script (docs/LANGUAGE.md, "Canonical text").

ghost use Rattle.std.specs.Prelude.{◌≡◌, ℕ, ◌≤◌, List, IfOk, Ok, length, string_bytes};
ghost use Rattle.mpd_model.specs.grammar.Canonical.{canonical};
ghost use Rattle.mpd_model.specs.grammar.Grammar.{reading, max_text};

use mpd_model::Script;
use std::alloc::{AllocError, Global};

/// The canonical text of a script, which is read as that script, with the lines of this text, unless it is too long. An `Err` is want of memory.
pub fn print(alloc: Global, script: &Script) -> Result<String, AllocError>
    ensures text { IfOk result (λ t. string_bytes t ≡ canonical script.now) }
    ensures again { IfOk result (λ t. length (string_bytes t) ≤ max_text → (ls : List ℕ) × (reading (string_bytes t) ≡ Ok (record script.now { lines = ls }))) }
{
    let _ranks = script.ranks;
    let text = mpd_print::print(alloc, script)?;
    Ok(text)
}
