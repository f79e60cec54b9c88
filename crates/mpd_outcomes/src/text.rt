//! How many runs there are, as text.

ghost use Rattle.std.specs.Prelude.{◌≡◌, ◌++◌, OnOk, string_bytes};
ghost use Rattle.mpd_outcomes.specs.CountText.{count_text};

use crate::report::Count;
use std::alloc::AllocError;

/// Adds a number of runs, in decimal. `Err` means that memory was refused.
pub fn push_count(out: &mut String, count: Count) -> Result<(), AllocError>
    ensures { OnOk result (string_bytes out.new ≡ string_bytes out.old ++ count_text count) }
{
    match count {
        Count::Exactly(runs) => write!(out, "{runs}"),
        Count::More => out.push_str("at least 18446744073709551615"),
    }
}
