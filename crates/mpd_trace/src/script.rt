//! The script for so many ranks.

ghost use Rattle.std.specs.Prelude.{◌≡◌, ◌≤◌};
ghost use Rattle.mpd_trace.specs.Ranks.{program_with};

use mpd_model::{RANKS_MAX, Script};

/// The same script for this number of ranks. Nothing else of it changes: `size` is that number, and each rank runs the same body.
pub fn with_ranks(script: Script, ranks: usize) -> Script
    requires { (1 ≤ ranks) × (ranks ≤ RANKS_MAX) }
    ensures { result ≡ program_with ranks script }
{
    Script { ranks, ..script }
}
