//! Where a rank stands, as it is shown (docs/PAGES.md, "States").

ghost use Rattle.std.specs.Prelude.{◌≡◌};
ghost use Rattle.mpd_page.specs.Places as spec;

use mpd_core::Core;
use mpd_model::Trap;
use mpd_names::{Stands, stands};

/// What a rank is doing, as it is shown.
#[derive(Clone, Copy, PartialEq, Eq)]
pub enum Doing {
    /// It can run its next statement, or isn't shown yet.
    Runs,
    /// It waits in its last call.
    Blocked,
    Trapped(Trap),
    /// It has no statement left.
    Ended,
}

/// Where a rank stands.
#[derive(Clone, Copy, PartialEq, Eq)]
pub struct RankPlace {
    /// The line, from 1, of its next statement, of the call that it waits in, or of the statement
    /// that trapped it; 0 of one that has ended, and before the start.
    pub line: usize,
    pub doing: Doing,
}

/// On a line.
fn on_line(line: usize, doing: Doing) -> RankPlace
    ensures { result ≡ spec.on_line line doing }
{
    RankPlace { line, doing }
}

/// Before the start.
pub(crate) fn nowhere() -> RankPlace
    ensures { result ≡ spec.nowhere }
{
    on_line(0, Doing::Runs)
}

/// Where a rank stands.
pub(crate) fn place(core: &Core<'_>, rank: usize) -> RankPlace
    ensures { result ≡ spec.place core.now.program core.now.world rank }
{
    match stands(core, rank) {
        None => nowhere(),
        Some(Stands::Ended) => on_line(0, Doing::Ended),
        Some(Stands::At(line)) => on_line(line, Doing::Runs),
        Some(Stands::Waits(call)) | Some(Stands::CanGoOn(call)) => {
            on_line(call.line, Doing::Blocked)
        }
        Some(Stands::Trapped(line, trap)) => on_line(line, Doing::Trapped(trap)),
    }
}
