//! All that a picture tells of a run.

ghost use Rattle.std.specs.Prelude.{◌≡◌, true, false, IfOk, IsErrOf};
ghost use Rattle.mpd_picture.specs.Pictures as spec;

use crate::glyph::Glyph;
use crate::glyphs::glyphs_of;
use crate::marks::marks_of;
use crate::shape::Shape;
use crate::shapes::{places_of, shapes_of};
use mpd_core::Core;
use mpd_model::{Mode, Outcome};
use mpd_trail::Debugger;
use std::alloc::{AllocError, Global};

/// How much of a run is drawn at most: this many calls that are issued, matches, releases, notes,
/// and ranks that go on.
pub const GLYPHS_MAX: usize = 20_000;

/// Why a run isn't drawn.
#[derive(Clone, Copy)]
pub enum DrawFault {
    /// Its steps show more than `GLYPHS_MAX`.
    TooLong,
    /// Memory was refused.
    Memory,
}

impl From<AllocError> for DrawFault {
    ghost use Rattle.mpd_picture.specs.declared.picture.DrawFault.TheVariants.{Memory};

    ghost from_gives = { λ _ e. e ≡ Memory };

    fn from(_: AllocError) -> DrawFault {
        DrawFault::Memory
    }
}

/// A picture of a run: all that its drawing and its text tell.
#[derive(Drop)]
pub struct Picture {
    /// How many ranks there are, 1 to 16.
    pub ranks: usize,
    /// How standard sends behave.
    pub mode: Mode,
    /// How many steps the run has.
    pub depth: usize,
    /// How it has ended; none if it can go on.
    pub outcome: Option<Outcome>,
    /// How many rows the drawing has.
    pub rows: usize,
    /// How many places the list of what is told has.
    pub places: usize,
    /// What is drawn: the lanes, what the steps show, the candidates, and how ranks are at the end.
    pub shapes: Vec<Shape>,
}

/// The picture of `depth` steps that show this, in the state to which they lead.
fn drawn_of(
    alloc: Global,
    core: &Core<'_>,
    depth: usize,
    glyphs: &[Glyph],
) -> Result<Picture, AllocError>
    ensures { IfOk result
        (λ picture. spec.IsPicture core.now.program core.now.world depth glyphs.now picture) }
{
    let outcome = core.outcome(alloc)?;
    let marks = marks_of(alloc, glyphs)?;
    let shapes = shapes_of(alloc, core, &marks)?;
    Ok(Picture {
        ranks: core.rank_count(),
        mode: core.board().mode(),
        depth,
        outcome,
        rows: marks.rows(),
        places: places_of(glyphs),
        shapes,
    })
}

/// The picture of the steps that are not undone. It is refused exactly if they show too much, or if
/// memory is.
pub fn picture_of(alloc: Global, debugger: &Debugger<'_>) -> Result<Picture, DrawFault>
    ensures ok { IfOk result (λ p. spec.IsPictureOf debugger.now.trail debugger.now.world p) }
    ensures few { IfOk result (λ p. spec.is_drawn debugger.now.trail ≡ true) }
    ensures too_long { IsErrOf result DrawFault.TooLong → spec.is_drawn debugger.now.trail ≡ false }
{
    let glyphs = glyphs_of(alloc, debugger)?;
    if glyphs.len() > GLYPHS_MAX {
        return Err(DrawFault::TooLong);
    }
    let picture = drawn_of(alloc, debugger.core(), debugger.depth(), &glyphs)?;
    Ok(picture)
}
