//! Pictures of the steps of a debugger that are not undone, as SVG and as text.

ghost use Rattle.std.specs.Prelude.{◌≡◌, ◌≤◌, true, false, IfOk, IsErrOf};
ghost use Rattle.mpd_picture.specs.Pictures.{is_drawn};

use crate::picture::{DrawFault, Picture, picture_of};
use crate::places::{column_x, row_y, told_y, tracks_height};
use crate::rows::push_rows;
use crate::style::{LARGE_STYLE, LEGEND, OPENED, STYLE};
use crate::svg::{push_list, push_shapes};
use mpd_core::Core;
use mpd_model::print_outcome;
use mpd_trail::Debugger;
use std::alloc::{AllocError, Global};

/// What a drawing has beside the lanes.
#[derive(Clone, Copy)]
pub enum Look {
    /// The list of what is told, and the legend.
    Full,
    /// Neither.
    Plain,
    /// Neither, and larger, with larger texts.
    Large,
}

/// The title, as `2 ranks, rendezvous, 21 steps: deadlock 0.1 1.0`.
fn title_of(alloc: Global, picture: &Picture) -> Result<String, AllocError> {
    let (ranks, mode, depth) = (picture.ranks, picture.mode, picture.depth);
    let mut title = format!(in alloc; "{ranks} ranks, {mode}, {depth} steps: ")?;
    match &picture.outcome {
        None => title.push_str("can go on")?,
        Some(outcome) => {
            let how = print_outcome(alloc, outcome)?;
            title.push_str(&how)?;
        }
    }
    Ok(title)
}

/// How wide the box of a drawing is, in pixels.
fn width_of(picture: &Picture, look: Look) -> usize
    ensures { result ≤ 50000000 }
{
    match look {
        Look::Full => column_x(picture.ranks) + 560,
        Look::Plain | Look::Large => column_x(picture.ranks),
    }
}

/// How high the box of a drawing is, in pixels. In a full one the legend stands below the rows, and
/// the list beside both.
fn height_of(picture: &Picture, look: Look) -> usize
    ensures { result ≤ 50000000 }
{
    let rows = row_y(picture.rows) + tracks_height(picture.ranks);
    match look {
        Look::Full => (rows + 274).max(told_y(picture.places) + 12),
        Look::Plain | Look::Large => rows + 134,
    }
}

/// How long this length of the box is drawn, in pixels.
fn drawn(look: Look, length: usize) -> usize
    requires { length ≤ 50000000 }
{
    match look {
        Look::Full | Look::Plain => length,
        Look::Large => length * 8 / 5,
    }
}

/// Adds how a drawing with that title begins.
fn push_head(
    out: &mut String,
    picture: &Picture,
    look: Look,
    title: &str,
) -> Result<(), AllocError> {
    let (width, height) = (width_of(picture, look), height_of(picture, look));
    let (wide, high) = (drawn(look, width), drawn(look, height));
    out.push_str(OPENED)?;
    write!(
        out,
        r#" width="{wide}" height="{high}" viewBox="0 0 {width} {height}">
<title>{title}</title>
"#
    )?;
    out.push_str(STYLE)?;
    match look {
        Look::Full | Look::Plain => {}
        Look::Large => out.push_str(LARGE_STYLE)?,
    }
    write!(
        out,
        r#"<rect class="mpd-paper" width="{width}" height="{height}"/>
<text class="mpd-head" x="12" y="24">{title}</text>
"#
    )
}

/// Adds the list of what is told, and the legend below the rows.
fn push_list_and_legend(
    alloc: Global,
    core: &Core<'_>,
    out: &mut String,
    picture: &Picture,
) -> Result<(), AllocError> {
    push_list(alloc, core, out, picture)?;
    let y = row_y(picture.rows) + 140 + tracks_height(picture.ranks);
    write!(out, "<g transform=\"translate(12 {y})\">\n")?;
    out.push_str(LEGEND)
}

/// The text of a drawing. `Err` means that memory was refused.
fn svg_of(
    alloc: Global,
    core: &Core<'_>,
    picture: &Picture,
    look: Look,
) -> Result<String, AllocError> {
    let title = title_of(alloc, picture)?;
    let mut out = String::new(alloc);
    push_head(&mut out, picture, look, &title)?;
    push_shapes(alloc, core, &mut out, picture)?;
    match look {
        Look::Full => push_list_and_legend(alloc, core, &mut out, picture)?,
        Look::Plain | Look::Large => out.push_str("</svg>\n")?,
    }
    Ok(out)
}

/// The drawing of the steps that are not undone, as SVG 1.1: the text of `picture_of`.
pub fn draw(alloc: Global, debugger: &Debugger<'_>, look: Look) -> Result<String, DrawFault>
    ensures few { IfOk result (λ svg. is_drawn debugger.now.trail ≡ true) }
    ensures too_long { IsErrOf result DrawFault.TooLong → is_drawn debugger.now.trail ≡ false }
{
    let picture = picture_of(alloc, debugger)?;
    let svg = svg_of(alloc, debugger.core(), &picture, look)?;
    Ok(svg)
}

/// Adds the picture of the steps that are not undone, as text of 80 columns at most, or one line if
/// they show more than `GLYPHS_MAX`. `Err` means that memory was refused.
pub fn push_picture(debugger: &Debugger<'_>, out: &mut String) -> Result<(), AllocError> {
    let alloc = *out.allocator();
    match picture_of(alloc, debugger) {
        Ok(picture) => push_rows(out, &picture),
        Err(DrawFault::TooLong) => {
            out.push_str("refused: this run has too many calls to be drawn\n")
        }
        Err(DrawFault::Memory) => Err(AllocError),
    }
}
