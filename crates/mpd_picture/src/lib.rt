//! Pictures of a run: a space-time diagram as SVG, and the same as text (docs/PICTURES.md).
#![tactic(auto)]

mod candidates;
pub mod drawing;
pub mod ends;
pub mod glyph;
mod glyphs;
pub mod laws;
mod marks;
mod paths;
pub mod picture;
mod places;
mod rows;
pub mod shape;
mod shapes;
mod style;
mod svg;

pub use drawing::{Look, draw, push_picture};
pub use ends::{Finish, Wanted};
pub use glyph::{Deed, Note};
pub use laws::{arrows_are_pairs, calls_are_drawn_once, lanes_go_down, messages_go_down};
pub use picture::{DrawFault, GLYPHS_MAX, Picture, picture_of};
pub use shape::Shape;
