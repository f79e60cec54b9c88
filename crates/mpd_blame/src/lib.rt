//! The step that decided how a run ends (docs/DEFINITIONS.md, "The step that decides").
#![tactic(auto)]

pub mod back;
mod sight;
pub mod told;
mod words;

pub use back::{Blame, Decided, blame_run};
pub use told::{Deciding, PlacedBlame, blame_of_leaf, blames_of_leaves, place_blame};
pub use words::MarkedBlame;
