//! Lists that are changed in place, and that count their writes: a tape, and disjoint lists that are linked both ways.
#![tactic(auto)]

mod link;
mod links;
pub mod lists;
mod snapshot;
pub mod tape;

pub use lists::{Lists, Spot};
pub use tape::Tape;
