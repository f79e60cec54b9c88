//! Laws that say what definitions mean without the way they are computed (docs/DEFINITIONS.md). They have no code.
#![tactic(auto)]

pub mod reading;
pub mod steps;
pub mod tokens;
