//! Laws, which have no code: what holds of the grammar, of the canonical text, and of both (docs/LANGUAGE.md), and of the order of
//! calls (docs/DEFINITIONS.md).
#![tactic(auto)]

pub mod buffers;
pub mod canonical;
pub mod ordering;
pub mod reading;
pub mod round_trip;
