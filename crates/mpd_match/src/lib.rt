//! Where calls meet: the calls of all ranks, the partner of each, the match sets, and the lines that free calls wait in.
#![tactic(auto)]

pub mod board;
mod choices;
mod complete;
mod kinds;
mod listing;
mod lookup;
mod order;
pub mod record;
mod release;
mod side;
mod sides;
mod slots;
mod tag_bits;
mod walk;
pub mod why;

pub use board::Board;
pub use kinds::is_any_or;
pub use record::PairRecord;
pub use why::Why;
