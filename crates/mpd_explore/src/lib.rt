//! The runs of a script, depth first along decisions, forward and by undo, whole or in pieces that are cut by their first choices; and
//! witnesses of deadlocks and traps.
#![tactic(auto)]

mod asleep;
pub mod by_pieces;
pub mod deadlocks;
mod ends;
pub mod explorer;
mod follow;
pub mod laws;
pub mod piece_explorer;
pub mod print;
pub mod report;
pub mod same;
mod search;
mod sleep;
pub mod splitter;
pub mod verifier;
pub mod watch;
pub mod witness;

pub use asleep::{asleep_at, is_asleep};
pub use by_pieces::{explore_by_pieces, is_left, is_more};
pub use deadlocks::{
    Leaf, Limits, Report, explore, explore_at, print_report, split, with_witnesses,
};
pub use explorer::{explore_watched, explore_with};
pub use laws::{
    a_deadlock_has_a_witness, each_piece_is_reached, no_choice_is_the_whole, no_more_is_the_whole,
    pieces_join_to_the_walk,
};
pub use piece_explorer::explore_at_watched;
pub use print::{
    print_search, push_choices, push_leaf_text, push_leaves, push_total, witness_here,
};
pub use report::{
    ChoiceList, EndWitness, Ending, RankTrap, RankTrapList, SearchLeaf, SearchLimits, SearchReport,
    Witness, WitnessEnd, Witnesses,
};
pub use same::same_ending;
pub use splitter::{PIECES_MAX, Piece, SplitFault, split_by};
pub use verifier::{WitnessFault, same_trap, verify, verify_end, verify_from};
pub use watch::{Unwatched, Watch};
pub use witness::witness_of;
