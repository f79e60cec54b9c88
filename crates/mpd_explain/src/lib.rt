//! What is known of a state and of a run, as values, and what people are told of it: steps with
//! what they are about, where ranks stand, why a call isn't matched, requests that are lost, why a
//! run ended in a deadlock or a trap and what it left over.
#![tactic(auto)]

pub mod copies;
pub mod ends;
pub mod equal;
pub mod explanation;
pub mod history;
pub mod laws;
mod left;
mod list;
pub mod look_words;
pub mod looks;
pub mod lost;
pub mod near_miss;
pub mod position;
pub mod request_calls;
pub mod steps;
pub mod waits;
pub mod why;
pub mod words;

pub use copies::{copy_end, copy_losses, copy_steps};
pub use ends::{
    Absence, AbsenceList, AwaitedRank, AwaitedRankList, CycleList, End, PlacedList, TrapPlace,
    TrapPlaceList, Wait, WaitList, WishList, absences, end_of, outcome_end, tells_of,
};
pub use equal::{same_end, same_losses, same_steps};
pub use explanation::{explain, explain_all};
pub use history::history_of;
pub use laws::{calls_name_their_statements, placed_steps_are_their_steps};
pub use list::push_if;
pub use look_words::{
    push_call, push_calls, push_enabled, push_history, push_position, push_queues, push_ranks,
    push_why, push_why_rank, push_why_ranks, push_words,
};
pub use looks::{pending_calls, posted_calls};
pub use lost::{Loss, LossList, all_losses, losses, losses_of, lost_calls};
pub use near_miss::{Miss, NearMiss, TakenCall, Wish, wish_of};
pub use position::{Ahead, Coming, Position, position_of};
pub use request_calls::requests;
pub use steps::{Completed, PlacedStep, PlacedStepList, enabled_steps, placed_step, placed_steps};
pub use waits::Cycle;
pub use why::{Chances, Fit, FitList, Partner, PartnerList, Why, why_of};
pub use words::{MarkedStep, WaitsFor, push_candidate, push_end, push_losses};
