//! The ways in which the runs of a script end, found by visiting each state once
//! (docs/DEFINITIONS.md, "Outcomes of a script"); and the laws of states that have the same future.
#![tactic(auto)]

mod explore;
mod key;
mod parts;
mod report;
mod search;
mod store;
mod sums;
mod table;
mod text;
mod ways;
mod words;

ghost use Rattle.mpd_outcomes.specs.StateLaws as law;

pub use explore::explore_outcomes;
pub use report::{Count, Goal, Outcomes, StateLimits};
pub use text::push_count;

/// Two states that runs of a script reach, and that have the same future: the same steps are
/// enabled, the same comes next, along the walk and along the wide walk, and they end alike if they
/// end; each step leads to states with the same future.
pub fn same_futures_go_on_alike()
    ensures { law.SameFuturesGoOnAlike }
{}

/// They have the same wide walk for each fuel, in each mode, with waits for any too: the same choices, steps and ends, in the same order;
/// and their longest runs are as long.
pub fn same_futures_have_one_walk()
    ensures { law.SameFuturesHaveOneWalk }
{}

/// If the longest run of a wide walk has no more steps than there is fuel, the walk is the same
/// with any fuel that is enough for it.
pub fn enough_fuel_is_enough()
    ensures { law.EnoughFuelIsEnough }
{}
