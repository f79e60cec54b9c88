//! Runs and their steps: the run that some choices tell, the run of the first candidates, steps or
//! trace words that are given, the runs from a debugger's state, the first of them that ends in one
//! way, the last choice that was made and the last place where a run would have stopped, and a
//! sample of all runs.
#![tactic(auto)]

pub mod by_choices;
pub mod choice;
pub mod choices;
pub mod counts;
mod draw;
pub mod fault;
pub mod first;
pub mod given;
mod keep;
pub mod laws;
pub mod listing;
pub mod read;
pub mod sampler;
pub mod search;
pub mod states;
pub mod way;
pub mod write;

pub use by_choices::steps_by_choices;
pub use choice::{last_choice, last_stop, push_no_choice};
pub use choices::choices_of;
pub use counts::{WayCounts, counts_told, is_count};
pub use fault::{ChoicesFault, WordsFault, WriteFault};
pub use first::lead_first;
pub use given::{StepsFault, take_steps};
pub use laws::a_run_or_a_bad_choice;
pub use listing::{FUEL, push_none, push_runs, sees_all};
pub use read::{ReadFault, steps_of};
pub use sampler::sample;
pub use search::{
    Scope, Search, Sought, WholeRun, copy_ending, numbered_run, push_ahead, push_count,
    push_no_run, seek,
};
pub use states::{STATES_KEPT, STATES_VISITED};
pub use way::{WAYS, Way};
pub use write::write_words;
