//! What comes next in a state: decisions, breakpoints, runs that go by themselves, forward and back, and walks along decisions, whose
//! choices a chooser takes.
#![tactic(auto)]

pub mod along;
pub mod breaks;
pub mod chooser;
pub mod choosers;
pub mod decisions;
pub mod ending;
mod hits;
mod last;
pub mod quiet;
pub mod runs;
pub mod schedule;
pub mod wide;

pub use along::{WalkEnd, ending_of, follow, put_back, walk};
pub use breaks::{Break, Breaks};
pub use chooser::Chooser;
pub use choosers::{ByChoices, First};
pub use decisions::{decide, decisions_can_be_followed, forced_step, only_step, sole};
pub use ending::Ending;
pub use last::last_hit;
pub use mpd_model::{Breakpoint, Cause, Decision, Stop};
pub use quiet::{first_quiet, is_quiet};
pub use runs::{run, run_back, run_on};
pub use schedule::{Plain, Schedule, Wide};
pub use wide::{conflict, wake, wide_decide, wide_decisions_can_be_followed};
