//! How a run ends.

use mpd_model::Outcome;

/// How a run ends.
#[derive(Drop)]
pub enum Ending {
    /// No step is enabled, and this is what the state is.
    Ended(Outcome),
    /// The fuel is used up, and a step is still enabled.
    Cut,
}
