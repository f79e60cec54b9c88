//! Steps, told apart by whether they are local.

ghost use Rattle.std.specs.Prelude.{◌≡◌};
ghost use Rattle.mpd_core.specs.Steps.{any_step};

use mpd_model::{CallId, Step};

/// A step that isn't local: it forms a match set.
#[derive(Clone, Copy)]
pub enum OtherStep {
    /// A send and a receive are paired.
    Match(CallId, CallId),
    /// A rank goes on from a complete call.
    Wake(usize),
    /// A rank goes on from a waitany, by the request of that index.
    WakeAny { rank: usize, index: usize },
    /// All ranks go on from a barrier.
    Release,
}

/// Any step.
#[derive(Clone, Copy)]
pub enum AnyStep {
    /// A local step, of a rank.
    Local(usize),
    Other(OtherStep),
}

impl AnyStep {
    /// The same step, told apart by whether it is local.
    #[inline(always)]
    pub fn of(step: Step) -> AnyStep
        ensures { any_step result ≡ step }
    {
        match step {
            Step::Local(rank) => AnyStep::Local(rank),
            Step::Match(send, recv) => AnyStep::Other(OtherStep::Match(send, recv)),
            Step::Wake(rank) => AnyStep::Other(OtherStep::Wake(rank)),
            Step::WakeAny { rank, index } => AnyStep::Other(OtherStep::WakeAny { rank, index }),
            Step::Release => AnyStep::Other(OtherStep::Release),
        }
    }
}
