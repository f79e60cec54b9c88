//! Calls by their numbers, and the atomic steps.

/// A call of a rank, by its number there: both count from 0 (docs/DEFINITIONS.md, "Calls").
#[derive(Clone, Copy, Debug, PartialEq, Eq)]
pub struct CallId {
    /// The rank that issued it, 0 to 15.
    pub rank: usize,
    /// How many calls the rank had issued before.
    pub index: usize,
}

/// One atomic step (docs/DEFINITIONS.md, "Steps").
#[derive(Clone, Copy, Debug, PartialEq, Eq)]
pub enum Step {
    /// A rank runs its next statement.
    Local(usize),
    /// A send, the first, is paired with a receive (MPI 4.0, section 3.5).
    Match(CallId, CallId),
    /// A rank that is blocked on a complete call goes on. A barrier is never complete, and neither
    /// is a waitany for a request.
    Wake(usize),
    /// A rank that is blocked on a waitany goes on by one of its requests that are complete (MPI 4.0, section 3.7.5).
    WakeAny {
        rank: usize,
        /// Which one, from 0, among the handles of the declaration.
        index: usize,
    },
    /// All ranks, each of them blocked on a barrier, go on (MPI 4.0, section 6.3).
    Release,
}
