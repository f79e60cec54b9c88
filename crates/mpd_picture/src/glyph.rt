//! What the steps of a run show (docs/PICTURES.md, "Rows").

use mpd_model::{CallId, Trap};
use std::fmt;

/// What a rank does by itself. Its words are `prints 42`.
#[derive(Clone, Copy)]
pub enum Deed {
    /// It printed a value.
    Printed(i64),
    /// It was trapped.
    Trapped(Trap),
}

/// What a rank did by itself, and at which line of the script. Its words are `rank 0 prints 42`.
#[derive(Clone, Copy)]
pub struct Note {
    pub rank: usize,
    pub line: usize,
    pub deed: Deed,
}

/// What is shown.
#[derive(Clone, Copy)]
pub(crate) enum Event {
    /// A rank issued a call.
    Issued(CallId),
    /// A send, the first, was matched with a receive.
    Paired(CallId, CallId),
    /// The rank of a call went on after it.
    WentOn(CallId),
    /// All ranks left their barriers.
    Released,
    /// A rank printed, or was trapped.
    Noted(Note),
}

/// What a step shows, and at which row of the picture in text, from 0.
#[derive(Clone, Copy)]
pub(crate) struct Glyph {
    pub(crate) row: usize,
    pub(crate) event: Event,
}

/// What a step shows, at which row of the drawing, and at which place of the list beside it, both
/// from 0.
#[derive(Clone, Copy)]
pub(crate) struct Mark {
    pub(crate) row: usize,
    pub(crate) place: usize,
    pub(crate) event: Event,
}

impl fmt::Display for Deed {
    fn fmt<W: fmt::Write>(&self, f: &mut fmt::Formatter<W>) -> fmt::Result {
        match *self {
            Deed::Printed(value) => write!(f, "prints {value}"),
            Deed::Trapped(trap) => write!(f, "is trapped: {}", trap.name()),
        }
    }
}

impl fmt::Display for Note {
    fn fmt<W: fmt::Write>(&self, f: &mut fmt::Formatter<W>) -> fmt::Result {
        write!(f, "rank {} {}", self.rank, self.deed)
    }
}
