//! Where a call was issued, and where a rank stands, as values; and the words for them.

ghost use Rattle.std.specs.Prelude.{◌≡◌};
ghost use Rattle.mpd_names.specs.Stand as spec;

use crate::line::Marks;
use mpd_model::{CallId, CallKind, Trap};
use std::fmt;

/// A call, where it was issued, and what it is.
#[derive(Clone, Copy)]
pub struct PlacedCall {
    pub call: CallId,
    /// The line, from 1, of the statement that issued it; 0 if there is no such call.
    pub line: usize,
    /// What it is; none if there is no such call.
    pub kind: Option<CallKind>,
}

/// A call as it is told of a script with these marks: `line 9 (farm.c:58), 0.1 recv from 1 tag 2`.
#[derive(Clone, Copy)]
pub struct MarkedCall<'s>(pub PlacedCall, pub Marks<'s>);

impl<'s> fmt::Display for MarkedCall<'s> {
    fn fmt<W: fmt::Write>(&self, f: &mut fmt::Formatter<W>) -> fmt::Result {
        let MarkedCall(placed, marks) = *self;
        let line = marks.line(placed.line);
        match placed.kind {
            None => write!(f, "line {line}, {}", placed.call),
            Some(kind) => write!(f, "line {line}, {} {kind}", placed.call),
        }
    }
}

/// The rank of a call and its line, as `rank 1, line 5 (farm.c:58)`.
#[derive(Clone, Copy)]
pub struct Issuer<'s>(pub PlacedCall, pub Marks<'s>);

impl<'s> fmt::Display for Issuer<'s> {
    fn fmt<W: fmt::Write>(&self, f: &mut fmt::Formatter<W>) -> fmt::Result {
        let Issuer(placed, marks) = *self;
        write!(
            f,
            "rank {}, line {}",
            placed.call.rank,
            marks.line(placed.line)
        )
    }
}

/// Where a rank stands, and whether it can go on.
#[derive(Clone, Copy)]
pub enum Stands {
    /// It has no statement left.
    Ended,
    /// It is running, and its next statement is at this line, from 1.
    At(usize),
    /// It waits in this call, which is not complete.
    Waits(PlacedCall),
    /// It waits in this call, which is complete.
    CanGoOn(PlacedCall),
    /// The statement at this line, from 1, trapped it.
    Trapped(usize, Trap),
}

impl Stands {
    /// The line, from 1, where the rank stands: none of one that has ended.
    pub fn line(self) -> Option<usize>
        ensures { result ≡ spec.line_of self }
    {
        match self {
            Stands::Ended => None,
            Stands::At(line) => Some(line),
            Stands::Waits(call) => Some(call.line),
            Stands::CanGoOn(call) => Some(call.line),
            Stands::Trapped(line, _) => Some(line),
        }
    }
}

/// Where a rank stands, as it is told of a script with these marks. The words follow the rank's
/// name, as ` waits at line 9 (farm.c:58), 0.1 recv from 1 tag 2` does.
#[derive(Clone, Copy)]
pub struct MarkedStands<'s>(pub Stands, pub Marks<'s>);

impl<'s> fmt::Display for MarkedStands<'s> {
    fn fmt<W: fmt::Write>(&self, f: &mut fmt::Formatter<W>) -> fmt::Result {
        let MarkedStands(stands, marks) = *self;
        match stands {
            Stands::Ended => write!(f, " has ended"),
            Stands::At(line) => write!(f, " is at line {}", marks.line(line)),
            Stands::Waits(call) => write!(f, " waits at {}", MarkedCall(call, marks)),
            Stands::CanGoOn(call) => write!(f, " can go on from {}", MarkedCall(call, marks)),
            Stands::Trapped(line, trap) => {
                write!(
                    f,
                    " is trapped at line {}: {}",
                    marks.line(line),
                    trap.name()
                )
            }
        }
    }
}
