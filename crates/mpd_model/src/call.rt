//! What ranks have issued, and what was formed of it.

use crate::step::CallId;

/// How standard sends behave (MPI 4.0, section 3.4; docs/DEFINITIONS.md, "Modes").
#[derive(Clone, Copy, PartialEq, Eq)]
pub enum Mode {
    /// No send is buffered: it is complete once it is paired.
    Rendezvous,
    /// Every standard send is complete as it is issued, and still matches later. A synchronous send is complete once it is paired.
    Buffered,
    /// Each rank has this many slots: 0 to `SLOTS_MAX` if the number comes from a mode's word. A
    /// standard send that is issued while its rank holds fewer slots is complete at once, and holds
    /// one until it is paired. Any other standard send is complete once it is paired, even if a
    /// slot becomes free before that. A synchronous send takes no slot.
    Slots(usize),
}

/// A call that a rank has issued. It never changes.
#[derive(Clone, Copy)]
pub struct Call {
    /// The number, in text order, of the statement that issued it.
    pub statement: usize,
    pub kind: CallKind,
}

/// A standard or a synchronous send.
#[derive(Clone, Copy)]
pub struct SendCall {
    /// Its destination, 0 to 15.
    pub to: usize,
    /// Its tag, 0 to 32,767.
    pub tag: usize,
    /// The value of its message.
    pub value: i64,
    /// Whether it is complete only once it is paired, in every mode (MPI 4.0, section 3.4): `ssend` and `issend` are.
    pub synchronous: bool,
    /// Whether its rank waits for it: `send` and `ssend` do, `isend` and `issend` don't.
    pub blocks: bool,
    /// Whether the send is buffered, so that it is done as it is issued. The board decides this
    /// once, by the mode, as the call is issued; the call that a statement makes isn't marked yet.
    pub buffered: bool,
}

/// The cells that the source and the tag of a message go to (MPI 4.0, section 3.2.5).
#[derive(Clone, Copy)]
pub struct StatusCells {
    pub source: usize,
    pub tag: usize,
}

/// A receive.
#[derive(Clone, Copy)]
pub struct RecvCall {
    /// Its source, 0 to 15; `None` is any source.
    pub from: Option<usize>,
    /// Its tag, 0 to 32,767; `None` is any tag.
    pub tag: Option<usize>,
    /// The cell that its value goes to.
    pub cell: usize,
    /// The cells that the source and the tag go to, if there are some.
    pub status: Option<StatusCells>,
    /// Whether its rank waits for it: `recv` does, `irecv` doesn't.
    pub blocks: bool,
}

/// A wait. What it waits for is fixed as it is issued.
#[derive(Clone, Copy)]
pub struct WaitCall {
    /// The number of the handle that it clears, from 0.
    pub handle: usize,
    /// The number of the call that the handle held, a send or a receive of the same rank, if it held one.
    pub target: Option<usize>,
}

/// A wait for one of the requests of a declaration, whichever is complete as its rank goes on.
#[derive(Clone, Copy)]
pub struct WaitanyCall {
    /// The number of its first handle, and how many handles it has.
    pub first: usize,
    pub count: usize,
    /// The cell that the index of the chosen one goes to.
    pub cell: usize,
    /// Whether any of the handles held a call as it was issued.
    pub active: bool,
}

/// What a call is.
#[derive(Clone, Copy)]
pub enum CallKind {
    /// A standard or a synchronous send (MPI 4.0, sections 3.2.1, 3.4 and 3.7.2).
    Send(SendCall),
    /// A receive (MPI 4.0, sections 3.2.4 and 3.7.2).
    Recv(RecvCall),
    /// A wait (MPI 4.0, section 3.7.3).
    Wait(WaitCall),
    /// A wait for one of several (MPI 4.0, section 3.7.5).
    Waitany(WaitanyCall),
    /// A barrier. Its rank waits until all ranks do so at one (MPI 4.0, section 6.3).
    Barrier,
}

/// A call that a statement issues.
#[derive(Clone, Copy)]
pub struct Issue {
    pub kind: CallKind,
    /// The handle that gets the call's number, of a call that its rank doesn't wait for.
    pub handle: Option<usize>,
}

/// What a receive gets of the send that it is paired with: value, sender and tag (MPI 4.0, section 3.2.5).
#[derive(Clone, Copy)]
pub struct Message {
    pub value: i64,
    pub source: usize,
    pub tag: usize,
}

/// Why a rank is trapped (docs/LANGUAGE.md, "Traps").
#[derive(Clone, Copy, PartialEq, Eq)]
pub enum Trap {
    /// A value outside -9223372036854775808 to 9223372036854775807.
    Overflow,
    /// A division by 0, or its remainder.
    ZeroDivisor,
    /// A destination or a source that is no rank.
    BadRank,
    /// A tag outside 0 to 32,767.
    BadTag,
    /// An index that the array doesn't have.
    BadIndex,
    /// An `assert` of 0.
    Assertion,
}

/// What a rank is doing. A running rank with no statement left has ended.
#[derive(Clone, Copy, PartialEq, Eq)]
pub enum Activity {
    Running,
    /// Waits in its last call.
    Blocked,
    Trapped(Trap),
}

/// What a step other than a local one formed.
#[derive(Clone, Copy)]
pub enum MatchSet {
    /// A send and its receive.
    Pair(CallId, CallId),
    /// The call whose rank went on.
    Woke(CallId),
    /// All ranks left the barrier that they were blocked on.
    Barrier,
}
