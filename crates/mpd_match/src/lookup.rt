//! What is looked up on a board by number.
ghost use Rattle.std.specs.Prelude.{◌≡◌, ◌<◌, ◌≤◌, length};
ghost use Rattle.mpd_model.specs.steps.World.{call_at, kind_at, calls_of, partner as partner_in, is_free, buffer, slots_used, last_call};

use crate::board::Board;
use crate::kinds;
use mpd_model::{Call, CallId, CallKind, MatchSet, Message, Mode, RANKS_MAX};

impl Board {
    /// The mode: how standard sends behave (MPI 4.0, section 3.4; docs/DEFINITIONS.md, "Modes").
    pub fn mode(&self) -> Mode
        ensures { result ≡ self.now.board.mode }
    {
        self.mode
    }

    /// How many ranks there are, 0 to 16.
    pub fn rank_count(&self) -> usize
        ensures value { result ≡ length self.now.board.calls }
        ensures small { result ≤ RANKS_MAX }
    {
        self.sides.len()
    }

    /// The match sets, in the order in which they were formed.
    pub fn sets(&self) -> &[MatchSet]
        ensures { result.now ≡ self.now.board.sets }
    {
        self.sets.items()
    }

    /// The calls of a rank that exists, in the order of issue.
    pub fn calls(&self, rank: usize) -> &[Call]
        requires { rank < length self.now.board.calls }
        ensures { result.now ≡ calls_of self.now.board rank }
    {
        self.sides[rank].calls()
    }

    /// How many calls a rank has issued, 0 if there is no such rank.
    pub fn call_count(&self, rank: usize) -> usize
        ensures { result ≡ length (calls_of self.now.board rank) }
    {
        match self.sides.get(rank) {
            None => 0,
            Some(side) => side.call_count(),
        }
    }

    /// The last call of a rank; its call 0 if it has issued none.
    pub fn last_call(&self, rank: usize) -> CallId
        ensures { result ≡ last_call self.now.board rank }
    {
        CallId {
            rank,
            index: self.call_count(rank).saturating_sub(1),
        }
    }

    /// A call by its rank and number, if it exists.
    pub fn call(&self, id: CallId) -> Option<Call>
        ensures { result ≡ call_at self.now.board id }
    {
        let side = self.sides.get(id.rank)?;
        side.call(id.index)
    }

    /// The kind of a call with its arguments, if the call exists.
    pub fn kind(&self, id: CallId) -> Option<CallKind>
        ensures { result ≡ kind_at self.now.board id }
    {
        match self.call(id) {
            None => None,
            Some(call) => Some(call.kind),
        }
    }

    /// The partner of a call in its pair, if it has one. A call that doesn't exist has none.
    pub fn partner(&self, id: CallId) -> Option<CallId>
        ensures { result ≡ partner_in self.now.board.sets id }
    {
        let side = self.sides.get(id.rank)?;
        side.partner(id.index)
    }

    /// How many slots a rank holds: as many as it has buffered sends that are in no pair, in every
    /// mode; 0 if there is no such rank (docs/DEFINITIONS.md, "Modes"). Takes one look at a tape.
    pub fn slots_used(&self, rank: usize) -> usize
        ensures { result ≡ slots_used self.now.board rank }
    {
        match self.slots.get(rank) {
            None => 0,
            Some(held) => held,
        }
    }

    /// Whether it is a send or a receive that is in no pair.
    pub fn is_free(&self, id: CallId) -> bool
        ensures { result ≡ is_free self.now.board id }
    {
        kinds::is_message_kind(self.kind(id)) && self.partner(id).is_none()
    }

    /// The message that a receive got, if it is paired (MPI 4.0, section 3.2.5).
    pub fn buffer(&self, id: CallId) -> Option<Message>
        ensures { result ≡ buffer self.now.board id }
    {
        let send = self.partner(id)?;
        kinds::message_of(send, self.kind(send))
    }
}
