//! The matches that nobody has to choose, and those that somebody has to, found along the lines of free calls.
ghost use Rattle.std.specs.Prelude.{◌≡◌, ◌++◌, ◌<◌, length, OnOk, OnErr};
ghost use Rattle.std.specs.List.{filter};
ghost use Rattle.mpd_model.specs.steps.Why.{first_in};
ghost use Rattle.mpd_model.specs.runs.Decisions.{is_named_match, is_open_match};
ghost use Rattle.mpd_match.specs.Matches.{matches_on};
ghost use Rattle.mpd_match.specs.Picked.{picked_with, picked_at, picked_on};

use crate::board::Board;
use crate::kinds;
use mpd_counter::Counter;
use mpd_model::{CallId, Step};
use std::alloc::AllocError;

/// If a rank has at least this many free receives, the tags of the free sends to it are marked
/// first.
const MANY: usize = 8;

impl Board {
    /// The match of a receive that names its source, if one is enabled. It looks at the sends of
    /// that source, and no others.
    #[tactic(auto, using(crate::proofs::Picked::naming))]
    pub(crate) fn named_match(&self, recv: CallId) -> Option<Step>
        ensures { result ≡ first_in (picked_with is_named_match self.now.board recv) }
    {
        let Some(sender) = kinds::named_source(self.kind(recv)) else {
            return None;
        };
        if sender >= self.rank_count() {
            return None;
        }
        let mut looks = Counter::new();
        let Some(index) = self.candidate(sender, recv, &mut looks) else {
            return None;
        };
        let send = CallId {
            rank: sender,
            index,
        };
        Some(Step::Match(send, recv))
    }

    /// The first match of the receiver's receives that name their source. Its free receives are walked, and no others.
    fn named_match_at(&self, receiver: usize) -> Option<Step>
        requires { receiver < length self.now.board.calls }
        ensures { result ≡ first_in (picked_at is_named_match self.now.board receiver) }
    {
        let mut looks = Counter::new();
        let mut here = self.first_posted(receiver, &mut looks);
        'walk: while let Some(index) = here {
            let recv = CallId {
                rank: receiver,
                index,
            };
            let found = self.named_match(recv);
            if found.is_some() {
                return found;
            }
            here = self.next_free(recv, &mut looks);
        }
        None
    }

    /// Whether a rank has so many free receives that a first walk along the free sends to it pays.
    /// The answer changes the time taken, and nothing that is found.
    fn has_many_posted(&self, receiver: usize) -> bool
        requires { receiver < length self.now.board.calls }
    {
        let mut looks = Counter::new();
        let mut here = self.first_posted(receiver, &mut looks);
        for _ in 0..MANY {
            let Some(index) = here else {
                return false;
            };
            here = self.next_free(
                CallId {
                    rank: receiver,
                    index,
                },
                &mut looks,
            );
        }
        true
    }

    /// The first match of the receiver's receives that name their source, sought the shorter way.
    fn named_match_to(&self, receiver: usize) -> Option<Step>
        requires { receiver < length self.now.board.calls }
        ensures { result ≡ first_in (picked_at is_named_match self.now.board receiver) }
    {
        if self.has_many_posted(receiver) {
            return self.named_match_among(receiver);
        }
        self.named_match_at(receiver)
    }

    /// The first enabled match whose receive names its source, by receiver and receive. Lists of free calls are walked, and no
    /// others.
    #[tactic(auto, using(crate::proofs::Picked::picking))]
    pub fn first_named_match(&self) -> Option<Step>
        ensures { result ≡ first_in (filter (is_named_match self.now.board) (matches_on self.now.board)) }
    {
        let count = self.rank_count();
        for receiver in 0..count {
            let found = self.named_match_to(receiver);
            if found.is_some() {
                return found;
            }
        }
        None
    }

    /// Adds the matches of a receive, by sender, if it is one of any source.
    #[tactic(auto, using(crate::proofs::Picked::opening))]
    fn push_open_matches_with(&self, recv: CallId, out: &mut Vec<Step>) -> Result<(), AllocError>
        ensures ok { OnOk result (out.new.items ≡ out.old.items ++ picked_with is_open_match self.now.board recv) }
        ensures memory { OnErr result (0 < length (picked_with is_open_match self.now.board recv)) }
    {
        if !kinds::takes_any(self.kind(recv)) {
            return Ok(());
        }
        self.push_matches_with(recv, out)?;
        Ok(())
    }

    /// Adds the matches of the receiver's receives of any source, by receive and sender. Its free receives are walked, and no
    /// others.
    fn push_open_matches_at(&self, receiver: usize, out: &mut Vec<Step>) -> Result<(), AllocError>
        requires { receiver < length self.now.board.calls }
        ensures ok { OnOk result (out.new.items ≡ out.old.items ++ picked_at is_open_match self.now.board receiver) }
        ensures memory { OnErr result (0 < length (picked_at is_open_match self.now.board receiver)) }
    {
        let mut looks = Counter::new();
        let mut here = self.first_posted(receiver, &mut looks);
        'walk: while let Some(index) = here {
            let recv = CallId {
                rank: receiver,
                index,
            };
            self.push_open_matches_with(recv, out)?;
            here = self.next_free(recv, &mut looks);
        }
        Ok(())
    }

    /// Adds all enabled matches of receives of any source, by receiver, receive and sender. `Err`
    /// means that memory for the list was refused, which happens only if there is such a match.
    pub fn push_open_matches(&self, out: &mut Vec<Step>) -> Result<(), AllocError>
        ensures ok { OnOk result (out.new.items ≡ out.old.items ++ filter (is_open_match self.now.board) (matches_on self.now.board)) }
        ensures memory { OnErr result (0 < length (filter (is_open_match self.now.board) (matches_on self.now.board))) }
    {
        let count = self.rank_count();
        for receiver in 0..count {
            self.push_open_matches_at(receiver, out)?;
        }
        Ok(())
    }
}
