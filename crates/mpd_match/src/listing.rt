//! The matches that are enabled, listed along the lines of free calls.
ghost use Rattle.std.specs.Prelude.{◌≡◌, ◌++◌, ◌<◌, length, OnOk, OnErr};
ghost use Rattle.mpd_match.specs.Matches as listed;

use crate::board::Board;
use mpd_counter::Counter;
use mpd_model::{CallId, Step};
use std::alloc::AllocError;

impl Board {
    /// Adds the match of a receive with a send of that rank, if one is eligible.
    #[tactic(auto, using(crate::proofs::Listed::matching))]
    fn push_match_from(
        &self,
        sender: usize,
        recv: CallId,
        out: &mut Vec<Step>,
    ) -> Result<(), AllocError>
        requires { sender < length self.now.board.calls }
        ensures ok { OnOk result (out.new.items ≡ out.old.items ++ listed.matches_from self.now.board recv sender) }
        ensures memory { OnErr result (0 < length (listed.matches_from self.now.board recv sender)) }
    {
        let mut looks = Counter::new();
        let Some(index) = self.candidate(sender, recv, &mut looks) else {
            return Ok(());
        };
        let send = CallId {
            rank: sender,
            index,
        };
        out.push(Step::Match(send, recv))?;
        Ok(())
    }

    /// Adds the matches of a receive, by sender.
    pub(crate) fn push_matches_with(
        &self,
        recv: CallId,
        out: &mut Vec<Step>,
    ) -> Result<(), AllocError>
        ensures ok { OnOk result (out.new.items ≡ out.old.items ++ listed.matches_with self.now.board recv) }
        ensures memory { OnErr result (0 < length (listed.matches_with self.now.board recv)) }
    {
        let count = self.rank_count();
        for sender in 0..count {
            self.push_match_from(sender, recv, out)?;
        }
        Ok(())
    }

    /// Adds the matches of a receiver, by receive and sender. Its free receives are walked, and no
    /// others. `Err` means that memory for the list was refused, which happens only if there is a
    /// match.
    pub fn push_matches_at(&self, receiver: usize, out: &mut Vec<Step>) -> Result<(), AllocError>
        requires { receiver < length self.now.board.calls }
        ensures ok { OnOk result (out.new.items ≡ out.old.items ++ listed.matches_at self.now.board receiver) }
        ensures memory { OnErr result (0 < length (listed.matches_at self.now.board receiver)) }
    {
        let mut looks = Counter::new();
        let mut here = self.first_posted(receiver, &mut looks);
        'walk: while let Some(index) = here {
            let recv = CallId {
                rank: receiver,
                index,
            };
            self.push_matches_with(recv, out)?;
            here = self.next_free(recv, &mut looks);
        }
        Ok(())
    }

    /// Adds all enabled matches, by receiver, receive and sender. `Err` means that memory for the
    /// list was refused, which happens only if there is a match.
    pub fn push_matches(&self, out: &mut Vec<Step>) -> Result<(), AllocError>
        ensures ok { OnOk result (out.new.items ≡ out.old.items ++ listed.matches_on self.now.board) }
        ensures memory { OnErr result (0 < length (listed.matches_on self.now.board)) }
    {
        let count = self.rank_count();
        for receiver in 0..count {
            self.push_matches_at(receiver, out)?;
        }
        Ok(())
    }
}
