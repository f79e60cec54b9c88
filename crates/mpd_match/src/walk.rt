//! Walks along the lines of free calls, with their looks counted.
ghost use Rattle.std.specs.Prelude.{◌≡◌, ℕ, ◌+◌, ◌<◌, ◌≤◌, true, false, length};
ghost use Rattle.std.specs.List.{list_any, filter};
ghost use Rattle.std.specs.Option.{option_to_list};
ghost use Rattle.mpd_queue.specs.InOrder.{first_of, next_of};
ghost use Rattle.mpd_model.specs.steps.World.{call_id, call_numbers, rank_numbers, fits, is_free as is_free_on, is_pending, is_posted, pending, posted, eligible as eligible_on};
ghost use Rattle.mpd_match.specs.Lines.{kind_in, mark_in, waiting, fitting_either, passed, ahead, has_earlier as has_earlier_in};
ghost use Rattle.mpd_match.specs.Firsts.{first_send as first_send_on, first_recv as first_recv_on};
ghost use Rattle.mpd_match.specs.Looks.{eligible_looks, candidate_looks};

use crate::board::Board;
use crate::kinds;
use crate::side::Side;
use mpd_counter::Counter;
use mpd_laws::ordering;
use mpd_model::{CallId, CallKind};

impl Side {
    /// Whether a call of the line before this one fits the other call. One look, and one for each call before this one up
    /// to the first that fits.
    pub(crate) fn has_earlier(
        &self,
        line: usize,
        index: usize,
        other: Option<CallKind>,
        sender: usize,
        receiver: usize,
        looks: &mut Counter,
    ) -> bool
        requires { line < self.now.lines }
        ensures found { result ≡ has_earlier_in self.now.calls (mark_in self.now.marks) line index other sender receiver }
        ensures looks { looks.new ≡ looks.old + 1 + passed (λ i. fitting_either (kind_in self.now.calls i) other sender receiver) index (waiting self.now.calls (mark_in self.now.marks) line) }
    {
        let mut here = self.first(line, looks);
        'walk: while let Some(item) = here {
            if index <= item {
                return false;
            }
            if kinds::is_fitting_either(self.kind(item), other, sender, receiver) {
                return true;
            }
            here = self.next(item, looks);
        }
        false
    }
}

impl Board {
    /// Whether a send and a receive may be paired (MPI 4.0, section 3.5: messages don't overtake).
    /// Walks the lines of both, up to them. If they may, no other send of that sender may be paired
    /// with the receive.
    pub fn eligible(&self, send: CallId, recv: CallId, looks: &mut Counter) -> bool
        ensures eligible { result ≡ eligible_on self.now.board send recv }
        ensures one_send { result ≡ true → (i : ℕ) → eligible_on self.now.board (call_id send.rank i) recv ≡ true → i ≡ send.index }
        ensures looks { looks.new ≡ looks.old + eligible_looks self.now.board send recv }
        ensures at_most { looks.new ≤ looks.old + (length (pending self.now.board send.rank recv.rank) + length (posted self.now.board recv.rank) + 2) }
        ensures none { fits self.now.board send recv ≡ false → looks.new ≡ looks.old }
    {
        ordering::one_send_is_eligible();
        let send_kind = self.kind(send);
        let recv_kind = self.kind(recv);
        if !kinds::is_fitting(send_kind, recv_kind, send.rank, recv.rank) {
            return false;
        }
        if !self.is_free(send) {
            return false;
        }
        if !self.is_free(recv) {
            return false;
        }
        let sender = &self.sides[send.rank];
        if sender.has_earlier(
            recv.rank + 1,
            send.index,
            recv_kind,
            send.rank,
            recv.rank,
            looks,
        ) {
            return false;
        }
        let receiver = &self.sides[recv.rank];
        !receiver.has_earlier(0, recv.index, send_kind, send.rank, recv.rank, looks)
    }

    /// The number of the sender's first free send to the receiver, if there is one. One look.
    pub fn first_pending(
        &self,
        sender: usize,
        receiver: usize,
        looks: &mut Counter,
    ) -> Option<usize>
        requires sender { sender < length self.now.board.calls }
        requires receiver { receiver < length self.now.board.calls }
        ensures first { result ≡ first_of (pending self.now.board sender receiver) }
        ensures looks { looks.new ≡ looks.old + 1 }
    {
        self.sides[sender].first(receiver + 1, looks)
    }

    /// The number of the rank's first free receive, if there is one. One look.
    pub fn first_posted(&self, rank: usize, looks: &mut Counter) -> Option<usize>
        requires { rank < length self.now.board.calls }
        ensures first { result ≡ first_of (posted self.now.board rank) }
        ensures looks { looks.new ≡ looks.old + 1 }
    {
        self.sides[rank].first(0, looks)
    }

    /// The number of the next free call after this free one: the same rank's next send to the same
    /// receiver, or its next receive, if there is one. One look.
    pub fn next_free(&self, id: CallId, looks: &mut Counter) -> Option<usize>
        requires { is_free_on self.now.board id ≡ true }
        ensures pending { (receiver : ℕ) → is_pending self.now.board id.rank receiver id.index ≡ true → result ≡ next_of (pending self.now.board id.rank receiver) id.index }
        ensures posted { is_posted self.now.board id.rank id.index ≡ true → result ≡ next_of (posted self.now.board id.rank) id.index }
        ensures looks { looks.new ≡ looks.old + 1 }
    {
        self.sides[id.rank].next(id.index, looks)
    }

    /// The number of the sender's first free send to the receive's rank that fits the receive, if
    /// there is one. One look, and one for each free send before it.
    pub(crate) fn first_send(
        &self,
        sender: usize,
        recv: CallId,
        looks: &mut Counter,
    ) -> Option<usize>
        requires sender { sender < length self.now.board.calls }
        requires receiver { recv.rank < length self.now.board.calls }
        ensures first { result ≡ first_send_on self.now.board sender recv }
        ensures looks { looks.new ≡ looks.old + 1 + ahead (λ i. fits self.now.board (call_id sender i) recv) (pending self.now.board sender recv.rank) }
    {
        let kind = self.kind(recv);
        let mut here = self.first_pending(sender, recv.rank, looks);
        'walk: while let Some(index) = here {
            let send = CallId {
                rank: sender,
                index,
            };
            if kinds::is_fitting(self.kind(send), kind, sender, recv.rank) {
                return Some(index);
            }
            here = self.next_free(send, looks);
        }
        None
    }

    /// The number of the rank's first free receive that fits the send, if there is one. One look,
    /// and one for each free receive before it.
    pub(crate) fn first_recv(&self, send: CallId, rank: usize, looks: &mut Counter) -> Option<usize>
        requires { rank < length self.now.board.calls }
        ensures first { result ≡ first_recv_on self.now.board send rank }
        ensures looks { looks.new ≡ looks.old + 1 + ahead (λ j. fits self.now.board send (call_id rank j)) (posted self.now.board rank) }
    {
        let kind = self.kind(send);
        let mut here = self.first_posted(rank, looks);
        'walk: while let Some(index) = here {
            let recv = CallId { rank, index };
            if kinds::is_fitting(kind, self.kind(recv), send.rank, rank) {
                return Some(index);
            }
            here = self.next_free(recv, looks);
        }
        None
    }

    /// The number of the sender's send that is eligible with the receive, if there is one: its
    /// first free send that fits, if no earlier free receive fits that (MPI 4.0, section 3.5). The
    /// sender's line is walked up to that send, and the receiver's up to the first that fits it. A
    /// call that is no free receive, or names another source, takes no look.
    pub fn candidate(&self, sender: usize, recv: CallId, looks: &mut Counter) -> Option<usize>
        requires { sender < length self.now.board.calls }
        ensures found { filter (λ i. eligible_on self.now.board (call_id sender i) recv) (call_numbers self.now.board sender) ≡ option_to_list result }
        ensures looks { looks.new ≡ looks.old + candidate_looks self.now.board sender recv }
        ensures at_most { looks.new ≤ looks.old + (length (pending self.now.board sender recv.rank) + length (posted self.now.board recv.rank) + 2) }
        ensures none { is_posted self.now.board recv.rank recv.index ≡ false → looks.new ≡ looks.old }
    {
        if !kinds::takes_from(self.kind(recv), sender) {
            return None;
        }
        if !self.is_free(recv) {
            return None;
        }
        let index = self.first_send(sender, recv, looks)?;
        let send = CallId {
            rank: sender,
            index,
        };
        let first = self.first_recv(send, recv.rank, looks)?;
        if first < recv.index {
            return None;
        }
        Some(index)
    }

    /// Whether some send of the sender may be paired with the receive now (MPI 4.0, section 3.5).
    pub fn can_match_from(&self, sender: usize, recv: CallId) -> bool
        requires { sender < length self.now.board.calls }
        ensures { result ≡ list_any (λ i. eligible_on self.now.board (call_id sender i) recv) (call_numbers self.now.board sender) }
    {
        let mut looks = Counter::new();
        self.candidate(sender, recv, &mut looks).is_some()
    }

    /// Whether some send of any rank is eligible with the receive.
    #[tactic(auto, using(crate::proofs::Matches::any_number))]
    fn can_match_with(&self, recv: CallId) -> bool
        ensures { result ≡ list_any (λ p. list_any (λ i. eligible_on self.now.board (call_id p i) recv) (call_numbers self.now.board p)) (rank_numbers self.now.board) }
    {
        let count = self.rank_count();
        for sender in 0..count {
            if self.can_match_from(sender, recv) {
                return true;
            }
        }
        false
    }

    /// Whether some receive of the receiver is eligible with a send. Its free receives are walked, and no others.
    pub fn can_match_at(&self, receiver: usize) -> bool
        requires { receiver < length self.now.board.calls }
        ensures { result ≡ list_any (λ j. list_any (λ p. list_any (λ i. eligible_on self.now.board (call_id p i) (call_id receiver j)) (call_numbers self.now.board p)) (rank_numbers self.now.board)) (call_numbers self.now.board receiver) }
    {
        let mut looks = Counter::new();
        let mut here = self.first_posted(receiver, &mut looks);
        'walk: while let Some(index) = here {
            let recv = CallId {
                rank: receiver,
                index,
            };
            if self.can_match_with(recv) {
                return true;
            }
            here = self.next_free(recv, &mut looks);
        }
        false
    }
}
