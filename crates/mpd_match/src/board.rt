//! The board: calls, pairs and the lines of free calls.
ghost use Rattle.std.specs.Prelude.{◌≡◌, ◌+◌, ◌-◌, ◌<◌, ◌≤◌, Some, None, true, length, IfOk, OnOk, OnErr};
ghost use Rattle.mpd_model.specs.steps.World.{start_board, kind_at, calls_of, partner, eligible, last_call};
ghost use Rattle.mpd_model.specs.steps.Next.{HasReceiver, with_call, with_issued, entered, has_buffer, with_set};
ghost use Rattle.mpd_match.specs.Slots.{slots_of, slots_paired};
ghost use Rattle.mpd_match.specs.Changes.{without_last_call, issue_writes, unissue_writes, without_last_set, last_set, record_of_pair, Recorded, is_woke, is_lone};

use crate::record::PairRecord;
use crate::side::Side;
use crate::{kinds, sides, slots};
use mpd_model::{Call, CallId, MatchSet, Mode, RANKS_MAX};
use mpd_queue::Tape;
use std::alloc::{AllocError, Global};
use std::marker::Model;

/// The calls of all ranks, the partner of each, the match sets, and the lines that free calls wait
/// in.
///
/// Contracts see a `BoardView`: the board, the number of changes of any kind for which room is
/// reserved, and the number of writes since the board was made. Every change is counted. What the
/// definitions look up takes one look at a tape here. No change takes memory.
#[derive(Drop)]
pub struct Board {
    pub(crate) mode: Mode,
    pub(crate) sides: Vec<Side>,
    pub(crate) sets: Tape<MatchSet>,
    /// How many slots each rank holds: as many as it has buffered sends that are in no pair.
    pub(crate) slots: Tape<usize>,
}

impl Model for Board {
    ghost use Rattle.std.specs.Prelude.{◌+◌};
    ghost use Rattle.mpd_match.specs.Views.{BoardView, board_in, room_in, writes_in};
    ghost use Rattle.mpd_match.specs.Held.{Kept};

    ghost Value = { BoardView };

    ghost view = { λ s. record {
      board = board_in s.mode s.sides.items s.sets.items;
      room = room_in s.sets.room s.sides.items;
      writes = s.sets.writes + writes_in s.sides.items + s.slots.writes;
    } };

    ghost invariant = { λ s. Kept (board_in s.mode s.sides.items s.sets.items) s.sides.items s.slots.items };
}

impl Board {
    /// A board of `ranks` ranks, at most `RANKS_MAX`, before any call. `Err` means that memory was
    /// refused.
    pub fn new(alloc: Global, ranks: usize, mode: Mode) -> Result<Board, AllocError>
        requires { ranks ≤ RANKS_MAX }
        ensures board { IfOk result (λ b. b.board ≡ start_board ranks mode) }
        ensures writes { IfOk result (λ b. b.writes ≡ 0) }
    {
        Ok(Board {
            mode,
            sides: sides::new_sides(alloc, ranks)?,
            sets: Tape::new(alloc),
            slots: Tape::filled(alloc, ranks, 0)?,
        })
    }

    /// Reserves room for one change of any kind. `Err` means that memory was refused, which happens
    /// only if there was no such room.
    pub fn keep_room(&mut self) -> Result<(), AllocError>
        ensures board { self.new.board ≡ self.old.board }
        ensures writes { self.new.writes ≡ self.old.writes }
        ensures room { OnOk result (1 ≤ self.new.room) }
        ensures never_less { self.old.room ≤ self.new.room }
        ensures missing { OnErr result (self.old.room ≡ 0) }
    {
        self.sets.keep_room(1)?;
        sides::keep_rooms(&mut self.sides)
    }

    /// A rank issues a call. A send or a receive joins the end of its line. A standard send is
    /// marked as buffered if the mode has a buffer for it now, and then holds a slot of its rank.
    /// Returns the call's number, which is below 4,294,967,295. `unissue` restores the board.
    pub fn issue(&mut self, rank: usize, call: Call) -> u32
        requires rank { rank < length self.old.board.calls }
        requires receiver { HasReceiver (length self.old.board.calls) call.kind }
        requires room { 1 ≤ self.old.room }
        ensures number { result ≡ length (calls_of self.old.board rank) }
        ensures small { result < 4294967295 }
        ensures board { self.new.board ≡ with_issued self.old.board rank (Some call) }
        ensures back { without_last_call self.new.board rank ≡ self.old.board }
        ensures some { 0 < length (calls_of self.new.board rank) }
        ensures free { partner self.new.board.sets (last_call self.new.board rank) ≡ None }
        ensures room { self.old.room ≤ self.new.room + 1 }
        ensures writes { self.new.writes ≡ self.old.writes + issue_writes (Some call.kind) + slots_of (Some (entered self.old.board rank call).kind) }
        ensures few_writes { self.new.writes ≤ self.old.writes + 7 }
    {
        let kind = kinds::buffered_by(self.has_buffer(rank), call.kind);
        self.add_call(rank, Call { kind, ..call })
    }

    /// Whether a standard send of this rank would be buffered if it were issued now (MPI 4.0,
    /// section 3.4).
    fn has_buffer(&self, rank: usize) -> bool
        ensures { result ≡ has_buffer self.now.board rank }
    {
        match self.mode {
            Mode::Rendezvous => false,
            Mode::Buffered => true,
            Mode::Slots(count) => self.slots_used(rank) < count,
        }
    }

    /// A call joins those of a rank, and its line, at the end.
    fn add_call(&mut self, rank: usize, call: Call) -> u32
        requires rank { rank < length self.old.board.calls }
        requires receiver { HasReceiver (length self.old.board.calls) call.kind }
        requires room { 1 ≤ self.old.room }
        ensures number { result ≡ length (calls_of self.old.board rank) }
        ensures small { result < 4294967295 }
        ensures board { self.new.board ≡ with_call self.old.board rank call }
        ensures back { without_last_call self.new.board rank ≡ self.old.board }
        ensures some { 0 < length (calls_of self.new.board rank) }
        ensures free { partner self.new.board.sets (last_call self.new.board rank) ≡ None }
        ensures room { self.old.room ≤ self.new.room + 1 }
        ensures writes { self.new.writes ≡ self.old.writes + issue_writes (Some call.kind) + slots_of (Some call.kind) }
    {
        let number = sides::issue_at(&mut self.sides, rank, call);
        slots::take_slot(&mut self.slots, rank, Some(call.kind));
        number
    }

    /// Takes back the last call of a rank, which is in no pair, and with it the slot that it holds.
    #[inline(never)]
    pub fn unissue(&mut self, rank: usize)
        requires some { 0 < length (calls_of self.old.board rank) }
        requires free { partner self.old.board.sets (last_call self.old.board rank) ≡ None }
        ensures board { self.new.board ≡ without_last_call self.old.board rank }
        ensures room { self.old.room ≤ self.new.room }
        ensures writes { self.new.writes ≡ self.old.writes + unissue_writes (kind_at self.old.board (last_call self.old.board rank)) + slots_of (kind_at self.old.board (last_call self.old.board rank)) }
        ensures few_writes { self.new.writes ≤ self.old.writes + 5 }
    {
        let last = self.last_call(rank);
        let kind = self.kind(last);
        sides::unissue_at(&mut self.sides, rank);
        slots::give_slot_back(&mut self.slots, rank, kind);
    }

    /// Pairs a send and a receive (MPI 4.0, section 3.5). The slot that the send holds is free
    /// again. `unpair` with the record restores the board.
    pub fn pair(&mut self, send: CallId, recv: CallId) -> PairRecord
        requires eligible { eligible self.old.board send recv ≡ true }
        requires room { 1 ≤ self.old.room }
        ensures board { self.new.board ≡ with_set self.old.board (MatchSet.Pair send recv) }
        ensures recorded { result ≡ record_of_pair self.old.board send recv }
        ensures undoable { Recorded (without_last_set self.new.board) result (last_set self.new.board) }
        ensures back { without_last_set self.new.board ≡ self.old.board }
        ensures room { self.old.room ≤ self.new.room + 1 }
        ensures writes { self.new.writes ≡ self.old.writes + 7 + slots_of (kind_at self.old.board send) }
        ensures few_writes { self.new.writes ≤ self.old.writes + 8 }
    {
        let kind = self.kind(send);
        self.sets.push_kept(MatchSet::Pair(send, recv));
        let send_spot = sides::pair_at(&mut self.sides, recv.rank + 1, send, recv);
        let recv_spot = sides::pair_at(&mut self.sides, 0, recv, send);
        slots::give_slot_back(&mut self.slots, send.rank, kind);
        PairRecord {
            send_spot,
            recv_spot,
        }
    }

    /// Takes back the last match set, a pair: its calls are free again, at their old places in
    /// their lines, and the send holds its slot again.
    pub fn unpair(&mut self, done: PairRecord)
        requires { Recorded (without_last_set self.old.board) done (last_set self.old.board) }
        ensures board { self.new.board ≡ without_last_set self.old.board }
        ensures room { self.old.room ≤ self.new.room }
        ensures writes { self.new.writes ≡ self.old.writes + 11 + slots_paired self.old.board (last_set self.old.board) }
        ensures few_writes { self.new.writes ≤ self.old.writes + 12 }
    {
        let Some(MatchSet::Pair(send, recv)) = self.sets.pop() else {
            unreachable!();
        };
        sides::unpair_at(&mut self.sides, recv.rank + 1, send, done.send_spot);
        sides::unpair_at(&mut self.sides, 0, recv, done.recv_spot);
        let kind = sides::kind_on(&self.sides, send);
        slots::take_slot(&mut self.slots, send.rank, kind);
    }

    /// Notes that the rank that was blocked on this call went on. One write; the room for one
    /// change is used. `unwoke` restores the board.
    pub fn woke(&mut self, call: CallId)
        requires { 1 ≤ self.old.room }
        ensures board { self.new.board ≡ with_set self.old.board (MatchSet.Woke call) }
        ensures last { last_set self.new.board ≡ Some (MatchSet.Woke call) }
        ensures back { without_last_set self.new.board ≡ self.old.board }
        ensures room { self.old.room ≤ self.new.room + 1 }
        ensures writes { self.new.writes ≡ self.old.writes + 1 }
    {
        self.add_set(MatchSet::Woke(call));
    }

    /// Takes back the last match set, which must be a wake. One write.
    pub fn unwoke(&mut self)
        requires { is_woke (last_set self.old.board) ≡ true }
        ensures board { self.new.board ≡ without_last_set self.old.board }
        ensures room { self.old.room ≤ self.new.room }
        ensures writes { self.new.writes ≡ self.old.writes + 1 }
    {
        self.drop_set();
    }

    /// Adds a match set that pairs no calls.
    pub(crate) fn add_set(&mut self, set: MatchSet)
        requires lone { is_lone (Some set) ≡ true }
        requires room { 1 ≤ self.old.room }
        ensures board { self.new.board ≡ with_set self.old.board set }
        ensures last { last_set self.new.board ≡ Some set }
        ensures back { without_last_set self.new.board ≡ self.old.board }
        ensures room { self.old.room ≤ self.new.room + 1 }
        ensures writes { self.new.writes ≡ self.old.writes + 1 }
    {
        self.sets.push_kept(set);
    }

    /// Takes back the last match set, which pairs no calls.
    pub(crate) fn drop_set(&mut self)
        requires { is_lone (last_set self.old.board) ≡ true }
        ensures board { self.new.board ≡ without_last_set self.old.board }
        ensures room { self.old.room ≤ self.new.room }
        ensures writes { self.new.writes ≡ self.old.writes + 1 }
    {
        let _ = self.sets.pop();
    }

    /// The same board, in memory of its own. The copy counts its writes from 0. `Err` means that
    /// memory was refused.
    pub fn copy(&self) -> Result<Board, AllocError>
        ensures board { IfOk result (λ b. b.board ≡ self.now.board) }
        ensures writes { IfOk result (λ b. b.writes ≡ 0) }
    {
        Ok(Board {
            mode: self.mode,
            sides: sides::copy_sides(&self.sides)?,
            sets: self.sets.copy()?,
            slots: self.slots.copy()?,
        })
    }
}
