//! The state of a run.

ghost use Rattle.std.specs.Prelude.{◌≡◌, ◌<◌, ◌≤◌, ◌+◌, ◌∷◌, ℕ, true, length, slice_get, IfOk, IfSome, is_some, OnOk, OnErr, Some, None};
ghost use Rattle.std.specs.Option.{option_map};
ghost use Rattle.std.specs.List.{list_all};
ghost use Rattle.mpd_model.specs.steps.Outcomes.{has_ended, first_number};
ghost use Rattle.mpd_model.specs.declared.call.MatchSet.TheVariants as sets;
ghost use Rattle.mpd_model.specs.steps.World.{eligible, start, kind_at, last_call};
ghost use Rattle.mpd_model.specs.steps.Next as next_specs;
ghost use Rattle.mpd_model.specs.steps.Next.{next, is_enabled, local_at, wake_writes, wake_clears, status_writes, can_wake, any_handle, any_call, any_writes, can_wake_any, can_release, is_at_barrier, waits};
ghost use Rattle.mpd_core.specs.Views.{IsMessage};
ghost use Rattle.mpd_rank.specs.Views.{rank_of};
ghost use Rattle.mpd_match.specs.Changes.{last_set};
ghost use Rattle.mpd_match.specs.Slots.{slots_of};
ghost use Rattle.mpd_core.specs.Steps.{other_step};
ghost use Rattle.mpd_core.specs.CoreStepped.{CoreStepped, CoreUndone, StepWrote, Wrote};

use crate::fault::StepFault;
use crate::ranks;
use crate::record::{OtherRecord, Record};
use crate::step::{AnyStep, OtherStep};
use crate::waitany::{Request, own_writes, request_handle, requests_of, with_index};
use mpd_code::Code;
use mpd_counter::Counter;
use mpd_match::Board;
use mpd_model::{
    Activity, CallId, CallKind, HANDLES_MAX, Message, Mode, RANKS_MAX, RecvCall, Step, is_barrier,
};
use mpd_rank::{Cells, LocalChange, LocalRecord, RankState};
use std::alloc::{AllocError, Global};
use std::marker::Model;

/// The state of a run, which contracts see as a `CoreView`: its program, its world, the room that
/// is reserved for steps, and how many writes and looks there were. All that a step changes is in
/// tapes and lists, which count their writes.
#[derive(Drop)]
pub struct Core<'c> {
    code: &'c Code,
    ranks: Vec<RankState>,
    board: Board,
    /// Looks at lists of free calls, made to find out whether a match that was asked for is
    /// enabled.
    looks: Counter,
}

impl<'c> Model for Core<'c> {
    ghost use Rattle.std.specs.Prelude.{◌+◌};
    ghost use Rattle.mpd_core.specs.Views.{CoreView, core_view_code, world_in, room_in, writes_in, Holds};

    ghost Value = { CoreView };

    ghost coded = { core_view_code };

    ghost view = { λ c. record {
      program = c.code.now.program;
      world = world_in c.code.now.program c.ranks.items c.board.board;
      room = room_in c.board.room c.ranks.items;
      writes = writes_in c.ranks.items + c.board.writes;
      looks = c.looks;
    } };

    ghost invariant = { λ c. Holds c.code.now.program c.ranks.items c.board.board };
}

/// The handle that the wake from a call of this kind clears, if any.
fn cleared_by(kind: Option<CallKind>) -> Option<usize>
    ensures { result ≡ next_specs.cleared_by kind }
{
    match kind {
        Some(CallKind::Wait(wait)) => Some(wait.handle),
        _ => None,
    }
}

/// The cells that a receive writes as its rank goes on, each with its new value: the value, then the source, then the tag.
fn recv_writes(recv: RecvCall, message: Message) -> Cells
    requires { IsMessage message }
    ensures value { result ≡ (recv.cell, message.value) ∷ status_writes recv.status message }
    ensures few { length result ≤ 3 }
{
    match recv.status {
        None => Cells::one(recv.cell, message.value),
        Some(status) => {
            let value = (recv.cell, message.value);
            let source = (status.source, message.source as i64);
            let tag = (status.tag, message.tag as i64);
            Cells::three(value, source, tag)
        }
    }
}

/// The cells that the wake from a call of this kind writes, each with its new value.
fn writes_of(kind: Option<CallKind>, message: Option<Message>) -> Cells
    requires { IfSome message IsMessage }
    ensures value { result ≡ next_specs.writes_of kind message }
    ensures few { length result ≤ 3 }
{
    match (kind, message) {
        (Some(CallKind::Recv(recv)), Some(message)) => recv_writes(recv, message),
        _ => Cells::none(),
    }
}

impl<'c> Core<'c> {
    ghost use Rattle.mpd_core.specs.Undone.{CanUndo};

    /// The start of a run: every rank before its first step. `Err` means that memory was refused.
    #[tactic(auto, using(crate::proofs::RankLemmas::board))]
    pub fn start(alloc: Global, code: &'c Code, mode: Mode) -> Result<Core<'c>, AllocError>
        ensures program { IfOk result (λ core. core.program ≡ code.now.program) }
        ensures world { IfOk result (λ core. core.world ≡ start code.now.program mode) }
        ensures writes { IfOk result (λ core. core.writes ≡ 0) }
        ensures looks { IfOk result (λ core. core.looks ≡ 0) }
    {
        let size = code.ranks();
        Ok(Core {
            code,
            ranks: ranks::start_ranks(alloc, code, size)?,
            board: Board::new(alloc, size, mode)?,
            looks: Counter::new(),
        })
    }

    /// The same state, in memory of its own. The copy counts its writes and looks from 0. `Err`
    /// means that memory was refused.
    #[tactic(auto, using(crate::proofs::RankLemmas::board))]
    pub fn copy(&self) -> Result<Core<'c>, AllocError>
        ensures program { IfOk result (λ core. core.program ≡ self.now.program) }
        ensures world { IfOk result (λ core. core.world ≡ self.now.world) }
        ensures writes { IfOk result (λ core. core.writes ≡ 0) }
        ensures looks { IfOk result (λ core. core.looks ≡ 0) }
    {
        Ok(Core {
            code: self.code,
            ranks: ranks::copy_ranks(&self.ranks)?,
            board: self.board.copy()?,
            looks: Counter::new(),
        })
    }

    /// The code of the script that is run.
    pub fn code(&self) -> &'c Code
        ensures { result.now.program ≡ self.now.program }
    {
        self.code
    }

    /// Where memory is taken from.
    pub(crate) fn allocator(&self) -> Global {
        *self.ranks.allocator()
    }

    /// Where calls meet: the calls of each rank, their partners, the lists of free calls, and the match sets.
    pub fn board(&self) -> &Board
        ensures { result.now.board ≡ self.now.world.board }
    {
        &self.board
    }

    /// How many ranks there are, 1 to 16.
    #[tactic(auto, using(crate::proofs::RankLemmas::board))]
    pub fn rank_count(&self) -> usize
        ensures value { result ≡ length self.now.world.ranks }
        ensures board { result ≡ length self.now.world.board.calls }
        ensures small { result ≤ RANKS_MAX }
    {
        self.ranks.len()
    }

    /// A law, which always holds: all ranks of the program are there. A call does nothing.
    #[inline(always)]
    #[tactic(auto, using(crate::proofs::RankLemmas::all_there))]
    pub fn all_ranks_are_there(&self)
        ensures { self.now.program.ranks ≡ length self.now.world.ranks }
    {
        let _ = &self.board;
    }

    /// Whether a rank is running, blocked or trapped; `None` if there is no such rank.
    pub fn activity(&self, rank: usize) -> Option<Activity>
        ensures { result ≡ option_map (λ r. r.activity) (slice_get self.now.world.ranks rank) }
    {
        match ranks::rank_at(&self.ranks, rank) {
            None => None,
            Some(state) => Some(state.activity()),
        }
    }

    /// Whether every rank has ended.
    pub(crate) fn all_ended(&self) -> bool
        ensures { result ≡ list_all has_ended self.now.world.ranks }
    {
        ranks::all_ended(self.code, &self.ranks)
    }

    /// The state of a rank that exists: what it holds, and what it has printed.
    #[tactic(auto, using(crate::proofs::RankLemmas::reading, crate::proofs::RankLemmas::numbered))]
    pub fn rank(&self, rank: usize) -> &RankState
        requires { rank < length self.now.world.ranks }
        ensures world { slice_get self.now.world.ranks rank ≡ Some (rank_of self.now.program result.now) }
        ensures number { result.now.rank ≡ rank }
    {
        &self.ranks[rank]
    }

    /// The number, in text order, of the next statement of a rank that exists, if it has one.
    pub fn next_statement(&self, rank: usize) -> Option<usize>
        requires { rank < length self.now.world.ranks }
        ensures { IfSome (slice_get self.now.world.ranks rank) (λ r. result ≡ first_number r.rest) }
    {
        self.rank(rank).next_statement(self.code)
    }

    /// Whether a rank is blocked.
    pub(crate) fn is_waiting(&self, rank: usize) -> bool
        ensures { result ≡ waits (slice_get self.now.world.ranks rank) }
    {
        match ranks::rank_at(&self.ranks, rank) {
            None => false,
            Some(state) => match state.activity() {
                Activity::Blocked => true,
                Activity::Running | Activity::Trapped(_) => false,
            },
        }
    }

    /// Whether a rank is blocked on a complete call.
    fn can_wake(&self, rank: usize) -> bool
        ensures { result ≡ can_wake self.now.world rank }
    {
        self.is_waiting(rank) && self.board.is_complete(self.board.last_call(rank))
    }

    /// How many requests the waitany has that a rank has issued last; 0 if its last call is
    /// another.
    pub(crate) fn request_count(&self, rank: usize) -> usize
        ensures { result ≡ next_specs.requests_of (kind_at self.now.world.board (last_call self.now.world.board rank)) }
    {
        requests_of(self.board.kind(self.board.last_call(rank)))
    }

    /// The request of an index, of the waitany that a rank has issued last, if its handle has a
    /// call.
    #[tactic(auto, using(crate::proofs::RankLemmas::reading, crate::proofs::AnyLemmas::requesting))]
    pub fn request(&self, rank: usize, index: usize) -> Option<Request>
        ensures handle { IfSome result (λ request. any_handle self.now.world rank index ≡ Some request.handle) }
        ensures call { any_call self.now.world rank index ≡ option_map (λ request. request.call) result }
        ensures low { IfSome result (λ _. index < HANDLES_MAX) }
    {
        let state = ranks::rank_at(&self.ranks, rank)?;
        let kind = self.board.kind(self.board.last_call(rank));
        let handle = request_handle(kind, index, state.handle_count())?;
        let call = state.held_call(handle)?;
        Some(Request {
            handle,
            call: CallId { rank, index: call },
        })
    }

    /// The request of an index, if a rank is blocked on a waitany and that request is complete.
    #[tactic(auto, using(crate::proofs::AnyLemmas::requesting))]
    fn ready_request(&self, rank: usize, index: usize) -> Option<Request>
        ensures can { is_some result ≡ can_wake_any self.now.world rank index }
        ensures handle { IfSome result (λ request. any_handle self.now.world rank index ≡ Some request.handle) }
        ensures call { IfSome result (λ request. any_call self.now.world rank index ≡ Some request.call) }
        ensures low { IfSome result (λ _. index < HANDLES_MAX) }
        ensures within { IfSome result (λ _. rank < length self.now.world.ranks) }
    {
        let request = self.request(rank, index)?;
        if rank < self.rank_count()
            && self.is_waiting(rank)
            && self.board.is_complete(request.call)
        {
            Some(request)
        } else {
            None
        }
    }

    /// Whether a rank is blocked on a barrier.
    fn is_at_barrier(&self, rank: usize) -> bool
        ensures { result ≡ is_at_barrier self.now.world rank }
    {
        self.is_waiting(rank) && is_barrier(self.board.kind(self.board.last_call(rank)))
    }

    /// Whether every rank is blocked on a barrier. It looks through the ranks once, up to the first that isn't.
    #[tactic(auto, using(crate::proofs::ReleaseLemmas::at_barriers))]
    fn can_release(&self) -> bool
        ensures { result ≡ can_release self.now.world }
    {
        let count = self.rank_count();
        for rank in 0..count {
            if !self.is_at_barrier(rank) {
                return false;
            }
        }
        count > 0
    }

    /// Whether a rank can take a local step.
    #[tactic(auto, using(crate::proofs::RankLemmas::reading))]
    fn can_step(&self, rank: usize) -> bool
        ensures { result ≡ is_some (local_at self.now.world rank) }
    {
        match ranks::rank_at(&self.ranks, rank) {
            None => false,
            Some(state) => state.can_step(self.code),
        }
    }

    /// Whether a step is enabled in this state (docs/DEFINITIONS.md, "Steps").
    #[inline(always)]
    pub fn is_enabled(&self, step: Step) -> bool
        ensures { result ≡ is_enabled self.now.world step }
    {
        match step {
            Step::Local(rank) => self.can_step(rank),
            Step::Match(send, recv) => {
                let mut looks = Counter::new();
                self.board.eligible(send, recv, &mut looks)
            }
            Step::Wake(rank) => self.can_wake(rank),
            Step::WakeAny { rank, index } => self.ready_request(rank, index).is_some(),
            Step::Release => self.can_release(),
        }
    }

    /// A local step, as `apply` takes it. Returns what takes the step back, apart from the rank.
    #[inline(always)]
    pub fn step_local(&mut self, rank: usize) -> Result<LocalRecord, StepFault>
        ensures stepped { CoreStepped (Record.Local rank) (Step.Local rank) self.old self.new result }
        ensures writes { StepWrote (Step.Local rank) self.old self.new result }
    {
        if rank >= self.ranks.len() {
            return Err(StepFault::NotEnabled);
        }
        ranks::step_one(self.code, &mut self.ranks, &mut self.board, rank)
    }

    /// A match.
    #[tactic(auto, using(crate::proofs::RoomLemmas::refused, crate::proofs::RoomLemmas::spending, crate::proofs::TagLemmas::tagging))]
    fn apply_match(&mut self, send: CallId, recv: CallId) -> Result<OtherRecord, StepFault>
        ensures stepped { CoreStepped Record.Other (Step.Match send recv) self.old self.new result }
        ensures writes { OnOk result (self.new.writes ≡ self.old.writes + 7 + slots_of (kind_at self.old.world.board send)) }
        ensures unwritten { OnErr result (self.new.writes ≡ self.old.writes) }
    {
        if !self.board.eligible(send, recv, &mut self.looks) {
            return Err(StepFault::NotEnabled);
        }
        self.board.keep_room()?;
        Ok(OtherRecord::Matched(self.board.pair(send, recv)))
    }

    /// The cells that the wake of a rank writes, each with its new value.
    #[tactic(auto, using(crate::proofs::TagLemmas::tagging, crate::proofs::AnyLemmas::owning))]
    fn wake_writes(&self, rank: usize) -> Cells
        ensures { result ≡ wake_writes self.now.world.board rank }
    {
        let last = self.board.last_call(rank);
        match self.board.awaited(last) {
            None => own_writes(self.board.kind(last)),
            Some(call) => writes_of(self.board.kind(call), self.board.buffer(call)),
        }
    }

    /// The cells that a rank writes as it goes on by the request of an index, each with its new
    /// value: what a wait for that call writes, then the index.
    #[tactic(auto, using(crate::proofs::TagLemmas::tagging))]
    fn any_writes(&self, rank: usize, index: usize, call: CallId) -> Cells
        requires low { index < HANDLES_MAX }
        requires call { any_call self.now.world rank index ≡ Some call }
        ensures { result ≡ any_writes self.now.world rank index }
    {
        let writes = writes_of(self.board.kind(call), self.board.buffer(call));
        let kind = self.board.kind(self.board.last_call(rank));
        with_index(writes, kind, index)
    }

    /// The handle that the wake of a rank clears, if any.
    fn wake_clears(&self, rank: usize) -> Option<usize>
        ensures { result ≡ wake_clears self.now.world.board rank }
    {
        cleared_by(self.board.kind(self.board.last_call(rank)))
    }

    /// A wake.
    #[tactic(auto, using(crate::proofs::RankLemmas::board, crate::proofs::RankLemmas::waking_blocked, crate::proofs::RoomLemmas::refused, crate::proofs::RoomLemmas::spending, crate::proofs::TagLemmas::tagging))]
    fn apply_wake(&mut self, rank: usize) -> Result<OtherRecord, StepFault>
        ensures stepped { CoreStepped Record.Other (Step.Wake rank) self.old self.new result }
        ensures writes { Wrote 2 7 self.old.writes self.new.writes result }
    {
        if rank >= self.ranks.len() || !self.can_wake(rank) {
            return Err(StepFault::NotEnabled);
        }
        let writes = self.wake_writes(rank);
        let handle = self.wake_clears(rank);
        let call = self.board.last_call(rank);
        self.board.keep_room()?;
        self.board.woke(call);
        let was = ranks::wake_one(&mut self.ranks, rank, writes, handle);
        Ok(OtherRecord::Woke { rank, was })
    }

    /// A wake by the request of an index, of a waitany.
    #[tactic(auto, using(crate::proofs::RankLemmas::board, crate::proofs::RankLemmas::waking_blocked, crate::proofs::RoomLemmas::refused, crate::proofs::RoomLemmas::spending, crate::proofs::TagLemmas::tagging))]
    fn apply_wake_any(&mut self, rank: usize, index: usize) -> Result<OtherRecord, StepFault>
        ensures stepped { CoreStepped Record.Other (Step.WakeAny rank index) self.old self.new result }
        ensures writes { Wrote 2 7 self.old.writes self.new.writes result }
    {
        let Some(request) = self.ready_request(rank, index) else {
            return Err(StepFault::NotEnabled);
        };
        let writes = self.any_writes(rank, index, request.call);
        let call = self.board.last_call(rank);
        self.board.keep_room()?;
        self.board.woke(call);
        let was = ranks::wake_one(&mut self.ranks, rank, writes, Some(request.handle));
        Ok(OtherRecord::Woke { rank, was })
    }

    /// A release.
    #[tactic(auto, using(crate::proofs::ReleaseLemmas::releasing, crate::proofs::RoomLemmas::refused, crate::proofs::RoomLemmas::spending, crate::proofs::TagLemmas::tagging))]
    fn apply_release(&mut self) -> Result<OtherRecord, StepFault>
        ensures stepped { CoreStepped Record.Other Step.Release self.old self.new result }
        ensures writes { OnOk result (self.new.writes ≡ self.old.writes + self.old.program.ranks + 1) }
        ensures unwritten { OnErr result (self.new.writes ≡ self.old.writes) }
    {
        if !self.can_release() {
            return Err(StepFault::NotEnabled);
        }
        self.board.keep_room()?;
        self.board.released();
        ranks::let_go(&mut self.ranks);
        Ok(OtherRecord::Released)
    }

    /// Reserves room for one step of any kind. `Err` means that memory was refused, which happens
    /// only if no such room was reserved. The state stays as it was.
    #[tactic(auto, using(crate::proofs::RoomLemmas::keeping, crate::proofs::TagLemmas::tagging))]
    pub fn keep_room(&mut self) -> Result<(), AllocError>
        ensures room { OnOk result (1 ≤ self.new.room) }
        ensures never_less { self.old.room ≤ self.new.room }
        ensures memory { OnErr result (self.old.room ≡ 0) }
        ensures world { self.new.world ≡ self.old.world }
        ensures program { self.new.program ≡ self.old.program }
        ensures writes { self.new.writes ≡ self.old.writes }
        ensures looks { self.new.looks ≡ self.old.looks }
    {
        self.board.keep_room()?;
        ranks::keep_rooms(&mut self.ranks)
    }

    /// A step that isn't local, as `apply` takes it, with its refusals. Returns what takes the step
    /// back.
    #[tactic(auto, using(crate::proofs::StepLemmas::writing))]
    pub fn step_other(&mut self, step: OtherStep) -> Result<OtherRecord, StepFault>
        ensures stepped { CoreStepped Record.Other (other_step step) self.old self.new result }
        ensures writes { StepWrote (other_step step) self.old self.new result }
    {
        match step {
            OtherStep::Match(send, recv) => self.apply_match(send, recv),
            OtherStep::Wake(rank) => self.apply_wake(rank),
            OtherStep::WakeAny { rank, index } => self.apply_wake_any(rank, index),
            OtherStep::Release => self.apply_release(),
        }
    }

    /// Takes a step, or refuses it. `NotEnabled` (21): exactly if the relation of steps has no such
    /// step. `Memory` (23): memory was refused, which never happens if room was reserved. On a
    /// refusal the state is as before (docs/DEFINITIONS.md, "Steps"). A step takes 1 to 16 writes,
    /// a release at most two more for each rank. It looks at lists of free calls only for a match
    /// that fits: at most once at each of their cells, and twice more.
    pub fn apply(&mut self, step: Step) -> Result<Record, StepFault>
        ensures stepped { CoreStepped (λ done. done) step self.old self.new result }
        ensures writes { StepWrote step self.old self.new result }
    {
        match AnyStep::of(step) {
            AnyStep::Local(rank) => {
                let done = self.step_local(rank)?;
                Ok(Record::Local { rank, done })
            }
            AnyStep::Other(step) => Ok(Record::Other(self.step_other(step)?)),
        }
    }

    /// Takes a local step of a rank back, as `undo` does: the last step that is not undone, by its
    /// record.
    #[inline(always)]
    #[tactic(auto, using(crate::proofs::RoomLemmas::sparing, crate::proofs::TagLemmas::tagging))]
    pub fn undo_local(&mut self, rank: usize, done: &LocalRecord)
        requires { CanUndo self.old.world (Record.Local rank done.now) }
        ensures { CoreUndone (Record.Local rank done.now) self.old self.new }
    {
        if let LocalChange::Issued { .. } = done.change() {
            self.board.unissue(rank);
        }
        ranks::restore_local(&mut self.ranks, rank, done);
    }

    /// Takes a release back.
    #[tactic(auto, using(crate::proofs::ReleaseLemmas::releasing, crate::proofs::RoomLemmas::sparing, crate::proofs::TagLemmas::tagging))]
    fn undo_release(&mut self)
        requires { last_set self.old.world.board ≡ Some sets.Barrier }
        ensures undone { CoreUndone (Record.Other OtherRecord.Released) self.old self.new }
        ensures writes { self.new.writes ≡ self.old.writes + self.old.program.ranks + 1 }
    {
        self.board.unreleased();
        ranks::block_all(&mut self.ranks);
    }

    /// Takes back a step that isn't local, as `undo` does: the last step that is not undone, by its
    /// record.
    #[tactic(auto, using(crate::proofs::RoomLemmas::sparing, crate::proofs::TagLemmas::tagging))]
    pub fn undo_other(&mut self, done: &OtherRecord)
        requires { CanUndo self.old.world (Record.Other done.now) }
        ensures { CoreUndone (Record.Other done.now) self.old self.new }
    {
        match done {
            OtherRecord::Matched(places) => self.board.unpair(*places),
            OtherRecord::Woke { rank, was } => {
                self.board.unwoke();
                ranks::unwake_one(&mut self.ranks, *rank, was);
            }
            OtherRecord::Released => self.undo_release(),
        }
    }

    /// Takes back the last step that is not undone, by its record. Memory can't be refused. The
    /// state is the one before that step. Takes 1 to 16 writes, for a release at most two more for
    /// each rank.
    pub fn undo(&mut self, done: Record)
        requires { CanUndo self.old.world done }
        ensures { CoreUndone done self.old self.new }
    {
        match done {
            Record::Local { rank, done } => self.undo_local(rank, &done),
            Record::Other(done) => self.undo_other(&done),
        }
    }
}
