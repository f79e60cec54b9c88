//! The state of one rank.

ghost use Rattle.std.specs.Prelude.{◌≡◌, ◌<◌, ◌≤◌, ◌+◌, IfOk, IfSome, IfNone, [], OnOk, OnErr, is_some, IsSome, ℕ, Some, None, length, slice_index_or, slice_set};
ghost use Rattle.std.specs.Option.{option_map};
ghost use Rattle.mpd_model.specs.script.Program.{Program};
ghost use Rattle.mpd_rank.specs.Entries.{IsSmall};
ghost use Rattle.mpd_code.specs.Left.{left_at};
ghost use Rattle.mpd_code.specs.Stands.{Stands};

use crate::change::{
    Cells, LocalKind, LocalRecord, OldCell, OldCells, OldHandle, RankRecord, WakeRecord,
};
use crate::control::Control;
use crate::plan::{Alone, LocalPlan, plan_alone, plan_node};
use mpd_code::{Code, Env, Node};
use mpd_model::{Activity, HANDLES_MAX, Issue, blocks};
use mpd_queue::Tape;
use std::alloc::{AllocError, Global};
use std::marker::Model;

/// One rank, which contracts see as a `RankView`. What it has left to run is what its node stands
/// for. All that a step changes is in tapes, which count their writes.
#[derive(Drop)]
pub struct RankState {
    rank: u32,
    /// Of one item.
    control: Tape<Control>,
    vars: Tape<i64>,
    handles: Tape<Option<usize>>,
    out: Tape<i64>,
}

impl Model for RankState {
    ghost use Rattle.std.specs.Prelude.{◌≡◌, ◌+◌, length};
    ghost use Rattle.mpd_rank.specs.Views.{RankView, rank_view_code, control_in};

    ghost Value = { RankView };

    ghost coded = { rank_view_code };

    ghost view = { λ r. record {
      rank = r.rank;
      node = (control_in r.control.items).node;
      activity = (control_in r.control.items).activity;
      vars = r.vars.items;
      handles = r.handles.items;
      out = r.out.items;
      room = r.out.room;
      writes = r.control.writes + r.vars.writes + r.handles.writes + r.out.writes;
    } };

    ghost use Rattle.mpd_rank.specs.Entries.{KeepsSmall};

    ghost invariant = { λ r. KeepsSmall r.control.items r.vars.items r.handles.items };
}

impl RankState {
    ghost use Rattle.mpd_model.specs.steps.World.{start_rank};
    ghost use Rattle.mpd_model.specs.steps.Outcomes.{has_ended, first_number};
    ghost use Rattle.mpd_model.specs.steps.Next.{env_of, local, woken_rank, going_on, write_cells, requested, activity_after};
    ghost use Rattle.mpd_rank.specs.Views.{rank_of, listed};
    ghost use Rattle.mpd_rank.specs.Plans.{planned, planned_alone, plan_ran, HasPlannedReceiver};
    ghost use Rattle.mpd_rank.specs.Undone.{IsOwn, undone_rank, unwoken, blocked_again, entry_at, entries_before, handle_entry, put_entry};
    ghost use Rattle.mpd_rank.specs.Restored.{restored};
    ghost use Rattle.mpd_rank.specs.Records.{local_record, plan_record, alone_record, wake_record, IsPlanned};

    /// A rank before its first step, with the whole body to run. `Err` means that memory was
    /// refused.
    pub fn start(alloc: Global, code: &Code, rank: u32) -> Result<RankState, AllocError>
        ensures world { IfOk result (λ r. rank_of code.now.program r ≡ start_rank code.now.program) }
        ensures rank { IfOk result (λ r. r.rank ≡ rank) }
        ensures writes { IfOk result (λ r. r.writes ≡ 0) }
    {
        let control = Control {
            node: code.start() as u32,
            activity: Activity::Running,
        };
        Ok(RankState {
            rank,
            control: Tape::filled(alloc, 1, control)?,
            vars: Tape::filled(alloc, code.cells(), 0)?,
            handles: Tape::filled(alloc, code.handles(), None)?,
            out: Tape::new(alloc),
        })
    }

    /// Reserves room for one step of any kind. `Err` means that memory was refused, which happens
    /// only if no such room was reserved. The rank's state stays as it was.
    pub fn keep_room(&mut self) -> Result<(), AllocError>
        ensures room { OnOk result (1 ≤ self.new.room) }
        ensures never_less { self.old.room ≤ self.new.room }
        ensures memory { OnErr result (self.old.room ≡ 0) }
        ensures same { self.new ≡ record self.old { room = self.new.room } }
    {
        self.out.keep_room(1)
    }

    /// The node that the rank is at, and what it is doing.
    fn control(&self) -> Control
        ensures { result ≡ record { node = self.now.node; activity = self.now.activity } }
    {
        self.control.items()[0]
    }

    /// Moves the rank to a node. One write.
    fn move_to(&mut self, node: u32, activity: Activity)
        ensures after { self.new ≡ record self.old { node = node; activity = activity; writes = self.old.writes + 1 } }
    {
        self.control.set(0, Control { node, activity });
    }

    /// The node of its next statement, if it is running and has one.
    fn next_node<'n>(&self, code: &'n Code) -> Option<&'n Node>
        ensures running { IfSome result (λ _. self.now.activity ≡ Activity.Running) }
        ensures some { IfSome result (λ node. Stands (left_at code.now.program) self.now.node node.now) }
        ensures none { IfNone result (self.now.activity ≡ Activity.Running → left_at code.now.program self.now.node ≡ []) }
    {
        let Control { node, activity } = self.control();
        match activity {
            Activity::Running => code.node(node as usize),
            Activity::Blocked | Activity::Trapped(_) => None,
        }
    }

    /// What the statements of this rank are evaluated in.
    fn env<'v>(&'v self, code: &Code) -> Env<'v>
        ensures { result ≡ env_of self.now.rank code.now.program.ranks (rank_of code.now.program self.now) }
    {
        let rank = self.rank;
        let size = code.ranks();
        Env {
            vars: self.vars.items(),
            handles: self.handles.items(),
            rank,
            size: size as u32,
        }
    }

    /// What the next local step does, if there is one. Nothing changes.
    #[tactic(auto, using(crate::proofs::PlanLemmas::planning))]
    pub fn plan_local(&self, code: &Code) -> Option<LocalPlan>
        ensures step { (count : ℕ) → local self.now.rank code.now.program.ranks count (rank_of code.now.program self.now) ≡ option_map (plan_ran code.now.program (rank_of code.now.program self.now) count self.now.node) result }
        ensures recorded { local_record self.now.rank code.now.program.ranks (rank_of code.now.program self.now) ≡ option_map (plan_record self.now) result }
        ensures receiver { IfSome result (λ plan. HasPlannedReceiver code.now.program.ranks plan) }
        ensures statement { IfSome result (λ _. IsSome (first_number (left_at code.now.program self.now.node))) }
    {
        let node = self.next_node(code)?;
        let env = self.env(code);
        Some(plan_node(node, &env))
    }

    /// What the next local step does, if its statement is of a kind that issues no call. Nothing
    /// changes.
    #[inline(always)]
    #[tactic(auto, using(crate::proofs::PlanLemmas::planning))]
    fn plan_alone(&self, code: &Code) -> Option<Alone>
        ensures planned { IfSome result (λ plan. IsPlanned code.now.program self.now (LocalPlan.Alone plan)) }
        ensures running { IfSome result (λ _. self.now.activity ≡ Activity.Running) }
    {
        let node = self.next_node(code)?;
        let env = self.env(code);
        plan_alone(node, &env)
    }

    /// Takes the next local step, if its statement is of a kind that issues no call, in reserved
    /// room. Returns what takes the step back, in one or two writes. If it answers nothing, nothing
    /// has changed.
    #[inline(always)]
    #[tactic(auto, using(crate::proofs::PlanLemmas::stepping))]
    pub fn step_alone(&mut self, code: &Code) -> Option<LocalRecord>
        requires { 1 ≤ self.old.room }
        ensures step { IfSome result (λ _. (count : ℕ) → local self.old.rank code.now.program.ranks count (rank_of code.now.program self.old) ≡ Some (record { rank = rank_of code.now.program self.new; call = None })) }
        ensures recorded { IfSome result (λ done. local_record self.old.rank code.now.program.ranks (rank_of code.now.program self.old) ≡ Some done) }
        ensures back { IfSome result (λ done. undone_rank code.now.program (rank_of code.now.program self.new) done ≡ rank_of code.now.program self.old) }
        ensures own { IfSome result (λ done. IsOwn done.change) }
        ensures rank { self.new.rank ≡ self.old.rank }
        ensures none { IfNone result (self.new ≡ self.old) }
        ensures room_left { self.old.room ≤ self.new.room + 1 }
        ensures rises { IfSome result (λ _. self.old.writes + 1 ≤ self.new.writes) }
        ensures few { self.new.writes ≤ self.old.writes + 2 }
    {
        let plan = self.plan_alone(code)?;
        Some(self.commit_alone(plan))
    }

    /// Writes a variable, if there is such a cell, and returns what it held.
    fn write(&mut self, cell: usize, value: i64) -> OldCell
        ensures after { self.new ≡ record self.old { vars = slice_set self.old.vars cell value; writes = self.new.writes } }
        ensures was { result ≡ entry_at self.old.vars cell }
        ensures rises { self.old.writes ≤ self.new.writes }
        ensures few { self.new.writes ≤ self.old.writes + 1 }
    {
        if cell >= self.vars.len() {
            return OldCell::none();
        }
        let was = self.vars.items()[cell];
        self.vars.set(cell, value);
        OldCell::of(cell, was)
    }

    /// Writes a variable, if one is named.
    fn write_if(&mut self, cell: Option<(usize, i64)>) -> OldCell
        ensures after { self.new ≡ record self.old { vars = write_cells (listed cell) self.old.vars; writes = self.new.writes } }
        ensures was { listed result ≡ entries_before self.old.vars (listed cell) }
        ensures rises { self.old.writes ≤ self.new.writes }
        ensures few { self.new.writes ≤ self.old.writes + 1 }
    {
        match cell {
            None => OldCell::none(),
            Some((cell, value)) => self.write(cell, value),
        }
    }

    /// Writes cells in their order, and returns what they held, the last first.
    #[tactic(auto, using(crate::proofs::RankLemmas::writing))]
    fn write_all(&mut self, cells: Cells) -> OldCells
        ensures after { self.new ≡ record self.old { vars = write_cells cells self.old.vars; writes = self.new.writes } }
        ensures was { result ≡ entries_before self.old.vars cells }
        ensures rises { self.old.writes ≤ self.new.writes }
        ensures few { self.new.writes ≤ self.old.writes + 4 }
    {
        let first = self.write_if(cells.first);
        let second = self.write_if(cells.second);
        let third = self.write_if(cells.third);
        let fourth = self.write_if(cells.fourth);
        let earlier = OldCells::none().with(first).with(second);
        earlier.with(third).with(fourth)
    }

    /// Writes a handle, if there is such a one, and returns what it held.
    fn write_handle(&mut self, handle: usize, call: Option<usize>) -> OldHandle
        requires { IsSmall call }
        ensures after { self.new ≡ record self.old { handles = slice_set self.old.handles handle call; writes = self.new.writes } }
        ensures was { result ≡ entry_at self.old.handles handle }
        ensures rises { self.old.writes ≤ self.new.writes }
        ensures few { self.new.writes ≤ self.old.writes + 1 }
    {
        if handle >= self.handles.len() {
            return OldHandle::none();
        }
        let was = self.handles.items()[handle];
        self.handles.set(handle, call);
        OldHandle::of(handle, was)
    }

    /// Writes a handle, if one is named.
    fn request(&mut self, handle: Option<usize>, call: Option<usize>) -> OldHandle
        requires { IsSmall call }
        ensures after { self.new ≡ record self.old { handles = requested handle call self.old.handles; writes = self.new.writes } }
        ensures was { result ≡ handle_entry handle self.old.handles }
        ensures rises { self.old.writes ≤ self.new.writes }
        ensures few { self.new.writes ≤ self.old.writes + 1 }
    {
        match handle {
            None => OldHandle::none(),
            Some(handle) => self.write_handle(handle, call),
        }
    }

    /// Writes a cell, if there is such a one, and goes on at a node.
    #[inline(always)]
    fn assign(&mut self, into: usize, value: i64, next: u32) -> LocalRecord
        ensures after { self.new ≡ record self.old { node = next; vars = slice_set self.old.vars into value; writes = self.new.writes } }
        ensures recorded { result ≡ alone_record self.old (Alone.Assign into value next) }
        ensures rises { self.old.writes + 1 ≤ self.new.writes }
        ensures few { self.new.writes ≤ self.old.writes + 2 }
    {
        let Control { node, activity } = self.control();
        self.move_to(next, activity);
        if into >= self.vars.len() {
            return LocalRecord::plain(node, LocalKind::Moved);
        }
        let was = self.vars.items()[into];
        self.vars.set(into, value);
        LocalRecord::assigned(node, into, was)
    }

    /// Does what was planned and issues no call, in reserved room. Returns what takes the step
    /// back. One or two writes.
    #[inline(always)]
    #[tactic(auto, using(crate::proofs::RankLemmas::committing, crate::proofs::PlanLemmas::owning))]
    fn commit_alone(&mut self, plan: Alone) -> LocalRecord
        requires { 1 ≤ self.old.room }
        ensures after { (p : Program) → rank_of p self.new ≡ planned_alone p (rank_of p self.old) plan }
        ensures recorded { result ≡ alone_record self.old plan }
        ensures own { IsOwn result.change }
        ensures rank { self.new.rank ≡ self.old.rank }
        ensures back { (p : Program) → self.old.activity ≡ Activity.Running → undone_rank p (rank_of p self.new) result ≡ rank_of p self.old }
        ensures room_left { self.old.room ≤ self.new.room + 1 }
        ensures rises { self.old.writes + 1 ≤ self.new.writes }
        ensures few { self.new.writes ≤ self.old.writes + 2 }
    {
        let Control { node, activity } = self.control();
        match plan {
            Alone::Move { next } => {
                self.move_to(next, activity);
                LocalRecord::plain(node, LocalKind::Moved)
            }
            Alone::Print { value, next } => {
                self.out.push_kept(value);
                self.move_to(next, activity);
                LocalRecord::plain(node, LocalKind::Printed)
            }
            Alone::Assign { cell, value, next } => self.assign(cell, value, next),
            Alone::Trap(trap) => {
                self.move_to(node, Activity::Trapped(trap));
                LocalRecord::plain(node, LocalKind::Trapped)
            }
        }
    }

    /// Does what was planned, in reserved room, so memory can't be refused. `call` is the number of
    /// the call that the step issues, if it issues one. Returns what takes the step back. One or
    /// two writes.
    #[tactic(auto, using(crate::proofs::RankLemmas::committing))]
    pub fn commit(&mut self, plan: LocalPlan, call: usize) -> LocalRecord
        requires room { 1 ≤ self.old.room }
        requires number { call < 4294967295 }
        ensures after { (p : Program) → rank_of p self.new ≡ planned p (rank_of p self.old) call plan }
        ensures recorded { result ≡ plan_record self.old plan }
        ensures rank { self.new.rank ≡ self.old.rank }
        ensures back { (p : Program) → self.old.activity ≡ Activity.Running → undone_rank p (rank_of p self.new) result ≡ rank_of p self.old }
        ensures room_left { self.old.room ≤ self.new.room + 1 }
        ensures rises { self.old.writes + 1 ≤ self.new.writes }
        ensures few { self.new.writes ≤ self.old.writes + 2 }
    {
        match plan {
            LocalPlan::Alone(plan) => self.commit_alone(plan),
            LocalPlan::Issue { issue, next } => self.issue(issue, call, next),
        }
    }

    /// Goes on at a node after a call that was issued.
    fn issue(&mut self, issue: Issue, call: usize, next: u32) -> LocalRecord
        requires { call < 4294967295 }
        ensures after { self.new ≡ record self.old { node = next; handles = requested issue.handle (Some call) self.old.handles; activity = activity_after issue.kind; writes = self.new.writes } }
        ensures recorded { result ≡ plan_record self.old (LocalPlan.Issue issue next) }
        ensures rises { self.old.writes + 1 ≤ self.new.writes }
        ensures few { self.new.writes ≤ self.old.writes + 2 }
    {
        let from = self.control().node;
        let handle = self.request(issue.handle, Some(call));
        let activity = if blocks(issue.kind) {
            Activity::Blocked
        } else {
            Activity::Running
        };
        self.move_to(next, activity);
        LocalRecord::issued(from, handle)
    }

    /// Goes on after a wake, with cells written and a handle cleared. Memory can't be refused.
    /// Returns what takes the wake back. One to six writes.
    #[tactic(auto, using(crate::proofs::RankLemmas::committing))]
    pub fn complete(&mut self, writes: Cells, handle: Option<usize>) -> WakeRecord
        ensures after { (p : Program) → rank_of p self.new ≡ woken_rank writes handle (rank_of p self.old) }
        ensures recorded { (p : Program) → result ≡ wake_record (rank_of p self.old) writes handle }
        ensures rank { self.new.rank ≡ self.old.rank }
        ensures back { (p : Program) → self.old.activity ≡ Activity.Blocked → unwoken (rank_of p self.new) result ≡ rank_of p self.old }
        ensures room_left { self.old.room ≤ self.new.room }
        ensures rises { self.old.writes + 1 ≤ self.new.writes }
        ensures few { self.new.writes ≤ self.old.writes + 6 }
    {
        let node = self.control().node;
        let cells = self.write_all(writes);
        let handle = self.request(handle, None);
        self.move_to(node, Activity::Running);
        WakeRecord { cells, handle }
    }

    /// Puts a handle back.
    fn put_handle(&mut self, was: OldHandle)
        ensures after { self.new ≡ record self.old { handles = put_entry was self.old.handles; writes = self.new.writes } }
        ensures rises { self.old.writes ≤ self.new.writes }
        ensures few { self.new.writes ≤ self.old.writes + 1 }
    {
        if let Some((handle, call)) = was.get() {
            let _ = self.write_handle(handle, call);
        }
    }

    /// Takes a wake back. Memory can't be refused. One to six writes.
    #[inline(never)]
    pub fn unwake(&mut self, done: &WakeRecord)
        ensures after { (p : Program) → rank_of p self.new ≡ unwoken (rank_of p self.old) done.now }
        ensures rank { self.new.rank ≡ self.old.rank }
        ensures room_left { self.old.room ≤ self.new.room }
        ensures rises { self.old.writes + 1 ≤ self.new.writes }
        ensures few { self.new.writes ≤ self.old.writes + 6 }
    {
        let node = self.control().node;
        let _ = self.write_all(done.cells.cells());
        self.put_handle(done.handle);
        self.move_to(node, Activity::Blocked);
    }

    /// Takes a local step of the rank back. Memory can't be refused. One or two writes.
    #[inline(always)]
    pub fn restore_local(&mut self, done: &LocalRecord)
        ensures after { (p : Program) → rank_of p self.new ≡ undone_rank p (rank_of p self.old) done.now }
        ensures rank { self.new.rank ≡ self.old.rank }
        ensures room_left { self.old.room ≤ self.new.room }
        ensures rises { self.old.writes + 1 ≤ self.new.writes }
        ensures few { self.new.writes ≤ self.old.writes + 2 }
    {
        match done.kind {
            LocalKind::Assigned => {
                let _ = self.write(done.cell_index as usize, done.was);
            }
            LocalKind::Printed => {
                let _ = self.out.pop();
            }
            LocalKind::Issued => self.put_handle(done.old_handle()),
            LocalKind::Moved | LocalKind::Trapped => {}
        }
        self.move_to(done.from, Activity::Running);
    }

    /// Changes what the rank is doing, at its present node. One write.
    fn act(&mut self, activity: Activity)
        ensures { self.new ≡ record self.old { activity = activity; writes = self.old.writes + 1 } }
    {
        let node = self.control().node;
        self.move_to(node, activity);
    }

    /// Goes on at a release, from the barrier that the rank was blocked on. Takes no memory, and
    /// none of the reserved room. One write.
    pub fn go_on(&mut self)
        ensures after { self.new ≡ record self.old { activity = Activity.Running; writes = self.old.writes + 1 } }
        ensures world { (p : Program) → rank_of p self.new ≡ going_on (rank_of p self.old) }
        ensures back { (p : Program) → self.old.activity ≡ Activity.Blocked → blocked_again (rank_of p self.new) ≡ rank_of p self.old }
    {
        self.act(Activity::Running);
    }

    /// Takes back a release: the rank is blocked again. Takes no memory, and none of the reserved
    /// room. One write.
    pub fn block_again(&mut self)
        ensures after { self.new ≡ record self.old { activity = Activity.Blocked; writes = self.old.writes + 1 } }
        ensures world { (p : Program) → rank_of p self.new ≡ blocked_again (rank_of p self.old) }
    {
        self.act(Activity::Blocked);
    }

    /// Takes back what the rank did last, by its record: a local step, a wake, or that a release let
    /// it go on. Memory can't be refused. One to six writes.
    pub fn restore(&mut self, done: RankRecord)
        ensures after { (p : Program) → rank_of p self.new ≡ restored p (rank_of p self.old) done }
        ensures rank { self.new.rank ≡ self.old.rank }
        ensures room_left { self.old.room ≤ self.new.room }
        ensures rises { self.old.writes + 1 ≤ self.new.writes }
        ensures few { self.new.writes ≤ self.old.writes + 6 }
    {
        match done {
            RankRecord::Local(done) => self.restore_local(&done),
            RankRecord::Woke(done) => self.unwake(&done),
            RankRecord::Released => self.block_again(),
        }
    }

    /// Whether the rank is running and has a statement left, so that it has a local step.
    pub fn can_step(&self, code: &Code) -> bool
        ensures { (rank size count : ℕ) → result ≡ is_some (local rank size count (rank_of code.now.program self.now)) }
    {
        let Control { node, activity } = self.control();
        match activity {
            Activity::Running => code.node(node as usize).is_some(),
            Activity::Blocked | Activity::Trapped(_) => false,
        }
    }

    /// Whether the rank is running with no statement left.
    pub fn has_ended(&self, code: &Code) -> bool
        ensures { result ≡ has_ended (rank_of code.now.program self.now) }
    {
        let Control { node, activity } = self.control();
        match activity {
            Activity::Running => code.node(node as usize).is_none(),
            Activity::Blocked | Activity::Trapped(_) => false,
        }
    }

    /// The number, in text order, of the rank's next statement, if it has one.
    pub fn next_statement(&self, code: &Code) -> Option<usize>
        ensures statement { result ≡ first_number (left_at code.now.program self.now.node) }
        ensures node { IfSome result (λ number. number ≡ self.now.node) }
    {
        let node = self.control().node as usize;
        match code.node(node) {
            Some(_) => Some(node),
            None => None,
        }
    }

    /// The number of the rank, from 0.
    pub fn number(&self) -> usize
        ensures { result ≡ self.now.rank }
    {
        self.rank as usize
    }

    /// The values of its variables, cell by cell, in the order of their declarations.
    pub fn variables(&self) -> &[i64]
        ensures { result.now ≡ self.now.vars }
    {
        self.vars.items()
    }

    /// The number of the call that each handle holds, if it holds one, in the order of the
    /// declarations.
    pub fn handles(&self) -> &[Option<usize>]
        ensures { result.now ≡ self.now.handles }
    {
        self.handles.items()
    }

    /// How many handles the rank has, 0 to 256.
    pub fn handle_count(&self) -> usize
        ensures value { result ≡ length self.now.handles }
        ensures few { result ≤ HANDLES_MAX }
    {
        self.handles.len()
    }

    /// The number of the call that a handle has, if it has one.
    pub fn held_call(&self, handle: usize) -> Option<usize>
        ensures { result ≡ slice_index_or self.now.handles handle None }
    {
        let handles = self.handles();
        if handle < handles.len() {
            handles[handle]
        } else {
            None
        }
    }

    /// The values that the rank has printed, in order.
    pub fn output(&self) -> &[i64]
        ensures { result.now ≡ self.now.out }
    {
        self.out.items()
    }

    /// Whether the rank is running, blocked or trapped.
    pub fn activity(&self) -> Activity
        ensures { result ≡ self.now.activity }
    {
        self.control().activity
    }

    /// The same rank, in memory of its own. It counts its writes from 0. `Err` means that memory
    /// was refused.
    pub fn copy(&self) -> Result<RankState, AllocError>
        ensures world { IfOk result (λ r. (p : Program) → rank_of p r ≡ rank_of p self.now) }
        ensures rank { IfOk result (λ r. r.rank ≡ self.now.rank) }
        ensures writes { IfOk result (λ r. r.writes ≡ 0) }
    {
        Ok(RankState {
            rank: self.rank,
            control: self.control.copy()?,
            vars: self.vars.copy()?,
            handles: self.handles.copy()?,
            out: self.out.copy()?,
        })
    }
}
