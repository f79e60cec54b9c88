//! The calls of one rank.
ghost use Rattle.std.specs.Prelude.{◌≡◌, ℕ, suc, ◌+◌, ◌-◌, ◌<◌, ◌≤◌, Some, None, is_none, [], ◌∷◌, ◌++◌, length, take, slice_get, false, IfOk, OnOk, OnErr};
ghost use Rattle.mpd_queue.specs.InOrder.{first_of, next_of};
ghost use Rattle.mpd_match.specs.Lines.{line_of as line_in, kind_in, mark_in, with_mark, waiting};
ghost use Rattle.mpd_match.specs.Changes.{issue_writes, unissue_writes};

use crate::kinds;
use mpd_counter::Counter;
use mpd_model::{Call, CallId, CallKind, RANKS_MAX};
use mpd_queue::{Lists, Spot, Tape};
use std::alloc::{AllocError, Global};
use std::marker::Model;

/// The calls of one rank, the partner of each, and the lines that free ones wait in: line 0 has its receives, line
/// q + 1 its sends to rank q.
///
/// Contracts see a `SideView`. The lines are told by the calls and their partners (`waiting`).
#[derive(Drop)]
pub(crate) struct Side {
    calls: Tape<Call>,
    marks: Tape<Option<CallId>>,
    lists: Lists,
}

impl Model for Side {
    ghost use Rattle.std.specs.Prelude.{length, min, ◌-◌, ◌+◌};
    ghost use Rattle.mpd_match.specs.Views.{SideView};
    ghost use Rattle.mpd_match.specs.Held.{InLine};

    ghost Value = { SideView };

    ghost view = { λ s. record {
      calls = s.calls.items;
      marks = s.marks.items;
      lines = length s.lists.lists;
      room = min s.calls.room (min s.marks.room (s.lists.room - length s.calls.items));
      writes = s.calls.writes + s.marks.writes + s.lists.writes;
    } };

    ghost invariant = { λ s. InLine s.calls.items s.marks.items s.lists.lists s.lists.room };
}

impl Side {
    /// No call, and `lines` empty lines. `Err` means that memory was refused.
    pub(crate) fn new(alloc: Global, lines: usize) -> Result<Side, AllocError>
        requires { lines ≤ suc RANKS_MAX }
        ensures calls { IfOk result (λ s. s.calls ≡ []) }
        ensures marks { IfOk result (λ s. s.marks ≡ []) }
        ensures lines { IfOk result (λ s. s.lines ≡ lines) }
        ensures writes { IfOk result (λ s. s.writes ≡ 0) }
    {
        let lists = Lists::new(alloc, lines)?;
        Ok(Side {
            calls: Tape::new(alloc),
            marks: Tape::new(alloc),
            lists,
        })
    }

    /// Reserves room for one call more. `Err` means that memory was refused.
    pub(crate) fn keep_room(&mut self) -> Result<(), AllocError>
        ensures calls { self.new.calls ≡ self.old.calls }
        ensures marks { self.new.marks ≡ self.old.marks }
        ensures lines { self.new.lines ≡ self.old.lines }
        ensures writes { self.new.writes ≡ self.old.writes }
        ensures room { OnOk result (1 ≤ self.new.room) }
        ensures never_less { self.old.room ≤ self.new.room }
        ensures missing { OnErr result (self.old.room ≡ 0) }
    {
        self.lists.disjoint();
        let next = self.calls.len() + 1;
        self.calls.keep_room(1)?;
        self.marks.keep_room(1)?;
        self.lists.keep_room(next)
    }

    /// Issues a call. A send or a receive joins the end of its line. Returns the call's number.
    pub(crate) fn issue(&mut self, call: Call) -> u32
        requires line { (line : ℕ) → line_in (Some call.kind) ≡ Some line → line < self.old.lines }
        requires room { 0 < self.old.room }
        ensures calls { self.new.calls ≡ self.old.calls ++ call ∷ [] }
        ensures marks { self.new.marks ≡ self.old.marks ++ None ∷ [] }
        ensures free { mark_in self.new.marks (length self.old.calls) ≡ None }
        ensures number { result ≡ length self.old.calls }
        ensures small { result < 4294967295 }
        ensures lines { self.new.lines ≡ self.old.lines }
        ensures room { self.new.room + 1 ≡ self.old.room }
        ensures writes { self.new.writes ≡ self.old.writes + issue_writes (Some call.kind) }
    {
        let index = self.calls.len();
        let number = self.lists.number(index);
        self.calls.push_kept(call);
        self.marks.push_kept(None);
        let Some(line) = kinds::line_of(call.kind) else {
            return number;
        };
        self.lists.push_back(line, index);
        number
    }

    /// Takes back the last call, which is in no pair.
    #[inline(never)]
    pub(crate) fn unissue(&mut self)
        requires some { 0 < length self.old.calls }
        requires free { mark_in self.old.marks (length self.old.calls - 1) ≡ None }
        ensures calls { self.new.calls ≡ take (length self.old.calls - 1) self.old.calls }
        ensures marks { (i : ℕ) → mark_in self.new.marks i ≡ mark_in self.old.marks i }
        ensures lines { self.new.lines ≡ self.old.lines }
        ensures room { self.old.room ≤ self.new.room }
        ensures writes { self.new.writes ≡ self.old.writes + unissue_writes (kind_in self.old.calls (length self.old.calls - 1)) }
    {
        let _ = self.marks.pop();
        let Some(call) = self.calls.pop() else {
            unreachable!();
        };
        let Some(line) = kinds::line_of(call.kind) else {
            return;
        };
        self.lists.drop_newest(line);
    }

    /// A free call gets its partner, and leaves its line.
    pub(crate) fn pair(&mut self, line: usize, index: usize, partner: CallId) -> Spot
        requires line { line_in (kind_in self.old.calls index) ≡ Some line }
        requires free { mark_in self.old.marks index ≡ None }
        ensures calls { self.new.calls ≡ self.old.calls }
        ensures marks { (i : ℕ) → mark_in self.new.marks i ≡ with_mark (mark_in self.old.marks) index (Some partner) i }
        ensures lines { self.new.lines ≡ self.old.lines }
        ensures spot { result ≡ next_of (waiting self.old.calls (mark_in self.old.marks) line) index }
        ensures room { self.new.room ≡ self.old.room }
        ensures writes { self.new.writes ≡ self.old.writes + 3 }
    {
        self.marks.set(index, Some(partner));
        self.lists.unlink(line, index)
    }

    /// A paired call is free again, at its old place in its line.
    pub(crate) fn unpair(&mut self, line: usize, index: usize, spot: Spot)
        requires line { line_in (kind_in self.old.calls index) ≡ Some line }
        requires paired { is_none (mark_in self.old.marks index) ≡ false }
        requires spot { spot ≡ next_of (waiting self.old.calls (with_mark (mark_in self.old.marks) index None) line) index }
        ensures calls { self.new.calls ≡ self.old.calls }
        ensures marks { (i : ℕ) → mark_in self.new.marks i ≡ with_mark (mark_in self.old.marks) index None i }
        ensures lines { self.new.lines ≡ self.old.lines }
        ensures room { self.new.room ≡ self.old.room }
        ensures few { length self.new.calls ≤ 4294967295 }
        ensures writes { self.new.writes ≡ self.old.writes + 5 }
    {
        self.lists.disjoint();
        self.marks.set(index, None);
        self.lists.relink(line, index, spot);
    }

    /// The calls, in the order of issue.
    pub(crate) fn calls(&self) -> &[Call]
        ensures { result.now ≡ self.now.calls }
    {
        self.calls.items()
    }

    /// A call, if it exists.
    pub(crate) fn call(&self, index: usize) -> Option<Call>
        ensures { result ≡ slice_get self.now.calls index }
    {
        self.calls.get(index)
    }

    /// What a call is, if it exists.
    pub(crate) fn kind(&self, index: usize) -> Option<CallKind>
        ensures { result ≡ kind_in self.now.calls index }
    {
        match self.call(index) {
            None => None,
            Some(call) => Some(call.kind),
        }
    }

    /// How many calls there are.
    pub(crate) fn call_count(&self) -> usize
        ensures { result ≡ length self.now.calls }
    {
        self.calls.len()
    }

    /// The partner of a call, if it has one.
    #[tactic(auto, using(crate::proofs::InLines::marks_read))]
    pub(crate) fn partner(&self, index: usize) -> Option<CallId>
        ensures { result ≡ mark_in self.now.marks index }
    {
        match self.marks.get(index) {
            None => None,
            Some(partner) => partner,
        }
    }

    /// The first call of a line. One look.
    pub(crate) fn first(&self, line: usize, looks: &mut Counter) -> Option<usize>
        requires { line < self.now.lines }
        ensures first { result ≡ first_of (waiting self.now.calls (mark_in self.now.marks) line) }
        ensures looks { looks.new ≡ looks.old + 1 }
    {
        self.lists.first(line, looks)
    }

    /// What comes next after a free call in its line. One look.
    pub(crate) fn next(&self, index: usize, looks: &mut Counter) -> Option<usize>
        requires line { is_none (line_in (kind_in self.now.calls index)) ≡ false }
        requires free { mark_in self.now.marks index ≡ None }
        ensures next { (line : ℕ) → line_in (kind_in self.now.calls index) ≡ Some line → result ≡ next_of (waiting self.now.calls (mark_in self.now.marks) line) index }
        ensures looks { looks.new ≡ looks.old + 1 }
    {
        self.lists.next(index, looks)
    }

    /// The same calls and partners, in memory of their own. The copy counts its writes from 0.
    /// `Err` means that memory was refused.
    pub(crate) fn copy(&self) -> Result<Side, AllocError>
        ensures calls { IfOk result (λ s. s.calls ≡ self.now.calls) }
        ensures marks { IfOk result (λ s. s.marks ≡ self.now.marks) }
        ensures lines { IfOk result (λ s. s.lines ≡ self.now.lines) }
        ensures writes { IfOk result (λ s. s.writes ≡ 0) }
    {
        Ok(Side {
            calls: self.calls.copy()?,
            marks: self.marks.copy()?,
            lists: self.lists.copy()?,
        })
    }
}
