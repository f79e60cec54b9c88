//! How a run has ended.

ghost use Rattle.std.specs.Prelude.{◌≡◌, ◌<◌, [], ◌∷◌, ◌++◌, if◌then◌else◌, length, map, slice_get, Some, IfOk, OnOk, OnErr};
ghost use Rattle.std.specs.List.{filter, flat_map, list_any};
ghost use Rattle.mpd_model.specs.declared.step.Step.TheVariants as steps;
ghost use Rattle.mpd_model.specs.steps.World.{rank_numbers, is_free};
ghost use Rattle.mpd_model.specs.steps.Next.{is_enabled, any_wakes_of, any_wakes_in, matches_of, matches_in, steps_of};
ghost use Rattle.mpd_model.specs.steps.Outcomes.{traps_at, traps_in, issued_call, blocked_at, blocked_calls, free_of, free_calls, untrapped, ending, is_stuck, outcome};
ghost use Rattle.mpd_core.specs.Listed.{listed};

use crate::state::Core;
use mpd_model::{Activity, CallId, IssuedCall, IssuedList, Outcome, Step, TrapList, TrappedRank};
use std::alloc::{AllocError, Global};

impl<'c> Core<'c> {
    /// Whether some rank has a local step.
    #[tactic(auto, using(crate::proofs::RangeLemmas::any_mapped))]
    fn can_step_any(&self) -> bool
        ensures { result ≡ list_any (is_enabled self.now.world) (map steps.Local (rank_numbers self.now.world.board)) }
    {
        let count = self.rank_count();
        for rank in 0..count {
            if self.is_enabled(Step::Local(rank)) {
                return true;
            }
        }
        false
    }

    /// Whether some rank can be woken.
    #[tactic(auto, using(crate::proofs::RangeLemmas::any_mapped))]
    fn can_wake_any(&self) -> bool
        ensures { result ≡ list_any (is_enabled self.now.world) (map steps.Wake (rank_numbers self.now.world.board)) }
    {
        let count = self.rank_count();
        for rank in 0..count {
            if self.is_enabled(Step::Wake(rank)) {
                return true;
            }
        }
        false
    }

    /// Whether a rank is blocked on a waitany of which some request is complete.
    #[tactic(auto, using(crate::proofs::RangeLemmas::any_mapped))]
    fn can_choose(&self, rank: usize) -> bool
        ensures { result ≡ list_any (is_enabled self.now.world) (any_wakes_of self.now.world.board rank) }
    {
        let count = self.request_count(rank);
        for index in 0..count {
            if self.is_enabled(Step::WakeAny { rank, index }) {
                return true;
            }
        }
        false
    }

    /// Whether some rank is blocked on a waitany of which some request is complete.
    #[tactic(auto, using(crate::proofs::RangeLemmas::any_joined))]
    fn can_choose_any(&self) -> bool
        ensures { result ≡ list_any (is_enabled self.now.world) (any_wakes_in self.now.world.board) }
    {
        let count = self.rank_count();
        for rank in 0..count {
            if self.can_choose(rank) {
                return true;
            }
        }
        false
    }

    /// Whether some receive of a rank is eligible. Its free receives are walked, and the free sends to it.
    #[tactic(auto, using(crate::proofs::RangeLemmas::matching))]
    fn can_match_at(&self, receiver: usize) -> bool
        requires { receiver < length self.now.world.board.calls }
        ensures { result ≡ list_any (is_enabled self.now.world) (matches_of self.now.world.board receiver) }
    {
        self.board().can_match_at(receiver)
    }

    /// Whether some match is enabled.
    #[tactic(auto, using(crate::proofs::RangeLemmas::any_joined))]
    fn can_match_any(&self) -> bool
        ensures { result ≡ list_any (is_enabled self.now.world) (matches_in self.now.world.board) }
    {
        let count = self.rank_count();
        for receiver in 0..count {
            if self.can_match_at(receiver) {
                return true;
            }
        }
        false
    }

    /// Whether no step is enabled, so that the run has ended.
    #[tactic(auto, using(crate::proofs::RangeLemmas::stuck_by))]
    pub fn is_stuck(&self) -> bool
        ensures { result ≡ is_stuck self.now.world }
    {
        !(self.can_step_any()
            || self.is_enabled(Step::Release)
            || self.can_wake_any()
            || self.can_choose_any()
            || self.can_match_any())
    }

    /// Adds a rank, if it is trapped.
    fn push_trap(&self, rank: usize, out: &mut Vec<TrappedRank>) -> Result<(), AllocError>
        ensures ok { OnOk result (out.new.items ≡ out.old.items ++ traps_at rank (slice_get self.now.world.ranks rank)) }
        ensures memory { OnErr result (0 < length (traps_at rank (slice_get self.now.world.ranks rank))) }
    {
        if let Some(Activity::Trapped(trap)) = self.activity(rank) {
            let statement = self.next_statement(rank).unwrap_or(0);
            out.push(TrappedRank {
                rank,
                statement,
                trap,
            })?;
        }
        Ok(())
    }

    /// The trapped ranks.
    #[tactic(auto, using(crate::proofs::RangeLemmas::listing))]
    fn traps(&self, alloc: Global) -> Result<Vec<TrappedRank>, AllocError>
        ensures ok { IfOk result (λ traps. traps.items ≡ traps_in self.now.world) }
        ensures memory { OnErr result (0 < length (traps_in self.now.world)) }
    {
        let mut traps = Vec::new(alloc);
        let count = self.rank_count();
        for rank in 0..count {
            self.push_trap(rank, &mut traps)?;
        }
        Ok(traps)
    }

    /// A call with the statement that issued it. A call that doesn't exist would get the first
    /// statement; no caller asks for one.
    fn issued_call(&self, id: CallId) -> IssuedCall
        ensures { result ≡ issued_call self.now.world.board id }
    {
        let statement = match self.board().call(id) {
            None => 0,
            Some(call) => call.statement,
        };
        IssuedCall { id, statement }
    }

    /// Adds the call that a rank is blocked on.
    fn push_blocked(&self, rank: usize, out: &mut Vec<IssuedCall>) -> Result<(), AllocError>
        ensures ok { OnOk result (out.new.items ≡ out.old.items ++ blocked_at self.now.world rank (slice_get self.now.world.ranks rank)) }
        ensures memory { OnErr result (0 < length (blocked_at self.now.world rank (slice_get self.now.world.ranks rank))) }
    {
        if let Some(Activity::Blocked) = self.activity(rank) {
            let last = self.board().last_call(rank);
            out.push(self.issued_call(last))?;
        }
        Ok(())
    }

    /// The calls that ranks are blocked on.
    #[tactic(auto, using(crate::proofs::RangeLemmas::listing))]
    fn blocked(&self, alloc: Global) -> Result<Vec<IssuedCall>, AllocError>
        ensures ok { IfOk result (λ calls. calls.items ≡ blocked_calls self.now.world) }
        ensures memory { OnErr result (0 < length (blocked_calls self.now.world)) }
    {
        let mut calls = Vec::new(alloc);
        let count = self.rank_count();
        for rank in 0..count {
            self.push_blocked(rank, &mut calls)?;
        }
        Ok(calls)
    }

    /// Adds a call, if it is free.
    fn push_if_free(&self, id: CallId, out: &mut Vec<IssuedCall>) -> Result<(), AllocError>
        ensures ok { OnOk result (out.new.items ≡ out.old.items ++ (if is_free self.now.world.board id then issued_call self.now.world.board id ∷ [] else [])) }
        ensures memory { OnErr result (0 < length (if is_free self.now.world.board id then issued_call self.now.world.board id ∷ [] else [])) }
    {
        if self.board().is_free(id) {
            out.push(self.issued_call(id))?;
        }
        Ok(())
    }

    /// Adds the free calls of a rank.
    #[tactic(auto, using(crate::proofs::RangeLemmas::listing))]
    fn push_free(&self, rank: usize, out: &mut Vec<IssuedCall>) -> Result<(), AllocError>
        ensures ok { OnOk result (out.new.items ≡ out.old.items ++ free_of self.now.world.board rank) }
        ensures memory { OnErr result (0 < length (free_of self.now.world.board rank)) }
    {
        let count = self.board().call_count(rank);
        for index in 0..count {
            self.push_if_free(CallId { rank, index }, out)?;
        }
        Ok(())
    }

    /// The free calls.
    #[tactic(auto, using(crate::proofs::RangeLemmas::listing))]
    fn free(&self, alloc: Global) -> Result<Vec<IssuedCall>, AllocError>
        ensures ok { IfOk result (λ calls. calls.items ≡ free_calls self.now.world.board) }
        ensures memory { OnErr result (0 < length (free_calls self.now.world.board)) }
    {
        let mut calls = Vec::new(alloc);
        let count = self.rank_count();
        for rank in 0..count {
            self.push_free(rank, &mut calls)?;
        }
        Ok(calls)
    }

    /// The outcome of a state without a trapped rank.
    #[tactic(auto, using(crate::proofs::RangeLemmas::listing))]
    fn untrapped(&self, alloc: Global) -> Result<Outcome, AllocError>
        ensures ok { IfOk result (λ o. o ≡ untrapped self.now.world) }
        ensures memory { OnErr result (0 < listed (Some (untrapped self.now.world))) }
    {
        if !self.all_ended() {
            return Ok(Outcome::Deadlock(IssuedList {
                items: self.blocked(alloc)?,
            }));
        }
        let free = self.free(alloc)?;
        if free.is_empty() {
            return Ok(Outcome::Done);
        }
        Ok(Outcome::Leftovers(IssuedList { items: free }))
    }

    /// The outcome of a state in which no step is enabled (docs/DEFINITIONS.md, "Outcomes").
    /// Whether one is enabled is not checked. `Err` means that memory for the list of an outcome
    /// was refused, which happens only if that list has an entry.
    #[tactic(auto, using(crate::proofs::RangeLemmas::listing))]
    pub fn ending(&self, alloc: Global) -> Result<Outcome, AllocError>
        ensures ok { IfOk result (λ o. o ≡ ending self.now.world) }
        ensures memory { OnErr result (0 < listed (Some (ending self.now.world))) }
    {
        let traps = self.traps(alloc)?;
        if traps.is_empty() {
            return self.untrapped(alloc);
        }
        Ok(Outcome::Trap(TrapList { items: traps }))
    }

    /// How the run has ended, if no step is enabled (docs/DEFINITIONS.md, "Outcomes"). `Err` means
    /// that memory for the list of an outcome was refused, which happens only if that list has an
    /// entry.
    pub fn outcome(&self, alloc: Global) -> Result<Option<Outcome>, AllocError>
        ensures ok { IfOk result (λ o. o ≡ outcome self.now.world) }
        ensures memory { OnErr result (0 < listed (outcome self.now.world)) }
    {
        if !self.is_stuck() {
            return Ok(None);
        }
        let ending = self.ending(alloc)?;
        Ok(Some(ending))
    }
}
