//! The steps that are enabled.

ghost use Rattle.std.specs.Prelude.{◌≡◌, ◌<◌, [], ◌∷◌, ◌++◌, if◌then◌else◌, length, map, IfOk, OnOk, OnErr};
ghost use Rattle.std.specs.List.{filter};
ghost use Rattle.mpd_model.specs.declared.step.Step.TheVariants as steps;
ghost use Rattle.mpd_model.specs.steps.World.{rank_numbers};
ghost use Rattle.mpd_model.specs.steps.Next.{is_enabled, any_wakes_of, any_wakes_in, enabled};

use crate::state::Core;
use mpd_model::Step;
use std::alloc::{AllocError, Global};

impl<'c> Core<'c> {
    /// Adds a step, if it is enabled.
    fn push_if_enabled(&self, step: Step, out: &mut Vec<Step>) -> Result<(), AllocError>
        ensures ok { OnOk result (out.new.items ≡ out.old.items ++ (if is_enabled self.now.world step then step ∷ [] else [])) }
        ensures memory { OnErr result (0 < length (if is_enabled self.now.world step then step ∷ [] else [])) }
    {
        if self.is_enabled(step) {
            out.push(step)?;
        }
        Ok(())
    }

    /// Adds the local steps that are enabled, by rank.
    fn push_locals(&self, out: &mut Vec<Step>) -> Result<(), AllocError>
        ensures ok { OnOk result (out.new.items ≡ out.old.items ++ map steps.Local (filter (λ p. is_enabled self.now.world (steps.Local p)) (rank_numbers self.now.world.board))) }
        ensures memory { OnErr result (0 < length (map steps.Local (filter (λ p. is_enabled self.now.world (steps.Local p)) (rank_numbers self.now.world.board)))) }
    {
        let count = self.rank_count();
        for rank in 0..count {
            self.push_if_enabled(Step::Local(rank), out)?;
        }
        Ok(())
    }

    /// Adds the wakes that are enabled, by rank.
    fn push_wakes(&self, out: &mut Vec<Step>) -> Result<(), AllocError>
        ensures ok { OnOk result (out.new.items ≡ out.old.items ++ map steps.Wake (filter (λ p. is_enabled self.now.world (steps.Wake p)) (rank_numbers self.now.world.board))) }
        ensures memory { OnErr result (0 < length (map steps.Wake (filter (λ p. is_enabled self.now.world (steps.Wake p)) (rank_numbers self.now.world.board)))) }
    {
        let count = self.rank_count();
        for rank in 0..count {
            self.push_if_enabled(Step::Wake(rank), out)?;
        }
        Ok(())
    }

    /// Adds the steps of the waitany that a rank has issued last that are enabled, by index. `Err`
    /// means that memory for the list was refused, which happens only if there is such a step.
    pub fn push_any_wakes_of(&self, rank: usize, out: &mut Vec<Step>) -> Result<(), AllocError>
        ensures ok { OnOk result (out.new.items ≡ out.old.items ++ filter (is_enabled self.now.world) (any_wakes_of self.now.world.board rank)) }
        ensures memory { OnErr result (0 < length (filter (is_enabled self.now.world) (any_wakes_of self.now.world.board rank))) }
    {
        if !self.is_waiting(rank) {
            return Ok(());
        }
        let count = self.request_count(rank);
        for index in 0..count {
            self.push_if_enabled(Step::WakeAny { rank, index }, out)?;
        }
        Ok(())
    }

    /// Adds the steps of waitanys that are enabled, by rank and index.
    fn push_any_wakes(&self, out: &mut Vec<Step>) -> Result<(), AllocError>
        ensures ok { OnOk result (out.new.items ≡ out.old.items ++ filter (is_enabled self.now.world) (any_wakes_in self.now.world.board)) }
        ensures memory { OnErr result (0 < length (filter (is_enabled self.now.world) (any_wakes_in self.now.world.board))) }
    {
        let count = self.rank_count();
        for rank in 0..count {
            self.push_any_wakes_of(rank, out)?;
        }
        Ok(())
    }

    /// The enabled steps (docs/DEFINITIONS.md, "Steps"): all local steps, by rank, the release, all
    /// wakes, by rank, those of waitanys, by rank and index, then the matches by receiver, receive
    /// and sender. Lists of free calls are walked, and no others. `Err` means that memory for the
    /// list was refused, which happens only if it has an entry.
    #[tactic(auto, using(crate::proofs::EnabledLemmas::enabling))]
    pub fn enabled(&self, alloc: Global) -> Result<Vec<Step>, AllocError>
        ensures ok { IfOk result (λ listed. listed.items ≡ enabled self.now.world) }
        ensures memory { OnErr result (0 < length (enabled self.now.world)) }
    {
        let mut listed = Vec::new(alloc);
        self.push_locals(&mut listed)?;
        self.push_if_enabled(Step::Release, &mut listed)?;
        self.push_wakes(&mut listed)?;
        self.push_any_wakes(&mut listed)?;
        self.board().push_matches(&mut listed)?;
        Ok(listed)
    }
}
