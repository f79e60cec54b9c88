//! The trail: the steps that were taken, of which some may be undone, and the state that they lead to.

ghost use Rattle.std.specs.Prelude.{◌≡◌, ◌↔◌, ◌<◌, ◌≤◌, IfOk, OnOk, OnErr, IsErrOf, IsOk, IsSome, IfSome, IfNone, Some, None, ◌+◌, ◌-◌, length, take, slice_get, vec_len, vec_capacity};
ghost use Rattle.mpd_model.specs.steps.Next.{next};
ghost use Rattle.mpd_model.specs.runs.Trail.{first_standing, IsReached, IsRun, done_steps, noted, forgotten, with_steps, step_eq};
ghost use Rattle.mpd_model.specs.declared.step.Step.{Step};
ghost use Rattle.mpd_trail.specs.DebuggerFaults.{apply_fault, apply_fault_number, apply_fault_name, redo_fault_number, redo_fault_name, at_start_name, not_before_name};
ghost use Rattle.mpd_trail.specs.Kept.{room_in};
ghost use Rattle.mpd_trail.specs.Moved.{StepApplied, NextRedone, LastUndone, UndoneTo};
ghost use Rattle.mpd_trail.specs.DebuggerViews.{AsFound, standing_of};

use mpd_code::Code;
use mpd_core::{AnyStep, Core, OtherRecord, StepFault};
use mpd_model::{Mode, STEPS_MAX, Step};
use mpd_rank::LocalRecord;
use std::alloc::{AllocError, Global};
use std::error::Error;
use std::fmt;
use std::marker::Model;

/// Why a step is refused. Nothing has changed.
#[derive(Clone, Copy, PartialEq, Eq, Debug)]
pub enum ApplyFault {
    /// The relation of steps has no step there.
    NotEnabled,
    /// The step is enabled, and the trail has 1,000,000 steps that are not undone.
    Full,
    /// Memory was refused.
    Memory,
}

impl ApplyFault {
    /// Its number: 21, 22 or 23 (docs/FORMATS.md, "Faults and statuses").
    pub fn number(self) -> u8
        ensures { result ≡ apply_fault_number self }
    {
        match self {
            ApplyFault::NotEnabled => 21,
            ApplyFault::Full => 22,
            ApplyFault::Memory => 23,
        }
    }

    /// Its name: `not-enabled`, `full` or `memory`.
    pub fn name(self) -> &'static str
        ensures { result.now ≡ apply_fault_name self }
    {
        match self {
            ApplyFault::NotEnabled => "not-enabled",
            ApplyFault::Full => "full",
            ApplyFault::Memory => "memory",
        }
    }
}

impl fmt::Display for ApplyFault {
    ghost use Rattle.std.specs.Prelude.{Some};

    ghost output = { λ fault. Some (apply_fault_name fault) };

    fn fmt<W: fmt::Write>(&self, f: &mut fmt::Formatter<W>) -> fmt::Result {
        f.write_str(self.name())
    }
}

impl Error for ApplyFault {}

impl From<StepFault> for ApplyFault {
    ghost from_gives = { λ fault e. e ≡ apply_fault fault };

    fn from(fault: StepFault) -> ApplyFault {
        match fault {
            StepFault::NotEnabled => ApplyFault::NotEnabled,
            StepFault::Memory => ApplyFault::Memory,
        }
    }
}

/// There is no step to undo (24).
#[derive(Clone, Copy, PartialEq, Eq, Debug)]
pub struct AtStart;

impl AtStart {
    /// Its number, 24 (docs/FORMATS.md, "Faults and statuses").
    pub fn number(self) -> u8
        ensures { result ≡ 24 }
    {
        24
    }

    /// Its name, `at-start`.
    pub fn name(self) -> &'static str
        ensures { result.now ≡ at_start_name }
    {
        "at-start"
    }
}

impl fmt::Display for AtStart {
    ghost use Rattle.std.specs.Prelude.{Some};

    ghost output = { λ _. Some at_start_name };

    fn fmt<W: fmt::Write>(&self, f: &mut fmt::Formatter<W>) -> fmt::Result {
        f.write_str(self.name())
    }
}

impl Error for AtStart {}

/// Why no step is taken again. Nothing has changed.
#[derive(Clone, Copy, PartialEq, Eq, Debug)]
pub enum RedoFault {
    /// No step is undone.
    NoRedo,
    /// Memory was refused.
    Memory,
}

impl RedoFault {
    /// Its number: 25, or 23 for refused memory (docs/FORMATS.md, "Faults and statuses").
    pub fn number(self) -> u8
        ensures { result ≡ redo_fault_number self }
    {
        match self {
            RedoFault::NoRedo => 25,
            RedoFault::Memory => 23,
        }
    }

    /// Its name: `no-redo` or `memory`.
    pub fn name(self) -> &'static str
        ensures { result.now ≡ redo_fault_name self }
    {
        match self {
            RedoFault::NoRedo => "no-redo",
            RedoFault::Memory => "memory",
        }
    }
}

impl fmt::Display for RedoFault {
    ghost use Rattle.std.specs.Prelude.{Some};

    ghost output = { λ fault. Some (redo_fault_name fault) };

    fn fmt<W: fmt::Write>(&self, f: &mut fmt::Formatter<W>) -> fmt::Result {
        f.write_str(self.name())
    }
}

impl Error for RedoFault {}

/// The depth to go back to is greater than the present one (26).
#[derive(Clone, Copy, PartialEq, Eq, Debug)]
pub struct NotBefore;

impl NotBefore {
    /// Its number, 26 (docs/FORMATS.md, "Faults and statuses").
    pub fn number(self) -> u8
        ensures { result ≡ 26 }
    {
        26
    }

    /// Its name, `not-before`.
    pub fn name(self) -> &'static str
        ensures { result.now ≡ not_before_name }
    {
        "not-before"
    }
}

impl fmt::Display for NotBefore {
    ghost use Rattle.std.specs.Prelude.{Some};

    ghost output = { λ _. Some not_before_name };

    fn fmt<W: fmt::Write>(&self, f: &mut fmt::Formatter<W>) -> fmt::Result {
        f.write_str(self.name())
    }
}

impl Error for NotBefore {}

/// The steps that were taken, and where they lead; contracts see it as a `DebuggerView`: its trail,
/// its world, the room that is reserved for steps, and how many writes its core has counted.
#[derive(Drop)]
pub struct Debugger<'c> {
    mode: Mode,
    core: Core<'c>,
    /// What takes back each step that is not undone, apart from the step itself, the newest last:
    /// of local steps here, of all others in `others`.
    locals: Vec<LocalRecord>,
    others: Vec<OtherRecord>,
    steps: Vec<Step>,
}

impl<'c> Model for Debugger<'c> {
    ghost use Rattle.std.specs.Prelude.{◌+◌, ◌-◌, min, length, vec_len, vec_capacity};
    ghost use Rattle.mpd_model.specs.steps.World.{start};
    ghost use Rattle.mpd_trail.specs.Kept.{Keeps, room_in};
    ghost use Rattle.mpd_trail.specs.DebuggerViews.{DebuggerView, debugger_view_code};

    ghost Value = { DebuggerView };

    ghost coded = { debugger_view_code };

    ghost view = { λ d. record {
      trail = record { program = d.core.program; mode = d.mode; steps = d.steps.items; depth = length d.locals.items + length d.others.items };
      world = d.core.world;
      room = min d.core.room (room_in (vec_capacity d.locals - vec_len d.locals) (vec_capacity d.others - vec_len d.others) (vec_capacity d.steps - vec_len d.steps));
      writes = d.core.writes;
    } };

    ghost invariant = { λ d. Keeps d.core.program (start d.core.program d.mode) d.locals.items d.others.items d.steps.items d.core.world };
}

/// Whether two steps are the same.
fn is_same(a: Step, b: Step) -> bool
    ensures { result ≡ step_eq a b }
{
    a == b
}

/// Puts a step at a depth. If it is there already, it stays, with all after it. If the depth is the
/// end, reserved room is taken.
#[tactic(auto, using(crate::proofs::TrailLemmas::noting))]
fn note(steps: &mut Vec<Step>, depth: usize, step: Step)
    requires within { depth ≤ vec_len steps.old }
    requires room { depth ≡ vec_len steps.old → vec_len steps.old < vec_capacity steps.old }
    ensures noted { steps.new.items ≡ noted steps.old.items depth step }
    ensures room_left { vec_capacity steps.old - vec_len steps.old ≤ (vec_capacity steps.new - vec_len steps.new) + 1 }
{
    if depth == steps.len() {
        steps.push_reserved(step);
        return;
    }
    if !is_same(steps[depth], step) {
        steps[depth] = step;
        steps.truncate(depth + 1);
    }
}

/// Reserves room for one more record of each kind, and for its step if none is there. `Err` means
/// that memory was refused.
fn keep_next(
    locals: &mut Vec<LocalRecord>,
    others: &mut Vec<OtherRecord>,
    steps: &mut Vec<Step>,
) -> Result<(), AllocError>
    requires { vec_len locals.old + vec_len others.old ≤ vec_len steps.old }
    ensures local_room { OnOk result (vec_len locals.new < vec_capacity locals.new) }
    ensures other_room { OnOk result (vec_len others.new < vec_capacity others.new) }
    ensures step_room { OnOk result (vec_len locals.new + vec_len others.new ≡ vec_len steps.new → vec_len steps.new < vec_capacity steps.new) }
    ensures locals { locals.new.items ≡ locals.old.items }
    ensures others { others.new.items ≡ others.old.items }
    ensures steps { steps.new.items ≡ steps.old.items }
    ensures never_less { room_in (vec_capacity locals.old - vec_len locals.old) (vec_capacity others.old - vec_len others.old) (vec_capacity steps.old - vec_len steps.old) ≤ room_in (vec_capacity locals.new - vec_len locals.new) (vec_capacity others.new - vec_len others.new) (vec_capacity steps.new - vec_len steps.new) }
    ensures memory { OnErr result (room_in (vec_capacity locals.old - vec_len locals.old) (vec_capacity others.old - vec_len others.old) (vec_capacity steps.old - vec_len steps.old) ≡ 0) }
{
    locals.reserve(1)?;
    others.reserve(1)?;
    if locals.len() + others.len() < steps.len() {
        return Ok(());
    }
    steps.reserve(1)
}

impl<'c> Debugger<'c> {
    /// A debugger at the start of a script: no step was taken. `Err` means that memory was refused.
    pub fn start(alloc: Global, code: &'c Code, mode: Mode) -> Result<Debugger<'c>, AllocError>
        ensures standing { IfOk result (λ d. standing_of d ≡ first_standing code.now.program mode) }
        ensures reached { IfOk result (λ d. IsReached (standing_of d)) }
        ensures writes { IfOk result (λ d. d.writes ≡ 0) }
    {
        Ok(Debugger {
            mode,
            core: Core::start(alloc, code, mode)?,
            locals: Vec::new(alloc),
            others: Vec::new(alloc),
            steps: Vec::new(alloc),
        })
    }

    /// How many steps are not undone, 0 to 1,000,000.
    pub fn depth(&self) -> usize
        ensures value { result ≡ self.now.trail.depth }
        ensures small { result ≤ STEPS_MAX }
    {
        self.locals.len() + self.others.len()
    }

    /// All steps that are kept, in order: first those that are not undone, then those that are.
    pub fn steps(&self) -> &[Step]
        ensures { result.now ≡ self.now.trail.steps }
    {
        &self.steps
    }

    /// The step that `redo` takes again, if any: the first of those that are undone.
    #[tactic(auto, using(crate::proofs::KeptLemmas::keeping))]
    pub fn next_undone(&self) -> Option<Step>
        ensures value { result ≡ slice_get self.now.trail.steps self.now.trail.depth }
        ensures some { IfSome result (λ _. self.now.trail.depth < length self.now.trail.steps) }
        ensures none { IfNone result (self.now.trail.depth ≡ length self.now.trail.steps) }
        ensures enabled { IfSome result (λ step. IsSome (next self.now.world step)) }
        ensures few { length self.now.trail.steps ≤ STEPS_MAX }
        ensures reached { IsReached (standing_of self.now) }
    {
        let depth = self.locals.len() + self.others.len();
        if depth == self.steps.len() {
            return None;
        }
        Some(self.steps[depth])
    }

    /// The state, which is where the steps not undone lead.
    #[tactic(auto, using(crate::proofs::KeptLemmas::keeping))]
    pub fn core(&self) -> &Core<'c>
        ensures world { result.now.world ≡ self.now.world }
        ensures program { result.now.program ≡ self.now.trail.program }
        ensures reached { IsReached (standing_of self.now) }
    {
        &self.core
    }

    /// A law, which always holds: the steps not undone lead from the start to the debugger's state,
    /// and the undone ones lead on from there. A call does nothing.
    #[inline(always)]
    #[tactic(auto, using(crate::proofs::KeptLemmas::keeping))]
    pub fn state_is_reached(&self)
        ensures reached { IsReached (standing_of self.now) }
    {
        let _ = &self.core;
    }

    /// Reserves room for one step of any kind. `Err` means that memory was refused, which happens
    /// only if no such room was reserved. The debugger's state and steps stay as they were.
    #[tactic(auto, using(crate::proofs::KeptLemmas::keeping))]
    pub fn keep_room(&mut self) -> Result<(), AllocError>
        ensures room { OnOk result (1 ≤ self.new.room) }
        ensures never_less { self.old.room ≤ self.new.room }
        ensures memory { OnErr result (self.old.room ≡ 0) }
        ensures as_found { AsFound (standing_of self.old) (standing_of self.new) }
        ensures writes { self.new.writes ≡ self.old.writes }
    {
        self.core.keep_room()?;
        self.locals.reserve(1)?;
        self.others.reserve(1)?;
        self.steps.reserve(1)
    }

    /// Takes a step, or refuses it. `NotEnabled` (21): exactly if the relation of steps has no such
    /// step. `Full` (22): exactly if the step is enabled and 1,000,000 steps are not undone.
    /// `Memory` (23): memory was refused, which never happens if room was reserved. If the step is
    /// the next of those undone, it is taken again and the rest stay; any other step drops them. A
    /// step takes 1 to 16 writes, a release at most two more for each rank, a refusal none.
    #[tactic(auto, using(crate::proofs::KeptLemmas::keeping))]
    pub fn apply(&mut self, step: Step) -> Result<(), ApplyFault>
        ensures taken { StepApplied step self.old self.new result }
        ensures room { OnOk result (self.old.trail.depth < STEPS_MAX) }
        ensures not_enabled { IsErrOf result ApplyFault.NotEnabled ↔ (next self.old.world step ≡ None) }
        ensures full { IsErrOf result ApplyFault.Full ↔ (IsSome (next self.old.world step) × (self.old.trail.depth ≡ STEPS_MAX)) }
        ensures memory { IsErrOf result ApplyFault.Memory → IsSome (next self.old.world step) × (self.old.trail.depth < STEPS_MAX) }
        ensures no_room { IsErrOf result ApplyFault.Memory → self.old.room ≡ 0 }
    {
        let depth = self.locals.len() + self.others.len();
        if depth >= STEPS_MAX {
            if self.core.is_enabled(step) {
                return Err(ApplyFault::Full);
            }
            return Err(ApplyFault::NotEnabled);
        }
        if keep_next(&mut self.locals, &mut self.others, &mut self.steps).is_err() {
            if self.core.is_enabled(step) {
                return Err(ApplyFault::Memory);
            }
            return Err(ApplyFault::NotEnabled);
        }
        match AnyStep::of(step) {
            AnyStep::Local(rank) => {
                let done = self.core.step_local(rank)?;
                note(&mut self.steps, depth, step);
                self.locals.push_reserved(done.anew());
                Ok(())
            }
            AnyStep::Other(other) => {
                let done = self.core.step_other(other)?;
                note(&mut self.steps, depth, step);
                self.others.push_reserved(done);
                Ok(())
            }
        }
    }

    /// Takes the last step back, in 1 to 16 writes, a release in at most two more for each rank.
    /// Refused only if no step is left (24), and so never because of memory.
    #[tactic(auto, using(crate::proofs::KeptLemmas::keeping))]
    pub fn undo(&mut self) -> Result<(), AtStart>
        ensures undone { LastUndone self.old self.new result }
        ensures some { IsOk result ↔ (0 < self.old.trail.depth) }
    {
        let Some(last) = (self.locals.len() + self.others.len()).checked_sub(1) else {
            return Err(AtStart);
        };
        match AnyStep::of(self.steps[last]) {
            AnyStep::Local(rank) => {
                let newest = self.locals.len() - 1;
                self.core.undo_local(rank, &self.locals[newest]);
                self.locals.truncate(newest);
                Ok(())
            }
            AnyStep::Other(_) => {
                let newest = self.others.len() - 1;
                self.core.undo_other(&self.others[newest]);
                self.others.truncate(newest);
                Ok(())
            }
        }
    }

    /// Takes a step that is enabled, as `apply` does, if fewer than 1,000,000 steps are not undone.
    /// `Err` means that memory was refused, which happens only if no room was reserved.
    pub fn forward(&mut self, step: Step) -> Result<(), AllocError>
        requires enabled { IsSome (next self.old.world step) }
        requires few { self.old.trail.depth < STEPS_MAX }
        ensures taken { StepApplied step self.old self.new result }
        ensures no_room { OnErr result (self.old.room ≡ 0) }
    {
        match self.apply(step) {
            Ok(()) => Ok(()),
            Err(ApplyFault::Memory) => Err(AllocError),
            Err(_) => unreachable!(),
        }
    }

    /// Takes the step again that was undone last, or refuses it. `NoRedo` (25): exactly if no step
    /// is undone. `Memory` (23): memory was refused, which never happens if room was reserved. All
    /// steps stay. Takes as many writes as `apply`.
    #[tactic(auto, using(crate::proofs::KeptLemmas::keeping))]
    pub fn redo(&mut self) -> Result<(), RedoFault>
        ensures taken { NextRedone self.old self.new result }
        ensures undone { OnOk result (self.old.trail.depth < length self.old.trail.steps) }
        ensures no_redo { IsErrOf result RedoFault.NoRedo ↔ (self.old.trail.depth ≡ length self.old.trail.steps) }
        ensures memory { IsErrOf result RedoFault.Memory → self.old.trail.depth < length self.old.trail.steps }
        ensures no_room { IsErrOf result RedoFault.Memory → self.old.room ≡ 0 }
    {
        let Some(step) = self.next_undone() else {
            return Err(RedoFault::NoRedo);
        };
        match self.forward(step) {
            Ok(()) => Ok(()),
            Err(_) => Err(RedoFault::Memory),
        }
    }

    /// Takes steps back, the last first, until `depth` are left that are not undone. Refused
    /// exactly if there are fewer (26), and so never because of memory. Each step takes as many
    /// writes as `undo`.
    pub fn undo_to(&mut self, depth: usize) -> Result<(), NotBefore>
        ensures undone { UndoneTo depth self.old self.new result }
        ensures before { IsOk result ↔ (depth ≤ self.old.trail.depth) }
    {
        self.state_is_reached();
        if depth > self.depth() {
            return Err(NotBefore);
        }
        while self.depth() > depth {
            let _ = self.undo();
        }
        Ok(())
    }

    /// Drops the steps that are undone. Takes no memory.
    #[tactic(auto, using(crate::proofs::KeptLemmas::keeping))]
    pub fn forget_undone(&mut self)
        ensures trail { self.new.trail ≡ forgotten self.old.trail }
        ensures world { self.new.world ≡ self.old.world }
        ensures steps { done_steps self.new.trail ≡ done_steps self.old.trail }
        ensures reached { IsReached (standing_of self.new) }
        ensures program { self.new.trail.program ≡ self.old.trail.program }
        ensures mode { self.new.trail.mode ≡ self.old.trail.mode }
        ensures never_less { self.old.room ≤ self.new.room }
        ensures writes { self.new.writes ≡ self.old.writes }
    {
        self.steps.truncate(self.locals.len() + self.others.len());
    }

    /// Replaces the steps that are kept. The new ones begin with those that are not undone, and
    /// lead on from there; those after the depth count as undone, and `redo` takes them again.
    /// Takes no memory.
    #[tactic(auto, using(crate::proofs::KeptLemmas::keeping))]
    pub fn put_steps(&mut self, steps: Vec<Step>)
        requires begins { take self.old.trail.depth steps.items ≡ done_steps self.old.trail }
        requires run { IsRun self.old.trail.program self.old.trail.mode steps.items }
        ensures trail { self.new.trail ≡ with_steps self.old.trail steps.items }
        ensures world { self.new.world ≡ self.old.world }
        ensures steps { done_steps self.new.trail ≡ done_steps self.old.trail }
        ensures reached { IsReached (standing_of self.new) }
        ensures program { self.new.trail.program ≡ self.old.trail.program }
        ensures mode { self.new.trail.mode ≡ self.old.trail.mode }
        ensures writes { self.new.writes ≡ self.old.writes }
    {
        self.steps = steps;
    }

    /// A separate debugger at the same state, with the steps that are not undone and no others. Its
    /// writes count from 0. `Err` means that memory was refused.
    #[tactic(auto, using(crate::proofs::KeptLemmas::keeping))]
    pub fn copy(&self) -> Result<Debugger<'c>, AllocError>
        ensures trail { IfOk result (λ d. d.trail ≡ forgotten self.now.trail) }
        ensures world { IfOk result (λ d. d.world ≡ self.now.world) }
        ensures steps { IfOk result (λ d. done_steps d.trail ≡ done_steps self.now.trail) }
        ensures reached { IfOk result (λ d. IsReached (standing_of d)) }
        ensures program { IfOk result (λ d. d.trail.program ≡ self.now.trail.program) }
        ensures mode { IfOk result (λ d. d.trail.mode ≡ self.now.trail.mode) }
        ensures writes { IfOk result (λ d. d.writes ≡ 0) }
    {
        let depth = self.locals.len() + self.others.len();
        let mut locals = Vec::new(*self.locals.allocator());
        locals.extend_from_slice(self.locals.as_slice())?;
        let mut others = Vec::new(*self.others.allocator());
        others.extend_from_slice(self.others.as_slice())?;
        let mut steps = Vec::new(*self.steps.allocator());
        steps.extend_from_slice(&self.steps[..depth])?;
        Ok(Debugger {
            mode: self.mode,
            core: self.core.copy()?,
            locals,
            others,
            steps,
        })
    }
}
