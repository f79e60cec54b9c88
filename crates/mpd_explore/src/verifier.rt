//! Whether a witness is one. It uses the forward steps of a core alone: no trail, no decision and no undo.

ghost use Rattle.std.specs.Prelude.{◌≡◌, ◌≢◌, ◌↔◌, ◌<◌, IsTrue, IfOk, IfErr, OnOk, OnErr, IsErrOf, IsSome, Some, None, codes, map};
ghost use Rattle.std.specs.Cmp.Lexicographic.{pointwise};
ghost use Rattle.mpd_model.specs.steps.World.{start};
ghost use Rattle.mpd_model.specs.steps.Next.{next, fold};
ghost use Rattle.mpd_model.specs.steps.Outcomes.{outcome};
ghost use Rattle.mpd_core.specs.Listed.{listed};
ghost use Rattle.mpd_explore.specs.Stops.{StopsAt, IsLeft, WantsMemory};
ghost use Rattle.mpd_explore.specs.Witness.{IsWitness, IsEndWitness, IsEndWitnessFrom, HasFault, FaultAtEnd, rank_trap, end_in};
ghost use Rattle.mpd_explore.specs.Traps.{trap_eq, is_told};
ghost use Rattle.mpd_explore.specs.Faults.{witness_fault_number, witness_fault_name};

use crate::report::{EndWitness, RankTrap, Witness, WitnessEnd};
use mpd_code::Code;
use mpd_core::{Core, StepFault};
use mpd_model::{CallId, Mode, Outcome, Step, Trap, TrappedRank};
use std::alloc::{AllocError, Global};
use std::error::Error;
use std::fmt;

/// What is wrong with a witness.
#[derive(Clone, Copy, PartialEq, Eq, Debug)]
pub enum WitnessFault {
    /// The step at this place, from 0, is not enabled there.
    NoSuchStep(usize),
    /// The steps don't lead to a deadlock, or, if an `EndWitness` says so, to a trap.
    NotStuck,
    /// Other calls are blocked in that deadlock, or other ranks trapped, or trapped otherwise.
    WrongBlocked,
    /// Memory was refused.
    Memory,
}

impl WitnessFault {
    /// Its number, as docs/FORMATS.md lists them; 0 for refused memory, which has none here.
    pub fn number(self) -> u8
        ensures { result ≡ witness_fault_number self }
    {
        match self {
            WitnessFault::NoSuchStep(_) => 32,
            WitnessFault::NotStuck => 33,
            WitnessFault::WrongBlocked => 34,
            WitnessFault::Memory => 0,
        }
    }

    /// Its name: `no-such-step`, `not-stuck`, `wrong-blocked` or `memory`.
    pub fn name(self) -> &'static str
        ensures { result.now ≡ witness_fault_name self }
    {
        match self {
            WitnessFault::NoSuchStep(_) => "no-such-step",
            WitnessFault::NotStuck => "not-stuck",
            WitnessFault::WrongBlocked => "wrong-blocked",
            WitnessFault::Memory => "memory",
        }
    }
}

impl fmt::Display for WitnessFault {
    ghost use Rattle.std.specs.Prelude.{Some};

    ghost output = { λ fault. Some (witness_fault_name fault) };

    fn fmt<W: fmt::Write>(&self, f: &mut fmt::Formatter<W>) -> fmt::Result {
        f.write_str(self.name())
    }
}

impl Error for WitnessFault {}

/// Whether two lists of calls are equal.
fn is_same(a: &[CallId], b: &[CallId]) -> bool
    ensures { IsTrue result ↔ (a.now ≡ b.now) }
{
    a == b
}

/// Whether two traps are the same.
pub fn same_trap(one: Trap, other: Trap) -> bool
    ensures { result ≡ trap_eq one other }
{
    one == other
}

/// Whether a witness tells of a trapped rank as it is.
fn is_told(found: TrappedRank, told: RankTrap) -> bool
    ensures { result ≡ is_told found told }
{
    found.rank == told.rank && same_trap(found.trap, told.trap)
}

/// Whether a witness tells of trapped ranks as they are, in order.
fn are_told(found: &[TrappedRank], told: &[RankTrap]) -> bool
    ensures { result ≡ pointwise is_told found.now told.now }
{
    if found.len() != told.len() {
        return false;
    }
    for number in 0..found.len() {
        if !is_told(found[number], told[number]) {
            return false;
        }
    }
    true
}

/// Whether the calls that are blocked in a deadlock are those that a witness says.
fn check_blocked(calls: &[CallId], blocked: &[CallId]) -> Result<(), WitnessFault>
    ensures ok { OnOk result (calls.now ≡ blocked.now) }
    ensures fault { IfErr result (λ e. (e ≡ WitnessFault.WrongBlocked) × (calls.now ≢ blocked.now)) }
{
    if is_same(calls, blocked) {
        Ok(())
    } else {
        Err(WitnessFault::WrongBlocked)
    }
}

/// Whether a witness says that these calls are blocked in a deadlock.
fn check_calls(calls: &[CallId], end: &WitnessEnd) -> Result<(), WitnessFault>
    ensures ok { OnOk result (end.now ≡ WitnessEnd.Deadlock calls.now) }
    ensures fault { IfErr result (λ e. FaultAtEnd (Some (WitnessEnd.Deadlock calls.now)) end.now e) }
    ensures no_memory { IfErr result (λ e. e ≢ WitnessFault.Memory) }
{
    match end {
        WitnessEnd::Deadlock(blocked) => check_blocked(calls, &blocked.items),
        WitnessEnd::Trap(_) => Err(WitnessFault::NotStuck),
    }
}

/// Whether a witness says that these ranks are trapped.
#[tactic(auto, using(crate::proofs::EndLemmas::telling))]
fn check_traps(traps: &[TrappedRank], end: &WitnessEnd) -> Result<(), WitnessFault>
    ensures ok { OnOk result (end.now ≡ WitnessEnd.Trap (map rank_trap traps.now)) }
    ensures fault { IfErr result (λ e. FaultAtEnd (Some (WitnessEnd.Trap (map rank_trap traps.now))) end.now e) }
    ensures no_memory { IfErr result (λ e. e ≢ WitnessFault.Memory) }
{
    match end {
        WitnessEnd::Deadlock(_) => Err(WitnessFault::NotStuck),
        WitnessEnd::Trap(ranks) => {
            if are_told(traps, &ranks.items) {
                Ok(())
            } else {
                Err(WitnessFault::WrongBlocked)
            }
        }
    }
}

/// Whether a run that has this outcome, or none, has come to what a witness says. `Memory` comes
/// only if the outcome lists something.
fn check_outcome(
    alloc: Global,
    outcome: &Option<Outcome>,
    end: &WitnessEnd,
) -> Result<(), WitnessFault>
    ensures ok { OnOk result (end_in outcome.now ≡ Some end.now) }
    ensures fault { IfErr result (λ e. e ≢ WitnessFault.Memory → FaultAtEnd (end_in outcome.now) end.now e) }
    ensures memory { IsErrOf result WitnessFault.Memory → 0 < listed outcome.now }
{
    match outcome {
        None => Err(WitnessFault::NotStuck),
        Some(Outcome::Done) => Err(WitnessFault::NotStuck),
        Some(Outcome::Leftovers(_)) => Err(WitnessFault::NotStuck),
        Some(Outcome::Deadlock(calls)) => {
            let Ok(ids) = calls.ids(alloc) else {
                return Err(WitnessFault::Memory);
            };
            check_calls(&ids.items, end)
        }
        Some(Outcome::Trap(traps)) => check_traps(&traps.items, end),
    }
}

/// Whether a state is what a witness says that its steps lead to. `Memory` comes only if the
/// outcome lists something.
fn check_end(alloc: Global, core: &Core<'_>, end: &WitnessEnd) -> Result<(), WitnessFault>
    ensures ok { OnOk result (end_in (outcome core.now.world) ≡ Some end.now) }
    ensures fault { IfErr result (λ e. e ≢ WitnessFault.Memory → FaultAtEnd (end_in (outcome core.now.world)) end.now e) }
    ensures memory { IsErrOf result WitnessFault.Memory → 0 < listed (outcome core.now.world) }
{
    let outcome = match core.outcome(alloc) {
        Ok(outcome) => outcome,
        Err(_) => return Err(WitnessFault::Memory),
    };
    let checked = check_outcome(alloc, &outcome, end);
    drop(outcome);
    checked
}

/// Takes the step of a witness that stands at this place. `Memory` comes only if the relation of
/// steps has that step.
fn take_step(core: &mut Core<'_>, step: Step, place: usize) -> Result<(), WitnessFault>
    ensures ok { OnOk result (next core.old.world step ≡ Some core.new.world) }
    ensures fault { IfErr result (λ e. e ≢ WitnessFault.Memory → (e ≡ WitnessFault.NoSuchStep place) × (next core.old.world step ≡ None)) }
    ensures memory { IsErrOf result WitnessFault.Memory → IsSome (next core.old.world step) }
    ensures err { OnErr result (core.new.world ≡ core.old.world) }
{
    match core.apply(step) {
        Ok(_) => Ok(()),
        Err(StepFault::NotEnabled) => Err(WitnessFault::NoSuchStep(place)),
        Err(StepFault::Memory) => Err(WitnessFault::Memory),
    }
}

/// Takes the steps of a witness in order.
fn take_steps(core: &mut Core<'_>, steps: &[Step]) -> Result<(), WitnessFault>
    ensures ok { OnOk result (fold core.old.world steps.now ≡ Some core.new.world) }
    ensures fault { IfErr result (λ e. e ≢ WitnessFault.Memory → StopsAt core.old.world steps.now e) }
    ensures memory { IsErrOf result WitnessFault.Memory → WantsMemory core.old.world steps.now core.new.world }
    ensures left { IfErr result (IsLeft core.old.world steps.now core.new.world) }
{
    for place in 0..steps.len() {
        take_step(core, steps[place], place)?;
    }
    Ok(())
}

/// Checks a witness of a deadlock or a trap from the state of a core, which is left where the steps
/// have led: after those before the one that isn't enabled (32), else after all. `Memory` comes only if the next
/// step there is one that the relation of steps has, or if none is left and the outcome lists
/// something.
pub fn verify_from(
    alloc: Global,
    core: &mut Core<'_>,
    witness: &EndWitness,
) -> Result<(), WitnessFault>
    ensures ok { OnOk result ((fold core.old.world witness.now.steps ≡ Some core.new.world) × (end_in (outcome core.new.world) ≡ Some witness.now.end)) }
    ensures fault { IfErr result (λ e. e ≢ WitnessFault.Memory → HasFault core.old.world 0 witness.now.steps witness.now.end e) }
    ensures accepted { IsEndWitnessFrom core.old.world witness.now → IfErr result (λ e. e ≡ WitnessFault.Memory) }
    ensures memory { IsErrOf result WitnessFault.Memory → WantsMemory core.old.world witness.now.steps core.new.world }
    ensures left { IfErr result (IsLeft core.old.world witness.now.steps core.new.world) }
{
    take_steps(core, &witness.steps.items)?;
    check_end(alloc, core, &witness.end)
}

/// The same from the start of a script (docs/DEFINITIONS.md, "Witnesses"): the steps are taken, and
/// none is taken back. Refused for the first step that is not enabled in its place (32); else if
/// the end is no deadlock, or no trap although the witness says so (33); else if other calls are
/// blocked in it, or other ranks trapped, or trapped otherwise (34). `Memory` means that memory was
/// refused, for the start or where `verify_from` says.
pub fn verify_end(
    alloc: Global,
    code: &Code,
    mode: Mode,
    witness: &EndWitness,
) -> Result<(), WitnessFault>
    ensures ok { OnOk result (IsEndWitness code.now.program mode witness.now) }
    ensures fault { IfErr result (λ e. e ≢ WitnessFault.Memory → HasFault (start code.now.program mode) 0 witness.now.steps witness.now.end e) }
    ensures accepted { IsEndWitness code.now.program mode witness.now → IfErr result (λ e. e ≡ WitnessFault.Memory) }
{
    let Ok(mut core) = Core::start(alloc, code, mode) else {
        return Err(WitnessFault::Memory);
    };
    verify_from(alloc, &mut core, witness)
}

/// Whether a run that has this outcome, or none, has come to a deadlock in which these calls are
/// blocked.
fn check_deadlock(
    alloc: Global,
    outcome: &Option<Outcome>,
    blocked: &[CallId],
) -> Result<(), WitnessFault>
    ensures ok { OnOk result (end_in outcome.now ≡ Some (WitnessEnd.Deadlock blocked.now)) }
    ensures fault { IfErr result (λ e. e ≢ WitnessFault.Memory → FaultAtEnd (end_in outcome.now) (WitnessEnd.Deadlock blocked.now) e) }
{
    match outcome {
        Some(Outcome::Deadlock(calls)) => {
            let Ok(ids) = calls.ids(alloc) else {
                return Err(WitnessFault::Memory);
            };
            check_blocked(&ids.items, blocked)
        }
        Some(Outcome::Done | Outcome::Leftovers(_) | Outcome::Trap(_)) => {
            Err(WitnessFault::NotStuck)
        }
        None => Err(WitnessFault::NotStuck),
    }
}

/// Whether a state is a deadlock in which these calls are blocked.
fn check_stuck(alloc: Global, core: &Core<'_>, blocked: &[CallId]) -> Result<(), WitnessFault>
    ensures ok { OnOk result (end_in (outcome core.now.world) ≡ Some (WitnessEnd.Deadlock blocked.now)) }
    ensures fault { IfErr result (λ e. e ≢ WitnessFault.Memory → FaultAtEnd (end_in (outcome core.now.world)) (WitnessEnd.Deadlock blocked.now) e) }
{
    let outcome = match core.outcome(alloc) {
        Ok(outcome) => outcome,
        Err(_) => return Err(WitnessFault::Memory),
    };
    let checked = check_deadlock(alloc, &outcome, blocked);
    drop(outcome);
    checked
}

/// The same as `verify`, from the state of a core.
fn verify_deadlock(alloc: Global, core: &mut Core<'_>, told: &Witness) -> Result<(), WitnessFault>
    ensures ok { OnOk result ((fold core.old.world told.now.steps ≡ Some core.new.world) × (end_in (outcome core.new.world) ≡ Some (WitnessEnd.Deadlock told.now.blocked))) }
    ensures fault { IfErr result (λ e. e ≢ WitnessFault.Memory → HasFault core.old.world 0 told.now.steps (WitnessEnd.Deadlock told.now.blocked) e) }
{
    take_steps(core, &told.steps.items)?;
    check_stuck(alloc, core, &told.blocked.items)
}

/// Checks a witness of a deadlock (docs/DEFINITIONS.md, "Witnesses"): its steps are taken from the
/// start, and none is taken back. Refused for the first step that is not enabled in its place (32);
/// else if the end is no deadlock (33), as where ranks are trapped; else if other calls are blocked
/// in it (34). `Memory` means that memory was refused.
pub fn verify(alloc: Global, code: &Code, mode: Mode, witness: &Witness) -> Result<(), WitnessFault>
    ensures ok { OnOk result (IsWitness code.now.program mode witness.now) }
    ensures fault { IfErr result (λ e. e ≢ WitnessFault.Memory → HasFault (start code.now.program mode) 0 witness.now.steps (WitnessEnd.Deadlock witness.now.blocked) e) }
    ensures accepted { IsWitness code.now.program mode witness.now → IfErr result (λ e. e ≡ WitnessFault.Memory) }
{
    let Ok(mut core) = Core::start(alloc, code, mode) else {
        return Err(WitnessFault::Memory);
    };
    verify_deadlock(alloc, &mut core, witness)
}
