//! The verdict on a witness, in one line (docs/FORMATS.md, "Witnesses").

ghost use Rattle.std.specs.Prelude.{◌≡◌, ◌+◌, ◌≤◌, ◌++◌, [], IfOk, OnErr, vec_len, vec_capacity};
ghost use Rattle.mpd_explore.specs.Stops.{WantsMemory};
ghost use Rattle.mpd_witness.specs.Verdict.{accepted_line, place_part, refused_line, IsVerdict, IsVerdictFrom, Judged};

use itoa::Buffer;
use mpd_code::Code;
use mpd_core::Core;
use mpd_explore::{EndWitness, WitnessFault, verify_from};
use mpd_lines::{EngineFault, Verdict, push_all, write_all};
use mpd_model::{Mode, Sink};
use std::alloc::{AllocError, Global};

/// Room for the line of any verdict.
const LINE_ROOM: usize = 160;

/// Adds the place of a step that is not enabled, if that is the fault.
fn push_place(line: &mut Vec<u8>, fault: WitnessFault)
    requires { vec_len line.old + 64 ≤ vec_capacity line.old }
    ensures text { line.new.items ≡ line.old.items ++ place_part fault }
    ensures few { vec_len line.new ≤ vec_len line.old + 44 }
    ensures capacity { vec_capacity line.old ≤ vec_capacity line.new }
{
    match fault {
        WitnessFault::NoSuchStep(place) => {
            let mut digits = Buffer::new();
            push_all(line, b" at ");
            push_all(line, digits.format(place).as_bytes());
        }
        WitnessFault::NotStuck | WitnessFault::WrongBlocked | WitnessFault::Memory => {}
    }
}

/// Refuses a witness for this fault: adds the line.
#[tactic(auto, using(crate::proofs::VerdictLemmas::naming))]
fn refuse(line: &mut Vec<u8>, fault: WitnessFault) -> Verdict
    requires { vec_len line.old + LINE_ROOM ≤ vec_capacity line.old }
    ensures text { line.new.items ≡ line.old.items ++ refused_line fault }
    ensures verdict { result ≡ Verdict.Bad }
{
    let mut digits = Buffer::new();
    push_all(line, b"refused ");
    push_all(line, digits.format(fault.number()).as_bytes());
    push_all(line, b" ");
    push_all(line, fault.name().as_bytes());
    push_place(line, fault);
    push_all(line, b"\n");
    Verdict::Bad
}

/// Accepts a witness: adds the line.
fn accept(line: &mut Vec<u8>) -> Verdict
    requires { vec_len line.old + LINE_ROOM ≤ vec_capacity line.old }
    ensures text { line.new.items ≡ line.old.items ++ accepted_line }
    ensures verdict { result ≡ Verdict.Good }
{
    push_all(line, b"accepted\n");
    Verdict::Good
}

/// Verifies a witness from the state of a core, and writes the verdict into an empty line, which
/// has room for it. `Err` means that memory was refused, which happens only if `verify_from` wants
/// some.
#[tactic(auto, using(crate::proofs::VerdictLemmas::judging))]
fn verdict_from(
    alloc: Global,
    core: &mut Core<'_>,
    witness: &EndWitness,
    line: &mut Vec<u8>,
) -> Result<Verdict, AllocError>
    requires empty { line.old.items ≡ [] }
    requires room { vec_len line.old + LINE_ROOM ≤ vec_capacity line.old }
    ensures verdict { IfOk result (λ verdict. IsVerdictFrom core.old.world witness.now line.new.items verdict) }
    ensures memory { OnErr result (WantsMemory core.old.world witness.now.steps core.new.world) }
{
    match verify_from(alloc, core, witness) {
        Ok(()) => Ok(accept(line)),
        Err(WitnessFault::NoSuchStep(place)) => Ok(refuse(line, WitnessFault::NoSuchStep(place))),
        Err(WitnessFault::NotStuck) => Ok(refuse(line, WitnessFault::NotStuck)),
        Err(WitnessFault::WrongBlocked) => Ok(refuse(line, WitnessFault::WrongBlocked)),
        Err(WitnessFault::Memory) => Err(AllocError),
    }
}

/// The same from the script's start, for which it wants memory too.
fn verdict_at_start(
    alloc: Global,
    code: &Code,
    mode: Mode,
    witness: &EndWitness,
    line: &mut Vec<u8>,
) -> Result<Verdict, AllocError>
    requires empty { line.old.items ≡ [] }
    requires room { vec_len line.old + LINE_ROOM ≤ vec_capacity line.old }
    ensures { IfOk result (λ verdict. IsVerdict code.now.program mode witness.now line.new.items verdict) }
{
    let mut core = Core::start(alloc, code, mode)?;
    verdict_from(alloc, &mut core, witness, line)
}

/// Takes the steps of a witness from the script's start, and writes the verdict to a sink:
/// `accepted`, or `refused` with the number and the name of the first fault, and the index of the
/// step, from 0, if that is what is wrong (docs/FORMATS.md, "Witnesses"). `Good`: the witness is
/// accepted. `Bad`: it is refused. `Memory` comes only before anything is written, and
/// `WriteFailed` (46) only if a write failed.
#[tactic(auto, using(crate::proofs::VerdictLemmas::judging))]
pub fn judge<W: Sink>(
    alloc: Global,
    code: &Code,
    mode: Mode,
    witness: &EndWitness,
    sink: &mut W,
) -> Result<Verdict, EngineFault>
    ensures { Judged code.now.program mode witness.now (W.seen sink.old) (W.seen sink.new) result }
{
    let Ok(mut line) = Vec::with_capacity(alloc, LINE_ROOM) else {
        return Err(EngineFault::Memory);
    };
    let Ok(verdict) = verdict_at_start(alloc, code, mode, witness, &mut line) else {
        return Err(EngineFault::Memory);
    };
    if write_all(sink, &line).is_err() {
        return Err(EngineFault::WriteFailed);
    }
    Ok(verdict)
}
