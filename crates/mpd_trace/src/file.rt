//! A script from a file of its own, and its code.
ghost use Rattle.std.specs.Prelude.{IfOk, IfErr};
ghost use Rattle.mpd_trace.specs.FileText.{IsScriptOf, IsNoCode};

use crate::plain_trace::{PlainFault, refusal};
use mpd_code::{Code, lower};
use mpd_lines::{EngineFault, read_up_to};
use mpd_model::{SCRIPT_MAX, Script, Source};
use mpd_script::read;
use std::alloc::Global;

/// Reads the script of a source, up to the byte that makes its text too long. `text` becomes what was read, also where the script is
/// refused.
#[tactic(auto, using(crate::proofs::FileLaws::refusing_texts))]
pub fn read_script<S: Source>(
    alloc: Global,
    source: &mut S,
    text: &mut Vec<u8>,
) -> Result<Script, PlainFault>
    ensures ok { IfOk result (λ script. IsScriptOf (S.seen source.old) (S.seen source.new) text.new.items script) }
    ensures err { IfErr result (λ fault. IsNoCode (S.seen source.old) (S.seen source.new) text.new.items fault) }
{
    match read_up_to(alloc, source, SCRIPT_MAX) {
        Ok(bytes) => *text = bytes,
        Err(fault) => return Err(PlainFault::Engine(fault)),
    }
    match read(alloc, text) {
        Ok(script) => Ok(script),
        Err(fault) => Err(refusal(text, fault)),
    }
}

/// Reads the script of a source and lowers it. `text` becomes what was read, also where the script is refused.
pub fn read_code<S: Source>(
    alloc: Global,
    source: &mut S,
    text: &mut Vec<u8>,
) -> Result<Code, PlainFault>
    ensures ok { IfOk result (λ code. IsScriptOf (S.seen source.old) (S.seen source.new) text.new.items code.program) }
    ensures err { IfErr result (λ fault. IsNoCode (S.seen source.old) (S.seen source.new) text.new.items fault) }
{
    let script = match read_script(alloc, source, text) {
        Ok(script) => script,
        Err(fault) => return Err(fault),
    };
    match lower(alloc, script) {
        Ok(code) => Ok(code),
        Err(_) => Err(PlainFault::Engine(EngineFault::Memory)),
    }
}
