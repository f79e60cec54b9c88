//! A script from a file, for another number of ranks, and its code.

ghost use Rattle.std.specs.Prelude.{◌≡◌, ◌≢◌, Err, IfErr, IfOk, Some};
ghost use Rattle.mpd_model.specs.declared.read_fault.FaultCode.TheVariants.{Memory};
ghost use Rattle.mpd_model.specs.grammar.Grammar.{reading};
ghost use Rattle.mpd_trace.specs.FileText.{IsNoCode};
ghost use Rattle.mpd_trace.specs.Ranks.{AreRanks, IsScriptFor, IsSpelledFor};

use crate::file::read_script;
use crate::plain_trace::PlainFault;
use crate::script::with_ranks;
use crate::text::text_with_ranks;
use mpd_code::{Code, lower};
use mpd_lines::EngineFault;
use mpd_model::{FaultCode, ReadFault, Script, Source};
use mpd_script::read;
use std::alloc::Global;

/// Reads the script of a source, and takes it for so many ranks where a number is given. `text` becomes what was read, with that number in
/// the place of its own; where the script is refused, it is what was read.
pub fn read_script_for<S: Source>(
    alloc: Global,
    source: &mut S,
    text: &mut Vec<u8>,
    ranks: Option<usize>,
) -> Result<Script, PlainFault>
    requires { AreRanks ranks }
    ensures ok { IfOk result (λ script. IsScriptFor ranks (S.seen source.old) (S.seen source.new) text.new.items script) }
    ensures err { IfErr result (λ fault. IsNoCode (S.seen source.old) (S.seen source.new) text.new.items fault) }
{
    let script = match read_script(alloc, source, text) {
        Ok(script) => script,
        Err(fault) => return Err(fault),
    };
    let Some(count) = ranks else {
        return Ok(script);
    };
    match text_with_ranks(alloc, text, count) {
        Ok(bytes) => *text = bytes,
        Err(_) => return Err(PlainFault::Engine(EngineFault::Memory)),
    }
    Ok(with_ranks(script, count))
}

/// Reads such a script and lowers it. `text` becomes as above.
pub fn read_code_for<S: Source>(
    alloc: Global,
    source: &mut S,
    text: &mut Vec<u8>,
    ranks: Option<usize>,
) -> Result<Code, PlainFault>
    requires { AreRanks ranks }
    ensures ok { IfOk result (λ code. IsScriptFor ranks (S.seen source.old) (S.seen source.new) text.new.items code.program) }
    ensures err { IfErr result (λ fault. IsNoCode (S.seen source.old) (S.seen source.new) text.new.items fault) }
{
    let script = match read_script_for(alloc, source, text, ranks) {
        Ok(script) => script,
        Err(fault) => return Err(fault),
    };
    match lower(alloc, script) {
        Ok(code) => Ok(code),
        Err(_) => Err(PlainFault::Engine(EngineFault::Memory)),
    }
}

/// The code of the script that a text spells, for so many ranks, or the text's fault; `Memory` says nothing of the text.
pub fn code_of_text(alloc: Global, text: &[u8], ranks: usize) -> Result<Code, ReadFault>
    requires { AreRanks (Some ranks) }
    ensures ok { IfOk result (λ code. IsSpelledFor ranks text.now code.program) }
    ensures err { IfErr result (λ f. f.code ≢ Memory → reading text.now ≡ Err f) }
{
    let script = match read(alloc, text) {
        Ok(script) => script,
        Err(fault) => return Err(fault),
    };
    match lower(alloc, with_ranks(script, ranks)) {
        Ok(code) => Ok(code),
        Err(_) => Err(ReadFault {
            code: FaultCode::Memory,
            place: 0,
        }),
    }
}
