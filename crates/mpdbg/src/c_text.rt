//! `mpdbg c`: the script of a file as a C program with MPI calls.

ghost use Rattle.mpd_trace.specs.Ranks.{AreRanks};

use crate::notes::Noted;
use crate::tell::Fault;
use mpd_c::write_c;
use mpd_lines::EngineFault;
use mpd_model::{FromReader, Script, Sink};
use mpd_trace::{PlainFault, read_script_for};
use std::fs::{File, Files};

/// The script of a file, for as many ranks as are asked for. Its text is left in `text`.
fn script_of<'a, R: Files + AllocGlobal>(
    rt: &R,
    file: &'a str,
    ranks: Option<usize>,
    text: &mut Vec<u8>,
) -> Result<Script, Fault<'a>>
    requires { AreRanks ranks }
{
    let mut reader = match File::open(rt, file) {
        Ok(opened) => Noted::new(opened),
        Err(error) => return Err(Fault::File(file, Some(error))),
    };
    let mut source = FromReader::new(&mut reader);
    let script = read_script_for(rt.alloc(), &mut source, text, ranks);
    drop(source);
    match script {
        Ok(script) => Ok(script),
        Err(PlainFault::Engine(EngineFault::ReadFailed)) => Err(Fault::File(file, reader.error())),
        Err(fault) => Err(Fault::Plain(fault)),
    }
}

/// Writes the script of a file in C, for as many ranks as are asked for. A script that is refused is left in `text`.
pub(crate) fn translate<'a, R: Files + AllocGlobal, W: Sink>(
    rt: &R,
    file: &'a str,
    ranks: Option<usize>,
    text: &mut Vec<u8>,
    sink: &mut W,
) -> Result<(), Fault<'a>>
    requires { AreRanks ranks }
{
    let script = script_of(rt, file, ranks, text)?;
    write_c(rt.alloc(), &script, sink)?;
    Ok(())
}
