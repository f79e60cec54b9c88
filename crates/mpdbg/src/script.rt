//! A script as the words of the command line name it, and its code; and the bytes of any file.

ghost use Rattle.std.specs.Prelude.{◌+◌, ◌<◌, ◌^◌};
ghost use Rattle.mpd_trace.specs.Ranks.{AreRanks};

use crate::notes::Noted;
use crate::tell::Fault;
use mpd_code::Code;
use mpd_lines::{EngineFault, read_up_to};
use mpd_model::{FromReader, Mode, mode_of};
use mpd_trace::{PlainFault, read_code_for};
use std::fs::{File, Files};

/// A script as words name it: its file, how many ranks run it, where that is said, and the mode that it runs in.
#[derive(Clone, Copy)]
pub(crate) struct NamedScript<'a> {
    pub(crate) file: &'a str,
    pub(crate) ranks: Option<usize>,
    pub(crate) mode: &'a str,
}

/// The code of the script of a file. Its text is left in `text`.
pub(crate) fn code_of<'a, R: Files + AllocGlobal>(
    rt: &R,
    named: NamedScript<'a>,
    text: &mut Vec<u8>,
) -> Result<Code, Fault<'a>>
    requires { AreRanks named.ranks }
{
    let NamedScript { file, ranks, .. } = named;
    let mut reader = match File::open(rt, file) {
        Ok(opened) => Noted::new(opened),
        Err(error) => return Err(Fault::File(file, Some(error))),
    };
    let mut source = FromReader::new(&mut reader);
    let code = read_code_for(rt.alloc(), &mut source, text, ranks);
    drop(source);
    match code {
        Ok(code) => Ok(code),
        Err(PlainFault::Engine(EngineFault::ReadFailed)) => Err(Fault::File(file, reader.error())),
        Err(fault) => Err(Fault::Plain(fault)),
    }
}

/// The bytes of a file: so many, or one more if it has more than that.
pub(crate) fn bytes_of<'a, R: Files + AllocGlobal>(
    rt: &R,
    file: &'a str,
    max: usize,
) -> Result<Vec<u8>, Fault<'a>>
    requires { max + 1 < 2 ^ 64 }
{
    let mut reader = match File::open(rt, file) {
        Ok(opened) => Noted::new(opened),
        Err(error) => return Err(Fault::File(file, Some(error))),
    };
    let mut source = FromReader::new(&mut reader);
    let bytes = read_up_to(rt.alloc(), &mut source, max);
    drop(source);
    match bytes {
        Ok(bytes) => Ok(bytes),
        Err(EngineFault::ReadFailed) => Err(Fault::File(file, reader.error())),
        Err(fault) => Err(Fault::from(fault)),
    }
}

/// The mode and the code of a script. The mode is tested first. A script that is refused is left in `text`.
pub(crate) fn mode_and_code<'a, R: Files + AllocGlobal>(
    rt: &R,
    named: NamedScript<'a>,
    text: &mut Vec<u8>,
) -> Result<(Mode, Code), Fault<'a>>
    requires { AreRanks named.ranks }
{
    let Some(mode) = mode_of(named.mode) else {
        return Err(Fault::BadMode(named.mode));
    };
    let code = code_of(rt, named, text)?;
    Ok((mode, code))
}
