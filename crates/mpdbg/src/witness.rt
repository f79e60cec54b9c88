//! Witnesses of files, and `mpdbg verify`.

use crate::notes::Noted;
use crate::tell::Fault;
use mpd_code::Subject;
use mpd_explore::{EndWitness, verify_end};
use mpd_lines::{EngineFault, Verdict};
use mpd_model::{FromReader, Mode, Sink};
use mpd_witness::{ReportFault, judge, read_report_witness};
use std::fs::{File, Files};
use std::io;

/// A witness as words name it: its file, and the leaf of a report in it, where one is asked for.
#[derive(Clone, Copy)]
pub(crate) struct NamedWitness<'a> {
    pub(crate) file: &'a str,
    pub(crate) leaf: Option<usize>,
}

/// The witness of a file: that of a leaf, where one is asked for.
pub(crate) fn witness_of<'a, R: Files + AllocGlobal>(
    rt: &R,
    named: NamedWitness<'a>,
) -> Result<EndWitness, Fault<'a>> {
    let NamedWitness { file, leaf } = named;
    let mut reader = match File::open(rt, file) {
        Ok(opened) => Noted::new(opened),
        Err(error) => return Err(Fault::File(file, Some(error))),
    };
    let mut source = FromReader::new(&mut reader);
    let witness = read_report_witness(rt.alloc(), &mut source, leaf);
    drop(source);
    match witness {
        Ok(witness) => Ok(witness),
        Err(ReportFault::Engine(EngineFault::ReadFailed)) => {
            Err(Fault::File(file, reader.error()))
        }
        Err(ReportFault::Engine(fault)) => Err(Fault::from(fault)),
        Err(fault) => Err(Fault::BadWitness(fault)),
    }
}

/// Says in which other mode a witness that is refused is one.
fn say_other_modes<R: Eprint + AllocGlobal>(
    rt: &R,
    subject: Subject<'_>,
    witness: &EndWitness,
) -> io::Result<()> {
    for (other, name) in [
        (Mode::Rendezvous, "rendezvous"),
        (Mode::Buffered, "buffered"),
    ] {
        if other != subject.mode && verify_end(rt.alloc(), subject.code, other, witness).is_ok() {
            eprintln!(rt; "  accepted in mode {name} (--mode)")?;
        }
    }
    Ok(())
}

/// Checks the witness of a file against a script, and says what comes of it. At a terminal it says in which other mode one that is
/// refused is accepted.
pub(crate) fn verify_witness<'a, R: Files + Eprint + AllocGlobal, W: Sink>(
    rt: &R,
    subject: Subject<'_>,
    named: NamedWitness<'a>,
    sink: &mut W,
    is_terminal: bool,
) -> Result<Verdict, Fault<'a>> {
    let witness = witness_of(rt, named)?;
    let verdict = judge(rt.alloc(), subject.code, subject.mode, &witness, sink)?;
    if is_terminal && verdict == Verdict::Bad {
        let _unwritten = say_other_modes(rt, subject, &witness);
    }
    Ok(verdict)
}
