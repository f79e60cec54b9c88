//! Why the program ends before its input does, and what a person is told of it (docs/FORMATS.md, "Faults and statuses").

use crate::shown::{say_lines_shown, say_shown};
use mpd_explore::WitnessFault;
use mpd_frames::StreamFault;
use mpd_lines::EngineFault;
use mpd_model::{FaultCode, RANKS_MAX, ReadFault, SLOTS_MAX};
use mpd_options::UsageFault;
use mpd_pool::PoolFault;
use mpd_server::HostFault;
use mpd_trace::{PlainFault, allowed, excerpt, hint};
use mpd_witness::{ReportFault, WITNESS_MAX};
use std::alloc::{AllocError, Global};
use std::io::{Error, ErrorKind};
use std::{fmt, io};

/// The status where a word that `clap` lets through or the file of a witness is none.
const WRONG: u8 = 2;

/// The status where a port can't be listened on, clients' receipts don't agree with their history, or frames have ended.
const FAILED: u8 = 3;

/// Why the program ends before its input does.
#[derive(Drop)]
pub(crate) enum Fault<'a> {
    /// The words of the command line are wrong, or ask for help.
    Usage(UsageFault),
    /// The mode's word, which is none.
    BadMode(&'a str),
    /// The word of how many ranks there are, which names none.
    BadRanks(&'a str),
    /// The file of a witness has none, or not the one that is asked for.
    BadWitness(ReportFault),
    /// A witness that is to lie ahead is refused.
    Witness(WitnessFault),
    /// It has more than 1,000,000 steps.
    LongWitness,
    /// A file of this name can't be opened or read.
    File(&'a str, Option<Error>),
    /// There are to be no workers, or more than 16.
    Workers,
    /// There are more than 1,024 pieces.
    Pieces,
    /// There is no piece of this number, but so many.
    Piece { number: usize, count: usize },
    /// Two options that can't stand together.
    Clash(&'static str, &'static str),
    /// `--seed` without `--sample`.
    SeedAlone,
    /// `--states` without `--outcomes`.
    StatesAlone,
    /// `--traps` without `--witness`.
    TrapsAlone,
    /// The word of `--choices`, which isn't numbers.
    NotChoices(&'a str),
    /// No run has these choices: the one at this place, from 0, is none, or so many were given, and the run wants more.
    BadChoices(usize),
    /// This line of the file of `--words` is no step, or one that isn't enabled.
    Words(usize),
    /// That file has more than 33,554,432 bytes.
    LongWords,
    /// It has more than 1,000,000 steps.
    ManyWords,
    /// The run shows too much to be drawn.
    LongPicture,
    /// The runs have too many states for a page.
    LongPage,
    /// A script, standard input or output, or memory.
    Plain(PlainFault),
    /// What an editor has sent is no frame, or was broken off, or memory for it was refused.
    Stream(StreamFault),
    /// A port can't be listened on, or no client accepted.
    Listener(Error),
    /// The receipts of clients don't agree with their history: 57 or 58 (docs/DEFINITIONS.md, "Sessions").
    Settle(u8),
}

impl<'a> From<UsageFault> for Fault<'a> {
    fn from(fault: UsageFault) -> Fault<'a> {
        Fault::Usage(fault)
    }
}

impl<'a> From<PlainFault> for Fault<'a> {
    fn from(fault: PlainFault) -> Fault<'a> {
        Fault::Plain(fault)
    }
}

impl<'a> From<EngineFault> for Fault<'a> {
    fn from(fault: EngineFault) -> Fault<'a> {
        Fault::Plain(PlainFault::Engine(fault))
    }
}

impl<'a> From<AllocError> for Fault<'a> {
    fn from(_fault: AllocError) -> Fault<'a> {
        Fault::from(EngineFault::Memory)
    }
}

impl<'a> From<HostFault> for Fault<'a> {
    fn from(fault: HostFault) -> Fault<'a> {
        match fault {
            HostFault::Memory => Fault::from(EngineFault::Memory),
            HostFault::WriteFailed => Fault::from(EngineFault::WriteFailed),
            HostFault::NoPort(error) => Fault::Listener(error),
            HostFault::NotAccepted(error) => match error.kind() {
                ErrorKind::OutOfMemory => Fault::from(EngineFault::Memory),
                _ => Fault::Listener(error),
            },
            HostFault::Settle(fault) => Fault::Settle(fault.number()),
        }
    }
}

/// What a person at a terminal is told below the line of a fault.
#[derive(Clone, Copy)]
pub(crate) struct Notes<'t> {
    /// Whether standard error is a terminal: only there more than the one line is said.
    pub(crate) is_terminal: bool,
    /// The script that is refused.
    pub(crate) text: &'t [u8],
    /// Why the last read of standard input, and the last write to standard output, failed.
    pub(crate) input: Option<Error>,
    pub(crate) output: Option<Error>,
}

impl<'t> Notes<'t> {
    /// Before anything is read or written.
    pub(crate) fn of_words(is_terminal: bool) -> Notes<'t> {
        Notes {
            is_terminal,
            text: &[],
            input: None,
            output: None,
        }
    }
}

/// Why a call of a device failed.
#[derive(Clone, Copy)]
struct Why(Option<Error>);

impl fmt::Display for Why {
    fn fmt<W: fmt::Write>(&self, f: &mut fmt::Formatter<W>) -> fmt::Result {
        let Some(error) = self.0 else {
            return f.write_str("no reason was given");
        };
        match error.kind() {
            ErrorKind::NotFound => f.write_str("no such file"),
            ErrorKind::IsADirectory => f.write_str("is a directory"),
            ErrorKind::PermissionDenied => f.write_str("permission denied"),
            ErrorKind::StorageFull => f.write_str("no space left"),
            _ => write!(f, "{error}"),
        }
    }
}

/// What a person is told of a script that is refused or can't be read, in a line without its end;
/// `None` of any other fault. An `Err` is want of memory.
pub(crate) fn script_told(alloc: Global, fault: &Fault<'_>) -> Result<Option<String>, AllocError> {
    match fault {
        Fault::Plain(fault) => match fault {
            PlainFault::Script(_, _) => Ok(Some(format!(in alloc; "{fault}")?)),
            PlainFault::Engine(_) => Ok(None),
        },
        Fault::File(_, error) => {
            let fault = PlainFault::Engine(EngineFault::ReadFailed);
            let why = Why(*error);
            Ok(Some(format!(in alloc; "{fault}: {why}")?))
        }
        _ => Ok(None),
    }
}

/// Says why a call of a device failed.
fn say_why<R: Eprint>(rt: &R, error: Option<Error>) -> io::Result<()> {
    let why = Why(error);
    eprintln!(rt; "{why}")
}

/// Says why a file can't be opened or read.
pub(crate) fn say_file<R: Eprint>(rt: &R, file: &str, error: Option<Error>) -> io::Result<()> {
    eprint!(rt; "  '")?;
    say_shown(rt, file)?;
    eprint!(rt; "': ")?;
    say_why(rt, error)
}

/// Says why a standard stream can't be read or written.
fn say_stream<R: Eprint>(rt: &R, stream: &str, error: Option<Error>) -> io::Result<()> {
    eprint!(rt; "  {stream}: ")?;
    say_why(rt, error)
}

/// Shows the line of a script that is refused, what could stand at its place if the grammar allows little, and what is mostly meant.
pub(crate) fn say_refused<R: Eprint + AllocGlobal>(
    rt: &R,
    fault: ReadFault,
    text: &[u8],
) -> io::Result<()> {
    if let Ok(lines) = excerpt(rt.alloc(), text, fault.place) {
        eprint!(rt; "{lines}")?;
    }
    if let FaultCode::Expected = fault.code {
        if let Ok(line) = allowed(rt.alloc(), text, fault.place) {
            eprint!(rt; "{line}")?;
        }
    }
    if let Ok(line) = hint(rt.alloc(), text, fault) {
        eprint!(rt; "{line}")?;
    }
    Ok(())
}

/// Says more of a fault of a script, a standard stream or memory.
fn say_plain<R: Eprint + AllocGlobal>(
    rt: &R,
    fault: PlainFault,
    notes: &Notes<'_>,
) -> io::Result<()> {
    match fault {
        PlainFault::Script(refused, _) => say_refused(rt, refused, notes.text),
        PlainFault::Engine(EngineFault::ReadFailed) => {
            say_stream(rt, "standard input", notes.input)
        }
        PlainFault::Engine(EngineFault::WriteFailed) => {
            say_stream(rt, "standard output", notes.output)
        }
        PlainFault::Engine(_) => Ok(()),
    }
}

/// Says what is wrong with the words of the command line. Words stand in it as they were given; a terminal shows them without control
/// characters.
fn say_usage<R: Eprint + AllocGlobal>(
    rt: &R,
    fault: &UsageFault,
    is_terminal: bool,
) -> io::Result<()> {
    if !is_terminal {
        return eprint!(rt; "{fault}");
    }
    match format!(in rt.alloc(); "{fault}") {
        Ok(text) => say_lines_shown(rt, &text),
        Err(_) => eprintln!(rt; "mpdbg: memory"),
    }
}

/// Says a fault of usage: help goes to standard output, all else to standard error. Answers the status.
fn tell_usage<R: Print + Eprint + AllocGlobal>(rt: &R, fault: UsageFault, notes: &Notes<'_>) -> u8 {
    if !fault.is_answer() {
        let _unwritten = say_usage(rt, &fault, notes.is_terminal);
        return fault.status();
    }
    match print!(rt; "{fault}") {
        Ok(()) => fault.status(),
        Err(error) => {
            let notes = Notes {
                is_terminal: notes.is_terminal,
                text: notes.text,
                input: notes.input,
                output: Some(error),
            };
            tell_plain(rt, PlainFault::Engine(EngineFault::WriteFailed), &notes)
        }
    }
}

/// Says a fault of a script, a standard stream or memory. Answers the status.
fn tell_plain<R: Eprint + AllocGlobal>(rt: &R, fault: PlainFault, notes: &Notes<'_>) -> u8 {
    let _unwritten = eprintln!(rt; "{fault}");
    if notes.is_terminal {
        let _unwritten = say_plain(rt, fault, notes);
    }
    fault.status()
}

/// Says that a file can't be opened or read. Answers the status.
fn tell_file<R: Eprint>(rt: &R, file: &str, error: Option<Error>, is_terminal: bool) -> u8 {
    let fault = PlainFault::Engine(EngineFault::ReadFailed);
    let _unwritten = eprintln!(rt; "{fault}");
    if is_terminal {
        let _unwritten = say_file(rt, file, error);
    }
    fault.status()
}

/// Says that a port can't be listened on. Answers the status.
fn tell_listener<R: Eprint>(rt: &R, error: Error, is_terminal: bool) -> u8 {
    let _unwritten = eprintln!(rt; "mpdbg: device");
    if is_terminal {
        let _unwritten = say_stream(rt, "port", Some(error));
    }
    FAILED
}

/// Begins a line that says of a word that it isn't what is wanted.
fn say_word<R: Eprint>(rt: &R, word: &str) -> io::Result<()> {
    eprint!(rt; "  '")?;
    say_shown(rt, word)?;
    eprint!(rt; "' ")
}

/// Says that a word is no mode. Answers the status.
fn tell_mode<R: Eprint>(rt: &R, word: &str, is_terminal: bool) -> u8 {
    let _unwritten = eprintln!(rt; "mpdbg: bad mode");
    if is_terminal {
        let _unwritten = say_word(rt, word);
        let _unwritten = eprintln!(rt;
            "is none; the modes are rendezvous, buffered, and slots:K with K from 0 to {SLOTS_MAX}"
        );
    }
    WRONG
}

/// Says that a word names no numbers of ranks, and at a terminal which do. Answers the status.
fn tell_ranks<R: Eprint>(rt: &R, word: &str, is_terminal: bool) -> u8 {
    let _unwritten = eprintln!(rt; "mpdbg: bad ranks");
    if is_terminal {
        let _unwritten = say_word(rt, word);
        let _unwritten = eprintln!(rt;
            "is none; there are 1 to {RANKS_MAX} ranks (--ranks N), or each number from N to M (--ranks N-M)"
        );
    }
    WRONG
}

/// Says that the file of a witness has none, or not the one that is asked for. Answers the status.
fn tell_witness<R: Eprint>(rt: &R, fault: ReportFault, is_terminal: bool) -> u8 {
    let _unwritten = eprintln!(rt; "mpdbg: bad witness {fault}");
    if is_terminal {
        if let ReportFault::SeveralWitnesses = fault {
            let _unwritten = eprintln!(rt; "  --leaf N says of which leaf it is meant");
        }
    }
    WRONG
}

/// Says that a witness is refused that is to lie ahead. Answers the status.
fn tell_refused_witness<R: Eprint>(rt: &R, fault: WitnessFault) -> u8 {
    let (number, name) = (fault.number(), fault.name());
    let _unwritten = match fault {
        WitnessFault::NoSuchStep(place) => {
            eprintln!(rt; "mpdbg: witness refused {number} {name} at {place}")
        }
        _ => eprintln!(rt; "mpdbg: witness refused {number} {name}"),
    };
    WRONG
}

/// Says that a word is no list of choices. Answers the status.
fn tell_choices<R: Eprint>(rt: &R, word: &str, is_terminal: bool) -> u8 {
    let _unwritten = eprintln!(rt; "mpdbg: bad choices");
    if is_terminal {
        let _unwritten = say_word(rt, word);
        let _unwritten = eprintln!(rt;
            "isn't numbers with spaces between, as a leaf of check has them in its brackets"
        );
    }
    WRONG
}

/// Says that so many workers, or so many pieces, there can't be. Answers the status.
fn tell_refused<R: Eprint>(rt: &R, fault: PoolFault, hint: &str, is_terminal: bool) -> u8 {
    let _unwritten = eprintln!(rt; "mpdbg: refused {} {}", fault.number(), fault.name());
    if is_terminal {
        let _unwritten = eprintln!(rt; "  {hint}");
    }
    WRONG
}

/// Says that runs have too many states for a page. Answers the status.
fn tell_long_page<R: Eprint>(rt: &R, is_terminal: bool) -> u8 {
    let _unwritten = eprintln!(rt; "mpdbg: page of more than 20000 states");
    if is_terminal {
        let _unwritten = eprintln!(rt;
            "  --fuel N lets a run take N steps at most, --runs N shows fewer runs"
        );
    }
    WRONG
}

/// Says a fault by one line, and at a terminal what else is known of it, and answers the status that the program ends with.
/// Where it can't be written, the status is the same.
pub(crate) fn tell<R: Print + Eprint + AllocGlobal>(
    rt: &R,
    fault: Fault<'_>,
    notes: &Notes<'_>,
) -> u8 {
    match fault {
        Fault::Usage(fault) => tell_usage(rt, fault, notes),
        Fault::BadMode(word) => tell_mode(rt, word, notes.is_terminal),
        Fault::BadRanks(word) => tell_ranks(rt, word, notes.is_terminal),
        Fault::BadWitness(fault) => tell_witness(rt, fault, notes.is_terminal),
        Fault::Witness(fault) => tell_refused_witness(rt, fault),
        Fault::LongWitness => {
            let _unwritten = eprintln!(rt; "mpdbg: witness of more than 1000000 steps");
            WRONG
        }
        Fault::File(file, error) => tell_file(rt, file, error, notes.is_terminal),
        Fault::Workers => tell_refused(
            rt,
            PoolFault::BadWorkers,
            "1 to 16 workers can be had (--workers)",
            notes.is_terminal,
        ),
        Fault::Pieces => tell_refused(
            rt,
            PoolFault::TooManyPieces,
            "there can be 1,024; fewer choices make fewer (--split)",
            notes.is_terminal,
        ),
        Fault::Piece { number, count } => {
            let _unwritten = eprintln!(rt; "mpdbg: no piece {number} of {count}");
            WRONG
        }
        Fault::Clash(one, other) => {
            let _unwritten = eprintln!(rt; "mpdbg: {one} and {other} can't stand together");
            WRONG
        }
        Fault::SeedAlone => {
            let _unwritten = eprintln!(rt; "mpdbg: --seed wants --sample");
            WRONG
        }
        Fault::StatesAlone => {
            let _unwritten = eprintln!(rt; "mpdbg: --states wants --outcomes");
            WRONG
        }
        Fault::TrapsAlone => {
            let _unwritten = eprintln!(rt; "mpdbg: --traps wants --witness");
            WRONG
        }
        Fault::NotChoices(word) => tell_choices(rt, word, notes.is_terminal),
        Fault::BadChoices(place) => {
            let _unwritten = eprintln!(rt; "mpdbg: bad choices at {place}");
            WRONG
        }
        Fault::Words(line) => {
            let _unwritten = eprintln!(rt; "mpdbg: words refused at line {line}");
            WRONG
        }
        Fault::LongWords => {
            let _unwritten = eprintln!(rt; "mpdbg: words of more than {WITNESS_MAX} bytes");
            WRONG
        }
        Fault::ManyWords => {
            let _unwritten = eprintln!(rt; "mpdbg: words of more than 1000000 steps");
            WRONG
        }
        Fault::LongPicture => {
            let _unwritten = eprintln!(rt; "mpdbg: picture of more than 20000 glyphs");
            WRONG
        }
        Fault::LongPage => tell_long_page(rt, notes.is_terminal),
        Fault::Plain(fault) => tell_plain(rt, fault, notes),
        Fault::Stream(fault) => {
            let _unwritten = eprintln!(rt; "mpdbg: {fault}");
            FAILED
        }
        Fault::Listener(error) => tell_listener(rt, error, notes.is_terminal),
        Fault::Settle(number) => {
            let _unwritten = eprintln!(rt; "mpdbg: settle {number}");
            FAILED
        }
    }
}
