//! `mpdbg dap`: what answers the messages of an editor (docs/ADAPTER.md).

use crate::debug::{Ahead, console_of};
use crate::outside::Outside;
use crate::tell::{Fault, script_told};
use mpd_adapter::{AdapterDesk, UnreadDesk};
use mpd_code::Subject;
use mpd_console::{Look, Opened, Screen};
use mpd_frames::{StreamFault, run};
use mpd_model::{Sink, Source};

/// How answers of the console look in frames: without prompts and echo, in lines of up to 1,000 bytes.
const FRAMED: Look = Look {
    is_prompting: false,
    is_echoing: false,
    width: 1_000,
};

/// Why a session of frames has ended before its input, as a fault of the program.
fn stream_fault<'a>(fault: StreamFault) -> Fault<'a> {
    match fault {
        StreamFault::Engine(fault) => Fault::from(fault),
        StreamFault::Frame(_) | StreamFault::CutOff | StreamFault::BodyMemory => {
            Fault::Stream(fault)
        }
    }
}

/// Says what is waited for.
fn say_waiting<R: Eprint>(rt: &R) {
    let _unwritten = eprintln!(rt; "messages of an editor, in frames; docs/ADAPTER.md");
}

/// Answers the messages of a source on a script, up to the end of the session or of the input. What lies ahead is ahead from the start
/// on, and is not told before the first message. At a terminal it says first what it waits for.
pub(crate) fn adapt_script<'a, R: Eprint + AllocGlobal, S: Source, W: Sink>(
    rt: &R,
    subject: Subject<'_>,
    text: &[u8],
    ahead: Ahead<'a>,
    outside: Outside<'_, S, W>,
) -> Result<(), Fault<'a>> {
    let Outside {
        source,
        sink,
        terminals,
    } = outside;
    let screen = Screen {
        script: text,
        look: FRAMED,
    };
    let Opened { desk, said, .. } = console_of(rt.alloc(), subject, screen, ahead)?;
    drop(said);
    if terminals.is_terminal {
        say_waiting(rt);
    }
    let mut adapter = AdapterDesk::new(desk);
    let answered = run(rt.alloc(), source, sink, &mut adapter);
    drop(adapter);
    match answered {
        Ok(_) => Ok(()),
        Err(fault) => Err(stream_fault(fault)),
    }
}

/// Answers the messages of a source on a script that is refused or can't be read: a `launch` fails.
/// What ends the program then is the fault that it is given, and nothing is answered of any other.
pub(crate) fn refuse_script<'a, R: Eprint + AllocGlobal, S: Source, W: Sink>(
    rt: &R,
    fault: Fault<'a>,
    outside: Outside<'_, S, W>,
) -> Fault<'a> {
    let Outside {
        source,
        sink,
        terminals,
    } = outside;
    let Ok(Some(told)) = script_told(rt.alloc(), &fault) else {
        return fault;
    };
    if terminals.is_terminal {
        say_waiting(rt);
    }
    let mut desk = UnreadDesk::new(told.as_str());
    let _answered = run(rt.alloc(), source, sink, &mut desk);
    drop(desk);
    drop(told);
    fault
}
