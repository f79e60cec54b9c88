//! Lines of JSON (docs/SESSIONS.md, "The engine"): each is read as a request, a desk is asked it, and the reply is written.

ghost use Rattle.std.specs.Prelude.{◌≡◌, ◌+◌, ◌≤◌, ◌<◌, ◌++◌, ℕ, List, IfOk, length, string_bytes, vec_len, vec_capacity};
ghost use Rattle.mpd_wire.specs.Requests.{request_by, request_in};
ghost use Rattle.mpd_wire.specs.Replies.{IsReplyLine};
ghost use Rattle.mpd_wire.specs.Says.{AddsTold, AddsAsked, AddsTook, one_more, fault_line};
ghost use Rattle.mpd_lines.specs.FaultWords.{failed_reads, failed_writes};
ghost use Rattle.mpd_lines.specs.Served.{Counted};
ghost use Rattle.mpd_wire.specs.Ended.{Ended};

use crate::fault::WireFault;
use crate::parser::parse_by;
use crate::printer::print;
use mpd_lines::{EngineFault, LineDesk, ROOM, push_all, run};
use mpd_model::{LINE_MAX, READS_MAX, Sink, Source};
use mpd_session::{Desk, DeskFault, Reply, Request};
use std::alloc::{AllocError, Global};

/// What stands in the place of a reply where memory is refused before the desk has taken the request.
const MEMORY: &[u8] = b"{\"error\":\"memory\",\"ok\":false}\n";

/// What stands in the place of a reply whose text is refused memory: the desk has taken the request.
const UNPRINTED: &[u8] = b"{\"error\":\"unprinted\",\"ok\":false}\n";

/// What answers a request where the history of the desk is full; it takes no memory.
const HISTORY_FULL: &[u8] = b"{\"error\":\"history-full\",\"ok\":false}\n";

/// The line of a reply. An `Err` is want of memory.
#[tactic(auto, using(crate::proofs::WordLemmas::lining))]
fn print_line(alloc: Global, reply: &Reply) -> Result<String, AllocError>
    ensures { IfOk result (λ t. IsReplyLine reply.now (string_bytes t)) }
{
    let mut text = print(alloc, reply)?;
    text.push('\n')?;
    Ok(text)
}

/// Adds the line of a reply, or the line that stands in its place, which takes no memory.
#[tactic(auto, using(crate::proofs::SayLemmas::telling))]
fn tell(alloc: Global, reply: &Reply, out: &mut Vec<u8>)
    requires { vec_len out.old + ROOM ≤ vec_capacity out.old }
    ensures told { AddsTold reply.now out.old.items out.new.items }
    ensures capacity { vec_capacity out.old ≤ vec_capacity out.new }
{
    let Ok(text) = print_line(alloc, reply) else {
        return push_all(out, UNPRINTED);
    };
    match out.extend_from_slice(text.as_bytes()) {
        Ok(()) => {}
        Err(_) => push_all(out, UNPRINTED),
    }
}

/// The line that answers what is no request; it takes no memory.
#[tactic(auto, using(crate::proofs::SayLemmas::faulting))]
fn fault_line(fault: WireFault) -> &'static [u8]
    ensures line { result.now ≡ fault_line fault }
    ensures short { length result.now ≤ ROOM }
{
    match fault {
        WireFault::LineTooLong => b"{\"error\":\"line-too-long\",\"ok\":false}\n",
        WireFault::NotJson => b"{\"error\":\"not-json\",\"ok\":false}\n",
        WireFault::BadField => b"{\"error\":\"bad-field\",\"ok\":false}\n",
        WireFault::UnknownCommand => b"{\"error\":\"unknown-command\",\"ok\":false}\n",
        WireFault::Memory => MEMORY,
    }
}

/// Asks the desk, and adds the line that answers.
#[tactic(auto, using(crate::proofs::SayLemmas::asking))]
fn ask<D: Desk>(alloc: Global, desk: &mut D, request: &Request, out: &mut Vec<u8>)
    requires { vec_len out.old + ROOM ≤ vec_capacity out.old }
    ensures asked { AddsAsked D.asks D.is_full desk.old request.now out.old.items out.new.items desk.new }
    ensures capacity { vec_capacity out.old ≤ vec_capacity out.new }
{
    match desk.ask(alloc, request) {
        Ok(reply) => tell(alloc, &reply, out),
        Err(DeskFault::HistoryFull) => push_all(out, HISTORY_FULL),
        Err(DeskFault::Memory) => push_all(out, MEMORY),
    }
}

/// Adds the answer to a line that isn't empty.
#[tactic(auto, using(crate::proofs::SayLemmas::taking))]
fn take<D: Desk>(alloc: Global, wide: bool, desk: &mut D, line: &[u8], out: &mut Vec<u8>)
    requires line { length line.now ≤ LINE_MAX }
    requires room { vec_len out.old + ROOM ≤ vec_capacity out.old }
    ensures took { AddsTook D.asks D.is_full desk.old (request_by wide line.now) out.old.items out.new.items desk.new }
    ensures capacity { vec_capacity out.old ≤ vec_capacity out.new }
{
    match parse_by(alloc, wide, line) {
        Ok(request) => ask(alloc, desk, &request, out),
        Err(fault) => push_all(out, fault_line(fault)),
    }
}

/// One more, where there is a number for it: so many lines as have no number are never read.
fn one_more(lines: u64) -> u64
    ensures { result ≡ one_more lines }
{
    if lines == u64::MAX {
        return lines;
    }
    lines + 1
}

/// A desk of lines, which asks a desk of requests, and counts the lines that it has answered.
#[derive(Drop)]
pub struct JsonDesk<'d, D: Desk> {
    desk: &'d mut D,
    /// Whether it reads what is read with `--wide` alone, too.
    wide: bool,
    lines: u64,
}

impl<'d, D: Desk> LineDesk for JsonDesk<'d, D> {
    ghost use Rattle.std.specs.Prelude.{false};
    ghost use Rattle.mpd_wire.specs.Requests.{request_by};
    ghost use Rattle.mpd_wire.specs.Says.{Says, counted};

    // others may see what the desk has done, so the reply to each request is written before the next is asked
    ghost gathers = { false };

    ghost says = { λ d line text e. Says (request_by d.wide) D.asks D.is_full d.desk.now line text e.desk.now × (e.wide ≡ d.wide) × (e.desk.ghost_name ≡ d.desk.ghost_name) × (e.lines ≡ counted d.lines line) };

    fn is_gathering(&self) -> bool {
        false
    }

    #[tactic(auto, using(crate::proofs::SayLemmas::saying))]
    fn answer(&mut self, line: &[u8], out: &mut Vec<u8>) {
        if line.is_empty() {
            return;
        }
        self.lines = one_more(self.lines);
        take(*out.allocator(), self.wide, &mut *self.desk, line, out)
    }

    #[tactic(auto, using(crate::proofs::SayLemmas::refusing))]
    fn refuse_long(&mut self, out: &mut Vec<u8>) {
        self.lines = one_more(self.lines);
        push_all(out, fault_line(WireFault::LineTooLong))
    }
}

/// What is told if the input has ended: how many of its lines were answered.
#[derive(Clone, Copy)]
pub struct End {
    /// How many lines were answered: all that aren't empty.
    pub lines: u64,
}

/// Answers the lines of a source, however they are cut into reads, in 1,000,000 reads at most. The reply to each request is written
/// before the next is asked, and all replies to what a read brought before the next read. `Ok` comes only where the input has ended,
/// `ReadFailed` (45) and `WriteFailed` (46) only where that device failed in this call, `TooManyTurns` (47) only after 1,000,000
/// reads none of which was the end, and `Memory` only before anything was read or written. What is read with `--wide` alone is no
/// request here.
pub fn serve<S: Source, W: Sink, D: Desk>(
    alloc: Global,
    source: &mut S,
    sink: &mut W,
    desk: &mut D,
) -> Result<End, EngineFault>
    ensures served { Ended request_in D.asks D.is_full desk.old (S.seen source.old) (S.seen source.new) (W.seen sink.old) (W.seen sink.new) desk.new result }
    ensures counted { Counted READS_MAX (failed_reads result) (failed_writes result) (S.seen source.old) (S.seen source.new) (W.seen sink.old) (W.seen sink.new) }
{
    serve_by(alloc, false, source, sink, desk)
}

/// The same; with `wide` what is read with `--wide` alone is a request, too.
pub fn serve_by<S: Source, W: Sink, D: Desk>(
    alloc: Global,
    wide: bool,
    source: &mut S,
    sink: &mut W,
    desk: &mut D,
) -> Result<End, EngineFault>
    ensures served { Ended (request_by wide) D.asks D.is_full desk.old (S.seen source.old) (S.seen source.new) (W.seen sink.old) (W.seen sink.new) desk.new result }
    ensures counted { Counted READS_MAX (failed_reads result) (failed_writes result) (S.seen source.old) (S.seen source.new) (W.seen sink.old) (W.seen sink.new) }
{
    let mut lines = JsonDesk {
        desk,
        wide,
        lines: 0,
    };
    match run(alloc, source, sink, &mut lines) {
        Ok(()) => Ok(End { lines: lines.lines }),
        Err(fault) => Err(fault),
    }
}
