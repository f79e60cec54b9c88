//! Serves the clients of a listener with one session on a script.

ghost use Rattle.std.specs.Prelude.{◌≡◌, ◌≤◌, IfOk};
ghost use Rattle.mpd_session.specs.Audit.{receipts_in};
ghost use Rattle.mpd_session.specs.FaultNumbers.{audit_fault_number};
ghost use Rattle.mpd_session.specs.Held.{opened};
ghost use Rattle.mpd_session.specs.Receipts.{seated};
ghost use Rattle.mpd_session.specs.Settled.{settle_fault_number};
ghost use Rattle.mpd_server.specs.Announced.{Announced, IsOutcome};

use crate::crew::{Left, Places, serve_all};
use crate::fault::HostFault;
use crate::lines::{conclude, listen};
use crate::porter::Porter;
use mpd_code::Code;
use mpd_model::{Mode, Sink};
use mpd_session::{AuditFault, HISTORY_MAX, Opening, Seat, Session, SettleFault, Shared};
use std::alloc::{AllocError, Global};
use std::marker::Brand;
use std::net::TcpListener;
use std::sync::Wait;
use std::sync::ledger::Blank;
use std::thread::Threads;

/// Where clients come, how many, and who is told of them.
#[derive_where(Clone, Copy)]
pub struct Arrivals<'l, P> {
    /// What they connect to.
    pub listener: &'l TcpListener,
    /// How many are accepted.
    pub clients: usize,
    /// Whether what is read with `--wide` alone is a request of theirs, too.
    pub wide: bool,
    /// Who is told that they come and leave.
    pub porter: &'l P,
}

/// A session for `clients` clients, and their places. `Err` means that memory was refused; no later
/// call asks for any, but for those that answer requests.
fn places_of<'c, L: Opening>(
    alloc: Global,
    blank: Blank,
    session: Session<'c>,
    clients: usize,
) -> Result<(Shared<'c, L>, Places<Seat<L>>), AllocError>
    requires name { blank.name ≡ L.name }
    requires blank { blank.parts ≡ L.parts }
    requires parts { L.parts ≡ clients }
    requires session { session ≡ opened L.program L.mode }
{
    let (shared, seats) = Shared::<L>::new(alloc, blank, session, clients)?;
    let places = Places::new(alloc, seats)?;
    Ok((shared, places))
}

/// Why a session has not settled, without its book.
fn reason_of(fault: SettleFault<'_>) -> AuditFault
    ensures { audit_fault_number result ≡ settle_fault_number fault.entry }
{
    match fault {
        SettleFault::CountsDiffer(_) => AuditFault::CountsDiffer,
        SettleFault::ReceiptDiffers(_) => AuditFault::ReceiptDiffers,
    }
}

/// How many entries the history of a session has, once all clients have left and the receipts of
/// their seats agree with it: as many as these receipts.
fn entries_settled<L: Opening>(
    shared: Shared<'_, L>,
    seats: Vec<Seat<L>>,
) -> Result<usize, AuditFault>
    ensures few { IfOk result (λ entries. entries ≤ HISTORY_MAX) }
    ensures counted { IfOk result (λ entries. entries ≡ receipts_in seated seats.items) }
{
    match shared.settle(seats) {
        Ok(book) => Ok(book.len()),
        Err(fault) => Err(reason_of(fault)),
    }
}

/// Serves the clients of a session in their places, and returns how many entries its history has in
/// the end.
fn attend<L: Opening + Send + Sync, R: Threads + Wait + Sync, P: Porter>(
    rt: &R,
    alloc: Global,
    shared: Shared<'_, L>,
    places: Places<Seat<L>>,
    arrivals: Arrivals<'_, P>,
) -> Result<usize, HostFault>
    ensures { IsOutcome result }
{
    match serve_all(rt, alloc, &shared, places, arrivals) {
        Ok(Left { seats, .. }) => match entries_settled(shared, seats) {
            Ok(entries) => Ok(entries),
            Err(fault) => Err(HostFault::Settle(fault)),
        },
        Err(error) => {
            drop(shared);
            Err(HostFault::NotAccepted(error))
        }
    }
}

/// Serves the clients of a session in their places, and writes `listening P` before and `served E`
/// after that.
#[tactic(auto, using(crate::proofs::AnnouncedLemmas::announcing))]
fn host_places<L: Opening + Send + Sync, R: Threads + Wait + Sync, P: Porter, W: Sink>(
    rt: &R,
    alloc: Global,
    shared: Shared<'_, L>,
    places: Places<Seat<L>>,
    arrivals: Arrivals<'_, P>,
    sink: &mut W,
) -> Result<usize, HostFault>
    ensures { Announced (W.seen sink.old) (W.seen sink.new) result }
{
    match listen(arrivals.listener, sink) {
        Ok(()) => conclude(attend(rt, alloc, shared, places, arrivals), sink),
        Err(fault) => {
            drop(shared);
            drop(places);
            Err(fault)
        }
    }
}

/// Serves clients on a session at its start.
fn host<L: Opening + Send + Sync, R: Threads + Wait + Sync, P: Porter, W: Sink>(
    rt: &R,
    alloc: Global,
    blank: Blank,
    session: Session<'_>,
    arrivals: Arrivals<'_, P>,
    sink: &mut W,
) -> Result<usize, HostFault>
    requires name { blank.name ≡ L.name }
    requires blank { blank.parts ≡ L.parts }
    requires parts { L.parts ≡ arrivals.clients }
    requires session { session ≡ opened L.program L.mode }
    ensures { Announced (W.seen sink.old) (W.seen sink.new) result }
{
    match places_of::<L>(alloc, blank, session, arrivals.clients) {
        Ok((shared, places)) => host_places(rt, alloc, shared, places, arrivals, sink),
        Err(_) => Err(HostFault::Memory),
    }
}

/// Serves `clients` clients of a listener with one session at the start of a script, each on a
/// thread of its own, until all have left. It writes two lines: `listening P` with the port, 0 to
/// 65,535, before the first client is accepted, and `served E` after the last has left, with the
/// number of requests that have entries in the history, 0 to 65,536, which it answers. If no thread
/// can be started for a client, it is let go. Memory for the session, its seats and its lists is
/// taken before anything is written: `Memory` and `NoPort` come only there. `NotAccepted` and
/// `Settle` come after the first line alone, and `WriteFailed` (46) only if a write of these lines
/// failed. docs/SESSIONS.md says what a client is replied.
pub fn serve<R: Threads + Wait + Sync, P: Porter, W: Sink>(
    rt: &R,
    alloc: Global,
    code: &Code,
    mode: Mode,
    arrivals: Arrivals<'_, P>,
    sink: &mut W,
) -> Result<usize, HostFault>
    ensures { Announced (W.seen sink.old) (W.seen sink.new) result }
{
    let Ok(session) = Session::start(alloc, code, mode) else {
        return Err(HostFault::Memory);
    };
    let blank = Blank::new(arrivals.clients as u64);
    host::<Brand, R, P, W>(rt, alloc, blank, session, arrivals, sink)
}
