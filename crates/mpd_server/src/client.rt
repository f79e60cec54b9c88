//! A client: it is accepted, and then served by its seat.

use crate::porter::Porter;
use crate::server::Arrivals;
use mpd_model::{FromReader, ToWriter};
use mpd_session::{Log, Logged, Opening, Seat, SeatDesk, Shared};
use mpd_wire::serve_by;
use std::alloc::Global;
use std::io;
use std::io::{Error, ErrorKind};
use std::net::{TcpListener, TcpStream};
use std::sync::Wait;

/// What clients share, as the threads see it that serve them.
pub(crate) trait Table<S, R> {
    /// Answers the requests of a client until it leaves or its connection fails, and gives its seat
    /// back; with `wide` also those that are read with `--wide` alone.
    fn serve(&self, rt: &R, alloc: Global, wide: bool, seat: S, stream: &TcpStream) -> S;

    /// What its seat keeps.
    fn log<'s>(&self, seat: &'s S) -> &'s Log;
}

impl<L: Opening, R: Wait> Table<Seat<L>, R> for Shared<'_, L> {
    fn serve(
        &self,
        rt: &R,
        alloc: Global,
        wide: bool,
        seat: Seat<L>,
        stream: &TcpStream,
    ) -> Seat<L> {
        let mut source = FromReader::new(stream);
        let mut sink = ToWriter::new(stream);
        let mut desk = SeatDesk::new(rt, self, seat);
        // what fails here ends this client alone
        let _ended = serve_by(alloc, wide, &mut source, &mut sink, &mut desk);
        desk.into_seat()
    }

    fn log<'s>(&self, seat: &'s Seat<L>) -> &'s Log {
        seat.log()
    }
}

/// Serves a client, and tells that it has left.
pub(crate) fn serve_client<T: Table<S, R>, S, R: Wait, P: Porter>(
    rt: &R,
    alloc: Global,
    wide: bool,
    table: &T,
    seat: S,
    stream: TcpStream,
    porter: &P,
) -> S {
    // if it can't be set, each reply takes longer
    let _slower = stream.set_nodelay(true);
    let seat = table.serve(rt, alloc, wide, seat, &stream);
    let log = table.log(&seat);
    porter.has_left(log.client, log.receipts.len());
    seat
}

/// Whether an accept that failed so is made again: a signal has interrupted it, or the client has
/// left before it was accepted.
fn is_passing(kind: ErrorKind) -> bool {
    matches!(kind, ErrorKind::Interrupted | ErrorKind::ConnectionAborted)
}

/// Accepts a client.
fn accept<R: Wait>(rt: &R, listener: &TcpListener) -> io::Result<TcpStream> {
    for _ in rt.forever() {
        match listener.accept() {
            Ok((stream, _)) => return Ok(stream),
            Err(error) if is_passing(error.kind()) => {}
            Err(error) => return Err(error),
        }
    }
    Err(Error::from(ErrorKind::Interrupted))
}

/// Accepts the client of a seat, and tells that it is here.
pub(crate) fn welcome<T: Table<S, R>, S, R: Wait, P: Porter>(
    rt: &R,
    table: &T,
    seat: &S,
    arrivals: Arrivals<'_, P>,
) -> io::Result<TcpStream> {
    let stream = accept(rt, arrivals.listener)?;
    let client = table.log(seat).client;
    arrivals.porter.has_come(client, arrivals.clients);
    Ok(stream)
}
