//! The threads that serve clients.

ghost use Rattle.std.specs.Prelude.{◌≡◌, ◌+◌, ◌≤◌, vec_len, vec_capacity, IfOk};
ghost use Rattle.std.specs.Thread.{IsSend, IsSync};

use crate::client::{Table, serve_client, welcome};
use crate::porter::Porter;
use crate::server::Arrivals;
use std::alloc::{AllocError, Global};
use std::sync::Wait;
use std::thread::{JoinHandle, Scope, Threads};
use std::{io, thread};

/// The seats of clients, and room for the threads that serve them and for the seats that come back.
#[derive(Drop)]
pub(crate) struct Places<S: Drop> {
    seats: Vec<S>,
    /// Room for the thread of each client.
    running: Vec<JoinHandle<S>>,
    /// Room for the seat of each, when it has left.
    left: Vec<S>,
    ghost no_thread: { vec_len running ≡ 0 },
    ghost threads: { vec_len seats ≤ vec_capacity running },
    ghost none_left: { vec_len left ≡ 0 },
    ghost room: { vec_len seats ≤ vec_capacity left },
}

/// The threads that serve clients, room for their seats, and how many clients have no thread.
#[derive(Drop)]
struct Begun<S: Drop> {
    running: Vec<JoinHandle<S>>,
    left: Vec<S>,
    unserved: usize,
}

/// The seats of clients that have left, and of how many there is none: they have no receipt, since
/// no thread could be started for them.
#[derive(Drop)]
pub(crate) struct Left<S: Drop> {
    pub(crate) seats: Vec<S>,
    pub(crate) unserved: usize,
}

impl<S: Drop> Places<S> {
    /// The places of these seats. `Err` means that memory was refused; no later call asks for any.
    pub(crate) fn new(alloc: Global, seats: Vec<S>) -> Result<Places<S>, AllocError>
        ensures { IfOk result (λ places. places.seats ≡ seats) }
    {
        let running = Vec::with_capacity(alloc, seats.len())?;
        let left = Vec::with_capacity(alloc, seats.len())?;
        Ok(Places {
            seats,
            running,
            left,
        })
    }
}

/// Accepts a client for each seat, and serves it on a thread of its own from then on. If no thread
/// can be started, the client is let go, with its seat.
fn start_all<
    's,
    E,
    T: Table<S, R> + Sync + 's,
    S: Send + Drop + 's,
    R: Threads + Wait + Sync + 's,
    P: Porter + 's,
>(
    scope: &Scope<'s, E>,
    rt: &'s R,
    alloc: Global,
    table: &'s T,
    places: Places<S>,
    arrivals: Arrivals<'s, P>,
) -> io::Result<Begun<S>>
    requires table { IsSync T.row }
    requires seats { IsSend S.row }
    requires runtime { IsSync R.row }
    requires porter { IsSync P.row }
    ensures all { IfOk result (λ begun. vec_len begun.running + begun.unserved ≡ vec_len places.seats) }
    ensures room { IfOk result (λ begun. begun.left ≡ places.left) }
{
    let Places {
        seats,
        mut running,
        left,
    } = places;
    let Arrivals { wide, porter, .. } = arrivals;
    let mut unserved = 0;
    for seat in seats {
        let stream = welcome(rt, table, &seat, arrivals)?;
        match scope.spawn(move || serve_client(rt, alloc, wide, table, seat, stream, porter)) {
            Ok(client) => running.push_reserved(client),
            Err(_) => unserved += 1,
        }
    }
    Ok(Begun {
        running,
        left,
        unserved,
    })
}

/// Waits until all clients have left, and takes the seat of each, however its session has ended.
fn join_all<S: Send + Drop, R: Threads + Wait>(rt: &R, begun: Begun<S>) -> Left<S>
    requires none_left { vec_len begun.left ≡ 0 }
    requires room { vec_len begun.running ≤ vec_capacity begun.left }
    ensures seats { vec_len result.seats ≡ vec_len begun.running }
    ensures unserved { result.unserved ≡ begun.unserved }
{
    let Begun {
        running,
        mut left,
        unserved,
    } = begun;
    for client in running {
        left.push_reserved(client.join(rt));
    }
    Left {
        seats: left,
        unserved,
    }
}

/// Accepts a client for each seat, and serves it on a thread of its own from then on. Returns the
/// seats once all clients have left: each is there again, but for those of clients for which no
/// thread could be started. It takes no memory of its own. An `Err` is an accept that failed.
pub(crate) fn serve_all<T: Table<S, R> + Sync, S: Send + Drop, R: Threads + Wait + Sync, P: Porter>(
    rt: &R,
    alloc: Global,
    table: &T,
    places: Places<S>,
    arrivals: Arrivals<'_, P>,
) -> io::Result<Left<S>>
    ensures { IfOk result (λ left. vec_len left.seats + left.unserved ≡ vec_len places.seats) }
{
    thread::scope(
        thread::scope_env(),
        rt,
        |scope| -> io::Result<Left<S>>
            requires table { IsSync T.row }
            requires seats { IsSend S.row }
            requires runtime { IsSync R.row }
            requires porter { IsSync P.row }
            ensures { IfOk result (λ left. vec_len left.seats + left.unserved ≡ vec_len places.seats) }
        {
            let begun = start_all(scope, rt, alloc, table, places, arrivals)?;
            Ok(join_all(rt, begun))
        },
    )
}
