//! One session for several clients, under a lock.

ghost use Rattle.std.specs.Prelude.{◌≡◌, ◌<◌, length, vec_len, IfOk, OnErr};
ghost use Rattle.std.proofs.Props.{props};
ghost use Rattle.mpd_model.specs.script.Program.{program_code};
ghost use Rattle.mpd_session.specs.Held.{opened};
ghost use Rattle.mpd_session.specs.Audit.{receipts_in};
ghost use Rattle.mpd_session.specs.Receipts.{Adds, empty_seats, seated};
ghost use Rattle.mpd_session.specs.Settled.{IsBookOf, Settles, book_in};

use crate::opening::Opening;
use crate::seat::{Locked, Seat};
use crate::settle::SettleFault;
use crate::{Book, Reply, Request, Session, TakeFault};
use mpd_code::Code;
use std::alloc::{AllocError, Global};
use std::sync::ledger::{Blank, Share};
use std::sync::{Mutex, Wait};

/// One session for several clients. Each has a seat, and asks by it. The lock is held for one request at a time; the code of the
/// script is read without it.
#[derive(Drop)]
pub struct Shared<'c, L: Opening> {
    code: &'c Code,
    locked: Mutex<Locked<'c, L>>,
    ghost script: { code.now.program ≡ L.program } by { Prim.hlevel (program_code, props) },
}

/// The seats of `clients` clients, each with a part of the ledger. `Err` means that memory was
/// refused.
#[tactic(auto, using(crate::proofs::SeatLemmas::one_seat_more))]
fn seats_for<L: Opening>(
    alloc: Global,
    mut rest: Share<L>,
    clients: usize,
) -> Result<Vec<Seat<L>>, AllocError>
    requires parts { rest.parts ≡ clients }
    requires amount { rest.amount ≡ 0 }
    ensures { IfOk result (λ seats. seats.items ≡ empty_seats clients) }
{
    let mut seats = Vec::with_capacity(alloc, clients)?;
    for client in 0..clients {
        seats.push_reserved(Seat::new(alloc, client, rest.split_off(1, 0)));
    }
    Ok(seats)
}

impl<'c, L: Opening> Shared<'c, L> {
    /// A session at its start under a lock, and the seats of the clients from 0 on, in their order.
    /// `Err` means that memory was refused.
    pub fn new(
        alloc: Global,
        blank: Blank,
        session: Session<'c>,
        clients: usize,
    ) -> Result<(Shared<'c, L>, Vec<Seat<L>>), AllocError>
        requires name { blank.name ≡ L.name }
        requires blank { blank.parts ≡ L.parts }
        requires parts { L.parts ≡ clients }
        requires session { session ≡ opened L.program L.mode }
        ensures seats { IfOk result (λ r. r.1.items ≡ empty_seats clients) }
    {
        let code = session.code();
        let (calls, all) = blank.open::<L>();
        let seats = seats_for(alloc, all, clients)?;
        let locked = Mutex::new(Locked::new(Book::new(alloc, session), calls));
        Ok((Shared { code, locked }, seats))
    }

    /// The code of the script. It is read without the lock.
    pub fn code(&self) -> &'c Code
        ensures { result.now.program ≡ L.program }
    {
        self.code
    }

    /// Answers a request of a client, and adds the receipt to its seat: it has the number of the
    /// entry in the history, from 0. The reply is the one that a session on the script gives after
    /// the entries before it. An `Err` changes nothing: `HistoryFull` (56) if the history has
    /// 65,536 entries, or `Memory`. It may wait for the lock.
    pub fn call<R: Wait>(
        &self,
        rt: &R,
        alloc: Global,
        seat: &mut Seat<L>,
        request: &Request,
    ) -> Result<Reply, TakeFault>
        ensures ok { IfOk result (λ reply. Adds L.program L.mode seat.old request.now reply seat.new) }
        ensures err { OnErr result (seat.new ≡ seat.old) }
    {
        self.locked.lock(rt).take(alloc, seat, request)
    }

    /// Takes the book out, and returns what its history says to the receipts of the seats
    /// (`Book::audit`): `CountsDiffer` (57) is not answered if all seats are here. The book comes
    /// back in each case. Takes no memory.
    pub fn settle(self, seats: Vec<Seat<L>>) -> Result<Book<'c>, SettleFault<'c>>
        ensures settled { Settles seats.items result }
        ensures replay { IsBookOf L.program L.mode (book_in result) }
        ensures all { vec_len seats ≡ L.parts → 0 < L.parts → receipts_in seated seats.items ≡ length (book_in result).history }
    {
        let Shared { code: _, locked } = self;
        locked.into_inner().settle(seats)
    }
}
