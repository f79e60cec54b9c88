//! What a client holds of a shared session, and what lies under its lock.

ghost use Rattle.std.specs.Prelude.{◌≡◌, ◌<◌, ◌+◌, [], ◌∷◌, ◌++◌, length, vec_len, IfOk, OnErr};
ghost use Rattle.std.proofs.Props.{props};
ghost use Rattle.mpd_model.specs.script.Program.{program_code};
ghost use Rattle.mpd_session.specs.Held.{opened};
ghost use Rattle.mpd_session.specs.History.{noted};
ghost use Rattle.mpd_session.specs.Audit.{receipts_in};
ghost use Rattle.mpd_session.specs.Receipts.{Adds, empty_seat, seated};
ghost use Rattle.mpd_session.specs.Settled.{IsBookOf, Settles, book_in};

use crate::opening::Opening;
use crate::settle::SettleFault;
use crate::{AuditFault, Book, Log, Logged, Reply, Request, TakeFault};
use std::alloc::Global;
use std::marker::Model;
use std::sync::ledger;
use std::sync::ledger::{Ledger, Share};

/// A client's place at a shared session: its receipts, and its share of the count of all calls, whose amount is their number.
/// Contracts see the client and its receipts.
#[derive(Drop)]
pub struct Seat<L: Ledger> {
    log: Log,
    share: Share<L>,
}

impl<L: Ledger> Model for Seat<L> {
    ghost use Rattle.std.specs.Prelude.{◌≡◌, length};
    ghost use Rattle.mpd_session.specs.History.{Noted, noted, noted_code};

    ghost Value = { Noted };

    ghost coded = { noted_code };

    ghost view = { λ s. noted s.log };

    ghost invariant = { λ s. (s.share.parts ≡ 1) × (s.share.amount ≡ length s.log.receipts.items) };
}

impl<L: Ledger> Seat<L> {
    /// A seat without receipts, with one part of the ledger.
    pub(crate) fn new(alloc: Global, client: usize, share: Share<L>) -> Seat<L>
        requires parts { share.parts ≡ 1 }
        requires amount { share.amount ≡ 0 }
        ensures { result ≡ empty_seat client }
    {
        let receipts = Vec::new(alloc);
        Seat {
            log: Log { client, receipts },
            share,
        }
    }

    /// Its share, whose amount is the number of its receipts.
    fn into_share(self) -> Share<L>
        ensures parts { result.parts ≡ 1 }
        ensures amount { result.amount ≡ length self.receipts }
    {
        let Seat { log: _, share } = self;
        share
    }

    /// Its receipts, with the number of its client.
    pub fn into_log(self) -> Log
        ensures { noted result ≡ self }
    {
        let Seat { log, share: _ } = self;
        log
    }
}

impl<L: Ledger> Logged for Seat<L> {
    ghost use Rattle.mpd_session.specs.Receipts.{seated};

    ghost logged = { seated };

    fn log(&self) -> &Log {
        &self.log
    }
}

/// A book, and the count of all calls, which is the length of its history.
#[derive(Drop)]
pub(crate) struct Locked<'c, L: Opening> {
    book: Book<'c>,
    calls: ledger::Book<L>,
    ghost counted: { length book.history ≡ calls.total },
    ghost program: { book.session.trail.program ≡ L.program } by { Prim.hlevel (program_code, props) },
    ghost mode: { book.session.trail.mode ≡ L.mode },
}

/// The count of all calls is the number of all receipts, if all seats are here. It does nothing
/// when it runs.
fn add_up<L: Opening>(mut calls: ledger::Book<L>, mut seats: Vec<Seat<L>>)
    ensures all { vec_len seats ≡ L.parts → 0 < L.parts → receipts_in seated seats.items ≡ calls.total }
{
    let Some(last) = seats.pop() else {
        return;
    };
    let mut all = last.into_share();
    while let Some(seat) = seats.pop() {
        all.merge(seat.into_share());
    }
    calls.audit(&mut all);
}

impl<'c, L: Opening> Locked<'c, L> {
    /// A book without entries, which is counted from here on.
    pub(crate) fn new(book: Book<'c>, calls: ledger::Book<L>) -> Locked<'c, L>
        requires history { book.history ≡ [] }
        requires calls { calls.total ≡ 0 }
        requires session { book.session ≡ opened L.program L.mode }
        ensures { result.book ≡ book.entry }
    {
        Locked { book, calls }
    }

    /// Answers a request of a client: exactly one entry of its own joins the history, and its seat gets the receipt, with the number of
    /// that entry. An `Err` changes nothing.
    pub(crate) fn take(
        &mut self,
        alloc: Global,
        seat: &mut Seat<L>,
        request: &Request,
    ) -> Result<Reply, TakeFault>
        ensures ok { IfOk result (λ reply. Adds L.program L.mode seat.old request.now reply seat.new) }
        ensures err { OnErr result (seat.new ≡ seat.old) }
        ensures entry { IfOk result (λ reply. self.new.book.history ≡ self.old.book.history ++ record { client = seat.old.client; request = request.now; reply = reply } ∷ []) }
        ensures receipt { IfOk result (λ reply. seat.new.receipts ≡ seat.old.receipts ++ record { entry = length self.old.book.history; request = request.now; reply = reply } ∷ []) }
        ensures stays { OnErr result (self.new.book ≡ self.old.book) }
    {
        seat.log.receipts.reserve(1)?;
        let Locked { book, calls } = self;
        let (receipt, reply) = book.take(alloc, seat.log.client, request)?;
        calls.add(&mut seat.share, 1);
        seat.log.receipts.push_reserved(receipt);
        Ok(reply)
    }

    /// Takes the book out, and returns what it says to all receipts.
    pub(crate) fn settle(self, seats: Vec<Seat<L>>) -> Result<Book<'c>, SettleFault<'c>>
        ensures settled { Settles seats.items result }
        ensures replay { IsBookOf L.program L.mode (book_in result) }
        ensures all { vec_len seats ≡ L.parts → 0 < L.parts → receipts_in seated seats.items ≡ length (book_in result).history }
    {
        let Locked { book, calls } = self;
        let audited = book.audit(&seats);
        add_up(calls, seats);
        match audited {
            Ok(()) => Ok(book),
            Err(AuditFault::CountsDiffer) => Err(SettleFault::CountsDiffer(book)),
            Err(AuditFault::ReceiptDiffers) => Err(SettleFault::ReceiptDiffers(book)),
        }
    }
}
