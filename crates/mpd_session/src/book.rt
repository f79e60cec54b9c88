//! A session with the history of its requests.

ghost use Rattle.std.specs.Prelude.{ℕ, ◌≡◌, ◌≢◌, ◌↔◌, ◌<◌, ◌≤◌, [], ◌∷◌, ◌++◌, length, IfOk, OnOk, OnErr, IsOk, IsErrOf, true};
ghost use Rattle.mpd_session.specs.Copies.{holds_list};
ghost use Rattle.mpd_session.specs.Held.{opened};
ghost use Rattle.mpd_session.specs.Respond.{respond};
ghost use Rattle.mpd_session.specs.History.{IsReplay};
ghost use Rattle.mpd_session.specs.Audit.{Agrees, HasReceipt, receipts_in};
ghost use Rattle.mpd_session.specs.FaultNumbers.{take_fault_number};

use crate::audit::{AuditFault, agrees, has_count};
use crate::history::{Entry, HISTORY_MAX, Logged, Receipt};
use crate::reply::Reply;
use crate::request::Request;
use crate::session::Session;
use std::alloc::{AllocError, Global};
use std::marker::Model;

/// Why a book has not taken a request, which leaves it as it was.
#[derive(Clone, Copy)]
pub enum TakeFault {
    /// The history has 65,536 entries (56).
    HistoryFull,
    /// Memory was refused.
    Memory,
}

impl TakeFault {
    /// Its number, as docs/SESSIONS.md lists them; 0 for refused memory, which has none.
    pub fn number(self) -> u8
        ensures { result ≡ take_fault_number self }
    {
        match self {
            TakeFault::HistoryFull => 56,
            TakeFault::Memory => 0,
        }
    }
}

impl From<AllocError> for TakeFault {
    ghost use Rattle.mpd_session.specs.declared.book.TakeFault.TheVariants.{Memory};

    ghost from_gives = { λ _ fault. fault ≡ Memory };

    fn from(_: AllocError) -> TakeFault {
        TakeFault::Memory
    }
}

/// Two copies of a reply. `Err` means that memory was refused, which happens only if the reply
/// holds a list.
fn two_copies(alloc: Global, reply: &Reply) -> Result<(Reply, Reply), AllocError>
    ensures one { IfOk result (λ r. r.0 ≡ reply.now) }
    ensures other { IfOk result (λ r. r.1 ≡ reply.now) }
    ensures memory { OnErr result (holds_list reply.now ≡ true) }
{
    let one = reply.copy(alloc)?;
    match reply.copy(alloc) {
        Ok(other) => Ok((one, other)),
        Err(fault) => {
            drop(one);
            Err(fault)
        }
    }
}

/// A session, and its history: each request that it has answered, with its client and the reply. The session is the replay of the
/// history, from the opening one on its script; contracts see both.
#[derive(Drop)]
pub struct Book<'c> {
    session: Session<'c>,
    history: Vec<Entry>,
}

impl<'c> Model for Book<'c> {
    ghost use Rattle.std.specs.Prelude.{◌≤◌, length};
    ghost use Rattle.mpd_session.specs.declared.history.TheConstants.{HISTORY_MAX};
    ghost use Rattle.mpd_session.specs.History.{IsReplay, Kept, kept_code};

    ghost Value = { Kept };

    ghost coded = { kept_code };

    ghost view = { λ b. record { session = b.session; history = b.history.items } };

    ghost invariant = { λ b. IsReplay b.history.items b.session × (length b.history.items ≤ HISTORY_MAX) };
}

impl<'c> Book<'c> {
    /// A book whose history is empty, with a session that has answered nothing.
    pub fn new(alloc: Global, session: Session<'c>) -> Book<'c>
        requires { session ≡ opened session.trail.program session.trail.mode }
        ensures session { result.session ≡ session.entry }
        ensures history { result.history ≡ [] }
    {
        Book {
            session,
            history: Vec::new(alloc),
        }
    }

    /// How many entries the history has, 0 to 65,536.
    pub fn len(&self) -> usize
        ensures value { result ≡ length self.now.history }
        ensures few { result ≤ HISTORY_MAX }
        ensures replay { IsReplay self.now.history self.now.session }
    {
        self.history.len()
    }

    /// Answers a request of a client, and adds it to the history: `HistoryFull` (56) exactly if
    /// that has 65,536 entries. The receipt, the entry and the answer have the same reply. An `Err`
    /// changes nothing.
    #[tactic(auto, using(crate::proofs::BookLemmas::taking))]
    pub fn take(
        &mut self,
        alloc: Global,
        client: usize,
        request: &Request,
    ) -> Result<(Receipt, Reply), TakeFault>
        ensures reply { IfOk result (λ r. r.1 ≡ (respond self.old.session request.now).0) }
        ensures receipt { IfOk result (λ r. r.0 ≡ record { entry = length self.old.history; request = request.now; reply = r.1 }) }
        ensures history { IfOk result (λ r. self.new.history ≡ self.old.history ++ record { client = client; request = request.now; reply = r.1 } ∷ []) }
        ensures session { OnOk result (self.new.session ≡ (respond self.old.session request.now).1) }
        ensures replay { IsReplay self.old.history self.old.session }
        ensures full { IsErrOf result TakeFault.HistoryFull ↔ (length self.old.history ≡ HISTORY_MAX) }
        ensures err { OnErr result (self.new ≡ self.old) }
    {
        let entry = self.len();
        if entry >= HISTORY_MAX {
            return Err(TakeFault::HistoryFull);
        }
        self.history.reserve(1)?;
        let reply = self.session.answer(alloc, request)?;
        match two_copies(alloc, &reply) {
            Ok((noted, kept)) => {
                self.history.push_reserved(Entry {
                    client,
                    request: *request,
                    reply: noted,
                });
                let receipt = Receipt {
                    entry,
                    request: *request,
                    reply: kept,
                };
                Ok((receipt, reply))
            }
            Err(_) => {
                drop(reply);
                Err(TakeFault::Memory)
            }
        }
    }

    /// What the history says to the receipts that its clients kept, in logs of one client each
    /// (docs/DEFINITIONS.md, "Sessions"). `Ok` exactly if all logs have together as many receipts
    /// as the history has entries, the receipts of each log are of entries under its client, with
    /// their requests and replies, in the order of the history, and no entry has receipts in two
    /// logs: so each entry has one receipt. Else `CountsDiffer` (57) where there are more receipts
    /// than entries, or fewer, and `ReceiptDiffers` (58) where there are as many. Entries are
    /// numbered from 0. It takes no memory: each receipt is looked at twice, and any two logs are
    /// walked along side by side.
    pub fn audit<T: Logged>(&self, logs: &[T]) -> Result<(), AuditFault>
        ensures ok { IsOk result ↔ ((receipts_in T.logged logs.now ≡ length self.now.history) × Agrees T.logged self.now.history logs.now) }
        ensures each { OnOk result ((n : ℕ) → n < length self.now.history → HasReceipt T.logged logs.now n) }
        ensures counts { IsErrOf result AuditFault.CountsDiffer ↔ (receipts_in T.logged logs.now ≢ length self.now.history) }
    {
        if !has_count(logs, self.history.len()) {
            return Err(AuditFault::CountsDiffer);
        }
        if agrees(&self.history, logs) {
            Ok(())
        } else {
            Err(AuditFault::ReceiptDiffers)
        }
    }
}
