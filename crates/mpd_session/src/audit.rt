//! What a history says to the receipts that its clients kept.

ghost use Rattle.std.specs.Prelude.{◌≡◌, ◌≢◌, ◌≤◌, ◌<◌, length, take};
ghost use Rattle.std.specs.List.{All, AllPairs, HoldsAt};
ghost use Rattle.std.specs.Bool.{Decides};
ghost use Rattle.mpd_session.specs.History.{noted};
ghost use Rattle.mpd_session.specs.Audit.{IsOf, IsRising, IsApart, IsKept, Agrees, receipts_in};
ghost use Rattle.mpd_session.specs.FaultNumbers.{audit_fault_number};

use crate::history::{Entry, Log, Logged, Receipt};
use crate::same::{same_reply, same_request};

/// Why the receipts of clients don't agree with a history (docs/DEFINITIONS.md, "Sessions"). The first of these that holds is told.
#[derive(Clone, Copy)]
pub enum AuditFault {
    /// All logs have together more or fewer receipts than the history has entries (57).
    CountsDiffer,
    /// A receipt is of no entry under its client, or stands after one of its log whose entry isn't
    /// before its own, or its entry has a receipt in another log (58).
    ReceiptDiffers,
}

impl AuditFault {
    /// Its number, 57 or 58, as docs/FORMATS.md, "Numbers of refusals", lists them.
    pub fn number(self) -> u8
        ensures { result ≡ audit_fault_number self }
    {
        match self {
            AuditFault::CountsDiffer => 57,
            AuditFault::ReceiptDiffers => 58,
        }
    }
}

/// Whether all logs have `count` receipts together.
pub(crate) fn has_count<T: Logged>(logs: &[T], count: usize) -> bool
    ensures { Decides result (receipts_in T.logged logs.now ≡ count) }
{
    let mut left = count;
    for kept in logs {
        let receipts = &kept.log().receipts;
        if receipts.len() > left {
            return false;
        }
        left -= receipts.len();
    }
    left == 0
}

/// Whether a client's receipt is of an entry.
fn is_of(history: &[Entry], client: usize, receipt: &Receipt) -> bool
    ensures { Decides result (IsOf history.now client receipt.now) }
{
    match history.get(receipt.entry) {
        None => false,
        Some(entry) => {
            entry.client == client
                && same_request(&entry.request, &receipt.request)
                && same_reply(&entry.reply, &receipt.reply)
        }
    }
}

/// Whether all receipts of a client are of entries.
fn are_of(history: &[Entry], client: usize, receipts: &[Receipt]) -> bool
    ensures { Decides result (All (IsOf history.now client) receipts.now) }
{
    for receipt in receipts {
        if !is_of(history, client, receipt) {
            return false;
        }
    }
    true
}

/// Whether the entry number of each receipt is above all before it.
fn is_rising(receipts: &[Receipt]) -> bool
    ensures { Decides result (IsRising receipts.now) }
{
    for place in 1..receipts.len() {
        if receipts[place].entry <= receipts[place - 1].entry {
            return false;
        }
    }
    true
}

/// Whether the receipts of a log are of entries of its client, and rising.
fn is_kept(history: &[Entry], log: &Log) -> bool
    ensures { Decides result (IsKept history.now (noted log.now)) }
{
    are_of(history, log.client, &log.receipts) && is_rising(&log.receipts)
}

/// Whether this holds of all logs.
fn are_kept<T: Logged>(history: &[Entry], logs: &[T]) -> bool
    ensures { Decides result (All (λ l. IsKept history.now (T.logged l)) logs.now) }
{
    for kept in logs {
        if !is_kept(history, kept.log()) {
            return false;
        }
    }
    true
}

/// The first place from this one on whose entry number isn't below this, if all before this place
/// have one that is; the length if there is none.
fn next_from(receipts: &[Receipt], from: usize, entry: usize) -> usize
    requires within { from ≤ length receipts.now }
    requires below { All (λ r. r.entry < entry) (take from receipts.now) }
    ensures within { result ≤ length receipts.now }
    ensures below { All (λ r. r.entry < entry) (take result receipts.now) }
    ensures there { result < length receipts.now → HoldsAt (λ r. entry ≤ r.entry) receipts.now result }
{
    for place in from..receipts.len() {
        if receipts[place].entry >= entry {
            return place;
        }
    }
    receipts.len()
}

/// Whether no receipt has this entry number, by what stands at the first place whose number isn't below it.
fn is_free(receipts: &[Receipt], place: usize, entry: usize) -> bool
    requires rising { IsRising receipts.now }
    requires below { All (λ r. r.entry < entry) (take place receipts.now) }
    requires there { place < length receipts.now → HoldsAt (λ r. entry ≤ r.entry) receipts.now place }
    ensures { Decides result (All (λ r. entry ≢ r.entry) receipts.now) }
{
    if place >= receipts.len() {
        return true;
    }
    receipts[place].entry != entry
}

/// Whether no entry has receipts in both lists, which are walked along side by side.
fn is_apart(receipts: &[Receipt], others: &[Receipt]) -> bool
    requires rising { IsRising receipts.now }
    requires others { IsRising others.now }
    ensures { Decides result (IsApart receipts.now others.now) }
{
    let mut next = 0;
    for receipt in receipts {
        next = next_from(others, next, receipt.entry);
        if !is_free(others, next, receipt.entry) {
            return false;
        }
    }
    true
}

/// Whether no entry has a receipt in one of these logs and among these receipts.
fn are_before<T: Logged>(logs: &[T], receipts: &[Receipt]) -> bool
    requires logs { All (λ l. IsRising (T.logged l).receipts) logs.now }
    requires rising { IsRising receipts.now }
    ensures { Decides result (All (λ l. IsApart (T.logged l).receipts receipts.now) logs.now) }
{
    for kept in logs {
        if !is_apart(&kept.log().receipts, receipts) {
            return false;
        }
    }
    true
}

/// Whether no entry has receipts in two logs.
fn are_apart<T: Logged>(logs: &[T]) -> bool
    requires { All (λ l. IsRising (T.logged l).receipts) logs.now }
    ensures { Decides result (AllPairs (λ l m. IsApart (T.logged l).receipts (T.logged m).receipts) logs.now) }
{
    for place in 0..logs.len() {
        if !are_before(&logs[..place], &logs[place].log().receipts) {
            return false;
        }
    }
    true
}

/// Whether the receipts of clients agree with a history.
pub(crate) fn agrees<T: Logged>(history: &[Entry], logs: &[T]) -> bool
    ensures { Decides result (Agrees T.logged history.now logs.now) }
{
    are_kept(history, logs) && are_apart(logs)
}
