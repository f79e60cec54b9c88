//! How a shared session is settled.

ghost use Rattle.std.specs.Prelude.{◌≡◌};
ghost use Rattle.mpd_session.specs.Settled.{settle_fault_number};

use crate::Book;

/// Why a shared session does not settle. The book is handed back.
#[derive(Drop)]
pub enum SettleFault<'c> {
    /// All seats have together more or fewer receipts than the history has entries (57).
    CountsDiffer(Book<'c>),
    /// There are as many, but a receipt is of no entry of its client, or not in its order, or its entry has another (58).
    ReceiptDiffers(Book<'c>),
}

impl<'c> SettleFault<'c> {
    /// Its number: 57 or 58 (docs/FORMATS.md, "Faults and statuses").
    pub fn number(&self) -> u8
        ensures { result ≡ settle_fault_number self.now }
    {
        match self {
            SettleFault::CountsDiffer(_) => 57,
            SettleFault::ReceiptDiffers(_) => 58,
        }
    }
}
