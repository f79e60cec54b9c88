//! What answers requests.

ghost use Rattle.std.specs.Prelude.{◌≡◌, IfOk, OnErr, IsErrOf};
ghost use Rattle.mpd_session.specs.declared.request.Request.{Request};
ghost use Rattle.mpd_session.specs.declared.reply.Reply.{Reply};
ghost use Rattle.mpd_session.specs.RefusalNumbers.{desk_fault_number};

use crate::reply::Reply;
use crate::request::Request;
use std::alloc::Global;

/// Why a desk has not taken a request, which leaves it as it was.
#[derive(Clone, Copy)]
pub enum DeskFault {
    /// The history of the desk is full (56).
    HistoryFull,
    /// Memory was refused.
    Memory,
}

impl DeskFault {
    /// Its number, as docs/SESSIONS.md lists them; 0 for refused memory, which has none.
    pub fn number(self) -> u8
        ensures { result ≡ desk_fault_number self }
    {
        match self {
            DeskFault::HistoryFull => 56,
            DeskFault::Memory => 0,
        }
    }
}

/// What answers requests, one after another. A request that isn't taken leaves it as it was.
pub trait Desk {
    /// The desk before, the request, the reply, and the desk after.
    ghost asks: { Self → Request → Reply → Self → Type 0 };

    /// What is so of a desk that says that its history is full.
    ghost is_full: { Self → Type 0 };

    /// Takes a request, and replies to it; an `Err` leaves the desk as it was. `HistoryFull` (56) comes only from a desk whose history
    /// may be full.
    fn ask(&mut self, alloc: Global, request: &Request) -> Result<Reply, DeskFault>
        ensures ok { IfOk result (λ reply. asks self.old request.now reply self.new) }
        ensures full { IsErrOf result DeskFault.HistoryFull → is_full self.old }
        ensures err { OnErr result (self.new ≡ self.old) };
}
