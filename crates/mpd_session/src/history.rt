//! What is kept of the requests of a session: in its history, and by each client.

ghost use Rattle.std.specs.Prelude.{◌≡◌};
ghost use Rattle.mpd_session.specs.History.{Noted, noted};

use crate::reply::Reply;
use crate::request::Request;

/// How many entries a history has at most (docs/SESSIONS.md, "Several clients").
pub const HISTORY_MAX: usize = 65_536;

/// A request that was answered, as the history has it.
#[derive(Drop)]
pub struct Entry {
    /// Who asked.
    pub client: usize,
    /// What was asked.
    pub request: Request,
    /// What was replied.
    pub reply: Reply,
}

/// A request that was answered, as its client keeps it.
#[derive(Drop)]
pub struct Receipt {
    /// The number of its entry, from 0.
    pub entry: usize,
    /// What was asked.
    pub request: Request,
    /// What was replied.
    pub reply: Reply,
}

/// The receipts that one client kept, in the order of its requests.
#[derive(Drop)]
pub struct Log {
    /// Whose they are.
    pub client: usize,
    /// What it kept.
    pub receipts: Vec<Receipt>,
}

/// What has a log of receipts, as each client of a shared session has.
pub trait Logged {
    /// What the log keeps.
    ghost logged: { Self → Noted };

    /// Its receipts, with their client.
    fn log(&self) -> &Log
        ensures { noted result.now ≡ logged self.now };
}

impl Logged for Log {
    ghost use Rattle.mpd_session.specs.History.{noted};

    ghost logged = { noted };

    fn log(&self) -> &Log {
        self
    }
}
