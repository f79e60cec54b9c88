//! Why clients were not served to the end.

use mpd_session::AuditFault;
use std::io::Error;

/// Why clients were not served to the end.
#[derive(Drop)]
pub enum HostFault {
    /// Memory for the session, its seats or its lists was refused, before anything was written.
    Memory,
    /// The listener has not told its port. Nothing was written.
    NoPort(Error),
    /// A write failed (46).
    WriteFailed,
    /// A client was not accepted. Those before it were served to their end.
    NotAccepted(Error),
    /// The receipts of the clients don't agree with the history (57 or 58).
    Settle(AuditFault),
}
