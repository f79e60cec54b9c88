//! What taking a pair back needs.

use mpd_queue::Spot;

/// Where the calls of a pair were in the lists of free calls before they were paired. It takes
/// eight bytes.
#[derive(Clone, Copy)]
pub struct PairRecord {
    pub send_spot: Spot,
    pub recv_spot: Spot,
}
