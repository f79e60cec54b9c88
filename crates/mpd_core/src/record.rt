//! What takes a step back. No record holds a collection, nor its step.

use mpd_match::PairRecord;
use mpd_rank::{LocalRecord, WakeRecord};

/// What takes a step back that isn't local. It takes 64 bytes.
#[derive(Clone, Copy)]
pub enum OtherRecord {
    /// Where the calls of the pair stood.
    Matched(PairRecord),
    /// The rank that went on, and what was overwritten.
    Woke { rank: usize, was: WakeRecord },
    /// All ranks went on from a barrier: each is blocked again.
    Released,
}

const _: () = prove!(size_of::<OtherRecord>() == 64);

/// What takes any step back.
#[derive(Clone, Copy)]
pub enum Record {
    /// A local step, of a rank.
    Local { rank: usize, done: LocalRecord },
    Other(OtherRecord),
}
