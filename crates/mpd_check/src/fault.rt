//! Why a check is refused.

use mpd_lines::EngineFault;

/// Why a check is refused.
#[derive(Clone, Copy)]
pub enum CheckFault {
    /// The number of workers is not 1 to 16 (35).
    BadWorkers,
    /// There are more than 1,024 pieces (31).
    TooManyPieces,
    /// No piece has the number that is asked for; `count` is how many there are.
    NoSuchPiece { number: usize, count: usize },
    /// A write failed, or memory was refused.
    Engine(EngineFault),
}
