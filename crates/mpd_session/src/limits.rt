//! Limits of requests that stand nowhere below.

/// The last line that a script may have, which has 65,536 bytes at most.
pub const LINES_MAX: usize = 65_537;

/// The last version, which no request raises.
pub const VERSION_MAX: u64 = 18_446_744_073_709_551_615;
