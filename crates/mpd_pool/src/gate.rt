//! Who is told how far an exploration by pieces is.

/// Who is told how far an exploration by pieces is, by whoever explores. No contract speaks of these calls, and nothing depends on them.
pub trait Gate: Sync {
    /// There are this many pieces. Called once, before the first of them is begun.
    fn cut(&self, _pieces: usize) {}

    /// A piece is about to be computed.
    fn begin(&self, piece: usize);

    /// A leaf of some piece was found.
    fn leaf(&self) {}

    /// A piece is computed, or memory was refused for it.
    fn end(&self, _piece: usize) {}

    /// No more calls will come. Who explores and then writes a report calls it between the two.
    fn done(&self) {}
}

/// Tells nobody.
#[derive(Clone, Copy)]
pub struct Ungated;

impl Gate for Ungated {
    fn begin(&self, _piece: usize) {}
}
