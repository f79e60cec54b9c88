//! The paths of arrows (docs/PICTURES.md, "Elements").

use crate::places::{lane_x, row_y};
use std::fmt;

/// Where a path begins, at a row of a lane.
#[derive(Clone, Copy)]
pub(crate) struct Spot {
    pub(crate) rank: usize,
    pub(crate) row: usize,
}

impl fmt::Display for Spot {
    fn fmt<W: fmt::Write>(&self, f: &mut fmt::Formatter<W>) -> fmt::Result {
        write!(f, "M{} {}", lane_x(self.rank), row_y(self.row))
    }
}

/// A bow at the left of a lane, from a row to another.
#[derive(Clone, Copy)]
pub(crate) struct Bow {
    pub(crate) rank: usize,
    pub(crate) from: usize,
    pub(crate) to: usize,
}

impl fmt::Display for Bow {
    fn fmt<W: fmt::Write>(&self, f: &mut fmt::Formatter<W>) -> fmt::Result {
        let x = lane_x(self.rank);
        let left = x - 40;
        let (from, to) = (row_y(self.from), row_y(self.to));
        write!(f, "C{left} {from} {left} {to} {x} {to}")
    }
}

/// The way of a message, from the row of its send to that of its match or its receive.
#[derive(Clone, Copy)]
pub(crate) struct Way {
    pub(crate) sender: usize,
    pub(crate) from: usize,
    pub(crate) receiver: usize,
    pub(crate) to: usize,
}

impl Way {
    /// The way of a message to its own rank.
    fn bow(self) -> Bow {
        Bow {
            rank: self.receiver,
            from: self.from,
            to: self.to,
        }
    }
}

/// The path of an arrow. To the next lane it is straight; to others it goes down beside its own
/// lane, and then between two rows, where no shape of a lane stands.
#[derive(Clone, Copy)]
pub(crate) struct ArrowPath(pub(crate) Way);

impl fmt::Display for ArrowPath {
    fn fmt<W: fmt::Write>(&self, f: &mut fmt::Formatter<W>) -> fmt::Result {
        let way = self.0;
        if way.sender == way.receiver {
            return write!(f, "{}", way.bow());
        }
        let (start, x, y) = (lane_x(way.sender), lane_x(way.receiver), row_y(way.to));
        let (above, between) = (y - 28, y - 9);
        let is_higher = way.sender < way.receiver;
        let tip = if is_higher { x - 7 } else { x + 4 };
        if way.sender.abs_diff(way.receiver) == 1 {
            return write!(f, "L{tip} {y}");
        }
        let (near, far) = if is_higher {
            (start + 80, x - 80)
        } else {
            (start - 80, x + 80)
        };
        write!(f, "L{near} {above}L{far} {between}L{tip} {y}")
    }
}

/// The path of a candidate. It hangs below the row of its send, so that it passes beside what
/// stands in the lanes between.
#[derive(Clone, Copy)]
pub(crate) struct CandidatePath(pub(crate) Way);

impl fmt::Display for CandidatePath {
    fn fmt<W: fmt::Write>(&self, f: &mut fmt::Formatter<W>) -> fmt::Result {
        let way = self.0;
        if way.sender == way.receiver {
            return write!(f, "{}", way.bow());
        }
        let (start, from) = (lane_x(way.sender), row_y(way.from) + 18);
        let (x, y) = (lane_x(way.receiver), row_y(way.to));
        write!(f, "C{start} {from} {x} {} {x} {y}", y + 18)
    }
}

/// The path from below the end of a rank, one of so many, to another that it waits for. If there
/// are more than 4, each has a height of its own, so that no arrow lies on another.
#[derive(Clone, Copy)]
pub(crate) struct WantPath {
    pub(crate) ranks: usize,
    pub(crate) rank: usize,
    pub(crate) row: usize,
    pub(crate) wanted: usize,
}

impl fmt::Display for WantPath {
    fn fmt<W: fmt::Write>(&self, f: &mut fmt::Formatter<W>) -> fmt::Result {
        let (from, to) = (lane_x(self.rank) + 12, lane_x(self.wanted) - 12);
        let top = row_y(self.row) + 72;
        let end = top + 2;
        if self.ranks > 4 {
            let low = top + 12 + 8 * self.rank.min(16);
            return write!(f, "M{from} {top}V{low}H{to}V{end}");
        }
        let low = if self.wanted < self.rank {
            top + 52
        } else {
            top + 36
        };
        write!(f, "M{from} {top}C{from} {low} {to} {low} {to} {end}")
    }
}
