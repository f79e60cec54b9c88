//! A seat of a shared session, as a desk.

ghost use Rattle.std.specs.Prelude.{◌≡◌};

use crate::opening::Opening;
use crate::seat::Seat;
use crate::shared::Shared;
use crate::{Desk, DeskFault, Reply, Request, TakeFault};
use std::alloc::Global;
use std::sync::Wait;

/// A seat of a shared session, which answers requests by it, with the leave to wait for its lock.
#[derive(Drop)]
pub struct SeatDesk<'s, 'c, L: Opening, R: Wait> {
    shared: &'s Shared<'c, L>,
    seat: Seat<L>,
    rt: &'s R,
}

impl<'s, 'c, L: Opening, R: Wait> SeatDesk<'s, 'c, L, R> {
    /// A desk that answers the requests of one seat. It waits for the lock of the session by `rt`.
    pub fn new(rt: &'s R, shared: &'s Shared<'c, L>, seat: Seat<L>) -> SeatDesk<'s, 'c, L, R>
        ensures { result.seat ≡ seat }
    {
        SeatDesk { shared, seat, rt }
    }

    /// Returns the seat.
    pub fn into_seat(self) -> Seat<L>
        ensures { result ≡ self.entry.seat }
    {
        let SeatDesk { seat, .. } = self;
        seat
    }
}

impl<'s, 'c, L: Opening, R: Wait> Desk for SeatDesk<'s, 'c, L, R> {
    ghost use Rattle.std.specs.Prelude.{⊤};
    ghost use Rattle.mpd_session.specs.Receipts.{Adds};

    ghost asks = { λ s q r t. Adds L.program L.mode s.seat q r t.seat };

    // no seat tells how many entries the history has
    ghost is_full = { λ s. ⊤ };

    fn ask(&mut self, alloc: Global, request: &Request) -> Result<Reply, DeskFault> {
        match self.shared.call(self.rt, alloc, &mut self.seat, request) {
            Ok(reply) => Ok(reply),
            Err(TakeFault::HistoryFull) => Err(DeskFault::HistoryFull),
            Err(TakeFault::Memory) => Err(DeskFault::Memory),
        }
    }
}
