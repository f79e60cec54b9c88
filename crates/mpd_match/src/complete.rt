//! When calls are complete (MPI 4.0, sections 3.4, 3.7.3, 3.7.5 and 6.3).
ghost use Rattle.std.specs.Prelude.{◌≡◌};
ghost use Rattle.mpd_model.specs.steps.World.{is_done, awaited, complete};

use crate::board::Board;
use crate::kinds;
use mpd_model::CallId;

impl Board {
    /// Whether a send or a receive is done: paired, or buffered as it was issued, which no synchronous send is (MPI 4.0,
    /// section 3.4).
    pub fn is_done(&self, id: CallId) -> bool
        ensures { result ≡ is_done self.now.board id }
    {
        self.partner(id).is_some() || kinds::is_buffered(self.kind(id))
    }

    /// The call that a rank waits for while it is blocked on this one, if it waits for one.
    pub fn awaited(&self, id: CallId) -> Option<CallId>
        ensures { result ≡ awaited self.now.board id }
    {
        kinds::awaited_by(id, self.kind(id))
    }

    /// Whether a call is complete (MPI 4.0, sections 3.4, 3.7.3 and 3.7.5). A barrier never is: its rank goes on as all ranks do
    /// (MPI 4.0, section 6.3). Nor is a waitany for a request: its rank goes on by the request that is chosen.
    pub fn is_complete(&self, id: CallId) -> bool
        ensures { result ≡ complete self.now.board id }
    {
        let kind = self.kind(id);
        if kinds::has_own_step(kind) {
            return false;
        }
        match kinds::awaited_by(id, kind) {
            None => true,
            Some(awaited) => self.is_done(awaited),
        }
    }
}
