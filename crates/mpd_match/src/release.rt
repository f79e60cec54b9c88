//! Leaving a barrier (MPI 4.0, section 6.3).
ghost use Rattle.std.specs.Prelude.{◌≡◌, ◌+◌, ◌≤◌, Some};
ghost use Rattle.mpd_model.specs.steps.Next.{with_set};
ghost use Rattle.mpd_match.specs.Changes.{without_last_set, last_set};

use crate::board::Board;
use mpd_model::MatchSet;

impl Board {
    /// Notes that all ranks left the barrier that they were blocked on (MPI 4.0, section 6.3). This
    /// pairs no call, and none leaves its line. `unreleased` restores the board.
    pub fn released(&mut self)
        requires { 1 ≤ self.old.room }
        ensures board { self.new.board ≡ with_set self.old.board MatchSet.Barrier }
        ensures last { last_set self.new.board ≡ Some MatchSet.Barrier }
        ensures back { without_last_set self.new.board ≡ self.old.board }
        ensures room { self.old.room ≤ self.new.room + 1 }
        ensures writes { self.new.writes ≡ self.old.writes + 1 }
    {
        self.add_set(MatchSet::Barrier);
    }

    /// Takes back the last match set, which must be a release. One write.
    pub fn unreleased(&mut self)
        requires { last_set self.old.board ≡ Some MatchSet.Barrier }
        ensures board { self.new.board ≡ without_last_set self.old.board }
        ensures room { self.old.room ≤ self.new.room }
        ensures writes { self.new.writes ≡ self.old.writes + 1 }
    {
        self.drop_set();
    }
}
