//! A rank, as the word `ranks` of the console tells it.

ghost use Rattle.std.specs.Prelude.{◌≡◌};
ghost use Rattle.mpd_adapter.specs.Looks as spec;

use mpd_core::Core;
use mpd_names::{MarkedStands, Marks, Stands, stands};
use std::fmt;

/// A rank and what it is doing. Its words are `rank 0 waits at line 9, 0.1 recv from 1 tag 7`.
#[derive(Clone, Copy)]
pub struct RankDoing {
    /// Which rank, from 0.
    pub rank: usize,
    /// Where it stands, if it is there.
    pub stands: Option<Stands>,
}

impl fmt::Display for RankDoing {
    fn fmt<W: fmt::Write>(&self, f: &mut fmt::Formatter<W>) -> fmt::Result {
        match self.stands {
            None => write!(f, "rank {}", self.rank),
            Some(stands) => {
                let stands = MarkedStands(stands, Marks::none());
                write!(f, "rank {}{stands}", self.rank)
            }
        }
    }
}

/// What a rank, from 0, is doing.
pub(crate) fn rank_doing(core: &Core<'_>, rank: usize) -> RankDoing
    ensures { result ≡ spec.rank_doing core.now.program core.now.world rank }
{
    RankDoing {
        rank,
        stands: stands(core, rank),
    }
}
