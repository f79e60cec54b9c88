//! Ways that runs end, each once.

ghost use Rattle.std.specs.Prelude.{◌≡◌, false, IfSome, IfNone};
ghost use Rattle.mpd_explore.specs.Ends.{has_end};
ghost use Rattle.mpd_outcomes.specs.Sums.{IsWay};
ghost use Rattle.mpd_outcomes.specs.Goals.{ends_at};

use crate::report::Goal;
use mpd_explore::{Ending, SearchLeaf, same_ending};

/// The number of the first leaf that ends so, if one does.
pub(crate) fn way_of(leaves: &[SearchLeaf], ending: &Ending) -> Option<usize>
    ensures found { IfSome result (λ number. IsWay leaves.now ending.now number) }
    ensures none { IfNone result (has_end leaves.now ending.now ≡ false) }
{
    for (number, leaf) in leaves.iter().enumerate() {
        if same_ending(&leaf.ending, ending) {
            return Some(number);
        }
    }
    None
}

/// Whether the last of some leaves ends as a search stops for.
pub(crate) fn is_goal_met(until: Option<Goal>, leaves: &[SearchLeaf]) -> bool
    ensures { result ≡ ends_at until leaves.now }
{
    match (until, leaves.last()) {
        (Some(goal), Some(leaf)) => goal.is_met(&leaf.ending),
        _ => false,
    }
}
