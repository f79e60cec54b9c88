//! How runs end, in a word.

ghost use Rattle.std.specs.Prelude.{◌≡◌, ◌≤◌, length};
ghost use Rattle.std.specs.Option.{option_map};
ghost use Rattle.mpd_runs.specs.Ways as spec;

use mpd_explore::{Ending, SearchLeaf};
use mpd_model::Outcome;

/// How a run ends, in a word.
#[derive(Clone, Copy)]
pub enum Way {
    Done,
    Leftovers,
    Deadlock,
    Trap,
    Cut,
}

/// All ways to end, in the order in which they are counted.
pub const WAYS: [Way; 5] = [
    Way::Done,
    Way::Leftovers,
    Way::Deadlock,
    Way::Trap,
    Way::Cut,
];

impl Way {
    /// The word: `done`, `leftovers`, `deadlock`, `trap` or `cut`.
    pub fn name(self) -> &'static str {
        match self {
            Way::Done => "done",
            Way::Leftovers => "leftovers",
            Way::Deadlock => "deadlock",
            Way::Trap => "trap",
            Way::Cut => "cut",
        }
    }
}

/// How a run ends.
fn way_of(ending: &Ending) -> Way
    ensures { result ≡ spec.way_of ending.now }
{
    match ending {
        Ending::Cut => Way::Cut,
        Ending::Ended(Outcome::Done) => Way::Done,
        Ending::Ended(Outcome::Leftovers(_)) => Way::Leftovers,
        Ending::Ended(Outcome::Deadlock(_)) => Way::Deadlock,
        Ending::Ended(Outcome::Trap(_)) => Way::Trap,
    }
}

/// Whether two words are one.
fn same_way(one: Way, other: Way) -> bool
    ensures { result ≡ spec.same_way one other }
{
    match (one, other) {
        (Way::Done, Way::Done) => true,
        (Way::Leftovers, Way::Leftovers) => true,
        (Way::Deadlock, Way::Deadlock) => true,
        (Way::Trap, Way::Trap) => true,
        (Way::Cut, Way::Cut) => true,
        _ => false,
    }
}

/// Whether a run ends in a way.
pub(crate) fn ends_in(way: Way, leaf: &SearchLeaf) -> bool
    ensures { result ≡ spec.ends_in way leaf.now }
{
    same_way(way, way_of(&leaf.ending))
}

/// How many runs end in a way.
pub(crate) fn count_in(way: Way, leaves: &[SearchLeaf]) -> usize
    ensures value { result ≡ spec.count_in way leaves.now }
    ensures bound { result ≤ length leaves.now }
{
    let mut count = 0;
    for leaf in leaves {
        if ends_in(way, leaf) {
            count += 1;
        }
    }
    count
}

/// The first run that ends in a way.
pub(crate) fn first_in(way: Way, leaves: &[SearchLeaf]) -> Option<&SearchLeaf>
    ensures { option_map (λ l. l.now) result ≡ spec.first_in way leaves.now }
{
    for leaf in leaves {
        if ends_in(way, leaf) {
            return Some(leaf);
        }
    }
    None
}
