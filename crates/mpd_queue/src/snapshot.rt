//! The lists as contracts see them. They take no bytes.
ghost use Rattle.std.specs.Prelude.{◌≡◌, ℕ, List};
ghost use Rattle.mpd_queue.specs.InOrder.{empty_lists};
ghost use Rattle.mpd_queue.specs.Changes.{changed};

use crate::link::Link;
use std::marker::Model;
use std::snapshot::Snapshot;

/// One change of disjoint lists.
#[derive(Clone, Copy)]
pub(crate) enum Change {
    /// The item was put into the list, before `next`.
    Inserted {
        list: usize,
        item: usize,
        next: Link,
    },
    /// The item was taken out of the list.
    Removed {
        list: usize,
        item: usize,
    },
}

// The given number of empty lists, or what a change made of the lists before. A moment is made only
// to be remembered by a snapshot.
#[derive(Drop)]
struct Moment {
    before: Option<Snapshot<Snapshot<Moment>>>,
    change: Option<Change>,
    lists: usize,
}

impl Model for Moment {
    ghost use Rattle.mpd_queue.specs.History.{History};

    ghost Value = { History };

    ghost use Rattle.mpd_queue.specs.Changes.{history, length_of};

    ghost view = { history };

    ghost size = { length_of };

    ghost use Rattle.std.proofs.Common.{arith};

    ghost size_decreases = { λ a h. Prim.grind arith };
}

/// Disjoint lists in order, which only contracts can read.
#[derive(Drop)]
pub(crate) struct Shown {
    latest: Snapshot<Moment>,
}

impl Model for Shown {
    ghost use Rattle.std.specs.Prelude.{ℕ, List};

    ghost Value = { List (List ℕ) };

    ghost view = { λ s. s.latest.value.lists };
}

impl Shown {
    /// `lists` empty lists.
    pub(crate) fn empty(lists: usize) -> Shown
        ensures { result ≡ empty_lists lists }
    {
        Shown {
            latest: Snapshot::of(&Moment {
                before: None,
                change: None,
                lists,
            }),
        }
    }

    /// The lists after a change.
    pub(crate) fn after(&self, change: Change) -> Shown
        ensures { result ≡ changed change self.now }
    {
        Shown {
            latest: Snapshot::of(&Moment {
                before: Some(Snapshot::of(&self.latest)),
                change: Some(change),
                lists: 0,
            }),
        }
    }

    /// The same lists.
    pub(crate) fn copy(&self) -> Shown
        ensures { result ≡ self.now }
    {
        Shown {
            latest: Snapshot::of(&Moment {
                before: Some(Snapshot::of(&self.latest)),
                change: None,
                lists: 0,
            }),
        }
    }
}
