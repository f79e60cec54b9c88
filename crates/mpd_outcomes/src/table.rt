//! The table of states that were visited, with what was found of their runs.

ghost use Rattle.std.specs.Prelude.{◌≡◌, ◌≤◌, true, IfSome};
ghost use Rattle.mpd_outcomes.specs.Table.{found_at, serves, KeepsAPart, KeepsAbove, KeepsLess, NothingKept};

use crate::store::Store;
use crate::sums::Tally;
use mpd_model::STEPS_MAX;
use std::alloc::Global;
use std::mem;

/// What was found of the runs from a state with some fuel: how many end in each way, and how many
/// steps the longest has, one more than the fuel if it is cut.
#[derive(Drop)]
pub(crate) struct Found {
    pub(crate) fuel: usize,
    pub(crate) height: usize,
    pub(crate) tally: Tally,
}

/// How many words a table keeps at most, of 8 bytes each: 1 GiB in all.
const ROOM: usize = 134_217_728;

/// How many words a state or a part of a key takes at most beside its own.
const WORDS_BESIDE: usize = 16;

/// What was found of states, by their keys: at most a given number of states, in at most a given
/// number of words.
#[derive(Drop)]
pub(crate) struct Table {
    pub(crate) store: Store,
    pub(crate) most: usize,
    pub(crate) room: usize,
}

impl Found {
    /// Whether the entry holds with this much fuel: the fuel is the same, or no run was cut and it
    /// is enough for the longest.
    fn serves(&self, fuel: usize) -> bool
        requires { fuel ≤ STEPS_MAX }
        ensures { result ≡ serves self.now fuel }
    {
        (self.fuel == fuel && self.height <= fuel + 1)
            || (self.height <= self.fuel && self.height <= fuel)
    }
}

/// How many words a state takes at most, if all parts of its key are new.
fn words_at_most(key: &[i64], found: &Found) -> usize {
    let counts = found.tally.counts.len().saturating_mul(2);
    let parts = key.len().saturating_mul(WORDS_BESIDE);
    parts.saturating_add(counts).saturating_add(WORDS_BESIDE)
}

impl Table {
    /// A table that keeps nothing yet.
    pub(crate) fn new(alloc: Global, most: usize) -> Table
        ensures { NothingKept result }
    {
        Table {
            store: Store::new(alloc),
            most,
            room: ROOM,
        }
    }

    /// What was found of the state of a key, if it holds with this much fuel.
    pub(crate) fn recall(&self, key: &Vec<i64>, fuel: usize) -> Option<&Found>
        requires { fuel ≤ STEPS_MAX }
        ensures found { IfSome result (λ found. found_at self.now key.now ≡ Some found.now) }
        ensures serves { IfSome result (λ found. serves found.now fuel ≡ true) }
    {
        let found = self.store.find(*key.allocator(), key)?;
        if found.serves(fuel) {
            Some(found)
        } else {
            None
        }
    }

    /// Whether there is room for a state of `words` more words.
    fn has_room(&self, words: usize) -> bool {
        self.store.len() < self.most && words <= self.room
    }

    /// Whether the parts of keys alone take more than half of the room.
    fn has_many_parts(&self) -> bool {
        self.store.part_words() > ROOM / 2
    }

    /// The least height that half of the states, or more, don't exceed.
    fn middle_height(&self) -> usize {
        let half = self.store.len().div_ceil(2);
        let mut least = 0;
        let mut most = self.store.highest();
        while least < most {
            let middle = least + (most - least) / 2;
            if self.store.count_low(middle) < half {
                least = middle + 1;
            } else {
                most = middle;
            }
        }
        least
    }

    /// Drops the states that don't exceed this height, and gives back their room. The parts of their keys stay.
    fn drop_low(&mut self, height: usize)
        ensures { KeepsAbove height self.old self.new }
    {
        self.store.drop_low(height);
        self.room = ROOM.saturating_sub(self.store.words());
    }

    /// Drops the half of the states with the least height, or somewhat more if many have the same:
    /// a high one spares the longest search.
    fn drop_half(&mut self)
        ensures { KeepsLess self.old self.new }
    {
        let height = self.middle_height();
        self.drop_low(height);
    }

    /// Whether there is room for a state of `words` more words. If there is none, the half of the
    /// states with the least height is dropped first; or all that is kept, if the parts of keys
    /// take most of the room.
    fn make_room(&mut self, alloc: Global, words: usize) -> bool
        ensures { KeepsLess self.old self.new }
    {
        if self.has_room(words) {
            return true;
        }
        if self.has_many_parts() {
            self.give_up(alloc);
        } else {
            self.drop_half();
        }
        self.has_room(words)
    }

    /// Gives up all that it keeps, and the memory of that.
    pub(crate) fn give_up(&mut self, alloc: Global)
        ensures { NothingKept self.new }
    {
        drop(mem::replace(&mut self.store, Store::new(alloc)));
        self.room = ROOM;
    }

    /// Puts a state there. If memory is refused, the table gives up all that it keeps.
    fn put(&mut self, alloc: Global, key: &Vec<i64>, found: Found)
        ensures { KeepsAPart self.old key.now found self.new }
    {
        match self.store.put(alloc, key, found) {
            Ok(words) => self.room = self.room.saturating_sub(words),
            Err(_fault) => self.give_up(alloc),
        }
    }

    /// Keeps what was found of the state of a key. A full table drops its low half, and if that
    /// isn't enough, the state is left out. If memory is refused, the table gives up all that it
    /// keeps.
    pub(crate) fn keep(&mut self, alloc: Global, key: Vec<i64>, found: Found)
        ensures { KeepsAPart self.old key found self.new }
    {
        if self.make_room(alloc, words_at_most(&key, &found)) {
            self.put(alloc, &key, found);
        } else {
            drop(found);
        }
        drop(key);
    }
}
