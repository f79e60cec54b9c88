//! What was found of states, by the numbers of the parts of their keys.

ghost use Rattle.std.specs.Prelude.{◌≡◌, ℤ, List, [], IfOk, IfSome, Some, length};
ghost use Rattle.mpd_outcomes.specs.Parts.{found_in, numbers_of};
ghost use Rattle.mpd_outcomes.specs.Table.{KeepsAPartIn, KeepsLessIn, KeepsAboveIn};

use crate::parts::Parts;
use crate::table::Found;
use std::alloc::{AllocError, Global};
use std::collections::HashMap;
use std::marker::Model;

/// What was found of states, by their keys. A key is kept as the numbers of its parts, since many keys have the same parts.
#[derive(Drop)]
pub(crate) struct Store {
    parts: Parts,
    kept: HashMap<Vec<usize>, Found>,
}

impl Model for Store {
    ghost use Rattle.mpd_outcomes.specs.Parts.{StoreView, IsNumbered};

    ghost Value = { StoreView };

    ghost view = { λ s. record { parts = s.parts; kept = s.kept.entries } };

    ghost invariant = { λ s. IsNumbered s.parts s.kept.entries };
}

/// How many words a state takes beside the numbers of its key's parts and its counts.
const WORDS_BESIDE: usize = 16;

/// How many words a state takes.
fn words_of(key: &[usize], found: &Found) -> usize {
    let counts = found.tally.counts.len().saturating_mul(2);
    key.len()
        .saturating_add(counts)
        .saturating_add(WORDS_BESIDE)
}

impl Store {
    /// Nothing that was found.
    pub(crate) fn new(alloc: Global) -> Store
        ensures parts { result.parts ≡ [] }
        ensures kept { result.kept ≡ [] }
    {
        Store {
            parts: Parts::new(alloc),
            kept: HashMap::new(alloc),
        }
    }

    /// Of how many states something was found.
    pub(crate) fn len(&self) -> usize {
        self.kept.len()
    }

    /// How many words all parts take.
    pub(crate) fn part_words(&self) -> usize {
        self.parts.words()
    }

    /// What was found of the state of a key. If memory is refused for the numbers of its parts, it
    /// isn't looked for.
    pub(crate) fn find(&self, alloc: Global, key: &[i64]) -> Option<&Found>
        ensures { IfSome result (λ found. found_in self.now key.now ≡ Some found.now) }
    {
        let numbers = self.parts.numbers(alloc, key)?;
        self.kept.get(&numbers)
    }

    /// The numbers of the parts of a key, which are kept from now on. `Err` means that memory was
    /// refused.
    fn number_parts(&mut self, alloc: Global, key: &[i64]) -> Result<Vec<usize>, AllocError>
        ensures less { KeepsLessIn self.old self.new }
        ensures numbers { IfOk result (λ ns. numbers_of self.new.parts (length key.now) key.now ≡ Some ns.items) }
    {
        self.parts.keep_all(alloc, key)
    }

    /// Puts what was found of a state there, by the numbers of the parts of its key. `Err` means
    /// that memory was refused.
    fn put_by(&mut self, numbers: Vec<usize>, found: Found) -> Result<(), AllocError>
        requires { (key : List ℤ) × (numbers_of self.old.parts (length key) key ≡ Some numbers.items) }
        ensures { (key : List ℤ) → numbers_of self.old.parts (length key) key ≡ Some numbers.items → KeepsAPartIn self.old key found self.new }
    {
        self.parts.numbers_are_apart();
        match self.kept.insert(numbers, found) {
            Ok(old) => {
                drop(old);
                Ok(())
            }
            Err(refused) => {
                drop(refused);
                Err(AllocError)
            }
        }
    }

    /// Puts what was found of the state of a key there, and returns how many words that takes.
    /// `Err` means that memory was refused.
    pub(crate) fn put(
        &mut self,
        alloc: Global,
        key: &[i64],
        found: Found,
    ) -> Result<usize, AllocError>
        ensures { KeepsAPartIn self.old key.now found self.new }
    {
        let before = self.part_words();
        let numbers = match self.number_parts(alloc, key) {
            Ok(numbers) => numbers,
            Err(fault) => {
                drop(found);
                return Err(fault);
            }
        };
        let words = words_of(&numbers, &found);
        self.put_by(numbers, found)?;
        let of_parts = self.part_words().saturating_sub(before);
        Ok(words.saturating_add(of_parts))
    }

    /// Drops what was found of the states that don't exceed this height. Their parts stay.
    pub(crate) fn drop_low(&mut self, height: usize)
        ensures { KeepsAboveIn height self.old self.new }
    {
        self.kept.retain(|_, found| found.height > height);
    }

    /// The height of the highest state.
    pub(crate) fn highest(&self) -> usize {
        let mut highest = 0;
        for found in self.kept.values() {
            highest = highest.max(found.height);
        }
        highest
    }

    /// How many states don't exceed this height.
    pub(crate) fn count_low(&self, height: usize) -> usize {
        let mut count = 0usize;
        for found in self.kept.values() {
            if found.height <= height {
                count = count.saturating_add(1);
            }
        }
        count
    }

    /// How many words all of it takes.
    pub(crate) fn words(&self) -> usize {
        let mut words = self.parts.words();
        for (key, found) in self.kept.iter() {
            words = words.saturating_add(words_of(key, found));
        }
        words
    }
}
