//! The parts of keys, each kept once, by a number.

ghost use Rattle.std.specs.Prelude.{◌≡◌, ◌≤◌, [], None, Some, IfOk, IfSome, length, take, drop};
ghost use Rattle.mpd_outcomes.specs.Parts as spec;
ghost use Rattle.mpd_outcomes.specs.Parts.{number_of, numbers_of, IsNumbering, HasMoreParts};

use std::alloc::{AllocError, Global};
use std::collections::HashMap;
use std::marker::Model;

/// The parts of keys, each kept once, and their numbers. A part is what stands together in a key: a word that tells how many come after
/// it, and these.
#[derive(Drop)]
pub(crate) struct Parts {
    map: HashMap<Vec<i64>, usize>,
    /// How many words they take.
    words: usize,
}

impl Model for Parts {
    ghost use Rattle.std.specs.Prelude.{ℕ, ℤ, Vec, List};
    ghost use Rattle.std.specs.declared.alloc.Global.{Global};
    ghost use Rattle.mpd_outcomes.specs.Parts.{IsNumbering};

    ghost Value = { List (Vec ℤ Global × ℕ) };

    ghost view = { λ p. p.map.entries };

    ghost invariant = { λ p. IsNumbering p.map.entries };
}

/// How many words come after the first one in its part, if they are there.
fn words_after(first: i64) -> usize
    ensures { result ≡ spec.words_after first }
{
    if first < 0 { 0 } else { first as usize }
}

/// How many words the first part of some words has.
fn part_size(words: &[i64]) -> usize
    ensures value { result ≡ spec.part_size words.now }
    ensures within { result ≤ length words.now }
{
    let Some((first, rest)) = words.split_first() else {
        return 0;
    };
    words_after(*first).min(rest.len()) + 1
}

/// The first part of some words.
fn first_part(words: &[i64]) -> &[i64]
    ensures { result.now ≡ take (spec.part_size words.now) words.now }
{
    &words[..part_size(words)]
}

/// What comes after the first part of some words.
fn other_parts(words: &[i64]) -> &[i64]
    ensures { result.now ≡ drop (spec.part_size words.now) words.now }
{
    &words[part_size(words)..]
}

/// How many words a part takes beside its own.
const WORDS_BESIDE: usize = 8;

/// For how many parts of a key there is room at first.
const USUAL_PARTS: usize = 16;

impl Parts {
    /// No part.
    pub(crate) fn new(alloc: Global) -> Parts
        ensures { result ≡ [] }
    {
        Parts {
            map: HashMap::new(alloc),
            words: 0,
        }
    }

    /// How many words they take.
    pub(crate) fn words(&self) -> usize {
        self.words
    }

    /// The law that each part has a number of its own. It does nothing.
    pub(crate) fn numbers_are_apart(&self)
        ensures { IsNumbering self.now }
    {
        let _map = &self.map;
    }

    /// The number of a part, if it is kept.
    fn number(&self, part: &[i64]) -> Option<usize>
        ensures { result ≡ number_of self.now part.now }
    {
        self.map.get(part).copied()
    }

    /// Keeps a part that is new, by a new number. `Err` means that memory was refused.
    fn add(&mut self, part: Vec<i64>) -> Result<usize, AllocError>
        requires { number_of self.old part.items ≡ None }
        ensures more { HasMoreParts self.old self.new }
        ensures number { IfOk result (λ n. number_of self.new part.items ≡ Some n) }
    {
        let number = self.map.len();
        let words = part.len().saturating_add(WORDS_BESIDE);
        match self.map.insert(part, number) {
            Ok(_old) => {
                self.words = self.words.saturating_add(words);
                Ok(number)
            }
            Err(refused) => {
                drop(refused);
                Err(AllocError)
            }
        }
    }

    /// The number of a part, which is kept from now on. `Err` means that memory was refused.
    fn keep(&mut self, alloc: Global, part: &[i64]) -> Result<usize, AllocError>
        ensures more { HasMoreParts self.old self.new }
        ensures number { IfOk result (λ n. number_of self.new part.now ≡ Some n) }
    {
        if let Some(number) = self.number(part) {
            return Ok(number);
        }
        self.add(Vec::from_slice(alloc, part)?)
    }

    /// The numbers of the parts of a key, if all are kept and there is memory for them.
    pub(crate) fn numbers(&self, alloc: Global, key: &[i64]) -> Option<Vec<usize>>
        ensures { IfSome result (λ ns. numbers_of self.now (length key.now) key.now ≡ Some ns.items) }
    {
        let mut numbers = Vec::with_capacity(alloc, USUAL_PARTS).ok()?;
        let mut left = key;
        for _done in 0..key.len() {
            if left.is_empty() {
                return Some(numbers);
            }
            let number = self.number(first_part(left))?;
            numbers.push(number).ok()?;
            left = other_parts(left);
        }
        Some(numbers)
    }

    /// The numbers of the parts of a key, which are kept from now on. `Err` means that memory was
    /// refused.
    pub(crate) fn keep_all(&mut self, alloc: Global, key: &[i64]) -> Result<Vec<usize>, AllocError>
        ensures more { HasMoreParts self.old self.new }
        ensures numbers { IfOk result (λ ns. numbers_of self.new (length key.now) key.now ≡ Some ns.items) }
    {
        let mut numbers = Vec::with_capacity(alloc, USUAL_PARTS)?;
        let mut left = key;
        for _done in 0..key.len() {
            if left.is_empty() {
                numbers.shrink_to_fit();
                return Ok(numbers);
            }
            let number = self.keep(alloc, first_part(left))?;
            numbers.push(number)?;
            left = other_parts(left);
        }
        Ok(numbers)
    }
}
