//! A list that grows and shrinks at its end, and counts its writes.
ghost use Rattle.std.specs.Prelude.{◌≡◌, ℕ, ◌+◌, ◌<◌, ◌≤◌, [], ◌∷◌, ◌++◌, length, option_to_list, replicate, slice_get, slice_set, IsOk, IfOk, IfSome, IfNone, OnOk, OnErr};

use mpd_counter::Counter;
use std::alloc::{AllocError, Global};
use std::marker::Model;

/// A list that is changed in place. A change is one write, and each write is counted; the counter takes no bytes.
///
/// Contracts see a `TapeView`: the items, the room (how many items more fit without memory), and the number of writes
/// since the tape was made.
#[derive(Drop)]
pub struct Tape<T: Copy> {
    items: Vec<T>,
    writes: Counter,
}

impl<T: Copy> Model for Tape<T> {
    ghost use Rattle.std.specs.Prelude.{◌-◌, vec_capacity, vec_len};
    ghost use Rattle.mpd_queue.specs.Views.{TapeView};

    ghost Value = { TapeView T };

    ghost view = { λ t. record { items = t.items.items; room = vec_capacity t.items - vec_len t.items; writes = t.writes } };
}

impl<T: Copy> Tape<T> {
    /// A tape without items and without room. Takes no memory.
    pub fn new(alloc: Global) -> Tape<T>
        ensures items { result.items ≡ [] }
        ensures room { result.room ≡ 0 }
        ensures writes { result.writes ≡ 0 }
    {
        Tape {
            items: Vec::new(alloc),
            writes: Counter::new(),
        }
    }

    /// A tape of `count` items that are `value`. `Err` means that memory was refused. It counts its
    /// writes from 0.
    pub fn filled(alloc: Global, count: usize, value: T) -> Result<Tape<T>, AllocError>
        ensures items { IfOk result (λ t. t.items ≡ replicate count value) }
        ensures writes { IfOk result (λ t. t.writes ≡ 0) }
    {
        let mut items = Vec::new(alloc);
        items.resize(count, value)?;
        Ok(Tape {
            items,
            writes: Counter::new(),
        })
    }

    /// Reserves room for `count` more items. `Err` means that memory was refused, which happens
    /// only if that room was missing.
    pub fn keep_room(&mut self, count: usize) -> Result<(), AllocError>
        ensures items { self.new.items ≡ self.old.items }
        ensures writes { self.new.writes ≡ self.old.writes }
        ensures room { OnOk result (count ≤ self.new.room) }
        ensures never_less { self.old.room ≤ self.new.room }
        ensures kept { count ≤ self.old.room → IsOk result }
        ensures missing { OnErr result (self.new.room < count) }
        ensures memory { OnErr result (self.new.room ≡ self.old.room) }
    {
        self.items.reserve(count)
    }

    /// Replaces the item with that index, counted from 0, by `value`. Requires that there is one.
    /// One write.
    pub fn set(&mut self, index: usize, value: T)
        requires { index < length self.old.items }
        ensures items { self.new.items ≡ slice_set self.old.items index value }
        ensures room { self.new.room ≡ self.old.room }
        ensures writes { self.new.writes ≡ self.old.writes + 1 }
    {
        self.items[index] = value;
        self.writes.tick();
    }

    /// Adds an item at the end, in reserved room. One write; it takes no memory.
    pub fn push_kept(&mut self, value: T)
        requires { 0 < self.old.room }
        ensures items { self.new.items ≡ self.old.items ++ value ∷ [] }
        ensures room { self.new.room + 1 ≡ self.old.room }
        ensures writes { self.new.writes ≡ self.old.writes + 1 }
    {
        self.items.push_reserved(value);
        self.writes.tick();
    }

    /// Takes the last item off and returns it, if there is one. Its room stays. If there is none,
    /// nothing is written.
    pub fn pop(&mut self) -> Option<T>
        ensures items { self.old.items ≡ self.new.items ++ option_to_list result }
        ensures last { IfSome result (λ _. (self.new.room ≡ self.old.room + 1) × (self.new.writes ≡ self.old.writes + 1)) }
        ensures empty { IfNone result ((self.old.items ≡ []) × (self.new.room ≡ self.old.room) × (self.new.writes ≡ self.old.writes)) }
    {
        let item = self.items.pop()?;
        self.writes.tick();
        Some(item)
    }

    /// The item with that index, counted from 0, if there is one.
    pub fn get(&self, index: usize) -> Option<T>
        ensures { result ≡ slice_get self.now.items index }
    {
        self.items.get(index).copied()
    }

    /// The items, the first one first.
    pub fn items(&self) -> &[T]
        ensures { result.now ≡ self.now.items }
    {
        self.items.as_slice()
    }

    /// How many items there are.
    pub fn len(&self) -> usize
        ensures { result ≡ length self.now.items }
    {
        self.items.len()
    }

    /// The same items, in memory of their own. The copy counts its writes from 0. `Err` means that
    /// memory was refused.
    pub fn copy(&self) -> Result<Tape<T>, AllocError>
        ensures items { IfOk result (λ t. t.items ≡ self.now.items) }
        ensures writes { IfOk result (λ t. t.writes ≡ 0) }
    {
        let mut items = Vec::new(*self.items.allocator());
        items.extend_from_slice(self.items.as_slice())?;
        Ok(Tape {
            items,
            writes: Counter::new(),
        })
    }
}
