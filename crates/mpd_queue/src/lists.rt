//! Disjoint lists of numbers, in one vector of cells.
ghost use Rattle.std.specs.Prelude.{◌≡◌, ℕ, ◌+◌, ◌<◌, ◌≤◌, Option, Some, length, IsOk, OnOk, OnErr, IfOk};
ghost use Rattle.mpd_queue.specs.InOrder.{list_at, places_in, places, first_of, next_of, empty_lists, with_inserted, with_removed, with_pushed, with_newest_dropped, HasSpot};

use crate::link::Link;
use crate::links::{Cell, Ends, Links};
use crate::snapshot::{Change, Shown};
use mpd_counter::Counter;
use std::alloc::{AllocError, Global};
use std::marker::Model;

/// The greatest number of cells: a link has 32 bits, and one of its numbers says that it leads nowhere.
const MOST_CELLS: usize = 4294967295;

/// Where an item was in its list. Only `unlink` makes one. It takes four bytes.
#[derive(Clone, Copy)]
pub struct Spot {
    next: Link,
}

impl Model for Spot {
    ghost use Rattle.std.specs.Prelude.{ℕ, Option};

    ghost Value = { Option ℕ };

    ghost view = { λ s. s.next };

    ghost inverse = { λ o. record { next = o } };
}

/// Lists of items, which are numbers. Each item has one place at most. A list is linked both ways,
/// through one vector of cells. Each link that is written is counted; the counter takes no bytes.
///
/// Contracts see a `ListsView`: the lists, the room (items below it have a cell), and the number of
/// links written since the lists were made. Every change takes the same few writes, however long
/// the lists are, and no memory.
#[derive(Drop)]
pub struct Lists {
    links: Links,
    shown: Shown,
}

impl Model for Lists {
    ghost use Rattle.std.specs.Prelude.{vec_len};
    ghost use Rattle.mpd_queue.specs.Views.{ListsView};

    ghost Value = { ListsView };

    ghost use Rattle.mpd_queue.specs.Cells.{Holds};

    ghost view = { λ s. record { lists = s.shown; room = vec_len s.links.cells; writes = s.links.writes } };

    ghost invariant = { λ s. Holds s.links s.shown };
}

impl Lists {
    /// `lists` empty lists, numbered from 0, with no room for items. `Err` means that memory was
    /// refused.
    pub fn new(alloc: Global, lists: usize) -> Result<Lists, AllocError>
        ensures lists { IfOk result (λ s. s.lists ≡ empty_lists lists) }
        ensures room { IfOk result (λ s. s.room ≡ 0) }
        ensures writes { IfOk result (λ s. s.writes ≡ 0) }
    {
        let mut ends = Vec::new(alloc);
        ends.resize(
            lists,
            Ends {
                first: Link::none(),
                last: Link::none(),
            },
        )?;
        Ok(Lists {
            links: Links {
                cells: Vec::new(alloc),
                ends,
                writes: Counter::new(),
            },
            shown: Shown::empty(lists),
        })
    }

    /// Makes a cell for each item below `count`. `Err` means that memory was refused; more than
    /// 4,294,967,295 cells are always refused.
    pub fn keep_room(&mut self, count: usize) -> Result<(), AllocError>
        ensures lists { self.new.lists ≡ self.old.lists }
        ensures writes { self.new.writes ≡ self.old.writes }
        ensures room { OnOk result (count ≤ self.new.room) }
        ensures never_less { self.old.room ≤ self.new.room }
        ensures kept { count ≤ self.old.room → IsOk result }
        ensures missing { OnErr result (self.new.room < count) }
        ensures memory { OnErr result (self.new.room ≡ self.old.room) }
    {
        if count <= self.links.cells.len() {
            return Ok(());
        }
        if MOST_CELLS < count {
            return Err(AllocError);
        }
        self.links.cells.resize(
            count,
            Cell {
                previous: Link::none(),
                next: Link::none(),
            },
        )
    }

    // Puts an item in before another, or at the end.
    fn insert(&mut self, list: usize, item: usize, next: Link)
        requires list { list < length self.old.lists }
        requires item { item < self.old.room }
        requires free { places self.old.lists item ≡ 0 }
        requires spot { HasSpot (list_at self.old.lists list) next }
        ensures lists { self.new.lists ≡ with_inserted self.old.lists list item next }
        ensures room { self.new.room ≡ self.old.room }
        ensures writes { self.new.writes ≡ self.old.writes + 4 }
    {
        let here = self.links.place(item);
        let previous = self.links.previous(list, next);
        self.links.set_next(list, previous, here);
        self.links.set_previous(list, next, here);
        self.links.set_next(list, here, next);
        self.links.set_previous(list, here, previous);
        self.shown = self.shown.after(Change::Inserted { list, item, next });
    }

    /// An item that has a cell, in four bytes: it is below 4,294,967,295.
    pub fn number(&self, item: usize) -> u32
        requires { item < self.now.room }
        ensures value { result ≡ item }
        ensures small { result < 4294967295 }
    {
        self.links.number(item)
    }

    /// Puts an item that is in no list at the end of one. Four writes.
    pub fn push_back(&mut self, list: usize, item: usize)
        requires list { list < length self.old.lists }
        requires item { item < self.old.room }
        requires free { places self.old.lists item ≡ 0 }
        ensures lists { self.new.lists ≡ with_pushed self.old.lists list item }
        ensures room { self.new.room ≡ self.old.room }
        ensures writes { self.new.writes ≡ self.old.writes + 4 }
    {
        self.insert(list, item, Link::none());
    }

    /// Takes an item out of its list, and returns where it was. Two writes. `relink` with that spot
    /// restores the lists.
    pub fn unlink(&mut self, list: usize, item: usize) -> Spot
        requires list { list < length self.old.lists }
        requires item { 0 < places_in (list_at self.old.lists list) item }
        ensures lists { self.new.lists ≡ with_removed self.old.lists list item }
        ensures spot { result ≡ next_of (list_at self.old.lists list) item }
        ensures free { places self.new.lists item ≡ 0 }
        ensures stays { HasSpot (list_at self.new.lists list) result }
        ensures back { with_inserted self.new.lists list item result ≡ self.old.lists }
        ensures room { self.new.room ≡ self.old.room }
        ensures writes { self.new.writes ≡ self.old.writes + 2 }
    {
        let here = self.links.place(item);
        let previous = self.links.previous(list, here);
        let next = self.links.next(list, here);
        self.links.set_next(list, previous, next);
        self.links.set_previous(list, next, previous);
        self.shown = self.shown.after(Change::Removed { list, item });
        Spot { next }
    }

    /// Puts an item back where `unlink` found it. Requires that the item is in no list. Four
    /// writes.
    pub fn relink(&mut self, list: usize, item: usize, spot: Spot)
        requires list { list < length self.old.lists }
        requires item { item < self.old.room }
        requires free { places self.old.lists item ≡ 0 }
        requires spot { HasSpot (list_at self.old.lists list) spot }
        ensures lists { self.new.lists ≡ with_inserted self.old.lists list item spot }
        ensures room { self.new.room ≡ self.old.room }
        ensures writes { self.new.writes ≡ self.old.writes + 4 }
    {
        self.insert(list, item, spot.next);
    }

    /// Takes the last item off a list that has one. Two writes.
    pub fn drop_newest(&mut self, list: usize)
        requires list { list < length self.old.lists }
        requires item { 0 < length (list_at self.old.lists list) }
        ensures lists { self.new.lists ≡ with_newest_dropped self.old.lists list }
        ensures room { self.new.room ≡ self.old.room }
        ensures writes { self.new.writes ≡ self.old.writes + 2 }
    {
        let last = self.links.previous(list, Link::none());
        match last.item() {
            Some(item) => {
                let _ = self.unlink(list, item);
            }
            None => unreachable!(),
        }
    }

    /// The first item of a list, if it has one. One look, which `looks` counts.
    pub fn first(&self, list: usize, looks: &mut Counter) -> Option<usize>
        requires { list < length self.now.lists }
        ensures first { result ≡ first_of (list_at self.now.lists list) }
        ensures looks { looks.new ≡ looks.old + 1 }
    {
        looks.tick();
        let first = self.links.next(list, Link::none());
        first.item()
    }

    /// The item after this one in its list, if there is one. One look, which `looks` counts.
    pub fn next(&self, item: usize, looks: &mut Counter) -> Option<usize>
        requires { 0 < places self.now.lists item }
        ensures next { (list : ℕ) → 0 < places_in (list_at self.now.lists list) item → result ≡ next_of (list_at self.now.lists list) item }
        ensures looks { looks.new ≡ looks.old + 1 }
    {
        looks.tick();
        self.links.cells[item].next.item()
    }

    /// A law of disjoint lists, which always holds: each item has one place at most, and a cell;
    /// there are no more cells than a link can name. A call does nothing.
    pub fn disjoint(&self)
        ensures once { (item : ℕ) → places self.now.lists item ≤ 1 }
        ensures inside { (item : ℕ) → 0 < places self.now.lists item → item < self.now.room }
        ensures few { self.now.room ≤ 4294967295 }
    {
        let _ = &self.links;
    }

    /// The same lists, in memory of their own. The copy counts its writes from 0. `Err` means that
    /// memory was refused.
    pub fn copy(&self) -> Result<Lists, AllocError>
        ensures lists { IfOk result (λ s. s.lists ≡ self.now.lists) }
        ensures room { IfOk result (λ s. s.room ≡ self.now.room) }
        ensures writes { IfOk result (λ s. s.writes ≡ 0) }
    {
        let mut cells = Vec::new(*self.links.cells.allocator());
        cells.extend_from_slice(self.links.cells.as_slice())?;
        let mut ends = Vec::new(*self.links.ends.allocator());
        ends.extend_from_slice(self.links.ends.as_slice())?;
        Ok(Lists {
            links: Links {
                cells,
                ends,
                writes: Counter::new(),
            },
            shown: self.shown.copy(),
        })
    }
}
