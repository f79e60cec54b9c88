//! Cells with links both ways, and the ends of each list.
ghost use Rattle.std.specs.Prelude.{◌≡◌, ℕ, ◌+◌, ◌<◌, ◌≤◌, Option, Some, None, vec_len};
ghost use Rattle.mpd_queue.specs.Chained.{written, HasCell};
ghost use Rattle.mpd_queue.specs.Cells.{next_at, previous_at};

use crate::link::Link;
use mpd_counter::Counter;

/// The neighbours of an item in its list. Eight bytes.
#[derive(Clone, Copy)]
pub(crate) struct Cell {
    pub(crate) previous: Link,
    pub(crate) next: Link,
}

/// The ends of one list.
#[derive(Clone, Copy)]
pub(crate) struct Ends {
    pub(crate) first: Link,
    pub(crate) last: Link,
}

/// One cell for each item, and the ends of each list. Each link that is written is counted.
#[derive(Drop)]
pub(crate) struct Links {
    pub(crate) cells: Vec<Cell>,
    pub(crate) ends: Vec<Ends>,
    pub(crate) writes: Counter,
}

impl Links {
    /// The place of an item.
    pub(crate) fn place(&self, item: usize) -> Link
        requires cell { item < vec_len self.now.cells }
        requires few { vec_len self.now.cells ≤ 4294967295 }
        ensures { result ≡ Some item }
    {
        Link::to(item)
    }

    /// An item in four bytes.
    pub(crate) fn number(&self, item: usize) -> u32
        requires cell { item < vec_len self.now.cells }
        requires few { vec_len self.now.cells ≤ 4294967295 }
        ensures value { result ≡ item }
        ensures small { result < 4294967295 }
    {
        item as u32
    }

    /// What comes next after an item; at the end of the list, its first item.
    pub(crate) fn next(&self, list: usize, at: Link) -> Link
        requires list { list < vec_len self.now.ends }
        requires at { HasCell (vec_len self.now.cells) at }
        ensures { result ≡ next_at self.now list at }
    {
        match at.item() {
            None => self.ends[list].first,
            Some(item) => self.cells[item].next,
        }
    }

    /// What comes before an item; at the end of the list, its last item.
    pub(crate) fn previous(&self, list: usize, at: Link) -> Link
        requires list { list < vec_len self.now.ends }
        requires at { HasCell (vec_len self.now.cells) at }
        ensures { result ≡ previous_at self.now list at }
    {
        match at.item() {
            None => self.ends[list].last,
            Some(item) => self.cells[item].previous,
        }
    }

    /// Writes what comes next after an item, or first in the list.
    pub(crate) fn set_next(&mut self, list: usize, at: Link, to: Link)
        requires list { list < vec_len self.old.ends }
        requires at { HasCell (vec_len self.old.cells) at }
        ensures next { (m : ℕ) (u : Option ℕ) → next_at self.new m u ≡ written (next_at self.old) list at to m u }
        ensures previous { (m : ℕ) (u : Option ℕ) → previous_at self.new m u ≡ previous_at self.old m u }
        ensures ends { vec_len self.new.ends ≡ vec_len self.old.ends }
        ensures cells { vec_len self.new.cells ≡ vec_len self.old.cells }
        ensures writes { self.new.writes ≡ self.old.writes + 1 }
    {
        match at.item() {
            None => {
                let ends = &mut self.ends[list];
                ends.first = to;
            }
            Some(item) => {
                let cell = &mut self.cells[item];
                cell.next = to;
            }
        }
        self.writes.tick();
    }

    /// Writes what comes before an item, or last in the list.
    pub(crate) fn set_previous(&mut self, list: usize, at: Link, to: Link)
        requires list { list < vec_len self.old.ends }
        requires at { HasCell (vec_len self.old.cells) at }
        ensures previous { (m : ℕ) (u : Option ℕ) → previous_at self.new m u ≡ written (previous_at self.old) list at to m u }
        ensures next { (m : ℕ) (u : Option ℕ) → next_at self.new m u ≡ next_at self.old m u }
        ensures ends { vec_len self.new.ends ≡ vec_len self.old.ends }
        ensures cells { vec_len self.new.cells ≡ vec_len self.old.cells }
        ensures writes { self.new.writes ≡ self.old.writes + 1 }
    {
        match at.item() {
            None => {
                let ends = &mut self.ends[list];
                ends.last = to;
            }
            Some(item) => {
                let cell = &mut self.cells[item];
                cell.previous = to;
            }
        }
        self.writes.tick();
    }
}
