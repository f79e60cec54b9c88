//! Bytes that a source of lines has still to give: those of a file of words, and after them those that were read before.

ghost use Rattle.std.specs.Prelude.{◌≡◌, ◌≤◌, ◌++◌, [], OnErr, OnOk, not, true, false, length, take};
ghost use Rattle.std.specs.Io.KnownBytes.{Consumes};
ghost use Rattle.mpd_console.specs.Quitting as spec;

use mpd_lines::READ_MAX;
use mpd_model::{DeviceFault, Source};
use std::alloc::Global;
use std::marker::Model;

/// Puts the first so many bytes of a piece at the start of a buffer.
fn put(piece: &[u8], count: usize, buffer: &mut [u8])
    requires held { count ≤ length piece.now }
    requires room { count ≤ length buffer.old }
    ensures front { take count buffer.new ≡ take count piece.now }
    ensures size { length buffer.new ≡ length buffer.old }
{
    let (given, _) = piece.split_at(count);
    let (front, _) = buffer.split_at_mut(count);
    front.copy_from_slice(given);
}

/// Whether there are no bytes.
fn is_none(bytes: &[u8]) -> bool
    ensures { result ≡ spec.is_none bytes.now }
{
    bytes.is_empty()
}

/// Bytes that were read, and are not given yet: those of an array from `start` to `end`. Contracts see them as a list.
#[derive(Drop)]
pub(crate) struct Held {
    bytes: [u8; READ_MAX],
    start: usize,
    end: usize,
}

impl Model for Held {
    ghost use Rattle.std.specs.Prelude.{◌≡◌, ◌≤◌, ℕ, List, drop, take, length};

    ghost Value = { List ℕ };

    ghost view = { λ u. drop u.start (take u.end u.bytes) };

    ghost invariant = { λ u. (u.start ≤ u.end) × (u.end ≤ 4096) × (length u.bytes ≡ 4096) };
}

impl Held {
    /// No byte.
    fn new() -> Held
        ensures { result ≡ [] }
    {
        Held {
            bytes: [0u8; READ_MAX],
            start: 0,
            end: 0,
        }
    }

    /// The bytes.
    fn all(&self) -> &[u8]
        ensures { result.now ≡ self.now }
    {
        let (read, _) = self.bytes.split_at(self.end);
        let (_, unread) = read.split_at(self.start);
        unread
    }

    /// Makes one read, if all bytes were given.
    fn fill<S: Source>(&mut self, source: &mut S) -> Result<(), DeviceFault>
        requires none { self.old ≡ [] }
        ensures read { OnOk result (Consumes (S.seen source.old).remaining (S.seen source.new).remaining self.new) }
        ensures failed { OnErr result (self.new ≡ []) }
    {
        self.start = 0;
        self.end = 0;
        match source.read(&mut self.bytes) {
            Ok(count) => {
                self.end = count;
                Ok(())
            }
            Err(fault) => Err(fault),
        }
    }

    /// Gives the first so many bytes. The others stay.
    #[tactic(auto, using(crate::proofs::QuitLemmas::giving))]
    fn give(&mut self, count: usize, buffer: &mut [u8])
        requires held { count ≤ length self.old }
        requires room { count ≤ length buffer.old }
        ensures given { self.old ≡ take count buffer.new ++ self.new }
        ensures size { length buffer.new ≡ length buffer.old }
    {
        put(self.all(), count, buffer);
        self.start += count;
    }
}

/// The bytes of a file of words that are not given yet. Contracts see them as a list.
#[derive(Drop)]
pub(crate) struct FileWords {
    bytes: Vec<u8>,
    start: usize,
}

impl Model for FileWords {
    ghost use Rattle.std.specs.Prelude.{◌≤◌, ℕ, List, drop, length};

    ghost Value = { List ℕ };

    ghost view = { λ u. drop u.start u.bytes.items };

    ghost invariant = { λ u. u.start ≤ length u.bytes.items };
}

impl FileWords {
    /// The bytes of a file, none of which was given.
    fn of(bytes: Vec<u8>) -> FileWords
        ensures { result ≡ bytes.items }
    {
        FileWords { bytes, start: 0 }
    }

    /// The bytes.
    fn all(&self) -> &[u8]
        ensures { result.now ≡ self.now }
    {
        let (_, unread) = self.bytes.split_at(self.start);
        unread
    }

    /// Gives the first so many bytes. The others stay.
    #[tactic(auto, using(crate::proofs::QuitLemmas::giving))]
    fn give(&mut self, count: usize, buffer: &mut [u8])
        requires held { count ≤ length self.old }
        requires room { count ≤ length buffer.old }
        ensures given { self.old ≡ take count buffer.new ++ self.new }
        ensures size { length buffer.new ≡ length buffer.old }
    {
        put(self.all(), count, buffer);
        self.start += count;
    }
}

/// What is to be given: the words of a file, and after them what was read before.
#[derive(Drop)]
pub(crate) struct Stock {
    pub(crate) words: FileWords,
    pub(crate) held: Held,
    /// Whether what was given last, or is to be given if nothing was since the file came, is of a file.
    pub(crate) is_in_file: bool,
}

impl Stock {
    /// Nothing.
    pub(crate) fn new(alloc: Global) -> Stock
        ensures words { result.words ≡ [] }
        ensures held { result.held ≡ [] }
        ensures file { result.is_in_file ≡ false }
    {
        Stock {
            words: FileWords::of(Vec::new(alloc)),
            held: Held::new(),
            is_in_file: false,
        }
    }

    /// What can be given at once: what is left of a file, if something is, or else what was read.
    pub(crate) fn next(&self) -> &[u8]
        ensures { result.now ≡ spec.next_of self.now.words self.now.held }
    {
        if is_none(self.words.all()) {
            self.held.all()
        } else {
            self.words.all()
        }
    }

    /// The first of that, if there is room for so many bytes.
    #[tactic(auto, using(crate::proofs::QuitLemmas::giving))]
    pub(crate) fn at_once(&self, room: usize) -> &[u8]
        ensures value { result.now ≡ spec.at_once self.now.words self.now.held room }
        ensures room { length result.now ≤ room }
        ensures held { length result.now ≤ length (spec.next_of self.now.words self.now.held) }
    {
        let next = self.next();
        if next.len() <= room {
            return next;
        }
        let (piece, _) = next.split_at(room);
        piece
    }

    /// Has the bytes of a file given before all others. What is left of another file is gone.
    pub(crate) fn insert(&mut self, file: Vec<u8>)
        ensures words { self.new.words ≡ file.items }
        ensures held { self.new.held ≡ self.old.held }
        ensures file { self.new.is_in_file ≡ true }
    {
        self.words = FileWords::of(file);
        self.is_in_file = true;
    }

    /// Makes one read, if nothing can be given.
    pub(crate) fn fill<S: Source>(&mut self, source: &mut S) -> Result<(), DeviceFault>
        ensures words { self.new.words ≡ self.old.words }
        ensures file { self.new.is_in_file ≡ self.old.is_in_file }
        ensures kept { spec.is_none (spec.next_of self.old.words self.old.held) ≡ false → self.new.held ≡ self.old.held }
        ensures read { spec.is_none (spec.next_of self.old.words self.old.held) ≡ true → OnOk result (Consumes (S.seen source.old).remaining (S.seen source.new).remaining self.new.held) }
    {
        if !is_none(self.next()) {
            return Ok(());
        }
        self.held.fill(source)
    }

    /// Gives the first so many bytes of what can be given at once. The others stay.
    #[tactic(auto, using(crate::proofs::QuitLemmas::giving))]
    pub(crate) fn give(&mut self, count: usize, buffer: &mut [u8])
        requires next { count ≤ length (spec.next_of self.old.words self.old.held) }
        requires room { count ≤ length buffer.old }
        ensures given { self.old.words ++ self.old.held ≡ take count buffer.new ++ (self.new.words ++ self.new.held) }
        ensures size { length buffer.new ≡ length buffer.old }
        ensures file { self.new.is_in_file ≡ not (spec.is_none self.old.words) }
    {
        self.is_in_file = !is_none(self.words.all());
        if self.is_in_file {
            self.words.give(count, buffer)
        } else {
            self.held.give(count, buffer)
        }
    }
}
