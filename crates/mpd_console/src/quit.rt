//! A source of lines that ends after a word that ends a dialogue, or asks for what a desk can't do: `quit`, `q`, `exit`, `reload`, and `source`.

ghost use Rattle.std.specs.Prelude.{◌≡◌, ◌≤◌, ◌++◌, ◌||◌, IfSome, None, false, is_some, length, take, true};
ghost use Rattle.mpd_model.specs.texts.Words.{is_blank};
ghost use Rattle.mpd_console.specs.Quitting as spec;

use crate::held::Stock;
use mpd_counter::Counter;
use mpd_model::{DeviceFault, LINE_MAX, Source};
use std::alloc::Global;

/// What a line asks for that a desk can't do.
#[derive(Clone, Copy)]
pub enum Wish {
    /// To end.
    Quit,
    /// To read the script again.
    Reload,
    /// To answer the words of a file, if it is named.
    Source,
}

/// What of a line was read so far, as far as it matters whether it is `quit`, `q`, `exit` or `reload` alone, or begins with `source`.
#[derive(Clone, Copy)]
enum Seen {
    /// Blanks, or nothing.
    Blanks,
    /// After blanks so many bytes of `quit`, 1 to 4.
    Part(usize),
    /// After blanks so many bytes of `exit`, 1 to 3; the whole of it is as the whole of `quit`.
    Exit(usize),
    /// After blanks so many bytes of `reload`, 1 to 6.
    Reload(usize),
    /// After blanks so many bytes of `source`, 1 to 6.
    Source(usize),
    /// `source` and a blank, whatever follows.
    Sources,
    /// A word that asks for this, whole or short, and blanks.
    Word(Wish),
    /// That, and a carriage return.
    Return(Wish),
    /// Something else.
    Other,
}

/// What of a line was read so far, and how many bytes that is; from one more than a line may have on it isn't counted.
#[derive(Clone, Copy)]
struct Begun {
    seen: Seen,
    length: usize,
}

/// What a line begins with.
fn nothing() -> Begun
    ensures { result ≡ spec.nothing }
{
    Begun {
        seen: Seen::Blanks,
        length: 0,
    }
}

/// Whether a byte may stand about the word.
fn is_blank(byte: u8) -> bool
    ensures { result ≡ is_blank byte }
{
    byte == b' ' || byte == b'\t'
}

/// What is read of a line after a word that asks for this, and one more byte.
fn word_behind(wish: Wish, byte: u8) -> Seen
    ensures { result ≡ spec.word_behind wish byte }
{
    if is_blank(byte) {
        Seen::Word(wish)
    } else if byte == b'\r' {
        Seen::Return(wish)
    } else {
        Seen::Other
    }
}

/// What is read of a line after so many bytes of `quit`, and one more byte.
fn part_behind(count: usize, byte: u8) -> Seen
    ensures { result ≡ spec.part_behind count byte }
{
    match count {
        1 if byte == b'u' => Seen::Part(2),
        2 if byte == b'i' => Seen::Part(3),
        3 if byte == b't' => Seen::Part(4),
        1 | 4 => word_behind(Wish::Quit, byte),
        _ => Seen::Other,
    }
}

/// What is read of a line after so many bytes of `exit`, and one more byte.
fn exit_behind(count: usize, byte: u8) -> Seen
    ensures { result ≡ spec.exit_behind count byte }
{
    match count {
        1 if byte == b'x' => Seen::Exit(2),
        2 if byte == b'i' => Seen::Exit(3),
        3 if byte == b't' => Seen::Part(4),
        _ => Seen::Other,
    }
}

/// What is read of a line after so many bytes of `reload`, and one more byte.
fn reload_behind(count: usize, byte: u8) -> Seen
    ensures { result ≡ spec.reload_behind count byte }
{
    match count {
        1 if byte == b'e' => Seen::Reload(2),
        2 if byte == b'l' => Seen::Reload(3),
        3 if byte == b'o' => Seen::Reload(4),
        4 if byte == b'a' => Seen::Reload(5),
        5 if byte == b'd' => Seen::Reload(6),
        6 => word_behind(Wish::Reload, byte),
        _ => Seen::Other,
    }
}

/// What is read of a line after so many bytes of `source`, and one more byte.
fn source_behind(count: usize, byte: u8) -> Seen
    ensures { result ≡ spec.source_behind count byte }
{
    match count {
        1 if byte == b'o' => Seen::Source(2),
        2 if byte == b'u' => Seen::Source(3),
        3 if byte == b'r' => Seen::Source(4),
        4 if byte == b'c' => Seen::Source(5),
        5 if byte == b'e' => Seen::Source(6),
        6 if is_blank(byte) => Seen::Sources,
        _ => Seen::Other,
    }
}

/// What a line begins with whose first byte is this.
fn first_seen(byte: u8) -> Seen
    ensures { result ≡ spec.first_seen byte }
{
    match byte {
        b' ' | b'\t' => Seen::Blanks,
        b'q' => Seen::Part(1),
        b'e' => Seen::Exit(1),
        b'r' => Seen::Reload(1),
        b's' => Seen::Source(1),
        _ => Seen::Other,
    }
}

/// What is read of a line after one more byte, which doesn't end it.
fn seen_behind(seen: Seen, byte: u8) -> Seen
    ensures { result ≡ spec.seen_behind seen byte }
{
    match seen {
        Seen::Blanks => first_seen(byte),
        Seen::Part(count) => part_behind(count, byte),
        Seen::Exit(count) => exit_behind(count, byte),
        Seen::Reload(count) => reload_behind(count, byte),
        Seen::Source(count) => source_behind(count, byte),
        Seen::Sources => Seen::Sources,
        Seen::Word(wish) => word_behind(wish, byte),
        Seen::Return(_) | Seen::Other => Seen::Other,
    }
}

/// The same, counted.
fn begun_behind(begun: Begun, byte: u8) -> Begun
    ensures { result ≡ spec.begun_behind begun byte }
{
    let length = if begun.length > LINE_MAX {
        begun.length
    } else {
        begun.length + 1
    };
    Begun {
        seen: seen_behind(begun.seen, byte),
        length,
    }
}

/// A wish, where a line is the word for it.
fn wish_if(is_word: bool, wish: Wish) -> Option<Wish>
    ensures { result ≡ spec.wish_if is_word wish }
{
    if is_word { Some(wish) } else { None }
}

/// What a line asks for that ends so, if it is a word alone, and not too long. Of a line that begins with `source` it isn't said that it names a
/// file, nor that it isn't too long: its desk knows.
fn wish_in(begun: Begun) -> Option<Wish>
    ensures { result ≡ spec.wish_in begun }
{
    let is_line = begun.length <= LINE_MAX;
    match begun.seen {
        Seen::Part(count) => wish_if((count == 1 || count == 4) && is_line, Wish::Quit),
        Seen::Reload(count) => wish_if(count == 6 && is_line, Wish::Reload),
        Seen::Word(wish) => wish_if(is_line, wish),
        Seen::Return(wish) => wish_if(begun.length <= LINE_MAX + 1, wish),
        Seen::Sources => Some(Wish::Source),
        Seen::Blanks | Seen::Exit(_) | Seen::Source(_) | Seen::Other => None,
    }
}

/// How many bytes of a piece there are up to the end of the first line that is such a word, where there is one. `begun` is what of its first
/// line was read before, and then what of its last.
fn wish_len(begun: &mut Begun, piece: &[u8]) -> Option<usize>
    ensures value { result ≡ spec.wish_len begun.old piece.now }
    ensures bound { IfSome result (λ n. n ≤ length piece.now) }
    ensures begun { begun.new ≡ spec.begun_after begun.old piece.now }
{
    for (i, byte) in piece.iter().enumerate() {
        if *byte != b'\n' {
            *begun = begun_behind(*begun, *byte);
        } else if wish_in(*begun).is_some() {
            return Some(i + 1);
        } else {
            *begun = nothing();
        }
    }
    None
}

/// So many bytes of a piece, or all.
fn or_all(found: Option<usize>, piece: &[u8]) -> usize
    requires found { IfSome found (λ n. n ≤ length piece.now) }
    ensures value { result ≡ spec.or_all found (length piece.now) }
    ensures bound { result ≤ length piece.now }
{
    match found {
        None => piece.len(),
        Some(count) => count,
    }
}

/// A source that ends after the first line that is `quit`, `q`, `exit` or `reload`, with any blanks about it, and isn't too long, or that
/// begins with `source`. What follows is given if it is asked to go on, after the words of a file if some are inserted. Contracts don't
/// know which bytes are still to come.
#[derive(Drop)]
pub struct UntilWish<'s, S: Source> {
    source: &'s mut S,
    stock: Stock,
    begun: Begun,
    is_over: bool,
    calls: Counter,
    failures: Counter,
    ends: Counter,
}

impl<'s, S: Source> UntilWish<'s, S> {
    /// The source, of which nothing was read yet.
    pub fn new(alloc: Global, source: &'s mut S) -> UntilWish<'s, S>
        ensures { ⟦<UntilWish<'s, S> as Source>⟧.seen result ≡ record { calls = 0; failures = 0; ends = 0; remaining = None } }
    {
        UntilWish {
            source,
            stock: Stock::new(alloc),
            begun: nothing(),
            is_over: false,
            calls: Counter::new(),
            failures: Counter::new(),
            ends: Counter::new(),
        }
    }

    /// What the last line asks for, with or without a line feed after it, if it is such a word.
    pub fn wish(&self) -> Option<Wish>
        ensures { result ≡ spec.wish_in self.now.begun }
    {
        wish_in(self.begun)
    }

    /// Goes on after such a word: no byte after it is lost.
    pub fn go_on(&mut self)
        ensures stock { self.new.stock ≡ self.old.stock }
        ensures begun { self.new.begun ≡ spec.nothing }
        ensures over { self.new.is_over ≡ false }
    {
        self.begun = nothing();
        self.is_over = false;
    }

    /// Whether the last line that was given is one of a file.
    pub fn is_in_file(&self) -> bool
        ensures { result ≡ self.now.stock.is_in_file }
    {
        self.stock.is_in_file
    }

    /// Has the bytes of a file given before all others that are to come. What is left of another file is gone.
    pub fn insert(&mut self, file: Vec<u8>)
        ensures words { self.new.stock.words ≡ file.items }
        ensures held { self.new.stock.held ≡ self.old.stock.held }
        ensures file { self.new.stock.is_in_file ≡ true }
        ensures begun { self.new.begun ≡ self.old.begun }
        ensures over { self.new.is_over ≡ self.old.is_over }
    {
        self.stock.insert(file)
    }

    /// Gives bytes that can be given at once, up to the end of the first such line, as many as there is room for. The others stay.
    fn given(&mut self, buffer: &mut [u8]) -> usize
        ensures count { result ≡ spec.given_len self.old.begun (spec.at_once self.old.stock.words self.old.stock.held (length buffer.old)) }
        ensures bound { result ≤ length buffer.new }
        ensures size { length buffer.new ≡ length buffer.old }
        ensures given { self.old.stock.words ++ self.old.stock.held ≡ take result buffer.new ++ (self.new.stock.words ++ self.new.stock.held) }
        ensures begun { self.new.begun ≡ spec.begun_after self.old.begun (spec.at_once self.old.stock.words self.old.stock.held (length buffer.old)) }
        ensures over { self.new.is_over ≡ self.old.is_over || is_some (spec.wish_len self.old.begun (spec.at_once self.old.stock.words self.old.stock.held (length buffer.old))) }
        ensures calls { self.new.calls ≡ self.old.calls }
        ensures failures { self.new.failures ≡ self.old.failures }
        ensures ends { self.new.ends ≡ self.old.ends }
    {
        let piece = self.stock.at_once(buffer.len());
        let found = wish_len(&mut self.begun, piece);
        let count = or_all(found, piece);
        self.is_over = self.is_over || found.is_some();
        self.stock.give(count, buffer);
        count
    }
}

impl<'s, S: Source> Source for UntilWish<'s, S> {
    ghost use Rattle.std.specs.Prelude.{None};

    ghost seen = { λ s. record { calls = s.calls; failures = s.failures; ends = s.ends; remaining = None } };

    fn read(&mut self, buffer: &mut [u8]) -> Result<usize, DeviceFault> {
        self.calls.tick();
        if self.is_over {
            self.ends.tick();
            return Ok(0);
        }
        let Ok(()) = self.stock.fill(self.source) else {
            self.failures.tick();
            return Err(DeviceFault);
        };
        let given = self.given(buffer);
        if given == 0 {
            self.ends.tick();
        }
        Ok(given)
    }
}
