//! How far a check is, told to a person who waits at a terminal.

use mpd_explore::Watch;
use mpd_pool::Gate;
use std::io;
use std::marker::Sync;
use std::rt::Clock;
use std::sync::atomic::{AtomicU64, AtomicUsize, Ordering};
use std::time::Instant;

/// How many milliseconds it takes at least from one line of progress to the next.
const PAUSE: u64 = 1000;

/// Says how many pieces and leaves there are so far, on standard error and once a second at most, each time in place of what it said
/// before. Whoever finds a leaf says it, where it is time.
#[derive(Drop)]
pub(crate) struct Progress<'a, R> {
    rt: &'a R,
    /// When it began; `None` where nothing is to be said, since nobody would see it.
    begun: Option<Instant>,
    /// How many milliseconds had passed when something was last said; 0 where nothing was.
    said: AtomicU64,
    pieces: AtomicUsize,
    ended: AtomicUsize,
    leaves: AtomicUsize,
}

/// Says a number, with a comma before each three digits up to the millions.
fn say_number<R: Eprint>(rt: &R, number: usize) -> io::Result<()> {
    let millions = number / 1_000_000;
    let thousands = number / 1000 % 1000;
    let ones = number % 1000;
    if millions > 0 {
        return eprint!(rt; "{millions},{thousands:03},{ones:03}");
    }
    if thousands > 0 {
        return eprint!(rt; "{thousands},{ones:03}");
    }
    eprint!(rt; "{ones}")
}

impl<'a, R: Clock + Eprint> Progress<'a, R> {
    /// Begins now. Nothing is ever said where standard error is no terminal, or where there is no clock.
    pub(crate) fn new(rt: &'a R, is_terminal: bool) -> Progress<'a, R> {
        let begun = if is_terminal {
            Instant::now(rt).ok()
        } else {
            None
        };
        Progress {
            rt,
            begun,
            said: AtomicU64::new(0),
            pieces: AtomicUsize::new(1),
            ended: AtomicUsize::new(0),
            leaves: AtomicUsize::new(0),
        }
    }

    /// Says it now, if a second has passed, and nobody else says it at this moment.
    fn say(&self, begun: Instant, leaves: usize) -> io::Result<()> {
        let millis = Instant::now(self.rt)?.duration_since(begun).as_millis();
        let passed = u64::try_from(millis).unwrap_or(u64::MAX);
        let said = self.said.load(Ordering::SeqCst);
        if passed.saturating_sub(said) < PAUSE {
            return Ok(());
        }
        let mine = self
            .said
            .compare_exchange(said, passed, Ordering::SeqCst, Ordering::SeqCst);
        if mine.is_err() {
            return Ok(());
        }
        let ended = self.ended.load(Ordering::SeqCst);
        let pieces = self.pieces.load(Ordering::SeqCst);
        eprint!(self.rt; "\rpieces {ended} of {pieces}, leaves ")?;
        say_number(self.rt, leaves)
    }

    /// Counts a leaf, and says how many there are where it is time.
    fn count_leaf(&self) {
        if let Some(begun) = self.begun {
            let before = self.leaves.fetch_add(1, Ordering::SeqCst);
            // what can't be told to a terminal stops no exploration
            let _untold = self.say(begun, before.saturating_add(1));
        }
    }

    /// Takes away what it has said.
    fn wipe(&self) {
        if self.said.load(Ordering::SeqCst) > 0 {
            let _unwiped = eprint!(self.rt; "\r\x1b[K");
        }
    }
}

impl<'a, R: Clock + Eprint + Sync> Gate for Progress<'a, R> {
    fn cut(&self, pieces: usize) {
        self.pieces.store(pieces, Ordering::SeqCst);
    }

    fn begin(&self, _piece: usize) {}

    fn leaf(&self) {
        self.count_leaf();
    }

    fn end(&self, _piece: usize) {
        self.ended.fetch_add(1, Ordering::SeqCst);
    }

    fn done(&self) {
        self.wipe();
    }
}

/// The same, told of one piece alone.
#[derive(Drop)]
pub(crate) struct OfPiece<'p, 'a, R> {
    pub(crate) progress: &'p Progress<'a, R>,
}

impl<'p, 'a, R: Clock + Eprint> Watch for OfPiece<'p, 'a, R> {
    fn leaf(&mut self, _count: usize) {
        self.progress.count_leaf();
    }

    fn end(&mut self) {
        self.progress.wipe();
    }
}
