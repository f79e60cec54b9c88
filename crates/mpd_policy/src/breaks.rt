//! Breakpoints in numbered places.

ghost use Rattle.std.specs.Prelude.{◌≡◌, ℕ, ◌<◌, ◌≤◌, length, IfSome, IfNone, Some, None, true, is_some, slice_set, option_and_then};
ghost use Rattle.mpd_model.specs.runs.Breakpoints.{no_breaks, break_at, lowest_free};
ghost use Rattle.mpd_policy.specs.Breaks.{breakpoint_of, break_of};

use mpd_model::{BREAKS_MAX, Breakpoint};
use std::marker::Model;

/// A breakpoint that goes by no rank, by no handle and under no condition (docs/DEFINITIONS.md, "Breakpoints").
#[derive(Clone, Copy, Debug, PartialEq, Eq)]
pub enum Break {
    /// A rank comes to a statement of this line, from 1.
    Line(usize),
    /// A cell of a rank changes: which rank, and which of its cells, both from 0.
    Change(usize, usize),
    /// A call is matched that a statement of this line, from 1, has issued.
    Match(usize),
}

impl Break {
    /// The same among all kinds of breakpoints.
    pub fn breakpoint(self) -> Breakpoint
        ensures as_written { result ≡ breakpoint_of self }
        ensures again { break_of result ≡ Some self }
    {
        match self {
            Break::Line(line) => Breakpoint::Line {
                line,
                of: None,
                when: None,
            },
            Break::Change(rank, cell) => Breakpoint::Change { rank, cell },
            Break::Match(line) => Breakpoint::Match { line, of: None },
        }
    }

    /// The `Break` that is this breakpoint, where there is one.
    pub fn of(stop: Breakpoint) -> Option<Break>
        ensures { result ≡ break_of stop }
    {
        match stop {
            Breakpoint::Line {
                line,
                of: None,
                when: None,
            } => Some(Break::Line(line)),
            Breakpoint::Change { rank, cell } => Some(Break::Change(rank, cell)),
            Breakpoint::Match { line, of: None } => Some(Break::Match(line)),
            _ => None,
        }
    }
}

/// 64 places, numbered from 0, each with a breakpoint or free; contracts see them as a list.
#[derive(Drop)]
pub struct Breaks {
    places: [Option<Breakpoint>; BREAKS_MAX],
    /// Every place from here on is free.
    used: usize,
}

impl Model for Breaks {
    ghost use Rattle.std.specs.Prelude.{List, Option};
    ghost use Rattle.mpd_model.specs.declared.breakpoint.Breakpoint.{Breakpoint};
    ghost use Rattle.mpd_policy.specs.Places.{Uses};

    ghost Value = { List (Option Breakpoint) };

    ghost view = { λ b. b.places };

    ghost invariant = { λ b. Uses b.places b.used };
}

impl Breaks {
    /// No breakpoint.
    #[tactic(auto, using(crate::proofs::PlaceLemmas::nothing_used))]
    pub fn new() -> Breaks
        ensures { result ≡ no_breaks }
    {
        Breaks {
            places: [None; BREAKS_MAX],
            used: 0,
        }
    }

    /// The breakpoint of a number, where there is one.
    #[tactic(auto, using(crate::proofs::PlaceLemmas::reading))]
    pub fn breakpoint(&self, number: usize) -> Option<Breakpoint>
        ensures { result ≡ break_at self.now number }
    {
        self.numbers_have_places();
        if number >= BREAKS_MAX {
            return None;
        }
        self.places[number]
    }

    /// The breakpoint of a number, where there is one and it is a `Break`. Of one of a rank, of a handle or under a condition it answers
    /// none: `breakpoint` has these too.
    pub fn get(&self, number: usize) -> Option<Break>
        ensures { result ≡ option_and_then break_of (break_at self.now number) }
    {
        let stop = self.breakpoint(number)?;
        Break::of(stop)
    }

    /// The law of places, which holds at all times: each number below `BREAKS_MAX` has one. It does nothing.
    #[inline(always)]
    fn numbers_have_places(&self)
        ensures size { length self.now ≡ BREAKS_MAX }
    {
        let _ = &self.places;
    }

    /// A number from which on every place is free.
    pub(crate) fn bound(&self) -> usize
        ensures within { result ≤ BREAKS_MAX }
        ensures free { (n : ℕ) → result ≤ n → break_at self.now n ≡ None }
        ensures size { length self.now ≡ BREAKS_MAX }
    {
        self.used
    }

    /// Whether no breakpoint is set.
    pub(crate) fn is_unset(&self) -> bool
        ensures { result ≡ true → (n : ℕ) → break_at self.now n ≡ None }
    {
        self.bound() == 0
    }

    /// The number after the last place that is taken.
    #[tactic(auto, using(crate::proofs::PlaceLemmas::ending))]
    fn end(&self) -> usize
        ensures within { result ≤ BREAKS_MAX }
        ensures free { (n : ℕ) → result ≤ n → break_at self.now n ≡ None }
    {
        let mut end = 0;
        let count = self.bound();
        for number in 0..count {
            if self.breakpoint(number).is_some() {
                end = number + 1;
            }
        }
        end
    }

    /// The lowest number that is free.
    #[tactic(auto, using(crate::proofs::NumberLemmas::numbering))]
    fn lowest_free(&self) -> Option<usize>
        ensures number { result ≡ lowest_free self.now }
        ensures within { IfSome result (λ n. n < BREAKS_MAX) }
    {
        self.numbers_have_places();
        let count = BREAKS_MAX;
        for number in 0..count {
            if self.breakpoint(number).is_none() {
                return Some(number);
            }
        }
        None
    }

    /// Has a breakpoint, or none, in a place.
    #[tactic(auto, using(crate::proofs::PlaceLemmas::putting))]
    fn put(&mut self, number: usize, place: Option<Breakpoint>)
        requires { number < BREAKS_MAX }
        ensures { self.new ≡ slice_set self.old number place }
    {
        self.places[number] = place;
        if self.used <= number {
            self.used = number + 1;
        }
    }

    /// Adds a breakpoint, and answers its number, which is the lowest that was free. Where all 64 are taken it answers none, and
    /// nothing has changed.
    pub fn add_breakpoint(&mut self, stop: Breakpoint) -> Option<usize>
        ensures number { result ≡ lowest_free self.old }
        ensures some { IfSome result (λ n. self.new ≡ slice_set self.old n (Some stop)) }
        ensures none { IfNone result (self.new ≡ self.old) }
    {
        let number = self.lowest_free()?;
        self.put(number, Some(stop));
        Some(number)
    }

    /// As `add_breakpoint`, for a `Break`.
    pub fn add(&mut self, stop: Break) -> Option<usize>
        ensures number { result ≡ lowest_free self.old }
        ensures some { IfSome result (λ n. self.new ≡ slice_set self.old n (Some (breakpoint_of stop))) }
        ensures none { IfNone result (self.new ≡ self.old) }
    {
        self.add_breakpoint(stop.breakpoint())
    }

    /// Takes the breakpoint of a number away, and answers whether there was one.
    #[tactic(auto, using(crate::proofs::PlaceLemmas::removing))]
    pub fn remove(&mut self, number: usize) -> bool
        ensures found { result ≡ is_some (break_at self.old number) }
        ensures after { self.new ≡ slice_set self.old number None }
    {
        self.numbers_have_places();
        if number >= BREAKS_MAX {
            return false;
        }
        let found = self.breakpoint(number).is_some();
        self.put(number, None);
        self.used = self.end();
        found
    }
}
