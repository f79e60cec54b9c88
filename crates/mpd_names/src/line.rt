//! Lines of a script as they are told, each with the place that its mark names
//! (docs/FROM_A_RUN.md, "Marks").

ghost use Rattle.std.specs.Prelude.{◌≡◌, [], None, Some, MatchOption};
ghost use Rattle.mpd_names.specs.Marks as spec;

use crate::mark::mark_of;
use std::fmt;

/// A line of a script, and the place that its mark names. Its words are `42 (farm.c:58)`, and `42`
/// of one without a mark.
#[derive(Clone, Copy)]
pub struct SourceLine<'s> {
    /// Its number, from 1.
    pub number: usize,
    /// The place of its mark, if it has one.
    pub mark: Option<&'s str>,
}

impl<'s> fmt::Display for SourceLine<'s> {
    fn fmt<W: fmt::Write>(&self, f: &mut fmt::Formatter<W>) -> fmt::Result {
        match self.mark {
            None => write!(f, "{}", self.number),
            Some(place) => write!(f, "{} ({place})", self.number),
        }
    }
}

/// A line of a script as it is told within a parenthesis: `42, farm.c:58`, or `42`.
#[derive(Clone, Copy)]
pub struct InnerLine<'s>(pub SourceLine<'s>);

impl<'s> fmt::Display for InnerLine<'s> {
    fn fmt<W: fmt::Write>(&self, f: &mut fmt::Formatter<W>) -> fmt::Result {
        match self.0.mark {
            None => write!(f, "{}", self.0.number),
            Some(place) => write!(f, "{}, {place}", self.0.number),
        }
    }
}

/// The marks that lines are told with: those of a script, or none.
#[derive(Clone, Copy)]
pub struct Marks<'s> {
    /// The text of the script; an empty one has no mark.
    pub script: &'s [u8],
}

impl<'s> Marks<'s> {
    /// No marks: each line is told by its number alone.
    pub fn none() -> Marks<'s>
        ensures { result.script.now ≡ [] }
    {
        Marks { script: b"" }
    }

    /// A line of the script, by its number from 1.
    pub fn line(self, number: usize) -> SourceLine<'s>
        ensures number { result.number ≡ number }
        ensures mark { MatchOption result.mark (spec.mark_of self.entry.script.now number ≡ None) (λ p. spec.mark_of self.entry.script.now number ≡ Some p.now) }
    {
        SourceLine {
            number,
            mark: mark_of(self.script, number),
        }
    }

    /// The same, as it is told within a parenthesis.
    pub fn inner(self, number: usize) -> InnerLine<'s> {
        InnerLine(self.line(number))
    }
}
