//! The options whose values are numbers, each with its range (docs/FORMATS.md, "The command line").
ghost use Rattle.std.specs.Prelude.{IfSome};
ghost use Rattle.mpd_options.specs.Ranges.{IsFrom};

use clap::ArgMatches;

/// An option whose value is a number.
#[derive(Clone, Copy)]
pub(crate) struct Number {
    /// How it is spelled, without its hyphens, and what `clap` knows it by.
    pub(crate) name: &'static str,
    /// The least number that it can be.
    pub(crate) least: usize,
    /// The greatest number that it can be.
    pub(crate) most: usize,
}

/// How many ranks run a script.
pub(crate) const RANKS: Number = Number {
    name: "ranks",
    least: 1,
    most: 16,
};

/// Up to how many slots modes are tried in turn.
pub(crate) const MODES: Number = Number {
    name: "modes",
    least: 0,
    most: 1_000,
};

/// The port to listen on.
pub(crate) const PORT: Number = Number {
    name: "port",
    least: 1,
    most: 65_535,
};

/// How many clients are answered.
pub(crate) const CLIENTS: Number = Number {
    name: "clients",
    least: 1,
    most: 16,
};

/// How many runs of each piece are tried.
pub(crate) const RUNS: Number = Number {
    name: "runs",
    least: 1,
    most: 65_536,
};

/// How many steps a run takes.
pub(crate) const FUEL: Number = Number {
    name: "fuel",
    least: 1,
    most: 1_000_000,
};

/// By how many choices runs are cut into pieces.
pub(crate) const SPLIT: Number = Number {
    name: "split",
    least: 0,
    most: 8,
};

/// How many workers make a report; more than 16, and 0, are refused later.
pub(crate) const WORKERS: Number = Number {
    name: "workers",
    least: 0,
    most: 1_000,
};

/// How many states are kept.
pub(crate) const STATES: Number = Number {
    name: "states",
    least: 1,
    most: 16_000_000,
};

/// How many runs are drawn.
pub(crate) const SAMPLE: Number = Number {
    name: "sample",
    least: 1,
    most: 65_536,
};

/// What a draw begins with.
pub(crate) const SEED: Number = Number {
    name: "seed",
    least: 0,
    most: 18_446_744_073_709_551_615,
};

/// A piece.
pub(crate) const PIECE: Number = Number {
    name: "piece",
    least: 0,
    most: 1_023,
};

/// A leaf of a whole report.
pub(crate) const LEAF: Number = Number {
    name: "leaf",
    least: 0,
    most: 67_108_863,
};

/// How many runs a page shows.
pub(crate) const PAGED_RUNS: Number = Number {
    name: "runs",
    least: 1,
    most: 1_000,
};

/// How many states each search of a page comes to.
pub(crate) const PAGED_STATES: Number = Number {
    name: "states",
    least: 1,
    most: 16_000_000,
};

/// How many bytes a line of an answer has before it wraps.
pub(crate) const WIDTH: Number = Number {
    name: "width",
    least: 20,
    most: 1_000,
};

/// How many lines a screen has.
pub(crate) const HEIGHT: Number = Number {
    name: "height",
    least: 10,
    most: 1_000,
};

impl Number {
    /// The number that was given for the option, if one was. What isn't in its range was refused by
    /// `clap`.
    pub(crate) fn given(self, matches: &ArgMatches<'_>) -> Option<usize>
        ensures { IfSome result (IsFrom self.least self.most) }
    {
        let number = matches.get_one::<usize>(self.name)?;
        if number < self.least || self.most < number {
            return None;
        }
        Some(number)
    }

    /// The number that was given for the option, or else this one.
    pub(crate) fn given_or(self, matches: &ArgMatches<'_>, usual: usize) -> usize
        requires { IsFrom self.least self.most usual }
        ensures { IsFrom self.least self.most result }
    {
        self.given(matches).unwrap_or(usual)
    }
}
