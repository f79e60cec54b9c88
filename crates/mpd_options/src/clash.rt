//! Options of `check` that can't be combined (docs/FORMATS.md, "The command line").
ghost use Rattle.std.specs.Prelude.{◌≡◌};
ghost use Rattle.mpd_options.specs.Clashes.{wants_traps};

use crate::options::{CheckOptions, Form};

/// An option of `check` that can't be combined with some other.
#[derive(Clone, Copy)]
pub enum CheckOption {
    /// `--complete`.
    Complete,
    /// `--ends`.
    Ends,
    /// `--group`.
    Group,
    /// `--json`.
    Json,
    /// `--modes`.
    Modes,
    /// `--outcomes`.
    Outcomes,
    /// `--piece`.
    Piece,
    /// `--pieces`.
    Pieces,
    /// `--runs`.
    Runs,
    /// `--sample`.
    Sample,
    /// `--seed`.
    Seed,
    /// `--split`.
    Split,
}

impl CheckOption {
    /// The option as it is written, with its hyphens.
    pub fn word(self) -> &'static str {
        match self {
            CheckOption::Complete => "--complete",
            CheckOption::Ends => "--ends",
            CheckOption::Group => "--group",
            CheckOption::Json => "--json",
            CheckOption::Modes => "--modes",
            CheckOption::Outcomes => "--outcomes",
            CheckOption::Piece => "--piece",
            CheckOption::Pieces => "--pieces",
            CheckOption::Runs => "--runs",
            CheckOption::Sample => "--sample",
            CheckOption::Seed => "--seed",
            CheckOption::Split => "--split",
        }
    }
}

/// Why options can't be combined.
#[derive(Clone, Copy)]
pub enum Clash {
    /// These two can't.
    Both(CheckOption, CheckOption),
    /// `--seed` wants `--sample`, which isn't there.
    SeedAlone,
    /// `--states` wants `--outcomes`, which isn't there.
    StatesAlone,
    /// `--traps` wants `--witness`, which isn't there.
    TrapsAlone,
}

impl CheckOptions {
    /// The first option that was given and can't be combined with `--outcomes`.
    fn beside_outcomes(self) -> Option<CheckOption> {
        if self.ends {
            return Some(CheckOption::Ends);
        }
        if self.runs_given {
            return Some(CheckOption::Runs);
        }
        if self.split_given {
            return Some(CheckOption::Split);
        }
        if self.piece.is_some() {
            return Some(CheckOption::Piece);
        }
        if self.count_pieces {
            return Some(CheckOption::Pieces);
        }
        if self.sample.is_some() {
            return Some(CheckOption::Sample);
        }
        if self.seed.is_some() {
            return Some(CheckOption::Seed);
        }
        if self.group {
            return Some(CheckOption::Group);
        }
        None
    }

    /// The first option that was given and can't be combined with `--sample`.
    fn beside_sample(self) -> Option<CheckOption> {
        if self.ends {
            return Some(CheckOption::Ends);
        }
        if self.runs_given {
            return Some(CheckOption::Runs);
        }
        if self.split_given {
            return Some(CheckOption::Split);
        }
        if self.piece.is_some() {
            return Some(CheckOption::Piece);
        }
        if self.count_pieces {
            return Some(CheckOption::Pieces);
        }
        if self.modes.is_some() {
            return Some(CheckOption::Modes);
        }
        None
    }

    /// The first option that was given and can't be combined with `--complete` or `--json`: what is
    /// asked of a piece, or of how many there are, tells nothing of all runs, and is no report.
    fn of_pieces(self) -> Option<CheckOption> {
        if self.piece.is_some() {
            return Some(CheckOption::Piece);
        }
        if self.count_pieces {
            return Some(CheckOption::Pieces);
        }
        None
    }

    /// Whether `--witness` has traps beside deadlocks: if that is asked for, and wherever more is told
    /// of leaves, or other runs are tried, than in a plain report. Neither ranks, modes and pieces nor
    /// the status turn it on, so that joined pieces are the plain report.
    pub fn wants_traps(self) -> bool
        ensures { result ≡ wants_traps self }
    {
        self.traps
            || self.explain
            || self.ends
            || self.until_bad
            || self.group
            || self.outcomes
            || self.sample.is_some()
    }

    /// Why these options can't be combined; `None` if they can. That `--traps` is alone comes first,
    /// then what can't be combined with `--outcomes`, then that `--states` is alone, then what can't
    /// be combined with `--sample`, then that `--seed` is alone, then what can't be combined with
    /// `--complete`, and then with `--json`.
    pub fn clash(self) -> Option<Clash> {
        if self.traps && !self.witness {
            return Some(Clash::TrapsAlone);
        }
        if self.outcomes {
            return match self.beside_outcomes() {
                Some(other) => Some(Clash::Both(CheckOption::Outcomes, other)),
                None => None,
            };
        }
        if self.states.is_some() {
            return Some(Clash::StatesAlone);
        }
        if self.sample.is_some() {
            return match self.beside_sample() {
                Some(other) => Some(Clash::Both(CheckOption::Sample, other)),
                None => None,
            };
        }
        if self.seed.is_some() {
            return Some(Clash::SeedAlone);
        }
        let other = self.of_pieces()?;
        if self.complete {
            return Some(Clash::Both(CheckOption::Complete, other));
        }
        match self.form {
            Form::Json => Some(Clash::Both(CheckOption::Json, other)),
            Form::Text => None,
        }
    }
}
