//! Why no words are written.

use mpd_lines::EngineFault;

/// Why the steps of a run are refused.
#[derive(Clone, Copy)]
pub enum WordsFault {
    /// The choice at this index, from 0, can't be made; or this many were given, and the run needs
    /// more.
    BadChoices(usize),
    /// Memory was refused.
    Memory,
}

/// Why a text is no list of choices.
#[derive(Clone, Copy)]
pub enum ChoicesFault {
    /// A word of it is no number of 1 to 9 digits.
    NotANumber,
    /// Memory was refused.
    Memory,
}

/// Why a run's words aren't written, or not all of them.
#[derive(Clone, Copy)]
pub enum WriteFault {
    /// The choice at this index, from 0, can't be made; or this many were given, and the run needs
    /// more.
    BadChoices(usize),
    /// A write failed, or memory was refused.
    Engine(EngineFault),
}
