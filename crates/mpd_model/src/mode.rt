//! The modes as words (docs/FORMATS.md, "Modes").

ghost use Rattle.std.specs.Prelude.{◌≡◌};
ghost use Rattle.mpd_model.specs.steps.World.{is_limited};
ghost use Rattle.mpd_model.specs.texts.Modes.{limited_of, mode_of, slots_of};

use crate::call::Mode;
use crate::limits::SLOTS_MAX;
use crate::words;
use std::fmt;

impl fmt::Display for Mode {
    ghost use Rattle.std.specs.Prelude.{Some};
    ghost use Rattle.mpd_model.specs.texts.Modes.{mode_word};

    ghost output = { λ mode. Some (mode_word mode) };

    fn fmt<W: fmt::Write>(&self, f: &mut fmt::Formatter<W>) -> fmt::Result {
        match *self {
            Mode::Rendezvous => f.write_str("rendezvous"),
            Mode::Buffered => f.write_str("buffered"),
            Mode::Slots(count) => write!(f, "slots:{count}"),
        }
    }
}

impl Mode {
    /// Whether the mode has a limited number of buffers, so that they can run out.
    pub fn is_limited(self) -> bool
        ensures { result ≡ is_limited self }
    {
        matches!(self, Mode::Slots(_))
    }
}

/// Reads a mode: `rendezvous`, `buffered`, or `slots:` and a number of 1 to 5 digits, at most
/// 65,536 (MPI 4.0, section 3.4). `None` if the text is none of these. Takes no memory.
pub fn mode_of(text: &str) -> Option<Mode>
    ensures { result ≡ mode_of text.now }
{
    match text {
        "rendezvous" => Some(Mode::Rendezvous),
        "buffered" => Some(Mode::Buffered),
        _ => limited_of(text.as_bytes()),
    }
}

/// Reads the number of slots after `slots:`.
fn limited_of(text: &[u8]) -> Option<Mode>
    ensures { result ≡ limited_of text.now }
{
    if text.len() < 6 {
        return None;
    }
    let (word, digits) = text.split_at(6);
    if word == b"slots:".as_slice() {
        slots_of(digits)
    } else {
        None
    }
}

/// The mode of a number of slots.
fn slots_of(digits: &[u8]) -> Option<Mode>
    ensures { result ≡ slots_of digits.now }
{
    if digits.len() > 5 {
        return None;
    }
    let count = words::number_of(digits)?;
    if count > SLOTS_MAX {
        return None;
    }
    Some(Mode::Slots(count))
}
