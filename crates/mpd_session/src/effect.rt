//! What a command comes to, without the version that its reply has.

ghost use Rattle.std.specs.Prelude.{◌≡◌};
ghost use Rattle.mpd_session.specs.Effects.{is_within};

use crate::reply::{Answer, Refusal};

/// What a command comes to.
#[derive(Drop)]
pub enum Effect {
    /// It is refused, and nothing has changed.
    Refused(Refusal),
    /// It is answered, and nothing has changed.
    Told(Answer),
    /// It is answered, and something has changed.
    Changed(Answer),
}

/// Whether a number is within these bounds, which belong to it.
pub fn is_within(low: usize, high: usize, number: usize) -> bool
    ensures { result ≡ is_within low high number }
{
    low <= number && number <= high
}
