//! What a command has found that looks for something wrong.
ghost use Rattle.std.specs.Prelude.{◌≡◌};
ghost use Rattle.mpd_lines.specs.Verdicts.{verdict_status};

/// What a command has found that looks for something wrong (docs/FORMATS.md, "Faults and statuses").
#[derive(Clone, Copy, PartialEq, Eq, Debug)]
pub enum Verdict {
    /// Nothing: no deadlock and no trap is listed, or a witness is accepted.
    Good,
    /// Something: a deadlock or a trap is listed, or a witness is refused.
    Bad,
    /// Nothing that is listed, but not all is listed that was to be.
    NotWhole,
}

impl Verdict {
    /// The status that the program ends with: 0, 1 or 4 (docs/FORMATS.md, "Faults and statuses").
    pub fn status(self) -> u8
        ensures { result ≡ verdict_status self }
    {
        match self {
            Verdict::Good => 0,
            Verdict::Bad => 1,
            Verdict::NotWhole => 4,
        }
    }
}
