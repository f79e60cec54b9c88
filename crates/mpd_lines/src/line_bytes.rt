//! The bytes of a line, without bytes.
ghost use Rattle.std.specs.Prelude.{◌≡◌, [], ◌∷◌, ◌++◌};

use std::marker::Model;
use std::mem;
use std::snapshot::Snapshot;

// Bytes, the last one first. A link is made for a moment only, so that a snapshot can remember it.
#[derive(Drop)]
struct Chain {
    before: Option<Snapshot<Chain>>,
    byte: u8,
}

impl Model for Chain {
    ghost use Rattle.std.specs.Prelude.{List, ℕ, length};

    ghost Value = { List ℕ };

    ghost use Rattle.mpd_lines.specs.Shown.{shown};

    ghost view = { shown };

    ghost size = { length };

    ghost use Rattle.std.proofs.Common.{arith, length-append};

    ghost size_decreases = { λ a h. Prim.grind (arith, length-append) };
}

/// Which bytes have come. It takes no bytes, so what is known of a line is not bounded by memory.
#[derive(Drop)]
pub(crate) struct Seen {
    chain: Option<Snapshot<Chain>>,
}

impl Model for Seen {
    ghost use Rattle.std.specs.Prelude.{List, ℕ};

    ghost Value = { List ℕ };

    ghost use Rattle.std.specs.Prelude.{[], None, Some};

    ghost view = { λ s. elim s.chain [ None ↦ [] | Some c ↦ c.value ] };
}

impl Seen {
    /// No byte yet.
    pub(crate) fn new() -> Seen
        ensures { result ≡ [] }
    {
        Seen { chain: None }
    }

    /// One byte more.
    pub(crate) fn add(&mut self, byte: u8)
        ensures { self.new ≡ self.old ++ byte ∷ [] }
    {
        let before = mem::replace(self, Seen::new()).chain;
        self.chain = Some(Snapshot::of(&Chain { before, byte }));
    }
}
