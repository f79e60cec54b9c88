//! A counter without bytes.
ghost use Rattle.std.specs.Prelude.{◌≡◌, ◌+◌};

use std::marker::Model;
use std::mem;
use std::snapshot::Snapshot;

// Ticks, one after another. A link is made for a moment only, so that a snapshot can remember how many there were.
#[derive(Drop)]
struct Chain {
    before: Option<Snapshot<Chain>>,
}

impl Model for Chain {
    ghost use Rattle.std.specs.Prelude.{ℕ};

    ghost Value = { ℕ };

    ghost use Rattle.mpd_counter.specs.Depth.{depth};

    ghost view = { depth };

    ghost size = { λ n. n };

    ghost use Rattle.std.proofs.Common.{arith};

    ghost size_decreases = { λ a h. Prim.grind arith };
}

/// Counts how often something was done, such as a write or a look. It takes no bytes, and only
/// `tick` adds to it.
#[derive(Drop)]
pub struct Counter {
    ticks: Snapshot<Chain>,
}

impl Model for Counter {
    ghost use Rattle.std.specs.Prelude.{ℕ};

    ghost Value = { ℕ };

    ghost view = { λ c. c.ticks.value };
}

impl Counter {
    /// A counter at 0.
    pub fn new() -> Counter
        ensures { result ≡ 0 }
    {
        Counter {
            ticks: Snapshot::of(&Chain { before: None }),
        }
    }

    /// Adds 1.
    pub fn tick(&mut self)
        ensures { self.new ≡ self.old + 1 }
    {
        let before = mem::replace(self, Counter::new()).ticks;
        self.ticks = Snapshot::of(&Chain {
            before: Some(before),
        });
    }
}
