//! The deque that workers draw the numbers of pieces from. Its rule: what stands in it is a strictly rising list of numbers below the
//! number that was pushed.
ghost use Rattle.std.specs.Prelude.{◌≡◌, ◌+◌, ◌<◌, ◌≤◌, true, IfOk};
ghost use Rattle.crossbeam_deque.specs.Handles.{worker_view};
ghost use Rattle.mpd_pool.specs.Numbers.{hand};

use crossbeam_deque::protocol::{Join, Outcome, Protocol, Split};
use crossbeam_deque::{Pass, Stealer, Worker};
use std::alloc::{AllocError, Global};

/// What a pass knows: whether it may push, whether it is in use, and how many numbers were pushed. No value of it is made.
pub struct Hand {
    pub pushes: bool,
    pub live: bool,
    pub next: usize,
}

/// Numbers below how many were pushed, each pushed once.
pub struct EachOnce;

impl Protocol<usize, Hand> for EachOnce {
    ghost use Rattle.std.specs.Prelude.{true, false};
    ghost use Rattle.mpd_pool.specs.Numbers.{hand, Numbered};

    ghost holds = { Numbered };

    ghost first = { hand true true 0 };

    ghost guest = { hand false false 0 };
}

/// A pass for a worker. From then on nothing is pushed.
pub struct Given;

impl Split<Hand> for Given {
    ghost use Rattle.std.specs.Prelude.{true, false};
    ghost use Rattle.mpd_pool.specs.Numbers.{hand};

    ghost left = { λ v. hand false true v.next };

    ghost right = { λ v. hand false true v.next };
}

impl Join<Hand> for Given {
    ghost use Rattle.std.specs.Prelude.{true, false};
    ghost use Rattle.mpd_pool.specs.Numbers.{hand};

    ghost both = { λ v w. hand false true v.next };

    ghost spent = { hand false false 0 };
}

/// The next number was pushed.
pub struct Pushed;

impl Outcome<usize, Hand> for Pushed {
    ghost use Rattle.std.specs.Prelude.{◌≡◌, ◌+◌, true};
    ghost use Rattle.mpd_pool.specs.Numbers.{hand};

    ghost then = { λ v xs w. w ≡ hand true true (v.next + 1) };
}

/// A number below how many were pushed was taken.
pub struct Taken;

impl Outcome<usize, Hand> for Taken {
    ghost use Rattle.std.specs.Prelude.{◌≡◌};
    ghost use Rattle.mpd_pool.specs.Numbers.{Below};

    ghost then = { λ v xs w. (w ≡ v) × Below v.next xs };
}

/// Who has the deque.
pub type Owner = Worker<usize, Global, Hand, EachOnce>;

/// Who draws from it.
pub type Thief = Stealer<usize, Global, Hand, EachOnce>;

/// What a worker draws by.
pub type WorkerPass = Pass<usize, Hand>;

/// A deque that holds the numbers from 0 to one below a bound. `Err` means that memory was refused.
pub fn filled(alloc: Global, bound: usize) -> Result<Owner, AllocError>
    ensures { IfOk result (λ w. worker_view w ≡ hand true true bound) }
{
    let mut owner = Owner::fifo_as(alloc, bound)?;
    for number in 0..bound {
        let Ok(()) = owner.push_as::<Pushed>(number) else {
            unreachable!()
        };
    }
    Ok(owner)
}
