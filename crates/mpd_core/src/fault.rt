//! Why a step is refused.

ghost use Rattle.std.specs.Prelude.{◌≡◌};
ghost use Rattle.mpd_core.specs.declared.fault.StepFault.TheVariants.{Memory};
ghost use Rattle.mpd_core.specs.Faults.{step_fault_number, step_fault_name};

use std::alloc::{AllocError, AllocFailed};
use std::error::Error;
use std::fmt;

/// Why a step is refused. The state is as before.
#[derive(Clone, Copy, PartialEq, Eq, Debug)]
pub enum StepFault {
    /// The relation of steps has no step there.
    NotEnabled,
    /// Memory was refused.
    Memory,
}

impl StepFault {
    /// Its number: 21, or 23 for refused memory (docs/FORMATS.md, "Faults and statuses").
    pub fn number(self) -> u8
        ensures { result ≡ step_fault_number self }
    {
        match self {
            StepFault::NotEnabled => 21,
            StepFault::Memory => 23,
        }
    }

    /// Its name: `not-enabled` or `memory`.
    pub fn name(self) -> &'static str
        ensures { result.now ≡ step_fault_name self }
    {
        match self {
            StepFault::NotEnabled => "not-enabled",
            StepFault::Memory => "memory",
        }
    }
}

impl fmt::Display for StepFault {
    ghost use Rattle.std.specs.Prelude.{Some};

    ghost output = { λ fault. Some (step_fault_name fault) };

    fn fmt<W: fmt::Write>(&self, f: &mut fmt::Formatter<W>) -> fmt::Result {
        f.write_str(self.name())
    }
}

impl Error for StepFault {}

impl<T: Drop> From<AllocFailed<T>> for StepFault {
    ghost from_gives = { λ _ e. e ≡ Memory };

    fn from(_failed: AllocFailed<T>) -> StepFault {
        StepFault::Memory
    }
}

impl From<AllocError> for StepFault {
    ghost from_gives = { λ _ e. e ≡ Memory };

    fn from(_failed: AllocError) -> StepFault {
        StepFault::Memory
    }
}
