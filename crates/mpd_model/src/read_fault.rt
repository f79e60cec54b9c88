//! Why a text is refused.

ghost use Rattle.std.specs.Prelude.{◌≡◌};
ghost use Rattle.mpd_model.specs.texts.FaultText.{read_fault_text};
ghost use Rattle.mpd_model.specs.grammar.Faults.{fault_name, fault_number, memory};

use std::alloc::{AllocError, AllocFailed};
use std::error::Error;
use std::fmt;

/// What is wrong with a text (docs/LANGUAGE.md, "Faults").
#[derive(Clone, Copy, Debug, PartialEq, Eq)]
pub enum FaultCode {
    /// The text is longer than 65,536 bytes.
    TooLong,
    /// A byte that may not stand in a text.
    NotText,
    /// What stands there is no token.
    BadToken,
    /// A token that the grammar doesn't allow there, the end among them.
    Expected,
    /// A name that isn't declared as what is wanted there.
    UnknownName,
    /// A name that was declared before.
    Twice,
    /// The 65th open block, or the 65th bracket or operator of one expression.
    TooDeep,
    /// Statement 4,097, or more than 1,024 cells of variables, or more than 256 handles.
    TooMany,
    /// The number of ranks isn't 1 to 16.
    BadRanks,
    /// Something that this version of the language doesn't have.
    NotInVersion,
    /// Memory was refused; the text may be a script.
    Memory,
}

impl FaultCode {
    /// Its number, 1 to 11 (docs/LANGUAGE.md, "Faults").
    pub fn number(self) -> u8
        ensures { result ≡ fault_number self }
    {
        match self {
            FaultCode::TooLong => 1,
            FaultCode::NotText => 2,
            FaultCode::BadToken => 3,
            FaultCode::Expected => 4,
            FaultCode::UnknownName => 5,
            FaultCode::Twice => 6,
            FaultCode::TooDeep => 7,
            FaultCode::TooMany => 8,
            FaultCode::BadRanks => 9,
            FaultCode::NotInVersion => 10,
            FaultCode::Memory => 11,
        }
    }

    /// Its name, lowercase words joined by `-`.
    pub fn name(self) -> &'static str
        ensures { result.now ≡ fault_name self }
    {
        match self {
            FaultCode::TooLong => "too-long",
            FaultCode::NotText => "not-text",
            FaultCode::BadToken => "bad-token",
            FaultCode::Expected => "expected",
            FaultCode::UnknownName => "unknown-name",
            FaultCode::Twice => "twice",
            FaultCode::TooDeep => "too-deep",
            FaultCode::TooMany => "too-many",
            FaultCode::BadRanks => "bad-ranks",
            FaultCode::NotInVersion => "not-in-version",
            FaultCode::Memory => "memory",
        }
    }
}

impl fmt::Display for FaultCode {
    ghost use Rattle.std.specs.Prelude.{Some};

    ghost output = { λ fault. Some (fault_name fault) };

    fn fmt<W: fmt::Write>(&self, f: &mut fmt::Formatter<W>) -> fmt::Result {
        f.write_str(self.name())
    }
}

impl Error for FaultCode {}

/// A fault and where it is (docs/LANGUAGE.md, "Faults").
#[derive(Clone, Copy, Debug, PartialEq, Eq)]
pub struct ReadFault {
    pub code: FaultCode,
    /// A byte of the text, from 0, or the text's length for its end; 0 if memory was refused.
    pub place: usize,
}

impl fmt::Display for ReadFault {
    ghost use Rattle.std.specs.Prelude.{Some};

    ghost output = { λ fault. Some (read_fault_text fault) };

    fn fmt<W: fmt::Write>(&self, f: &mut fmt::Formatter<W>) -> fmt::Result {
        write!(f, "{} at {}", self.code, self.place)
    }
}

impl Error for ReadFault {}

impl From<AllocError> for ReadFault {
    ghost from_gives = { λ _ e. e ≡ memory };

    fn from(_refused: AllocError) -> ReadFault {
        ReadFault {
            code: FaultCode::Memory,
            place: 0,
        }
    }
}

impl<T: Drop> From<AllocFailed<T>> for ReadFault {
    ghost from_gives = { λ _ e. e ≡ memory };

    fn from(_refused: AllocFailed<T>) -> ReadFault {
        ReadFault {
            code: FaultCode::Memory,
            place: 0,
        }
    }
}
