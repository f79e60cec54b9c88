//! What is wrong with a line (docs/SESSIONS.md, "Requests" and "Refusals").

ghost use Rattle.std.specs.Prelude.{◌≡◌};
ghost use Rattle.mpd_wire.specs.FaultNumbers.{wire_fault_number};

/// Why a line is no request: the first of these that holds, in the order of docs/SESSIONS.md, "Requests", or that memory was refused.
#[derive(Clone, Copy)]
pub enum WireFault {
    /// It has more than 4,096 bytes (41).
    LineTooLong,
    /// It is no JSON text in UTF-8 (42).
    NotJson,
    /// It is no object with a text `cmd`; or a field of its command is missing, or is none that the command can have (43).
    BadField,
    /// It has a command that there is not (44).
    UnknownCommand,
    /// Memory was refused.
    Memory,
}

impl WireFault {
    /// Its number, as docs/SESSIONS.md lists them; 0 for want of memory, which has none.
    pub fn number(self) -> u8
        ensures { result ≡ wire_fault_number self }
    {
        match self {
            WireFault::LineTooLong => 41,
            WireFault::NotJson => 42,
            WireFault::BadField => 43,
            WireFault::UnknownCommand => 44,
            WireFault::Memory => 0,
        }
    }
}
