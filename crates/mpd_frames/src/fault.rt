//! What ends a session of frames before its input has ended.
ghost use Rattle.std.specs.Prelude.{◌≡◌};
ghost use Rattle.mpd_frames.specs.FaultWords.{stream_fault_name};

use mpd_lines::EngineFault;
use std::error::Error;
use std::fmt;

/// What is wrong with a header.
#[derive(Clone, Copy, PartialEq, Eq, Debug)]
pub enum FrameFault {
    /// No empty line stands among its first 4,096 bytes.
    HeaderTooLong,
    /// No line gives the length of the body.
    NoLength,
    /// A second line gives one.
    TwoLengths,
    /// The length is no number of 1 to 7 digits.
    BadLength,
    /// The length is more than 1,048,576.
    BodyTooLong,
}

/// Why the engine has ended before its input has.
#[derive(Clone, Copy, PartialEq, Eq, Debug)]
pub enum StreamFault {
    /// A device failed, there were too many reads, or memory was refused before the first.
    Engine(EngineFault),
    /// What follows the frames that were answered is no frame, however it goes on.
    Frame(FrameFault),
    /// The input has ended within a frame.
    CutOff,
    /// Memory was refused for a body of more than 65,536 bytes, after as many of them as there was room for.
    BodyMemory,
}

impl StreamFault {
    /// The name of the fault.
    pub fn name(self) -> &'static str
        ensures { result.now ≡ stream_fault_name self }
    {
        match self {
            StreamFault::Engine(fault) => fault.name(),
            StreamFault::Frame(_) => "frame",
            StreamFault::CutOff => "cut-off",
            StreamFault::BodyMemory => "memory",
        }
    }
}

impl Error for StreamFault {}

impl fmt::Display for StreamFault {
    ghost use Rattle.std.specs.Prelude.{Some};

    ghost output = { λ fault. Some (stream_fault_name fault) };

    fn fmt<W: fmt::Write>(&self, f: &mut fmt::Formatter<W>) -> fmt::Result {
        f.write_str(self.name())
    }
}
