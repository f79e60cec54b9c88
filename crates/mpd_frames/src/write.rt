//! Frames as they are written.
ghost use Rattle.std.specs.Prelude.{◌≡◌, ◌+◌, ◌<◌, ◌≤◌, ◌++◌, length, OnOk, OnErr, vec_len, vec_capacity};
ghost use Rattle.mpd_frames.specs.Frame.{frame_text};

use itoa::Buffer;
use mpd_lines::push_all;
use std::alloc::AllocError;

/// How the header of a frame begins that is written.
const NAME: &[u8] = b"Content-Length: ";

/// How it ends: the end of its line, and an empty one.
const BREAKS: &[u8] = b"\r\n\r\n";

/// Adds the frame of a body. An `Err` is want of memory, which there is only where the frame has no room; it adds nothing.
pub fn push_frame(out: &mut Vec<u8>, body: &[u8]) -> Result<(), AllocError>
    ensures items { OnOk result (out.new.items ≡ out.old.items ++ frame_text body.now) }
    ensures same { OnErr result (out.new.items ≡ out.old.items) }
    ensures full { OnErr result (vec_capacity out.old < vec_len out.old + length (frame_text body.now)) }
    ensures capacity { vec_capacity out.old ≤ vec_capacity out.new }
{
    let mut buffer = Buffer::new();
    let digits = buffer.format(body.len()).as_bytes();
    out.reserve(NAME.len() + digits.len() + BREAKS.len() + body.len())?;
    push_all(out, NAME);
    push_all(out, digits);
    push_all(out, BREAKS);
    push_all(out, body);
    Ok(())
}
