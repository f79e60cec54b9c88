//! Frames of the Debug Adapter Protocol: what comes in pieces is cut into frames, a desk answers the body of each with whole frames,
//! and its answer is written before the next body is asked, and before the next read.
//!
//! A frame is a header and a body. The header is lines, each ended by a carriage return and a line feed, up to an empty one; it has at
//! most 4,096 bytes with that. One line is `Content-Length:`, in letters of either case, and a number of 1 to 7 digits with spaces and
//! tabs around it, 1,048,576 at most; the body has so many bytes, and none may be too. All other lines are passed over. A header that
//! gives no length, two, or one that is no such number, or has no empty line among its first 4,096 bytes, ends the session with a
//! fault, once all frames before it are answered. So does the end of the input within a frame.
//!
//! The buffers for a header, for the first 64 KiB of a body and for answers are taken before the first read. A longer body takes
//! memory as it comes, and none for what the header says and doesn't come.
#![tactic(auto)]

pub mod desk;
pub mod engine;
pub mod fault;
mod header;
pub mod laws;
pub mod limits;
mod outbox;
mod reader;
pub mod write;

pub use desk::FrameDesk;
pub use engine::{Ending, run, run_in};
pub use fault::{FrameFault, StreamFault};
pub use laws::{
    frames_are_read_again, frames_are_the_same_in_all_pieces, frames_can_be_read_in_one_way,
};
pub use limits::{BODY_MAX, BODY_ROOM, FRAME_ROOM, HEADER_MAX};
pub use write::push_frame;
