//! The limits of a frame. Each stands here once: code and definitions cite it.

/// Bytes of a header, with the empty line that ends it.
pub const HEADER_MAX: usize = 4_096;

/// Bytes of a body.
pub const BODY_MAX: usize = 1_048_576;

/// Bytes of a body that there is always room for.
pub const BODY_ROOM: usize = 65_536;

/// Bytes that a buffer of answers has room for whenever a message is answered.
pub const FRAME_ROOM: usize = 512;
