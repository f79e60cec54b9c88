//! What answers messages.
ghost use Rattle.std.specs.Prelude.{◌≡◌, ℕ, ◌+◌, ◌≤◌, Bool, false, List, ◌++◌, length, vec_len, vec_capacity};
ghost use Rattle.std.specs.List.{flat_map};
ghost use Rattle.mpd_frames.specs.Frame.{frame_text};

use crate::limits::{BODY_MAX, FRAME_ROOM};

/// What answers messages, each by the body of its frame. The desk answers with any number of whole frames. An answer that fits into
/// the room takes no memory; where a longer one is refused memory, the desk says so in the room. So a message is always answered.
pub trait FrameDesk {
    ghost use Rattle.std.specs.Prelude.{Bool};

    /// The desk before, the body of the message, the bodies of the frames that answer it, and the desk after.
    ghost says: { Self → List ℕ → List (List ℕ) → Self → Type 0 };

    /// Whether the desk takes no more messages: then the session ends, with its last answer written.
    ghost over: { Self → Bool };

    /// The same, told to the engine.
    fn is_over(&self) -> bool
        ensures { result ≡ over self.now };

    /// Adds the frames that answer a message.
    fn answer(&mut self, body: &[u8], out: &mut Vec<u8>)
        requires waiting { over self.old ≡ false }
        requires body { length body.now ≤ BODY_MAX }
        requires room { vec_len out.old + FRAME_ROOM ≤ vec_capacity out.old }
        ensures said { (told : List (List ℕ)) × (out.new.items ≡ out.old.items ++ flat_map frame_text told) × says self.old body.now told self.new }
        ensures capacity { vec_capacity out.old ≤ vec_capacity out.new };
}
