//! Desks: what answers lines.
ghost use Rattle.std.specs.Prelude.{◌≡◌, ℕ, ◌+◌, ◌<◌, ◌≤◌, List, ◌++◌, length, vec_len, vec_capacity};

use mpd_model::LINE_MAX;

/// Bytes that a short answer has room for.
pub const ROOM: usize = 64;

/// Bytes that a buffer of answers has room for whenever a line is answered: for a short answer, and
/// before it for the line, after a mark.
pub const LINE_ROOM: usize = LINE_MAX + 2 * ROOM;

/// A desk answers lines. An answer that fits into the reserved room takes no memory. If memory for
/// a longer one is refused, the desk says so in that room. So each line is answered.
pub trait LineDesk {
    ghost use Rattle.std.specs.Prelude.{Bool};

    /// Whether answers are gathered, up to 64 KiB of them, and written together; else each is written before the next line is asked.
    ghost gathers: { Bool };

    /// The same, told to the engine.
    fn is_gathering(&self) -> bool
        ensures { result ≡ gathers };

    /// The desk before, the line, the text of the answer, and the desk after.
    ghost says: { Self → List ℕ → List ℕ → Self → Type 0 };

    /// Adds the answer to a line.
    fn answer(&mut self, line: &[u8], out: &mut Vec<u8>)
        requires line { length line.now ≤ LINE_MAX }
        requires room { vec_len out.old + LINE_ROOM ≤ vec_capacity out.old }
        ensures said { (text : List ℕ) × (out.new.items ≡ out.old.items ++ text) × says self.old line.now text self.new }
        ensures capacity { vec_capacity out.old ≤ vec_capacity out.new };

    /// Adds the answer to a line that is too long, whichever it is.
    fn refuse_long(&mut self, out: &mut Vec<u8>)
        requires room { vec_len out.old + LINE_ROOM ≤ vec_capacity out.old }
        ensures said { (text : List ℕ) × (out.new.items ≡ out.old.items ++ text) × ((line : List ℕ) → LINE_MAX < length line → says self.old line text self.new) }
        ensures capacity { vec_capacity out.old ≤ vec_capacity out.new };
}
