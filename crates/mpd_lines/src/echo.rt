//! Lines that are shown before their answers, as a terminal shows what is typed.
ghost use Rattle.std.specs.Prelude.{◌≡◌, ◌+◌, ◌≤◌, ◌++◌, length, vec_len, vec_capacity};
ghost use Rattle.mpd_lines.specs.Echo.{echo, long_echo};

use crate::desk::{LINE_ROOM, ROOM};
use crate::room::push_all;
use mpd_model::LINE_MAX;

/// Bytes that a mark before a line has at most.
pub const MARK_MAX: usize = 32;

/// What is shown of a line that has more bytes than a line may have.
const LONG: &[u8] = b"..";

/// Adds a line as it was read, after a mark, and the line feed that ends it. Room for a short answer is left.
#[tactic(auto, using(crate::proofs::EchoLaws::echoing))]
pub fn push_echo(out: &mut Vec<u8>, mark: &[u8], line: &[u8])
    requires mark { length mark.now ≤ MARK_MAX }
    requires line { length line.now ≤ LINE_MAX }
    requires room { vec_len out.old + LINE_ROOM ≤ vec_capacity out.old }
    ensures text { out.new.items ≡ out.old.items ++ echo mark.now line.now }
    ensures room { vec_len out.new + ROOM ≤ vec_capacity out.new }
    ensures capacity { vec_capacity out.old ≤ vec_capacity out.new }
{
    push_all(out, mark);
    push_all(out, line);
    push_all(out, b"\n");
}

/// The same of a line that has more bytes than a line may have, which was not kept: two dots stand for it.
#[tactic(auto, using(crate::proofs::EchoLaws::echoing))]
pub fn push_long_echo(out: &mut Vec<u8>, mark: &[u8])
    requires mark { length mark.now ≤ MARK_MAX }
    requires room { vec_len out.old + LINE_ROOM ≤ vec_capacity out.old }
    ensures text { out.new.items ≡ out.old.items ++ long_echo mark.now }
    ensures room { vec_len out.new + ROOM ≤ vec_capacity out.new }
    ensures capacity { vec_capacity out.old ≤ vec_capacity out.new }
{
    push_all(out, mark);
    push_all(out, LONG);
    push_all(out, b"\n");
}
