//! The bytes of a source, up to a limit.
ghost use Rattle.std.specs.Prelude.{◌+◌, ◌<◌, ◌^◌, IfOk, IfErr};
ghost use Rattle.mpd_lines.specs.UpTo.{IsRead, IsUnread};

use crate::engine::{EngineFault, READ_MAX};
use crate::room::push_all;
use mpd_model::Source;
use std::alloc::Global;
use std::cmp;

/// Reads a source to its end, or up to the first byte too many: `max + 1` bytes. So more than `max`
/// bytes are returned exactly if the source has more, and then it isn't read to its end.
/// `ReadFailed`: a read failed. `Memory`: memory was refused, before the first read.
#[tactic(auto, using(crate::proofs::UpToLaws::gathering))]
pub fn read_up_to<S: Source>(
    alloc: Global,
    source: &mut S,
    max: usize,
) -> Result<Vec<u8>, EngineFault>
    requires { max + 1 < 2 ^ 64 }
    ensures ok { IfOk result (λ text. IsRead max (S.seen source.old) (S.seen source.new) text.items) }
    ensures err { IfErr result (λ fault. IsUnread max (S.seen source.old) (S.seen source.new) fault) }
{
    let mut buffer = [0u8; READ_MAX];
    let Ok(mut text) = Vec::with_capacity(alloc, max + 1) else {
        return Err(EngineFault::Memory);
    };
    for turn in 0..max + 1 {
        let most = cmp::min(READ_MAX, max + 1 - text.len());
        let (part, _) = buffer.split_at_mut(most);
        let Ok(count) = source.read(part) else {
            return Err(EngineFault::ReadFailed);
        };
        if count == 0 {
            return Ok(text);
        }
        let (piece, _) = part.split_at(count);
        push_all(&mut text, piece);
        if text.len() > max {
            return Ok(text);
        }
    }
    unreachable!()
}
