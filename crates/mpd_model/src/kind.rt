//! What is read off the kind of a call.

ghost use Rattle.std.specs.Prelude.{◌≡◌};
ghost use Rattle.mpd_model.specs.steps.World.{is_barrier};
ghost use Rattle.mpd_model.specs.steps.Next.{blocks};

use crate::call::CallKind;

/// Whether a rank that issues a call of this kind waits for it: `send`, `ssend`, `recv`, a wait and
/// a barrier, but no nonblocking call (MPI 4.0, section 3.7).
pub fn blocks(kind: CallKind) -> bool
    ensures { result ≡ blocks kind }
{
    match kind {
        CallKind::Send(send) => send.blocks,
        CallKind::Recv(recv) => recv.blocks,
        CallKind::Wait(_) | CallKind::Waitany(_) | CallKind::Barrier => true,
    }
}

/// Whether it is a barrier (MPI 4.0, section 6.3).
pub fn is_barrier(kind: Option<CallKind>) -> bool
    ensures { result ≡ is_barrier kind }
{
    match kind {
        Some(CallKind::Barrier) => true,
        _ => false,
    }
}
