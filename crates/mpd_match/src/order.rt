//! Which call of a rank completes before another (MPI 4.0, sections 3.5, 3.7.4 and 6.3).
ghost use Rattle.std.specs.Prelude.{◌≡◌, ℕ, true, List, Some};
ghost use Rattle.mpd_model.specs.declared.call.Mode.{Mode};
ghost use Rattle.mpd_model.specs.declared.step.Step.{Step};
ghost use Rattle.mpd_model.specs.script.Program.{Program};
ghost use Rattle.mpd_model.specs.steps.World.{World, start};
ghost use Rattle.mpd_model.specs.steps.Next.{fold};
ghost use Rattle.mpd_model.specs.steps.Order.{same_envelope_as, covers_number as covering_number, is_covered_by, matches_first as first_of_two, waits_for as awaiting, blocks_rank, before, Ordered};

use crate::board::Board;
use mpd_laws::ordering;
use mpd_model::{CallId, CallKind, RecvCall, SendCall, blocks};

/// Whether the other call is a send of the same destination and tag.
fn is_same_envelope(send: SendCall, other: Option<CallKind>) -> bool
    ensures { result ≡ same_envelope_as send other }
{
    match other {
        Some(CallKind::Send(other)) => send.to == other.to && send.tag == other.tag,
        _ => false,
    }
}

/// Whether it takes what the other source or tag takes.
fn covers_number(wanted: Option<usize>, other: Option<usize>) -> bool
    ensures { result ≡ covering_number wanted other }
{
    match (wanted, other) {
        (None, _) => true,
        (Some(wanted), Some(other)) => wanted == other,
        (Some(_), None) => false,
    }
}

/// Whether the other call is a receive, and each message that it takes is one for this receive.
fn covers(recv: RecvCall, other: Option<CallKind>) -> bool
    ensures { result ≡ is_covered_by recv other }
{
    match other {
        Some(CallKind::Recv(other)) => {
            covers_number(recv.from, other.from) && covers_number(recv.tag, other.tag)
        }
        _ => false,
    }
}

/// Whether they are two sends or two receives, of which the first is to be matched first (MPI 4.0, section 3.5).
fn matches_first(first: Option<CallKind>, second: Option<CallKind>) -> bool
    ensures { result ≡ first_of_two first second }
{
    match first {
        Some(CallKind::Send(send)) => is_same_envelope(send, second),
        Some(CallKind::Recv(recv)) => covers(recv, second),
        _ => false,
    }
}

/// Whether it is a wait for the call of that number (MPI 4.0, section 3.7.3).
fn waits_for(kind: Option<CallKind>, index: usize) -> bool
    ensures { result ≡ awaiting kind index }
{
    match kind {
        Some(CallKind::Wait(wait)) => wait.target == Some(index),
        _ => false,
    }
}

/// Whether a rank that issues it waits for it.
fn is_blocking(kind: Option<CallKind>) -> bool
    ensures { result ≡ blocks_rank kind }
{
    match kind {
        Some(kind) => blocks(kind),
        None => false,
    }
}

impl Board {
    /// Whether the first of two calls completes before the second: one rank issued both, the first
    /// one earlier, and both are sends of the same destination and tag, or receives of which the
    /// first takes each message that the second takes; or the second is a wait for the first, or
    /// the rank waits for the first, as for each barrier (MPI 4.0, sections 3.5, 3.7.4 and 6.3). A
    /// call that doesn't exist stands in no order.
    ///
    /// If so, every run that leads to this board shows the two in that order.
    pub fn before(&self, first: CallId, second: CallId) -> bool
        ensures before { result ≡ before self.now.board first second }
        ensures order { (s : Program) → (mode : Mode) → (steps : List Step) → (w : World) → fold (start s mode) steps ≡ Some w → w.board ≡ self.now.board → result ≡ true → Ordered self.now.board first second }
    {
        ordering::calls_complete_in_order();
        let first_kind = self.kind(first);
        let second_kind = self.kind(second);
        first.rank == second.rank
            && first.index < second.index
            && second_kind.is_some()
            && (matches_first(first_kind, second_kind)
                || waits_for(second_kind, first.index)
                || is_blocking(first_kind))
    }
}
