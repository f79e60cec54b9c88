//! What is read off the kinds of calls.
ghost use Rattle.std.specs.Prelude.{◌≡◌, ◌≤◌, ◌||◌, ℕ, Some};
ghost use Rattle.mpd_model.specs.steps.World.{is_any_or as any_or, fitting, is_message_kind as message_kind, message_of as message_in, is_buffered as buffered_in, awaited_by as awaited_in, has_own_step as own_step_of};
ghost use Rattle.mpd_model.specs.steps.Next.{HasReceiver, buffered_by as given_buffer};
ghost use Rattle.mpd_match.specs.Changes.{issue_writes};
ghost use Rattle.mpd_match.specs.Lines.{line_of as line_in, takes_from as taken_from, fitting_either};
ghost use Rattle.mpd_model.specs.runs.Decisions.{takes_any as taken_from_any};
ghost use Rattle.mpd_match.specs.Picked.{named_source as source_in};

use mpd_model::{CallId, CallKind, Message, RANKS_MAX, SendCall, is_barrier};

/// The line of a side that a call waits in while it is free, if it waits in one.
pub(crate) fn line_of(kind: CallKind) -> Option<usize>
    requires { (line : ℕ) → line_in (Some kind) ≡ Some line → line ≤ RANKS_MAX }
    ensures { result ≡ line_in (Some kind) }
{
    match kind {
        CallKind::Send(send) => Some(send.to + 1),
        CallKind::Recv(_) => Some(0),
        _ => None,
    }
}

/// Whether a source or a tag that a receive takes is this number: `None` is any (MPI 4.0, section 3.2.4).
pub fn is_any_or(wanted: Option<usize>, number: usize) -> bool
    ensures { result ≡ any_or wanted number }
{
    match wanted {
        None => true,
        Some(wanted) => wanted == number,
    }
}

/// Whether it is a receive whose source is any, or this rank (MPI 4.0, section 3.2.4).
pub(crate) fn takes_from(kind: Option<CallKind>, sender: usize) -> bool
    ensures { result ≡ taken_from kind sender }
{
    match kind {
        Some(CallKind::Recv(recv)) => is_any_or(recv.from, sender),
        _ => false,
    }
}

/// The source that a receive names, if any.
pub(crate) fn named_source(kind: Option<CallKind>) -> Option<usize>
    ensures { result ≡ source_in kind }
{
    match kind {
        Some(CallKind::Recv(recv)) => recv.from,
        _ => None,
    }
}

/// Whether it is a receive of any source.
pub(crate) fn takes_any(kind: Option<CallKind>) -> bool
    ensures { result ≡ taken_from_any kind }
{
    match kind {
        Some(CallKind::Recv(recv)) => recv.from.is_none(),
        _ => false,
    }
}

/// Whether the second is a receive that fits the first, a send (MPI 4.0, section 3.2.4).
pub(crate) fn is_fitting(
    send: Option<CallKind>,
    recv: Option<CallKind>,
    sender: usize,
    receiver: usize,
) -> bool
    ensures { result ≡ fitting send recv sender receiver }
{
    match (send, recv) {
        (Some(CallKind::Send(send)), Some(CallKind::Recv(recv))) => {
            send.to == receiver && is_any_or(recv.from, sender) && is_any_or(recv.tag, send.tag)
        }
        _ => false,
    }
}

/// Whether one of the two is a send of the sender to the receiver, and the other a receive that fits it.
pub(crate) fn is_fitting_either(
    one: Option<CallKind>,
    other: Option<CallKind>,
    sender: usize,
    receiver: usize,
) -> bool
    ensures { result ≡ fitting_either one other sender receiver }
{
    is_fitting(one, other, sender, receiver) || is_fitting(other, one, sender, receiver)
}

/// Whether it is a send or a receive.
pub(crate) fn is_message_kind(kind: Option<CallKind>) -> bool
    ensures { result ≡ message_kind kind }
{
    match kind {
        Some(CallKind::Send(_)) | Some(CallKind::Recv(_)) => true,
        _ => false,
    }
}

/// The message of a send.
pub(crate) fn message_of(id: CallId, kind: Option<CallKind>) -> Option<Message>
    ensures { result ≡ message_in id kind }
{
    match kind {
        Some(CallKind::Send(send)) => Some(Message {
            value: send.value,
            source: id.rank,
            tag: send.tag,
        }),
        _ => None,
    }
}

/// Whether a call is a send that was buffered as it was issued (MPI 4.0, section 3.4).
pub(crate) fn is_buffered(kind: Option<CallKind>) -> bool
    ensures { result ≡ buffered_in kind }
{
    match kind {
        Some(CallKind::Send(send)) => send.buffered,
        _ => false,
    }
}

/// The call with the buffer that there is, if it is a standard send (MPI 4.0, section 3.4).
pub(crate) fn buffered_by(room: bool, kind: CallKind) -> CallKind
    ensures value { result ≡ given_buffer room kind }
    ensures receiver { (ranks : ℕ) → HasReceiver ranks kind → HasReceiver ranks result }
    ensures writes { issue_writes (Some result) ≡ issue_writes (Some kind) }
{
    match kind {
        CallKind::Send(send) => CallKind::Send(SendCall {
            buffered: room && !send.synchronous,
            ..send
        }),
        _ => kind,
    }
}

/// The call that a rank waits for while it is blocked on a call of this kind, if any.
pub(crate) fn awaited_by(id: CallId, kind: Option<CallKind>) -> Option<CallId>
    ensures { result ≡ awaited_in id kind }
{
    match kind {
        Some(CallKind::Wait(wait)) => {
            let index = wait.target?;
            Some(CallId {
                rank: id.rank,
                index,
            })
        }
        Some(CallKind::Waitany(_)) => None,
        _ => Some(id),
    }
}

/// Whether its rank goes on from it by a step of its own: from a barrier as all ranks do, from a waitany by the request that is
/// chosen.
pub(crate) fn has_own_step(kind: Option<CallKind>) -> bool
    ensures { result ≡ own_step_of kind }
{
    match kind {
        Some(CallKind::Waitany(wait)) => wait.active,
        _ => is_barrier(kind),
    }
}
