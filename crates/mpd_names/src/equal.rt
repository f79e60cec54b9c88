//! Whether two calls with their places are one, and where two ranks stand, and what two ranks hold.

ghost use Rattle.std.specs.Prelude.{◌≡◌};
ghost use Rattle.std.specs.Bool.{Decides};
ghost use Rattle.mpd_names.specs.declared.place.Stands.TheVariants as at;

use crate::holding::{Held, Holding};
use crate::place::{PlacedCall, Stands};
use mpd_model::{CallKind, RecvCall, SendCall, StatusCells, Trap, WaitCall, WaitanyCall};

// ---- calls

/// Whether two sends are one.
fn same_send(one: SendCall, other: SendCall) -> bool
    ensures { Decides result (one ≡ other) }
{
    one.to == other.to
        && one.tag == other.tag
        && one.value == other.value
        && one.synchronous == other.synchronous
        && one.blocks == other.blocks
        && one.buffered == other.buffered
}

/// Whether a source and a tag go to the same cells.
fn same_cells(one: StatusCells, other: StatusCells) -> bool
    ensures { Decides result (one ≡ other) }
{
    one.source == other.source && one.tag == other.tag
}

/// Whether they do, or go to none.
fn same_status(one: Option<StatusCells>, other: Option<StatusCells>) -> bool
    ensures { Decides result (one ≡ other) }
{
    match one {
        None => other.is_none(),
        Some(cells) => matches!(other, Some(also) if same_cells(cells, also)),
    }
}

/// Whether two receives are one.
fn same_receive(one: RecvCall, other: RecvCall) -> bool
    ensures { Decides result (one ≡ other) }
{
    one.from == other.from
        && one.tag == other.tag
        && one.cell == other.cell
        && same_status(one.status, other.status)
        && one.blocks == other.blocks
}

/// Whether two waits are one.
fn same_wait(one: WaitCall, other: WaitCall) -> bool
    ensures { Decides result (one ≡ other) }
{
    one.handle == other.handle && one.target == other.target
}

/// Whether two waits for one of several are one.
fn same_waitany(one: WaitanyCall, other: WaitanyCall) -> bool
    ensures { Decides result (one ≡ other) }
{
    one.first == other.first
        && one.count == other.count
        && one.cell == other.cell
        && one.active == other.active
}

/// Whether two calls are the same.
fn same_kind(one: CallKind, other: CallKind) -> bool
    ensures { Decides result (one ≡ other) }
{
    match one {
        CallKind::Send(send) => matches!(other, CallKind::Send(also) if same_send(send, also)),
        CallKind::Recv(recv) => matches!(other, CallKind::Recv(also) if same_receive(recv, also)),
        CallKind::Wait(wait) => matches!(other, CallKind::Wait(also) if same_wait(wait, also)),
        CallKind::Waitany(any) => {
            matches!(other, CallKind::Waitany(also) if same_waitany(any, also))
        }
        CallKind::Barrier => matches!(other, CallKind::Barrier),
    }
}

/// Whether they are, or there are none.
fn same_kinds(one: Option<CallKind>, other: Option<CallKind>) -> bool
    ensures { Decides result (one ≡ other) }
{
    match one {
        None => other.is_none(),
        Some(kind) => matches!(other, Some(also) if same_kind(kind, also)),
    }
}

/// Whether two calls are one, at one place.
pub fn same_call(one: PlacedCall, other: PlacedCall) -> bool
    ensures { Decides result (one ≡ other) }
{
    one.call == other.call && one.line == other.line && same_kinds(one.kind, other.kind)
}

// ---- ranks

/// Whether a rank is trapped so at this line.
fn is_trapped(stands: Stands, line: usize, trap: Trap) -> bool
    ensures { Decides result (at.Trapped line trap ≡ stands) }
{
    match stands {
        Stands::Trapped(also, why) => also == line && why == trap,
        _ => false,
    }
}

/// Whether two ranks stand alike.
fn same_standing(one: Stands, other: Stands) -> bool
    ensures { Decides result (one ≡ other) }
{
    match one {
        Stands::Ended => matches!(other, Stands::Ended),
        Stands::At(line) => matches!(other, Stands::At(also) if also == line),
        Stands::Waits(call) => matches!(other, Stands::Waits(also) if same_call(call, also)),
        Stands::CanGoOn(call) => matches!(other, Stands::CanGoOn(also) if same_call(call, also)),
        Stands::Trapped(line, trap) => is_trapped(other, line, trap),
    }
}

/// Whether two ranks stand alike, or nowhere.
pub fn same_stands(one: Option<Stands>, other: Option<Stands>) -> bool
    ensures { Decides result (one ≡ other) }
{
    match one {
        None => other.is_none(),
        Some(stands) => matches!(other, Some(also) if same_standing(stands, also)),
    }
}

// ---- what ranks hold

/// Whether two lists of values are one.
fn same_values(one: &[i64], other: &[i64]) -> bool
    ensures { Decides result (one.now ≡ other.now) }
{
    one == other
}

/// Whether two lists of requests are one.
fn same_requests(one: &[Option<usize>], other: &[Option<usize>]) -> bool
    ensures { Decides result (one.now ≡ other.now) }
{
    one == other
}

/// Whether the same is held.
fn same_held(one: &Held, other: &Held) -> bool
    ensures { Decides result (one.now ≡ other.now) }
{
    match one {
        Held::Values(values) => {
            matches!(other, Held::Values(also) if same_values(&also.items, &values.items))
        }
        Held::Calls(calls) => {
            matches!(other, Held::Calls(also) if same_requests(&also.items, &calls.items))
        }
    }
}

/// Whether the same is held in one declaration.
fn same_holding(one: &Holding, other: &Holding) -> bool
    ensures { Decides result (one.now ≡ other.now) }
{
    one.declaration == other.declaration && same_held(&one.held, &other.held)
}

/// Whether the same is held in the same declarations, in one order.
pub fn same_holdings(one: &[Holding], other: &[Holding]) -> bool
    ensures { Decides result (one.now ≡ other.now) }
{
    if one.len() != other.len() {
        return false;
    }
    for number in 0..one.len() {
        if !same_holding(&one[number], &other[number]) {
            return false;
        }
    }
    true
}
