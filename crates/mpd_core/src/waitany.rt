//! What is read off a wait for one of several requests (MPI 4.0, section 3.7.5).

ghost use Rattle.std.specs.Prelude.{◌≡◌, ◌<◌, ◌≤◌, ◌++◌, length, IfSome, IfNone, Some};
ghost use Rattle.mpd_model.specs.steps.Next as next_specs;

use mpd_model::{CallId, CallKind, HANDLES_MAX};
use mpd_rank::Cells;

/// One of the requests: its handle, and the call that this has.
#[derive(Clone, Copy)]
pub struct Request {
    pub handle: usize,
    pub call: CallId,
}

/// How many requests it waits for, if it is a waitany.
pub(crate) fn requests_of(kind: Option<CallKind>) -> usize
    ensures { result ≡ next_specs.requests_of kind }
{
    match kind {
        Some(CallKind::Waitany(wait)) => wait.count,
        _ => 0,
    }
}

/// The handle of the request of an index, if it is below `handles`.
pub(crate) fn request_handle(kind: Option<CallKind>, index: usize, handles: usize) -> Option<usize>
    ensures some { IfSome result (λ handle. next_specs.request_handle kind index ≡ Some handle) }
    ensures within { IfSome result (λ handle. handle < handles) }
    ensures low { IfSome result (λ _. index < handles) }
    ensures none { IfNone result (IfSome (next_specs.request_handle kind index) (λ handle. handles ≤ handle)) }
{
    let Some(CallKind::Waitany(wait)) = kind else {
        return None;
    };
    if index >= wait.count || index >= handles || wait.first >= handles - index {
        return None;
    }
    Some(wait.first + index)
}

/// What a waitany for no request writes: -1, in place of an index.
pub(crate) fn own_writes(kind: Option<CallKind>) -> Cells
    ensures { result ≡ next_specs.own_writes kind }
{
    match kind {
        Some(CallKind::Waitany(wait)) => Cells::one(wait.cell, -1),
        _ => Cells::none(),
    }
}

/// The given writes, and after them that of the index that was chosen.
pub(crate) fn with_index(writes: Cells, kind: Option<CallKind>, index: usize) -> Cells
    requires few { length writes ≤ 3 }
    requires low { index < HANDLES_MAX }
    ensures { result ≡ writes ++ next_specs.index_writes kind index }
{
    match kind {
        Some(CallKind::Waitany(wait)) => writes.and(wait.cell, index as i64),
        _ => writes,
    }
}
