//! How ranks are at the end of a run, and whom they wait for (docs/PICTURES.md, "Shapes").

ghost use Rattle.std.specs.Prelude.{◌≡◌, ◌++◌, OnOk, IfOk};
ghost use Rattle.mpd_model.specs.steps.Next.{is_at_barrier};
ghost use Rattle.mpd_model.specs.steps.Outcomes.{is_stuck};
ghost use Rattle.mpd_picture.specs.Ends as spec;

use mpd_core::Core;
use mpd_model::{CallId, CallKind, Trap, is_barrier};
use mpd_names::{PlacedCall, Stands, is_blocked, stands};
use std::alloc::{AllocError, Global};
use std::fmt;

/// Whom a rank waits for. Its words are `for rank 1`.
#[derive(Clone, Copy)]
pub enum Wanted {
    /// One rank.
    Rank(usize),
    /// Any rank, of a receive of any source.
    AnyRank,
    /// All that are not at the barrier, if that isn't one.
    AllRanks,
    /// A request of its own.
    Request,
}

impl fmt::Display for Wanted {
    fn fmt<W: fmt::Write>(&self, f: &mut fmt::Formatter<W>) -> fmt::Result {
        match *self {
            Wanted::Rank(rank) => write!(f, "for rank {rank}"),
            Wanted::AnyRank => write!(f, "for any rank"),
            Wanted::AllRanks => write!(f, "for all ranks"),
            Wanted::Request => write!(f, "for a request"),
        }
    }
}

/// How a rank is at the end of a run, and at which line of the script, from 1, it stands.
#[derive(Clone, Copy)]
pub enum Finish {
    /// It has no statement left.
    Ended,
    /// It can go on with its next statement.
    Running(usize),
    /// It is blocked, and some step is enabled.
    Held(usize, Wanted),
    /// It is blocked, and no step is enabled.
    Blocked(usize, Wanted),
    /// It was trapped.
    Trapped(usize, Trap),
}

/// The call of a rank with that number, if it is one.
fn target_kind(core: &Core<'_>, rank: usize, target: Option<usize>) -> Option<CallKind>
    ensures { result ≡ spec.target_kind core.now.world.board rank target }
{
    match target {
        None => None,
        Some(index) => core.board().kind(CallId { rank, index }),
    }
}

/// What a rank that is in such a call waits for: of a wait the call that it is for.
fn wanted_kind(core: &Core<'_>, rank: usize, kind: Option<CallKind>) -> Option<CallKind>
    ensures { result ≡ spec.wanted_kind core.now.world.board rank kind }
{
    match kind {
        Some(CallKind::Wait(wait)) => target_kind(core, rank, wait.target),
        kind => kind,
    }
}

/// Whether a rank is blocked at a barrier.
fn is_there(core: &Core<'_>, rank: usize) -> bool
    ensures { result ≡ is_at_barrier core.now.world rank }
{
    is_blocked(core, rank) && is_barrier(core.board().kind(core.board().last_call(rank)))
}

/// Adds a rank that isn't at a barrier.
fn push_absent(core: &Core<'_>, absent: &mut Vec<usize>, rank: usize) -> Result<(), AllocError>
    ensures { OnOk result (absent.new.items ≡ absent.old.items
        ++ spec.absent_at core.now.world rank) }
{
    if !is_there(core, rank) {
        absent.push(rank)?;
    }
    Ok(())
}

/// The ranks that are not at a barrier.
fn absent_ranks(alloc: Global, core: &Core<'_>) -> Result<Vec<usize>, AllocError>
    ensures { IfOk result (λ absent. absent.items ≡ spec.absent core.now.world) }
{
    let mut absent = Vec::new(alloc);
    let count = core.rank_count();
    for rank in 0..count {
        push_absent(core, &mut absent, rank)?;
    }
    Ok(absent)
}

/// Whom a barrier is for at which some ranks are lacking.
fn for_absent(ranks: &[usize]) -> Wanted
    ensures { result ≡ spec.for_absent ranks.now }
{
    match ranks {
        [rank] => Wanted::Rank(*rank),
        _ => Wanted::AllRanks,
    }
}

/// Whom a receive is for.
fn for_source(from: Option<usize>) -> Wanted
    ensures { result ≡ spec.for_source from }
{
    match from {
        None => Wanted::AnyRank,
        Some(rank) => Wanted::Rank(rank),
    }
}

/// Whom a call is for. `Err` means that memory was refused.
fn wanted_by(alloc: Global, core: &Core<'_>, kind: Option<CallKind>) -> Result<Wanted, AllocError>
    ensures { IfOk result (λ whom. whom ≡ spec.wanted_by core.now.world kind) }
{
    match kind {
        Some(CallKind::Send(send)) => Ok(Wanted::Rank(send.to)),
        Some(CallKind::Recv(recv)) => Ok(for_source(recv.from)),
        Some(CallKind::Barrier) => {
            let absent = absent_ranks(alloc, core)?;
            Ok(for_absent(&absent))
        }
        None | Some(CallKind::Wait(_)) | Some(CallKind::Waitany(_)) => Ok(Wanted::Request),
    }
}

/// How a rank is that is blocked in this call. `Err` means that memory was refused.
fn waiting(alloc: Global, core: &Core<'_>, call: PlacedCall) -> Result<Finish, AllocError>
    ensures { IfOk result (λ how. how
        ≡ spec.waiting (is_stuck core.now.world) call.line (spec.wanted_of core.now.world call)) }
{
    let kind = wanted_kind(core, call.call.rank, call.kind);
    let whom = wanted_by(alloc, core, kind)?;
    if core.is_stuck() {
        Ok(Finish::Blocked(call.line, whom))
    } else {
        Ok(Finish::Held(call.line, whom))
    }
}

/// How a rank is. `Err` means that memory was refused.
pub(crate) fn finish_of(alloc: Global, core: &Core<'_>, rank: usize) -> Result<Finish, AllocError>
    ensures { IfOk result (λ how. how ≡ spec.finish_of core.now.program core.now.world rank) }
{
    match stands(core, rank) {
        None | Some(Stands::Ended) => Ok(Finish::Ended),
        Some(Stands::At(line)) => Ok(Finish::Running(line)),
        Some(Stands::Waits(call)) | Some(Stands::CanGoOn(call)) => waiting(alloc, core, call),
        Some(Stands::Trapped(line, trap)) => Ok(Finish::Trapped(line, trap)),
    }
}
