//! Steps that no other can touch, and the first of them that is enabled.

ghost use Rattle.std.specs.Prelude.{◌≡◌, ◌<◌, ◌&&◌, length};
ghost use Rattle.std.specs.List.{filter};
ghost use Rattle.mpd_model.specs.steps.World as worlds;
ghost use Rattle.mpd_model.specs.steps.Next.{is_enabled, local_at};
ghost use Rattle.mpd_model.specs.steps.Why.{first_in};
ghost use Rattle.mpd_model.specs.runs.Decisions as decisions;
ghost use Rattle.mpd_model.specs.runs.Decisions.{first_enabled};
ghost use Rattle.mpd_match.specs.Matches.{matches_from, matches_with, matches_at, matches_on};
ghost use Rattle.mpd_policy.specs.Wide as wide;

use crate::decisions::{first_wake, forced_step, release};
use mpd_core::Core;
use mpd_counter::Counter;
use mpd_model::{CallId, CallKind, Mode, Step};
use mpd_rank::LocalPlan;

/// Whether a call is a standard send.
fn is_standard(kind: Option<CallKind>) -> bool
    ensures { result ≡ wide.is_standard kind }
{
    match kind {
        Some(CallKind::Send(send)) => !send.synchronous,
        _ => false,
    }
}

/// Whether a call is a send that was buffered as it was issued.
pub(crate) fn is_buffered(kind: Option<CallKind>) -> bool
    ensures { result ≡ worlds.is_buffered kind }
{
    match kind {
        Some(CallKind::Send(send)) => send.buffered,
        _ => false,
    }
}

/// Whether a call is a receive that names its source.
fn names_source(kind: Option<CallKind>) -> bool
    ensures { result ≡ decisions.names_source kind }
{
    match kind {
        Some(CallKind::Recv(recv)) => recv.from.is_some(),
        _ => false,
    }
}

/// Whether there are slots, and as many are held.
fn is_full(mode: Mode, held: usize) -> bool
    ensures { result ≡ wide.is_full mode held }
{
    match mode {
        Mode::Slots(count) => 0 < count && !(held < count),
        _ => false,
    }
}

/// Whether the local step of a rank issues a standard send; not if there is none.
pub(crate) fn issues_standard(core: &Core<'_>, rank: usize) -> bool
    ensures { result ≡ wide.issues_standard (local_at core.now.world rank) }
{
    core.all_ranks_are_there();
    if rank >= core.rank_count() {
        return false;
    }
    match core.rank(rank).plan_local(core.code()) {
        None => false,
        Some(LocalPlan::Alone(_)) => false,
        Some(LocalPlan::Issue { issue, next: _ }) => is_standard(Some(issue.kind)),
    }
}

/// Whether there are slots, and a rank holds as many.
pub(crate) fn holds_all(core: &Core<'_>, rank: usize) -> bool
    ensures { result ≡ wide.is_full core.now.world.board.mode (worlds.slots_used core.now.world.board rank) }
{
    is_full(core.board().mode(), core.board().slots_used(rank))
}

/// Whether a rank holds all its slots, and its local step issues a standard send.
fn lacks_slot(core: &Core<'_>, rank: usize) -> bool
    ensures { result ≡ wide.lacks_slot core.now.world rank }
{
    holds_all(core, rank) && issues_standard(core, rank)
}

/// Whether a call is a send that holds a slot until it is matched.
fn frees_slot(core: &Core<'_>, send: CallId) -> bool
    ensures { result ≡ wide.frees_slot core.now.world.board send }
{
    core.board().mode().is_limited() && is_buffered(core.board().kind(send))
}

/// Whether no other step can touch a step that is enabled (docs/DEFINITIONS.md, "The wide walk").
pub fn is_quiet(core: &Core<'_>, step: Step) -> bool
    ensures { result ≡ wide.is_quiet core.now.world step }
{
    match step {
        Step::Local(rank) => !lacks_slot(core, rank),
        Step::Match(send, recv) => {
            names_source(core.board().kind(recv)) && !frees_slot(core, send)
        }
        Step::WakeAny { .. } => false,
        Step::Wake(_) | Step::Release => true,
    }
}

/// Whether a step is enabled and quiet.
fn is_enabled_quiet(core: &Core<'_>, step: Step) -> bool
    ensures { result ≡ (is_enabled core.now.world step && wide.is_quiet core.now.world step) }
{
    core.is_enabled(step) && is_quiet(core, step)
}

/// The quiet local step of the lowest rank that has one.
fn first_quiet_local(core: &Core<'_>) -> Option<Step>
    ensures { result ≡ first_enabled core.now.world (wide.is_quiet_local core.now.world) }
{
    let count = core.rank_count();
    for rank in 0..count {
        if is_enabled_quiet(core, Step::Local(rank)) {
            return Some(Step::Local(rank));
        }
    }
    None
}

/// The match of a receive with a send of that rank, if one is enabled and quiet.
#[tactic(auto, using(crate::proofs::QuietLemmas::from_one))]
fn quiet_match_from(core: &Core<'_>, sender: usize, recv: CallId) -> Option<Step>
    requires { sender < length core.now.world.board.calls }
    ensures { result ≡ first_in (filter (wide.is_quiet core.now.world) (matches_from core.now.world.board recv sender)) }
{
    let mut looks = Counter::new();
    let Some(index) = core.board().candidate(sender, recv, &mut looks) else {
        return None;
    };
    let send = CallId {
        rank: sender,
        index,
    };
    let step = Step::Match(send, recv);
    if is_quiet(core, step) {
        return Some(step);
    }
    None
}

/// The first quiet match of a receive, by sender. Of a receive of any source none is.
#[tactic(auto, using(crate::proofs::QuietLemmas::of_any))]
fn quiet_match_with(core: &Core<'_>, recv: CallId) -> Option<Step>
    ensures { result ≡ first_in (filter (wide.is_quiet core.now.world) (matches_with core.now.world.board recv)) }
{
    if !names_source(core.board().kind(recv)) {
        return None;
    }
    let count = core.rank_count();
    for sender in 0..count {
        let found = quiet_match_from(core, sender, recv);
        if found.is_some() {
            return found;
        }
    }
    None
}

/// The first quiet match of a receiver, by receive and sender. Its free receives are walked, and no others.
fn quiet_match_at(core: &Core<'_>, receiver: usize) -> Option<Step>
    requires { receiver < length core.now.world.board.calls }
    ensures { result ≡ first_in (filter (wide.is_quiet core.now.world) (matches_at core.now.world.board receiver)) }
{
    let board = core.board();
    let mut looks = Counter::new();
    let mut here = board.first_posted(receiver, &mut looks);
    'walk: while let Some(index) = here {
        let recv = CallId {
            rank: receiver,
            index,
        };
        let found = quiet_match_with(core, recv);
        if found.is_some() {
            return found;
        }
        here = board.next_free(recv, &mut looks);
    }
    None
}

/// The first quiet match, by receiver, receive and sender, sought along the lists of free calls.
fn quiet_match_among(core: &Core<'_>) -> Option<Step>
    ensures { result ≡ first_in (filter (wide.is_quiet core.now.world) (matches_on core.now.world.board)) }
{
    let count = core.rank_count();
    for receiver in 0..count {
        let found = quiet_match_at(core, receiver);
        if found.is_some() {
            return found;
        }
    }
    None
}

/// The first quiet step that is enabled, looked for by kinds: a local step, else the release, else a wake, else a match.
#[tactic(auto, using(crate::proofs::QuietLemmas::by_kinds))]
fn first_quiet_by_kind(core: &Core<'_>) -> Option<Step>
    ensures { result ≡ first_enabled core.now.world (wide.is_quiet core.now.world) }
{
    let local = first_quiet_local(core);
    if local.is_some() {
        return local;
    }
    let release = release(core);
    if release.is_some() {
        return release;
    }
    let wake = first_wake(core);
    if wake.is_some() {
        return wake;
    }
    quiet_match_among(core)
}

/// The first quiet step that is enabled: a local step, else the release, else a wake, else a match.
/// If buffers never run out, it is the forced step. Takes no memory.
#[tactic(auto, using(crate::proofs::QuietLemmas::where_ample))]
pub fn first_quiet(core: &Core<'_>) -> Option<Step>
    ensures { result ≡ first_enabled core.now.world (wide.is_quiet core.now.world) }
{
    if core.board().mode().is_limited() {
        return first_quiet_by_kind(core);
    }
    forced_step(core)
}
