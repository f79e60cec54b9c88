//! One of the ranks is changed, or all of them.

ghost use Rattle.std.specs.Prelude.{◌≡◌, ◌<◌, ◌≤◌, ◌+◌, ℕ, length, map, slice_get, replicate, vec_len, IfOk, IfSome, IfNone, IsSome, OnOk, OnErr, Some};
ghost use Rattle.std.specs.Option.{option_map};
ghost use Rattle.std.specs.List.{list_all, range_with_len};
ghost use Rattle.mpd_model.specs.script.Program.{Program};
ghost use Rattle.mpd_model.specs.steps.World.{calls_of, start_rank};
ghost use Rattle.mpd_model.specs.steps.Next.{HasReceiver, with_issued, update_at, woken_rank};
ghost use Rattle.mpd_model.specs.steps.Outcomes.{has_ended};
ghost use Rattle.mpd_match.specs.Changes.{without_last_call};
ghost use Rattle.mpd_rank.specs.Views.{rank_of};
ghost use Rattle.mpd_rank.specs.Undone.{undone_rank, unwoken};
ghost use Rattle.mpd_core.specs.Views.{ranks_in, numbers_in, room_in, writes_in, acting, Holds, HasTags};
ghost use Rattle.mpd_rank.specs.Plans.{HasTag};
ghost use Rattle.mpd_core.specs.OneRank.{CanUnissueIf};
ghost use Rattle.mpd_core.specs.Records.{wake_record_at};
ghost use Rattle.mpd_core.specs.Stepped.{RankStepped, RanksStepped};
ghost use Rattle.mpd_core.specs.CoreStepped.{Spent, Wrote};

use crate::fault::StepFault;
use mpd_code::Code;
use mpd_match::Board;
use mpd_model::{Activity, Call, RANKS_MAX};
use mpd_rank::{Cells, LocalRecord, RankState, WakeRecord};
use std::alloc::{AllocError, Global};

/// `size` ranks before their first step.
#[tactic(auto, using(crate::proofs::RankLemmas::starting))]
pub(crate) fn start_ranks(
    alloc: Global,
    code: &Code,
    size: usize,
) -> Result<Vec<RankState>, AllocError>
    requires few { size ≤ RANKS_MAX }
    ensures ranks { IfOk result (λ ranks. ranks_in code.now.program ranks.items ≡ replicate size (start_rank code.now.program)) }
    ensures numbers { IfOk result (λ ranks. numbers_in ranks.items ≡ range_with_len 0 size) }
    ensures size { IfOk result (λ ranks. vec_len ranks ≡ size) }
    ensures writes { IfOk result (λ ranks. writes_in ranks.items ≡ 0) }
{
    let mut ranks = Vec::new(alloc);
    for rank in 0..size {
        ranks.push(RankState::start(alloc, code, rank as u32)?)?;
    }
    Ok(ranks)
}

/// The same ranks, in memory of their own.
#[tactic(auto, using(crate::proofs::RankLemmas::copying))]
pub(crate) fn copy_ranks(ranks: &Vec<RankState>) -> Result<Vec<RankState>, AllocError>
    ensures ranks { IfOk result (λ copied. (p : Program) → ranks_in p copied.items ≡ ranks_in p ranks.now.items) }
    ensures numbers { IfOk result (λ copied. numbers_in copied.items ≡ numbers_in ranks.now.items) }
    ensures size { IfOk result (λ copied. vec_len copied ≡ vec_len ranks.now) }
    ensures writes { IfOk result (λ copied. writes_in copied.items ≡ 0) }
{
    let mut copied = Vec::new(*ranks.allocator());
    for rank in 0..ranks.len() {
        copied.push(ranks[rank].copy()?)?;
    }
    Ok(copied)
}

/// The call that a rank issues, if it does, joins the board. Returns the call's number, or 0 if
/// there is no call. `Err` means that memory was refused.
#[tactic(auto, using(crate::proofs::StepLemmas::issuing))]
fn issue_on(board: &mut Board, rank: usize, call: Option<Call>) -> Result<u32, AllocError>
    requires rank { rank < length board.old.board.calls }
    requires receiver { IfSome call (λ c. HasReceiver (length board.old.board.calls) c.kind × HasTag (Some c.kind)) }
    ensures number { IfOk result (λ n. IfSome call (λ _. n ≡ length (calls_of board.old.board rank))) }
    ensures none { IfOk result (λ n. IfNone call (n ≡ 0)) }
    ensures small { IfOk result (λ n. n < 4294967295) }
    ensures board { OnOk result (board.new.board ≡ with_issued board.old.board rank call) }
    ensures back { OnOk result (IfSome call (λ _. without_last_call board.new.board rank ≡ board.old.board)) }
    ensures can { OnOk result (CanUnissueIf board.new.board rank call) }
    ensures err { OnErr result (board.new.board ≡ board.old.board) }
    ensures memory { OnErr result (board.old.room ≡ 0) }
    ensures for_a_call { OnErr result (IsSome call) }
    ensures room_left { board.old.room ≤ board.new.room + 1 }
    ensures err_room { OnErr result (board.old.room ≤ board.new.room) }
    ensures rises { board.old.writes ≤ board.new.writes }
    ensures few { board.new.writes ≤ board.old.writes + 7 }
    ensures unwritten { OnErr result (board.new.writes ≡ board.old.writes) }
    ensures ranks { length board.new.board.calls ≡ length board.old.board.calls }
{
    let Some(call) = call else {
        return Ok(0);
    };
    board.keep_room()?;
    Ok(board.issue(rank, call))
}

/// The local step of one rank, whatever it issues, in reserved room there.
#[inline(never)]
#[tactic(auto, using(crate::proofs::StepLemmas::stepping, crate::proofs::TagLemmas::tagging))]
fn step_call(
    code: &Code,
    state: &mut RankState,
    board: &mut Board,
) -> Result<LocalRecord, StepFault>
    requires rank { state.old.rank < length board.old.board.calls }
    requires ranks { length board.old.board.calls ≡ code.now.program.ranks }
    requires room { 1 ≤ state.old.room }
    ensures stepped { RankStepped code.now.program state.old board.old state.new board.new result }
    ensures room { Spent state.old.room state.new.room result }
    ensures board_room { Spent board.old.room board.new.room result }
    ensures writes { Wrote 1 16 (state.old.writes + board.old.writes) (state.new.writes + board.new.writes) result }
    ensures number { state.new.rank ≡ state.old.rank }
    ensures ranks { length board.new.board.calls ≡ length board.old.board.calls }
    ensures tags { HasTags board.old.board → HasTags board.new.board }
{
    let Some(plan) = state.plan_local(code) else {
        return Err(StepFault::NotEnabled);
    };
    let Some(statement) = state.next_statement(code) else {
        unreachable!();
    };
    let number = issue_on(board, state.number(), plan.call(statement))?;
    Ok(state.commit(plan, number as usize))
}

/// The local step of one rank.
#[inline(always)]
#[tactic(auto, using(crate::proofs::StepLemmas::alone, crate::proofs::TagLemmas::tagging))]
fn step_rank(
    code: &Code,
    state: &mut RankState,
    board: &mut Board,
) -> Result<LocalRecord, StepFault>
    requires rank { state.old.rank < length board.old.board.calls }
    requires ranks { length board.old.board.calls ≡ code.now.program.ranks }
    ensures stepped { RankStepped code.now.program state.old board.old state.new board.new result }
    ensures room { Spent state.old.room state.new.room result }
    ensures board_room { Spent board.old.room board.new.room result }
    ensures writes { Wrote 1 16 (state.old.writes + board.old.writes) (state.new.writes + board.new.writes) result }
    ensures number { state.new.rank ≡ state.old.rank }
    ensures ranks { length board.new.board.calls ≡ length board.old.board.calls }
    ensures tags { HasTags board.old.board → HasTags board.new.board }
{
    if state.keep_room().is_err() {
        if state.can_step(code) {
            return Err(StepFault::Memory);
        }
        return Err(StepFault::NotEnabled);
    }
    if let Some(done) = state.step_alone(code) {
        return Ok(done);
    }
    step_call(code, state, board)
}

/// The local step of one of the ranks.
#[inline(always)]
#[tactic(auto, using(crate::proofs::RankLemmas::at_rank))]
pub(crate) fn step_one(
    code: &Code,
    ranks: &mut Vec<RankState>,
    board: &mut Board,
    rank: usize,
) -> Result<LocalRecord, StepFault>
    requires within { rank < vec_len ranks.old }
    requires held { Holds code.now.program ranks.old.items board.old.board }
    ensures stepped { RanksStepped code.now.program rank ranks.old.items board.old ranks.new.items board.new result }
    ensures room { Spent (room_in board.old.room ranks.old.items) (room_in board.new.room ranks.new.items) result }
    ensures writes { Wrote 1 16 (writes_in ranks.old.items + board.old.writes) (writes_in ranks.new.items + board.new.writes) result }
    ensures held { Holds code.now.program ranks.new.items board.new.board }
    ensures size { vec_len ranks.new ≡ vec_len ranks.old }
{
    let state = &mut ranks[rank];
    step_rank(code, state, board)
}

/// Wakes one rank, and returns what takes that back.
#[tactic(auto, using(crate::proofs::RankLemmas::at_rank))]
pub(crate) fn wake_one(
    ranks: &mut Vec<RankState>,
    rank: usize,
    writes: Cells,
    handle: Option<usize>,
) -> WakeRecord
    requires { rank < vec_len ranks.old }
    ensures after { (s : Program) → ranks_in s ranks.new.items ≡ update_at (ranks_in s ranks.old.items) rank (woken_rank writes handle) }
    ensures recorded { (s : Program) → wake_record_at (ranks_in s ranks.old.items) rank writes handle ≡ Some result }
    ensures back { (s : Program) → IfSome (slice_get (ranks_in s ranks.old.items) rank) (λ r. r.activity ≡ Activity.Blocked) → update_at (ranks_in s ranks.new.items) rank (λ r. unwoken r result) ≡ ranks_in s ranks.old.items }
    ensures numbers { numbers_in ranks.new.items ≡ numbers_in ranks.old.items }
    ensures size { vec_len ranks.new ≡ vec_len ranks.old }
    ensures room_left { (board_room : ℕ) → room_in board_room ranks.old.items ≤ room_in board_room ranks.new.items }
    ensures rises { writes_in ranks.old.items + 1 ≤ writes_in ranks.new.items }
    ensures few { writes_in ranks.new.items ≤ writes_in ranks.old.items + 6 }
{
    let state = &mut ranks[rank];
    state.complete(writes, handle)
}

/// Takes the wake of one rank back.
#[tactic(auto, using(crate::proofs::RankLemmas::at_rank))]
pub(crate) fn unwake_one(ranks: &mut Vec<RankState>, rank: usize, done: &WakeRecord)
    requires { rank < vec_len ranks.old }
    ensures after { (s : Program) → ranks_in s ranks.new.items ≡ update_at (ranks_in s ranks.old.items) rank (λ r. unwoken r done.now) }
    ensures numbers { numbers_in ranks.new.items ≡ numbers_in ranks.old.items }
    ensures size { vec_len ranks.new ≡ vec_len ranks.old }
    ensures room_left { (board_room : ℕ) → room_in board_room ranks.old.items ≤ room_in board_room ranks.new.items }
    ensures rises { writes_in ranks.old.items + 1 ≤ writes_in ranks.new.items }
    ensures few { writes_in ranks.new.items ≤ writes_in ranks.old.items + 6 }
{
    let state = &mut ranks[rank];
    state.unwake(done);
}

/// Takes a local step of one rank back.
#[inline(always)]
#[tactic(auto, using(crate::proofs::RankLemmas::at_rank))]
pub(crate) fn restore_local(ranks: &mut Vec<RankState>, rank: usize, done: &LocalRecord)
    requires { rank < vec_len ranks.old }
    ensures after { (s : Program) → ranks_in s ranks.new.items ≡ update_at (ranks_in s ranks.old.items) rank (λ r. undone_rank s r done.now) }
    ensures numbers { numbers_in ranks.new.items ≡ numbers_in ranks.old.items }
    ensures size { vec_len ranks.new ≡ vec_len ranks.old }
    ensures room_left { (board_room : ℕ) → room_in board_room ranks.old.items ≤ room_in board_room ranks.new.items }
    ensures rises { writes_in ranks.old.items + 1 ≤ writes_in ranks.new.items }
    ensures few { writes_in ranks.new.items ≤ writes_in ranks.old.items + 2 }
{
    let state = &mut ranks[rank];
    state.restore_local(done);
}

/// Lets every rank go on from a barrier. One write a rank.
#[tactic(auto, using(crate::proofs::ReleaseLemmas::changing))]
pub(crate) fn let_go(ranks: &mut Vec<RankState>)
    ensures after { ranks.new.items ≡ map (acting Activity.Running) ranks.old.items }
    ensures room_left { (board_room : ℕ) → room_in board_room ranks.old.items ≤ room_in board_room ranks.new.items }
    ensures writes { writes_in ranks.new.items ≡ writes_in ranks.old.items + length ranks.old.items }
{
    for rank in 0..ranks.len() {
        ranks[rank].go_on();
    }
}

/// Blocks every rank again on the barrier that it was let go from. One write a rank.
#[tactic(auto, using(crate::proofs::ReleaseLemmas::changing))]
pub(crate) fn block_all(ranks: &mut Vec<RankState>)
    ensures after { ranks.new.items ≡ map (acting Activity.Blocked) ranks.old.items }
    ensures room_left { (board_room : ℕ) → room_in board_room ranks.old.items ≤ room_in board_room ranks.new.items }
    ensures writes { writes_in ranks.new.items ≡ writes_in ranks.old.items + length ranks.old.items }
{
    for rank in 0..ranks.len() {
        ranks[rank].block_again();
    }
}

/// Reserves room for one step of each rank.
#[tactic(auto, using(crate::proofs::RoomLemmas::keeping))]
pub(crate) fn keep_rooms(ranks: &mut Vec<RankState>) -> Result<(), AllocError>
    ensures same { (s : Program) → ranks_in s ranks.new.items ≡ ranks_in s ranks.old.items }
    ensures room { OnOk result ((board_room : ℕ) → 1 ≤ board_room → 1 ≤ room_in board_room ranks.new.items) }
    ensures never_less { (board_room : ℕ) → room_in board_room ranks.old.items ≤ room_in board_room ranks.new.items }
    ensures memory { OnErr result ((board_room : ℕ) → room_in board_room ranks.old.items ≡ 0) }
    ensures numbers { numbers_in ranks.new.items ≡ numbers_in ranks.old.items }
    ensures size { vec_len ranks.new ≡ vec_len ranks.old }
    ensures writes { writes_in ranks.new.items ≡ writes_in ranks.old.items }
{
    let count = ranks.len();
    for rank in 0..count {
        let state = &mut ranks[rank];
        state.keep_room()?;
    }
    Ok(())
}

/// Whether every rank has ended.
#[tactic(auto, using(crate::proofs::RankLemmas::ending))]
pub(crate) fn all_ended(code: &Code, ranks: &[RankState]) -> bool
    ensures { result ≡ list_all has_ended (ranks_in code.now.program ranks.now) }
{
    for rank in ranks {
        if !rank.has_ended(code) {
            return false;
        }
    }
    true
}

/// A rank, if there is one.
#[tactic(auto, using(crate::proofs::RankLemmas::reading))]
pub(crate) fn rank_at(ranks: &[RankState], rank: usize) -> Option<&RankState>
    ensures world { (s : Program) → slice_get (ranks_in s ranks.now) rank ≡ option_map (λ r. rank_of s r.now) result }
    ensures same { slice_get ranks.now rank ≡ option_map (λ r. r.now) result }
{
    ranks.get(rank)
}
