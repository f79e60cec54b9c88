//! The key of a state: states of a script that have the same words have the same future (docs/DEFINITIONS.md, "States with the same
//! future").

ghost use Rattle.std.specs.Prelude.{◌≡◌, ◌<◌, ◌++◌, IfOk, OnOk, [], length, pos, slice_set};
ghost use Rattle.std.specs.List.{flat_map};
ghost use Rattle.mpd_model.specs.steps.World.{call_numbers};
ghost use Rattle.mpd_model.specs.steps.Outcomes.{first_number};
ghost use Rattle.mpd_model.specs.steps.Next.{is_blocked};
ghost use Rattle.mpd_code.specs.Left.{left_at};
ghost use Rattle.mpd_rank.specs.Views.{rank_of};
ghost use Rattle.mpd_outcomes.specs.Future.{overwritten, blanked, live_vars, open_call as call_open, last_statement as statement_last};
ghost use Rattle.mpd_outcomes.specs.Words.{sized};
ghost use Rattle.mpd_outcomes.specs.Keys as spec;

use crate::words::{
    activity_word, flag_word, number_or_zero, number_word, push_kind, push_seen, push_sized,
    push_word,
};
use mpd_code::Code;
use mpd_core::Core;
use mpd_match::Board;
use mpd_model::{Activity, Call, CallId, CallKind};
use mpd_rank::RankState;
use std::alloc::{AllocError, Global};

/// Adds where a rank goes on, and what it is doing.
fn push_place(words: &mut Vec<i64>, state: &RankState, code: &Code) -> Result<(), AllocError>
    ensures words { OnOk result (words.new.items ≡ words.old.items ++ spec.place_words (first_number (left_at code.now.program state.now.node)) state.now.activity) }
    ensures placed { left_at code.now.program state.now.node ≡ spec.left_from code.now.program (first_number (left_at code.now.program state.now.node)) }
{
    let statement = state.next_statement(code);
    words.extend_from_slice(&[
        flag_word(statement.is_some()),
        number_or_zero(statement),
        activity_word(state.activity()),
    ])
}

/// Forgets what a cell holds, if there is such a cell.
fn blank(vars: &mut [i64], cell: usize)
    ensures { vars.new ≡ slice_set vars.old cell (pos 0) }
{
    if cell < vars.len() {
        vars[cell] = 0;
    }
}

/// Forgets what the cells hold that a call overwrites as its rank goes on.
fn blank_overwritten(vars: &mut [i64], last: Option<CallKind>)
    ensures { vars.new ≡ blanked (overwritten last) vars.old }
{
    if let Some(CallKind::Recv(recv)) = last {
        blank(vars, recv.cell);
        if let Some(status) = recv.status {
            blank(vars, status.source);
            blank(vars, status.tag);
        }
    }
}

/// Adds the variables of a rank that is blocked for a call: those that it overwrites aren't told.
fn push_blocked_variables(
    alloc: Global,
    words: &mut Vec<i64>,
    state: &RankState,
    last: Option<CallKind>,
) -> Result<(), AllocError>
    ensures { OnOk result (words.new.items ≡ words.old.items ++ sized (blanked (overwritten last) state.now.vars)) }
{
    match last {
        Some(CallKind::Recv(_)) => {
            let mut vars = Vec::from_slice(alloc, state.variables())?;
            blank_overwritten(&mut vars, last);
            push_sized(words, &vars)
        }
        _ => push_sized(words, state.variables()),
    }
}

/// Adds the variables of a rank that may still be read: none if it has no statement left or is
/// trapped. If it is blocked, those that its last call overwrites aren't told.
fn push_live(
    alloc: Global,
    words: &mut Vec<i64>,
    state: &RankState,
    code: &Code,
    last: Option<CallKind>,
) -> Result<(), AllocError>
    ensures { OnOk result (words.new.items ≡ words.old.items ++ sized (live_vars (overwritten last) state.now.activity (left_at code.now.program state.now.node) state.now.vars)) }
{
    if state.next_statement(code).is_none() {
        return push_sized(words, &[]);
    }
    match state.activity() {
        Activity::Running => push_sized(words, state.variables()),
        Activity::Blocked => push_blocked_variables(alloc, words, state, last),
        Activity::Trapped(_) => push_sized(words, &[]),
    }
}

/// Adds a handle: the call that it holds, and what may still be learnt of that.
fn push_held(
    words: &mut Vec<i64>,
    board: &Board,
    rank: usize,
    handle: Option<usize>,
) -> Result<(), AllocError>
    ensures { OnOk result (words.new.items ≡ words.old.items ++ spec.held_words board.now.board rank handle) }
{
    match handle {
        None => push_word(words, 0),
        Some(index) => {
            words.extend_from_slice(&[1, number_word(index)])?;
            push_seen(words, board, CallId { rank, index })
        }
    }
}

/// Adds all handles of a rank.
fn push_all_held(
    words: &mut Vec<i64>,
    board: &Board,
    rank: usize,
    handles: &[Option<usize>],
) -> Result<(), AllocError>
    ensures { OnOk result (words.new.items ≡ words.old.items ++ flat_map (spec.held_words board.now.board rank) handles.now) }
{
    for handle in handles {
        push_held(words, board, rank, *handle)?;
    }
    Ok(())
}

/// Adds how many handles a rank has, and these.
fn push_handles(
    words: &mut Vec<i64>,
    board: &Board,
    rank: usize,
    handles: &[Option<usize>],
) -> Result<(), AllocError>
    ensures { OnOk result (words.new.items ≡ words.old.items ++ spec.handle_words board.now.board rank handles.now) }
{
    words.push(number_word(handles.len()))?;
    push_all_held(words, board, rank, handles)
}

/// A call while it is free.
fn open_call(board: &Board, call: CallId) -> Option<Call>
    ensures { result ≡ call_open board.now.board call }
{
    if board.is_free(call) {
        board.call(call)
    } else {
        None
    }
}

/// Adds a call, if it is free: its number, the statement that issued it, and what it asks for.
fn push_free(words: &mut Vec<i64>, board: &Board, call: CallId) -> Result<(), AllocError>
    ensures { OnOk result (words.new.items ≡ words.old.items ++ spec.free_words board.now.board call.rank call.index) }
{
    match open_call(board, call) {
        None => Ok(()),
        Some(open) => {
            words.extend_from_slice(&[1, number_word(call.index), number_word(open.statement)])?;
            push_kind(words, open.kind)
        }
    }
}

/// Adds the free calls of a rank.
fn push_all_free(words: &mut Vec<i64>, board: &Board, rank: usize) -> Result<(), AllocError>
    ensures { OnOk result (words.new.items ≡ words.old.items ++ flat_map (spec.free_words board.now.board rank) (call_numbers board.now.board rank)) }
{
    let count = board.call_count(rank);
    for index in 0..count {
        push_free(words, board, CallId { rank, index })?;
    }
    Ok(())
}

/// Adds how many calls a rank has issued, and the free ones. A 0 ends them.
fn push_calls(words: &mut Vec<i64>, board: &Board, rank: usize) -> Result<(), AllocError>
    ensures { OnOk result (words.new.items ≡ words.old.items ++ spec.call_words board.now.board rank) }
{
    words.push(number_word(board.call_count(rank)))?;
    push_all_free(words, board, rank)?;
    push_word(words, 0)
}

/// Adds the call that a rank waits for, if any.
fn push_target(
    words: &mut Vec<i64>,
    board: &Board,
    target: Option<CallId>,
) -> Result<(), AllocError>
    ensures { OnOk result (words.new.items ≡ words.old.items ++ spec.target_words board.now.board target) }
{
    match target {
        None => push_word(words, 0),
        Some(call) => {
            words.push(1)?;
            push_seen(words, board, call)
        }
    }
}

/// The statement that issued the last call of a rank, 0 if it has issued none.
fn last_statement(board: &Board, rank: usize) -> usize
    ensures { result ≡ statement_last board.now.board rank }
{
    match board.call(board.last_call(rank)) {
        None => 0,
        Some(call) => call.statement,
    }
}

/// Adds what a rank is blocked on, if it is blocked: the statement that issued its last call, and
/// what may still be learnt there.
fn push_blocked(words: &mut Vec<i64>, board: &Board, state: &RankState) -> Result<(), AllocError>
    ensures { OnOk result (words.new.items ≡ words.old.items ++ spec.blocked_words board.now.board state.now.rank (is_blocked state.now.activity)) }
{
    match state.activity() {
        Activity::Running | Activity::Trapped(_) => Ok(()),
        Activity::Blocked => {
            let rank = state.number();
            let last = board.last_call(rank);
            words.push(number_word(last_statement(board, rank)))?;
            push_seen(words, board, last)?;
            push_target(words, board, board.awaited(last))
        }
    }
}

/// How many words there is room for in a part at first.
const ROOM_OF_PART: usize = 64;

/// How many words there is room for in a key at first, for each rank.
const ROOM_OF_RANK: usize = 32;

/// Writes the part of a rank, in place of what is there.
fn write_part(
    alloc: Global,
    part: &mut Vec<i64>,
    board: &Board,
    state: &RankState,
    code: &Code,
) -> Result<(), AllocError>
    ensures words { OnOk result (part.new.items ≡ spec.rank_words board.now.board state.now.rank (rank_of code.now.program state.now)) }
    ensures placed { OnOk result (left_at code.now.program state.now.node ≡ spec.left_from code.now.program (first_number (left_at code.now.program state.now.node))) }
{
    let rank = state.number();
    let last = board.kind(board.last_call(rank));
    part.clear();
    push_place(part, state, code)?;
    push_live(alloc, part, state, code, last)?;
    push_handles(part, board, rank, state.handles())?;
    push_calls(part, board, rank)?;
    push_blocked(part, board, state)
}

/// Adds the part of a rank, after its length. It is written to `part` first.
fn push_rank(
    alloc: Global,
    part: &mut Vec<i64>,
    key: &mut Vec<i64>,
    core: &Core<'_>,
    rank: usize,
) -> Result<(), AllocError>
    requires { rank < length core.now.world.ranks }
    ensures words { OnOk result (key.new.items ≡ key.old.items ++ sized (spec.part_at core.now.world rank)) }
    ensures placed { OnOk result (spec.IsPlaced core.now.program core.now.world rank) }
{
    write_part(alloc, part, core.board(), core.rank(rank), core.code())?;
    push_sized(key, part)
}

/// Adds the parts of all ranks, each written to `part` first, so that none asks for memory of its own.
fn push_ranks(
    alloc: Global,
    part: &mut Vec<i64>,
    key: &mut Vec<i64>,
    core: &Core<'_>,
) -> Result<(), AllocError>
    requires { key.old.items ≡ [] }
    ensures { OnOk result (spec.IsKey core.now.program core.now.world key.new.items) }
{
    core.all_ranks_are_there();
    let count = core.rank_count();
    for rank in 0..count {
        push_rank(alloc, part, key, core, rank)?;
    }
    Ok(())
}

/// The key of a state. `Err` means that memory was refused.
pub(crate) fn key_of(alloc: Global, core: &Core<'_>) -> Result<Vec<i64>, AllocError>
    ensures { IfOk result (λ k. spec.IsKey core.now.program core.now.world k.items) }
{
    let room = core.rank_count().saturating_mul(ROOM_OF_RANK);
    let mut part = Vec::with_capacity(alloc, ROOM_OF_PART)?;
    let mut key = Vec::with_capacity(alloc, room)?;
    push_ranks(alloc, &mut part, &mut key, core)?;
    Ok(key)
}

/// A law: the key has all that the future depends on. Two states of a script in one mode that have
/// the same key have the same future. A call does nothing.
pub(crate) fn one_key_tells_one_future()
    ensures { spec.OneKeyOneFuture }
{}

/// A law: the key has nothing else. States with the same future have the same key. A call does
/// nothing.
pub(crate) fn one_future_has_one_key()
    ensures { spec.OneFutureOneKey }
{}
