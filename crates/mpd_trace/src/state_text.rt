//! The text of `show` (docs/FORMATS.md, "Text of show").

ghost use Rattle.std.specs.Prelude.{◌≡◌, ◌++◌, ◌∷◌, ◌<◌, IfOk, OnOk, length, slice_get, string_bytes};
ghost use Rattle.std.specs.Fmt.{decimal};
ghost use Rattle.std.specs.List.{flat_map};
ghost use Rattle.mpd_model.specs.steps.World.{rank_numbers};
ghost use Rattle.mpd_model.specs.steps.Outcomes.{outcome};
ghost use Rattle.mpd_model.specs.texts.Texts.{spaced, depth_line, rank_line, values_line, handle_text, handles_line, call_line, call_lines, cell_lines, rank_lines, numbers_line, pending_line, pending_lines, posted_line, set_line, outcome_line, show_text};

use mpd_core::Core;
use mpd_counter::Counter;
use mpd_match::Board;
use mpd_model::{CallId, MatchSet, print_outcome};
use std::alloc::{AllocError, Global};

/// All that `show` prints, given the depth and how many steps are kept. An `Err` is want of memory.
pub fn show(alloc: Global, core: &Core<'_>, depth: usize, kept: usize) -> Result<String, AllocError>
    ensures { IfOk result (λ t. string_bytes t ≡ show_text core.now.program core.now.world depth kept) }
{
    let mut out = String::new(alloc);
    write!(out, "depth {depth} of {kept}\n")?;
    push_ranks(&mut out, core)?;
    push_all_pending(&mut out, core.board())?;
    push_all_posted(&mut out, core.board())?;
    push_sets(&mut out, core.board().sets())?;
    push_outcome(&mut out, core)?;
    out.push_str("end\n")?;
    Ok(out)
}

/// Adds the lines of every rank.
fn push_ranks(out: &mut String, core: &Core<'_>) -> Result<(), AllocError>
    ensures { OnOk result (string_bytes out.new ≡ string_bytes out.old ++ flat_map (rank_lines core.now.program core.now.world) (rank_numbers core.now.world.board)) }
{
    let count = core.rank_count();
    for rank in 0..count {
        push_rank(out, core, rank)?;
    }
    Ok(())
}

/// Adds the lines of a rank.
fn push_rank(out: &mut String, core: &Core<'_>, rank: usize) -> Result<(), AllocError>
    requires { rank < length core.now.world.ranks }
    ensures { OnOk result (string_bytes out.new ≡ string_bytes out.old ++ rank_lines core.now.program core.now.world rank) }
{
    push_state(out, core, rank)?;
    push_cells(out, core, rank)?;
    push_calls(out, core, rank)
}

/// Adds a rank and what it is doing.
fn push_state(out: &mut String, core: &Core<'_>, rank: usize) -> Result<(), AllocError>
    requires { rank < length core.now.world.ranks }
    ensures { OnOk result (string_bytes out.new ≡ string_bytes out.old ++ rank_line core.now.program core.now.world rank) }
{
    write!(out, "rank {rank} ")?;
    core.push_rank(out, rank)?;
    out.push('\n')?;
    Ok(())
}

/// Adds what a rank holds and has printed.
fn push_cells(out: &mut String, core: &Core<'_>, rank: usize) -> Result<(), AllocError>
    requires { rank < length core.now.world.ranks }
    ensures { OnOk result (string_bytes out.new ≡ string_bytes out.old ++ cell_lines (slice_get core.now.world.ranks rank)) }
{
    let state = core.rank(rank);
    push_values(out, "vars", state.variables())?;
    push_handles(out, state.handles())?;
    push_values(out, "out", state.output())?;
    Ok(())
}

/// Adds a line of values.
fn push_values(out: &mut String, name: &str, values: &[i64]) -> Result<(), AllocError>
    ensures { OnOk result (string_bytes out.new ≡ string_bytes out.old ++ values_line name.now values.now) }
{
    out.push_str(name)?;
    for value in values {
        write!(out, " {value}")?;
    }
    out.push('\n')?;
    Ok(())
}

/// Adds the line of a rank's handles.
fn push_handles(out: &mut String, handles: &[Option<usize>]) -> Result<(), AllocError>
    ensures { OnOk result (string_bytes out.new ≡ string_bytes out.old ++ handles_line handles.now) }
{
    out.push_str("handles")?;
    for handle in handles {
        push_handle(out, *handle)?;
    }
    out.push('\n')?;
    Ok(())
}

/// Adds the call that a handle has, or a dash.
fn push_handle(out: &mut String, handle: Option<usize>) -> Result<(), AllocError>
    ensures { OnOk result (string_bytes out.new ≡ string_bytes out.old ++ 32 ∷ handle_text handle) }
{
    match handle {
        None => out.push_str(" -"),
        Some(index) => push_index(out, index),
    }
}

/// Adds a number after a space.
fn push_index(out: &mut String, index: usize) -> Result<(), AllocError>
    ensures { OnOk result (string_bytes out.new ≡ string_bytes out.old ++ 32 ∷ decimal index) }
{
    write!(out, " {index}")?;
    Ok(())
}

/// Adds the lines of a rank's calls.
fn push_calls(out: &mut String, core: &Core<'_>, rank: usize) -> Result<(), AllocError>
    ensures { OnOk result (string_bytes out.new ≡ string_bytes out.old ++ call_lines core.now.world.board rank) }
{
    let count = core.board().call_count(rank);
    for index in 0..count {
        push_call(out, core, CallId { rank, index })?;
    }
    Ok(())
}

/// Adds the line of a call.
fn push_call(out: &mut String, core: &Core<'_>, id: CallId) -> Result<(), AllocError>
    ensures { OnOk result (string_bytes out.new ≡ string_bytes out.old ++ call_line core.now.world.board id) }
{
    write!(out, "call {id} ")?;
    core.push_call(out, id)?;
    out.push('\n')?;
    Ok(())
}

/// Adds the lines of all free sends, by sender.
fn push_all_pending(out: &mut String, board: &Board) -> Result<(), AllocError>
    ensures { OnOk result (string_bytes out.new ≡ string_bytes out.old ++ flat_map (pending_lines board.now.board) (rank_numbers board.now.board)) }
{
    let count = board.rank_count();
    for sender in 0..count {
        push_pending_of(out, board, sender)?;
    }
    Ok(())
}

/// Adds the lines of a rank's free sends, by receiver.
fn push_pending_of(out: &mut String, board: &Board, sender: usize) -> Result<(), AllocError>
    requires { sender < length board.now.board.calls }
    ensures { OnOk result (string_bytes out.new ≡ string_bytes out.old ++ pending_lines board.now.board sender) }
{
    let count = board.rank_count();
    for receiver in 0..count {
        push_pending(out, board, sender, receiver)?;
    }
    Ok(())
}

/// Adds the line of a rank's free sends to another, where there are any.
fn push_pending(
    out: &mut String,
    board: &Board,
    sender: usize,
    receiver: usize,
) -> Result<(), AllocError>
    requires sender { sender < length board.now.board.calls }
    requires receiver { receiver < length board.now.board.calls }
    ensures { OnOk result (string_bytes out.new ≡ string_bytes out.old ++ pending_line board.now.board sender receiver) }
{
    let mut looks = Counter::new();
    let mut here = board.first_pending(sender, receiver, &mut looks);
    if here.is_none() {
        return Ok(());
    }
    write!(out, "pending {sender} to {receiver}:")?;
    'walk: while let Some(index) = here {
        push_index(out, index)?;
        let id = CallId {
            rank: sender,
            index,
        };
        here = board.next_free(id, &mut looks);
    }
    out.push('\n')?;
    Ok(())
}

/// Adds the lines of all free receives, by rank.
fn push_all_posted(out: &mut String, board: &Board) -> Result<(), AllocError>
    ensures { OnOk result (string_bytes out.new ≡ string_bytes out.old ++ flat_map (posted_line board.now.board) (rank_numbers board.now.board)) }
{
    let count = board.rank_count();
    for rank in 0..count {
        push_posted(out, board, rank)?;
    }
    Ok(())
}

/// Adds the line of a rank's free receives, where there are any.
fn push_posted(out: &mut String, board: &Board, rank: usize) -> Result<(), AllocError>
    requires { rank < length board.now.board.calls }
    ensures { OnOk result (string_bytes out.new ≡ string_bytes out.old ++ posted_line board.now.board rank) }
{
    let mut looks = Counter::new();
    let mut here = board.first_posted(rank, &mut looks);
    if here.is_none() {
        return Ok(());
    }
    write!(out, "posted {rank}:")?;
    'walk: while let Some(index) = here {
        push_index(out, index)?;
        here = board.next_free(CallId { rank, index }, &mut looks);
    }
    out.push('\n')?;
    Ok(())
}

/// Adds the line of each match set.
fn push_sets(out: &mut String, sets: &[MatchSet]) -> Result<(), AllocError>
    ensures { OnOk result (string_bytes out.new ≡ string_bytes out.old ++ flat_map set_line sets.now) }
{
    for set in sets {
        write!(out, "set {set}\n")?;
    }
    Ok(())
}

/// Adds the line of the outcome, where no step is enabled.
fn push_outcome(out: &mut String, core: &Core<'_>) -> Result<(), AllocError>
    ensures { OnOk result (string_bytes out.new ≡ string_bytes out.old ++ outcome_line (outcome core.now.world)) }
{
    let alloc = *out.allocator();
    if let Some(ending) = core.outcome(alloc)? {
        let text = print_outcome(alloc, &ending)?;
        write!(out, "outcome {text}\n")?;
    }
    Ok(())
}
