//! Where calls and ranks stand in a script.

ghost use Rattle.std.specs.Prelude.{◌≡◌, slice_get};
ghost use Rattle.mpd_model.specs.steps.World.{call_at};
ghost use Rattle.mpd_names.specs.Placed as spec;

use crate::place::PlacedCall;
use mpd_core::Core;
use mpd_model::CallId;

/// The line of a statement, 0 if there is none.
pub(crate) fn statement_line(lines: &[usize], number: Option<usize>) -> usize
    ensures { result ≡ spec.statement_line lines.now number }
{
    match number {
        None => 0,
        Some(number) => lines.get(number).copied().unwrap_or(0),
    }
}

/// The line, from 1, of the statement that issued a call; 0 if there is no such call.
pub fn issue_line(core: &Core<'_>, call: CallId) -> usize
    ensures { result ≡ spec.issue_line core.now.program.lines (call_at core.now.world.board call) }
{
    match core.board().call(call) {
        None => 0,
        Some(call) => statement_line(core.code().lines(), Some(call.statement)),
    }
}

/// The line, from 1, of the statement that a rank has not got past; 0 if it has none left or there
/// is no such rank.
#[tactic(auto, using(crate::proofs::PlacedLemmas::no_line))]
pub fn rank_line(core: &Core<'_>, rank: usize) -> usize
    ensures { result ≡ spec.rank_line core.now.program.lines (slice_get core.now.world.ranks rank) }
{
    if rank >= core.rank_count() {
        return 0;
    }
    statement_line(core.code().lines(), core.next_statement(rank))
}

/// A call, the line of the statement that issued it, and what it is.
pub fn placed_call(core: &Core<'_>, call: CallId) -> PlacedCall
    ensures { result ≡ spec.placed_call_of core.now.program core.now.world.board call }
{
    PlacedCall {
        call,
        line: issue_line(core, call),
        kind: core.board().kind(call),
    }
}
