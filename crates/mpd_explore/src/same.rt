//! Ends of runs that are the same.

ghost use Rattle.std.specs.Prelude.{◌≡◌};
ghost use Rattle.std.specs.Cmp.Lexicographic.{pointwise};
ghost use Rattle.mpd_explore.specs.Ends.{ending_eq, issued_eq, outcome_eq, trapped_eq};

use crate::report::Ending;
use crate::verifier::same_trap;
use mpd_model::{IssuedCall, Outcome, TrappedRank};

/// Whether two calls are the same, which the same statement issued.
fn same_call(one: IssuedCall, other: IssuedCall) -> bool
    ensures { result ≡ issued_eq one other }
{
    one.statement == other.statement
        && one.id.rank == other.id.rank
        && one.id.index == other.id.index
}

/// Whether two lists of calls are the same.
fn same_calls(one: &[IssuedCall], other: &[IssuedCall]) -> bool
    ensures { result ≡ pointwise issued_eq one.now other.now }
{
    if one.len() != other.len() {
        return false;
    }
    let many = one.len();
    for number in 0..many {
        if !same_call(one[number], other[number]) {
            return false;
        }
    }
    true
}

/// Whether two trapped ranks are the same.
fn same_trapped(one: TrappedRank, other: TrappedRank) -> bool
    ensures { result ≡ trapped_eq one other }
{
    one.rank == other.rank && one.statement == other.statement && same_trap(one.trap, other.trap)
}

/// Whether two lists of trapped ranks are the same.
fn same_traps(one: &[TrappedRank], other: &[TrappedRank]) -> bool
    ensures { result ≡ pointwise trapped_eq one.now other.now }
{
    if one.len() != other.len() {
        return false;
    }
    let many = one.len();
    for number in 0..many {
        if !same_trapped(one[number], other[number]) {
            return false;
        }
    }
    true
}

/// Whether two outcomes are the same.
fn same_outcome(one: &Outcome, other: &Outcome) -> bool
    ensures { result ≡ outcome_eq one.now other.now }
{
    match (one, other) {
        (Outcome::Done, Outcome::Done) => true,
        (Outcome::Leftovers(one), Outcome::Leftovers(other)) => same_calls(
            &one.items,
            &other.items,
        ),
        (Outcome::Deadlock(one), Outcome::Deadlock(other)) => same_calls(&one.items, &other.items),
        (Outcome::Trap(one), Outcome::Trap(other)) => same_traps(&one.items, &other.items),
        _ => false,
    }
}

/// Whether two runs end in the same way: both are cut, or both have the same outcome, with the same calls, which the same statements issued,
/// or the same trapped ranks, at the same statements.
pub fn same_ending(one: &Ending, other: &Ending) -> bool
    ensures { result ≡ ending_eq one.now other.now }
{
    match (one, other) {
        (Ending::Cut, Ending::Cut) => true,
        (Ending::Ended(one), Ending::Ended(other)) => same_outcome(one, other),
        _ => false,
    }
}
