//! Whether a rank stands where it stood, and whether it waits for the same.

ghost use Rattle.std.specs.Prelude.{◌≡◌};
ghost use Rattle.std.specs.Bool.{Decides};
ghost use Rattle.mpd_page.specs.Same as spec;

use crate::places::RankPlace;
use crate::reasons::{Awaited, Prospect, Reason};
use mpd_model::CallId;

/// Whether two places are one.
fn are_one(one: RankPlace, other: RankPlace) -> bool
    ensures { Decides result (one ≡ other) }
{
    one == other
}

/// Whether two places are one.
#[tactic(auto, using(crate::proofs::SameLemmas::telling))]
pub(crate) fn same_place(one: RankPlace, other: RankPlace) -> bool
    ensures { result ≡ spec.same_place one other }
{
    are_one(one, other)
}

/// Whether a call is held back by the same, or by none.
fn same_partner(one: (CallId, Option<CallId>), other: (CallId, Option<CallId>)) -> bool
    ensures { Decides result (one ≡ other) }
{
    one.0 == other.0 && one.1 == other.1
}

/// Whether two lists of partners are one.
fn same_partners(one: &[(CallId, Option<CallId>)], other: &[(CallId, Option<CallId>)]) -> bool
    ensures { Decides result (one.now ≡ other.now) }
{
    if one.len() != other.len() {
        return false;
    }
    for number in 0..one.len() {
        if !same_partner(one[number], other[number]) {
            return false;
        }
    }
    true
}

/// Whether two lists of ranks are one.
fn same_ranks(one: &[usize], other: &[usize]) -> bool
    ensures { Decides result (one.now ≡ other.now) }
{
    one == other
}

/// Whether two calls come to the same.
fn same_prospect(one: &Prospect, other: &Prospect) -> bool
    ensures { Decides result (one.now ≡ other.now) }
{
    match one {
        Prospect::Complete => matches!(other, Prospect::Complete),
        Prospect::Fits(partners) => {
            matches!(other, Prospect::Fits(also) if same_partners(&also.items, &partners.items))
        }
    }
}

/// Whether one call is waited for, and comes to the same.
fn same_awaited(one: &Awaited, other: &Awaited) -> bool
    ensures { Decides result (one.now ≡ other.now) }
{
    one.call == other.call && same_prospect(&one.prospect, &other.prospect)
}

/// The same of lists of them.
fn same_list(one: &[Awaited], other: &[Awaited]) -> bool
    ensures { Decides result (one.now ≡ other.now) }
{
    if one.len() != other.len() {
        return false;
    }
    for number in 0..one.len() {
        if !same_awaited(&one[number], &other[number]) {
            return false;
        }
    }
    true
}

/// Whether two ranks wait for the same.
fn wait_alike(one: &Reason, other: &Reason) -> bool
    ensures { Decides result (one.now ≡ other.now) }
{
    match one {
        Reason::NoWait => matches!(other, Reason::NoWait),
        Reason::AtBarrier(ranks) => {
            matches!(other, Reason::AtBarrier(also) if same_ranks(&also.items, &ranks.items))
        }
        Reason::For(calls) => {
            matches!(other, Reason::For(also) if same_list(&also.items, &calls.items))
        }
    }
}

/// Whether two ranks wait for the same.
#[tactic(auto, using(crate::proofs::SameLemmas::telling))]
pub(crate) fn same_reason(one: &Reason, other: &Reason) -> bool
    ensures { result ≡ spec.same_reason one.now other.now }
{
    wait_alike(one, other)
}
