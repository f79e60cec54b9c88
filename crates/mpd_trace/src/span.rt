//! Several numbers of ranks, as a word of the command line names them (docs/FORMATS.md, "Several numbers of ranks").

ghost use Rattle.std.specs.Prelude.{◌≡◌, ◌≤◌, IfSome, length};
ghost use Rattle.mpd_trace.specs.Spans as spec;

use mpd_model::{RANKS_MAX, number_of};

/// The numbers of ranks from one to another.
#[derive(Clone, Copy)]
pub struct RankSpan {
    /// The least.
    pub first: usize,
    /// The greatest.
    pub last: usize,
}

/// How many bytes stand before the first of this kind, or all.
fn length_before(stop: u8, text: &[u8]) -> usize
    ensures value { result ≡ spec.length_before stop text.now }
    ensures within { result ≤ length text.now }
{
    let mut end = 0;
    while end < text.len() && text[end] != stop {
        end += 1;
    }
    end
}

/// A number of ranks that a script can have, as a word names it: 1 to 9 digits.
fn rank_count(word: &[u8]) -> Option<usize>
    ensures value { result ≡ spec.rank_count word.now }
    ensures within { IfSome result (λ n. (1 ≤ n) × (n ≤ RANKS_MAX)) }
{
    let count = number_of(word)?;
    if 1 <= count && count <= RANKS_MAX {
        Some(count)
    } else {
        None
    }
}

/// The numbers from one to another, which is no less.
fn span_between(first: &[u8], last: &[u8]) -> Option<RankSpan>
    ensures value { result ≡ spec.span_between (spec.rank_count first.now) (spec.rank_count last.now) }
    ensures within { IfSome result spec.IsSpan }
{
    let first = rank_count(first)?;
    let last = rank_count(last)?;
    if first <= last {
        Some(RankSpan { first, last })
    } else {
        None
    }
}

/// The numbers of ranks that a word names, `N` or `N-M`; `None` where it names none.
pub fn span_of(word: &[u8]) -> Option<RankSpan>
    ensures value { result ≡ spec.span_of word.now }
    ensures within { IfSome result spec.IsSpan }
{
    let place = length_before(b'-', word);
    if place == word.len() {
        return span_between(word, word);
    }
    let (first, _) = word.split_at(place);
    let (_, last) = word.split_at(place + 1);
    span_between(first, last)
}
