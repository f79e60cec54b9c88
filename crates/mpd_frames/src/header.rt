//! Where a header ends, and the length that it gives.
ghost use Rattle.std.specs.Prelude.{◌≡◌, ◌+◌, ◌<◌, ◌≤◌, ◌∷◌, [], true, false, length, drop, IfSome, MatchOption};
ghost use Rattle.mpd_model.specs.texts.Words.{words};
ghost use Rattle.mpd_frames.specs.Header.{is_ended, is_length, lines, length_in, length_of};
ghost use Rattle.mpd_frames.specs.Scanning.{breaks_at, break_len, step};

use crate::fault::FrameFault;
use crate::limits::BODY_MAX;
use mpd_model::{has_word, next_word, number_of};

/// What ends a line.
const BREAK: &[u8] = b"\r\n";

/// How a line begins that gives the length of the body.
const NAME: &[u8] = b"content-length:";

/// Digits of a length.
const DIGITS_MAX: usize = 7;

/// Whether the last line of a header is an empty one.
pub(crate) fn is_ended(header: &[u8]) -> bool
    ensures { result ≡ is_ended header.now }
{
    header == BREAK || header.ends_with(b"\r\n\r\n")
}

/// Whether a break begins at a place of a text.
fn breaks_at(text: &[u8], place: usize) -> bool
    requires { place < length text.now }
    ensures value { result ≡ breaks_at text.now place }
    ensures within { result ≡ true → place + 2 ≤ length text.now }
{
    text[place] == b'\r' && place + 1 < text.len() && text[place + 1] == b'\n'
}

/// How many bytes stand before the first break, or all.
#[tactic(auto, using(crate::proofs::HeaderLemmas::finding))]
fn break_len(text: &[u8]) -> usize
    ensures value { result ≡ break_len text.now }
    ensures bound { result ≤ length text.now }
    ensures within { result < length text.now → result + 2 ≤ length text.now }
{
    for i in 0..text.len() {
        if breaks_at(text, i) {
            return i;
        }
    }
    text.len()
}

/// The first line of a header and what stands after its break; `None` if there is no break.
#[tactic(auto, using(crate::proofs::HeaderLemmas::ending))]
fn next_line(text: &[u8]) -> Option<(&[u8], &[u8])>
    ensures parts { MatchOption result (lines text.now ≡ text.now ∷ []) (λ q. lines text.now ≡ q.0.now ∷ lines q.1.now) }
    ensures shorter { IfSome result (λ q. length q.1.now < length text.now) }
{
    let count = break_len(text);
    if count >= text.len() {
        return None;
    }
    let (line, rest) = text.split_at(count);
    let (_, after) = rest.split_at(2);
    Some((line, after))
}

/// What stands after the name in a line that gives the length of the body; `None` if the line gives none.
fn length_text(line: &[u8]) -> Option<&[u8]>
    ensures { MatchOption result (is_length line.now ≡ false) (λ v. (is_length line.now ≡ true) × (v.now ≡ drop 15 line.now)) }
{
    if line.len() < NAME.len() {
        return None;
    }
    let (name, value) = line.split_at(NAME.len());
    if name.eq_ignore_ascii_case(NAME) {
        Some(value)
    } else {
        None
    }
}

/// The length that stands after the name.
fn length_in(text: &[u8]) -> Result<usize, FrameFault>
    ensures { result ≡ length_in (words text.now) }
{
    let Some((word, after)) = next_word(text) else {
        return Err(FrameFault::BadLength);
    };
    if has_word(after) || word.len() > DIGITS_MAX {
        return Err(FrameFault::BadLength);
    }
    match number_of(word) {
        None => Err(FrameFault::BadLength),
        Some(length) if length <= BODY_MAX => Ok(length),
        Some(_) => Err(FrameFault::BodyTooLong),
    }
}

/// What was given so far, with what a line more gives.
fn with_line(found: Option<usize>, line: &[u8]) -> Result<Option<usize>, FrameFault>
    ensures { result ≡ step found line.now }
{
    let Some(text) = length_text(line) else {
        return Ok(found);
    };
    if found.is_some() {
        return Err(FrameFault::TwoLengths);
    }
    match length_in(text) {
        Ok(length) => Ok(Some(length)),
        Err(fault) => Err(fault),
    }
}

/// The length of the body that a header gives.
#[tactic(auto, using(crate::proofs::HeaderLemmas::giving))]
pub(crate) fn body_length(header: &[u8]) -> Result<usize, FrameFault>
    ensures { result ≡ length_of header.now }
{
    let mut rest = header;
    let mut found = None;
    while let Some((line, after)) = next_line(rest) {
        match with_line(found, line) {
            Ok(more) => found = more,
            Err(fault) => return Err(fault),
        }
        rest = after;
    }
    match with_line(found, rest) {
        Ok(Some(length)) => Ok(length),
        Ok(None) => Err(FrameFault::NoLength),
        Err(fault) => Err(fault),
    }
}
