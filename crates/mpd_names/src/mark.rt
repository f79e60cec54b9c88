//! Marks: comments of a script that name places in a program.

ghost use Rattle.std.specs.Prelude.{◌≡◌, ◌≤◌, None, Some, MatchOption, length, slice_get};
ghost use Rattle.std.specs.List.{prefix_len};
ghost use Rattle.std.specs.Char.{is_ascii_graphic};
ghost use Rattle.mpd_names.specs.Marks as spec;

use crate::source::line_behind;
use std::str::from_utf8;

/// How many bytes a place has at most.
pub const PLACE_MAX: usize = 80;

/// What stands after the first `#` of a line, if there is one.
fn comment_of(line: &[u8]) -> Option<&[u8]>
    ensures { MatchOption result (spec.comment_of line.now ≡ None) (λ c. spec.comment_of line.now ≡ Some c.now) }
{
    let mut rest = line;
    while let Some((byte, behind)) = rest.split_first() {
        if *byte == b'#' {
            return Some(behind);
        }
        rest = behind;
    }
    None
}

/// How many printable bytes of ASCII, none of them a space, a text begins with.
fn place_len(text: &[u8]) -> usize
    ensures value { result ≡ prefix_len is_ascii_graphic text.now }
    ensures bound { result ≤ length text.now }
{
    for (i, byte) in text.iter().enumerate() {
        if !byte.is_ascii_graphic() {
            return i;
        }
    }
    text.len()
}

/// Whether a byte is one of a name: a letter, a digit or `_`.
fn is_named(byte: u8) -> bool
    ensures { result ≡ spec.is_named byte }
{
    byte.is_ascii_alphanumeric() || byte == b'_'
}

/// How many bytes of a name a text begins with.
fn name_len(text: &[u8]) -> usize
    ensures value { result ≡ prefix_len spec.is_named text.now }
    ensures bound { result ≤ length text.now }
{
    for (i, byte) in text.iter().enumerate() {
        if !is_named(*byte) {
            return i;
        }
    }
    text.len()
}

/// Whether what stands after the name of a call is nothing, or a space and a note in brackets.
fn is_note(text: &[u8]) -> bool
    ensures { result ≡ spec.is_note text.now }
{
    text.is_empty() || (text.starts_with(b" [") && text.ends_with(b"]"))
}

/// Whether a text is the name of a call, and perhaps its note.
fn is_call(text: &[u8]) -> bool
    ensures { result ≡ spec.is_call text.now }
{
    let count = name_len(text);
    let (_, note) = text.split_at(count);
    count > 0 && is_note(note)
}

/// Whether what stands after a place is a space and a call.
fn is_called(text: &[u8]) -> bool
    ensures { result ≡ spec.is_called text.now }
{
    match text.split_first() {
        None => false,
        Some((first, call)) => *first == b' ' && is_call(call),
    }
}

/// The place that a text begins with, if a call follows it and it has 1 to 80 bytes.
fn place_before(text: &[u8]) -> Option<&str>
    ensures { MatchOption result (spec.place_before text.now ≡ None) (λ p. spec.place_before text.now ≡ Some p.now) }
{
    let count = place_len(text);
    let (place, rest) = text.split_at(count);
    if count < 1 || count > PLACE_MAX || !is_called(rest) {
        return None;
    }
    Some(from_utf8(place).unwrap())
}

/// The place of a comment, if that is a mark.
fn place_in(comment: &[u8]) -> Option<&str>
    ensures { MatchOption result (spec.place_in comment.now ≡ None) (λ p. spec.place_in comment.now ≡ Some p.now) }
{
    if !comment.starts_with(b"@ ") {
        return None;
    }
    let (_, text) = comment.split_at(2);
    place_before(text)
}

/// The place of a line's mark, if it has one.
#[tactic(auto, unfolding(crate::specs::Marks::place_of))]
fn place_of(line: &[u8]) -> Option<&str>
    ensures { MatchOption result (spec.place_of line.now ≡ None) (λ p. spec.place_of line.now ≡ Some p.now) }
{
    match comment_of(line) {
        None => None,
        Some(comment) => place_in(comment),
    }
}

/// The place of the mark of a script's line after `above` others, if there is one.
fn mark_behind(script: &[u8], above: usize) -> Option<&str>
    ensures { MatchOption result (spec.mark_at script.now above ≡ None) (λ p. spec.mark_at script.now above ≡ Some p.now) }
{
    match line_behind(script, above) {
        None => None,
        Some(line) => place_of(line),
    }
}

/// The place of the mark of a script's line, from 1: printable bytes of ASCII, 1 to 80 of them. `None` if that line has no mark, and if
/// there is no such line.
#[tactic(auto, using(crate::proofs::MarkLemmas::numbering))]
pub fn mark_of(script: &[u8], line: usize) -> Option<&str>
    ensures { MatchOption result (spec.mark_of script.now line ≡ None) (λ p. spec.mark_of script.now line ≡ Some p.now) }
{
    if line < 1 {
        return None;
    }
    mark_behind(script, line - 1)
}
