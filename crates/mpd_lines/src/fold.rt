//! A text whose long lines go on in further lines.

ghost use Rattle.std.specs.Prelude.{◌≡◌, ◌<◌, ◌≤◌, ℕ, List, ◌++◌, ◌∷◌, [], IfSome, MatchOption, OnOk, Some, ◌&&◌, ◌||◌, ◌+◌, take, drop, length};
ghost use Rattle.std.specs.List.{All, filter, list_any};
ghost use Rattle.mpd_lines.specs.Folding as spec;

use std::alloc::AllocError;

/// How many bytes a line has, if it can be cut and nothing else is said.
pub const WIDTH: usize = 80;

/// How many blanks a further line begins with.
pub const INDENT: usize = 8;

/// What ends a line that is cut, and begins the next.
const BREAK: &[u8] = b"\n        ";

/// Whether a line has a byte that is no blank.
fn has_ink(line: &[u8]) -> bool
    ensures { result ≡ list_any spec.is_ink line.now }
{
    line.iter().any(|byte| *byte != b' ')
}

/// Whether a line can be cut at a place.
fn can_cut(line: &[u8], place: usize) -> bool
    ensures { result ≡ spec.can_cut line.now place }
{
    if place >= line.len() || line[place] != b' ' {
        return false;
    }
    has_ink(&line[..place])
}

/// The last place below this one at which a line can be cut.
#[tactic(auto, using(crate::proofs::CutLemmas::falling))]
fn last_below(line: &[u8], bound: usize) -> Option<usize>
    ensures value { result ≡ spec.last_below line.now bound }
{
    for above in 0..bound {
        let place = bound - above - 1;
        if can_cut(line, place) {
            return Some(place);
        }
    }
    None
}

/// Whether a byte is a blank, after ink.
fn is_place(byte: u8, is_inked: bool) -> bool
    ensures { result ≡ (spec.is_blank (Some byte) && is_inked) }
{
    byte == b' ' && is_inked
}

/// Whether there is ink, after one more byte.
fn inked_behind(byte: u8, is_inked: bool) -> bool
    ensures { result ≡ (is_inked || spec.is_ink byte) }
{
    is_inked || byte != b' '
}

/// The first place at which a line can be cut.
#[tactic(auto, using(crate::proofs::CutLemmas::looking))]
fn first_of_all(line: &[u8]) -> Option<usize>
    ensures value { result ≡ spec.first_of_all line.now }
{
    let mut is_inked = false;
    for (place, byte) in line.iter().enumerate() {
        if is_place(*byte, is_inked) {
            return Some(place);
        }
        is_inked = inked_behind(*byte, is_inked);
    }
    None
}

/// The place at which a line is cut, if it has more bytes than this.
#[tactic(auto, using(crate::proofs::CutLemmas::inside), unfolding(crate::specs::Folding::cut))]
fn cut(line: &[u8], width: usize) -> Option<usize>
    ensures value { result ≡ spec.cut width line.now }
    ensures within { IfSome result (λ i. i < length line.now) }
{
    if line.len() <= width {
        return None;
    }
    match last_below(line, width + 1) {
        Some(place) => Some(place),
        None => first_of_all(line),
    }
}

/// What stands before a place of a text, and what stands after the byte there.
fn parted(text: &[u8], place: usize) -> (&[u8], &[u8])
    requires { place < length text.now }
    ensures before { result.0.now ≡ take place text.now }
    ensures behind { result.1.now ≡ drop (place + 1) text.now }
    ensures shorter { length result.1.now < length text.now }
{
    let (before, _) = text.split_at(place);
    let (_, behind) = text.split_at(place + 1);
    (before, behind)
}

/// Adds a line, in further lines if it has more bytes than the width.
#[tactic(auto, using(crate::proofs::FoldLemmas::laying))]
fn push_line(out: &mut Vec<u8>, line: &[u8], width: usize) -> Result<(), AllocError>
    ensures { OnOk result (out.new.items ≡ out.old.items ++ spec.folded_line width line.now) }
{
    let mut rest = line;
    let mut left = width;
    while let Some(place) = cut(rest, left) {
        let (part, behind) = parted(rest, place);
        out.extend_from_slice(part)?;
        out.extend_from_slice(BREAK)?;
        rest = behind;
        left = width.saturating_sub(INDENT);
    }
    out.extend_from_slice(rest)
}

/// How many bytes stand before the first line feed, or in the whole text.
fn line_len(text: &[u8]) -> usize
    ensures value { result ≡ spec.line_len text.now }
    ensures bound { result ≤ length text.now }
{
    for (i, byte) in text.iter().enumerate() {
        if *byte == b'\n' {
            return i;
        }
    }
    text.len()
}

/// The first line of a text and what stands after it, if a line feed ends it.
#[tactic(auto, using(crate::proofs::FoldLemmas::ending))]
fn ended_line(text: &[u8]) -> Option<(&[u8], &[u8])>
    ensures parts { MatchOption result (spec.lines text.now ≡ text.now ∷ []) (λ q. spec.lines text.now ≡ q.0.now ∷ spec.lines q.1.now) }
    ensures shorter { IfSome result (λ q. length q.1.now < length text.now) }
{
    let count = line_len(text);
    if count >= text.len() {
        return None;
    }
    Some(parted(text, count))
}

/// Adds a text whose lines of more bytes than a width go on in further lines. `Err` means that memory
/// was refused.
#[tactic(auto, using(crate::proofs::FoldLemmas::folding))]
pub fn push_folded_at(out: &mut Vec<u8>, text: &[u8], width: usize) -> Result<(), AllocError>
    ensures { OnOk result (out.new.items ≡ out.old.items ++ spec.folded_at width text.now) }
{
    let mut rest = text;
    while let Some((line, behind)) = ended_line(rest) {
        push_line(out, line, width)?;
        out.push(b'\n')?;
        rest = behind;
    }
    push_line(out, rest, width)
}

/// Adds a text whose long lines go on in further lines, at the usual width. An `Err` is want of memory.
#[tactic(auto, using(crate::proofs::FoldLemmas::usual))]
pub fn push_folded(out: &mut Vec<u8>, text: &[u8]) -> Result<(), AllocError>
    ensures { OnOk result (out.new.items ≡ out.old.items ++ spec.folded text.now) }
{
    push_folded_at(out, text, WIDTH)
}

/// A law: a text whose long lines go on in further lines has all its bytes, in their order, but for blanks and line feeds, whatever the
/// width.
#[tactic(auto, using(crate::proofs::WordLemmas::words_stay))]
pub fn long_lines_keep_their_words()
    ensures { (width : ℕ) → (z : List ℕ) → filter spec.is_letter (spec.folded_at width z) ≡ filter spec.is_letter z }
{}

/// A law: no line of such a text has more bytes than the width, and a blank at which it could have been cut.
#[tactic(auto, using(crate::proofs::ShortLemmas::short_or_whole))]
pub fn long_lines_can_nowhere_be_cut()
    ensures { (width : ℕ) → (z : List ℕ) → INDENT ≤ width → All (spec.IsShort width) (spec.lines (spec.folded_at width z)) }
{}
