//! What is shown of a text that is refused: the line of the fault, and a caret under its byte.
ghost use Rattle.std.specs.Prelude.{◌≡◌, ◌+◌, ◌-◌, ◌≤◌, ◌++◌, ◌∷◌, [], nat_lt, length, map, take, drop, reverse, replicate, IfOk, OnOk, string_bytes};
ghost use Rattle.std.specs.List.{position_or_len, before_first};
ghost use Rattle.mpd_trace.specs.Excerpts.{is_feed, column_of, line_around, shown, shown_from, ellipsis, part_shown, under, excerpt_of};

use std::alloc::{AllocError, Global};
use std::cmp;

/// Bytes of a line that are shown at most.
pub const SHOWN_MAX: usize = 72;

/// Bytes of a line that are shown before the place, where the line is cut at its front.
pub const SHOWN_BEFORE: usize = 36;

/// How many bytes stand after the last line feed of a text, or all.
fn column(text: &[u8]) -> usize
    ensures value { result ≡ position_or_len is_feed (reverse text.now) }
    ensures bound { result ≤ length text.now }
{
    let mut count = 0;
    for byte in text {
        count = if *byte == b'\n' { 0 } else { count + 1 };
    }
    count
}

/// How many bytes stand before the first line feed of a text, or all.
fn line_len(text: &[u8]) -> usize
    ensures value { result ≡ position_or_len is_feed text.now }
    ensures bound { result ≤ length text.now }
{
    for (i, byte) in text.iter().enumerate() {
        if *byte == b'\n' {
            return i;
        }
    }
    text.len()
}

/// How a byte is shown, in one column.
fn shown(byte: u8) -> u8
    ensures value { result ≡ shown byte }
    ensures ascii { result ≤ 126 }
{
    match byte {
        b'\t' | b'\r' => b' ',
        b' '..=b'~' => byte,
        _ => b'?',
    }
}

/// Adds spaces.
fn push_spaces(out: &mut String, count: usize) -> Result<(), AllocError>
    ensures { OnOk result (string_bytes out.new ≡ string_bytes out.old ++ replicate count 32) }
{
    for column in 0..count {
        out.push(' ')?;
    }
    Ok(())
}

/// Adds the bytes of a line as they are shown.
fn push_shown(out: &mut String, line: &[u8]) -> Result<(), AllocError>
    ensures { OnOk result (string_bytes out.new ≡ string_bytes out.old ++ map shown line.now) }
{
    for byte in line {
        out.push(shown(*byte) as char)?;
    }
    Ok(())
}

/// What stands where a line was cut.
fn ellipsis(is_cut: bool) -> &'static str
    ensures { result.now ≡ ellipsis is_cut }
{
    if is_cut { "..." } else { "" }
}

/// The line that a place is in, without its end.
fn line_around(text: &[u8], place: usize) -> (&[u8], usize)
    ensures line { result.0.now ≡ line_around text.now place }
    ensures column { result.1 ≡ column_of text.now place }
{
    let (front, _) = text.split_at(cmp::min(place, text.len()));
    let column = column(front);
    let (_, behind) = text.split_at(front.len() - column);
    let (line, _) = behind.split_at(line_len(behind));
    (line, column)
}

/// A line from a byte on.
#[tactic(auto, using(std::proofs::lemmas::List::drop_min))]
fn from_byte(line: &[u8], from: usize) -> &[u8]
    ensures { result.now ≡ drop from line.now }
{
    line.split_at(cmp::min(from, line.len())).1
}

/// The front of what stands there that is shown.
#[tactic(auto, using(std::proofs::lemmas::List::take_min))]
fn front_shown(rest: &[u8]) -> &[u8]
    ensures { result.now ≡ take SHOWN_MAX rest.now }
{
    rest.split_at(cmp::min(SHOWN_MAX, rest.len())).0
}

/// From which byte of its line on the part is shown that has a place in this column.
fn first_shown(column: usize) -> usize
    ensures value { result ≡ shown_from column }
    ensures bound { result ≤ column }
{
    if column < SHOWN_MAX {
        return 0;
    }
    column - SHOWN_BEFORE
}

/// Adds the part of a line from a byte on, 72 bytes at most, with `...` where it was cut.
pub(crate) fn push_part(out: &mut String, line: &[u8], from: usize) -> Result<(), AllocError>
    ensures { OnOk result (string_bytes out.new ≡ string_bytes out.old ++ part_shown line.now from) }
{
    let rest = from_byte(line, from);
    out.push_str(ellipsis(from > 0))?;
    push_shown(out, front_shown(rest))?;
    out.push_str(ellipsis(rest.len() > SHOWN_MAX))?;
    Ok(())
}

/// Adds the spaces before the caret of a column, below a part that is shown from a byte on.
fn push_under(out: &mut String, column: usize, from: usize) -> Result<(), AllocError>
    requires { from ≤ column }
    ensures { OnOk result (string_bytes out.new ≡ string_bytes out.old ++ under column from) }
{
    let dots = ellipsis(from > 0).len();
    push_spaces(out, 2 + dots)?;
    push_spaces(out, column - from)
}

/// The line of a text that a place is in, indented by two, and below it a caret under the place. Each byte takes one
/// column: a tab or a carriage return is shown as a space, and what is no printable ASCII as `?`. A line that is long is
/// cut to 72 bytes around the place, with `...` where it was cut. Both lines end with a line feed. An `Err` is want of
/// memory.
pub fn excerpt(alloc: Global, text: &[u8], place: usize) -> Result<String, AllocError>
    ensures { IfOk result (λ lines. string_bytes lines ≡ excerpt_of text.now place) }
{
    let (line, column) = line_around(text, place);
    let from = first_shown(column);
    let mut out = String::new(alloc);
    out.push_str("  ")?;
    push_part(&mut out, line, from)?;
    out.push('\n')?;
    push_under(&mut out, column, from)?;
    out.push_str("^\n")?;
    Ok(out)
}
