//! The text of a script with another number in the place of the one after `ranks`.

ghost use Rattle.std.specs.Prelude.{◌≡◌, ◌≤◌, IfOk, false, length};
ghost use Rattle.mpd_trace.specs.Ranks.{before_digit, digits_at, is_comment_after, number_at, text_with};

use itoa::Buffer;
use std::alloc::{AllocError, Global};

/// Whether what follows a byte is in a comment, by whether the byte is.
fn is_comment_after(in_comment: bool, byte: u8) -> bool
    ensures { result ≡ is_comment_after in_comment byte }
{
    if in_comment {
        byte != b'\n'
    } else {
        byte == b'#'
    }
}

/// How many bytes stand before the first digit that is in no comment.
fn before_digit(text: &[u8]) -> usize
    ensures value { result ≡ before_digit false text.now }
    ensures within { result ≤ length text.now }
{
    let mut rest = text;
    let mut in_comment = false;
    let mut count = 0;
    while let [byte, behind @ ..] = rest {
        if !in_comment && byte.is_ascii_digit() {
            return count;
        }
        in_comment = is_comment_after(in_comment, *byte);
        count += 1;
        rest = behind;
    }
    count
}

/// How many digits stand at the front.
fn digits_at(text: &[u8]) -> usize
    ensures value { result ≡ digits_at text.now }
    ensures within { result ≤ length text.now }
{
    let mut end = 0;
    while end < text.len() && text[end].is_ascii_digit() {
        end += 1;
    }
    end
}

/// Where the number after `ranks` begins: the second of the text.
fn number_at(text: &[u8]) -> usize
    ensures value { result ≡ number_at text.now }
    ensures within { result ≤ length text.now }
{
    let first = before_digit(text);
    let (_, version) = text.split_at(first);
    let end = digits_at(version);
    let (_, behind) = version.split_at(end);
    first + end + before_digit(behind)
}

/// The text of a script, with this number in the place of the one after `ranks`. All other bytes stay.
pub fn text_with_ranks(alloc: Global, text: &[u8], ranks: usize) -> Result<Vec<u8>, AllocError>
    ensures { IfOk result (λ made. made.items ≡ text_with ranks text.now) }
{
    let place = number_at(text);
    let (before, number) = text.split_at(place);
    let (_, behind) = number.split_at(digits_at(number));
    let mut made = Vec::new(alloc);
    made.extend_from_slice(before)?;
    let mut digits = Buffer::new();
    made.extend_from_slice(digits.format(ranks).as_bytes())?;
    made.extend_from_slice(behind)?;
    Ok(made)
}
