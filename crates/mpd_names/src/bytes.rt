//! Bytes of a word.

ghost use Rattle.std.specs.Prelude.{◌≡◌, ◌≤◌, length, MatchOption, Some, None};
ghost use Rattle.mpd_model.specs.texts.Words.{stop_len};
ghost use Rattle.mpd_names.specs.Names as names;

/// How many bytes stand before the first `[`, or all.
pub(crate) fn name_len(word: &[u8]) -> usize
    ensures value { result ≡ names.name_len word.now }
    ensures bound { result ≤ length word.now }
{
    for (i, byte) in word.iter().enumerate() {
        if *byte == b'[' {
            return i;
        }
    }
    word.len()
}

/// How many digits stand at the front.
fn digit_len(text: &[u8]) -> usize
    ensures value { result ≡ names.digit_len text.now }
    ensures bound { result ≤ length text.now }
{
    for (i, byte) in text.iter().enumerate() {
        if !byte.is_ascii_digit() {
            return i;
        }
    }
    text.len()
}

/// The digits of an index, if only digits and `]` stand after its `[`.
pub(crate) fn digits_of(text: &[u8]) -> Option<&[u8]>
    ensures { MatchOption result (names.digits_of text.now ≡ None) (λ q. names.digits_of text.now ≡ Some q.now) }
{
    let (digits, end) = text.split_at(digit_len(text));
    if digits.is_empty() || end != b"]".as_slice() {
        return None;
    }
    Some(digits)
}
