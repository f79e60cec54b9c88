//! A text, line by line (docs/FORMATS.md, "Lines").

ghost use Rattle.std.specs.Prelude.{◌≡◌, ◌≤◌, ◌<◌, ◌∷◌, ◌++◌, [], ℕ, List, IfSome, MatchOption, length};
ghost use Rattle.mpd_model.specs.texts.Lines.{raw_lines, joined, line_len, bare};

/// The lines of a text, one after another, are the text.
pub fn lines_lose_nothing()
    ensures { (z : List ℕ) → joined (raw_lines z) ≡ z }
{}

/// How many bytes the first line of a text has, with its line feed.
fn line_len(text: &[u8]) -> usize
    ensures value { result ≡ line_len text.now }
    ensures bound { result ≤ length text.now }
{
    for (i, byte) in text.iter().enumerate() {
        if *byte == b'\n' {
            return i + 1;
        }
    }
    text.len()
}

/// The first line of a text, with its line feed, and what stands after it; `None` if the text is empty.
#[tactic(auto, using(crate::proofs::LineLemmas::cutting))]
pub fn cut_line(text: &[u8]) -> Option<(&[u8], &[u8])>
    ensures parts { MatchOption result (raw_lines text.now ≡ []) (λ q. raw_lines text.now ≡ q.0.now ∷ raw_lines q.1.now) }
    ensures shorter { IfSome result (λ q. length q.1.now < length text.now) }
{
    if text.is_empty() {
        return None;
    }
    Some(text.split_at(line_len(text)))
}

/// A line that a line feed followed, without the carriage return at its end, if it has one.
#[tactic(auto, using(crate::proofs::LineLemmas::baring))]
pub fn without_return(line: &[u8]) -> &[u8]
    ensures { result.now ≡ bare (line.now ++ 10 ∷ []) }
{
    if let Some((last, shorter)) = line.split_last() {
        if *last == b'\r' {
            return shorter;
        }
    }
    line
}

/// A line without its line feed, and without a carriage return right before that.
#[tactic(auto, using(crate::proofs::LineLemmas::baring))]
pub fn bare_line(line: &[u8]) -> &[u8]
    ensures { result.now ≡ bare line.now }
{
    if let Some((last, shorter)) = line.split_last() {
        if *last == b'\n' {
            return without_return(shorter);
        }
    }
    line
}
