//! A text that is cut at each byte of one kind.

ghost use Rattle.std.specs.Prelude.{◌≡◌, ◌≤◌, ◌==◌, ◌+◌, [], ◌∷◌, length, Some, None, MatchOption};
ghost use Rattle.mpd_model.specs.texts.Words.{stop_len};
ghost use Rattle.mpd_witness.specs.WitnessText.{cut_at, parts_at};

use std::marker::Model;

/// How many bytes stand before the first such byte, or all.
fn len_before(text: &[u8], separator: u8) -> usize
    ensures value { result ≡ stop_len (λ b. b == separator) text.now }
    ensures bound { result ≤ length text.now }
{
    for (i, byte) in text.iter().enumerate() {
        if *byte == separator {
            return i;
        }
    }
    text.len()
}

/// What stands before the first such byte, and what stands after it.
#[tactic(auto, using(crate::proofs::PieceLemmas::cutting))]
pub(crate) fn cut(text: &[u8], separator: u8) -> Option<(&[u8], &[u8])>
    ensures { MatchOption result (cut_at separator text.now ≡ None) (λ q. cut_at separator text.now ≡ Some (q.0.now, q.1.now)) }
{
    let (before, from) = text.split_at(len_before(text, separator));
    match from.split_first() {
        None => None,
        Some((_, behind)) => Some((before, behind)),
    }
}

/// The pieces of a text before, between and after the bytes of one kind; contracts see those that
/// are still to come.
#[derive(Drop)]
pub(crate) struct Pieces<'a> {
    rest: &'a [u8],
    separator: u8,
    over: bool,
}

impl<'a> Model for Pieces<'a> {
    ghost use Rattle.std.specs.Prelude.{List, ℕ};
    ghost use Rattle.mpd_witness.specs.Pieces.{parts_left};

    ghost Value = { List (List ℕ) };

    ghost view = { λ p. parts_left p.over p.separator p.rest.now };
}

impl<'a> Pieces<'a> {
    /// All pieces of a text: at least one, and at most one more than the text has bytes.
    #[tactic(auto, using(crate::proofs::PieceLemmas::limiting))]
    pub(crate) fn new(text: &'a [u8], separator: u8) -> Pieces<'a>
        ensures parts { result ≡ parts_at separator text.now }
        ensures few { length result ≤ length text.now + 1 }
    {
        Pieces {
            rest: text,
            separator,
            over: false,
        }
    }

    /// The next piece.
    #[tactic(auto, using(crate::proofs::PieceLemmas::taking))]
    pub(crate) fn next(&mut self) -> Option<&'a [u8]>
        ensures { MatchOption result (self.old ≡ []) (λ piece. self.old ≡ piece.now ∷ self.new) }
    {
        if self.over {
            return None;
        }
        match cut(self.rest, self.separator) {
            None => {
                self.over = true;
                Some(self.rest)
            }
            Some((piece, behind)) => {
                self.rest = behind;
                Some(piece)
            }
        }
    }
}
