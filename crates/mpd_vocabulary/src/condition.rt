//! Reads the condition of a breakpoint: `x == 3`, with blanks or without (docs/CONSOLE.md, "Words").

ghost use Rattle.std.specs.Prelude.{◌≡◌, ◌≤◌, ◌<◌, ◌^◌, ◌∷◌, [], length, MatchOption};
ghost use Rattle.std.specs.List.{flat_map};
ghost use Rattle.mpd_model.specs.texts.Words.{words, stop_len};
ghost use Rattle.mpd_vocabulary.specs.Conditions as spec;

use crate::topic::Topic;
use crate::word::WordFault;
use mpd_code::Code;
use mpd_model::{Condition, DeclKind, comparison_of, next_word};
use mpd_names::{NameFault, Named, find_named};

/// The most digits that a number has.
const DIGITS_MAX: usize = 19;

/// The first number that is too large.
const HALF: usize = 1 << 63;

// ---- pieces

/// Whether a byte is one of an operator.
fn is_sign(byte: u8) -> bool
    ensures { result ≡ spec.is_sign byte }
{
    byte == b'!' || (byte == b'<' || (byte == b'=' || byte == b'>'))
}

/// Whether a byte is of the other kind: none of an operator where `sign` is so, and else one.
fn is_other(sign: bool, byte: u8) -> bool
    ensures { result ≡ spec.is_other sign byte }
{
    if sign { !is_sign(byte) } else { is_sign(byte) }
}

/// How many bytes stand before the first of the other kind, or all.
fn run_len(text: &[u8], sign: bool) -> usize
    ensures value { result ≡ stop_len (spec.is_other sign) text.now }
    ensures bound { result ≤ length text.now }
{
    for (i, byte) in text.iter().enumerate() {
        if is_other(sign, *byte) {
            return i;
        }
    }
    text.len()
}

/// How many bytes the first piece of a word has: as many as are of one kind.
fn piece_len(word: &[u8]) -> usize
    ensures value { result ≡ spec.piece_len word.now }
    ensures bound { result ≤ length word.now }
{
    match word.split_first() {
        None => 0,
        Some((first, rest)) => 1 + run_len(rest, is_sign(*first)),
    }
}

/// The first piece of a word.
pub(crate) fn first_piece(word: &[u8]) -> &[u8]
    ensures { result.now ≡ spec.first_piece word.now }
{
    let (piece, _) = word.split_at(piece_len(word));
    piece
}

/// The next piece of what is left of a word and of the words that follow, and what is left after it. `None` where nothing is left.
#[tactic(auto, using(crate::proofs::PieceLemmas::cutting))]
fn next_piece<'l>(left: &'l [u8], rest: &'l [u8]) -> Option<(&'l [u8], &'l [u8], &'l [u8])>
    ensures { MatchOption result (spec.pieces_of left.now (words rest.now) ≡ []) (λ q. spec.pieces_of left.now (words rest.now) ≡ q.0.now ∷ spec.pieces_of q.1.now (words q.2.now)) }
{
    if left.is_empty() {
        let (word, behind) = next_word(rest)?;
        let (piece, more) = word.split_at(piece_len(word));
        return Some((piece, more, behind));
    }
    let (piece, more) = left.split_at(piece_len(left));
    Some((piece, more, rest))
}

// ---- numbers

/// What 1 to 19 digits say.
fn magnitude_of(word: &[u8]) -> Option<usize>
    ensures { result ≡ spec.magnitude_of word.now }
{
    if word.is_empty() || word.len() > DIGITS_MAX {
        return None;
    }
    let mut value = 0;
    for byte in word {
        if !byte.is_ascii_digit() {
            return None;
        }
        value = value * 10 + (*byte - b'0') as usize;
    }
    Some(value)
}

/// A number from 0 on.
fn from_zero(magnitude: usize) -> Option<i64>
    ensures { result ≡ spec.from_zero magnitude }
{
    if magnitude < HALF {
        Some(magnitude as i64)
    } else {
        None
    }
}

/// A number with a `-` before it.
fn below_zero(magnitude: usize) -> Option<i64>
    ensures { result ≡ spec.below_zero magnitude }
{
    if magnitude == 0 {
        return Some(0);
    }
    if magnitude <= HALF {
        Some(-1 - (magnitude - 1) as i64)
    } else {
        None
    }
}

/// A number of 64 bits, with a `-` before it where it is below 0.
fn integer_of(word: &[u8]) -> Option<i64>
    ensures { result ≡ spec.integer_of word.now }
{
    let (first, rest) = word.split_first()?;
    if *first == b'-' {
        return below_zero(magnitude_of(rest)?);
    }
    from_zero(magnitude_of(word)?)
}

// ---- conditions

/// The cell of a variable that a name stands for, where it is one.
fn cell_of(named: Named) -> Result<usize, WordFault>
    ensures { result ≡ spec.cell_of named }
{
    match named.kind {
        DeclKind::Handle => Err(WordFault::NoValue),
        DeclKind::Variable => {
            if named.cells == 1 {
                Ok(named.first)
            } else {
                Err(WordFault::NoIndex)
            }
        }
    }
}

/// The cell that a condition is about; its name begins the word of this number of its line.
fn compared_cell(place: usize, cell: Result<Named, NameFault>) -> Result<usize, WordFault>
    ensures { result ≡ spec.compared_cell place cell }
{
    match cell {
        Ok(named) => cell_of(named),
        Err(NameFault::Unknown) => Err(WordFault::NoNameIn(place)),
        Err(NameFault::NoSuchCell) => Err(WordFault::NoSuchIndex),
    }
}

/// The condition of a name, an operator and a number.
fn condition_of(
    code: &Code,
    place: usize,
    name: &[u8],
    operator: &[u8],
    number: &[u8],
) -> Result<Condition, WordFault>
    ensures { result ≡ spec.condition_of code.now.program.decls place name.now operator.now number.now }
{
    let Some(comparison) = comparison_of(operator) else {
        return Err(WordFault::Usage(Topic::Break));
    };
    let Some(value) = integer_of(number) else {
        return Err(WordFault::Usage(Topic::Break));
    };
    match compared_cell(place, find_named(code, name)) {
        Err(fault) => Err(fault),
        Ok(cell) => Ok(Condition {
            cell,
            comparison,
            value,
        }),
    }
}

/// The condition that some words tell, as `x == 3`. A fault names a word by its number, of which the
/// first has this one.
pub fn condition_in(code: &Code, place: usize, rest: &[u8]) -> Result<Condition, WordFault>
    ensures { result ≡ spec.condition_in code.now.program.decls place (spec.pieces_of [] (words rest.now)) }
{
    let Some((name, left, behind)) = next_piece(b"", rest) else {
        return Err(WordFault::Usage(Topic::Break));
    };
    let Some((operator, left, behind)) = next_piece(left, behind) else {
        return Err(WordFault::Usage(Topic::Break));
    };
    let Some((number, left, behind)) = next_piece(left, behind) else {
        return Err(WordFault::Usage(Topic::Break));
    };
    if next_piece(left, behind).is_some() {
        return Err(WordFault::Usage(Topic::Break));
    }
    condition_of(code, place, name, operator, number)
}
