//! Which lines of `print` ask for the value of an expression, and where it stands (docs/CONSOLE.md, "Looks").

ghost use Rattle.std.specs.Prelude.{◌≡◌, ◌<◌, IfSome, length};
ghost use Rattle.std.specs.List.{position};
ghost use Rattle.mpd_model.specs.texts.Words.{is_blank, is_no_blank, words};
ghost use Rattle.mpd_vocabulary.specs.Reading as spec;

use crate::read::optional_number;
use crate::topic::Topic;
use mpd_code::Code;
use mpd_model::next_word;
use mpd_names::{NameFault, Named, find_named};

/// Whether a word means neither a name nor an index that its array doesn't have.
fn names_nothing(cells: Result<Named, NameFault>) -> bool
    ensures { result ≡ spec.names_nothing cells }
{
    match cells {
        Ok(_) => false,
        Err(NameFault::Unknown) => true,
        Err(NameFault::NoSuchCell) => false,
    }
}

/// Whether this is an expression: neither a name nor one with the number of a rank.
fn is_value(code: &Code, rest: &[u8]) -> bool
    ensures { result ≡ spec.is_value code.now.program.decls (words rest.now) }
{
    let Some((name, behind)) = next_word(rest) else {
        return false;
    };
    match optional_number(behind) {
        None => true,
        Some(_) => names_nothing(find_named(code, name)),
    }
}

/// Whether a word with what stands after it asks for the value of an expression.
pub(crate) fn asks_value(code: &Code, topic: Option<Topic>, rest: &[u8]) -> bool
    ensures { result ≡ spec.asks_value code.now.program.decls topic (words rest.now) }
{
    match topic {
        Some(Topic::Print) => is_value(code, rest),
        _ => false,
    }
}

/// Whether a byte is a space or a tab.
fn is_blank(byte: u8) -> bool
    ensures { result ≡ is_blank byte }
{
    byte == b' ' || byte == b'\t'
}

/// Whether it is neither.
fn is_no_blank(byte: u8) -> bool
    ensures { result ≡ is_no_blank byte }
{
    !is_blank(byte)
}

/// The place of the first blank.
fn first_blank(text: &[u8]) -> Option<usize>
    ensures place { result ≡ position is_blank text.now }
    ensures within { IfSome result (λ place. place < length text.now) }
{
    text.iter().position(|byte| is_blank(*byte))
}

/// The place of the first byte that is no blank.
fn first_no_blank(text: &[u8]) -> Option<usize>
    ensures place { result ≡ position is_no_blank text.now }
    ensures within { IfSome result (λ place. place < length text.now) }
{
    text.iter().position(|byte| is_no_blank(*byte))
}

/// A text from a place on; nothing if there is none.
fn from_place(text: &[u8], place: Option<usize>) -> &[u8]
    requires { IfSome place (λ n. n < length text.now) }
    ensures { result.now ≡ spec.from_place place text.now }
{
    match place {
        None => b"",
        Some(place) => text.split_at(place).1,
    }
}

/// What stands after the first word of a line. Blanks are spaces and tabs.
pub fn behind_word(line: &[u8]) -> &[u8]
    ensures { result.now ≡ spec.behind_word line.now }
{
    let word = from_place(line, first_no_blank(line));
    from_place(word, first_blank(word))
}
