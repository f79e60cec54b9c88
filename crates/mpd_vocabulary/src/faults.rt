//! What is told of a line that asks for nothing that can be done, and help (docs/CONSOLE.md,
//! "Answers"): words for people.

ghost use Rattle.std.specs.Prelude.{◌≡◌, ◌<◌, None};
ghost use Rattle.mpd_model.specs.texts.Words.{words};
ghost use Rattle.mpd_vocabulary.specs.Faults as spec;

use crate::condition::first_piece;
use crate::topic::{Entry, FIRST, TOPICS, Topic, entry_of, forms_of, nearest};
use crate::word::{HelpOn, WordFault};
use mpd_model::next_word;
use std::alloc::AllocError;

/// How wide the forms of a word stand in the lines of help.
const FORMS_WIDTH: usize = 35;

/// What is said after the words that one needs first.
const AFTER_FIRST: &str =
    "help all lists all words; help WORD tells more of one, and its short forms
help choice tells what a choice is
an empty line does the last word once more
";

/// What is said after all words.
const AFTER_ALL: &str = "help WORD tells more of a word, and its short forms
an empty line does the last word once more
";

/// What a choice is.
const CHOICE: &str =
    "choice: a state in which one of several steps is to be taken next, as which message a receive of any source gets; next lists them, next N takes one, from 1 (reports count them from 0, in [..]), undo-choice comes back to take another, and check tries all of them
";

/// The word of a number of a line, from 0; empty if there is none.
#[tactic(auto, using(crate::proofs::FaultLemmas::skipping))]
pub fn word_at(line: &[u8], number: usize) -> &[u8]
    ensures { result.now ≡ spec.word_at (words line.now) number }
{
    let mut rest = line;
    for skipped in 0..number {
        let Some((_, behind)) = next_word(rest) else {
            return b"";
        };
        rest = behind;
    }
    match next_word(rest) {
        None => b"",
        Some((word, _)) => word,
    }
}

/// How a byte is shown: one that is no printable ASCII as a question mark.
fn shown_byte(byte: u8) -> u8
    ensures { result < 128 }
{
    if byte < 32 || byte > 126 { b'?' } else { byte }
}

/// Adds a text and a word, with a question mark in the place of each byte that is no printable ASCII.
/// An `Err` is want of memory.
pub fn push_quoted(out: &mut String, begun: &str, word: &[u8]) -> Result<(), AllocError> {
    out.push_str(begun)?;
    for byte in word {
        out.push(shown_byte(*byte) as char)?;
    }
    Ok(())
}

/// Adds what is told of a word that is none: which word may be meant.
fn push_unknown(out: &mut String, word: &[u8]) -> Result<(), AllocError> {
    push_quoted(out, "unknown word '", word)?;
    match nearest(word) {
        "" => out.push_str("': help all lists all\n"),
        name => write!(out, "': perhaps {name}\n"),
    }
}

/// Adds what is told of a name that isn't declared. An `Err` is want of memory.
pub fn push_no_name(out: &mut String, name: &[u8]) -> Result<(), AllocError> {
    push_quoted(out, "no variable or request is called '", name)?;
    out.push_str("'\n")
}

/// Adds what is told of a line that asks for nothing that can be done. An `Err` is want of memory.
pub fn push_fault(out: &mut String, line: &[u8], fault: WordFault) -> Result<(), AllocError> {
    match fault {
        WordFault::Unknown(number) => push_unknown(out, word_at(line, number)),
        WordFault::Usage(topic) => {
            let usage = entry_of(topic).usage;
            write!(out, "usage: {usage}\n")
        }
        WordFault::NoName(number) => push_no_name(out, word_at(line, number)),
        WordFault::NoSuchIndex => out.push_str("refused: there is no such index\n"),
        WordFault::NoIndex => out.push_str("refused: an array needs an index here\n"),
        WordFault::NoNameIn(number) => push_no_name(out, first_piece(word_at(line, number))),
        WordFault::NoValue => out.push_str("refused: a request has no value to compare\n"),
    }
}

// ---- help

/// Adds the lines of help of some words, in two columns, and what is said after them.
fn push_list(out: &mut String, topics: &[Topic], after: &str) -> Result<(), AllocError> {
    for topic in topics {
        let forms = forms_of(*topic);
        let purpose = entry_of(*topic).purpose;
        out.push_str(forms)?;
        for _space in forms.len()..FORMS_WIDTH {
            out.push(' ')?;
        }
        write!(out, " {purpose}\n")?;
    }
    out.push_str(after)
}

/// Adds what is told of one word.
fn push_help_of(out: &mut String, topic: Topic) -> Result<(), AllocError> {
    let forms = forms_of(topic);
    let Entry {
        purpose,
        details,
        shorts,
        ..
    } = entry_of(topic);
    write!(out, "{forms}: {purpose}{details}\n")?;
    if !shorts.is_empty() {
        write!(out, "  short: {shorts}\n")?;
    }
    Ok(())
}

/// Adds what help was asked for: the lines of help of the words that one needs first, or of all, what
/// a choice is, or what is told of one word. An `Err` is want of memory.
pub fn push_help(out: &mut String, on: HelpOn) -> Result<(), AllocError> {
    match on {
        HelpOn::First => push_list(out, &FIRST, AFTER_FIRST),
        HelpOn::All => push_list(out, &TOPICS, AFTER_ALL),
        HelpOn::Choice => out.push_str(CHOICE),
        HelpOn::Word(topic) => push_help_of(out, topic),
    }
}
