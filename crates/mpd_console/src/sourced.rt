//! The words of a file, which are answered as if they were typed (docs/CONSOLE.md, "The words of a file").

ghost use Rattle.std.specs.Prelude.{◌≡◌, IfOk};
ghost use Rattle.mpd_console.specs.Quitting.{ended};

use crate::desk::ConsoleDesk;
use crate::prompts::{idle_bytes, laid_out, prompt_in};
use mpd_vocabulary::push_quoted;
use std::alloc::{AllocError, Global};

/// How many bytes a file of words may have.
pub const WORDS_MAX: usize = 1_048_576;

/// Why the words of a file aren't answered.
#[derive(Clone, Copy)]
pub enum Unsourced {
    /// The line that asks for them is itself one of a file.
    Nested,
    /// The file can't be opened or read.
    File,
    /// It has more than 1,048,576 bytes.
    TooLong,
    /// Memory was refused.
    Memory,
}

/// The words of a file, whose last line ends. An `Err` is want of memory.
pub fn ended_words(file: Vec<u8>) -> Result<Vec<u8>, AllocError>
    ensures { IfOk result (λ v. v.items ≡ ended file.items) }
{
    let mut words = file;
    if !words.is_empty() && !words.ends_with(b"\n") {
        words.push(b'\n')?;
    }
    Ok(words)
}

/// What a console says before the words of a file are answered: a prompt, if prompts are wanted. An
/// `Err` is want of memory.
pub fn source_taken(alloc: Global, desk: &ConsoleDesk<'_, '_>) -> Result<Vec<u8>, AllocError> {
    let prompt = prompt_in(desk.session(), desk.screen().look.is_prompting);
    idle_bytes(alloc, prompt)
}

/// What a console says if the words of a file aren't answered: one line, with the name of the file if
/// something is wrong with that. Nothing has changed. An `Err` is want of memory.
pub fn source_refused(
    alloc: Global,
    desk: &ConsoleDesk<'_, '_>,
    name: &[u8],
    why: Unsourced,
) -> Result<Vec<u8>, AllocError> {
    let mut told = String::new(alloc);
    match why {
        Unsourced::Nested => {
            told.push_str("refused: source can't stand in a file of words\n")?;
        }
        Unsourced::File => {
            push_quoted(&mut told, "refused: the file '", name)?;
            told.push_str("' can't be read\n")?;
        }
        Unsourced::TooLong => {
            push_quoted(&mut told, "refused: the file '", name)?;
            told.push_str("' has more than 1048576 bytes\n")?;
        }
        Unsourced::Memory => told.push_str("refused: memory\n")?,
    }
    let look = desk.screen().look;
    let prompt = prompt_in(desk.session(), look.is_prompting);
    laid_out(alloc, told.as_bytes(), look.width, prompt)
}
