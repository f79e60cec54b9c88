//! Names of files, words and messages as a terminal shows them: what would move its cursor or change its colours is no part of them.

ghost use Rattle.std.specs.Prelude.{◌≡◌, ◌==◌, ◌&&◌, not, if◌then◌else◌};
ghost use Rattle.std.specs.Char.{is_control};

use std::io;

/// A character as a terminal shows it: a control character as `?`.
fn shown(letter: char) -> char
    ensures { result ≡ (if is_control letter then 63 else letter) }
{
    if letter.is_control() { '?' } else { letter }
}

/// The same of a character of a message, whose lines end.
fn shown_in_lines(letter: char) -> char
    ensures { result ≡ (if is_control letter && not (letter == 10) then 63 else letter) }
{
    if letter == '\n' {
        letter
    } else {
        shown(letter)
    }
}

/// Says a word or the name of a file, with `?` in the place of each control character.
pub(crate) fn say_shown<R: Eprint>(rt: &R, text: &str) -> io::Result<()> {
    for letter in text.chars() {
        let letter = shown(letter);
        eprint!(rt; "{letter}")?;
    }
    Ok(())
}

/// Says a message of some lines in the same way.
pub(crate) fn say_lines_shown<R: Eprint>(rt: &R, text: &str) -> io::Result<()> {
    for letter in text.chars() {
        let letter = shown_in_lines(letter);
        eprint!(rt; "{letter}")?;
    }
    Ok(())
}
