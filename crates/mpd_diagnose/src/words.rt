//! A script as the words of a command name it, which a shell reads (docs/FORMATS.md, "Diagnosis").

use mpd_model::{Decl, Mode};
use std::alloc::{AllocError, Global};

/// A script as it is told: its text, whose marks stand beside lines, and as words name it, its
/// file, how many ranks it has where that is asked for, and the mode that it runs in.
#[derive(Clone, Copy)]
pub struct Named<'a> {
    /// The text of the script, whose marks name places of a program (docs/FROM_A_RUN.md, "Marks").
    pub script: &'a [u8],
    /// Its declarations.
    pub decls: &'a [Decl],
    /// Its file, as it was given.
    pub file: &'a str,
    /// How many ranks it has, if that was asked for.
    pub ranks: Option<usize>,
    pub mode: Mode,
}

// ---- a file

/// Whether a byte is one of the marks that mean nothing else to a shell.
fn is_mark(byte: u8) -> bool {
    matches!(
        byte,
        b'_' | b'.' | b'/' | b'+' | b'-' | b',' | b':' | b'@' | b'%'
    )
}

/// Whether a byte stands for itself.
fn is_safe(byte: u8) -> bool {
    byte.is_ascii_alphanumeric() || is_mark(byte)
}

/// Whether all bytes do.
fn are_safe(bytes: &[u8]) -> bool {
    for byte in bytes {
        if !is_safe(*byte) {
            return false;
        }
    }
    true
}

/// Whether a word needs no quotes.
fn is_plain(bytes: &[u8]) -> bool {
    !bytes.is_empty() && are_safe(bytes)
}

/// Adds a byte that stands between quotes.
fn push_quoted_byte(out: &mut Vec<u8>, byte: u8) -> Result<(), AllocError> {
    if byte == b'\'' {
        return out.extend_from_slice(b"'\\''");
    }
    out.push(byte)?;
    Ok(())
}

/// Adds bytes that stand between quotes.
fn push_quoted_bytes(out: &mut Vec<u8>, bytes: &[u8]) -> Result<(), AllocError> {
    for byte in bytes {
        push_quoted_byte(out, *byte)?;
    }
    Ok(())
}

/// Adds what stands before a name that begins as an option does, so that it is none.
fn push_here(out: &mut Vec<u8>, bytes: &[u8]) -> Result<(), AllocError> {
    match bytes {
        [b'-', ..] => out.extend_from_slice(b"./"),
        _ => Ok(()),
    }
}

/// Adds a name that needs no quotes.
fn push_plain(out: &mut Vec<u8>, bytes: &[u8]) -> Result<(), AllocError> {
    push_here(out, bytes)?;
    out.extend_from_slice(bytes)?;
    Ok(())
}

/// Adds a name between quotes.
fn push_quoted(out: &mut Vec<u8>, bytes: &[u8]) -> Result<(), AllocError> {
    out.push(b'\'')?;
    push_here(out, bytes)?;
    push_quoted_bytes(out, bytes)?;
    out.push(b'\'')?;
    Ok(())
}

/// Adds a file's name as a shell reads it.
pub(crate) fn push_file(out: &mut Vec<u8>, file: &str) -> Result<(), AllocError> {
    let bytes = file.as_bytes();
    if is_plain(bytes) {
        push_plain(out, bytes)
    } else {
        push_quoted(out, bytes)
    }
}

// ---- what follows it

/// Adds how many ranks there are, where that is asked for.
fn push_ranks(out: &mut String, ranks: Option<usize>) -> Result<(), AllocError> {
    match ranks {
        None => Ok(()),
        Some(count) => write!(out, " --ranks {count}"),
    }
}

/// Adds the mode, where it isn't the usual one.
fn push_mode(out: &mut String, mode: Mode) -> Result<(), AllocError> {
    match mode {
        Mode::Rendezvous => Ok(()),
        Mode::Buffered => write!(out, " --mode {mode}"),
        Mode::Slots(_) => write!(out, " --mode {mode}"),
    }
}

/// Adds a text to bytes.
pub(crate) fn push_text(out: &mut Vec<u8>, text: &str) -> Result<(), AllocError> {
    out.extend_from_slice(text.as_bytes())?;
    Ok(())
}

/// Adds the words that follow the file where a command tries several modes.
fn push_in_any_mode(
    alloc: Global,
    out: &mut Vec<u8>,
    ranks: Option<usize>,
) -> Result<(), AllocError> {
    let mut words = String::new(alloc);
    push_ranks(&mut words, ranks)?;
    push_text(out, &words)
}

/// Adds the mode as bytes.
fn push_in_mode(alloc: Global, out: &mut Vec<u8>, mode: Mode) -> Result<(), AllocError> {
    let mut words = String::new(alloc);
    push_mode(&mut words, mode)?;
    push_text(out, &words)
}

/// Adds a script as words name it, whatever the mode.
pub(crate) fn push_script(
    alloc: Global,
    out: &mut Vec<u8>,
    named: Named<'_>,
) -> Result<(), AllocError> {
    push_file(out, named.file)?;
    push_in_any_mode(alloc, out, named.ranks)?;
    Ok(())
}

/// Adds a script as words name it, in its mode.
pub(crate) fn push_named(
    alloc: Global,
    out: &mut Vec<u8>,
    named: Named<'_>,
) -> Result<(), AllocError> {
    push_script(alloc, out, named)?;
    push_in_mode(alloc, out, named.mode)?;
    Ok(())
}
