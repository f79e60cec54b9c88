//! Texts as they are told.

ghost use Rattle.std.specs.Prelude.{◌≡◌, ◌<◌, IfOk, OnOk, ◌++◌, map, string_bytes};
ghost use Rattle.mpd_dap.specs.Shown as spec;

use std::alloc::{AllocError, Global};
use std::marker::Model;

/// A text; contracts see its bytes.
#[derive(Drop)]
pub struct Text {
    pub string: String,
}

impl Model for Text {
    ghost use Rattle.std.specs.Prelude.{List, ℕ, string_bytes};

    ghost Value = { List ℕ };

    ghost view = { λ t. string_bytes t.string };
}

impl Text {
    /// The text itself.
    pub fn as_str(&self) -> &str
        ensures { result.now ≡ self.now }
    {
        self.string.as_str()
    }
}

/// How a byte is shown.
fn shown_byte(byte: u8) -> u8
    ensures value { result ≡ spec.shown_byte byte }
    ensures ascii { result < 128 }
{
    match byte {
        b'\t' | b'\n' | b' '..=b'~' => byte,
        _ => b'?',
    }
}

/// Adds each byte as it is shown.
fn push_shown(out: &mut String, bytes: &[u8]) -> Result<(), AllocError>
    ensures { OnOk result (string_bytes out.new ≡ string_bytes out.old ++ map spec.shown_byte bytes.now) }
{
    for byte in bytes {
        out.push(shown_byte(*byte) as char)?;
    }
    Ok(())
}

/// The text of some bytes, with a question mark in the place of each that is no printable ASCII, nor a line feed or a tab. An `Err` is
/// want of memory.
pub fn shown(alloc: Global, bytes: &[u8]) -> Result<Text, AllocError>
    ensures { IfOk result (λ t. t ≡ map spec.shown_byte bytes.now) }
{
    let mut string = String::new(alloc);
    push_shown(&mut string, bytes)?;
    Ok(Text { string })
}
