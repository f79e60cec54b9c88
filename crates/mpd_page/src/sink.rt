//! What writes between the two parts of the template (docs/PAGES.md, "The file").

ghost use Rattle.std.specs.Prelude.{◌≡◌, ◌++◌, OnOk};
ghost use Rattle.mpd_page.specs.Markup as spec;

use std::alloc::AllocError;

/// Adds a text as it is.
pub(crate) fn add_text(out: &mut Vec<u8>, text: &str) -> Result<(), AllocError>
    ensures { OnOk result (out.new.items ≡ out.old.items ++ text.now) }
{
    out.extend_from_slice(text.as_bytes())
}

/// Adds a byte of JSON, a `<` by its number.
fn push_byte(out: &mut Vec<u8>, byte: u8) -> Result<(), AllocError>
    ensures { OnOk result (out.new.items ≡ out.old.items ++ spec.harmless_byte byte) }
{
    if byte == b'<' {
        return add_text(out, "\\u003c");
    }
    out.push(byte)?;
    Ok(())
}

/// Adds a text of JSON, whose `<` are all within texts. What is added has none.
pub(crate) fn push_harmless(out: &mut Vec<u8>, text: &[u8]) -> Result<(), AllocError>
    ensures { OnOk result (out.new.items ≡ out.old.items ++ spec.harmless text.now) }
{
    for byte in text {
        push_byte(out, *byte)?;
    }
    Ok(())
}
