//! The commands that a diagnosis names.

use crate::words::{Named, push_named, push_script, push_text};
use mpd_explore::push_choices;
use mpd_model::Mode;
use std::alloc::{AllocError, Global};

/// The command that draws runs.
pub(crate) fn sample_command(alloc: Global, named: Named<'_>) -> Result<Vec<u8>, AllocError> {
    let mut out = Vec::new(alloc);
    push_text(&mut out, "  ./mpdbg check ")?;
    push_named(alloc, &mut out, named)?;
    push_text(&mut out, " --sample 65536 --group --explain")?;
    push_text(&mut out, "\n")?;
    Ok(out)
}

/// The command that diagnoses other modes.
pub(crate) fn modes_command(alloc: Global, named: Named<'_>) -> Result<Vec<u8>, AllocError> {
    let mut out = Vec::new(alloc);
    push_text(&mut out, "  ./mpdbg diagnose ")?;
    push_script(alloc, &mut out, named)?;
    push_text(&mut out, " --modes 4")?;
    push_text(&mut out, "\n")?;
    Ok(out)
}

/// Adds that calls that are left over count, where they do.
fn push_strict(out: &mut Vec<u8>, strict: bool) -> Result<(), AllocError> {
    if strict {
        push_text(out, " --strict")
    } else {
        Ok(())
    }
}

/// The command that diagnoses the script of a file in a mode, for so many ranks where that is asked
/// for, `strict` or not.
pub fn full_command(
    alloc: Global,
    file: &str,
    ranks: Option<usize>,
    mode: Mode,
    strict: bool,
) -> Result<Vec<u8>, AllocError> {
    let named = Named {
        script: &[],
        decls: &[],
        file,
        ranks,
        mode,
    };
    let mut out = Vec::new(alloc);
    push_text(&mut out, "  ./mpdbg diagnose ")?;
    push_named(alloc, &mut out, named)?;
    push_strict(&mut out, strict)?;
    push_text(&mut out, "\n")?;
    Ok(out)
}

/// The words that name the choices of a run.
fn choices_words(alloc: Global, choices: &[usize]) -> Result<String, AllocError> {
    let mut out = String::new(alloc);
    out.push_str(" --ends --choices '")?;
    push_choices(&mut out, choices)?;
    out.push_str("'")?;
    Ok(out)
}

/// Adds a command that names a run by its choices, with these words before the script and after the
/// choices.
fn push_command(
    alloc: Global,
    out: &mut Vec<u8>,
    before: &str,
    named: Named<'_>,
    choices: &str,
    after: &str,
) -> Result<(), AllocError> {
    push_text(out, before)?;
    push_named(alloc, out, named)?;
    push_text(out, choices)?;
    push_text(out, after)?;
    push_text(out, "\n")?;
    Ok(())
}

/// The words that write to a file.
fn to_file(alloc: Global, file: &str) -> Result<String, AllocError> {
    let mut out = String::new(alloc);
    out.push_str(" > ")?;
    out.push_str(file)?;
    Ok(out)
}

/// Adds the command that debugs the run with these choices.
fn push_debug(
    alloc: Global,
    out: &mut Vec<u8>,
    named: Named<'_>,
    choices: &[usize],
) -> Result<(), AllocError> {
    let words = choices_words(alloc, choices)?;
    push_command(alloc, out, "  ./mpdbg debug ", named, &words, "")
}

/// Adds the command that draws it to this file.
fn push_draw(
    alloc: Global,
    out: &mut Vec<u8>,
    named: Named<'_>,
    choices: &[usize],
    picture: &str,
) -> Result<(), AllocError> {
    let words = choices_words(alloc, choices)?;
    let after = to_file(alloc, picture)?;
    push_command(alloc, out, "  ./mpdbg picture ", named, &words, &after)
}

/// The picture of a run: its file, and whether a run of so many steps is drawn.
#[derive(Drop)]
pub(crate) struct Picture {
    pub(crate) file: String,
    pub(crate) is_drawn: bool,
    pub(crate) steps: usize,
}

/// That a run of so many steps has no picture.
fn too_long(alloc: Global, steps: usize) -> Result<String, AllocError> {
    let mut out = String::new(alloc);
    write!(out, "  a run of {steps} steps is too long for a picture")?;
    out.push_str("\n")?;
    Ok(out)
}

/// Adds that a run of so many steps has no picture.
fn push_too_long(alloc: Global, out: &mut Vec<u8>, steps: usize) -> Result<(), AllocError> {
    let text = too_long(alloc, steps)?;
    push_text(out, &text)
}

/// The same where it is drawn; else that it has no picture.
fn push_draw_if(
    alloc: Global,
    out: &mut Vec<u8>,
    named: Named<'_>,
    choices: &[usize],
    picture: &Picture,
) -> Result<(), AllocError> {
    if picture.is_drawn {
        push_draw(alloc, out, named, choices, &picture.file)
    } else {
        push_too_long(alloc, out, picture.steps)
    }
}

/// Adds the commands that debug the run with these choices, and draw it where it is drawn.
pub(crate) fn push_run(
    alloc: Global,
    out: &mut Vec<u8>,
    named: Named<'_>,
    choices: &[usize],
    picture: &Picture,
) -> Result<(), AllocError> {
    push_debug(alloc, out, named, choices)?;
    push_draw_if(alloc, out, named, choices, picture)?;
    Ok(())
}

/// The file that a picture is written to: what its kind is called, and its number where there are
/// several.
pub(crate) fn picture_file(
    alloc: Global,
    kind: &str,
    several: bool,
    number: usize,
) -> Result<String, AllocError> {
    let mut out = String::new(alloc);
    out.push_str(kind)?;
    if several {
        write!(out, "-{number}")?;
    }
    out.push_str(".svg")?;
    Ok(out)
}
