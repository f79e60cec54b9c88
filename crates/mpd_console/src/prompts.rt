//! How the answers of the console look: where their lines wrap, and the prompt after them.

ghost use Rattle.std.specs.Prelude.{◌≡◌};
ghost use Rattle.mpd_console.specs.Says.{prompted};

use mpd_lines::push_folded_at;
use mpd_session::Session;
use std::alloc::{AllocError, Global};
use std::fmt;

/// How the answers of a console look.
#[derive(Clone, Copy)]
pub struct Look {
    /// Whether prompts are wanted.
    pub is_prompting: bool,
    /// Whether each line that is read is shown before its answer.
    pub is_echoing: bool,
    /// How many bytes a line has before it wraps.
    pub width: usize,
}

/// The prompt of a console.
#[derive(Clone, Copy)]
pub(crate) struct Prompt {
    /// How many steps are not undone; none if no prompt is wanted.
    pub(crate) depth: Option<usize>,
}

impl fmt::Display for Prompt {
    fn fmt<W: fmt::Write>(&self, f: &mut fmt::Formatter<W>) -> fmt::Result {
        match self.depth {
            None => Ok(()),
            Some(depth) => write!(f, "({depth}) "),
        }
    }
}

/// The prompt of a session, if one is wanted.
pub(crate) fn prompt_in(session: &Session<'_>, is_prompting: bool) -> Prompt
    ensures { result.depth ≡ prompted is_prompting session.now }
{
    if !is_prompting {
        return Prompt { depth: None };
    }
    Prompt {
        depth: Some(session.debugger().depth()),
    }
}

/// Adds the prompt to the bytes of an answer.
pub(crate) fn push_prompt(out: &mut Vec<u8>, prompt: Prompt) -> Result<(), AllocError> {
    let mut text = String::new(*out.allocator());
    write!(text, "{prompt}")?;
    out.extend_from_slice(text.as_bytes())
}

/// The bytes of an answer, whose long lines go on in further lines, with the prompt after it.
pub(crate) fn laid_out(
    alloc: Global,
    told: &[u8],
    width: usize,
    prompt: Prompt,
) -> Result<Vec<u8>, AllocError> {
    let mut out = Vec::new(alloc);
    push_folded_at(&mut out, told, width)?;
    push_prompt(&mut out, prompt)?;
    Ok(out)
}

/// The prompt alone, which is what is told if nothing is done.
pub(crate) fn idle_bytes(alloc: Global, prompt: Prompt) -> Result<Vec<u8>, AllocError> {
    let mut out = Vec::new(alloc);
    push_prompt(&mut out, prompt)?;
    Ok(out)
}
