//! What the program reads from and writes to, and who is there.

/// Where a person sits.
#[derive(Clone, Copy)]
pub(crate) struct Terminals {
    /// Whether standard input and output are a terminal: there prompts are written.
    pub(crate) is_prompting: bool,
    /// Whether standard error is one.
    pub(crate) is_terminal: bool,
}

/// Where a command reads from and writes to, and where a person sits.
#[derive(Drop)]
pub(crate) struct Outside<'o, S, W> {
    pub(crate) source: &'o mut S,
    pub(crate) sink: &'o mut W,
    pub(crate) terminals: Terminals,
}
