//! A script and the mode that it runs in.

use crate::code::Code;
use mpd_model::Mode;

/// What is run, explored or checked: the code of a script, and the mode that it runs in, which says which sends are buffered.
#[derive(Clone, Copy)]
pub struct Subject<'c> {
    /// The script as code.
    pub code: &'c Code,
    /// The mode that it runs in.
    pub mode: Mode,
}
