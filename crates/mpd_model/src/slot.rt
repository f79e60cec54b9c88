//! What the reader keeps of a name.

use crate::place::DeclKind;

/// What a declared name stands for.
#[derive(Clone, Copy)]
pub struct Slot {
    pub kind: DeclKind,
    /// The declaration's number in text order, from 0.
    pub declaration: usize,
    /// The number of its first cell among those of its kind.
    pub first: u32,
    /// How many cells an array has; `None` if one name is one cell.
    pub size: Option<u32>,
}
