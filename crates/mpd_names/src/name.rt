//! What a name means.

use mpd_model::DeclKind;

/// What a name means: all cells of a declaration, or one of an array.
#[derive(Clone, Copy)]
pub struct Named {
    pub kind: DeclKind,
    /// The number of its declaration, from 0.
    pub declaration: usize,
    /// The number of the first cell that is meant, from 0, among those of its kind.
    pub first: usize,
    /// How many cells are meant.
    pub cells: usize,
}

/// Why a name means nothing.
#[derive(Clone, Copy)]
pub enum NameFault {
    /// No such name is declared, or what stands after it is no index.
    Unknown,
    /// It has an index, and no such cell.
    NoSuchCell,
}
