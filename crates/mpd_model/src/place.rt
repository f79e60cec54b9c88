//! What a name was declared as, and where its cells are.

ghost use Rattle.std.specs.Prelude.{◌≡◌};

use std::marker::Model;

/// What a declaration declares.
#[derive(Clone, Copy)]
pub enum DeclKind {
    /// A variable, `var`.
    Variable,
    /// A handle of a request, `req` (MPI 4.0, section 3.7.1).
    Handle,
}

/// A declaration of a script, which contracts see as a `Declared`.
#[derive(Drop)]
pub struct Decl {
    pub kind: DeclKind,
    /// At most 64 bytes.
    pub name: String,
    /// How many cells an array has; `None` if one name is one cell.
    pub size: Option<usize>,
}

impl Model for Decl {
    ghost use Rattle.std.specs.Prelude.{string_bytes};
    ghost use Rattle.mpd_model.specs.script.Declaration.{Declared, declared_code};

    ghost Value = { Declared };

    ghost coded = { declared_code };

    ghost view = { λ d. record { kind = d.kind; name = string_bytes d.name; size = d.size } };
}

/// What a name stands for: its declaration, and the cells of that.
#[derive(Clone, Copy)]
pub struct Place {
    /// The declaration's number in text order, from 0.
    pub declaration: usize,
    /// The number of its first cell among those of its kind, 0 to 1024.
    pub first: u32,
    /// How many cells it has, 0 to 1024; 1 if it is no array.
    pub cells: u32,
}
