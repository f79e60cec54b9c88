//! How many cells declarations have.

ghost use Rattle.std.specs.Prelude.{◌≡◌, ◌≤◌};
ghost use Rattle.mpd_model.specs.script.Declaration.{variable_cells, handle_cells, variables_in, handles_in};

use mpd_model::{CELLS_MAX, Decl, DeclKind, HANDLES_MAX};

/// How many cells of variables a declaration has.
fn variable_cell_count(decl: &Decl) -> usize
    ensures { result ≡ variable_cells decl.now.kind decl.now.size }
{
    match decl.kind {
        DeclKind::Variable => decl.size.unwrap_or(1),
        DeclKind::Handle => 0,
    }
}

/// How many handles a declaration has.
fn handle_cell_count(decl: &Decl) -> usize
    ensures { result ≡ handle_cells decl.now.kind decl.now.size }
{
    match decl.kind {
        DeclKind::Variable => 0,
        DeclKind::Handle => decl.size.unwrap_or(1),
    }
}

/// How many cells all variables have.
pub(crate) fn variable_count(decls: &[Decl]) -> usize
    requires { variables_in decls.now ≤ CELLS_MAX }
    ensures { result ≡ variables_in decls.now }
{
    let mut total = 0;
    for decl in decls {
        total += variable_cell_count(decl);
    }
    total
}

/// How many handles there are.
pub(crate) fn handle_count(decls: &[Decl]) -> usize
    requires { handles_in decls.now ≤ HANDLES_MAX }
    ensures { result ≡ handles_in decls.now }
{
    let mut total = 0;
    for decl in decls {
        total += handle_cell_count(decl);
    }
    total
}
