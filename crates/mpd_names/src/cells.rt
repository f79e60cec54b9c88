//! The cells of declarations, by their kind.

ghost use Rattle.std.specs.Prelude.{◌≡◌, ◌≤◌, ◌+◌, Some, take, slice_get};
ghost use Rattle.mpd_model.specs.script.Declaration.{variables_in, handles_in};
ghost use Rattle.mpd_names.specs.Cells as counted;

use crate::name::Named;
use mpd_code::Code;
use mpd_model::{CELLS_MAX, Decl, DeclKind, HANDLES_MAX};

/// How many cells of a kind a declaration has.
pub(crate) fn kind_cells(decl: &Decl, kind: DeclKind) -> usize
    ensures { result ≡ counted.kind_cells kind decl.now }
{
    match (kind, decl.kind) {
        (DeclKind::Variable, DeclKind::Variable) => decl.size.unwrap_or(1),
        (DeclKind::Handle, DeclKind::Handle) => decl.size.unwrap_or(1),
        (DeclKind::Variable, DeclKind::Handle) => 0,
        (DeclKind::Handle, DeclKind::Variable) => 0,
    }
}

/// How many cells of a kind some declarations have.
fn cells_in(decls: &[Decl], kind: DeclKind) -> usize
    requires { counted.cells_in kind decls.now ≤ CELLS_MAX }
    ensures { result ≡ counted.cells_in kind decls.now }
{
    let mut total = 0;
    for decl in decls {
        total += kind_cells(decl, kind);
    }
    total
}

/// All cells of a declaration, whose number this is.
#[tactic(auto, using(crate::proofs::CellLemmas::counting))]
fn whole_in(decls: &[Decl], number: usize, decl: &Decl) -> Named
    requires variables { variables_in decls.now ≤ CELLS_MAX }
    requires handles { handles_in decls.now ≤ HANDLES_MAX }
    requires there { slice_get decls.now number ≡ Some decl.now }
    ensures value { result ≡ counted.whole decls.now number decl.now }
    ensures small { result.first + result.cells ≤ CELLS_MAX }
{
    let kind = decl.kind;
    let (before, _) = decls.split_at(number);
    Named {
        kind,
        declaration: number,
        first: cells_in(before, kind),
        cells: decl.size.unwrap_or(1),
    }
}

/// All cells of a declaration of a script, whose number this is.
pub(crate) fn whole(code: &Code, number: usize, decl: &Decl) -> Named
    requires there { slice_get code.now.program.decls number ≡ Some decl.now }
    ensures value { result ≡ counted.whole code.now.program.decls number decl.now }
    ensures small { result.first + result.cells ≤ CELLS_MAX }
{
    // That the script keeps these limits is known from what counts them.
    let (_, _) = (code.cells(), code.handles());
    whole_in(code.decls(), number, decl)
}
