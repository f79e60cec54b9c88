//! What a word means that names cells.

ghost use Rattle.std.specs.Prelude.{◌≡◌, ◌≤◌, ◌+◌, slice_get};
ghost use Rattle.mpd_model.specs.script.Declaration.{cells_of};
ghost use Rattle.mpd_names.specs.Names as names;

use crate::bytes::{digits_of, name_len};
use crate::cells::whole;
use crate::name::{NameFault, Named};
use mpd_code::Code;
use mpd_model::{CELLS_MAX, Decl, number_of};

/// The number of the declaration of a name, if there is one.
fn declaration_of(decls: &[Decl], name: &[u8]) -> Option<usize>
    ensures { result ≡ names.declaration_from 0 decls.now name.now }
{
    for (i, decl) in decls.iter().enumerate() {
        if decl.name.as_bytes() == name {
            return Some(i);
        }
    }
    None
}

/// One cell of an array, whose cells these are.
fn element(all: Named, size: Option<usize>, index: Option<usize>) -> Result<Named, NameFault>
    requires { all.first + cells_of size ≤ CELLS_MAX }
    ensures { result ≡ names.element all size index }
{
    let Some(size) = size else {
        return Err(NameFault::NoSuchCell);
    };
    let Some(index) = index else {
        return Err(NameFault::NoSuchCell);
    };
    if index < size {
        Ok(Named {
            kind: all.kind,
            declaration: all.declaration,
            first: all.first + index,
            cells: 1,
        })
    } else {
        Err(NameFault::NoSuchCell)
    }
}

/// What a name means with what stands after it.
fn meant_by(all: Named, size: Option<usize>, behind: &[u8]) -> Result<Named, NameFault>
    requires { all.first + cells_of size ≤ CELLS_MAX }
    ensures { result ≡ names.meant_by all size behind.now }
{
    let Some((_, index)) = behind.split_first() else {
        return Ok(all);
    };
    match digits_of(index) {
        None => Err(NameFault::Unknown),
        Some(digits) => element(all, size, number_of(digits)),
    }
}

/// What the name of the declaration of a number means with what stands after it.
fn meant(code: &Code, number: usize, behind: &[u8]) -> Result<Named, NameFault>
    ensures { result ≡ names.meant code.now.program.decls number behind.now (slice_get code.now.program.decls number) }
{
    match code.decls().get(number) {
        None => Err(NameFault::Unknown),
        Some(decl) => meant_by(whole(code, number, decl), decl.size, behind),
    }
}

/// What a word means, `NAME` or `NAME[INDEX]`: all cells of a declaration, or one of an array. If
/// what stands after the name is no index, the name counts as not declared.
pub fn find_named(code: &Code, word: &[u8]) -> Result<Named, NameFault>
    ensures { result ≡ names.named code.now.program.decls word.now }
{
    let (name, behind) = word.split_at(name_len(word));
    match declaration_of(code.decls(), name) {
        None => Err(NameFault::Unknown),
        Some(number) => meant(code, number, behind),
    }
}
