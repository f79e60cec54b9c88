//! What a rank holds, as an editor shows it (docs/ADAPTER.md, "Looks").

ghost use Rattle.std.specs.Prelude.{◌≡◌, ◌<◌, ◌++◌, IfOk, OnOk, length, slice_get, string_bytes};
ghost use Rattle.mpd_adapter.specs.Shelves as spec;

use crate::numbers::Scope;
use mpd_core::Core;
use mpd_dap::{Text, Variable};
use mpd_model::{CallId, Decl, DeclKind};
use mpd_names::{NamedCell, named_cell};
use std::alloc::{AllocError, Global};

/// Adds the index of a cell, if it is one of an array.
fn push_index(out: &mut String, size: Option<usize>, index: usize) -> Result<(), AllocError>
    ensures { OnOk result (string_bytes out.new ≡ string_bytes out.old ++ spec.index_text size index) }
{
    match size {
        None => Ok(()),
        Some(_) => write!(out, "[{index}]"),
    }
}

/// Adds the name of the cell of an index of a declaration, if there is one.
fn push_element(out: &mut String, decls: &[Decl], cell: NamedCell) -> Result<(), AllocError>
    ensures { OnOk result (string_bytes out.new ≡ string_bytes out.old ++ spec.element_text (slice_get decls.now cell.declaration) cell.index) }
{
    match decls.get(cell.declaration) {
        None => Ok(()),
        Some(decl) => {
            out.push_str(&decl.name)?;
            push_index(out, decl.size, cell.index)
        }
    }
}

/// The name of a cell; empty if there is none.
fn cell_text(alloc: Global, decls: &[Decl], kind: DeclKind, cell: usize) -> Result<Text, AllocError>
    ensures { IfOk result (λ text. text ≡ spec.cell_text decls.now kind cell) }
{
    let mut string = String::new(alloc);
    if let Some(named) = named_cell(decls, kind, cell) {
        push_element(&mut string, decls, named)?;
    }
    Ok(Text { string })
}

/// A value; empty if there is none.
fn value_text(alloc: Global, value: Option<i64>) -> Result<Text, AllocError>
    ensures { IfOk result (λ text. text ≡ spec.value_text value) }
{
    let mut string = String::new(alloc);
    if let Some(value) = value {
        write!(string, "{value}")?;
    }
    Ok(Text { string })
}

/// A call by its name.
fn id_text(alloc: Global, call: CallId) -> Result<Text, AllocError>
    ensures { IfOk result (λ text. text ≡ spec.id_text call) }
{
    let mut string = String::new(alloc);
    write!(string, "{call}")?;
    Ok(Text { string })
}

/// That a handle holds no call.
fn none_text(alloc: Global) -> Result<Text, AllocError>
    ensures { IfOk result (λ text. text ≡ spec.none_text) }
{
    let mut string = String::new(alloc);
    string.push_str("none")?;
    Ok(Text { string })
}

/// The call that a handle of a rank holds, or that it holds none.
fn request_text(
    alloc: Global,
    rank: usize,
    handle: Option<Option<usize>>,
) -> Result<Text, AllocError>
    ensures { IfOk result (λ text. text ≡ spec.request_text rank handle) }
{
    match handle {
        Some(Some(index)) => id_text(alloc, CallId { rank, index }),
        _ => none_text(alloc),
    }
}

/// What the word `calls` tells of a call after its name.
fn call_text(alloc: Global, core: &Core<'_>, call: CallId) -> Result<Text, AllocError>
    ensures { IfOk result (λ text. text ≡ spec.call_text core.now.world.board call) }
{
    let mut string = String::new(alloc);
    core.push_call(&mut string, call)?;
    Ok(Text { string })
}

/// The name of the place of a value that was printed.
fn place_text(alloc: Global, place: usize) -> Result<Text, AllocError>
    ensures { IfOk result (λ text. text ≡ spec.place_text place) }
{
    let mut string = String::new(alloc);
    write!(string, "[{place}]")?;
    Ok(Text { string })
}

/// A variable.
fn variable(
    alloc: Global,
    decls: &[Decl],
    values: &[i64],
    cell: usize,
) -> Result<Variable, AllocError>
    ensures { IfOk result (λ shown. shown ≡ spec.variable decls.now values.now cell) }
{
    let name = cell_text(alloc, decls, DeclKind::Variable, cell)?;
    let value = value_text(alloc, values.get(cell).copied())?;
    Ok(Variable { name, value })
}

/// A request.
fn request(
    alloc: Global,
    decls: &[Decl],
    rank: usize,
    handles: &[Option<usize>],
    cell: usize,
) -> Result<Variable, AllocError>
    ensures { IfOk result (λ shown. shown ≡ spec.request decls.now rank handles.now cell) }
{
    let name = cell_text(alloc, decls, DeclKind::Handle, cell)?;
    let value = request_text(alloc, rank, handles.get(cell).copied())?;
    Ok(Variable { name, value })
}

/// A call.
fn call(alloc: Global, core: &Core<'_>, rank: usize, index: usize) -> Result<Variable, AllocError>
    ensures { IfOk result (λ shown. shown ≡ spec.call core.now.world.board rank index) }
{
    let name = id_text(alloc, CallId { rank, index })?;
    let value = call_text(alloc, core, CallId { rank, index })?;
    Ok(Variable { name, value })
}

/// A value that was printed.
fn printed(alloc: Global, values: &[i64], place: usize) -> Result<Variable, AllocError>
    ensures { IfOk result (λ shown. shown ≡ spec.printed values.now place) }
{
    let name = place_text(alloc, place)?;
    let value = value_text(alloc, values.get(place).copied())?;
    Ok(Variable { name, value })
}

/// All variables of a rank.
fn all_variables(alloc: Global, decls: &[Decl], values: &[i64]) -> Result<Vec<Variable>, AllocError>
    ensures { IfOk result (λ list. list.items ≡ spec.all_variables decls.now values.now) }
{
    let mut list = Vec::new(alloc);
    let count = values.len();
    for cell in 0..count {
        list.push(variable(alloc, decls, values, cell)?)?;
    }
    Ok(list)
}

/// All requests of a rank.
fn all_requests(
    alloc: Global,
    decls: &[Decl],
    rank: usize,
    handles: &[Option<usize>],
) -> Result<Vec<Variable>, AllocError>
    ensures { IfOk result (λ list. list.items ≡ spec.all_requests decls.now rank handles.now) }
{
    let mut list = Vec::new(alloc);
    let count = handles.len();
    for cell in 0..count {
        list.push(request(alloc, decls, rank, handles, cell)?)?;
    }
    Ok(list)
}

/// All calls of a rank.
fn all_calls(alloc: Global, core: &Core<'_>, rank: usize) -> Result<Vec<Variable>, AllocError>
    ensures { IfOk result (λ list. list.items ≡ spec.all_calls core.now.world.board rank) }
{
    let mut list = Vec::new(alloc);
    let count = core.board().call_count(rank);
    for index in 0..count {
        list.push(call(alloc, core, rank, index)?)?;
    }
    Ok(list)
}

/// All that a rank has printed.
fn all_printed(alloc: Global, values: &[i64]) -> Result<Vec<Variable>, AllocError>
    ensures { IfOk result (λ list. list.items ≡ spec.all_printed values.now) }
{
    let mut list = Vec::new(alloc);
    let count = values.len();
    for place in 0..count {
        list.push(printed(alloc, values, place)?)?;
    }
    Ok(list)
}

/// What a rank that is there holds in a scope.
#[tactic(auto, using(crate::proofs::ShelfLemmas::holding))]
fn held_there(
    alloc: Global,
    core: &Core<'_>,
    rank: usize,
    scope: Scope,
) -> Result<Vec<Variable>, AllocError>
    requires { rank < length core.now.world.ranks }
    ensures { IfOk result (λ list. list.items ≡ spec.held_by core.now.program core.now.world rank scope (slice_get core.now.world.ranks rank)) }
{
    let state = core.rank(rank);
    let decls = core.code().decls();
    match scope {
        Scope::Variables => all_variables(alloc, decls, state.variables()),
        Scope::Requests => all_requests(alloc, decls, rank, state.handles()),
        Scope::Calls => all_calls(alloc, core, rank),
        Scope::Printed => all_printed(alloc, state.output()),
    }
}

/// What a rank holds in a scope; nothing if there is no such rank. An `Err` is want of memory.
#[tactic(auto, using(crate::proofs::ShelfLemmas::holding))]
pub(crate) fn held_at(
    alloc: Global,
    core: &Core<'_>,
    rank: usize,
    scope: Scope,
) -> Result<Vec<Variable>, AllocError>
    ensures { IfOk result (λ list. list.items ≡ spec.held_at core.now.program core.now.world rank scope) }
{
    if rank >= core.rank_count() {
        return Ok(Vec::new(alloc));
    }
    held_there(alloc, core, rank, scope)
}
