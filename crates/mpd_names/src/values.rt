//! What is said of what a rank holds, by names (docs/CONSOLE.md, "Looks").

ghost use Rattle.std.specs.Prelude.{◌<◌, length};

use crate::holding::{Held, Holding, held_in, holdings};
use crate::line::Marks;
use crate::name::Named;
use crate::place::MarkedCall;
use crate::placed::placed_call;
use crate::text::push_cell_name;
use mpd_core::Core;
use mpd_model::{CallId, Decl, DeclKind};
use std::alloc::AllocError;

/// How many cells of an array are told in short.
const SHORT_CELLS: usize = 16;

// ---- each cell by its name

/// Variables with what they hold, from one on.
fn push_values(
    out: &mut String,
    decls: &[Decl],
    first: usize,
    values: &[i64],
) -> Result<(), AllocError> {
    let mut before = "";
    for (index, value) in values.iter().enumerate() {
        out.push_str(before)?;
        push_cell_name(out, decls, DeclKind::Variable, first.saturating_add(index))?;
        write!(out, " = {value}")?;
        before = ", ";
    }
    Ok(())
}

/// Handles with the calls that they have, from one on.
fn push_handles(
    core: &Core<'_>,
    out: &mut String,
    marks: Marks<'_>,
    rank: usize,
    first: usize,
    handles: &[Option<usize>],
) -> Result<(), AllocError> {
    let decls = core.code().decls();
    let mut before = "";
    for (index, handle) in handles.iter().enumerate() {
        out.push_str(before)?;
        push_cell_name(out, decls, DeclKind::Handle, first.saturating_add(index))?;
        match *handle {
            None => out.push_str(" = no request")?,
            Some(index) => {
                let call = placed_call(core, CallId { rank, index });
                write!(out, " = {}", MarkedCall(call, marks))?
            }
        }
        before = ", ";
    }
    Ok(())
}

/// That a declaration has no cell.
fn push_no_cell(out: &mut String, decls: &[Decl], declaration: usize) -> Result<(), AllocError> {
    if let Some(decl) = decls.get(declaration) {
        out.push_str(&decl.name)?;
    }
    out.push_str(" has no cell")
}

/// Cells that a name means, with what a rank holds there.
fn push_cells(
    core: &Core<'_>,
    out: &mut String,
    marks: Marks<'_>,
    rank: usize,
    named: Named,
    all: &Held,
) -> Result<(), AllocError> {
    let decls = core.code().decls();
    match all {
        Held::Values(values) if values.items.is_empty() => {
            push_no_cell(out, decls, named.declaration)
        }
        Held::Values(values) => push_values(out, decls, named.first, &values.items),
        Held::Calls(calls) if calls.items.is_empty() => {
            push_no_cell(out, decls, named.declaration)
        }
        Held::Calls(calls) => push_handles(core, out, marks, rank, named.first, &calls.items),
    }
}

/// Adds the line of what a rank holds in the cells that a name means, and nothing if there is no
/// such rank. `Err` means that memory was refused.
pub fn push_named(
    core: &Core<'_>,
    out: &mut String,
    marks: Marks<'_>,
    rank: usize,
    named: Named,
) -> Result<(), AllocError> {
    if rank >= core.rank_count() {
        return Ok(());
    }
    let all = held_in(*out.allocator(), core, rank, named)?;
    write!(out, "rank {rank}: ")?;
    push_cells(core, out, marks, rank, named, &all)?;
    out.push('\n')
}

// ---- declarations, in short

/// Values, with a comma between two.
fn push_short_values(out: &mut String, values: &[i64]) -> Result<(), AllocError> {
    let mut before = "";
    for value in values {
        write!(out, "{before}{value}")?;
        before = ", ";
    }
    Ok(())
}

/// The calls that handles have, with a comma between two.
fn push_short_calls(
    out: &mut String,
    rank: usize,
    handles: &[Option<usize>],
) -> Result<(), AllocError> {
    let mut before = "";
    for handle in handles {
        match *handle {
            None => write!(out, "{before}-")?,
            Some(index) => write!(out, "{before}{}", CallId { rank, index })?,
        }
        before = ", ";
    }
    Ok(())
}

/// The first cells of an array, as many as are told in short.
fn short<T>(cells: &[T]) -> &[T] {
    let (short, _) = cells.split_at(SHORT_CELLS.min(cells.len()));
    short
}

/// What follows these, by the number of cells.
fn more_cells(count: usize) -> &'static str {
    if SHORT_CELLS < count { ", .." } else { "" }
}

/// What a rank holds in a declaration, in brackets if that is an array.
fn push_short_held(
    out: &mut String,
    rank: usize,
    is_array: bool,
    all: &Held,
) -> Result<(), AllocError> {
    if is_array {
        out.push_str("[")?;
    }
    let count = match all {
        Held::Values(values) => {
            push_short_values(out, short(&values.items))?;
            values.items.len()
        }
        Held::Calls(calls) => {
            push_short_calls(out, rank, short(&calls.items))?;
            calls.items.len()
        }
    };
    if is_array {
        write!(out, "{}]", more_cells(count))?;
    }
    Ok(())
}

/// Adds what a rank holds in some declarations, by their names: `before` stands before the first, a
/// comma between two. `decls` are all declarations of the script. `Err` means that memory was
/// refused.
pub fn push_holdings(
    out: &mut String,
    before: &str,
    decls: &[Decl],
    rank: usize,
    holdings: &[Holding],
) -> Result<(), AllocError> {
    let mut before = before;
    for holding in holdings {
        if let Some(decl) = decls.get(holding.declaration) {
            write!(out, "{before}{} = ", decl.name)?;
            push_short_held(out, rank, decl.size.is_some(), &holding.held)?;
            before = ", ";
        }
    }
    Ok(())
}

/// Adds values, each with a space before it. `Err` means that memory was refused.
pub fn push_spaced(out: &mut String, values: &[i64]) -> Result<(), AllocError> {
    for value in values {
        write!(out, " {value}")?;
    }
    Ok(())
}

/// The line of what a rank has printed, if it has.
fn push_printed(core: &Core<'_>, out: &mut String, rank: usize) -> Result<(), AllocError>
    requires { rank < length core.now.world.ranks }
{
    let output = core.rank(rank).output();
    if output.is_empty() {
        return Ok(());
    }
    write!(out, "rank {rank} has printed")?;
    push_spaced(out, output)?;
    out.push('\n')
}

/// Adds all that a rank holds, in a line, and what it has printed; nothing if there is no such rank.
/// `Err` means that memory was refused.
pub fn push_variables(core: &Core<'_>, out: &mut String, rank: usize) -> Result<(), AllocError> {
    if rank >= core.rank_count() {
        return Ok(());
    }
    let all = holdings(*out.allocator(), core, rank)?;
    write!(out, "rank {rank}")?;
    if all.items.is_empty() {
        out.push_str(" has no variable")?;
    } else {
        push_holdings(out, ": ", core.code().decls(), rank, &all.items)?;
    }
    out.push('\n')?;
    push_printed(core, out, rank)
}
