//! Cells and breakpoints by their names.

ghost use Rattle.std.specs.Prelude.{◌≡◌};
ghost use Rattle.mpd_names.specs.Called as called;

use crate::cells::kind_cells;
use crate::line::Marks;
use mpd_model::{Breakpoint, Condition, Decl, DeclKind, push_compared, push_meant};
use std::alloc::AllocError;

/// A cell of a declaration.
#[derive(Clone, Copy)]
pub struct NamedCell {
    /// The number of the declaration, from 0.
    pub declaration: usize,
    /// Which of its cells it is, from 0.
    pub index: usize,
}

/// Which cell this is, by its number among those of a kind; `None` if there is no such cell.
pub fn named_cell(decls: &[Decl], kind: DeclKind, cell: usize) -> Option<NamedCell>
    ensures { result ≡ called.named_cell decls.now kind cell }
{
    let mut left = cell;
    for (declaration, decl) in decls.iter().enumerate() {
        let cells = kind_cells(decl, kind);
        if left < cells {
            return Some(NamedCell {
                declaration,
                index: left,
            });
        }
        left -= cells;
    }
    None
}

/// Adds the name of a cell among those of a kind, and nothing if there is no such cell. `Err` means
/// that memory was refused.
pub fn push_cell_name(
    out: &mut String,
    decls: &[Decl],
    kind: DeclKind,
    cell: usize,
) -> Result<(), AllocError> {
    let Some(named) = named_cell(decls, kind, cell) else {
        return Ok(());
    };
    let Some(decl) = decls.get(named.declaration) else {
        return Ok(());
    };
    out.push_str(&decl.name)?;
    match decl.size {
        None => Ok(()),
        Some(_) => write!(out, "[{}]", named.index),
    }
}

/// Adds a condition, with its cell by name.
fn push_condition(
    out: &mut String,
    decls: &[Decl],
    condition: Condition,
) -> Result<(), AllocError> {
    out.push_str(" if ")?;
    push_cell_name(out, decls, DeclKind::Variable, condition.cell)?;
    push_compared(out, condition.comparison, condition.value)
}

/// Adds what must hold, where something must.
fn push_when(out: &mut String, decls: &[Decl], when: Option<Condition>) -> Result<(), AllocError> {
    match when {
        None => Ok(()),
        Some(condition) => push_condition(out, decls, condition),
    }
}

/// Adds a breakpoint, as it was set.
pub fn push_break(
    out: &mut String,
    decls: &[Decl],
    marks: Marks<'_>,
    stop: Breakpoint,
) -> Result<(), AllocError> {
    match stop {
        Breakpoint::Line { line, of, when } => {
            write!(out, "line {}", marks.line(line))?;
            push_meant(out, of)?;
            push_when(out, decls, when)
        }
        Breakpoint::Match { line, of } => {
            write!(out, "match {line}")?;
            push_meant(out, of)
        }
        Breakpoint::Rank(rank) => write!(out, "rank {rank}"),
        Breakpoint::Change { rank, cell } => {
            write!(out, "change {rank} ")?;
            push_cell_name(out, decls, DeclKind::Variable, cell)
        }
        Breakpoint::Handle { rank, handle } => {
            write!(out, "change {rank} ")?;
            push_cell_name(out, decls, DeclKind::Handle, handle)
        }
    }
}
