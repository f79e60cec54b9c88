//! The breakpoints of a script in another one (docs/CONSOLE.md, "The script once more").

ghost use Rattle.std.specs.Prelude.{◌≡◌, ◌≤◌, ◌+◌, slice_get};
ghost use Rattle.mpd_console.specs.Elsewhere as spec;

use mpd_code::Code;
use mpd_model::{Breakpoint, CELLS_MAX, Condition, Decl, DeclKind};
use mpd_names::{Named, find_named, named_cell};

/// The rank that a breakpoint is about, if it is of one.
fn rank_meant(stop: Breakpoint) -> Option<usize>
    ensures { result ≡ spec.rank_meant stop }
{
    match stop {
        Breakpoint::Line { of, .. } | Breakpoint::Match { of, .. } => of,
        Breakpoint::Rank(rank) => Some(rank),
        Breakpoint::Change { rank, .. } | Breakpoint::Handle { rank, .. } => Some(rank),
    }
}

/// Whether a rank is there, or none is meant.
fn is_below(ranks: usize, rank: Option<usize>) -> bool
    ensures { result ≡ spec.is_below ranks rank }
{
    match rank {
        None => true,
        Some(rank) => rank < ranks,
    }
}

/// A breakpoint, if its rank is there.
fn with_rank(ranks: usize, stop: Option<Breakpoint>) -> Option<Breakpoint>
    ensures { result ≡ spec.with_rank ranks stop }
{
    match stop {
        Some(stop) if is_below(ranks, rank_meant(stop)) => Some(stop),
        _ => None,
    }
}

// ---- cells

/// Whether the declaration of a number is one of an array.
fn is_array(decls: &[Decl], number: usize) -> bool
    ensures { result ≡ spec.is_array (slice_get decls.now number) }
{
    match decls.get(number) {
        None => false,
        Some(decl) => decl.size.is_some(),
    }
}

/// The cell of an index among these, if they are those of an array that has it.
fn element_of(is_array: bool, all: Named, index: usize) -> Option<Named>
    requires { all.first + all.cells ≤ CELLS_MAX }
    ensures { result ≡ spec.element_of is_array all index }
{
    if is_array && index < all.cells {
        return Some(Named {
            kind: all.kind,
            declaration: all.declaration,
            first: all.first + index,
            cells: 1,
        });
    }
    None
}

/// The cells that a script has of the name of a declaration of another one; of an array the one of
/// this index.
#[tactic(auto, using(crate::proofs::ElsewhereLemmas::named_small))]
fn cells_of(code: &Code, decl: &Decl, index: usize) -> Option<Named>
    ensures { result ≡ spec.cells_of code.now.program.decls decl.now index }
{
    // That the script keeps its limits is known from what counts its cells.
    let (_, _) = (code.cells(), code.handles());
    let Ok(all) = find_named(code, decl.name.as_bytes()) else {
        return None;
    };
    match decl.size {
        None => Some(all),
        Some(_) => element_of(is_array(code.decls(), all.declaration), all, index),
    }
}

/// The cells that a script has of the name of a cell of another one, by its number among those of a
/// kind.
fn cells_again(old: &Code, new: &Code, kind: DeclKind, cell: usize) -> Option<Named>
    ensures { result ≡ spec.cells_again old.now.program.decls new.now.program.decls kind cell }
{
    let Some(named) = named_cell(old.decls(), kind, cell) else {
        return None;
    };
    match old.decls().get(named.declaration) {
        None => None,
        Some(decl) => cells_of(new, decl, named.index),
    }
}

// ---- breakpoints

/// The breakpoint on a cell, or on a handle.
fn watching(rank: usize, named: Named) -> Breakpoint
    ensures { result ≡ spec.watching rank named.kind named.first }
{
    match named.kind {
        DeclKind::Variable => Breakpoint::Change {
            rank,
            cell: named.first,
        },
        DeclKind::Handle => Breakpoint::Handle {
            rank,
            handle: named.first,
        },
    }
}

/// The breakpoint on cells, if they are one.
fn watch_of(rank: usize, cells: Option<Named>) -> Option<Breakpoint>
    ensures { result ≡ spec.watch_of rank cells }
{
    match cells {
        Some(named) if named.cells == 1 => Some(watching(rank, named)),
        _ => None,
    }
}

/// The cell of these, if they are one of a variable.
fn variable_of(cells: Option<Named>) -> Option<usize>
    ensures { result ≡ spec.variable_of cells }
{
    let Some(named) = cells else {
        return None;
    };
    match named.kind {
        DeclKind::Handle => None,
        DeclKind::Variable => {
            if named.cells == 1 {
                Some(named.first)
            } else {
                None
            }
        }
    }
}

/// What a condition of a script is in another one, if it has that variable.
fn condition_again(old: &Code, new: &Code, condition: Condition) -> Option<Condition>
    ensures { result ≡ spec.condition_again old.now.program.decls new.now.program.decls condition }
{
    match variable_of(cells_again(old, new, DeclKind::Variable, condition.cell)) {
        None => None,
        Some(cell) => Some(Condition {
            cell,
            comparison: condition.comparison,
            value: condition.value,
        }),
    }
}

/// The same of a breakpoint of a line.
fn line_again(
    old: &Code,
    new: &Code,
    line: usize,
    of: Option<usize>,
    when: Option<Condition>,
) -> Option<Breakpoint>
    ensures { result ≡ spec.line_again old.now.program.decls new.now.program.decls line of when }
{
    let Some(condition) = when else {
        return Some(Breakpoint::Line {
            line,
            of,
            when: None,
        });
    };
    match condition_again(old, new, condition) {
        None => None,
        Some(condition) => Some(Breakpoint::Line {
            line,
            of,
            when: Some(condition),
        }),
    }
}

/// The same of any, whether or not the other script has its rank.
fn stop_again(old: &Code, new: &Code, stop: Breakpoint) -> Option<Breakpoint>
    ensures { result ≡ spec.stop_again old.now.program.decls new.now.program.decls stop }
{
    match stop {
        Breakpoint::Line { line, of, when } => line_again(old, new, line, of, when),
        Breakpoint::Match { .. } | Breakpoint::Rank(_) => Some(stop),
        Breakpoint::Change { rank, cell } => {
            watch_of(rank, cells_again(old, new, DeclKind::Variable, cell))
        }
        Breakpoint::Handle { rank, handle } => {
            watch_of(rank, cells_again(old, new, DeclKind::Handle, handle))
        }
    }
}

/// What a breakpoint of a script is in another one: the one on the line, the rank or the cells of the
/// same name, if these are there.
pub(crate) fn break_again(old: &Code, new: &Code, stop: Breakpoint) -> Option<Breakpoint>
    ensures { result ≡ spec.break_again old.now.program.decls new.now.program stop }
{
    with_rank(new.ranks(), stop_again(old, new, stop))
}
