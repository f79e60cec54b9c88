//! What a view shows of a debugger, as values (docs/CONSOLE.md, "A view").

ghost use Rattle.std.specs.Prelude.{◌≡◌, IfOk};
ghost use Rattle.mpd_view.specs.Sights as spec;

use mpd_explain::{Position, position_of};
use mpd_names::{Stands, all_stands};
use mpd_policy::decide;
use mpd_trail::Debugger;
use std::alloc::{AllocError, Global};
use std::marker::Model;

/// Where ranks stand, from rank 0, as contracts see it.
#[derive(Drop)]
pub struct Places {
    pub items: Vec<Stands>,
}

impl Model for Places {
    ghost use Rattle.std.specs.Prelude.{List};
    ghost use Rattle.mpd_names.specs.declared.place.Stands.{Stands};

    ghost Value = { List Stands };

    ghost view = { λ p. p.items.items };
}

/// What a view shows of a debugger.
#[derive(Drop)]
pub struct Sight {
    /// Where each rank stands.
    pub ranks: Places,
    /// The line, from 1, that is shown in any case.
    pub focus: usize,
    /// How many steps are not undone.
    pub depth: usize,
    /// What lies ahead, and what comes next.
    pub position: Position,
}

/// Whether a rank that stands so can go on: it runs, or its call is complete.
fn can_go_on(stands: Stands) -> bool
    ensures { result ≡ spec.can_go_on stands }
{
    matches!(stands, Stands::At(_) | Stands::CanGoOn(_))
}

/// The line where a rank stands, if it has one; if `only_ready`, of one that can go on.
fn line_if(only_ready: bool, stands: Stands) -> Option<usize>
    ensures { result ≡ spec.line_if only_ready stands }
{
    if only_ready && !can_go_on(stands) {
        return None;
    }
    stands.line()
}

/// The line of the first rank that has one; if `only_ready`, of those that can go on.
fn first_line(only_ready: bool, ranks: &[Stands]) -> Option<usize>
    ensures { result ≡ spec.first_line only_ready ranks.now }
{
    for stands in ranks {
        if let Some(line) = line_if(only_ready, *stands) {
            return Some(line);
        }
    }
    None
}

/// The line that is shown in any case: that of the first rank that can go on, else of the first
/// that has not ended, else the first line.
fn focus_of(ranks: &[Stands]) -> usize
    ensures { result ≡ spec.focus_of ranks.now }
{
    first_line(true, ranks)
        .or(first_line(false, ranks))
        .unwrap_or(1)
}

/// What a view shows of a debugger. `Err` means that memory was refused.
pub fn sight_of(alloc: Global, debugger: &Debugger<'_>) -> Result<Sight, AllocError>
    ensures { IfOk result (λ sight. sight ≡ spec.sight_of debugger.now.trail debugger.now.world) }
{
    let core = debugger.core();
    let ranks = all_stands(alloc, core)?;
    let decided = decide(alloc, core)?;
    let position = position_of(alloc, debugger, decided)?;
    Ok(Sight {
        focus: focus_of(&ranks),
        ranks: Places { items: ranks },
        depth: debugger.depth(),
        position,
    })
}
