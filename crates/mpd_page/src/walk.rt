//! Along what the choices of a page are told.

ghost use Rattle.std.specs.Prelude.{◌≡◌, IfOk};
ghost use Rattle.mpd_page.specs.Nodes as spec;

use mpd_core::Core;
use mpd_model::{Decision, Step};
use mpd_policy::{decide, wide_decide};
use std::alloc::{AllocError, Global};

/// Along what choices are told (docs/PAGES.md, "The data").
#[derive(Clone, Copy)]
pub enum Walk {
    /// The decisions.
    Decisions,
    /// The wide walk.
    Wide,
    /// The steps were given; choices are those of the decisions.
    Words,
}

/// What comes next along a walk.
fn decided(alloc: Global, core: &Core<'_>, walk: Walk) -> Result<Decision, AllocError>
    ensures { IfOk result (λ d. d ≡ spec.decided walk core.now.world) }
{
    match walk {
        Walk::Decisions | Walk::Words => decide(alloc, core),
        Walk::Wide => wide_decide(alloc, core),
    }
}

/// The steps of a choice.
fn candidates_of(alloc: Global, decided: Decision) -> Vec<Step>
    ensures { result.items ≡ spec.candidates_of decided }
{
    match decided {
        Decision::Choice(steps) => steps.items,
        Decision::Forced(_) | Decision::Leaf(_) => Vec::new(alloc),
    }
}

/// The steps that may be taken where a choice is to be made.
pub(crate) fn candidates(
    alloc: Global,
    core: &Core<'_>,
    walk: Walk,
) -> Result<Vec<Step>, AllocError>
    ensures { IfOk result (λ steps. steps.items ≡ spec.candidates walk core.now.world) }
{
    let decided = decided(alloc, core, walk)?;
    Ok(candidates_of(alloc, decided))
}
