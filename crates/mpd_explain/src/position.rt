//! Where a debugger stands: what lies ahead, and what comes next (docs/CONSOLE.md, "Where it
//! stands").

ghost use Rattle.std.specs.Prelude.{◌≡◌, IfOk, map};
ghost use Rattle.std.specs.List.{list_all};
ghost use Rattle.std.specs.Option.{option_map};
ghost use Rattle.mpd_model.specs.runs.Decisions.{decision};
ghost use Rattle.mpd_explain.specs.Steps.{chooser};
ghost use Rattle.mpd_explain.specs.Positions as spec;

use crate::ends::{End, outcome_end};
use crate::lost::{LossList, all_losses};
use crate::steps::{PlacedStep, PlacedStepList, placed_step, placed_steps};
use mpd_core::Core;
use mpd_model::{Decision, Outcome, Step};
use mpd_names::PlacedCall;
use mpd_policy::sole;
use mpd_trail::Debugger;
use std::alloc::{AllocError, Global};

/// Steps that are undone.
#[derive(Clone, Copy)]
pub struct Ahead {
    /// How many they are, at least 1.
    pub count: usize,
    /// The first of them.
    pub step: PlacedStep,
}

/// What comes next.
#[derive(Drop)]
pub enum Coming {
    /// This step: nobody has to choose.
    Next(PlacedStep),
    /// A choice among candidates, of which there are two or more.
    Choice {
        /// The one call that all of them are for, if there is one.
        chooser: Option<PlacedCall>,
        candidates: PlacedStepList,
    },
    /// No step: the run has ended.
    Ended {
        outcome: Outcome,
        end: End,
        /// The requests that are lost.
        lost: LossList,
    },
}

/// Where a debugger stands.
#[derive(Drop)]
pub struct Position {
    /// The steps that are undone, if there are any.
    pub ahead: Option<Ahead>,
    /// What comes next, whether or not steps are undone.
    pub coming: Coming,
}

/// Whether it is this call.
fn is_call(call: Option<PlacedCall>, wanted: PlacedCall) -> bool
    ensures { result ≡ spec.is_call call wanted }
{
    match call {
        None => false,
        Some(call) => call.call.rank == wanted.call.rank && call.call.index == wanted.call.index,
    }
}

/// Whether all of some candidates are chosen for a call.
fn are_all_for(steps: &[PlacedStep], call: PlacedCall) -> bool
    ensures { result ≡ list_all (λ a. spec.is_call (chooser a) call) steps.now }
{
    steps.iter().all(|step| is_call(step.chooser(), call))
}

/// The one call that all candidates are chosen for, if there is one.
fn one_chooser(steps: &[PlacedStep]) -> Option<PlacedCall>
    ensures { result ≡ spec.one_chooser steps.now }
{
    let Some((first, rest)) = steps.split_first() else {
        return None;
    };
    let Some(call) = first.chooser() else {
        return None;
    };
    if are_all_for(rest, call) {
        Some(call)
    } else {
        None
    }
}

/// A choice among these steps.
fn choice(alloc: Global, core: &Core<'_>, steps: &[Step]) -> Result<Coming, AllocError>
    ensures { IfOk result (λ coming. coming ≡ spec.choice_of core.now.program core.now.world steps.now) }
{
    let candidates = placed_steps(alloc, core, steps)?;
    Ok(Coming::Choice {
        chooser: one_chooser(&candidates.items),
        candidates,
    })
}

/// The end of a run.
fn ended(alloc: Global, core: &Core<'_>, outcome: Outcome) -> Result<Coming, AllocError>
    ensures { IfOk result (λ coming. coming ≡ spec.ended_of core.now.program core.now.world outcome) }
{
    let end = outcome_end(alloc, core, &outcome)?;
    let lost = all_losses(alloc, core)?;
    Ok(Coming::Ended {
        outcome,
        end,
        lost: LossList { items: lost },
    })
}

/// What a decision is: a single candidate comes next as a forced step does.
fn coming_of(alloc: Global, core: &Core<'_>, decided: Decision) -> Result<Coming, AllocError>
    ensures { IfOk result (λ coming. coming ≡ spec.coming_by core.now.program core.now.world decided) }
{
    match decided {
        Decision::Forced(step) => Ok(Coming::Next(placed_step(core, step))),
        Decision::Choice(steps) => match sole(&steps.items) {
            Some(only) => Ok(Coming::Next(placed_step(core, only))),
            None => choice(alloc, core, &steps.items),
        },
        Decision::Leaf(outcome) => ended(alloc, core, outcome),
    }
}

/// So many steps that are undone, of which this is the first.
fn ahead_of(core: &Core<'_>, count: usize, undone: Option<Step>) -> Option<Ahead>
    ensures { result ≡ option_map (spec.ahead_of core.now.program core.now.world count) undone }
{
    match undone {
        None => None,
        Some(step) => Some(Ahead {
            count,
            step: placed_step(core, step),
        }),
    }
}

/// Where a debugger stands, given what is decided there. `Err` means that memory was refused.
pub fn position_of(
    alloc: Global,
    debugger: &Debugger<'_>,
    decided: Decision,
) -> Result<Position, AllocError>
    requires decided { decided ≡ decision debugger.now.world }
    ensures { IfOk result (λ position. position ≡ spec.position_of debugger.now.trail debugger.now.world) }
{
    let undone = debugger.next_undone();
    let count = debugger.steps().len() - debugger.depth();
    let core = debugger.core();
    let coming = coming_of(alloc, core, decided)?;
    Ok(Position {
        ahead: ahead_of(core, count, undone),
        coming,
    })
}
