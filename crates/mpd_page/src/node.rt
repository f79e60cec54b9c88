//! A state of a page: the step that leads there, what changed, and its candidates (docs/PAGES.md, "States").

ghost use Rattle.std.specs.Prelude.{◌≡◌, IfOk};
ghost use Rattle.std.specs.List.{position};
ghost use Rattle.mpd_model.specs.runs.Trail.{step_eq};
ghost use Rattle.mpd_page.specs.Nodes as spec;

use crate::changes::{NodeChange, first_change, node_change};
use crate::walk::{Walk, candidates};
use mpd_core::Core;
use mpd_model::{Step, StepList};
use std::alloc::{AllocError, Global};

/// A step on the way of a run.
#[derive(Clone, Copy)]
pub struct Way {
    pub walk: Walk,
    /// The number of the state from which it leads.
    pub at: usize,
    pub step: Step,
    /// Whether the run goes on after it.
    pub more: bool,
}

/// How a state is come to.
#[derive(Clone, Copy)]
pub struct Lead {
    /// The number of the state from which the step leads.
    pub from: usize,
    pub step: Step,
    /// Which of the candidates of that state the step is, from 0, if it is one.
    pub number: Option<usize>,
}

/// What is told of a state.
#[derive(Drop)]
pub struct Node {
    /// None of the start.
    pub lead: Option<Lead>,
    /// By what it differs from the state before it.
    pub change: NodeChange,
    /// The steps that may be taken, in their order, if a choice is to be made and a step of the page leads on.
    pub candidates: StepList,
}

/// The place of a step in a list, from 0, if it is there.
fn place_in(step: Step, steps: &[Step]) -> Option<usize>
    ensures { result ≡ position (λ b. step_eq b step) steps.now }
{
    steps.iter().position(|other| *other == step)
}

/// How a state is come to by a step, given the candidates where it is taken.
fn lead_by(at: usize, step: Step, steps: &[Step]) -> Lead
    ensures { result ≡ spec.lead at step steps.now }
{
    Lead {
        from: at,
        step,
        number: place_in(step, steps),
    }
}

/// How a state is come to.
fn lead_of(alloc: Global, core: &Core<'_>, way: Way) -> Result<Lead, AllocError>
    ensures { IfOk result (λ l. l ≡ spec.lead way.at way.step (spec.candidates way.walk core.now.world)) }
{
    let steps = candidates(alloc, core, way.walk)?;
    Ok(lead_by(way.at, way.step, &steps))
}

/// The candidates of a state from which a step leads.
fn told_candidates(
    alloc: Global,
    core: &Core<'_>,
    walk: Walk,
    more: bool,
) -> Result<StepList, AllocError>
    ensures { IfOk result (λ steps. steps ≡ spec.told_candidates walk core.now.world more) }
{
    if !more {
        return Ok(StepList {
            items: Vec::new(alloc),
        });
    }
    let items = candidates(alloc, core, walk)?;
    Ok(StepList { items })
}

/// A state to which a step leads from another.
pub(crate) fn node_of(
    alloc: Global,
    before: &Core<'_>,
    after: &Core<'_>,
    way: Way,
) -> Result<Node, AllocError>
    requires { after.now.program ≡ before.now.program }
    ensures { IfOk result (λ n. n ≡ spec.node before.now.program way.walk way.at before.now.world after.now.world way.step way.more) }
{
    let lead = lead_of(alloc, before, way)?;
    let change = node_change(alloc, before, after, way.step)?;
    let candidates = told_candidates(alloc, after, way.walk, way.more)?;
    Ok(Node {
        lead: Some(lead),
        change,
        candidates,
    })
}

/// The start.
pub(crate) fn first_node(
    alloc: Global,
    core: &Core<'_>,
    walk: Walk,
    more: bool,
) -> Result<Node, AllocError>
    ensures { IfOk result (λ n. n ≡ spec.first_node core.now.program walk core.now.world more) }
{
    let change = first_change(alloc, core)?;
    let candidates = told_candidates(alloc, core, walk, more)?;
    Ok(Node {
        lead: None,
        change,
        candidates,
    })
}
