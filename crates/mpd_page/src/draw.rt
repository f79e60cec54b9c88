//! Some runs as values: their states and their ends (docs/PAGES.md).

ghost use Rattle.std.specs.Prelude.{◌≡◌, ◌≤◌, ◌<◌, ◌++◌, ◌+◌, ◌∷◌, [], true, false, IfOk, OnOk, IsErrOf, length};
ghost use Rattle.std.specs.List.{list_any};
ghost use Rattle.mpd_model.specs.steps.World.{start};
ghost use Rattle.mpd_model.specs.runs.Trail.{done_steps};
ghost use Rattle.mpd_page.specs.Trees as tree_spec;
ghost use Rattle.mpd_page.specs.Ends.{AreEnds, EndAdded, share};
ghost use Rattle.mpd_page.specs.Nodes as node_spec;
ghost use Rattle.mpd_page.specs.Pages.{AreDrawn};

use crate::ends::push_end;
use crate::node::{Node, first_node};
use crate::nodes::{Drawn, follow};
use crate::tree::{PageFault, STATES_MAX};
use crate::walk::Walk;
use mpd_code::Code;
use mpd_core::Core;
use mpd_model::{Mode, StepList};
use mpd_trail::Debugger;
use std::alloc::{AllocError, Global};

/// How runs are drawn.
#[derive(Clone, Copy)]
struct DrawPlan {
    /// Along what choices are told.
    walk: Walk,
    /// How many states the search for the step that decides visits at most, of one run.
    blamed: usize,
}

/// Adds a run by two debuggers that stand at its start, and its end.
#[tactic(auto, using(crate::proofs::PageLemmas::behind_none))]
fn draw_with(
    behind: &mut Debugger<'_>,
    ahead: &mut Debugger<'_>,
    drawn: &mut Drawn,
    plan: DrawPlan,
    run: &StepList,
) -> Result<(), PageFault>
    requires world { ahead.old.world ≡ behind.old.world }
    requires program { ahead.old.trail.program ≡ behind.old.trail.program }
    requires first { done_steps ahead.old.trail ≡ [] }
    requires few { length drawn.old.tree.items + 1 ≤ STATES_MAX }
    ensures tree { OnOk result (drawn.new.tree.items ≡ tree_spec.run_tree drawn.old.tree.items 0 run.now) }
    ensures few { OnOk result (length drawn.new.tree.items + 1 ≤ STATES_MAX) }
    ensures nodes { OnOk result (drawn.new.nodes.items ≡ drawn.old.nodes.items ++ tree_spec.run_nodes behind.old.trail.program plan.walk drawn.old.tree.items 0 behind.old.world run.now) }
    ensures ends { OnOk result (EndAdded plan.blamed ahead.old.trail.program ahead.old.trail.mode (tree_spec.run_end drawn.old.tree.items 0 run.now) run.now drawn.old.ends.items drawn.new.ends.items) }
    ensures too_many { IsErrOf result PageFault.TooMany → STATES_MAX < length (tree_spec.run_tree drawn.old.tree.items 0 run.now) + 1 }
{
    let number = follow(behind, ahead, drawn, plan.walk, &run.items)?;
    push_end(ahead, &mut drawn.ends, number, plan.blamed)?;
    Ok(())
}

/// Adds a run by a debugger that stands at its start.
#[tactic(auto, using(crate::proofs::PageLemmas::behind_none))]
fn draw_by(
    behind: &mut Debugger<'_>,
    drawn: &mut Drawn,
    plan: DrawPlan,
    run: &StepList,
) -> Result<(), PageFault>
    requires first { done_steps behind.old.trail ≡ [] }
    requires few { length drawn.old.tree.items + 1 ≤ STATES_MAX }
    ensures tree { OnOk result (drawn.new.tree.items ≡ tree_spec.run_tree drawn.old.tree.items 0 run.now) }
    ensures few { OnOk result (length drawn.new.tree.items + 1 ≤ STATES_MAX) }
    ensures nodes { OnOk result (drawn.new.nodes.items ≡ drawn.old.nodes.items ++ tree_spec.run_nodes behind.old.trail.program plan.walk drawn.old.tree.items 0 behind.old.world run.now) }
    ensures ends { OnOk result (EndAdded plan.blamed behind.old.trail.program behind.old.trail.mode (tree_spec.run_end drawn.old.tree.items 0 run.now) run.now drawn.old.ends.items drawn.new.ends.items) }
    ensures too_many { IsErrOf result PageFault.TooMany → STATES_MAX < length (tree_spec.run_tree drawn.old.tree.items 0 run.now) + 1 }
{
    let Ok(mut ahead) = behind.copy() else {
        return Err(PageFault::Memory);
    };
    let made = draw_with(behind, &mut ahead, drawn, plan, run);
    drop(ahead);
    made
}

/// Adds a run from the start of a script.
fn draw_run(
    alloc: Global,
    code: &Code,
    mode: Mode,
    drawn: &mut Drawn,
    plan: DrawPlan,
    run: &StepList,
) -> Result<(), PageFault>
    requires few { length drawn.old.tree.items + 1 ≤ STATES_MAX }
    ensures tree { OnOk result (drawn.new.tree.items ≡ tree_spec.run_tree drawn.old.tree.items 0 run.now) }
    ensures few { OnOk result (length drawn.new.tree.items + 1 ≤ STATES_MAX) }
    ensures nodes { OnOk result (drawn.new.nodes.items ≡ drawn.old.nodes.items ++ tree_spec.run_nodes code.now.program plan.walk drawn.old.tree.items 0 (start code.now.program mode) run.now) }
    ensures ends { OnOk result (EndAdded plan.blamed code.now.program mode (tree_spec.run_end drawn.old.tree.items 0 run.now) run.now drawn.old.ends.items drawn.new.ends.items) }
    ensures too_many { IsErrOf result PageFault.TooMany → STATES_MAX < length (tree_spec.run_tree drawn.old.tree.items 0 run.now) + 1 }
{
    let Ok(mut behind) = Debugger::start(alloc, code, mode) else {
        return Err(PageFault::Memory);
    };
    let made = draw_by(&mut behind, drawn, plan, run);
    drop(behind);
    made
}

/// Adds runs.
#[tactic(auto, using(crate::proofs::PageLemmas::drawing))]
fn draw_all(
    alloc: Global,
    code: &Code,
    mode: Mode,
    drawn: &mut Drawn,
    plan: DrawPlan,
    runs: &[StepList],
) -> Result<(), PageFault>
    requires few { length drawn.old.tree.items + 1 ≤ STATES_MAX }
    requires empty { drawn.old.ends.items ≡ [] }
    ensures few { OnOk result (length (tree_spec.runs_tree drawn.old.tree.items runs.now) + 1 ≤ STATES_MAX) }
    ensures nodes { OnOk result (drawn.new.nodes.items ≡ drawn.old.nodes.items ++ tree_spec.runs_nodes code.now.program plan.walk (start code.now.program mode) drawn.old.tree.items runs.now) }
    ensures ends { OnOk result (AreEnds plan.blamed code.now.program mode drawn.old.tree.items runs.now drawn.new.ends.items) }
    ensures too_many { IsErrOf result PageFault.TooMany → STATES_MAX < length (tree_spec.runs_tree drawn.old.tree.items runs.now) + 1 }
{
    let mut left = runs;
    while let Some((one, rest)) = left.split_first() {
        match draw_run(alloc, code, mode, drawn, plan, one) {
            Ok(()) => left = rest,
            Err(fault) => return Err(fault),
        }
    }
    Ok(())
}

/// Whether a run has a step.
fn has_step(run: &StepList) -> bool
    ensures { result ≡ tree_spec.has_some run.now }
{
    !run.items.is_empty()
}

/// Whether one of some runs has a step.
fn any_step(runs: &[StepList]) -> bool
    ensures { result ≡ list_any tree_spec.has_some runs.now }
{
    runs.iter().any(|run| has_step(run))
}

/// The part that each of `runs` runs has of `states` states, an equal one; 0 if there is no run.
fn share(states: usize, runs: usize) -> usize
    ensures { result ≡ share states runs }
{
    if runs == 0 {
        return 0;
    }
    states / runs
}

/// What is told of the start of a script.
fn start_node(
    alloc: Global,
    code: &Code,
    mode: Mode,
    walk: Walk,
    more: bool,
) -> Result<Node, AllocError>
    ensures { IfOk result (λ n. n ≡ node_spec.first_node code.now.program walk (start code.now.program mode) more) }
{
    let Ok(core) = Core::start(alloc, code, mode) else {
        return Err(AllocError);
    };
    let made = first_node(alloc, &core, walk, more);
    drop(core);
    made
}

/// A state alone.
fn only(alloc: Global, node: Node) -> Result<Vec<Node>, AllocError>
    ensures { IfOk result (λ nodes. nodes.items ≡ node ∷ []) }
{
    let mut nodes = Vec::new(alloc);
    nodes.push(node)?;
    Ok(nodes)
}

/// Those runs from the start of a script, whose first state is told already.
#[tactic(auto, using(crate::proofs::PageLemmas::paging))]
fn drawn_behind(
    alloc: Global,
    code: &Code,
    mode: Mode,
    plan: DrawPlan,
    first: Node,
    runs: &[StepList],
) -> Result<Drawn, PageFault>
    requires { first ≡ node_spec.first_node code.now.program plan.walk (start code.now.program mode) (list_any tree_spec.has_some runs.now) }
    ensures few { IfOk result (λ d. tree_spec.is_few (tree_spec.runs_tree [] runs.now) ≡ true) }
    ensures nodes { IfOk result (λ d. d.nodes.items ≡ tree_spec.nodes_of code.now.program plan.walk (start code.now.program mode) runs.now) }
    ensures ends { IfOk result (λ d. AreEnds plan.blamed code.now.program mode [] runs.now d.ends.items) }
    ensures too_many { IsErrOf result PageFault.TooMany → tree_spec.is_few (tree_spec.runs_tree [] runs.now) ≡ false }
{
    let mut drawn = Drawn {
        tree: Vec::new(alloc),
        nodes: only(alloc, first)?,
        ends: Vec::new(alloc),
    };
    match draw_all(alloc, code, mode, &mut drawn, plan, runs) {
        Ok(()) => Ok(drawn),
        Err(fault) => {
            drop(drawn);
            Err(fault)
        }
    }
}

/// Some runs from the start of a script: a run is the steps from there, each enabled where it
/// stands. The searches for the steps that decide visit `states` states at most, all together.
/// `Memory` means that memory was refused, that a step isn't enabled, or that a run has more than
/// 1,000,000 steps.
pub fn draw_runs(
    alloc: Global,
    code: &Code,
    mode: Mode,
    walk: Walk,
    runs: &[StepList],
    states: usize,
) -> Result<Drawn, PageFault>
    ensures ok { IfOk result (λ drawn. AreDrawn states code.now.program mode walk runs.now drawn) }
    ensures too_many { IsErrOf result PageFault.TooMany → tree_spec.is_few (tree_spec.runs_tree [] runs.now) ≡ false }
{
    let plan = DrawPlan {
        walk,
        blamed: share(states, runs.len()),
    };
    let first = start_node(alloc, code, mode, walk, any_step(runs))?;
    drawn_behind(alloc, code, mode, plan, first, runs)
}
