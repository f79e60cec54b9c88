//! The states of runs, those that they share once (docs/PAGES.md, "States").

ghost use Rattle.std.specs.Prelude.{◌≡◌, ◌≤◌, ◌<◌, ◌++◌, ◌+◌, ◌∷◌, [], Some, None, IfOk, OnOk, IsErrOf, length};
ghost use Rattle.mpd_model.specs.steps.World.{start};
ghost use Rattle.mpd_model.specs.steps.Next.{next, fold};
ghost use Rattle.mpd_model.specs.runs.Trail.{done_steps};
ghost use Rattle.mpd_page.specs.Trees as spec;

use crate::ends::PageEnd;
use crate::node::{Node, Way, node_of};
use crate::tree::{Branch, PageFault, STATES_MAX, child, grow};
use crate::walk::Walk;
use mpd_model::Step;
use mpd_trail::Debugger;
use std::alloc::{AllocError, Global};

/// Some runs, their states and their ends.
#[derive(Drop)]
pub struct Drawn {
    /// The states but the start, each by the step that leads there.
    pub tree: Vec<Branch>,
    /// What is told of each state, the start first.
    pub nodes: Vec<Node>,
    /// How each run ends.
    pub ends: Vec<PageEnd>,
}

/// Takes a step.
fn take(debugger: &mut Debugger<'_>, step: Step) -> Result<(), PageFault>
    ensures leads { OnOk result (next debugger.old.world step ≡ Some debugger.new.world) }
    ensures steps { OnOk result (done_steps debugger.new.trail ≡ done_steps debugger.old.trail ++ step ∷ []) }
    ensures program { OnOk result (debugger.new.trail.program ≡ debugger.old.trail.program) }
    ensures mode { OnOk result (debugger.new.trail.mode ≡ debugger.old.trail.mode) }
    ensures memory { IsErrOf result PageFault.TooMany → ⊥ }
{
    match debugger.apply(step) {
        Ok(()) => Ok(()),
        Err(_) => Err(PageFault::Memory),
    }
}

/// Takes a step by two debuggers.
#[tactic(auto, using(crate::proofs::NodeLemmas::same_there))]
fn take_both(
    behind: &mut Debugger<'_>,
    ahead: &mut Debugger<'_>,
    step: Step,
) -> Result<(), PageFault>
    requires world { ahead.old.world ≡ behind.old.world }
    ensures leads { OnOk result (next behind.old.world step ≡ Some ahead.new.world) }
    ensures same { OnOk result (behind.new.world ≡ ahead.new.world) }
    ensures program { OnOk result (behind.new.trail.program ≡ behind.old.trail.program) }
    ensures program_ahead { OnOk result (ahead.new.trail.program ≡ ahead.old.trail.program) }
    ensures mode { OnOk result (ahead.new.trail.mode ≡ ahead.old.trail.mode) }
    ensures steps { OnOk result (done_steps ahead.new.trail ≡ done_steps ahead.old.trail ++ step ∷ []) }
    ensures memory { IsErrOf result PageFault.TooMany → ⊥ }
{
    take(ahead, step)?;
    take(behind, step)
}

/// Adds what is told of a new state.
fn push_node(
    behind: &Debugger<'_>,
    ahead: &Debugger<'_>,
    drawn: &mut Drawn,
    way: Way,
) -> Result<(), AllocError>
    requires program { ahead.now.trail.program ≡ behind.now.trail.program }
    ensures nodes { OnOk result (drawn.new.nodes.items ≡ drawn.old.nodes.items ++ spec.new_node behind.now.trail.program way.walk way.at behind.now.world ahead.now.world way.step way.more) }
    ensures tree { drawn.new.tree.items ≡ drawn.old.tree.items }
    ensures ends { drawn.new.ends.items ≡ drawn.old.ends.items }
{
    let alloc = *drawn.nodes.allocator();
    let told = node_of(alloc, behind.core(), ahead.core(), way)?;
    drawn.nodes.push(told)?;
    Ok(())
}

/// Adds a new state, and answers its number.
#[tactic(auto, using(crate::proofs::RunLemmas::more_by_one))]
fn push_new(
    behind: &mut Debugger<'_>,
    ahead: &mut Debugger<'_>,
    drawn: &mut Drawn,
    way: Way,
) -> Result<usize, PageFault>
    requires world { ahead.old.world ≡ behind.old.world }
    requires program { ahead.old.trail.program ≡ behind.old.trail.program }
    ensures number { IfOk result (λ n. n ≡ length drawn.old.tree.items + 1) }
    ensures tree { OnOk result (drawn.new.tree.items ≡ spec.grown drawn.old.tree.items way.at way.step) }
    ensures few { OnOk result (length drawn.new.tree.items + 1 ≤ STATES_MAX) }
    ensures nodes { OnOk result (drawn.new.nodes.items ≡ drawn.old.nodes.items ++ spec.new_node behind.old.trail.program way.walk way.at behind.old.world ahead.new.world way.step way.more) }
    ensures ends { drawn.new.ends.items ≡ drawn.old.ends.items }
    ensures leads { OnOk result (next behind.old.world way.step ≡ Some ahead.new.world) }
    ensures same { OnOk result (behind.new.world ≡ ahead.new.world) }
    ensures program_behind { OnOk result (behind.new.trail.program ≡ behind.old.trail.program) }
    ensures program_ahead { OnOk result (ahead.new.trail.program ≡ ahead.old.trail.program) }
    ensures mode { OnOk result (ahead.new.trail.mode ≡ ahead.old.trail.mode) }
    ensures steps { OnOk result (done_steps ahead.new.trail ≡ done_steps ahead.old.trail ++ way.step ∷ []) }
    ensures too_many { IsErrOf result PageFault.TooMany → STATES_MAX ≤ length drawn.old.tree.items + 1 }
{
    let number = drawn.tree.len() + 1;
    if number >= STATES_MAX {
        return Err(PageFault::TooMany);
    }
    take(ahead, way.step)?;
    push_node(behind, ahead, drawn, way)?;
    grow(&mut drawn.tree, way.at, way.step)?;
    take(behind, way.step)?;
    Ok(number)
}

/// Goes on by a step of a run, and answers the number of the state to which it leads: one that is there, or a new one.
fn go_on(
    behind: &mut Debugger<'_>,
    ahead: &mut Debugger<'_>,
    drawn: &mut Drawn,
    way: Way,
) -> Result<usize, PageFault>
    requires world { ahead.old.world ≡ behind.old.world }
    requires program { ahead.old.trail.program ≡ behind.old.trail.program }
    requires within { way.at ≤ length drawn.old.tree.items }
    requires few { length drawn.old.tree.items + 1 ≤ STATES_MAX }
    ensures number { IfOk result (λ n. n ≡ spec.number_there drawn.old.tree.items way.at way.step) }
    ensures within { IfOk result (λ n. n ≤ length drawn.new.tree.items) }
    ensures tree { OnOk result (drawn.new.tree.items ≡ spec.tree_there drawn.old.tree.items way.at way.step) }
    ensures few { OnOk result (length drawn.new.tree.items + 1 ≤ STATES_MAX) }
    ensures nodes { OnOk result (drawn.new.nodes.items ≡ drawn.old.nodes.items ++ spec.node_there behind.old.trail.program way.walk drawn.old.tree.items way.at behind.old.world ahead.new.world way.step way.more) }
    ensures ends { drawn.new.ends.items ≡ drawn.old.ends.items }
    ensures leads { OnOk result (next behind.old.world way.step ≡ Some ahead.new.world) }
    ensures same { OnOk result (behind.new.world ≡ ahead.new.world) }
    ensures program_behind { OnOk result (behind.new.trail.program ≡ behind.old.trail.program) }
    ensures program_ahead { OnOk result (ahead.new.trail.program ≡ ahead.old.trail.program) }
    ensures mode { OnOk result (ahead.new.trail.mode ≡ ahead.old.trail.mode) }
    ensures steps { OnOk result (done_steps ahead.new.trail ≡ done_steps ahead.old.trail ++ way.step ∷ []) }
    ensures too_many { IsErrOf result PageFault.TooMany → STATES_MAX ≤ length drawn.old.tree.items + 1 }
    ensures is_new { IsErrOf result PageFault.TooMany → spec.child drawn.old.tree.items way.at way.step ≡ None }
{
    let Some(number) = child(&drawn.tree, way.at, way.step) else {
        return push_new(behind, ahead, drawn, way);
    };
    take_both(behind, ahead, way.step)?;
    Ok(number)
}

/// Goes along a run from the start, and adds its states that aren't there yet. Answers the number of the state in which it ends.
#[tactic(auto, using(crate::proofs::RunLemmas::going_along))]
pub(crate) fn follow(
    behind: &mut Debugger<'_>,
    ahead: &mut Debugger<'_>,
    drawn: &mut Drawn,
    walk: Walk,
    steps: &[Step],
) -> Result<usize, PageFault>
    requires world { ahead.old.world ≡ behind.old.world }
    requires program { ahead.old.trail.program ≡ behind.old.trail.program }
    requires few { length drawn.old.tree.items + 1 ≤ STATES_MAX }
    ensures number { IfOk result (λ n. n ≡ spec.run_end drawn.old.tree.items 0 steps.now) }
    ensures tree { OnOk result (drawn.new.tree.items ≡ spec.run_tree drawn.old.tree.items 0 steps.now) }
    ensures few { OnOk result (length drawn.new.tree.items + 1 ≤ STATES_MAX) }
    ensures nodes { OnOk result (drawn.new.nodes.items ≡ drawn.old.nodes.items ++ spec.run_nodes behind.old.trail.program walk drawn.old.tree.items 0 behind.old.world steps.now) }
    ensures ends { drawn.new.ends.items ≡ drawn.old.ends.items }
    ensures leads { OnOk result (fold behind.old.world steps.now ≡ Some ahead.new.world) }
    ensures program_ahead { OnOk result (ahead.new.trail.program ≡ ahead.old.trail.program) }
    ensures mode { OnOk result (ahead.new.trail.mode ≡ ahead.old.trail.mode) }
    ensures steps { OnOk result (done_steps ahead.new.trail ≡ done_steps ahead.old.trail ++ steps.now) }
    ensures too_many { IsErrOf result PageFault.TooMany → STATES_MAX < length (spec.run_tree drawn.old.tree.items 0 steps.now) + 1 }
{
    let mut at = 0;
    let mut left = steps;
    while let Some((step, rest)) = left.split_first() {
        let way = Way {
            walk,
            at,
            step: *step,
            more: !rest.is_empty(),
        };
        match go_on(behind, ahead, drawn, way) {
            Ok(number) => at = number,
            Err(fault) => return Err(fault),
        }
        left = rest;
    }
    Ok(at)
}
