//! The states of several runs as a tree (docs/PAGES.md, "States").

ghost use Rattle.std.specs.Prelude.{◌≡◌, ◌≤◌, ◌<◌, OnOk, IfSome, length};
ghost use Rattle.std.specs.List.{position};
ghost use Rattle.mpd_page.specs.Trees as spec;

use mpd_model::Step;
use std::alloc::AllocError;

/// How many states a page has at most.
pub const STATES_MAX: usize = 20_000;

/// A state but the start.
#[derive(Clone, Copy)]
pub struct Branch {
    /// The number of the state from which a step leads there.
    pub from: usize,
    pub step: Step,
}

/// Why no page is made.
#[derive(Clone, Copy)]
pub enum PageFault {
    /// It would have more than `STATES_MAX` states.
    TooMany,
    /// Memory was refused.
    Memory,
}

impl From<AllocError> for PageFault {
    ghost use Rattle.mpd_page.specs.declared.tree.PageFault.TheVariants.{Memory};

    ghost from_gives = { λ _ e. e ≡ Memory };

    fn from(_: AllocError) -> PageFault {
        PageFault::Memory
    }
}

/// Whether a step leads there from a state.
fn is_branch(at: usize, step: Step, branch: Branch) -> bool
    ensures { result ≡ spec.is_branch at step branch }
{
    branch.from == at && branch.step == step
}

/// The place of such a state in a list, from 0.
fn place_in(states: &[Branch], at: usize, step: Step) -> Option<usize>
    ensures place { result ≡ position (spec.is_branch at step) states.now }
    ensures small { IfSome result (λ place. place < length states.now) }
{
    states
        .iter()
        .position(|branch| is_branch(at, step, *branch))
}

/// The number of the state to which a step leads from another, if it is there.
#[tactic(auto, using(crate::proofs::TreeLemmas::finding))]
pub(crate) fn child(tree: &[Branch], at: usize, step: Step) -> Option<usize>
    requires { at ≤ length tree.now }
    ensures child { result ≡ spec.child tree.now at step }
    ensures within { IfSome result (λ n. n ≤ length tree.now) }
{
    let (_, behind) = tree.split_at(at);
    let place = place_in(behind, at, step)?;
    Some(at + place + 1)
}

/// Adds a state.
pub(crate) fn grow(tree: &mut Vec<Branch>, at: usize, step: Step) -> Result<(), AllocError>
    ensures { OnOk result (tree.new.items ≡ spec.grown tree.old.items at step) }
{
    tree.push(Branch { from: at, step })?;
    Ok(())
}
