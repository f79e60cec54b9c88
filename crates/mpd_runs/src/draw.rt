//! Drawing a run of the wide walk: at each choice a candidate, by the numbers of a generator.

ghost use Rattle.std.specs.Prelude.{◌≡◌, ℕ, [], ◌+◌, ◌<◌, ◌≤◌, IfOk, OnOk};
ghost use Rattle.rand.specs.Uniform.{usize_single};
ghost use Rattle.mpd_trail.specs.DebuggerViews.{standing_of};
ghost use Rattle.mpd_policy.specs.Choosers.{never_leaves, stays};
ghost use Rattle.mpd_policy.specs.Walks.{Beyond};
ghost use Rattle.mpd_runs.specs.Drawing.{Drew, takes_drawn};

use mpd_explore::{ChoiceList, Ending, SearchLeaf};
use mpd_model::{STEPS_MAX, Step, StepList};
use mpd_policy::{Chooser, Wide, ending_of, walk};
use mpd_trail::Debugger;
use rand::{Rng, RngExt};
use std::alloc::{AllocError, Global};

/// The number of one of `count` candidates, each equally likely.
fn draw_index<R: Rng>(random: &mut R, count: usize) -> usize
    requires some { 0 < count }
    ensures within { result < count }
    ensures drawn { (result, R.stream random.new) ≡ usize_single 0 count (R.stream random.old) }
{
    random.random_range(0..count)
}

/// Draws one of the candidates, each equally likely, and notes its number.
#[derive(Drop)]
struct Drawer<'a, R: Rng> {
    random: &'a mut R,
    choices: &'a mut Vec<usize>,
}

impl<'a, R: Rng> Chooser for Drawer<'a, R> {
    ghost takes = { takes_drawn (λ c. R.stream c.random.now) (λ c. c.choices.now.items) (λ c. c.random.ghost_name) (λ c. c.choices.ghost_name) };

    ghost leaves = { never_leaves };

    ghost passes = { stays };

    fn choose(
        &mut self,
        debugger: &Debugger<'_>,
        candidates: StepList,
    ) -> Result<Option<Step>, AllocError> {
        let index = draw_index(self.random, candidates.items.len());
        let step = candidates.items[index];
        self.choices.push(index)?;
        Ok(Some(step))
    }

    fn pass(&mut self, debugger: &Debugger<'_>, step: Step) -> Result<(), AllocError> {
        Ok(())
    }
}

/// Draws a run from here to its end, and returns how it ends.
fn draw_run<R: Rng>(
    alloc: Global,
    debugger: &mut Debugger<'_>,
    fuel: usize,
    random: &mut R,
    choices: &mut Vec<usize>,
) -> Result<Ending, AllocError>
    requires fits { debugger.old.trail.depth + fuel ≤ STEPS_MAX }
    requires none { choices.old.items ≡ [] }
    ensures drew { IfOk result (λ end. Drew fuel (standing_of debugger.old) (R.stream random.old) choices.new.items end (standing_of debugger.new) (R.stream random.new)) }
    ensures beyond { Beyond (standing_of debugger.old) (standing_of debugger.new) }
{
    debugger.state_is_reached();
    let base = debugger.depth();
    let mut drawer = Drawer { random, choices };
    let stop = walk(alloc, &Wide, debugger, base + fuel, &mut drawer)?;
    let Some(ending) = ending_of(alloc, &Wide, debugger, stop)? else {
        unreachable!()
    };
    Ok(ending)
}

/// Draws a run, and returns its leaf, at which the debugger stands then.
pub(crate) fn draw_leaf<R: Rng>(
    alloc: Global,
    debugger: &mut Debugger<'_>,
    fuel: usize,
    random: &mut R,
) -> Result<SearchLeaf, AllocError>
    requires fits { debugger.old.trail.depth + fuel ≤ STEPS_MAX }
    ensures drew { IfOk result (λ l. Drew fuel (standing_of debugger.old) (R.stream random.old) l.choices l.ending (standing_of debugger.new) (R.stream random.new)) }
    ensures beyond { Beyond (standing_of debugger.old) (standing_of debugger.new) }
{
    let mut items = Vec::new(alloc);
    match draw_run(alloc, debugger, fuel, random, &mut items) {
        Ok(ending) => Ok(SearchLeaf {
            choices: ChoiceList { items },
            ending,
        }),
        Err(fault) => {
            drop(items);
            Err(fault)
        }
    }
}
