//! Which breakpoint the last step hits, told by that step alone.

ghost use Rattle.std.specs.Prelude.{◌≡◌, ◌<◌, ◌≤◌, ◌-◌, IfOk, OnErr, length};
ghost use Rattle.mpd_model.specs.runs.Trail.{IsReached, redone};
ghost use Rattle.mpd_model.specs.runs.Running.{hit_at};
ghost use Rattle.mpd_trail.specs.DebuggerViews.{AsFound, standing_of};
ghost use Rattle.mpd_policy.specs.Last as spec;

use crate::breaks::Breaks;
use crate::runs::take_back_watched;
use mpd_trail::{Debugger, RedoFault};
use std::alloc::AllocError;

/// Takes the step again that was undone last, in the room that is kept for it.
fn take_again(debugger: &mut Debugger<'_>)
    requires undone { debugger.old.trail.depth < length debugger.old.trail.steps }
    requires room { 1 ≤ debugger.old.room }
    ensures trail { debugger.new.trail ≡ redone debugger.old.trail }
    ensures reached { IsReached (standing_of debugger.new) }
{
    match debugger.redo() {
        Ok(()) => {}
        Err(RedoFault::NoRedo) => unreachable!(),
        Err(RedoFault::Memory) => unreachable!(),
    }
}

/// The lowest breakpoint that the last step hits. The step is taken back and taken again, in room that was kept for it, so the debugger
/// is as it was found, undone steps included.
#[tactic(auto, using(crate::proofs::LastLemmas::turning))]
fn back_and_again(debugger: &mut Debugger<'_>, breaks: &Breaks) -> Option<usize>
    requires some { 0 < debugger.old.trail.depth }
    requires room { 1 ≤ debugger.old.room }
    ensures hit { result ≡ hit_at breaks.now debugger.old.trail (debugger.old.trail.depth - 1) }
    ensures as_found { AsFound (standing_of debugger.old) (standing_of debugger.new) }
{
    debugger.state_is_reached();
    let hit = take_back_watched(debugger, breaks);
    take_again(debugger);
    hit
}

/// The lowest breakpoint that the last step hits, before which a run back would stop at once; none where no step is taken, or where it
/// hits none. It looks at this one step, however many were taken before it, and the debugger is as it was found: its trail, steps that
/// are undone included, and its state. An `Err` is want of memory for the room of one step, and comes only where none was kept.
#[tactic(auto, using(crate::proofs::LastLemmas::lasting))]
pub fn last_hit(debugger: &mut Debugger<'_>, breaks: &Breaks) -> Result<Option<usize>, AllocError>
    ensures hit { IfOk result (λ hit. hit ≡ spec.last_hit breaks.now debugger.old.trail) }
    ensures as_found { AsFound (standing_of debugger.old) (standing_of debugger.new) }
    ensures taken { OnErr result (0 < debugger.old.trail.depth) }
    ensures no_room { OnErr result (debugger.old.room ≡ 0) }
{
    debugger.state_is_reached();
    if debugger.depth() == 0 {
        return Ok(None);
    }
    if breaks.is_unset() {
        return Ok(None);
    }
    debugger.keep_room()?;
    Ok(back_and_again(debugger, breaks))
}
