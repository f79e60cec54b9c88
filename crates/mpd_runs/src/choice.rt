//! The last choice that was made, and the last place at which a run would have stopped.

ghost use Rattle.std.specs.Prelude.{◌≡◌, IfOk};
ghost use Rattle.mpd_model.specs.runs.Decisions.{decision};
ghost use Rattle.mpd_trail.specs.DebuggerViews.{AsFound, standing_of};
ghost use Rattle.mpd_policy.specs.Last.{last_hit as last_hit_of};
ghost use Rattle.mpd_runs.specs.LastChoice as spec;

use mpd_core::Core;
use mpd_model::Decision;
use mpd_policy::{Breaks, decide, last_hit};
use mpd_trail::Debugger;
use std::alloc::{AllocError, Global};

/// Whether a choice is open, of two candidates or more.
fn is_open(alloc: Global, core: &Core<'_>) -> Result<bool, AllocError>
    ensures { IfOk result (λ b. b ≡ spec.is_choice (decision core.now.world)) }
{
    match decide(alloc, core)? {
        Decision::Choice(steps) => Ok(steps.items.len() > 1),
        Decision::Forced(_) | Decision::Leaf(_) => Ok(false),
    }
}

/// Whether a run would stop here: the last step hits a breakpoint, or a choice is open. The
/// debugger is as it was found.
#[tactic(auto, using(crate::proofs::LastChoiceLemmas::stopping))]
fn is_stop(alloc: Global, debugger: &mut Debugger<'_>, breaks: &Breaks) -> Result<bool, AllocError>
    ensures stops { IfOk result (λ b. b ≡ spec.stops_by (last_hit_of breaks.now debugger.old.trail) (decision debugger.old.world)) }
    ensures as_found { AsFound (standing_of debugger.old) (standing_of debugger.new) }
{
    let hit = last_hit(debugger, breaks)?;
    if hit.is_some() {
        return Ok(true);
    }
    is_open(alloc, debugger.core())
}

/// Takes steps back until a run would stop there, and returns how many are left then; none if it
/// would stop nowhere.
#[tactic(auto, using(crate::proofs::LastChoiceLemmas::undoing))]
fn undo_to_stop(
    alloc: Global,
    debugger: &mut Debugger<'_>,
    breaks: &Breaks,
) -> Result<Option<usize>, AllocError>
    ensures { IfOk result (λ o. o ≡ spec.last_stop breaks.now debugger.old.trail) }
{
    debugger.state_is_reached();
    let depth = debugger.depth();
    for undone in 0..depth {
        let _ = debugger.undo();
        let is_stop = is_stop(alloc, debugger, breaks)?;
        if is_stop {
            return Ok(Some(depth - undone - 1));
        }
    }
    Ok(None)
}

/// The greatest depth below this one at which a run would have stopped: after a step that hits one
/// of these breakpoints, or at a choice of two candidates or more; `None` if there is none. A copy
/// of the debugger goes back to find it. `Err` means that memory was refused.
#[tactic(auto, using(crate::proofs::LastChoiceLemmas::undoing))]
pub fn last_stop(
    alloc: Global,
    debugger: &Debugger<'_>,
    breaks: &Breaks,
) -> Result<Option<usize>, AllocError>
    ensures { IfOk result (λ o. o ≡ spec.last_stop breaks.now debugger.now.trail) }
{
    debugger.state_is_reached();
    let mut copy = debugger.copy()?;
    let found = undo_to_stop(alloc, &mut copy, breaks);
    drop(copy);
    found
}

/// How many steps come before the last choice that was made, if one was: where a run without
/// breakpoints would have stopped last. `Err` means that memory was refused.
#[tactic(auto, using(crate::proofs::LastChoiceLemmas::choosing))]
pub fn last_choice(alloc: Global, debugger: &Debugger<'_>) -> Result<Option<usize>, AllocError>
    ensures { IfOk result (λ o. o ≡ spec.last_choice debugger.now.trail) }
{
    last_stop(alloc, debugger, &Breaks::new())
}

/// Adds the line that says that no choice was made. `Err` means that memory was refused.
pub fn push_no_choice(out: &mut String) -> Result<(), AllocError> {
    out.push_str("refused: no choice was made before\n")
}
