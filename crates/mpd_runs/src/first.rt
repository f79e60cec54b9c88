//! The run of the first candidates along a schedule.

ghost use Rattle.std.specs.Prelude.{◌≡◌, ◌++◌, OnOk, false};
ghost use Rattle.mpd_model.specs.runs.Trail.{done_steps};
ghost use Rattle.mpd_policy.specs.declared.along.WalkEnd.TheVariants as stop_is;
ghost use Rattle.mpd_runs.specs.First.{first_steps};

use mpd_model::STEPS_MAX;
use mpd_policy::{First, Schedule, WalkEnd, walk};
use mpd_trail::Debugger;
use std::alloc::{AllocError, Global};

/// A walk whose fuel was cut short must have stopped before it was used up.
fn fits(stop: WalkEnd, is_cut: bool) -> Result<(), AllocError>
    ensures { OnOk result (stop ≡ stop_is.Fuel → is_cut ≡ false) }
{
    match stop {
        WalkEnd::Fuel => {
            if is_cut {
                return Err(AllocError);
            }
            Ok(())
        }
        WalkEnd::Ended(_) => Ok(()),
        WalkEnd::Untaken => Ok(()),
    }
}

/// Leads a debugger along the first candidates of a schedule, to the end of the run, or for `fuel`
/// steps. The depth and these are at most 1,000,000 together. `Err` means that memory was refused;
/// the debugger is then somewhere on that run.
pub fn lead_first<S: Schedule>(
    alloc: Global,
    schedule: &S,
    debugger: &mut Debugger<'_>,
    fuel: usize,
) -> Result<(), AllocError>
    ensures { OnOk result (done_steps debugger.new.trail ≡ done_steps debugger.old.trail ++ first_steps S.decides fuel debugger.old.world) }
{
    debugger.state_is_reached();
    let base = debugger.depth();
    let room = STEPS_MAX - base;
    let mut chooser = First;
    let limit = base + fuel.min(room);
    let stop = walk(alloc, schedule, debugger, limit, &mut chooser)?;
    fits(stop, room < fuel)?;
    Ok(())
}
