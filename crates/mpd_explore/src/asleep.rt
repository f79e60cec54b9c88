//! The sleep sets at the candidates of a choice, and the first candidate that is awake.

ghost use Rattle.std.specs.Prelude.{◌≡◌, ◌≤◌, ◌&&◌, ◌||◌, ◌++◌, if◌then◌else◌, IfOk, length, reverse, take};
ghost use Rattle.std.specs.List.{list_any};
ghost use Rattle.mpd_explore.specs.Sleeping.{put_off};
ghost use Rattle.mpd_explore.specs.Asleep.{Skips};

use mpd_model::{Step, StepList};
use mpd_policy::Schedule;
use std::alloc::{AllocError, Global};

/// Whether a candidate is one of some steps that are asleep.
pub fn is_asleep<S: Schedule>(schedule: &S, asleep: &[Step], candidate: Step) -> bool
    ensures { result ≡ list_any (S.same candidate) asleep.now }
{
    for step in asleep {
        if schedule.is_same(candidate, *step) {
            return true;
        }
    }
    false
}

/// Whether a candidate is asleep: as one of these steps, or, if those that were tried fall asleep,
/// as one of the candidates before it.
fn dozes<S: Schedule>(
    schedule: &S,
    sleeps: bool,
    asleep: &[Step],
    before: &[Step],
    candidate: Step,
) -> bool
    ensures { result ≡ (list_any (S.same candidate) asleep.now || (sleeps && list_any (S.same candidate) before.now)) }
{
    is_asleep(schedule, asleep, candidate) || (sleeps && is_asleep(schedule, before, candidate))
}

/// The index of the first candidate that is awake, from `from` on; the number of candidates if none
/// is.
pub(crate) fn first_awake<S: Schedule>(
    schedule: &S,
    sleeps: bool,
    asleep: &[Step],
    candidates: &[Step],
    from: usize,
) -> usize
    requires { from ≤ length candidates.now }
    ensures { Skips S.same sleeps asleep.now candidates.now from result }
{
    for index in from..candidates.len() {
        let (before, _) = candidates.split_at(index);
        if !dozes(schedule, sleeps, asleep, before, candidates[index]) {
            return index;
        }
    }
    candidates.len()
}

/// Candidates that were tried, the last first, in front of other steps.
fn fallen(alloc: Global, tried: &[Step], asleep: &[Step]) -> Result<Vec<Step>, AllocError>
    ensures { IfOk result (λ v. v.items ≡ reverse tried.now ++ asleep.now) }
{
    if tried.is_empty() && asleep.is_empty() {
        return Ok(Vec::new(alloc));
    }
    let mut items = Vec::with_capacity(alloc, tried.len().saturating_add(asleep.len()))?;
    items.extend_from_slice(tried)?;
    items.reverse();
    items.extend_from_slice(asleep)?;
    Ok(items)
}

/// The candidates before one, if those that were tried fall asleep.
fn tried(sleeps: bool, candidates: &[Step], index: usize) -> &[Step]
    requires { index ≤ length candidates.now }
    ensures { result.now ≡ take (if sleeps then index else 0) candidates.now }
{
    let count = if sleeps { index } else { 0 };
    let (before, _) = candidates.split_at(count);
    before
}

/// What is asleep at a candidate of a choice: what was asleep there, and, if those that were tried
/// fall asleep, the candidates before it. `Err` means that memory was refused.
pub fn asleep_at(
    alloc: Global,
    sleeps: bool,
    asleep: &[Step],
    candidates: &[Step],
    index: usize,
) -> Result<StepList, AllocError>
    requires { index ≤ length candidates.now }
    ensures { IfOk result (λ l. l ≡ put_off sleeps index candidates.now asleep.now) }
{
    let items = fallen(alloc, tried(sleeps, candidates, index), asleep)?;
    Ok(StepList { items })
}
