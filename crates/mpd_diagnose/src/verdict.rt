//! What a diagnosis comes to (docs/FORMATS.md, "Diagnosis").

ghost use Rattle.std.specs.Prelude.{◌≡◌};
ghost use Rattle.mpd_diagnose.specs.Verdicts as spec;

use crate::diagnosis::Diagnosis;
use mpd_lines::Verdict;
use mpd_runs::{WayCounts, is_count, sees_all};

/// How many steps a run has at most that is drawn: no step shows more than 17 glyphs, and 20,000
/// can be drawn (docs/PICTURES.md).
const PICTURED_STEPS: usize = 1_000;

/// Whether no run hangs or traps.
pub fn ends_well(counts: WayCounts) -> bool
    ensures { result ≡ spec.ends_well counts }
{
    is_count(counts.deadlock, 0) && is_count(counts.trap, 0)
}

/// Whether no run hangs or traps, of all there are.
pub fn never_fails(counts: WayCounts) -> bool
    ensures { result ≡ spec.never_fails counts }
{
    ends_well(counts) && sees_all(counts)
}

/// Whether every run hangs or traps.
pub fn always_fails(counts: WayCounts) -> bool
    ensures { result ≡ spec.always_fails counts }
{
    sees_all(counts) && is_count(counts.done, 0) && is_count(counts.leftovers, 0)
}

/// Whether every run hangs.
pub fn always_hangs(counts: WayCounts) -> bool
    ensures { result ≡ spec.always_hangs counts }
{
    always_fails(counts) && is_count(counts.trap, 0) && !is_count(counts.deadlock, 0)
}

/// Whether every run traps.
pub fn always_traps(counts: WayCounts) -> bool
    ensures { result ≡ spec.always_traps counts }
{
    always_fails(counts) && is_count(counts.deadlock, 0) && !is_count(counts.trap, 0)
}

/// Whether every run fails, and some hang and some trap.
pub fn fails_both(counts: WayCounts) -> bool
    ensures { result ≡ spec.fails_both counts }
{
    always_fails(counts) && !is_count(counts.deadlock, 0) && !is_count(counts.trap, 0)
}

/// Whether runs are drawn: there are more than these, and none of these hangs or traps.
pub fn draws(counts: WayCounts) -> bool
    ensures { result ≡ spec.draws counts }
{
    counts.more && ends_well(counts)
}

/// Whether other modes are tried next: no run of this one hangs or traps, or every run does.
pub fn tries_modes(counts: WayCounts) -> bool
    ensures { result ≡ spec.tries_modes counts }
{
    never_fails(counts) || always_fails(counts)
}

/// Whether a run of so many steps is drawn.
pub fn is_drawn(steps: usize) -> bool
    ensures { result ≡ spec.is_drawn steps }
{
    steps <= PICTURED_STEPS
}

/// Whether a run ends with calls left over.
fn leaves_some(counts: WayCounts) -> bool
    ensures { result ≡ spec.leaves_some counts }
{
    !is_count(counts.leftovers, 0)
}

/// The same of runs that were drawn, where some were.
fn leaves_if(drawn: Option<WayCounts>) -> bool
    ensures { result ≡ spec.leaves_if drawn }
{
    match drawn {
        None => false,
        Some(counts) => leaves_some(counts),
    }
}

/// Whether a run ends with calls left over, one that was drawn among them.
pub fn leaves(diagnosis: &Diagnosis) -> bool
    ensures { result ≡ spec.leaves diagnosis.now.found.counts (spec.drawn_counts diagnosis.now.drawn) }
{
    leaves_some(diagnosis.found.counts) || leaves_if(drawn_counts(diagnosis))
}

/// Whether a run ends with calls left over, where that is asked for.
fn is_untidy(counts: WayCounts, strict: bool) -> bool
    ensures { result ≡ spec.is_untidy strict counts }
{
    strict && leaves_some(counts)
}

/// Whether a run hangs or traps, or ends with calls left over where that is asked for.
fn is_bad(counts: WayCounts, strict: bool) -> bool
    ensures { result ≡ spec.is_bad strict counts }
{
    !ends_well(counts) || is_untidy(counts, strict)
}

/// The same of runs that were drawn, where some were.
fn is_bad_if(drawn: Option<WayCounts>, strict: bool) -> bool
    ensures { result ≡ spec.is_bad_if strict drawn }
{
    match drawn {
        None => false,
        Some(counts) => is_bad(counts, strict),
    }
}

/// How many runs that were drawn end in each way, if some were.
pub fn drawn_counts(diagnosis: &Diagnosis) -> Option<WayCounts>
    ensures { result ≡ spec.drawn_counts diagnosis.now.drawn }
{
    match &diagnosis.drawn {
        None => None,
        Some(runs) => Some(runs.counts),
    }
}

/// The verdict on a script that is diagnosed: bad where a run hangs or traps, one that was drawn
/// among them, or where one ends with calls left over and `strict` says that this is asked for;
/// else not whole where there are more runs, or one is cut; else good.
pub fn verdict_of(diagnosis: &Diagnosis, strict: bool) -> Verdict
    ensures { result ≡ spec.verdict_of strict diagnosis.now.found.counts (spec.drawn_counts diagnosis.now.drawn) }
{
    if is_bad(diagnosis.found.counts, strict) {
        return Verdict::Bad;
    }
    if is_bad_if(drawn_counts(diagnosis), strict) {
        return Verdict::Bad;
    }
    if sees_all(diagnosis.found.counts) {
        return Verdict::Good;
    }
    Verdict::NotWhole
}
