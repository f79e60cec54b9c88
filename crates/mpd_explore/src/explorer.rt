//! Exploring from a debugger's state.

ghost use Rattle.std.specs.Prelude.{◌≡◌, ◌+◌, ◌<◌, ◌≤◌, ◌⊎◌, true, false, [], ◌∷◌, ◌++◌, if◌then◌else◌, map, IfOk, OnOk, OnErr, IsTrue, length, reverse, string_bytes};
ghost use Rattle.std.specs.List.{AllByRecursion};
ghost use Rattle.mpd_model.specs.runs.Trail.{done_steps};
ghost use Rattle.mpd_trail.specs.Run.{first_of};
ghost use Rattle.mpd_trail.specs.DebuggerViews.{AsFound, standing_of};
ghost use Rattle.mpd_explore.specs.Report.{shown, listed, left_out};
ghost use Rattle.mpd_explore.specs.Gathered.{FoundLeaf, IsMore, Lists};
ghost use Rattle.mpd_explore.specs.Witness.{HasWitness, witness_by};
ghost use Rattle.mpd_explore.specs.WitnessTexts.{behind_number, witness_texts};
ghost use Rattle.mpd_explore.specs.Asked.{are_asked, asked_text};
ghost use Rattle.mpd_explore.specs.Sleeping.{awake_by, decides_by, walk_of};
ghost use Rattle.mpd_explore.specs.Search.{At, Safe, come, picked, search_by};

use crate::print::witness_here;
use crate::report::{ChoiceList, Ending, SearchLeaf, SearchLimits, SearchReport, Witnesses};
use crate::search::{Bounds, Frontier, Open, advance, seek};
use crate::watch::Watch;
use mpd_model::{STEPS_MAX, Step, StepList};
use mpd_policy::{Plain, Schedule, Wide, put_back};
use mpd_trail::Debugger;
use std::alloc::{AllocError, Global};

/// The candidates that are taken at the open choices.
fn choices_here(alloc: Global, stack: &[Open]) -> Result<ChoiceList, AllocError>
    ensures { IfOk result (λ c. c ≡ picked (reverse stack.now)) }
{
    let mut items = Vec::with_capacity(alloc, stack.len())?;
    for open in stack {
        items.push(open.index)?;
    }
    Ok(ChoiceList { items })
}

/// A leaf that ends so, with the candidates that are taken at the open choices.
fn leaf_here(alloc: Global, stack: &[Open], ending: Ending) -> Result<SearchLeaf, AllocError>
    ensures { IfOk result (λ l. (l.ending ≡ ending) × (l.choices ≡ picked (reverse stack.now))) }
{
    match choices_here(alloc, stack) {
        Ok(choices) => Ok(SearchLeaf { choices, ending }),
        Err(fault) => {
            drop(ending);
            Err(fault)
        }
    }
}

/// The first leaf from here: the candidates that its run takes, and how it ends; none if there is
/// no run any more.
fn next_leaf<S: Schedule>(
    alloc: Global,
    schedule: &S,
    debugger: &mut Debugger<'_>,
    bounds: Bounds,
    frontier: &mut Frontier,
) -> Result<Option<SearchLeaf>, AllocError>
    requires at { At (search_by S.decides S.same S.keeps bounds (first_of debugger.old.trail)) (reverse frontier.old.stack.items) (standing_of debugger.old) }
    requires few { bounds.limit ≤ STEPS_MAX }
    ensures found { IfOk result (λ o. FoundLeaf (search_by S.decides S.same S.keeps bounds (first_of debugger.old.trail)) (reverse frontier.old.stack.items) frontier.old.asleep (standing_of debugger.old) o (reverse frontier.new.stack.items) (standing_of debugger.new)) }
    ensures safe { Safe bounds.base (standing_of debugger.old) (standing_of debugger.new) }
{
    let Some(ending) = seek(alloc, schedule, debugger, bounds, frontier)? else {
        return Ok(None);
    };
    let leaf = leaf_here(alloc, &frontier.stack, ending)?;
    Ok(Some(leaf))
}

/// Whether there is a run from here.
fn is_more<S: Schedule>(
    alloc: Global,
    schedule: &S,
    debugger: &mut Debugger<'_>,
    bounds: Bounds,
    frontier: &mut Frontier,
) -> Result<bool, AllocError>
    requires at { At (search_by S.decides S.same S.keeps bounds (first_of debugger.old.trail)) (reverse frontier.old.stack.items) (standing_of debugger.old) }
    requires few { bounds.limit ≤ STEPS_MAX }
    ensures more { IfOk result (λ b. IsMore b (come (search_by S.decides S.same S.keeps bounds (first_of debugger.old.trail)) (reverse frontier.old.stack.items) frontier.old.asleep (standing_of debugger.old))) }
    ensures safe { Safe bounds.base (standing_of debugger.old) (standing_of debugger.new) }
{
    let Some(ending) = seek(alloc, schedule, debugger, bounds, frontier)? else {
        return Ok(false);
    };
    drop(ending);
    Ok(true)
}

/// Whether these are no steps.
fn is_none(steps: &StepList) -> bool
    ensures { result ≡ true → steps.now ≡ [] }
{
    steps.items.is_empty()
}

/// Whether there is a run from here. If nothing is asleep, there is.
fn is_left<S: Schedule>(
    alloc: Global,
    schedule: &S,
    debugger: &mut Debugger<'_>,
    bounds: Bounds,
    frontier: &mut Frontier,
) -> Result<bool, AllocError>
    requires at { At (search_by S.decides S.same S.keeps bounds (first_of debugger.old.trail)) (reverse frontier.old.stack.items) (standing_of debugger.old) }
    requires few { bounds.limit ≤ STEPS_MAX }
    ensures more { IfOk result (λ b. IsMore b (come (search_by S.decides S.same S.keeps bounds (first_of debugger.old.trail)) (reverse frontier.old.stack.items) frontier.old.asleep (standing_of debugger.old))) }
    ensures safe { Safe bounds.base (standing_of debugger.old) (standing_of debugger.new) }
{
    schedule.can_be_followed();
    if is_none(&frontier.asleep) {
        return Ok(true);
    }
    is_more(alloc, schedule, debugger, bounds, frontier)
}

/// Adds the text of the witness of a run that ends here so, if any are asked for: the empty one if
/// this one isn't.
fn add_text(
    alloc: Global,
    debugger: &Debugger<'_>,
    asked: Witnesses,
    ending: &Ending,
    texts: &mut Vec<String>,
) -> Result<(), AllocError>
    ensures { OnOk result (map string_bytes texts.new.items ≡ map string_bytes texts.old.items ++ (if are_asked asked then asked_text asked ending.now (behind_number (witness_by (done_steps debugger.now.trail) ending.now)) ∷ [] else [])) }
{
    if !asked.are_asked() {
        return Ok(());
    }
    let text = witness_here(alloc, debugger, asked, ending)?;
    texts.push(text)?;
    Ok(())
}

/// Adds a leaf, at which the debugger stands, to a report, and the text of its witness, if any are
/// asked for.
fn list_leaf(
    alloc: Global,
    debugger: &Debugger<'_>,
    asked: Witnesses,
    leaf: SearchLeaf,
    report: &mut SearchReport,
) -> Result<(), AllocError>
    ensures leaves { OnOk result (report.new.leaves.items ≡ report.old.leaves.items ++ leaf ∷ []) }
    ensures texts { OnOk result (map string_bytes report.new.witnesses.items ≡ map string_bytes report.old.witnesses.items ++ (if are_asked asked then asked_text asked leaf.ending (behind_number (witness_by (done_steps debugger.now.trail) leaf.ending)) ∷ [] else [])) }
{
    if let Err(fault) = add_text(alloc, debugger, asked, &leaf.ending, &mut report.witnesses) {
        drop(leaf);
        return Err(fault);
    }
    report.leaves.push(leaf)?;
    Ok(())
}

/// Gathers the leaves from here that are to be listed, and tells `watch` of each as it is found. No
/// leaf is gathered and no choice is open before. Returns whether there are others. On return the
/// debugger may be at any state from the base on.
fn gather<S: Schedule, W: Watch>(
    alloc: Global,
    schedule: &S,
    debugger: &mut Debugger<'_>,
    bounds: Bounds,
    limits: SearchLimits,
    frontier: &mut Frontier,
    report: &mut SearchReport,
    watch: &mut W,
) -> Result<bool, AllocError>
    requires at { At (search_by S.decides S.same S.keeps bounds (first_of debugger.old.trail)) [] (standing_of debugger.old) }
    requires few { bounds.limit ≤ STEPS_MAX }
    requires none_open { frontier.old.stack.items ≡ [] }
    requires none_told { report.old.leaves.items ≡ [] }
    requires none_written { report.old.witnesses.items ≡ [] }
    ensures lists { IfOk result (λ more. Lists limits (come (search_by S.decides S.same S.keeps bounds (first_of debugger.old.trail)) [] frontier.old.asleep (standing_of debugger.old)) report.new.leaves.items (map string_bytes report.new.witnesses.items) more) }
    ensures safe { Safe bounds.base (standing_of debugger.old) (standing_of debugger.new) }
{
    for turn in 0..limits.runs {
        let Some(leaf) = next_leaf(alloc, schedule, debugger, bounds, frontier)? else {
            return Ok(false);
        };
        let is_last = limits.ends_with(&leaf);
        list_leaf(alloc, debugger, limits.witnesses, leaf, report)?;
        watch.leaf(turn + 1);
        let has_next = advance(alloc, schedule, debugger, bounds, frontier)?;
        if !has_next {
            return Ok(false);
        }
        if is_last {
            let is_left = is_left(alloc, schedule, debugger, bounds, frontier)?;
            return Ok(is_left);
        }
    }
    let is_left = is_left(alloc, schedule, debugger, bounds, frontier)?;
    Ok(is_left)
}

/// The leaves from here that are to be listed, while these steps are asleep, one at least, each
/// told as it is found, and whether there are others. On return the debugger may be at any state
/// from the base on.
fn collect<S: Schedule, W: Watch>(
    alloc: Global,
    schedule: &S,
    debugger: &mut Debugger<'_>,
    bounds: Bounds,
    asleep: StepList,
    limits: SearchLimits,
    watch: &mut W,
) -> Result<SearchReport, AllocError>
    requires at { At (search_by S.decides S.same S.keeps bounds (first_of debugger.old.trail)) [] (standing_of debugger.old) }
    requires few { bounds.limit ≤ STEPS_MAX }
    ensures lists { IfOk result (λ r. Lists limits (come (search_by S.decides S.same S.keeps bounds (first_of debugger.old.trail)) [] asleep (standing_of debugger.old)) r.leaves.items (map string_bytes r.witnesses.items) r.more) }
    ensures safe { Safe bounds.base (standing_of debugger.old) (standing_of debugger.new) }
{
    let mut frontier = Frontier {
        stack: Vec::new(alloc),
        asleep,
    };
    let mut report = SearchReport {
        leaves: Vec::new(alloc),
        more: false,
        witnesses: Vec::new(alloc),
    };
    let gathered = gather(
        alloc,
        schedule,
        debugger,
        bounds,
        limits,
        &mut frontier,
        &mut report,
        watch,
    );
    drop(frontier);
    match gathered {
        Ok(more) => {
            report.more = more;
            Ok(report)
        }
        Err(fault) => {
            drop(report);
            Err(fault)
        }
    }
}

/// Some steps.
fn copied(alloc: Global, steps: &[Step]) -> Result<StepList, AllocError>
    ensures { IfOk result (λ l. l ≡ steps.now) }
{
    let items = Vec::from_slice(alloc, steps)?;
    Ok(StepList { items })
}

/// The report that lists no leaf: there are others, since from each state there is a run.
fn nothing_listed(alloc: Global) -> SearchReport
    ensures leaves { result.leaves.items ≡ [] }
    ensures more { IsTrue result.more }
    ensures witnesses { result.witnesses.items ≡ [] }
{
    SearchReport {
        leaves: Vec::new(alloc),
        more: true,
        witnesses: Vec::new(alloc),
    }
}

/// Whether no leaf is asked for, and nothing is asleep.
fn is_idle(limits: SearchLimits, asleep: &[Step]) -> bool
    ensures idle { result ≡ true → (limits.runs ≡ 0) × (asleep.now ≡ []) }
    ensures busy { result ≡ false → (0 < limits.runs) ⊎ (0 < length asleep.now) }
{
    limits.runs == 0 && asleep.is_empty()
}

/// The leaves from here that are to be listed, each told as it is found, and whether there are
/// others. On return the debugger may be at any state from the base on.
fn find<S: Schedule, W: Watch>(
    alloc: Global,
    schedule: &S,
    debugger: &mut Debugger<'_>,
    bounds: Bounds,
    asleep: &[Step],
    limits: SearchLimits,
    watch: &mut W,
) -> Result<SearchReport, AllocError>
    requires at { At (search_by S.decides S.same S.keeps bounds (first_of debugger.old.trail)) [] (standing_of debugger.old) }
    requires few { bounds.limit ≤ STEPS_MAX }
    ensures lists { IfOk result (λ r. Lists limits (come (search_by S.decides S.same S.keeps bounds (first_of debugger.old.trail)) [] asleep.now (standing_of debugger.old)) r.leaves.items (map string_bytes r.witnesses.items) r.more) }
    ensures safe { Safe bounds.base (standing_of debugger.old) (standing_of debugger.new) }
    ensures memory { OnErr result ((0 < limits.runs) ⊎ (0 < length asleep.now)) }
{
    schedule.can_be_followed();
    if is_idle(limits, asleep) {
        let report = nothing_listed(alloc);
        return Ok(report);
    }
    let own = copied(alloc, asleep)?;
    let report = collect(alloc, schedule, debugger, bounds, own, limits, watch)?;
    Ok(report)
}

/// The first leaves of the runs from here along a schedule, with a sleep set at the start, and
/// whether there are others. It is as `explore` in all else. No choice takes one of these steps
/// before it wakes, whether tried candidates fall asleep too (`ends`) or not; a forced step is
/// taken all the same (docs/DEFINITIONS.md, "What a walk says of all runs"). There may be no run,
/// and then none is listed. `Err` means that memory was refused, which happens only if a leaf is
/// asked for, or a step is asleep.
pub fn explore_with<S: Schedule, W: Watch>(
    alloc: Global,
    schedule: &S,
    debugger: &mut Debugger<'_>,
    asleep: &[Step],
    limits: SearchLimits,
    watch: &mut W,
) -> Result<SearchReport, AllocError>
    requires clean { length debugger.old.trail.steps ≡ debugger.old.trail.depth }
    requires fits { debugger.old.trail.depth + limits.fuel ≤ STEPS_MAX }
    ensures leaves { IfOk result (λ r. r.leaves.items ≡ listed limits (map shown (awake_by S.decides S.same S.keeps limits.ends limits.fuel asleep.now debugger.old.world))) }
    ensures more { IfOk result (λ r. r.more ≡ left_out limits (map shown (awake_by S.decides S.same S.keeps limits.ends limits.fuel asleep.now debugger.old.world))) }
    ensures witnesses { IfOk result (λ r. AllByRecursion (HasWitness S.decides debugger.old.trail.program debugger.old.trail.mode (done_steps debugger.old.trail) limits.fuel debugger.old.world) r.leaves.items) }
    ensures texts { IfOk result (λ r. map string_bytes r.witnesses.items ≡ witness_texts S.decides limits.witnesses (done_steps debugger.old.trail) limits.fuel debugger.old.world r.leaves.items) }
    ensures as_found { AsFound (standing_of debugger.old) (standing_of debugger.new) }
    ensures memory { OnErr result ((0 < limits.runs) ⊎ (0 < length asleep.now)) }
{
    schedule.can_be_followed();
    debugger.state_is_reached();
    let base = debugger.depth();
    let bounds = Bounds {
        base,
        limit: base + limits.fuel,
        sleeps: limits.ends,
    };
    let found = find(alloc, schedule, debugger, bounds, asleep, limits, watch);
    put_back(debugger, base);
    found
}

/// The first leaves of the runs from here, in the order of their choices, and whether there are
/// others (docs/DEFINITIONS.md, "Runs of a script"). At most `runs` leaves are listed. With
/// `until_bad` the list ends with the first deadlock or trap; after it, only whether there is
/// another run is looked for. With `ends` the runs are those of the wide walk, which takes two
/// steps that do not conflict in one order alone ("What a walk says of all runs" there); a leaf's
/// choices then number all candidates of a wide choice, also those that are asleep. Fuel counts
/// from here. The debugger is left as found, also on `Err`, which means that memory was refused;
/// this happens only if a leaf is asked for. Requires that no step is undone, and that depth and
/// fuel together are at most 1,000,000 steps. Each leaf has a run, and each deadlock and each trap
/// a witness, which `witness_of` makes and `verify_end` accepts; `witnesses` says the texts of which
/// ones are made as the leaves are found. `watch` is told of each leaf as it is found: once, in order, with how
/// many there are so far; nothing else depends on it.
pub fn explore_watched<W: Watch>(
    alloc: Global,
    debugger: &mut Debugger<'_>,
    limits: SearchLimits,
    watch: &mut W,
) -> Result<SearchReport, AllocError>
    requires clean { length debugger.old.trail.steps ≡ debugger.old.trail.depth }
    requires fits { debugger.old.trail.depth + limits.fuel ≤ STEPS_MAX }
    ensures leaves { IfOk result (λ r. r.leaves.items ≡ listed limits (map shown (walk_of limits debugger.old.world))) }
    ensures more { IfOk result (λ r. r.more ≡ left_out limits (map shown (walk_of limits debugger.old.world))) }
    ensures witnesses { IfOk result (λ r. AllByRecursion (HasWitness (decides_by limits.ends) debugger.old.trail.program debugger.old.trail.mode (done_steps debugger.old.trail) limits.fuel debugger.old.world) r.leaves.items) }
    ensures texts { IfOk result (λ r. map string_bytes r.witnesses.items ≡ witness_texts (decides_by limits.ends) limits.witnesses (done_steps debugger.old.trail) limits.fuel debugger.old.world r.leaves.items) }
    ensures as_found { AsFound (standing_of debugger.old) (standing_of debugger.new) }
    ensures memory { OnErr result (0 < limits.runs) }
{
    if limits.ends {
        return explore_with(alloc, &Wide, debugger, &[], limits, watch);
    }
    explore_with(alloc, &Plain, debugger, &[], limits, watch)
}
