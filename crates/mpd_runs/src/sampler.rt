//! Sampling from a debugger's state.

ghost use Rattle.std.specs.Prelude.{◌≡◌, ◌+◌, ◌<◌, ◌≤◌, ℕ, true, false, List, [], length, map, take, nat_lt, IfOk, OnOk, OnErr, string_bytes};
ghost use Rattle.std.specs.List.{AllByRecursion, position};
ghost use Rattle.mpd_model.specs.runs.Trail.{done_steps, gone_back, forgotten};
ghost use Rattle.mpd_trail.specs.DebuggerViews.{AsFound, standing_of};
ghost use Rattle.mpd_policy.specs.Wide.{wide_decision};
ghost use Rattle.mpd_policy.specs.Walk.{wide_walk};
ghost use Rattle.mpd_explore.specs.declared.report.SearchLeaf as leaves;
ghost use Rattle.mpd_explore.specs.Report.{shown, is_bad, up_to_bad, ended_by};
ghost use Rattle.mpd_explore.specs.Witness.{HasWitness};
ghost use Rattle.mpd_explore.specs.WitnessTexts.{witness_texts};
ghost use Rattle.mpd_explore.specs.Asked.{are_asked};
ghost use Rattle.mpd_runs.specs.Order.{Rises};
ghost use Rattle.mpd_runs.specs.Drawn.{seeded, draws, sampled, is_listed};
ghost use Rattle.mpd_policy.specs.Walks.{Beyond};
ghost use Rattle.mpd_runs.specs.Drawing.{IsEven, TextsAre, Adds, Samples, leaves_in, texts_in};

use crate::draw::draw_leaf;
use crate::keep::{Held, keep_leaf, report_of};
use mpd_explore::{
    SearchLeaf, SearchLimits, SearchReport, Unwatched, Watch, Witnesses, explore_with,
};
use mpd_model::STEPS_MAX;
use mpd_policy::{Wide, put_back, wide_decisions_can_be_followed};
use mpd_trail::Debugger;
use rand::{Rng, SeedableRng};
use rand_pcg::Pcg64;
use std::alloc::{AllocError, Global};

/// Draws a run, and adds its leaf to those held. Returns whether the drawing ends after it. On
/// return the debugger may be at any later state.
fn draw_into<R: Rng>(
    alloc: Global,
    debugger: &mut Debugger<'_>,
    limits: SearchLimits,
    random: &mut R,
    held: &mut Held,
) -> Result<bool, AllocError>
    requires fits { debugger.old.trail.depth + limits.fuel ≤ STEPS_MAX }
    requires rises { Rises (leaves_in held.old.leaves) }
    requires even { IsEven (are_asked limits.witnesses) (leaves_in held.old.leaves) (texts_in held.old.texts) }
    ensures adds { IfOk result (λ last. Adds limits (standing_of debugger.old) (R.stream random.old) (leaves_in held.old.leaves) (texts_in held.old.texts) last (leaves_in held.new.leaves) (texts_in held.new.texts) (R.stream random.new)) }
    ensures beyond { Beyond (standing_of debugger.old) (standing_of debugger.new) }
{
    let leaf = draw_leaf(alloc, debugger, limits.fuel, random)?;
    let is_last = limits.ends_with(&leaf);
    keep_leaf(alloc, debugger, limits.witnesses, leaf, held)?;
    Ok(is_last)
}

/// Draws a run, adds its leaf to those held, and goes back. Returns whether the drawing ends after
/// it.
fn add_run<R: Rng>(
    alloc: Global,
    debugger: &mut Debugger<'_>,
    limits: SearchLimits,
    random: &mut R,
    held: &mut Held,
) -> Result<bool, AllocError>
    requires clean { length debugger.old.trail.steps ≡ debugger.old.trail.depth }
    requires fits { debugger.old.trail.depth + limits.fuel ≤ STEPS_MAX }
    requires rises { Rises (leaves_in held.old.leaves) }
    requires even { IsEven (are_asked limits.witnesses) (leaves_in held.old.leaves) (texts_in held.old.texts) }
    ensures adds { IfOk result (λ last. Adds limits (standing_of debugger.old) (R.stream random.old) (leaves_in held.old.leaves) (texts_in held.old.texts) last (leaves_in held.new.leaves) (texts_in held.new.texts) (R.stream random.new)) }
    ensures as_found { AsFound (standing_of debugger.old) (standing_of debugger.new) }
{
    debugger.state_is_reached();
    let base = debugger.depth();
    let added = draw_into(alloc, debugger, limits, random, held);
    put_back(debugger, base);
    added
}

/// Draws runs, and adds each to those held, of which there is none.
fn gather<R: Rng, W: Watch>(
    alloc: Global,
    debugger: &mut Debugger<'_>,
    limits: SearchLimits,
    random: &mut R,
    held: &mut Held,
    watch: &mut W,
) -> Result<(), AllocError>
    requires clean { length debugger.old.trail.steps ≡ debugger.old.trail.depth }
    requires fits { debugger.old.trail.depth + limits.fuel ≤ STEPS_MAX }
    requires none_told { held.old.leaves.items ≡ [] }
    requires none_written { held.old.texts.items ≡ [] }
    ensures samples { OnOk result (Samples limits (done_steps debugger.old.trail) debugger.old.world (R.stream random.old) (leaves_in held.new.leaves) (texts_in held.new.texts)) }
    ensures as_found { AsFound (standing_of debugger.old) (standing_of debugger.new) }
    ensures memory { OnErr result (0 < limits.runs) }
{
    debugger.state_is_reached();
    for turn in 0..limits.runs {
        let is_last = add_run(alloc, debugger, limits, random, held)?;
        watch.leaf(turn + 1);
        if is_last {
            return Ok(());
        }
    }
    Ok(())
}

/// The leaves of a sample, each once, and not whether there are others.
fn collect<W: Watch>(
    alloc: Global,
    debugger: &mut Debugger<'_>,
    seed: u64,
    limits: SearchLimits,
    watch: &mut W,
) -> Result<SearchReport, AllocError>
    requires clean { length debugger.old.trail.steps ≡ debugger.old.trail.depth }
    requires fits { debugger.old.trail.depth + limits.fuel ≤ STEPS_MAX }
    ensures samples { IfOk result (λ r. Samples limits (done_steps debugger.old.trail) debugger.old.world (seeded seed) r.leaves.items (map string_bytes r.witnesses.items)) }
    ensures as_found { AsFound (standing_of debugger.old) (standing_of debugger.new) }
    ensures memory { OnErr result (0 < limits.runs) }
{
    let mut random = Pcg64::seed_from_u64(seed);
    let mut held = Held::new(alloc);
    match gather(alloc, debugger, limits, &mut random, &mut held, watch) {
        Ok(()) => report_of(alloc, held),
        Err(fault) => {
            drop(held);
            Err(fault)
        }
    }
}

/// Where the first deadlock or trap stands.
fn place_of_bad(leaves: &[SearchLeaf]) -> Option<usize>
    ensures { result ≡ position (λ l. is_bad l.ending) leaves.now }
{
    leaves.iter().position(|leaf| leaf.is_bad())
}

/// How many leaves stand up to the first deadlock or trap, and with it; all of them if there is none.
#[tactic(auto, using(crate::proofs::UntilLemmas::up_to_found, crate::proofs::UntilLemmas::up_to_all))]
fn count_to_bad(leaves: &[SearchLeaf]) -> usize
    ensures { up_to_bad leaves.now ≡ take result leaves.now }
{
    match place_of_bad(leaves) {
        Some(place) => place + 1,
        None => leaves.len(),
    }
}

/// Ends a report after its first deadlock or trap, if that is asked for.
fn end_at_bad(limits: SearchLimits, report: &mut SearchReport)
    ensures leaves { report.new.leaves.items ≡ ended_by limits.until_bad report.old.leaves.items }
    ensures texts { (text : leaves.SearchLeaf → List ℕ) → TextsAre (are_asked limits.witnesses) text report.old.leaves.items (map string_bytes report.old.witnesses.items) → TextsAre (are_asked limits.witnesses) text report.new.leaves.items (map string_bytes report.new.witnesses.items) }
{
    if !limits.until_bad {
        return;
    }
    let count = count_to_bad(&report.leaves);
    report.leaves.truncate(count);
    report.witnesses.truncate(count);
}

/// Whether there are more runs of the wide walk from here than `count`.
fn has_more(
    alloc: Global,
    debugger: &mut Debugger<'_>,
    limits: SearchLimits,
    count: usize,
) -> Result<bool, AllocError>
    requires clean { length debugger.old.trail.steps ≡ debugger.old.trail.depth }
    requires fits { debugger.old.trail.depth + limits.fuel ≤ STEPS_MAX }
    ensures more { IfOk result (λ more. more ≡ nat_lt count (length (wide_walk limits.fuel debugger.old.world))) }
    ensures as_found { AsFound (standing_of debugger.old) (standing_of debugger.new) }
    ensures memory { OnErr result (0 < count) }
{
    let mut asked = limits;
    asked.runs = count;
    asked.witnesses = Witnesses::OfNone;
    asked.until_bad = false;
    asked.ends = false;
    let listed = explore_with(alloc, &Wide, debugger, &[], asked, &mut Unwatched)?;
    let more = listed.more;
    drop(listed);
    Ok(more)
}

/// A sample of the runs of the wide walk from here, in which no step is asleep: `runs` of them are
/// drawn, one after another. At each choice of a run each candidate is equally likely, by a
/// generator that is seeded with `seed`. The report has each different list of choices once, in the
/// order of the walk, and `more` says whether the walk has others. With `until_bad` the drawing
/// ends with the first run drawn that ends in a deadlock or a trap, and so does the report. Fuel
/// counts from here. The debugger is left as found, also on `Err`, which means that memory was
/// refused; this happens only if a run is asked for. Requires that no step is undone, and that
/// depth and fuel together are at most 1,000,000 steps. Each leaf has a run, and each deadlock and
/// each trap a witness; `witnesses` says the texts of which ones are made as the runs are drawn.
/// `watch` is told of each run that is drawn, with how many there are so far; nothing else depends
/// on it.
pub fn sample<W: Watch>(
    alloc: Global,
    debugger: &mut Debugger<'_>,
    seed: u64,
    limits: SearchLimits,
    watch: &mut W,
) -> Result<SearchReport, AllocError>
    requires clean { length debugger.old.trail.steps ≡ debugger.old.trail.depth }
    requires fits { debugger.old.trail.depth + limits.fuel ≤ STEPS_MAX }
    ensures leaves { IfOk result (λ r. r.leaves.items ≡ ended_by limits.until_bad (map shown (sampled (draws limits.until_bad limits.fuel limits.runs debugger.old.world (seeded seed)) limits.fuel debugger.old.world))) }
    ensures drawn { IfOk result (λ r. limits.until_bad ≡ false → AllByRecursion (λ cs. is_listed r.leaves.items cs ≡ true) (draws limits.until_bad limits.fuel limits.runs debugger.old.world (seeded seed))) }
    ensures rises { IfOk result (λ r. Rises r.leaves.items) }
    ensures few { IfOk result (λ r. length r.leaves.items ≤ limits.runs) }
    ensures some { IfOk result (λ r. 0 < limits.runs → 0 < length r.leaves.items) }
    ensures more { IfOk result (λ r. r.more ≡ nat_lt (length r.leaves.items) (length (wide_walk limits.fuel debugger.old.world))) }
    ensures all { IfOk result (λ r. r.more ≡ false → r.leaves.items ≡ map shown (wide_walk limits.fuel debugger.old.world)) }
    ensures witnesses { IfOk result (λ r. AllByRecursion (HasWitness wide_decision debugger.old.trail.program debugger.old.trail.mode (done_steps debugger.old.trail) limits.fuel debugger.old.world) r.leaves.items) }
    ensures texts { IfOk result (λ r. map string_bytes r.witnesses.items ≡ witness_texts wide_decision limits.witnesses (done_steps debugger.old.trail) limits.fuel debugger.old.world r.leaves.items) }
    ensures as_found { AsFound (standing_of debugger.old) (standing_of debugger.new) }
    ensures memory { OnErr result (0 < limits.runs) }
{
    wide_decisions_can_be_followed();
    debugger.state_is_reached();
    let mut report = collect(alloc, debugger, seed, limits, watch)?;
    end_at_bad(limits, &mut report);
    match has_more(alloc, debugger, limits, report.leaves.len()) {
        Ok(more) => {
            report.more = more;
            Ok(report)
        }
        Err(fault) => {
            drop(report);
            Err(fault)
        }
    }
}
