//! The ways that the runs of a script end.

ghost use Rattle.std.specs.Prelude.{◌≡◌, ◌+◌, ◌-◌, ◌≤◌, ◌<◌, ◌++◌, true, false, IfOk, OnOk, OnErr, IsSome, [], length, map, replicate, reverse, string_bytes};
ghost use Rattle.std.specs.List.{AllByRecursion, list_any};
ghost use Rattle.mpd_model.specs.runs.Trail.{done_steps};
ghost use Rattle.mpd_model.specs.steps.World.{World};
ghost use Rattle.mpd_trail.specs.DebuggerViews.{AsFound, standing_of};
ghost use Rattle.mpd_policy.specs.Wide.{wide_decision};
ghost use Rattle.mpd_policy.specs.Walk.{run_by};
ghost use Rattle.mpd_policy.specs.Walks.{Beyond};
ghost use Rattle.mpd_explore.specs.Search.{Safe};
ghost use Rattle.mpd_explore.specs.Witness.{HasWitness};
ghost use Rattle.mpd_explore.specs.WitnessTexts.{witness_text, witness_texts};
ghost use Rattle.mpd_outcomes.specs.declared.report.Count.TheVariants as count_is;
ghost use Rattle.mpd_outcomes.specs.Outcomes.{plus, TellsRuns};
ghost use Rattle.mpd_outcomes.specs.Sums.{added};
ghost use Rattle.mpd_outcomes.specs.Gathered.{gathered, gathered_total};
ghost use Rattle.mpd_outcomes.specs.Table.{NothingKept};
ghost use Rattle.mpd_outcomes.specs.Front.{search_of, BeforeIn};
ghost use Rattle.mpd_outcomes.specs.Goals.{meets_any, StopsAt, StopsFor, StopsRuns};

use crate::report::{Outcomes, StateLimits};
use crate::search::{Bounds, Front, Open, Reach, search};
use crate::sums::{Sums, Tally, pad};
use crate::table::Table;
use mpd_explore::{SearchLeaf, SearchReport, Witnesses, witness_here};
use mpd_model::STEPS_MAX;
use mpd_policy::{Wide, follow, put_back, wide_decisions_can_be_followed};
use mpd_trail::Debugger;
use std::alloc::{AllocError, Global};
use std::mem;

/// What is known of the runs around an open choice.
fn outer_of(choice: Open) -> Sums
    ensures { result ≡ choice.outer }
{
    let Open {
        depth: _,
        candidates,
        index: _,
        key,
        outer,
    } = choice;
    drop(candidates);
    drop(key);
    outer
}

/// Puts what is told of some runs before what is told of others. `Err` means that memory was
/// refused, which happens only if counts are told of these.
fn join(all: &mut Tally, level: Sums) -> Result<(), AllocError>
    ensures counts { OnOk result (all.new.counts.items ≡ added level.tally.counts.items all.old.counts.items) }
    ensures total { OnOk result (all.new.total ≡ plus level.tally.total all.old.total) }
    ensures memory { OnErr result (0 < length all.old.counts.items) }
{
    let Sums {
        mut tally,
        deepest: _,
    } = level;
    if let Err(fault) = tally.add(all) {
        drop(tally);
        return Err(fault);
    }
    drop(mem::replace(all, tally));
    Ok(())
}

/// What is told of all runs that were come to: those by the candidates that were tried at each open
/// choice. `Err` means that memory was refused, which happens only if a choice is open.
fn gather(alloc: Global, front: &mut Front) -> Result<Tally, AllocError>
    ensures counts { IfOk result (λ t. t.counts.items ≡ gathered (reverse front.old.stack.items) front.old.sums.tally.counts.items []) }
    ensures total { IfOk result (λ t. t.total ≡ gathered_total (reverse front.old.stack.items) front.old.sums.tally.total (count_is.Exactly 0)) }
    ensures ways { front.new.ways ≡ front.old.ways }
    ensures memory { OnErr result (0 < length front.old.stack.items) }
{
    let mut all = Tally::none(alloc);
    while let Some(open) = front.stack.pop() {
        let outer = outer_of(open);
        let level = mem::replace(&mut front.sums, outer);
        join(&mut all, level)?;
    }
    front.sums.tally.add(&all)?;
    drop(all);
    Ok(mem::replace(&mut front.sums.tally, Tally::none(alloc)))
}

/// What is told if a search has stopped. `Err` means that memory was refused, which happens only if
/// a choice is open or a way is found.
fn told_at(alloc: Global, front: &mut Front, reach: Reach) -> Result<Outcomes, AllocError>
    ensures leaves { IfOk result (λ o. o.firsts.leaves.items ≡ front.old.ways.items) }
    ensures more { IfOk result (λ o. o.firsts.more ≡ reach.more) }
    ensures counts { IfOk result (λ o. o.counts.items ≡ gathered (reverse front.old.stack.items) front.old.sums.tally.counts.items [] ++ replicate (length front.old.ways.items - length (gathered (reverse front.old.stack.items) front.old.sums.tally.counts.items [])) (count_is.Exactly 0)) }
    ensures total { IfOk result (λ o. o.total ≡ gathered_total (reverse front.old.stack.items) front.old.sums.tally.total (count_is.Exactly 0)) }
    ensures texts { IfOk result (λ o. o.firsts.witnesses.items ≡ []) }
    ensures visited { IfOk result (λ o. o.visited ≡ reach.visited) }
    ensures memory { OnErr result (0 < length front.old.stack.items + length front.old.ways.items) }
{
    let Tally { mut counts, total } = gather(alloc, front)?;
    pad(&mut counts, front.ways.len())?;
    let leaves = mem::replace(&mut front.ways, Vec::new(alloc));
    Ok(Outcomes {
        firsts: SearchReport {
            leaves,
            more: reach.more,
            witnesses: Vec::new(alloc),
        },
        counts,
        total,
        visited: reach.visited,
    })
}

/// Where a search begins at a depth, with nothing told and nothing kept.
fn beginning(alloc: Global, depth: usize, kept: usize) -> Front
    ensures stack { result.stack.items ≡ [] }
    ensures ways { result.ways.items ≡ [] }
    ensures counts { result.sums.tally.counts.items ≡ [] }
    ensures total { result.sums.tally.total ≡ count_is.Exactly 0 }
    ensures table { NothingKept result.table }
{
    Front {
        stack: Vec::new(alloc),
        sums: Sums {
            tally: Tally::none(alloc),
            deepest: depth,
        },
        ways: Vec::new(alloc),
        table: Table::new(alloc, kept),
    }
}

/// What is told of the runs that a search comes to, to where it stops. On return the debugger may
/// be at any state from the base on. `Err` means that memory was refused, which happens only if the
/// search may visit a state, or a choice is open, or a way is found.
fn find_in(
    alloc: Global,
    debugger: &mut Debugger<'_>,
    bounds: Bounds,
    limits: StateLimits,
    front: &mut Front,
) -> Result<Outcomes, AllocError>
    requires stands { (root : World) × BeforeIn (search_of bounds debugger.old.trail root) front.old (standing_of debugger.old) }
    requires few { bounds.limit ≤ STEPS_MAX }
    requires unmet { list_any (meets_any limits.until) front.old.ways.items ≡ false }
    ensures texts { IfOk result (λ o. o.firsts.witnesses.items ≡ []) }
    ensures stops { IfOk result (λ o. StopsAt limits.until o.firsts.leaves.items) }
    ensures last { (root : World) → BeforeIn (search_of bounds debugger.old.trail root) front.old (standing_of debugger.old) → IfOk result (λ o. StopsRuns limits.until (bounds.limit - bounds.base) root o) }
    ensures limit { IfOk result (λ o. StopsFor limits o.firsts.more o.visited o.firsts.leaves.items) }
    ensures some { IfOk result (λ o. 0 < limits.visited → 0 < o.visited) }
    ensures none { IfOk result (λ o. limits.visited ≡ 0 → (o.firsts.leaves.items ≡ front.old.ways.items) × (o.firsts.more ≡ true)) }
    ensures memory { OnErr result (0 < limits.visited + length front.old.stack.items + length front.old.ways.items) }
    ensures safe { Safe bounds.base (standing_of debugger.old) (standing_of debugger.new) }
{
    wide_decisions_can_be_followed();
    let reach = search(alloc, debugger, bounds, limits, front)?;
    let outcomes = told_at(alloc, front, reach)?;
    Ok(outcomes)
}

/// The ways that the runs from here end. On return the debugger may be at any state from the base
/// on. `Err` means that memory was refused, which happens only if the search may visit a state.
fn find(
    alloc: Global,
    debugger: &mut Debugger<'_>,
    bounds: Bounds,
    limits: StateLimits,
) -> Result<Outcomes, AllocError>
    requires base { bounds.base ≡ debugger.old.trail.depth }
    requires within { bounds.base ≤ bounds.limit }
    requires few { bounds.limit ≤ STEPS_MAX }
    ensures texts { IfOk result (λ o. o.firsts.witnesses.items ≡ []) }
    ensures stops { IfOk result (λ o. StopsAt limits.until o.firsts.leaves.items) }
    ensures last { IfOk result (λ o. StopsRuns limits.until (bounds.limit - bounds.base) debugger.old.world o) }
    ensures limit { IfOk result (λ o. StopsFor limits o.firsts.more o.visited o.firsts.leaves.items) }
    ensures some { IfOk result (λ o. 0 < limits.visited → 0 < o.visited) }
    ensures none { IfOk result (λ o. limits.visited ≡ 0 → (o.firsts.leaves.items ≡ []) × (o.firsts.more ≡ true)) }
    ensures memory { OnErr result (0 < limits.visited) }
    ensures safe { Safe bounds.base (standing_of debugger.old) (standing_of debugger.new) }
{
    debugger.state_is_reached();
    let mut front = beginning(alloc, bounds.base, limits.kept);
    let told = find_in(alloc, debugger, bounds, limits, &mut front);
    drop(front);
    told
}

/// The text of the witness of a run that its choices tell, if that is asked for. On return the
/// debugger may be at any later state.
fn text_there(
    alloc: Global,
    debugger: &mut Debugger<'_>,
    asked: Witnesses,
    fuel: usize,
    leaf: &SearchLeaf,
) -> Result<String, AllocError>
    requires fits { debugger.old.trail.depth + fuel ≤ STEPS_MAX }
    requires some { IsSome (run_by wide_decision fuel leaf.now.choices debugger.old.world) }
    ensures text { IfOk result (λ t. string_bytes t ≡ witness_text wide_decision asked (done_steps debugger.old.trail) fuel debugger.old.world leaf.now) }
    ensures beyond { Beyond (standing_of debugger.old) (standing_of debugger.new) }
{
    follow(alloc, &Wide, debugger, fuel, &leaf.choices.items)?;
    witness_here(alloc, debugger, asked, &leaf.ending)
}

/// The same, and the debugger is left as found.
fn text_of(
    alloc: Global,
    debugger: &mut Debugger<'_>,
    asked: Witnesses,
    fuel: usize,
    leaf: &SearchLeaf,
) -> Result<String, AllocError>
    requires clean { length debugger.old.trail.steps ≡ debugger.old.trail.depth }
    requires fits { debugger.old.trail.depth + fuel ≤ STEPS_MAX }
    requires some { IsSome (run_by wide_decision fuel leaf.now.choices debugger.old.world) }
    ensures text { IfOk result (λ t. string_bytes t ≡ witness_text wide_decision asked (done_steps debugger.old.trail) fuel debugger.old.world leaf.now) }
    ensures as_found { AsFound (standing_of debugger.old) (standing_of debugger.new) }
{
    debugger.state_is_reached();
    let base = debugger.depth();
    let told = text_there(alloc, debugger, asked, fuel, leaf);
    put_back(debugger, base);
    told
}

/// The texts of the witnesses of runs, if any are asked for. The debugger is left as found. `Err`
/// means that memory was refused, which happens only if there is a leaf.
fn texts_of(
    alloc: Global,
    debugger: &mut Debugger<'_>,
    limits: StateLimits,
    leaves: &[SearchLeaf],
) -> Result<Vec<String>, AllocError>
    requires clean { length debugger.old.trail.steps ≡ debugger.old.trail.depth }
    requires fits { debugger.old.trail.depth + limits.fuel ≤ STEPS_MAX }
    requires listed { AllByRecursion (HasWitness wide_decision debugger.old.trail.program debugger.old.trail.mode (done_steps debugger.old.trail) limits.fuel debugger.old.world) leaves.now }
    ensures texts { IfOk result (λ texts. map string_bytes texts.items ≡ witness_texts wide_decision limits.witnesses (done_steps debugger.old.trail) limits.fuel debugger.old.world leaves.now) }
    ensures as_found { AsFound (standing_of debugger.old) (standing_of debugger.new) }
    ensures memory { OnErr result (0 < length leaves.now) }
{
    debugger.state_is_reached();
    let mut texts = Vec::new(alloc);
    let asked = limits.witnesses;
    if !asked.are_asked() {
        return Ok(texts);
    }
    for leaf in leaves {
        let text = text_of(alloc, debugger, asked, limits.fuel, leaf)?;
        texts.push(text)?;
    }
    Ok(texts)
}

/// The ways that the runs from here end, without the texts of witnesses. The debugger is left as
/// found. `Err` means that memory was refused, which happens only if the search may visit a state.
fn found_from(
    alloc: Global,
    debugger: &mut Debugger<'_>,
    limits: StateLimits,
) -> Result<Outcomes, AllocError>
    requires clean { length debugger.old.trail.steps ≡ debugger.old.trail.depth }
    requires fits { debugger.old.trail.depth + limits.fuel ≤ STEPS_MAX }
    ensures texts { IfOk result (λ o. o.firsts.witnesses.items ≡ []) }
    ensures stops { IfOk result (λ o. StopsAt limits.until o.firsts.leaves.items) }
    ensures last { IfOk result (λ o. StopsRuns limits.until limits.fuel debugger.old.world o) }
    ensures limit { IfOk result (λ o. StopsFor limits o.firsts.more o.visited o.firsts.leaves.items) }
    ensures some { IfOk result (λ o. 0 < limits.visited → 0 < o.visited) }
    ensures none { IfOk result (λ o. limits.visited ≡ 0 → (o.firsts.leaves.items ≡ []) × (o.firsts.more ≡ true)) }
    ensures memory { OnErr result (0 < limits.visited) }
    ensures as_found { AsFound (standing_of debugger.old) (standing_of debugger.new) }
{
    debugger.state_is_reached();
    let base = debugger.depth();
    let bounds = Bounds {
        base,
        limit: base + limits.fuel,
    };
    let found = find(alloc, debugger, bounds, limits);
    put_back(debugger, base);
    found
}

/// The ways in which the runs from here end, along the wide walk (docs/DEFINITIONS.md, "Outcomes of
/// a script"): for each, how many runs end so, and the first of them. If a limit stops the search,
/// this describes the first runs of the walk, and there are more. The same holds if the search
/// stops for a goal (`until`): of these runs only the last ends so. Fuel counts from here. The
/// debugger is left as found, also on `Err`, which means that memory was refused: for a decision, a
/// step, an open choice, counts, or the result. This happens only if the search may visit a state.
/// If it may visit none, no way is listed, and there are more runs. A state for which memory is
/// refused isn't kept, and the table gives up all the others. Requires that no step is undone, and
/// that depth and fuel together are at most 1,000,000 steps.
pub fn explore_outcomes(
    alloc: Global,
    debugger: &mut Debugger<'_>,
    limits: StateLimits,
) -> Result<Outcomes, AllocError>
    requires clean { length debugger.old.trail.steps ≡ debugger.old.trail.depth }
    requires fits { debugger.old.trail.depth + limits.fuel ≤ STEPS_MAX }
    ensures told { IfOk result (λ o. TellsRuns limits.fuel debugger.old.world o) }
    ensures witnesses { IfOk result (λ o. AllByRecursion (HasWitness wide_decision debugger.old.trail.program debugger.old.trail.mode (done_steps debugger.old.trail) limits.fuel debugger.old.world) o.firsts.leaves.items) }
    ensures texts { IfOk result (λ o. map string_bytes o.firsts.witnesses.items ≡ witness_texts wide_decision limits.witnesses (done_steps debugger.old.trail) limits.fuel debugger.old.world o.firsts.leaves.items) }
    ensures stops { IfOk result (λ o. StopsAt limits.until o.firsts.leaves.items) }
    ensures last { IfOk result (λ o. StopsRuns limits.until limits.fuel debugger.old.world o) }
    ensures limit { IfOk result (λ o. StopsFor limits o.firsts.more o.visited o.firsts.leaves.items) }
    ensures some { IfOk result (λ o. 0 < limits.visited → 0 < o.visited) }
    ensures none { IfOk result (λ o. limits.visited ≡ 0 → (o.firsts.leaves.items ≡ []) × (o.firsts.more ≡ true)) }
    ensures memory { OnErr result (0 < limits.visited) }
    ensures as_found { AsFound (standing_of debugger.old) (standing_of debugger.new) }
{
    debugger.state_is_reached();
    wide_decisions_can_be_followed();
    let mut outcomes = found_from(alloc, debugger, limits)?;
    match texts_of(alloc, debugger, limits, &outcomes.firsts.leaves) {
        Ok(texts) => {
            outcomes.firsts.witnesses = texts;
            Ok(outcomes)
        }
        Err(fault) => {
            drop(outcomes);
            Err(fault)
        }
    }
}
