//! The search: open choices on a stack, the debugger going forward and back, and a table of the states whose runs are told.

ghost use Rattle.std.specs.List.{list_any};
ghost use Rattle.std.specs.Prelude.{◌≡◌, ◌+◌, ◌≤◌, ◌<◌, ℕ, true, false, IfOk, OnOk, OnErr, IfSome, IfNone, Some, length, reverse, take, slice_get};
ghost use Rattle.mpd_model.specs.runs.Trail.{done_steps, gone_back, IsReached};
ghost use Rattle.mpd_model.specs.steps.World.{World};
ghost use Rattle.mpd_model.specs.declared.decision.Decision.TheVariants as decision_is;
ghost use Rattle.mpd_trail.specs.DebuggerViews.{standing_of};
ghost use Rattle.mpd_outcomes.specs.declared.search.Arrived.TheVariants as arrived_is;
ghost use Rattle.mpd_policy.specs.Wide.{wide_decision};
ghost use Rattle.mpd_policy.specs.Walks.{Beyond};
ghost use Rattle.mpd_explore.specs.Search.{Safe};
ghost use Rattle.mpd_outcomes.specs.Front.{search_of, picked, open_in, ways_with, beyond_end, IsArrived, Down, Noted, Opened, Closed, KeptBy, Recalled, BeforeIn, AfterIn, Met, Turned, come_to, come_now, states_now, states_met, Stopped, WentOn};
ghost use Rattle.mpd_outcomes.specs.Sums.{IsWay};
ghost use Rattle.mpd_outcomes.specs.Table.{KeepsLess};
ghost use Rattle.mpd_outcomes.specs.Keys.{IsKey};
ghost use Rattle.mpd_outcomes.specs.Goals.{meets_any, StopsAt, StopsFor};

use crate::key::key_of;
use crate::report::StateLimits;
use crate::sums::{Sums, Tally};
use crate::table::{Found, Table};
use crate::ways::{is_goal_met, way_of};
use mpd_explore::{ChoiceList, Ending, SearchLeaf};
use mpd_model::{Decision, STEPS_MAX, Step, StepList};
use mpd_policy::{wide_decide, wide_decisions_can_be_followed};
use mpd_trail::Debugger;
use std::alloc::{AllocError, Global};
use std::mem;

/// The depth at which a search begins, and the one at which its fuel ends.
#[derive(Clone, Copy)]
pub(crate) struct Bounds {
    pub(crate) base: usize,
    pub(crate) limit: usize,
}

/// An open choice: its depth, its candidates, the index of the one that is taken, the key of its
/// state, if there was memory for it, and what is known of the runs around it: those by the
/// candidates that were tried at the choice above.
#[derive(Drop)]
pub(crate) struct Open {
    pub(crate) depth: usize,
    pub(crate) candidates: StepList,
    pub(crate) index: usize,
    pub(crate) key: Option<Vec<i64>>,
    pub(crate) outer: Sums,
}

/// Where a search stands: the open choices, the innermost last; what is told of the runs by the
/// candidates that were tried at the innermost one, or of all runs if no choice is open; the first
/// run of each way that runs end so far; and the table.
#[derive(Drop)]
pub(crate) struct Front {
    pub(crate) stack: Vec<Open>,
    pub(crate) sums: Sums,
    pub(crate) ways: Vec<SearchLeaf>,
    pub(crate) table: Table,
}

/// What a way down comes to.
#[derive(Drop)]
pub(crate) enum Arrived {
    /// A choice among these.
    Choice(StepList),
    /// The end of a run.
    End(Ending),
}

/// What stands at the limit: the end of a run, which is cut if a step is left.
fn at_limit(alloc: Global, debugger: &Debugger<'_>) -> Result<Arrived, AllocError>
    ensures { (limit : ℕ) → limit ≡ debugger.now.trail.depth → IfOk result (λ a. IsArrived limit (standing_of debugger.now) a) }
{
    match wide_decide(alloc, debugger.core())? {
        Decision::Leaf(outcome) => Ok(Arrived::End(Ending::Ended(outcome))),
        Decision::Forced(_) => Ok(Arrived::End(Ending::Cut)),
        Decision::Choice(_) => Ok(Arrived::End(Ending::Cut)),
    }
}

/// Goes on by the forced steps.
fn go_down(alloc: Global, debugger: &mut Debugger<'_>, limit: usize) -> Result<Arrived, AllocError>
    requires within { debugger.old.trail.depth ≤ limit }
    requires few { limit ≤ STEPS_MAX }
    ensures down { IfOk result (λ a. Down limit (standing_of debugger.old) a (standing_of debugger.new)) }
    ensures beyond { Beyond (standing_of debugger.old) (standing_of debugger.new) }
{
    debugger.state_is_reached();
    wide_decisions_can_be_followed();
    let begun = debugger.depth();
    for depth in begun..limit {
        match wide_decide(alloc, debugger.core())? {
            Decision::Leaf(outcome) => return Ok(Arrived::End(Ending::Ended(outcome))),
            Decision::Choice(candidates) => return Ok(Arrived::Choice(candidates)),
            Decision::Forced(step) => debugger.forward(step)?,
        }
    }
    at_limit(alloc, debugger)
}

/// The candidates that are taken at the open choices.
fn choices_here(alloc: Global, stack: &[Open]) -> Result<ChoiceList, AllocError>
    ensures { IfOk result (λ c. c ≡ picked (reverse stack.now)) }
{
    let mut items = Vec::with_capacity(alloc, stack.len())?;
    for open in stack {
        items.push(open.index)?;
    }
    Ok(ChoiceList { items })
}

/// The number of the way that a run ends which ends so here: a new one if it is the first.
fn number_here(alloc: Global, ending: Ending, front: &mut Front) -> Result<usize, AllocError>
    ensures way { IfOk result (λ number. IsWay front.new.ways.items ending number) }
    ensures ways { OnOk result (front.new.ways.items ≡ ways_with front.old.ways.items (picked (open_in front.old)) ending) }
    ensures stack { front.new.stack ≡ front.old.stack }
    ensures sums { front.new.sums ≡ front.old.sums }
    ensures table { front.new.table ≡ front.old.table }
{
    if let Some(number) = way_of(&front.ways, &ending) {
        drop(ending);
        return Ok(number);
    }
    let choices = match choices_here(alloc, &front.stack) {
        Ok(choices) => choices,
        Err(fault) => {
            drop(ending);
            return Err(fault);
        }
    };
    let number = front.ways.len();
    front.ways.push(SearchLeaf { choices, ending })?;
    Ok(number)
}

/// How deep a run comes that ends so at a depth.
fn depth_of(ending: &Ending, depth: usize) -> usize
    requires { depth ≤ STEPS_MAX }
    ensures { result ≡ depth + beyond_end ending.now }
{
    match ending {
        Ending::Ended(_) => depth,
        Ending::Cut => depth + 1,
    }
}

/// Notes a run that ends so at a depth.
fn note_end(
    alloc: Global,
    depth: usize,
    ending: Ending,
    front: &mut Front,
) -> Result<(), AllocError>
    requires { depth ≤ STEPS_MAX }
    ensures { OnOk result (Noted ending depth front.old front.new) }
{
    let deep = depth_of(&ending, depth);
    let number = number_here(alloc, ending, front)?;
    front.sums.add_run(alloc, number, deep)
}

/// Opens a choice at a depth, at its first candidate.
fn push_choice(
    alloc: Global,
    depth: usize,
    candidates: StepList,
    key: Option<Vec<i64>>,
    front: &mut Front,
) -> Result<(), AllocError>
    requires { depth ≤ STEPS_MAX }
    ensures { OnOk result (Opened depth candidates key front.old front.new) }
{
    let none = Sums {
        tally: Tally::none(alloc),
        deepest: depth + 1,
    };
    let outer = mem::replace(&mut front.sums, none);
    front.stack.push(Open {
        depth,
        candidates,
        index: 0,
        key,
        outer,
    })?;
    Ok(())
}

/// Tells the runs of a state from the table, if what was found of it holds with what is left of the
/// fuel; false if there is nothing.
fn recall(
    key: &Option<Vec<i64>>,
    limit: usize,
    depth: usize,
    front: &mut Front,
) -> Result<bool, AllocError>
    requires within { depth ≤ limit }
    requires few { limit ≤ STEPS_MAX }
    ensures { IfOk result (λ b. Recalled key.now limit depth b front.old front.new) }
{
    let Some(key) = key else {
        return Ok(false);
    };
    let Some(found) = front.table.recall(key, limit - depth) else {
        return Ok(false);
    };
    let deep = depth + found.height;
    front.sums.add(&found.tally, deep)?;
    Ok(true)
}

/// A candidate of a choice, if it has one of that number.
fn candidate(candidates: &StepList, number: usize) -> Option<Step>
    ensures { result ≡ slice_get candidates.now number }
{
    if number < candidates.items.len() {
        Some(candidates.items[number])
    } else {
        None
    }
}

/// The candidate after that of a number, and its number, if there is one.
fn candidate_after(candidates: &StepList, number: usize) -> Option<(usize, Step)>
    ensures some { IfSome result (λ it. (it.0 ≡ number + 1) × (slice_get candidates.now (number + 1) ≡ Some it.1)) }
    ensures none { IfNone result (length candidates.now ≤ number + 1) }
{
    if number >= candidates.items.len() {
        return None;
    }
    let next = number + 1;
    let step = candidate(candidates, next)?;
    Some((next, step))
}

/// Takes steps back to a depth.
fn go_back(debugger: &mut Debugger<'_>, depth: usize)
    requires { depth ≤ debugger.old.trail.depth }
    ensures trail { debugger.new.trail ≡ gone_back debugger.old.trail depth }
    ensures steps { done_steps debugger.new.trail ≡ take depth (done_steps debugger.old.trail) }
    ensures reached { IsReached (standing_of debugger.new) }
{
    let _ = debugger.undo_to(depth);
}

/// The key of the debugger's state. If memory is refused there is none, and the table gives up what
/// it keeps.
fn key_here(alloc: Global, debugger: &Debugger<'_>, table: &mut Table) -> Option<Vec<i64>>
    ensures key { IfSome result (λ key. IsKey debugger.now.trail.program debugger.now.world key.items) }
    ensures less { KeepsLess table.old table.new }
{
    match key_of(alloc, debugger.core()) {
        Ok(key) => Some(key),
        Err(_fault) => {
            table.give_up(alloc);
            None
        }
    }
}

/// Visits a choice: its runs are known from the table, or it is opened. Returns which.
fn meet(
    alloc: Global,
    debugger: &mut Debugger<'_>,
    bounds: Bounds,
    candidates: StepList,
    front: &mut Front,
) -> Result<bool, AllocError>
    requires stands { (root : World) × BeforeIn (search_of bounds debugger.old.trail root) front.old (standing_of debugger.old) }
    requires choice { wide_decision debugger.old.world ≡ decision_is.Choice candidates }
    requires fuel { debugger.old.trail.depth < bounds.limit }
    requires few { bounds.limit ≤ STEPS_MAX }
    ensures met { (root : World) → BeforeIn (search_of bounds debugger.old.trail root) front.old (standing_of debugger.old) → IfOk result (λ b. Met (search_of bounds debugger.old.trail root) b front.new (standing_of debugger.new)) }
    ensures states { (root : World) → BeforeIn (search_of bounds debugger.old.trail root) front.old (standing_of debugger.old) → IfOk result (λ b. states_now (search_of bounds debugger.old.trail root) true front.old (standing_of debugger.old) < states_met (search_of bounds debugger.old.trail root) b front.new (standing_of debugger.new)) }
    ensures ways { OnOk result (front.new.ways.items ≡ front.old.ways.items) }
    ensures safe { Safe bounds.base (standing_of debugger.old) (standing_of debugger.new) }
{
    debugger.state_is_reached();
    wide_decisions_can_be_followed();
    let key = key_here(alloc, debugger, &mut front.table);
    let depth = debugger.depth();
    if recall(&key, bounds.limit, depth, front)? {
        return Ok(false);
    }
    let first = candidate(&candidates, 0);
    push_choice(alloc, depth, candidates, key, front)?;
    let Some(step) = first else {
        unreachable!();
    };
    debugger.forward(step)?;
    Ok(true)
}

/// Keeps what was found of the state of a key, if there is one.
fn keep_by(alloc: Global, key: Option<Vec<i64>>, found: Found, table: &mut Table)
    ensures { KeptBy table.old key found table.new }
{
    match key {
        Some(key) => table.keep(alloc, key, found),
        None => drop(found),
    }
}

/// Closes a choice whose candidates are all tried: what is told of their runs joins what is told round it, and is kept.
fn close(
    alloc: Global,
    limit: usize,
    depth: usize,
    key: Option<Vec<i64>>,
    outer: Sums,
    front: &mut Front,
) -> Result<(), AllocError>
    requires above { depth ≤ limit }
    requires deep { depth ≤ front.old.sums.deepest }
    ensures { OnOk result (Closed limit depth key outer front.old front.new) }
{
    let Sums { tally, deepest } = mem::replace(&mut front.sums, outer);
    if let Err(fault) = front.sums.add(&tally, deepest) {
        drop(tally);
        drop(key);
        return Err(fault);
    }
    let found = Found {
        fuel: limit - depth,
        height: deepest - depth,
        tally,
    };
    keep_by(alloc, key, found, &mut front.table);
    Ok(())
}

/// Goes back to the innermost open choice with a candidate left, closing those that have none, and
/// takes that candidate; false if no choice is open any more.
fn advance(
    alloc: Global,
    debugger: &mut Debugger<'_>,
    bounds: Bounds,
    front: &mut Front,
) -> Result<bool, AllocError>
    requires stands { (root : World) × AfterIn (search_of bounds debugger.old.trail root) front.old (standing_of debugger.old) }
    requires few { bounds.limit ≤ STEPS_MAX }
    ensures turned { (root : World) → AfterIn (search_of bounds debugger.old.trail root) front.old (standing_of debugger.old) → IfOk result (λ b. Turned (search_of bounds debugger.old.trail root) b front.new (standing_of debugger.new)) }
    ensures ways { OnOk result (front.new.ways.items ≡ front.old.ways.items) }
    ensures come { (root : World) → AfterIn (search_of bounds debugger.old.trail root) front.old (standing_of debugger.old) → IfOk result (λ b. come_now (search_of bounds debugger.old.trail root) b front.new (standing_of debugger.new) ≡ come_to (search_of bounds debugger.old.trail root) (open_in front.old) (done_steps debugger.old.trail)) }
    ensures safe { Safe bounds.base (standing_of debugger.old) (standing_of debugger.new) }
{
    debugger.state_is_reached();
    wide_decisions_can_be_followed();
    while let Some(top) = front.stack.pop() {
        let Open {
            depth,
            candidates,
            index,
            key,
            outer,
        } = top;
        go_back(debugger, depth);
        if let Some((next, step)) = candidate_after(&candidates, index) {
            front.stack.push(Open {
                depth,
                candidates,
                index: next,
                key,
                outer,
            })?;
            debugger.forward(step)?;
            return Ok(true);
        }
        drop(candidates);
        close(alloc, bounds.limit, depth, key, outer, front)?;
    }
    Ok(false)
}

/// Goes on from a choice that is visited; false if all runs are visited.
fn go_on_at_choice(
    alloc: Global,
    debugger: &mut Debugger<'_>,
    bounds: Bounds,
    candidates: StepList,
    front: &mut Front,
) -> Result<bool, AllocError>
    requires stands { (root : World) × BeforeIn (search_of bounds debugger.old.trail root) front.old (standing_of debugger.old) }
    requires choice { wide_decision debugger.old.world ≡ decision_is.Choice candidates }
    requires fuel { debugger.old.trail.depth < bounds.limit }
    requires few { bounds.limit ≤ STEPS_MAX }
    ensures went_on { (root : World) → BeforeIn (search_of bounds debugger.old.trail root) front.old (standing_of debugger.old) → IfOk result (λ b. WentOn (search_of bounds debugger.old.trail root) front.old (standing_of debugger.old) b front.new (standing_of debugger.new)) }
    ensures safe { Safe bounds.base (standing_of debugger.old) (standing_of debugger.new) }
{
    let is_open = meet(alloc, debugger, bounds, candidates, front)?;
    if is_open {
        return Ok(true);
    }
    advance(alloc, debugger, bounds, front)
}

/// Goes on from the end of a run; false if all runs are visited.
fn go_on_at_end(
    alloc: Global,
    debugger: &mut Debugger<'_>,
    bounds: Bounds,
    ending: Ending,
    front: &mut Front,
) -> Result<bool, AllocError>
    requires stands { (root : World) × BeforeIn (search_of bounds debugger.old.trail root) front.old (standing_of debugger.old) }
    requires end { IsArrived bounds.limit (standing_of debugger.old) (arrived_is.End ending) }
    requires few { bounds.limit ≤ STEPS_MAX }
    ensures went_on { (root : World) → BeforeIn (search_of bounds debugger.old.trail root) front.old (standing_of debugger.old) → IfOk result (λ b. WentOn (search_of bounds debugger.old.trail root) front.old (standing_of debugger.old) b front.new (standing_of debugger.new)) }
    ensures safe { Safe bounds.base (standing_of debugger.old) (standing_of debugger.new) }
{
    debugger.state_is_reached();
    wide_decisions_can_be_followed();
    let depth = debugger.depth();
    note_end(alloc, depth, ending, front)?;
    advance(alloc, debugger, bounds, front)
}

/// Visits the next state, a choice or an end, and goes on from there; false if all runs are
/// visited.
fn turn(
    alloc: Global,
    debugger: &mut Debugger<'_>,
    bounds: Bounds,
    front: &mut Front,
) -> Result<bool, AllocError>
    requires stands { (root : World) × BeforeIn (search_of bounds debugger.old.trail root) front.old (standing_of debugger.old) }
    requires few { bounds.limit ≤ STEPS_MAX }
    ensures went_on { (root : World) → BeforeIn (search_of bounds debugger.old.trail root) front.old (standing_of debugger.old) → IfOk result (λ b. WentOn (search_of bounds debugger.old.trail root) front.old (standing_of debugger.old) b front.new (standing_of debugger.new)) }
    ensures safe { Safe bounds.base (standing_of debugger.old) (standing_of debugger.new) }
{
    match go_down(alloc, debugger, bounds.limit)? {
        Arrived::Choice(candidates) => go_on_at_choice(alloc, debugger, bounds, candidates, front),
        Arrived::End(ending) => go_on_at_end(alloc, debugger, bounds, ending, front),
    }
}

/// How a search ends: how many states it visited, and whether there are runs that it did not visit.
#[derive(Clone, Copy)]
pub(crate) struct Reach {
    pub(crate) visited: usize,
    pub(crate) more: bool,
}

/// Visits at most as many states as the limits say, and none after a run that ends as is looked
/// for. `Err` means that memory was refused, which happens only if it may visit a state. If it may
/// visit none, nothing changes, and there are more runs.
pub(crate) fn search(
    alloc: Global,
    debugger: &mut Debugger<'_>,
    bounds: Bounds,
    limits: StateLimits,
    front: &mut Front,
) -> Result<Reach, AllocError>
    requires stands { (root : World) × BeforeIn (search_of bounds debugger.old.trail root) front.old (standing_of debugger.old) }
    requires few { bounds.limit ≤ STEPS_MAX }
    requires unmet { list_any (meets_any limits.until) front.old.ways.items ≡ false }
    ensures stopped { (root : World) → BeforeIn (search_of bounds debugger.old.trail root) front.old (standing_of debugger.old) → IfOk result (λ r. Stopped (search_of bounds debugger.old.trail root) limits.until r front.new (standing_of debugger.new)) }
    ensures stops { OnOk result (StopsAt limits.until front.new.ways.items) }
    ensures limit { IfOk result (λ r. StopsFor limits r.more r.visited front.new.ways.items) }
    ensures none { IfOk result (λ r. limits.visited ≡ 0 → (front.new ≡ front.old) × (r.more ≡ true)) }
    ensures some { IfOk result (λ r. 0 < limits.visited → 0 < r.visited) }
    ensures memory { OnErr result (0 < limits.visited) }
    ensures safe { Safe bounds.base (standing_of debugger.old) (standing_of debugger.new) }
{
    for visited in 0..limits.visited {
        let is_left = turn(alloc, debugger, bounds, front)?;
        if !is_left || is_goal_met(limits.until, &front.ways) {
            return Ok(Reach {
                visited: visited + 1,
                more: is_left,
            });
        }
    }
    Ok(Reach {
        visited: limits.visited,
        more: true,
    })
}
