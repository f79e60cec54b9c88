//! Looks at all ranks at once: where they stand, whether they can go on, and what they hold; and at where the calls of a rank stand.

ghost use Rattle.std.specs.Prelude.{◌≡◌, ◌++◌, ◌∷◌, ◌<◌, [], IfOk, OnOk, Some, length, map, slice_get};
ghost use Rattle.std.specs.List.{flat_map};
ghost use Rattle.mpd_model.specs.steps.World.{RankWorld, call_id, call_at, call_numbers, rank_numbers, partner};
ghost use Rattle.mpd_names.specs.Placed.{issue_line as line_of_call};
ghost use Rattle.mpd_names.specs.Stand.{stand as stand_of};
ghost use Rattle.mpd_session.specs.Looks as spec;

use crate::effect::Effect;
use crate::looks::{handles, integers, rank_texts};
use crate::reply::{Answer, HandleList, Holding, HoldingList, NumberList, PartnerList, Refusal};
use crate::steps::is_below;
use mpd_core::Core;
use mpd_explain::push_if;
use mpd_model::{CallId, Step};
use mpd_names::{issue_line, stand};
use std::alloc::{AllocError, Global};

/// Whether a rank can go on by itself: its local step is enabled, its wake, or its step of a waitany.
#[tactic(auto, using(crate::proofs::PlaceLemmas::going))]
fn can_go_on(alloc: Global, core: &Core<'_>, rank: usize) -> Result<bool, AllocError>
    ensures { IfOk result (λ b. b ≡ spec.can_go_on core.now.world rank) }
{
    if core.is_enabled(Step::Local(rank)) {
        return Ok(true);
    }
    if core.is_enabled(Step::Wake(rank)) {
        return Ok(true);
    }
    let mut steps = Vec::new(alloc);
    core.push_any_wakes_of(rank, &mut steps)?;
    Ok(!steps.is_empty())
}

/// Adds a rank, if it can go on.
fn push_if_ready(
    alloc: Global,
    core: &Core<'_>,
    ready: &mut Vec<usize>,
    rank: usize,
) -> Result<(), AllocError>
    ensures { OnOk result (ready.new.items ≡ ready.old.items ++ spec.if_ready core.now.world rank) }
{
    push_if(ready, rank, can_go_on(alloc, core, rank)?)
}

/// The ranks that can go on.
fn ready(alloc: Global, core: &Core<'_>) -> Result<NumberList, AllocError>
    ensures { IfOk result (λ list. list ≡ flat_map (spec.if_ready core.now.world) (rank_numbers core.now.world.board)) }
{
    let mut items = Vec::new(alloc);
    let count = core.rank_count();
    for rank in 0..count {
        push_if_ready(alloc, core, &mut items, rank)?;
    }
    Ok(NumberList { items })
}

/// The line where each rank stands, if it stands at one.
fn rank_lines(alloc: Global, core: &Core<'_>) -> Result<HandleList, AllocError>
    ensures { IfOk result (λ list. list ≡ map (stand_of core.now.program core.now.world) (rank_numbers core.now.world.board)) }
{
    let mut items = Vec::new(alloc);
    let count = core.rank_count();
    for rank in 0..count {
        items.push(stand(core, rank))?;
    }
    Ok(HandleList { items })
}

/// What a rank holds.
fn holding(alloc: Global, core: &Core<'_>, rank: usize) -> Result<Holding, AllocError>
    requires { rank < length core.now.world.ranks }
    ensures { IfOk result (λ held. (r : RankWorld) → slice_get core.now.world.ranks rank ≡ Some r → held ≡ spec.holding_of r) }
{
    let state = core.rank(rank);
    Ok(Holding {
        vars: integers(alloc, state.variables())?,
        handles: handles(alloc, state.handles())?,
        out: integers(alloc, state.output())?,
    })
}

/// What each rank holds.
fn holdings(alloc: Global, core: &Core<'_>) -> Result<HoldingList, AllocError>
    ensures { IfOk result (λ list. list ≡ map spec.holding_of core.now.world.ranks) }
{
    let mut items = Vec::new(alloc);
    let count = core.rank_count();
    for rank in 0..count {
        items.push(holding(alloc, core, rank)?)?;
    }
    Ok(HoldingList { items })
}

/// Tells where each rank stands, and which can go on, and what each holds, if that is given.
fn where_with(
    alloc: Global,
    core: &Core<'_>,
    held: Option<HoldingList>,
) -> Result<Effect, AllocError>
    ensures { IfOk result (λ effect. effect ≡ spec.where_with core.now.program core.now.world held) }
{
    Ok(Effect::Told(Answer::Where {
        ranks: rank_texts(alloc, core)?,
        lines: rank_lines(alloc, core)?,
        ready: ready(alloc, core)?,
        held,
    }))
}

/// Tells where each rank stands, and which can go on. `Err` means that memory was refused.
pub fn stands(alloc: Global, core: &Core<'_>) -> Result<Effect, AllocError>
    ensures { IfOk result (λ effect. effect ≡ spec.where_effect core.now.program core.now.world) }
{
    where_with(alloc, core, None)
}

/// Tells that, and what each rank holds. `Err` means that memory was refused.
pub fn all(alloc: Global, core: &Core<'_>) -> Result<Effect, AllocError>
    ensures { IfOk result (λ effect. effect ≡ spec.all_effect core.now.program core.now.world) }
{
    let held = holdings(alloc, core)?;
    where_with(alloc, core, Some(held))
}

/// The lines of a rank's calls.
fn call_lines(alloc: Global, core: &Core<'_>, rank: usize) -> Result<NumberList, AllocError>
    ensures { IfOk result (λ list. list ≡ map (λ i. line_of_call core.now.program.lines (call_at core.now.world.board (call_id rank i))) (call_numbers core.now.world.board rank)) }
{
    let mut items = Vec::new(alloc);
    let count = core.board().call_count(rank);
    for index in 0..count {
        items.push(issue_line(core, CallId { rank, index }))?;
    }
    Ok(NumberList { items })
}

/// The calls that a rank's calls were matched with.
fn call_partners(alloc: Global, core: &Core<'_>, rank: usize) -> Result<PartnerList, AllocError>
    ensures { IfOk result (λ list. list ≡ map (λ i. partner core.now.world.board.sets (call_id rank i)) (call_numbers core.now.world.board rank)) }
{
    let mut items = Vec::new(alloc);
    let count = core.board().call_count(rank);
    for index in 0..count {
        items.push(core.board().partner(CallId { rank, index }))?;
    }
    Ok(PartnerList { items })
}

/// Tells the line of each call of a rank, and the call that it was matched with. `Err` means that
/// memory was refused.
pub fn lines(alloc: Global, core: &Core<'_>, rank: usize) -> Result<Effect, AllocError>
    ensures { IfOk result (λ effect. effect ≡ spec.lines_effect core.now.program core.now.world rank) }
{
    if !is_below(rank, core.rank_count()) {
        return Ok(Effect::Refused(Refusal::BadNumber));
    }
    Ok(Effect::Told(Answer::Lines {
        lines: call_lines(alloc, core, rank)?,
        partners: call_partners(alloc, core, rank)?,
    }))
}
