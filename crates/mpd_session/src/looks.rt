//! Commands that look at the state.

ghost use Rattle.std.specs.Prelude.{◌≡◌, ◌++◌, ◌∷◌, [], ◌<◌, ◌≤◌, ◌+◌, ℕ, IfOk, OnOk, Option, map, length, string_bytes, option_map, is_some, codes};
ghost use Rattle.mpd_model.specs.steps.World.{rank_numbers, call_id, call_numbers};
ghost use Rattle.mpd_model.specs.steps.Next.{enabled};
ghost use Rattle.mpd_model.specs.steps.Outcomes.{outcome};
ghost use Rattle.mpd_model.specs.texts.Texts.{step_text, rank_text, set_text, call_text, outcome_text};
ghost use Rattle.mpd_model.specs.runs.Trail.{IsReached};
ghost use Rattle.mpd_trail.specs.DebuggerViews.{standing_of};
ghost use Rattle.mpd_explore.specs.ReportText.{leaf_text};
ghost use Rattle.mpd_session.specs.Looks.{look_effect};
ghost use Rattle.mpd_session.specs.Effects.{enabled_effect, state_effect, vars_effect, calls_effect, why_effect, partner_text, leaves_effect, explore_effect};

use crate::effect::{Effect, is_within};
use crate::reply::{Answer, HandleList, IntegerList, Refusal, Text, TextList};
use crate::request::Look;
use crate::runs::report;
use crate::steps::is_below;
use crate::{decided, places, script};
use mpd_core::Core;
use mpd_explore::{SearchLeaf, push_leaf_text};
use mpd_model::{CallId, MatchSet, RUNS_MAX, STEPS_MAX, Step, print_outcome, print_step};
use mpd_trail::Debugger;
use std::alloc::{AllocError, Global};

/// Adds a text. `Err` means that memory was refused.
pub fn push_text(texts: &mut Vec<String>, text: String) -> Result<(), AllocError>
    ensures { OnOk result (map string_bytes texts.new.items ≡ map string_bytes texts.old.items ++ string_bytes text ∷ []) }
{
    texts.push(text)?;
    Ok(())
}

/// The texts of steps.
pub(crate) fn step_texts(alloc: Global, steps: &[Step]) -> Result<TextList, AllocError>
    ensures { IfOk result (λ texts. texts ≡ map step_text steps.now) }
{
    let mut items = Vec::new(alloc);
    for step in steps {
        push_text(&mut items, print_step(alloc, *step)?)?;
    }
    Ok(TextList { items })
}

/// Lists the enabled steps. `Err` means that memory was refused.
pub fn enabled(alloc: Global, core: &Core<'_>) -> Result<Effect, AllocError>
    ensures { IfOk result (λ effect. effect ≡ enabled_effect core.now.world) }
{
    let steps = core.enabled(alloc)?;
    let texts = step_texts(alloc, &steps)?;
    Ok(Effect::Told(Answer::Enabled(texts)))
}

/// The texts of match sets.
fn set_texts(alloc: Global, sets: &[MatchSet]) -> Result<TextList, AllocError>
    ensures { IfOk result (λ texts. texts ≡ map set_text sets.now) }
{
    let mut items = Vec::new(alloc);
    for set in sets {
        push_text(&mut items, format!(in alloc; "{set}")?)?;
    }
    Ok(TextList { items })
}

/// The texts of what the ranks are doing.
pub(crate) fn rank_texts(alloc: Global, core: &Core<'_>) -> Result<TextList, AllocError>
    ensures { IfOk result (λ texts. texts ≡ map (rank_text core.now.program core.now.world) (rank_numbers core.now.world.board)) }
{
    let mut items = Vec::new(alloc);
    let count = core.rank_count();
    for rank in 0..count {
        push_text(&mut items, core.rank_text(rank)?)?;
    }
    Ok(TextList { items })
}

/// How the run has ended, if no step is enabled.
fn outcome_here(alloc: Global, core: &Core<'_>) -> Result<Option<Text>, AllocError>
    ensures { IfOk result (λ text. text ≡ option_map outcome_text (outcome core.now.world)) }
{
    match core.outcome(alloc)? {
        None => Ok(None),
        Some(outcome) => Ok(Some(Text {
            string: print_outcome(alloc, &outcome)?,
        })),
    }
}

/// Tells the state. `Err` means that memory was refused.
pub fn state(alloc: Global, debugger: &Debugger<'_>) -> Result<Effect, AllocError>
    ensures { IfOk result (λ effect. effect ≡ state_effect debugger.now.trail debugger.now.world) }
{
    let core = debugger.core();
    let depth = debugger.depth();
    let undone = debugger.steps().len() - depth;
    Ok(Effect::Told(Answer::State {
        depth,
        ranks: rank_texts(alloc, core)?,
        sets: set_texts(alloc, core.board().sets())?,
        undone,
        outcome: outcome_here(alloc, core)?,
    }))
}

/// Values as a list of their own.
pub(crate) fn integers(alloc: Global, values: &[i64]) -> Result<IntegerList, AllocError>
    ensures { IfOk result (λ list. list ≡ values.now) }
{
    Ok(IntegerList {
        items: Vec::from_slice(alloc, values)?,
    })
}

/// Handles as a list of their own.
pub(crate) fn handles(alloc: Global, values: &[Option<usize>]) -> Result<HandleList, AllocError>
    ensures { IfOk result (λ list. list ≡ values.now) }
{
    Ok(HandleList {
        items: Vec::from_slice(alloc, values)?,
    })
}

/// Tells what a rank holds. `Err` means that memory was refused.
#[tactic(auto, using(crate::proofs::LookLemmas::holding))]
pub fn vars(alloc: Global, core: &Core<'_>, rank: usize) -> Result<Effect, AllocError>
    ensures { IfOk result (λ effect. effect ≡ vars_effect core.now.world rank) }
{
    if rank >= core.rank_count() {
        return Ok(Effect::Refused(Refusal::BadNumber));
    }
    let state = core.rank(rank);
    let vars = integers(alloc, state.variables())?;
    let handles = handles(alloc, state.handles())?;
    let out = integers(alloc, state.output())?;
    Ok(Effect::Told(Answer::Vars { vars, handles, out }))
}

/// The text of a call.
fn call_text_of(alloc: Global, core: &Core<'_>, id: CallId) -> Result<String, AllocError>
    ensures { IfOk result (λ t. string_bytes t ≡ call_text core.now.world.board id) }
{
    let mut text = String::new(alloc);
    core.push_call(&mut text, id)?;
    Ok(text)
}

/// The texts of a rank's calls.
fn call_texts(alloc: Global, core: &Core<'_>, rank: usize) -> Result<TextList, AllocError>
    ensures { IfOk result (λ texts. texts ≡ map (λ i. call_text core.now.world.board (call_id rank i)) (call_numbers core.now.world.board rank)) }
{
    let mut items = Vec::new(alloc);
    let count = core.board().call_count(rank);
    for index in 0..count {
        push_text(
            &mut items,
            call_text_of(alloc, core, CallId { rank, index })?,
        )?;
    }
    Ok(TextList { items })
}

/// Lists the calls of a rank. `Err` means that memory was refused.
pub fn calls(alloc: Global, core: &Core<'_>, rank: usize) -> Result<Effect, AllocError>
    ensures { IfOk result (λ effect. effect ≡ calls_effect core.now.world rank) }
{
    if !is_below(rank, core.rank_count()) {
        return Ok(Effect::Refused(Refusal::BadNumber));
    }
    Ok(Effect::Told(Answer::Calls(call_texts(alloc, core, rank)?)))
}

/// The text of a partner.
fn partner_text(alloc: Global, partner: (CallId, Option<CallId>)) -> Result<String, AllocError>
    ensures { IfOk result (λ t. string_bytes t ≡ partner_text partner) }
{
    let (call, holder) = partner;
    match holder {
        None => format!(in alloc; "{call} eligible"),
        Some(holder) => format!(in alloc; "{call} held by {holder}"),
    }
}

/// The texts of partners.
fn partner_texts(
    alloc: Global,
    partners: &[(CallId, Option<CallId>)],
) -> Result<TextList, AllocError>
    ensures { IfOk result (λ texts. texts ≡ map partner_text partners.now) }
{
    let mut items = Vec::new(alloc);
    for partner in partners {
        push_text(&mut items, partner_text(alloc, *partner)?)?;
    }
    Ok(TextList { items })
}

/// Lists the partners of a call. `Err` means that memory was refused.
pub fn why(alloc: Global, core: &Core<'_>, call: CallId) -> Result<Effect, AllocError>
    ensures { IfOk result (λ effect. effect ≡ why_effect core.now.world call) }
{
    if core.board().call(call).is_none() {
        return Ok(Effect::Refused(Refusal::BadNumber));
    }
    let why = core.board().why(alloc, call)?;
    Ok(Effect::Told(Answer::Partners(partner_texts(alloc, &why.partners)?)))
}

/// The text of a leaf.
fn leaf_text(alloc: Global, leaf: &SearchLeaf) -> Result<String, AllocError>
    ensures { IfOk result (λ t. string_bytes t ≡ leaf_text leaf.now) }
{
    let mut text = String::new(alloc);
    push_leaf_text(alloc, &mut text, leaf)?;
    Ok(text)
}

/// The texts of leaves.
fn leaf_texts(alloc: Global, leaves: &[SearchLeaf]) -> Result<TextList, AllocError>
    ensures { IfOk result (λ texts. texts ≡ map leaf_text leaves.now) }
{
    let mut items = Vec::new(alloc);
    for leaf in leaves {
        push_text(&mut items, leaf_text(alloc, leaf)?)?;
    }
    Ok(TextList { items })
}

/// Lists the first runs from here. `Err` means that memory was refused; nothing changes in any
/// case.
#[tactic(auto, using(crate::proofs::LookLemmas::exploring))]
pub fn explore(
    alloc: Global,
    debugger: &mut Debugger<'_>,
    runs: usize,
    fuel: usize,
) -> Result<Effect, AllocError>
    ensures effect { IfOk result (λ effect. effect ≡ explore_effect debugger.old.trail debugger.old.world runs fuel) }
    ensures trail { debugger.new.trail ≡ debugger.old.trail }
{
    let left = STEPS_MAX - debugger.depth();
    if !is_within(1, RUNS_MAX, runs) {
        return Ok(Effect::Refused(Refusal::BadNumber));
    }
    if !is_within(1, left, fuel) {
        return Ok(Effect::Refused(Refusal::BadNumber));
    }
    let report = report(alloc, debugger, runs, fuel)?;
    let leaves = leaf_texts(alloc, &report.leaves)?;
    Ok(Effect::Told(Answer::Explored {
        leaves,
        more: report.more,
    }))
}

/// Looks at something of the script, of all ranks or of steps. `Err` means that memory was refused.
pub fn look(alloc: Global, debugger: &Debugger<'_>, look: Look) -> Result<Effect, AllocError>
    ensures { IfOk result (λ effect. effect ≡ look_effect debugger.now.trail debugger.now.world look) }
{
    let core = debugger.core();
    match look {
        Look::Script => script::script(alloc, core),
        Look::Where => places::stands(alloc, core),
        Look::All => places::all(alloc, core),
        Look::Decision => decided::decision(alloc, core),
        Look::Steps { from, count } => decided::steps(alloc, debugger, from, count),
        Look::Lines(rank) => places::lines(alloc, core, rank),
        Look::Explain => decided::explain(alloc, core),
    }
}
