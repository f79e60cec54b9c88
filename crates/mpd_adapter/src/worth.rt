//! What an expression comes to, as an editor shows it (docs/ADAPTER.md, "Expressions").

ghost use Rattle.std.specs.Prelude.{◌≡◌, ◌<◌, ◌++◌, IfOk, OnOk, length};
ghost use Rattle.std.specs.List.{flat_map};
ghost use Rattle.mpd_adapter.specs.Looks.{shown};
ghost use Rattle.mpd_adapter.specs.Worths as spec;

use mpd_console::{RankValue, Valued};
use mpd_core::Core;
use mpd_dap::{Json, Text, evaluated};
use mpd_model::{CallId, Trap};
use mpd_names::{Held, Named, held_in};
use mpd_session::Session;
use std::alloc::{AllocError, Global};

/// How many cells of an array are told.
const CELLS_TOLD: usize = 16;

/// What an expression comes to for a rank.
#[derive(Drop)]
pub enum Worth {
    /// What the rank holds in the cells that a name means.
    Holds(Held),
    /// The value of an expression, or the trap that it ends in.
    Comes(Result<i64, Trap>),
}

/// What an expression comes to, and for which rank.
#[derive(Drop)]
pub struct RankWorth {
    /// The rank, from 0.
    pub rank: usize,
    /// What it comes to.
    pub worth: Worth,
}

/// Whether a rank is meant, of all or of one.
fn is_meant(meant: Option<usize>, rank: usize) -> bool
    ensures { result ≡ spec.is_meant meant rank }
{
    match meant {
        None => true,
        Some(one) => one == rank,
    }
}

// ---- names

/// Adds what a rank holds in the cells that a name means, if the rank is meant.
fn push_held(
    list: &mut Vec<RankWorth>,
    core: &Core<'_>,
    named: Named,
    meant: Option<usize>,
    rank: usize,
) -> Result<(), AllocError>
    requires { rank < length core.now.world.ranks }
    ensures { OnOk result (list.new.items ≡ list.old.items ++ spec.held_worth core.now.world named meant rank) }
{
    if !is_meant(meant, rank) {
        return Ok(());
    }
    let held = held_in(*list.allocator(), core, rank, named)?;
    let worth = Worth::Holds(held);
    list.push(RankWorth { rank, worth })?;
    Ok(())
}

/// What the ranks that are meant hold in the cells that a name means.
fn held_worths(
    alloc: Global,
    core: &Core<'_>,
    named: Named,
    meant: Option<usize>,
) -> Result<Vec<RankWorth>, AllocError>
    ensures { IfOk result (λ list. list.items ≡ spec.held_worths core.now.world named meant) }
{
    let mut list = Vec::new(alloc);
    let count = core.rank_count();
    for rank in 0..count {
        push_held(&mut list, core, named, meant, rank)?;
    }
    Ok(list)
}

/// The same in a session. An `Err` is want of memory.
#[tactic(auto, using(crate::proofs::WorthLemmas::worths_seen))]
pub(crate) fn named_worths(
    alloc: Global,
    session: &Session<'_>,
    named: Named,
    meant: Option<usize>,
) -> Result<Vec<RankWorth>, AllocError>
    ensures { IfOk result (λ list. list.items ≡ spec.named_worths session.now named meant) }
{
    let debugger = session.debugger();
    debugger.state_is_reached();
    held_worths(alloc, debugger.core(), named, meant)
}

// ---- expressions

/// Adds the value that an expression has for a rank, if the rank is meant.
fn push_value(
    list: &mut Vec<RankWorth>,
    meant: Option<usize>,
    value: RankValue,
) -> Result<(), AllocError>
    ensures { OnOk result (list.new.items ≡ list.old.items ++ spec.value_worth meant value) }
{
    if !is_meant(meant, value.rank) {
        return Ok(());
    }
    list.push(RankWorth {
        rank: value.rank,
        worth: Worth::Comes(value.value),
    })?;
    Ok(())
}

/// The values that an expression has for the ranks that are meant.
fn value_worths(
    alloc: Global,
    values: &[RankValue],
    meant: Option<usize>,
) -> Result<Vec<RankWorth>, AllocError>
    ensures { IfOk result (λ list. list.items ≡ flat_map (spec.value_worth meant) values.now) }
{
    let mut list = Vec::new(alloc);
    for value in values {
        push_value(&mut list, meant, *value)?;
    }
    Ok(list)
}

/// What an expression comes to for the ranks that are meant: nothing if it is none. An `Err` is want
/// of memory.
pub(crate) fn valued_worths(
    alloc: Global,
    valued: &Valued,
    meant: Option<usize>,
) -> Result<Vec<RankWorth>, AllocError>
    ensures { IfOk result (λ list. list.items ≡ spec.valued_worths meant valued.now) }
{
    match valued {
        Valued::Values { expr: _, values } => value_worths(alloc, &values.items, meant),
        _ => Ok(Vec::new(alloc)),
    }
}

// ---- what is said of it

/// Adds values, with a comma between two.
fn push_values(out: &mut String, values: &[i64]) -> Result<(), AllocError> {
    let mut before = "";
    for value in values {
        write!(out, "{before}{value}")?;
        before = ", ";
    }
    Ok(())
}

/// Adds the calls that handles of a rank hold, with a comma between two.
fn push_calls(out: &mut String, rank: usize, handles: &[Option<usize>]) -> Result<(), AllocError> {
    let mut before = "";
    for handle in handles {
        match *handle {
            None => write!(out, "{before}none")?,
            Some(index) => write!(out, "{before}{}", CallId { rank, index })?,
        }
        before = ", ";
    }
    Ok(())
}

/// The first cells, as many as are told.
fn told_of<T>(cells: &[T]) -> &[T] {
    let (told, _) = cells.split_at(CELLS_TOLD.min(cells.len()));
    told
}

/// Adds what a rank holds in some cells, the first 16 at most.
fn push_cells(out: &mut String, rank: usize, held: &Held) -> Result<(), AllocError> {
    match held {
        Held::Values(values) => push_values(out, told_of(&values.items)),
        Held::Calls(calls) => push_calls(out, rank, told_of(&calls.items)),
    }
}

/// How many cells these are.
fn count_of(held: &Held) -> usize {
    match held {
        Held::Values(values) => values.items.len(),
        Held::Calls(calls) => calls.items.len(),
    }
}

/// Adds what a rank holds, in brackets if it is not one cell.
fn push_holding(out: &mut String, rank: usize, held: &Held) -> Result<(), AllocError> {
    let count = count_of(held);
    if count == 1 {
        return push_cells(out, rank, held);
    }
    out.push_str("[")?;
    push_cells(out, rank, held)?;
    out.push_str(if count > CELLS_TOLD { ", ..]" } else { "]" })
}

/// Adds what an expression comes to for a rank.
fn push_worth(out: &mut String, rank: usize, worth: &Worth) -> Result<(), AllocError> {
    match worth {
        Worth::Holds(held) => push_holding(out, rank, held),
        Worth::Comes(Ok(value)) => write!(out, "{value}"),
        Worth::Comes(Err(trap)) => {
            let name = trap.name();
            write!(out, "traps: {name}")
        }
    }
}

/// Adds what an expression comes to for a rank, with the rank before it unless one alone is meant.
fn push_of_rank(out: &mut String, of: &RankWorth, meant: Option<usize>) -> Result<(), AllocError> {
    if meant.is_none() {
        write!(out, "rank {}: ", of.rank)?;
    }
    push_worth(out, of.rank, &of.worth)
}

/// What is said of all, a line for each rank.
fn words_of(alloc: Global, list: &[RankWorth], meant: Option<usize>) -> Result<Text, AllocError> {
    let mut string = String::new(alloc);
    let mut before = "";
    for of in list {
        string.push_str(before)?;
        push_of_rank(&mut string, of, meant)?;
        before = "\n";
    }
    Ok(Text { string })
}

/// The body that tells what an expression comes to for the ranks that are meant; `None` if it is
/// nothing. An `Err` is want of memory.
#[tactic(auto, using(crate::proofs::WorthLemmas::telling))]
pub(crate) fn worth_body(
    alloc: Global,
    list: &[RankWorth],
    meant: Option<usize>,
) -> Result<Option<Json>, AllocError>
    ensures { IfOk result (λ body. spec.IsWorth list.now (shown body)) }
{
    if list.is_empty() {
        return Ok(None);
    }
    let text = words_of(alloc, list, meant)?;
    let body = evaluated(alloc, text.as_str())?;
    Ok(Some(body))
}
