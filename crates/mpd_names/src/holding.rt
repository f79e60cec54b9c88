//! What ranks hold in declarations, and what the next statement of a rank reads, as values.

ghost use Rattle.std.specs.Prelude.{◌≡◌, ◌<◌, ◌++◌, ◌+◌, ◌^◌, IfOk, OnOk, Some, true, length, slice_get};
ghost use Rattle.mpd_names.specs.Reads as spec;
ghost use Rattle.mpd_names.specs.Held as held;

use crate::cells::whole;
use crate::name::Named;
use crate::read::action_reads;
use mpd_code::Action;
use mpd_core::Core;
use mpd_model::{Decl, DeclKind};
use std::alloc::{AllocError, Global};
use std::marker::Model;

/// Values of variables, as contracts see them.
#[derive(Drop)]
pub struct HeldValues {
    pub items: Vec<i64>,
}

impl Model for HeldValues {
    ghost use Rattle.std.specs.Prelude.{List, ℤ};

    ghost Value = { List ℤ };

    ghost view = { λ l. l.items.items };
}

/// For each of some handles the number of its request's call, if it has one, as contracts see them.
#[derive(Drop)]
pub struct HeldCalls {
    pub items: Vec<Option<usize>>,
}

impl Model for HeldCalls {
    ghost use Rattle.std.specs.Prelude.{List, Option, ℕ};

    ghost Value = { List (Option ℕ) };

    ghost view = { λ l. l.items.items };
}

/// What a rank holds in some cells of a kind.
#[derive(Drop)]
pub enum Held {
    /// The values of variables.
    Values(HeldValues),
    /// The requests of handles.
    Calls(HeldCalls),
}

/// What a rank holds in the cells of a declaration.
#[derive(Drop)]
pub struct Holding {
    /// The number of the declaration, from 0.
    pub declaration: usize,
    pub held: Held,
}

/// What a rank holds in several declarations, as contracts see it.
#[derive(Drop)]
pub struct HoldingList {
    pub items: Vec<Holding>,
}

impl Model for HoldingList {
    ghost use Rattle.std.specs.Prelude.{List};
    ghost use Rattle.mpd_names.specs.declared.holding.Holding.{Holding};
    ghost use Rattle.mpd_names.specs.HoldingCodes.{holdings_code};

    ghost Value = { List Holding };

    ghost coded = { holdings_code };

    ghost view = { λ l. l.items.items };
}

/// What is meant of all cells of a kind.
pub(crate) fn own<T>(all: &[T], named: Named) -> &[T]
    ensures value { result.now ≡ held.own named all.now }
    ensures bound { named.first + length result.now < 2 ^ 64 }
{
    let (_, behind) = all.split_at(named.first.min(all.len()));
    let (own, _) = behind.split_at(named.cells.min(behind.len()));
    own
}

/// Some values.
fn values_of(alloc: Global, values: &[i64]) -> Result<Held, AllocError>
    ensures { IfOk result (λ all. all ≡ held.values values.now) }
{
    let mut items = Vec::new(alloc);
    items.extend_from_slice(values)?;
    Ok(Held::Values(HeldValues { items }))
}

/// Some requests.
fn calls_of(alloc: Global, calls: &[Option<usize>]) -> Result<Held, AllocError>
    ensures { IfOk result (λ all. all ≡ held.calls calls.now) }
{
    let mut items = Vec::new(alloc);
    items.extend_from_slice(calls)?;
    Ok(Held::Calls(HeldCalls { items }))
}

/// What a rank holds in the cells that a name means. `Err` means that memory was refused.
pub fn held_in(
    alloc: Global,
    core: &Core<'_>,
    rank: usize,
    named: Named,
) -> Result<Held, AllocError>
    requires { rank < length core.now.world.ranks }
    ensures { IfOk result (λ all. all ≡ held.held_at named (slice_get core.now.world.ranks rank)) }
{
    let state = core.rank(rank);
    match named.kind {
        DeclKind::Variable => values_of(alloc, own(state.variables(), named)),
        DeclKind::Handle => calls_of(alloc, own(state.handles(), named)),
    }
}

/// What a rank holds in a declaration, whose number this is.
fn holding_of(
    alloc: Global,
    core: &Core<'_>,
    rank: usize,
    number: usize,
    decl: &Decl,
) -> Result<Holding, AllocError>
    requires rank { rank < length core.now.world.ranks }
    requires there { slice_get core.now.program.decls number ≡ Some decl.now }
    ensures { IfOk result (λ holding. holding ≡ held.holding_of core.now.program (slice_get core.now.world.ranks rank) number decl.now) }
{
    let held = held_in(alloc, core, rank, whole(core.code(), number, decl))?;
    Ok(Holding {
        declaration: number,
        held,
    })
}

/// Adds what a rank holds in the declaration of a number, if there is one.
#[tactic(auto, using(crate::proofs::ReadLemmas::declaring))]
fn push_holding(
    core: &Core<'_>,
    holdings: &mut Vec<Holding>,
    rank: usize,
    number: usize,
) -> Result<(), AllocError>
    requires { rank < length core.now.world.ranks }
    ensures { OnOk result (holdings.new.items ≡ holdings.old.items ++ held.holding_by core.now.program (slice_get core.now.world.ranks rank) number (slice_get core.now.program.decls number)) }
{
    let decls = core.code().decls();
    if number >= decls.len() {
        return Ok(());
    }
    let holding = holding_of(*holdings.allocator(), core, rank, number, &decls[number])?;
    holdings.push(holding)?;
    Ok(())
}

/// Adds that, if it is chosen.
fn push_if(
    core: &Core<'_>,
    holdings: &mut Vec<Holding>,
    rank: usize,
    number: usize,
    is_chosen: bool,
) -> Result<(), AllocError>
    requires { rank < length core.now.world.ranks }
    ensures { OnOk result (holdings.new.items ≡ holdings.old.items ++ held.holding_if core.now.program (slice_get core.now.world.ranks rank) is_chosen number) }
{
    if !is_chosen {
        return Ok(());
    }
    push_holding(core, holdings, rank, number)
}

/// Adds what a rank holds in all variables that are read by what a node does.
fn push_all_read(
    core: &Core<'_>,
    holdings: &mut Vec<Holding>,
    rank: usize,
    action: &Action,
) -> Result<(), AllocError>
    requires { rank < length core.now.world.ranks }
    ensures { OnOk result (holdings.new.items ≡ holdings.old.items ++ held.holdings_if core.now.program (slice_get core.now.world.ranks rank) (λ d. spec.action_reads d action.now)) }
{
    let count = core.code().decls().len();
    for number in 0..count {
        push_if(core, holdings, rank, number, action_reads(action, number))?;
    }
    Ok(())
}

/// Adds what a rank holds in the variables that its next statement reads.
#[tactic(auto, using(crate::proofs::ReadLemmas::standing))]
fn push_read(core: &Core<'_>, holdings: &mut Vec<Holding>, rank: usize) -> Result<(), AllocError>
    ensures { OnOk result (holdings.new.items ≡ holdings.old.items ++ spec.reads_of core.now.program (slice_get core.now.world.ranks rank)) }
{
    if rank >= core.rank_count() {
        return Ok(());
    }
    let code = core.code();
    let Some(number) = core.rank(rank).next_statement(code) else {
        return Ok(());
    };
    let Some(node) = code.node(number) else {
        return Ok(());
    };
    push_all_read(core, holdings, rank, &node.action)
}

/// What a rank holds in the variables that its next statement reads, by their declarations: nothing
/// if it has none, or there is no such rank. `Err` means that memory was refused.
pub fn reads(alloc: Global, core: &Core<'_>, rank: usize) -> Result<HoldingList, AllocError>
    ensures { IfOk result (λ list. list ≡ spec.reads_of core.now.program (slice_get core.now.world.ranks rank)) }
{
    let mut items = Vec::new(alloc);
    push_read(core, &mut items, rank)?;
    Ok(HoldingList { items })
}

/// Adds what a rank holds in all declarations.
fn push_all(core: &Core<'_>, holdings: &mut Vec<Holding>, rank: usize) -> Result<(), AllocError>
    requires { rank < length core.now.world.ranks }
    ensures { OnOk result (holdings.new.items ≡ holdings.old.items ++ held.holdings_if core.now.program (slice_get core.now.world.ranks rank) (λ d. true)) }
{
    let count = core.code().decls().len();
    for number in 0..count {
        push_if(core, holdings, rank, number, true)?;
    }
    Ok(())
}

/// What a rank holds in all declarations: nothing if there is no such rank. `Err` means that memory
/// was refused.
#[tactic(auto, using(crate::proofs::ReadLemmas::absent))]
pub fn holdings(alloc: Global, core: &Core<'_>, rank: usize) -> Result<HoldingList, AllocError>
    ensures { IfOk result (λ list. list ≡ held.holdings_of core.now.program (slice_get core.now.world.ranks rank)) }
{
    let mut items = Vec::new(alloc);
    if rank < core.rank_count() {
        push_all(core, &mut items, rank)?;
    }
    Ok(HoldingList { items })
}
