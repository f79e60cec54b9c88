//! By what a state differs from the one before it (docs/PAGES.md, "Changes").

ghost use Rattle.std.specs.Prelude.{◌≡◌, ◌++◌, IfOk, OnOk, Some, length, map, slice_get};
ghost use Rattle.std.specs.Option.{option_map};
ghost use Rattle.mpd_model.specs.steps.World.{call_at};
ghost use Rattle.mpd_page.specs.Changes as spec;

use crate::places::{RankPlace, nowhere, place};
use crate::reasons::{Reason, reason_of};
use crate::same::{same_place, same_reason};
use mpd_core::Core;
use mpd_model::{CallId, CallKind, Step};
use mpd_names::issue_line;
use std::alloc::{AllocError, Global};
use std::marker::Model;

// ---- what may differ

/// A rank stands at another place.
#[derive(Clone, Copy)]
pub struct PlaceChange {
    pub rank: usize,
    pub place: RankPlace,
}

/// Places of ranks, as contracts see them.
#[derive(Drop)]
pub struct PlaceChangeList {
    pub items: Vec<PlaceChange>,
}

impl Model for PlaceChangeList {
    ghost use Rattle.std.specs.Prelude.{List};
    ghost use Rattle.mpd_page.specs.declared.changes.PlaceChange.{PlaceChange};

    ghost Value = { List PlaceChange };

    ghost view = { λ l. l.items.items };
}

/// A cell of a rank holds another value.
#[derive(Clone, Copy)]
pub struct CellChange {
    pub rank: usize,
    pub cell: usize,
    pub value: i64,
}

/// Values of cells, as contracts see them.
#[derive(Drop)]
pub struct CellChangeList {
    pub items: Vec<CellChange>,
}

impl Model for CellChangeList {
    ghost use Rattle.std.specs.Prelude.{List};
    ghost use Rattle.mpd_page.specs.declared.changes.CellChange.{CellChange};

    ghost Value = { List CellChange };

    ghost view = { λ l. l.items.items };
}

/// A handle of a rank has another call, or none.
#[derive(Clone, Copy)]
pub struct HandleChange {
    pub rank: usize,
    pub handle: usize,
    /// The number of the call, which is one of the rank.
    pub call: Option<usize>,
}

/// Calls of handles, as contracts see them.
#[derive(Drop)]
pub struct HandleChangeList {
    pub items: Vec<HandleChange>,
}

impl Model for HandleChangeList {
    ghost use Rattle.std.specs.Prelude.{List};
    ghost use Rattle.mpd_page.specs.declared.changes.HandleChange.{HandleChange};

    ghost Value = { List HandleChange };

    ghost view = { λ l. l.items.items };
}

/// A rank has printed a value.
#[derive(Clone, Copy)]
pub struct Printed {
    pub rank: usize,
    pub value: i64,
}

/// Values that were printed, as contracts see them.
#[derive(Drop)]
pub struct PrintedList {
    pub items: Vec<Printed>,
}

impl Model for PrintedList {
    ghost use Rattle.std.specs.Prelude.{List};
    ghost use Rattle.mpd_page.specs.declared.changes.Printed.{Printed};

    ghost Value = { List Printed };

    ghost view = { λ l. l.items.items };
}

/// What is shown of a call.
#[derive(Clone, Copy)]
pub struct ShownCall {
    /// The line, from 1, of the statement that issued it.
    pub line: usize,
    pub kind: CallKind,
}

/// A rank has issued a call, the next of its calls.
#[derive(Clone, Copy)]
pub struct NewCall {
    pub rank: usize,
    pub call: ShownCall,
}

/// A rank waits for another reason, or no longer waits.
#[derive(Drop)]
pub struct ReasonChange {
    pub rank: usize,
    pub reason: Reason,
}

/// Reasons of ranks, as contracts see them.
#[derive(Drop)]
pub struct ReasonChangeList {
    pub items: Vec<ReasonChange>,
}

impl Model for ReasonChangeList {
    ghost use Rattle.std.specs.Prelude.{List};
    ghost use Rattle.mpd_page.specs.declared.changes.ReasonChange.{ReasonChange};
    ghost use Rattle.mpd_page.specs.ChangeCodes.{changes_code};

    ghost Value = { List ReasonChange };

    ghost coded = { changes_code };

    ghost view = { λ l. l.items.items };
}

/// By what a state differs from the one from which a step leads there. Entries stand by rank, and
/// those of a rank by cell.
#[derive(Drop)]
pub struct NodeChange {
    pub places: PlaceChangeList,
    pub cells: CellChangeList,
    pub handles: HandleChangeList,
    pub printed: PrintedList,
    /// The call that a local step has issued.
    pub call: Option<NewCall>,
    pub reasons: ReasonChangeList,
}

// ---- where ranks stand

/// Adds the place of a rank, if it is another than it was.
fn push_place_if(
    out: &mut Vec<PlaceChange>,
    rank: usize,
    was: RankPlace,
    now: RankPlace,
) -> Result<(), AllocError>
    ensures { OnOk result (out.new.items ≡ out.old.items ++ spec.place_if rank was now) }
{
    if same_place(was, now) {
        return Ok(());
    }
    out.push(PlaceChange { rank, place: now })?;
    Ok(())
}

/// Adds where a rank stands, if it is another place than it was.
fn push_place(
    before: &Core<'_>,
    after: &Core<'_>,
    out: &mut Vec<PlaceChange>,
    rank: usize,
) -> Result<(), AllocError>
    requires { after.now.program ≡ before.now.program }
    ensures { OnOk result (out.new.items ≡ out.old.items ++ spec.place_entry before.now.program before.now.world after.now.world rank) }
{
    push_place_if(out, rank, place(before, rank), place(after, rank))
}

/// Where ranks stand elsewhere.
fn places_changed(
    alloc: Global,
    before: &Core<'_>,
    after: &Core<'_>,
) -> Result<PlaceChangeList, AllocError>
    requires { after.now.program ≡ before.now.program }
    ensures { IfOk result (λ list. list ≡ spec.places_changed before.now.program before.now.world after.now.world) }
{
    let mut items = Vec::new(alloc);
    let count = after.rank_count();
    for rank in 0..count {
        push_place(before, after, &mut items, rank)?;
    }
    Ok(PlaceChangeList { items })
}

/// Adds where a rank stands at the start, if that isn't where it was before.
fn push_first_place(
    core: &Core<'_>,
    out: &mut Vec<PlaceChange>,
    rank: usize,
) -> Result<(), AllocError>
    ensures { OnOk result (out.new.items ≡ out.old.items ++ spec.first_entry core.now.program core.now.world rank) }
{
    push_place_if(out, rank, nowhere(), place(core, rank))
}

/// Where ranks stand at the start.
fn first_places(alloc: Global, core: &Core<'_>) -> Result<PlaceChangeList, AllocError>
    ensures { IfOk result (λ list. list ≡ spec.first_places core.now.program core.now.world) }
{
    let mut items = Vec::new(alloc);
    let count = core.rank_count();
    for rank in 0..count {
        push_first_place(core, &mut items, rank)?;
    }
    Ok(PlaceChangeList { items })
}

// ---- what ranks hold

/// What a rank holds in its variables.
#[tactic(auto, using(crate::proofs::ChangeLemmas::none_held))]
fn variables<'r>(core: &'r Core<'_>, rank: usize) -> &'r [i64]
    ensures { result.now ≡ spec.vars_of (slice_get core.now.world.ranks rank) }
{
    if rank >= core.rank_count() {
        return &[];
    }
    core.rank(rank).variables()
}

/// What its handles have.
#[tactic(auto, using(crate::proofs::ChangeLemmas::none_held))]
fn handles<'r>(core: &'r Core<'_>, rank: usize) -> &'r [Option<usize>]
    ensures { result.now ≡ spec.handles_of (slice_get core.now.world.ranks rank) }
{
    if rank >= core.rank_count() {
        return &[];
    }
    core.rank(rank).handles()
}

/// What it has printed.
#[tactic(auto, using(crate::proofs::ChangeLemmas::none_held))]
fn output<'r>(core: &'r Core<'_>, rank: usize) -> &'r [i64]
    ensures { result.now ≡ spec.out_of (slice_get core.now.world.ranks rank) }
{
    if rank >= core.rank_count() {
        return &[];
    }
    core.rank(rank).output()
}

/// Adds the value of a cell, if it is another than it was.
fn push_value_if(
    out: &mut Vec<CellChange>,
    rank: usize,
    cell: usize,
    was: i64,
    now: i64,
) -> Result<(), AllocError>
    ensures { OnOk result (out.new.items ≡ out.old.items ++ spec.value_by rank cell (Some was) (Some now)) }
{
    if was == now {
        return Ok(());
    }
    out.push(CellChange {
        rank,
        cell,
        value: now,
    })?;
    Ok(())
}

/// Adds the value of a cell, if it was there and is, and is another than it was.
fn push_value_by(
    out: &mut Vec<CellChange>,
    rank: usize,
    cell: usize,
    was: Option<i64>,
    now: Option<i64>,
) -> Result<(), AllocError>
    ensures { OnOk result (out.new.items ≡ out.old.items ++ spec.value_by rank cell was now) }
{
    match (was, now) {
        (Some(was), Some(now)) => push_value_if(out, rank, cell, was, now),
        (None, _) | (Some(_), None) => Ok(()),
    }
}

/// The value of a cell, if there is one.
fn value_at(values: &[i64], cell: usize) -> Option<i64>
    ensures { result ≡ slice_get values.now cell }
{
    values.get(cell).copied()
}

/// Adds the value of a cell of a rank, if it is another than it was.
fn push_value(
    out: &mut Vec<CellChange>,
    rank: usize,
    was: &[i64],
    now: &[i64],
    cell: usize,
) -> Result<(), AllocError>
    ensures { OnOk result (out.new.items ≡ out.old.items ++ spec.value_changed rank was.now now.now cell) }
{
    push_value_by(out, rank, cell, value_at(was, cell), value_at(now, cell))
}

/// Adds the cells of a rank that hold another value.
fn push_cells(
    out: &mut Vec<CellChange>,
    rank: usize,
    was: &[i64],
    now: &[i64],
) -> Result<(), AllocError>
    ensures { OnOk result (out.new.items ≡ out.old.items ++ spec.cells_changed rank was.now now.now) }
{
    let count = now.len();
    for cell in 0..count {
        push_value(out, rank, was, now, cell)?;
    }
    Ok(())
}

/// Adds the cells of a rank that hold another value, given both states.
fn push_values_at(
    before: &Core<'_>,
    after: &Core<'_>,
    out: &mut Vec<CellChange>,
    rank: usize,
) -> Result<(), AllocError>
    ensures { OnOk result (out.new.items ≡ out.old.items ++ spec.values_at before.now.world after.now.world rank) }
{
    push_cells(out, rank, variables(before, rank), variables(after, rank))
}

/// The cells of all ranks that hold another value.
fn values_changed(
    alloc: Global,
    before: &Core<'_>,
    after: &Core<'_>,
) -> Result<CellChangeList, AllocError>
    ensures { IfOk result (λ list. list ≡ spec.values_changed before.now.world after.now.world) }
{
    let mut items = Vec::new(alloc);
    let count = after.rank_count();
    for rank in 0..count {
        push_values_at(before, after, &mut items, rank)?;
    }
    Ok(CellChangeList { items })
}

/// Whether two handles have the same call, or none.
fn is_same_call(one: Option<usize>, other: Option<usize>) -> bool
    ensures { result ≡ spec.same_call one other }
{
    match (one, other) {
        (None, None) => true,
        (Some(one), Some(other)) => one == other,
        (None, Some(_)) | (Some(_), None) => false,
    }
}

/// Adds the call of a handle, if it is another than it was.
fn push_handle_if(
    out: &mut Vec<HandleChange>,
    rank: usize,
    handle: usize,
    was: Option<usize>,
    now: Option<usize>,
) -> Result<(), AllocError>
    ensures { OnOk result (out.new.items ≡ out.old.items ++ spec.handle_by rank handle (Some was) (Some now)) }
{
    if is_same_call(was, now) {
        return Ok(());
    }
    out.push(HandleChange {
        rank,
        handle,
        call: now,
    })?;
    Ok(())
}

/// Adds the call of a handle, if the handle was there and is, and the call is another than it was.
fn push_handle_by(
    out: &mut Vec<HandleChange>,
    rank: usize,
    handle: usize,
    was: Option<Option<usize>>,
    now: Option<Option<usize>>,
) -> Result<(), AllocError>
    ensures { OnOk result (out.new.items ≡ out.old.items ++ spec.handle_by rank handle was now) }
{
    match (was, now) {
        (Some(was), Some(now)) => push_handle_if(out, rank, handle, was, now),
        (None, _) | (Some(_), None) => Ok(()),
    }
}

/// The call of a handle, if there is such a handle.
fn handle_at(handles: &[Option<usize>], handle: usize) -> Option<Option<usize>>
    ensures { result ≡ slice_get handles.now handle }
{
    handles.get(handle).copied()
}

/// Adds the call of a handle of a rank, if it is another than it was.
fn push_handle(
    out: &mut Vec<HandleChange>,
    rank: usize,
    was: &[Option<usize>],
    now: &[Option<usize>],
    cell: usize,
) -> Result<(), AllocError>
    ensures { OnOk result (out.new.items ≡ out.old.items ++ spec.handle_changed rank was.now now.now cell) }
{
    push_handle_by(out, rank, cell, handle_at(was, cell), handle_at(now, cell))
}

/// Adds the handles of a rank that have another call.
fn push_requests(
    out: &mut Vec<HandleChange>,
    rank: usize,
    was: &[Option<usize>],
    now: &[Option<usize>],
) -> Result<(), AllocError>
    ensures { OnOk result (out.new.items ≡ out.old.items ++ spec.requests_changed rank was.now now.now) }
{
    let count = now.len();
    for cell in 0..count {
        push_handle(out, rank, was, now, cell)?;
    }
    Ok(())
}

/// Adds the handles of a rank that have another call, given both states.
fn push_handles_at(
    before: &Core<'_>,
    after: &Core<'_>,
    out: &mut Vec<HandleChange>,
    rank: usize,
) -> Result<(), AllocError>
    ensures { OnOk result (out.new.items ≡ out.old.items ++ spec.handles_at before.now.world after.now.world rank) }
{
    push_requests(out, rank, handles(before, rank), handles(after, rank))
}

/// The handles of all ranks that have another call.
fn handles_changed(
    alloc: Global,
    before: &Core<'_>,
    after: &Core<'_>,
) -> Result<HandleChangeList, AllocError>
    ensures { IfOk result (λ list. list ≡ spec.handles_changed before.now.world after.now.world) }
{
    let mut items = Vec::new(alloc);
    let count = after.rank_count();
    for rank in 0..count {
        push_handles_at(before, after, &mut items, rank)?;
    }
    Ok(HandleChangeList { items })
}

// ---- what ranks have printed

/// The values after the first `count`.
fn values_behind(count: usize, values: &[i64]) -> &[i64]
    ensures { result.now ≡ spec.values_behind count values.now }
{
    let (_, behind) = values.split_at(count.min(values.len()));
    behind
}

/// Adds values that a rank has printed.
fn push_all_printed(out: &mut Vec<Printed>, rank: usize, values: &[i64]) -> Result<(), AllocError>
    ensures { OnOk result (out.new.items ≡ out.old.items ++ map (spec.printed_entry rank) values.now) }
{
    for value in values {
        out.push(Printed {
            rank,
            value: *value,
        })?;
    }
    Ok(())
}

/// Adds what a rank has printed since.
fn push_printed_at(
    before: &Core<'_>,
    after: &Core<'_>,
    out: &mut Vec<Printed>,
    rank: usize,
) -> Result<(), AllocError>
    ensures { OnOk result (out.new.items ≡ out.old.items ++ spec.printed_at before.now.world after.now.world rank) }
{
    let count = output(before, rank).len();
    push_all_printed(out, rank, values_behind(count, output(after, rank)))
}

/// What all ranks have printed since.
fn printed_since(
    alloc: Global,
    before: &Core<'_>,
    after: &Core<'_>,
) -> Result<PrintedList, AllocError>
    ensures { IfOk result (λ list. list ≡ spec.printed before.now.world after.now.world) }
{
    let mut items = Vec::new(alloc);
    let count = after.rank_count();
    for rank in 0..count {
        push_printed_at(before, after, &mut items, rank)?;
    }
    Ok(PrintedList { items })
}

// ---- the call that a step has issued

/// The call of this number, as one that its rank has issued.
fn new_call(core: &Core<'_>, id: CallId) -> Option<NewCall>
    ensures { result ≡ option_map (spec.new_call core.now.program id.rank) (call_at core.now.world.board id) }
{
    let call = core.board().call(id)?;
    Some(NewCall {
        rank: id.rank,
        call: ShownCall {
            line: issue_line(core, id),
            kind: call.kind,
        },
    })
}

/// The call that a local step has issued.
fn issued_by(before: &Core<'_>, after: &Core<'_>, step: Step) -> Option<NewCall>
    ensures { result ≡ spec.issued_by after.now.program before.now.world after.now.world step }
{
    match step {
        Step::Local(rank) => {
            let index = before.board().call_count(rank);
            new_call(after, CallId { rank, index })
        }
        Step::Match(_, _) | Step::Wake(_) | Step::WakeAny { rank: _, index: _ } | Step::Release => {
            None
        }
    }
}

// ---- why ranks wait

/// Adds why a rank waits, if it is another reason than it was.
fn push_reason_if(
    out: &mut Vec<ReasonChange>,
    rank: usize,
    was: Reason,
    now: Reason,
) -> Result<(), AllocError>
    ensures { OnOk result (out.new.items ≡ out.old.items ++ spec.reason_if rank was now) }
{
    if same_reason(&was, &now) {
        return Ok(());
    }
    out.push(ReasonChange { rank, reason: now })?;
    Ok(())
}

/// Adds why a rank waits, if that is another reason than it was, given both states.
fn push_reason(
    before: &Core<'_>,
    after: &Core<'_>,
    out: &mut Vec<ReasonChange>,
    rank: usize,
) -> Result<(), AllocError>
    ensures { OnOk result (out.new.items ≡ out.old.items ++ spec.reason_entry before.now.world after.now.world rank) }
{
    let alloc = *out.allocator();
    let was = reason_of(alloc, before, rank)?;
    let now = reason_of(alloc, after, rank)?;
    push_reason_if(out, rank, was, now)
}

/// The ranks that wait for another reason.
fn reasons_changed(
    alloc: Global,
    before: &Core<'_>,
    after: &Core<'_>,
) -> Result<ReasonChangeList, AllocError>
    ensures { IfOk result (λ list. list ≡ spec.reasons_changed before.now.world after.now.world) }
{
    let mut items = Vec::new(alloc);
    let count = after.rank_count();
    for rank in 0..count {
        push_reason(before, after, &mut items, rank)?;
    }
    Ok(ReasonChangeList { items })
}

// ---- all of it

/// By what a state differs from the one from which a step leads there.
pub(crate) fn node_change(
    alloc: Global,
    before: &Core<'_>,
    after: &Core<'_>,
    step: Step,
) -> Result<NodeChange, AllocError>
    requires { after.now.program ≡ before.now.program }
    ensures { IfOk result (λ c. c ≡ spec.node_change before.now.program before.now.world after.now.world step) }
{
    let places = places_changed(alloc, before, after)?;
    let cells = values_changed(alloc, before, after)?;
    let handles = handles_changed(alloc, before, after)?;
    let printed = printed_since(alloc, before, after)?;
    let reasons = reasons_changed(alloc, before, after)?;
    Ok(NodeChange {
        places,
        cells,
        handles,
        printed,
        call: issued_by(before, after, step),
        reasons,
    })
}

/// By what the start differs from what was before it.
pub(crate) fn first_change(alloc: Global, core: &Core<'_>) -> Result<NodeChange, AllocError>
    ensures { IfOk result (λ c. c ≡ spec.first_change core.now.program core.now.world) }
{
    let places = first_places(alloc, core)?;
    Ok(NodeChange {
        places,
        cells: CellChangeList {
            items: Vec::new(alloc),
        },
        handles: HandleChangeList {
            items: Vec::new(alloc),
        },
        printed: PrintedList {
            items: Vec::new(alloc),
        },
        call: None,
        reasons: ReasonChangeList {
            items: Vec::new(alloc),
        },
    })
}
