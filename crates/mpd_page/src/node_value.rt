//! States of a page as JSON (docs/PAGES.md, "Changes").

use crate::changes::{
    CellChange, HandleChange, NewCall, NodeChange, PlaceChange, Printed, ReasonChange,
};
use crate::node::{Lead, Node};
use crate::places::Doing;
use crate::reasons::{Awaited, Prospect, Reason};
use mpd_model::{CallId, CallKind, Mode, RecvCall, SendCall, Step, recv_word, send_word};
use mpd_object::{Object, Row, numbers};
use serde_json::Value;
use std::alloc::{AllocError, Global};

/// A call as its rank and its number.
fn id_value(alloc: Global, call: CallId) -> Result<Value, AllocError> {
    Row::new(alloc).number(call.rank).number(call.index).done()
}

/// A step as its word, and the ranks or calls that it is about.
fn step_value(alloc: Global, step: Step) -> Result<Value, AllocError> {
    let row = Row::new(alloc);
    let row = match step {
        Step::Local(rank) => row.text("local").number(rank),
        Step::Match(send, receive) => row
            .text("match")
            .with(id_value(alloc, send))
            .with(id_value(alloc, receive)),
        Step::Wake(rank) => row.text("wake").number(rank),
        Step::WakeAny { rank, index } => row.text("wakeany").number(rank).number(index),
        Step::Release => row.text("release"),
    };
    row.done()
}

/// Steps as a list.
fn steps_value(alloc: Global, steps: &[Step]) -> Result<Value, AllocError> {
    let mut values = Vec::new(alloc);
    for step in steps {
        values.push(step_value(alloc, *step)?)?;
    }
    Ok(Value::Array(values))
}

// ---- changes

/// Where ranks stand: the rank, the line, and what it is doing if it can't run.
fn places_value(alloc: Global, places: &[PlaceChange]) -> Result<Value, AllocError> {
    let mut values = Vec::new(alloc);
    for change in places {
        let row = Row::new(alloc)
            .number(change.rank)
            .number(change.place.line);
        let row = match change.place.doing {
            Doing::Runs => row,
            Doing::Blocked => row.text("blocked"),
            Doing::Trapped(trap) => row.text("trapped").text(trap.name()),
            Doing::Ended => row.text("ended"),
        };
        values.push(row.done()?)?;
    }
    Ok(Value::Array(values))
}

/// Cells: the rank, the cell, and the text of its value.
fn cells_value(alloc: Global, cells: &[CellChange]) -> Result<Value, AllocError> {
    let mut values = Vec::new(alloc);
    for change in cells {
        let row = Row::new(alloc)
            .number(change.rank)
            .number(change.cell)
            .number_text(change.value);
        values.push(row.done()?)?;
    }
    Ok(Value::Array(values))
}

/// Handles: the rank, the handle, and the number of its call, or null.
fn handles_value(alloc: Global, handles: &[HandleChange]) -> Result<Value, AllocError> {
    let mut values = Vec::new(alloc);
    for change in handles {
        let row = Row::new(alloc)
            .number(change.rank)
            .number(change.handle)
            .number_or_null(change.call);
        values.push(row.done()?)?;
    }
    Ok(Value::Array(values))
}

/// What was printed: the rank, and the text of the value.
fn printed_value(alloc: Global, printed: &[Printed]) -> Result<Value, AllocError> {
    let mut values = Vec::new(alloc);
    for change in printed {
        let row = Row::new(alloc)
            .number(change.rank)
            .number_text(change.value);
        values.push(row.done()?)?;
    }
    Ok(Value::Array(values))
}

/// A send. Whether it was buffered is told in a mode whose buffers run out.
fn at_send(object: Object, mode: Mode, send: SendCall) -> Object {
    let object = object
        .text("kind", send_word(send.synchronous, send.blocks))
        .number("to", send.to)
        .number("tag", send.tag)
        .shown("value", send.value);
    match mode {
        Mode::Slots(_) if send.buffered => object.flag("buffered", true),
        _ => object,
    }
}

/// A receive, without what may be any.
fn at_receive(object: Object, receive: RecvCall) -> Object {
    let object = object.text("kind", recv_word(receive.blocks));
    object
        .number_if("from", receive.from)
        .number_if("tag", receive.tag)
}

/// A call, by its fields.
fn call_value(alloc: Global, mode: Mode, call: NewCall) -> Result<Value, AllocError> {
    let object = Object::new(alloc).number("line", call.call.line);
    let object = match call.call.kind {
        CallKind::Send(send) => at_send(object, mode, send),
        CallKind::Recv(receive) => at_receive(object, receive),
        CallKind::Wait(wait) => object.text("kind", "wait").number_if("for", wait.target),
        CallKind::Waitany(wait) => {
            let object = object
                .text("kind", "waitany")
                .number("first", wait.first)
                .number("count", wait.count);
            if wait.active {
                object
            } else {
                object.flag("none", true)
            }
        }
        CallKind::Barrier => object.text("kind", "barrier"),
    };
    object.done()
}

/// With the call that was issued, if one was.
fn with_call(object: Object, alloc: Global, mode: Mode, call: Option<NewCall>) -> Object {
    match call {
        None => object,
        Some(call) => object.with("c", call_value(alloc, mode, call)),
    }
}

// ---- why ranks wait

/// Calls that another could be matched with: each as a list, behind it the call that holds the
/// match back, if one does.
fn partners_value(
    alloc: Global,
    partners: &[(CallId, Option<CallId>)],
) -> Result<Value, AllocError> {
    let mut values = Vec::new(alloc);
    for partner in partners {
        let (call, holder) = *partner;
        let row = Row::new(alloc).with(id_value(alloc, call));
        let row = match holder {
            None => row,
            Some(holder) => row.with(id_value(alloc, holder)),
        };
        values.push(row.done()?)?;
    }
    Ok(Value::Array(values))
}

/// Sends and receives that are waited for.
fn awaited_value(alloc: Global, awaited: &[Awaited]) -> Result<Value, AllocError> {
    let mut values = Vec::new(alloc);
    for one in awaited {
        let object = Object::new(alloc).with("call", id_value(alloc, one.call));
        let object = match &one.prospect {
            Prospect::Complete => object.flag("complete", true),
            Prospect::Fits(list) => { object.with_some("fits", partners_value(alloc, &list.items)) }
        };
        values.push(object.done()?)?;
    }
    Ok(Value::Array(values))
}

/// Why a rank waits: null of one that doesn't.
fn reason_value(alloc: Global, reason: &Reason) -> Result<Value, AllocError> {
    match reason {
        Reason::NoWait => Ok(Value::Null),
        Reason::AtBarrier(absent) => Object::new(alloc)
            .with("absent", numbers(alloc, &absent.items))
            .done(),
        Reason::For(awaited) => awaited_value(alloc, &awaited.items),
    }
}

/// Why ranks wait: the rank, and why.
fn reasons_value(alloc: Global, reasons: &[ReasonChange]) -> Result<Value, AllocError> {
    let mut values = Vec::new(alloc);
    for change in reasons {
        let row = Row::new(alloc)
            .number(change.rank)
            .with(reason_value(alloc, &change.reason));
        values.push(row.done()?)?;
    }
    Ok(Value::Array(values))
}

// ---- states

/// With how a state is come to. `last` is the number of the state before it.
fn with_lead(object: Object, alloc: Global, last: usize, lead: Option<Lead>) -> Object {
    let Some(lead) = lead else {
        return object;
    };
    let object = object
        .with("s", step_value(alloc, lead.step))
        .number_if("n", lead.number);
    if lead.from == last {
        object
    } else {
        object.number("p", lead.from)
    }
}

/// With what changed.
fn with_change(object: Object, alloc: Global, mode: Mode, change: &NodeChange) -> Object {
    let object = object
        .with_some("d", places_value(alloc, &change.places.items))
        .with_some("v", cells_value(alloc, &change.cells.items))
        .with_some("h", handles_value(alloc, &change.handles.items))
        .with_some("o", printed_value(alloc, &change.printed.items));
    with_call(object, alloc, mode, change.call).with_some(
        "w",
        reasons_value(alloc, &change.reasons.items),
    )
}

/// What is told of a state. `last` is the number of the state before it.
pub(crate) fn node_value(
    alloc: Global,
    mode: Mode,
    last: usize,
    node: &Node,
) -> Result<Value, AllocError> {
    let object = with_lead(Object::new(alloc), alloc, last, node.lead);
    with_change(object, alloc, mode, &node.change)
        .with_some("k", steps_value(alloc, &node.candidates.items))
        .done()
}
