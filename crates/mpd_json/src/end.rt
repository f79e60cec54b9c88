//! How a run ended, with what is known of that.

use crate::place::{ToldScript, at_call, at_line, calls_value};
use mpd_explain::{Absence, AwaitedRank, Cycle, End, Miss, TrapPlace, Wait, Wish};
use mpd_model::CallId;
use mpd_names::{Held, Holding, PlacedCall, Stands};
use mpd_object::{Object, numbers};
use serde_json::Value;
use std::alloc::{AllocError, Global};

/// By what a call misses another.
fn miss_word(miss: Miss) -> &'static str {
    match miss {
        Miss::Tag => "tag",
        Miss::Source => "source",
        Miss::Destination => "destination",
    }
}

/// A call that isn't matched: what nearly fits it, and what would have, and is taken.
fn at_wish(alloc: Global, script: ToldScript<'_>, wish: &Wish) -> Object {
    let nearest = match wish.nearest {
        None => Ok(Value::Null),
        Some(near) => at_call(alloc, script, near.call)
            .text("misses", miss_word(near.miss))
            .done(),
    };
    let taken = match wish.taken {
        None => Ok(Value::Null),
        Some(taken) => at_call(alloc, script, taken.call)
            .with("by", at_call(alloc, script, taken.by).done())
            .done(),
    };
    at_call(alloc, script, wish.call)
        .with("nearest_miss", nearest)
        .with("taken", taken)
}

/// Calls that aren't matched, as a list.
fn wishes_value(
    alloc: Global,
    script: ToldScript<'_>,
    wishes: &[Wish],
) -> Result<Value, AllocError> {
    let mut values = Vec::new(alloc);
    for wish in wishes {
        values.push(at_wish(alloc, script, wish).done()?)?;
    }
    Ok(Value::Array(values))
}

/// An object of where a rank stands that waits in a call.
fn standing_in(alloc: Global, script: ToldScript<'_>, word: &str, call: PlacedCall) -> Object {
    at_line(alloc, script, call.line)
        .text("stands", word)
        .with("call", at_call(alloc, script, call).done())
}

/// An object of where a rank stands.
fn standing(alloc: Global, script: ToldScript<'_>, stands: Option<Stands>) -> Object {
    match stands {
        None => Object::new(alloc).null("stands"),
        Some(Stands::Ended) => Object::new(alloc).text("stands", "ended"),
        Some(Stands::At(line)) => at_line(alloc, script, line).text("stands", "at"),
        Some(Stands::Waits(call)) => standing_in(alloc, script, "waits", call),
        Some(Stands::CanGoOn(call)) => standing_in(alloc, script, "can_go_on", call),
        Some(Stands::Trapped(line, trap)) => at_line(alloc, script, line)
            .text("stands", "trapped")
            .text("trap", trap.name()),
    }
}

/// Ranks that are not at a barrier, as a list.
fn absences_value(
    alloc: Global,
    script: ToldScript<'_>,
    absences: &[Absence],
) -> Result<Value, AllocError> {
    let mut values = Vec::new(alloc);
    for absence in absences {
        let value = standing(alloc, script, absence.stands).number("rank", absence.rank);
        values.push(value.done()?)?;
    }
    Ok(Value::Array(values))
}

/// Ranks that are waited for, as a list.
fn awaited_value(alloc: Global, ranks: &[AwaitedRank]) -> Result<Value, AllocError> {
    let mut values = Vec::new(alloc);
    for awaited in ranks {
        let value = Object::new(alloc)
            .number("rank", awaited.rank)
            .flag("has_ended", awaited.has_ended);
        values.push(value.done()?)?;
    }
    Ok(Value::Array(values))
}

/// What ranks wait in, as a list.
fn waits_value(alloc: Global, script: ToldScript<'_>, waits: &[Wait]) -> Result<Value, AllocError> {
    let mut values = Vec::new(alloc);
    for wait in waits {
        let requests = wishes_value(alloc, script, &wait.requests.items);
        let absent = absences_value(alloc, script, &wait.absent.items);
        let value = at_wish(alloc, script, &wait.wish)
            .with("requests", requests)
            .with("absent", absent)
            .with("awaited", awaited_value(alloc, &wait.awaited.items));
        values.push(value.done()?)?;
    }
    Ok(Value::Array(values))
}

/// Cycles of ranks, each as a list.
fn cycles_value(alloc: Global, cycles: &[Cycle]) -> Result<Value, AllocError> {
    let mut values = Vec::new(alloc);
    for cycle in cycles {
        values.push(numbers(alloc, &cycle.ranks)?)?;
    }
    Ok(Value::Array(values))
}

/// Values of cells, as a list.
fn cells_value(alloc: Global, rank: usize, held: &Held) -> Result<Value, AllocError> {
    let mut values = Vec::new(alloc);
    match held {
        Held::Values(cells) => {
            for cell in &cells.items {
                values.push(Value::from(*cell))?;
            }
        }
        Held::Calls(calls) => {
            for index in &calls.items {
                let value = match *index {
                    None => Value::Null,
                    Some(index) => {
                        let name = format!(in alloc; "{}", CallId { rank, index })?;
                        Value::try_from_str(alloc, name.as_str())?
                    }
                };
                values.push(value)?;
            }
        }
    }
    Ok(Value::Array(values))
}

/// What a rank holds in some declarations, by their names.
fn reads_value(
    alloc: Global,
    script: ToldScript<'_>,
    rank: usize,
    holdings: &[Holding],
) -> Result<Value, AllocError> {
    let mut object = Object::new(alloc);
    for holding in holdings {
        if let Some(decl) = script.code.decls().get(holding.declaration) {
            let cells = cells_value(alloc, rank, &holding.held);
            object = object.with(decl.name.as_str(), cells);
        }
    }
    object.done()
}

/// Trapped ranks with what they read, as a list.
fn traps_value(
    alloc: Global,
    script: ToldScript<'_>,
    traps: &[TrapPlace],
) -> Result<Value, AllocError> {
    let mut values = Vec::new(alloc);
    for trap in traps {
        let reads = reads_value(alloc, script, trap.rank, &trap.reads.items);
        let value = at_line(alloc, script, trap.line)
            .number("rank", trap.rank)
            .text("trap", trap.trap.name())
            .with("reads", reads);
        values.push(value.done()?)?;
    }
    Ok(Value::Array(values))
}

/// How a run ended, with what is known of that.
pub(crate) fn end_value(
    alloc: Global,
    script: ToldScript<'_>,
    end: &End,
) -> Result<Value, AllocError> {
    let object = Object::new(alloc);
    let object = match end {
        End::Cut => object.text("ends", "cut"),
        End::Done => object.text("ends", "done"),
        End::Leftovers(calls) => object
            .text("ends", "leftovers")
            .with("left", calls_value(alloc, script, &calls.items)),
        End::Deadlock {
            waits,
            cycles,
            left,
        } => object
            .text("ends", "deadlock")
            .with("waits", waits_value(alloc, script, &waits.items))
            .with("cycles", cycles_value(alloc, &cycles.items))
            .with("left", calls_value(alloc, script, &left.items)),
        End::Trap(traps) => object
            .text("ends", "trap")
            .with("traps", traps_value(alloc, script, &traps.items)),
    };
    object.done()
}
