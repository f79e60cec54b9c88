//! How a run has ended.

ghost use Rattle.std.specs.Prelude.{◌≡◌, ◌<◌, length, IfOk, OnErr};
ghost use Rattle.mpd_model.specs.steps.Outcomes.{ids_of};

use crate::call::Trap;
use crate::step::CallId;
use std::alloc::{AllocError, Global};
use std::marker::Model;

/// A rank that is trapped, at which statement, by its number in text order, and why.
#[derive(Clone, Copy)]
pub struct TrappedRank {
    pub rank: usize,
    pub statement: usize,
    pub trap: Trap,
}

/// Calls, by rank and then by number, which contracts see as a list.
#[derive(Drop)]
pub struct CallList {
    pub items: Vec<CallId>,
}

impl Model for CallList {
    ghost use Rattle.std.specs.Prelude.{List};
    ghost use Rattle.mpd_model.specs.declared.step.CallId.{CallId};

    ghost Value = { List CallId };

    ghost view = { λ l. l.items.items };
}

/// A call, and the statement that issued it, by its number in text order.
#[derive(Clone, Copy)]
pub struct IssuedCall {
    pub id: CallId,
    pub statement: usize,
}

/// Calls with their statements, by rank and then by number, which contracts see as a list.
#[derive(Drop)]
pub struct IssuedList {
    pub items: Vec<IssuedCall>,
}

impl Model for IssuedList {
    ghost use Rattle.std.specs.Prelude.{List};
    ghost use Rattle.mpd_model.specs.declared.outcome.IssuedCall.{IssuedCall};

    ghost Value = { List IssuedCall };

    ghost view = { λ l. l.items.items };
}

/// The calls alone.
fn ids_of(alloc: Global, calls: &[IssuedCall]) -> Result<Vec<CallId>, AllocError>
    ensures ok { IfOk result (λ ids. ids.items ≡ ids_of calls.now) }
    ensures memory { OnErr result (0 < length calls.now) }
{
    let mut ids = Vec::new(alloc);
    for call in calls {
        ids.push(call.id)?;
    }
    Ok(ids)
}

impl IssuedList {
    /// The calls alone. `Err` means that memory was refused, which happens only if there is one.
    pub fn ids(&self, alloc: Global) -> Result<CallList, AllocError>
        ensures ok { IfOk result (λ ids. ids ≡ ids_of self.now) }
        ensures memory { OnErr result (0 < length self.now) }
    {
        let items = ids_of(alloc, &self.items)?;
        Ok(CallList { items })
    }
}

/// Trapped ranks in ascending order, which contracts see as a list.
#[derive(Drop)]
pub struct TrapList {
    pub items: Vec<TrappedRank>,
}

impl Model for TrapList {
    ghost use Rattle.std.specs.Prelude.{List};
    ghost use Rattle.mpd_model.specs.declared.outcome.TrappedRank.{TrappedRank};

    ghost Value = { List TrappedRank };

    ghost view = { λ l. l.items.items };
}

/// The outcome of a state in which no step is enabled (docs/DEFINITIONS.md, "Outcomes").
#[derive(Drop)]
pub enum Outcome {
    /// Every rank has ended, and no call is free.
    Done,
    /// Every rank has ended, and these calls are still free.
    Leftovers(IssuedList),
    /// These ranks' last calls block them.
    Deadlock(IssuedList),
    /// These ranks are trapped.
    Trap(TrapList),
}
