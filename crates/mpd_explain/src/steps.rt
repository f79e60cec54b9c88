//! Steps with the calls and lines that they are about, on the state before them.

ghost use Rattle.std.specs.Prelude.{◌≡◌, ◌++◌, IfOk, OnOk, map};
ghost use Rattle.std.specs.Option.{option_map};
ghost use Rattle.mpd_model.specs.steps.Next.{any_call};
ghost use Rattle.mpd_explain.specs.Steps as spec;

use mpd_core::Core;
use mpd_model::{CallId, Message, Step};
use mpd_names::{PlacedCall, placed_call, rank_line};
use std::alloc::{AllocError, Global};
use std::marker::Model;

/// A request that a waitany goes on by.
#[derive(Clone, Copy)]
pub struct Completed {
    /// Its handle, by its number among all handles of a rank, from 0.
    pub handle: Option<usize>,
    /// Its call.
    pub call: PlacedCall,
    /// What it got, if it is a receive that is matched.
    pub got: Option<Message>,
}

/// A step, with the calls and lines that it is about.
#[derive(Clone, Copy)]
pub enum PlacedStep {
    /// A rank runs the statement at this line, from 1.
    Local {
        rank: usize,
        line: usize,
    },
    /// A send and a receive are matched.
    Match {
        send: PlacedCall,
        receive: PlacedCall,
    },
    /// The rank of this call goes on from it.
    Wake(PlacedCall),
    /// The rank of this waitany goes on from it.
    WakeAny {
        call: PlacedCall,
        /// Which of its requests it goes on by, from 0.
        index: usize,
        /// That request, if its handle has one.
        request: Option<Completed>,
    },
    /// All ranks leave a barrier.
    Release,
}

impl PlacedStep {
    /// The step alone.
    pub fn step(self) -> Step
        ensures { result ≡ spec.step_of self }
    {
        match self {
            PlacedStep::Local { rank, line: _ } => Step::Local(rank),
            PlacedStep::Match { send, receive } => Step::Match(send.call, receive.call),
            PlacedStep::Wake(call) => Step::Wake(call.call.rank),
            PlacedStep::WakeAny {
                call,
                index,
                request: _,
            } => Step::WakeAny {
                rank: call.call.rank,
                index,
            },
            PlacedStep::Release => Step::Release,
        }
    }

    /// The call that it is chosen for, if it is a candidate of a choice: the receive of a match,
    /// and the waitany that a rank goes on from.
    pub fn chooser(self) -> Option<PlacedCall>
        ensures { result ≡ spec.chooser self }
    {
        match self {
            PlacedStep::Match { send: _, receive } => Some(receive),
            PlacedStep::WakeAny { call, .. } => Some(call),
            PlacedStep::Local { .. } | PlacedStep::Wake(_) | PlacedStep::Release => None,
        }
    }
}

/// Steps with the calls and lines that they are about, as contracts see them.
#[derive(Drop)]
pub struct PlacedStepList {
    pub items: Vec<PlacedStep>,
}

impl Model for PlacedStepList {
    ghost use Rattle.std.specs.Prelude.{List};
    ghost use Rattle.mpd_explain.specs.declared.steps.PlacedStep.{PlacedStep};

    ghost Value = { List PlacedStep };

    ghost view = { λ l. l.items.items };
}

/// The request of an index of the waitany that a rank has issued last, if its handle has a call.
fn completed_of(core: &Core<'_>, rank: usize, index: usize) -> Option<Completed>
    ensures { result ≡ option_map (spec.completed_of core.now.program core.now.world rank index) (any_call core.now.world rank index) }
{
    match core.request(rank, index) {
        None => None,
        Some(request) => Some(Completed {
            handle: Some(request.handle),
            call: placed_call(core, request.call),
            got: core.board().buffer(request.call),
        }),
    }
}

/// A step, with the calls and lines that it is about, on the state before it.
pub fn placed_step(core: &Core<'_>, step: Step) -> PlacedStep
    ensures { result ≡ spec.placed_step_of core.now.program core.now.world step }
{
    match step {
        Step::Local(rank) => PlacedStep::Local {
            rank,
            line: rank_line(core, rank),
        },
        Step::Match(send, receive) => PlacedStep::Match {
            send: placed_call(core, send),
            receive: placed_call(core, receive),
        },
        Step::Wake(rank) => PlacedStep::Wake(placed_call(core, core.board().last_call(rank))),
        Step::WakeAny { rank, index } => PlacedStep::WakeAny {
            call: placed_call(core, core.board().last_call(rank)),
            index,
            request: completed_of(core, rank, index),
        },
        Step::Release => PlacedStep::Release,
    }
}

/// Steps, each on this state. `Err` means that memory was refused.
pub fn placed_steps(
    alloc: Global,
    core: &Core<'_>,
    steps: &[Step],
) -> Result<PlacedStepList, AllocError>
    ensures { IfOk result (λ placed. placed ≡ map (spec.placed_step_of core.now.program core.now.world) steps.now) }
{
    let mut items = Vec::new(alloc);
    for step in steps {
        items.push(placed_step(core, *step))?;
    }
    Ok(PlacedStepList { items })
}

/// The steps that are enabled, in the order in which they are listed (docs/DEFINITIONS.md,
/// "Order").
/// `Err` means that memory was refused.
pub fn enabled_steps(alloc: Global, core: &Core<'_>) -> Result<PlacedStepList, AllocError>
    ensures { IfOk result (λ placed. placed ≡ spec.enabled_steps core.now.program core.now.world) }
{
    let steps = core.enabled(alloc)?;
    placed_steps(alloc, core, &steps)
}
