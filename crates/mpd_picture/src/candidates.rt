//! The candidates of a choice at the end of a picture (docs/PICTURES.md, "Shapes").

ghost use Rattle.std.specs.Prelude.{◌≡◌, ◌++◌, ◌<◌, ◌+◌, ◌∷◌, [], length, IfOk, OnOk};
ghost use Rattle.std.specs.List.{list_all};
ghost use Rattle.mpd_model.specs.steps.Next.{any_call};
ghost use Rattle.mpd_picture.specs.Shapes as spec;

use crate::marks::Marks;
use crate::shape::Shape;
use mpd_core::Core;
use mpd_model::{CallId, CallKind, Step};
use mpd_names::placed_call;
use std::alloc::{AllocError, Global};

/// Whether somebody has to choose a step: a match of a receive of any source, or by which request a
/// waitany goes on.
fn is_choice(core: &Core<'_>, step: Step) -> bool
    ensures { result ≡ spec.is_choice core.now.world.board step }
{
    match step {
        Step::Match(_, receive) => match core.board().kind(receive) {
            Some(CallKind::Recv(recv)) => recv.from.is_none(),
            None
            | Some(CallKind::Send(_))
            | Some(CallKind::Wait(_))
            | Some(CallKind::Waitany(_))
            | Some(CallKind::Barrier) => false,
        },
        Step::WakeAny { .. } => true,
        Step::Local(_) | Step::Wake(_) | Step::Release => false,
    }
}

/// Whether all steps are.
fn are_choices(core: &Core<'_>, steps: &[Step]) -> bool
    ensures { result ≡ list_all (spec.is_choice core.now.world.board) steps.now }
{
    for step in steps {
        if !is_choice(core, *step) {
            return false;
        }
    }
    true
}

/// Adds a request of a waitany with its number, if it is a call.
fn push_request(
    core: &Core<'_>,
    marks: &Marks,
    shapes: &mut Vec<Shape>,
    number: usize,
    wait: CallId,
    call: Option<CallId>,
) -> Result<(), AllocError>
    ensures { OnOk result (shapes.new.items ≡ shapes.old.items
        ++ spec.request_shapes core.now.program core.now.world.board marks.now number wait call) }
{
    let Some(call) = call else {
        return Ok(());
    };
    shapes.push(Shape::Request {
        call: placed_call(core, call),
        from: marks.row_of(call),
        to: marks.row_of(wait),
        number,
    })?;
    Ok(())
}

/// The call of the request of an index, of the waitany that a rank has issued last.
fn request_call(core: &Core<'_>, rank: usize, index: usize) -> Option<CallId>
    ensures { result ≡ any_call core.now.world rank index }
{
    match core.request(rank, index) {
        None => None,
        Some(request) => Some(request.call),
    }
}

/// Adds a candidate with its number.
fn push_candidate(
    core: &Core<'_>,
    marks: &Marks,
    shapes: &mut Vec<Shape>,
    number: usize,
    step: Step,
) -> Result<(), AllocError>
    ensures { OnOk result (shapes.new.items ≡ shapes.old.items
        ++ spec.candidate_shapes core.now.program core.now.world marks.now number step) }
{
    match step {
        Step::Match(send, receive) => {
            shapes.push(Shape::Candidate {
                send: placed_call(core, send),
                from: marks.row_of(send),
                receive,
                to: marks.row_of(receive),
                number,
            })?;
            Ok(())
        }
        Step::WakeAny { rank, index } => {
            let wait = core.board().last_call(rank);
            let call = request_call(core, rank, index);
            push_request(core, marks, shapes, number, wait, call)
        }
        Step::Local(_) | Step::Wake(_) | Step::Release => Ok(()),
    }
}

/// Adds candidates, counted from 1.
fn push_listed(
    core: &Core<'_>,
    marks: &Marks,
    shapes: &mut Vec<Shape>,
    steps: &[Step],
) -> Result<(), AllocError>
    ensures { OnOk result (shapes.new.items ≡ shapes.old.items
        ++ spec.candidates_from core.now.program core.now.world marks.now 1 steps.now) }
{
    let mut before = 0;
    for step in steps {
        push_candidate(core, marks, shapes, before + 1, *step)?;
        before += 1;
    }
    Ok(())
}

/// Adds the candidates of the choice at the end, if there is one. `Err` means that memory was
/// refused.
#[tactic(auto, unfolding(crate::specs::Shapes::candidates))]
pub(crate) fn push_candidates(
    alloc: Global,
    core: &Core<'_>,
    marks: &Marks,
    shapes: &mut Vec<Shape>,
) -> Result<(), AllocError>
    ensures { OnOk result (shapes.new.items ≡ shapes.old.items
        ++ spec.candidates_from core.now.program core.now.world marks.now 1
        (spec.candidates core.now.world)) }
{
    let steps = core.enabled(alloc)?;
    if are_choices(core, &steps) {
        push_listed(core, marks, shapes, &steps)
    } else {
        Ok(())
    }
}
