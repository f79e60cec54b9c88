//! The shapes of a picture, from the marks of the steps and where they lead.

ghost use Rattle.std.specs.Prelude.{◌≡◌, ◌++◌, ◌∷◌, [], IfOk, OnOk};
ghost use Rattle.std.specs.List.{flat_map};
ghost use Rattle.mpd_model.specs.steps.World.{rank_numbers};
ghost use Rattle.mpd_picture.specs.Shapes as spec;

use crate::candidates::push_candidates;
use crate::ends::finish_of;
use crate::glyph::{Event, Glyph, Mark};
use crate::marks::{Marks, is_row};
use crate::shape::Shape;
use mpd_core::Core;
use mpd_model::{CallId, CallKind};
use mpd_names::{PlacedCall, is_blocked, placed_call};
use std::alloc::{AllocError, Global};

/// Adds a shape.
fn add(shapes: &mut Vec<Shape>, shape: Shape) -> Result<(), AllocError>
    ensures { OnOk result (shapes.new.items ≡ shapes.old.items ++ shape ∷ []) }
{
    shapes.push(shape)?;
    Ok(())
}

/// How many places the list of what is told has.
pub(crate) fn places_of(glyphs: &[Glyph]) -> usize
    ensures { result ≡ spec.places_of glyphs.now }
{
    let mut places = 0;
    for glyph in glyphs {
        if is_row(glyph.event) {
            places += 1;
        }
    }
    places
}

/// Adds what is shown of a call that stays free.
fn push_free(
    shapes: &mut Vec<Shape>,
    rows: usize,
    call: PlacedCall,
    row: usize,
) -> Result<(), AllocError>
    ensures { OnOk result (shapes.new.items ≡ shapes.old.items
        ++ spec.free_shapes call row rows call.kind) }
{
    match call.kind {
        Some(CallKind::Send(_)) => add(shapes, Shape::Stub { call, row }),
        Some(CallKind::Recv(_)) => {
            add(
                shapes,
                Shape::Posted {
                    call: call.call,
                    from: row,
                    to: rows,
                },
            )?;
            add(shapes, Shape::Stub { call, row })
        }
        None | Some(CallKind::Wait(_)) | Some(CallKind::Waitany(_)) | Some(CallKind::Barrier) => {
            Ok(())
        }
    }
}

/// Adds what is shown of a call.
fn push_call(
    core: &Core<'_>,
    shapes: &mut Vec<Shape>,
    rows: usize,
    call: CallId,
    row: usize,
    place: usize,
) -> Result<(), AllocError>
    ensures { OnOk result (shapes.new.items ≡ shapes.old.items
        ++ spec.call_shapes core.now.program core.now.world.board rows call row place) }
{
    let is_free = core.board().is_free(call);
    let call = placed_call(core, call);
    if is_free {
        push_free(shapes, rows, call, row)?;
    }
    add(
        shapes,
        Shape::Call {
            call,
            row,
            place,
            is_free,
        },
    )
}

/// Adds what is shown of a match.
fn push_pair(
    core: &Core<'_>,
    marks: &Marks,
    shapes: &mut Vec<Shape>,
    pair: (CallId, CallId),
    row: usize,
    place: usize,
) -> Result<(), AllocError>
    ensures { OnOk result (shapes.new.items ≡ shapes.old.items
        ++ spec.pair_shapes core.now.program core.now.world.board marks.now pair.0 pair.1 row
        place) }
{
    let (send, receive) = pair;
    add(
        shapes,
        Shape::Posted {
            call: receive,
            from: marks.row_of(receive),
            to: row,
        },
    )?;
    add(
        shapes,
        Shape::Arrow {
            send: placed_call(core, send),
            from: marks.row_of(send),
            receive,
            to: row,
            place,
        },
    )
}

/// Adds the shapes of a mark.
fn push_mark(
    core: &Core<'_>,
    marks: &Marks,
    shapes: &mut Vec<Shape>,
    rows: usize,
    mark: Mark,
) -> Result<(), AllocError>
    ensures { OnOk result (shapes.new.items ≡ shapes.old.items
        ++ spec.mark_shapes core.now.program core.now.world.board marks.now rows mark) }
{
    let Mark { row, place, event } = mark;
    match event {
        Event::Issued(call) => push_call(core, shapes, rows, call, row, place),
        Event::Paired(send, receive) => {
            push_pair(core, marks, shapes, (send, receive), row, place)
        }
        Event::WentOn(call) => add(
            shapes,
            Shape::Waiting {
                rank: call.rank,
                from: marks.row_of(call),
                to: row,
            },
        ),
        Event::Released => add(shapes, Shape::Bar { row, place }),
        Event::Noted(note) => add(shapes, Shape::Note { note, row, place }),
    }
}

/// Adds the shapes of listed marks, among all.
fn push_marks(
    core: &Core<'_>,
    marks: &Marks,
    list: &[Mark],
    shapes: &mut Vec<Shape>,
    rows: usize,
) -> Result<(), AllocError>
    ensures { OnOk result (shapes.new.items ≡ shapes.old.items
        ++ flat_map (spec.mark_shapes core.now.program core.now.world.board marks.now rows)
        list.now) }
{
    for mark in list {
        push_mark(core, marks, shapes, rows, *mark)?;
    }
    Ok(())
}

/// Adds a lane.
fn push_lane(shapes: &mut Vec<Shape>, rank: usize, rows: usize) -> Result<(), AllocError>
    ensures { OnOk result (shapes.new.items ≡ shapes.old.items ++ spec.lane_shapes rows rank) }
{
    add(shapes, Shape::Lane { rank, row: rows })
}

/// Adds the lanes.
fn push_lanes(core: &Core<'_>, shapes: &mut Vec<Shape>, rows: usize) -> Result<(), AllocError>
    ensures { OnOk result (shapes.new.items ≡ shapes.old.items
        ++ flat_map (spec.lane_shapes rows) (rank_numbers core.now.world.board)) }
{
    let count = core.rank_count();
    for rank in 0..count {
        push_lane(shapes, rank, rows)?;
    }
    Ok(())
}

/// Adds how a rank is at the end.
fn push_end(
    alloc: Global,
    core: &Core<'_>,
    marks: &Marks,
    shapes: &mut Vec<Shape>,
    rows: usize,
    rank: usize,
) -> Result<(), AllocError>
    ensures { OnOk result (shapes.new.items ≡ shapes.old.items
        ++ spec.end_shapes core.now.program core.now.world marks.now rows rank) }
{
    if is_blocked(core, rank) {
        add(
            shapes,
            Shape::Waiting {
                rank,
                from: marks.row_of(core.board().last_call(rank)),
                to: rows,
            },
        )?;
    }
    let finish = finish_of(alloc, core, rank)?;
    add(
        shapes,
        Shape::End {
            rank,
            row: rows,
            finish,
        },
    )
}

/// Adds how all ranks are at the end.
fn push_ends(
    alloc: Global,
    core: &Core<'_>,
    marks: &Marks,
    shapes: &mut Vec<Shape>,
    rows: usize,
) -> Result<(), AllocError>
    ensures { OnOk result (shapes.new.items ≡ shapes.old.items
        ++ flat_map (spec.end_shapes core.now.program core.now.world marks.now rows)
        (rank_numbers core.now.world.board)) }
{
    let count = core.rank_count();
    for rank in 0..count {
        push_end(alloc, core, marks, shapes, rows, rank)?;
    }
    Ok(())
}

/// The shapes of a run with these marks, in the state where it leads. `Err` means that memory was
/// refused.
pub(crate) fn shapes_of(
    alloc: Global,
    core: &Core<'_>,
    marks: &Marks,
) -> Result<Vec<Shape>, AllocError>
    ensures { IfOk result (λ shapes. shapes.items
        ≡ spec.shapes_of core.now.program core.now.world marks.now) }
{
    let rows = marks.rows();
    let mut shapes = Vec::new(alloc);
    push_lanes(core, &mut shapes, rows)?;
    push_marks(core, marks, marks.items(), &mut shapes, rows)?;
    push_candidates(alloc, core, marks, &mut shapes)?;
    push_ends(alloc, core, marks, &mut shapes, rows)?;
    Ok(shapes)
}
