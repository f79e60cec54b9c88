//! What the steps of a run show, found by a copy of the debugger that goes back and takes them again.

ghost use Rattle.std.specs.Prelude.{◌≡◌, ◌++◌, ◌<◌, ◌≤◌, ◌+◌, ◌∷◌, [], IfOk, OnOk, Some, length, drop, slice_get};
ghost use Rattle.std.specs.List.{flat_map};
ghost use Rattle.std.specs.Option.{option_map};
ghost use Rattle.mpd_model.specs.steps.Next.{next};
ghost use Rattle.mpd_model.specs.steps.World.{rank_numbers, start};
ghost use Rattle.mpd_model.specs.runs.Trail.{done_steps, redone};
ghost use Rattle.mpd_picture.specs.declared.glyph.Deed.TheVariants as deed;
ghost use Rattle.mpd_picture.specs.Glyphs as spec;

use crate::glyph::{Deed, Event, Glyph, Note};
use mpd_core::Core;
use mpd_model::{Activity, CallId, Step};
use mpd_names::rank_line;
use mpd_trail::Debugger;
use std::alloc::{AllocError, Global};

/// Adds what is shown.
fn add(glyphs: &mut Vec<Glyph>, glyph: Glyph) -> Result<(), AllocError>
    ensures { OnOk result (glyphs.new.items ≡ glyphs.old.items ++ glyph ∷ []) }
{
    glyphs.push(glyph)?;
    Ok(())
}

/// What is known of the rank of a local step before it; zeros of another step.
#[derive(Clone, Copy)]
pub(crate) struct Before {
    /// How many calls it had issued.
    calls: usize,
    /// How much it had printed.
    printed: usize,
    /// The line where it stood.
    line: usize,
}

/// How much a rank has printed.
fn printed_of(core: &Core<'_>, rank: usize) -> usize
    ensures { result ≡ spec.printed_of (slice_get core.now.world.ranks rank) }
{
    if rank >= core.rank_count() {
        return 0;
    }
    core.rank(rank).output().len()
}

/// What is known of the rank of a step before it.
fn before_step(core: &Core<'_>, step: Step) -> Before
    ensures { result ≡ spec.before_step core.now.program.lines core.now.world step }
{
    match step {
        Step::Local(rank) => Before {
            calls: core.board().call_count(rank),
            printed: printed_of(core, rank),
            line: rank_line(core, rank),
        },
        Step::Match(_, _) | Step::Wake(_) | Step::WakeAny { .. } | Step::Release => Before {
            calls: 0,
            printed: 0,
            line: 0,
        },
    }
}

/// What stands at a place of what a rank has printed.
fn printed_at(output: &[i64], place: usize) -> Option<Deed>
    ensures { result ≡ option_map deed.Printed (slice_get output.now place) }
{
    if place < output.len() {
        Some(Deed::Printed(output[place]))
    } else {
        None
    }
}

/// What a rank has done by itself that had printed so much.
fn deed_of(core: &Core<'_>, printed: usize, rank: usize) -> Option<Deed>
    ensures { result ≡ spec.deed_of printed (slice_get core.now.world.ranks rank) }
{
    if rank >= core.rank_count() {
        return None;
    }
    let state = core.rank(rank);
    match state.activity() {
        Activity::Trapped(trap) => Some(Deed::Trapped(trap)),
        Activity::Running | Activity::Blocked => printed_at(state.output(), printed),
    }
}

/// Whether a step has issued a call, of a rank that had `before` calls.
fn issues(core: &Core<'_>, before: usize, rank: usize) -> bool
    ensures { result ≡ spec.issues before core.now.world.board rank }
{
    before != core.board().call_count(rank)
}

/// Whether a step takes a row, on the state after it.
fn takes_row(core: &Core<'_>, before: Before, step: Step) -> bool
    ensures { result ≡ spec.takes_row before core.now.world step }
{
    match step {
        Step::Local(rank) => {
            issues(core, before.calls, rank) || deed_of(core, before.printed, rank).is_some()
        }
        Step::Match(_, _) | Step::Release => true,
        Step::Wake(_) | Step::WakeAny { .. } => false,
    }
}

/// Adds that a rank went on after its last call.
fn push_went_on(
    core: &Core<'_>,
    glyphs: &mut Vec<Glyph>,
    row: usize,
    rank: usize,
) -> Result<(), AllocError>
    ensures { OnOk result (glyphs.new.items ≡ glyphs.old.items ++ spec.went_on core.now.world.board row rank) }
{
    let event = Event::WentOn(core.board().last_call(rank));
    add(glyphs, Glyph { row, event })
}

/// Adds that all ranks went on after their last calls.
fn push_all_went_on(core: &Core<'_>, glyphs: &mut Vec<Glyph>, row: usize) -> Result<(), AllocError>
    ensures { OnOk result (glyphs.new.items ≡ glyphs.old.items ++ flat_map (spec.went_on core.now.world.board row) (rank_numbers core.now.world.board)) }
{
    let count = core.rank_count();
    for rank in 0..count {
        push_went_on(core, glyphs, row, rank)?;
    }
    Ok(())
}

/// Adds what a rank has done by itself, if it has.
fn push_noted(
    glyphs: &mut Vec<Glyph>,
    line: usize,
    row: usize,
    rank: usize,
    deed: Option<Deed>,
) -> Result<(), AllocError>
    ensures { OnOk result (glyphs.new.items ≡ glyphs.old.items ++ spec.noted line row rank deed) }
{
    let Some(deed) = deed else {
        return Ok(());
    };
    let event = Event::Noted(Note { rank, line, deed });
    add(glyphs, Glyph { row, event })
}

/// Adds the call that a local step has issued, or what else its rank has done that is shown.
fn push_local(
    core: &Core<'_>,
    glyphs: &mut Vec<Glyph>,
    before: Before,
    row: usize,
    rank: usize,
) -> Result<(), AllocError>
    ensures { OnOk result (glyphs.new.items ≡ glyphs.old.items ++ spec.step_glyphs before core.now.world row (Step.Local rank)) }
{
    if !issues(core, before.calls, rank) {
        let deed = deed_of(core, before.printed, rank);
        return push_noted(glyphs, before.line, row, rank, deed);
    }
    let event = Event::Issued(CallId {
        rank,
        index: before.calls,
    });
    add(glyphs, Glyph { row, event })
}

/// Adds what a step shows, on the state after it.
fn push_step_glyphs(
    core: &Core<'_>,
    glyphs: &mut Vec<Glyph>,
    before: Before,
    row: usize,
    step: Step,
) -> Result<(), AllocError>
    ensures { OnOk result (glyphs.new.items ≡ glyphs.old.items ++ spec.step_glyphs before core.now.world row step) }
{
    match step {
        Step::Local(rank) => push_local(core, glyphs, before, row, rank),
        Step::Match(send, receive) => add(
            glyphs,
            Glyph {
                row,
                event: Event::Paired(send, receive),
            },
        ),
        Step::Wake(rank) | Step::WakeAny { rank, index: _ } => {
            push_went_on(core, glyphs, row.saturating_sub(1), rank)
        }
        Step::Release => {
            add(
                glyphs,
                Glyph {
                    row,
                    event: Event::Released,
                },
            )?;
            push_all_went_on(core, glyphs, row)
        }
    }
}

/// Takes the first step that is undone, adds what it shows, and answers the next row.
fn take_next(
    debugger: &mut Debugger<'_>,
    glyphs: &mut Vec<Glyph>,
    row: usize,
) -> Result<usize, AllocError>
    requires ahead { debugger.old.trail.depth < length debugger.old.trail.steps }
    requires few { row < 9223372036854775808 }
    ensures glyphs { OnOk result ((step : Step) → slice_get debugger.old.trail.steps debugger.old.trail.depth ≡ Some step → glyphs.new.items ≡ glyphs.old.items ++ spec.step_glyphs (spec.before_step debugger.old.trail.program.lines debugger.old.world step) debugger.new.world row step) }
    ensures row { IfOk result (λ behind. (step : Step) → slice_get debugger.old.trail.steps debugger.old.trail.depth ≡ Some step → behind ≡ spec.row_behind (spec.before_step debugger.old.trail.program.lines debugger.old.world step) debugger.new.world row step) }
    ensures few { IfOk result (λ behind. behind ≤ row + 1) }
    ensures leads { OnOk result ((step : Step) → slice_get debugger.old.trail.steps debugger.old.trail.depth ≡ Some step → next debugger.old.world step ≡ Some debugger.new.world) }
    ensures trail { OnOk result (debugger.new.trail ≡ redone debugger.old.trail) }
{
    let Some(step) = debugger.next_undone() else {
        unreachable!();
    };
    let before = before_step(debugger.core(), step);
    if debugger.redo().is_err() {
        return Err(AllocError);
    }
    push_step_glyphs(debugger.core(), glyphs, before, row, step)?;
    if takes_row(debugger.core(), before, step) {
        Ok(row + 1)
    } else {
        Ok(row)
    }
}

/// Takes all steps that are undone, and adds what they show.
fn take_all(debugger: &mut Debugger<'_>, glyphs: &mut Vec<Glyph>) -> Result<(), AllocError>
    requires { debugger.old.trail.depth ≡ 0 }
    ensures { OnOk result (glyphs.new.items ≡ glyphs.old.items ++ spec.glyphs_behind debugger.old.trail.program.lines debugger.old.world 0 debugger.old.trail.steps) }
{
    debugger.state_is_reached();
    let mut row = 0;
    let count = debugger.steps().len();
    for place in 0..count {
        row = take_next(debugger, glyphs, row)?;
    }
    Ok(())
}

/// What the steps show of a debugger that keeps no undone step; it goes back, and takes them again.
#[tactic(auto, using(crate::proofs::GlyphLemmas::going_back))]
fn glyphs_again(alloc: Global, debugger: &mut Debugger<'_>) -> Result<Vec<Glyph>, AllocError>
    requires { length debugger.old.trail.steps ≡ debugger.old.trail.depth }
    ensures { IfOk result (λ glyphs. glyphs.items ≡ spec.glyphs_of debugger.old.trail.program debugger.old.trail.mode (done_steps debugger.old.trail)) }
{
    let mut glyphs = Vec::new(alloc);
    let _ = debugger.undo_to(0);
    take_all(debugger, &mut glyphs)?;
    Ok(glyphs)
}

/// What the steps show that are not undone. `Err` means that memory was refused.
#[tactic(auto, using(crate::proofs::GlyphLemmas::going_back))]
pub(crate) fn glyphs_of(alloc: Global, debugger: &Debugger<'_>) -> Result<Vec<Glyph>, AllocError>
    ensures { IfOk result (λ glyphs. glyphs.items ≡ spec.glyphs_of debugger.now.trail.program debugger.now.trail.mode (done_steps debugger.now.trail)) }
{
    match debugger.copy() {
        Err(_) => Err(AllocError),
        Ok(mut copy) => {
            let glyphs = glyphs_again(alloc, &mut copy);
            drop(copy);
            glyphs
        }
    }
}
