//! Commands on breakpoints.

ghost use Rattle.std.specs.Prelude.{◌≡◌, ◌-◌, ◌<◌, ◌++◌, IfOk, OnOk, OnErr, IfSome, IfNone, codes, map, length, is_some, slice_get, string_bytes};
ghost use Rattle.std.specs.Fmt.{decimal};
ghost use Rattle.mpd_session.specs.Effects as spec;
ghost use Rattle.mpd_session.specs.Effects.{break_effect, unbreak_effect, breaks_effect, hit_effect, break_text, line_text, match_text, place_texts};
ghost use Rattle.mpd_model.specs.runs.Breakpoints.{cell_at, break_at};
ghost use Rattle.mpd_trail.specs.DebuggerViews.{standing_of};

use crate::effect::{Effect, is_within};
use crate::limits::LINES_MAX;
use crate::looks::push_text;
use crate::reply::{Answer, Refusal, TextList};
use mpd_core::Core;
use mpd_model::{BREAKS_MAX, Breakpoint, Condition, push_compared, push_meant};
use mpd_policy::{Breaks, last_hit};
use mpd_trail::Debugger;
use std::alloc::{AllocError, Global};

/// Whether a rank has a cell.
#[tactic(auto, using(crate::proofs::LookLemmas::holding))]
fn has_cell(core: &Core<'_>, rank: usize, cell: usize) -> bool
    ensures { result ≡ is_some (cell_at core.now.world rank cell) }
{
    if rank >= core.rank_count() {
        return false;
    }
    core.rank(rank).variables().get(cell).is_some()
}

/// Whether a rank has a handle.
#[tactic(auto, using(crate::proofs::LookLemmas::handling))]
fn has_handle(core: &Core<'_>, rank: usize, handle: usize) -> bool
    ensures { result ≡ spec.has_handle (slice_get core.now.world.ranks rank) handle }
{
    if rank >= core.rank_count() {
        return false;
    }
    handle < core.rank(rank).handle_count()
}

/// Whether the rank that is meant is there, if one is.
fn has_meant(core: &Core<'_>, of: Option<usize>) -> bool
    ensures { result ≡ spec.has_meant core.now.world of }
{
    match of {
        None => true,
        Some(rank) => rank < core.rank_count(),
    }
}

/// The rank that is meant, or the first.
fn first_meant(of: Option<usize>) -> usize
    ensures { result ≡ spec.first_meant of }
{
    match of {
        None => 0,
        Some(rank) => rank,
    }
}

/// Whether there is the cell that a condition names, if there is one: all ranks have the same
/// cells.
fn has_compared(core: &Core<'_>, of: Option<usize>, when: Option<Condition>) -> bool
    ensures { result ≡ spec.has_compared core.now.world of when }
{
    match when {
        None => true,
        Some(condition) => has_cell(core, first_meant(of), condition.cell),
    }
}

/// Whether there is what a breakpoint names.
pub fn is_there(core: &Core<'_>, stop: Breakpoint) -> bool
    ensures { result ≡ spec.is_there core.now.world stop }
{
    match stop {
        Breakpoint::Line { line, of, when } => {
            is_within(1, LINES_MAX, line) && (has_meant(core, of) && has_compared(core, of, when))
        }
        Breakpoint::Change { rank, cell } => has_cell(core, rank, cell),
        Breakpoint::Handle { rank, handle } => has_handle(core, rank, handle),
        Breakpoint::Match { line, of } => is_within(1, LINES_MAX, line) && has_meant(core, of),
        Breakpoint::Rank(rank) => rank < core.rank_count(),
    }
}

/// Adds a breakpoint. It takes no memory.
#[tactic(auto, using(crate::proofs::BreakLemmas::adding))]
pub fn add(core: &Core<'_>, breaks: &mut Breaks, stop: Breakpoint) -> Effect
    ensures effect { result ≡ (break_effect breaks.old core.now.world stop).0 }
    ensures breaks { breaks.new ≡ (break_effect breaks.old core.now.world stop).1 }
{
    if !is_there(core, stop) {
        return Effect::Refused(Refusal::BadNumber);
    }
    match breaks.add_breakpoint(stop) {
        None => Effect::Refused(Refusal::BreaksFull),
        Some(number) => Effect::Changed(Answer::Added(number)),
    }
}

/// Takes a breakpoint away. It takes no memory.
#[tactic(auto, using(crate::proofs::BreakLemmas::adding))]
pub fn remove(breaks: &mut Breaks, number: usize) -> Effect
    ensures effect { result ≡ (unbreak_effect breaks.old number).0 }
    ensures breaks { breaks.new ≡ (unbreak_effect breaks.old number).1 }
{
    if breaks.breakpoint(number).is_none() {
        return Effect::Refused(Refusal::NoSuchBreak);
    }
    let _ = breaks.remove(number);
    Effect::Changed(Answer::Removed)
}

/// Adds what must hold, with its cell by number, if something must.
fn push_when(out: &mut String, when: Option<Condition>) -> Result<(), AllocError>
    ensures { OnOk result (string_bytes out.new ≡ string_bytes out.old ++ spec.when_text when) }
{
    let Some(condition) = when else {
        return Ok(());
    };
    let cell = condition.cell;
    write!(out, " if {cell}")?;
    push_compared(out, condition.comparison, condition.value)
}

/// A breakpoint of a line as text. `Err` means that memory was refused.
fn line_text_of(
    alloc: Global,
    number: usize,
    line: usize,
    of: Option<usize>,
    when: Option<Condition>,
) -> Result<String, AllocError>
    ensures { IfOk result (λ t. string_bytes t ≡ decimal number ++ line_text line of when) }
{
    let mut text = format!(in alloc; "{number} line {line}")?;
    push_meant(&mut text, of)?;
    push_when(&mut text, when)?;
    Ok(text)
}

/// A breakpoint of a match as text. `Err` means that memory was refused.
fn match_text_of(
    alloc: Global,
    number: usize,
    line: usize,
    of: Option<usize>,
) -> Result<String, AllocError>
    ensures { IfOk result (λ t. string_bytes t ≡ decimal number ++ match_text line of) }
{
    let mut text = format!(in alloc; "{number} match {line}")?;
    push_meant(&mut text, of)?;
    Ok(text)
}

/// A breakpoint as text. `Err` means that memory was refused.
fn text_of(alloc: Global, number: usize, stop: Breakpoint) -> Result<String, AllocError>
    ensures { IfOk result (λ t. string_bytes t ≡ decimal number ++ break_text stop) }
{
    match stop {
        Breakpoint::Line { line, of, when } => line_text_of(alloc, number, line, of, when),
        Breakpoint::Change { rank, cell } => format!(in alloc; "{number} change {rank} {cell}"),
        Breakpoint::Handle { rank, handle } => format!(in alloc; "{number} handle {rank} {handle}"),
        Breakpoint::Match { line, of } => match_text_of(alloc, number, line, of),
        Breakpoint::Rank(rank) => format!(in alloc; "{number} rank {rank}"),
    }
}

/// Adds the text of a place, if there is a breakpoint.
fn push_place(
    alloc: Global,
    texts: &mut Vec<String>,
    number: usize,
    place: Option<Breakpoint>,
) -> Result<(), AllocError>
    ensures { OnOk result (map string_bytes texts.new.items ≡ map string_bytes texts.old.items ++ place_texts number place) }
{
    if let Some(stop) = place {
        push_text(texts, text_of(alloc, number, stop)?)?;
    }
    Ok(())
}

/// Lists the breakpoints. `Err` means that memory was refused.
pub fn list(alloc: Global, breaks: &Breaks) -> Result<Effect, AllocError>
    ensures { IfOk result (λ effect. effect ≡ breaks_effect breaks.now) }
{
    let mut items = Vec::new(alloc);
    let count = BREAKS_MAX;
    for number in 0..count {
        push_place(alloc, &mut items, number, breaks.breakpoint(number))?;
    }
    Ok(Effect::Told(Answer::Breaks(TextList { items })))
}

/// Tells which breakpoint the last step hits. `Err` means that memory was refused, which happens
/// only if a step is taken; nothing changes in any case.
pub fn hit(debugger: &mut Debugger<'_>, breaks: &Breaks) -> Result<Effect, AllocError>
    ensures effect { IfOk result (λ effect. effect ≡ hit_effect breaks.now debugger.old.trail) }
    ensures trail { debugger.new.trail ≡ debugger.old.trail }
    ensures taken { OnErr result (0 < debugger.old.trail.depth) }
{
    let hit = last_hit(debugger, breaks)?;
    Ok(Effect::Told(Answer::Hit(hit)))
}
