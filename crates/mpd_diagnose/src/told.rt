//! What is said of a script by the ends that its runs come to (docs/FORMATS.md, "Diagnosis").

use crate::along::LeafEnd;
use crate::cause::{Cause, EndKind};
use crate::commands::{Picture, modes_command, picture_file, push_run, sample_command};
use crate::diagnosis::{Diagnosis, Runs};
use crate::groups::Group;
use crate::verdict::{
    always_fails, always_hangs, always_traps, ends_well, fails_both, is_drawn, tries_modes,
};
use crate::words::Named;
use mpd_blame::{Blame, MarkedBlame, PlacedBlame};
use mpd_explain::push_end;
use mpd_explore::SearchLeaf;
use mpd_lines::push_folded;
use mpd_model::Mode;
use mpd_names::Marks;
use mpd_outcomes::Count;
use mpd_runs::{WayCounts, is_count, sees_all};
use std::alloc::{AllocError, Global};

/// Adds a count, or that it is none that can be held.
pub(crate) fn push_number(out: &mut String, count: Count) -> Result<(), AllocError> {
    match count {
        Count::Exactly(number) => write!(out, "{number}"),
        Count::More => out.push_str("more than can be counted"),
    }
}

/// Adds how many runs there are.
pub(crate) fn push_runs(out: &mut String, count: Count) -> Result<(), AllocError> {
    match count {
        Count::Exactly(number) => {
            write!(out, "{number}")?;
            out.push_str(if number == 1 { " run" } else { " runs" })
        }
        Count::More => out.push_str("more runs than can be counted"),
    }
}

/// Adds that so many are the first, where there are more.
fn push_first_if(out: &mut String, more: bool) -> Result<(), AllocError> {
    if more {
        out.push_str("the first ")
    } else {
        Ok(())
    }
}

/// Adds how many runs were looked at, and that they are the first if there are more. Of one run
/// that isn't said.
fn push_those(out: &mut String, total: Count, more: bool) -> Result<(), AllocError> {
    match total {
        Count::Exactly(number) => {
            push_first_if(out, more && number > 1)?;
            push_runs(out, total)
        }
        Count::More => push_runs(out, total),
    }
}

/// Adds how many of all runs do something, or of the first where there are more.
fn push_share(out: &mut String, count: Count, total: Count, more: bool) -> Result<(), AllocError> {
    match count {
        Count::Exactly(number) => {
            write!(out, "{number} of ")?;
            push_those(out, total, more)
        }
        Count::More => push_runs(out, count),
    }
}

/// Adds how many states there are.
fn push_states(out: &mut String, states: usize) -> Result<(), AllocError> {
    write!(out, "{states}")?;
    out.push_str(if states == 1 { " state" } else { " states" })
}

/// Adds a line of how many runs do something, where some do.
fn push_line_if(
    out: &mut String,
    before: &str,
    count: Count,
    counts: WayCounts,
    after: &str,
) -> Result<(), AllocError> {
    if is_count(count, 0) {
        return Ok(());
    }
    out.push_str(before)?;
    push_share(out, count, counts.total, counts.more)?;
    out.push_str(after)?;
    out.push('\n')
}

/// Adds the mode.
pub(crate) fn push_in_mode(out: &mut String, mode: Mode) -> Result<(), AllocError> {
    write!(out, " in {mode}")
}

/// Adds that no run hangs or traps, of all there are.
fn push_never(out: &mut String, mode: Mode, total: Count, states: usize) -> Result<(), AllocError> {
    out.push_str("it never hangs or traps")?;
    push_in_mode(out, mode)?;
    out.push_str(", whatever is taken first (")?;
    push_runs(out, total)?;
    out.push_str(", ")?;
    push_states(out, states)?;
    out.push_str(")")?;
    Ok(())
}

/// Adds that of the runs that were looked at none does.
fn push_none_found(out: &mut String, mode: Mode, counts: WayCounts) -> Result<(), AllocError> {
    out.push_str("no hang and no trap was found in ")?;
    push_those(out, counts.total, counts.more)?;
    push_in_mode(out, mode)?;
    Ok(())
}

/// Adds that no run hangs or traps, of all there are or of those that were looked at.
fn push_well(
    out: &mut String,
    mode: Mode,
    counts: WayCounts,
    states: usize,
) -> Result<(), AllocError> {
    if sees_all(counts) {
        push_never(out, mode, counts.total, states)
    } else {
        push_none_found(out, mode, counts)
    }
}

/// Adds the line of it, where it is so.
fn push_well_line(
    out: &mut String,
    mode: Mode,
    counts: WayCounts,
    states: usize,
) -> Result<(), AllocError> {
    if !ends_well(counts) {
        return Ok(());
    }
    push_well(out, mode, counts, states)?;
    out.push('\n')
}

/// After how many steps so many runs are cut.
fn cut_after(alloc: Global, cut: Count, fuel: usize) -> Result<String, AllocError> {
    let mut out = String::new(alloc);
    out.push_str(if is_count(cut, 1) { " was" } else { " were" })?;
    write!(out, " cut after {fuel} steps")?;
    Ok(out)
}

/// Adds that there are more runs, where there are.
fn push_more(out: &mut String, more: bool) -> Result<(), AllocError> {
    if !more {
        return Ok(());
    }
    out.push_str("not everything was tried: there are more runs than these\n")
}

/// Adds how many runs end with calls left over.
fn push_left(out: &mut String, counts: WayCounts) -> Result<(), AllocError> {
    push_line_if(
        out,
        "it can end with calls left over: ",
        counts.leftovers,
        counts,
        "",
    )
}

/// Adds the lines of what was not tried: runs that are cut after so many steps, and others.
fn push_untried(
    alloc: Global,
    out: &mut String,
    counts: WayCounts,
    fuel: usize,
) -> Result<(), AllocError> {
    let after = cut_after(alloc, counts.cut, fuel)?;
    push_line_if(
        out,
        "not everything was tried: ",
        counts.cut,
        counts,
        &after,
    )?;
    push_more(out, counts.more)?;
    Ok(())
}

/// Adds the line of what every run does.
fn push_always(out: &mut String, does: &str, mode: Mode, total: Count) -> Result<(), AllocError> {
    out.push_str(does)?;
    push_in_mode(out, mode)?;
    out.push_str(" (")?;
    push_runs(out, total)?;
    out.push_str(")")?;
    out.push_str("\n")?;
    Ok(())
}

/// Adds what some runs do in this mode.
fn push_does(out: &mut String, does: &str, mode: Mode) -> Result<(), AllocError> {
    out.push_str(does)?;
    push_in_mode(out, mode)?;
    out.push_str(": ")
}

/// Adds the line of what some runs do in this mode, if some do.
fn push_can(
    out: &mut String,
    does: &str,
    mode: Mode,
    count: Count,
    counts: WayCounts,
) -> Result<(), AllocError> {
    let is_none = is_count(count, 0);
    if is_none {
        return Ok(());
    }
    let WayCounts { total, more, .. } = counts;
    push_does(out, does, mode)?;
    push_share(out, count, total, more)?;
    out.push('\n')
}

/// Adds how many runs hang.
fn push_hang(out: &mut String, mode: Mode, counts: WayCounts) -> Result<(), AllocError> {
    if always_hangs(counts) {
        push_always(out, "it always hangs", mode, counts.total)
    } else {
        push_can(out, "it can hang", mode, counts.deadlock, counts)
    }
}

/// Adds how many runs trap.
fn push_trap(out: &mut String, mode: Mode, counts: WayCounts) -> Result<(), AllocError> {
    if always_traps(counts) {
        push_always(out, "it always traps", mode, counts.total)
    } else {
        push_can(out, "it can trap", mode, counts.trap, counts)
    }
}

/// Adds how many runs hang, and how many trap, by a line each.
fn push_each(out: &mut String, mode: Mode, counts: WayCounts) -> Result<(), AllocError> {
    push_hang(out, mode, counts)?;
    push_trap(out, mode, counts)?;
    Ok(())
}

/// Adds the line of it.
fn push_both(out: &mut String, mode: Mode, counts: WayCounts) -> Result<(), AllocError> {
    out.push_str("it always fails")?;
    push_in_mode(out, mode)?;
    out.push_str(": it hangs in ")?;
    push_share(out, counts.deadlock, counts.total, counts.more)?;
    out.push_str(" and traps in ")?;
    push_number(out, counts.trap)?;
    out.push_str("\n")?;
    Ok(())
}

/// Adds how many runs hang, and how many trap.
fn push_bad(out: &mut String, mode: Mode, counts: WayCounts) -> Result<(), AllocError> {
    if fails_both(counts) {
        push_both(out, mode, counts)
    } else {
        push_each(out, mode, counts)
    }
}

/// What becomes of the runs in a mode that a diagnosis was come to, which have so many steps at
/// most: a line for each thing that is said. `Err` means that memory was refused.
pub fn verdict_text(
    alloc: Global,
    mode: Mode,
    fuel: usize,
    diagnosis: &Diagnosis,
) -> Result<String, AllocError> {
    let found = &diagnosis.found;
    let counts = found.counts;
    let mut out = String::new(alloc);
    push_bad(&mut out, mode, counts)?;
    push_well_line(&mut out, mode, counts, found.outcomes.visited)?;
    push_left(&mut out, counts)?;
    push_untried(alloc, &mut out, counts, fuel)?;
    Ok(out)
}

// ---- ends that are told together

/// Adds that what follows is told of one of so many runs, where they are several.
fn push_of_one(out: &mut String, count: Count) -> Result<(), AllocError> {
    if is_count(count, 1) {
        return Ok(());
    }
    out.push_str(", one of them:")
}

/// Adds the lines at which an end stands.
fn push_lines(out: &mut String, marks: Marks<'_>, lines: &[usize]) -> Result<(), AllocError> {
    match lines {
        [] => Ok(()),
        [line] => write!(out, " line {}", marks.line(*line)),
        [line, further @ ..] => {
            write!(out, " lines {}", marks.line(*line))?;
            for line in further {
                write!(out, ", {}", marks.line(*line))?;
            }
            Ok(())
        }
    }
}

/// Adds what kind of end it is, and where it stands.
fn push_cause(out: &mut String, marks: Marks<'_>, cause: &Cause) -> Result<(), AllocError> {
    out.push_str(match cause.kind {
        EndKind::Done => "done",
        EndKind::Leftovers => "left over from",
        EndKind::Deadlock => "deadlock at",
        EndKind::Trap => "trap at",
        EndKind::Cut => "cut at",
    })?;
    push_lines(out, marks, &cause.lines.items)
}

/// Adds where it was decided how the run ends, and what to type to come to that step.
fn push_blame(
    out: &mut String,
    marks: Marks<'_>,
    blame: Option<PlacedBlame>,
) -> Result<(), AllocError> {
    let Some(placed) = blame else {
        return Ok(());
    };
    write!(out, "  {}\n", MarkedBlame(placed, marks))?;
    match placed.blame {
        Blame::At(_) => out.push_str(
            "  at the prompt of `debug`, `blame` goes to this step and `redo all` to the end\n",
        ),
        _ => Ok(()),
    }
}

/// What ends that are told together are, how many runs end so, and what is known of the one that is
/// shown.
fn group_said(
    alloc: Global,
    named: Named<'_>,
    runs: &Runs,
    group: &Group,
    end: &LeafEnd,
    blame: Option<PlacedBlame>,
) -> Result<String, AllocError> {
    let marks = Marks {
        script: named.script,
    };
    let mut out = String::new(alloc);
    push_cause(&mut out, marks, &end.cause)?;
    out.push_str(": ")?;
    push_share(&mut out, group.count, runs.counts.total, runs.counts.more)?;
    push_of_one(&mut out, group.count)?;
    out.push('\n')?;
    push_end(&mut out, named.decls, marks, &end.end)?;
    push_blame(&mut out, marks, blame)?;
    Ok(out)
}

/// The picture of a run of so many steps, by its number among those of a kind.
fn picture_of(
    alloc: Global,
    kind: &str,
    several: bool,
    number: usize,
    steps: usize,
) -> Result<Picture, AllocError> {
    let file = picture_file(alloc, kind, several, number)?;
    Ok(Picture {
        file,
        is_drawn: is_drawn(steps),
        steps,
    })
}

/// Adds what is told of ends together, and the commands that go to one of them, of which this is
/// the picture.
fn push_group(
    alloc: Global,
    out: &mut Vec<u8>,
    named: Named<'_>,
    said: &str,
    choices: &[usize],
    picture: &Picture,
) -> Result<(), AllocError> {
    out.push(b'\n')?;
    push_folded(out, said.as_bytes())?;
    push_run(alloc, out, named, choices, picture)?;
    Ok(())
}

/// The choices of the leaf of a number, none where there is no such leaf.
fn choices_at(leaves: &[SearchLeaf], number: usize) -> &[usize] {
    match leaves.get(number) {
        None => &[],
        Some(leaf) => &leaf.choices.items,
    }
}

/// The command that tries other runs, where there are more.
fn others_command(alloc: Global, more: bool, named: Named<'_>) -> Result<Vec<u8>, AllocError> {
    if more {
        return sample_command(alloc, named);
    }
    Ok(Vec::new(alloc))
}

/// Adds what is told of the ends of some runs, whose pictures are of a kind.
fn push_groups(
    alloc: Global,
    out: &mut Vec<u8>,
    named: Named<'_>,
    runs: &Runs,
    kind: &str,
) -> Result<(), AllocError> {
    let several = runs.groups.len() > 1;
    let groups = runs.groups.iter().zip(runs.blames.iter());
    for (place, (group, blame)) in groups.enumerate() {
        let Some(end) = runs.ends.get(group.shown) else {
            return Ok(());
        };
        let said = group_said(alloc, named, runs, group, end, *blame)?;
        let number = place.saturating_add(1);
        let picture = picture_of(alloc, kind, several, number, end.steps)?;
        let choices = choices_at(&runs.outcomes.firsts.leaves, group.shown);
        push_group(alloc, out, named, &said, choices, &picture)?;
    }
    Ok(())
}

/// The command that is tried next: one that tries other runs, where there are more and none are
/// drawn; or other modes, where no run of this one hangs or traps, or every run does.
fn next_command(alloc: Global, named: Named<'_>, counts: WayCounts) -> Result<Vec<u8>, AllocError> {
    if tries_modes(counts) {
        return modes_command(alloc, named);
    }
    others_command(alloc, counts.more && !ends_well(counts), named)
}

/// Adds the same as lines of 80 columns: long ones go on in further lines. `Err` means that memory
/// was refused.
pub fn push_verdict(
    alloc: Global,
    out: &mut Vec<u8>,
    mode: Mode,
    fuel: usize,
    diagnosis: &Diagnosis,
) -> Result<(), AllocError> {
    let verdict = verdict_text(alloc, mode, fuel, diagnosis)?;
    push_folded(out, verdict.as_bytes())
}

/// Adds what becomes of the runs, which have so many steps at most, and the command that is tried
/// next.
fn push_opening(
    alloc: Global,
    out: &mut Vec<u8>,
    named: Named<'_>,
    fuel: usize,
    diagnosis: &Diagnosis,
) -> Result<(), AllocError> {
    push_verdict(alloc, out, named.mode, fuel, diagnosis)?;
    let next = next_command(alloc, named, diagnosis.found.counts)?;
    out.extend_from_slice(&next)
}

// ---- runs that are drawn

/// Adds how many of the runs that were drawn hang, and how many trap.
fn push_drawn_bad(out: &mut String, counts: WayCounts) -> Result<(), AllocError> {
    push_line_if(out, "drawn at random: ", counts.deadlock, counts, " hang")?;
    push_line_if(out, "drawn at random: ", counts.trap, counts, " trap")?;
    Ok(())
}

/// Adds that none of them does.
fn push_drawn_well(out: &mut String, total: Count) -> Result<(), AllocError> {
    out.push_str("drawn at random: none of ")?;
    push_runs(out, total)?;
    out.push_str(" hangs or traps")?;
    out.push_str("\n")?;
    Ok(())
}

/// Adds the line of it, where it is so.
fn push_drawn_well_line(out: &mut String, counts: WayCounts) -> Result<(), AllocError> {
    if ends_well(counts) {
        push_drawn_well(out, counts.total)
    } else {
        Ok(())
    }
}

/// Adds how many of them end with calls left over.
fn push_drawn_left(out: &mut String, counts: WayCounts) -> Result<(), AllocError> {
    let left = counts.leftovers;
    push_line_if(
        out,
        "drawn at random: ",
        left,
        counts,
        " end with calls left over",
    )
}

/// What becomes of the runs that were drawn.
fn drawn_verdict(alloc: Global, counts: WayCounts) -> Result<String, AllocError> {
    let mut out = String::new(alloc);
    push_drawn_bad(&mut out, counts)?;
    push_drawn_well_line(&mut out, counts)?;
    push_drawn_left(&mut out, counts)?;
    Ok(out)
}

/// What becomes of the runs that were drawn, after an empty line; and the command that tries
/// others, where none of them hangs or traps.
fn drawn_opening(
    alloc: Global,
    named: Named<'_>,
    counts: WayCounts,
) -> Result<Vec<u8>, AllocError> {
    let verdict = drawn_verdict(alloc, counts)?;
    let others = others_command(alloc, ends_well(counts), named)?;
    let mut out = Vec::new(alloc);
    out.push(b'\n')?;
    push_folded(&mut out, verdict.as_bytes())?;
    out.extend_from_slice(&others)?;
    Ok(out)
}

/// The text of a diagnosis of a script in a mode, whose runs have so many steps at most: what
/// becomes of its runs, their ends and the commands that show them; and the same of runs that were
/// drawn. Long lines go on in further lines. `Err` means that memory was refused.
pub fn diagnosis_text(
    alloc: Global,
    named: Named<'_>,
    fuel: usize,
    diagnosis: &Diagnosis,
) -> Result<Vec<u8>, AllocError> {
    let found = &diagnosis.found;
    let mut out = Vec::new(alloc);
    push_opening(alloc, &mut out, named, fuel, diagnosis)?;
    push_groups(alloc, &mut out, named, found, "run")?;
    if let Some(drawn) = &diagnosis.drawn {
        let opening = drawn_opening(alloc, named, drawn.counts)?;
        out.extend_from_slice(&opening)?;
        push_groups(alloc, &mut out, named, drawn, "drawn")?;
    }
    Ok(out)
}
