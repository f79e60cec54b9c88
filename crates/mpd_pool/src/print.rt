//! The text of a report, made by several threads.
ghost use Rattle.std.specs.Prelude.{◌≡◌, ◌<◌, ◌+◌, ◌^◌, ◌++◌, ℕ, Bool, List, length, map, IfOk, string_bytes};
ghost use Rattle.std.specs.Thread.{IsSync};
ghost use Rattle.mpd_model.specs.declared.step.Step.{Step};
ghost use Rattle.mpd_model.specs.declared.decision.Decision.{Decision};
ghost use Rattle.mpd_model.specs.steps.World.{World};
ghost use Rattle.mpd_explore.specs.Printed.{lines_told, told_text};
ghost use Rattle.mpd_explore.specs.ReportText.{report_text};
ghost use Rattle.mpd_explore.specs.WitnessTexts.{witness_texts};
ghost use Rattle.mpd_explore.specs.declared.report.Witnesses as wanted;

use crate::pool::Crew;
use mpd_explore::{SearchLeaf, SearchReport, push_leaves, push_total};
use std::alloc::{AllocError, Global};
use std::marker::Sync;
use std::thread::{Threads, join};

/// From how many leaves on a thread is started for half of them: with fewer, to start it takes longer than their lines.
const MANY: usize = 4096;

/// The lines of leaves, of which the first has this number.
fn lines_alone(
    alloc: Global,
    first: usize,
    leaves: &[SearchLeaf],
    texts: &[String],
) -> Result<String, AllocError>
    requires { first + length leaves.now < 2 ^ 64 }
    ensures { IfOk result (λ t. string_bytes t ≡ lines_told (map string_bytes texts.now) first leaves.now) }
{
    let mut out = String::new(alloc);
    push_leaves(alloc, &mut out, first, leaves, texts)?;
    Ok(out)
}

/// One text after another.
fn joined(mut front: String, back: &str) -> Result<String, AllocError>
    ensures { IfOk result (λ t. string_bytes t ≡ string_bytes front ++ back.now) }
{
    front.push_str(back)?;
    Ok(front)
}

/// The lines of leaves, of which the first has this number, by at most `workers` threads: each
/// makes those of a part.
fn lines<R: Threads + Sync>(
    rt: &R,
    alloc: Global,
    first: usize,
    leaves: &[SearchLeaf],
    texts: &[String],
    workers: usize,
) -> Result<String, AllocError>
    requires { first + length leaves.now < 2 ^ 64 }
    ensures { IfOk result (λ t. string_bytes t ≡ lines_told (map string_bytes texts.now) first leaves.now) }
{
    if workers < 2 || leaves.len() < MANY {
        return lines_alone(alloc, first, leaves, texts);
    }
    let (front, back) = leaves.split_at(leaves.len() / 2);
    let behind = first + front.len();
    let half = workers / 2;
    let others = workers - half;
    let (a, b) = join(
        rt,
        || -> Result<String, AllocError>
            requires { IsSync R.row × (first + length front.now < 2 ^ 64) }
            ensures { IfOk result (λ t. string_bytes t ≡ lines_told (map string_bytes texts.entry.now) first front.entry.now) }
        { lines(rt, alloc, first, front, texts, half) },
        || -> Result<String, AllocError>
            requires { IsSync R.row × (behind + length back.now < 2 ^ 64) }
            ensures { IfOk result (λ t. string_bytes t ≡ lines_told (map string_bytes texts.entry.now) behind back.entry.now) }
        { lines(rt, alloc, behind, back, texts, others) },
    );
    let back = b?;
    joined(a?, back.as_str())
}

/// A report as text, by the texts that it has.
fn told<R: Threads + Sync>(
    crew: Crew<'_, R>,
    alloc: Global,
    report: &SearchReport,
) -> Result<String, AllocError>
    ensures { IfOk result (λ t. string_bytes t ≡ told_text (map string_bytes report.now.witnesses.items) report.now.leaves.items report.now.more) }
{
    let Crew { rt, workers } = crew;
    let mut out = lines(rt, alloc, 0, &report.leaves, &report.witnesses, workers)?;
    push_total(&mut out, report)?;
    Ok(out)
}

/// A report as text, as `print_report` of `mpd_explore` makes it, by as many threads at most as
/// there are workers, however few or many. `Err` means that memory was refused.
pub fn print_report<R: Threads + Sync>(
    crew: Crew<'_, R>,
    alloc: Global,
    report: &SearchReport,
) -> Result<String, AllocError>
    ensures told { IfOk result (λ t. string_bytes t ≡ told_text (map string_bytes report.now.witnesses.items) report.now.leaves.items report.now.more) }
    ensures text { (decide : World → Decision) (asked : wanted.Witnesses) (before : List Step) (fuel : ℕ) (w : World) → map string_bytes report.now.witnesses.items ≡ witness_texts decide asked before fuel w report.now.leaves.items → IfOk result (λ t. string_bytes t ≡ report_text decide asked before fuel w report.now.leaves.items report.now.more) }
{
    told(crew, alloc, report)
}
