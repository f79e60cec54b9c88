//! The text of a report (docs/FORMATS.md, "Reports").

ghost use Rattle.std.specs.Prelude.{◌≡◌, ◌<◌, ◌+◌, ◌^◌, ◌∷◌, ◌++◌, ℕ, Bool, List, IfOk, OnOk, length, map, slice_get, string_bytes};
ghost use Rattle.std.specs.Fmt.{decimal};
ghost use Rattle.mpd_model.specs.declared.step.Step.{Step};
ghost use Rattle.mpd_model.specs.declared.decision.Decision.{Decision};
ghost use Rattle.mpd_model.specs.steps.World.{World};
ghost use Rattle.mpd_model.specs.runs.Trail.{done_steps};
ghost use Rattle.mpd_model.specs.texts.Texts.{step_text, steps_text};
ghost use Rattle.mpd_explore.specs.Witness.{witness_by};
ghost use Rattle.mpd_explore.specs.ReportText.{choices_text, ending_text, leaf_line, leaf_text, report_text};
ghost use Rattle.mpd_explore.specs.WitnessTexts.{behind_number, witness_texts};
ghost use Rattle.mpd_explore.specs.declared.report.Witnesses as wanted;
ghost use Rattle.mpd_explore.specs.Asked.{asked_text};
ghost use Rattle.mpd_explore.specs.Printed.{count_line, numbered, numbered_at, lines_told, told_text, total_line};

use crate::report::{Ending, SearchLeaf, SearchReport, Witnesses, is_bad};
use mpd_model::{Step, print_outcome};
use mpd_trail::Debugger;
use std::alloc::{AllocError, Global};

/// Adds a number. Most ranks and choices have one digit, which is added as it is.
#[inline(always)]
#[tactic(auto, using(std::proofs::lemmas::Fmt::decimal_digit))]
fn push_decimal(out: &mut String, number: usize) -> Result<(), AllocError>
    ensures { OnOk result (string_bytes out.new ≡ string_bytes out.old ++ decimal number) }
{
    if number < 10 {
        return out.push(char::from(b'0' + number as u8));
    }
    write!(out, "{number}")?;
    Ok(())
}

/// Adds choices, with one space between two. `Err` means that memory was refused.
pub fn push_choices(out: &mut String, choices: &[usize]) -> Result<(), AllocError>
    ensures { OnOk result (string_bytes out.new ≡ string_bytes out.old ++ choices_text choices.now) }
{
    let Some((first, rest)) = choices.split_first() else {
        return Ok(());
    };
    push_decimal(out, *first)?;
    for choice in rest {
        out.push(' ')?;
        push_decimal(out, *choice)?;
    }
    Ok(())
}

/// Adds how a run ends.
pub(crate) fn push_ending(
    alloc: Global,
    out: &mut String,
    ending: &Ending,
) -> Result<(), AllocError>
    ensures { OnOk result (string_bytes out.new ≡ string_bytes out.old ++ ending_text ending.now) }
{
    match ending {
        Ending::Cut => out.push_str("cut")?,
        Ending::Ended(outcome) => {
            let text = print_outcome(alloc, outcome)?;
            out.push_str(&text)?;
        }
    }
    Ok(())
}

/// Adds the text of a leaf: its choices, and how it ends, as `[0 2] deadlock 0.1 1.0`. `Err` means
/// that memory was refused.
pub fn push_leaf_text(alloc: Global, out: &mut String, leaf: &SearchLeaf) -> Result<(), AllocError>
    ensures { OnOk result (string_bytes out.new ≡ string_bytes out.old ++ leaf_text leaf.now) }
{
    out.push('[')?;
    push_choices(out, &leaf.choices.items)?;
    out.push_str("] ")?;
    push_ending(alloc, out, &leaf.ending)
}

/// Adds the line of a leaf.
fn push_leaf(
    alloc: Global,
    out: &mut String,
    number: usize,
    leaf: &SearchLeaf,
) -> Result<(), AllocError>
    ensures { OnOk result (string_bytes out.new ≡ string_bytes out.old ++ leaf_line number leaf.now) }
{
    write!(out, "leaf {number} ")?;
    push_leaf_text(alloc, out, leaf)?;
    out.push('\n')?;
    Ok(())
}

/// Adds a word and a number. It is inlined, so that the length of the word is known where it is added.
#[inline(always)]
pub(crate) fn push_number(out: &mut String, word: &str, number: usize) -> Result<(), AllocError>
    ensures { OnOk result (string_bytes out.new ≡ string_bytes out.old ++ word.now ++ decimal number) }
{
    out.push_str(word)?;
    push_decimal(out, number)
}

/// Adds a comma, a space and a step, part by part: these are many, and `write!` of a step takes longer.
fn push_next(out: &mut String, step: Step) -> Result<(), AllocError>
    ensures { OnOk result (string_bytes out.new ≡ string_bytes out.old ++ 44 ∷ 32 ∷ step_text step) }
{
    match step {
        Step::Local(rank) => push_number(out, ", local ", rank),
        Step::Match(send, receive) => {
            push_number(out, ", match ", send.rank)?;
            push_number(out, ".", send.index)?;
            push_number(out, " ", receive.rank)?;
            push_number(out, ".", receive.index)
        }
        Step::Wake(rank) => push_number(out, ", wake ", rank),
        Step::WakeAny { rank, index } => {
            push_number(out, ", wakeany ", rank)?;
            push_number(out, " ", index)
        }
        Step::Release => out.push_str(", release"),
    }
}

/// Adds steps: a space before the first, a comma and a space between two.
pub(crate) fn push_steps(out: &mut String, steps: &[Step]) -> Result<(), AllocError>
    ensures { OnOk result (string_bytes out.new ≡ string_bytes out.old ++ steps_text steps.now) }
{
    let Some((first, rest)) = steps.split_first() else {
        return Ok(());
    };
    write!(out, " {first}")?;
    for step in rest {
        push_next(out, *step)?;
    }
    Ok(())
}

/// The text of the witness that these steps make of a run that ends so: what its line has after the
/// number, with the line feed; empty if the run ends neither in a deadlock nor with a trap.
#[tactic(auto, using(crate::proofs::PrintLemmas::witnessing))]
fn witness_text(alloc: Global, steps: &[Step], ending: &Ending) -> Result<String, AllocError>
    ensures { IfOk result (λ t. string_bytes t ≡ behind_number (witness_by steps.now ending.now)) }
{
    if !is_bad(ending) {
        return Ok(String::new(alloc));
    }
    let mut out = String::new(alloc);
    out.push(':')?;
    push_steps(&mut out, steps)?;
    out.push('\n')?;
    Ok(out)
}

/// The text of the witness of a run that ends so in the debugger's state, as a line of a report has
/// it after its number, with the line feed; empty if that isn't asked for, or is neither a deadlock
/// nor a trap. `Err` means that memory was refused.
pub fn witness_here(
    alloc: Global,
    debugger: &Debugger<'_>,
    asked: Witnesses,
    ending: &Ending,
) -> Result<String, AllocError>
    ensures { IfOk result (λ t. string_bytes t ≡ asked_text asked ending.now (behind_number (witness_by (done_steps debugger.now.trail) ending.now))) }
{
    if !asked.asks(ending) {
        return Ok(String::new(alloc));
    }
    debugger.state_is_reached();
    let depth = debugger.depth();
    let (steps, _) = debugger.steps().split_at(depth);
    witness_text(alloc, steps, ending)
}

/// Adds the line of a witness by its text, unless that is empty.
fn push_numbered(out: &mut String, number: usize, text: &str) -> Result<(), AllocError>
    ensures { OnOk result (string_bytes out.new ≡ string_bytes out.old ++ numbered number text.now) }
{
    if text.is_empty() {
        return Ok(());
    }
    push_number(out, "witness ", number)?;
    out.push_str(text)
}

/// Adds the line of the witness of this number, if there is a text of it that isn't empty.
fn push_witness(out: &mut String, number: usize, texts: &[String]) -> Result<(), AllocError>
    ensures { OnOk result (string_bytes out.new ≡ string_bytes out.old ++ numbered_at number (slice_get (map string_bytes texts.now) number)) }
{
    if number >= texts.len() {
        return Ok(());
    }
    push_numbered(out, number, texts[number].as_str())
}

/// Adds the lines of leaves, of which the first has this number, each with the line of its witness,
/// if there is a text of its number that isn't empty. `Err` means that memory was refused.
pub fn push_leaves(
    alloc: Global,
    out: &mut String,
    first: usize,
    leaves: &[SearchLeaf],
    texts: &[String],
) -> Result<(), AllocError>
    requires { first + length leaves.now < 2 ^ 64 }
    ensures { OnOk result (string_bytes out.new ≡ string_bytes out.old ++ lines_told (map string_bytes texts.now) first leaves.now) }
{
    let mut number = first;
    for leaf in leaves {
        push_leaf(alloc, out, number, leaf)?;
        push_witness(out, number, texts)?;
        number += 1;
    }
    Ok(())
}

/// Adds a line with how many leaves there are, and whether there are others.
pub(crate) fn push_count(out: &mut String, count: usize, more: bool) -> Result<(), AllocError>
    ensures { OnOk result (string_bytes out.new ≡ string_bytes out.old ++ count_line count more) }
{
    let more = if more { "yes" } else { "no" };
    write!(out, "leaves {count} more {more}\n")
}

/// Adds the last line of a report: how many leaves there are, and whether there are others. `Err`
/// means that memory was refused.
pub fn push_total(out: &mut String, report: &SearchReport) -> Result<(), AllocError>
    ensures { OnOk result (string_bytes out.new ≡ string_bytes out.old ++ total_line report.now.leaves.items report.now.more) }
{
    push_count(out, report.leaves.len(), report.more)
}

/// A report as text, by the texts that it has.
fn told(alloc: Global, report: &SearchReport) -> Result<String, AllocError>
    ensures { IfOk result (λ t. string_bytes t ≡ told_text (map string_bytes report.now.witnesses.items) report.now.leaves.items report.now.more) }
{
    let mut out = String::new(alloc);
    push_leaves(alloc, &mut out, 0, &report.leaves, &report.witnesses)?;
    push_total(&mut out, report)?;
    Ok(out)
}

/// A report as text: a line for each leaf; after it a line with its witness, if the report has a
/// text of that which isn't empty; last, how many leaves there are, and whether there are
/// others. `Err` means that memory was refused.
pub fn print_search(alloc: Global, report: &SearchReport) -> Result<String, AllocError>
    ensures told { IfOk result (λ t. string_bytes t ≡ told_text (map string_bytes report.now.witnesses.items) report.now.leaves.items report.now.more) }
    ensures text { (decide : World → Decision) (asked : wanted.Witnesses) (before : List Step) (fuel : ℕ) (w : World) → map string_bytes report.now.witnesses.items ≡ witness_texts decide asked before fuel w report.now.leaves.items → IfOk result (λ t. string_bytes t ≡ report_text decide asked before fuel w report.now.leaves.items report.now.more) }
{
    told(alloc, report)
}
