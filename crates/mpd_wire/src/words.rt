//! The words that stand in a reply beside what it holds: what is told of steps, and of how a run has ended.

ghost use Rattle.std.specs.Prelude.{◌≡◌, ◌+◌, ◌++◌, ◌∷◌, [], IfOk, OnOk, length, map, string_bytes};
ghost use Rattle.mpd_wire.specs.Words.{feed_lines, AreLines, AreWords, HasWords};

use mpd_explain::{PlacedStep, push_candidate, push_end, push_losses};
use mpd_model::Decl;
use mpd_names::Marks;
use mpd_session::{Answer, Explained, Reply, TextList};
use std::alloc::{AllocError, Global};

/// No words.
fn no_words(alloc: Global) -> TextList
    ensures { result ≡ [] }
{
    TextList {
        items: Vec::new(alloc),
    }
}

/// The words of a reply.
pub(crate) fn reply_words(alloc: Global, reply: &Reply) -> Result<TextList, AllocError>
    ensures { IfOk result (λ words. HasWords reply.now words) }
{
    match reply {
        Reply::Done { version: _, answer } => answer_words(alloc, answer),
        Reply::Refused(_) => Ok(no_words(alloc)),
    }
}

/// The words of an answer.
fn answer_words(alloc: Global, answer: &Answer) -> Result<TextList, AllocError>
    ensures { IfOk result (λ words. AreWords answer.now words) }
{
    match answer {
        Answer::Decided { steps, decls, .. } => step_words(alloc, &decls.items, &steps.items),
        Answer::Explained(told) => end_words(alloc, told),
        Answer::Depth(_)
        | Answer::Stepped { .. }
        | Answer::Ran { .. }
        | Answer::Enabled(_)
        | Answer::State { .. }
        | Answer::Vars { .. }
        | Answer::Calls(_)
        | Answer::Partners(_)
        | Answer::Added(_)
        | Answer::Removed
        | Answer::Breaks(_)
        | Answer::Hit(_)
        | Answer::Explored { .. }
        | Answer::Script { .. }
        | Answer::Where { .. }
        | Answer::Steps { .. }
        | Answer::Lines { .. } => Ok(no_words(alloc)),
    }
}

/// Adds what is told of a step.
fn push_step(
    alloc: Global,
    words: &mut Vec<String>,
    decls: &[Decl],
    step: &PlacedStep,
) -> Result<(), AllocError>
    ensures { OnOk result (length words.new.items ≡ length words.old.items + 1) }
{
    let mut text = String::new(alloc);
    push_candidate(&mut text, decls, Marks::none(), false, step)?;
    words.push(text)?;
    Ok(())
}

/// What is told of steps, of each a text.
fn step_words(alloc: Global, decls: &[Decl], steps: &[PlacedStep]) -> Result<TextList, AllocError>
    ensures { IfOk result (λ words. length words ≡ length steps.now) }
{
    let mut items = Vec::new(alloc);
    for step in steps {
        push_step(alloc, &mut items, decls, step)?;
    }
    Ok(TextList { items })
}

/// Adds a line.
fn push_line(alloc: Global, lines: &mut Vec<String>, line: &str) -> Result<(), AllocError>
    ensures { OnOk result (map string_bytes lines.new.items ≡ map string_bytes lines.old.items ++ line.now ∷ []) }
{
    lines.push(String::from_str(alloc, line)?)?;
    Ok(())
}

/// The lines of a text that a line feed ends, without it.
#[tactic(auto, using(crate::proofs::FeedLemmas::cutting))]
fn feed_lines(alloc: Global, text: &str) -> Result<TextList, AllocError>
    ensures { IfOk result (λ lines. lines ≡ feed_lines text.now) }
{
    let mut items = Vec::new(alloc);
    let mut rest = text;
    while let Some((line, behind)) = rest.split_once('\n') {
        push_line(alloc, &mut items, line)?;
        rest = behind;
    }
    Ok(TextList { items })
}

/// What is told of how a run has ended, and of the requests that are lost.
fn end_text(alloc: Global, told: &Explained) -> Result<String, AllocError> {
    let mut text = String::new(alloc);
    push_end(&mut text, &told.decls.items, Marks::none(), &told.end)?;
    push_losses(&mut text, Marks::none(), &told.lost.items)?;
    Ok(text)
}

/// The lines of that, if it has ended.
fn end_words(alloc: Global, told: &Option<Explained>) -> Result<TextList, AllocError>
    ensures { IfOk result (λ words. AreLines told.now words) }
{
    match told {
        None => Ok(no_words(alloc)),
        Some(told) => {
            let text = end_text(alloc, told)?;
            feed_lines(alloc, text.as_str())
        }
    }
}
