//! Ends of the runs of a page as JSON (docs/PAGES.md, "Ends").

use crate::ends::{PageEnd, decided_words, lost_words, told_words};
use crate::head::lines_value;
use mpd_blame::{Blame, PlacedBlame};
use mpd_explain::{End, Wait};
use mpd_explore::Ending;
use mpd_model::{Decl, Outcome, print_outcome};
use mpd_names::Marks;
use mpd_object::{Object, text_value};
use serde_json::Value;
use std::alloc::{AllocError, Global};

/// How a run ends, in a word.
fn word_of(ending: &Ending) -> &'static str {
    match ending {
        Ending::Cut => "cut",
        Ending::Ended(Outcome::Done) => "done",
        Ending::Ended(Outcome::Leftovers(_)) => "leftovers",
        Ending::Ended(Outcome::Deadlock(_)) => "deadlock",
        Ending::Ended(Outcome::Trap(_)) => "trap",
    }
}

/// That, with the calls or the ranks that it is about.
fn outcome_value(alloc: Global, ending: &Ending) -> Result<Value, AllocError> {
    match ending {
        Ending::Cut => Value::try_from_str(alloc, "cut"),
        Ending::Ended(outcome) => {
            let text = print_outcome(alloc, outcome)?;
            Value::try_from_str(alloc, text.as_str())
        }
    }
}

/// With the lines of a text, if it has any.
fn with_lines(object: Object, alloc: Global, key: &str, text: &[u8]) -> Object {
    if text.is_empty() {
        return object;
    }
    object.with(key, lines_value(alloc, text))
}

/// Whom the ranks of a deadlock wait for: a rank, another, and whether that one has ended.
fn waits_value(alloc: Global, waits: &[Wait]) -> Result<Value, AllocError> {
    let mut values = Vec::new(alloc);
    for wait in waits {
        for awaited in &wait.awaited.items {
            let object = Object::new(alloc)
                .number("rank", wait.wish.call.call.rank)
                .number("for", awaited.rank)
                .flag("ended", awaited.has_ended);
            values.push(object.done()?)?;
        }
    }
    Ok(Value::Array(values))
}

/// With whom ranks wait for, of a deadlock.
fn with_waits(object: Object, alloc: Global, end: &End) -> Object {
    match end {
        End::Deadlock {
            waits,
            cycles: _,
            left: _,
        } => object.with_some("waits", waits_value(alloc, &waits.items)),
        End::Cut | End::Done | End::Leftovers(_) | End::Trap(_) => object,
    }
}

/// The depth at which it was decided how a run ends, or null, and what is told of that.
fn decided_value(alloc: Global, blame: PlacedBlame, words: &[u8]) -> Result<Value, AllocError> {
    let depth = match blame.blame {
        Blame::At(decided) => Some(decided.depth),
        Blame::FromStart | Blame::OrEarlier(_) | Blame::Open | Blame::Unknown => None,
    };
    Object::new(alloc)
        .number_or_null("depth", depth)
        .with("said", text_value(alloc, words))
        .done()
}

/// With that, if it was looked for.
fn with_decided(object: Object, alloc: Global, blame: Option<PlacedBlame>, words: &[u8]) -> Object {
    match blame {
        None => object,
        Some(blame) => object.with("decided", decided_value(alloc, blame, words)),
    }
}

/// How a run ends, given the declarations and the text of the script.
pub(crate) fn end_value(
    alloc: Global,
    decls: &[Decl],
    script: &[u8],
    end: &PageEnd,
) -> Result<Value, AllocError> {
    let marks = Marks { script };
    let told = told_words(alloc, decls, marks, &end.end.end)?;
    let lost = lost_words(alloc, marks, &end.end.lost.items)?;
    let decided = decided_words(alloc, marks, end.end.decided)?;
    let object = Object::new(alloc)
        .number("node", end.node)
        .text("ends", word_of(&end.end.ending))
        .with("outcome", outcome_value(alloc, &end.end.ending));
    let object = with_lines(object, alloc, "told", told.as_bytes());
    let object = with_waits(object, alloc, &end.end.end);
    let object = with_lines(object, alloc, "lost", lost.as_bytes());
    with_decided(object, alloc, end.end.decided, decided.as_bytes()).done()
}
