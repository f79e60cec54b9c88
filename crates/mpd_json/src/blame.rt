//! Where it was decided how a run ends.

use crate::place::{ToldScript, step_value};
use mpd_blame::{Blame, PlacedBlame};
use mpd_object::Object;
use serde_json::Value;
use std::alloc::{AllocError, Global};

/// A blame, or null.
pub(crate) fn blame_value(
    alloc: Global,
    script: ToldScript<'_>,
    blame: Option<PlacedBlame>,
) -> Result<Value, AllocError> {
    let Some(blame) = blame else {
        return Ok(Value::Null);
    };
    let (word, depth) = match blame.blame {
        Blame::At(decided) => ("at", Some(decided.depth)),
        Blame::FromStart => ("from_start", Some(0)),
        Blame::OrEarlier(depth) => ("or_earlier", Some(depth)),
        Blame::Open => ("open", None),
        Blame::Unknown => ("unknown", None),
    };
    let (taken, other) = match blame.deciding {
        None => (Ok(Value::Null), Ok(Value::Null)),
        Some(deciding) => (
            step_value(alloc, script, deciding.taken),
            step_value(alloc, script, deciding.other),
        ),
    };
    Object::new(alloc)
        .text("decided", word)
        .number_or_null("depth", depth)
        .with("taken", taken)
        .with("other", other)
        .done()
}
