//! Answers to looks at the script, at all ranks and at steps as JSON.

ghost use Rattle.std.specs.Prelude.{◌≡◌, ◌++◌, ◌∷◌, [], IfOk, None, map, string_bytes, codes, true};
ghost use Rattle.serde_json.specs.View.{view, members_view};
ghost use Rattle.serde_json.specs.Data.{Data, Members, boolean, object, put, string};
ghost use Rattle.mpd_model.specs.texts.Modes.{mode_word};
ghost use Rattle.mpd_wire.specs.Replies.{natural, integer, or_null, call_or_null, coming_name, holding, placed, listed, members, maybe, is_ok, answer_fields};
ghost use Rattle.mpd_session.specs.declared.reply.Answer.TheVariants as answer;

use crate::printer::{
    Fields, handles_value, integers_value, no_fields, object_of, texts_value, with_depth,
    with_field, with_flag, with_number, with_text, with_version,
};
use mpd_explain::PlacedStep;
use mpd_model::{CallId, Mode, print_step};
use mpd_session::{Coming, Holding, HoldingList, Text};
use serde_json::Value;
use std::alloc::{AllocError, Global};

/// The fields with a value more, where neither it nor one before it was refused.
fn with_made(alloc: Global, fields: Fields, key: &str, value: Result<Value, AllocError>) -> Fields
    ensures { (held : Members) (shown : Data) → IfOk fields (λ f. members_view f.entries ≡ held) → IfOk value (λ v. view v ≡ shown) → IfOk result (λ f. members_view f.entries ≡ put key.now shown held) }
{
    match value {
        Ok(value) => with_field(alloc, fields, key, value),
        Err(refused) => {
            drop(fields);
            Err(refused)
        }
    }
}

/// Numbers as a list.
fn numbers_value(alloc: Global, numbers: &[usize]) -> Result<Value, AllocError>
    ensures { IfOk result (λ v. view v ≡ listed natural numbers.now) }
{
    let mut values = Vec::new(alloc);
    for number in numbers {
        values.push(Value::from(*number))?;
    }
    Ok(Value::Array(values))
}

/// The name of a call, or null.
fn partner_value(alloc: Global, partner: Option<CallId>) -> Result<Value, AllocError>
    ensures { IfOk result (λ v. view v ≡ call_or_null partner) }
{
    match partner {
        None => Ok(Value::Null),
        Some(call) => {
            let name = format!(in alloc; "{call}")?;
            Value::try_from_str(alloc, name.as_str())
        }
    }
}

/// Partners as a list.
fn partner_values(alloc: Global, partners: &[Option<CallId>]) -> Result<Value, AllocError>
    ensures { IfOk result (λ v. view v ≡ listed call_or_null partners.now) }
{
    let mut values = Vec::new(alloc);
    for partner in partners {
        values.push(partner_value(alloc, *partner)?)?;
    }
    Ok(Value::Array(values))
}

/// What a rank holds, of its cells, its handles and what it has printed.
fn holding_parts(
    alloc: Global,
    vars: &[i64],
    handles: &[Option<usize>],
    out: &[i64],
) -> Result<Value, AllocError>
    ensures { IfOk result (λ v. view v ≡ holding (record { vars = vars.now; handles = handles.now; out = out.now })) }
{
    let requests = handles_value(alloc, handles);
    let fields = with_made(alloc, no_fields(alloc), "handles", requests);
    let fields = with_made(alloc, fields, "out", integers_value(alloc, out));
    object_of(with_made(alloc, fields, "vars", integers_value(alloc, vars)))
}

/// What a rank holds.
fn holding_value(alloc: Global, held: &Holding) -> Result<Value, AllocError>
    ensures { IfOk result (λ v. view v ≡ holding held.now) }
{
    holding_parts(
        alloc,
        &held.vars.items,
        &held.handles.items,
        &held.out.items,
    )
}

/// What ranks hold as a list.
fn holdings_value(alloc: Global, holdings: &[Holding]) -> Result<Value, AllocError>
    ensures { IfOk result (λ v. view v ≡ listed holding holdings.now) }
{
    let mut values = Vec::new(alloc);
    for held in holdings {
        values.push(holding_value(alloc, held)?)?;
    }
    Ok(Value::Array(values))
}

/// The field of what ranks hold, where that is told.
fn held_fields(alloc: Global, held: &Option<HoldingList>) -> Fields
    ensures { IfOk result (λ f. members_view f.entries ≡ members (maybe (codes "held") (listed holding) held.now)) }
{
    match held {
        None => no_fields(alloc),
        Some(held) => {
            let holdings = holdings_value(alloc, &held.items);
            with_made(alloc, no_fields(alloc), "held", holdings)
        }
    }
}

/// The object of where ranks stand.
pub(crate) fn where_value(
    alloc: Global,
    version: u64,
    ranks: &[String],
    lines: &[Option<usize>],
    ready: &[usize],
    held: &Option<HoldingList>,
) -> Result<Value, AllocError>
    ensures { IfOk result (λ v. view v ≡ object (members (answer_fields [] (answer.Where (map string_bytes ranks.now) lines.now ready.now held.now) ++ (codes "version", natural version) ∷ []))) }
{
    let fields = held_fields(alloc, held);
    let fields = with_made(alloc, fields, "lines", handles_value(alloc, lines));
    let fields = with_flag(alloc, fields, "ok", true);
    let fields = with_made(alloc, fields, "ranks", texts_value(alloc, ranks));
    let fields = with_made(alloc, fields, "ready", numbers_value(alloc, ready));
    with_version(alloc, fields, version)
}

/// The word of a mode.
fn mode_value(alloc: Global, mode: Mode) -> Result<Value, AllocError>
    ensures { IfOk result (λ v. view v ≡ string (mode_word mode)) }
{
    let word = format!(in alloc; "{mode}")?;
    Value::try_from_str(alloc, word.as_str())
}

/// What is told of a script.
#[derive(Clone, Copy)]
pub(crate) struct BareScript<'s> {
    pub(crate) ranks: usize,
    pub(crate) mode: Mode,
    pub(crate) vars: &'s [String],
    pub(crate) handles: &'s [String],
    pub(crate) lines: &'s [usize],
}

/// The object of a script.
pub(crate) fn script_value(
    alloc: Global,
    version: u64,
    script: BareScript<'_>,
) -> Result<Value, AllocError>
    ensures { IfOk result (λ v. view v ≡ object (members (answer_fields [] (answer.Script script.entry.ranks script.entry.mode (map string_bytes script.entry.vars.now) (map string_bytes script.entry.handles.now) script.entry.lines.now) ++ (codes "version", natural version) ∷ []))) }
{
    let BareScript {
        ranks,
        mode,
        vars,
        handles,
        lines,
    } = script;
    let names = texts_value(alloc, handles);
    let fields = with_made(alloc, no_fields(alloc), "handles", names);
    let fields = with_made(alloc, fields, "lines", numbers_value(alloc, lines));
    let fields = with_made(alloc, fields, "mode", mode_value(alloc, mode));
    let fields = with_flag(alloc, fields, "ok", true);
    let fields = with_number(alloc, fields, "ranks", ranks);
    let fields = with_made(alloc, fields, "vars", texts_value(alloc, vars));
    with_version(alloc, fields, version)
}

/// What comes next, as a word.
fn coming_name(coming: Coming) -> &'static str
    ensures { result.now ≡ coming_name coming }
{
    match coming {
        Coming::Forced => "forced",
        Coming::Choice => "choice",
        Coming::Leaf => "leaf",
    }
}

/// A step, by its text.
fn step_value(alloc: Global, step: PlacedStep) -> Result<Value, AllocError>
    ensures { IfOk result (λ v. view v ≡ placed step) }
{
    let text = print_step(alloc, step.step())?;
    Value::try_from_str(alloc, text.as_str())
}

/// Steps as a list.
fn step_values(alloc: Global, steps: &[PlacedStep]) -> Result<Value, AllocError>
    ensures { IfOk result (λ v. view v ≡ listed placed steps.now) }
{
    let mut values = Vec::new(alloc);
    for step in steps {
        values.push(step_value(alloc, *step)?)?;
    }
    Ok(Value::Array(values))
}

/// The fields of a decision that stand before its lists.
fn decided_fields(alloc: Global, coming: Coming, outcome: &Option<Text>) -> Fields
    ensures { IfOk result (λ f. members_view f.entries ≡ members ((codes "decision", string (coming_name coming)) ∷ is_ok ∷ maybe (codes "outcome") string outcome.now)) }
{
    let fields = with_text(alloc, no_fields(alloc), "decision", coming_name(coming));
    let fields = with_flag(alloc, fields, "ok", true);
    match outcome {
        None => fields,
        Some(outcome) => with_text(alloc, fields, "outcome", outcome.string.as_str()),
    }
}

/// The object of a decision.
pub(crate) fn decided_value(
    alloc: Global,
    version: u64,
    coming: Coming,
    steps: &[PlacedStep],
    outcome: &Option<Text>,
    words: &[String],
) -> Result<Value, AllocError>
    ensures { IfOk result (λ v. view v ≡ object (members (answer_fields (map string_bytes words.now) (answer.Decided coming steps.now [] outcome.now) ++ (codes "version", natural version) ∷ []))) }
{
    let fields = decided_fields(alloc, coming, outcome);
    let fields = with_made(alloc, fields, "steps", step_values(alloc, steps));
    let fields = with_made(alloc, fields, "told", texts_value(alloc, words));
    with_version(alloc, fields, version)
}

/// The object of steps that are taken or lie ahead.
pub(crate) fn listed_value(
    alloc: Global,
    version: u64,
    depth: usize,
    steps: &[String],
    undone: usize,
) -> Result<Value, AllocError>
    ensures { IfOk result (λ v. view v ≡ object (members (answer_fields [] (answer.Steps depth (map string_bytes steps.now) undone) ++ (codes "version", natural version) ∷ []))) }
{
    let fields = with_depth(alloc, no_fields(alloc), depth);
    let fields = with_made(alloc, fields, "steps", texts_value(alloc, steps));
    let fields = with_number(alloc, fields, "undone", undone);
    with_version(alloc, fields, version)
}

/// The object of the lines of calls, and of their partners.
pub(crate) fn lines_value(
    alloc: Global,
    version: u64,
    lines: &[usize],
    partners: &[Option<CallId>],
) -> Result<Value, AllocError>
    ensures { IfOk result (λ v. view v ≡ object (members (answer_fields [] (answer.Lines lines.now partners.now) ++ (codes "version", natural version) ∷ []))) }
{
    let numbers = numbers_value(alloc, lines);
    let fields = with_made(alloc, no_fields(alloc), "lines", numbers);
    let fields = with_flag(alloc, fields, "ok", true);
    let fields = with_made(alloc, fields, "partners", partner_values(alloc, partners));
    with_version(alloc, fields, version)
}

/// The object of an explanation.
pub(crate) fn explained_value(
    alloc: Global,
    version: u64,
    words: &[String],
) -> Result<Value, AllocError>
    ensures { IfOk result (λ v. view v ≡ object (members (answer_fields (map string_bytes words.now) (answer.Explained None) ++ (codes "version", natural version) ∷ []))) }
{
    let fields = with_flag(alloc, no_fields(alloc), "ok", true);
    let fields = with_made(alloc, fields, "told", texts_value(alloc, words));
    with_version(alloc, fields, version)
}
