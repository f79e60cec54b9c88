//! Replies as JSON.

ghost use Rattle.std.specs.Prelude.{◌≡◌, IfOk, map, string_bytes, codes, true, false, Some, None, ◌∷◌, [], ◌++◌, List, ℕ};
ghost use Rattle.serde_json.specs.View.{view, members_view};
ghost use Rattle.serde_json.specs.Data.{Members, no_members, member, object, boolean, string, put};
ghost use Rattle.mpd_wire.specs.Replies.{natural, integer, or_null, listed, members, maybe, is_ok, stop_name, stop_number, refused, refusal_fields, answer_fields, fields_of, reply_data, reply_text, IsReplyText};
ghost use Rattle.mpd_session.specs.declared.reply.Answer.TheVariants as answer;
ghost use Rattle.mpd_session.specs.declared.reply.Refusal.TheVariants as refusal;

use crate::look_values::{
    BareScript, decided_value, explained_value, lines_value, listed_value, script_value,
    where_value,
};
use crate::words::reply_words;
use mpd_model::{Cause, Step, Stop, print_step};
use mpd_session::{Answer, HandleList, IntegerList, Refusal, Reply, Text, TextList};
use serde_json::{Map, Value, put};
use std::alloc::{AllocError, Global};

/// The fields of an object so far, or that memory was refused for one of them.
pub(crate) type Fields = Result<Map<String, Value>, AllocError>;

/// The text of a reply (docs/SESSIONS.md, "Replies"), without its line feed. An `Err` is want of memory.
#[tactic(auto, using(crate::proofs::WordLemmas::wording))]
pub fn print(alloc: Global, reply: &Reply) -> Result<String, AllocError>
    ensures { IfOk result (λ s. IsReplyText reply.now (string_bytes s)) }
{
    let words = reply_words(alloc, reply)?;
    print_with(alloc, reply, &words.items)
}

/// The text of a reply with these words.
fn print_with(alloc: Global, reply: &Reply, words: &[String]) -> Result<String, AllocError>
    ensures { IfOk result (λ s. string_bytes s ≡ reply_text (map string_bytes words.now) reply.now) }
{
    value_of(alloc, reply, words)?.to_string(alloc)
}

#[tactic(auto, unfolding(crate::specs::Replies::reply_data))]
fn value_of(alloc: Global, reply: &Reply, words: &[String]) -> Result<Value, AllocError>
    ensures { IfOk result (λ v. view v ≡ reply_data (map string_bytes words.now) reply.now) }
{
    match reply {
        Reply::Done { version, answer } => done(alloc, *version, answer, words),
        Reply::Refused(refusal) => refused_value(alloc, *refusal),
    }
}

/// An object without fields.
pub(crate) fn no_fields(alloc: Global) -> Fields
    ensures { IfOk result (λ f. members_view f.entries ≡ no_members) }
{
    Ok(Map::new(alloc))
}

/// The fields with one more.
fn one_more(alloc: Global, fields: Map<String, Value>, key: &str, value: Value) -> Fields
    ensures { IfOk result (λ f. members_view f.entries ≡ put key.now (view value) (members_view fields.entries)) }
{
    let mut more = fields;
    match put(&mut more, alloc, key, value) {
        Ok(()) => Ok(more),
        Err(refused) => {
            drop(more);
            Err(refused)
        }
    }
}

/// The fields with one more, where none was refused before it.
pub(crate) fn with_field(alloc: Global, fields: Fields, key: &str, value: Value) -> Fields
    ensures { (held : Members) → IfOk fields (λ f. members_view f.entries ≡ held) → IfOk result (λ f. members_view f.entries ≡ put key.now (view value) held) }
{
    match fields {
        Ok(fields) => one_more(alloc, fields, key, value),
        Err(refused) => {
            drop(value);
            Err(refused)
        }
    }
}

/// The fields with a number more, where none was refused before it.
pub(crate) fn with_number(alloc: Global, fields: Fields, key: &str, number: usize) -> Fields
    ensures { (held : Members) → IfOk fields (λ f. members_view f.entries ≡ held) → IfOk result (λ f. members_view f.entries ≡ put key.now (natural number) held) }
{
    with_field(alloc, fields, key, Value::from(number))
}

/// The fields with a truth value more, where none was refused before it.
pub(crate) fn with_flag(alloc: Global, fields: Fields, key: &str, flag: bool) -> Fields
    ensures { (held : Members) → IfOk fields (λ f. members_view f.entries ≡ held) → IfOk result (λ f. members_view f.entries ≡ put key.now (boolean flag) held) }
{
    with_field(alloc, fields, key, Value::Bool(flag))
}

/// The fields with a text more.
fn one_text_more(alloc: Global, fields: Map<String, Value>, key: &str, text: &str) -> Fields
    ensures { IfOk result (λ f. members_view f.entries ≡ put key.now (string text.now) (members_view fields.entries)) }
{
    match Value::try_from_str(alloc, text) {
        Ok(value) => one_more(alloc, fields, key, value),
        Err(refused) => {
            drop(fields);
            Err(refused)
        }
    }
}

/// The fields with a text more, where none was refused before it.
pub(crate) fn with_text(alloc: Global, fields: Fields, key: &str, text: &str) -> Fields
    ensures { (held : Members) → IfOk fields (λ f. members_view f.entries ≡ held) → IfOk result (λ f. members_view f.entries ≡ put key.now (string text.now) held) }
{
    match fields {
        Ok(fields) => one_text_more(alloc, fields, key, text),
        Err(refused) => Err(refused),
    }
}

/// The object of some fields.
pub(crate) fn object_of(fields: Fields) -> Result<Value, AllocError>
    ensures { (held : Members) → IfOk fields (λ f. members_view f.entries ≡ held) → IfOk result (λ v. view v ≡ object held) }
{
    match fields {
        Ok(fields) => Ok(Value::Object(fields)),
        Err(refused) => Err(refused),
    }
}

/// The object of some fields, with the version of the session as its last.
pub(crate) fn with_version(alloc: Global, fields: Fields, version: u64) -> Result<Value, AllocError>
    ensures { (held : Members) → IfOk fields (λ f. members_view f.entries ≡ held) → IfOk result (λ v. view v ≡ object (put (codes "version") (natural version) held)) }
{
    object_of(with_field(alloc, fields, "version", Value::from(version)))
}

/// The fields with a depth more, and that the request was carried out.
pub(crate) fn with_depth(alloc: Global, fields: Fields, depth: usize) -> Fields
    ensures { (held : Members) → IfOk fields (λ f. members_view f.entries ≡ held) → IfOk result (λ f. members_view f.entries ≡ put (codes "ok") (boolean true) (put (codes "depth") (natural depth) held)) }
{
    let fields = with_number(alloc, fields, "depth", depth);
    with_flag(alloc, fields, "ok", true)
}

/// An object with one field before `ok`.
fn before_ok(alloc: Global, version: u64, key: &str, value: Value) -> Result<Value, AllocError>
    ensures { IfOk result (λ v. view v ≡ object (put (codes "version") (natural version) (put (codes "ok") (boolean true) (member key.now (view value) no_members)))) }
{
    let fields = with_field(alloc, no_fields(alloc), key, value);
    let fields = with_flag(alloc, fields, "ok", true);
    with_version(alloc, fields, version)
}

/// An object with one field between `ok` and the version.
fn behind_ok(alloc: Global, version: u64, key: &str, value: Value) -> Result<Value, AllocError>
    ensures { IfOk result (λ v. view v ≡ object (put (codes "version") (natural version) (put key.now (view value) (member (codes "ok") (boolean true) no_members)))) }
{
    let fields = with_flag(alloc, no_fields(alloc), "ok", true);
    let fields = with_field(alloc, fields, key, value);
    with_version(alloc, fields, version)
}

fn named(alloc: Global, name: &str) -> Result<Value, AllocError>
    ensures { IfOk result (λ v. view v ≡ object (members (refused name.now))) }
{
    let fields = with_text(alloc, no_fields(alloc), "error", name);
    object_of(with_flag(alloc, fields, "ok", false))
}

/// The object of a request for a version that is past.
fn stale_value(alloc: Global, now: u64) -> Result<Value, AllocError>
    ensures { IfOk result (λ v. view v ≡ object (members (refusal_fields (refusal.Stale now)))) }
{
    let fields = with_text(alloc, no_fields(alloc), "error", "stale");
    let fields = with_field(alloc, fields, "now", Value::from(now));
    object_of(with_flag(alloc, fields, "ok", false))
}

/// The object of a request at a choice that was not made.
fn choice_value(alloc: Global, count: usize) -> Result<Value, AllocError>
    ensures { IfOk result (λ v. view v ≡ object (members (refusal_fields (refusal.NeedsChoice count)))) }
{
    let fields = with_number(alloc, no_fields(alloc), "count", count);
    let fields = with_text(alloc, fields, "error", "needs-choice");
    object_of(with_flag(alloc, fields, "ok", false))
}

fn refused_value(alloc: Global, refusal: Refusal) -> Result<Value, AllocError>
    ensures { IfOk result (λ v. view v ≡ object (members (refusal_fields refusal))) }
{
    match refusal {
        Refusal::NotEnabled => named(alloc, "not-enabled"),
        Refusal::Full => named(alloc, "full"),
        Refusal::AtStart => named(alloc, "at-start"),
        Refusal::NoRedo => named(alloc, "no-redo"),
        Refusal::NotBefore => named(alloc, "not-before"),
        Refusal::Stale { now } => stale_value(alloc, now),
        Refusal::NeedsChoice { count } => choice_value(alloc, count),
        Refusal::NoSuchBreak => named(alloc, "no-such-break"),
        Refusal::BreaksFull => named(alloc, "breaks-full"),
        Refusal::BadNumber => named(alloc, "bad-number"),
    }
}

fn done(alloc: Global, version: u64, answer: &Answer, words: &[String]) -> Result<Value, AllocError>
    ensures { IfOk result (λ v. view v ≡ object (members (answer_fields (map string_bytes words.now) answer.now ++ (codes "version", natural version) ∷ []))) }
{
    match answer {
        Answer::Depth(depth) => depth_value(alloc, version, *depth),
        Answer::Stepped { depth, step } => stepped_value(alloc, version, *depth, *step),
        Answer::Ran { depth, stop } => ran_value(alloc, version, *depth, *stop),
        Answer::Enabled(steps) => steps_value(alloc, version, &steps.items),
        Answer::State {
            depth,
            ranks,
            sets,
            undone,
            outcome,
        } => {
            let state = BareState {
                depth: *depth,
                undone: *undone,
                outcome,
            };
            lists_value(alloc, version, state, ranks, sets)
        }
        Answer::Vars { vars, handles, out } => cells_value(alloc, version, vars, handles, out),
        Answer::Calls(calls) => calls_value(alloc, version, &calls.items),
        Answer::Partners(partners) => partners_value(alloc, version, &partners.items),
        Answer::Added(number) => added_value(alloc, version, *number),
        Answer::Removed => removed_value(alloc, version),
        Answer::Breaks(breaks) => breaks_value(alloc, version, &breaks.items),
        Answer::Hit(hit) => hit_value(alloc, version, *hit),
        Answer::Explored { leaves, more } => leaves_value(alloc, version, &leaves.items, *more),
        Answer::Script {
            ranks,
            mode,
            vars,
            handles,
            lines,
        } => {
            let script = BareScript {
                ranks: *ranks,
                mode: *mode,
                vars: &vars.items,
                handles: &handles.items,
                lines: &lines.items,
            };
            script_value(alloc, version, script)
        }
        Answer::Where {
            ranks,
            lines,
            ready,
            held,
        } => where_value(
            alloc,
            version,
            &ranks.items,
            &lines.items,
            &ready.items,
            held,
        ),
        Answer::Decided {
            coming,
            steps,
            decls: _,
            outcome,
        } => decided_value(alloc, version, *coming, &steps.items, outcome, words),
        Answer::Steps {
            depth,
            steps,
            undone,
        } => listed_value(alloc, version, *depth, &steps.items, *undone),
        Answer::Lines { lines, partners } => lines_value(
            alloc,
            version,
            &lines.items,
            &partners.items,
        ),
        Answer::Explained(_) => explained_value(alloc, version, words),
    }
}

/// The object of a depth.
fn depth_value(alloc: Global, version: u64, depth: usize) -> Result<Value, AllocError>
    ensures { IfOk result (λ v. view v ≡ object (members (answer_fields [] (answer.Depth depth) ++ (codes "version", natural version) ∷ []))) }
{
    with_version(alloc, with_depth(alloc, no_fields(alloc), depth), version)
}

fn stepped_value(alloc: Global, version: u64, depth: usize, step: Step) -> Result<Value, AllocError>
    ensures { IfOk result (λ v. view v ≡ object (members (answer_fields [] (answer.Stepped depth step) ++ (codes "version", natural version) ∷ []))) }
{
    let text = print_step(alloc, step)?;
    let fields = with_depth(alloc, no_fields(alloc), depth);
    let fields = with_text(alloc, fields, "step", text.as_str());
    with_version(alloc, fields, version)
}

fn stop_name(cause: Cause) -> &'static str
    ensures { result.now ≡ stop_name cause }
{
    match cause {
        Cause::Break(_) => "break",
        Cause::Leaf => "leaf",
        Cause::Choice => "choice",
        Cause::Full => "full",
        Cause::Max => "max",
        Cause::Start => "start",
    }
}

/// The breakpoint at which a run has stopped, if it was one.
fn stop_number(cause: Cause) -> Option<usize>
    ensures { result ≡ stop_number cause }
{
    match cause {
        Cause::Break(number) => Some(number),
        Cause::Leaf | Cause::Choice | Cause::Full | Cause::Max | Cause::Start => None,
    }
}

/// The field of a breakpoint, if there is one.
fn break_fields(alloc: Global, number: Option<usize>) -> Fields
    ensures { IfOk result (λ f. members_view f.entries ≡ members (maybe (codes "break") natural number)) }
{
    match number {
        None => no_fields(alloc),
        Some(number) => with_number(alloc, no_fields(alloc), "break", number),
    }
}

fn ran_value(alloc: Global, version: u64, depth: usize, stop: Stop) -> Result<Value, AllocError>
    ensures { IfOk result (λ v. view v ≡ object (members (answer_fields [] (answer.Ran depth stop) ++ (codes "version", natural version) ∷ []))) }
{
    let Stop { steps, cause } = stop;
    let fields = with_depth(alloc, break_fields(alloc, stop_number(cause)), depth);
    let fields = with_number(alloc, fields, "steps", steps);
    let fields = with_text(alloc, fields, "stop", stop_name(cause));
    with_version(alloc, fields, version)
}

fn steps_value(alloc: Global, version: u64, steps: &[String]) -> Result<Value, AllocError>
    ensures { IfOk result (λ v. view v ≡ object (members (answer_fields [] (answer.Enabled (map string_bytes steps.now)) ++ (codes "version", natural version) ∷ []))) }
{
    let steps = texts_value(alloc, steps)?;
    behind_ok(alloc, version, "steps", steps)
}

/// The fields of a state that stand before its lists.
fn state_fields(alloc: Global, depth: usize, outcome: &Option<Text>) -> Fields
    ensures { IfOk result (λ f. members_view f.entries ≡ members ((codes "depth", natural depth) ∷ is_ok ∷ maybe (codes "outcome") string outcome.now)) }
{
    let fields = with_depth(alloc, no_fields(alloc), depth);
    match outcome {
        None => fields,
        Some(outcome) => with_text(alloc, fields, "outcome", outcome.string.as_str()),
    }
}

/// A state without its lists.
#[derive(Clone, Copy)]
struct BareState<'s> {
    depth: usize,
    undone: usize,
    outcome: &'s Option<Text>,
}

fn state_value(
    alloc: Global,
    version: u64,
    state: BareState<'_>,
    ranks: Value,
    sets: Value,
) -> Result<Value, AllocError>
    ensures { (rs ss : List (List ℕ)) → view ranks ≡ listed string rs → view sets ≡ listed string ss → IfOk result (λ v. view v ≡ object (members (answer_fields [] (answer.State state.entry.depth rs ss state.entry.undone state.entry.outcome.now) ++ (codes "version", natural version) ∷ []))) }
{
    let BareState {
        depth,
        undone,
        outcome,
    } = state;
    let fields = state_fields(alloc, depth, outcome);
    let fields = with_field(alloc, fields, "ranks", ranks);
    let fields = with_field(alloc, fields, "sets", sets);
    let fields = with_number(alloc, fields, "undone", undone);
    with_version(alloc, fields, version)
}

/// The object of a state, whose lists are still to be made.
fn lists_value(
    alloc: Global,
    version: u64,
    state: BareState<'_>,
    ranks: &TextList,
    sets: &TextList,
) -> Result<Value, AllocError>
    ensures { IfOk result (λ v. view v ≡ object (members (answer_fields [] (answer.State state.entry.depth ranks.now sets.now state.entry.undone state.entry.outcome.now) ++ (codes "version", natural version) ∷ []))) }
{
    let ranks = texts_value(alloc, &ranks.items)?;
    match texts_value(alloc, &sets.items) {
        Ok(sets) => state_value(alloc, version, state, ranks, sets),
        Err(refused) => {
            drop(ranks);
            Err(refused)
        }
    }
}

fn vars_value(
    alloc: Global,
    version: u64,
    vars: Value,
    handles: Value,
    out: Value,
) -> Result<Value, AllocError>
    ensures { IfOk result (λ v. view v ≡ object (members ((codes "handles", view handles) ∷ is_ok ∷ (codes "out", view out) ∷ (codes "vars", view vars) ∷ (codes "version", natural version) ∷ []))) }
{
    let fields = with_field(alloc, no_fields(alloc), "handles", handles);
    let fields = with_flag(alloc, fields, "ok", true);
    let fields = with_field(alloc, fields, "out", out);
    let fields = with_field(alloc, fields, "vars", vars);
    with_version(alloc, fields, version)
}

/// The object of what a rank holds, where what it has printed is still to be made.
fn printed_value(
    alloc: Global,
    version: u64,
    vars: Value,
    handles: Value,
    out: &IntegerList,
) -> Result<Value, AllocError>
    ensures { IfOk result (λ v. view v ≡ object (members ((codes "handles", view handles) ∷ is_ok ∷ (codes "out", listed integer out.now) ∷ (codes "vars", view vars) ∷ (codes "version", natural version) ∷ []))) }
{
    match integers_value(alloc, &out.items) {
        Ok(out) => vars_value(alloc, version, vars, handles, out),
        Err(refused) => {
            drop(vars);
            drop(handles);
            Err(refused)
        }
    }
}

/// The object of what a rank holds, whose lists are still to be made.
fn cells_value(
    alloc: Global,
    version: u64,
    vars: &IntegerList,
    handles: &HandleList,
    out: &IntegerList,
) -> Result<Value, AllocError>
    ensures { IfOk result (λ v. view v ≡ object (members (answer_fields [] (answer.Vars vars.now handles.now out.now) ++ (codes "version", natural version) ∷ []))) }
{
    let vars = integers_value(alloc, &vars.items)?;
    match handles_value(alloc, &handles.items) {
        Ok(handles) => printed_value(alloc, version, vars, handles, out),
        Err(refused) => {
            drop(vars);
            Err(refused)
        }
    }
}

fn calls_value(alloc: Global, version: u64, calls: &[String]) -> Result<Value, AllocError>
    ensures { IfOk result (λ v. view v ≡ object (members (answer_fields [] (answer.Calls (map string_bytes calls.now)) ++ (codes "version", natural version) ∷ []))) }
{
    let calls = texts_value(alloc, calls)?;
    before_ok(alloc, version, "calls", calls)
}

fn partners_value(alloc: Global, version: u64, partners: &[String]) -> Result<Value, AllocError>
    ensures { IfOk result (λ v. view v ≡ object (members (answer_fields [] (answer.Partners (map string_bytes partners.now)) ++ (codes "version", natural version) ∷ []))) }
{
    let partners = texts_value(alloc, partners)?;
    behind_ok(alloc, version, "partners", partners)
}

fn added_value(alloc: Global, version: u64, number: usize) -> Result<Value, AllocError>
    ensures { IfOk result (λ v. view v ≡ object (members (answer_fields [] (answer.Added number) ++ (codes "version", natural version) ∷ []))) }
{
    before_ok(alloc, version, "break", Value::from(number))
}

fn removed_value(alloc: Global, version: u64) -> Result<Value, AllocError>
    ensures { IfOk result (λ v. view v ≡ object (members (is_ok ∷ (codes "version", natural version) ∷ []))) }
{
    let fields = with_flag(alloc, no_fields(alloc), "ok", true);
    with_version(alloc, fields, version)
}

fn breaks_value(alloc: Global, version: u64, breaks: &[String]) -> Result<Value, AllocError>
    ensures { IfOk result (λ v. view v ≡ object (members (answer_fields [] (answer.Breaks (map string_bytes breaks.now)) ++ (codes "version", natural version) ∷ []))) }
{
    let breaks = texts_value(alloc, breaks)?;
    before_ok(alloc, version, "breaks", breaks)
}

/// The object of the breakpoint that the last step hits, or of none.
fn hit_value(alloc: Global, version: u64, hit: Option<usize>) -> Result<Value, AllocError>
    ensures { IfOk result (λ v. view v ≡ object (members (answer_fields [] (answer.Hit hit) ++ (codes "version", natural version) ∷ []))) }
{
    let fields = with_flag(alloc, break_fields(alloc, hit), "ok", true);
    with_version(alloc, fields, version)
}

fn leaves_value(
    alloc: Global,
    version: u64,
    leaves: &[String],
    more: bool,
) -> Result<Value, AllocError>
    ensures { IfOk result (λ v. view v ≡ object (members (answer_fields [] (answer.Explored (map string_bytes leaves.now) more) ++ (codes "version", natural version) ∷ []))) }
{
    let leaves = texts_value(alloc, leaves)?;
    let fields = with_field(alloc, no_fields(alloc), "leaves", leaves);
    let fields = with_flag(alloc, fields, "more", more);
    let fields = with_flag(alloc, fields, "ok", true);
    with_version(alloc, fields, version)
}

pub(crate) fn texts_value(alloc: Global, texts: &[String]) -> Result<Value, AllocError>
    ensures { IfOk result (λ v. view v ≡ listed string (map string_bytes texts.now)) }
{
    let mut values = Vec::new(alloc);
    for text in texts {
        values.push(Value::try_from_str(alloc, text.as_str())?)?;
    }
    Ok(Value::Array(values))
}

/// What a variable holds, or what was printed.
fn integer_value(number: &i64) -> Value
    ensures { view result ≡ integer number.now }
{
    Value::from(*number)
}

pub(crate) fn integers_value(alloc: Global, numbers: &[i64]) -> Result<Value, AllocError>
    ensures { IfOk result (λ v. view v ≡ listed integer numbers.now) }
{
    let mut values = Vec::new(alloc);
    for number in numbers {
        values.push(integer_value(number))?;
    }
    Ok(Value::Array(values))
}

/// The number of a handle's call, or null.
fn handle_value(handle: Option<usize>) -> Value
    ensures { view result ≡ or_null handle }
{
    match handle {
        Some(number) => Value::from(number),
        None => Value::Null,
    }
}

pub(crate) fn handles_value(alloc: Global, handles: &[Option<usize>]) -> Result<Value, AllocError>
    ensures { IfOk result (λ v. view v ≡ listed or_null handles.now) }
{
    let mut values = Vec::new(alloc);
    for handle in handles {
        values.push(handle_value(*handle))?;
    }
    Ok(Value::Array(values))
}
