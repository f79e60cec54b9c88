//! Messages from bodies.

ghost use Rattle.std.specs.Prelude.{◌≡◌, ◌<◌, IfOk, OnErr, length, option_map, option_and_then};
ghost use Rattle.serde_json.specs.View.{view};
ghost use Rattle.mpd_dap.specs.Asks.{ask_in};
ghost use Rattle.mpd_dap.specs.Commands.{command_of};
ghost use Rattle.mpd_dap.specs.Messages as spec;

use crate::ask::{Ask, Message};
use crate::command::Command;
use crate::fields::{long_number_at, text_at};
use crate::reader::ask_in;
use crate::text::Text;
use serde_json::Value;
use std::alloc::{AllocError, Global};

/// The JSON value of some bytes; `None` if they are no JSON text in UTF-8, or arrays and objects stand in more than 127 others. An
/// `Err` is want of memory.
#[tactic(auto, using(crate::proofs::ReadLemmas::json_of_some, crate::proofs::ReadLemmas::json_of_none))]
fn json_of(alloc: Global, body: &[u8]) -> Result<Option<Value>, AllocError>
    ensures { IfOk result (λ o. option_map view o ≡ spec.json_of body.now) }
{
    match Value::from_slice(alloc, body) {
        Ok(value) => Ok(Some(value)),
        Err(e) if e.is_memory() => Err(AllocError),
        Err(_) => Ok(None),
    }
}

/// Whether a value is an object with the type of a request.
fn is_request(value: &Value) -> bool
    ensures { result ≡ spec.is_request (view value.now) }
{
    match text_at(value, "type") {
        None => false,
        Some(kind) => kind == "request",
    }
}

/// What is asked by a command that is known, or `None`.
fn ask_of(
    alloc: Global,
    command: Option<Command>,
    arguments: &Value,
) -> Result<Option<Ask>, AllocError>
    ensures { IfOk result (λ a. a ≡ option_and_then (λ c. ask_in c (view arguments.now)) command) }
{
    match command {
        None => Ok(None),
        Some(command) => ask_in(alloc, command, arguments),
    }
}

/// The message with a number and a name.
fn message_with(
    alloc: Global,
    seq: u64,
    name: &str,
    arguments: &Value,
) -> Result<Message, AllocError>
    ensures { IfOk result (λ m. m ≡ spec.message_with seq name.now (command_of name.now) (view arguments.now)) }
{
    let command = Command::of(name);
    let ask = ask_of(alloc, command, arguments)?;
    match String::from_str(alloc, name) {
        Ok(string) => Ok(Message {
            seq,
            name: Text { string },
            command,
            ask,
        }),
        Err(refused) => {
            drop(ask);
            Err(refused)
        }
    }
}

/// The message that a JSON value is, with its arguments.
#[tactic(auto, unfolding(crate::specs::Messages::message_from))]
fn message_from(
    alloc: Global,
    value: &Value,
    arguments: &Value,
) -> Result<Option<Message>, AllocError>
    requires { view arguments.now ≡ spec.arguments_of (view value.now) }
    ensures { IfOk result (λ m. m ≡ spec.message_from (view value.now)) }
{
    if !is_request(value) {
        return Ok(None);
    }
    let Some(seq) = long_number_at(value, "seq") else {
        return Ok(None);
    };
    match text_at(value, "command") {
        None => Ok(None),
        Some(name) => Ok(Some(message_with(alloc, seq, name, arguments)?)),
    }
}

/// The message that a JSON value is.
fn message_of_value(alloc: Global, value: &Value) -> Result<Option<Message>, AllocError>
    ensures { IfOk result (λ m. m ≡ spec.message_from (view value.now)) }
{
    match value.get("arguments") {
        Some(arguments) => message_from(alloc, value, arguments),
        None => message_from(alloc, value, &Value::Null),
    }
}

/// The message that a body is (docs/ADAPTER.md, "Frames and messages"); `None` if it is passed over. An `Err` is want of memory, which
/// there is of no empty body.
#[tactic(auto, using(crate::proofs::ReadLemmas::nothing_in))]
pub fn message_of(alloc: Global, body: &[u8]) -> Result<Option<Message>, AllocError>
    ensures exact { IfOk result (λ m. m ≡ spec.message_in body.now) }
    ensures memory { OnErr result (0 < length body.now) }
{
    if body.is_empty() {
        return Ok(None);
    }
    let Some(value) = json_of(alloc, body)? else {
        return Ok(None);
    };
    let message = message_of_value(alloc, &value)?;
    Ok(message)
}
