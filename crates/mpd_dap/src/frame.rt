//! The frames of responses and events (docs/ADAPTER.md, "Frames and messages").

ghost use Rattle.std.specs.Prelude.{◌≡◌, ◌+◌, ◌≤◌, ◌++◌, IfOk, OnOk, OnErr, false, vec_len, vec_capacity};
ghost use Rattle.serde_json.specs.View.{view};
ghost use Rattle.serde_json.specs.Written.{compact_text};
ghost use Rattle.mpd_frames.specs.Frame.{frame_text};
ghost use Rattle.mpd_frames.specs.declared.limits.TheConstants.{FRAME_ROOM};
ghost use Rattle.mpd_dap.specs.Told as spec;

use crate::ask::Message;
use crate::body::Json;
use crate::name::{Event, Refusal};
use itoa::Buffer;
use mpd_frames::push_frame;
use mpd_lines::push_all;
use serde_json::{Value, json};
use std::alloc::{AllocError, Global};

/// Adds the frame of a value.
fn push_json(alloc: Global, out: &mut Vec<u8>, json: Json) -> Result<(), AllocError>
    ensures items { OnOk result (out.new.items ≡ out.old.items ++ frame_text (compact_text (view json.value))) }
    ensures same { OnErr result (out.new.items ≡ out.old.items) }
    ensures capacity { vec_capacity out.old ≤ vec_capacity out.new }
{
    let text = json.value.to_string(alloc)?;
    push_frame(out, text.as_bytes())
}

/// A response as JSON.
#[tactic(auto, using(crate::proofs::PlainLemmas::response_plain), unfolding(crate::specs::Told::response_data))]
fn response(alloc: Global, seq: u64, message: &Message, body: Json) -> Result<Json, AllocError>
    ensures { IfOk result (λ j. view j.value ≡ spec.response_data seq message.now.seq message.now.name (view body.value)) }
{
    let value = json!(in alloc; {
        "body": body.value,
        "command": message.name.as_str(),
        "request_seq": message.seq,
        "seq": seq,
        "success": true,
        "type": "response"
    })?;
    Ok(Json { value })
}

/// Adds the frame of the response with a number to a message. An `Err` is want of memory, here and below; it adds nothing.
pub fn push_response(
    alloc: Global,
    out: &mut Vec<u8>,
    seq: u64,
    message: &Message,
    body: Json,
) -> Result<(), AllocError>
    ensures items { OnOk result (out.new.items ≡ out.old.items ++ frame_text (spec.response_text seq message.now.seq message.now.name (view body.value))) }
    ensures same { OnErr result (out.new.items ≡ out.old.items) }
    ensures capacity { vec_capacity out.old ≤ vec_capacity out.new }
{
    push_json(alloc, out, response(alloc, seq, message, body)?)
}

/// A refusal as JSON.
#[tactic(auto, unfolding(crate::specs::Told::refusal_data))]
fn refusal_of(
    alloc: Global,
    seq: u64,
    refused: &Message,
    refusal: Refusal,
) -> Result<Json, AllocError>
    ensures { IfOk result (λ j. view j.value ≡ spec.refusal_data seq refused.now.seq refused.now.name refusal) }
{
    let name = refusal.name();
    let value = json!(in alloc; {
        "command": refused.name.as_str(),
        "message": name,
        "request_seq": refused.seq,
        "seq": seq,
        "success": false,
        "type": "response"
    })?;
    Ok(Json { value })
}

/// Adds the frame of the response with a number that refuses a message.
pub fn push_refusal(
    alloc: Global,
    out: &mut Vec<u8>,
    seq: u64,
    message: &Message,
    refusal: Refusal,
) -> Result<(), AllocError>
    ensures items { OnOk result (out.new.items ≡ out.old.items ++ frame_text (spec.refusal_text seq message.now.seq message.now.name refusal)) }
    ensures same { OnErr result (out.new.items ≡ out.old.items) }
    ensures capacity { vec_capacity out.old ≤ vec_capacity out.new }
{
    push_json(alloc, out, refusal_of(alloc, seq, message, refusal)?)
}

/// What is told of a failure, as JSON.
fn error_of(alloc: Global, told: &str) -> Result<Value, AllocError>
    ensures { IfOk result (λ v. view v ≡ spec.error_data told.now) }
{
    let error = json!(in alloc; {"format": told, "id": 1usize, "showUser": true})?;
    json!(in alloc; {"error": error})
}

/// A refusal with what a person is told of it, as JSON.
#[tactic(auto, unfolding(crate::specs::Told::failure_data))]
fn failure_of(
    alloc: Global,
    seq: u64,
    refused: &Message,
    refusal: Refusal,
    told: &str,
) -> Result<Json, AllocError>
    ensures { IfOk result (λ j. view j.value ≡ spec.failure_data seq refused.now.seq refused.now.name refusal told.now) }
{
    let body = error_of(alloc, told)?;
    let name = refusal.name();
    let value = json!(in alloc; {
        "body": body,
        "command": refused.name.as_str(),
        "message": name,
        "request_seq": refused.seq,
        "seq": seq, "success": false, "type": "response"
    })?;
    Ok(Json { value })
}

/// Adds the frame of the response with a number that refuses a message, and has what a person is told of it.
pub fn push_failure(
    alloc: Global,
    out: &mut Vec<u8>,
    seq: u64,
    message: &Message,
    refusal: Refusal,
    told: &str,
) -> Result<(), AllocError>
    ensures items { OnOk result (out.new.items ≡ out.old.items ++ frame_text (spec.failure_text seq message.now.seq message.now.name refusal told.now)) }
    ensures same { OnErr result (out.new.items ≡ out.old.items) }
    ensures capacity { vec_capacity out.old ≤ vec_capacity out.new }
{
    push_json(alloc, out, failure_of(alloc, seq, message, refusal, told)?)
}

/// An event as JSON.
#[tactic(auto, using(crate::proofs::PlainLemmas::event_plain), unfolding(crate::specs::Told::event_data))]
fn event_of(alloc: Global, seq: u64, event: Event, body: Json) -> Result<Json, AllocError>
    ensures { IfOk result (λ j. view j.value ≡ spec.event_data seq event (view body.value)) }
{
    let name = event.name();
    let value = json!(in alloc; {"body": body.value, "event": name, "seq": seq, "type": "event"})?;
    Ok(Json { value })
}

/// Adds the frame of the event with a number.
pub fn push_event(
    alloc: Global,
    out: &mut Vec<u8>,
    seq: u64,
    event: Event,
    body: Json,
) -> Result<(), AllocError>
    ensures items { OnOk result (out.new.items ≡ out.old.items ++ frame_text (spec.event_text seq event (view body.value))) }
    ensures same { OnErr result (out.new.items ≡ out.old.items) }
    ensures capacity { vec_capacity out.old ≤ vec_capacity out.new }
{
    push_json(alloc, out, event_of(alloc, seq, event, body)?)
}

/// How the event begins that tells that memory was refused, up to its number.
const BEGUN: &[u8] =
    b"{\"body\":{\"category\":\"important\",\"output\":\"refused: memory\\n\"},\"event\":\"output\",\"seq\":";

/// How it ends after its number.
const DONE: &[u8] = b",\"type\":\"event\"}";

/// How a header begins, and how it ends.
const NAME: &[u8] = b"Content-Length: ";

const BREAKS: &[u8] = b"\r\n\r\n";

/// Adds the frame of the event with a number that tells that memory was refused. It takes no memory.
pub fn push_memory(out: &mut Vec<u8>, seq: u64)
    requires room { vec_len out.old + FRAME_ROOM ≤ vec_capacity out.old }
    ensures items { out.new.items ≡ out.old.items ++ frame_text (spec.memory_text seq) }
    ensures capacity { vec_capacity out.old ≤ vec_capacity out.new }
{
    let mut buffer = Buffer::new();
    let digits = buffer.format(seq).as_bytes();
    let mut counted = Buffer::new();
    let length = counted
        .format(BEGUN.len() + digits.len() + DONE.len())
        .as_bytes();
    push_all(out, NAME);
    push_all(out, length);
    push_all(out, BREAKS);
    push_all(out, BEGUN);
    push_all(out, digits);
    push_all(out, DONE);
}
