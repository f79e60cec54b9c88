//! The bodies of responses and events (docs/ADAPTER.md).

ghost use Rattle.std.specs.Prelude.{◌≡◌, ◌≤◌, IfOk, false};
ghost use Rattle.serde_json.specs.View.{view};
ghost use Rattle.serde_json.specs.Written.{has_float};
ghost use Rattle.mpd_dap.specs.Bodies as spec;

use crate::name::Reason;
use serde_json::{Value, json};
use std::alloc::{AllocError, Global};

/// A JSON value without a float, so that its text is known.
#[derive(Drop)]
pub struct Json {
    pub(crate) value: Value,
    ghost plain: { has_float (view value) ≡ false },
}

/// An empty body. An `Err` is want of memory, here and below.
#[tactic(auto, unfolding(crate::specs::Bodies::nothing_data))]
pub fn nothing(alloc: Global) -> Result<Json, AllocError>
    ensures { IfOk result (λ j. view j.value ≡ spec.nothing_data) }
{
    let value = json!(in alloc; {})?;
    Ok(Json { value })
}

/// What the adapter can: the body of `initialize`.
#[tactic(auto, unfolding(crate::specs::Bodies::capabilities_data))]
pub fn capabilities(alloc: Global) -> Result<Json, AllocError>
    ensures { IfOk result (λ j. view j.value ≡ spec.capabilities_data) }
{
    let value = json!(in alloc; {
        "supportsConditionalBreakpoints": true,
        "supportsConfigurationDoneRequest": true,
        "supportsEvaluateForHovers": true,
        "supportsExceptionInfoRequest": true,
        "supportsStepBack": true,
        "supportsStepInTargetsRequest": true,
        "supportsTerminateRequest": true
    })?;
    Ok(Json { value })
}

/// A frame of a rank, at a line of the script at a path.
fn frame_value(
    alloc: Global,
    id: usize,
    line: usize,
    name: &str,
    path: &str,
) -> Result<Value, AllocError>
    ensures { IfOk result (λ v. view v ≡ spec.frame_data id line name.now path.now) }
{
    let source = json!(in alloc; {"path": path})?;
    json!(in alloc; {"column": 1usize, "id": id, "line": line, "name": name, "source": source})
}

/// The frames of a rank, of which there is one.
fn stack_value(alloc: Global, frame: Value) -> Result<Value, AllocError>
    ensures { IfOk result (λ v. view v ≡ spec.stack_data (view frame)) }
{
    json!(in alloc; {"stackFrames": [frame], "totalFrames": 1usize})
}

/// The frame of a rank that stands at a line of the script: the body of `stackTrace`.
#[tactic(auto, unfolding(crate::specs::Bodies::standing_data))]
pub fn standing_frame(
    alloc: Global,
    id: usize,
    line: usize,
    name: &str,
    path: &str,
) -> Result<Json, AllocError>
    ensures { IfOk result (λ j. view j.value ≡ spec.standing_data id line name.now path.now) }
{
    let frame = frame_value(alloc, id, line, name, path)?;
    let value = stack_value(alloc, frame)?;
    Ok(Json { value })
}

/// The frame of a rank that has ended: the body of `stackTrace`.
#[tactic(auto, unfolding(crate::specs::Bodies::ended_data))]
pub fn ended_frame(alloc: Global, id: usize, name: &str) -> Result<Json, AllocError>
    ensures { IfOk result (λ j. view j.value ≡ spec.ended_data id name.now) }
{
    let value = json!(in alloc; {
        "stackFrames": [{
            "column": 1usize,
            "id": id,
            "line": 0usize,
            "name": name,
            "presentationHint": "label"
        }],
        "totalFrames": 1usize
    })?;
    Ok(Json { value })
}

/// A scope.
fn scope(alloc: Global, name: &str, reference: usize) -> Result<Value, AllocError>
    ensures { IfOk result (λ v. view v ≡ spec.scope_data name.now reference) }
{
    json!(in alloc; {"expensive": false, "name": name, "variablesReference": reference})
}

/// The four scopes of a rank, the first of which has this reference: the body of `scopes`.
#[tactic(auto, unfolding(crate::specs::Bodies::scopes_data))]
pub fn scopes(alloc: Global, first: usize) -> Result<Json, AllocError>
    requires { first ≤ 18446744073709551612 }
    ensures { IfOk result (λ j. view j.value ≡ spec.scopes_data first) }
{
    let value = json!(in alloc; {"scopes": [
        scope(alloc, "Variables", first)?,
        scope(alloc, "Requests", first + 1)?,
        scope(alloc, "Calls", first + 2)?,
        scope(alloc, "Printed", first + 3)?
    ]})?;
    Ok(Json { value })
}

/// How a run has ended, and what is told of it: the body of `exceptionInfo`.
#[tactic(auto, unfolding(crate::specs::Bodies::exception_data))]
pub fn exception(alloc: Global, kind: &str, told: &str) -> Result<Json, AllocError>
    ensures { IfOk result (λ j. view j.value ≡ spec.exception_data kind.now told.now) }
{
    let value = json!(in alloc; {"breakMode": "always", "description": told, "exceptionId": kind})?;
    Ok(Json { value })
}

/// The body of `continue`.
#[tactic(auto, unfolding(crate::specs::Bodies::continued_data))]
pub fn all_continued(alloc: Global) -> Result<Json, AllocError>
    ensures { IfOk result (λ j. view j.value ≡ spec.continued_data) }
{
    let value = json!(in alloc; {"allThreadsContinued": true})?;
    Ok(Json { value })
}

/// The answer to an expression: the body of `evaluate`.
#[tactic(auto, unfolding(crate::specs::Bodies::evaluated_data))]
pub fn evaluated(alloc: Global, text: &str) -> Result<Json, AllocError>
    ensures { IfOk result (λ j. view j.value ≡ spec.evaluated_data text.now) }
{
    let value = json!(in alloc; {"result": text, "variablesReference": 0usize})?;
    Ok(Json { value })
}

/// That a thread has started: the body of the event `thread`.
#[tactic(auto, unfolding(crate::specs::Bodies::started_data))]
pub fn started(alloc: Global, thread: usize) -> Result<Json, AllocError>
    ensures { IfOk result (λ j. view j.value ≡ spec.started_data thread) }
{
    let value = json!(in alloc; {"reason": "started", "threadId": thread})?;
    Ok(Json { value })
}

/// What the console says: the body of the event `output`.
#[tactic(auto, unfolding(crate::specs::Bodies::output_data))]
pub fn output(alloc: Global, text: &str) -> Result<Json, AllocError>
    ensures { IfOk result (λ j. view j.value ≡ spec.output_data text.now) }
{
    let value = json!(in alloc; {"category": "stdout", "output": text})?;
    Ok(Json { value })
}

/// Where the session stands, and the thread that the editor shows: the body of the event `stopped`.
#[tactic(auto, unfolding(crate::specs::Bodies::stopped_data))]
pub fn stopped(
    alloc: Global,
    reason: Reason,
    description: &str,
    thread: usize,
) -> Result<Json, AllocError>
    ensures { IfOk result (λ j. view j.value ≡ spec.stopped_data reason description.now thread) }
{
    let name = reason.name();
    let value = json!(in alloc; {
        "allThreadsStopped": true,
        "description": description,
        "reason": name,
        "threadId": thread
    })?;
    Ok(Json { value })
}
