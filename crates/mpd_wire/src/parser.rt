//! Requests from lines.

ghost use Rattle.std.specs.Prelude.{◌≡◌, ◌≢◌, ◌<◌, ◌≤◌, length, Err};
ghost use Rattle.serde_json.specs.View.{view};
ghost use Rattle.mpd_wire.specs.Requests.{request_of, request_by, request_in, Reads};
ghost use Rattle.mpd_wire.specs.declared.fault.WireFault.TheVariants.{Memory};

use crate::fault::WireFault;
use crate::fields;
use mpd_model::LINE_MAX;
use mpd_session::Request;
use serde_json::Value;
use std::alloc::Global;

/// The request that a line is, without its line feed, or the first fault that it has (docs/SESSIONS.md, "Requests"). Memory is
/// refused only for lines of 1 to 4,096 bytes. What is read with `--wide` alone is no request here.
pub fn parse(alloc: Global, line: &[u8]) -> Result<Request, WireFault>
    ensures exact { result ≢ Err Memory → result ≡ request_in line.now }
    ensures memory { result ≡ Err Memory → (0 < length line.now) × (length line.now ≤ LINE_MAX) }
{
    parse_by(alloc, false, line)
}

/// The same; with `wide` what is read with `--wide` alone is a request, too.
#[tactic(auto, using(crate::proofs::Json::line_is, crate::proofs::Json::too_long, crate::proofs::Json::not_json, crate::proofs::Json::never_memory))]
pub fn parse_by(alloc: Global, wide: bool, line: &[u8]) -> Result<Request, WireFault>
    ensures exact { result ≢ Err Memory → result ≡ request_by wide line.now }
    ensures memory { result ≡ Err Memory → (0 < length line.now) × (length line.now ≤ LINE_MAX) }
{
    if line.len() > LINE_MAX {
        return Err(WireFault::LineTooLong);
    }
    let value = json_of(alloc, line)?;
    request_of(wide, &value)
}

/// The JSON value of some bytes.
#[tactic(auto, using(crate::proofs::Json::json_of_some, crate::proofs::Json::json_of_none))]
fn json_of(alloc: Global, line: &[u8]) -> Result<Value, WireFault>
    ensures { Reads line.now result }
{
    match Value::from_slice(alloc, line) {
        Ok(value) => Ok(value),
        Err(e) if e.is_memory() => Err(WireFault::Memory),
        Err(_) => Err(WireFault::NotJson),
    }
}

/// The request that a JSON value is.
fn request_of(wide: bool, value: &Value) -> Result<Request, WireFault>
    ensures { result ≡ request_of wide (view value.now) }
{
    let Some(name) = fields::text_at(value, "cmd") else {
        return Err(WireFault::BadField);
    };
    match fields::shape_of(wide, name, value) {
        Ok(shape) => fields::asked(wide, value, shape),
        Err(fault) => Err(fault),
    }
}
