//! The fields of a JSON object.

ghost use Rattle.std.specs.Prelude.{◌≡◌, option_map};
ghost use Rattle.serde_json.specs.View.{view};
ghost use Rattle.mpd_dap.specs.Fields.{whole, number_at, text_at, present, optional_number_at, optional_text_at};

use serde_json::Value;

/// A whole number from 0 that fits 64 bits.
fn whole(value: &Value) -> Option<usize>
    ensures { result ≡ whole (view value.now) }
{
    let number = value.as_u64()?;
    Some(number as usize)
}

/// A field that must be such a number.
pub(crate) fn number_at(value: &Value, name: &str) -> Option<usize>
    ensures { result ≡ number_at name.now (view value.now) }
{
    whole(value.get(name)?)
}

/// The same, as a number that is told again.
pub(crate) fn long_number_at(value: &Value, name: &str) -> Option<u64>
    ensures { result ≡ number_at name.now (view value.now) }
{
    value.get(name)?.as_u64()
}

/// A field that must be a text.
pub(crate) fn text_at<'v>(value: &'v Value, name: &str) -> Option<&'v str>
    ensures { option_map (λ s. s.now) result ≡ text_at name.now (view value.now) }
{
    value.get(name).and_then(Value::as_str)
}

/// A field that is there, and isn't `null`.
pub(crate) fn present<'v>(value: &'v Value, name: &str) -> Option<&'v Value>
    ensures { option_map (λ v. view v.now) result ≡ present name.now (view value.now) }
{
    let found = value.get(name)?;
    if found.is_null() {
        return None;
    }
    Some(found)
}

/// A field that may be there, and is a whole number then; `None` if it is none.
pub(crate) fn optional_number_at(value: &Value, name: &str) -> Option<Option<usize>>
    ensures { result ≡ optional_number_at name.now (view value.now) }
{
    match present(value, name) {
        None => Some(None),
        Some(number) => whole(number).map(Some),
    }
}

/// A field that may be there, and is a text then; `None` if it is none.
pub(crate) fn optional_text_at<'v>(value: &'v Value, name: &str) -> Option<Option<&'v str>>
    ensures { option_map (λ o. option_map (λ s. s.now) o) result ≡ optional_text_at name.now (view value.now) }
{
    match present(value, name) {
        None => Some(None),
        Some(text) => text.as_str().map(Some),
    }
}
