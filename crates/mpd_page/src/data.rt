//! The data of a page as a text of JSON (docs/PAGES.md, "The data").

use crate::end_value::end_value;
use crate::head::{Title, head_value};
use crate::node_value::node_value;
use crate::nodes::Drawn;
use mpd_code::Code;
use mpd_model::Mode;
use serde_json::Value;
use std::alloc::{AllocError, Global};

/// Adds a value.
fn push_value(
    out: &mut String,
    alloc: Global,
    value: Result<Value, AllocError>,
) -> Result<(), AllocError> {
    let text = value?.to_string(alloc)?;
    out.push_str(&text)
}

/// Adds the element of this number, on a line of its own.
fn push_element(
    out: &mut String,
    alloc: Global,
    number: usize,
    value: Result<Value, AllocError>,
) -> Result<(), AllocError> {
    out.push_str(if number == 0 { "\n" } else { ",\n" })?;
    push_value(out, alloc, value)
}

/// Adds the states.
fn push_nodes(
    out: &mut String,
    alloc: Global,
    mode: Mode,
    drawn: &Drawn,
) -> Result<(), AllocError> {
    for (number, node) in drawn.nodes.iter().enumerate() {
        let value = node_value(alloc, mode, number.saturating_sub(1), node);
        push_element(out, alloc, number, value)?;
    }
    Ok(())
}

/// Adds the ends.
fn push_ends(
    out: &mut String,
    alloc: Global,
    code: &Code,
    script: &[u8],
    drawn: &Drawn,
) -> Result<(), AllocError> {
    for (number, end) in drawn.ends.iter().enumerate() {
        let value = end_value(alloc, code.decls(), script, end);
        push_element(out, alloc, number, value)?;
    }
    Ok(())
}

/// The data of a page: an object of what is told of all, of the states, and of the ends.
pub(crate) fn data_text(
    alloc: Global,
    code: &Code,
    mode: Mode,
    title: Title<'_>,
    drawn: &Drawn,
) -> Result<String, AllocError> {
    let mut out = String::new(alloc);
    out.push_str("{\"run\":")?;
    push_value(&mut out, alloc, head_value(alloc, code, mode, title))?;
    out.push_str(",\n\"nodes\":[")?;
    push_nodes(&mut out, alloc, mode, drawn)?;
    out.push_str("\n],\n\"ends\":[")?;
    push_ends(&mut out, alloc, code, title.text, drawn)?;
    out.push_str("\n]}")?;
    Ok(out)
}
