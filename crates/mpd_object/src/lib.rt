//! Values of JSON: objects that are made key by key, lists that are made part by part, and lines.
#![tactic(auto)]

pub mod object;
pub mod row;

pub use object::{Object, line, list, numbers, text_value};
pub use row::Row;
