//! The canonical text of a script (docs/LANGUAGE.md, "Canonical text").
#![tactic(auto)]

mod expr;
mod script;
mod simple;
mod stmt;

pub use expr::push_expr;
pub use script::print;
