//! Reads the text of a script, and prints it (docs/LANGUAGE.md).
#![tactic(auto)]

mod asked;
mod canonical;
mod cursor;
mod expr;
mod lex;
mod place;
mod script;
mod simple;
mod stmt;

pub use asked::{Asked, read_expression};
pub use canonical::print;
pub use mpd_model::{FaultCode, ReadFault};
pub use script::read;
