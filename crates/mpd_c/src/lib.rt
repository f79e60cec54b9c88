//! A script as a C program with MPI calls (docs/FORMATS.md, "A script in C").
#![tactic(auto)]

mod expr;
mod fixed;
mod script;
mod simple;
mod stmt;
mod write;

pub use script::print_c;
pub use write::write_c;
