//! Requests and replies as lines of JSON (docs/SESSIONS.md), and what answers such lines for any desk.
#![tactic(auto)]

pub mod engine;
pub mod fault;
mod fields;
mod look_values;
pub mod parser;
pub mod printer;
pub(crate) mod shape;
mod words;

pub use engine::{End, JsonDesk, serve, serve_by};
pub use fault::WireFault;
pub use mpd_lines::EngineFault as ServeFault;
pub use mpd_session::{Desk, DeskFault, Reply, Request};
pub use parser::{parse, parse_by};
pub use printer::print;
