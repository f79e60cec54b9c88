//! Serves a session by lines of JSON (docs/SESSIONS.md): over a source and a sink, or to the clients of a listener, each on a thread of
//! its own with a seat of its own ("Several clients"), under one lock.
#![tactic(auto)]

mod client;
mod crew;
pub mod fault;
mod lines;
pub mod porter;
pub mod runner;
pub mod server;

pub use fault::HostFault;
pub use porter::Porter;
pub use runner::{run, run_by};
pub use server::{Arrivals, serve};
