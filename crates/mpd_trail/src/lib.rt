//! The steps that were taken, forward and back: the debugger, and the headline over lists of steps and undos.
#![tactic(auto)]

pub mod debugger;
pub mod run;

pub use debugger::{ApplyFault, AtStart, Debugger, NotBefore, RedoFault};
pub use run::{Reply, TrailCommand, answer, follow, replay};
