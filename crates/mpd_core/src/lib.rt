//! The state of a run, one step forward and that step back.
#![tactic(auto)]

pub mod enabled;
pub mod ending;
pub mod fault;
mod ranks;
pub mod record;
pub mod state;
pub mod step;
pub mod text;
pub mod waitany;

pub use fault::StepFault;
pub use record::{OtherRecord, Record};
pub use state::Core;
pub use step::{AnyStep, OtherStep};
pub use waitany::Request;
