//! A counter of what is done: writes, looks, calls of a device.
#![tactic(auto)]

pub mod counter;

pub use counter::Counter;
