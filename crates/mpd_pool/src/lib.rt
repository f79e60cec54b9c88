//! The runs of a script explored by several workers, with the same report for every number of them and every schedule.
#![tactic(auto)]

pub mod deque;
pub mod gate;
mod join;
pub mod pool;
pub mod print;
mod slots;
mod work;

pub use deque::{EachOnce, Given, Hand, Owner, Pushed, Taken, Thief, WorkerPass, filled};
pub use gate::{Gate, Ungated};
pub use pool::{CheckPlan, Crew, PoolFault, SearchPlan, WORKERS_MAX, check, check_watched};
pub use print::print_report;
