//! One rank over lowered code: what its next statement does, the step, and that step back.
#![tactic(auto)]

pub mod change;
pub mod control;
pub mod plan;
pub mod rank;

pub use change::{
    Cells, LocalChange, LocalKind, LocalRecord, OldCell, OldCells, OldHandle, RankRecord,
    WakeRecord,
};
pub use control::Control;
pub use plan::{Alone, LocalPlan};
pub use rank::RankState;
