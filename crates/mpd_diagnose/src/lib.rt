//! Whether the runs of a script can hang or trap, how, and where that was decided (docs/FORMATS.md,
//! "Diagnosis").
#![tactic(auto)]

pub mod along;
mod brief;
pub mod cause;
mod commands;
pub mod diagnosis;
pub mod groups;
mod modes;
mod told;
pub mod verdict;
mod words;

pub use along::LeafEnd;
pub use brief::{mode_line, ranks_line};
pub use cause::{Cause, EndKind, LineList};
pub use commands::full_command;
pub use diagnosis::{Diagnosis, DiagnosisPlan, Runs, diagnose};
pub use groups::Group;
pub use modes::{ScriptInModes, closing_of, first_of, modes_up_to, worst_of};
pub use told::{diagnosis_text, push_verdict, verdict_text};
pub use verdict::{
    always_fails, always_hangs, always_traps, drawn_counts, draws, ends_well, fails_both, leaves,
    verdict_of,
};
pub use words::Named;
