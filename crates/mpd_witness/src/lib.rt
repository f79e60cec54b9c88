//! Witnesses of deadlocks and traps from texts and files, alone or in a whole report, and what is answered to them.
#![tactic(auto)]

pub mod judgement;
pub mod laws;
mod pieces;
pub mod report_file;
mod report_lines;
pub mod report_text;
pub mod witness_text;

pub use judgement::judge;
pub use laws::{written_witness_is_read, written_witness_of_a_leaf_is_read};
pub use report_file::{WITNESS_MAX, read_report_witness};
pub use report_text::{ReportFault, read_report};
pub use witness_text::{WitnessTextFault, read_witness};
