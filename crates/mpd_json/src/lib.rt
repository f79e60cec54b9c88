//! What is found of a script's runs as JSON (docs/FORMATS.md, "JSON of reports").
#![tactic(auto)]

mod blame;
pub mod diagnosis;
mod end;
mod place;
pub mod report;

pub use diagnosis::diagnosis_json;
pub use place::ToldScript;
pub use report::{least_json, listing_json, mode_json, outcomes_json};
