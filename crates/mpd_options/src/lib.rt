//! The command line: its words, what they ask for, and why they ask for nothing that can be done.
#![tactic(auto)]

pub mod clash;
pub mod command;
pub mod help;
pub mod number;
pub mod options;
pub mod read;
pub mod table;

pub use clash::{CheckOption, Clash};
pub use options::{CheckOptions, Form, Options, PageOptions, ToolOptions, UsageFault};
pub use read::read_options;
pub use table::Tool;
