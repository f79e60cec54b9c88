//! The words of the console: what they are called, what a line of them asks for, and what is told of a line that asks for nothing
//! (docs/CONSOLE.md).
#![tactic(auto)]

pub mod condition;
pub mod faults;
pub mod read;
pub mod topic;
pub mod value;
pub mod word;

pub use condition::condition_in;
pub use faults::{push_fault, push_help, push_no_name, push_quoted, word_at};
pub use read::{Line, line_of, named_in, when_in};
pub use topic::{FIRST, NAMES, TOPICS, Topic};
pub use value::behind_word;
pub use word::{HelpOn, When, Word, WordFault};
