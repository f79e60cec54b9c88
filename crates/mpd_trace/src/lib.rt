//! Traces: the words of a trace, their answers, the text of a state, the input that holds a script and its trace, and a script for another
//! number of ranks than its head says.
#![tactic(auto)]

pub mod allowed_tokens;
pub mod desk;
pub mod divider;
pub mod enabled_list;
pub mod excerpts;
pub mod file;
pub mod hints;
pub mod plain_trace;
pub mod reading;
pub mod script;
pub mod span;
pub mod state_text;
pub mod text;
pub mod tracer;

pub use allowed_tokens::{allowed, push_found};
pub use desk::{EchoDesk, TraceDesk};
pub use divider::{Divider, Division};
pub use enabled_list::listed;
pub use excerpts::{SHOWN_BEFORE, SHOWN_MAX, excerpt};
pub use file::{read_code, read_script};
pub use hints::{hint, word_at};
pub use plain_trace::{Head, HeadEnd, PlainFault, plain, plain_keeping};
pub use reading::{code_of_text, read_code_for, read_script_for};
pub use script::with_ranks;
pub use span::{RankSpan, span_of};
pub use state_text::show;
pub use text::text_with_ranks;
pub use tracer::{trace, trace_echoing};
