//! Messages of the Debug Adapter Protocol as JSON (docs/ADAPTER.md): what the body of a frame asks, and the frames of responses and
//! events. Nothing here knows a session: there are bytes, texts and numbers alone.
//!
//! Numbers of threads, frames and references are read as they were given, 0 to 18446744073709551615; whether there is such a thread is
//! for the desk to say. Memory is taken for what a message has, and none for a number or a length that it only tells.
#![tactic(auto)]

pub mod ask;
pub mod body;
pub mod command;
mod fields;
pub mod frame;
pub mod laws;
pub mod listed;
pub mod message;
pub mod name;
mod reader;
pub mod text;

pub use ask::{Ask, Manner, Message, Wanted, WantedList};
pub use body::{
    Json, all_continued, capabilities, ended_frame, evaluated, exception, nothing, output, scopes,
    standing_frame, started, stopped,
};
pub use command::Command;
pub use frame::{push_event, push_failure, push_memory, push_refusal, push_response};
pub use laws::a_response_has_its_request;
pub use listed::{Mark, Target, Thread, Variable, marks, targets, threads, variables};
pub use message::message_of;
pub use name::{Event, Reason, Refusal, Trouble};
pub use text::{Text, shown};
