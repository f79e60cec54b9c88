//! Bytes and lines: what comes in pieces is cut into lines, a desk answers each, and the answers are written before the next read; long
//! lines of an answer go on in further lines (docs/CONSOLE.md).
#![tactic(auto)]

pub mod desk;
pub mod echo;
pub mod engine;
mod feeder;
pub mod fold;
mod line_bytes;
pub mod outbox;
pub mod room;
pub mod up_to;
pub mod verdict;

pub use desk::{LINE_ROOM, LineDesk, ROOM};
pub use echo::{MARK_MAX, push_echo, push_long_echo};
pub use engine::{EngineFault, READ_MAX, run, run_behind};
pub use fold::{
    INDENT, WIDTH, long_lines_can_nowhere_be_cut, long_lines_keep_their_words, push_folded,
    push_folded_at,
};
pub use outbox::write_all;
pub use room::push_all;
pub use up_to::read_up_to;
pub use verdict::Verdict;
