//! The debug adapter (docs/ADAPTER.md): what messages of an editor ask of a console, and what is told of it in frames.
#![tactic(auto)]

pub mod desk;
pub mod halt;
pub mod laws;
mod looks;
mod marks;
pub mod moves;
pub mod numbers;
mod rank;
mod sheet;
mod shelves;
pub mod task;
pub mod unread;
pub mod worth;

pub use desk::AdapterDesk;
pub use halt::Halt;
pub use laws::{
    looks_change_nothing, moves_tell_where_they_stop, one_response_comes_first,
    other_bodies_are_passed_over, other_breakpoints_stay,
};
pub use moves::{After, Move, word_for};
pub use numbers::{Scope, Shelf, rank_of_thread, shelf_of, thread_of};
pub use task::{Look, Task};
pub use unread::UnreadDesk;
pub use worth::{RankWorth, Worth};
