//! The console (docs/CONSOLE.md): what its words ask of a session, what they did, and what is said of
//! that.
#![tactic(auto)]

pub mod again;
pub mod along;
mod blamed;
mod carried;
pub mod desk;
pub mod done;
mod elsewhere;
mod found;
mod held;
pub mod laws;
pub mod lead;
pub mod looks;
pub mod moves;
pub mod news;
mod onward;
pub mod opening;
pub mod prompts;
pub mod quit;
pub mod run;
mod saying;
pub mod sourced;
pub mod told;
pub mod values;

pub use again::{Kept, Unread, keep, refused_again, reopen};
pub use along::Along;
pub use desk::{ConsoleDesk, Screen};
pub use done::Done;
pub use lead::{Lead, lead_of};
pub use looks::sight_of;
pub use moves::{Doing, doing_of, goto_command};
pub use news::{Known, known_for};
pub use onward::{finish_rank, rank_of};
pub use opening::{OpenFault, Opened, open, open_along, open_with};
pub use prompts::Look;
pub use quit::{UntilWish, Wish};
pub use run::run_console;
pub use sourced::{Unsourced, WORDS_MAX, ended_words, source_refused, source_taken};
pub use told::{
    Blamed, Carried, First, Laid, Moved, News, Numbered, NumberedList, Printed, PrintedList, Sight,
    Stopped, Told, Went, Why,
};
pub use values::{Expected, NoValue, RankValue, ValueList, Valued};
