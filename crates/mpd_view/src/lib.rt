//! A view of a script that is debugged (docs/CONSOLE.md, "A view"): what is shown of a debugger, as
//! a value, the screen that shows it with the lines of the script and the last answer, and a desk
//! over the console that draws it after each line.
#![tactic(auto)]

pub mod desk;
mod drawn;
mod layout;
pub mod run;
pub mod sight;

pub use desk::ViewDesk;
pub use drawn::Size;
pub use run::run_view;
pub use sight::{Places, Sight, sight_of};
