//! The names of a script: cells by their names, what ranks hold, where calls and ranks stand, and
//! how a run has ended, as values and as words.
#![tactic(auto)]

mod bytes;
mod cells;
pub mod copies;
pub mod ends;
pub mod equal;
pub mod find;
pub mod holding;
pub mod line;
pub mod list;
pub mod mark;
pub mod name;
pub mod place;
pub mod placed;
mod read;
pub mod source;
pub mod standing;
pub mod text;
pub mod values;

pub use copies::copy_holdings;
pub use ends::{end_name, push_end, push_end_places};
pub use equal::{same_call, same_holdings, same_stands};
pub use find::find_named;
pub use holding::{Held, HeldCalls, HeldValues, Holding, HoldingList, held_in, holdings, reads};
pub use line::{InnerLine, Marks, SourceLine};
pub use list::{push_list, push_list_about};
pub use mark::{PLACE_MAX, mark_of};
pub use name::{NameFault, Named};
pub use place::{Issuer, MarkedCall, MarkedStands, PlacedCall, Stands};
pub use placed::{issue_line, placed_call, rank_line};
pub use source::push_source;
pub use standing::{all_stands, can_wake, has_ended, is_blocked, stand, stands};
pub use text::{NamedCell, named_cell, push_break, push_cell_name};
pub use values::{push_holdings, push_named, push_spaced, push_variables};
