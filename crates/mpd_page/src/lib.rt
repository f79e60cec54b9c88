//! Pages of runs for a browser (docs/PAGES.md).
#![tactic(auto)]

mod changes;
mod data;
mod draw;
mod end_value;
mod ends;
mod frame;
pub mod head;
pub mod laws;
mod node;
mod node_value;
mod nodes;
pub mod page;
mod places;
mod reasons;
mod same;
mod sink;
mod template;
pub mod tree;
pub mod walk;

pub use changes::{
    CellChange, CellChangeList, HandleChange, HandleChangeList, NewCall, NodeChange, PlaceChange,
    PlaceChangeList, Printed, PrintedList, ReasonChange, ReasonChangeList, ShownCall,
};
pub use draw::draw_runs;
pub use ends::{PageEnd, RunEnd};
pub use head::Title;
pub use laws::{data_has_no_markup, parents_come_first, states_are_shown};
pub use node::{Lead, Node};
pub use nodes::Drawn;
pub use page::{make_page, page_text};
pub use places::{Doing, RankPlace};
pub use reasons::{Awaited, AwaitedList, PartnerList, Prospect, RankList, Reason};
pub use tree::{Branch, PageFault, STATES_MAX};
pub use walk::Walk;
