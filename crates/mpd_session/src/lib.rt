//! Sessions (docs/SESSIONS.md): what a client asks and what it is told, a debugger with breakpoints and a version that answers, and such a
//! session under one lock, with a seat for each client.
#![tactic(auto)]

pub mod audit;
pub mod book;
pub mod desk;
pub mod history;
pub mod opening;
pub mod reply;
pub mod request;
pub mod same;
pub mod seat;
pub mod seat_desk;
pub mod session;
pub mod settle;
pub mod shared;

pub use audit::AuditFault;
pub use book::{Book, TakeFault};
pub use desk::{Desk, DeskFault};
pub use history::{Entry, HISTORY_MAX, Log, Logged, Receipt};
pub use opening::Opening;
pub use reply::{
    Answer, Coming, DeclList, Explained, HandleList, Holding, HoldingList, IntegerList, NumberList,
    PartnerList, Refusal, Reply, Text, TextList,
};
pub use request::{Command, Look, Request};
pub use same::{same_reply, same_request};
pub use seat::Seat;
pub use seat_desk::SeatDesk;
pub use session::Session;
pub use settle::SettleFault;
pub use shared::Shared;

pub(crate) mod breaks;
pub(crate) mod copy;
pub(crate) mod decided;
pub(crate) mod effect;
pub(crate) mod limits;
pub(crate) mod looks;
pub(crate) mod places;
pub(crate) mod runs;
pub(crate) mod script;
pub(crate) mod steps;
