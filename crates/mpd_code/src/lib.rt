//! Scripts as code: a flat list of nodes, each of which stands for what is left to run, and the values of expressions.
#![tactic(auto)]

mod cells;
pub mod code;
pub mod env;
pub mod evaluation;
pub mod lowering;
pub mod node;
mod operate;
pub mod subject;

pub use code::Code;
pub use env::Env;
pub use evaluation::{
    barrier, eval, eval_assign, eval_irecv, eval_isend, eval_issend, eval_recv, eval_send,
    eval_ssend, eval_wait, eval_waitany,
};
pub use lowering::lower;
pub use node::{Action, Node};
pub use subject::Subject;
