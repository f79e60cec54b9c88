//! The nodes of lowered code.

use mpd_model::{Expr, Simple};

/// A statement without the statements inside it.
#[derive(Drop)]
pub struct Node {
    pub action: Action,
    /// The number of the node that follows the statement.
    pub next: u32,
}

/// What a node does.
#[derive(Drop)]
pub enum Action {
    /// A statement that holds no other.
    Simple(Simple),
    /// An `if`: the nodes where its first and its second block begin. An empty block begins at what follows.
    Branch { test: Expr, first: u32, second: u32 },
    /// A `while`: the node where its body begins. An empty body begins at the `while` itself.
    Repeat { test: Expr, body: u32 },
}
