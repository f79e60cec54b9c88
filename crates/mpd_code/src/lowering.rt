//! From a script to code.

ghost use Rattle.std.specs.Prelude.{◌≡◌, ◌≤◌, ◌+◌, [], ◌∷◌, ◌++◌, IfOk, OnOk, length};
ghost use Rattle.mpd_model.specs.script.Tree.{branch, repeat, statements, statements_in, block_of};
ghost use Rattle.mpd_code.specs.Lowered.{entry, lowered, lowered_one};

use crate::cells::{handle_count, variable_count};
use crate::code::Code;
use crate::node::{Action, Node};
use mpd_model::{Expr, STATEMENTS_MAX, Script, Stmt, StmtNode};
use std::alloc::{AllocError, Global};
use std::snapshot::Snapshot;

/// How many statements a statement has, with those inside.
#[tactic(auto, using(crate::proofs::Counts::falling))]
#[cycle(count)]
fn count(stmt: &Stmt) -> usize
    requires { statements stmt.now ≤ STATEMENTS_MAX }
    ensures { result ≡ statements stmt.now }
{
    match &stmt.node {
        StmtNode::If(_, first, second) => count_all(first) + count_all(second) + 1,
        StmtNode::While(_, body) => count_all(body) + 1,
        StmtNode::Simple(_) => 1,
    }
}

/// How many statements a block has.
#[tactic(auto, using(crate::proofs::Counts::falling))]
#[cycle(count)]
fn count_all(block: &[Stmt]) -> usize
    requires { statements_in (block_of block.now) ≤ STATEMENTS_MAX }
    ensures { result ≡ statements_in (block_of block.now) }
{
    let mut total = 0;
    for stmt in block {
        total += count(stmt);
    }
    total
}

/// The number at which a block begins: that of its first statement, or of what follows an empty one.
#[tactic(auto, using(crate::proofs::Entries::entries))]
fn entry(number: u32, block: &[Stmt], next: u32) -> u32
    ensures { result ≡ entry number (block_of block.now) next }
{
    if block.is_empty() { next } else { number }
}

/// Adds the nodes of a statement.
#[tactic(auto, using(crate::proofs::Placed::placing))]
#[cycle(place)]
fn place(nodes: &mut Vec<Node>, stmt: Stmt, next: u32) -> Result<(), AllocError>
    requires { length nodes.old.items + statements stmt ≤ STATEMENTS_MAX }
    ensures { OnOk result (nodes.new.items ≡ nodes.old.items ++ lowered_one (length nodes.old.items) stmt next) }
{
    match stmt.node {
        StmtNode::Simple(simple) => add(nodes, Action::Simple(simple), next),
        StmtNode::If(test, first, second) => place_branch(nodes, test, first, second, next),
        StmtNode::While(test, body) => place_repeat(nodes, test, body, next),
    }
}

/// Adds the nodes of an `if`.
#[tactic(auto, using(crate::proofs::Placed::placing))]
#[cycle(place)]
fn place_branch(
    nodes: &mut Vec<Node>,
    test: Expr,
    first: Vec<Stmt>,
    second: Vec<Stmt>,
    next: u32,
) -> Result<(), AllocError>
    requires { length nodes.old.items + statements_in (block_of first.items) + statements_in (block_of second.items) + 1 ≤ STATEMENTS_MAX }
    ensures { OnOk result (nodes.new.items ≡ nodes.old.items ++ lowered_one (length nodes.old.items) (branch test (block_of first.items) (block_of second.items)) next) }
{
    let number = nodes.len() as u32 + 1;
    let other = number + count_all(&first) as u32;
    let action = Action::Branch {
        test,
        first: entry(number, &first, next),
        second: entry(other, &second, next),
    };
    add(nodes, action, next)?;
    place_all(nodes, first, next)?;
    place_all(nodes, second, next)
}

/// Adds the nodes of a `while`, which follows its body.
#[tactic(auto, using(crate::proofs::Placed::placing))]
#[cycle(place)]
fn place_repeat(
    nodes: &mut Vec<Node>,
    test: Expr,
    body: Vec<Stmt>,
    next: u32,
) -> Result<(), AllocError>
    requires { length nodes.old.items + statements_in (block_of body.items) + 1 ≤ STATEMENTS_MAX }
    ensures { OnOk result (nodes.new.items ≡ nodes.old.items ++ lowered_one (length nodes.old.items) (repeat test (block_of body.items)) next) }
{
    let number = nodes.len() as u32;
    let action = Action::Repeat {
        test,
        body: entry(number + 1, &body, number),
    };
    add(nodes, action, next)?;
    place_all(nodes, body, number)
}

/// Adds a node.
fn add(nodes: &mut Vec<Node>, action: Action, next: u32) -> Result<(), AllocError>
    ensures { OnOk result (nodes.new.items ≡ nodes.old.items ++ record { action = action; next = next } ∷ []) }
{
    nodes.push(Node { action, next })?;
    Ok(())
}

/// Adds the nodes of a block, which `next` follows.
#[tactic(auto, using(crate::proofs::Placed::placing))]
#[cycle(place)]
fn place_all(nodes: &mut Vec<Node>, block: Vec<Stmt>, next: u32) -> Result<(), AllocError>
    requires { length nodes.old.items + statements_in (block_of block.items) ≤ STATEMENTS_MAX }
    ensures { OnOk result (nodes.new.items ≡ nodes.old.items ++ lowered (length nodes.old.items) (block_of block.items) next) }
{
    let mut rest = block;
    rest.reverse();
    while let Some(stmt) = rest.pop() {
        let behind = nodes.len() + count(&stmt);
        let follows = entry(behind as u32, &rest, next);
        place(nodes, stmt, follows)?;
    }
    Ok(())
}

/// Lowers a script. `Err` means that memory was refused; the script is dropped.
pub fn lower(alloc: Global, script: Script) -> Result<Code, AllocError>
    ensures { IfOk result (λ code. code.program ≡ script) }
{
    let remembered = Snapshot::of(&script);
    let cells = variable_count(&script.decls);
    let handles = handle_count(&script.decls);
    let end = script.lines.len();
    let Script {
        version: _,
        ranks,
        decls,
        body,
        lines,
    } = script;
    let mut nodes = Vec::with_capacity(alloc, end)?;
    place_all(&mut nodes, body, end as u32)?;
    Ok(Code {
        nodes,
        lines,
        decls,
        ranks,
        cells,
        handles,
        script: remembered,
    })
}
