//! The lines of statements.

use crate::expr::Names;
use crate::simple::push_simple;
use mpd_model::{Stmt, StmtNode};
use std::alloc::{AllocError, Global};
use std::slice;

/// What is written of a script: its text so far, and the lines of the statements that are to come.
#[derive(Drop)]
pub(crate) struct Writer<'a> {
    pub(crate) alloc: Global,
    pub(crate) out: String,
    pub(crate) names: Names<'a>,
    pub(crate) lines: slice::Iter<'a, usize>,
}

/// Adds statements behind a margin.
#[tactic(auto, using(crate::proofs::TreeLemmas::statements_at))]
#[cycle(trees)]
pub(crate) fn push_stmts(
    writer: &mut Writer,
    margin: &str,
    stmts: &[Stmt],
) -> Result<(), AllocError> {
    for stmt in stmts {
        push_stmt(writer, margin, stmt)?;
    }
    Ok(())
}

/// Adds the statements of a block, behind a margin of four spaces more.
#[cycle(trees)]
fn push_block(writer: &mut Writer, margin: &str, stmts: &[Stmt]) -> Result<(), AllocError> {
    let inner = format!(in writer.alloc; "{margin}    ")?;
    push_stmts(writer, &inner, stmts)
}

/// Adds a statement.
#[cycle(trees)]
fn push_stmt(writer: &mut Writer, margin: &str, stmt: &Stmt) -> Result<(), AllocError> {
    let line = writer.lines.next().copied().unwrap_or(0);
    let names = writer.names;
    match &stmt.node {
        StmtNode::Simple(simple) => {
            write!(writer.out, "{margin}line = {line};\n")?;
            push_simple(&mut writer.out, names, margin, simple)
        }
        StmtNode::If(test, first, second) => {
            let test = names.expr(test);
            write!(
                writer.out,
                "{margin}line = {line};\n{margin}if ({test}) {{\n"
            )?;
            push_block(writer, margin, first)?;
            if !second.is_empty() {
                write!(writer.out, "{margin}}} else {{\n")?;
                push_block(writer, margin, second)?;
            }
            write!(writer.out, "{margin}}}\n")
        }
        StmtNode::While(test, inside) => {
            let test = names.expr(test);
            write!(writer.out, "{margin}while (line = {line}, {test}) {{\n")?;
            push_block(writer, margin, inside)?;
            write!(writer.out, "{margin}}}\n")
        }
    }
}
