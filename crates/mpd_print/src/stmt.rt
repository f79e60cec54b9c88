//! Prints statements, each on lines of its own.

ghost use Rattle.std.specs.Prelude.{◌≡◌, ◌<◌, ◌≤◌, ◌+◌, ◌++◌, OnOk, string_bytes, codes};
ghost use Rattle.mpd_model.specs.declared.limits.TheConstants.{STATEMENTS_MAX};
ghost use Rattle.mpd_model.specs.script.Tree.{statements, statements_in, block_of};
ghost use Rattle.mpd_model.specs.grammar.Canonical.{whole_text, indent, else_text, tree_text, block_text};

use crate::expr::push_expr;
use crate::simple::push_simple;
use mpd_model::{Decl, Expr, Stmt, StmtNode};
use std::alloc::AllocError;

/// Adds two spaces for each open block.
fn push_indent(out: &mut String, depth: usize) -> Result<(), AllocError>
    ensures { OnOk result (string_bytes out.new ≡ string_bytes out.old ++ indent depth) }
{
    for _ in 0..depth {
        out.push_str("  ")?;
    }
    Ok(())
}

/// Adds statements inside `depth` open blocks.
#[tactic(auto, using(crate::proofs::PrintLemmas::statements_at))]
#[cycle(trees)]
pub(crate) fn push_stmts(
    out: &mut String,
    decls: &[Decl],
    depth: usize,
    stmts: &[Stmt],
) -> Result<(), AllocError>
    requires { depth + statements_in (block_of stmts.now) ≤ STATEMENTS_MAX }
    ensures { OnOk result (string_bytes out.new ≡ string_bytes out.old ++ block_text decls.now depth (block_of stmts.now)) }
{
    for stmt in stmts {
        push_stmt(out, decls, depth, stmt)?;
    }
    Ok(())
}

/// Adds a statement.
#[cycle(trees)]
fn push_stmt(out: &mut String, decls: &[Decl], depth: usize, stmt: &Stmt) -> Result<(), AllocError>
    requires { depth + statements stmt.now ≤ STATEMENTS_MAX }
    ensures { OnOk result (string_bytes out.new ≡ string_bytes out.old ++ tree_text decls.now depth stmt.now) }
{
    push_indent(out, depth)?;
    match &stmt.node {
        StmtNode::Simple(simple) => {
            push_simple(out, decls, simple)?;
            out.push_str(";\n")
        }
        StmtNode::If(test, first, second) => {
            push_test(out, decls, "if ", test)?;
            push_block(out, decls, depth, first)?;
            push_else(out, decls, depth, second)?;
            out.push_str("\n")
        }
        StmtNode::While(test, inside) => {
            push_test(out, decls, "while ", test)?;
            push_block(out, decls, depth, inside)?;
            out.push_str("\n")
        }
    }
}

/// Adds a word, a condition and the beginning of a block.
fn push_test(out: &mut String, decls: &[Decl], word: &str, test: &Expr) -> Result<(), AllocError>
    ensures { OnOk result (string_bytes out.new ≡ string_bytes out.old ++ (word.now ++ whole_text decls.now test.now ++ codes " {\n")) }
{
    out.push_str(word)?;
    push_expr(out, decls, test)?;
    out.push_str(" {\n")
}

/// Adds the statements of a block, and the line that closes it without its end.
#[cycle(trees)]
fn push_block(
    out: &mut String,
    decls: &[Decl],
    depth: usize,
    stmts: &[Stmt],
) -> Result<(), AllocError>
    requires { depth + statements_in (block_of stmts.now) < STATEMENTS_MAX }
    ensures { OnOk result (string_bytes out.new ≡ string_bytes out.old ++ (block_text decls.now (depth + 1) (block_of stmts.now) ++ indent depth ++ codes "}")) }
{
    push_stmts(out, decls, depth + 1, stmts)?;
    push_indent(out, depth)?;
    out.push_str("}")
}

/// Adds the second block of an `if` after the first, and nothing if it is empty.
#[tactic(auto, using(crate::proofs::PrintLemmas::else_some))]
#[cycle(trees)]
fn push_else(
    out: &mut String,
    decls: &[Decl],
    depth: usize,
    stmts: &[Stmt],
) -> Result<(), AllocError>
    requires { depth + statements_in (block_of stmts.now) < STATEMENTS_MAX }
    ensures { OnOk result (string_bytes out.new ≡ string_bytes out.old ++ else_text (block_of stmts.now) depth (block_text decls.now (depth + 1) (block_of stmts.now))) }
{
    if stmts.is_empty() {
        return Ok(());
    }
    out.push_str(" else {\n")?;
    push_block(out, decls, depth, stmts)?;
    Ok(())
}
