//! Prints expressions and places.

ghost use Rattle.std.specs.Prelude.{◌≡◌, ◌≤◌, ◌++◌, OnOk, string_bytes};
ghost use Rattle.mpd_model.specs.grammar.Written.{left_level};
ghost use Rattle.mpd_model.specs.grammar.Canonical.{name_text, below, sign_text, term_text, whole_text, index_text, target_text};

use mpd_model::{BinaryOp, Decl, Expr, ExprNode, Place, Target, UnaryOp};
use std::alloc::AllocError;

/// The level of an expression that stands in no other, of an index, and of what stands in parentheses: that of `||`.
const LOOSEST: u32 = 5;

/// The level just below that of the operator, which its right operand has.
fn right_level(op: BinaryOp) -> u32
    ensures { result ≡ below op }
{
    match op {
        BinaryOp::Or => 4,
        BinaryOp::And => 3,
        BinaryOp::Equal
        | BinaryOp::NotEqual
        | BinaryOp::Less
        | BinaryOp::AtMost
        | BinaryOp::Greater
        | BinaryOp::AtLeast => 2,
        BinaryOp::Add | BinaryOp::Subtract => 1,
        BinaryOp::Multiply | BinaryOp::Divide | BinaryOp::Remainder => 0,
    }
}

/// The level that the left operand has, by that of the right one: operators group to the left, but comparisons don't chain.
fn left_of(right: u32) -> u32
    requires { right ≤ 4 }
    ensures { result ≡ left_level right }
{
    if right == 2 { right } else { right + 1 }
}

/// The sign of an operator before its operand.
fn sign_name(op: UnaryOp) -> &'static str
    ensures { result.now ≡ sign_text op }
{
    match op {
        UnaryOp::Negate => "-",
        UnaryOp::Not => "!",
    }
}

/// Adds the name that a place was declared with, and nothing if there is no such declaration.
pub(crate) fn push_name(out: &mut String, decls: &[Decl], place: Place) -> Result<(), AllocError>
    ensures { OnOk result (string_bytes out.new ≡ string_bytes out.old ++ name_text decls.now place) }
{
    if let Some(decl) = decls.get(place.declaration) {
        out.push_str(&decl.name)?;
    }
    Ok(())
}

/// Adds an expression in a place for one of a level, in parentheses if it is looser.
fn push_term(out: &mut String, decls: &[Decl], level: u32, expr: &Expr) -> Result<(), AllocError>
    ensures { OnOk result (string_bytes out.new ≡ string_bytes out.old ++ term_text decls.now level expr.now) }
{
    match &expr.node {
        ExprNode::Number(value) => write!(out, "{value}"),
        ExprNode::Rank => out.push_str("rank"),
        ExprNode::Size => out.push_str("size"),
        ExprNode::Cell(place) => push_name(out, decls, *place),
        ExprNode::Element(place, index) => {
            push_name(out, decls, *place)?;
            out.push_str("[")?;
            push_term(out, decls, LOOSEST, index)?;
            out.push_str("]")
        }
        ExprNode::Unary(op, operand) => {
            out.push_str(sign_name(*op))?;
            push_term(out, decls, 0, operand)
        }
        ExprNode::Binary(op, left, right) => {
            let within = right_level(*op);
            let is_looser = level < within + 1;
            if is_looser {
                out.push_str("(")?;
            }
            push_term(out, decls, left_of(within), left)?;
            out.push_str(op.spaced())?;
            push_term(out, decls, within, right)?;
            if is_looser {
                out.push_str(")")?;
            }
            Ok(())
        }
    }
}

/// Adds an expression that stands in no other. An `Err` is want of memory.
pub fn push_expr(out: &mut String, decls: &[Decl], expr: &Expr) -> Result<(), AllocError>
    ensures { OnOk result (string_bytes out.new ≡ string_bytes out.old ++ whole_text decls.now expr.now) }
{
    push_term(out, decls, LOOSEST, expr)
}

/// Adds a place that a statement names, of a variable or a handle, with its index.
pub(crate) fn push_target(
    out: &mut String,
    decls: &[Decl],
    target: &Target,
) -> Result<(), AllocError>
    ensures { OnOk result (string_bytes out.new ≡ string_bytes out.old ++ target_text decls.now target.now) }
{
    push_name(out, decls, target.place)?;
    if let Some(index) = &target.index {
        out.push_str("[")?;
        push_expr(out, decls, index)?;
        out.push_str("]")?;
    }
    Ok(())
}
