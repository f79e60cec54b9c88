//! Expressions.

ghost use Rattle.std.specs.Prelude.{◌≡◌, IfOk};
ghost use Rattle.mpd_model.specs.grammar.Canonical.{op_text};
ghost use Rattle.mpd_model.specs.script.Term.{element, op1, op2};

use crate::place::Place;
use std::alloc::{AllocError, Global};
use std::marker::Model;

/// An operator between two operands (docs/LANGUAGE.md, "Expressions").
#[derive(Clone, Copy)]
pub enum BinaryOp {
    /// `||`, which doesn't evaluate its right side if the left isn't 0.
    Or,
    /// `&&`, which doesn't evaluate its right side if the left is 0.
    And,
    Equal,
    NotEqual,
    Less,
    AtMost,
    Greater,
    AtLeast,
    Add,
    Subtract,
    Multiply,
    /// `/`, rounded toward zero.
    Divide,
    /// `%`, with the sign of the dividend.
    Remainder,
}

impl BinaryOp {
    /// The operator as scripts and C write it, with a space on each side.
    pub fn spaced(self) -> &'static str
        ensures { result.now ≡ op_text self }
    {
        match self {
            BinaryOp::Or => " || ",
            BinaryOp::And => " && ",
            BinaryOp::Equal => " == ",
            BinaryOp::NotEqual => " != ",
            BinaryOp::Less => " < ",
            BinaryOp::AtMost => " <= ",
            BinaryOp::Greater => " > ",
            BinaryOp::AtLeast => " >= ",
            BinaryOp::Add => " + ",
            BinaryOp::Subtract => " - ",
            BinaryOp::Multiply => " * ",
            BinaryOp::Divide => " / ",
            BinaryOp::Remainder => " % ",
        }
    }
}

/// An operator before its operand.
#[derive(Clone, Copy)]
pub enum UnaryOp {
    /// `-`.
    Negate,
    /// `!`.
    Not,
}

/// An expression, which contracts see as a `Term`.
#[cycle(expr)]
#[derive(Drop)]
pub struct Expr {
    pub node: ExprNode,
}

/// What an expression is made of.
#[cycle(expr)]
#[derive(Drop)]
pub enum ExprNode {
    Number(i64),
    /// The number of the rank that evaluates it.
    Rank,
    /// The number of ranks.
    Size,
    /// A variable that is no array.
    Cell(Place),
    /// A cell of an array, by its index.
    Element(Place, Box<Expr>),
    Unary(UnaryOp, Box<Expr>),
    Binary(BinaryOp, Box<Expr>, Box<Expr>),
}

impl Model for Expr {
    ghost use Rattle.mpd_model.specs.script.Term.{Term};
    ghost use Rattle.mpd_model.specs.script.TermCode.{coded_term};

    ghost Value = { Term };

    ghost coded = { coded_term };

    ghost use Rattle.mpd_model.specs.script.Term.{nodes};
    ghost use Rattle.mpd_model.specs.script.TermOf.{term_of};

    ghost view = { λ t. term_of t.node };

    ghost size = { nodes };
}

impl Expr {
    /// What an array holds at an index. `Err` means that memory was refused.
    pub fn element(alloc: Global, place: Place, index: Expr) -> Result<Expr, AllocError>
        ensures { IfOk result (λ t. t ≡ element place index) }
    {
        Ok(Expr {
            node: ExprNode::Element(place, Box::new(alloc, index)?),
        })
    }

    /// An operand with an operator before it. `Err` means that memory was refused.
    pub fn unary(alloc: Global, op: UnaryOp, operand: Expr) -> Result<Expr, AllocError>
        ensures { IfOk result (λ t. t ≡ op1 op operand) }
    {
        Ok(Expr {
            node: ExprNode::Unary(op, Box::new(alloc, operand)?),
        })
    }

    /// Two operands with an operator between them. `Err` means that memory was refused.
    pub fn binary(alloc: Global, op: BinaryOp, left: Expr, right: Expr) -> Result<Expr, AllocError>
        ensures { IfOk result (λ t. t ≡ op2 op left right) }
    {
        Ok(Expr {
            node: ExprNode::Binary(op, Box::new(alloc, left)?, Box::new(alloc, right)?),
        })
    }
}
