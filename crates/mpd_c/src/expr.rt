//! Names, expressions and places of a script in C.

use mpd_model::{BinaryOp, Decl, Expr, ExprNode, Place, Target, UnaryOp};
use std::fmt;

/// The declarations of a script, which give places their names.
#[derive(Clone, Copy)]
pub(crate) struct Names<'a> {
    pub(crate) decls: &'a [Decl],
}

impl<'a> Names<'a> {
    /// The name that a place was declared with, as one of C.
    fn name(self, place: Place) -> NameInC<'a> {
        NameInC { names: self, place }
    }

    /// The size that a place was declared with, if it has one.
    fn size(self, place: Place) -> Option<usize> {
        match self.decls.get(place.declaration) {
            None => None,
            Some(decl) => decl.size,
        }
    }

    /// An expression that is no operand.
    pub(crate) fn expr(self, expr: &'a Expr) -> ExprInC<'a> {
        ExprInC { names: self, expr }
    }

    /// A place that a statement names, of a variable or a handle, with its index.
    pub(crate) fn target(self, target: &'a Target) -> TargetInC<'a> {
        TargetInC {
            names: self,
            target,
        }
    }

    /// All handles of a declaration, and how many there are.
    pub(crate) fn handles(self, handles: Place) -> HandlesInC<'a> {
        HandlesInC {
            names: self,
            handles,
        }
    }

    /// The source of a receive, which may be any rank.
    pub(crate) fn source(self, from: &'a Option<Expr>) -> CheckedInC<'a> {
        CheckedInC {
            names: self,
            expr: from,
            check: "as_rank",
            any: "MPI_ANY_SOURCE",
        }
    }

    /// The tag of a receive, which may be any.
    pub(crate) fn tag(self, tag: &'a Option<Expr>) -> CheckedInC<'a> {
        CheckedInC {
            names: self,
            expr: tag,
            check: "as_tag",
            any: "MPI_ANY_TAG",
        }
    }
}

/// A name in C.
#[derive(Clone, Copy)]
struct NameInC<'a> {
    names: Names<'a>,
    place: Place,
}

impl fmt::Display for NameInC<'_> {
    fn fmt<W: fmt::Write>(&self, f: &mut fmt::Formatter<W>) -> fmt::Result {
        match self.names.decls.get(self.place.declaration) {
            None => write!(f, "my_"),
            Some(decl) => write!(f, "my_{}", decl.name),
        }
    }
}

/// An expression in C, which is no operand.
#[derive(Clone, Copy)]
pub(crate) struct ExprInC<'a> {
    names: Names<'a>,
    expr: &'a Expr,
}

impl fmt::Display for ExprInC<'_> {
    fn fmt<W: fmt::Write>(&self, f: &mut fmt::Formatter<W>) -> fmt::Result {
        write_expr(f, self.names, self.expr, false)
    }
}

/// Writes an expression; as an operand of an operator of C, in brackets if it has one itself.
fn write_expr<W: fmt::Write>(
    f: &mut fmt::Formatter<W>,
    names: Names,
    expr: &Expr,
    is_operand: bool,
) -> fmt::Result {
    match &expr.node {
        ExprNode::Number(value) => write!(f, "{value}"),
        ExprNode::Rank => write!(f, "rank"),
        ExprNode::Size => write!(f, "size"),
        ExprNode::Cell(place) => write!(f, "{}", names.name(*place)),
        ExprNode::Element(place, index) => {
            write!(f, "{}[within(", names.name(*place))?;
            write_expr(f, names, index, false)?;
            write!(f, ", {})]", place.cells)
        }
        ExprNode::Unary(UnaryOp::Negate, operand) => {
            write!(f, "negate(")?;
            write_expr(f, names, operand, false)?;
            write!(f, ")")
        }
        ExprNode::Unary(UnaryOp::Not, operand) => {
            write!(f, "!")?;
            write_expr(f, names, operand, true)
        }
        ExprNode::Binary(op, left, right) => {
            let stands = stands_between(*op, left, right);
            let (before, between, after) = match (stands, is_operand) {
                (false, _) => (macro_name(*op), ", ", ")"),
                (true, true) => ("(", op.spaced(), ")"),
                (true, false) => ("", op.spaced(), ""),
            };
            write!(f, "{before}")?;
            write_expr(f, names, left, stands)?;
            write!(f, "{between}")?;
            write_expr(f, names, right, stands)?;
            write!(f, "{after}")
        }
    }
}

/// A place with its index in C.
#[derive(Clone, Copy)]
pub(crate) struct TargetInC<'a> {
    names: Names<'a>,
    target: &'a Target,
}

impl fmt::Display for TargetInC<'_> {
    fn fmt<W: fmt::Write>(&self, f: &mut fmt::Formatter<W>) -> fmt::Result {
        let target = self.target;
        let place = target.place;
        let name = self.names.name(place);
        match &target.index {
            None => write!(f, "{name}"),
            Some(index) => {
                let index = self.names.expr(index);
                write!(f, "{name}[within({index}, {})]", place.cells)
            }
        }
    }
}

/// The handles of a declaration in C, and how many there are.
#[derive(Clone, Copy)]
pub(crate) struct HandlesInC<'a> {
    names: Names<'a>,
    handles: Place,
}

impl fmt::Display for HandlesInC<'_> {
    fn fmt<W: fmt::Write>(&self, f: &mut fmt::Formatter<W>) -> fmt::Result {
        let name = self.names.name(self.handles);
        match self.names.size(self.handles) {
            None => write!(f, "&{name}, 1"),
            Some(count) => write!(f, "{name}, {count}"),
        }
    }
}

/// A source or a tag in C, which is checked, or any.
#[derive(Clone, Copy)]
pub(crate) struct CheckedInC<'a> {
    names: Names<'a>,
    expr: &'a Option<Expr>,
    check: &'static str,
    any: &'static str,
}

impl fmt::Display for CheckedInC<'_> {
    fn fmt<W: fmt::Write>(&self, f: &mut fmt::Formatter<W>) -> fmt::Result {
        match self.expr {
            None => write!(f, "{}", self.any),
            Some(expr) => write!(f, "{}({})", self.check, self.names.expr(expr)),
        }
    }
}

/// Whether C's own operator between these operands evaluates them in the order of the script.
fn stands_between(op: BinaryOp, left: &Expr, right: &Expr) -> bool {
    match op {
        BinaryOp::Or | BinaryOp::And => true,
        BinaryOp::Equal
        | BinaryOp::NotEqual
        | BinaryOp::Less
        | BinaryOp::AtMost
        | BinaryOp::Greater
        | BinaryOp::AtLeast => {
            matches!(
                &left.node,
                ExprNode::Rank | ExprNode::Size | ExprNode::Cell(_)
            ) && matches!(&right.node, ExprNode::Number(_))
        }
        BinaryOp::Add
        | BinaryOp::Subtract
        | BinaryOp::Multiply
        | BinaryOp::Divide
        | BinaryOp::Remainder => false,
    }
}

/// The macro of an operator that isn't written as one of C, with its bracket.
fn macro_name(op: BinaryOp) -> &'static str {
    match op {
        BinaryOp::Or | BinaryOp::And => "(",
        BinaryOp::Equal => "EQUAL(",
        BinaryOp::NotEqual => "DIFFER(",
        BinaryOp::Less => "LESS(",
        BinaryOp::AtMost => "AT_MOST(",
        BinaryOp::Greater => "GREATER(",
        BinaryOp::AtLeast => "AT_LEAST(",
        BinaryOp::Add => "ADD(",
        BinaryOp::Subtract => "SUBTRACT(",
        BinaryOp::Multiply => "MULTIPLY(",
        BinaryOp::Divide => "DIVIDE(",
        BinaryOp::Remainder => "REMAINDER(",
    }
}
