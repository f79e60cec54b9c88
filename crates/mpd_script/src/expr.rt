//! Expressions, a level of operators after the other (docs/LANGUAGE.md, "Expressions").

ghost use Rattle.std.specs.Prelude.{◌≡◌, ◌≤◌, ◌-◌};
ghost use Rattle.mpd_model.specs.grammar.Grammar as spec;
ghost use Rattle.mpd_model.specs.grammar.Input.{Reads};
ghost use Rattle.mpd_model.specs.declared.token.Token.TheVariants.{Is};

use crate::cursor::Tokens;
use crate::place::{bracket, place_of};
use mpd_model::{
    BinaryOp, DeclKind, Expr, ExprNode, FaultCode, NESTING_MAX, ReadFault, Symbol, Token, UnaryOp,
};
use std::alloc::Global;

/// The level of `*`, `/` and `%`, which bind most closely.
const PRODUCT: usize = 1;

/// The level of `+` and `-`.
const SUM: usize = 2;

/// The level of the comparisons.
const COMPARISON: usize = 3;

/// The level of `&&`.
const CONJUNCTION: usize = 4;

/// The level of `||`.
const DISJUNCTION: usize = 5;

/// The level of a whole expression.
const WHOLE: usize = DISJUNCTION;

/// The operator that a symbol is, and its level.
fn operator_of(symbol: Symbol) -> Option<(BinaryOp, usize)>
    ensures { result ≡ spec.operator (Is symbol) }
{
    match symbol {
        Symbol::Or => Some((BinaryOp::Or, DISJUNCTION)),
        Symbol::And => Some((BinaryOp::And, CONJUNCTION)),
        Symbol::Equal => Some((BinaryOp::Equal, COMPARISON)),
        Symbol::NotEqual => Some((BinaryOp::NotEqual, COMPARISON)),
        Symbol::Less => Some((BinaryOp::Less, COMPARISON)),
        Symbol::AtMost => Some((BinaryOp::AtMost, COMPARISON)),
        Symbol::Greater => Some((BinaryOp::Greater, COMPARISON)),
        Symbol::AtLeast => Some((BinaryOp::AtLeast, COMPARISON)),
        Symbol::Plus => Some((BinaryOp::Add, SUM)),
        Symbol::Minus => Some((BinaryOp::Subtract, SUM)),
        Symbol::Times => Some((BinaryOp::Multiply, PRODUCT)),
        Symbol::Divide => Some((BinaryOp::Divide, PRODUCT)),
        Symbol::Remainder => Some((BinaryOp::Remainder, PRODUCT)),
        _ => None,
    }
}

/// An operator and its level.
fn operator(token: Token) -> Option<(BinaryOp, usize)>
    ensures { result ≡ spec.operator token }
{
    match token {
        Token::Is(symbol) => operator_of(symbol),
        _ => None,
    }
}

fn operator_at(level: usize, token: Token) -> Option<BinaryOp>
    ensures { result ≡ spec.operator_at level token }
{
    match operator(token) {
        Some((op, found)) if found == level => Some(op),
        _ => None,
    }
}

/// How many operators of a level may follow one another.
fn turns(level: usize, tokens: &Tokens<'_>) -> usize
    ensures { result ≡ spec.turns level tokens.now }
{
    if level == COMPARISON {
        1
    } else {
        tokens.budget() + 1
    }
}

/// An expression that stands in no other.
pub(crate) fn expression(alloc: Global, tokens: &mut Tokens<'_>) -> Result<Expr, ReadFault>
    ensures { Reads (spec.expression tokens.old) result tokens.new }
{
    tokens.begin();
    expr(alloc, tokens, NESTING_MAX + 1, WHOLE)
}

/// An expression from a level on, which holds others no deeper than the depth.
#[cycle(expr)]
#[tactic(auto, using(crate::proofs::Steps::depths))]
fn expr(alloc: Global, tokens: &mut Tokens<'_>, depth: usize, of: usize) -> Result<Expr, ReadFault>
    requires { of ≤ 5 }
    ensures { Reads (spec.expr depth of tokens.old) result tokens.new }
{
    if depth == 0 {
        return Err(tokens.fail(FaultCode::TooDeep));
    }
    level(alloc, tokens, depth - 1, of)
}

/// An operand of the level below, and the operators of the level after it.
#[cycle(expr)]
#[tactic(auto, using(crate::proofs::Steps::levels))]
fn level(alloc: Global, tokens: &mut Tokens<'_>, depth: usize, of: usize) -> Result<Expr, ReadFault>
    requires { of ≤ 5 }
    ensures { Reads (spec.level (spec.expr depth) of tokens.old) result tokens.new }
{
    if of == 0 {
        return atom(alloc, tokens, depth);
    }
    let left = level(alloc, tokens, depth, of - 1)?;
    let most = turns(of, tokens);
    chain(alloc, tokens, depth, of, most, left)
}

/// The operators of a level, each with the operand to its right, after what stands to the left.
#[cycle(expr)]
#[tactic(auto, using(crate::proofs::Steps::turning))]
fn chain(
    alloc: Global,
    tokens: &mut Tokens<'_>,
    depth: usize,
    of: usize,
    most: usize,
    left: Expr,
) -> Result<Expr, ReadFault>
    requires positive { 1 ≤ of }
    requires within { of ≤ 5 }
    ensures { Reads (spec.chain (spec.level (spec.expr depth) (of - 1)) of most left tokens.old) result tokens.new }
{
    let mut left = left;
    for _turn in 0..most {
        match operator_at(of, tokens.peek()) {
            None => return Ok(left),
            Some(op) => {
                tokens.spend()?;
                let right = level(alloc, tokens, depth, of - 1)?;
                left = Expr::binary(alloc, op, left, right)?;
            }
        }
    }
    Ok(left)
}

#[cycle(expr)]
#[tactic(auto, unfolding(mpd_model::specs::grammar::Grammar::atom))]
fn atom(alloc: Global, tokens: &mut Tokens<'_>, depth: usize) -> Result<Expr, ReadFault>
    ensures { Reads (spec.atom (spec.expr depth) tokens.old) result tokens.new }
{
    match tokens.peek() {
        Token::Number(value) => {
            tokens.advance();
            Ok(Expr {
                node: ExprNode::Number(value),
            })
        }
        Token::Is(Symbol::Rank) => {
            tokens.advance();
            Ok(Expr {
                node: ExprNode::Rank,
            })
        }
        Token::Is(Symbol::Size) => {
            tokens.advance();
            Ok(Expr {
                node: ExprNode::Size,
            })
        }
        Token::Name => place_inside(alloc, tokens, depth),
        Token::Is(Symbol::RoundOpen) => rounds(alloc, tokens, depth),
        Token::Is(Symbol::Minus) => unary(alloc, tokens, depth, UnaryOp::Negate),
        Token::Is(Symbol::Not) => unary(alloc, tokens, depth, UnaryOp::Not),
        _ => Err(tokens.refuse()),
    }
}

/// A variable, with its index where it is an array.
#[cycle(expr)]
#[tactic(auto, unfolding(mpd_model::specs::grammar::Grammar::place_inside))]
fn place_inside(alloc: Global, tokens: &mut Tokens<'_>, depth: usize) -> Result<Expr, ReadFault>
    ensures { Reads (spec.place_inside (spec.expr depth) tokens.old) result tokens.new }
{
    let slot = tokens.seek(DeclKind::Variable)?;
    tokens.advance();
    if slot.size.is_none() {
        return Ok(Expr {
            node: ExprNode::Cell(place_of(slot)),
        });
    }
    bracket(tokens)?;
    let index = expr(alloc, tokens, depth, WHOLE)?;
    tokens.expect(Symbol::SquareClose)?;
    Ok(Expr::element(alloc, place_of(slot), index)?)
}

/// An expression between round brackets, which leave no trace in it.
#[cycle(expr)]
#[tactic(auto, unfolding(mpd_model::specs::grammar::Grammar::rounds))]
fn rounds(alloc: Global, tokens: &mut Tokens<'_>, depth: usize) -> Result<Expr, ReadFault>
    ensures { Reads (spec.rounds (spec.expr depth) tokens.old) result tokens.new }
{
    tokens.spend()?;
    let inner = expr(alloc, tokens, depth, WHOLE)?;
    tokens.expect(Symbol::RoundClose)?;
    Ok(inner)
}

/// An operator before its operand, which binds more closely than any between two.
#[cycle(expr)]
#[tactic(auto, unfolding(mpd_model::specs::grammar::Grammar::unary))]
fn unary(
    alloc: Global,
    tokens: &mut Tokens<'_>,
    depth: usize,
    op: UnaryOp,
) -> Result<Expr, ReadFault>
    ensures { Reads (spec.unary (spec.expr depth) op tokens.old) result tokens.new }
{
    tokens.spend()?;
    let operand = expr(alloc, tokens, depth, 0)?;
    Ok(Expr::unary(alloc, op, operand)?)
}
