//! Statements and blocks (docs/LANGUAGE.md, "Statements").

ghost use Rattle.std.specs.Prelude.{◌≡◌};
ghost use Rattle.mpd_model.specs.declared.token.Symbol.TheVariants.{Waitany};
ghost use Rattle.mpd_model.specs.grammar.Grammar as spec;
ghost use Rattle.mpd_model.specs.grammar.Input.{Reads, ReadsAll};

use crate::cursor::Tokens;
use crate::expr::expression;
use crate::simple::{assignment, by_form};
use mpd_model::{DeclKind, FaultCode, ReadFault, Stmt, StmtNode, Symbol, Token};
use std::alloc::Global;

/// The version that brought `waitany`.
const WAITANY_VERSION: usize = 2;

/// Whether statements end before the token, inside a block or outside of all.
fn closes(inside: bool, token: Token) -> bool
    ensures { result ≡ spec.closes inside token }
{
    match token {
        Token::Is(Symbol::BraceClose) => inside,
        Token::End => !inside,
        _ => false,
    }
}

/// Takes the first token of a statement.
pub(crate) fn begin_statement(tokens: &mut Tokens<'_>) -> Result<(), ReadFault>
    ensures { Reads (spec.begin_statement tokens.old) result tokens.new }
{
    tokens.count()?;
    tokens.advance();
    Ok(())
}

/// The statements up to what closes them, with no more blocks in one another than the depth.
#[cycle(block)]
#[tactic(auto, using(crate::proofs::BlockSteps::turning))]
pub(crate) fn body(
    alloc: Global,
    tokens: &mut Tokens<'_>,
    depth: usize,
    inside: bool,
) -> Result<Vec<Stmt>, ReadFault>
    ensures { ReadsAll (spec.body (spec.block depth) inside tokens.old) result tokens.new }
{
    let mut found = Vec::new(alloc);
    let most = tokens.turns();
    for _turn in 0..most {
        if closes(inside, tokens.peek()) {
            return Ok(found);
        }
        found.push(stmt(alloc, tokens, depth)?)?;
    }
    Err(tokens.refuse())
}

/// A block, where no more than the depth may be opened.
#[cycle(block)]
#[tactic(auto, using(crate::proofs::BlockSteps::depths))]
fn block(alloc: Global, tokens: &mut Tokens<'_>, depth: usize) -> Result<Vec<Stmt>, ReadFault>
    ensures { ReadsAll (spec.block depth tokens.old) result tokens.new }
{
    if depth == 0 {
        return Err(if tokens.sees(Symbol::BraceOpen) {
            tokens.fail(FaultCode::TooDeep)
        } else {
            tokens.refuse()
        });
    }
    tokens.expect(Symbol::BraceOpen)?;
    let found = body(alloc, tokens, depth - 1, true)?;
    tokens.expect(Symbol::BraceClose)?;
    Ok(found)
}

/// The block of an `else`, empty where there is none.
#[cycle(block)]
#[tactic(auto, unfolding(mpd_model::specs::grammar::Grammar::otherwise))]
fn otherwise(alloc: Global, tokens: &mut Tokens<'_>, depth: usize) -> Result<Vec<Stmt>, ReadFault>
    ensures { ReadsAll (spec.otherwise (spec.block depth) tokens.old) result tokens.new }
{
    if tokens.eat(Symbol::Else) {
        block(alloc, tokens, depth)
    } else {
        Ok(Vec::new(alloc))
    }
}

/// What follows `if`.
#[cycle(block)]
#[tactic(auto, unfolding(mpd_model::specs::grammar::Grammar::if_statement))]
fn if_statement(alloc: Global, tokens: &mut Tokens<'_>, depth: usize) -> Result<Stmt, ReadFault>
    ensures { Reads (spec.if_statement (spec.block depth) tokens.old) result tokens.new }
{
    let test = expression(alloc, tokens)?;
    let first = block(alloc, tokens, depth)?;
    let second = otherwise(alloc, tokens, depth)?;
    Ok(Stmt {
        node: StmtNode::If(test, first, second),
    })
}

/// What follows `while`.
#[cycle(block)]
#[tactic(auto, unfolding(mpd_model::specs::grammar::Grammar::while_statement))]
fn while_statement(alloc: Global, tokens: &mut Tokens<'_>, depth: usize) -> Result<Stmt, ReadFault>
    ensures { Reads (spec.while_statement (spec.block depth) tokens.old) result tokens.new }
{
    let test = expression(alloc, tokens)?;
    let inside = block(alloc, tokens, depth)?;
    Ok(Stmt {
        node: StmtNode::While(test, inside),
    })
}

/// A `waitany`. In a text of an older version it isn't read, though it is counted.
fn waitany(alloc: Global, tokens: &mut Tokens<'_>) -> Result<Stmt, ReadFault>
    ensures { Reads (spec.since WAITANY_VERSION (spec.by_form (spec.form_of Waitany)) tokens.old) result tokens.new }
{
    if tokens.version() < WAITANY_VERSION {
        tokens.count()?;
        return Err(tokens.fail(FaultCode::NotInVersion));
    }
    by_form(alloc, tokens, Symbol::Waitany)
}

#[cycle(block)]
#[tactic(auto, unfolding(mpd_model::specs::grammar::Grammar::stmt))]
fn stmt(alloc: Global, tokens: &mut Tokens<'_>, depth: usize) -> Result<Stmt, ReadFault>
    ensures { Reads (spec.stmt (spec.block depth) tokens.old) result tokens.new }
{
    match tokens.peek() {
        Token::Name => {
            let slot = tokens.seek(DeclKind::Variable)?;
            begin_statement(tokens)?;
            assignment(alloc, tokens, slot)
        }
        Token::Is(Symbol::If) => {
            begin_statement(tokens)?;
            if_statement(alloc, tokens, depth)
        }
        Token::Is(Symbol::While) => {
            begin_statement(tokens)?;
            while_statement(alloc, tokens, depth)
        }
        Token::Is(Symbol::Waitany) => waitany(alloc, tokens),
        Token::Is(symbol) => by_form(alloc, tokens, symbol),
        _ => Err(tokens.refuse()),
    }
}
