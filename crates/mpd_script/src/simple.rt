//! Statements that hold no other, each by the form of its word (docs/LANGUAGE.md, "Statements").

ghost use Rattle.std.specs.Prelude.{◌≡◌, []};
ghost use Rattle.mpd_model.specs.grammar.Grammar as spec;
ghost use Rattle.mpd_model.specs.grammar.Input.{Reads};
ghost use Rattle.mpd_model.specs.script.Tree.{simple};
ghost use Rattle.mpd_script.specs.Requests as requests;
ghost use Rattle.mpd_script.specs.Requests.{from_holes, tag_holes, to_holes};

use crate::cursor::Tokens;
use crate::expr::expression;
use crate::place::{index_outside, statement_name, statement_place};
use crate::stmt::begin_statement;
use mpd_model::{
    AssignStmt, DeclKind, Expr, IrecvStmt, IsendStmt, ReadFault, RecvStmt, SendStmt, Simple, Slot,
    StatusStmt, Stmt, StmtNode, Symbol, Target, WaitanyStmt,
};
use std::alloc::Global;

/// A statement that begins with the word, which comes next.
pub(crate) fn by_form(
    alloc: Global,
    tokens: &mut Tokens<'_>,
    word: Symbol,
) -> Result<Stmt, ReadFault>
    ensures { Reads (spec.by_form (spec.form_of word) tokens.old) result tokens.new }
{
    match word {
        Symbol::Print => {
            begin_statement(tokens)?;
            print_statement(alloc, tokens)
        }
        Symbol::Assert => {
            begin_statement(tokens)?;
            assert_statement(alloc, tokens)
        }
        Symbol::Send => {
            begin_statement(tokens)?;
            send_statement(alloc, tokens)
        }
        Symbol::Ssend => {
            begin_statement(tokens)?;
            ssend_statement(alloc, tokens)
        }
        Symbol::Recv => {
            begin_statement(tokens)?;
            recv_statement(alloc, tokens)
        }
        Symbol::Isend => {
            begin_statement(tokens)?;
            isend_statement(alloc, tokens)
        }
        Symbol::Issend => {
            begin_statement(tokens)?;
            issend_statement(alloc, tokens)
        }
        Symbol::Irecv => {
            begin_statement(tokens)?;
            irecv_statement(alloc, tokens)
        }
        Symbol::Wait => {
            begin_statement(tokens)?;
            wait_statement(alloc, tokens)
        }
        Symbol::Waitany => {
            begin_statement(tokens)?;
            waitany_statement(alloc, tokens)
        }
        Symbol::Barrier => {
            begin_statement(tokens)?;
            end_statement(tokens, Simple::Barrier)
        }
        _ => Err(tokens.refuse()),
    }
}

/// The statement, with the `;` after it.
fn end_statement(tokens: &mut Tokens<'_>, made: Simple) -> Result<Stmt, ReadFault>
    ensures { Reads (spec.fill [] (λ c. simple made) tokens.old) result tokens.new }
{
    match tokens.expect(Symbol::Semicolon) {
        Ok(()) => Ok(Stmt {
            node: StmtNode::Simple(made),
        }),
        // Dropped by name: a `?` would have the whole drop of a statement written out here, which takes a minute to check.
        Err(fault) => {
            drop(made);
            Err(fault)
        }
    }
}

/// What follows `print`.
fn print_statement(alloc: Global, tokens: &mut Tokens<'_>) -> Result<Stmt, ReadFault>
    ensures { Reads (spec.behind_word spec.print_form tokens.old) result tokens.new }
{
    let value = expression(alloc, tokens)?;
    end_statement(tokens, Simple::Print(value))
}

/// What follows the name of the place that an assignment writes.
#[tactic(auto, unfolding(mpd_model::specs::grammar::Grammar::assignment))]
pub(crate) fn assignment(
    alloc: Global,
    tokens: &mut Tokens<'_>,
    slot: Slot,
) -> Result<Stmt, ReadFault>
    ensures { Reads (spec.assignment slot tokens.old) result tokens.new }
{
    let into = index_outside(alloc, tokens, slot)?;
    tokens.expect(Symbol::Assign)?;
    let value = expression(alloc, tokens)?;
    end_statement(tokens, Simple::Assign(AssignStmt { into, value }))
}

/// What follows `assert`.
fn assert_statement(alloc: Global, tokens: &mut Tokens<'_>) -> Result<Stmt, ReadFault>
    ensures { Reads (spec.behind_word spec.assert_form tokens.old) result tokens.new }
{
    let test = expression(alloc, tokens)?;
    end_statement(tokens, Simple::Assert(test))
}

/// A standard or a synchronous send, or one whose request a handle gets.
fn send_of(synchronous: bool, request: Option<Target>, send: SendStmt) -> Simple
    ensures { result ≡ requests.send_of synchronous request send }
{
    match (synchronous, request) {
        (false, None) => Simple::Send(send),
        (false, Some(request)) => Simple::Isend(IsendStmt { request, send }),
        (true, None) => Simple::Ssend(send),
        (true, Some(request)) => Simple::Issend(IsendStmt { request, send }),
    }
}

/// A receive, or one whose request a handle gets.
fn recv_of(request: Option<Target>, recv: RecvStmt) -> Simple
    ensures { result ≡ requests.recv_of request recv }
{
    match request {
        None => Simple::Recv(recv),
        Some(request) => Simple::Irecv(IrecvStmt { request, recv }),
    }
}

/// What a send sends, to whom and with which tag. A handle gets its request, if there is one.
fn send_parts(
    alloc: Global,
    tokens: &mut Tokens<'_>,
    synchronous: bool,
    request: Option<Target>,
) -> Result<Stmt, ReadFault>
    ensures { Reads (spec.fill spec.send_holes (λ c. simple (requests.send_of synchronous request (spec.send_in c))) tokens.old) result tokens.new }
{
    let value = expression(alloc, tokens)?;
    send_behind_value(alloc, tokens, synchronous, request, value)
}

/// The rest of a send, after what it sends.
fn send_behind_value(
    alloc: Global,
    tokens: &mut Tokens<'_>,
    synchronous: bool,
    request: Option<Target>,
    value: Expr,
) -> Result<Stmt, ReadFault>
    ensures { Reads (spec.fill to_holes (λ c. simple (requests.send_of synchronous request (spec.send_in (value, c)))) tokens.old) result tokens.new }
{
    tokens.expect(Symbol::To)?;
    let to = expression(alloc, tokens)?;
    tokens.expect(Symbol::Tag)?;
    let tag = expression(alloc, tokens)?;
    let send = SendStmt { value, to, tag };
    end_statement(tokens, send_of(synchronous, request, send))
}

/// A source or a tag of a receive: `any`, or an expression.
#[tactic(auto, unfolding(mpd_model::specs::grammar::Grammar::source))]
fn source(alloc: Global, tokens: &mut Tokens<'_>) -> Result<Option<Expr>, ReadFault>
    ensures { Reads (spec.source tokens.old) result tokens.new }
{
    if tokens.eat(Symbol::Any) {
        Ok(None)
    } else {
        Ok(Some(expression(alloc, tokens)?))
    }
}

/// A status, if there is one: the places that the source and the tag are written to.
#[tactic(auto, unfolding(mpd_model::specs::grammar::Grammar::status))]
fn status(alloc: Global, tokens: &mut Tokens<'_>) -> Result<Option<StatusStmt>, ReadFault>
    ensures { Reads (spec.status tokens.old) result tokens.new }
{
    if tokens.eat(Symbol::Status) {
        let source = statement_place(alloc, tokens, DeclKind::Variable)?;
        let tag = statement_place(alloc, tokens, DeclKind::Variable)?;
        Ok(Some(StatusStmt { source, tag }))
    } else {
        Ok(None)
    }
}

/// Where a receive writes, from whom it takes and with which tag, and where it writes that. A handle gets its request, if there is one.
fn recv_parts(
    alloc: Global,
    tokens: &mut Tokens<'_>,
    request: Option<Target>,
) -> Result<Stmt, ReadFault>
    ensures { Reads (spec.fill spec.recv_holes (λ c. simple (requests.recv_of request (spec.recv_in c))) tokens.old) result tokens.new }
{
    let into = statement_place(alloc, tokens, DeclKind::Variable)?;
    recv_behind_place(alloc, tokens, request, into)
}

/// The rest of a receive, after the place that it writes.
fn recv_behind_place(
    alloc: Global,
    tokens: &mut Tokens<'_>,
    request: Option<Target>,
    into: Target,
) -> Result<Stmt, ReadFault>
    ensures { Reads (spec.fill from_holes (λ c. simple (requests.recv_of request (spec.recv_in (into, c)))) tokens.old) result tokens.new }
{
    tokens.expect(Symbol::From)?;
    let from = source(alloc, tokens)?;
    recv_behind_source(alloc, tokens, request, into, from)
}

/// The rest of a receive, after its source.
fn recv_behind_source(
    alloc: Global,
    tokens: &mut Tokens<'_>,
    request: Option<Target>,
    into: Target,
    from: Option<Expr>,
) -> Result<Stmt, ReadFault>
    ensures { Reads (spec.fill tag_holes (λ c. simple (requests.recv_of request (spec.recv_in (into, (from, c))))) tokens.old) result tokens.new }
{
    tokens.expect(Symbol::Tag)?;
    let tag = source(alloc, tokens)?;
    let status = status(alloc, tokens)?;
    let recv = RecvStmt {
        into,
        from,
        tag,
        status,
    };
    end_statement(tokens, recv_of(request, recv))
}

/// What follows `send`.
fn send_statement(alloc: Global, tokens: &mut Tokens<'_>) -> Result<Stmt, ReadFault>
    ensures { Reads (spec.behind_word spec.send_form tokens.old) result tokens.new }
{
    send_parts(alloc, tokens, false, None)
}

/// What follows `ssend`.
fn ssend_statement(alloc: Global, tokens: &mut Tokens<'_>) -> Result<Stmt, ReadFault>
    ensures { Reads (spec.behind_word spec.ssend_form tokens.old) result tokens.new }
{
    send_parts(alloc, tokens, true, None)
}

/// What follows `recv`.
fn recv_statement(alloc: Global, tokens: &mut Tokens<'_>) -> Result<Stmt, ReadFault>
    ensures { Reads (spec.behind_word spec.recv_form tokens.old) result tokens.new }
{
    recv_parts(alloc, tokens, None)
}

/// What follows `isend`.
fn isend_statement(alloc: Global, tokens: &mut Tokens<'_>) -> Result<Stmt, ReadFault>
    ensures { Reads (spec.behind_word spec.isend_form tokens.old) result tokens.new }
{
    let request = statement_place(alloc, tokens, DeclKind::Handle)?;
    send_parts(alloc, tokens, false, Some(request))
}

/// What follows `issend`.
fn issend_statement(alloc: Global, tokens: &mut Tokens<'_>) -> Result<Stmt, ReadFault>
    ensures { Reads (spec.behind_word spec.issend_form tokens.old) result tokens.new }
{
    let request = statement_place(alloc, tokens, DeclKind::Handle)?;
    send_parts(alloc, tokens, true, Some(request))
}

/// What follows `irecv`.
fn irecv_statement(alloc: Global, tokens: &mut Tokens<'_>) -> Result<Stmt, ReadFault>
    ensures { Reads (spec.behind_word spec.irecv_form tokens.old) result tokens.new }
{
    let request = statement_place(alloc, tokens, DeclKind::Handle)?;
    recv_parts(alloc, tokens, Some(request))
}

/// What follows `wait`.
fn wait_statement(alloc: Global, tokens: &mut Tokens<'_>) -> Result<Stmt, ReadFault>
    ensures { Reads (spec.behind_word spec.wait_form tokens.old) result tokens.new }
{
    let request = statement_place(alloc, tokens, DeclKind::Handle)?;
    end_statement(tokens, Simple::Wait(request))
}

/// What follows `waitany`.
fn waitany_statement(alloc: Global, tokens: &mut Tokens<'_>) -> Result<Stmt, ReadFault>
    ensures { Reads (spec.behind_word spec.waitany_form tokens.old) result tokens.new }
{
    let requests = statement_name(tokens, DeclKind::Handle)?;
    tokens.expect(Symbol::To)?;
    let into = statement_place(alloc, tokens, DeclKind::Variable)?;
    end_statement(tokens, Simple::Waitany(WaitanyStmt { requests, into }))
}
