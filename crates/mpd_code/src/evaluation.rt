//! The values of expressions, and what statements make of them: the calls that they issue, and what assignments write.

ghost use Rattle.std.specs.List.{list_any};
ghost use Rattle.std.specs.Option.{is_some};
ghost use Rattle.std.specs.Prelude.{◌≡◌, pos, None, Ok, slice_index_or};
ghost use Rattle.mpd_model.specs.script.Term.{element, op1, op2, value_of, within, checked, target_cell};
ghost use Rattle.mpd_model.specs.steps.Next.{rank_value, tag_value, send_kind, source_value, any_tag_value, status_cells, recv_kind, wait_kind, handles_at, waitany_kind, send_issue, ssend_issue, recv_issue, isend_issue, issend_issue, irecv_issue, wait_issue, waitany_issue, barrier_issue, assignment};

use crate::env::Env;
use crate::operate::{alter, combine, decide};
use mpd_model::{
    AssignStmt, BinaryOp, CallKind, Expr, ExprNode, IrecvStmt, IsendStmt, Issue, Place, RecvCall,
    RecvStmt, SendCall, SendStmt, StatusCells, StatusStmt, TAGS, Target, Trap, UnaryOp, WaitCall,
    WaitanyCall, WaitanyStmt,
};

/// The value of an expression, or the trap that it ends in. An expression without parts is
/// evaluated here, with no call.
#[inline(always)]
#[cycle(eval)]
pub fn eval(expr: &Expr, env: &Env<'_>) -> Result<i64, Trap>
    ensures { result ≡ value_of expr.now env.now }
{
    match &expr.node {
        ExprNode::Number(value) => Ok(*value),
        ExprNode::Rank => Ok(env.rank as i64),
        ExprNode::Size => Ok(env.size as i64),
        ExprNode::Cell(place) => Ok(cell(env.vars, place.first as usize)),
        ExprNode::Element(place, index) => eval_element(*place, index, env),
        ExprNode::Unary(op, operand) => eval_unary(*op, operand, env),
        ExprNode::Binary(op, left, right) => eval_binary(*op, left, right, env),
    }
}

/// What an array holds at an index.
#[cycle(eval)]
fn eval_element(place: Place, index: &Expr, env: &Env<'_>) -> Result<i64, Trap>
    ensures { result ≡ value_of (element place index.now) env.now }
{
    let value = eval(index, env)?;
    let index = index_below(value, place.cells as usize, Trap::BadIndex)?;
    Ok(cell(env.vars, place.first as usize + index))
}

/// The value of an operand with an operator before it.
#[cycle(eval)]
fn eval_unary(op: UnaryOp, operand: &Expr, env: &Env<'_>) -> Result<i64, Trap>
    ensures { result ≡ value_of (op1 op operand.now) env.now }
{
    let value = eval(operand, env)?;
    alter(op, value)
}

/// The value of two operands with an operator between them.
#[cycle(eval)]
fn eval_binary(op: BinaryOp, left: &Expr, right: &Expr, env: &Env<'_>) -> Result<i64, Trap>
    ensures { result ≡ value_of (op2 op left.now right.now) env.now }
{
    let left = eval(left, env)?;
    if let Some(value) = decide(op, left) {
        return Ok(value);
    }
    let right = eval(right, env)?;
    combine(op, left, right)
}

/// What a cell holds.
fn cell(vars: &[i64], at: usize) -> i64
    ensures { result ≡ slice_index_or vars.now at (pos 0) }
{
    if at < vars.len() { vars[at] } else { 0 }
}

/// The value as a number below the bound, or the trap.
fn index_below(value: i64, bound: usize, trap: Trap) -> Result<usize, Trap>
    ensures { result ≡ within value bound trap }
{
    if value < 0 {
        return Err(trap);
    }
    let index = value as usize;
    if index < bound { Ok(index) } else { Err(trap) }
}

/// The value of an expression as a number below the bound.
fn eval_below(expr: &Expr, env: &Env<'_>, bound: usize, trap: Trap) -> Result<usize, Trap>
    ensures { result ≡ checked (value_of expr.now env.now) bound trap }
{
    let value = eval(expr, env)?;
    index_below(value, bound, trap)
}

/// A destination or a source: the number of a rank.
fn eval_rank(expr: &Expr, env: &Env<'_>) -> Result<usize, Trap>
    ensures { result ≡ rank_value expr.now env.now }
{
    eval_below(expr, env, env.size as usize, Trap::BadRank)
}

/// A tag.
fn eval_tag(expr: &Expr, env: &Env<'_>) -> Result<usize, Trap>
    ensures { result ≡ tag_value expr.now env.now }
{
    eval_below(expr, env, TAGS, Trap::BadTag)
}

/// The cell that a target is, or the trap that its index ends in.
fn eval_target(target: &Target, env: &Env<'_>) -> Result<usize, Trap>
    ensures { result ≡ target_cell target.now env.now }
{
    let first = target.place.first as usize;
    match &target.index {
        None => Ok(first),
        Some(index) => {
            let cells = target.place.cells as usize;
            let index = eval_below(index, env, cells, Trap::BadIndex)?;
            Ok(first + index)
        }
    }
}

/// The call of a send: the value is evaluated first, then the destination, then the tag.
fn send_call(
    send: &SendStmt,
    synchronous: bool,
    blocks: bool,
    env: &Env<'_>,
) -> Result<CallKind, Trap>
    ensures { result ≡ send_kind synchronous blocks send.now env.now }
{
    let value = eval(&send.value, env)?;
    let to = eval_rank(&send.to, env)?;
    let tag = eval_tag(&send.tag, env)?;
    Ok(CallKind::Send(SendCall {
        to,
        tag,
        value,
        synchronous,
        blocks,
        buffered: false,
    }))
}

/// The source of a receive, if it isn't any.
fn eval_source(from: &Option<Expr>, env: &Env<'_>) -> Result<Option<usize>, Trap>
    ensures { result ≡ source_value from.now env.now }
{
    match from {
        None => Ok(None),
        Some(from) => {
            let rank = eval_rank(from, env)?;
            Ok(Some(rank))
        }
    }
}

/// The tag of a receive, if it isn't any.
fn eval_any_tag(tag: &Option<Expr>, env: &Env<'_>) -> Result<Option<usize>, Trap>
    ensures { result ≡ any_tag_value tag.now env.now }
{
    match tag {
        None => Ok(None),
        Some(tag) => {
            let tag = eval_tag(tag, env)?;
            Ok(Some(tag))
        }
    }
}

/// The cells of a status, if there is one: the index of the source's is evaluated first.
fn eval_status(status: &Option<StatusStmt>, env: &Env<'_>) -> Result<Option<StatusCells>, Trap>
    ensures { result ≡ status_cells status.now env.now }
{
    match status {
        None => Ok(None),
        Some(status) => {
            let source = eval_target(&status.source, env)?;
            let tag = eval_target(&status.tag, env)?;
            Ok(Some(StatusCells { source, tag }))
        }
    }
}

/// The call of a receive: the index of its target is evaluated first, then the source, then the tag, then the indexes of the
/// status.
fn recv_call(recv: &RecvStmt, blocks: bool, env: &Env<'_>) -> Result<CallKind, Trap>
    ensures { result ≡ recv_kind blocks recv.now env.now }
{
    let cell = eval_target(&recv.into, env)?;
    let from = eval_source(&recv.from, env)?;
    let tag = eval_any_tag(&recv.tag, env)?;
    let status = eval_status(&recv.status, env)?;
    Ok(CallKind::Recv(RecvCall {
        from,
        tag,
        cell,
        status,
        blocks,
    }))
}

/// The call that a handle has.
fn request(handles: &[Option<usize>], at: usize) -> Option<usize>
    ensures { result ≡ slice_index_or handles.now at None }
{
    if at < handles.len() {
        handles[at]
    } else {
        None
    }
}

/// The call of a wait: it is for what its handle has now.
fn wait_call(handle: &Target, env: &Env<'_>) -> Result<CallKind, Trap>
    ensures { result ≡ wait_kind handle.now env.now }
{
    let handle = eval_target(handle, env)?;
    let target = request(env.handles, handle);
    Ok(CallKind::Wait(WaitCall { handle, target }))
}

/// The handles of a declaration.
fn handles_of<'a>(requests: Place, env: &Env<'a>) -> &'a [Option<usize>]
    ensures { result.now ≡ handles_at requests env.now }
{
    let first = env.handles.len().min(requests.first as usize);
    let (_, from) = env.handles.split_at(first);
    let count = from.len().min(requests.cells as usize);
    let (held, _) = from.split_at(count);
    held
}

/// Whether any of the handles has a call.
fn is_active(handles: &[Option<usize>]) -> bool
    ensures { result ≡ list_any is_some handles.now }
{
    handles.iter().any(|handle| handle.is_some())
}

/// The call of a wait for one of several: the index of the place that tells which is evaluated first.
fn waitany_call(waitany: &WaitanyStmt, env: &Env<'_>) -> Result<CallKind, Trap>
    ensures { result ≡ waitany_kind waitany.now env.now }
{
    let cell = eval_target(&waitany.into, env)?;
    let active = is_active(handles_of(waitany.requests, env));
    Ok(CallKind::Waitany(WaitanyCall {
        first: waitany.requests.first as usize,
        count: waitany.requests.cells as usize,
        cell,
        active,
    }))
}

/// What a `send` issues (MPI 4.0, section 3.2.1), or the trap that its value, destination or tag
/// ends in, in this order.
pub fn eval_send(send: &SendStmt, env: &Env<'_>) -> Result<Issue, Trap>
    ensures { result ≡ send_issue send.now env.now }
{
    let kind = send_call(send, false, true, env)?;
    Ok(Issue { kind, handle: None })
}

/// What an `ssend` issues (MPI 4.0, section 3.4), or a trap as for `eval_send`.
pub fn eval_ssend(send: &SendStmt, env: &Env<'_>) -> Result<Issue, Trap>
    ensures { result ≡ ssend_issue send.now env.now }
{
    let kind = send_call(send, true, true, env)?;
    Ok(Issue { kind, handle: None })
}

/// What a `recv` issues (MPI 4.0, section 3.2.4), or the trap that the index of its target, its
/// source, its tag or its status ends in, in this order.
pub fn eval_recv(recv: &RecvStmt, env: &Env<'_>) -> Result<Issue, Trap>
    ensures { result ≡ recv_issue recv.now env.now }
{
    let kind = recv_call(recv, true, env)?;
    Ok(Issue { kind, handle: None })
}

/// What an `isend` issues: the index of its handle is evaluated before the message.
pub fn eval_isend(isend: &IsendStmt, env: &Env<'_>) -> Result<Issue, Trap>
    ensures { result ≡ isend_issue isend.now env.now }
{
    let handle = eval_target(&isend.request, env)?;
    let kind = send_call(&isend.send, false, false, env)?;
    Ok(Issue {
        kind,
        handle: Some(handle),
    })
}

/// What an `issend` issues: the index of its handle is evaluated before the message.
pub fn eval_issend(issend: &IsendStmt, env: &Env<'_>) -> Result<Issue, Trap>
    ensures { result ≡ issend_issue issend.now env.now }
{
    let handle = eval_target(&issend.request, env)?;
    let kind = send_call(&issend.send, true, false, env)?;
    Ok(Issue {
        kind,
        handle: Some(handle),
    })
}

/// What an `irecv` issues: the index of its handle is evaluated before the message.
pub fn eval_irecv(irecv: &IrecvStmt, env: &Env<'_>) -> Result<Issue, Trap>
    ensures { result ≡ irecv_issue irecv.now env.now }
{
    let handle = eval_target(&irecv.request, env)?;
    let kind = recv_call(&irecv.recv, false, env)?;
    Ok(Issue {
        kind,
        handle: Some(handle),
    })
}

/// What a `wait` issues (MPI 4.0, section 3.7.3), or the trap that the index of its handle ends in.
pub fn eval_wait(handle: &Target, env: &Env<'_>) -> Result<Issue, Trap>
    ensures { result ≡ wait_issue handle.now env.now }
{
    let kind = wait_call(handle, env)?;
    Ok(Issue { kind, handle: None })
}

/// What a `waitany` issues (MPI 4.0, section 3.7.5), or the trap that the index of the place that
/// it writes ends in.
pub fn eval_waitany(waitany: &WaitanyStmt, env: &Env<'_>) -> Result<Issue, Trap>
    ensures { result ≡ waitany_issue waitany.now env.now }
{
    let kind = waitany_call(waitany, env)?;
    Ok(Issue { kind, handle: None })
}

/// What a `barrier` issues. It evaluates nothing, so it can't trap.
pub fn barrier() -> Issue
    ensures { Ok result ≡ barrier_issue }
{
    Issue {
        kind: CallKind::Barrier,
        handle: None,
    }
}

/// The cell that an assignment writes, and its new value: the index of its target is evaluated first, then the expression.
#[inline(always)]
pub fn eval_assign(assign: &AssignStmt, env: &Env<'_>) -> Result<(usize, i64), Trap>
    ensures { result ≡ assignment assign.now env.now }
{
    let target = eval_target(&assign.into, env)?;
    let value = eval(&assign.value, env)?;
    Ok((target, value))
}
