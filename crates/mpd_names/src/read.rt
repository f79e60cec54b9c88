//! What statements read.

ghost use Rattle.std.specs.Prelude.{◌≡◌, []};
ghost use Rattle.std.specs.List.{list_any};
ghost use Rattle.mpd_model.specs.script.Parts.{send_parts, recv_parts, status_parts};
ghost use Rattle.mpd_names.specs.Reads as spec;

use mpd_code::Action;
use mpd_model::{Expr, ExprNode, RecvStmt, SendStmt, Simple, StatusStmt, Target};

/// Whether the variable of a declaration stands in an expression.
fn reads(expr: &Expr, declaration: usize) -> bool
    ensures { result ≡ spec.reads declaration expr.now }
{
    match &expr.node {
        ExprNode::Number(_) | ExprNode::Rank | ExprNode::Size => false,
        ExprNode::Cell(place) => place.declaration == declaration,
        ExprNode::Element(place, index) => {
            place.declaration == declaration || reads(index, declaration)
        }
        ExprNode::Unary(_, operand) => reads(operand, declaration),
        ExprNode::Binary(_, left, right) => reads(left, declaration) || reads(right, declaration),
    }
}

/// Whether it stands in an expression that may be left out.
fn index_reads(index: &Option<Expr>, declaration: usize) -> bool
    ensures { result ≡ spec.index_reads declaration index.now }
{
    match index {
        None => false,
        Some(index) => reads(index, declaration),
    }
}

/// Whether it stands in the index of a place.
fn target_reads(target: &Target, declaration: usize) -> bool
    ensures { result ≡ spec.index_reads declaration target.now.index }
{
    index_reads(&target.index, declaration)
}

/// Whether a send reads it.
fn send_reads(send: &SendStmt, declaration: usize) -> bool
    ensures { result ≡ list_any (spec.part_reads declaration) (send_parts send.now) }
{
    reads(&send.value, declaration) || reads(&send.to, declaration) || reads(&send.tag, declaration)
}

/// Whether a status reads it.
fn status_reads(status: &Option<StatusStmt>, declaration: usize) -> bool
    ensures { result ≡ list_any (spec.part_reads declaration) (status_parts status.now []) }
{
    match status {
        None => false,
        Some(status) => {
            target_reads(&status.source, declaration) || target_reads(&status.tag, declaration)
        }
    }
}

/// Whether a receive reads it.
fn recv_reads(recv: &RecvStmt, declaration: usize) -> bool
    ensures { result ≡ list_any (spec.part_reads declaration) (recv_parts recv.now) }
{
    target_reads(&recv.into, declaration)
        || index_reads(&recv.from, declaration)
        || index_reads(&recv.tag, declaration)
        || status_reads(&recv.status, declaration)
}

/// Whether a statement that holds no other reads it.
fn simple_reads(simple: &Simple, declaration: usize) -> bool
    ensures { result ≡ spec.simple_reads declaration simple.now }
{
    match simple {
        Simple::Print(value) => reads(value, declaration),
        Simple::Assign(assign) => {
            target_reads(&assign.into, declaration) || reads(&assign.value, declaration)
        }
        Simple::Assert(test) => reads(test, declaration),
        Simple::Send(send) | Simple::Ssend(send) => send_reads(send, declaration),
        Simple::Recv(recv) => recv_reads(recv, declaration),
        Simple::Isend(isend) | Simple::Issend(isend) => {
            target_reads(&isend.request, declaration) || send_reads(&isend.send, declaration)
        }
        Simple::Irecv(irecv) => {
            target_reads(&irecv.request, declaration) || recv_reads(&irecv.recv, declaration)
        }
        Simple::Wait(request) => target_reads(request, declaration),
        Simple::Waitany(waitany) => target_reads(&waitany.into, declaration),
        Simple::Barrier => false,
    }
}

/// Whether what a node does reads it.
pub(crate) fn action_reads(action: &Action, declaration: usize) -> bool
    ensures { result ≡ spec.action_reads declaration action.now }
{
    match action {
        Action::Simple(simple) => simple_reads(simple, declaration),
        Action::Branch { test, .. } => reads(test, declaration),
        Action::Repeat { test, .. } => reads(test, declaration),
    }
}
