//! Prints statements that hold no other, by their parts.

ghost use Rattle.std.specs.Prelude.{◌≡◌, [], ◌∷◌, ◌++◌, Some, OnOk, string_bytes, codes};
ghost use Rattle.mpd_model.specs.declared.stmt.Simple.TheVariants as st;
ghost use Rattle.mpd_model.specs.grammar.Canonical.{whole_text, part_text, parts_text};
ghost use Rattle.mpd_model.specs.script.Parts.{parts_of, send_parts, source_part, status_parts, recv_parts};

use crate::expr::{push_expr, push_name, push_target};
use mpd_model::{
    AssignStmt, Decl, Expr, IrecvStmt, IsendStmt, RecvStmt, SendStmt, Simple, StatusStmt,
    WaitanyStmt,
};
use std::alloc::AllocError;

/// Adds a statement that holds no other, without the `;` after it.
pub(crate) fn push_simple(
    out: &mut String,
    decls: &[Decl],
    simple: &Simple,
) -> Result<(), AllocError>
    ensures { OnOk result (string_bytes out.new ≡ string_bytes out.old ++ parts_text decls.now (parts_of simple.now)) }
{
    match simple {
        Simple::Print(value) => push_behind(out, decls, "print ", value),
        Simple::Assign(assign) => push_assign(out, decls, assign),
        Simple::Assert(test) => push_behind(out, decls, "assert ", test),
        Simple::Send(send) => push_send(out, decls, send),
        Simple::Ssend(send) => push_ssend(out, decls, send),
        Simple::Recv(recv) => push_recv(out, decls, recv),
        Simple::Isend(isend) => push_isend(out, decls, isend),
        Simple::Issend(issend) => push_issend(out, decls, issend),
        Simple::Irecv(irecv) => push_irecv(out, decls, irecv),
        Simple::Wait(request) => {
            out.push_str("wait ")?;
            push_target(out, decls, request)
        }
        Simple::Waitany(waitany) => push_waitany(out, decls, waitany),
        Simple::Barrier => out.push_str("barrier"),
    }
}

/// Adds a word or a sign with its spaces, and the expression after it.
fn push_behind(out: &mut String, decls: &[Decl], word: &str, value: &Expr) -> Result<(), AllocError>
    ensures { OnOk result (string_bytes out.new ≡ string_bytes out.old ++ (word.now ++ whole_text decls.now value.now)) }
{
    out.push_str(word)?;
    push_expr(out, decls, value)
}

/// Adds an assignment.
fn push_assign(out: &mut String, decls: &[Decl], assign: &AssignStmt) -> Result<(), AllocError>
    ensures { OnOk result (string_bytes out.new ≡ string_bytes out.old ++ parts_text decls.now (parts_of (st.Assign assign.now))) }
{
    push_target(out, decls, &assign.into)?;
    push_behind(out, decls, " = ", &assign.value)
}

/// Adds a send.
fn push_send(out: &mut String, decls: &[Decl], send: &SendStmt) -> Result<(), AllocError>
    ensures { OnOk result (string_bytes out.new ≡ string_bytes out.old ++ parts_text decls.now (parts_of (st.Send send.now))) }
{
    out.push_str("send ")?;
    push_send_parts(out, decls, send)
}

/// Adds a synchronous send.
fn push_ssend(out: &mut String, decls: &[Decl], send: &SendStmt) -> Result<(), AllocError>
    ensures { OnOk result (string_bytes out.new ≡ string_bytes out.old ++ parts_text decls.now (parts_of (st.Ssend send.now))) }
{
    out.push_str("ssend ")?;
    push_send_parts(out, decls, send)
}

/// Adds a receive.
fn push_recv(out: &mut String, decls: &[Decl], recv: &RecvStmt) -> Result<(), AllocError>
    ensures { OnOk result (string_bytes out.new ≡ string_bytes out.old ++ parts_text decls.now (parts_of (st.Recv recv.now))) }
{
    out.push_str("recv ")?;
    push_recv_parts(out, decls, recv)
}

/// Adds a nonblocking send.
fn push_isend(out: &mut String, decls: &[Decl], isend: &IsendStmt) -> Result<(), AllocError>
    ensures { OnOk result (string_bytes out.new ≡ string_bytes out.old ++ parts_text decls.now (parts_of (st.Isend isend.now))) }
{
    out.push_str("isend ")?;
    push_target(out, decls, &isend.request)?;
    out.push_str(" ")?;
    push_send_parts(out, decls, &isend.send)
}

/// Adds a nonblocking synchronous send.
fn push_issend(out: &mut String, decls: &[Decl], issend: &IsendStmt) -> Result<(), AllocError>
    ensures { OnOk result (string_bytes out.new ≡ string_bytes out.old ++ parts_text decls.now (parts_of (st.Issend issend.now))) }
{
    out.push_str("issend ")?;
    push_target(out, decls, &issend.request)?;
    out.push_str(" ")?;
    push_send_parts(out, decls, &issend.send)
}

/// Adds a nonblocking receive.
fn push_irecv(out: &mut String, decls: &[Decl], irecv: &IrecvStmt) -> Result<(), AllocError>
    ensures { OnOk result (string_bytes out.new ≡ string_bytes out.old ++ parts_text decls.now (parts_of (st.Irecv irecv.now))) }
{
    out.push_str("irecv ")?;
    push_target(out, decls, &irecv.request)?;
    out.push_str(" ")?;
    push_recv_parts(out, decls, &irecv.recv)
}

/// Adds a wait for one of several requests: their declaration by its name alone, and where the index of the one that came goes.
fn push_waitany(out: &mut String, decls: &[Decl], waitany: &WaitanyStmt) -> Result<(), AllocError>
    ensures { OnOk result (string_bytes out.new ≡ string_bytes out.old ++ parts_text decls.now (parts_of (st.Waitany waitany.now))) }
{
    out.push_str("waitany ")?;
    push_name(out, decls, waitany.requests)?;
    out.push_str(" to ")?;
    push_target(out, decls, &waitany.into)
}

/// Adds what a send sends, to whom and with which tag.
fn push_send_parts(out: &mut String, decls: &[Decl], send: &SendStmt) -> Result<(), AllocError>
    ensures { OnOk result (string_bytes out.new ≡ string_bytes out.old ++ parts_text decls.now (send_parts send.now)) }
{
    push_expr(out, decls, &send.value)?;
    push_behind(out, decls, " to ", &send.to)?;
    push_behind(out, decls, " tag ", &send.tag)
}

/// Adds a source or a tag of a receive, which may be any.
fn push_source(out: &mut String, decls: &[Decl], source: &Option<Expr>) -> Result<(), AllocError>
    ensures { OnOk result (string_bytes out.new ≡ string_bytes out.old ++ part_text decls.now (source_part source.now)) }
{
    match source {
        None => out.push_str("any"),
        Some(value) => push_expr(out, decls, value),
    }
}

/// Adds a status after a space: the places that the source and the tag are written to.
fn push_status(out: &mut String, decls: &[Decl], status: &StatusStmt) -> Result<(), AllocError>
    ensures { OnOk result (string_bytes out.new ≡ string_bytes out.old ++ (codes " " ++ parts_text decls.now (status_parts (Some status.now) []))) }
{
    out.push_str(" status ")?;
    push_target(out, decls, &status.source)?;
    out.push_str(" ")?;
    push_target(out, decls, &status.tag)
}

/// Adds the tag of a receive, and its status, if it has one.
fn push_tagged(
    out: &mut String,
    decls: &[Decl],
    tag: &Option<Expr>,
    status: &Option<StatusStmt>,
) -> Result<(), AllocError>
    ensures { OnOk result (string_bytes out.new ≡ string_bytes out.old ++ parts_text decls.now (source_part tag.now ∷ status_parts status.now [])) }
{
    push_source(out, decls, tag)?;
    match status {
        None => Ok(()),
        Some(status) => push_status(out, decls, status),
    }
}

/// Adds where a receive writes, from whom it takes and with which tag, and where it writes that.
fn push_recv_parts(out: &mut String, decls: &[Decl], recv: &RecvStmt) -> Result<(), AllocError>
    ensures { OnOk result (string_bytes out.new ≡ string_bytes out.old ++ parts_text decls.now (recv_parts recv.now)) }
{
    push_target(out, decls, &recv.into)?;
    out.push_str(" from ")?;
    push_source(out, decls, &recv.from)?;
    out.push_str(" tag ")?;
    push_tagged(out, decls, &recv.tag, &recv.status)
}
