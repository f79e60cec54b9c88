//! The lines of statements that hold no other.

use crate::expr::Names;
use mpd_model::{
    AssignStmt, IrecvStmt, IsendStmt, RecvStmt, SendStmt, Simple, StatusStmt, WaitanyStmt,
};
use std::alloc::AllocError;

/// Adds a send that blocks.
fn push_send(
    out: &mut String,
    names: Names,
    margin: &str,
    call: &str,
    send: &SendStmt,
) -> Result<(), AllocError> {
    let value = names.expr(&send.value);
    let (to, tag) = (names.expr(&send.to), names.expr(&send.tag));
    write!(
        out,
        "\
{margin}{{
{margin}    const int64_t value = {value};
{margin}    const int to = as_rank({to});
{margin}    const int tag = as_tag({tag});
{margin}    {call}(&value, 1, MPI_INT64_T, to, tag, MPI_COMM_WORLD);
{margin}}}
"
    )
}

/// Adds a nonblocking send.
fn push_isend(
    out: &mut String,
    names: Names,
    margin: &str,
    call: &str,
    isend: &IsendStmt,
) -> Result<(), AllocError> {
    let handle = names.target(&isend.request);
    let value = names.expr(&isend.send.value);
    let (to, tag) = (names.expr(&isend.send.to), names.expr(&isend.send.tag));
    write!(
        out,
        "\
{margin}{{
{margin}    struct call **const handle = &{handle};
{margin}    struct call *const call = new_call();
{margin}    call->value = {value};
{margin}    const int to = as_rank({to});
{margin}    const int tag = as_tag({tag});
{margin}    {call}(&call->value, 1, MPI_INT64_T, to, tag, MPI_COMM_WORLD, &call->request);
{margin}    *handle = call;
{margin}}}
"
    )
}

/// Adds the lines of a receive with a status, after its source and its tag.
fn push_with_status(
    out: &mut String,
    names: Names,
    margin: &str,
    status: &StatusStmt,
) -> Result<(), AllocError> {
    let (source, tag) = (names.target(&status.source), names.target(&status.tag));
    write!(
        out,
        "\
{margin}    int64_t *const source_place = &{source};
{margin}    int64_t *const tag_place = &{tag};
{margin}    MPI_Status status;
{margin}    MPI_Recv(place, 1, MPI_INT64_T, source, tag, MPI_COMM_WORLD, &status);
{margin}    *source_place = status.MPI_SOURCE;
{margin}    *tag_place = status.MPI_TAG;
"
    )
}

/// Adds a receive.
fn push_recv(
    out: &mut String,
    names: Names,
    margin: &str,
    recv: &RecvStmt,
) -> Result<(), AllocError> {
    let into = names.target(&recv.into);
    let (source, tag) = (names.source(&recv.from), names.tag(&recv.tag));
    write!(
        out,
        "\
{margin}{{
{margin}    int64_t *const place = &{into};
{margin}    const int source = {source};
{margin}    const int tag = {tag};
"
    )?;
    match &recv.status {
        None => write!(
            out,
            "\
{margin}    MPI_Recv(place, 1, MPI_INT64_T, source, tag, MPI_COMM_WORLD, MPI_STATUS_IGNORE);
"
        )?,
        Some(status) => push_with_status(out, names, margin, status)?,
    }
    write!(out, "{margin}}}\n")
}

/// Adds a nonblocking receive.
fn push_irecv(
    out: &mut String,
    names: Names,
    margin: &str,
    irecv: &IrecvStmt,
) -> Result<(), AllocError> {
    let recv = &irecv.recv;
    let (handle, into) = (names.target(&irecv.request), names.target(&recv.into));
    let (source, tag) = (names.source(&recv.from), names.tag(&recv.tag));
    write!(
        out,
        "\
{margin}{{
{margin}    struct call **const handle = &{handle};
{margin}    struct call *const call = new_call();
{margin}    call->place = &{into};
{margin}    const int source = {source};
{margin}    const int tag = {tag};
"
    )?;
    if let Some(status) = &recv.status {
        let (source, tag) = (names.target(&status.source), names.target(&status.tag));
        write!(
            out,
            "\
{margin}    call->source_place = &{source};
{margin}    call->tag_place = &{tag};
"
        )?;
    }
    write!(
        out,
        "\
{margin}    MPI_Irecv(&call->value, 1, MPI_INT64_T, source, tag, MPI_COMM_WORLD, &call->request);
{margin}    *handle = call;
{margin}}}
"
    )
}

/// Adds a wait for any of several requests.
fn push_waitany(
    out: &mut String,
    names: Names,
    margin: &str,
    waitany: &WaitanyStmt,
) -> Result<(), AllocError> {
    let (into, handles) = (names.target(&waitany.into), names.handles(waitany.requests));
    write!(
        out,
        "\
{margin}{{
{margin}    int64_t *const place = &{into};
{margin}    *place = wait_for_any({handles});
{margin}}}
"
    )
}

/// Adds an assignment. If its place has an index, that is evaluated first.
fn push_assign(
    out: &mut String,
    names: Names,
    margin: &str,
    assign: &AssignStmt,
) -> Result<(), AllocError> {
    let (into, value) = (names.target(&assign.into), names.expr(&assign.value));
    match &assign.into.index {
        None => write!(out, "{margin}{into} = {value};\n"),
        Some(_) => write!(
            out,
            "\
{margin}{{
{margin}    int64_t *const place = &{into};
{margin}    *place = {value};
{margin}}}
"
        ),
    }
}

/// Adds the lines of a statement that holds no other, after the one that gives its line.
pub(crate) fn push_simple(
    out: &mut String,
    names: Names,
    margin: &str,
    simple: &Simple,
) -> Result<(), AllocError> {
    match simple {
        Simple::Print(value) => write!(out, "{margin}print({});\n", names.expr(value)),
        Simple::Assign(assign) => push_assign(out, names, margin, assign),
        Simple::Assert(test) => write!(out, "{margin}must_hold({});\n", names.expr(test)),
        Simple::Send(send) => push_send(out, names, margin, "MPI_Send", send),
        Simple::Ssend(send) => push_send(out, names, margin, "MPI_Ssend", send),
        Simple::Recv(recv) => push_recv(out, names, margin, recv),
        Simple::Isend(isend) => push_isend(out, names, margin, "MPI_Isend", isend),
        Simple::Issend(isend) => push_isend(out, names, margin, "MPI_Issend", isend),
        Simple::Irecv(irecv) => push_irecv(out, names, margin, irecv),
        Simple::Wait(request) => write!(out, "{margin}wait_for(&{});\n", names.target(request)),
        Simple::Waitany(waitany) => push_waitany(out, names, margin, waitany),
        Simple::Barrier => write!(out, "{margin}MPI_Barrier(MPI_COMM_WORLD);\n"),
    }
}
