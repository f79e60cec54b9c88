//! Statements.

use crate::expr::Expr;
use crate::place::Place;
use std::marker::Model;

/// A place that a statement names outside of an expression, a variable or a handle. Contracts see it as a `Target`.
#[derive(Drop)]
pub struct Target {
    pub place: Place,
    /// The index, if the place is an array.
    pub index: Option<Expr>,
}

impl Model for Target {
    ghost use Rattle.mpd_model.specs.script.Term.{Target};
    ghost use Rattle.mpd_model.specs.script.TermCode.{target_code};

    ghost Value = { Target };

    ghost coded = { target_code };

    ghost view = { λ t. record { place = t.place; index = t.index } };
}

/// A statement, which contracts see as a `Tree`.
#[cycle(stmt)]
#[derive(Drop)]
pub struct Stmt {
    pub node: StmtNode,
}

/// What a send sends (MPI 4.0, sections 3.2.1 and 3.4).
#[derive(Drop)]
pub struct SendStmt {
    pub value: Expr,
    /// The destination.
    pub to: Expr,
    pub tag: Expr,
}

/// The places that the source and the tag of a message are written to (MPI 4.0, section 3.2.5).
#[derive(Drop)]
pub struct StatusStmt {
    pub source: Target,
    pub tag: Target,
}

/// What a receive takes, and where it goes (MPI 4.0, section 3.2.4).
#[derive(Drop)]
pub struct RecvStmt {
    /// The place that the value is written to.
    pub into: Target,
    /// The source; `None` is any source.
    pub from: Option<Expr>,
    /// The tag; `None` is any tag.
    pub tag: Option<Expr>,
    pub status: Option<StatusStmt>,
}

/// A nonblocking send (MPI 4.0, section 3.7.2).
#[derive(Drop)]
pub struct IsendStmt {
    /// The handle that gets the request.
    pub request: Target,
    pub send: SendStmt,
}

/// A nonblocking receive (MPI 4.0, section 3.7.2).
#[derive(Drop)]
pub struct IrecvStmt {
    /// The handle that gets the request.
    pub request: Target,
    pub recv: RecvStmt,
}

/// A wait for one of several requests (MPI 4.0, section 3.7.5).
#[derive(Drop)]
pub struct WaitanyStmt {
    /// All handles of a declaration, whether it has a size or not.
    pub requests: Place,
    /// The place that the index of the one that is chosen is written to.
    pub into: Target,
}

/// An assignment.
#[derive(Drop)]
pub struct AssignStmt {
    pub into: Target,
    pub value: Expr,
}

/// A statement that holds no other (docs/LANGUAGE.md, "Statements").
#[derive(Drop)]
pub enum Simple {
    Print(Expr),
    Assign(AssignStmt),
    Assert(Expr),
    /// A standard send (MPI 4.0, section 3.2.1).
    Send(SendStmt),
    /// A synchronous send (MPI 4.0, section 3.4).
    Ssend(SendStmt),
    Recv(RecvStmt),
    Isend(IsendStmt),
    /// A nonblocking synchronous send (MPI 4.0, sections 3.4 and 3.7.2).
    Issend(IsendStmt),
    Irecv(IrecvStmt),
    /// A wait for the request of a handle (MPI 4.0, section 3.7.3).
    Wait(Target),
    /// A wait for one of several requests (MPI 4.0, section 3.7.5). Version 1 has none.
    Waitany(WaitanyStmt),
    /// A barrier of all ranks (MPI 4.0, section 6.3).
    Barrier,
}

/// What a statement is made of (docs/LANGUAGE.md, "Statements").
#[cycle(stmt)]
#[derive(Drop)]
pub enum StmtNode {
    Simple(Simple),
    If(Expr, Vec<Stmt>, Vec<Stmt>),
    While(Expr, Vec<Stmt>),
}

impl Model for Stmt {
    ghost use Rattle.mpd_model.specs.script.Tree.{Tree};
    ghost use Rattle.mpd_model.specs.script.TreeCode.{coded_tree};

    ghost Value = { Tree };

    ghost coded = { coded_tree };

    ghost use Rattle.mpd_model.specs.script.Tree.{statements};
    ghost use Rattle.mpd_model.specs.script.TreeOf.{tree_of};

    ghost view = { λ s. tree_of s.node };

    ghost size = { statements };

    ghost use Rattle.mpd_model.specs.script.TreeFalls.{tree_falls};

    ghost size_decreases = { λ a h. tree_falls a.node };
}
