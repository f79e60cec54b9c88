//! Lowered code.

ghost use Rattle.std.specs.Bool.{Decides};
ghost use Rattle.std.specs.List.{list_all};
ghost use Rattle.std.specs.Prelude.{◌≡◌, ◌<◌, ◌≤◌, ◌↔◌, [], IsSome, IfSome, IfNone, Some, slice_get};
ghost use Rattle.mpd_model.specs.script.Declaration.{variables_in, handles_in};
ghost use Rattle.mpd_model.specs.script.Program.{IsBlockOf};
ghost use Rattle.mpd_model.specs.script.Tree.{block_of, statements_in, numbered};
ghost use Rattle.mpd_code.specs.Left.{left_at};
ghost use Rattle.mpd_code.specs.Stands.{Stands};
ghost use Rattle.mpd_code.specs.Versions.{is_of_first};

use crate::node::{Action, Node};
use mpd_model::{CELLS_MAX, Decl, HANDLES_MAX, RANKS_MAX, STATEMENTS_MAX, Script, Simple};
use std::marker::Model;
use std::snapshot::Snapshot;

/// A script as a list of nodes, numbered as its statements are in text order. Each stands for what is left to run there.
#[derive(Drop)]
pub struct Code {
    pub(crate) nodes: Vec<Node>,
    pub(crate) lines: Vec<usize>,
    pub(crate) decls: Vec<Decl>,
    pub(crate) ranks: usize,
    pub(crate) cells: usize,
    pub(crate) handles: usize,
    /// What it was lowered from. It takes no bytes.
    pub(crate) script: Snapshot<Script>,
}

impl Model for Code {
    ghost use Rattle.std.specs.Prelude.{◌≡◌};
    ghost use Rattle.mpd_code.specs.Views.{CodeView, code_view_code};

    ghost Value = { CodeView };

    ghost coded = { code_view_code };

    ghost use Rattle.mpd_model.specs.script.Declaration.{variables_in, handles_in};
    ghost use Rattle.mpd_model.specs.script.Program.{IsLegal};
    ghost use Rattle.mpd_model.specs.script.Tree.{block_of, statements_in};
    ghost use Rattle.mpd_code.specs.Lowered.{lowered};

    ghost view = { λ c. record { program = c.script.value } };

    ghost invariant = { λ c.
        (c.nodes.items ≡ lowered 0 (block_of c.script.value.body) (statements_in (block_of c.script.value.body)))
        × (c.lines.items ≡ c.script.value.lines)
        × (c.decls.items ≡ c.script.value.decls)
        × (c.ranks ≡ c.script.value.ranks)
        × (c.cells ≡ variables_in c.script.value.decls)
        × (c.handles ≡ handles_in c.script.value.decls)
        × IsLegal c.script.value };
}

/// Whether a node is of a statement that version 1 has.
fn is_of_first(node: &Node) -> bool
    ensures { result ≡ is_of_first node.now }
{
    match &node.action {
        Action::Simple(Simple::Waitany(_)) => false,
        _ => true,
    }
}

/// Whether all of some nodes are of statements that version 1 has.
fn are_of_first(nodes: &[Node]) -> bool
    ensures { result ≡ list_all is_of_first nodes.now }
{
    nodes.iter().all(|node| is_of_first(node))
}

impl Code {
    /// The node of a number, below `nodes()`. The end has none, since nothing is left to run there.
    #[tactic(auto, using(crate::proofs::NodeLemmas::at_node))]
    pub fn node(&self, number: usize) -> Option<&Node>
        ensures some { IfSome result (λ node. Stands (left_at self.now.program) number node.now) }
        ensures none { IfNone result (left_at self.now.program number ≡ []) }
        ensures within { IsSome result ↔ (number < statements_in (block_of self.now.program.body)) }
    {
        self.nodes.get(number)
    }

    /// The number of the node at which a rank starts; the number of the end if the script has no
    /// statement.
    #[tactic(auto, using(crate::proofs::NodeLemmas::at_node))]
    pub fn start(&self) -> usize
        ensures body { left_at self.now.program result ≡ numbered 0 self.now.program.body }
        ensures bound { result ≤ STATEMENTS_MAX }
    {
        0
    }

    /// How many nodes there are, 0 to 4,096: one for each statement. It is also the number of the
    /// end.
    #[tactic(auto, using(crate::proofs::NodeLemmas::at_node))]
    pub fn nodes(&self) -> usize
        ensures value { result ≡ statements_in (block_of self.now.program.body) }
        ensures bound { result ≤ STATEMENTS_MAX }
        ensures end { left_at self.now.program result ≡ [] }
    {
        self.nodes.len()
    }

    /// The line of the statement of a node that exists, counted from 1.
    pub fn line(&self, number: usize) -> usize
        requires { number < statements_in (block_of self.now.program.body) }
        ensures { slice_get self.now.program.lines number ≡ Some result }
    {
        self.lines[number]
    }

    /// The lines of the statements of all nodes, in the order of the nodes.
    pub fn lines(&self) -> &[usize]
        ensures { result.now ≡ self.now.program.lines }
    {
        &self.lines
    }

    /// How many ranks run it, 1 to 16.
    pub fn ranks(&self) -> usize
        ensures value { result ≡ self.now.program.ranks }
        ensures some { 1 ≤ result }
        ensures small { result ≤ RANKS_MAX }
    {
        self.ranks
    }

    /// How many cells the variables of a rank have, 0 to 1,024.
    pub fn cells(&self) -> usize
        ensures value { result ≡ variables_in self.now.program.decls }
        ensures bound { result ≤ CELLS_MAX }
    {
        self.cells
    }

    /// How many handles a rank has, 0 to 256.
    pub fn handles(&self) -> usize
        ensures value { result ≡ handles_in self.now.program.decls }
        ensures bound { result ≤ HANDLES_MAX }
    {
        self.handles
    }

    /// Whether no waitany stands in it, so that each of its statements is one that version 1 has.
    #[tactic(auto, using(crate::proofs::Versions::versions))]
    pub fn has_no_waitany(&self) -> bool
        ensures { Decides result (IsBlockOf 1 (block_of self.now.program.body)) }
    {
        are_of_first(&self.nodes)
    }

    /// The declarations of the script, in text order.
    pub fn decls(&self) -> &[Decl]
        ensures { result.now ≡ self.now.program.decls }
    {
        &self.decls
    }
}
