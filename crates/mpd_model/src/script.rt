//! A whole script.

use crate::place::Decl;
use crate::stmt::Stmt;
use std::marker::Model;

/// A script, which contracts see as a `Program`. It keeps the limits of docs/LANGUAGE.md, "Limits", and has names, places and
/// numbers as the grammar allows them, so that it can be printed and read again.
#[derive(Drop)]
pub struct Script {
    /// The version of the language, 1 or 2.
    pub version: usize,
    /// How many ranks run it, 1 to 16.
    pub ranks: usize,
    pub decls: Vec<Decl>,
    pub body: Vec<Stmt>,
    /// The line of each statement, from 1, in text order; nested ones count.
    pub lines: Vec<usize>,
}

impl Model for Script {
    ghost use Rattle.mpd_model.specs.script.Program.{Program, program_code};
    ghost use Rattle.mpd_model.specs.grammar.Printable.{IsPrintable};

    ghost Value = { Program };

    ghost coded = { program_code };

    ghost view = { λ s. record { version = s.version; ranks = s.ranks; decls = s.decls.items; body = s.body.items; lines = s.lines.items } };

    ghost invariant = { λ s. IsPrintable (record { version = s.version; ranks = s.ranks; decls = s.decls.items; body = s.body.items; lines = s.lines.items }) };
}
