//! What stands before the states of a page (docs/PAGES.md, "The data").

use crate::walk::Walk;
use mpd_code::Code;
use mpd_model::{Decl, DeclKind, Mode, bare_line, cut_line};
use mpd_object::{Object, text_value};
use serde_json::Value;
use std::alloc::{AllocError, Global};

/// What is told of a page beside its runs.
#[derive(Clone, Copy)]
pub struct Title<'a> {
    /// The last part of the name of the script's file.
    pub name: &'a [u8],
    /// The script.
    pub text: &'a [u8],
    pub walk: Walk,
    /// Whether how runs end is covered at first.
    pub hide: bool,
    /// What becomes of all runs, line by line.
    pub said: &'a [u8],
    /// Whether there are more runs, or may be.
    pub more: bool,
}

/// The lines of a text as a list.
pub(crate) fn lines_value(alloc: Global, text: &[u8]) -> Result<Value, AllocError> {
    let mut lines = Vec::new(alloc);
    let mut rest = text;
    while let Some((line, behind)) = cut_line(rest) {
        lines.push(text_value(alloc, bare_line(line))?)?;
        rest = behind;
    }
    Ok(Value::Array(lines))
}

/// Along what choices are told, as a word.
fn walk_word(walk: Walk) -> &'static str {
    match walk {
        Walk::Decisions => "decisions",
        Walk::Wide => "wide",
        Walk::Words => "words",
    }
}

/// Whether a declaration is one of this kind.
fn is_of(decl: &Decl, kind: DeclKind) -> bool {
    match (decl.kind, kind) {
        (DeclKind::Variable, DeclKind::Variable) | (DeclKind::Handle, DeclKind::Handle) => true,
        (DeclKind::Variable, DeclKind::Handle) | (DeclKind::Handle, DeclKind::Variable) => false,
    }
}

/// A declaration as its name and its size.
fn declared_value(alloc: Global, decl: &Decl) -> Result<Value, AllocError> {
    let mut parts = Vec::new(alloc);
    parts.push(text_value(alloc, decl.name.as_bytes())?)?;
    parts.push(match decl.size {
        None => Value::Null,
        Some(size) => Value::from(size),
    })?;
    Ok(Value::Array(parts))
}

/// The declarations of a kind.
fn declared_values(alloc: Global, decls: &[Decl], kind: DeclKind) -> Result<Value, AllocError> {
    let mut values = Vec::new(alloc);
    for decl in decls {
        if is_of(decl, kind) {
            values.push(declared_value(alloc, decl)?)?;
        }
    }
    Ok(Value::Array(values))
}

/// What is told of all runs.
pub(crate) fn head_value(
    alloc: Global,
    code: &Code,
    mode: Mode,
    title: Title<'_>,
) -> Result<Value, AllocError> {
    Object::new(alloc)
        .text("format", "mpdbg page 2")
        .with("name", text_value(alloc, title.name))
        .shown("mode", mode)
        .number("ranks", code.ranks())
        .text("walk", walk_word(title.walk))
        .flag("hide", title.hide)
        .text("note", "")
        .with("said", lines_value(alloc, title.said))
        .with("script", lines_value(alloc, title.text))
        .with(
            "vars",
            declared_values(alloc, code.decls(), DeclKind::Variable),
        )
        .with(
            "handles",
            declared_values(alloc, code.decls(), DeclKind::Handle),
        )
        .flag("more", title.more)
        .done()
}
