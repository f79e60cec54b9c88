//! Prints a whole script.

ghost use Rattle.std.specs.Prelude.{◌≡◌, ◌++◌, IfOk, OnOk, string_bytes};
ghost use Rattle.std.specs.List.{flat_map};
ghost use Rattle.mpd_model.specs.grammar.Canonical.{kind_word, size_text, decl_text, canonical};

use crate::stmt::push_stmts;
use mpd_model::{Decl, DeclKind, Script};
use std::alloc::{AllocError, Global};

/// The canonical text of a script. `Err` means that memory was refused.
pub fn print(alloc: Global, script: &Script) -> Result<String, AllocError>
    ensures { IfOk result (λ t. string_bytes t ≡ canonical script.now) }
{
    let mut out = String::new(alloc);
    let version = script.version;
    let ranks = script.ranks;
    write!(out, "mpd {version};\nranks {ranks};\n")?;
    push_decls(&mut out, &script.decls)?;
    push_stmts(&mut out, &script.decls, 0, &script.body)?;
    Ok(out)
}

/// Adds a line for each declaration.
fn push_decls(out: &mut String, decls: &[Decl]) -> Result<(), AllocError>
    ensures { OnOk result (string_bytes out.new ≡ string_bytes out.old ++ flat_map decl_text decls.now) }
{
    for decl in decls {
        push_decl(out, decl)?;
    }
    Ok(())
}

/// Adds the line of a declaration.
fn push_decl(out: &mut String, decl: &Decl) -> Result<(), AllocError>
    ensures { OnOk result (string_bytes out.new ≡ string_bytes out.old ++ decl_text decl.now) }
{
    out.push_str(kind_name(decl.kind))?;
    out.push_str(&decl.name)?;
    if let Some(size) = decl.size {
        write!(out, "[{size}]")?;
    }
    out.push_str(";\n")
}

/// The word that begins a declaration, and the space after it.
fn kind_name(kind: DeclKind) -> &'static str
    ensures { result.now ≡ kind_word kind }
{
    match kind {
        DeclKind::Variable => "var ",
        DeclKind::Handle => "req ",
    }
}
