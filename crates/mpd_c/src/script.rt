//! The text of a whole script.

use crate::expr::Names;
use crate::fixed::{END, HEAD, MAIN, NAMES, REQUESTS};
use crate::stmt::{Writer, push_stmts};
use mpd_model::{Decl, DeclKind, Script};
use std::alloc::{AllocError, Global};
use std::fmt;

/// A script as one file of C with MPI calls (docs/FORMATS.md, "A script in C"). `Err` means that
/// memory was refused.
pub fn print_c(alloc: Global, script: &Script) -> Result<String, AllocError> {
    let mut writer = Writer {
        alloc,
        out: String::new(alloc),
        names: Names {
            decls: &script.decls,
        },
        lines: script.lines.iter(),
    };
    push_head(&mut writer.out, script.ranks)?;
    push_names(&mut writer.out, &script.decls)?;
    push_main(&mut writer.out, script.ranks)?;
    push_stmts(&mut writer, "    ", &script.body)?;
    writer.out.push_str(END)?;
    Ok(writer.out)
}

/// How many processes run a script, and how they are started.
#[derive(Clone, Copy)]
struct Started {
    ranks: usize,
}

impl fmt::Display for Started {
    fn fmt<W: fmt::Write>(&self, f: &mut fmt::Formatter<W>) -> fmt::Result {
        let ranks = self.ranks;
        let processes = if ranks == 1 { "process" } else { "processes" };
        write!(f, "{ranks} {processes}: mpiexec -n {ranks}")
    }
}

/// Adds the head.
fn push_head(out: &mut String, ranks: usize) -> Result<(), AllocError> {
    let started = Started { ranks };
    write!(
        out,
        "/* A script of mpdbg as a program in C with MPI. \
         Compile it with mpicc, and run it as {started}"
    )?;
    out.push_str(HEAD)
}

/// Adds the part on requests if a handle is declared, and the names if there are any.
fn push_names(out: &mut String, decls: &[Decl]) -> Result<(), AllocError> {
    if decls
        .iter()
        .any(|decl| matches!(decl.kind, DeclKind::Handle))
    {
        out.push_str(REQUESTS)?;
    }
    if !decls.is_empty() {
        out.push_str(NAMES)?;
    }
    for decl in decls {
        push_decl(out, decl)?;
    }
    Ok(())
}

/// Adds the line of a declaration. An array without elements gets one, since C has no such array.
fn push_decl(out: &mut String, decl: &Decl) -> Result<(), AllocError> {
    let kind = match decl.kind {
        DeclKind::Variable => "int64_t ",
        DeclKind::Handle => "struct call *",
    };
    let name = &decl.name;
    match decl.size {
        None => write!(out, "{kind}my_{name};\n"),
        Some(0) => write!(out, "{kind}my_{name}[1];\n"),
        Some(size) => write!(out, "{kind}my_{name}[{size}];\n"),
    }
}

/// Adds the beginning of `main`, up to the statements.
fn push_main(out: &mut String, ranks: usize) -> Result<(), AllocError> {
    let started = Started { ranks };
    out.push_str(MAIN)?;
    write!(
        out,
        r#"    if (size != {ranks}) {{
        if (rank == 0) {{
            fprintf(stderr, "this program is for {started}\n");
        }}
        MPI_Finalize();
        return 2;
    }}
"#
    )
}
