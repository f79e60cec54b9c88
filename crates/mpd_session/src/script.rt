//! A look at the script: what it declares, and where its statements stand.

ghost use Rattle.std.specs.Prelude.{◌≡◌, ◌++◌, ◌∷◌, ◌==◌, [], if◌then◌else◌, nat_lt, IfOk, OnOk, map, string_bytes};
ghost use Rattle.std.specs.List.{list_any};
ghost use Rattle.mpd_session.specs.Looks as spec;

use crate::effect::Effect;
use crate::looks::push_text;
use crate::reply::{Answer, NumberList, TextList};
use mpd_core::Core;
use mpd_explain::push_if;
use mpd_model::{Decl, DeclKind};
use std::alloc::{AllocError, Global};

/// A declaration as it stands in the script, without its first word.
fn declared_name(alloc: Global, decl: &Decl) -> Result<String, AllocError>
    ensures { IfOk result (λ t. string_bytes t ≡ spec.declared_name decl.now.name decl.now.size) }
{
    let mut name = String::from_str(alloc, decl.name.as_str())?;
    if let Some(size) = decl.size {
        write!(name, "[{size}]")?;
    }
    Ok(name)
}

/// Adds a declaration.
fn push_name(alloc: Global, names: &mut Vec<String>, decl: &Decl) -> Result<(), AllocError>
    ensures { OnOk result (map string_bytes names.new.items ≡ map string_bytes names.old.items ++ spec.declared_name decl.now.name decl.now.size ∷ []) }
{
    push_text(names, declared_name(alloc, decl)?)
}

/// Adds a declaration, if it is one of this kind.
fn push_name_of(
    alloc: Global,
    names: &mut Vec<String>,
    kind: DeclKind,
    decl: &Decl,
) -> Result<(), AllocError>
    ensures { OnOk result (map string_bytes names.new.items ≡ map string_bytes names.old.items ++ spec.name_of kind decl.now) }
{
    match (decl.kind, kind) {
        (DeclKind::Variable, DeclKind::Variable) => push_name(alloc, names, decl),
        (DeclKind::Handle, DeclKind::Handle) => push_name(alloc, names, decl),
        (DeclKind::Variable, DeclKind::Handle) => Ok(()),
        (DeclKind::Handle, DeclKind::Variable) => Ok(()),
    }
}

/// The declarations of a kind, in text order.
fn names(alloc: Global, kind: DeclKind, decls: &[Decl]) -> Result<TextList, AllocError>
    ensures { IfOk result (λ texts. texts ≡ spec.names kind decls.now) }
{
    let mut items = Vec::new(alloc);
    for decl in decls {
        push_name_of(alloc, &mut items, kind, decl)?;
    }
    Ok(TextList { items })
}

/// The higher of two numbers.
fn higher(one: usize, other: usize) -> usize
    ensures { result ≡ (if nat_lt one other then other else one) }
{
    if one < other { other } else { one }
}

/// The highest of some numbers, 0 if there are none.
fn highest(numbers: &[usize]) -> usize
    ensures { result ≡ spec.highest 0 numbers.now }
{
    let mut most = 0;
    for number in numbers {
        most = higher(most, *number);
    }
    most
}

/// Whether a number is among some.
fn is_among(numbers: &[usize], number: usize) -> bool
    ensures { result ≡ list_any (λ l. l == number) numbers.now }
{
    numbers.iter().any(|other| *other == number)
}

/// Adds a number, if it is among some.
fn push_if_among(numbers: &mut Vec<usize>, lines: &[usize], number: usize) -> Result<(), AllocError>
    ensures { OnOk result (numbers.new.items ≡ numbers.old.items ++ spec.if_among lines.now number) }
{
    push_if(numbers, number, is_among(lines, number))
}

/// The numbers that some lines have, in ascending order, each once.
fn each_once(alloc: Global, lines: &[usize]) -> Result<NumberList, AllocError>
    ensures { IfOk result (λ list. list ≡ spec.each_once lines.now) }
{
    let mut items = Vec::new(alloc);
    let most = highest(lines);
    for number in 0..most {
        push_if_among(&mut items, lines, number)?;
    }
    push_if_among(&mut items, lines, most)?;
    Ok(NumberList { items })
}

/// Tells how many ranks run the script, in which mode, what it declares, and the lines at which its
/// statements begin. `Err` means that memory was refused.
pub fn script(alloc: Global, core: &Core<'_>) -> Result<Effect, AllocError>
    ensures { IfOk result (λ effect. effect ≡ spec.script_effect core.now.program core.now.world) }
{
    let decls = core.code().decls();
    Ok(Effect::Told(Answer::Script {
        ranks: core.rank_count(),
        mode: core.board().mode(),
        vars: names(alloc, DeclKind::Variable, decls)?,
        handles: names(alloc, DeclKind::Handle, decls)?,
        lines: each_once(alloc, core.code().lines())?,
    }))
}
