//! The values of expressions that stand after `print` (docs/CONSOLE.md, "Looks").

ghost use Rattle.std.specs.Prelude.{◌≡◌, ◌≢◌, ◌<◌, ◌≤◌, ◌++◌, ◌∷◌, [], IfErr, IfOk, OnErr, OnOk, Err, Ok, length, map, true};
ghost use Rattle.std.specs.List.{flat_map};
ghost use Rattle.mpd_model.specs.declared.read_fault.FaultCode.TheVariants.{Memory};
ghost use Rattle.mpd_model.specs.steps.World.{rank_numbers};
ghost use Rattle.mpd_script.specs.Asked.{asking};
ghost use Rattle.mpd_console.specs.Values as spec;
ghost use Rattle.mpd_console.specs.Says.{keeps_none, valued_in};

use mpd_code::{Code, Env, eval};
use mpd_core::Core;
use mpd_model::{Decl, Expr, FaultCode, ReadFault, Trap};
use mpd_names::{NameFault, Named, find_named};
use mpd_print::push_expr;
use mpd_script::{Asked, read_expression};
use mpd_session::Session;
use mpd_trace::{push_found, word_at};
use mpd_vocabulary::{push_no_name, push_quoted};
use std::alloc::{AllocError, Global};
use std::marker::Model;
use std::{cmp, fmt};

/// What an expression can go on with.
#[derive(Clone, Copy)]
pub enum Expected {
    /// A number, a name, or what else has a value.
    Operand,
    /// `[`
    Opening,
    /// An operator or `]`.
    Closing,
    /// An operator or `)`.
    Ending,
    /// An operator or the end of the text.
    More,
    /// The end of the text.
    End,
}

/// These, each with a token that stands for it. The first is told that is allowed where a fault is.
const EXPECTED: [(Expected, &[u8]); 6] = [
    (Expected::Operand, b"rank"),
    (Expected::Opening, b"["),
    (Expected::Closing, b"]"),
    (Expected::Ending, b")"),
    (Expected::More, b"+"),
    (Expected::End, b""),
];

/// Why a text is no expression.
#[derive(Clone, Copy)]
pub enum NoValue {
    /// It doesn't go on with this; nothing is told if no token may stand there.
    Lacks(Option<Expected>),
    /// A name is that of a request, which has no value.
    IsRequest,
    /// Nothing has the name.
    NoName,
    /// It has more than 64 brackets and operators.
    TooDeep,
    /// No expression has the token.
    NoToken,
}

/// The value that an expression has for a rank, or the trap that it ends in.
#[derive(Clone, Copy)]
pub struct RankValue {
    /// Which rank, from 0.
    pub rank: usize,
    /// The value.
    pub value: Result<i64, Trap>,
}

/// Values by rank; contracts see a list.
#[derive(Drop)]
pub struct ValueList {
    pub items: Vec<RankValue>,
}

impl Model for ValueList {
    ghost use Rattle.std.specs.Prelude.{List};
    ghost use Rattle.mpd_console.specs.declared.values.RankValue.{RankValue};

    ghost Value = { List RankValue };

    ghost view = { λ l. l.items.items };
}

/// What stands after `print` comes to.
#[derive(Drop)]
pub enum Valued {
    /// The values of an expression, of all ranks or of the one that is asked for.
    Values {
        /// The expression.
        expr: Expr,
        /// Its values.
        values: ValueList,
    },
    /// There is no such rank.
    NoRank,
    /// It is no expression.
    Wrong {
        /// Why.
        why: NoValue,
        /// Where in the text, from 0.
        place: usize,
    },
}

/// The expression that a text spells by the names of a script, and the rank after it.
fn read_for(alloc: Global, code: &Code, text: &[u8]) -> Result<Asked, ReadFault>
    ensures ok { IfOk result (λ a. asking code.now.program.decls text.now ≡ Ok (a.expr, a.rank)) }
    ensures err { IfErr result (λ f. f.code ≢ Memory → asking code.now.program.decls text.now ≡ Err f) }
{
    let _cells = code.cells();
    let _handles = code.handles();
    read_expression(alloc, code.decls(), text)
}

// ---- values

/// The value that an expression has for a rank.
fn value_at(core: &Core<'_>, expr: &Expr, rank: usize) -> RankValue
    requires { rank < length core.now.world.ranks }
    ensures { spec.value_at core.now.program core.now.world expr.now rank ≡ result ∷ [] }
{
    let code = core.code();
    let state = core.rank(rank);
    let _count = core.rank_count();
    let env = Env {
        vars: state.variables(),
        handles: state.handles(),
        rank: rank as u32,
        size: code.ranks() as u32,
    };
    RankValue {
        rank,
        value: eval(expr, &env),
    }
}

/// Those of all ranks.
fn values_of_all(alloc: Global, core: &Core<'_>, expr: &Expr) -> Result<Vec<RankValue>, AllocError>
    ensures { IfOk result (λ v. v.items ≡ flat_map (spec.value_at core.now.program core.now.world expr.now) (rank_numbers core.now.world.board)) }
{
    let mut values = Vec::new(alloc);
    let count = core.rank_count();
    for rank in 0..count {
        values.push(value_at(core, expr, rank))?;
    }
    Ok(values)
}

/// That of one rank.
fn value_of_one(
    alloc: Global,
    core: &Core<'_>,
    expr: &Expr,
    rank: usize,
) -> Result<Vec<RankValue>, AllocError>
    requires { rank < length core.now.world.ranks }
    ensures { IfOk result (λ v. v.items ≡ spec.value_at core.now.program core.now.world expr.now rank) }
{
    let mut values = Vec::new(alloc);
    values.push(value_at(core, expr, rank))?;
    Ok(values)
}

/// The values of an expression, of all ranks or of the one that was asked for.
fn valued_by(alloc: Global, core: &Core<'_>, asked: Asked) -> Result<Valued, AllocError>
    ensures valued { IfOk result (λ v. v ≡ spec.valued_by core.now.program core.now.world asked.expr asked.rank) }
    ensures asked { IfOk result (λ v. spec.is_valued v ≡ true) }
{
    let Asked { expr, rank } = asked;
    let items = match rank {
        None => values_of_all(alloc, core, &expr)?,
        Some(rank) if rank >= core.rank_count() => return Ok(Valued::NoRank),
        Some(rank) => value_of_one(alloc, core, &expr, rank)?,
    };
    Ok(Valued::Values {
        expr,
        values: ValueList { items },
    })
}

// ---- what is no expression

/// Whether a token may stand after the front of an expression: the text that ends with it isn't
/// refused there as `Expected`.
fn is_allowed(alloc: Global, code: &Code, front: &[u8], token: &[u8]) -> Result<bool, AllocError>
    ensures { IfOk result (λ found. found ≡ spec.allows code.now.program.decls front.now token.now) }
{
    let mut text = Vec::new(alloc);
    text.extend_from_slice(front)?;
    text.push(b' ')?;
    text.extend_from_slice(token)?;
    match read_for(alloc, code, &text) {
        Ok(_) => Ok(true),
        Err(fault) => match fault.code {
            FaultCode::Memory => Err(AllocError),
            FaultCode::Expected => Ok(fault.place != front.len() + 1),
            _ => Ok(true),
        },
    }
}

/// What stands first in a table of those that may stand after the front; none if none may.
fn first_allowed(
    alloc: Global,
    code: &Code,
    front: &[u8],
    mut table: &[(Expected, &'static [u8])],
) -> Result<Option<Expected>, AllocError>
    ensures { IfOk result (λ found. found ≡ spec.first_allowed code.now.program.decls front.now (map (λ k. (k.0, k.1.now)) table.entry.now)) }
{
    while let [entry, rest @ ..] = table {
        if is_allowed(alloc, code, front, entry.1)? {
            return Ok(Some(entry.0));
        }
        table = rest;
    }
    Ok(None)
}

/// Why a name is no variable, given what it means.
fn no_variable(meant: Result<Named, NameFault>) -> NoValue
    ensures { result ≡ spec.no_variable meant }
{
    match meant {
        Ok(_) => NoValue::IsRequest,
        Err(_) => NoValue::NoName,
    }
}

/// Why a text is no expression, by its leftmost fault.
fn why_none(
    alloc: Global,
    code: &Code,
    text: &[u8],
    fault: ReadFault,
) -> Result<NoValue, AllocError>
    ensures { IfOk result (λ why. why ≡ spec.why_none code.now.program.decls text.now fault.code fault.place) }
{
    match fault.code {
        FaultCode::Expected => {
            let (front, _) = text.split_at(cmp::min(fault.place, text.len()));
            let found = first_allowed(alloc, code, front, &EXPECTED)?;
            Ok(NoValue::Lacks(found))
        }
        FaultCode::UnknownName => {
            let name = word_at(text, fault.place);
            Ok(no_variable(find_named(code, name)))
        }
        FaultCode::TooDeep => Ok(NoValue::TooDeep),
        _ => Ok(NoValue::NoToken),
    }
}

// ---- either

/// What stands after `print` comes to. `Err` means that memory was refused.
fn valued_of(alloc: Global, core: &Core<'_>, text: &[u8]) -> Result<Valued, AllocError>
    ensures valued { IfOk result (λ v. v ≡ spec.valued_of core.now.program core.now.world text.now) }
    ensures asked { IfOk result (λ v. spec.is_valued v ≡ spec.is_asked core.now.program.decls text.now) }
{
    match read_for(alloc, core.code(), text) {
        Ok(asked) => valued_by(alloc, core, asked),
        Err(fault) => match fault.code {
            FaultCode::Memory => Err(AllocError),
            _ => Ok(Valued::Wrong {
                why: why_none(alloc, core.code(), text, fault)?,
                place: fault.place,
            }),
        },
    }
}

/// The same in a session.
#[tactic(auto, using(crate::proofs::DoneLemmas::valuing))]
pub(crate) fn valued_in(
    alloc: Global,
    session: &Session<'_>,
    text: &[u8],
) -> Result<Valued, AllocError>
    ensures valued { IfOk result (λ v. v ≡ valued_in session.now text.now) }
    ensures asked { IfOk result (λ v. spec.is_valued v ≡ spec.is_asked session.now.trail.program.decls text.now) }
{
    let debugger = session.debugger();
    debugger.state_is_reached();
    valued_of(alloc, debugger.core(), text)
}

/// Whether it is an expression.
pub(crate) fn is_valued(valued: &Valued) -> bool
    ensures { result ≡ spec.is_valued valued.now }
{
    !matches!(valued, Valued::Wrong { .. })
}

/// Keeps an expression for the next empty line, if it is one.
pub(crate) fn keep(asked: &mut Vec<u8>, text: &[u8], is_asked: bool) -> Result<(), AllocError>
    ensures kept { OnOk result (asked.new.items ≡ spec.kept_if is_asked text.now asked.old.items) }
    ensures same { OnErr result (asked.new.items ≡ asked.old.items) }
{
    if !is_asked {
        return Ok(());
    }
    let mut kept = Vec::new(*asked.allocator());
    kept.extend_from_slice(text)?;
    *asked = kept;
    Ok(())
}

/// Whether no expression is kept.
pub(crate) fn keeps_none(asked: &[u8]) -> bool
    ensures { result ≡ keeps_none asked.now }
{
    asked.is_empty()
}

// ---- what is said of it

impl fmt::Display for Expected {
    fn fmt<W: fmt::Write>(&self, f: &mut fmt::Formatter<W>) -> fmt::Result {
        match *self {
            Expected::Operand => write!(f, "an operand"),
            Expected::Opening => write!(f, "'['"),
            Expected::Closing => write!(f, "an operator or ']'"),
            Expected::Ending => write!(f, "an operator or ')'"),
            Expected::More => write!(f, "an operator or the end of the text"),
            Expected::End => write!(f, "the end of the text"),
        }
    }
}

/// Adds a line for each value of an expression.
fn push_values(
    out: &mut String,
    decls: &[Decl],
    expr: &Expr,
    values: &[RankValue],
) -> Result<(), AllocError> {
    for RankValue { rank, value } in values {
        write!(out, "rank {rank}: ")?;
        push_expr(out, decls, expr)?;
        match value {
            Ok(value) => write!(out, " = {value}\n")?,
            Err(trap) => {
                let name = trap.name();
                write!(out, " traps: {name}\n")?;
            }
        }
    }
    Ok(())
}

/// Adds why a text is no expression.
fn push_wrong(out: &mut String, text: &[u8], why: NoValue, place: usize) -> Result<(), AllocError> {
    let (_, rest) = text.split_at(cmp::min(place, text.len()));
    match why {
        NoValue::Lacks(found) => {
            out.push_str("refused: ")?;
            if let Some(found) = found {
                write!(out, "{found}")?;
            }
            out.push_str(" is expected at ")?;
            push_found(out, rest)?;
            out.push('\n')
        }
        NoValue::IsRequest => {
            push_quoted(out, "refused: '", word_at(text, place))?;
            out.push_str("' is a request, and no variable\n")
        }
        NoValue::NoName => push_no_name(out, word_at(text, place)),
        NoValue::TooDeep => {
            out.push_str("refused: an expression has 64 brackets and operators at most\n")
        }
        NoValue::NoToken => {
            out.push_str("refused: no expression has ")?;
            push_found(out, rest)?;
            out.push('\n')
        }
    }
}

/// Adds what is said of what stands after `print`.
pub(crate) fn push_valued(
    out: &mut String,
    decls: &[Decl],
    text: &[u8],
    valued: &Valued,
) -> Result<(), AllocError> {
    match valued {
        Valued::Values { expr, values } => push_values(out, decls, expr, &values.items),
        Valued::NoRank => out.push_str("refused: there is no such rank\n"),
        Valued::Wrong { why, place } => push_wrong(out, text, *why, *place),
    }
}
