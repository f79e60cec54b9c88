//! A whole text.

ghost use Rattle.std.specs.Prelude.{◌≡◌, ◌≢◌, ◌≤◌, IfErr, IfOk, IfSome, Err, IsAscii, None, Ok, [], length};
ghost use Rattle.std.specs.List.{prefix_len};
ghost use Rattle.mpd_model.specs.declared.limits.TheConstants.{RANKS_MAX, LANGUAGE_MAX};
ghost use Rattle.mpd_model.specs.declared.read_fault.FaultCode.TheVariants.{Memory};
ghost use Rattle.mpd_model.specs.grammar.Grammar as spec;
ghost use Rattle.mpd_model.specs.grammar.Input.{Fails, Reads, slot_in};
ghost use Rattle.mpd_model.specs.grammar.Printable.{IsPrintable};
ghost use Rattle.mpd_model.specs.script.Program.{Program, IsBlockOf, IsLegal};
ghost use Rattle.mpd_model.specs.script.Tree.{block_of};

use crate::cursor::Tokens;
use crate::stmt::body;
use mpd_laws::reading::scripts_are_of_version;
use mpd_laws::round_trip::read_scripts_are_printable;
use mpd_model::{
    BLOCKS_MAX, DeclKind, FaultCode, LANGUAGE_MAX, RANKS_MAX, ReadFault, SCRIPT_MAX, Script,
    Symbol, Token,
};
use std::alloc::Global;

/// A version of the language, if it is one.
fn version_in(value: i64) -> Option<usize>
    ensures { result ≡ spec.version_in value }
{
    if 1 <= value && value <= LANGUAGE_MAX as i64 {
        Some(value as usize)
    } else {
        None
    }
}

/// The number after `mpd`. What follows is in that version.
#[tactic(auto, unfolding(mpd_model::specs::grammar::Grammar::version))]
fn version(tokens: &mut Tokens<'_>) -> Result<(), ReadFault>
    ensures { Reads (spec.version tokens.old) result tokens.new }
{
    match tokens.peek() {
        Token::Number(value) => match version_in(value) {
            Some(version) => {
                tokens.set_version(version);
                tokens.advance();
                Ok(())
            }
            None => Err(tokens.fail(FaultCode::NotInVersion)),
        },
        _ => Err(tokens.refuse()),
    }
}

/// A number of ranks, if it is one.
fn rank_count(value: i64) -> Option<usize>
    ensures value { result ≡ spec.rank_count value }
    ensures within { IfSome result (λ n. (1 ≤ n) × (n ≤ RANKS_MAX)) }
{
    if 1 <= value && value <= RANKS_MAX as i64 {
        Some(value as usize)
    } else {
        None
    }
}

/// The number after `ranks`.
#[tactic(auto, unfolding(mpd_model::specs::grammar::Grammar::ranks))]
fn ranks(tokens: &mut Tokens<'_>) -> Result<usize, ReadFault>
    ensures value { Reads (spec.ranks tokens.old) result tokens.new }
    ensures within { IfOk result (λ n. (1 ≤ n) × (n ≤ RANKS_MAX)) }
{
    match tokens.peek() {
        Token::Number(value) => match rank_count(value) {
            Some(count) => {
                tokens.advance();
                Ok(count)
            }
            None => Err(tokens.fail(FaultCode::BadRanks)),
        },
        _ => Err(tokens.refuse()),
    }
}

/// A number that is no less than 0.
pub(crate) fn natural(value: i64) -> Option<usize>
    ensures { result ≡ spec.natural value }
{
    if value < 0 {
        None
    } else {
        Some(value as usize)
    }
}

/// The size of an array, and what is after it.
#[tactic(auto, unfolding(mpd_model::specs::grammar::Grammar::array_size))]
fn array_size<'a>(tokens: &mut Tokens<'a>, kind: DeclKind, name: &'a [u8]) -> Result<(), ReadFault>
    requires ascii { IsAscii name.now }
    requires new { slot_in tokens.old.decls name.now ≡ None }
    ensures { Reads (spec.array_size kind name.now tokens.old) result tokens.new }
{
    match tokens.peek() {
        Token::Number(value) => match natural(value) {
            Some(size) => {
                let place = tokens.place();
                tokens.add(kind, name, Some(size), place)?;
                tokens.advance();
                tokens.expect(Symbol::SquareClose)?;
                tokens.expect(Symbol::Semicolon)
            }
            None => Err(tokens.refuse()),
        },
        _ => Err(tokens.refuse()),
    }
}

/// What is after a name without a size. A fault of it is at the place of the name.
#[tactic(auto, unfolding(mpd_model::specs::grammar::Grammar::single))]
fn single<'a>(
    tokens: &mut Tokens<'a>,
    kind: DeclKind,
    name: &'a [u8],
    place: usize,
) -> Result<(), ReadFault>
    requires ascii { IsAscii name.now }
    requires new { slot_in tokens.old.decls name.now ≡ None }
    ensures { Reads (spec.single kind name.now place tokens.old) result tokens.new }
{
    tokens.add(kind, name, None, place)?;
    tokens.expect(Symbol::Semicolon)
}

/// The name in a declaration, and what is after it.
#[tactic(auto, unfolding(mpd_model::specs::grammar::Grammar::declarator))]
fn declarator(tokens: &mut Tokens<'_>, kind: DeclKind) -> Result<(), ReadFault>
    ensures { Reads (spec.declarator kind tokens.old) result tokens.new }
{
    let name = tokens.spelling();
    let place = tokens.place();
    tokens.fresh()?;
    tokens.advance();
    if tokens.eat(Symbol::SquareOpen) {
        array_size(tokens, kind, name)
    } else {
        single(tokens, kind, name, place)
    }
}

/// What follows `var` or `req`.
#[tactic(auto, unfolding(mpd_model::specs::grammar::Grammar::decl))]
fn decl(tokens: &mut Tokens<'_>, kind: DeclKind) -> Result<(), ReadFault>
    ensures { Reads (spec.decl kind tokens.old) result tokens.new }
{
    match tokens.peek() {
        Token::Name => declarator(tokens, kind),
        _ => Err(tokens.refuse()),
    }
}

/// What a token declares, if it begins a declaration.
fn declares(token: Token) -> Option<DeclKind>
    ensures { result ≡ spec.declares token }
{
    match token {
        Token::Is(Symbol::Var) => Some(DeclKind::Variable),
        Token::Is(Symbol::Req) => Some(DeclKind::Handle),
        _ => None,
    }
}

/// The declarations, up to what begins none.
#[tactic(auto, using(crate::proofs::BlockSteps::declarations))]
fn decls(tokens: &mut Tokens<'_>) -> Result<(), ReadFault>
    ensures { Reads (spec.decls tokens.old) result tokens.new }
{
    let most = tokens.turns();
    for _turn in 0..most {
        let Some(kind) = declares(tokens.peek()) else {
            return Ok(());
        };
        tokens.advance();
        decl(tokens, kind)?;
    }
    Err(tokens.refuse())
}

/// The version, the number of ranks and the declarations.
#[tactic(auto, unfolding(mpd_model::specs::grammar::Grammar::header))]
fn header(tokens: &mut Tokens<'_>) -> Result<usize, ReadFault>
    ensures value { Reads (spec.header tokens.old) result tokens.new }
    ensures within { IfOk result (λ n. (1 ≤ n) × (n ≤ RANKS_MAX)) }
{
    tokens.expect(Symbol::Mpd)?;
    version(tokens)?;
    tokens.expect(Symbol::Semicolon)?;
    tokens.expect(Symbol::Ranks)?;
    let count = ranks(tokens)?;
    tokens.expect(Symbol::Semicolon)?;
    decls(tokens)?;
    Ok(count)
}

#[tactic(auto, unfolding(mpd_model::specs::grammar::Grammar::script))]
fn script(alloc: Global, mut tokens: Tokens<'_>) -> Result<Script, ReadFault>
    requires decls { tokens.decls ≡ [] }
    requires lines { tokens.lines ≡ [] }
    requires of_version { (p : Program) → spec.read_of (spec.script tokens) ≡ Ok p → (1 ≤ p.version) × (p.version ≤ LANGUAGE_MAX) × IsBlockOf p.version (block_of p.body) }
    requires printable { (p : Program) → spec.read_of (spec.script tokens) ≡ Ok p → IsLegal p → IsPrintable p }
    ensures ok { IfOk result (λ s. spec.read_of (spec.script tokens.entry) ≡ Ok s) }
    ensures err { IfErr result (Fails (spec.read_of (spec.script tokens.entry))) }
{
    let ranks = header(&mut tokens)?;
    let body = body(alloc, &mut tokens, BLOCKS_MAX, false)?;
    let version = tokens.version();
    let (decls, lines) = tokens.finish();
    Ok(Script {
        version,
        ranks,
        decls,
        body,
        lines,
    })
}

fn is_text(b: u8) -> bool
    ensures { result ≡ spec.is_text b }
{
    b == b'\t' || b == b'\n' || b == b'\r' || (32 <= b && b <= 126)
}

/// How many bytes at the front may stand in a text.
pub(crate) fn text_len(text: &[u8]) -> usize
    ensures value { result ≡ prefix_len spec.is_text text.now }
    ensures within { result ≤ length text.now }
    ensures ascii { result ≡ length text.now → IsAscii text.now }
{
    let mut end = 0;
    while end < text.len() && is_text(text[end]) {
        end += 1;
    }
    end
}

/// The script that a text spells (docs/LANGUAGE.md, "Grammar"), or the text's leftmost fault
/// (docs/LANGUAGE.md, "Faults"). Where memory is refused the fault is `Memory` at 0, and says nothing of the text.
/// Any bytes may be given.
#[tactic(auto, unfolding(mpd_model::specs::grammar::Grammar::reading))]
pub fn read(alloc: Global, text: &[u8]) -> Result<Script, ReadFault>
    ensures ok { IfOk result (λ s. spec.reading text.now ≡ Ok s) }
    ensures err { IfErr result (λ f. f.code ≢ Memory → spec.reading text.now ≡ Err f) }
    ensures memory { IfErr result (λ f. f.code ≡ Memory → f.place ≡ 0) }
{
    if text.len() > SCRIPT_MAX {
        return Err(ReadFault {
            code: FaultCode::TooLong,
            place: SCRIPT_MAX,
        });
    }
    let place = text_len(text);
    if place < text.len() {
        return Err(ReadFault {
            code: FaultCode::NotText,
            place,
        });
    }
    scripts_are_of_version();
    read_scripts_are_printable();
    script(alloc, Tokens::new(alloc, text))
}
