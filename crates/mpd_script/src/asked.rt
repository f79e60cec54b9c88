//! An expression by itself, as whoever debugs a script asks for it (docs/LANGUAGE.md, "Expressions").

ghost use Rattle.std.specs.Prelude.{◌≡◌, ◌≢◌, ◌<◌, ◌≤◌, ◌^◌, IfErr, IfOk, Err, IsAscii, Ok, length};
ghost use Rattle.mpd_model.specs.declared.limits.TheConstants.{CELLS_MAX, HANDLES_MAX};
ghost use Rattle.mpd_model.specs.declared.read_fault.FaultCode.TheVariants.{Memory};
ghost use Rattle.mpd_model.specs.grammar.Input.{Reads};
ghost use Rattle.mpd_model.specs.script.Declaration.{handles_in, variables_in};
ghost use Rattle.mpd_script.specs.Asked as spec;

use crate::cursor::Tokens;
use crate::expr::expression;
use crate::script::{natural, text_len};
use mpd_model::{Decl, Expr, FaultCode, ReadFault, SCRIPT_MAX, Token};
use std::alloc::Global;

/// An expression that stands by itself, and the number of a rank after it, if one is given.
#[derive(Drop)]
pub struct Asked {
    pub expr: Expr,
    pub rank: Option<usize>,
}

/// The tokens of a text where these are declared before it.
fn tokens_with<'a>(
    alloc: Global,
    decls: &'a [Decl],
    text: &'a [u8],
) -> Result<Tokens<'a>, ReadFault>
    requires small { length text.now < 2 ^ 32 }
    requires ascii { IsAscii text.now }
    requires variables { variables_in decls.now ≤ CELLS_MAX }
    requires handles { handles_in decls.now ≤ HANDLES_MAX }
    ensures value { IfOk result (λ t. t ≡ spec.start_with decls.now text.now) }
    ensures memory { IfErr result (λ f. (f.code ≡ Memory) × (f.place ≡ 0)) }
{
    let mut tokens = Tokens::new(alloc, text);
    for decl in decls {
        tokens.declare(decl)?;
    }
    Ok(tokens)
}

/// The number that comes next, if one does.
#[tactic(auto, unfolding(crate::specs::Asked::rank_behind))]
fn rank_behind(tokens: &mut Tokens<'_>) -> Result<Option<usize>, ReadFault>
    ensures { Reads (spec.rank_behind tokens.old) result tokens.new }
{
    match tokens.peek() {
        Token::Number(value) => {
            tokens.advance();
            Ok(natural(value))
        }
        _ => Ok(None),
    }
}

/// Nothing is left.
#[tactic(auto, unfolding(crate::specs::Asked::end))]
fn end(tokens: &Tokens<'_>) -> Result<(), ReadFault>
    ensures { Reads (spec.end tokens.now) result tokens.now }
{
    match tokens.peek() {
        Token::End => Ok(()),
        _ => Err(tokens.refuse()),
    }
}

/// An expression, a number or none, and no more.
#[tactic(auto, unfolding(crate::specs::Asked::asked))]
fn whole(alloc: Global, tokens: &mut Tokens<'_>) -> Result<Asked, ReadFault>
    ensures ok { IfOk result (λ a. spec.asked tokens.old ≡ Ok ((a.expr, a.rank), tokens.new)) }
    ensures err { IfErr result (λ f. f.code ≢ Memory → spec.asked tokens.old ≡ Err f) }
    ensures memory { IfErr result (λ f. f.code ≡ Memory → f.place ≡ 0) }
{
    let expr = expression(alloc, tokens)?;
    let rank = rank_behind(tokens)?;
    end(tokens)?;
    Ok(Asked { expr, rank })
}

/// The expression that a text spells, where names stand for what is declared, and the number of a rank after it, if one is given;
/// or the text's leftmost fault, as one of a script. Where memory is refused the fault is `Memory` at 0, and says nothing of the text.
/// Any bytes may be given.
#[tactic(auto, unfolding(crate::specs::Asked::asking))]
pub fn read_expression(alloc: Global, decls: &[Decl], text: &[u8]) -> Result<Asked, ReadFault>
    requires variables { variables_in decls.now ≤ CELLS_MAX }
    requires handles { handles_in decls.now ≤ HANDLES_MAX }
    ensures ok { IfOk result (λ a. spec.asking decls.now text.now ≡ Ok (a.expr, a.rank)) }
    ensures err { IfErr result (λ f. f.code ≢ Memory → spec.asking decls.now text.now ≡ Err f) }
    ensures memory { IfErr result (λ f. f.code ≡ Memory → f.place ≡ 0) }
{
    if text.len() > SCRIPT_MAX {
        return Err(ReadFault {
            code: FaultCode::TooLong,
            place: SCRIPT_MAX,
        });
    }
    let place = text_len(text);
    if place < text.len() {
        return Err(ReadFault {
            code: FaultCode::NotText,
            place,
        });
    }
    let mut tokens = tokens_with(alloc, decls, text)?;
    whole(alloc, &mut tokens)
}
