//! Places: variables and handles, and arrays at an index (docs/LANGUAGE.md, "Grammar").

ghost use Rattle.std.specs.Prelude.{◌≡◌};
ghost use Rattle.mpd_model.specs.grammar.Grammar as spec;
ghost use Rattle.mpd_model.specs.grammar.Input.{Reads};

use crate::cursor::Tokens;
use crate::expr::expression;
use mpd_model::{DeclKind, Place, ReadFault, Slot, Symbol, Target, Token};
use std::alloc::Global;

/// What a name stands for.
pub(crate) fn place_of(slot: Slot) -> Place
    ensures { result ≡ spec.place_of_slot slot }
{
    Place {
        declaration: slot.declaration,
        first: slot.first,
        cells: slot.size.unwrap_or(1),
    }
}

/// The bracket before the index of a place in an expression, which takes one of its budget.
#[tactic(auto, unfolding(mpd_model::specs::grammar::Grammar::bracket))]
pub(crate) fn bracket(tokens: &mut Tokens<'_>) -> Result<(), ReadFault>
    ensures { Reads (spec.bracket tokens.old) result tokens.new }
{
    if tokens.sees(Symbol::SquareOpen) {
        tokens.spend()
    } else {
        Err(tokens.refuse())
    }
}

/// What follows the name of a place that stands in no expression: the index of an array, an expression of its own.
pub(crate) fn index_outside(
    alloc: Global,
    tokens: &mut Tokens<'_>,
    slot: Slot,
) -> Result<Target, ReadFault>
    ensures { Reads (spec.index_outside (spec.place_of_slot slot) slot.size tokens.old) result tokens.new }
{
    let place = place_of(slot);
    if slot.size.is_none() {
        return Ok(Target { place, index: None });
    }
    tokens.expect(Symbol::SquareOpen)?;
    let index = expression(alloc, tokens)?;
    tokens.expect(Symbol::SquareClose)?;
    Ok(Target {
        place,
        index: Some(index),
    })
}

/// The place of the kind whose name comes next.
#[tactic(auto, unfolding(mpd_model::specs::grammar::Grammar::target))]
fn target(alloc: Global, tokens: &mut Tokens<'_>, kind: DeclKind) -> Result<Target, ReadFault>
    ensures { Reads (spec.target kind tokens.old) result tokens.new }
{
    let slot = tokens.seek(kind)?;
    tokens.advance();
    index_outside(alloc, tokens, slot)
}

/// The place of the kind that a statement names after its word.
#[tactic(auto, unfolding(mpd_model::specs::grammar::Grammar::statement_place))]
pub(crate) fn statement_place(
    alloc: Global,
    tokens: &mut Tokens<'_>,
    kind: DeclKind,
) -> Result<Target, ReadFault>
    ensures { Reads (spec.statement_place kind tokens.old) result tokens.new }
{
    match tokens.peek() {
        Token::Name => target(alloc, tokens, kind),
        _ => Err(tokens.refuse()),
    }
}

/// The declaration of the kind whose name comes next: the name stands for all of it.
#[tactic(auto, unfolding(mpd_model::specs::grammar::Grammar::statement_name))]
pub(crate) fn statement_name(tokens: &mut Tokens<'_>, kind: DeclKind) -> Result<Place, ReadFault>
    ensures { Reads (spec.statement_name kind tokens.old) result tokens.new }
{
    match tokens.peek() {
        Token::Name => {
            let slot = tokens.seek(kind)?;
            tokens.advance();
            Ok(place_of(slot))
        }
        _ => Err(tokens.refuse()),
    }
}
