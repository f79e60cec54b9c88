//! Copies of what ranks hold.

ghost use Rattle.std.specs.Prelude.{◌≡◌, IfOk};

use crate::holding::{Held, HeldCalls, HeldValues, Holding, HoldingList};
use std::alloc::{AllocError, Global};

/// What is held, of its own.
fn copy_held(alloc: Global, held: &Held) -> Result<Held, AllocError>
    ensures { IfOk result (λ copy. copy ≡ held.now) }
{
    match held {
        Held::Values(values) => Ok(Held::Values(HeldValues {
            items: Vec::from_slice(alloc, &values.items)?,
        })),
        Held::Calls(calls) => Ok(Held::Calls(HeldCalls {
            items: Vec::from_slice(alloc, &calls.items)?,
        })),
    }
}

/// What is held in a declaration, of its own.
fn copy_holding(alloc: Global, holding: &Holding) -> Result<Holding, AllocError>
    ensures { IfOk result (λ copy. copy ≡ holding.now) }
{
    Ok(Holding {
        declaration: holding.declaration,
        held: copy_held(alloc, &holding.held)?,
    })
}

/// What is held in several, of its own. `Err` means that memory was refused.
pub fn copy_holdings(alloc: Global, holdings: &[Holding]) -> Result<HoldingList, AllocError>
    ensures { IfOk result (λ copy. copy ≡ holdings.now) }
{
    let mut items = Vec::new(alloc);
    for holding in holdings {
        items.push(copy_holding(alloc, holding)?)?;
    }
    Ok(HoldingList { items })
}
