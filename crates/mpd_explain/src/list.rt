//! Lists that grow.

ghost use Rattle.std.specs.Prelude.{◌≡◌, ◌++◌, [], ◌∷◌, if◌then◌else◌, OnOk};

use std::alloc::AllocError;

/// Adds a number, if it is chosen. `Err` means that memory was refused.
pub fn push_if(numbers: &mut Vec<usize>, number: usize, is_chosen: bool) -> Result<(), AllocError>
    ensures { OnOk result (numbers.new.items ≡ numbers.old.items ++ (if is_chosen then number ∷ [] else [])) }
{
    if is_chosen {
        numbers.push(number)?;
    }
    Ok(())
}
