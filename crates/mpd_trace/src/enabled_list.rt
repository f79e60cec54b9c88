//! The enabled steps, as the trace word `enabled` is answered (docs/FORMATS.md, "Trace words").

ghost use Rattle.std.specs.Prelude.{◌≡◌, ◌++◌, IfOk, OnOk, string_bytes, codes};
ghost use Rattle.mpd_model.specs.texts.Texts.{line, steps_text};

use mpd_model::Step;
use std::alloc::{AllocError, Global};

/// The word `enabled` and the steps, as a line. An `Err` is want of memory.
pub fn listed(alloc: Global, steps: &[Step]) -> Result<String, AllocError>
    ensures { IfOk result (λ t. string_bytes t ≡ line (codes "enabled" ++ steps_text steps.now)) }
{
    let mut out = String::new(alloc);
    out.push_str("enabled")?;
    push_steps(&mut out, steps)?;
    out.push('\n')?;
    Ok(out)
}

/// Adds the steps: a space before the first, a comma and a space between two.
fn push_steps(out: &mut String, steps: &[Step]) -> Result<(), AllocError>
    ensures { OnOk result (string_bytes out.new ≡ string_bytes out.old ++ steps_text steps.now) }
{
    let Some((first, rest)) = steps.split_first() else {
        return Ok(());
    };
    write!(out, " {first}")?;
    for step in rest {
        write!(out, ", {step}")?;
    }
    Ok(())
}
