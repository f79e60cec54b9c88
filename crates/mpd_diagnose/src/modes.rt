//! Modes that are diagnosed in turn, and what their verdicts come to (docs/FORMATS.md, "Several
//! modes").

ghost use Rattle.std.specs.Prelude.{◌≡◌, ◌++◌, ◌∷◌, [], IfOk, OnOk};
ghost use Rattle.mpd_diagnose.specs.Modes as spec;

use crate::commands::full_command;
use crate::told::push_in_mode;
use mpd_lines::{Verdict, push_folded};
use mpd_model::Mode;
use std::alloc::{AllocError, Global};

/// The modes that are tried up to so many slots: rendezvous, `slots:1` and more, and buffered. An
/// `Err` is want of memory.
pub fn modes_up_to(alloc: Global, most: usize) -> Result<Vec<Mode>, AllocError>
    ensures { IfOk result (λ modes. modes.items ≡ spec.modes_up_to most) }
{
    let mut modes = Vec::new(alloc);
    push_mode(&mut modes, Mode::Rendezvous)?;
    push_slots(&mut modes, most)?;
    push_mode(&mut modes, Mode::Buffered)?;
    Ok(modes)
}

/// Adds a mode.
fn push_mode(modes: &mut Vec<Mode>, mode: Mode) -> Result<(), AllocError>
    ensures { OnOk result (modes.new.items ≡ modes.old.items ++ mode ∷ []) }
{
    modes.push(mode)?;
    Ok(())
}

/// Adds the modes of 1 slot up to so many.
fn push_slots(modes: &mut Vec<Mode>, most: usize) -> Result<(), AllocError>
    ensures { OnOk result (modes.new.items ≡ modes.old.items ++ spec.slots_up_to most) }
{
    for before in 0..most {
        push_mode(modes, Mode::Slots(before + 1))?;
    }
    Ok(())
}

/// Whether a verdict is this one.
fn is_same(verdict: Verdict, wanted: Verdict) -> bool
    ensures { result ≡ spec.same_verdict verdict wanted }
{
    matches!(
        (verdict, wanted),
        (Verdict::Good, Verdict::Good)
            | (Verdict::Bad, Verdict::Bad)
            | (Verdict::NotWhole, Verdict::NotWhole)
    )
}

/// The place of the first verdict that is this one.
pub fn first_of(verdicts: &[Verdict], wanted: Verdict) -> Option<usize>
    ensures { result ≡ spec.first_of wanted verdicts.now }
{
    for (place, verdict) in verdicts.iter().enumerate() {
        if is_same(*verdict, wanted) {
            return Some(place);
        }
    }
    None
}

/// What verdicts come to: bad where one is, else not whole where one is, else good.
pub fn worst_of(verdicts: &[Verdict]) -> Verdict
    ensures { result ≡ spec.worst verdicts.now }
{
    if first_of(verdicts, Verdict::Bad).is_some() {
        return Verdict::Bad;
    }
    if first_of(verdicts, Verdict::NotWhole).is_some() {
        return Verdict::NotWhole;
    }
    Verdict::Good
}

/// Which verdicts are this one.
fn which(alloc: Global, verdicts: &[Verdict], wanted: Verdict) -> Result<Vec<bool>, AllocError>
    ensures { IfOk result (λ flags. flags.items ≡ spec.which wanted verdicts.now) }
{
    let mut flags = Vec::new(alloc);
    for verdict in verdicts {
        flags.push(is_same(*verdict, wanted))?;
    }
    Ok(flags)
}

/// Adds the mode at a place, where true stands there.
fn push_mode_if(
    chosen: &mut Vec<Mode>,
    modes: &[Mode],
    flags: &[bool],
    place: usize,
) -> Result<(), AllocError>
    ensures { OnOk result (chosen.new.items ≡ chosen.old.items ++ spec.mode_if modes.now flags.now place) }
{
    if flags.get(place).copied().unwrap_or(false) {
        let mode = modes.get(place).copied().unwrap_or(Mode::Rendezvous);
        chosen.push(mode)?;
    }
    Ok(())
}

/// Of some modes those at whose places true stands.
fn chosen(alloc: Global, modes: &[Mode], flags: &[bool]) -> Result<Vec<Mode>, AllocError>
    ensures { IfOk result (λ ms. ms.items ≡ spec.chosen modes.now flags.now) }
{
    let mut chosen = Vec::new(alloc);
    let count = modes.len();
    for place in 0..count {
        push_mode_if(&mut chosen, modes, flags, place)?;
    }
    Ok(chosen)
}

/// Those whose verdict is this one.
fn chosen_by(
    alloc: Global,
    modes: &[Mode],
    verdicts: &[Verdict],
    wanted: Verdict,
) -> Result<Vec<Mode>, AllocError>
    ensures { IfOk result (λ ms. ms.items ≡ spec.chosen modes.now (spec.which wanted verdicts.now)) }
{
    let flags = which(alloc, verdicts, wanted)?;
    chosen(alloc, modes, &flags)
}

/// The modes that something is told of: those whose verdict is the worst, and where that is good
/// those where calls can be left over.
fn noticed(
    alloc: Global,
    worst: Verdict,
    modes: &[Mode],
    verdicts: &[Verdict],
    left: &[bool],
) -> Result<Vec<Mode>, AllocError>
    ensures { IfOk result (λ ms. ms.items ≡ spec.noticed worst modes.now verdicts.now left.now) }
{
    match worst {
        Verdict::Good => chosen(alloc, modes, left),
        Verdict::Bad => chosen_by(alloc, modes, verdicts, Verdict::Bad),
        Verdict::NotWhole => chosen_by(alloc, modes, verdicts, Verdict::NotWhole),
    }
}

/// Adds the modes after the first.
fn push_further_modes(out: &mut String, modes: &[Mode]) -> Result<(), AllocError> {
    for mode in modes {
        write!(out, ", {mode}")?;
    }
    Ok(())
}

/// Adds some modes.
fn push_in_modes(out: &mut String, modes: &[Mode]) -> Result<(), AllocError> {
    match modes {
        [] => Ok(()),
        [mode, further @ ..] => {
            push_in_mode(out, *mode)?;
            push_further_modes(out, further)
        }
    }
}

/// Adds a line of some modes, where there are some.
fn push_modes_line(out: &mut String, before: &str, modes: &[Mode]) -> Result<(), AllocError> {
    if modes.is_empty() {
        return Ok(());
    }
    out.push_str(before)?;
    push_in_modes(out, modes)?;
    out.push('\n')
}

/// That all modes are good, and in which of them calls can be left over.
fn all_good(alloc: Global, left: &[Mode]) -> Result<String, AllocError> {
    let mut out = String::new(alloc);
    out.push_str("no run hangs or traps in any of these modes\n")?;
    push_modes_line(&mut out, "calls can be left over", left)?;
    Ok(out)
}

/// That nothing bad was found, and which modes aren't whole.
fn not_all_tried(alloc: Global, modes: &[Mode]) -> Result<String, AllocError> {
    let mut out = String::new(alloc);
    push_modes_line(
        &mut out,
        "no hang and no trap was found, but not everything was tried",
        modes,
    )?;
    Ok(out)
}

/// What is said of these modes, by what all verdicts come to.
fn said_of(alloc: Global, worst: Verdict, modes: &[Mode]) -> Result<String, AllocError> {
    match worst {
        Verdict::Good => all_good(alloc, modes),
        Verdict::Bad => Ok(String::new(alloc)),
        Verdict::NotWhole => not_all_tried(alloc, modes),
    }
}

/// A script that is diagnosed in several modes.
#[derive(Clone, Copy)]
pub struct ScriptInModes<'a> {
    /// Its file, as it was given.
    pub file: &'a str,
    /// How many ranks it has, where that was asked for.
    pub ranks: Option<usize>,
    /// Whether calls that can be left over count.
    pub strict: bool,
}

/// The command that diagnoses the script in the first of some modes.
fn first_command(
    alloc: Global,
    script: ScriptInModes<'_>,
    modes: &[Mode],
) -> Result<Vec<u8>, AllocError> {
    match modes {
        [] => Ok(Vec::new(alloc)),
        [mode, ..] => full_command(alloc, script.file, script.ranks, *mode, script.strict),
    }
}

/// What is told after the lines of modes, of those that something is told of, by what all verdicts
/// come to.
fn closing_by(
    alloc: Global,
    script: ScriptInModes<'_>,
    worst: Verdict,
    modes: &[Mode],
) -> Result<Vec<u8>, AllocError> {
    let said = said_of(alloc, worst, modes)?;
    let command = first_command(alloc, script, modes)?;
    let mut out = Vec::new(alloc);
    out.push(b'\n')?;
    push_folded(&mut out, said.as_bytes())?;
    out.extend_from_slice(&command)?;
    Ok(out)
}

/// What is told after the lines of modes, by their verdicts, and by whether calls can be left over
/// in each: what they come to, with the modes of which that is so, and the command that diagnoses
/// the first of these. Where all are good these are the modes where calls can be left over. An
/// `Err` is want of memory.
pub fn closing_of(
    alloc: Global,
    script: ScriptInModes<'_>,
    modes: &[Mode],
    verdicts: &[Verdict],
    left: &[bool],
) -> Result<Vec<u8>, AllocError> {
    let worst = worst_of(verdicts);
    let modes = noticed(alloc, worst, modes, verdicts, left)?;
    closing_by(alloc, script, worst, &modes)
}
