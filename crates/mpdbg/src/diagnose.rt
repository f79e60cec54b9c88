//! `mpdbg diagnose`: whether the runs of a script can hang or trap, how, and where that was decided
//! (docs/FORMATS.md, "Diagnosis").

ghost use Rattle.std.specs.Prelude.{◌≡◌, ◌≤◌, Some, None};
ghost use Rattle.mpd_trace.specs.Ranks.{AreRanks};
ghost use Rattle.mpd_trace.specs.Spans.{IsSpan};

use crate::tell::Fault;
use mpd_code::{Code, Subject};
use mpd_diagnose::{
    Diagnosis, DiagnosisPlan, Named, ScriptInModes, closing_of, diagnose, diagnosis_text,
    full_command, leaves, mode_line, modes_up_to, push_verdict, ranks_line, verdict_of,
    verdict_text, worst_of,
};
use mpd_explore::Witnesses;
use mpd_json::diagnosis_json;
use mpd_lines::{EngineFault, Verdict, write_all};
use mpd_model::{Mode, STEPS_MAX, Sink};
use mpd_options::Form;
use mpd_outcomes::StateLimits;
use mpd_runs::{FUEL, STATES_KEPT, STATES_VISITED};
use mpd_trace::{RankSpan, code_of_text};
use std::alloc::{AllocError, Global};

/// How many states the search for the ways to end comes to at most, kept or not.
const VISITED_MAX: usize = 4_000_000;

/// How many runs are drawn, where there are more than that search comes to.
const DRAWN: usize = 4_096;

/// A script as a diagnosis tells of it: its text, whose marks stand beside lines, the name of its
/// file, and how many ranks it has, if that is asked for.
#[derive(Clone, Copy)]
pub(crate) struct ToldScript<'s> {
    pub(crate) text: &'s [u8],
    pub(crate) file: &'s str,
    pub(crate) ranks: Option<usize>,
}

/// How a script is diagnosed: by limits that nobody has to know.
fn plan_of() -> DiagnosisPlan
    ensures limits { result.limits ≡ record { fuel = FUEL; kept = STATES_KEPT; visited = VISITED_MAX; witnesses = Witnesses.OfNone; until = None } }
    ensures blamed { result.blamed ≡ STATES_VISITED }
    ensures drawn { result.drawn ≡ DRAWN }
{
    DiagnosisPlan {
        limits: StateLimits {
            fuel: FUEL,
            kept: STATES_KEPT,
            visited: VISITED_MAX,
            witnesses: Witnesses::OfNone,
            until: None,
        },
        blamed: STATES_VISITED,
        drawn: DRAWN,
    }
}

/// How a diagnosis is told, and judged.
#[derive(Clone, Copy)]
pub(crate) struct Telling {
    /// Whether calls that can be left over count.
    pub(crate) strict: bool,
    /// How each diagnosis is written.
    pub(crate) form: Form,
}

/// A diagnosis as JSON.
fn json_of(
    alloc: Global,
    subject: Subject<'_>,
    text: &[u8],
    diagnosis: &Diagnosis,
    verdict: Verdict,
) -> Result<Vec<u8>, AllocError> {
    let told = mpd_json::ToldScript {
        code: subject.code,
        mode: subject.mode,
        text,
    };
    let json = diagnosis_json(alloc, told, diagnosis, verdict)?;
    Ok(json.into_bytes())
}

/// A diagnosis as text.
fn text_of(
    alloc: Global,
    subject: Subject<'_>,
    script: ToldScript<'_>,
    diagnosis: &Diagnosis,
) -> Result<Vec<u8>, AllocError> {
    let named = Named {
        script: script.text,
        decls: subject.code.decls(),
        file: script.file,
        ranks: script.ranks,
        mode: subject.mode,
    };
    diagnosis_text(alloc, named, FUEL, diagnosis)
}

/// Says whether the runs of the script of a file can hang or trap, and answers the verdict; that
/// calls can be left over counts where `strict` says so.
pub(crate) fn diagnose_script<'a, W: Sink>(
    alloc: Global,
    subject: Subject<'_>,
    script: ToldScript<'_>,
    telling: Telling,
    sink: &mut W,
) -> Result<Verdict, Fault<'a>> {
    let diagnosis = diagnose(alloc, subject, plan_of())?;
    let verdict = verdict_of(&diagnosis, telling.strict);
    let told = match telling.form {
        Form::Text => text_of(alloc, subject, script, &diagnosis)?,
        Form::Json => json_of(alloc, subject, script.text, &diagnosis, verdict)?,
    };
    write_told(sink, &told)?;
    Ok(verdict)
}

/// What becomes of the runs of a script, as a search with these limits finds it: a line for each
/// thing that is said. No step that decides is looked for, and no run is drawn.
pub(crate) fn verdict_of_runs<'a>(
    alloc: Global,
    subject: Subject<'_>,
    limits: StateLimits,
) -> Result<String, Fault<'a>>
    requires { limits.fuel ≤ STEPS_MAX }
{
    let plan = DiagnosisPlan {
        limits,
        blamed: 0,
        drawn: 0,
    };
    let diagnosis = diagnose(alloc, subject, plan)?;
    let verdict = verdict_text(alloc, subject.mode, limits.fuel, &diagnosis)?;
    Ok(verdict)
}

/// Writes what is told.
fn write_told<'a, W: Sink>(sink: &mut W, told: &[u8]) -> Result<(), Fault<'a>> {
    if write_all(sink, told).is_err() {
        return Err(Fault::from(EngineFault::WriteFailed));
    }
    Ok(())
}

/// A script that is diagnosed for several numbers of ranks: its text, which is that of a script,
/// and how it is named.
#[derive(Clone, Copy)]
pub(crate) struct SpannedScript<'s> {
    pub(crate) text: &'s [u8],
    pub(crate) file: &'s str,
    pub(crate) mode: Mode,
    pub(crate) telling: Telling,
}

/// Says what the runs of a script come to for a number of ranks, by a line, and answers the
/// verdict.
fn diagnose_number<'a, W: Sink>(
    alloc: Global,
    script: SpannedScript<'_>,
    ranks: usize,
    sink: &mut W,
) -> Result<Verdict, Fault<'a>>
    requires { AreRanks (Some ranks) }
{
    let Ok(code) = code_of_text(alloc, script.text, ranks) else {
        return Err(Fault::from(EngineFault::Memory));
    };
    let subject = Subject {
        code: &code,
        mode: script.mode,
    };
    let diagnosis = diagnose(alloc, subject, plan_of())?;
    let verdict = verdict_of(&diagnosis, script.telling.strict);
    let told = match script.telling.form {
        Form::Text => ranks_line(alloc, ranks, script.mode, &diagnosis)?,
        Form::Json => json_of(alloc, subject, script.text, &diagnosis, verdict)?,
    };
    write_told(sink, &told)?;
    Ok(verdict)
}

/// Adds a verdict to others.
fn add(verdicts: &mut Vec<Verdict>, verdict: Verdict) -> Result<(), AllocError> {
    verdicts.push(verdict)?;
    Ok(())
}

/// Adds whether calls can be left over in a mode.
fn add_flag(flags: &mut Vec<bool>, flag: bool) -> Result<(), AllocError> {
    flags.push(flag)?;
    Ok(())
}

/// Says by a line each what the runs of a script come to for several numbers of ranks, and then how
/// to see more of the first that is bad. Answers what the verdicts come to. Each line is written as
/// soon as it is known.
pub(crate) fn diagnose_each<'a, W: Sink>(
    alloc: Global,
    script: SpannedScript<'_>,
    span: RankSpan,
    sink: &mut W,
) -> Result<Verdict, Fault<'a>>
    requires { IsSpan span }
{
    let mut verdicts = Vec::new(alloc);
    let mut first_bad = None;
    for ranks in span.first..span.last + 1 {
        let verdict = diagnose_number(alloc, script, ranks, sink)?;
        if verdict == Verdict::Bad && first_bad.is_none() {
            first_bad = Some(ranks);
        }
        add(&mut verdicts, verdict)?;
    }
    if let (Some(ranks), Form::Text) = (first_bad, script.telling.form) {
        let ranks = Some(ranks);
        let strict = script.telling.strict;
        let more = full_command(alloc, script.file, ranks, script.mode, strict)?;
        write_told(sink, b"\n")?;
        write_told(sink, &more)?;
    }
    Ok(worst_of(&verdicts))
}

/// What is told of a mode, and what it comes to.
#[derive(Drop)]
struct ToldMode {
    text: Vec<u8>,
    verdict: Verdict,
    /// Whether calls can be left over.
    leaves: bool,
}

/// Diagnoses a script in a mode, to be told beside others.
fn diagnose_mode(
    alloc: Global,
    subject: Subject<'_>,
    text: &[u8],
    telling: Telling,
) -> Result<ToldMode, AllocError> {
    let diagnosis = diagnose(alloc, subject, plan_of())?;
    let verdict = verdict_of(&diagnosis, telling.strict);
    let text = match telling.form {
        Form::Text => mode_line(alloc, subject.mode, &diagnosis)?,
        Form::Json => json_of(alloc, subject, text, &diagnosis, verdict)?,
    };
    Ok(ToldMode {
        text,
        verdict,
        leaves: leaves(&diagnosis),
    })
}

/// A script that is diagnosed in several modes, with its text.
#[derive(Clone, Copy)]
pub(crate) struct ToldInModes<'s> {
    pub(crate) named: ScriptInModes<'s>,
    pub(crate) text: &'s [u8],
    pub(crate) form: Form,
}

/// Says by a line each what the runs of a script come to in rendezvous, with 1 slot and more up to
/// `most`, and in buffered, and then how to see more of the worst mode. Answers what the verdicts
/// come to. Each line is written as soon as it is known.
pub(crate) fn diagnose_modes<'a, W: Sink>(
    alloc: Global,
    code: &Code,
    script: ToldInModes<'_>,
    most: usize,
    sink: &mut W,
) -> Result<Verdict, Fault<'a>> {
    let modes = modes_up_to(alloc, most)?;
    let telling = Telling {
        strict: script.named.strict,
        form: script.form,
    };
    let mut verdicts = Vec::new(alloc);
    let mut left = Vec::new(alloc);
    for mode in &modes {
        let subject = Subject { code, mode: *mode };
        let told = diagnose_mode(alloc, subject, script.text, telling)?;
        write_told(sink, &told.text)?;
        add(&mut verdicts, told.verdict)?;
        add_flag(&mut left, told.leaves)?;
    }
    if let Form::Text = script.form {
        let more = closing_of(alloc, script.named, &modes, &verdicts, &left)?;
        write_told(sink, &more)?;
    }
    Ok(worst_of(&verdicts))
}
