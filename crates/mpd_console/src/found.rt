//! Runs that are looked for, and laid ahead of a session: `deadlock`, `trap`, `follow`; and the last
//! choice, for `undo-choice`.

ghost use Rattle.std.specs.Prelude.{◌≡◌, IfOk, IfSome, OnErr, Some};
ghost use Rattle.mpd_runs.specs.Seek.{LiesAhead, FoundLies};
ghost use Rattle.mpd_runs.specs.LastChoice.{last_choice as last_choice_of};
ghost use Rattle.mpd_console.specs.Says as spec;
ghost use Rattle.mpd_console.specs.Says.{IsFoundFrom, LaidBy, SoughtFrom, FollowedBy};

use crate::told::{Laid, Told};
use mpd_runs::{Search, Sought, Way, WholeRun, last_choice, numbered_run, seek as seek_run};
use mpd_session::Session;
use std::alloc::{AllocError, Global};

/// Has the steps of a run lie ahead.
#[tactic(auto, using(crate::proofs::DoneLemmas::laying))]
fn lay(session: &mut Session<'_>, number: Option<usize>, run: WholeRun) -> Told
    requires lies { LiesAhead session.old.trail run }
    ensures { LaidBy session.old number run (Some result) session.new }
{
    let depth = session.debugger().depth();
    let ahead = run.steps.items.len().saturating_sub(depth);
    session.lay(run.steps.items);
    Told::Laid(Laid {
        number,
        ending: run.ending,
        ahead,
    })
}

/// The search from where a session stands.
#[tactic(auto, using(crate::proofs::DoneLemmas::seeking))]
fn sought_from(alloc: Global, session: &Session<'_>, way: Way) -> Result<Search, AllocError>
    ensures found { IfOk result (λ s. IsFoundFrom s.scope session.now way s.sought) }
    ensures lies { IfOk result (λ s. FoundLies session.now.trail s.sought) }
{
    let debugger = session.debugger();
    debugger.state_is_reached();
    seek_run(alloc, debugger, way)
}

/// Looks for the first run that ends so, and has its steps lie ahead. An `Err` is want of memory,
/// and then nothing has changed.
#[tactic(auto, using(crate::proofs::DoneLemmas::sought))]
pub(crate) fn seek(alloc: Global, session: &mut Session<'_>, way: Way) -> Result<Told, AllocError>
    ensures sought { IfOk result (λ told. SoughtFrom session.old way (Some told) session.new) }
    ensures err { OnErr result (session.new ≡ session.old) }
{
    let Search {
        scope,
        states: _,
        sought,
    } = sought_from(alloc, session, way)?;
    match sought {
        Sought::Found(run) => Ok(lay(session, None, run)),
        Sought::Nothing(counts) => Ok(Told::NoneEnds { way, scope, counts }),
    }
}

/// The run of a number from where a session stands.
#[tactic(auto, using(crate::proofs::DoneLemmas::seeking))]
fn numbered_from(
    alloc: Global,
    session: &Session<'_>,
    number: usize,
) -> Result<Option<WholeRun>, AllocError>
    ensures found { IfOk result (λ o. o ≡ spec.numbered_from session.now number) }
    ensures lies { IfOk result (λ o. IfSome o (LiesAhead session.now.trail)) }
{
    let debugger = session.debugger();
    debugger.state_is_reached();
    numbered_run(alloc, debugger, number)
}

/// Has the steps of the run of a number lie ahead. An `Err` is want of memory, and then nothing has
/// changed.
#[tactic(auto, using(crate::proofs::DoneLemmas::followed))]
pub(crate) fn follow(
    alloc: Global,
    session: &mut Session<'_>,
    number: usize,
) -> Result<Told, AllocError>
    ensures followed { IfOk result (λ told. FollowedBy session.old number (spec.numbered_from session.old number) (Some told) session.new) }
    ensures err { OnErr result (session.new ≡ session.old) }
{
    match numbered_from(alloc, session, number)? {
        Some(run) => Ok(lay(session, Some(number), run)),
        None => Ok(Told::NoRun),
    }
}

/// The last choice that was made in a session, by the steps before it. An `Err` is want of memory.
#[tactic(auto, using(crate::proofs::DoneLemmas::undoing))]
pub(crate) fn last_choice_in(
    alloc: Global,
    session: &Session<'_>,
) -> Result<Option<usize>, AllocError>
    ensures { IfOk result (λ o. o ≡ last_choice_of session.now.trail) }
{
    last_choice(alloc, session.debugger())
}
