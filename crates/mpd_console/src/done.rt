//! What a word does with a session: what it did, and the session after it (docs/CONSOLE.md).

ghost use Rattle.std.specs.Prelude.{◌≡◌, Some, IfOk, IfSome, OnOk, OnErr, option_map};
ghost use Rattle.mpd_explain.specs.Steps.{placed_step_of};
ghost use Rattle.mpd_runs.specs.LastChoice.{last_choice as last_choice_of};
ghost use Rattle.mpd_session.specs.Respond.{respond};
ghost use Rattle.mpd_console.specs.declared.told.Told.TheVariants as told;
ghost use Rattle.mpd_console.specs.Says as spec;
ghost use Rattle.mpd_console.specs.Says.{AlongBy, BlamedAs, BlamedBy, CarriedBy, Does, UndoneBy, asking, carried_of};

use crate::along::Along;
use crate::blamed::{Decider, decider_in};
use crate::carried::{along_told, carried_by};
use crate::found::{follow, last_choice_in, seek};
use crate::lead::{Lead, lead_of};
use crate::looks::sight_of;
use crate::moves::{Doing, doing_of, goto_command};
use crate::told::{Blamed, Carried, Sight, Told};
use mpd_blame::{Blame, Decided, PlacedBlame};
use mpd_core::Core;
use mpd_explain::{PlacedStep, placed_step};
use mpd_model::Step;
use mpd_session::{Command, Request, Session};
use mpd_vocabulary::Word;
use std::alloc::{AllocError, Global};

/// A word that is done.
#[derive(Drop)]
pub struct Done {
    /// What it did; none if memory for that was refused.
    pub told: Option<Told>,
    /// The step that it took, on the state before it; none if it took none that is known.
    pub(crate) step: Option<PlacedStep>,
}

/// A request that is done.
#[derive(Drop)]
struct Reached {
    /// What it came to; none if memory for that was refused.
    carried: Option<Carried>,
    /// The step that it took, on the state before it; none if it took none that is known.
    step: Option<PlacedStep>,
}

/// What is known of a word before it is done.
#[tactic(auto, using(crate::proofs::DoneLemmas::leading))]
fn lead_in(alloc: Global, session: &Session<'_>, word: Word) -> Result<Lead, AllocError>
    ensures { IfOk result (λ lead. lead ≡ spec.lead_in session.now word) }
{
    let debugger = session.debugger();
    debugger.state_is_reached();
    lead_of(alloc, debugger, word)
}

/// A step with what it is about, if there is one.
fn placed_if(core: &Core<'_>, step: Option<Step>) -> Option<PlacedStep>
    ensures { result ≡ option_map (placed_step_of core.now.program core.now.world) step }
{
    match step {
        None => None,
        Some(step) => Some(placed_step(core, step)),
    }
}

/// Asks the session, and tells what that came to. An `Err` is want of memory, and then nothing has
/// changed.
#[tactic(auto, using(crate::proofs::DoneLemmas::reaching))]
fn carry_out(
    alloc: Global,
    session: &mut Session<'_>,
    word: Word,
    command: Command,
) -> Result<Reached, AllocError>
    ensures carried { IfOk result (λ r. IfSome r.carried (λ k. k ≡ carried_of session.old word command session.new)) }
    ensures held { OnOk result (session.new ≡ (respond session.old (asking command)).1) }
    ensures err { OnErr result (session.new ≡ session.old) }
{
    let lead = lead_in(alloc, session, word)?;
    let step = placed_if(session.debugger().core(), lead.step);
    let request = Request { command, at: None };
    let reply = session.answer(alloc, &request)?;
    match carried_by(alloc, session, lead, &reply) {
        Ok(carried) => Ok(Reached {
            carried: Some(carried),
            step,
        }),
        Err(_) => Ok(Reached {
            carried: None,
            step,
        }),
    }
}

/// What is told of a request.
fn told_by(carried: Option<Carried>) -> Option<Told>
    ensures { result ≡ option_map told.Carried carried }
{
    match carried {
        None => None,
        Some(carried) => Some(Told::Carried(carried)),
    }
}

/// The same as a word.
#[tactic(auto, using(crate::proofs::DoneLemmas::asked))]
fn ask(
    alloc: Global,
    session: &mut Session<'_>,
    word: Word,
    command: Command,
) -> Result<Done, AllocError>
    ensures done { IfOk result (λ d. CarriedBy session.old word command d.told session.new) }
    ensures err { OnErr result (session.new ≡ session.old) }
{
    let Reached { carried, step } = carry_out(alloc, session, word, command)?;
    Ok(Done {
        told: told_by(carried),
        step,
    })
}

/// Goes along steps ahead, and tells what that came to. An `Err` is want of memory, and then nothing
/// has changed.
#[tactic(auto, using(crate::proofs::DoneLemmas::along))]
fn go_along(
    alloc: Global,
    session: &mut Session<'_>,
    word: Word,
    along: Along,
) -> Result<Done, AllocError>
    ensures done { IfOk result (λ d. AlongBy session.old word along d.told session.new) }
    ensures err { OnErr result (session.new ≡ session.old) }
{
    let lead = lead_in(alloc, session, word)?;
    let command = Command::Redo(along.steps);
    let reply = session.answer(alloc, &Request { command, at: None })?;
    drop(reply);
    match along_told(alloc, session, lead, along) {
        Ok(carried) => Ok(plain(Told::Carried(carried))),
        Err(_) => Ok(Done {
            told: None,
            step: None,
        }),
    }
}

/// A word of which this is told, and which took no step that is known.
fn plain(told: Told) -> Done
    ensures { result.told ≡ Some told }
{
    Done {
        told: Some(told),
        step: None,
    }
}

/// Goes back to the last choice. An `Err` is want of memory, and then nothing has changed.
#[tactic(auto, using(crate::proofs::DoneLemmas::undone))]
fn undo_choice(alloc: Global, session: &mut Session<'_>, word: Word) -> Result<Done, AllocError>
    ensures undone { IfOk result (λ d. UndoneBy session.old word (last_choice_of session.old.trail) d.told session.new) }
    ensures err { OnErr result (session.new ≡ session.old) }
{
    match last_choice_in(alloc, session)? {
        Some(depth) => ask(alloc, session, word, Command::Goto(depth)),
        None => Ok(plain(Told::NoChoice)),
    }
}

/// What is told of the step that decided, and of what going to it came to.
fn blamed_by(blame: PlacedBlame, number: Option<usize>, carried: Option<Carried>) -> Option<Told>
    ensures { result ≡ option_map (spec.blamed_by blame number) carried }
{
    match carried {
        None => None,
        Some(carried) => Some(Told::Blamed(Blamed {
            blame,
            number,
            gone: Some(carried),
        })),
    }
}

/// Goes to where it was decided how the run ends that is kept. An `Err` is want of memory, and then
/// nothing has changed.
#[tactic(auto, using(crate::proofs::BlamedLemmas::blaming))]
fn go_there(
    alloc: Global,
    session: &mut Session<'_>,
    blame: PlacedBlame,
    decided: Decided,
    number: Option<usize>,
) -> Result<Done, AllocError>
    ensures gone { IfOk result (λ d. BlamedAs session.old blame number (Blame.At decided) d.told session.new) }
    ensures err { OnErr result (session.new ≡ session.old) }
{
    let depth = decided.depth;
    let command = goto_command(session.debugger(), depth);
    let reached = carry_out(alloc, session, Word::Goto(depth), command)?;
    Ok(Done {
        told: blamed_by(blame, number, reached.carried),
        step: None,
    })
}

/// Tells that it is not known by which step it was decided, or that it isn't decided.
fn stay(blame: PlacedBlame, number: Option<usize>) -> Done
    ensures { result.told ≡ Some (spec.blamed_alone blame number) }
{
    Done {
        told: Some(Told::Blamed(Blamed {
            blame,
            number,
            gone: None,
        })),
        step: None,
    }
}

/// Looks for where it was decided how the run ends that is kept, and goes there. An `Err` is want of
/// memory, and then nothing has changed.
#[tactic(auto, using(crate::proofs::BlamedLemmas::blaming))]
fn blame(alloc: Global, session: &mut Session<'_>) -> Result<Done, AllocError>
    ensures blamed { IfOk result (λ d. BlamedBy session.old d.told session.new) }
    ensures err { OnErr result (session.new ≡ session.old) }
{
    let Decider { blame, number } = decider_in(alloc, session)?;
    match blame.blame {
        Blame::At(decided) => go_there(alloc, session, blame, decided, number),
        Blame::FromStart | Blame::OrEarlier(_) | Blame::Open | Blame::Unknown => {
            Ok(stay(blame, number))
        }
    }
}

/// What a word looks at.
#[tactic(auto, using(crate::proofs::DoneLemmas::looking))]
fn sight_in(session: &Session<'_>, word: Word) -> Sight
    ensures { result ≡ spec.sight_in session.now word }
{
    let debugger = session.debugger();
    debugger.state_is_reached();
    sight_of(debugger, word)
}

/// What a word does with a session.
#[tactic(auto, using(crate::proofs::DoneLemmas::doing))]
fn doing_in(alloc: Global, session: &Session<'_>, word: Word) -> Result<Doing, AllocError>
    ensures { IfOk result (λ doing. doing ≡ spec.doing_in session.now word) }
{
    let debugger = session.debugger();
    debugger.state_is_reached();
    doing_of(alloc, debugger, session.breaks(), word)
}

/// Does a word, and tells what it did. An `Err` is want of memory, and then nothing has changed.
#[tactic(auto, using(crate::proofs::DoneLemmas::performing))]
pub(crate) fn perform(
    alloc: Global,
    session: &mut Session<'_>,
    word: Word,
) -> Result<Done, AllocError>
    ensures done { IfOk result (λ d. Does session.old word d.told session.new) }
    ensures err { OnErr result (session.new ≡ session.old) }
{
    match doing_in(alloc, session, word)? {
        Doing::Asks(command) => ask(alloc, session, word, command),
        Doing::Goes(along) => go_along(alloc, session, word, along),
        Doing::Undoes => undo_choice(alloc, session, word),
        Doing::Seeks(way) => Ok(plain(seek(alloc, session, way)?)),
        Doing::Follows(number) => Ok(plain(follow(alloc, session, number)?)),
        Doing::Blames => blame(alloc, session),
        Doing::Looks => Ok(plain(Told::Looks(sight_in(session, word)))),
    }
}
