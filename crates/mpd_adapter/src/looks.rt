//! What is told of a state that nothing changes (docs/ADAPTER.md, "Looks").

ghost use Rattle.std.specs.Prelude.{◌≡◌, ◌≤◌, IfOk, map};
ghost use Rattle.serde_json.specs.View.{view};
ghost use Rattle.mpd_model.specs.runs.Decisions.{decision};
ghost use Rattle.mpd_adapter.specs.Looks as spec;

use crate::moves::{open_among, own_among};
use crate::numbers::{Shelf, thread_of};
use crate::rank::{RankDoing, rank_doing};
use crate::shelves::held_at;
use crate::task::Look;
use mpd_core::Core;
use mpd_dap::{
    Json, Target, Text, Thread, capabilities, ended_frame, exception, nothing, scopes,
    standing_frame, targets, threads, variables,
};
use mpd_explain::{End, PlacedStep, outcome_end, placed_step, push_candidate, push_end};
use mpd_model::{Decision, Decl, Outcome, RANKS_MAX, Step};
use mpd_names::{Marks, stand};
use mpd_policy::decide;
use mpd_session::Session;
use std::alloc::{AllocError, Global};

// ---- ranks

/// What all ranks are doing.
fn doings_of(alloc: Global, core: &Core<'_>) -> Result<Vec<RankDoing>, AllocError>
    ensures { IfOk result (λ list. list.items ≡ spec.doings_of core.now.program core.now.world) }
{
    let mut list = Vec::new(alloc);
    let count = core.rank_count();
    for rank in 0..count {
        list.push(rank_doing(core, rank))?;
    }
    Ok(list)
}

/// What is told of a rank.
fn name_of(alloc: Global, doing: RankDoing) -> Result<Text, AllocError> {
    let mut string = String::new(alloc);
    write!(string, "{doing}")?;
    Ok(Text { string })
}

/// A rank as a thread.
fn thread(alloc: Global, doing: RankDoing) -> Result<Thread, AllocError>
    ensures { IfOk result (λ thread. thread.id ≡ spec.doing_id doing) }
{
    let name = name_of(alloc, doing)?;
    Ok(Thread {
        id: thread_of(doing.rank),
        name,
    })
}

/// Ranks as threads.
fn threads_of(alloc: Global, doings: &[RankDoing]) -> Result<Vec<Thread>, AllocError>
    ensures { IfOk result (λ list. map spec.thread_id list.items ≡ map spec.doing_id doings.now) }
{
    let mut list = Vec::new(alloc);
    for doing in doings {
        list.push(thread(alloc, *doing)?)?;
    }
    Ok(list)
}

/// The body that lists all threads.
#[tactic(auto, using(crate::proofs::LookLemmas::threads_so))]
fn threads_body(alloc: Global, core: &Core<'_>) -> Result<Json, AllocError>
    ensures { IfOk result (λ body. spec.IsThreads core.now.program core.now.world (view body.value)) }
{
    let doings = doings_of(alloc, core)?;
    let list = threads_of(alloc, &doings)?;
    let body = threads(alloc, &list)?;
    Ok(body)
}

/// The frame of a rank, from 0, by the line where it stands, if it stands at one.
fn frame_at(
    alloc: Global,
    rank: usize,
    name: &str,
    path: &str,
    line: Option<usize>,
) -> Result<Json, AllocError>
    ensures { IfOk result (λ body. view body.value ≡ spec.stack_by rank name.now path.now line) }
{
    match line {
        None => ended_frame(alloc, thread_of(rank), name),
        Some(line) => standing_frame(alloc, thread_of(rank), line, name, path),
    }
}

/// The body that has the frame of a rank, from 0, given the path of the script.
#[tactic(auto, using(crate::proofs::LookLemmas::stack_so))]
fn stack_body(alloc: Global, core: &Core<'_>, path: &str, rank: usize) -> Result<Json, AllocError>
    ensures { IfOk result (λ body. spec.IsStack core.now.program core.now.world path.now rank (view body.value)) }
{
    let name = name_of(alloc, rank_doing(core, rank))?;
    let body = frame_at(alloc, rank, name.as_str(), path, stand(core, rank))?;
    Ok(body)
}

// ---- what ranks hold

/// The reference of the first scope of a rank, from 0; 0 of one that no script has.
fn first_reference(rank: usize) -> usize
    ensures value { result ≡ spec.first_reference rank }
    ensures small { result ≤ 64 }
{
    if rank >= RANKS_MAX {
        return 0;
    }
    4 * rank + 1
}

/// The body that has what a rank holds in a scope.
fn variables_body(alloc: Global, core: &Core<'_>, shelf: Shelf) -> Result<Json, AllocError>
    ensures { IfOk result (λ body. view body.value ≡ spec.variables_body core.now.program core.now.world shelf) }
{
    let list = held_at(alloc, core, shelf.rank, shelf.scope)?;
    variables(alloc, &list)
}

// ---- candidates

/// A candidate of a choice.
#[derive(Clone, Copy)]
pub struct Candidate {
    /// Its number, from 1.
    pub number: usize,
    /// The step, if it is there.
    pub step: Option<PlacedStep>,
}

/// A step with what it is about, if there is one.
fn placed_if(core: &Core<'_>, step: Option<Step>) -> Option<PlacedStep>
    ensures { result ≡ spec.placed_if core.now.program core.now.world step }
{
    match step {
        None => None,
        Some(step) => Some(placed_step(core, step)),
    }
}

/// One of some candidates, by its number from 1.
fn candidate_at(core: &Core<'_>, candidates: &[Step], number: usize) -> Candidate
    ensures { result ≡ spec.candidate_at core.now.program core.now.world candidates.now number }
{
    let step = candidates.get(number.saturating_sub(1)).copied();
    Candidate {
        number,
        step: placed_if(core, step),
    }
}

/// Those of some candidates that have these numbers.
fn candidates_at(
    alloc: Global,
    core: &Core<'_>,
    candidates: &[Step],
    numbers: &[usize],
) -> Result<Vec<Candidate>, AllocError>
    ensures { IfOk result (λ list. list.items ≡ map (spec.candidate_at core.now.program core.now.world candidates.now) numbers.now) }
{
    let mut list = Vec::new(alloc);
    for number in numbers {
        list.push(candidate_at(core, candidates, *number))?;
    }
    Ok(list)
}

/// The candidates that are open and in which a rank takes part.
fn candidates_of(alloc: Global, core: &Core<'_>, rank: usize) -> Result<Vec<Candidate>, AllocError>
    ensures { IfOk result (λ list. list.items ≡ spec.candidates_of core.now.program core.now.world rank) }
{
    let decided = decide(alloc, core)?;
    let candidates = open_among(&decided);
    let numbers = own_among(alloc, rank, candidates)?;
    candidates_at(alloc, core, candidates, &numbers)
}

/// What the word `enabled` of the console tells of a candidate, if it is there.
fn label(alloc: Global, decls: &[Decl], candidate: Candidate) -> Result<Text, AllocError> {
    let mut string = String::new(alloc);
    if let Some(step) = candidate.step {
        push_candidate(&mut string, decls, Marks::none(), false, &step)?;
    }
    Ok(Text { string })
}

/// A candidate as a target.
fn target(alloc: Global, decls: &[Decl], candidate: Candidate) -> Result<Target, AllocError>
    ensures { IfOk result (λ target. target.id ≡ candidate.number) }
{
    let label = label(alloc, decls, candidate)?;
    Ok(Target {
        id: candidate.number,
        label,
    })
}

/// Candidates as targets.
fn targets_of(
    alloc: Global,
    decls: &[Decl],
    candidates: &[Candidate],
) -> Result<Vec<Target>, AllocError>
    ensures { IfOk result (λ list. map spec.target_id list.items ≡ map spec.candidate_number candidates.now) }
{
    let mut list = Vec::new(alloc);
    for candidate in candidates {
        list.push(target(alloc, decls, *candidate)?)?;
    }
    Ok(list)
}

/// The body that lists the candidates that are open and in which a rank takes part.
#[tactic(auto, using(crate::proofs::LookLemmas::targets_so))]
fn targets_body(alloc: Global, core: &Core<'_>, rank: usize) -> Result<Json, AllocError>
    ensures { IfOk result (λ body. spec.IsTargets core.now.program core.now.world rank (view body.value)) }
{
    let candidates = candidates_of(alloc, core, rank)?;
    let list = targets_of(alloc, core.code().decls(), &candidates)?;
    let body = targets(alloc, &list)?;
    Ok(body)
}

// ---- how a run has ended

/// How a run has ended, in a word.
fn end_name(outcome: &Outcome) -> &'static str
    ensures { result.now ≡ spec.end_name outcome.now }
{
    match outcome {
        Outcome::Done => "done",
        Outcome::Leftovers(_) => "leftovers",
        Outcome::Deadlock(_) => "deadlock",
        Outcome::Trap(_) => "trap",
    }
}

/// What is told of how a run has ended.
fn end_words(alloc: Global, decls: &[Decl], end: &End) -> Result<Text, AllocError> {
    let mut string = String::new(alloc);
    push_end(&mut string, decls, Marks::none(), end)?;
    Ok(Text { string })
}

/// The body that tells how a run has ended.
#[tactic(auto, using(crate::proofs::LookLemmas::end_so))]
fn end_body(alloc: Global, core: &Core<'_>, outcome: &Outcome) -> Result<Json, AllocError>
    ensures { IfOk result (λ body. spec.IsEnd outcome.now (view body.value)) }
{
    let end = outcome_end(alloc, core, outcome)?;
    let told = end_words(alloc, core.code().decls(), &end);
    drop(end);
    let told = told?;
    let body = exception(alloc, end_name(outcome), told.as_str())?;
    Ok(body)
}

/// The body that tells how the run has ended; `None` if it hasn't.
fn exception_body(alloc: Global, core: &Core<'_>) -> Result<Option<Json>, AllocError>
    ensures { IfOk result (λ body. spec.IsException (decision core.now.world) (spec.shown body)) }
{
    match decide(alloc, core)? {
        Decision::Leaf(outcome) => {
            let body = end_body(alloc, core, &outcome)?;
            Ok(Some(body))
        }
        _ => Ok(None),
    }
}

// ---- any look

/// What a look tells of any state, given the path of the script. An `Err` is want of memory.
fn plain_body(alloc: Global, core: &Core<'_>, path: &str, look: Look) -> Result<Json, AllocError>
    ensures { IfOk result (λ body. spec.IsPlain core.now.program core.now.world path.now look (view body.value)) }
{
    match look {
        Look::Capabilities => capabilities(alloc),
        Look::Threads => threads_body(alloc, core),
        Look::Stack(rank) => stack_body(alloc, core, path, rank),
        Look::Scopes(rank) => scopes(alloc, first_reference(rank)),
        Look::Variables(shelf) => variables_body(alloc, core, shelf),
        Look::Targets(rank) => targets_body(alloc, core, rank),
        Look::Nothing | Look::Exception => nothing(alloc),
    }
}

/// What a look tells of a state, given the path of the script; `None` if it asks how the run has ended, and it hasn't.
fn body_at(
    alloc: Global,
    core: &Core<'_>,
    path: &str,
    look: Look,
) -> Result<Option<Json>, AllocError>
    ensures { IfOk result (λ body. spec.IsBodyAt core.now.program core.now.world path.now look (spec.shown body)) }
{
    match look {
        Look::Exception => exception_body(alloc, core),
        _ => Ok(Some(plain_body(alloc, core, path, look)?)),
    }
}

/// What a look tells of a session, given the path of the script; `None` if it asks how the run has ended, and it hasn't. An `Err` is
/// want of memory.
#[tactic(auto, using(crate::proofs::SeenLemmas::body_seen))]
pub(crate) fn body_in(
    alloc: Global,
    session: &Session<'_>,
    path: &str,
    look: Look,
) -> Result<Option<Json>, AllocError>
    ensures { IfOk result (λ body. spec.IsBodyIn session.now path.now look (spec.shown body)) }
{
    let debugger = session.debugger();
    debugger.state_is_reached();
    body_at(alloc, debugger.core(), path, look)
}
