//! Searches whose reports have the witness of each deadlock: all that is found of a script, by two limits alone.

ghost use Rattle.std.specs.Prelude.{◌≡◌, ◌+◌, ◌<◌, ◌≤◌, ◌⊎◌, ◌++◌, [], if◌then◌else◌, IfOk, OnOk, OnErr, IsErrOf, IsSome, length, map, string_bytes};
ghost use Rattle.std.specs.List.{AllByRecursion};
ghost use Rattle.mpd_model.specs.runs.Decisions.{decision};
ghost use Rattle.mpd_model.specs.runs.Trail.{done_steps};
ghost use Rattle.mpd_trail.specs.DebuggerViews.{AsFound, standing_of};
ghost use Rattle.mpd_policy.specs.Walk.{run_by, steps_by, walk};
ghost use Rattle.mpd_explore.specs.Report.{shown, listed, left_out};
ghost use Rattle.mpd_explore.specs.Witness.{HasWitness};
ghost use Rattle.mpd_explore.specs.Pieces.{Reaches, part, part_left, pieces, numbered};
ghost use Rattle.mpd_explore.specs.ReportText.{leaf_line};
ghost use Rattle.mpd_explore.specs.Deadlocks.{search_of, blocked_by, deadlock_by, leaf_told, leaves_told, HasOwnWitness, bare, witness_of_leaf, leaf_lines, witnessed_text};

use crate::explorer::explore_watched;
use crate::piece_explorer::explore_at_watched;
use crate::print::{push_choices, push_count, push_ending, push_number, push_steps};
use crate::report::{
    ChoiceList, Ending, SearchLeaf, SearchLimits, SearchReport, Witness, Witnesses,
};
use crate::splitter::{PIECES_MAX, Piece, SplitFault, split_by};
use crate::watch::Unwatched;
use crate::witness::retraced;
use mpd_model::{CallList, Outcome, STEPS_MAX};
use mpd_policy::Plain;
use mpd_trail::Debugger;
use std::alloc::{AllocError, Global};

/// How far an exploration goes.
#[derive(Clone, Copy)]
pub struct Limits {
    /// How many leaves are listed at most.
    pub runs: usize,
    /// How many steps a run has at most.
    pub fuel: usize,
}

impl Limits {
    /// The limits of the search for these leaves.
    pub fn searched(self) -> SearchLimits
        ensures { result ≡ search_of self }
    {
        SearchLimits {
            runs: self.runs,
            fuel: self.fuel,
            witnesses: Witnesses::OfNone,
            until_bad: false,
            ends: false,
        }
    }
}

/// A run: the candidates that it takes at its choices, how it ends, and where that is a deadlock
/// its witness, with all steps from the start of the script.
#[derive(Drop)]
pub struct Leaf {
    pub choices: ChoiceList,
    pub outcome: Ending,
    pub witness: Option<Witness>,
}

/// The first leaves, in the order of their choices, and whether there are others that aren't listed.
#[derive(Drop)]
pub struct Report {
    pub leaves: Vec<Leaf>,
    pub more: bool,
}

/// The calls that are blocked in a run that ends so, if that is a deadlock. `Err` means that memory
/// was refused, which happens only there.
fn blocked_by(alloc: Global, ending: &Ending) -> Result<Option<CallList>, AllocError>
    ensures { IfOk result (λ o. o ≡ blocked_by ending.now) }
{
    match ending {
        Ending::Ended(Outcome::Deadlock(calls)) => {
            let calls = calls.ids(alloc)?;
            Ok(Some(calls))
        }
        Ending::Ended(Outcome::Done | Outcome::Leftovers(_)) => Ok(None),
        Ending::Ended(Outcome::Trap(_)) => Ok(None),
        Ending::Cut => Ok(None),
    }
}

/// The witness of a leaf of the walk, if it is a deadlock: the steps that led to the debugger's
/// state, then those of the leaf's run, made again, and the calls that are blocked. The debugger is
/// left as found, also on `Err`, which means that memory was refused.
fn deadlock_of(
    alloc: Global,
    debugger: &mut Debugger<'_>,
    fuel: usize,
    leaf: &SearchLeaf,
) -> Result<Option<Witness>, AllocError>
    requires clean { length debugger.old.trail.steps ≡ debugger.old.trail.depth }
    requires fits { debugger.old.trail.depth + fuel ≤ STEPS_MAX }
    requires listed { IsSome (run_by decision fuel leaf.now.choices debugger.old.world) }
    ensures witness { IfOk result (λ o. o ≡ deadlock_by (done_steps debugger.old.trail ++ steps_by (run_by decision fuel leaf.now.choices debugger.old.world)) leaf.now.ending) }
    ensures as_found { AsFound (standing_of debugger.old) (standing_of debugger.new) }
{
    debugger.state_is_reached();
    let Some(blocked) = blocked_by(alloc, &leaf.ending)? else {
        return Ok(None);
    };
    match retraced(alloc, &Plain, debugger, fuel, &leaf.choices.items) {
        Ok(steps) => Ok(Some(Witness { steps, blocked })),
        Err(fault) => {
            drop(blocked);
            Err(fault)
        }
    }
}

/// A leaf of the walk, with its witness if it is a deadlock. The debugger is left as found.
fn leaf_told(
    alloc: Global,
    debugger: &mut Debugger<'_>,
    fuel: usize,
    leaf: SearchLeaf,
) -> Result<Leaf, AllocError>
    requires clean { length debugger.old.trail.steps ≡ debugger.old.trail.depth }
    requires fits { debugger.old.trail.depth + fuel ≤ STEPS_MAX }
    requires listed { IsSome (run_by decision fuel leaf.choices debugger.old.world) }
    ensures leaf { IfOk result (λ l. l ≡ leaf_told (done_steps debugger.old.trail) fuel debugger.old.world leaf) }
    ensures as_found { AsFound (standing_of debugger.old) (standing_of debugger.new) }
{
    match deadlock_of(alloc, debugger, fuel, &leaf) {
        Ok(witness) => {
            let SearchLeaf { choices, ending } = leaf;
            Ok(Leaf {
                choices,
                outcome: ending,
                witness,
            })
        }
        Err(fault) => {
            drop(leaf);
            Err(fault)
        }
    }
}

/// Leaves of the walk in order, each deadlock with its witness. The debugger is left as found.
/// `Err` means that memory was refused, which happens only if there is a leaf.
fn leaves_told(
    alloc: Global,
    debugger: &mut Debugger<'_>,
    fuel: usize,
    leaves: Vec<SearchLeaf>,
) -> Result<Vec<Leaf>, AllocError>
    requires clean { length debugger.old.trail.steps ≡ debugger.old.trail.depth }
    requires fits { debugger.old.trail.depth + fuel ≤ STEPS_MAX }
    requires listed { AllByRecursion (HasWitness decision debugger.old.trail.program debugger.old.trail.mode (done_steps debugger.old.trail) fuel debugger.old.world) leaves.items }
    ensures leaves { IfOk result (λ v. v.items ≡ leaves_told (done_steps debugger.old.trail) fuel debugger.old.world leaves.items) }
    ensures as_found { AsFound (standing_of debugger.old) (standing_of debugger.new) }
    ensures memory { OnErr result (0 < length leaves.items) }
{
    debugger.state_is_reached();
    let mut told = Vec::new(alloc);
    let mut rest = leaves;
    rest.reverse();
    while let Some(leaf) = rest.pop() {
        let one = leaf_told(alloc, debugger, fuel, leaf)?;
        told.push(one)?;
    }
    Ok(told)
}

/// The report of a search along the walk from here, each deadlock with its witness: its steps are
/// those that led to the debugger's state and then those of the leaf's run, which is made again.
/// `fuel` is that of the search. Each witness is one that `verify` accepts. Requires that each leaf
/// has a run, as those that a search lists; that no step is undone; and that depth and fuel together
/// are at most 1,000,000 steps. The debugger is left as found, also on `Err`, which means that
/// memory was refused; this happens only if there is a leaf.
pub fn with_witnesses(
    alloc: Global,
    debugger: &mut Debugger<'_>,
    fuel: usize,
    report: SearchReport,
) -> Result<Report, AllocError>
    requires clean { length debugger.old.trail.steps ≡ debugger.old.trail.depth }
    requires fits { debugger.old.trail.depth + fuel ≤ STEPS_MAX }
    requires listed { AllByRecursion (HasWitness decision debugger.old.trail.program debugger.old.trail.mode (done_steps debugger.old.trail) fuel debugger.old.world) report.leaves.items }
    ensures leaves { IfOk result (λ r. r.leaves.items ≡ leaves_told (done_steps debugger.old.trail) fuel debugger.old.world report.leaves.items) }
    ensures more { IfOk result (λ r. r.more ≡ report.more) }
    ensures witnesses { IfOk result (λ r. AllByRecursion (HasOwnWitness debugger.old.trail.program debugger.old.trail.mode) r.leaves.items) }
    ensures as_found { AsFound (standing_of debugger.old) (standing_of debugger.new) }
    ensures memory { OnErr result (0 < length report.leaves.items) }
{
    let SearchReport {
        leaves,
        more,
        witnesses,
    } = report;
    drop(witnesses);
    let leaves = leaves_told(alloc, debugger, fuel, leaves)?;
    Ok(Report { leaves, more })
}

/// The first leaves of the runs from here, in the order of their choices, and whether there are
/// others (docs/DEFINITIONS.md, "Runs of a script"): at most `runs` leaves are listed, each deadlock
/// with its witness, which has all steps from the start of the script and which `verify` accepts.
/// Fuel counts from here. The debugger is left as found, also on `Err`, which means that memory was
/// refused; this happens only if a leaf is asked for. Requires that no step is undone, and that
/// depth and fuel together are at most 1,000,000 steps.
#[tactic(auto, using(crate::proofs::DeadlockLemmas::some_asked))]
pub fn explore(
    alloc: Global,
    debugger: &mut Debugger<'_>,
    limits: Limits,
) -> Result<Report, AllocError>
    requires clean { length debugger.old.trail.steps ≡ debugger.old.trail.depth }
    requires fits { debugger.old.trail.depth + limits.fuel ≤ STEPS_MAX }
    ensures leaves { IfOk result (λ r. r.leaves.items ≡ leaves_told (done_steps debugger.old.trail) limits.fuel debugger.old.world (listed (search_of limits) (map shown (walk limits.fuel debugger.old.world)))) }
    ensures more { IfOk result (λ r. r.more ≡ left_out (search_of limits) (map shown (walk limits.fuel debugger.old.world))) }
    ensures witnesses { IfOk result (λ r. AllByRecursion (HasOwnWitness debugger.old.trail.program debugger.old.trail.mode) r.leaves.items) }
    ensures as_found { AsFound (standing_of debugger.old) (standing_of debugger.new) }
    ensures memory { OnErr result (0 < limits.runs) }
{
    let found = explore_watched(alloc, debugger, limits.searched(), &mut Unwatched)?;
    let told = with_witnesses(alloc, debugger, limits.fuel, found)?;
    Ok(told)
}

/// The same of the runs from here that begin with some choices (docs/DEFINITIONS.md, "Pieces").
/// Fuel, choices and witnesses count from where `explore` counts them. Requires also that some run
/// has these choices, as those of each piece of `split` by this fuel. `Err` means that memory was
/// refused, which happens only if a leaf is asked for, or there is a choice.
#[tactic(auto, using(crate::proofs::DeadlockLemmas::some_asked))]
pub fn explore_at(
    alloc: Global,
    debugger: &mut Debugger<'_>,
    choices: &[usize],
    limits: Limits,
) -> Result<Report, AllocError>
    requires clean { length debugger.old.trail.steps ≡ debugger.old.trail.depth }
    requires fits { debugger.old.trail.depth + limits.fuel ≤ STEPS_MAX }
    requires reaches { Reaches decision limits.fuel choices.now debugger.old.world }
    ensures leaves { IfOk result (λ r. r.leaves.items ≡ leaves_told (done_steps debugger.old.trail) limits.fuel debugger.old.world (part (search_of limits) choices.now debugger.old.world)) }
    ensures more { IfOk result (λ r. r.more ≡ part_left (search_of limits) choices.now debugger.old.world) }
    ensures witnesses { IfOk result (λ r. AllByRecursion (HasOwnWitness debugger.old.trail.program debugger.old.trail.mode) r.leaves.items) }
    ensures as_found { AsFound (standing_of debugger.old) (standing_of debugger.new) }
    ensures memory { OnErr result ((0 < limits.runs) ⊎ (0 < length choices.now)) }
{
    let part = explore_at_watched(alloc, debugger, choices, limits.searched(), &mut Unwatched)?;
    let told = with_witnesses(alloc, debugger, limits.fuel, part)?;
    Ok(told)
}

/// Cuts the runs from here into pieces by their first `choices` choices (docs/DEFINITIONS.md,
/// "Pieces"). Fuel counts from here. A run that makes fewer choices, since it ends or its fuel does,
/// is a piece by those that it makes. The pieces are numbered from 0, in order. Requires that no
/// step is undone, and that depth and fuel together are at most 1,000,000 steps. Refused if there
/// are more than 1,024 pieces (31), or if memory is refused. The debugger is left as found, also on
/// a refusal.
pub fn split(
    alloc: Global,
    debugger: &mut Debugger<'_>,
    choices: usize,
    fuel: usize,
) -> Result<Vec<Piece>, SplitFault>
    requires clean { length debugger.old.trail.steps ≡ debugger.old.trail.depth }
    requires fits { debugger.old.trail.depth + fuel ≤ STEPS_MAX }
    ensures ok { IfOk result (λ v. v.items ≡ numbered 0 (pieces decision choices fuel debugger.old.world)) }
    ensures few { OnOk result (length (pieces decision choices fuel debugger.old.world) ≤ PIECES_MAX) }
    ensures many { IsErrOf result SplitFault.TooManyPieces → PIECES_MAX < length (pieces decision choices fuel debugger.old.world) }
    ensures as_found { AsFound (standing_of debugger.old) (standing_of debugger.new) }
{
    let limits = Limits { runs: 0, fuel };
    split_by(alloc, debugger, choices, limits.searched())
}

/// Adds the line of a leaf.
fn push_leaf(alloc: Global, out: &mut String, number: usize, leaf: &Leaf) -> Result<(), AllocError>
    ensures { OnOk result (string_bytes out.new ≡ string_bytes out.old ++ leaf_line number (bare leaf.now)) }
{
    write!(out, "leaf {number} [")?;
    push_choices(out, &leaf.choices.items)?;
    out.push_str("] ")?;
    push_ending(alloc, out, &leaf.outcome)?;
    out.push('\n')
}

/// Adds the line of the witness of a leaf, if it has one.
fn push_witness(
    out: &mut String,
    number: usize,
    witness: &Option<Witness>,
) -> Result<(), AllocError>
    ensures { OnOk result (string_bytes out.new ≡ string_bytes out.old ++ witness_of_leaf number witness.now) }
{
    let Some(witness) = witness else {
        return Ok(());
    };
    push_number(out, "witness ", number)?;
    out.push(':')?;
    push_steps(out, &witness.steps.items)?;
    out.push('\n')
}

/// The same, if witnesses are wanted.
fn push_wanted(
    out: &mut String,
    number: usize,
    witness: &Option<Witness>,
    wanted: bool,
) -> Result<(), AllocError>
    ensures { OnOk result (string_bytes out.new ≡ string_bytes out.old ++ (if wanted then witness_of_leaf number witness.now else [])) }
{
    if !wanted {
        return Ok(());
    }
    push_witness(out, number, witness)
}

/// Adds the lines of leaves, numbered from 0, each with the line of its witness, if these are wanted.
fn push_all(
    alloc: Global,
    out: &mut String,
    leaves: &[Leaf],
    wanted: bool,
) -> Result<(), AllocError>
    ensures { OnOk result (string_bytes out.new ≡ string_bytes out.old ++ leaf_lines wanted 0 leaves.now) }
{
    for (number, leaf) in leaves.iter().enumerate() {
        push_leaf(alloc, out, number, leaf)?;
        push_wanted(out, number, &leaf.witness, wanted)?;
    }
    Ok(())
}

/// A report as text (docs/FORMATS.md, "Reports"): a line for each leaf; after that of a deadlock a
/// line with its witness, if `witnesses` is set; last, how many leaves there are, and whether there
/// are others. `Err` means that memory was refused.
pub fn print_report(alloc: Global, report: &Report, witnesses: bool) -> Result<String, AllocError>
    ensures { IfOk result (λ t. string_bytes t ≡ witnessed_text witnesses report.now.leaves.items report.now.more) }
{
    let mut out = String::new(alloc);
    push_all(alloc, &mut out, &report.leaves, witnesses)?;
    push_count(&mut out, report.leaves.len(), report.more)?;
    Ok(out)
}
