//! Cutting the runs of a script into pieces.

ghost use Rattle.std.specs.Prelude.{◌≡◌, ◌+◌, ◌-◌, ◌<◌, ◌≤◌, ◌++◌, ◌∷◌, ◌||◌, [], false, map, length, IfOk, OnOk, IsErrOf};
ghost use Rattle.std.specs.List.{AllByRecursion, range_with_len};
ghost use Rattle.mpd_trail.specs.DebuggerViews.{AsFound, standing_of};
ghost use Rattle.mpd_explore.specs.Sleeping.{decides_by};
ghost use Rattle.mpd_explore.specs.Pieces.{Reaches, pieces, numbered};
ghost use Rattle.mpd_policy.specs.Walks.{Beyond};
ghost use Rattle.mpd_explore.specs.Along.{Looked, Adds, counted, longer, all_longer, choices_of};
ghost use Rattle.mpd_explore.specs.PieceFaults.{split_fault_number, split_fault_name};

use crate::follow::follow;
use crate::report::{ChoiceList, SearchLimits};
use mpd_model::{Decision, STEPS_MAX};
use mpd_policy::{Plain, Schedule, Wide, put_back};
use mpd_trail::Debugger;
use std::alloc::{AllocError, Global};
use std::error::Error;
use std::fmt;

/// How many pieces the runs of a script are cut into at most.
pub const PIECES_MAX: usize = 1_024;

/// The runs that begin with some choices. The number is its place among the pieces of a walk, from 0.
#[derive(Drop)]
pub struct Piece {
    pub number: usize,
    pub choices: ChoiceList,
}

/// Why the runs of a script are not cut into pieces.
#[derive(Clone, Copy, PartialEq, Eq, Debug)]
pub enum SplitFault {
    /// There are more than 1,024.
    TooManyPieces,
    /// Memory was refused.
    Memory,
}

impl SplitFault {
    /// Its number: 31 for too many pieces; 0 for refused memory, which has none here.
    pub fn number(self) -> u8
        ensures { result ≡ split_fault_number self }
    {
        match self {
            SplitFault::TooManyPieces => 31,
            SplitFault::Memory => 0,
        }
    }

    /// Its name: `too-many-pieces` or `memory`.
    pub fn name(self) -> &'static str
        ensures { result.now ≡ split_fault_name self }
    {
        match self {
            SplitFault::TooManyPieces => "too-many-pieces",
            SplitFault::Memory => "memory",
        }
    }
}

impl fmt::Display for SplitFault {
    ghost use Rattle.std.specs.Prelude.{Some};

    ghost output = { λ fault. Some (split_fault_name fault) };

    fn fmt<W: fmt::Write>(&self, f: &mut fmt::Formatter<W>) -> fmt::Result {
        f.write_str(self.name())
    }
}

impl Error for SplitFault {}

impl From<AllocError> for SplitFault {
    ghost use Rattle.mpd_explore.specs.declared.splitter.SplitFault.TheVariants.{Memory};

    ghost from_gives = { λ _ fault. fault ≡ Memory };

    fn from(_: AllocError) -> SplitFault {
        SplitFault::Memory
    }
}

/// Takes a forced step, or returns how many candidates there are to choose from: 0 if the run has
/// ended.
fn look<S: Schedule>(
    alloc: Global,
    schedule: &S,
    debugger: &mut Debugger<'_>,
) -> Result<Option<usize>, AllocError>
    requires { debugger.old.trail.depth < STEPS_MAX }
    ensures looked { IfOk result (λ o. Looked S.decides (standing_of debugger.old) o (standing_of debugger.new)) }
    ensures beyond { Beyond (standing_of debugger.old) (standing_of debugger.new) }
{
    schedule.can_be_followed();
    match schedule.decide(alloc, debugger.core())? {
        Decision::Leaf(_) => Ok(Some(0)),
        Decision::Forced(step) => {
            debugger.forward(step)?;
            Ok(None)
        }
        Decision::Choice(candidates) => Ok(Some(candidates.items.len())),
    }
}

/// Goes on by forced steps to the next choice, and returns how many candidates it has; 0 if the run
/// or its fuel ends before it.
fn look_ahead<S: Schedule>(
    alloc: Global,
    schedule: &S,
    debugger: &mut Debugger<'_>,
    limit: usize,
) -> Result<usize, AllocError>
    requires within { debugger.old.trail.depth ≤ limit }
    requires few { limit ≤ STEPS_MAX }
    ensures counted { IfOk result (λ m. pieces S.decides 1 (limit - debugger.old.trail.depth) debugger.old.world ≡ counted m) }
    ensures beyond { Beyond (standing_of debugger.old) (standing_of debugger.new) }
{
    debugger.state_is_reached();
    let begun = debugger.depth();
    for depth in begun..limit {
        if let Some(count) = look(alloc, schedule, debugger)? {
            return Ok(count);
        }
    }
    Ok(0)
}

/// Goes on after some choices to the next one, and returns how many candidates that has, as
/// `look_ahead` does.
fn look_behind<S: Schedule>(
    alloc: Global,
    schedule: &S,
    debugger: &mut Debugger<'_>,
    limit: usize,
    choices: &[usize],
) -> Result<usize, AllocError>
    requires within { debugger.old.trail.depth ≤ limit }
    requires few { limit ≤ STEPS_MAX }
    requires reaches { Reaches S.decides (limit - debugger.old.trail.depth) choices.now debugger.old.world }
    ensures longer { IfOk result (λ m. longer S.decides (limit - debugger.old.trail.depth) choices.now debugger.old.world ≡ map (λ cs. choices.now ++ cs) (counted m)) }
    ensures beyond { Beyond (standing_of debugger.old) (standing_of debugger.new) }
{
    let sleep = follow(alloc, schedule, debugger, limit, choices, false)?;
    drop(sleep);
    let count = look_ahead(alloc, schedule, debugger, limit)?;
    Ok(count)
}

/// How many candidates the choice after some others has, as `look_ahead` says. The debugger is left as found.
fn candidates_behind<S: Schedule>(
    alloc: Global,
    schedule: &S,
    debugger: &mut Debugger<'_>,
    fuel: usize,
    choices: &[usize],
) -> Result<usize, AllocError>
    requires clean { length debugger.old.trail.steps ≡ debugger.old.trail.depth }
    requires fits { debugger.old.trail.depth + fuel ≤ STEPS_MAX }
    requires reaches { Reaches S.decides fuel choices.now debugger.old.world }
    ensures longer { IfOk result (λ m. longer S.decides fuel choices.now debugger.old.world ≡ map (λ cs. choices.now ++ cs) (counted m)) }
    ensures as_found { AsFound (standing_of debugger.old) (standing_of debugger.new) }
{
    debugger.state_is_reached();
    let base = debugger.depth();
    let limit = base + fuel;
    let found = look_behind(alloc, schedule, debugger, limit, choices);
    put_back(debugger, base);
    found
}

/// Adds a piece, or refuses it if there are 1,024.
fn push_piece(made: &mut Vec<Piece>, choices: ChoiceList) -> Result<(), SplitFault>
    requires few { length made.old.items ≤ PIECES_MAX }
    ensures ok { OnOk result (Adds made.old.items (choices ∷ []) made.new.items) }
    ensures few { OnOk result (length made.new.items ≤ PIECES_MAX) }
    ensures many { IsErrOf result SplitFault.TooManyPieces → PIECES_MAX ≤ length made.old.items }
{
    let number = made.len();
    if number >= PIECES_MAX {
        return Err(SplitFault::TooManyPieces);
    }
    made.reserve(1)?;
    made.push_reserved(Piece { number, choices });
    Ok(())
}

/// Some choices.
fn copied(alloc: Global, choices: &[usize]) -> Result<ChoiceList, AllocError>
    ensures { IfOk result (λ cs. cs ≡ choices.now) }
{
    let items = Vec::from_slice(alloc, choices)?;
    Ok(ChoiceList { items })
}

/// Some choices, and one after them.
fn with_one_more(alloc: Global, choices: &[usize], choice: usize) -> Result<ChoiceList, AllocError>
    ensures { IfOk result (λ cs. cs ≡ choices.now ++ choice ∷ []) }
{
    let mut items = Vec::from_slice(alloc, choices)?;
    items.push(choice)?;
    Ok(ChoiceList { items })
}

/// Adds a piece for each of `count` candidates after some choices.
fn push_each(
    alloc: Global,
    made: &mut Vec<Piece>,
    choices: &[usize],
    count: usize,
) -> Result<(), SplitFault>
    requires few { length made.old.items ≤ PIECES_MAX }
    ensures ok { OnOk result (Adds made.old.items (map (λ c. choices.now ++ c ∷ []) (range_with_len 0 count)) made.new.items) }
    ensures few { OnOk result (length made.new.items ≤ PIECES_MAX) }
    ensures many { IsErrOf result SplitFault.TooManyPieces → PIECES_MAX < length made.old.items + count }
{
    for choice in 0..count {
        let longer = with_one_more(alloc, choices, choice)?;
        if let Err(fault) = push_piece(made, longer) {
            return Err(fault);
        }
    }
    Ok(())
}

/// Adds what some choices become with one more, of `count` candidates: one piece for each, or the
/// choices alone if there is none.
fn push_longer(
    alloc: Global,
    made: &mut Vec<Piece>,
    choices: &[usize],
    count: usize,
) -> Result<(), SplitFault>
    requires few { length made.old.items ≤ PIECES_MAX }
    ensures ok { OnOk result (Adds made.old.items (map (λ cs. choices.now ++ cs) (counted count)) made.new.items) }
    ensures few { OnOk result (length made.new.items ≤ PIECES_MAX) }
    ensures many { IsErrOf result SplitFault.TooManyPieces → PIECES_MAX < length made.old.items + length (counted count) }
{
    if count > 0 {
        return push_each(alloc, made, choices, count);
    }
    let own = copied(alloc, choices)?;
    push_piece(made, own)
}

/// Adds what some choices become with one more, and returns whether there was one to be made.
fn push_grown<S: Schedule>(
    alloc: Global,
    schedule: &S,
    debugger: &mut Debugger<'_>,
    fuel: usize,
    choices: &[usize],
    made: &mut Vec<Piece>,
) -> Result<bool, SplitFault>
    requires clean { length debugger.old.trail.steps ≡ debugger.old.trail.depth }
    requires fits { debugger.old.trail.depth + fuel ≤ STEPS_MAX }
    requires reaches { Reaches S.decides fuel choices.now debugger.old.world }
    requires few { length made.old.items ≤ PIECES_MAX }
    ensures ok { OnOk result (Adds made.old.items (longer S.decides fuel choices.now debugger.old.world) made.new.items) }
    ensures few { OnOk result (length made.new.items ≤ PIECES_MAX) }
    ensures still { IfOk result (λ grows. grows ≡ false → longer S.decides fuel choices.now debugger.old.world ≡ choices.now ∷ []) }
    ensures many { IsErrOf result SplitFault.TooManyPieces → PIECES_MAX < length made.old.items + length (longer S.decides fuel choices.now debugger.old.world) }
    ensures as_found { AsFound (standing_of debugger.old) (standing_of debugger.new) }
{
    let count = candidates_behind(alloc, schedule, debugger, fuel, choices)?;
    match push_longer(alloc, made, choices, count) {
        Ok(()) => Ok(count > 0),
        Err(fault) => Err(fault),
    }
}

/// Whether one of two is so.
fn either(one: bool, other: bool) -> bool
    ensures { result ≡ (one || other) }
{
    one || other
}

/// Pieces by one choice more than others, and whether there was one to be made.
#[derive(Drop)]
struct Level {
    made: Vec<Piece>,
    grows: bool,
}

/// What pieces become by one choice more.
fn grown<S: Schedule>(
    alloc: Global,
    schedule: &S,
    debugger: &mut Debugger<'_>,
    fuel: usize,
    from: &[Piece],
) -> Result<Level, SplitFault>
    requires clean { length debugger.old.trail.steps ≡ debugger.old.trail.depth }
    requires fits { debugger.old.trail.depth + fuel ≤ STEPS_MAX }
    requires reaches { AllByRecursion (λ cs. Reaches S.decides fuel cs debugger.old.world) (choices_of from.now) }
    ensures ok { IfOk result (λ l. l.made.items ≡ numbered 0 (all_longer S.decides fuel debugger.old.world from.now)) }
    ensures few { IfOk result (λ l. length l.made.items ≤ PIECES_MAX) }
    ensures still { IfOk result (λ l. l.grows ≡ false → all_longer S.decides fuel debugger.old.world from.now ≡ choices_of from.now) }
    ensures many { IsErrOf result SplitFault.TooManyPieces → PIECES_MAX < length (all_longer S.decides fuel debugger.old.world from.now) }
    ensures as_found { AsFound (standing_of debugger.old) (standing_of debugger.new) }
{
    debugger.state_is_reached();
    let mut made = Vec::new(alloc);
    let mut grows = false;
    for piece in from {
        match push_grown(
            alloc,
            schedule,
            debugger,
            fuel,
            &piece.choices.items,
            &mut made,
        ) {
            Ok(more) => grows = either(grows, more),
            Err(fault) => return Err(fault),
        }
    }
    Ok(Level { made, grows })
}

/// The piece of no choice.
fn first_piece(alloc: Global) -> Result<Vec<Piece>, SplitFault>
    ensures ok { IfOk result (λ v. v.items ≡ numbered 0 ([] ∷ [])) }
    ensures memory { IsErrOf result SplitFault.TooManyPieces → ⊥ }
{
    let mut made = Vec::new(alloc);
    made.reserve(1)?;
    let choices = ChoiceList {
        items: Vec::new(alloc),
    };
    made.push_reserved(Piece { number: 0, choices });
    Ok(made)
}

/// The runs from here along a schedule, cut into pieces.
fn split_along<S: Schedule>(
    alloc: Global,
    schedule: &S,
    debugger: &mut Debugger<'_>,
    choices: usize,
    fuel: usize,
) -> Result<Vec<Piece>, SplitFault>
    requires clean { length debugger.old.trail.steps ≡ debugger.old.trail.depth }
    requires fits { debugger.old.trail.depth + fuel ≤ STEPS_MAX }
    ensures ok { IfOk result (λ v. v.items ≡ numbered 0 (pieces S.decides choices fuel debugger.old.world)) }
    ensures few { OnOk result (length (pieces S.decides choices fuel debugger.old.world) ≤ PIECES_MAX) }
    ensures many { IsErrOf result SplitFault.TooManyPieces → PIECES_MAX < length (pieces S.decides choices fuel debugger.old.world) }
    ensures as_found { AsFound (standing_of debugger.old) (standing_of debugger.new) }
{
    schedule.can_be_followed();
    debugger.state_is_reached();
    let mut made = first_piece(alloc)?;
    for choice in 0..choices {
        let level = match grown(alloc, schedule, debugger, fuel, &made) {
            Ok(level) => level,
            Err(fault) => return Err(fault),
        };
        made = level.made;
        if !level.grows {
            return Ok(made);
        }
    }
    Ok(made)
}

/// Cuts the runs from here into pieces by their first `choices` choices (docs/DEFINITIONS.md,
/// "Pieces"): the runs of the walk, or with `ends` those of the wide walk. Fuel counts from here;
/// of the limits nothing else matters. A run that makes fewer choices, since it ends or its fuel
/// does, is a piece by those that it makes. The pieces are numbered from 0, in order. Requires that
/// no step is undone, and that depth and fuel together are at most 1,000,000 steps. Refused if
/// there are more than 1,024 pieces (31), or if memory is refused. The debugger is left as found,
/// also on a refusal.
pub fn split_by(
    alloc: Global,
    debugger: &mut Debugger<'_>,
    choices: usize,
    limits: SearchLimits,
) -> Result<Vec<Piece>, SplitFault>
    requires clean { length debugger.old.trail.steps ≡ debugger.old.trail.depth }
    requires fits { debugger.old.trail.depth + limits.fuel ≤ STEPS_MAX }
    ensures ok { IfOk result (λ v. v.items ≡ numbered 0 (pieces (decides_by limits.ends) choices limits.fuel debugger.old.world)) }
    ensures few { OnOk result (length (pieces (decides_by limits.ends) choices limits.fuel debugger.old.world) ≤ PIECES_MAX) }
    ensures many { IsErrOf result SplitFault.TooManyPieces → PIECES_MAX < length (pieces (decides_by limits.ends) choices limits.fuel debugger.old.world) }
    ensures as_found { AsFound (standing_of debugger.old) (standing_of debugger.new) }
{
    if limits.ends {
        return split_along(alloc, &Wide, debugger, choices, limits.fuel);
    }
    split_along(alloc, &Plain, debugger, choices, limits.fuel)
}
