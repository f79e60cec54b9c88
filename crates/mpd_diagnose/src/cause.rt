//! What kind of end a run comes to, and the lines of the script at which it stands.

ghost use Rattle.std.specs.Prelude.{◌≡◌, IfOk, OnOk};
ghost use Rattle.std.specs.Ordering.{nat_cmp};
ghost use Rattle.std.specs.BTreeSet.{insert_key};
ghost use Rattle.mpd_diagnose.specs.Causes as spec;

use mpd_core::Core;
use mpd_explore::Ending;
use mpd_model::{IssuedCall, Outcome, TrappedRank};
use mpd_names::{issue_line, rank_line, stand};
use std::alloc::{AllocError, Global};
use std::collections::BTreeSet;
use std::marker::Model;

/// Adds a number to some.
fn insert(numbers: &mut BTreeSet<usize>, number: usize) -> Result<(), AllocError>
    ensures { OnOk result (numbers.new.keys ≡ insert_key nat_cmp numbers.old.keys number) }
{
    numbers.insert(number)?;
    Ok(())
}

/// The lines where calls were issued, each once.
fn call_lines(
    alloc: Global,
    core: &Core<'_>,
    calls: &[IssuedCall],
) -> Result<BTreeSet<usize>, AllocError>
    ensures { IfOk result (λ s. s.keys ≡ spec.call_lines core.now.program core.now.world.board calls.now) }
{
    let mut lines = BTreeSet::new(alloc);
    for call in calls {
        insert(&mut lines, issue_line(core, call.id))?;
    }
    Ok(lines)
}

/// The lines where trapped ranks stand, each once.
fn trap_lines(
    alloc: Global,
    core: &Core<'_>,
    traps: &[TrappedRank],
) -> Result<BTreeSet<usize>, AllocError>
    ensures { IfOk result (λ s. s.keys ≡ spec.trap_lines core.now.program core.now.world traps.now) }
{
    let mut lines = BTreeSet::new(alloc);
    for trapped in traps {
        insert(&mut lines, rank_line(core, trapped.rank))?;
    }
    Ok(lines)
}

/// Adds a number to some, but for 0.
fn insert_some(numbers: &mut BTreeSet<usize>, number: usize) -> Result<(), AllocError>
    ensures { OnOk result (numbers.new.keys ≡ spec.with_some numbers.old.keys number) }
{
    if number == 0 {
        Ok(())
    } else {
        insert(numbers, number)
    }
}

/// The line, from 1, where a rank stands; 0 of one that has ended.
#[tactic(auto, using(crate::proofs::StandLemmas::standing_is))]
fn standing_line(core: &Core<'_>, rank: usize) -> usize
    ensures { result ≡ spec.standing_line core.now.program core.now.world rank }
{
    stand(core, rank).unwrap_or(0)
}

/// The lines where ranks stand, each once: a rank that has ended stands nowhere.
fn standing_lines(alloc: Global, core: &Core<'_>) -> Result<BTreeSet<usize>, AllocError>
    ensures { IfOk result (λ s. s.keys ≡ spec.standing_lines core.now.program core.now.world) }
{
    let mut lines = BTreeSet::new(alloc);
    let count = core.rank_count();
    for rank in 0..count {
        insert_some(&mut lines, standing_line(core, rank))?;
    }
    Ok(lines)
}

/// Some numbers as a list, the least first.
fn listed(alloc: Global, numbers: &BTreeSet<usize>) -> Result<Vec<usize>, AllocError>
    ensures { IfOk result (λ list. list.items ≡ numbers.now.keys) }
{
    let mut list = Vec::new(alloc);
    for number in numbers {
        list.push(*number)?;
    }
    Ok(list)
}

/// Lines of a script, the least first, each once; contracts see them as a list.
#[derive(Drop)]
pub struct LineList {
    pub items: Vec<usize>,
}

impl Model for LineList {
    ghost use Rattle.std.specs.Prelude.{List, ℕ};

    ghost Value = { List ℕ };

    ghost view = { λ l. l.items.items };
}

/// How a run ends, without where.
#[derive(Clone, Copy)]
pub enum EndKind {
    Done,
    Leftovers,
    Deadlock,
    Trap,
    Cut,
}

impl EndKind {
    /// Whether it is a deadlock or a trap.
    pub fn is_bad(self) -> bool
        ensures { result ≡ spec.is_bad self }
    {
        match self {
            EndKind::Deadlock | EndKind::Trap => true,
            EndKind::Done | EndKind::Leftovers | EndKind::Cut => false,
        }
    }
}

/// What kind of end a run comes to, and where it stands.
#[derive(Drop)]
pub struct Cause {
    pub kind: EndKind,
    /// The lines where its calls were issued, or its trapped ranks stand, or, if it is cut, all
    /// ranks that haven't ended; none of a run that is done.
    pub lines: LineList,
}

/// How a run ends, without where.
fn kind_of(ending: &Ending) -> EndKind
    ensures { result ≡ spec.kind_of ending.now }
{
    match ending {
        Ending::Ended(Outcome::Done) => EndKind::Done,
        Ending::Ended(Outcome::Leftovers(_)) => EndKind::Leftovers,
        Ending::Ended(Outcome::Deadlock(_)) => EndKind::Deadlock,
        Ending::Ended(Outcome::Trap(_)) => EndKind::Trap,
        Ending::Cut => EndKind::Cut,
    }
}

/// The lines at which an end stands that a run comes to; none where a run ends well.
fn lines_of(alloc: Global, core: &Core<'_>, ending: &Ending) -> Result<Vec<usize>, AllocError>
    ensures { IfOk result (λ list. list.items ≡ spec.lines_in core.now.program core.now.world ending.now) }
{
    match ending {
        Ending::Ended(Outcome::Deadlock(calls)) => {
            listed(alloc, &call_lines(alloc, core, &calls.items)?)
        }
        Ending::Ended(Outcome::Trap(traps)) => {
            listed(alloc, &trap_lines(alloc, core, &traps.items)?)
        }
        Ending::Ended(Outcome::Leftovers(calls)) => {
            listed(alloc, &call_lines(alloc, core, &calls.items)?)
        }
        Ending::Cut => listed(alloc, &standing_lines(alloc, core)?),
        Ending::Ended(Outcome::Done) => Ok(Vec::new(alloc)),
    }
}

/// What kind of end a run comes to in this state, and where it stands.
pub(crate) fn cause_of(alloc: Global, core: &Core<'_>, ending: &Ending) -> Result<Cause, AllocError>
    ensures { IfOk result (λ cause. cause ≡ spec.cause_of core.now.program core.now.world ending.now) }
{
    let lines = lines_of(alloc, core, ending)?;
    Ok(Cause {
        kind: kind_of(ending),
        lines: LineList { items: lines },
    })
}

/// Whether two are the same.
pub(crate) fn same_kind(one: EndKind, other: EndKind) -> bool
    ensures { result ≡ spec.same_kind one other }
{
    matches!(
        (one, other),
        (EndKind::Done, EndKind::Done)
            | (EndKind::Leftovers, EndKind::Leftovers)
            | (EndKind::Deadlock, EndKind::Deadlock)
            | (EndKind::Trap, EndKind::Trap)
            | (EndKind::Cut, EndKind::Cut)
    )
}

/// Whether a line is one of these.
fn is_one_of(lines: &[usize], wanted: usize) -> bool
    ensures { result ≡ spec.is_one_of lines.now wanted }
{
    lines.iter().any(|line| *line == wanted)
}

/// Whether all of some lines are among others.
fn are_among(many: &[usize], few: &[usize]) -> bool
    ensures { result ≡ spec.are_among many.now few.now }
{
    few.iter().all(|line| is_one_of(many, *line))
}

/// Whether some lines are all among others, and not all of those among them.
fn is_less(few: &[usize], many: &[usize]) -> bool
    ensures { result ≡ spec.is_less few.now many.now }
{
    are_among(many, few) && !are_among(few, many)
}

impl Cause {
    /// Whether two ends are of one kind, and stand at the same lines.
    pub fn is_same(&self, other: &Cause) -> bool
        ensures { result ≡ spec.same_cause self.now other.now }
    {
        let one = &self.lines.items;
        let two = &other.lines.items;
        same_kind(self.kind, other.kind) && (are_among(one, two) && are_among(two, one))
    }

    /// Whether two ends are of one kind, and this one stands at all lines of the other, and at
    /// more.
    pub fn exceeds(&self, other: &Cause) -> bool
        ensures { result ≡ spec.exceeds self.now other.now }
    {
        same_kind(self.kind, other.kind) && is_less(&other.lines.items, &self.lines.items)
    }
}
