//! Ends that are told together, since they are of the same kind and stand at the same lines.

ghost use Rattle.std.specs.Prelude.{◌≡◌, ◌++◌, ◌∷◌, [], if◌then◌else◌, IfOk, OnOk, map, slice_get};
ghost use Rattle.std.specs.List.{filter, list_any};
ghost use Rattle.mpd_outcomes.specs.declared.report.Count.TheVariants as count_is;
ghost use Rattle.mpd_diagnose.specs.Groups as spec;

use crate::along::LeafEnd;
use crate::cause::EndKind;
use mpd_explain::push_if;
use mpd_outcomes::Count;
use std::alloc::{AllocError, Global};

/// Ends that are told together. Ends are told by their numbers, from 0.
#[derive(Clone, Copy)]
pub struct Group {
    /// The first of them.
    pub first: usize,
    /// How many runs end so.
    pub count: Count,
    /// The one that is shown: that of a run with the fewest steps.
    pub shown: usize,
}

/// Whether the ends of two numbers are of one kind, and stand at the same lines.
fn same_at(ends: &[LeafEnd], one: usize, other: usize) -> bool
    ensures { result ≡ spec.same_at ends.now one other }
{
    match (ends.get(one), ends.get(other)) {
        (Some(one), Some(other)) => one.cause.is_same(&other.cause),
        _ => false,
    }
}

/// Whether the end of a number is as that of one of some numbers.
fn is_known(ends: &[LeafEnd], numbers: &[usize], number: usize) -> bool
    ensures { result ≡ list_any (spec.same_at ends.now number) numbers.now }
{
    numbers.iter().any(|known| same_at(ends, number, *known))
}

/// The numbers of the ends that are as none before them. Each is compared with those that were
/// found, and with no others.
fn firsts(alloc: Global, ends: &[LeafEnd]) -> Result<Vec<usize>, AllocError>
    ensures { IfOk result (λ numbers. numbers.items ≡ spec.firsts ends.now) }
{
    let mut numbers = Vec::new(alloc);
    let count = ends.len();
    for number in 0..count {
        let is_known = is_known(ends, &numbers, number);
        push_if(&mut numbers, number, !is_known)?;
    }
    Ok(numbers)
}

/// The numbers of the ends that are as this one.
fn members(alloc: Global, ends: &[LeafEnd], number: usize) -> Result<Vec<usize>, AllocError>
    ensures { IfOk result (λ numbers. numbers.items ≡ spec.members ends.now number) }
{
    let mut numbers = Vec::new(alloc);
    let count = ends.len();
    for other in 0..count {
        push_if(&mut numbers, other, same_at(ends, number, other))?;
    }
    Ok(numbers)
}

/// How many runs end in the ways of some numbers.
fn count_of(counts: &[Count], numbers: &[usize]) -> Count
    ensures { result ≡ spec.with_counts counts.now (count_is.Exactly 0) numbers.now }
{
    let mut sum = Count::Exactly(0);
    for number in numbers {
        let count = counts.get(*number).copied().unwrap_or(Count::Exactly(0));
        sum = sum.plus(count);
    }
    sum
}

/// How many steps the run of the end of a number has; none if there is no such end.
fn steps_at(ends: &[LeafEnd], number: usize) -> usize
    ensures { result ≡ spec.steps_in (slice_get ends.now number) }
{
    match ends.get(number) {
        None => 0,
        Some(end) => end.steps,
    }
}

/// The second of two numbers if its run has fewer steps, else the first.
fn shorter(ends: &[LeafEnd], one: usize, other: usize) -> usize
    ensures { result ≡ spec.shorter ends.now one other }
{
    if steps_at(ends, other) < steps_at(ends, one) {
        other
    } else {
        one
    }
}

/// Of a number and others the one whose run has the fewest steps, and of several such the first.
fn shortest(ends: &[LeafEnd], number: usize, others: &[usize]) -> usize
    ensures { result ≡ spec.shortest ends.now number others.now }
{
    let mut shown = number;
    for other in others {
        shown = shorter(ends, shown, *other);
    }
    shown
}

/// What is told together with the end of this number.
fn group_of(
    alloc: Global,
    ends: &[LeafEnd],
    counts: &[Count],
    number: usize,
) -> Result<Group, AllocError>
    ensures { IfOk result (λ group. group ≡ spec.group_of ends.now counts.now number) }
{
    let numbers = members(alloc, ends, number)?;
    Ok(Group {
        first: number,
        count: count_of(counts, &numbers),
        shown: shortest(ends, number, &numbers),
    })
}

/// Whether the end of a number is anything but that a run is done.
fn is_told(ends: &[LeafEnd], number: usize) -> bool
    ensures { result ≡ spec.is_told ends.now number }
{
    match ends.get(number) {
        None => false,
        Some(end) => !matches!(end.cause.kind, EndKind::Done),
    }
}

/// Those of some numbers of which this is so.
fn told(alloc: Global, ends: &[LeafEnd], numbers: &[usize]) -> Result<Vec<usize>, AllocError>
    ensures { IfOk result (λ ns. ns.items ≡ filter (spec.is_told ends.now) numbers.now) }
{
    let mut chosen = Vec::new(alloc);
    for number in numbers {
        push_if(&mut chosen, *number, is_told(ends, *number))?;
    }
    Ok(chosen)
}

/// What is told together with the ends of these numbers, each the first of its kind.
fn groups_by(
    alloc: Global,
    ends: &[LeafEnd],
    counts: &[Count],
    numbers: &[usize],
) -> Result<Vec<Group>, AllocError>
    ensures { IfOk result (λ groups. groups.items ≡ map (spec.group_of ends.now counts.now) numbers.now) }
{
    let mut groups = Vec::new(alloc);
    for number in numbers {
        let group = group_of(alloc, ends, counts, *number)?;
        groups.push(group)?;
    }
    Ok(groups)
}

// ---- their order

/// Whether ends that are told together are deadlocks or traps.
fn is_bad_group(ends: &[LeafEnd], group: Group) -> bool
    ensures { result ≡ spec.is_bad_at ends.now group }
{
    match ends.get(group.first) {
        None => false,
        Some(end) => end.cause.kind.is_bad(),
    }
}

/// Adds what is told together, if it is chosen.
fn push_group_if(chosen: &mut Vec<Group>, group: Group, is_chosen: bool) -> Result<(), AllocError>
    ensures { OnOk result (chosen.new.items ≡ chosen.old.items ++ (if is_chosen then group ∷ [] else [])) }
{
    if is_chosen {
        chosen.push(group)?;
    }
    Ok(())
}

/// Whether ends that are told together stand at all lines of others of their kind, and at more.
fn exceeds(ends: &[LeafEnd], group: Group, other: Group) -> bool
    ensures { result ≡ spec.exceeds_at ends.now group other }
{
    match (ends.get(group.first), ends.get(other.first)) {
        (Some(one), Some(two)) => one.cause.exceeds(&two.cause),
        _ => false,
    }
}

/// Whether they do so of any of those that are told.
fn is_wide(ends: &[LeafEnd], groups: &[Group], group: Group) -> bool
    ensures { result ≡ spec.is_wide ends.now groups.now group }
{
    groups.iter().any(|other| exceeds(ends, group, *other))
}

/// Which groups are meant: deadlocks and traps or others, and of these those that stand at all
/// lines of others and at more, or those that don't.
#[derive(Clone, Copy)]
struct Part {
    bad: bool,
    wide: bool,
}

/// Whether a group is meant.
fn is_of(part: Part, ends: &[LeafEnd], groups: &[Group], group: Group) -> bool
    ensures { result ≡ spec.is_of part.bad part.wide ends.now groups.now group }
{
    is_bad_group(ends, group) == part.bad && is_wide(ends, groups, group) == part.wide
}

/// Adds those groups that are meant.
fn push_those(
    chosen: &mut Vec<Group>,
    ends: &[LeafEnd],
    groups: &[Group],
    part: Part,
) -> Result<(), AllocError>
    ensures { OnOk result (chosen.new.items ≡ chosen.old.items ++ filter (spec.is_of part.bad part.wide ends.now groups.now) groups.now) }
{
    for group in groups {
        push_group_if(chosen, *group, is_of(part, ends, groups, *group))?;
    }
    Ok(())
}

/// Groups, those that are deadlocks or traps before all others; of each those that stand at all
/// lines of others and at more come last.
fn bad_first(alloc: Global, ends: &[LeafEnd], groups: &[Group]) -> Result<Vec<Group>, AllocError>
    ensures { IfOk result (λ ordered. ordered.items ≡ spec.bad_first ends.now groups.now) }
{
    let mut ordered = Vec::new(alloc);
    let hard = Part {
        bad: true,
        wide: false,
    };
    let soft = Part { bad: false, ..hard };
    push_those(&mut ordered, ends, groups, hard)?;
    push_those(&mut ordered, ends, groups, Part { wide: true, ..hard })?;
    push_those(&mut ordered, ends, groups, soft)?;
    push_those(&mut ordered, ends, groups, Part { wide: true, ..soft })?;
    Ok(ordered)
}

/// Ends by their kind and lines, with how many runs end so: those that are alike together, in the
/// order of the first of each, but deadlocks and traps before all others, and of each those that
/// stand at all lines of others and at more last. Runs that are done are left out.
pub(crate) fn groups_of(
    alloc: Global,
    ends: &[LeafEnd],
    counts: &[Count],
) -> Result<Vec<Group>, AllocError>
    ensures { IfOk result (λ groups. groups.items ≡ spec.groups_of ends.now counts.now) }
{
    let kinds = firsts(alloc, ends)?;
    let numbers = told(alloc, ends, &kinds)?;
    let groups = groups_by(alloc, ends, counts, &numbers)?;
    bad_first(alloc, ends, &groups)
}
