//! Leaves that end in the same way: the first of each, and how many they are (docs/FORMATS.md,
//! "Groups").

ghost use Rattle.std.specs.Prelude.{◌≡◌, ◌≤◌, ◌++◌, ◌∷◌, [], if◌then◌else◌, IfOk, OnOk, length, map};
ghost use Rattle.mpd_explore.specs.Ends.{before, firsts, has_end, times};
ghost use Rattle.mpd_check.specs.Grouped.{group_of};

use mpd_explore::{ChoiceList, Ending, SearchLeaf, same_ending};
use mpd_runs::copy_ending;
use std::alloc::{AllocError, Global};

/// Leaves that end in the same way.
#[derive(Clone, Copy)]
pub struct Group {
    /// The number of the first of them, from 0.
    pub first: usize,
    /// How many they are.
    pub count: usize,
}

/// A copy of a leaf.
fn copy_leaf(alloc: Global, leaf: &SearchLeaf) -> Result<SearchLeaf, AllocError>
    ensures { IfOk result (λ l. l ≡ leaf.now) }
{
    let ending = copy_ending(alloc, &leaf.ending)?;
    let items = Vec::from_slice(alloc, &leaf.choices.items)?;
    Ok(SearchLeaf {
        choices: ChoiceList { items },
        ending,
    })
}

/// Whether one of some leaves ends so.
fn has_end(leaves: &[SearchLeaf], ending: &Ending) -> bool
    ensures { result ≡ has_end leaves.now ending.now }
{
    leaves.iter().any(|leaf| same_ending(&leaf.ending, ending))
}

/// Adds a leaf, unless one ends as it does.
fn push_new(alloc: Global, found: &mut Vec<SearchLeaf>, leaf: &SearchLeaf) -> Result<(), AllocError>
    ensures { OnOk result (found.new.items ≡ found.old.items ++ (if has_end found.old.items leaf.now.ending then [] else leaf.now ∷ [])) }
{
    if has_end(found, &leaf.ending) {
        return Ok(());
    }
    let copy = copy_leaf(alloc, leaf)?;
    found.push(copy)?;
    Ok(())
}

/// Those of some leaves that end as none before them does. Each is compared with those that were
/// found, and with no others. `Err` means that memory was refused.
pub(crate) fn first_leaves(
    alloc: Global,
    leaves: &[SearchLeaf],
) -> Result<Vec<SearchLeaf>, AllocError>
    ensures { IfOk result (λ found. found.items ≡ firsts leaves.now) }
{
    let mut found = Vec::new(alloc);
    for leaf in leaves {
        push_new(alloc, &mut found, leaf)?;
    }
    Ok(found)
}

/// How many of some leaves stand before the first that ends as this one does.
fn before(leaves: &[SearchLeaf], leaf: &SearchLeaf) -> usize
    ensures { result ≡ before leaves.now leaf.now }
{
    let mut count = 0;
    for other in leaves {
        if same_ending(&other.ending, &leaf.ending) {
            return count;
        }
        count += 1;
    }
    count
}

/// How many of some leaves end as this one does.
fn times(leaves: &[SearchLeaf], leaf: &SearchLeaf) -> usize
    ensures { result ≡ times leaves.now leaf.now }
{
    let mut count = 0;
    for other in leaves {
        if same_ending(&leaf.ending, &other.ending) {
            count += 1;
        }
    }
    count
}

/// The group of each of some leaves, of all that a report lists. `Err` means that memory was
/// refused.
pub(crate) fn groups_of(
    alloc: Global,
    leaves: &[SearchLeaf],
    firsts: &[SearchLeaf],
) -> Result<Vec<Group>, AllocError>
    ensures { IfOk result (λ groups. groups.items ≡ map (group_of leaves.now) firsts.now) }
{
    let mut groups = Vec::new(alloc);
    for first in firsts {
        groups.push(Group {
            first: before(leaves, first),
            count: times(leaves, first),
        })?;
    }
    Ok(groups)
}
