//! Keeping the leaves of a sample in the order of their choices, each once.

ghost use Rattle.std.specs.Prelude.{◌≡◌, true, ◌+◌, ◌<◌, ◌≤◌, ℕ, List, [], drop, if◌then◌else◌, length, map, IfOk, OnOk, OnErr, string_bytes, vec_len};
ghost use Rattle.std.specs.List.{insert};
ghost use Rattle.std.specs.Ordering.{is_lt, is_eq};
ghost use Rattle.mpd_model.specs.runs.Trail.{done_steps};
ghost use Rattle.mpd_explore.specs.declared.report.SearchLeaf as leaves;
ghost use Rattle.mpd_explore.specs.Witness.{witness_by};
ghost use Rattle.mpd_explore.specs.WitnessTexts.{behind_number};
ghost use Rattle.mpd_explore.specs.Asked.{are_asked, asked_text};
ghost use Rattle.mpd_runs.specs.Order.{order, Rises, with_leaf};
ghost use Rattle.mpd_runs.specs.Drawing.{IsPlace, begins_with, TextsAre, IsEven, in_box, leaves_in, texts_in};

use mpd_explore::{Ending, SearchLeaf, SearchReport, Witnesses, witness_here};
use mpd_trail::Debugger;
use std::alloc::{AllocError, Global};
use std::cmp::Ordering;

/// The leaves of a sample while its runs are drawn, in the order of their choices, and the texts of witnesses. Each stands in a box, so
/// that what is put between others moves a pointer of each of those after it.
#[derive(Drop)]
pub(crate) struct Held {
    leaves: Vec<Box<SearchLeaf>>,
    texts: Vec<Box<String>>,
}

impl Held {
    /// Nothing yet.
    pub(crate) fn new(alloc: Global) -> Held
        ensures leaves { result.leaves.items ≡ [] }
        ensures texts { result.texts.items ≡ [] }
    {
        Held {
            leaves: Vec::new(alloc),
            texts: Vec::new(alloc),
        }
    }
}

/// What stands in some boxes, in their order.
fn unboxed<T: Drop>(alloc: Global, boxes: Vec<Box<T>>) -> Result<Vec<T>, AllocError>
    ensures items { IfOk result (λ v. v.items ≡ map in_box boxes.items) }
    ensures memory { OnErr result (0 < vec_len boxes) }
{
    let mut items = Vec::with_capacity(alloc, boxes.len())?;
    for boxed in boxes {
        items.push_reserved(Box::into_inner(boxed));
    }
    Ok(items)
}

/// The report of what was held, in which nothing is said of other runs.
pub(crate) fn report_of(alloc: Global, held: Held) -> Result<SearchReport, AllocError>
    ensures leaves { IfOk result (λ r. r.leaves.items ≡ leaves_in held.leaves) }
    ensures texts { IfOk result (λ r. map string_bytes r.witnesses.items ≡ texts_in held.texts) }
    ensures memory { OnErr result (0 < vec_len held.leaves + vec_len held.texts) }
{
    let Held { leaves, texts } = held;
    let leaves = unboxed(alloc, leaves)?;
    let witnesses = unboxed(alloc, texts)?;
    Ok(SearchReport {
        leaves,
        more: false,
        witnesses,
    })
}

/// Which of two lists of choices comes first.
fn order_of(one: &[usize], other: &[usize]) -> Ordering
    ensures { result ≡ order one.now other.now }
{
    one.cmp(other)
}

/// Whether a leaf comes before some choices.
fn comes_before(leaf: &SearchLeaf, choices: &[usize]) -> bool
    ensures { result ≡ is_lt (order leaf.now.choices choices.now) }
{
    order_of(&leaf.choices.items, choices).is_lt()
}

/// One of two places.
fn either(test: bool, one: usize, other: usize) -> usize
    ensures { result ≡ (if test then one else other) }
{
    if test { one } else { other }
}

/// The place of some choices among leaves that rise: how many of these come before them.
fn place_of(leaves: &[Box<SearchLeaf>], choices: &[usize]) -> usize
    requires rises { Rises (map in_box leaves.now) }
    ensures { IsPlace choices.now (map in_box leaves.now) result }
{
    let mut low = 0;
    let mut high = leaves.len();
    while low < high {
        let middle = low + (high - low) / 2;
        let is_before = comes_before(&leaves[middle], choices);
        low = either(is_before, middle + 1, low);
        high = either(is_before, high, middle);
    }
    low
}

/// Whether a leaf has these choices.
fn has_choices(leaf: &SearchLeaf, choices: &[usize]) -> bool
    ensures { result ≡ is_eq (order leaf.now.choices choices.now) }
{
    order_of(&leaf.choices.items, choices).is_eq()
}

/// Whether the leaf at this place has these choices.
fn is_there(leaves: &[Box<SearchLeaf>], place: usize, choices: &[usize]) -> bool
    requires { place ≤ length leaves.now }
    ensures { result ≡ begins_with choices.now (drop place (map in_box leaves.now)) }
{
    if place == leaves.len() {
        return false;
    }
    has_choices(&leaves[place], choices)
}

/// Adds the text of the witness of a run that ends here so, at a place, if any are asked for: the
/// empty one if this one isn't.
fn add_text(
    alloc: Global,
    debugger: &Debugger<'_>,
    asked: Witnesses,
    ending: &Ending,
    place: usize,
    texts: &mut Vec<Box<String>>,
) -> Result<(), AllocError>
    requires within { are_asked asked ≡ true → place ≤ length texts.old.items }
    ensures { OnOk result (texts_in texts.new ≡ (if are_asked asked then insert (texts_in texts.old) place (asked_text asked ending.now (behind_number (witness_by (done_steps debugger.now.trail) ending.now))) else texts_in texts.old)) }
{
    if !asked.are_asked() {
        return Ok(());
    }
    let text = witness_here(alloc, debugger, asked, ending)?;
    texts.insert(place, Box::new(alloc, text)?)?;
    Ok(())
}

/// Adds a leaf, at which the debugger stands, to those held, which rise, at its place, and the text
/// of its witness, if any are asked for. Nothing is added if a leaf with its choices is there.
pub(crate) fn keep_leaf(
    alloc: Global,
    debugger: &Debugger<'_>,
    asked: Witnesses,
    leaf: SearchLeaf,
    held: &mut Held,
) -> Result<(), AllocError>
    requires rises { Rises (leaves_in held.old.leaves) }
    requires even { IsEven (are_asked asked) (leaves_in held.old.leaves) (texts_in held.old.texts) }
    ensures leaves { OnOk result (leaves_in held.new.leaves ≡ with_leaf leaf (leaves_in held.old.leaves)) }
    ensures texts { OnOk result ((text : leaves.SearchLeaf → List ℕ) → text leaf ≡ asked_text asked leaf.ending (behind_number (witness_by (done_steps debugger.now.trail) leaf.ending)) → TextsAre (are_asked asked) text (leaves_in held.old.leaves) (texts_in held.old.texts) → TextsAre (are_asked asked) text (leaves_in held.new.leaves) (texts_in held.new.texts)) }
{
    let place = place_of(&held.leaves, &leaf.choices.items);
    if is_there(&held.leaves, place, &leaf.choices.items) {
        drop(leaf);
        return Ok(());
    }
    if let Err(fault) = add_text(alloc, debugger, asked, &leaf.ending, place, &mut held.texts) {
        drop(leaf);
        return Err(fault);
    }
    held.leaves.insert(place, Box::new(alloc, leaf)?)?;
    Ok(())
}
