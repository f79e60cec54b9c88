//! What is told of some runs, put together from parts.

ghost use Rattle.std.specs.Prelude.{◌≡◌, ◌∷◌, [], ◌++◌, ◌-◌, ◌<◌, IfOk, OnOk, OnErr, replicate, max, length};
ghost use Rattle.mpd_outcomes.specs.declared.report.Count.TheVariants as count_is;
ghost use Rattle.mpd_outcomes.specs.Outcomes.{plus};
ghost use Rattle.mpd_outcomes.specs.Sums.{added, one_at};

use crate::report::Count;
use std::alloc::{AllocError, Global};

/// How many of some runs end in each of the ways that are known, by the number of the way, and how many there are in all.
#[derive(Drop)]
pub(crate) struct Tally {
    pub(crate) counts: Vec<Count>,
    pub(crate) total: Count,
}

/// What is told of some runs, and the depth that the longest of them comes to: one more if it is
/// cut.
#[derive(Drop)]
pub(crate) struct Sums {
    pub(crate) tally: Tally,
    pub(crate) deepest: usize,
}

/// Adds counts, each to the one of its number. If there is none, it is 0. `Err` means that memory
/// was refused, which happens only if there are counts to add.
fn add_counts(counts: &mut Vec<Count>, others: &[Count]) -> Result<(), AllocError>
    ensures counts { OnOk result (counts.new.items ≡ added counts.old.items others.now) }
    ensures memory { OnErr result (0 < length others.now) }
{
    let many = others.len();
    counts.reserve_exact(many.saturating_sub(counts.len()))?;
    for number in 0..many {
        if number < counts.len() {
            counts[number] = counts[number].plus(others[number]);
        } else {
            counts.push(others[number])?;
        }
    }
    Ok(())
}

/// Makes counts as many as there are ways, by zeros at the end. `Err` means that memory was
/// refused, which happens only if there are fewer.
pub(crate) fn pad(counts: &mut Vec<Count>, many: usize) -> Result<(), AllocError>
    ensures counts { OnOk result (counts.new.items ≡ counts.old.items ++ replicate (many - length counts.old.items) (count_is.Exactly 0)) }
    ensures memory { OnErr result (length counts.old.items < many) }
{
    let missing = many.saturating_sub(counts.len());
    for _done in 0..missing {
        counts.push(Count::Exactly(0))?;
    }
    Ok(())
}

impl Tally {
    /// That of no run.
    pub(crate) fn none(alloc: Global) -> Tally
        ensures counts { result.counts.items ≡ [] }
        ensures total { result.total ≡ count_is.Exactly 0 }
    {
        Tally {
            counts: Vec::new(alloc),
            total: Count::Exactly(0),
        }
    }

    /// That of one run, which ends in the way of a number.
    fn one(alloc: Global, number: usize) -> Result<Tally, AllocError>
        ensures counts { IfOk result (λ t. t.counts.items ≡ one_at number) }
        ensures total { IfOk result (λ t. t.total ≡ count_is.Exactly 1) }
    {
        let mut counts = Vec::new(alloc);
        pad(&mut counts, number)?;
        counts.push(Count::Exactly(1))?;
        Ok(Tally {
            counts,
            total: Count::Exactly(1),
        })
    }

    /// Adds what is told of other runs. `Err` means that memory was refused, which happens only if
    /// counts are told of them.
    pub(crate) fn add(&mut self, other: &Tally) -> Result<(), AllocError>
        ensures counts { OnOk result (self.new.counts.items ≡ added self.old.counts.items other.now.counts.items) }
        ensures total { OnOk result (self.new.total ≡ plus self.old.total other.now.total) }
        ensures memory { OnErr result (0 < length other.now.counts.items) }
    {
        add_counts(&mut self.counts, &other.counts)?;
        self.total = self.total.plus(other.total);
        Ok(())
    }
}

/// The greater of two depths.
fn deeper(one: usize, other: usize) -> usize
    ensures { result ≡ max one other }
{
    if one < other { other } else { one }
}

impl Sums {
    /// Adds what is told of other runs, which come to a depth.
    pub(crate) fn add(&mut self, other: &Tally, depth: usize) -> Result<(), AllocError>
        ensures counts { OnOk result (self.new.tally.counts.items ≡ added self.old.tally.counts.items other.now.counts.items) }
        ensures total { OnOk result (self.new.tally.total ≡ plus self.old.tally.total other.now.total) }
        ensures deepest { OnOk result (self.new.deepest ≡ max self.old.deepest depth) }
    {
        self.tally.add(other)?;
        self.deepest = deeper(self.deepest, depth);
        Ok(())
    }

    /// Adds a run that ends in the way of a number, and comes to a depth.
    pub(crate) fn add_run(
        &mut self,
        alloc: Global,
        number: usize,
        depth: usize,
    ) -> Result<(), AllocError>
        ensures counts { OnOk result (self.new.tally.counts.items ≡ added self.old.tally.counts.items (one_at number)) }
        ensures total { OnOk result (self.new.tally.total ≡ plus self.old.tally.total (count_is.Exactly 1)) }
        ensures deepest { OnOk result (self.new.deepest ≡ max self.old.deepest depth) }
    {
        let one = Tally::one(alloc, number)?;
        let added = self.add(&one, depth);
        drop(one);
        added
    }
}
