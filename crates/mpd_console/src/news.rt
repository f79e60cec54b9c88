//! What the steps of a word brought: what ranks print by them, and the requests that are lost by
//! them (docs/CONSOLE.md, "Answers").

ghost use Rattle.std.specs.Prelude.{◌≡◌, ◌++◌, IfOk, OnErr, OnOk, drop, false, get_or, map, slice_get};
ghost use Rattle.mpd_console.specs.News as spec;

use crate::told::{News, Printed, PrintedList};
use mpd_core::Core;
use mpd_explain::lost_calls;
use mpd_model::CallList;
use mpd_session::NumberList;
use mpd_trail::Debugger;
use mpd_vocabulary::Word;
use std::alloc::{AllocError, Global};

/// What is known of a session before a word, so that it can be told after the word what its steps
/// brought.
#[derive(Drop)]
pub struct Known {
    /// How many steps are not undone.
    pub depth: usize,
    /// How many values each rank has printed.
    pub printed: NumberList,
    /// The requests that are lost.
    pub lost: CallList,
    /// How many steps that are ahead will be gone.
    pub gone: usize,
}

/// How many values a rank has printed; of a rank that isn't there none.
#[tactic(auto, using(crate::proofs::NewsLemmas::absent))]
fn printed_count(core: &Core<'_>, rank: usize) -> usize
    ensures { result ≡ spec.printed_count (slice_get core.now.world.ranks rank) }
{
    if rank >= core.rank_count() {
        return 0;
    }
    core.rank(rank).output().len()
}

/// How many values each rank has printed.
fn printed_counts(alloc: Global, core: &Core<'_>) -> Result<Vec<usize>, AllocError>
    ensures { IfOk result (λ v. v.items ≡ spec.printed_counts core.now.world) }
{
    let mut counts = Vec::new(alloc);
    let ranks = core.rank_count();
    for rank in 0..ranks {
        counts.push(printed_count(core, rank))?;
    }
    Ok(counts)
}

/// What is known of a session, given how many steps that are ahead will be gone. `Err` means that
/// memory was refused.
fn known_of(alloc: Global, debugger: &Debugger<'_>, gone: usize) -> Result<Known, AllocError>
    ensures { IfOk result (λ k. k ≡ spec.known_of debugger.now.trail debugger.now.world gone) }
{
    let core = debugger.core();
    let printed = printed_counts(alloc, core)?;
    let lost = lost_calls(alloc, core)?;
    Ok(Known {
        depth: debugger.depth(),
        printed: NumberList { items: printed },
        lost: CallList { items: lost },
        gone,
    })
}

/// Whether a word only goes back.
fn goes_back(word: Word) -> bool
    ensures { result ≡ spec.goes_back word }
{
    matches!(
        word,
        Word::Back(_) | Word::BackRank(_) | Word::RunBack | Word::UndoChoice
    )
}

/// What is known before a word is done, given how many steps that are ahead will be gone by it: of
/// one that goes back the depth alone, which takes no memory. `Err` means that memory was refused.
pub fn known_for(
    alloc: Global,
    debugger: &Debugger<'_>,
    word: Word,
    gone: usize,
) -> Result<Known, AllocError>
    ensures known { IfOk result (λ k. k ≡ spec.known_for debugger.now.trail debugger.now.world word gone) }
    ensures memory { OnErr result (spec.goes_back word ≡ false) }
{
    if goes_back(word) {
        return Ok(Known {
            depth: debugger.depth(),
            printed: NumberList {
                items: Vec::new(alloc),
            },
            lost: CallList {
                items: Vec::new(alloc),
            },
            gone: 0,
        });
    }
    known_of(alloc, debugger, gone)
}

/// Adds the values that a rank has printed after the first so many.
#[tactic(auto, using(crate::proofs::NewsLemmas::behind))]
fn push_behind(
    list: &mut Vec<Printed>,
    rank: usize,
    count: usize,
    values: &[i64],
) -> Result<(), AllocError>
    ensures { OnOk result (list.new.items ≡ list.old.items ++ map (spec.printed_value rank) (drop count values.now)) }
{
    if count >= values.len() {
        return Ok(());
    }
    let (_, behind) = values.split_at(count);
    for value in behind {
        list.push(Printed {
            rank,
            value: *value,
        })?;
    }
    Ok(())
}

/// Adds what a rank has printed after the values that were known before; of a rank that isn't there
/// nothing.
#[tactic(auto, using(crate::proofs::NewsLemmas::silent))]
fn push_printed(
    core: &Core<'_>,
    list: &mut Vec<Printed>,
    rank: usize,
    count: usize,
) -> Result<(), AllocError>
    ensures { OnOk result (list.new.items ≡ list.old.items ++ spec.printed_of rank count (slice_get core.now.world.ranks rank)) }
{
    if rank >= core.rank_count() {
        return Ok(());
    }
    push_behind(list, rank, count, core.rank(rank).output())
}

/// The number at a place, or 0 if there is none.
fn count_at(counts: &[usize], rank: usize) -> usize
    ensures { result ≡ get_or counts.now rank 0 }
{
    counts.get(rank).copied().unwrap_or(0)
}

/// What all ranks have printed after the values that were known before.
fn printed_since(
    alloc: Global,
    core: &Core<'_>,
    counts: &[usize],
) -> Result<Vec<Printed>, AllocError>
    ensures { IfOk result (λ list. list.items ≡ spec.printed_since counts.now core.now.world) }
{
    let mut list = Vec::new(alloc);
    let ranks = core.rank_count();
    for rank in 0..ranks {
        push_printed(core, &mut list, rank, count_at(counts, rank))?;
    }
    Ok(list)
}

/// What the steps of a word brought, by what was known before it.
fn news_of(alloc: Global, core: &Core<'_>, known: Known) -> Result<News, AllocError>
    ensures { IfOk result (λ news. news ≡ spec.news_of known core.now.world) }
{
    let printed = printed_since(alloc, core, &known.printed.items)?;
    let now = lost_calls(alloc, core)?;
    Ok(News {
        gone: known.gone,
        printed: PrintedList { items: printed },
        lost_before: known.lost,
        lost: CallList { items: now },
    })
}

/// The same, if more steps are taken than before it. `Err` means that memory was refused.
pub(crate) fn news_by(
    alloc: Global,
    debugger: &Debugger<'_>,
    known: Known,
) -> Result<Option<News>, AllocError>
    ensures { IfOk result (λ news. news ≡ spec.news_by known debugger.now.trail debugger.now.world) }
{
    if known.depth >= debugger.depth() {
        return Ok(None);
    }
    let news = news_of(alloc, debugger.core(), known)?;
    Ok(Some(news))
}
