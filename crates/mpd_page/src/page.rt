//! A page of some runs (docs/PAGES.md).

ghost use Rattle.std.specs.Prelude.{◌≡◌, [], true, false, IfOk, IsErrOf};
ghost use Rattle.mpd_page.specs.Trees as tree_spec;
ghost use Rattle.mpd_page.specs.Pages.{IsPage};

use crate::data::data_text;
use crate::draw::draw_runs;
use crate::frame::{push_page_head, push_page_tail};
use crate::head::Title;
use crate::nodes::Drawn;
use crate::sink::push_harmless;
use crate::tree::PageFault;
use mpd_code::Code;
use mpd_model::{Mode, StepList};
use std::alloc::{AllocError, Global};

/// The template about a text of JSON.
#[tactic(auto, using(crate::proofs::PageLemmas::about))]
fn page_about(alloc: Global, data: &[u8]) -> Result<Vec<u8>, AllocError>
    ensures { IfOk result (λ page. IsPage page.items) }
{
    let mut out = Vec::new(alloc);
    push_page_head(&mut out)?;
    push_harmless(&mut out, data)?;
    push_page_tail(&mut out)?;
    Ok(out)
}

/// The page of runs that are drawn. Nothing between the two parts of the template has a `<`, so
/// that nothing there ends the element that it stands in, whatever stands in the script.
pub fn page_text(
    alloc: Global,
    code: &Code,
    mode: Mode,
    title: Title<'_>,
    drawn: &Drawn,
) -> Result<Vec<u8>, AllocError>
    ensures { IfOk result (λ page. IsPage page.items) }
{
    let data = data_text(alloc, code, mode, title, drawn)?;
    page_about(alloc, data.as_bytes())
}

/// The page of some runs from the start of a script, as `draw_runs` makes them: the template about
/// its data. `Memory` means that memory was refused, that a step isn't enabled, or that a run has
/// more than 1,000,000 steps.
pub fn make_page(
    alloc: Global,
    code: &Code,
    mode: Mode,
    title: Title<'_>,
    runs: &[StepList],
    states: usize,
) -> Result<Vec<u8>, PageFault>
    ensures ok { IfOk result (λ page. IsPage page.items) }
    ensures few { IfOk result (λ page. tree_spec.is_few (tree_spec.runs_tree [] runs.now) ≡ true) }
    ensures too_many { IsErrOf result PageFault.TooMany → tree_spec.is_few (tree_spec.runs_tree [] runs.now) ≡ false }
{
    let drawn = draw_runs(alloc, code, mode, title.walk, runs, states)?;
    let page = page_text(alloc, code, mode, title, &drawn)?;
    Ok(page)
}
