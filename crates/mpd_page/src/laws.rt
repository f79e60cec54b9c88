//! Laws of pages.

ghost use Rattle.mpd_page.specs.PageLaws.{ChangesLeadOn, NoMarkup, ParentsComeFirst, RunsAreShown, StartIsShown};

/// A law: the changes that are told of a step, applied to what is shown of the state before it, give what is
/// shown of the state to which it leads. What is told of the start gives what is shown there, and
/// so do the changes of a run, applied in turn, of the state to which its steps lead.
#[tactic(auto, using(crate::proofs::LawLemmas::showing))]
pub fn states_are_shown()
    ensures changes { ChangesLeadOn }
    ensures first { StartIsShown }
    ensures runs { RunsAreShown }
{}

/// A law: what is written between the two parts of the template has no `<`.
#[tactic(auto, using(crate::proofs::MarkupLemmas::no_markup))]
pub fn data_has_no_markup()
    ensures { NoMarkup }
{}

/// A law: in the tree of any runs a state has a greater number than the one from which a step leads there.
#[tactic(auto, using(crate::proofs::ParentLemmas::parents_come_first))]
pub fn parents_come_first()
    ensures { ParentsComeFirst }
{}
