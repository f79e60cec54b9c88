//! Laws of moves along steps ahead (docs/CONSOLE.md, "How these words go along steps ahead").

ghost use Rattle.mpd_console.specs.Laws as law;

/// A move along steps ahead takes one of them at least, and goes to the first after which it stops, or
/// to where they end.
#[tactic(auto, using(crate::proofs::LawLemmas::first_stop))]
pub fn moves_go_to_the_first_stop()
    ensures { law.MovesGoToTheFirstStop }
{}

/// A run back that stops for a breakpoint stands before the last step that hits one, and a run from
/// there takes exactly this step, and stops for that breakpoint.
#[tactic(auto, using(crate::proofs::LawLemmas::back_last))]
pub fn runs_back_and_on_agree()
    ensures last { law.RunsBackToTheLast }
    ensures again { law.RunsOnAsItRanBack }
{}
