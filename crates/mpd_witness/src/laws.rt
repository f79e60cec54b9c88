//! Laws of witnesses that are written and read.

ghost use Rattle.std.specs.Prelude.{◌≡◌, ℕ, ◌+◌, ◌^◌, ◌<◌, ◌++◌, true, Bool, List, Some, Ok, length, slice_get};
ghost use Rattle.std.specs.List.{AllByRecursion};
ghost use Rattle.mpd_explore.specs.declared.report.SearchLeaf.{SearchLeaf};
ghost use Rattle.mpd_explore.specs.declared.report.EndWitness.{EndWitness};
ghost use Rattle.mpd_explore.specs.declared.report.Witnesses.{Witnesses};
ghost use Rattle.mpd_explore.specs.Asked.{asks};
ghost use Rattle.mpd_model.specs.declared.decision.Decision.{Decision};
ghost use Rattle.mpd_model.specs.declared.step.Step.{Step};
ghost use Rattle.mpd_model.specs.steps.World.{World};
ghost use Rattle.mpd_explore.specs.Witness.{end_of};
ghost use Rattle.mpd_explore.specs.ReportText.{leaf_line, report_text, witness_line};
ghost use Rattle.mpd_witness.specs.WitnessText.{witness_of};
ghost use Rattle.mpd_witness.specs.WitnessLaws.{IsShort, IsShortLeaf, witness_at_leaf};
ghost use Rattle.mpd_witness.specs.ReadBack.{witness_of_report};

/// The two lines that a report has of a deadlock or a trap and of its witness are read as that
/// witness, if it has a step, and a blocked call or a trapped rank at least, and no number of more
/// than nine digits.
pub fn written_witness_is_read()
    ensures { (n m : ℕ) (l : SearchLeaf) (x : EndWitness) → n < 2 ^ 64 → m < 2 ^ 64 → AllByRecursion (λ c. c < 2 ^ 64) l.choices → end_of l.ending ≡ Some x.end → IsShort x → witness_of (leaf_line n l ++ witness_line m x) ≡ Ok x }
{}

/// From the whole text of a report with witnesses, of deadlocks or of traps too, whatever comes next
/// along its runs, and the number of a leaf whose witness it has, that witness is read, if it has a
/// step, and a blocked call or a trapped rank at least, and no line has a number of more than nine
/// digits, but for choices.
pub fn written_witness_of_a_leaf_is_read()
    ensures { (decide : World → Decision) (asked : Witnesses) (before : List Step) (fuel : ℕ) (w : World) (leaves : List SearchLeaf) (more : Bool) (n : ℕ) (l : SearchLeaf) (x : EndWitness) → length leaves < 1000000000 → AllByRecursion (IsShortLeaf decide before fuel w) leaves → slice_get leaves n ≡ Some l → asks asked l.ending ≡ true → witness_at_leaf decide before fuel w l ≡ Some x → IsShort x → witness_of_report (Some n) (report_text decide asked before fuel w leaves more) ≡ Ok x }
{}
