//! A law of choices.

ghost use Rattle.std.specs.Prelude.{ℕ, List};
ghost use Rattle.mpd_model.specs.declared.decision.Decision.{Decision};
ghost use Rattle.mpd_model.specs.steps.World.{World};
ghost use Rattle.mpd_runs.specs.Led.{RunsOrIsBad};

/// For every schedule, world and fuel, choices describe a run, or there is a bad place among them
/// or right after the last, and never both.
pub fn a_run_or_a_bad_choice()
    ensures { (decide : World → Decision) (fuel first : ℕ) (choices : List ℕ) (w : World) → RunsOrIsBad decide fuel first choices w }
{}
