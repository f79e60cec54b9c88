//! A walk that is nowhere cut has all ends (docs/DEFINITIONS.md, "What a walk says of all runs"):
//! laws, which have no code.
#![tactic(auto)]

ghost use Rattle.mpd_complete.specs.CompleteLaws as law;
ghost use Rattle.mpd_complete.specs.WideLaws as wide;

/// Of any script and in any mode, two steps that are enabled in a world which a run reaches, and do
/// not conflict, can be taken one after the other, in either order; both ways lead to one world, up
/// to the order of match sets.
pub fn enabled_steps_commute()
    ensures { law.EnabledStepsCommute }
{}

/// A quiet step that is enabled in such a world conflicts with no other step that is, and is
/// enabled and quiet after each.
pub fn quiet_steps_stay()
    ensures { wide.QuietStepsStay }
{}

/// It can be brought to the front of any steps: either it is one of them, or it can still be taken
/// after them.
pub fn quiet_steps_come_first()
    ensures { wide.QuietStepsComeFirst }
{}

/// From a world that a run of any script reaches in any mode, whose wide walk is nowhere cut, no
/// run has more steps than the walk has fuel, every run can be continued until no step is enabled,
/// and then it has ended as a leaf of the walk does.
pub fn wide_walks_are_complete()
    ensures { wide.WideWalksAreComplete }
{}

/// What is said of a wide walk that is nowhere cut holds as well of one that takes two steps which
/// do not conflict in one order alone.
pub fn sleeping_wide_walks_are_complete()
    ensures { wide.SleepingWideWalksAreComplete }
{}

/// The definition of a wide walk in which steps may fall asleep is that of the wide walk, where
/// nothing does.
pub fn wide_walks_where_nothing_sleeps()
    ensures { wide.WideWalksWhereNothingSleeps }
{}

/// A wide walk that is nowhere cut is the same with more fuel.
pub fn whole_wide_walks_need_no_more_fuel()
    ensures { wide.WholeWideWalksNeedNoMoreFuel }
{}

/// What a wide walk lists are runs: each leads somewhere, and where it isn't cut no step is enabled
/// there, and its outcome is that world's.
pub fn runs_of_wide_walks_are_runs()
    ensures { wide.RunsOfWideWalksAreRuns }
{}

/// So are those of a wide walk that sleeps.
pub fn runs_of_sleeping_wide_walks_are_runs()
    ensures { wide.RunsOfSleepingWideWalksAreRuns }
{}

/// The wide walk of a script without a waitany, in a mode whose buffers never run out, is the walk.
pub fn wide_walks_are_walks()
    ensures { wide.WideWalksAreWalks }
{}

/// So it is where what was tried falls asleep.
pub fn sleeping_wide_walks_are_sleeping_walks()
    ensures { wide.SleepingWideWalksAreSleepingWalks }
{}

/// From a world that a run of a script without a waitany reaches, in a mode whose buffers never run
/// out, whose walk is nowhere cut, no run has more steps than the walk has fuel, every run can be
/// continued until no step is enabled, and then it has ended as a leaf of the walk does.
pub fn whole_walks_are_complete()
    ensures { law.WholeWalksAreComplete }
{}

/// A walk that is nowhere cut is the same with more fuel.
pub fn whole_walks_need_no_more_fuel()
    ensures { law.WholeWalksNeedNoMoreFuel }
{}

ghost use Rattle.mpd_complete.specs.Sleeping as sleeping;

/// The definition of a walk in which steps may fall asleep is that of the walk, where nothing does.
pub fn walks_where_nothing_sleeps()
    ensures { sleeping.WalksWhereNothingSleeps }
{}

/// What is said of a walk that is nowhere cut holds as well, of the same scripts and modes, of one
/// that takes two steps which share no call in one order alone.
pub fn sleeping_walks_are_complete()
    ensures { sleeping.SleepingWalksAreComplete }
{}

/// No two of its runs end in one world, up to the order of match sets, not even where they are cut,
/// in a script without a waitany and in any mode.
pub fn sleeping_walks_have_no_end_twice()
    ensures { sleeping.SleepingWalksHaveNoEndTwice }
{}

/// What a walk lists are runs: each leads somewhere, and where it isn't cut no step is enabled
/// there, and its outcome is that world's.
pub fn runs_of_walks_are_runs()
    ensures { law.RunsOfWalksAreRuns }
{}

/// So are those of a walk that sleeps.
pub fn runs_of_sleeping_walks_are_runs()
    ensures { sleeping.RunsOfSleepingWalksAreRuns }
{}

ghost use Rattle.mpd_complete.specs.Reported as report;

/// A report of `explore` that says that there are no other leaves, and none of whose leaves is cut,
/// has the outcome of every run that can't go on: where each end was asked for once (`ends`),
/// whatever the script and the mode; where every order was, of a script without a waitany, in a
/// mode whose buffers never run out. It is so by whatever other limits.
pub fn reports_have_all_outcomes()
    ensures { report.ReportsHaveAllOutcomes }
{}

/// From where such a report was made no run has more steps than there was fuel, and every run can
/// be continued until no step is enabled.
pub fn reports_bound_all_runs()
    ensures { report.ReportsBoundAllRuns }
{}

/// A sample of any script, in any mode, that says that there are no other leaves, so that its
/// leaves are those of the wide walk, and none of whose leaves is cut, has the outcome of every run
/// that can't go on.
pub fn samples_have_all_outcomes()
    ensures { report.SamplesHaveAllOutcomes }
{}

/// From where such a sample was drawn no run has more steps than there was fuel, and every run can
/// be continued until no step is enabled.
pub fn samples_bound_all_runs()
    ensures { report.SamplesBoundAllRuns }
{}

ghost use Rattle.mpd_complete.specs.Told as told;

/// Where what `check` answers tells all (`Tally::tells_all`), each run from the script's start has
/// at most as many steps as there was fuel, can be continued until no step is enabled, and ends as
/// a leaf of the report does: by whatever pieces and limits, with `--ends` of every script in every
/// mode.
pub fn checks_tell_all_ends()
    ensures { told.ChecksTellAllEnds }
{}

/// The same of the report of a sample.
pub fn samples_tell_all_ends()
    ensures { told.SamplesTellAllEnds }
{}

/// The same of the outcomes of a script: their first runs are leaves of all ends.
pub fn outcomes_tell_all_ends()
    ensures { told.OutcomesTellAllEnds }
{}

/// Where the verdict on a diagnosis of a script is good, no run of the script ends in a deadlock or
/// with a trap, whatever its steps and their order; each has at most as many steps as there was
/// fuel, and can be continued until no step is enabled.
pub fn good_diagnoses_are_of_all_runs()
    ensures { told.GoodDiagnosesAreOfAllRuns }
{}

/// Where a diagnosis says of a script that every run hangs or traps (`it always hangs`, `it always
/// traps`, `it always fails`), every run does, whatever its steps and their order, and as it says;
/// each has at most as many steps as there was fuel, and can be continued until no step is enabled.
pub fn failing_diagnoses_are_of_all_runs()
    ensures { told.FailingDiagnosesAreOfAllRuns }
{}

/// After the step that is told to have decided how a run ends, every run ends in a deadlock or with
/// a trap, whatever its steps and their order; so does every run from the start, where it is told
/// that no step decided it.
pub fn blames_are_of_all_runs()
    ensures { told.BlamesAreOfAllRuns }
{}

/// Where the console says that there is no deadlock or no trap from where it stands, the runs that
/// it looked at have the end of each run from there.
pub fn consoles_see_all_ends()
    ensures { told.ConsolesSeeAllEnds }
{}

ghost use Rattle.mpd_complete.specs.Drawn as drawn;

/// A run of which a diagnosis names a picture is never refused by `picture`: it shows few enough
/// glyphs to be drawn.
pub fn drawn_runs_are_few()
    ensures { drawn.DrawnRunsAreFew }
{}
