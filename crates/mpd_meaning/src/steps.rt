//! What holds of the list of enabled steps, and of outcomes (docs/DEFINITIONS.md, "Steps" and "Outcomes").

ghost use Rattle.mpd_meaning.specs.StepLaws as law;

/// In every world that a run reaches, each rank has its list of calls.
pub fn reached_worlds_have_calls()
    ensures { law.ReachedWorldsHaveCalls }
{}

/// A step is in the list of enabled steps exactly if the relation of steps has a world after it.
pub fn every_step_that_leads_on_is_listed()
    ensures { law.EveryStepThatLeadsOnIsListed }
{}

/// No step is in that list twice.
pub fn no_step_is_listed_twice()
    ensures { law.NoStepIsListedTwice }
{}

/// A run has ended exactly if no step leads on.
pub fn a_run_has_ended_where_no_step_leads_on()
    ensures { law.EndedWhereNoStepLeadsOn }
{}
