//! Where the line of a call comes from, and which step one is with what it is about.

ghost use Rattle.mpd_explain.specs.CallLaws.{CallsNameTheirStatements};
ghost use Rattle.mpd_explain.specs.StepLaws.{PlacedStepsAreTheirSteps};

/// A law: the call that a local step issues names the statement that its rank was at before that
/// step. So the line that is told of a call is the line where its rank stood as it issued it.
pub fn calls_name_their_statements()
    ensures { CallsNameTheirStatements }
{}

/// A law: a step with what it is about is that step, on any state.
pub fn placed_steps_are_their_steps()
    ensures { PlacedStepsAreTheirSteps }
{}
