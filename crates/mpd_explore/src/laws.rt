//! What pieces say of the whole walk, and leaves of witnesses: laws, which have no code.

ghost use Rattle.mpd_explore.specs.PieceLaws as law;
ghost use Rattle.mpd_explore.specs.WitnessLaws.{ADeadlockHasAWitness};

/// The walks of all pieces, joined in order, are the walk: so they have each of its runs once, in its order.
pub fn pieces_join_to_the_walk()
    ensures { law.PiecesJoinToTheWalk }
{}

/// Some run begins with the choices of each piece, as `explore_at` requires.
pub fn each_piece_is_reached()
    ensures { law.EachPieceIsReached }
{}

/// Cut by no choice, the report of a split is the whole one.
pub fn no_choice_is_the_whole()
    ensures { law.NoChoiceIsTheWhole }
{}

/// If there is no more, the report of a split has the leaf of each run, in the order of the walk.
pub fn no_more_is_the_whole()
    ensures { law.NoMoreIsTheWhole }
{}

/// What a report has of a deadlock is a witness of that deadlock, with the calls that are blocked in it.
pub fn a_deadlock_has_a_witness()
    ensures { ADeadlockHasAWitness }
{}
