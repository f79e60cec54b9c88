//! What holds of the order of calls (docs/DEFINITIONS.md).

ghost use Rattle.mpd_laws.specs.OrderLaws as law;

/// If one call completes before another, every run shows them in that order: match sets name the
/// first one earlier, and a wait for it comes when it is done (MPI 4.0, sections 3.5 and 3.7.4).
pub fn calls_complete_in_order()
    ensures { law.CallsCompleteInOrder }
{}

/// With a receive, at most one send of each sender is eligible (MPI 4.0, section 3.5).
pub fn one_send_is_eligible()
    ensures { law.OneSendIsEligible }
{}
