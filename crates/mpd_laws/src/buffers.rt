//! What holds of sends that are buffered (docs/DEFINITIONS.md, "Modes").

ghost use Rattle.mpd_laws.specs.BufferLaws as law;

/// In every run of a mode whose buffers don't run out, a send is done if it is paired, or if it is
/// a standard one and the mode buffers them all (MPI 4.0, section 3.4).
pub fn sends_are_done_by_match_or_mode()
    ensures { law.SendsAreDoneByMatchOrMode }
{}

/// In every run a synchronous send is never done before its match (MPI 4.0, section 3.4).
pub fn synchronous_sends_await_their_match()
    ensures { law.SynchronousSendsAwaitTheirMatch }
{}

/// In every run of a mode with slots, no rank holds more of them than there are.
pub fn slots_are_never_exceeded()
    ensures { law.SlotsAreNeverExceeded }
{}

/// In every run in rendezvous, no rank holds a slot.
pub fn no_slot_is_held_in_rendezvous()
    ensures { law.NoSlotIsHeldInRendezvous }
{}

/// In every run of the mode that buffers all, a rank holds a slot for each of its standard sends
/// that are in no pair.
pub fn each_free_standard_send_holds_one()
    ensures { law.EachFreeStandardSendHoldsOne }
{}
