//! What holds of reading a script (docs/DEFINITIONS.md, "Texts").

ghost use Rattle.mpd_meaning.specs.FaultLaws as fault;
ghost use Rattle.mpd_meaning.specs.PrefixLaws as prefix;
ghost use Rattle.mpd_meaning.specs.ReadingLaws as law;

use mpd_laws::reading::{statements_are_of_version, turns_are_enough, written_scripts_are_read};
use mpd_laws::round_trip::read_scripts_are_printable;

/// A text is read as a program exactly if its tokens write that and all limits are kept.
pub fn what_is_read_is_written_within_the_limits()
    ensures { law.ReadIsWrittenWithin }
{
    statements_are_of_version();
    read_scripts_are_printable();
    written_scripts_are_read();
}

/// A fault is decided by the tokens up to it, and by one more if it is a fault of too many: each
/// text that begins with these has the same fault.
pub fn tokens_up_to_it_decide_a_fault()
    ensures { fault.TokensUpToItDecideAFault }
{
    turns_are_enough();
}

/// It is also decided by the bytes up to the one after that token.
pub fn text_up_to_it_decides_a_fault()
    ensures { fault.TextUpToItDecidesAFault }
{
    turns_are_enough();
}

/// So no text that writes a script within the limits begins with the tokens up to a fault.
pub fn no_script_begins_with_a_fault()
    ensures { fault.NoScriptBeginsWithAFault }
{
    tokens_up_to_it_decide_a_fault();
    what_is_read_is_written_within_the_limits();
}

/// What a text writes, however large, is read as that, or refused by a limit.
pub fn only_a_limit_refuses_what_is_written()
    ensures { fault.OnlyALimitRefusesWhatIsWritten }
{}

/// So nothing that the grammar writes, however large, begins with the tokens up to a fault that is of no limit.
pub fn nothing_written_begins_with_a_fault()
    ensures { fault.NothingWrittenBeginsWithAFault }
{
    turns_are_enough();
}

/// What stands before a fault can be completed: it isn't wrong yet.
pub fn what_stands_before_a_fault_can_be_completed()
    ensures { prefix.WhatStandsBeforeAFaultCanBeCompleted }
{}

/// Only tokens that declare what they name can be completed.
pub fn only_what_is_declared_is_named()
    ensures { prefix.OnlyWhatIsDeclaredIsNamed }
{}

/// So a fault of no limit is at the first token that can't be right: what stands before it can be completed, and with it nothing can.
pub fn a_fault_is_at_the_first_wrong_token()
    ensures { prefix.AFaultIsAtTheFirstWrongToken }
{
    what_stands_before_a_fault_can_be_completed();
    nothing_written_begins_with_a_fault();
}
