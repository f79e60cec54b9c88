//! What a key tells of calls, word by word.

ghost use Rattle.std.specs.Prelude.{◌≡◌, ◌++◌, ◌∷◌, [], OnOk};
ghost use Rattle.mpd_model.specs.declared.call.CallKind.{CallKind};
ghost use Rattle.mpd_outcomes.specs.Future.{still_asked as asked_still};
ghost use Rattle.mpd_outcomes.specs.Words as spec;

use mpd_match::Board;
use mpd_model::{
    Activity, CallId, CallKind, Message, RecvCall, SendCall, StatusCells, Trap, WaitCall,
    WaitanyCall,
};
use std::alloc::AllocError;

/// The first number that is no word by itself.
const HALF: usize = 1 << 63;

/// A number as a word. One that is too large is counted down from -1.
#[tactic(auto, unfolding(crate::specs::Words::number_word))]
pub(crate) fn number_word(number: usize) -> i64
    ensures { result ≡ spec.number_word number }
{
    if number < HALF {
        number as i64
    } else {
        -1 - (number - HALF) as i64
    }
}

/// Whether something is so, as a word.
pub(crate) fn flag_word(flag: bool) -> i64
    ensures { result ≡ spec.flag_word flag }
{
    i64::from(flag)
}

/// A number that may be missing, as the second of its words. The first says whether it is there.
pub(crate) fn number_or_zero(number: Option<usize>) -> i64
    ensures { result ≡ spec.number_or_zero number }
{
    match number {
        None => 0,
        Some(number) => number_word(number),
    }
}

/// What a rank is doing, as a word.
pub(crate) fn activity_word(activity: Activity) -> i64
    ensures { result ≡ spec.activity_word activity }
{
    match activity {
        Activity::Running => 0,
        Activity::Blocked => 1,
        Activity::Trapped(Trap::Overflow) => 2,
        Activity::Trapped(Trap::ZeroDivisor) => 3,
        Activity::Trapped(Trap::BadRank) => 4,
        Activity::Trapped(Trap::BadTag) => 5,
        Activity::Trapped(Trap::BadIndex) => 6,
        Activity::Trapped(Trap::Assertion) => 7,
    }
}

/// The cell of a source, as a word; 0 if there is none.
fn source_word(status: Option<StatusCells>) -> i64
    ensures { result ≡ spec.source_word status }
{
    match status {
        None => 0,
        Some(cells) => number_word(cells.source),
    }
}

/// The cell of a tag, as a word; 0 if there is none.
fn tag_word(status: Option<StatusCells>) -> i64
    ensures { result ≡ spec.tag_word status }
{
    match status {
        None => 0,
        Some(cells) => number_word(cells.tag),
    }
}

/// Adds a word.
pub(crate) fn push_word(words: &mut Vec<i64>, word: i64) -> Result<(), AllocError>
    ensures { OnOk result (words.new.items ≡ words.old.items ++ word ∷ []) }
{
    words.push(word)?;
    Ok(())
}

/// Adds a list after its length.
pub(crate) fn push_sized(words: &mut Vec<i64>, list: &[i64]) -> Result<(), AllocError>
    ensures { OnOk result (words.new.items ≡ words.old.items ++ spec.sized list.now) }
{
    words.push(number_word(list.len()))?;
    words.extend_from_slice(list)
}

/// Adds the words of a send.
fn push_send(words: &mut Vec<i64>, send: SendCall) -> Result<(), AllocError>
    ensures { OnOk result (words.new.items ≡ words.old.items ++ spec.kind_words (CallKind.Send send)) }
{
    words.extend_from_slice(&[
        1,
        number_word(send.to),
        number_word(send.tag),
        send.value,
        flag_word(send.synchronous),
        flag_word(send.blocks),
        flag_word(send.buffered),
    ])
}

/// Adds the words of a receive.
fn push_recv(words: &mut Vec<i64>, recv: RecvCall) -> Result<(), AllocError>
    ensures { OnOk result (words.new.items ≡ words.old.items ++ spec.kind_words (CallKind.Recv recv)) }
{
    words.extend_from_slice(&[
        2,
        flag_word(recv.from.is_some()),
        number_or_zero(recv.from),
        flag_word(recv.tag.is_some()),
        number_or_zero(recv.tag),
        number_word(recv.cell),
        flag_word(recv.status.is_some()),
        source_word(recv.status),
        tag_word(recv.status),
        flag_word(recv.blocks),
    ])
}

/// Adds the words of a wait.
fn push_wait(words: &mut Vec<i64>, wait: WaitCall) -> Result<(), AllocError>
    ensures { OnOk result (words.new.items ≡ words.old.items ++ spec.kind_words (CallKind.Wait wait)) }
{
    words.extend_from_slice(&[
        3,
        number_word(wait.handle),
        flag_word(wait.target.is_some()),
        number_or_zero(wait.target),
    ])
}

/// Adds the words of a wait for one of several.
fn push_waitany(words: &mut Vec<i64>, wait: WaitanyCall) -> Result<(), AllocError>
    ensures { OnOk result (words.new.items ≡ words.old.items ++ spec.kind_words (CallKind.Waitany wait)) }
{
    words.extend_from_slice(&[
        4,
        number_word(wait.first),
        number_word(wait.count),
        number_word(wait.cell),
        flag_word(wait.active),
    ])
}

/// Adds the words of a call.
pub(crate) fn push_kind(words: &mut Vec<i64>, kind: CallKind) -> Result<(), AllocError>
    ensures { OnOk result (words.new.items ≡ words.old.items ++ spec.kind_words kind) }
{
    match kind {
        CallKind::Send(send) => push_send(words, send),
        CallKind::Recv(recv) => push_recv(words, recv),
        CallKind::Wait(wait) => push_wait(words, wait),
        CallKind::Waitany(wait) => push_waitany(words, wait),
        CallKind::Barrier => push_word(words, 5),
    }
}

/// Adds what a call asks for, if anything.
fn push_asked(words: &mut Vec<i64>, kind: Option<CallKind>) -> Result<(), AllocError>
    ensures { OnOk result (words.new.items ≡ words.old.items ++ spec.asked_words kind) }
{
    match kind {
        None => push_word(words, 0),
        Some(kind) => push_kind(words, kind),
    }
}

/// What is still asked for: of a send or a receive that is paired, its kind no longer is.
fn still_asked(paired: bool, kind: Option<CallKind>) -> Option<CallKind>
    ensures { result ≡ asked_still paired kind }
{
    match kind {
        Some(CallKind::Send(_)) | Some(CallKind::Recv(_)) if paired => None,
        _ => kind,
    }
}

/// Adds what a receive writes that got a message: the cells, and what goes there.
fn push_received(words: &mut Vec<i64>, recv: RecvCall, message: Message) -> Result<(), AllocError>
    ensures { OnOk result (words.new.items ≡ words.old.items ++ spec.received_words recv.cell recv.status message) }
{
    let cell = number_word(recv.cell);
    match recv.status {
        None => words.extend_from_slice(&[1, cell, message.value]),
        Some(status) => words.extend_from_slice(&[
            2,
            cell,
            message.value,
            number_word(status.source),
            number_word(message.source),
            number_word(status.tag),
            number_word(message.tag),
        ]),
    }
}

/// Adds what a call writes as its rank goes on, if anything.
fn push_writes(
    words: &mut Vec<i64>,
    kind: Option<CallKind>,
    message: Option<Message>,
) -> Result<(), AllocError>
    ensures { OnOk result (words.new.items ≡ words.old.items ++ spec.writes_words kind message) }
{
    match (kind, message) {
        (Some(CallKind::Recv(recv)), Some(message)) => push_received(words, recv, message),
        _ => push_word(words, 0),
    }
}

/// Adds what a rank may still learn of a call: what it asks for, whether it is paired, and what it writes as its rank goes on.
pub(crate) fn push_seen(words: &mut Vec<i64>, board: &Board, call: CallId) -> Result<(), AllocError>
    ensures { OnOk result (words.new.items ≡ words.old.items ++ spec.seen_words board.now.board call) }
{
    let kind = board.kind(call);
    let paired = board.partner(call).is_some();
    push_asked(words, still_asked(paired, kind))?;
    words.push(flag_word(paired))?;
    push_writes(words, kind, board.buffer(call))
}
