//! Trace words: steps and commands as text (docs/FORMATS.md, "Trace words").

ghost use Rattle.std.specs.Prelude.{◌≡◌, ◌≤◌, ◌∷◌, [], length, MatchOption};
ghost use Rattle.mpd_model.specs.texts.Words.{words, has_word, is_dot, is_blank, is_no_blank, stop_len, number_of, call_of, only_number, two_calls, two_numbers, alone, step_named, step_of, trace_word_named, trace_word_of};

use crate::step::{CallId, Step};

/// What a line of trace words asks for.
#[derive(Clone, Copy)]
pub enum TraceWord {
    /// Take a step.
    Step(Step),
    /// Undo the last step.
    Back,
    /// Take the step again that was undone last.
    Redo,
    /// Undo steps until this many are left.
    Goto(usize),
    /// List the enabled steps.
    Enabled,
    /// Print the state.
    Show,
}

/// Reads a step: `local P`, `match S R`, `wake P`, `wakeany P I` or `release`. `None` if the text
/// is none of these.
pub fn step_of(text: &str) -> Option<Step>
    ensures { result ≡ step_of text.now }
{
    let (name, rest) = next_word(text.as_bytes())?;
    step_named(name, rest)
}

/// Reads a line without its end: a step, `back`, `redo`, `goto N`, `enabled` or `show`. `None` if
/// it is none of these.
pub fn trace_word_of(line: &[u8]) -> Option<TraceWord>
    ensures { result ≡ trace_word_of line.now }
{
    let (name, rest) = next_word(line)?;
    trace_word_named(name, rest)
}

/// Whether a line has a word, that is a byte that is no blank.
pub fn has_word(line: &[u8]) -> bool
    ensures { result ≡ has_word line.now }
{
    next_word(line).is_some()
}

/// The first word of a line, and what stands after it; `None` if there is no word. Blanks are spaces and tabs.
#[tactic(auto, using(crate::proofs::WordLemmas::cutting))]
pub fn next_word(text: &[u8]) -> Option<(&[u8], &[u8])>
    ensures { MatchOption result (words text.now ≡ []) (λ q. words text.now ≡ q.0.now ∷ words q.1.now) }
{
    let (_, start) = text.split_at(blank_len(text));
    if start.is_empty() {
        return None;
    }
    Some(start.split_at(word_len(start)))
}

/// How many blanks a text begins with.
fn blank_len(text: &[u8]) -> usize
    ensures value { result ≡ stop_len is_no_blank text.now }
    ensures bound { result ≤ length text.now }
{
    for (i, byte) in text.iter().enumerate() {
        if *byte != b' ' && *byte != b'\t' {
            return i;
        }
    }
    text.len()
}

/// How many bytes stand before the first blank, or all.
fn word_len(text: &[u8]) -> usize
    ensures value { result ≡ stop_len is_blank text.now }
    ensures bound { result ≤ length text.now }
{
    for (i, byte) in text.iter().enumerate() {
        if *byte == b' ' || *byte == b'\t' {
            return i;
        }
    }
    text.len()
}

/// How many bytes stand before the first `.`, or all.
fn dot_len(text: &[u8]) -> usize
    ensures value { result ≡ stop_len is_dot text.now }
    ensures bound { result ≤ length text.now }
{
    for (i, byte) in text.iter().enumerate() {
        if *byte == b'.' {
            return i;
        }
    }
    text.len()
}

/// A number of 1 to 9 digits; `None` if the word is none.
pub fn number_of(word: &[u8]) -> Option<usize>
    ensures { result ≡ number_of word.now }
{
    if word.is_empty() || word.len() > 9 {
        return None;
    }
    let mut value = 0;
    for byte in word {
        if !byte.is_ascii_digit() {
            return None;
        }
        value = value * 10 + (*byte - b'0') as usize;
    }
    Some(value)
}

/// A call: two numbers with one `.` between them; `None` if the word is none.
#[tactic(auto, using(crate::proofs::WordLemmas::cutting))]
pub fn call_of(word: &[u8]) -> Option<CallId>
    ensures { result ≡ call_of word.now }
{
    let dot = dot_len(word);
    if dot == word.len() {
        return None;
    }
    let (rank, behind) = word.split_at(dot);
    let (_, index) = behind.split_at(1);
    Some(CallId {
        rank: number_of(rank)?,
        index: number_of(index)?,
    })
}

/// The number that is the only word left.
fn only_number(rest: &[u8]) -> Option<usize>
    ensures { result ≡ only_number (words rest.now) }
{
    let (word, behind) = next_word(rest)?;
    if has_word(behind) {
        return None;
    }
    number_of(word)
}

/// The two calls that are the only words left.
fn two_calls(rest: &[u8]) -> Option<(CallId, CallId)>
    ensures { result ≡ two_calls (words rest.now) }
{
    let (first, behind) = next_word(rest)?;
    let (second, end) = next_word(behind)?;
    if has_word(end) {
        return None;
    }
    Some((call_of(first)?, call_of(second)?))
}

/// The two numbers that are the only words left.
fn two_numbers(rest: &[u8]) -> Option<(usize, usize)>
    ensures { result ≡ two_numbers (words rest.now) }
{
    let (first, behind) = next_word(rest)?;
    let (second, end) = next_word(behind)?;
    if has_word(end) {
        return None;
    }
    Some((number_of(first)?, number_of(second)?))
}

/// The step that a name and the words after it make, if they make one.
fn step_named(name: &[u8], rest: &[u8]) -> Option<Step>
    ensures { result ≡ step_named name.now (words rest.now) }
{
    if name == b"local".as_slice() {
        return Some(Step::Local(only_number(rest)?));
    }
    if name == b"match".as_slice() {
        let (send, receive) = two_calls(rest)?;
        return Some(Step::Match(send, receive));
    }
    if name == b"wake".as_slice() {
        return Some(Step::Wake(only_number(rest)?));
    }
    if name == b"wakeany".as_slice() {
        let (rank, index) = two_numbers(rest)?;
        return Some(Step::WakeAny { rank, index });
    }
    if name == b"release".as_slice() && !has_word(rest) {
        return Some(Step::Release);
    }
    None
}

/// The command, if no word is left.
fn alone(command: TraceWord, rest: &[u8]) -> Option<TraceWord>
    ensures { result ≡ alone command (words rest.now) }
{
    if has_word(rest) {
        return None;
    }
    Some(command)
}

/// The command that a name and the words after it make, if they make one.
fn trace_word_named(name: &[u8], rest: &[u8]) -> Option<TraceWord>
    ensures { result ≡ trace_word_named name.now (words rest.now) }
{
    if name == b"back".as_slice() {
        return alone(TraceWord::Back, rest);
    }
    if name == b"redo".as_slice() {
        return alone(TraceWord::Redo, rest);
    }
    if name == b"goto".as_slice() {
        return Some(TraceWord::Goto(only_number(rest)?));
    }
    if name == b"enabled".as_slice() {
        return alone(TraceWord::Enabled, rest);
    }
    if name == b"show".as_slice() {
        return alone(TraceWord::Show, rest);
    }
    Some(TraceWord::Step(step_named(name, rest)?))
}
