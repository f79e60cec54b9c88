//! Choices as a text.

ghost use Rattle.std.specs.Prelude.{◌≡◌, ◌≤◌, ◌<◌, ◌==◌, ◌∷◌, [], List, ℕ, None, OnOk, IsErrOf, MatchOption, length};
ghost use Rattle.mpd_model.specs.texts.Words.{stop_len, number_of};
ghost use Rattle.mpd_runs.specs.Choices.{cut_at_spaces, read_on, choices_of, ReadsChoices};

use crate::fault::ChoicesFault;
use mpd_explore::ChoiceList;
use mpd_model::number_of;
use std::alloc::Global;

/// How many bytes stand before the first space, or all.
fn word_len(text: &[u8]) -> usize
    ensures value { result ≡ stop_len (λ b. b == 32) text.now }
    ensures bound { result ≤ length text.now }
{
    for (i, byte) in text.iter().enumerate() {
        if *byte == b' ' {
            return i;
        }
    }
    text.len()
}

/// What stands before the first space, and what stands after it, if there is one.
#[tactic(auto, using(crate::proofs::ChoiceLemmas::cutting))]
fn cut(text: &[u8]) -> Option<(&[u8], &[u8])>
    ensures parts { MatchOption result (cut_at_spaces text.now ≡ text.now ∷ []) (λ q. cut_at_spaces text.now ≡ q.0.now ∷ cut_at_spaces q.1.now) }
    ensures shorter { MatchOption result (Unit {0}) (λ q. length q.1.now < length text.now) }
{
    let (before, from) = text.split_at(word_len(text));
    match from.split_first() {
        None => None,
        Some((_, behind)) => Some((before, behind)),
    }
}

/// Adds the choice that a word is; an empty one is none.
#[tactic(auto, using(crate::proofs::ChoiceLemmas::adding))]
fn push_word(items: &mut Vec<usize>, word: &[u8]) -> Result<(), ChoicesFault>
    ensures read { OnOk result ((parts : List (List ℕ)) → read_on items.old.items (word.now ∷ parts) ≡ read_on items.new.items parts) }
    ensures wrong { IsErrOf result ChoicesFault.NotANumber → (parts : List (List ℕ)) → read_on items.old.items (word.now ∷ parts) ≡ None }
{
    if word.is_empty() {
        return Ok(());
    }
    let Some(choice) = number_of(word) else {
        return Err(ChoicesFault::NotANumber);
    };
    match items.push(choice) {
        Ok(()) => Ok(()),
        Err(_) => Err(ChoicesFault::Memory),
    }
}

/// Adds the choices of a text.
#[tactic(auto, using(crate::proofs::ChoiceLemmas::reading))]
fn push_words(items: &mut Vec<usize>, text: &[u8]) -> Result<(), ChoicesFault>
    ensures read { OnOk result (read_on items.old.items (cut_at_spaces text.now) ≡ read_on items.new.items []) }
    ensures wrong { IsErrOf result ChoicesFault.NotANumber → read_on items.old.items (cut_at_spaces text.now) ≡ None }
{
    let mut rest = text;
    while let Some((word, behind)) = cut(rest) {
        push_word(items, word)?;
        rest = behind;
    }
    push_word(items, rest)
}

/// Reads choices from a text, as a report has them between its brackets: numbers of 1 to 9 digits,
/// with one or more spaces between two, and any number of spaces before the first and after the
/// last. The empty text has no choice. `NotANumber`: a word is no such number. `Memory`: memory was
/// refused.
#[tactic(auto, using(crate::proofs::ChoiceLemmas::answering))]
pub fn choices_of(alloc: Global, text: &[u8]) -> Result<ChoiceList, ChoicesFault>
    ensures { ReadsChoices (choices_of text.now) result }
{
    let mut items = Vec::new(alloc);
    match push_words(&mut items, text) {
        Ok(()) => Ok(ChoiceList { items }),
        Err(fault) => {
            drop(items);
            Err(fault)
        }
    }
}
