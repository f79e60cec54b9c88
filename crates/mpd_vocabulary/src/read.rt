//! Reads a line of the console (docs/CONSOLE.md, "Words").

ghost use Rattle.std.specs.Prelude.{◌≡◌, ◌≤◌, ◌<◌, ◌∷◌, [], length, MatchOption};
ghost use Rattle.mpd_model.specs.texts.Words.{words, number_of, call_of};
ghost use Rattle.mpd_vocabulary.specs.Reading as spec;

use crate::condition::condition_in;
use crate::topic::{Topic, topic_of};
use crate::value::asks_value;
use crate::word::{HelpOn, When, Word, WordFault};
use mpd_code::Code;
use mpd_model::{
    Breakpoint, CallId, DeclKind, STEPS_MAX, TraceWord, call_of, has_word, next_word, number_of,
    trace_word_of,
};
use mpd_names::{NameFault, Named, find_named};

/// The only word left.
fn only_word(rest: &[u8]) -> Option<&[u8]>
    ensures { MatchOption result (spec.only_word (words rest.now) ≡ None) (λ w. spec.only_word (words rest.now) ≡ Some w.now) }
{
    let (word, behind) = next_word(rest)?;
    if has_word(behind) {
        return None;
    }
    Some(word)
}

/// The number that is the only word left.
fn only_number(rest: &[u8]) -> Option<usize>
    ensures { result ≡ spec.only_number (words rest.now) }
{
    number_of(only_word(rest)?)
}

/// The number that is the only word left, or none where no word is.
pub(crate) fn optional_number(rest: &[u8]) -> Option<Option<usize>>
    ensures { result ≡ spec.optional_number (words rest.now) }
{
    if !has_word(rest) {
        return Some(None);
    }
    match only_number(rest) {
        None => None,
        Some(number) => Some(Some(number)),
    }
}

/// The number that is the only word left, or the usual one where no word is.
fn number_or(usual: usize, rest: &[u8]) -> Option<usize>
    ensures { result ≡ spec.number_or usual (words rest.now) }
{
    match optional_number(rest) {
        None => None,
        Some(number) => Some(number.unwrap_or(usual)),
    }
}

/// Whether `all` is the only word left.
fn is_all(rest: &[u8]) -> bool
    ensures { result ≡ spec.is_all (spec.only_word (words rest.now)) }
{
    match only_word(rest) {
        None => false,
        Some(word) => word == b"all".as_slice(),
    }
}

/// The number that is the only word left, or one where no word is; or of `all` as many as there can be.
fn redo_in(rest: &[u8]) -> Option<usize>
    ensures { result ≡ spec.redo_in (words rest.now) }
{
    if is_all(rest) {
        return Some(STEPS_MAX);
    }
    number_or(1, rest)
}

/// The word, where no other is left.
fn alone(word: Word, rest: &[u8]) -> Option<Word>
    ensures { result ≡ spec.alone word (words rest.now) }
{
    if has_word(rest) {
        return None;
    }
    Some(word)
}

/// A word that something fits; where nothing does, its forms are told.
fn fitting(topic: Topic, word: Option<Word>) -> Result<Word, WordFault>
    ensures { result ≡ spec.fitting topic word }
{
    match word {
        None => Err(WordFault::Usage(topic)),
        Some(word) => Ok(word),
    }
}

/// The step of a line.
fn step_in(line: &[u8]) -> Option<Word>
    ensures { result ≡ spec.step_in line.now }
{
    match trace_word_of(line) {
        Some(TraceWord::Step(step)) => Some(Word::Step(step)),
        _ => None,
    }
}

/// The breakpoint on a cell of a variable, or on a handle.
fn break_on(rank: usize, kind: DeclKind, number: usize) -> Breakpoint
    ensures { result ≡ spec.break_on rank kind number }
{
    match kind {
        DeclKind::Variable => Breakpoint::Change { rank, cell: number },
        DeclKind::Handle => Breakpoint::Handle {
            rank,
            handle: number,
        },
    }
}

/// The breakpoint on what a name stands for, where that is one cell or one handle; the name is the word of this number of its line.
fn change_of(rank: usize, place: usize, cell: Result<Named, NameFault>) -> Result<Word, WordFault>
    ensures { result ≡ spec.change_of rank place cell }
{
    match cell {
        Ok(named) => {
            if named.cells == 1 {
                return Ok(Word::Break(break_on(rank, named.kind, named.first)));
            }
            Err(WordFault::NoIndex)
        }
        Err(NameFault::Unknown) => Err(WordFault::NoName(place)),
        Err(NameFault::NoSuchCell) => Err(WordFault::NoSuchIndex),
    }
}

/// The breakpoint on a variable or a request of a rank, which are two words.
fn change_in(code: &Code, rest: &[u8]) -> Result<Word, WordFault>
    ensures { result ≡ spec.change_in code.now.program.decls (words rest.now) }
{
    let Some((rank, behind)) = next_word(rest) else {
        return Err(WordFault::Usage(Topic::Break));
    };
    let Some(name) = only_word(behind) else {
        return Err(WordFault::Usage(Topic::Break));
    };
    match number_of(rank) {
        None => Err(WordFault::Usage(Topic::Break)),
        Some(rank) => change_of(rank, 3, find_named(code, name)),
    }
}

/// The same breakpoint, where the name comes first.
fn watch_in(code: &Code, rest: &[u8]) -> Result<Word, WordFault>
    ensures { result ≡ spec.watch_in code.now.program.decls (words rest.now) }
{
    let Some((name, behind)) = next_word(rest) else {
        return Err(WordFault::Usage(Topic::Watch));
    };
    let Some(rank) = only_word(behind) else {
        return Err(WordFault::Usage(Topic::Watch));
    };
    match number_of(rank) {
        None => Err(WordFault::Usage(Topic::Watch)),
        Some(rank) => change_of(rank, 1, find_named(code, name)),
    }
}

/// What `info` lists.
fn info_in(rest: &[u8]) -> Option<Word>
    ensures { result ≡ spec.info_in (words rest.now) }
{
    let name = only_word(rest)?;
    if name == b"breakpoints".as_slice() {
        return Some(Word::Breaks);
    }
    if name == b"ranks".as_slice() {
        return Some(Word::Ranks);
    }
    None
}

/// When a breakpoint of these ranks stops, with what must hold, where anything is left; its first word has this number in its line.
fn conditioned(code: &Code, of: Option<usize>, place: usize, rest: &[u8]) -> Result<When, WordFault>
    requires { place < 10 }
    ensures { result ≡ spec.conditioned code.now.program.decls of place (words rest.now) }
{
    let Some((word, behind)) = next_word(rest) else {
        return Ok(When {
            of,
            condition: None,
        });
    };
    if word == b"if".as_slice() {
        return match condition_in(code, place + 1, behind) {
            Err(fault) => Err(fault),
            Ok(condition) => Ok(When {
                of,
                condition: Some(condition),
            }),
        };
    }
    Err(WordFault::Usage(Topic::Break))
}

/// The same of a rank, which is the first word left.
fn ranked(code: &Code, place: usize, rest: &[u8]) -> Result<When, WordFault>
    requires { place < 8 }
    ensures { result ≡ spec.ranked code.now.program.decls place (words rest.now) }
{
    let Some((rank, behind)) = next_word(rest) else {
        return Err(WordFault::Usage(Topic::Break));
    };
    match number_of(rank) {
        None => Err(WordFault::Usage(Topic::Break)),
        Some(rank) => conditioned(code, Some(rank), place + 1, behind),
    }
}

/// When a breakpoint of a line stops, by what stands after the line: `rank 1`, `if x == 3`, both or
/// nothing. A fault names a word by its number, of which the first has this one, from 0 to 6.
pub fn when_in(code: &Code, place: usize, rest: &[u8]) -> Result<When, WordFault>
    requires { place < 7 }
    ensures { result ≡ spec.when_in code.now.program.decls place (words rest.now) }
{
    if let Some((word, behind)) = next_word(rest) {
        if word == b"rank".as_slice() {
            return ranked(code, place + 1, behind);
        }
    }
    conditioned(code, None, place, rest)
}

/// The breakpoint of a line, if it is known when it stops.
fn on_line(line: usize, when: Result<When, WordFault>) -> Result<Word, WordFault>
    ensures { result ≡ spec.on_line line when }
{
    match when {
        Err(fault) => Err(fault),
        Ok(when) => Ok(Word::Break(Breakpoint::Line {
            line,
            of: when.of,
            when: when.condition,
        })),
    }
}

/// The breakpoint of a line; its number is the first word left, and has this number in its line.
fn line_in(code: &Code, place: usize, rest: &[u8]) -> Result<Word, WordFault>
    requires { place < 6 }
    ensures { result ≡ spec.line_in code.now.program.decls place (words rest.now) }
{
    let Some((line, behind)) = next_word(rest) else {
        return Err(WordFault::Usage(Topic::Break));
    };
    match number_of(line) {
        None => Err(WordFault::Usage(Topic::Break)),
        Some(line) => on_line(line, when_in(code, place + 1, behind)),
    }
}

/// The rank that is meant, which is the word after `rank`, or none where no word is left.
fn meant_in(rest: &[u8]) -> Option<Option<usize>>
    ensures { result ≡ spec.meant_in (words rest.now) }
{
    let Some((word, behind)) = next_word(rest) else {
        return Some(None);
    };
    if word == b"rank".as_slice() {
        return only_number(behind).map(Some);
    }
    None
}

/// The breakpoint of a match: a line, and a rank where one is meant.
fn match_in(rest: &[u8]) -> Option<Word>
    ensures { result ≡ spec.match_in (words rest.now) }
{
    let (line, behind) = next_word(rest)?;
    let line = number_of(line)?;
    let of = meant_in(behind)?;
    Some(Word::Break(Breakpoint::Match { line, of }))
}

/// The breakpoint of a rank.
fn rank_in(rest: &[u8]) -> Option<Word>
    ensures { result ≡ spec.rank_in (words rest.now) }
{
    match only_number(rest) {
        None => None,
        Some(rank) => Some(Word::Break(Breakpoint::Rank(rank))),
    }
}

/// The breakpoint that some words tell.
fn break_in(code: &Code, rest: &[u8]) -> Result<Word, WordFault>
    ensures { result ≡ spec.break_in code.now.program.decls (words rest.now) }
{
    let Some((kind, behind)) = next_word(rest) else {
        return Err(WordFault::Usage(Topic::Break));
    };
    if kind == b"line".as_slice() {
        return line_in(code, 2, behind);
    }
    if kind == b"match".as_slice() {
        return fitting(Topic::Break, match_in(behind));
    }
    if kind == b"rank".as_slice() {
        return fitting(Topic::Break, rank_in(behind));
    }
    if kind == b"change".as_slice() {
        return change_in(code, behind);
    }
    line_in(code, 1, rest)
}

/// What a name stands for, of all ranks or of one.
fn print_of(cells: Result<Named, NameFault>, rank: Option<usize>) -> Result<Word, WordFault>
    ensures { result ≡ spec.print_of cells rank }
{
    match cells {
        Ok(named) => Ok(Word::Print(named, rank)),
        Err(NameFault::Unknown) => Err(WordFault::NoName(1)),
        Err(NameFault::NoSuchCell) => Err(WordFault::NoSuchIndex),
    }
}

/// What a text names, if it is the name of a variable or a request alone, as `a` or `a[2]`.
pub fn named_in(code: &Code, text: &[u8]) -> Option<Named>
    ensures { result ≡ spec.named_in code.now.program.decls (words text.now) }
{
    match find_named(code, only_word(text)?) {
        Ok(named) => Some(named),
        Err(_) => None,
    }
}

/// A name, and a rank where one is given.
fn print_in(code: &Code, rest: &[u8]) -> Result<Word, WordFault>
    ensures { result ≡ spec.print_in code.now.program.decls (words rest.now) }
{
    let Some((name, behind)) = next_word(rest) else {
        return Err(WordFault::Usage(Topic::Print));
    };
    match optional_number(behind) {
        None => Err(WordFault::Usage(Topic::Print)),
        Some(rank) => print_of(find_named(code, name), rank),
    }
}

/// A rank.
fn why_rank(word: &[u8]) -> Option<Word>
    ensures { result ≡ spec.why_rank word.now }
{
    match number_of(word) {
        None => None,
        Some(rank) => Some(Word::WhyRank(Some(rank))),
    }
}

/// A call, or a rank, or nothing.
fn why_in(rest: &[u8]) -> Option<Word>
    ensures { result ≡ spec.why_in (words rest.now) }
{
    if !has_word(rest) {
        return Some(Word::WhyRank(None));
    }
    let word = only_word(rest)?;
    match call_of(word) {
        Some(call) => Some(Word::WhyCall(call)),
        None => why_rank(word),
    }
}

/// What help is asked for: a word of the console, all of them, or what a choice is.
fn help_in(rest: &[u8]) -> Result<Word, WordFault>
    ensures { result ≡ spec.help_in (words rest.now) }
{
    let Some((name, behind)) = next_word(rest) else {
        return Ok(Word::Help(HelpOn::First));
    };
    if has_word(behind) {
        return Err(WordFault::Usage(Topic::Help));
    }
    if name == b"all".as_slice() {
        return Ok(Word::Help(HelpOn::All));
    }
    if name == b"choice".as_slice() {
        return Ok(Word::Help(HelpOn::Choice));
    }
    match topic_of(name) {
        None => Err(WordFault::Unknown(1)),
        Some(topic) => Ok(Word::Help(HelpOn::Word(topic))),
    }
}

/// How far to go on: to a line, or until a rank, which is the word after `rank`, has gone on.
fn until_in(rest: &[u8]) -> Option<Word>
    ensures { result ≡ spec.until_in (words rest.now) }
{
    let (word, behind) = next_word(rest)?;
    if word == b"rank".as_slice() {
        return only_number(behind).map(Word::UntilRank);
    }
    only_number(rest).map(Word::Until)
}

/// How far to go back: by so many steps, by one where no word is left, or by the last local step of a rank.
fn back_in(rest: &[u8]) -> Option<Word>
    ensures { result ≡ spec.back_in (words rest.now) }
{
    let Some((word, behind)) = next_word(rest) else {
        return Some(Word::Back(1));
    };
    if word == b"rank".as_slice() {
        return only_number(behind).map(Word::BackRank);
    }
    only_number(rest).map(Word::Back)
}

/// A word by its name, the line that it stands in, and what stands after it.
fn word_with(code: &Code, topic: Topic, line: &[u8], rest: &[u8]) -> Result<Word, WordFault>
    ensures { result ≡ spec.word_with code.now.program.decls topic line.now (words rest.now) }
{
    match topic {
        Topic::Break => break_in(code, rest),
        Topic::Watch => watch_in(code, rest),
        Topic::Print => print_in(code, rest),
        Topic::Help => help_in(rest),
        Topic::Next => fitting(topic, optional_number(rest).map(Word::Next)),
        Topic::Run => fitting(topic, number_or(STEPS_MAX, rest).map(Word::Run)),
        Topic::Until => fitting(topic, until_in(rest)),
        Topic::Finish => fitting(topic, optional_number(rest).map(Word::Finish)),
        Topic::Back => fitting(topic, back_in(rest)),
        Topic::RunBack => fitting(topic, alone(Word::RunBack, rest)),
        Topic::UndoChoice => fitting(topic, alone(Word::UndoChoice, rest)),
        Topic::Goto => fitting(topic, only_number(rest).map(Word::Goto)),
        Topic::Restart => fitting(topic, alone(Word::Goto(0), rest)),
        Topic::Reload | Topic::Source => Err(WordFault::Usage(topic)),
        Topic::Redo => fitting(topic, redo_in(rest).map(Word::Redo)),
        Topic::Local | Topic::Match | Topic::Wake | Topic::WakeAny | Topic::Release => {
            fitting(topic, step_in(line))
        }
        Topic::Delete => fitting(topic, only_number(rest).map(Word::Delete)),
        Topic::Breaks => fitting(topic, alone(Word::Breaks, rest)),
        Topic::Info => fitting(topic, info_in(rest)),
        Topic::List => fitting(topic, optional_number(rest).map(Word::List)),
        Topic::Vars => fitting(topic, optional_number(rest).map(Word::Vars)),
        Topic::Ranks => fitting(topic, alone(Word::Ranks, rest)),
        Topic::Calls => fitting(topic, optional_number(rest).map(Word::Calls)),
        Topic::Queues => fitting(topic, alone(Word::Queues, rest)),
        Topic::Why => fitting(topic, why_in(rest)),
        Topic::History => fitting(topic, number_or(10, rest).map(Word::History)),
        Topic::Picture => fitting(topic, alone(Word::Picture, rest)),
        Topic::Check => fitting(topic, number_or(1_000, rest).map(Word::Check)),
        Topic::Follow => fitting(topic, only_number(rest).map(Word::Follow)),
        Topic::Deadlock => fitting(topic, alone(Word::Deadlock, rest)),
        Topic::Trap => fitting(topic, alone(Word::Trap, rest)),
        Topic::Blame => fitting(topic, alone(Word::Blame, rest)),
        Topic::Words => fitting(topic, alone(Word::Words, rest)),
        Topic::Enabled => fitting(topic, alone(Word::Enabled, rest)),
        Topic::Show => fitting(topic, alone(Word::Show, rest)),
        Topic::Quit => fitting(topic, alone(Word::Quit, rest)),
    }
}

/// Reads a line that has a word.
fn word_of(code: &Code, line: &[u8], name: &[u8], rest: &[u8]) -> Result<Word, WordFault>
    ensures { result ≡ spec.word_named code.now.program.decls line.now name.now (words rest.now) }
{
    match topic_of(name) {
        None => Err(WordFault::Unknown(0)),
        Some(topic) => word_with(code, topic, line, rest),
    }
}

/// Whether a line whose first word this is is a comment.
fn begins_comment(name: &[u8]) -> bool
    ensures { result ≡ spec.begins_comment name.now }
{
    match name.split_first() {
        None => false,
        Some((first, _)) => *first == b'#',
    }
}

/// Whether a word asks that the script be read again: it is `reload`, and nothing follows it.
fn asks_reload(topic: Option<Topic>, rest: &[u8]) -> bool
    ensures { result ≡ spec.asks_reload topic (words rest.now) }
{
    match topic {
        Some(Topic::Reload) => !has_word(rest),
        _ => false,
    }
}

/// Whether a word asks for the words of a file: it is `source`, and one word follows it.
fn asks_source(topic: Option<Topic>, rest: &[u8]) -> bool
    ensures { result ≡ spec.asks_source topic (words rest.now) }
{
    match topic {
        Some(Topic::Source) => only_word(rest).is_some(),
        _ => false,
    }
}

/// What a line is.
#[derive(Clone, Copy)]
pub enum Line {
    /// No word: the last word once more.
    Blank,
    /// A comment.
    Comment,
    /// A word.
    Says(Word),
    /// `print`, and after it what is to be read as an expression (`behind_word`).
    Evaluates,
    /// `reload`: the file of the script is to be read again, which a desk can't do.
    Reloads,
    /// `source`, and a name (`word_at`): the words of this file are to be answered, which a desk can't read.
    Sources,
    /// Nothing that can be done.
    Wrong(WordFault),
}

/// Reads a line without its end.
pub fn line_of(code: &Code, line: &[u8]) -> Line
    ensures { result ≡ spec.line_of code.now.program.decls line.now }
{
    let Some((name, rest)) = next_word(line) else {
        return Line::Blank;
    };
    if begins_comment(name) {
        return Line::Comment;
    }
    if asks_value(code, topic_of(name), rest) {
        return Line::Evaluates;
    }
    if asks_reload(topic_of(name), rest) {
        return Line::Reloads;
    }
    if asks_source(topic_of(name), rest) {
        return Line::Sources;
    }
    match word_of(code, line, name, rest) {
        Ok(word) => Line::Says(word),
        Err(fault) => Line::Wrong(fault),
    }
}
