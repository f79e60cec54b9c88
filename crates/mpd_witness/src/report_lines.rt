//! The lines of a report, as they are read back (docs/FORMATS.md, "Witnesses").

ghost use Rattle.std.specs.Prelude.{◌≡◌, ◌≤◌, ◌<◌, ◌+◌, ◌^◌, ◌∷◌, Some, None, is_some, codes, if◌then◌else◌, length, drop, filter, MatchOption};
ghost use Rattle.mpd_witness.specs.WitnessText.{parts_at, cut_at, line_of};
ghost use Rattle.mpd_witness.specs.ReadBack.{number_behind, numbered, numbered_either, group_first, leaf_of, before_cut, is_indented, is_passed, kind_of, may_follow, leaf_number, wrong_line, is_witness, is_leaf, leaf_from, is_filled, are_two, FindsWitness};

use crate::pieces::{Pieces, cut};
use mpd_model::{number_of, without_return};

/// What a line of a report is.
#[derive(Clone, Copy)]
pub(crate) enum LineKind {
    /// It is empty, or of an explanation, or says how many leaves, or ways to end, there are.
    Passed,
    /// It is the line of the leaf of this number, or of the way to end, or of the leaves of which this is the first.
    OfLeaf(usize),
    /// It is the line of a witness of this number.
    OfWitness(usize),
    /// No report has such a line.
    Wrong,
}

/// The number after a word, if the next piece is that word and the one after it is a number.
#[tactic(auto, using(crate::proofs::ReportLemmas::numbering))]
fn next_number(pieces: &mut Pieces<'_>, word: &[u8]) -> Option<usize>
    ensures number { result ≡ number_behind word.now pieces.old }
    ensures behind { MatchOption result (Unit {0}) (λ number. pieces.new ≡ drop 2 pieces.old) }
{
    let Some(first) = pieces.next() else {
        return None;
    };
    if first != word {
        return None;
    }
    let Some(second) = pieces.next() else {
        return None;
    };
    number_of(second)
}

/// The number after a word, if the line begins with that word, a space, and a number.
fn numbered(line: &[u8], word: &[u8]) -> Option<usize>
    ensures { result ≡ numbered word.now line.now }
{
    let mut pieces = Pieces::new(line, b' ');
    next_number(&mut pieces, word)
}

/// The number of the first leaf of those that end in one way, if the line is theirs.
#[tactic(auto, using(crate::proofs::ReportLemmas::grouping))]
fn group_first(line: &[u8]) -> Option<usize>
    ensures { result ≡ group_first line.now }
{
    let mut pieces = Pieces::new(line, b' ');
    next_number(&mut pieces, b"end")?;
    next_number(&mut pieces, b"leaves")?;
    next_number(&mut pieces, b"first")
}

/// The number after one word, or else after another, if the line begins so.
fn numbered_either(line: &[u8], word: &[u8], other: &[u8]) -> Option<usize>
    ensures { result ≡ numbered_either word.now other.now line.now }
{
    match numbered(line, word) {
        Some(number) => Some(number),
        None => numbered(line, other),
    }
}

/// The number of the leaf whose line it is, or that its line names first.
fn leaf_of(line: &[u8]) -> Option<usize>
    ensures { result ≡ leaf_of line.now }
{
    match numbered_either(line, b"leaf", b"outcome") {
        Some(number) => Some(number),
        None => group_first(line),
    }
}

/// What stands before the first colon, if there is one.
#[tactic(auto, using(crate::proofs::ReportLemmas::labelling))]
fn before_colon(line: &[u8]) -> &[u8]
    ensures { result.now ≡ before_cut (cut_at 58 line.now) }
{
    match cut(line, b':') {
        Some((before, _)) => before,
        None => {
            let (none, _) = line.split_at(0);
            none
        }
    }
}

/// Whether it begins with two spaces, as each line of an explanation does.
#[tactic(auto, using(crate::proofs::ReportLemmas::indenting))]
fn is_indented(line: &[u8]) -> bool
    ensures { result ≡ is_indented line.now }
{
    let Some((first, behind)) = line.split_first() else {
        return false;
    };
    let Some((second, _)) = behind.split_first() else {
        return false;
    };
    *first == b' ' && *second == b' '
}

/// Whether a line is passed over.
fn is_passed(line: &[u8]) -> bool
    ensures { result ≡ is_passed line.now }
{
    line.is_empty() || is_indented(line) || numbered_either(line, b"leaves", b"outcomes").is_some()
}

/// What a line is.
#[tactic(auto, using(crate::proofs::ReportLemmas::knowing))]
fn kind_of(line: &[u8]) -> LineKind
    ensures { result ≡ kind_of line.now }
{
    if is_passed(line) {
        return LineKind::Passed;
    }
    if let Some(number) = leaf_of(line) {
        return LineKind::OfLeaf(number);
    }
    match numbered(before_colon(line), b"witness") {
        Some(number) => LineKind::OfWitness(number),
        None => LineKind::Wrong,
    }
}

/// Whether a line may stand right after one that is of the leaf of this number, or of none.
fn may_follow(before: Option<usize>, kind: LineKind) -> bool
    ensures { result ≡ may_follow before kind }
{
    match kind {
        LineKind::Passed => true,
        LineKind::OfLeaf(_) => true,
        LineKind::OfWitness(number) => match before {
            Some(leaf) => leaf == number,
            None => false,
        },
        LineKind::Wrong => false,
    }
}

/// The number of the leaf whose line it is.
fn leaf_number(kind: LineKind) -> Option<usize>
    ensures { result ≡ leaf_number kind }
{
    match kind {
        LineKind::Passed => None,
        LineKind::OfLeaf(number) => Some(number),
        LineKind::OfWitness(_) => None,
        LineKind::Wrong => None,
    }
}

/// Whether it is the line of a witness.
pub(crate) fn is_witness(line: &[u8]) -> bool
    ensures { result ≡ is_witness (kind_of (line_of line.now)) }
{
    match kind_of(without_return(line)) {
        LineKind::Passed => false,
        LineKind::OfLeaf(_) => false,
        LineKind::OfWitness(_) => true,
        LineKind::Wrong => false,
    }
}

/// Whether it is the line of the leaf of a number.
fn is_leaf(line: &[u8], number: usize) -> bool
    ensures { result ≡ is_leaf number (kind_of (line_of line.now)) }
{
    match kind_of(without_return(line)) {
        LineKind::Passed => false,
        LineKind::OfLeaf(leaf) => leaf == number,
        LineKind::OfWitness(_) => false,
        LineKind::Wrong => false,
    }
}

/// The number of the first line that is wrong, from 1.
#[tactic(auto, using(crate::proofs::ReportLemmas::checking))]
pub(crate) fn wrong_line(text: &[u8]) -> Option<usize>
    ensures { result ≡ wrong_line 1 None (parts_at 10 text.now) }
{
    let mut lines = Pieces::new(text, b'\n');
    let mut before = None;
    let mut number = 1;
    while let Some(line) = lines.next() {
        let kind = kind_of(without_return(line));
        if !may_follow(before, kind) {
            return Some(number);
        }
        before = leaf_number(kind);
        number += 1;
    }
    None
}

/// Goes past the first line that is a witness, and returns its place; the next line has place
/// `first`.
#[tactic(auto, using(crate::proofs::ReportLemmas::finding))]
pub(crate) fn next_witness(lines: &mut Pieces<'_>, first: usize) -> Option<usize>
    requires { first + length lines.old < 2 ^ 64 }
    ensures found { FindsWitness first lines.old lines.new result }
    ensures within { MatchOption result (Unit {0}) (λ place. place + length lines.new < first + length lines.old) }
{
    let mut place = first;
    while let Some(line) = lines.next() {
        if is_witness(line) {
            return Some(place);
        }
        place += 1;
    }
    None
}

/// Goes past the first line that is of the leaf of a number, and returns its place, from 0, and
/// that line.
#[tactic(auto, using(crate::proofs::ReportLemmas::finding))]
pub(crate) fn next_leaf<'a>(lines: &mut Pieces<'a>, number: usize) -> Option<(usize, &'a [u8])>
    requires { length lines.old < 2 ^ 64 }
    ensures found { MatchOption result (leaf_from number 0 lines.old ≡ None) (λ q. leaf_from number 0 lines.old ≡ Some (q.0, q.1.now ∷ lines.new)) }
    ensures within { MatchOption result (Unit {0}) (λ q. q.0 < length lines.old) }
{
    let mut place = 0;
    while let Some(line) = lines.next() {
        if is_leaf(line, number) {
            return Some((place, line));
        }
        place += 1;
    }
    None
}

/// 1 for a line that isn't empty, else 0.
fn filled(line: &[u8]) -> usize
    ensures { result ≡ if is_filled line.now then 1 else 0 }
{
    if without_return(line).is_empty() {
        0
    } else {
        1
    }
}

/// Whether at most two lines aren't empty.
#[tactic(auto, using(crate::proofs::ReportLemmas::counting))]
pub(crate) fn are_two(text: &[u8]) -> bool
    ensures { result ≡ are_two (parts_at 10 text.now) }
{
    let mut lines = Pieces::new(text, b'\n');
    let mut count = 0;
    while let Some(line) = lines.next() {
        count += filled(line);
    }
    count <= 2
}
