//! Cuts the token at the front of a text, and the blanks and comments before it (docs/LANGUAGE.md, "Tokens").

ghost use Rattle.std.specs.Prelude.{ℕ, ◌≡◌, ◌≢◌, ◌<◌, ◌≤◌, ◌+◌, map, length, slice_index, drop, true, false};
ghost use Rattle.mpd_model.specs.grammar.Tokens as spec;

use mpd_model::{Class, NAME_MAX, RESERVED, Symbol, Token};

fn is_in(class: Class, b: u8) -> bool
    ensures { result ≡ spec.is_in class b }
{
    match class {
        Class::Digit => b.is_ascii_digit(),
        Class::Name => b.is_ascii_alphanumeric() || b == b'_',
        Class::Comment => b != b'\n',
    }
}

/// How many bytes at the front are of the class.
fn run_len(class: Class, z: &[u8]) -> usize
    ensures value { result ≡ spec.run_len class z.now }
    ensures within { result ≤ length z.now }
{
    let mut end = 0;
    while end < z.len() && is_in(class, z[end]) {
        end += 1;
    }
    end
}

fn number(digits: &[u8]) -> Token
    ensures { result ≡ spec.number digits.now }
{
    let mut value = 0u64;
    'digits: for byte in digits {
        let next = u128::from(value) * 10 + u128::from(byte.saturating_sub(b'0'));
        if next > i64::MAX as u128 {
            return Token::Bad;
        }
        value = next as u64;
    }
    Token::Number(value as i64)
}

fn word_in(mut table: &[(&[u8], Symbol)], word: &[u8]) -> Token
    ensures { result ≡ spec.word_in (map (λ k. (k.0.now, k.1)) table.entry.now) word.now }
{
    while let [entry, rest @ ..] = table {
        if entry.0 == word {
            return Token::Is(entry.1);
        }
        table = rest;
    }
    if word.len() <= NAME_MAX {
        Token::Name
    } else {
        Token::Bad
    }
}

#[tactic(auto, unfolding(mpd_model::specs::grammar::Tokens::word))]
fn word(word: &[u8]) -> Token
    ensures { result ≡ spec.word word.now }
{
    word_in(&RESERVED, word)
}

fn two(is_long: bool, long: Symbol, short: Symbol) -> (Token, usize)
    ensures { result ≡ spec.two is_long long short }
{
    if is_long {
        (Token::Is(long), 2)
    } else {
        (Token::Is(short), 1)
    }
}

#[tactic(auto, unfolding(mpd_model::specs::grammar::Tokens::sign))]
fn sign(b: u8, next: u8) -> (Token, usize)
    ensures value { result ≡ spec.sign b next }
    ensures within { (1 ≤ result.1) × (result.1 ≤ 2) × (next ≡ 0 → result.1 ≡ 1) }
{
    match b {
        b';' => (Token::Is(Symbol::Semicolon), 1),
        b'{' => (Token::Is(Symbol::BraceOpen), 1),
        b'}' => (Token::Is(Symbol::BraceClose), 1),
        b'(' => (Token::Is(Symbol::RoundOpen), 1),
        b')' => (Token::Is(Symbol::RoundClose), 1),
        b'[' => (Token::Is(Symbol::SquareOpen), 1),
        b']' => (Token::Is(Symbol::SquareClose), 1),
        b'=' => two(next == b'=', Symbol::Equal, Symbol::Assign),
        b'!' => two(next == b'=', Symbol::NotEqual, Symbol::Not),
        b'<' => two(next == b'=', Symbol::AtMost, Symbol::Less),
        b'>' => two(next == b'=', Symbol::AtLeast, Symbol::Greater),
        b'+' => (Token::Is(Symbol::Plus), 1),
        b'-' => (Token::Is(Symbol::Minus), 1),
        b'*' => (Token::Is(Symbol::Times), 1),
        b'/' => (Token::Is(Symbol::Divide), 1),
        b'%' => (Token::Is(Symbol::Remainder), 1),
        b'&' if next == b'&' => (Token::Is(Symbol::And), 2),
        b'|' if next == b'|' => (Token::Is(Symbol::Or), 2),
        _ => (Token::Bad, 1),
    }
}

fn begins_name(b: u8) -> bool
    ensures { result ≡ spec.begins_name b }
{
    b.is_ascii_alphabetic() || b == b'_'
}

/// The token at the front, and its length.
#[tactic(auto, unfolding(mpd_model::specs::grammar::Tokens::front))]
pub(crate) fn front(z: &[u8]) -> (Token, usize)
    requires { 0 < length z.now }
    ensures value { result ≡ spec.front z.now }
    ensures within { (1 ≤ result.1) × (result.1 ≤ length z.now) }
{
    let b = z[0];
    if b.is_ascii_digit() {
        let len = run_len(Class::Digit, z);
        return (number(&z[..len]), len);
    }
    if begins_name(b) {
        let len = run_len(Class::Name, z);
        return (word(&z[..len]), len);
    }
    let next = if z.len() > 1 { z[1] } else { 0 };
    sign(b, next)
}

/// How many bytes at the front are blanks and comments, and how many of these are line feeds.
pub(crate) fn blank_len(z: &[u8]) -> (usize, usize)
    ensures same { (place line : ℕ) → spec.tokens_at place line z.now ≡ spec.tokens_at (place + result.0) (line + result.1) (drop result.0 z.now) }
    ensures stops { result.0 < length z.now → spec.is_gap (slice_index z.now result.0) ≡ false }
    ensures within { (result.0 ≤ length z.now) × (result.1 ≤ result.0) }
{
    let mut at = 0;
    let mut fed = 0;
    while at < z.len() {
        match z[at] {
            b'\n' => {
                at += 1;
                fed += 1;
            }
            b' ' | b'\r' | b'\t' => at += 1,
            b'#' => at += 1 + run_len(Class::Comment, &z[at + 1..]),
            _ => return (at, fed),
        }
    }
    (at, fed)
}
