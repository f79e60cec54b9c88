//! What is told of a token that the grammar doesn't allow: which one stands there, and what could stand in its place.
ghost use Rattle.std.specs.Prelude.{◌≡◌, ◌≤◌, ◌<◌, ◌++◌, [], ◌∷◌, if◌then◌else◌, length, map, IfOk, OnOk, string_bytes};
ghost use Rattle.mpd_model.specs.grammar.Tokens as spec;
ghost use Rattle.mpd_trace.specs.Allowed.{all_told, allowed_line, allows, allows_one, choice_text, found_text, kinds_told, operators_told};

use crate::excerpts::push_part;
use mpd_model::{Class, FaultCode};
use mpd_script::read;
use std::alloc::{AllocError, Global};
use std::cmp;

/// The kinds of tokens but operators: how each is told, and a token of it, which stands for all.
const KINDS: [(&str, &[u8]); 37] = [
    ("a number", b"1"),
    ("a name", b"a"),
    ("the end of the text", b""),
    ("'mpd'", b"mpd"),
    ("'ranks'", b"ranks"),
    ("'var'", b"var"),
    ("'req'", b"req"),
    ("'if'", b"if"),
    ("'else'", b"else"),
    ("'while'", b"while"),
    ("'print'", b"print"),
    ("'assert'", b"assert"),
    ("'send'", b"send"),
    ("'ssend'", b"ssend"),
    ("'isend'", b"isend"),
    ("'issend'", b"issend"),
    ("'recv'", b"recv"),
    ("'irecv'", b"irecv"),
    ("'wait'", b"wait"),
    ("'waitany'", b"waitany"),
    ("'barrier'", b"barrier"),
    ("'to'", b"to"),
    ("'from'", b"from"),
    ("'tag'", b"tag"),
    ("'any'", b"any"),
    ("'status'", b"status"),
    ("'rank'", b"rank"),
    ("'size'", b"size"),
    ("'='", b"="),
    ("';'", b";"),
    ("'{'", b"{"),
    ("'}'", b"}"),
    ("'('", b"("),
    ("')'", b")"),
    ("'['", b"["),
    ("']'", b"]"),
    ("'!'", b"!"),
];

/// The operators that compare.
const COMPARISONS: [&[u8]; 6] = [b"==", b"!=", b"<", b"<=", b">", b">="];

/// The other operators between two operands. One of them also stands before one.
const OTHERS: [&[u8]; 7] = [b"+", b"-", b"*", b"/", b"%", b"&&", b"||"];

/// Whether the grammar allows a token after the front of a text: the text that ends with it isn't refused there as `Expected`.
pub(crate) fn is_allowed(alloc: Global, front: &[u8], token: &[u8]) -> Result<bool, AllocError>
    ensures { IfOk result (λ found. found ≡ allows front.now token.now) }
{
    let mut text = Vec::new(alloc);
    text.extend_from_slice(front)?;
    text.push(b'\n')?;
    text.extend_from_slice(token)?;
    match read(alloc, &text) {
        Ok(_) => Ok(true),
        Err(fault) => match fault.code {
            FaultCode::Memory => Err(AllocError),
            FaultCode::Expected => Ok(fault.place != front.len() + 1),
            _ => Ok(true),
        },
    }
}

/// Whether the grammar allows one of some tokens after the front of a text.
fn is_one_allowed(alloc: Global, front: &[u8], tokens: &[&[u8]]) -> Result<bool, AllocError>
    ensures { IfOk result (λ found. found ≡ allows_one front.now (map (λ t. t.now) tokens.now)) }
{
    for token in tokens {
        if is_allowed(alloc, front, token)? {
            return Ok(true);
        }
    }
    Ok(false)
}

/// Adds how a kind is told, if it is.
fn push_if(
    kinds: &mut Vec<&'static str>,
    name: &'static str,
    is_told: bool,
) -> Result<(), AllocError>
    ensures { OnOk result (map (λ t. t.now) kinds.new.items ≡ map (λ t. t.now) kinds.old.items ++ (if is_told then name.now ∷ [] else [])) }
{
    if is_told {
        kinds.push(name)?;
    }
    Ok(())
}

/// How those of some kinds are told that the grammar allows after the front of a text.
fn told_of(
    alloc: Global,
    front: &[u8],
    table: &[(&'static str, &'static [u8])],
) -> Result<Vec<&'static str>, AllocError>
    ensures { IfOk result (λ kinds. map (λ t. t.now) kinds.items ≡ kinds_told front.now (map (λ k. (k.0.now, k.1.now)) table.now)) }
{
    let mut kinds = Vec::new(alloc);
    for (name, token) in table {
        let is_told = is_allowed(alloc, front, token)?;
        push_if(&mut kinds, name, is_told)?;
    }
    Ok(kinds)
}

/// Adds how operators are told, where some are allowed: those that compare are only where all are.
fn push_operators(
    kinds: &mut Vec<&'static str>,
    compares: bool,
    others: bool,
) -> Result<(), AllocError>
    ensures { OnOk result (map (λ t. t.now) kinds.new.items ≡ map (λ t. t.now) kinds.old.items ++ operators_told compares others) }
{
    if compares {
        push_if(kinds, "an operator", true)
    } else {
        push_if(kinds, "an operator that is no comparison", others)
    }
}

/// How the kinds of tokens are told that the grammar allows after the front of a text.
fn allowed_kinds(alloc: Global, front: &[u8]) -> Result<Vec<&'static str>, AllocError>
    ensures { IfOk result (λ kinds. map (λ t. t.now) kinds.items ≡ all_told front.now) }
{
    let mut kinds = told_of(alloc, front, &KINDS)?;
    let compares = is_one_allowed(alloc, front, &COMPARISONS)?;
    let others = is_one_allowed(alloc, front, &OTHERS)?;
    push_operators(&mut kinds, compares, others)?;
    Ok(kinds)
}

fn is_in(class: Class, byte: u8) -> bool
    ensures { result ≡ spec.is_in class byte }
{
    match class {
        Class::Digit => byte.is_ascii_digit(),
        Class::Name => byte.is_ascii_alphanumeric() || byte == b'_',
        Class::Comment => byte != b'\n',
    }
}

/// How many bytes at the front are of the class.
pub(crate) fn run_len(class: Class, text: &[u8]) -> usize
    ensures value { result ≡ spec.run_len class text.now }
    ensures within { result ≤ length text.now }
{
    let mut end = 0;
    while end < text.len() && is_in(class, text[end]) {
        end += 1;
    }
    end
}

/// How many bytes a sign has, by its first byte and the next.
#[tactic(auto, unfolding(mpd_model::specs::grammar::Tokens::sign))]
fn sign_len(byte: u8, next: u8) -> usize
    ensures value { result ≡ (spec.sign byte next).1 }
    ensures within { (1 ≤ result) × (result ≤ 2) × (next ≡ 0 → result ≡ 1) }
{
    match byte {
        b'=' | b'!' | b'<' | b'>' if next == b'=' => 2,
        b'&' if next == b'&' => 2,
        b'|' if next == b'|' => 2,
        _ => 1,
    }
}

/// How many bytes the token at the front has.
#[tactic(auto, unfolding(mpd_model::specs::grammar::Tokens::front))]
fn token_len(text: &[u8]) -> usize
    requires { 0 < length text.now }
    ensures value { result ≡ (spec.front text.now).1 }
    ensures within { result ≤ length text.now }
{
    let first = text[0];
    if first.is_ascii_digit() {
        return run_len(Class::Digit, text);
    }
    if first.is_ascii_alphabetic() || first == b'_' {
        return run_len(Class::Name, text);
    }
    sign_len(first, if text.len() > 1 { text[1] } else { 0 })
}

/// Adds the token at the front of what is left of a text, of a long one 72 bytes, or that the text ends. An `Err` is want of memory.
pub fn push_found(out: &mut String, rest: &[u8]) -> Result<(), AllocError>
    ensures { OnOk result (string_bytes out.new ≡ string_bytes out.old ++ found_text rest.now) }
{
    if rest.is_empty() {
        return out.push_str("the end of the text");
    }
    let (token, _) = rest.split_at(token_len(rest));
    out.push('\'')?;
    push_part(out, token, 0)?;
    out.push('\'')
}

/// Adds a kind, and what stands before it.
fn push_joined(out: &mut String, joint: &str, kind: &str) -> Result<(), AllocError>
    ensures { OnOk result (string_bytes out.new ≡ string_bytes out.old ++ joint.now ++ kind.now) }
{
    out.push_str(joint)?;
    out.push_str(kind)
}

/// Adds the kinds of tokens that the grammar allows, where they are few.
fn push_kinds(out: &mut String, kinds: &[&str]) -> Result<(), AllocError>
    ensures { OnOk result (string_bytes out.new ≡ string_bytes out.old ++ choice_text (map (λ t. t.now) kinds.now)) }
{
    match kinds.len() {
        1 => push_joined(out, "; only ", kinds[0])?,
        2 => {
            push_joined(out, "; only ", kinds[0])?;
            push_joined(out, " or ", kinds[1])?;
        }
        3 => {
            push_joined(out, "; only ", kinds[0])?;
            push_joined(out, ", ", kinds[1])?;
            push_joined(out, " or ", kinds[2])?;
        }
        _ => return Ok(()),
    }
    out.push_str(" can stand here")
}

/// Tells of a place where the grammar doesn't allow the token of a text which one stands there, and what could: the kinds of
/// tokens that the grammar allows there, where these are three at most. All others are refused at that place, whatever follows
/// them. The line is indented by two and ends with a line feed. An `Err` is want of memory.
pub fn allowed(alloc: Global, text: &[u8], place: usize) -> Result<String, AllocError>
    ensures { IfOk result (λ t. string_bytes t ≡ allowed_line text.now place) }
{
    let (front, rest) = text.split_at(cmp::min(place, text.len()));
    let kinds = allowed_kinds(alloc, front)?;
    let mut out = String::new(alloc);
    out.push_str("  found ")?;
    push_found(&mut out, rest)?;
    push_kinds(&mut out, &kinds)?;
    out.push('\n')?;
    Ok(out)
}
