//! What is told of a fault that has a usual cause: a word of another language, a word of this one in the place of a name, and a block that
//! isn't closed (docs/FORMATS.md, "Standard error").

ghost use Rattle.std.specs.Prelude.{◌≡◌, ◌++◌, [], Some, false, map, option_map, IfOk, OnOk, string_bytes};
ghost use Rattle.mpd_trace.specs.Hints.{bad_line, declares_name, else_line, expected_line, foreign, foreign_line, hint_line, instead_in, is_reserved, late_line, list_line, misplaced_line, names_alone, open_line, opened, ranks_line, reserved_in, reserved_line, still_open, version_line, word_at};

use crate::allowed_tokens::{is_allowed, run_len};
use crate::excerpts::push_part;
use mpd_model::{Class, FaultCode, RESERVED, ReadFault, Symbol};
use std::alloc::{AllocError, Global};
use std::cmp;

/// Words of other languages, each with what is written here.
pub(crate) const FOREIGN: [(&[u8], &str); 20] = [
    (b"for", "write 'while TEST { .. }'"),
    (b"do", "write 'while TEST { .. }'"),
    (b"break", "a loop ends by its test"),
    (b"continue", "a loop goes on by its test"),
    (b"return", "a rank ends after its last statement"),
    (b"int", "a variable is declared by 'var NAME;'"),
    (b"long", "a variable is declared by 'var NAME;'"),
    (
        b"double",
        "numbers are whole, and a variable is declared by 'var NAME;'",
    ),
    (
        b"float",
        "numbers are whole, and a variable is declared by 'var NAME;'",
    ),
    (b"printf", "write 'print VALUE;'"),
    (b"MPI_Send", "write 'send VALUE to RANK tag TAG;'"),
    (b"MPI_Ssend", "write 'ssend VALUE to RANK tag TAG;'"),
    (b"MPI_Isend", "write 'isend REQUEST VALUE to RANK tag TAG;'"),
    (
        b"MPI_Recv",
        "write 'recv VARIABLE from RANK tag TAG;', with 'any' for any rank or tag",
    ),
    (
        b"MPI_Irecv",
        "write 'irecv REQUEST VARIABLE from RANK tag TAG;'",
    ),
    (b"MPI_Wait", "write 'wait REQUEST;'"),
    (b"MPI_Waitany", "write 'waitany REQUESTS to VARIABLE;'"),
    (b"MPI_Barrier", "write 'barrier;'"),
    (b"MPI_ANY_SOURCE", "write 'any'"),
    (b"MPI_ANY_TAG", "write 'any'"),
];

/// The letters, digits and underscores of a text at a place; none where the text is no longer than that.
pub fn word_at(text: &[u8], place: usize) -> &[u8]
    ensures { result.now ≡ word_at text.now place }
{
    let (_, rest) = text.split_at(cmp::min(place, text.len()));
    rest.split_at(run_len(Class::Name, rest)).0
}

/// What a table has for a word.
fn instead_in(mut table: &[(&[u8], &'static str)], word: &[u8]) -> Option<&'static str>
    ensures { option_map (λ t. t.now) result ≡ instead_in (map (λ k. (k.0.now, k.1.now)) table.entry.now) word.now }
{
    while let [entry, rest @ ..] = table {
        if entry.0 == word {
            return Some(entry.1);
        }
        table = rest;
    }
    None
}

/// What is written here for a word of another language.
fn instead_of(word: &[u8]) -> Option<&'static str>
    ensures { option_map (λ t. t.now) result ≡ instead_in foreign word.now }
{
    instead_in(&FOREIGN, word)
}

/// Whether a table has a word.
fn has_word(mut table: &[(&[u8], Symbol)], word: &[u8]) -> bool
    ensures { result ≡ reserved_in (map (λ k. (k.0.now, k.1)) table.entry.now) word.now }
{
    while let [entry, rest @ ..] = table {
        if entry.0 == word {
            return true;
        }
        table = rest;
    }
    false
}

/// Whether a word is one of the language.
fn is_reserved(word: &[u8]) -> bool
    ensures { result ≡ is_reserved word.now }
{
    has_word(&RESERVED, word)
}

/// Keeps the lines of the blocks that are open after a byte of a line, the innermost last.
fn note(lines: &mut Vec<usize>, byte: u8, line: usize) -> Result<(), AllocError>
    ensures { OnOk result (lines.new.items ≡ opened byte line lines.old.items) }
{
    match byte {
        b'{' => lines.push(line)?,
        b'}' => lines.truncate(lines.len().saturating_sub(1)),
        _ => {}
    }
    Ok(())
}

/// The lines of the blocks that are open at the end of a text, the innermost last.
fn still_open(alloc: Global, text: &[u8]) -> Result<Vec<usize>, AllocError>
    ensures { IfOk result (λ lines. lines.items ≡ still_open false 1 [] text.now) }
{
    let mut lines = Vec::new(alloc);
    let mut line = 1;
    let mut is_comment = false;
    for byte in text {
        if *byte == b'\n' {
            line += 1;
            is_comment = false;
        } else if is_comment || *byte == b'#' {
            is_comment = true;
        } else {
            note(&mut lines, *byte, line)?;
        }
    }
    Ok(lines)
}

/// Adds the line of a word of another language, with what is written here.
fn push_foreign_line(out: &mut String, word: &[u8], told: &str) -> Result<(), AllocError>
    ensures { OnOk result (string_bytes out.new ≡ string_bytes out.old ++ foreign_line word.now (Some told.now)) }
{
    out.push_str("  '")?;
    push_part(out, word, 0)?;
    out.push_str("' is no word here: ")?;
    out.push_str(told)?;
    out.push('\n')
}

/// Adds what is written here for a word of another language, if it is one.
fn push_foreign(out: &mut String, word: &[u8], told: Option<&str>) -> Result<(), AllocError>
    ensures { OnOk result (string_bytes out.new ≡ string_bytes out.old ++ foreign_line word.now (option_map (λ t. t.now) told.entry)) }
{
    match told {
        Some(told) => push_foreign_line(out, word, told),
        None => Ok(()),
    }
}

/// Adds that the block of a line isn't closed.
fn push_open_line(out: &mut String, line: usize) -> Result<(), AllocError>
    ensures { OnOk result (string_bytes out.new ≡ string_bytes out.old ++ open_line (Some line)) }
{
    write!(out, "  the block that line {line} opens isn't closed\n")
}

/// Adds which block isn't closed, if one isn't.
fn push_open(out: &mut String, line: Option<usize>) -> Result<(), AllocError>
    ensures { OnOk result (string_bytes out.new ≡ string_bytes out.old ++ open_line line) }
{
    match line {
        Some(line) => push_open_line(out, line),
        None => Ok(()),
    }
}

/// Adds that a word is none that a name can be, if it is one of the language.
fn push_reserved(out: &mut String, word: &[u8], is_told: bool) -> Result<(), AllocError>
    ensures { OnOk result (string_bytes out.new ≡ string_bytes out.old ++ reserved_line word.now is_told) }
{
    if !is_told {
        return Ok(());
    }
    out.push_str("  '")?;
    push_part(out, word, 0)?;
    out.push_str("' is a word of the language, so no name")?;
    out.push('\n')
}

/// Whether a name can stand after the front of a text, and neither a number nor a statement.
fn names_alone(alloc: Global, front: &[u8]) -> Result<bool, AllocError>
    ensures { IfOk result (λ alone. alone ≡ names_alone front.now) }
{
    Ok(
        is_allowed(alloc, front, b"a")?
            && !is_allowed(alloc, front, b"1")?
            && !is_allowed(alloc, front, b"while")?,
    )
}

/// Adds what an `else` follows where a statement can stand, given the line of the block that is open, if one is.
#[tactic(auto, unfolding(crate::specs::Hints::lone_else))]
fn push_else(out: &mut String, line: Option<usize>) -> Result<(), AllocError>
    ensures { OnOk result (string_bytes out.new ≡ string_bytes out.old ++ else_line line) }
{
    match line {
        Some(line) => {
            write!(
                out,
                "  'else' follows a '}}': the block that line {line} opens isn't closed\n"
            )
        }
        None => out.push_str("  'else' follows the '}' of an if\n"),
    }
}

/// Adds where declarations stand.
#[tactic(auto, unfolding(crate::specs::Hints::late_line))]
fn push_late(out: &mut String) -> Result<(), AllocError>
    ensures { OnOk result (string_bytes out.new ≡ string_bytes out.old ++ late_line) }
{
    out.push_str("  declarations stand before the first statement\n")
}

/// Adds what is told of a word where a statement can stand, if it begins none and often stands there.
fn push_misplaced(
    alloc: Global,
    out: &mut String,
    front: &[u8],
    word: &[u8],
) -> Result<(), AllocError>
    ensures { OnOk result (string_bytes out.new ≡ string_bytes out.old ++ misplaced_line front.now word.now) }
{
    if !is_allowed(alloc, front, b"while")? {
        return Ok(());
    }
    if word == b"else".as_slice() {
        let lines = still_open(alloc, front)?;
        return push_else(out, lines.last().copied());
    }
    if word == b"var".as_slice() || word == b"req".as_slice() {
        return push_late(out);
    }
    Ok(())
}

/// Adds what is told of a token that the grammar doesn't allow.
fn push_expected(
    alloc: Global,
    out: &mut String,
    text: &[u8],
    place: usize,
) -> Result<(), AllocError>
    ensures { OnOk result (string_bytes out.new ≡ string_bytes out.old ++ expected_line text.now place) }
{
    if place >= text.len() {
        let lines = still_open(alloc, text)?;
        return push_open(out, lines.last().copied());
    }
    let word = word_at(text, place);
    let (front, _) = text.split_at(place);
    let is_told = is_reserved(word) && names_alone(alloc, front)?;
    push_reserved(out, word, is_told)?;
    push_misplaced(alloc, out, front, word)
}

/// Whether the front of a text ends with the name of a declaration.
fn declares_name(alloc: Global, front: &[u8]) -> Result<bool, AllocError>
    ensures { IfOk result (λ found. found ≡ declares_name front.now) }
{
    if !is_allowed(alloc, front, b"[")? {
        return Ok(false);
    }
    let mut ended = Vec::new(alloc);
    ended.extend_from_slice(front)?;
    ended.push(b';')?;
    is_allowed(alloc, &ended, b"var")
}

/// Adds that a declaration has one name.
#[tactic(auto, unfolding(crate::specs::Hints::list_line))]
fn push_list_line(out: &mut String) -> Result<(), AllocError>
    ensures { OnOk result (string_bytes out.new ≡ string_bytes out.old ++ list_line) }
{
    out.push_str("  a declaration has one name: write 'var x; var y;'\n")
}

/// Adds what is told of what is no token: of a comma in a declaration.
fn push_bad(alloc: Global, out: &mut String, text: &[u8], place: usize) -> Result<(), AllocError>
    ensures { OnOk result (string_bytes out.new ≡ string_bytes out.old ++ bad_line text.now place) }
{
    let (front, rest) = text.split_at(cmp::min(place, text.len()));
    let (byte, _) = rest.split_at(cmp::min(1, rest.len()));
    if byte == b",".as_slice() && declares_name(alloc, front)? {
        return push_list_line(out);
    }
    Ok(())
}

/// Adds how many ranks a script has.
#[tactic(auto, unfolding(crate::specs::Hints::ranks_line))]
fn push_ranks(out: &mut String) -> Result<(), AllocError>
    ensures { OnOk result (string_bytes out.new ≡ string_bytes out.old ++ ranks_line) }
{
    out.push_str("  a script has 1 to 16 ranks\n")
}

/// Adds which version has a word, or which versions there are.
#[tactic(auto, unfolding(crate::specs::Hints::waitany_line, crate::specs::Hints::versions_line))]
fn push_version(out: &mut String, word: &[u8]) -> Result<(), AllocError>
    ensures { OnOk result (string_bytes out.new ≡ string_bytes out.old ++ version_line word.now) }
{
    if word == b"waitany".as_slice() {
        return out.push_str("  'waitany' is a word of version 2: begin with 'mpd 2;'\n");
    }
    out.push_str("  there are the versions 1 and 2\n")
}

/// Tells of a fault of a text what is mostly meant by what stands there: what is written here for a word of C or MPI (`unknown-name`);
/// that a word of the language can't be a name, what an `else` follows and where declarations stand, and which block isn't closed where the
/// text ends (`expected`); that a declaration has one name (`bad-token`); how many ranks a script has (`bad-ranks`), and which version has a
/// word (`not-in-version`). The line is indented by two and ends with a line feed; of any other fault there is none. An `Err` is want of
/// memory.
pub fn hint(alloc: Global, text: &[u8], fault: ReadFault) -> Result<String, AllocError>
    ensures { IfOk result (λ t. string_bytes t ≡ hint_line text.now fault.code fault.place) }
{
    let mut out = String::new(alloc);
    match fault.code {
        FaultCode::Expected => push_expected(alloc, &mut out, text, fault.place)?,
        FaultCode::BadToken => push_bad(alloc, &mut out, text, fault.place)?,
        FaultCode::BadRanks => push_ranks(&mut out)?,
        FaultCode::NotInVersion => push_version(&mut out, word_at(text, fault.place))?,
        FaultCode::UnknownName => {
            let word = word_at(text, fault.place);
            push_foreign(&mut out, word, instead_of(word))?;
        }
        _ => {}
    }
    Ok(out)
}
