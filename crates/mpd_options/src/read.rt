//! Reads the words of a command line.
ghost use Rattle.std.specs.Prelude.{◌≡◌, IfOk, IfErr, IsOkAnd, None, length};
ghost use Rattle.mpd_options.specs.Ranges.{AreInRange, IsLineInRange, IsToolInRange};
ghost use Rattle.mpd_options.specs.Refused.{IsRefused};
ghost use Rattle.mpd_options.specs.declared.options.ToolOptions.TheVariants.{Plain};

use crate::command::program;
use crate::number::{
    CLIENTS, FUEL, HEIGHT, LEAF, MODES, PAGED_RUNS, PAGED_STATES, PIECE, PORT, RANKS, RUNS, SAMPLE,
    SEED, SPLIT, STATES, WIDTH, WORKERS,
};
use crate::options::{CheckOptions, Form, Options, PageOptions, ToolOptions, UsageFault};
use crate::table::{Name, Tool, tool_named};
use clap::ArgMatches;
use clap::error::ErrorKind;
use std::alloc::Global;
use std::convert::AsStr;

/// The mode by default.
const USUAL_MODE: &str = "rendezvous";

/// How many runs of each piece are tried by default.
const USUAL_RUNS: usize = 1_000;

/// How many steps a run takes at most by default.
const USUAL_FUEL: usize = 100_000;

/// By how many choices the runs are cut into pieces by default.
const USUAL_SPLIT: usize = 1;

/// How many workers make a report by default.
const USUAL_WORKERS: usize = 4;

/// How many states each search of a page comes to at most by default.
const USUAL_STATES: usize = 100_000;

/// How many bytes a line of an answer has by default.
const USUAL_WIDTH: usize = 80;

/// How many lines a screen has by default.
const USUAL_HEIGHT: usize = 24;

/// The text of a row of the table, if one was given.
fn text<'a>(matches: &ArgMatches<'a>, name: Name) -> Option<&'a str> {
    matches.get_str(name.item().id)
}

/// The text of a row that must be there.
fn word<'a>(matches: &ArgMatches<'a>, name: Name) -> &'a str {
    text(matches, name).unwrap_or("")
}

/// The word of the mode.
fn mode<'a>(matches: &ArgMatches<'a>) -> &'a str {
    text(matches, Name::Mode).unwrap_or(USUAL_MODE)
}

/// Whether the flag of a row was given.
fn is_on(matches: &ArgMatches<'_>, name: Name) -> bool {
    matches.get_flag(name.item().id)
}

/// How what is found is written, by the flag of a row.
fn form(matches: &ArgMatches<'_>, name: Name) -> Form {
    if is_on(matches, name) {
        return Form::Json;
    }
    Form::Text
}

/// What the words after `trace` ask for.
fn trace_in<'a>(trace: &ArgMatches<'a>) -> ToolOptions<'a>
    ensures { IsToolInRange result }
{
    ToolOptions::Trace {
        file: word(trace, Name::File),
        mode: mode(trace),
        echo: is_on(trace, Name::Echo),
    }
}

/// What the words after `debug` ask for.
fn debug_in<'a>(debug: &ArgMatches<'a>) -> ToolOptions<'a>
    ensures { IsToolInRange result }
{
    ToolOptions::Debug {
        file: word(debug, Name::File),
        mode: mode(debug),
        choices: text(debug, Name::LaidChoices),
        witness: text(debug, Name::LaidWitness),
        ends: is_on(debug, Name::ChosenEnds),
        echo: is_on(debug, Name::Echo),
        width: WIDTH.given_or(debug, USUAL_WIDTH),
        view: is_on(debug, Name::View),
        height: HEIGHT.given_or(debug, USUAL_HEIGHT),
    }
}

/// What the words after `dap` ask for.
fn dap_in<'a>(dap: &ArgMatches<'a>) -> ToolOptions<'a>
    ensures { IsToolInRange result }
{
    ToolOptions::Dap {
        file: word(dap, Name::File),
        mode: mode(dap),
        choices: text(dap, Name::LaidChoices),
        witness: text(dap, Name::LaidWitness),
        ends: is_on(dap, Name::ChosenEnds),
    }
}

/// What the words after `diagnose` ask for.
fn diagnose_in<'a>(diagnose: &ArgMatches<'a>) -> ToolOptions<'a>
    ensures { IsToolInRange result }
{
    ToolOptions::Diagnose {
        file: word(diagnose, Name::File),
        mode: text(diagnose, Name::GivenMode),
        modes: MODES.given(diagnose),
        strict: is_on(diagnose, Name::Strict),
        ranks: text(diagnose, Name::RankSpan),
        form: form(diagnose, Name::ToldJson),
    }
}

/// What the words after `run` ask for.
fn run_in<'a>(run: &ArgMatches<'a>) -> ToolOptions<'a>
    ensures { IsToolInRange result }
{
    ToolOptions::Run {
        file: word(run, Name::File),
        mode: mode(run),
        wide: is_on(run, Name::Wide),
    }
}

/// What the words after `serve` ask for. Port and clients must be there.
fn serve_in<'a>(serve: &ArgMatches<'a>) -> ToolOptions<'a>
    ensures { IsToolInRange result }
{
    ToolOptions::Serve {
        file: word(serve, Name::File),
        mode: mode(serve),
        port: PORT.given_or(serve, PORT.least) as u16,
        clients: CLIENTS.given_or(serve, CLIENTS.least),
        wide: is_on(serve, Name::Wide),
    }
}

/// How the words after `check` ask for deadlocks to be looked for.
fn check_options_in(check: &ArgMatches<'_>) -> CheckOptions
    ensures { AreInRange result }
{
    let runs = RUNS.given(check);
    let split = SPLIT.given(check);
    CheckOptions {
        modes: MODES.given(check),
        runs: runs.unwrap_or(USUAL_RUNS),
        runs_given: runs.is_some(),
        fuel: FUEL.given_or(check, USUAL_FUEL),
        split: split.unwrap_or(USUAL_SPLIT),
        split_given: split.is_some(),
        workers: WORKERS.given_or(check, USUAL_WORKERS),
        ends: is_on(check, Name::Ends),
        outcomes: is_on(check, Name::Outcomes),
        states: STATES.given(check),
        sample: SAMPLE.given(check),
        seed: SEED.given(check).map(|seed| seed as u64),
        explain: is_on(check, Name::Explain),
        group: is_on(check, Name::Group),
        until_bad: text(check, Name::Until).is_some(),
        witness: is_on(check, Name::Witness),
        traps: is_on(check, Name::Traps),
        complete: is_on(check, Name::Complete),
        piece: PIECE.given(check),
        count_pieces: is_on(check, Name::Pieces),
        form: form(check, Name::Json),
    }
}

/// What the words after `check` ask for.
fn check_in<'a>(check: &ArgMatches<'a>) -> ToolOptions<'a>
    ensures { IsToolInRange result }
{
    ToolOptions::Check {
        file: word(check, Name::File),
        mode: mode(check),
        options: check_options_in(check),
    }
}

/// What the words after `verify` ask for.
fn verify_in<'a>(verify: &ArgMatches<'a>) -> ToolOptions<'a>
    ensures { IsToolInRange result }
{
    ToolOptions::Verify {
        file: word(verify, Name::File),
        witness: word(verify, Name::WitnessFile),
        mode: mode(verify),
        leaf: LEAF.given(verify),
    }
}

/// What the words after `words` ask for.
fn words_in<'a>(words: &ArgMatches<'a>) -> ToolOptions<'a>
    ensures { IsToolInRange result }
{
    ToolOptions::Words {
        file: word(words, Name::File),
        choices: word(words, Name::NeededChoices),
        mode: mode(words),
        fuel: FUEL.given_or(words, USUAL_FUEL),
        ends: is_on(words, Name::ChosenEnds),
    }
}

/// What the words after `c` ask for.
fn translate_in<'a>(translate: &ArgMatches<'a>) -> ToolOptions<'a>
    ensures { IsToolInRange result }
{
    ToolOptions::Translate {
        file: word(translate, Name::File),
    }
}

/// What the words after `picture` ask for.
fn picture_in<'a>(picture: &ArgMatches<'a>) -> ToolOptions<'a>
    ensures { IsToolInRange result }
{
    ToolOptions::Picture {
        file: word(picture, Name::File),
        mode: mode(picture),
        choices: text(picture, Name::DrawnChoices),
        witness: text(picture, Name::DrawnWitness),
        words: text(picture, Name::DrawnWords),
        fuel: FUEL.given_or(picture, USUAL_FUEL),
        ends: is_on(picture, Name::ChosenEnds),
        plain: is_on(picture, Name::PlainDrawing),
        large: is_on(picture, Name::LargeDrawing),
    }
}

/// What the words after `page` ask for.
fn page_in<'a>(page: &ArgMatches<'a>) -> ToolOptions<'a>
    ensures { IsToolInRange result }
{
    ToolOptions::Page(PageOptions {
        file: word(page, Name::File),
        mode: mode(page),
        choices: text(page, Name::PagedChoices),
        witness: text(page, Name::PagedWitness),
        words: text(page, Name::PagedWords),
        runs: PAGED_RUNS.given(page),
        fuel: FUEL.given_or(page, USUAL_FUEL),
        states: PAGED_STATES.given_or(page, USUAL_STATES),
        ends: is_on(page, Name::PagedEnds),
        hide: is_on(page, Name::Hide),
    })
}

/// What the words after a command ask for.
fn options_in<'a>(tool: Tool, matches: &ArgMatches<'a>) -> ToolOptions<'a>
    ensures { IsToolInRange result }
{
    match tool {
        Tool::Diagnose => diagnose_in(matches),
        Tool::Trace => trace_in(matches),
        Tool::Debug => debug_in(matches),
        Tool::Dap => dap_in(matches),
        Tool::Run => run_in(matches),
        Tool::Serve => serve_in(matches),
        Tool::Check => check_in(matches),
        Tool::Verify => verify_in(matches),
        Tool::Words => words_in(matches),
        Tool::Translate => translate_in(matches),
        Tool::Picture => picture_in(matches),
        Tool::Page => page_in(matches),
    }
}

/// A script and its trace on standard input.
fn plain<'a>() -> Options<'a>
    ensures asked { result.asked ≡ Plain }
    ensures ranks { result.ranks ≡ None }
{
    Options {
        asked: ToolOptions::Plain,
        ranks: None,
    }
}

/// What the command that was found asks for, and for how many ranks; `diagnose` has an option of
/// its own for these.
fn line_in<'a>(matches: &ArgMatches<'a>) -> Options<'a>
    ensures { IsLineInRange result }
{
    let Some((word, command)) = matches.subcommand() else {
        return plain();
    };
    match tool_named(word) {
        Some(tool) => Options {
            asked: options_in(tool, command),
            ranks: RANKS.given(command),
        },
        None => plain(),
    }
}

/// The fault of words that `clap` refuses: refused memory is no fault of theirs.
fn usage_fault(error: clap::Error) -> UsageFault
    ensures { IsRefused result }
{
    match error.kind() {
        ErrorKind::OutOfMemory => UsageFault::Memory,
        _ => UsageFault::Usage(error),
    }
}

/// Reads the words of a command line, without the program's own name (docs/FORMATS.md, "The command
/// line"): what they ask for, with the words of files and mode as they were given, and each number
/// in its range. No words ask for a script and its trace on standard input. An `Err` is `Usage` for
/// the texts of help and the version and for words that are wrong, or `Memory`.
pub fn read_options<'a, S: AsStr>(alloc: Global, words: &'a [S]) -> Result<Options<'a>, UsageFault>
    ensures in_range { IfOk result IsLineInRange }
    ensures plain { length words.now ≡ 0 → IsOkAnd result (λ line. line.asked ≡ Plain) }
    ensures err { IfErr result IsRefused }
{
    if words.is_empty() {
        return Ok(plain());
    }
    let command = program(alloc)?;
    match command.try_get_matches_from(words) {
        Ok(matches) => Ok(line_in(&matches)),
        Err(error) => Err(usage_fault(error)),
    }
}
