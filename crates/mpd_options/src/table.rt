//! The table of the command line (docs/FORMATS.md, "The command line"): its commands, and what words
//! after each can say something of.

use crate::number::{
    CLIENTS, FUEL, HEIGHT, LEAF, MODES, Number, PAGED_RUNS, PAGED_STATES, PIECE, PORT, RANKS, RUNS,
    SAMPLE, SEED, SPLIT, STATES, WIDTH, WORKERS,
};

/// A command.
#[derive(Clone, Copy)]
pub enum Tool {
    /// `mpdbg diagnose`.
    Diagnose,
    /// `mpdbg trace`.
    Trace,
    /// `mpdbg debug`.
    Debug,
    /// `mpdbg dap`.
    Dap,
    /// `mpdbg run`.
    Run,
    /// `mpdbg serve`.
    Serve,
    /// `mpdbg check`.
    Check,
    /// `mpdbg verify`.
    Verify,
    /// `mpdbg words`.
    Words,
    /// `mpdbg c`.
    Translate,
    /// `mpdbg picture`.
    Picture,
    /// `mpdbg page`.
    Page,
}

/// A row of the table: a file, a flag or an option of some commands. What is asked by one of several
/// has a row for each text of help.
#[derive(Clone, Copy)]
pub(crate) enum Name {
    File,
    WitnessFile,
    Mode,
    GivenMode,
    Ranks,
    RankSpan,
    Modes,
    Port,
    Clients,
    Wide,
    Runs,
    Fuel,
    Split,
    Workers,
    Ends,
    ChosenEnds,
    Outcomes,
    States,
    Sample,
    Seed,
    Explain,
    Group,
    Until,
    Witness,
    Traps,
    Complete,
    Piece,
    Pieces,
    Json,
    ToldJson,
    Leaf,
    NeededChoices,
    LaidChoices,
    LaidWitness,
    DrawnChoices,
    DrawnWitness,
    DrawnWords,
    PagedChoices,
    PagedWitness,
    PagedWords,
    PagedRuns,
    PagedStates,
    PagedEnds,
    Hide,
    PlainDrawing,
    LargeDrawing,
    Strict,
    Echo,
    Width,
    View,
    Height,
}

/// The values that an option takes.
#[derive(Clone, Copy)]
pub(crate) enum Values {
    /// Any word.
    AnyWord,
    /// The numbers of a range.
    Numbers(Number),
    /// `deadlock` alone.
    DeadlockAlone,
}

/// What is known of an option with a value.
#[derive(Clone, Copy)]
pub(crate) struct Valued {
    /// How it is spelled, without its hyphens.
    pub(crate) spelling: &'static str,
    /// What stands for its value in help.
    pub(crate) shown: &'static str,
    pub(crate) values: Values,
    /// Whether it must be there.
    pub(crate) required: bool,
}

/// How words say something of it.
#[derive(Clone, Copy)]
pub(crate) enum Kind {
    /// A file, whose word stands alone and must be there, by its place among such words.
    File(usize),
    /// A flag, which is spelled as `clap` knows it.
    Flag,
    /// An option with a value.
    Valued(Valued),
}

/// What stands in a row.
#[derive(Clone, Copy)]
pub(crate) struct Item {
    /// What `clap` knows it by.
    pub(crate) id: &'static str,
    pub(crate) kind: Kind,
    /// What help says of it.
    pub(crate) help: &'static str,
}

/// A file.
fn file(id: &'static str, place: usize, help: &'static str) -> Item {
    Item {
        id,
        kind: Kind::File(place),
        help,
    }
}

/// A flag.
fn flag(id: &'static str, help: &'static str) -> Item {
    Item {
        id,
        kind: Kind::Flag,
        help,
    }
}

/// An option that is spelled as `clap` knows it, and need not be there.
fn option(id: &'static str, shown: &'static str, values: Values, help: &'static str) -> Item {
    Item {
        id,
        kind: Kind::Valued(Valued {
            spelling: id,
            shown,
            values,
            required: false,
        }),
        help,
    }
}

/// An option whose value is any word.
fn word(id: &'static str, shown: &'static str, help: &'static str) -> Item {
    option(id, shown, Values::AnyWord, help)
}

/// An option whose value is a number.
fn number(number: Number, shown: &'static str, help: &'static str) -> Item {
    option(number.name, shown, Values::Numbers(number), help)
}

/// The same option, which must be there.
fn required(item: Item) -> Item {
    match item.kind {
        Kind::Valued(option) => Item {
            kind: Kind::Valued(Valued {
                required: true,
                ..option
            }),
            ..item
        },
        _ => item,
    }
}

/// The file of a witness, whose option is spelled as the flag of `check` is.
fn witness(help: &'static str) -> Item {
    Item {
        id: "laid_witness",
        kind: Kind::Valued(Valued {
            spelling: "witness",
            shown: "WITNESS",
            values: Values::AnyWord,
            required: false,
        }),
        help,
    }
}

impl Name {
    /// Its row.
    pub(crate) fn item(self) -> Item {
        match self {
            Name::File => file("FILE", 1, "The script"),
            Name::WitnessFile => file("WITNESS", 2, "The file of the witness"),
            Name::Mode => word(
                "mode",
                "M",
                "How standard sends behave: rendezvous, buffered, or slots:K with K from 0 to 65536 [default: rendezvous]",
            ),
            Name::GivenMode => word(
                "mode",
                "M",
                "How standard sends behave: rendezvous, which is usual, buffered, or slots:K with K from 0 to 65536",
            ),
            Name::Ranks => number(
                RANKS,
                "N",
                "How many ranks run the script, 1 to 16, in place of the number in it",
            ),
            Name::RankSpan => Item {
                id: "rank_span",
                kind: Kind::Valued(Valued {
                    spelling: "ranks",
                    shown: "N[-M]",
                    values: Values::AnyWord,
                    required: false,
                }),
                help: "How many ranks run the script, 1 to 16, in place of the number in it; N-M tells each number from N to M by a line",
            },
            Name::Modes => number(
                MODES,
                "N",
                "Try rendezvous, slots:1 to slots:N and buffered in place of one mode, 0 to 1000",
            ),
            Name::Port => required(number(PORT, "P", "The port that it listens on, 1 to 65535")),
            Name::Clients => required(number(CLIENTS, "N", "How many clients it answers, 1 to 16")),
            Name::Wide => flag(
                "wide",
                "Answer more requests: run-on, hit, script, where, all, decision, steps, lines and explain, and more kinds and fields of break",
            ),
            Name::Runs => number(
                RUNS,
                "N",
                "How many runs of each piece are tried at most, 1 to 65536 [default: 1000]",
            ),
            Name::Fuel => number(
                FUEL,
                "N",
                "How many steps a run takes at most, 1 to 1000000 [default: 100000]",
            ),
            Name::Split => number(
                SPLIT,
                "K",
                "By how many choices the runs are cut into pieces, 0 to 8 [default: 1]",
            ),
            Name::Workers => number(
                WORKERS,
                "N",
                "How many workers make the report, 1 to 16 [default: 4]",
            ),
            Name::Ends => flag(
                "ends",
                "List each end once: leave out runs that differ only in the order of steps that don't conflict",
            ),
            Name::ChosenEnds => flag(
                "ends",
                "The choices are those of a leaf of `check --ends` or `check --sample`",
            ),
            Name::Outcomes => flag(
                "outcomes",
                "Count the runs that come to each different end, without trying them one by one",
            ),
            Name::States => number(
                STATES,
                "N",
                "How many states --outcomes keeps at most, 1 to 16000000 [default: 1000000]",
            ),
            Name::Sample => number(
                SAMPLE,
                "N",
                "Draw the choices of N runs at random, 1 to 65536",
            ),
            Name::Seed => number(
                SEED,
                "S",
                "What --sample begins to draw with, 0 to 18446744073709551615 [default: 0]",
            ),
            Name::Explain => flag(
                "explain",
                "Explain each deadlock and trap, and tell what is left over",
            ),
            Name::Group => flag(
                "group",
                "List each different end once, with how many runs come to it",
            ),
            Name::Until => option(
                "until",
                "END",
                Values::DeadlockAlone,
                "Stop at the first run that ends in a deadlock or a trap",
            ),
            Name::Witness => flag(
                "witness",
                "Print the trace words of a run that ends in a deadlock",
            ),
            Name::Traps => flag(
                "traps",
                "With --witness, print those of a run that ends in a trap too, as other ways to report do [see docs/FORMATS.md]",
            ),
            Name::Complete => flag(
                "complete",
                "End with status 4 where nothing was found and not all was tried, with --modes in each mode; not beside --piece or --pieces",
            ),
            Name::Piece => number(
                PIECE,
                "N",
                "Print the part of the report that piece N has, 0 to 1023",
            ),
            Name::Pieces => flag(
                "pieces",
                "Print how many pieces there are, and nothing else",
            ),
            Name::Json => flag(
                "json",
                "Print each report as a JSON object on a line, in place of text; not beside --piece or --pieces",
            ),
            Name::ToldJson => flag(
                "json",
                "Print each diagnosis as a JSON object on a line, in place of text",
            ),
            Name::Leaf => number(
                LEAF,
                "N",
                "Take the witness of leaf N of a whole report, 0 to 67108863",
            ),
            Name::NeededChoices => required(word(
                "choices",
                "C",
                "The choices of the run, numbers from 0 with spaces between them",
            )),
            Name::LaidChoices => word(
                "choices",
                "C",
                "The choices of a run that is laid ahead, numbers from 0 with spaces between them",
            ),
            Name::LaidWitness => witness("A witness or a report, whose run is laid ahead"),
            Name::DrawnChoices => word(
                "choices",
                "C",
                "Draw the run with these choices, numbers from 0 with spaces between them",
            ),
            Name::DrawnWitness => witness("Draw the run of a witness or a report"),
            Name::DrawnWords => word(
                "words",
                "WORDS",
                "Draw the run of a file of trace words, one a line",
            ),
            Name::PagedChoices => word(
                "choices",
                "C",
                "Show the run with these choices, numbers from 0 with spaces between them",
            ),
            Name::PagedWitness => witness("Show the run of a witness or a report"),
            Name::PagedWords => word(
                "words",
                "WORDS",
                "Show the run of a file of trace words, one a line",
            ),
            Name::PagedRuns => number(
                PAGED_RUNS,
                "N",
                "Show the runs of the first N leaves that `check` lists, 1 to 1000",
            ),
            Name::PagedStates => number(
                PAGED_STATES,
                "N",
                "How many states each search of a page comes to at most, 1 to 16000000 [default: 100000]",
            ),
            Name::PagedEnds => flag(
                "ends",
                "Take choices and runs along the wide walk, as `check --ends` does",
            ),
            Name::Hide => flag("hide", "Cover how runs end until the key h is pressed"),
            Name::PlainDrawing => flag("plain", "Leave out the list of calls and the legend"),
            Name::LargeDrawing => flag("large", "Leave them out, and draw larger, for a slide"),
            Name::Strict => flag(
                "strict",
                "End with status 1 also where calls can be left over",
            ),
            Name::Echo => flag("echo", "Show each line that is read before its answer"),
            Name::Width => number(
                WIDTH,
                "N",
                "How many bytes a line of an answer has before it wraps, 20 to 1000 [default: 80]",
            ),
            Name::View => flag(
                "view",
                "Draw the screen anew after each word: the script, the ranks and the last answer",
            ),
            Name::Height => number(
                HEIGHT,
                "N",
                "How many lines the screen of --view has, 10 to 1000 [default: 24]",
            ),
        }
    }
}

/// The commands, as help lists them.
pub(crate) const TOOLS: [Tool; 12] = [
    Tool::Diagnose,
    Tool::Trace,
    Tool::Debug,
    Tool::Dap,
    Tool::Run,
    Tool::Serve,
    Tool::Check,
    Tool::Verify,
    Tool::Words,
    Tool::Translate,
    Tool::Picture,
    Tool::Page,
];

impl Tool {
    /// Its word.
    pub(crate) fn word<'a>(self) -> &'a str {
        match self {
            Tool::Diagnose => "diagnose",
            Tool::Trace => "trace",
            Tool::Debug => "debug",
            Tool::Dap => "dap",
            Tool::Run => "run",
            Tool::Serve => "serve",
            Tool::Check => "check",
            Tool::Verify => "verify",
            Tool::Words => "words",
            Tool::Translate => "c",
            Tool::Picture => "picture",
            Tool::Page => "page",
        }
    }

    /// What words after it can say something of, as its help lists it.
    pub(crate) fn names(self) -> &'static [Name] {
        match self {
            Tool::Diagnose => &[
                Name::File,
                Name::RankSpan,
                Name::GivenMode,
                Name::Modes,
                Name::Strict,
                Name::ToldJson,
            ],
            Tool::Trace => &[Name::File, Name::Ranks, Name::Mode, Name::Echo],
            Tool::Run => &[Name::File, Name::Ranks, Name::Mode, Name::Wide],
            Tool::Debug => &[
                Name::File,
                Name::Ranks,
                Name::Mode,
                Name::LaidChoices,
                Name::LaidWitness,
                Name::ChosenEnds,
                Name::Echo,
                Name::Width,
                Name::View,
                Name::Height,
            ],
            Tool::Dap => &[
                Name::File,
                Name::Ranks,
                Name::Mode,
                Name::LaidChoices,
                Name::LaidWitness,
                Name::ChosenEnds,
            ],
            Tool::Serve => &[
                Name::File,
                Name::Ranks,
                Name::Mode,
                Name::Port,
                Name::Clients,
                Name::Wide,
            ],
            Tool::Check => &[
                Name::File,
                Name::Ranks,
                Name::Mode,
                Name::Modes,
                Name::Runs,
                Name::Fuel,
                Name::Split,
                Name::Workers,
                Name::Ends,
                Name::Outcomes,
                Name::States,
                Name::Sample,
                Name::Seed,
                Name::Explain,
                Name::Group,
                Name::Until,
                Name::Witness,
                Name::Traps,
                Name::Complete,
                Name::Piece,
                Name::Pieces,
                Name::Json,
            ],
            Tool::Verify => &[
                Name::File,
                Name::Ranks,
                Name::Mode,
                Name::WitnessFile,
                Name::Leaf,
            ],
            Tool::Words => &[
                Name::File,
                Name::Ranks,
                Name::Mode,
                Name::NeededChoices,
                Name::Fuel,
                Name::ChosenEnds,
            ],
            Tool::Translate => &[Name::File, Name::Ranks],
            Tool::Page => &[
                Name::File,
                Name::Ranks,
                Name::Mode,
                Name::PagedChoices,
                Name::PagedWitness,
                Name::PagedWords,
                Name::PagedRuns,
                Name::Fuel,
                Name::PagedStates,
                Name::PagedEnds,
                Name::Hide,
            ],
            Tool::Picture => &[
                Name::File,
                Name::Ranks,
                Name::Mode,
                Name::DrawnChoices,
                Name::DrawnWitness,
                Name::DrawnWords,
                Name::Fuel,
                Name::ChosenEnds,
                Name::PlainDrawing,
                Name::LargeDrawing,
            ],
        }
    }
}

/// The command that a word names.
pub(crate) fn tool_named(word: &str) -> Option<Tool> {
    for tool in &TOOLS {
        if tool.word() == word {
            return Some(*tool);
        }
    }
    None
}
