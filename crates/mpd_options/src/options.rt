//! What the words of a command line ask for, and why they ask for nothing that can be done.
ghost use Rattle.std.specs.Prelude.{◌≡◌};
ghost use Rattle.mpd_options.specs.Refused.{is_answer, usage_status};

use clap::error::ErrorKind;
use std::alloc::AllocError;
use std::fmt;

/// What is said of words that are no text, as `clap` says it.
const NOT_TEXT: &str =
    "error: invalid UTF-8 was detected in one or more arguments\n\nFor more information, try '--help'.\n";

/// How what is found is written.
#[derive(Clone, Copy)]
pub enum Form {
    /// As text.
    Text,
    /// As a JSON object on a line.
    Json,
}

/// How deadlocks are looked for.
#[derive(Clone, Copy)]
pub struct CheckOptions {
    /// Up to how many slots modes are tried, 0 to 1,000, instead of one mode: `rendezvous`,
    /// `slots:1` to `slots:N`, `buffered`. `None` tries the one mode alone.
    pub modes: Option<usize>,
    /// How many runs of each piece are tried at most, 1 to 65,536; 1,000 by default.
    pub runs: usize,
    /// Whether the number of runs is given.
    pub runs_given: bool,
    /// How many steps each run takes at most, 1 to 1,000,000.
    pub fuel: usize,
    /// By how many choices the runs are cut into pieces, 0 to 8; 1 by default.
    pub split: usize,
    /// Whether the number of these choices is given.
    pub split_given: bool,
    /// How many workers make the report, 0 to 1,000; more than 16, and 0, are refused later.
    pub workers: usize,
    /// Whether each end is listed once: of runs that differ only in the order of steps that don't conflict, one.
    pub ends: bool,
    /// Whether each different end is listed once, with the number of runs that lead to it; runs
    /// aren't tried one by one.
    pub outcomes: bool,
    /// How many states are kept at most, if given: 1 to 16,000,000.
    pub states: Option<usize>,
    /// How many runs are drawn at random, 1 to 65,536, instead of trying all; optional.
    pub sample: Option<usize>,
    /// The seed of the draw, any number of 64 bits; optional.
    pub seed: Option<u64>,
    /// Whether each deadlock and each trap is explained.
    pub explain: bool,
    /// Whether each different end is listed once, instead of the runs.
    pub group: bool,
    /// Whether the report ends after the first run that ends in a deadlock or a trap.
    pub until_bad: bool,
    /// Whether the trace words of runs to a deadlock are wanted.
    pub witness: bool,
    /// Whether those of runs to a trap are asked for beside them.
    pub traps: bool,
    /// Whether the status shall say that not all runs were tried.
    pub complete: bool,
    /// The number of the piece whose part of the report is wanted alone, 0 to 1,023; optional.
    pub piece: Option<usize>,
    /// Whether it is only asked how many pieces there are.
    pub count_pieces: bool,
    /// How each report is written.
    pub form: Form,
}

/// Which runs of the script of a file a page shows, and how.
#[derive(Clone, Copy)]
pub struct PageOptions<'a> {
    /// The file's word.
    pub file: &'a str,
    /// The word of the mode, unchecked; `rendezvous` if none is given.
    pub mode: &'a str,
    /// The word of a run's choices, unchecked; optional.
    pub choices: Option<&'a str>,
    /// The file of a witness or a report, whose run is shown; optional.
    pub witness: Option<&'a str>,
    /// The file of a run's trace words; optional.
    pub words: Option<&'a str>,
    /// The runs of how many leaves that `check` lists, 1 to 1,000, if that is asked for.
    pub runs: Option<usize>,
    /// How many steps a run takes at most, 1 to 1,000,000.
    pub fuel: usize,
    /// How many states each search visits at most, 1 to 16,000,000.
    pub states: usize,
    /// Whether choices and runs go along the wide walk.
    pub ends: bool,
    /// Whether the ends of runs are hidden at first.
    pub hide: bool,
}

/// What a command line asks for.
#[derive(Clone, Copy)]
pub enum ToolOptions<'a> {
    /// No word: a script and its trace are on standard input.
    Plain,
    /// Say whether the runs of the script of a file can hang or trap, how, and where that was decided.
    Diagnose {
        /// The file's word.
        file: &'a str,
        /// The word of the mode, unchecked; optional.
        mode: Option<&'a str>,
        /// Up to how many slots modes are diagnosed in turn, 0 to 1,000, if that is asked for.
        modes: Option<usize>,
        /// Whether the status shall say that calls can be left over.
        strict: bool,
        /// The word of how many ranks run the script, one number or several, unchecked; optional.
        ranks: Option<&'a str>,
        /// How each diagnosis is written.
        form: Form,
    },
    /// Trace the script of a file, by trace words on standard input.
    Trace {
        /// The file's word.
        file: &'a str,
        /// The word of the mode, unchecked; `rendezvous` if none is given.
        mode: &'a str,
        /// Whether each line that is read is shown before its answer.
        echo: bool,
    },
    /// Debug the script of a file, by words on standard input.
    Debug {
        /// The file's word.
        file: &'a str,
        /// The word of the mode, unchecked; `rendezvous` if none is given.
        mode: &'a str,
        /// The word of the choices of a run whose steps are queued, unchecked; optional.
        choices: Option<&'a str>,
        /// The file of a witness or a report, whose steps to a deadlock or trap are queued;
        /// optional.
        witness: Option<&'a str>,
        /// Whether the choices are those of a report of `--ends` or `--sample`.
        ends: bool,
        /// Whether each line that is read is shown before its answer.
        echo: bool,
        /// How many bytes a line of an answer has before it wraps, 20 to 1,000; 80 if that isn't
        /// said.
        width: usize,
        /// Whether the screen is drawn anew after each word.
        view: bool,
        /// How many lines that screen has, 10 to 1,000; 24 if that isn't said.
        height: usize,
    },
    /// Debug the script of a file in an editor, by messages on standard input.
    Dap {
        /// The file's word.
        file: &'a str,
        /// The word of the mode, unchecked; `rendezvous` if none is given.
        mode: &'a str,
        /// The word of the choices of a run whose steps are laid ahead, unchecked; optional.
        choices: Option<&'a str>,
        /// The file of a witness or a report, whose steps to a deadlock or trap are laid ahead;
        /// optional.
        witness: Option<&'a str>,
        /// Whether the choices are those of a report of `--ends` or `--sample`.
        ends: bool,
    },
    /// Answer requests on the script of a file, which stand on standard input.
    Run {
        /// The file's word.
        file: &'a str,
        /// The word of the mode, unchecked; `rendezvous` if none is given.
        mode: &'a str,
        /// Whether more requests are answered than those of the closed list.
        wide: bool,
    },
    /// Answer requests of several clients on the script of a file.
    Serve {
        /// The file's word.
        file: &'a str,
        /// The word of the mode, unchecked; `rendezvous` if none is given.
        mode: &'a str,
        /// The port to listen on, 1 to 65,535.
        port: u16,
        /// How many clients are answered, 1 to 16.
        clients: usize,
        /// Whether more requests are answered than those of the closed list.
        wide: bool,
    },
    /// Look for deadlocks in the script of a file.
    Check {
        /// The file's word.
        file: &'a str,
        /// The word of the mode, unchecked; `rendezvous` if none is given.
        mode: &'a str,
        /// How it looks for them.
        options: CheckOptions,
    },
    /// Check a witness for the script of a file.
    Verify {
        /// The script's file.
        file: &'a str,
        /// The witness's file.
        witness: &'a str,
        /// The word of the mode, unchecked; `rendezvous` if none is given.
        mode: &'a str,
        /// The leaf whose witness is taken of a whole report, 0 to 67,108,863; optional.
        leaf: Option<usize>,
    },
    /// Write the trace words of a run of the script of a file.
    Words {
        /// The file's word.
        file: &'a str,
        /// The word of the run's choices, unchecked.
        choices: &'a str,
        /// The word of the mode, unchecked; `rendezvous` if none is given.
        mode: &'a str,
        /// How many steps the run takes at most, 1 to 1,000,000.
        fuel: usize,
        /// Whether the choices are those of a report of `--ends` or `--sample`.
        ends: bool,
    },
    /// Write the script of a file as a C program.
    Translate {
        /// The file's word.
        file: &'a str,
    },
    /// Draw a run of the script of a file.
    Picture {
        /// The file's word.
        file: &'a str,
        /// The word of the mode, unchecked; `rendezvous` if none is given.
        mode: &'a str,
        /// The word of the run's choices, unchecked; optional.
        choices: Option<&'a str>,
        /// The file of a witness or a report, whose run is drawn; optional.
        witness: Option<&'a str>,
        /// The file of the run's trace words; optional.
        words: Option<&'a str>,
        /// How many steps the run takes at most, 1 to 1,000,000, if it is told by choices or by
        /// nothing.
        fuel: usize,
        /// Whether the choices are those of a report of `--ends` or `--sample`.
        ends: bool,
        /// Whether the drawing has neither the list of calls nor the legend.
        plain: bool,
        /// Whether it has neither, and is larger.
        large: bool,
    },
    /// Show runs of the script of a file as a page for a browser.
    Page(PageOptions<'a>),
}

/// A whole command line: what it asks for, and for how many ranks.
#[derive(Clone, Copy)]
pub struct Options<'a> {
    /// What it asks for.
    pub asked: ToolOptions<'a>,
    /// How many ranks run the script, 1 to 16, if given; else it is the number in the script.
    pub ranks: Option<usize>,
}

/// Why a command line asks for nothing that can be done. Its `Display` is the text for the user, with its line feeds.
#[derive(Drop)]
pub enum UsageFault {
    /// Help or the version was asked for, or the words of the command line are wrong.
    Usage(clap::Error),
    /// A word is no text.
    NotText,
    /// Memory was refused.
    Memory,
}

impl From<AllocError> for UsageFault {
    ghost use Rattle.mpd_options.specs.declared.options.UsageFault.TheVariants.{Memory};

    ghost from_gives = { λ _ f. f ≡ Memory };

    fn from(_error: AllocError) -> UsageFault {
        UsageFault::Memory
    }
}

impl fmt::Display for UsageFault {
    fn fmt<W: fmt::Write>(&self, f: &mut fmt::Formatter<W>) -> fmt::Result {
        match self {
            UsageFault::Usage(error) => write!(f, "{error}"),
            UsageFault::NotText => f.write_str(NOT_TEXT),
            UsageFault::Memory => f.write_str("mpdbg: memory\n"),
        }
    }
}

impl UsageFault {
    /// Whether help or the version was asked for, which goes to standard output.
    pub fn is_answer(&self) -> bool
        ensures { result ≡ is_answer self.now }
    {
        match self {
            UsageFault::Usage(error) => {
                matches!(
                    error.kind(),
                    ErrorKind::DisplayHelp | ErrorKind::DisplayVersion
                )
            }
            UsageFault::NotText | UsageFault::Memory => false,
        }
    }

    /// The status that the program ends with: 0 after help or the version, 2 if the words are
    /// wrong, 3 if memory was refused.
    pub fn status(&self) -> u8
        ensures { result ≡ usage_status self.now }
    {
        if self.is_answer() {
            return 0;
        }
        match self {
            UsageFault::Usage(_) | UsageFault::NotText => 2,
            UsageFault::Memory => 3,
        }
    }
}
