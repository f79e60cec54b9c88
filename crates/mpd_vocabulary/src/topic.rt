//! The words of the console: what they are called, their forms, and what they do (docs/CONSOLE.md, "Words").

ghost use Rattle.std.specs.Prelude.{◌≡◌, ◌≤◌, [], length, map};
ghost use Rattle.mpd_vocabulary.specs.Topics as spec;

/// A word of the console.
#[derive(Clone, Copy)]
pub enum Topic {
    Next,
    Run,
    Until,
    Finish,
    Back,
    RunBack,
    UndoChoice,
    Goto,
    Restart,
    Reload,
    Source,
    Redo,
    Local,
    Match,
    Wake,
    WakeAny,
    Release,
    Break,
    Watch,
    Delete,
    Breaks,
    Info,
    List,
    Print,
    Vars,
    Ranks,
    Calls,
    Queues,
    Why,
    History,
    Picture,
    Check,
    Follow,
    Deadlock,
    Trap,
    Blame,
    Words,
    Enabled,
    Show,
    Help,
    Quit,
}

/// What the words are called, in the order of the table, the whole name of each before its short forms.
pub const NAMES: [(&str, Topic); 69] = [
    ("next", Topic::Next),
    ("n", Topic::Next),
    ("step", Topic::Next),
    ("s", Topic::Next),
    ("run", Topic::Run),
    ("r", Topic::Run),
    ("continue", Topic::Run),
    ("c", Topic::Run),
    ("until", Topic::Until),
    ("finish", Topic::Finish),
    ("back", Topic::Back),
    ("bk", Topic::Back),
    ("undo", Topic::Back),
    ("rs", Topic::Back),
    ("reverse-step", Topic::Back),
    ("reverse-next", Topic::Back),
    ("run-back", Topic::RunBack),
    ("rc", Topic::RunBack),
    ("reverse-continue", Topic::RunBack),
    ("undo-choice", Topic::UndoChoice),
    ("u", Topic::UndoChoice),
    ("goto", Topic::Goto),
    ("g", Topic::Goto),
    ("restart", Topic::Restart),
    ("reload", Topic::Reload),
    ("source", Topic::Source),
    ("redo", Topic::Redo),
    ("local", Topic::Local),
    ("match", Topic::Match),
    ("wake", Topic::Wake),
    ("wakeany", Topic::WakeAny),
    ("release", Topic::Release),
    ("break", Topic::Break),
    ("b", Topic::Break),
    ("br", Topic::Break),
    ("watch", Topic::Watch),
    ("delete", Topic::Delete),
    ("d", Topic::Delete),
    ("breaks", Topic::Breaks),
    ("info", Topic::Info),
    ("list", Topic::List),
    ("l", Topic::List),
    ("print", Topic::Print),
    ("p", Topic::Print),
    ("vars", Topic::Vars),
    ("ranks", Topic::Ranks),
    ("bt", Topic::Ranks),
    ("where", Topic::Ranks),
    ("calls", Topic::Calls),
    ("queues", Topic::Queues),
    ("why", Topic::Why),
    ("w", Topic::Why),
    ("history", Topic::History),
    ("h", Topic::History),
    ("picture", Topic::Picture),
    ("check", Topic::Check),
    ("follow", Topic::Follow),
    ("f", Topic::Follow),
    ("deadlock", Topic::Deadlock),
    ("trap", Topic::Trap),
    ("blame", Topic::Blame),
    ("words", Topic::Words),
    ("enabled", Topic::Enabled),
    ("show", Topic::Show),
    ("help", Topic::Help),
    ("?", Topic::Help),
    ("quit", Topic::Quit),
    ("q", Topic::Quit),
    ("exit", Topic::Quit),
];

/// A word of each line of `help all`, in the order of the table.
pub const TOPICS: [Topic; 37] = [
    Topic::Next,
    Topic::Run,
    Topic::Until,
    Topic::Finish,
    Topic::Back,
    Topic::RunBack,
    Topic::UndoChoice,
    Topic::Goto,
    Topic::Restart,
    Topic::Reload,
    Topic::Source,
    Topic::Redo,
    Topic::Local,
    Topic::Break,
    Topic::Watch,
    Topic::Delete,
    Topic::Breaks,
    Topic::Info,
    Topic::List,
    Topic::Print,
    Topic::Vars,
    Topic::Ranks,
    Topic::Calls,
    Topic::Queues,
    Topic::Why,
    Topic::History,
    Topic::Picture,
    Topic::Check,
    Topic::Follow,
    Topic::Deadlock,
    Topic::Trap,
    Topic::Blame,
    Topic::Words,
    Topic::Enabled,
    Topic::Show,
    Topic::Help,
    Topic::Quit,
];

/// The words of `help`, which one needs first.
pub const FIRST: [Topic; 12] = [
    Topic::Next,
    Topic::Run,
    Topic::Back,
    Topic::UndoChoice,
    Topic::Restart,
    Topic::Break,
    Topic::List,
    Topic::Print,
    Topic::Why,
    Topic::Deadlock,
    Topic::Blame,
    Topic::Quit,
];

/// The word of a name, among some names.
fn topic_in(mut names: &[(&str, Topic)], word: &[u8]) -> Option<Topic>
    ensures { result ≡ spec.topic_in (map (λ k. (k.0.now, k.1)) names.entry.now) word.now }
{
    while let [name, rest @ ..] = names {
        if name.0.as_bytes() == word {
            return Some(name.1);
        }
        names = rest;
    }
    None
}

/// The word of a name, whole or short.
#[tactic(auto, unfolding(crate::specs::Topics::topic_of))]
pub(crate) fn topic_of(word: &[u8]) -> Option<Topic>
    ensures { result ≡ spec.topic_of word.now }
{
    topic_in(&NAMES, word)
}

/// How many bytes two words begin with in common.
#[tactic(auto, using(crate::proofs::FaultLemmas::sharing))]
fn shared(one: &[u8], other: &[u8]) -> usize
    ensures value { result ≡ spec.shared one.now other.now }
    ensures bound { result ≤ length one.now }
{
    let mut rest = other;
    for (i, byte) in one.iter().enumerate() {
        match rest.split_first() {
            None => return i,
            Some((first, _)) if *byte != *first => return i,
            Some((_, behind)) => rest = behind,
        }
    }
    one.len()
}

/// The first of some names that begins most like a word, where one begins with two bytes of it at least; else none.
fn nearer(mut names: &[(&'static str, Topic)], word: &[u8]) -> &'static str
    ensures { result.now ≡ spec.nearer word.now (map (λ k. (k.0.now, k.1)) names.entry.now) 1 [] }
{
    let mut most = 1;
    let mut best = "";
    while let [name, rest @ ..] = names {
        let count = shared(name.0.as_bytes(), word);
        if most < count {
            most = count;
            best = name.0;
        }
        names = rest;
    }
    best
}

/// The name that begins most like a word, the first of several; empty where none begins with its first two bytes.
#[tactic(auto, unfolding(crate::specs::Topics::nearest))]
pub(crate) fn nearest(word: &[u8]) -> &'static str
    ensures { result.now ≡ spec.nearest word.now }
{
    nearer(&NAMES, word)
}

/// What is told of a word.
#[derive(Clone, Copy)]
pub struct Entry {
    /// How it is written, with what may follow it.
    pub usage: &'static str,
    /// What it does, in short.
    pub purpose: &'static str,
    /// What more is to be said of it, after that.
    pub details: &'static str,
    /// Its short forms.
    pub shorts: &'static str,
}

/// What more is told of each step by hand.
const STEP_DETAILS: &str =
    "; P is a rank, S and R are a send and a receive as 1.0, and I is the number of a request of a waitany, from 0";

const NEXT: Entry = Entry {
    usage: "next [N]",
    purpose: "takes the step that comes next",
    details: "; at a choice the one that lies ahead, or it lists the candidates, of which next N takes one, from 1 (reports count them from 0, in [..]); elsewhere next N is run N",
    shorts: "n, step, s",
};

const RUN: Entry = Entry {
    usage: "run [N]",
    purpose: "goes on to a breakpoint, a choice or an end",
    details: "; or so many steps at most",
    shorts: "r, continue, c",
};

const UNTIL: Entry = Entry {
    usage: "until LINE, until rank P",
    purpose: "goes on until a rank comes to that line",
    details: "; as run does to a breakpoint there; or until rank P has gone on",
    shorts: "",
};

const FINISH: Entry = Entry {
    usage: "finish [P]",
    purpose: "goes on until a rank's call is over",
    details: "; the one that rank P waits in, or the rank of the last step",
    shorts: "",
};

const BACK: Entry = Entry {
    usage: "back [N], back rank P",
    purpose: "takes a step back, or so many",
    details: "; or goes back to before the last local step of rank P",
    shorts: "bk, undo, rs, reverse-step, reverse-next",
};

const RUN_BACK: Entry = Entry {
    usage: "run-back",
    purpose: "goes back to a breakpoint, or to the start",
    details: "",
    shorts: "rc, reverse-continue",
};

const UNDO_CHOICE: Entry = Entry {
    usage: "undo-choice",
    purpose: "goes back to the last choice",
    details: "; another candidate can be taken there",
    shorts: "u",
};

const GOTO: Entry = Entry {
    usage: "goto N",
    purpose: "goes to where so many steps are taken",
    details: "; back, or along the steps ahead",
    shorts: "g",
};

const RESTART: Entry = Entry {
    usage: "restart",
    purpose: "goes back to the start",
    details: "; redo all goes along the same steps again",
    shorts: "",
};

const RELOAD: Entry = Entry {
    usage: "reload",
    purpose: "reads the file of the script again",
    details: "; breakpoints stay, and the steps that were taken are taken again, as far as they fit",
    shorts: "",
};

const SOURCE: Entry = Entry {
    usage: "source FILE",
    purpose: "answers the words of a file",
    details: "; each of its lines is answered as if it was typed, and none of them is a source",
    shorts: "",
};

const REDO: Entry = Entry {
    usage: "redo [N], redo all",
    purpose: "takes the first step ahead, or so many",
    details: "; as far as there are, or all",
    shorts: "",
};

const LOCAL: Entry = Entry {
    usage: "local P",
    purpose: "takes this step",
    details: STEP_DETAILS,
    shorts: "",
};

const MATCH: Entry = Entry {
    usage: "match S R",
    purpose: "takes this step",
    details: STEP_DETAILS,
    shorts: "",
};

const WAKE: Entry = Entry {
    usage: "wake P",
    purpose: "takes this step",
    details: STEP_DETAILS,
    shorts: "",
};

const WAKE_ANY: Entry = Entry {
    usage: "wakeany P I",
    purpose: "takes this step",
    details: STEP_DETAILS,
    shorts: "",
};

const RELEASE: Entry = Entry {
    usage: "release",
    purpose: "takes this step",
    details: STEP_DETAILS,
    shorts: "",
};

const BREAK: Entry = Entry {
    usage: "break LINE [rank P] [if NAME OP N], break match LINE [rank P], break rank P, break change P NAME",
    purpose: "sets a breakpoint",
    details: "; after a step by which a rank, or rank P, comes to that line, if its variable compares so with N, OP being ==, !=, <, <=, > or >=; after a match of a call of that line, or of one of rank P; after each step of rank P after which it isn't blocked; after a change of that variable or request of rank P",
    shorts: "b, br",
};

const WATCH: Entry = Entry {
    usage: "watch NAME P",
    purpose: "sets a breakpoint on a variable or a request",
    details: "; the same as break change P NAME",
    shorts: "",
};

const DELETE: Entry = Entry {
    usage: "delete N",
    purpose: "removes a breakpoint",
    details: "",
    shorts: "d",
};

const BREAKS: Entry = Entry {
    usage: "breaks",
    purpose: "lists the breakpoints",
    details: "",
    shorts: "",
};

const INFO: Entry = Entry {
    usage: "info breakpoints, info ranks",
    purpose: "lists breakpoints, or what ranks are doing",
    details: "; the same as breaks, and as ranks",
    shorts: "",
};

const LIST: Entry = Entry {
    usage: "list [P]",
    purpose: "shows the script, and where ranks stand",
    details: "; or the lines about rank P",
    shorts: "l",
};

const PRINT: Entry = Entry {
    usage: "print EXPR [P]",
    purpose: "shows a variable, a request or an expression",
    details: "; of all ranks, or of rank P",
    shorts: "p",
};

const VARS: Entry = Entry {
    usage: "vars [P]",
    purpose: "shows all variables in short",
    details: "; requests, and what was printed, too",
    shorts: "",
};

const RANKS: Entry = Entry {
    usage: "ranks",
    purpose: "shows what each rank is doing",
    details: "",
    shorts: "bt, where",
};

const CALLS: Entry = Entry {
    usage: "calls [P]",
    purpose: "lists the calls of all ranks, or of rank P",
    details: "",
    shorts: "",
};

const QUEUES: Entry = Entry {
    usage: "queues",
    purpose: "lists the sends and receives that are free",
    details: "",
    shorts: "",
};

const WHY: Entry = Entry {
    usage: "why [P], why CALL",
    purpose: "says why ranks wait",
    details: "; all of them, or rank P; or why a call isn't matched, CALL as 0.1",
    shorts: "w",
};

const HISTORY: Entry = Entry {
    usage: "history [N]",
    purpose: "lists the last 10 steps, or the last N",
    details: "",
    shorts: "h",
};

const PICTURE: Entry = Entry {
    usage: "picture",
    purpose: "draws the run so far",
    details: "",
    shorts: "",
};

const CHECK: Entry = Entry {
    usage: "check [N]",
    purpose: "tries the choices, and lists how runs end",
    details: "; from here, 1,000 or N of them at most",
    shorts: "",
};

const FOLLOW: Entry = Entry {
    usage: "follow N",
    purpose: "lays the steps of a run ahead",
    details: "; N is its number in a check from here",
    shorts: "f",
};

const DEADLOCK: Entry = Entry {
    usage: "deadlock",
    purpose: "lays the first deadlock's steps ahead",
    details: "; the first from here, so that run and redo go there; at a deadlock ranks wait, and no step can be taken",
    shorts: "",
};

const TRAP: Entry = Entry {
    usage: "trap",
    purpose: "lays the first trap's steps ahead",
    details: "; a trap ends a rank at an error, as a failed assert or a division by 0",
    shorts: "",
};

const BLAME: Entry = Entry {
    usage: "blame",
    purpose: "goes to the step that decided how it ends",
    details: "; after that step every run ends badly",
    shorts: "",
};

const WORDS: Entry = Entry {
    usage: "words",
    purpose: "lists the steps taken as trace words",
    details: "; to be kept in a file",
    shorts: "",
};

const ENABLED: Entry = Entry {
    usage: "enabled",
    purpose: "lists the steps that are enabled",
    details: "",
    shorts: "",
};

const SHOW: Entry = Entry {
    usage: "show",
    purpose: "shows the whole state, as a trace does",
    details: "; docs/FORMATS.md, \"Text of show\"",
    shorts: "",
};

const HELP: Entry = Entry {
    usage: "help [WORD], help all, help choice",
    purpose: "lists words to begin with, or tells of one",
    details: "; help all lists all words; help choice tells what a choice is",
    shorts: "?",
};

const QUIT: Entry = Entry {
    usage: "quit",
    purpose: "ends",
    details: "",
    shorts: "q, exit",
};

/// What is told of a word.
pub(crate) fn entry_of(topic: Topic) -> Entry {
    match topic {
        Topic::Next => NEXT,
        Topic::Run => RUN,
        Topic::Until => UNTIL,
        Topic::Finish => FINISH,
        Topic::Back => BACK,
        Topic::RunBack => RUN_BACK,
        Topic::UndoChoice => UNDO_CHOICE,
        Topic::Goto => GOTO,
        Topic::Restart => RESTART,
        Topic::Reload => RELOAD,
        Topic::Source => SOURCE,
        Topic::Redo => REDO,
        Topic::Local => LOCAL,
        Topic::Match => MATCH,
        Topic::Wake => WAKE,
        Topic::WakeAny => WAKE_ANY,
        Topic::Release => RELEASE,
        Topic::Break => BREAK,
        Topic::Watch => WATCH,
        Topic::Delete => DELETE,
        Topic::Breaks => BREAKS,
        Topic::Info => INFO,
        Topic::List => LIST,
        Topic::Print => PRINT,
        Topic::Vars => VARS,
        Topic::Ranks => RANKS,
        Topic::Calls => CALLS,
        Topic::Queues => QUEUES,
        Topic::Why => WHY,
        Topic::History => HISTORY,
        Topic::Picture => PICTURE,
        Topic::Check => CHECK,
        Topic::Follow => FOLLOW,
        Topic::Deadlock => DEADLOCK,
        Topic::Trap => TRAP,
        Topic::Blame => BLAME,
        Topic::Words => WORDS,
        Topic::Enabled => ENABLED,
        Topic::Show => SHOW,
        Topic::Help => HELP,
        Topic::Quit => QUIT,
    }
}

/// What stands in the first column of the line of help of each step by hand.
const STEP_FORMS: &str = "local P, match S R, wake P, wakeany P I, release";

/// What stands in the first column of the word's line of help.
pub(crate) fn forms_of(topic: Topic) -> &'static str {
    match topic {
        Topic::Local | Topic::Match | Topic::Wake | Topic::WakeAny | Topic::Release => STEP_FORMS,
        _ => entry_of(topic).usage,
    }
}
