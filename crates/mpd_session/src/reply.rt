//! What a client is told (docs/SESSIONS.md, "Replies").

ghost use Rattle.std.specs.Prelude.{◌≡◌};
ghost use Rattle.mpd_session.specs.RefusalNumbers.{refusal_number};

use mpd_explain::{End, LossList, PlacedStepList};
use mpd_model::{CallId, Decl, Mode, Step, Stop};
use std::marker::Model;

/// The text of how a run has ended (docs/SESSIONS.md, "Requests"); contracts see its bytes.
#[derive(Drop)]
pub struct Text {
    pub string: String,
}

impl Model for Text {
    ghost use Rattle.std.specs.Prelude.{List, ℕ, string_bytes};

    ghost Value = { List ℕ };

    ghost view = { λ t. string_bytes t.string };
}

/// The texts that a reply lists, in the order that docs/SESSIONS.md, "Requests", tells; contracts see the list of their bytes.
#[derive(Drop)]
pub struct TextList {
    pub items: Vec<String>,
}

impl Model for TextList {
    ghost use Rattle.std.specs.Prelude.{List, ℕ, map, string_bytes};

    ghost Value = { List (List ℕ) };

    ghost view = { λ l. map string_bytes l.items.items };
}

/// Values of variables, or what was printed, in their order; contracts see a list.
#[derive(Drop)]
pub struct IntegerList {
    pub items: Vec<i64>,
}

impl Model for IntegerList {
    ghost use Rattle.std.specs.Prelude.{List, ℤ};

    ghost Value = { List ℤ };

    ghost view = { λ l. l.items.items };
}

/// For each handle the number of its request's call, if it has one; contracts see a list.
#[derive(Drop)]
pub struct HandleList {
    pub items: Vec<Option<usize>>,
}

impl Model for HandleList {
    ghost use Rattle.std.specs.Prelude.{List, Option, ℕ};

    ghost Value = { List (Option ℕ) };

    ghost view = { λ l. l.items.items };
}

/// Numbers of lines or of ranks, in ascending order, or of the calls of a rank; contracts see a list.
#[derive(Drop)]
pub struct NumberList {
    pub items: Vec<usize>,
}

impl Model for NumberList {
    ghost use Rattle.std.specs.Prelude.{List, ℕ};

    ghost Value = { List ℕ };

    ghost view = { λ l. l.items.items };
}

/// For each call of a rank the call that it was matched with, if there is one; contracts see a
/// list.
#[derive(Drop)]
pub struct PartnerList {
    pub items: Vec<Option<CallId>>,
}

impl Model for PartnerList {
    ghost use Rattle.std.specs.Prelude.{List, Option};
    ghost use Rattle.mpd_model.specs.declared.step.CallId.{CallId};

    ghost Value = { List (Option CallId) };

    ghost view = { λ l. l.items.items };
}

/// What a rank holds.
#[derive(Drop)]
pub struct Holding {
    /// The cells of its variables.
    pub vars: IntegerList,
    /// Its handles.
    pub handles: HandleList,
    /// What it has printed.
    pub out: IntegerList,
}

/// What each rank holds, by rank; contracts see a list.
#[derive(Drop)]
pub struct HoldingList {
    pub items: Vec<Holding>,
}

impl Model for HoldingList {
    ghost use Rattle.std.specs.Prelude.{List};
    ghost use Rattle.mpd_session.specs.declared.reply.Holding.{Holding};
    ghost use Rattle.mpd_session.specs.Holdings.{holdings_code};

    ghost Value = { List Holding };

    ghost coded = { holdings_code };

    ghost view = { λ l. l.items.items };
}

/// The declarations of a script, in text order; contracts see a list.
#[derive(Drop)]
pub struct DeclList {
    pub items: Vec<Decl>,
}

impl Model for DeclList {
    ghost use Rattle.std.specs.Prelude.{List};
    ghost use Rattle.mpd_model.specs.script.Declaration.{Declared};
    ghost use Rattle.mpd_session.specs.Holdings.{decls_code};

    ghost Value = { List Declared };

    ghost coded = { decls_code };

    ghost view = { λ l. l.items.items };
}

/// How a run has ended, with what is known of that. Whoever tells it in words has all of it here.
#[derive(Drop)]
pub struct Explained {
    /// The end.
    pub end: End,
    /// The requests that are lost.
    pub lost: LossList,
    /// The declarations of the script, whose cells the end names by their numbers.
    pub decls: DeclList,
}

/// What comes next, without its steps.
#[derive(Clone, Copy)]
pub enum Coming {
    /// A step that nobody has to choose.
    Forced,
    /// A choice among candidates, also of a single one.
    Choice,
    /// No step: the run has ended.
    Leaf,
}

/// What is told of a request that was carried out, by its command (docs/SESSIONS.md, "Requests"). A depth is how many steps are not
/// undone then, 0 to 1,000,000.
#[derive(Drop)]
pub enum Answer {
    /// Of `step`, `back`, `redo` and `goto`: the depth.
    Depth(usize),
    /// Of `next`: the step that was taken.
    Stepped {
        /// The depth.
        depth: usize,
        /// The step.
        step: Step,
    },
    /// Of `run` and `run-back`: how far it went, and why it stopped there.
    Ran {
        /// The depth.
        depth: usize,
        /// How many steps were made or undone, and why no more.
        stop: Stop,
    },
    /// Of `enabled`: the texts of the enabled steps.
    Enabled(TextList),
    /// Of `state`.
    State {
        /// The depth.
        depth: usize,
        /// What each rank is doing.
        ranks: TextList,
        /// The match sets, in the order in which they were formed.
        sets: TextList,
        /// How many undone steps are kept.
        undone: usize,
        /// How the run has ended, if no step is enabled.
        outcome: Option<Text>,
    },
    /// Of `vars`: what a rank holds.
    Vars {
        /// The cells of its variables.
        vars: IntegerList,
        /// Its handles.
        handles: HandleList,
        /// What it has printed.
        out: IntegerList,
    },
    /// Of `calls`: the texts of a rank's calls.
    Calls(TextList),
    /// Of `why`: the texts of what a call could be matched with.
    Partners(TextList),
    /// Of `break`: the number of the breakpoint.
    Added(usize),
    /// Of `unbreak`.
    Removed,
    /// Of `breaks`: the texts of the breakpoints, by number.
    Breaks(TextList),
    /// Of `hit`: the number of the lowest breakpoint that the last step hits, 0 to 63; none if no step
    /// is taken, or if it hits none.
    Hit(Option<usize>),
    /// Of `explore`.
    Explored {
        /// The texts of the leaves.
        leaves: TextList,
        /// Whether there are more.
        more: bool,
    },
    /// Of `script`.
    Script {
        /// How many ranks run it.
        ranks: usize,
        /// Its mode.
        mode: Mode,
        /// Its variables, as they are declared.
        vars: TextList,
        /// Its handles, as they are declared.
        handles: TextList,
        /// The lines at which its statements begin, each once.
        lines: NumberList,
    },
    /// Of `where` and `all`.
    Where {
        /// What each rank is doing.
        ranks: TextList,
        /// The line where each stands, if it stands at one.
        lines: HandleList,
        /// The ranks that can go on.
        ready: NumberList,
        /// Of `all`: what each holds.
        held: Option<HoldingList>,
    },
    /// Of `decision`.
    Decided {
        /// What comes next.
        coming: Coming,
        /// The step that is forced, or the candidates, each with what it is about.
        steps: PlacedStepList,
        /// The declarations of the script, whose handles the steps name by their numbers; none at a leaf.
        decls: DeclList,
        /// How the run has ended, if no step is enabled.
        outcome: Option<Text>,
    },
    /// Of `steps`.
    Steps {
        /// The depth.
        depth: usize,
        /// The texts of the steps.
        steps: TextList,
        /// How many undone steps are kept.
        undone: usize,
    },
    /// Of `lines`, for each call of a rank.
    Lines {
        /// The line of its statement.
        lines: NumberList,
        /// The call that it was matched with.
        partners: PartnerList,
    },
    /// Of `explain`: how the run has ended, if it has.
    Explained(Option<Explained>),
}

/// Why a session has not carried out a request, by the numbers of docs/SESSIONS.md, "Refusals"; then nothing has changed. What is
/// wrong with a line of JSON, and that a history is full, is none of these, since no session says so.
#[derive(Clone, Copy)]
pub enum Refusal {
    /// The step is not enabled (21).
    NotEnabled,
    /// 1,000,000 steps are not undone (22).
    Full,
    /// Fewer steps are not undone (24).
    AtStart,
    /// Fewer steps are undone (25).
    NoRedo,
    /// The depth is above the present one (26).
    NotBefore,
    /// The session has another version than the request names (51).
    Stale {
        /// The version that it has.
        now: u64,
    },
    /// There is a choice to make, and none was made (52).
    NeedsChoice {
        /// How many candidates there are.
        count: usize,
    },
    /// No breakpoint has this number (53).
    NoSuchBreak,
    /// All 64 breakpoints are set (54).
    BreaksFull,
    /// A number is out of its range, or names what isn't there (55).
    BadNumber,
}

impl Refusal {
    /// Its number, 21 to 26 or 51 to 55, as docs/SESSIONS.md, "Refusals", lists them.
    pub fn number(self) -> u8
        ensures { result ≡ refusal_number self }
    {
        match self {
            Refusal::NotEnabled => 21,
            Refusal::Full => 22,
            Refusal::AtStart => 24,
            Refusal::NoRedo => 25,
            Refusal::NotBefore => 26,
            Refusal::Stale { .. } => 51,
            Refusal::NeedsChoice { .. } => 52,
            Refusal::NoSuchBreak => 53,
            Refusal::BreaksFull => 54,
            Refusal::BadNumber => 55,
        }
    }
}

/// What a client is told: that its request was carried out, with the version then, or why not, and then nothing has changed.
#[derive(Drop)]
pub enum Reply {
    /// It was carried out.
    Done {
        /// The version of the session after it.
        version: u64,
        /// What is told of it.
        answer: Answer,
    },
    /// It was not carried out, and nothing has changed.
    Refused(Refusal),
}
