//! What a word did, as values (docs/CONSOLE.md, "Answers"): which steps were taken, how many and why no more, what they brought, and
//! what is refused and why.

use mpd_blame::PlacedBlame;
use mpd_explore::Ending;
use mpd_model::{Breakpoint, CallId, CallList, Step};
use mpd_names::Named;
use mpd_runs::{Scope, Way, WayCounts};
use mpd_vocabulary::HelpOn;
use std::marker::Model;

/// A value that a rank has printed.
#[derive(Clone, Copy)]
pub struct Printed {
    /// Which rank, from 0.
    pub rank: usize,
    /// The value.
    pub value: i64,
}

/// Values that were printed, by rank and then in the order of printing; contracts see a list.
#[derive(Drop)]
pub struct PrintedList {
    pub items: Vec<Printed>,
}

impl Model for PrintedList {
    ghost use Rattle.std.specs.Prelude.{List};
    ghost use Rattle.mpd_console.specs.declared.told.Printed.{Printed};

    ghost Value = { List Printed };

    ghost view = { λ l. l.items.items };
}

/// What the steps of a word brought, beside where they led.
#[derive(Drop)]
pub struct News {
    /// How many steps that lay ahead are gone.
    pub gone: usize,
    /// What ranks have printed by them.
    pub printed: PrintedList,
    /// The requests that were lost before them.
    pub lost_before: CallList,
    /// Those that are lost now.
    pub lost: CallList,
}

/// A breakpoint, with its number.
#[derive(Clone, Copy)]
pub struct Numbered {
    /// Its number, 0 to 63.
    pub number: usize,
    /// What it stops at.
    pub stop: Breakpoint,
}

/// How a word has moved.
#[derive(Clone, Copy)]
pub enum Went {
    /// By this step.
    One(Step),
    /// There, by steps that aren't told.
    There,
    /// On, by so many steps.
    On(usize),
    /// Back, by so many.
    Back(usize),
}

/// Why a move went no further.
#[derive(Clone, Copy)]
pub enum Stopped {
    /// That is told by where it stands, or by what was asked for.
    There,
    /// Its last step hits this breakpoint, and none of a lower number.
    At(Numbered),
    /// The step that it took back last hits this breakpoint.
    Before(Numbered),
    /// It has taken all steps that lay ahead.
    AheadEnds,
    /// As many steps were made as were asked for.
    AsAsked,
    /// A rank is at this line.
    AtLine(usize),
    /// This rank has gone on.
    GoneOn(usize),
    /// The call is over for which a rank waited.
    CallOver,
    /// No more than 1,000,000 steps are kept.
    Full,
    /// No step is left to be taken back.
    AtStart,
}

/// A move that is done.
#[derive(Drop)]
pub struct Moved {
    /// How.
    pub went: Went,
    /// How many steps are not undone after it, 0 to 1,000,000.
    pub depth: usize,
    /// How many steps lie ahead after it, 0 to 1,000,000.
    pub ahead: usize,
    /// What its steps brought, if more steps are taken than before it.
    pub news: Option<News>,
    /// Why it went no further.
    pub stopped: Stopped,
}

/// Why a word is refused.
#[derive(Clone, Copy)]
pub enum Why {
    /// No single step comes next, which where it stands tells.
    Standing,
    /// The step is not enabled.
    NotEnabled,
    /// No more than 1,000,000 steps are kept.
    Full,
    /// Fewer steps are taken.
    FewTaken,
    /// So many steps are neither taken nor ahead.
    NotKept,
    /// No step is ahead.
    NoneAhead,
    /// No breakpoint has this number.
    NoBreak,
    /// 64 breakpoints are set.
    BreaksFull,
    /// There is no such candidate.
    NoCandidate,
    /// There is no such line.
    NoLine,
    /// There is no such rank.
    NoRank,
    /// 1 to 1,000,000 steps can be asked for.
    NoCount,
}

/// What a request of the session came to.
#[derive(Drop)]
pub enum Carried {
    /// It has moved.
    Moved(Moved),
    /// A breakpoint is set; `is_idle` if no statement begins at its line.
    Added {
        /// The breakpoint.
        added: Numbered,
        /// Whether no statement begins at its line.
        is_idle: bool,
    },
    /// The breakpoint of this number is removed.
    Removed(usize),
    /// It is refused, and nothing has changed.
    Refused {
        /// Why.
        why: Why,
        /// Whether `next` asked for the step that comes next.
        is_next: bool,
    },
    /// Nothing is told of it.
    Nothing,
}

/// A run whose steps lie ahead.
#[derive(Drop)]
pub struct Laid {
    /// Its number, if it was asked for by that.
    pub number: Option<usize>,
    /// How it ends.
    pub ending: Ending,
    /// How many of its steps lie ahead.
    pub ahead: usize,
}

/// The step that decided how the run ends that is kept.
#[derive(Drop)]
pub struct Blamed {
    /// Where it was decided, with the step that did.
    pub blame: PlacedBlame,
    /// The number from 1 with which `next` takes the other step there, if it has one.
    pub number: Option<usize>,
    /// The move to where it was decided, if it is known where.
    pub gone: Option<Carried>,
}

/// What a word looks at that changes nothing. Where a rank may be named, it is of all ranks if none is.
#[derive(Clone, Copy)]
pub enum Sight {
    /// The breakpoints.
    Breaks,
    /// The script, or the lines about a rank.
    Script(Option<usize>),
    /// What a name stands for.
    Named(Named, Option<usize>),
    /// What ranks hold.
    Held(Option<usize>),
    /// What ranks are doing.
    Ranks,
    /// Their calls.
    Calls(Option<usize>),
    /// Calls that wait.
    Queues,
    /// Why this call isn't matched.
    WhyCall(CallId),
    /// Why the calls aren't matched that ranks wait for.
    Why(Option<usize>),
    /// The last steps, so many.
    History(usize),
    /// A picture of the run.
    Picture,
    /// So many runs from there.
    Runs(usize),
    /// The steps as words.
    Words,
    /// The steps that are enabled.
    Enabled,
    /// The whole state.
    Whole,
    /// What there is to say of words.
    Help(HelpOn),
    /// There is no such rank.
    NoRank,
    /// There is no such call.
    NoCall,
    /// No rank is named, and the last step is of none.
    NoLast,
    /// No statement begins at this line.
    NoStatement(usize),
    /// The dialogue ends.
    End,
    /// Nothing.
    Nothing,
}

/// What a word did.
#[derive(Drop)]
pub enum Told {
    /// It asked the session for something, which came to this.
    Carried(Carried),
    /// The steps of a run lie ahead.
    Laid(Laid),
    /// No run ends so, of those that were looked at.
    NoneEnds {
        /// How.
        way: Way,
        /// Which were looked at.
        scope: Scope,
        /// How they end.
        counts: WayCounts,
    },
    /// No run has this number.
    NoRun,
    /// No choice was made.
    NoChoice,
    /// It was looked for the step that decided.
    Blamed(Blamed),
    /// It looks at this, and nothing has changed.
    Looks(Sight),
}

/// What a console tells first.
#[derive(Drop)]
pub enum First {
    /// Nothing: it stands at the start of its script.
    Nothing,
    /// The steps of this run lie ahead.
    Ahead(Laid),
    /// Its script was read again.
    Again {
        /// How many steps are taken again.
        taken: usize,
        /// How many were taken before.
        all: usize,
    },
}

/// Breakpoints with their numbers, in this order; contracts see a list.
#[derive(Drop)]
pub struct NumberedList {
    pub items: Vec<Numbered>,
}

impl Model for NumberedList {
    ghost use Rattle.std.specs.Prelude.{List};
    ghost use Rattle.mpd_console.specs.declared.told.Numbered.{Numbered};

    ghost Value = { List Numbered };

    ghost view = { λ l. l.items.items };
}
