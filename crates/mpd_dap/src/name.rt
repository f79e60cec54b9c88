//! Names that are told (docs/ADAPTER.md).

ghost use Rattle.std.specs.Prelude.{◌≡◌};
ghost use Rattle.mpd_dap.specs.Names.{refusal_name, event_name, reason_name, trouble_text};

/// Why a message is refused.
#[derive(Clone, Copy)]
pub enum Refusal {
    /// The command is none that is answered.
    UnknownCommand,
    /// A field that must be there is not, or one that is there isn't what it must be.
    BadField,
    /// No `launch` was answered yet.
    NotLaunched,
    /// A `launch` was answered before.
    Launched,
    /// There is no such thread, frame or reference.
    BadNumber,
    /// The run isn't at an end.
    NotEnded,
    /// A text is no expression that has a value.
    NoValue,
    /// The script, or what lies ahead of it, could not be read.
    NotRead,
}

impl Refusal {
    /// Its name, which stands in the field `message`.
    pub fn name(self) -> &'static str
        ensures { result.now ≡ refusal_name self }
    {
        match self {
            Refusal::UnknownCommand => "unknown-command",
            Refusal::BadField => "bad-field",
            Refusal::NotLaunched => "not-launched",
            Refusal::Launched => "launched",
            Refusal::BadNumber => "bad-number",
            Refusal::NotEnded => "not-ended",
            Refusal::NoValue => "no-value",
            Refusal::NotRead => "not-read",
        }
    }
}

/// What is told beside responses.
#[derive(Clone, Copy)]
pub enum Event {
    /// The adapter takes breakpoints now.
    Initialized,
    /// There is a thread.
    Thread,
    /// What the console says.
    Output,
    /// Where the session stands.
    Stopped,
    /// The session has ended.
    Terminated,
}

impl Event {
    /// Its name.
    pub fn name(self) -> &'static str
        ensures { result.now ≡ event_name self }
    {
        match self {
            Event::Initialized => "initialized",
            Event::Thread => "thread",
            Event::Output => "output",
            Event::Stopped => "stopped",
            Event::Terminated => "terminated",
        }
    }
}

/// Why the session stands where it does, as the event `stopped` tells.
#[derive(Clone, Copy)]
pub enum Reason {
    /// The run ends in a deadlock or a trap.
    Exception,
    /// It ends otherwise.
    End,
    /// A choice of two candidates or more is open.
    Choice,
    /// No step is taken.
    Entry,
    /// After `continue` and `reverseContinue`.
    Breakpoint,
    /// After `next`, `stepIn`, `stepOut` and `stepBack`.
    Step,
    /// After `configurationDone`, `restart` and `evaluate`.
    Goto,
}

impl Reason {
    /// Its name.
    pub fn name(self) -> &'static str
        ensures { result.now ≡ reason_name self }
    {
        match self {
            Reason::Exception => "exception",
            Reason::End => "end",
            Reason::Choice => "choice",
            Reason::Entry => "entry",
            Reason::Breakpoint => "breakpoint",
            Reason::Step => "step",
            Reason::Goto => "goto",
        }
    }
}

/// Why a breakpoint was not set.
#[derive(Clone, Copy)]
pub enum Trouble {
    /// No statement begins at the line, or below it.
    NoStatement,
    /// The condition is none.
    BadCondition,
    /// 64 breakpoints are set already.
    Full,
    /// The path isn't the one of `launch`.
    AnotherScript,
}

impl Trouble {
    /// What is told of it, in the field `message` of the breakpoint.
    pub fn text(self) -> &'static str
        ensures { result.now ≡ trouble_text self }
    {
        match self {
            Trouble::NoStatement => "no statement begins there or below",
            Trouble::BadCondition => "bad condition",
            Trouble::Full => "64 breakpoints are set",
            Trouble::AnotherScript => "another script",
        }
    }
}
