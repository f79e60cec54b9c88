//! What answers the lines of trace words: a desk with a debugger.

ghost use Rattle.std.specs.Prelude.{◌≡◌, ℕ, ◌+◌, ◌<◌, ◌≤◌, List, length, IfOk, ◌++◌, vec_len, vec_capacity};
ghost use Rattle.mpd_model.specs.runs.Trail.{first_standing};
ghost use Rattle.mpd_model.specs.texts.Answers.{AnswerOrMemory, ok_text, refused_text};
ghost use Rattle.mpd_trace.specs.Replies.{Replies};
ghost use Rattle.mpd_trail.specs.DebuggerViews.{standing_of};

use crate::enabled_list::listed;
use crate::state_text::show;
use itoa::Buffer;
use mpd_code::Code;
use mpd_lines::{LineDesk, ROOM, push_all, push_echo, push_long_echo};
use mpd_model::{LINE_MAX, Mode, Step, TraceWord, has_word, trace_word_of};
use mpd_trail::{ApplyFault, AtStart, Debugger, NotBefore, RedoFault, Reply, TrailCommand, answer};
use std::alloc::{AllocError, Global};
use std::marker::Model;

/// The name of what is no trace word.
const BAD_WORD: &str = "bad-word";

/// What stands before a line that is shown.
const PROMPT: &[u8] = b"> ";

/// The answer to `enabled` where no step is.
const NONE_ENABLED: &[u8] = b"enabled\n";

/// Adds `ok` and a depth, which takes no memory.
fn say_ok(out: &mut Vec<u8>, depth: usize)
    requires room { vec_len out.old + ROOM ≤ vec_capacity out.old }
    ensures text { out.new.items ≡ out.old.items ++ ok_text depth }
    ensures capacity { vec_capacity out.old ≤ vec_capacity out.new }
{
    let mut digits = Buffer::new();
    push_all(out, b"ok ");
    push_all(out, digits.format(depth).as_bytes());
    push_all(out, b"\n");
}

/// Adds a refusal by its name, which takes no memory.
fn refuse(out: &mut Vec<u8>, name: &str)
    requires short { length name.now ≤ 32 }
    requires room { vec_len out.old + ROOM ≤ vec_capacity out.old }
    ensures text { out.new.items ≡ out.old.items ++ refused_text name.now }
    ensures capacity { vec_capacity out.old ≤ vec_capacity out.new }
{
    push_all(out, b"refused ");
    push_all(out, name.as_bytes());
    push_all(out, b"\n");
}

/// Takes a step, and says so. Where memory is refused, nothing has changed.
#[tactic(auto, using(crate::proofs::DeskLemmas::replying))]
fn answer_step(debugger: &mut Debugger<'_>, step: Step, out: &mut Vec<u8>)
    requires { vec_len out.old + ROOM ≤ vec_capacity out.old }
    ensures replies { Replies out.old.items out.new.items (standing_of debugger.old) (Some (TraceWord.Step step)) (standing_of debugger.new) }
    ensures capacity { vec_capacity out.old ≤ vec_capacity out.new }
{
    let reply = answer(debugger, TrailCommand::Apply(step));
    let depth = debugger.depth();
    match reply {
        Reply::Done => say_ok(out, depth),
        Reply::NotEnabled => refuse(out, ApplyFault::NotEnabled.name()),
        Reply::Full => refuse(out, ApplyFault::Full.name()),
        Reply::Memory => refuse(out, ApplyFault::Memory.name()),
        _ => unreachable!(),
    }
}

/// Takes the last step back, and says so. It takes no memory.
#[tactic(auto, using(crate::proofs::DeskLemmas::replying))]
fn answer_back(debugger: &mut Debugger<'_>, out: &mut Vec<u8>)
    requires { vec_len out.old + ROOM ≤ vec_capacity out.old }
    ensures replies { Replies out.old.items out.new.items (standing_of debugger.old) (Some TraceWord.Back) (standing_of debugger.new) }
    ensures capacity { vec_capacity out.old ≤ vec_capacity out.new }
{
    match answer(debugger, TrailCommand::Undo) {
        Reply::Done => say_ok(out, debugger.depth()),
        Reply::AtStart => refuse(out, AtStart.name()),
        _ => unreachable!(),
    }
}

/// Takes the step again that was undone last, and says so. Where memory is refused, nothing has changed.
#[tactic(auto, using(crate::proofs::DeskLemmas::replying))]
fn answer_redo(debugger: &mut Debugger<'_>, out: &mut Vec<u8>)
    requires { vec_len out.old + ROOM ≤ vec_capacity out.old }
    ensures replies { Replies out.old.items out.new.items (standing_of debugger.old) (Some TraceWord.Redo) (standing_of debugger.new) }
    ensures capacity { vec_capacity out.old ≤ vec_capacity out.new }
{
    match answer(debugger, TrailCommand::Redo) {
        Reply::Done => say_ok(out, debugger.depth()),
        Reply::NoRedo => refuse(out, RedoFault::NoRedo.name()),
        Reply::Memory => refuse(out, RedoFault::Memory.name()),
        _ => unreachable!(),
    }
}

/// Takes steps back until so many are left, and says so. It takes no memory.
#[tactic(auto, using(crate::proofs::DeskLemmas::replying))]
fn answer_goto(debugger: &mut Debugger<'_>, left: usize, out: &mut Vec<u8>)
    requires { vec_len out.old + ROOM ≤ vec_capacity out.old }
    ensures replies { Replies out.old.items out.new.items (standing_of debugger.old) (Some (TraceWord.Goto left)) (standing_of debugger.new) }
    ensures capacity { vec_capacity out.old ≤ vec_capacity out.new }
{
    match answer(debugger, TrailCommand::UndoTo(left)) {
        Reply::Done => say_ok(out, left),
        Reply::NotBefore => refuse(out, NotBefore.name()),
        _ => unreachable!(),
    }
}

/// Prints the state.
#[tactic(auto, using(crate::proofs::DeskLemmas::replying))]
fn answer_show(alloc: Global, debugger: &Debugger<'_>, out: &mut Vec<u8>)
    requires { vec_len out.old + ROOM ≤ vec_capacity out.old }
    ensures replies { Replies out.old.items out.new.items (standing_of debugger.now) (Some TraceWord.Show) (standing_of debugger.now) }
    ensures capacity { vec_capacity out.old ≤ vec_capacity out.new }
{
    let kept = debugger.steps().len();
    let Ok(text) = show(alloc, debugger.core(), debugger.depth(), kept) else {
        return refuse(out, ApplyFault::Memory.name());
    };
    match out.extend_from_slice(text.as_bytes()) {
        Ok(()) => {}
        Err(_) => refuse(out, ApplyFault::Memory.name()),
    }
}

/// Lists the enabled steps. Where none is, this takes no memory.
#[tactic(auto, using(crate::proofs::DeskLemmas::replying))]
fn answer_enabled(alloc: Global, debugger: &Debugger<'_>, out: &mut Vec<u8>)
    requires { vec_len out.old + ROOM ≤ vec_capacity out.old }
    ensures replies { Replies out.old.items out.new.items (standing_of debugger.now) (Some TraceWord.Enabled) (standing_of debugger.now) }
    ensures capacity { vec_capacity out.old ≤ vec_capacity out.new }
{
    let Ok(steps) = debugger.core().enabled(alloc) else {
        return refuse(out, ApplyFault::Memory.name());
    };
    if steps.is_empty() {
        return push_all(out, NONE_ENABLED);
    }
    let Ok(line) = listed(alloc, &steps) else {
        return refuse(out, ApplyFault::Memory.name());
    };
    match out.extend_from_slice(line.as_bytes()) {
        Ok(()) => {}
        Err(_) => refuse(out, ApplyFault::Memory.name()),
    }
}

/// Says that a line is no trace word.
#[tactic(auto, using(crate::proofs::DeskLemmas::replying))]
fn answer_other(debugger: &Debugger<'_>, out: &mut Vec<u8>)
    requires { vec_len out.old + ROOM ≤ vec_capacity out.old }
    ensures replies { Replies out.old.items out.new.items (standing_of debugger.now) None (standing_of debugger.now) }
    ensures capacity { vec_capacity out.old ≤ vec_capacity out.new }
{
    debugger.state_is_reached();
    refuse(out, BAD_WORD);
}

/// Carries out a command. Where memory is refused, nothing has changed.
fn answer_command(
    alloc: Global,
    debugger: &mut Debugger<'_>,
    command: Option<TraceWord>,
    out: &mut Vec<u8>,
)
    requires { vec_len out.old + ROOM ≤ vec_capacity out.old }
    ensures replies { Replies out.old.items out.new.items (standing_of debugger.old) command (standing_of debugger.new) }
    ensures capacity { vec_capacity out.old ≤ vec_capacity out.new }
{
    match command {
        None => answer_other(debugger, out),
        Some(TraceWord::Step(step)) => answer_step(debugger, step, out),
        Some(TraceWord::Back) => answer_back(debugger, out),
        Some(TraceWord::Redo) => answer_redo(debugger, out),
        Some(TraceWord::Goto(depth)) => answer_goto(debugger, depth, out),
        Some(TraceWord::Enabled) => answer_enabled(alloc, debugger, out),
        Some(TraceWord::Show) => answer_show(alloc, debugger, out),
    }
}

/// Answers a line that is not too long: by nothing, where it has no word.
#[tactic(auto, using(crate::proofs::DeskLemmas::answering))]
fn answer_line(alloc: Global, debugger: &mut Debugger<'_>, line: &[u8], out: &mut Vec<u8>)
    requires line { length line.now ≤ LINE_MAX }
    requires room { vec_len out.old + ROOM ≤ vec_capacity out.old }
    ensures said { (text : List ℕ) × (out.new.items ≡ out.old.items ++ text) × AnswerOrMemory (standing_of debugger.old) line.now text (standing_of debugger.new) }
    ensures capacity { vec_capacity out.old ≤ vec_capacity out.new }
{
    debugger.state_is_reached();
    if !has_word(line) {
        return;
    }
    answer_command(alloc, debugger, trace_word_of(line), out)
}

/// A desk that answers trace words (docs/FORMATS.md, "Trace words") with a debugger.
#[derive(Drop)]
pub struct TraceDesk<'c> {
    debugger: Debugger<'c>,
}

impl<'c> Model for TraceDesk<'c> {
    ghost use Rattle.mpd_model.specs.runs.Trail.{Standing, standing_code};
    ghost use Rattle.mpd_trail.specs.DebuggerViews.{standing_of};

    ghost Value = { Standing };

    ghost coded = { standing_code };

    ghost view = { λ d. standing_of d.debugger };
}

impl<'c> TraceDesk<'c> {
    /// A desk at the start of a script. An `Err` is want of memory.
    pub fn start(alloc: Global, code: &'c Code, mode: Mode) -> Result<TraceDesk<'c>, AllocError>
        ensures { IfOk result (λ d. d ≡ first_standing code.now.program mode) }
    {
        Ok(TraceDesk {
            debugger: Debugger::start(alloc, code, mode)?,
        })
    }

    /// Refuses a line that is too long.
    #[tactic(auto, using(crate::proofs::DeskLemmas::refusing))]
    fn refuse_after(&self, out: &mut Vec<u8>)
        requires room { vec_len out.old + ROOM ≤ vec_capacity out.old }
        ensures said { (text : List ℕ) × (out.new.items ≡ out.old.items ++ text) × ((line : List ℕ) → LINE_MAX < length line → AnswerOrMemory self.now line text self.now) }
        ensures capacity { vec_capacity out.old ≤ vec_capacity out.new }
    {
        self.debugger.state_is_reached();
        refuse(out, BAD_WORD)
    }
}

impl<'c> LineDesk for TraceDesk<'c> {
    ghost use Rattle.std.specs.Prelude.{true};
    ghost use Rattle.mpd_model.specs.texts.Answers.{AnswerOrMemory};

    // nothing is seen of the debugger after the answers, so they may wait for one another
    ghost gathers = { true };

    ghost says = { AnswerOrMemory };

    fn is_gathering(&self) -> bool {
        true
    }

    fn answer(&mut self, line: &[u8], out: &mut Vec<u8>) {
        answer_line(*out.allocator(), &mut self.debugger, line, out)
    }

    fn refuse_long(&mut self, out: &mut Vec<u8>) {
        self.refuse_after(out)
    }
}

/// A desk that shows each line before its answer, after `> `, as a terminal shows what is typed at a prompt.
#[derive(Drop)]
pub struct EchoDesk<'c> {
    desk: TraceDesk<'c>,
}

impl<'c> Model for EchoDesk<'c> {
    ghost use Rattle.mpd_model.specs.runs.Trail.{Standing, standing_code};

    ghost Value = { Standing };

    ghost coded = { standing_code };

    ghost view = { λ d. d.desk };
}

impl<'c> EchoDesk<'c> {
    /// A desk that shows the lines that another answers.
    pub fn new(desk: TraceDesk<'c>) -> EchoDesk<'c>
        ensures { result ≡ desk.entry }
    {
        EchoDesk { desk }
    }
}

impl<'c> LineDesk for EchoDesk<'c> {
    ghost use Rattle.std.specs.Prelude.{true, codes};
    ghost use Rattle.mpd_lines.specs.Echo.{Echoes};
    ghost use Rattle.mpd_model.specs.texts.Answers.{AnswerOrMemory};

    ghost gathers = { true };

    ghost says = { Echoes (codes "> ") AnswerOrMemory };

    fn is_gathering(&self) -> bool {
        true
    }

    #[tactic(auto, using(crate::proofs::EchoLemmas::echoing))]
    fn answer(&mut self, line: &[u8], out: &mut Vec<u8>) {
        push_echo(out, PROMPT, line);
        answer_line(*out.allocator(), &mut self.desk.debugger, line, out)
    }

    #[tactic(auto, using(crate::proofs::EchoLemmas::echoing))]
    fn refuse_long(&mut self, out: &mut Vec<u8>) {
        push_long_echo(out, PROMPT);
        self.desk.refuse_after(out)
    }
}
