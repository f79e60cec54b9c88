//! What answers the messages of an editor: a desk with a console (docs/ADAPTER.md).

ghost use Rattle.std.specs.Prelude.{◌≡◌, ◌+◌, ◌≤◌, ◌++◌, ◌∷◌, [], ℕ, List, Some, None, false, IfOk, OnOk, OnErr, string_bytes, vec_len, vec_capacity};
ghost use Rattle.std.specs.List.{flat_map};
ghost use Rattle.serde_json.specs.View.{view};
ghost use Rattle.mpd_frames.specs.Frame.{frame_text};
ghost use Rattle.mpd_adapter.specs.Moves.{word_in as word_of_move, after as behind_move};
ghost use Rattle.mpd_adapter.specs.Answers.{IsSheet, Tells, frames_of};
ghost use Rattle.mpd_adapter.specs.declared.task.Task.TheVariants.{Marks, Moves, Types};
ghost use Rattle.mpd_adapter.specs.Says as spec;
ghost use Rattle.mpd_adapter.specs.Worths.{worths_in};
ghost use Rattle.mpd_console.specs.Says.{ConsoleSays};
ghost use Rattle.mpd_adapter.specs.Says.{Wrote, Kept, Heeds, WordsSay};

use crate::halt::stopped_in;
use crate::looks::body_in;
use crate::marks::set_marks;
use crate::moves::{After, Move, word_in};
use crate::numbers::{one_more, thread_of};
use crate::sheet::{Sheet, announced, begun, refusal, response, with_event, with_stop};
use crate::task::{Look, Task, task_of};
use crate::worth::{RankWorth, named_worths, valued_worths, worth_body};
use mpd_console::ConsoleDesk;
use mpd_dap::{
    Ask, Event, Json, Mark, Message, Refusal, Text, Wanted, all_continued, evaluated, marks,
    message_of, nothing, output, push_memory, shown,
};
use mpd_frames::FrameDesk;
use mpd_lines::{LINE_ROOM, LineDesk, ROOM};
use mpd_model::LINE_MAX;
use mpd_session::{Command, Reply, Request, Session};
use mpd_vocabulary::{Word, named_in};
use std::alloc::{AllocError, Global};
use std::marker::Model;

/// The path that a `launch` gives.
fn program_of(message: Message) -> Option<Text>
    ensures { result ≡ spec.program_of message.ask }
{
    let Message {
        seq: _,
        name: _,
        command: _,
        ask,
    } = message;
    match ask {
        Some(Ask::Launch { program }) => Some(program),
        _ => None,
    }
}

/// The expression of a message; empty if it has none.
fn expression_of(message: &Message) -> &str
    ensures { result.now ≡ spec.expression_of message.now.ask }
{
    match &message.ask {
        Some(Ask::Evaluate { expression, .. }) => expression.as_str(),
        _ => "",
    }
}

/// The path of the source of a message; empty if it has none.
fn source_of(message: &Message) -> &str
    ensures { result.now ≡ spec.source_of message.now.ask }
{
    match &message.ask {
        Some(Ask::SetBreakpoints { path, wanted: _ }) => path.as_str(),
        _ => "",
    }
}

/// The breakpoints that are wanted in it.
fn wanted_of(message: &Message) -> &[Wanted]
    ensures { result.now ≡ spec.wanted_of message.now.ask }
{
    match &message.ask {
        Some(Ask::SetBreakpoints { path: _, wanted }) => &wanted.items,
        _ => &[],
    }
}

/// A text without its last line feed.
#[tactic(auto, using(crate::proofs::DeskLemmas::feeding))]
fn without_feed(text: &[u8]) -> &[u8]
    ensures { result.now ≡ spec.without_feed text.now }
{
    if !text.ends_with(b"\n") {
        return text;
    }
    let (whole, _) = text.split_at(text.len() - 1);
    whole
}

/// The body of the response that has the console's answer to a line.
fn evaluated_body(alloc: Global, said: &[u8]) -> Result<Json, AllocError>
    ensures { IfOk result (λ body. view body.value ≡ spec.evaluated_body said.now) }
{
    let text = shown(alloc, without_feed(said))?;
    evaluated(alloc, text.as_str())
}

/// The frames that answer a line of the console, given whether the session has another version now, and what the console has said.
#[tactic(auto, using(crate::proofs::DeskLemmas::evaluating))]
fn evaluated_sheet(
    alloc: Global,
    session: &Session<'_>,
    number: u64,
    message: &Message,
    has_changed: bool,
    said: &[u8],
) -> Result<Sheet, AllocError>
    ensures { IfOk result (λ sheet. IsSheet number (frames_of number message.now (spec.evaluated_answer has_changed said.now session.now)) sheet.text.items sheet.number) }
{
    let body = evaluated_body(alloc, said)?;
    if !has_changed {
        return response(alloc, number, message, body);
    }
    let stands = stopped_in(alloc, session, After::Jump)?;
    with_event(alloc, number, message, body, Event::Stopped, stands)
}

/// The frames that tell what an expression comes to for the ranks that are meant, or refuse it.
#[tactic(auto, using(crate::proofs::DeskLemmas::valuing))]
fn worth_sheet(
    alloc: Global,
    number: u64,
    message: &Message,
    list: &[RankWorth],
    meant: Option<usize>,
) -> Result<Sheet, AllocError>
    ensures { IfOk result (λ sheet. spec.Valued number message.now list.now sheet.text.items sheet.number) }
{
    match worth_body(alloc, list, meant)? {
        None => refusal(alloc, number, message, Refusal::NoValue),
        Some(body) => response(alloc, number, message, body),
    }
}

/// The body of the response to a move.
fn move_body(alloc: Global, asked: Move) -> Result<Json, AllocError>
    ensures { IfOk result (λ body. view body.value ≡ spec.move_body asked) }
{
    match asked {
        Move::Continue(_) => all_continued(alloc),
        _ => nothing(alloc),
    }
}

/// The body of the event that tells what the console has said.
fn said_body(alloc: Global, said: &[u8]) -> Result<Json, AllocError>
    ensures { IfOk result (λ body. view body.value ≡ spec.said_body said.now) }
{
    let text = shown(alloc, said)?;
    output(alloc, text.as_str())
}

/// The frames of a move that is done, given what the console has said of it.
#[tactic(auto, using(crate::proofs::DeskLemmas::moved_sheet))]
fn moved_sheet(
    alloc: Global,
    session: &Session<'_>,
    number: u64,
    message: &Message,
    asked: Move,
    said: &[u8],
) -> Result<Sheet, AllocError>
    ensures { IfOk result (λ sheet. IsSheet number (frames_of number message.now (spec.moved_answer asked said.now session.now)) sheet.text.items sheet.number) }
{
    let body = move_body(alloc, asked)?;
    let told = said_body(alloc, said)?;
    let stands = stopped_in(alloc, session, asked.after())?;
    with_stop(alloc, number, message, body, told, stands)
}

/// The frame that tells what becomes of breakpoints.
#[tactic(auto, using(crate::proofs::DeskLemmas::marked_sheet))]
fn marked_sheet(
    alloc: Global,
    number: u64,
    message: &Message,
    list: &[Mark],
) -> Result<Sheet, AllocError>
    ensures { IfOk result (λ sheet. IsSheet number (frames_of number message.now (spec.marked_answer list.now)) sheet.text.items sheet.number) }
{
    let body = marks(alloc, list)?;
    response(alloc, number, message, body)
}

/// The frames that answer a look.
#[tactic(auto, using(crate::proofs::DeskLemmas::looking))]
fn looked_sheet(
    alloc: Global,
    session: &Session<'_>,
    number: u64,
    message: &Message,
    path: &str,
    look: Look,
) -> Result<Sheet, AllocError>
    ensures { IfOk result (λ sheet. spec.Looked number message.now session.now path.now look sheet.text.items sheet.number) }
{
    match body_in(alloc, session, path, look)? {
        None => refusal(alloc, number, message, Refusal::NotEnded),
        Some(body) => response(alloc, number, message, body),
    }
}

/// The frames that tell all threads, and where they stand.
#[tactic(auto, using(crate::proofs::DeskLemmas::begun_sheet))]
fn begun_sheet(
    alloc: Global,
    session: &Session<'_>,
    number: u64,
    message: &Message,
) -> Result<Sheet, AllocError>
    ensures { IfOk result (λ sheet. IsSheet number (frames_of number message.now (spec.begun_answer session.now)) sheet.text.items sheet.number) }
{
    let body = nothing(alloc)?;
    let stands = stopped_in(alloc, session, After::Jump)?;
    begun(alloc, number, message, body, session.code().ranks(), stands)
}

/// What answers the messages of an editor on a script: a console, and what is known of the editor.
#[derive(Drop)]
pub struct AdapterDesk<'c, 't> {
    console: ConsoleDesk<'c, 't>,
    /// The number of the next frame.
    number: u64,
    /// The path of the script, once a `launch` was answered.
    path: Option<Text>,
    /// Whether the session is over.
    is_over: bool,
}

impl<'c, 't> Model for AdapterDesk<'c, 't> {
    ghost use Rattle.mpd_adapter.specs.Says.{Adapter, adapter_code};

    ghost Value = { Adapter };

    ghost coded = { adapter_code };

    ghost view = { λ d. record { console = d.console; number = d.number; path = d.path; is_over = d.is_over } };
}

impl<'c, 't> AdapterDesk<'c, 't> {
    /// An adapter over a console, which has written no frame, and knows nothing of the editor.
    pub fn new(console: ConsoleDesk<'c, 't>) -> AdapterDesk<'c, 't>
        ensures { result ≡ record { console = console.entry; number = 1; path = None; is_over = false } }
    {
        AdapterDesk {
            console,
            number: 1,
            path: None,
            is_over: false,
        }
    }

    /// The path of the script for the editor; empty before a `launch` was answered.
    fn path_or(&self) -> &str
        ensures { result.now ≡ spec.path_or self.now.path }
    {
        match &self.path {
            None => "",
            Some(path) => path.as_str(),
        }
    }

    /// What a message comes to.
    fn task(&self, message: &Message) -> Task
        ensures { result ≡ spec.task_in self.now message.now }
    {
        let ranks = self.console.session().code().ranks();
        task_of(ranks, self.path.is_some(), message)
    }

    /// Says a word to the console, and gives its answer. An `Err` is want of memory, and then nothing has changed.
    #[tactic(auto, using(crate::proofs::DeskLemmas::saying))]
    fn say(&mut self, alloc: Global, word: Word) -> Result<Vec<u8>, AllocError>
        ensures said { OnOk result (WordsSay self.old.console (word ∷ []) self.new.console) }
        ensures err { OnErr result (self.new.console ≡ self.old.console) }
        ensures same { self.new ≡ record self.old { console = self.new.console } }
    {
        let mut text = Vec::with_capacity(alloc, ROOM)?;
        self.console.say(alloc, word, &mut text);
        Ok(text)
    }

    /// The word that a move stands for here. An `Err` is want of memory.
    fn word(&self, alloc: Global, asked: Move) -> Result<Word, AllocError>
        ensures { IfOk result (λ word. word ≡ word_of_move self.now.console.session asked) }
    {
        word_in(alloc, self.console.session(), asked)
    }

    /// Does a move. An `Err` is want of memory, before or after it was done.
    #[tactic(auto, using(crate::proofs::DeskLemmas::moving))]
    fn go(&mut self, alloc: Global, message: &Message, asked: Move) -> Result<Sheet, AllocError>
        ensures wrote { IfOk result (λ sheet. Wrote self.old (Moves asked) message.now self.new.console sheet.text.items sheet.number) }
        ensures kept { OnErr result (Kept self.old (Moves asked) message.now self.new.console) }
        ensures same { self.new ≡ record self.old { console = self.new.console } }
    {
        let word = self.word(alloc, asked)?;
        let said = self.say(alloc, word)?;
        moved_sheet(
            alloc,
            self.console.session(),
            self.number,
            message,
            asked,
            &said,
        )
    }

    /// Whether the source of a message is the script.
    fn is_own(&self, message: &Message) -> bool
        ensures { result ≡ spec.is_own self.now.path message.now.ask }
    {
        self.path_or() == source_of(message)
    }

    /// Sets the breakpoints of a message, and tells what becomes of each. An `Err` is want of memory, and then nothing has changed.
    #[tactic(auto, using(crate::proofs::DeskLemmas::marking))]
    fn set(&mut self, alloc: Global, message: &Message) -> Result<Vec<Mark>, AllocError>
        ensures marks { IfOk result (λ marks. marks.items ≡ spec.marks_by self.old message.now) }
        ensures held { OnOk result (self.new.console ≡ record self.old.console { session = spec.marked_by self.old message.now }) }
        ensures err { OnErr result (self.new.console ≡ self.old.console) }
        ensures same { self.new ≡ record self.old { console = self.new.console } }
    {
        let is_own = self.is_own(message);
        set_marks(&mut self.console, alloc, is_own, wanted_of(message))
    }

    /// Sets the breakpoints of a message. An `Err` is want of memory, before or after they were set.
    #[tactic(auto, using(crate::proofs::DeskLemmas::marking))]
    fn mark(&mut self, alloc: Global, message: &Message) -> Result<Sheet, AllocError>
        ensures wrote { IfOk result (λ sheet. Wrote self.old Marks message.now self.new.console sheet.text.items sheet.number) }
        ensures kept { OnErr result (Kept self.old Marks message.now self.new.console) }
        ensures same { self.new ≡ record self.old { console = self.new.console } }
    {
        let list = self.set(alloc, message)?;
        marked_sheet(alloc, self.number, message, &list)
    }

    /// The version of the session (docs/SESSIONS.md). An `Err` is want of memory.
    #[tactic(auto, using(crate::proofs::DeskLemmas::versions))]
    fn version(&mut self, alloc: Global) -> Result<u64, AllocError>
        ensures version { IfOk result (λ version. version ≡ self.old.console.session.version) }
        ensures same { self.new ≡ self.old }
    {
        self.console.session().debugger().state_is_reached();
        let request = Request {
            command: Command::Enabled,
            at: None,
        };
        match self.console.ask(alloc, &request)? {
            Reply::Done { version, .. } => Ok(version),
            Reply::Refused(_) => Ok(0),
        }
    }

    /// Types a line, and gives the console's answer. An `Err` is want of memory, and then nothing has changed.
    #[tactic(auto, using(crate::proofs::DeskLemmas::typing))]
    fn type_in(&mut self, alloc: Global, line: &str) -> Result<Vec<u8>, AllocError>
        ensures said { IfOk result (λ text. ConsoleSays self.old.console line.now text.items self.new.console) }
        ensures err { OnErr result (self.new.console ≡ self.old.console) }
        ensures same { self.new ≡ record self.old { console = self.new.console } }
    {
        let mut text = Vec::with_capacity(alloc, LINE_ROOM)?;
        if line.len() > LINE_MAX {
            self.console.refuse_long(&mut text);
            return Ok(text);
        }
        self.console.answer(line.as_bytes(), &mut text);
        Ok(text)
    }

    /// Types an expression as a line. An `Err` is want of memory, before or after it was answered.
    #[tactic(auto, using(crate::proofs::DeskLemmas::talking))]
    fn talk(&mut self, alloc: Global, message: &Message) -> Result<Sheet, AllocError>
        ensures wrote { IfOk result (λ sheet. Wrote self.old Types message.now self.new.console sheet.text.items sheet.number) }
        ensures kept { OnErr result (Kept self.old Types message.now self.new.console) }
        ensures same { self.new ≡ record self.old { console = self.new.console } }
    {
        let before = self.version(alloc)?;
        let said = self.type_in(alloc, expression_of(message))?;
        let has_changed = self.version(alloc)? != before;
        let session = self.console.session();
        evaluated_sheet(alloc, session, self.number, message, has_changed, &said)
    }

    /// What an expression comes to, of a rank or of all: nothing if it is none. An `Err` is want of memory.
    fn worths(
        &self,
        alloc: Global,
        text: &str,
        meant: Option<usize>,
    ) -> Result<Vec<RankWorth>, AllocError>
        ensures { IfOk result (λ list. list.items ≡ worths_in self.now.console.session text.now meant) }
    {
        let session = self.console.session();
        if let Some(named) = named_in(session.code(), text.as_bytes()) {
            return named_worths(alloc, session, named, meant);
        }
        let valued = self.console.evaluate(alloc, text.as_bytes())?;
        valued_worths(alloc, &valued, meant)
    }

    /// Tells what the expression of a message comes to. An `Err` is want of memory.
    fn value(
        &self,
        alloc: Global,
        message: &Message,
        meant: Option<usize>,
    ) -> Result<Sheet, AllocError>
        ensures { IfOk result (λ sheet. spec.Valued self.now.number message.now (spec.worths_for self.now message.now.ask meant) sheet.text.items sheet.number) }
    {
        let list = self.worths(alloc, expression_of(message), meant)?;
        worth_sheet(alloc, self.number, message, &list, meant)
    }

    /// The frames that answer a message, which is done by the console. An `Err` is want of memory, before or after it was done.
    #[tactic(auto, using(crate::proofs::DeskLemmas::writing))]
    fn written(&mut self, alloc: Global, message: &Message, task: Task) -> Result<Sheet, AllocError>
        ensures wrote { IfOk result (λ sheet. Wrote self.old task message.now self.new.console sheet.text.items sheet.number) }
        ensures kept { OnErr result (Kept self.old task message.now self.new.console) }
        ensures same { self.new ≡ record self.old { console = self.new.console } }
    {
        let number = self.number;
        match task {
            Task::Refused(why) => refusal(alloc, number, message, why),
            Task::Looks(look) => looked_sheet(
                alloc,
                self.console.session(),
                number,
                message,
                self.path_or(),
                look,
            ),
            Task::Launches => announced(alloc, number, message, Event::Initialized),
            Task::Begins => begun_sheet(alloc, self.console.session(), number, message),
            Task::Ends => announced(alloc, number, message, Event::Terminated),
            Task::Marks => self.mark(alloc, message),
            Task::Moves(asked) => self.go(alloc, message, asked),
            Task::Types => self.talk(alloc, message),
            Task::Values(meant) => self.value(alloc, message, meant),
        }
    }

    /// Says that memory was refused, which takes none.
    fn tell_memory(&mut self, out: &mut Vec<u8>)
        requires room { vec_len out.old + 512 ≤ vec_capacity out.old }
        ensures text { out.new.items ≡ out.old.items ++ flat_map frame_text (spec.memory_frames self.old) }
        ensures number { self.new ≡ record self.old { number = spec.next_number self.old } }
        ensures capacity { vec_capacity out.old ≤ vec_capacity out.new }
    {
        push_memory(out, self.number);
        self.number = one_more(self.number);
    }

    /// What a message changes besides the console, once it is answered.
    fn turn(&mut self, task: Task, message: Message)
        ensures { self.new ≡ record self.old { path = spec.path_then self.old.path task message.ask; is_over = spec.over_then self.old.is_over task } }
    {
        match task {
            Task::Launches => self.path = program_of(message),
            Task::Ends => self.is_over = true,
            _ => {}
        }
    }

    /// Answers a message.
    #[tactic(auto, using(crate::proofs::DeskLemmas::heeding))]
    fn hear(&mut self, alloc: Global, message: Message, out: &mut Vec<u8>)
        requires room { vec_len out.old + 512 ≤ vec_capacity out.old }
        ensures said { (told : List (List ℕ)) × (out.new.items ≡ out.old.items ++ flat_map frame_text told) × Heeds self.old (spec.task_in self.old message) message told self.new }
        ensures capacity { vec_capacity out.old ≤ vec_capacity out.new }
    {
        let task = self.task(&message);
        match self.written(alloc, &message, task) {
            Ok(sheet) => self.hand_over(message, task, &sheet, out),
            Err(_) => self.tell_memory(out),
        }
    }

    /// Hands the frames of a message over, whose words are done, and does what else it asks; or says that memory was refused.
    #[tactic(auto, using(crate::proofs::DeskLemmas::handing))]
    fn hand_over(&mut self, message: Message, task: Task, sheet: &Sheet, out: &mut Vec<u8>)
        requires room { vec_len out.old + 512 ≤ vec_capacity out.old }
        ensures said { (d : spec.Adapter) → self.old ≡ record d { console = self.old.console } → Wrote d task message self.old.console sheet.now.text.items sheet.now.number → (told : List (List ℕ)) × (out.new.items ≡ out.old.items ++ flat_map frame_text told) × Heeds d task message told self.new }
        ensures capacity { vec_capacity out.old ≤ vec_capacity out.new }
    {
        match out.extend_from_slice(&sheet.text) {
            Ok(()) => {
                self.number = sheet.number;
                self.turn(task, message)
            }
            Err(_) => self.tell_memory(out),
        }
    }
}

impl<'c, 't> FrameDesk for AdapterDesk<'c, 't> {
    ghost use Rattle.mpd_adapter.specs.Says.{Says};

    ghost says = { Says };

    ghost over = { λ d. d.is_over };

    fn is_over(&self) -> bool {
        self.is_over
    }

    #[tactic(auto, using(crate::proofs::DeskLemmas::answering))]
    fn answer(&mut self, body: &[u8], out: &mut Vec<u8>) {
        let alloc = *out.allocator();
        match message_of(alloc, body) {
            Ok(Some(message)) => self.hear(alloc, message, out),
            Ok(None) => {}
            Err(_) => self.tell_memory(out),
        }
    }
}
