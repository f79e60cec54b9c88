//! What answers the lines of the console: a desk with a session.

ghost use Rattle.std.specs.Prelude.{◌≡◌, ◌+◌, ◌≤◌, None, IfOk, OnOk, OnErr, [], true, length, vec_len, vec_capacity};
ghost use Rattle.mpd_session.specs.Respond.{may_want, respond};
ghost use Rattle.mpd_vocabulary.specs.Reading.{behind_word, line_of};
ghost use Rattle.mpd_console.specs.Says as spec;
ghost use Rattle.mpd_console.specs.Says.{Adds, Evaluated};

use crate::done::{Done, perform};
use crate::prompts::{Look, idle_bytes, laid_out, prompt_in};
use crate::saying::told_bytes;
use crate::told::Told;
use crate::values::{Valued, is_valued, keep, keeps_none, push_valued, valued_in};
use itoa::Buffer;
use mpd_lines::{LINE_ROOM, LineDesk, ROOM, push_all, push_echo, push_long_echo};
use mpd_model::LINE_MAX;
use mpd_session::{Reply, Request, Session};
use mpd_vocabulary::{Line, Word, WordFault, behind_word, line_of, push_fault, word_at};
use std::alloc::{AllocError, Global};
use std::marker::Model;
use std::mem;

/// What stands in the place of an answer where memory is refused before anything was done.
const MEMORY: &[u8] = b"refused: memory\n";

/// What stands in the place of an answer whose text is refused memory: what the word does is done.
const UNPRINTED: &[u8] = b"done, but memory for the answer was refused\n";

/// What answers a line that is too long.
const TOO_LONG: &[u8] = b"refused: this line is too long\n";

/// What a console is written for: the text of its script, which it shows, and how its answers look.
#[derive(Clone, Copy)]
pub struct Screen<'t> {
    /// The text of the script.
    pub script: &'t [u8],
    /// How answers look.
    pub look: Look,
}

/// Adds a line for which there is room.
#[tactic(auto, using(crate::proofs::DeskLemmas::adding))]
fn add_line(line: &[u8], out: &mut Vec<u8>)
    requires short { length line.now ≤ ROOM }
    requires room { vec_len out.old + ROOM ≤ vec_capacity out.old }
    ensures kept { Adds out.old.items out.new.items }
    ensures capacity { vec_capacity out.old ≤ vec_capacity out.new }
{
    push_all(out, line)
}

/// Adds a text, or the line that stands in its place where that is refused memory.
#[tactic(auto, using(crate::proofs::DeskLemmas::adding))]
fn add(text: Result<Vec<u8>, AllocError>, otherwise: &[u8], out: &mut Vec<u8>)
    requires short { length otherwise.now ≤ ROOM }
    requires room { vec_len out.old + ROOM ≤ vec_capacity out.old }
    ensures kept { Adds out.old.items out.new.items }
    ensures capacity { vec_capacity out.old ≤ vec_capacity out.new }
{
    let Ok(text) = text else {
        return push_all(out, otherwise);
    };
    match out.extend_from_slice(&text) {
        Ok(()) => {}
        Err(_) => push_all(out, otherwise),
    }
}

/// What is said where memory is refused for what is to be said of a word: that it is done, unless
/// nothing is done by it.
fn otherwise(told: &Told) -> &'static [u8]
    ensures { length result.now ≤ ROOM }
{
    match told {
        Told::Looks(_) | Told::NoneEnds { .. } => MEMORY,
        _ => UNPRINTED,
    }
}

/// What is said of a line that asks for nothing that can be done.
fn fault_bytes(
    alloc: Global,
    session: &Session<'_>,
    look: Look,
    line: &[u8],
    fault: WordFault,
) -> Result<Vec<u8>, AllocError> {
    let mut told = String::new(alloc);
    push_fault(&mut told, line, fault)?;
    let prompt = prompt_in(session, look.is_prompting);
    laid_out(alloc, told.as_bytes(), look.width, prompt)
}

/// What is said of what stands after `print`.
fn valued_bytes(
    alloc: Global,
    session: &Session<'_>,
    look: Look,
    text: &[u8],
    valued: &Valued,
) -> Result<Vec<u8>, AllocError> {
    let mut told = String::new(alloc);
    push_valued(&mut told, session.code().decls(), text, valued)?;
    let prompt = prompt_in(session, look.is_prompting);
    laid_out(alloc, told.as_bytes(), look.width, prompt)
}

/// Adds the prompt, which takes no memory, where one is wanted.
#[tactic(auto, using(crate::proofs::DeskLemmas::adding))]
fn push_short_prompt(session: &Session<'_>, is_prompting: bool, out: &mut Vec<u8>)
    requires room { vec_len out.old + 32 ≤ vec_capacity out.old }
    ensures kept { Adds out.old.items out.new.items }
    ensures capacity { vec_capacity out.old ≤ vec_capacity out.new }
{
    if !is_prompting {
        return;
    }
    let mut digits = Buffer::new();
    push_all(out, b"(");
    push_all(out, digits.format(session.debugger().depth()).as_bytes());
    push_all(out, b") ");
}

/// Adds what is said of a line that is too long, which takes no memory.
#[tactic(auto, using(crate::proofs::DeskLemmas::adding))]
fn refuse_long(session: &Session<'_>, is_prompting: bool, out: &mut Vec<u8>)
    requires room { vec_len out.old + ROOM ≤ vec_capacity out.old }
    ensures kept { Adds out.old.items out.new.items }
    ensures capacity { vec_capacity out.old ≤ vec_capacity out.new }
{
    push_all(out, TOO_LONG);
    push_short_prompt(session, is_prompting, out)
}

/// What an empty line does after a word.
fn again(word: Word) -> Word
    ensures { result ≡ spec.again word }
{
    match word {
        Word::Next(_) => Word::Next(None),
        _ => word,
    }
}

/// A console at the start of a script (docs/CONSOLE.md): a session, the text of its script and how
/// its answers look, and what an empty line repeats.
#[derive(Drop)]
pub struct ConsoleDesk<'c, 't> {
    session: Session<'c>,
    screen: Screen<'t>,
    /// The last word that was understood.
    last: Option<Word>,
    /// The expression that was told after it; empty if none was.
    asked: Vec<u8>,
    /// The file whose words are to be answered next; empty if there is none.
    named: Vec<u8>,
}

impl<'c, 't> Model for ConsoleDesk<'c, 't> {
    ghost use Rattle.mpd_console.specs.Says.{Console, console_code};

    ghost Value = { Console };

    ghost coded = { console_code };

    ghost view = { λ d. record { session = d.session; script = d.screen.script.now; last = d.last; asked = d.asked.items; named = d.named.items; look = d.screen.look } };
}

impl<'c, 't> ConsoleDesk<'c, 't> {
    /// A console over a session, given the text of its script and how its answers look.
    pub fn new(alloc: Global, session: Session<'c>, screen: Screen<'t>) -> ConsoleDesk<'c, 't>
        ensures { result ≡ record { session = session.entry; script = screen.entry.script.now; last = None; asked = []; named = []; look = screen.entry.look } }
    {
        ConsoleDesk {
            session,
            screen,
            last: None,
            asked: Vec::new(alloc),
            named: Vec::new(alloc),
        }
    }

    /// The text of its script, and how its answers look.
    pub(crate) fn screen(&self) -> Screen<'t>
        ensures script { result.script.now ≡ self.now.script }
        ensures look { result.look ≡ self.now.look }
    {
        self.screen
    }

    /// Shows a line before its answer, where lines are shown. Room for a short answer is left.
    #[tactic(auto, using(crate::proofs::DeskLemmas::showing))]
    fn show(&self, line: &[u8], out: &mut Vec<u8>)
        requires line { length line.now ≤ LINE_MAX }
        requires room { vec_len out.old + LINE_ROOM ≤ vec_capacity out.old }
        ensures kept { Adds out.old.items out.new.items }
        ensures room { vec_len out.new + ROOM ≤ vec_capacity out.new }
        ensures capacity { vec_capacity out.old ≤ vec_capacity out.new }
    {
        if self.screen.look.is_echoing {
            push_echo(out, b"", line)
        }
    }

    /// The same of a line that is too long.
    #[tactic(auto, using(crate::proofs::DeskLemmas::showing))]
    fn show_long(&self, out: &mut Vec<u8>)
        requires room { vec_len out.old + LINE_ROOM ≤ vec_capacity out.old }
        ensures kept { Adds out.old.items out.new.items }
        ensures room { vec_len out.new + ROOM ≤ vec_capacity out.new }
        ensures capacity { vec_capacity out.old ≤ vec_capacity out.new }
    {
        if self.screen.look.is_echoing {
            push_long_echo(out, b"")
        }
    }

    /// Its session, to look at.
    pub fn session(&self) -> &Session<'c>
        ensures { result.now ≡ self.now.session }
    {
        &self.session
    }

    /// Asks its session by itself, past the words of the console: what an empty line repeats stays. An
    /// `Err` is want of memory, and then nothing has changed.
    pub fn ask(&mut self, alloc: Global, request: &Request) -> Result<Reply, AllocError>
        ensures reply { IfOk result (λ reply. reply ≡ (respond self.old.session request.now).0) }
        ensures held { OnOk result (self.new ≡ record self.old { session = (respond self.old.session request.now).1 }) }
        ensures err { OnErr result (self.new ≡ self.old) }
        ensures wants { OnErr result (may_want request.now.command ≡ true) }
    {
        self.session.answer(alloc, request)
    }

    /// Does a word, and tells what it did. What an empty line repeats stays. An `Err` is want of
    /// memory, and then nothing has changed.
    #[tactic(auto, using(crate::proofs::DeskLemmas::speaking))]
    pub fn perform(&mut self, alloc: Global, word: Word) -> Result<Done, AllocError>
        ensures done { IfOk result (λ done. spec.WordDone self.old word done.told self.new) }
        ensures err { OnErr result (self.new ≡ self.old) }
    {
        perform(alloc, &mut self.session, word)
    }

    /// Adds what is said of a word that is done: of what it did, or, where memory is refused, that it
    /// is done.
    #[tactic(auto, using(crate::proofs::DeskLemmas::adding))]
    pub fn tell(&self, alloc: Global, done: &Done, out: &mut Vec<u8>)
        requires room { vec_len out.old + ROOM ≤ vec_capacity out.old }
        ensures kept { Adds out.old.items out.new.items }
        ensures capacity { vec_capacity out.old ≤ vec_capacity out.new }
    {
        let Some(told) = &done.told else {
            return add_line(UNPRINTED, out);
        };
        let text = told_bytes(alloc, &self.session, self.screen, told, done.step);
        add(text, otherwise(told), out)
    }

    /// Does a word, and adds what is said of it. What an empty line repeats stays.
    #[tactic(auto, using(crate::proofs::DeskLemmas::speaking))]
    pub fn say(&mut self, alloc: Global, word: Word, out: &mut Vec<u8>)
        requires room { vec_len out.old + ROOM ≤ vec_capacity out.old }
        ensures said { spec.WordSays self.old word self.new }
        ensures kept { Adds out.old.items out.new.items }
        ensures capacity { vec_capacity out.old ≤ vec_capacity out.new }
    {
        match self.perform(alloc, word) {
            Ok(done) => self.tell(alloc, &done, out),
            Err(_) => add_line(MEMORY, out),
        }
    }

    /// What stands after `print` comes to. An `Err` is want of memory.
    pub fn evaluate(&self, alloc: Global, text: &[u8]) -> Result<Valued, AllocError>
        ensures { IfOk result (λ valued. valued ≡ spec.valued_in self.now.session text.now) }
    {
        valued_in(alloc, &self.session, text)
    }

    /// Adds what is said of that.
    #[tactic(auto, using(crate::proofs::DeskLemmas::adding))]
    pub fn tell_value(&self, alloc: Global, text: &[u8], valued: &Valued, out: &mut Vec<u8>)
        requires room { vec_len out.old + ROOM ≤ vec_capacity out.old }
        ensures kept { Adds out.old.items out.new.items }
        ensures capacity { vec_capacity out.old ≤ vec_capacity out.new }
    {
        let said = valued_bytes(alloc, &self.session, self.screen.look, text, valued);
        add(said, MEMORY, out)
    }

    /// Answers a line that says nothing.
    #[tactic(auto, using(crate::proofs::DeskLemmas::adding))]
    fn say_nothing(&self, alloc: Global, out: &mut Vec<u8>)
        requires room { vec_len out.old + ROOM ≤ vec_capacity out.old }
        ensures kept { Adds out.old.items out.new.items }
        ensures capacity { vec_capacity out.old ≤ vec_capacity out.new }
    {
        let prompt = prompt_in(&self.session, self.screen.look.is_prompting);
        add(idle_bytes(alloc, prompt), MEMORY, out)
    }

    /// Answers by the last word once more, where there was one.
    #[tactic(auto, using(crate::proofs::DeskLemmas::speaking))]
    fn repeat(&mut self, alloc: Global, out: &mut Vec<u8>)
        requires room { vec_len out.old + ROOM ≤ vec_capacity out.old }
        ensures said { spec.RepeatSays self.old self.old.last self.new }
        ensures kept { Adds out.old.items out.new.items }
        ensures capacity { vec_capacity out.old ≤ vec_capacity out.new }
    {
        match self.last {
            None => self.say_nothing(alloc, out),
            Some(word) => self.say(alloc, word, out),
        }
    }

    /// Tells once more of the expression that is kept.
    #[tactic(auto, using(crate::proofs::DeskLemmas::adding))]
    fn evaluate_again(&self, alloc: Global, out: &mut Vec<u8>)
        requires room { vec_len out.old + ROOM ≤ vec_capacity out.old }
        ensures kept { Adds out.old.items out.new.items }
        ensures capacity { vec_capacity out.old ≤ vec_capacity out.new }
    {
        match self.evaluate(alloc, &self.asked) {
            Ok(valued) => self.tell_value(alloc, &self.asked, &valued, out),
            Err(_) => add_line(MEMORY, out),
        }
    }

    /// Answers an empty line: by the expression that was told last, or by the last word.
    #[tactic(auto, using(crate::proofs::DeskLemmas::blank))]
    fn say_again(&mut self, alloc: Global, out: &mut Vec<u8>)
        requires room { vec_len out.old + ROOM ≤ vec_capacity out.old }
        ensures said { spec.BlankSays self.old self.old.asked self.new }
        ensures kept { Adds out.old.items out.new.items }
        ensures capacity { vec_capacity out.old ≤ vec_capacity out.new }
    {
        if keeps_none(&self.asked) {
            return self.repeat(alloc, out);
        }
        self.evaluate_again(alloc, out)
    }

    /// What stands after `print` comes to; the next empty line tells it again if it is an expression.
    /// An `Err` is want of memory, and then nothing has changed.
    #[tactic(auto, using(crate::proofs::DeskLemmas::speaking))]
    fn keep_value(&mut self, alloc: Global, text: &[u8]) -> Result<Valued, AllocError>
        ensures same { self.new ≡ record self.old { asked = self.new.asked } }
        ensures kept { Evaluated self.old.session self.old.asked text.now self.new.asked }
    {
        let valued = valued_in(alloc, &self.session, text)?;
        keep(&mut self.asked, text, is_valued(&valued))?;
        Ok(valued)
    }

    /// Answers a line that asks for the value of an expression.
    #[tactic(auto, using(crate::proofs::DeskLemmas::speaking))]
    fn say_value(&mut self, alloc: Global, line: &[u8], out: &mut Vec<u8>)
        requires room { vec_len out.old + ROOM ≤ vec_capacity out.old }
        ensures same { self.new ≡ record self.old { asked = self.new.asked } }
        ensures said { Evaluated self.old.session self.old.asked (behind_word line.now) self.new.asked }
        ensures kept { Adds out.old.items out.new.items }
        ensures capacity { vec_capacity out.old ≤ vec_capacity out.new }
    {
        let text = behind_word(line);
        match self.keep_value(alloc, text) {
            Ok(valued) => self.tell_value(alloc, text, &valued, out),
            Err(_) => add_line(MEMORY, out),
        }
    }

    /// Answers a line that asks for nothing that can be done.
    #[tactic(auto, using(crate::proofs::DeskLemmas::adding))]
    fn refuse(&self, alloc: Global, line: &[u8], fault: WordFault, out: &mut Vec<u8>)
        requires room { vec_len out.old + ROOM ≤ vec_capacity out.old }
        ensures kept { Adds out.old.items out.new.items }
        ensures capacity { vec_capacity out.old ≤ vec_capacity out.new }
    {
        let text = fault_bytes(alloc, &self.session, self.screen.look, line, fault);
        add(text, MEMORY, out)
    }

    /// Keeps the name of the file whose words are to be answered.
    #[tactic(auto, using(crate::proofs::DeskLemmas::naming))]
    fn keep_name(&mut self, name: &[u8], out: &mut Vec<u8>)
        requires room { vec_len out.old + ROOM ≤ vec_capacity out.old }
        ensures said { spec.NameSays self.old name.now self.new }
        ensures kept { Adds out.old.items out.new.items }
        ensures capacity { vec_capacity out.old ≤ vec_capacity out.new }
    {
        self.named.clear();
        match self.named.extend_from_slice(name) {
            Ok(()) => {}
            Err(_) => push_all(out, MEMORY),
        }
    }

    /// The file whose words are to be answered, which a line has named since this was asked last; empty
    /// if none has.
    pub fn take_named(&mut self, alloc: Global) -> Vec<u8>
        ensures name { result.items ≡ self.old.named }
        ensures taken { self.new ≡ record self.old { named = [] } }
    {
        mem::replace(&mut self.named, Vec::new(alloc))
    }

    /// Answers a line that is not too long.
    #[tactic(auto, using(crate::proofs::DeskLemmas::speaking))]
    fn answer_line(&mut self, alloc: Global, line: &[u8], out: &mut Vec<u8>)
        requires room { vec_len out.old + ROOM ≤ vec_capacity out.old }
        ensures said { spec.LineSays self.old (line_of self.old.session.trail.program.decls line.now) line.now self.new }
        ensures kept { Adds out.old.items out.new.items }
        ensures capacity { vec_capacity out.old ≤ vec_capacity out.new }
    {
        match line_of(self.session.code(), line) {
            Line::Blank => self.say_again(alloc, out),
            Line::Comment => self.say_nothing(alloc, out),
            Line::Wrong(fault) => self.refuse(alloc, line, fault, out),
            Line::Evaluates => self.say_value(alloc, line, out),
            Line::Reloads => {}
            Line::Sources => self.keep_name(word_at(line, 1), out),
            Line::Says(word) => {
                self.last = Some(again(word));
                self.asked.clear();
                self.say(alloc, word, out)
            }
        }
    }
}

impl<'c, 't> LineDesk for ConsoleDesk<'c, 't> {
    ghost use Rattle.std.specs.Prelude.{false};
    ghost use Rattle.mpd_console.specs.Says.{ConsoleSays};

    // a person waits for each answer
    ghost gathers = { false };

    ghost says = { ConsoleSays };

    fn is_gathering(&self) -> bool {
        false
    }

    #[tactic(auto, using(crate::proofs::DeskLemmas::answering))]
    fn answer(&mut self, line: &[u8], out: &mut Vec<u8>) {
        self.show(line, out);
        self.answer_line(*out.allocator(), line, out)
    }

    #[tactic(auto, using(crate::proofs::DeskLemmas::answering))]
    fn refuse_long(&mut self, out: &mut Vec<u8>) {
        self.show_long(out);
        refuse_long(&self.session, self.screen.look.is_prompting, out)
    }
}
