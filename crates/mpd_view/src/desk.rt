//! What answers the lines of a view: a desk over the console, which draws the screen after each line.

ghost use Rattle.std.specs.Prelude.{[], ◌≡◌, ◌+◌, ◌≤◌, ◌<◌, ℕ, List, IfOk, OnErr, length, vec_len, vec_capacity};
ghost use Rattle.mpd_console.specs.Says.{Adds, ConsoleSays};
ghost use Rattle.mpd_view.specs.Sights.{IsSeen};

use crate::drawn::{Size, push_screen};
use crate::sight::{Sight, sight_of};
use mpd_console::ConsoleDesk;
use mpd_lines::{LINE_ROOM, LineDesk, ROOM, push_all};
use mpd_model::LINE_MAX;
use std::alloc::{AllocError, Global};
use std::marker::Model;

/// What stands in the place of an answer where memory is refused before anything was done.
const MEMORY: &[u8] = b"refused: memory\n";

/// What stands in the place of a screen whose text is refused memory.
const UNDRAWN: &[u8] = b"memory for the screen was refused\n";

/// A view of a script (docs/CONSOLE.md, "A view"): a console, the text of its script, and the size of the screen.
#[derive(Drop)]
pub struct ViewDesk<'c, 't> {
    console: ConsoleDesk<'c, 't>,
    script: &'t [u8],
    size: Size,
}

impl<'c, 't> Model for ViewDesk<'c, 't> {
    ghost use Rattle.mpd_view.specs.Says.{View, view_code};

    ghost Value = { View };

    ghost coded = { view_code };

    ghost view = { λ d. record { console = d.console; script = d.script.now; size = d.size } };
}

impl<'c, 't> ViewDesk<'c, 't> {
    /// A view over a console, given the text of its script and the size of the screen, whose columns are those at which its answers wrap.
    pub fn new(console: ConsoleDesk<'c, 't>, script: &'t [u8], size: Size) -> ViewDesk<'c, 't>
        ensures { result ≡ record { console = console.entry; script = script.entry.now; size = size } }
    {
        ViewDesk {
            console,
            script,
            size,
        }
    }

    /// Its console, to look at.
    pub fn console(&self) -> &ConsoleDesk<'c, 't>
        ensures { result.now ≡ self.now.console }
    {
        &self.console
    }

    /// The file whose words are to be answered, which a line has named since this was asked last;
    /// empty if none has.
    pub fn take_named(&mut self, alloc: Global) -> Vec<u8>
        ensures name { result.items ≡ self.old.console.named }
        ensures taken { self.new ≡ record self.old { console = record self.old.console { named = [] } } }
    {
        self.console.take_named(alloc)
    }

    /// What it shows of its session. `Err` means that memory was refused.
    #[tactic(auto, using(crate::proofs::DeskLemmas::seeing))]
    pub fn sight(&self, alloc: Global) -> Result<Sight, AllocError>
        ensures { IfOk result (IsSeen self.now.console.session) }
    {
        let debugger = self.console.session().debugger();
        debugger.state_is_reached();
        sight_of(alloc, debugger)
    }

    /// The screen after what the console has said; nothing if it has said nothing. `Err` means that
    /// memory was refused.
    pub fn screen(&self, alloc: Global, told: &[u8]) -> Result<Vec<u8>, AllocError> {
        let mut out = Vec::new(alloc);
        if told.is_empty() {
            return Ok(out);
        }
        let sight = self.sight(alloc)?;
        let code = self.console.session().code();
        push_screen(&mut out, &sight, code, self.script, told, self.size)?;
        Ok(out)
    }

    /// Adds that screen, or the line that stands in its place where its text is refused memory.
    fn draw(&self, alloc: Global, told: &[u8], out: &mut Vec<u8>)
        requires room { vec_len out.old + ROOM ≤ vec_capacity out.old }
        ensures kept { Adds out.old.items out.new.items }
        ensures capacity { vec_capacity out.old ≤ vec_capacity out.new }
    {
        let Ok(text) = self.screen(alloc, told) else {
            return push_all(out, UNDRAWN);
        };
        match out.extend_from_slice(&text) {
            Ok(()) => {}
            Err(_) => push_all(out, UNDRAWN),
        }
    }

    /// Types a line, and gives the console's answer. An `Err` is want of memory, and then nothing has changed.
    #[tactic(auto, using(crate::proofs::DeskLemmas::typing))]
    fn type_in(&mut self, alloc: Global, line: &[u8]) -> Result<Vec<u8>, AllocError>
        requires line { length line.now ≤ LINE_MAX }
        ensures said { IfOk result (λ told. ConsoleSays self.old.console line.now told.items self.new.console) }
        ensures err { OnErr result (self.new.console ≡ self.old.console) }
        ensures same { self.new ≡ record self.old { console = self.new.console } }
    {
        let mut told = Vec::with_capacity(alloc, LINE_ROOM)?;
        self.console.answer(line, &mut told);
        Ok(told)
    }

    /// The same of a line that is too long, whichever it is.
    #[tactic(auto, using(crate::proofs::DeskLemmas::typing))]
    fn type_long(&mut self, alloc: Global) -> Result<Vec<u8>, AllocError>
        ensures said { IfOk result (λ told. (line : List ℕ) → LINE_MAX < length line → ConsoleSays self.old.console line told.items self.new.console) }
        ensures err { OnErr result (self.new.console ≡ self.old.console) }
        ensures same { self.new ≡ record self.old { console = self.new.console } }
    {
        let mut told = Vec::with_capacity(alloc, LINE_ROOM)?;
        self.console.refuse_long(&mut told);
        Ok(told)
    }
}

impl<'c, 't> LineDesk for ViewDesk<'c, 't> {
    ghost use Rattle.std.specs.Prelude.{false};
    ghost use Rattle.mpd_view.specs.Says.{ViewSays};

    // a person waits for each screen
    ghost gathers = { false };

    ghost says = { ViewSays };

    fn is_gathering(&self) -> bool {
        false
    }

    #[tactic(auto, using(crate::proofs::DeskLemmas::answering))]
    fn answer(&mut self, line: &[u8], out: &mut Vec<u8>) {
        let alloc = *out.allocator();
        let Ok(told) = self.type_in(alloc, line) else {
            return push_all(out, MEMORY);
        };
        self.draw(alloc, &told, out)
    }

    #[tactic(auto, using(crate::proofs::DeskLemmas::answering))]
    fn refuse_long(&mut self, out: &mut Vec<u8>) {
        let alloc = *out.allocator();
        let Ok(told) = self.type_long(alloc) else {
            return push_all(out, MEMORY);
        };
        self.draw(alloc, &told, out)
    }
}
