//! What answers the messages of an editor if the script could not be read (docs/ADAPTER.md, "Start").

ghost use Rattle.std.specs.Prelude.{◌≡◌, ◌+◌, ◌≤◌, ◌++◌, ℕ, List, IfOk, vec_len, vec_capacity};
ghost use Rattle.std.specs.List.{flat_map};
ghost use Rattle.mpd_frames.specs.Frame.{frame_text};
ghost use Rattle.mpd_adapter.specs.Answers.{IsSheet};
ghost use Rattle.mpd_adapter.specs.Numbers.{one_more as more};
ghost use Rattle.mpd_adapter.specs.Unread as spec;

use crate::numbers::one_more;
use crate::sheet::{Sheet, announced, failure, refusal, response};
use crate::task::{Task, task_of};
use mpd_dap::{Event, Message, capabilities, message_of, push_memory};
use mpd_frames::FrameDesk;
use std::alloc::{AllocError, Global};
use std::marker::Model;

/// Tells what the adapter can.
fn described(alloc: Global, number: u64, message: &Message) -> Result<Sheet, AllocError>
    ensures { IfOk result (λ sheet. IsSheet number (spec.described_frames number message.now) sheet.text.items sheet.number) }
{
    let body = capabilities(alloc)?;
    response(alloc, number, message, body)
}

/// The frames that answer a message if there is no script, given what a person is told of that.
fn unread_sheet(
    alloc: Global,
    number: u64,
    message: &Message,
    told: &str,
) -> Result<Sheet, AllocError>
    ensures { IfOk result (λ sheet. IsSheet number (spec.unread_frames number message.now told.now) sheet.text.items sheet.number) }
{
    match task_of(0, false, message) {
        Task::Refused(why) => refusal(alloc, number, message, why),
        Task::Launches => failure(alloc, number, message, told),
        Task::Ends => announced(alloc, number, message, Event::Terminated),
        _ => described(alloc, number, message),
    }
}

/// Whether a message ends the session.
fn is_end(message: &Message) -> bool
    ensures { result ≡ spec.is_end message.now }
{
    matches!(task_of(0, false, message), Task::Ends)
}

/// What answers the messages of an editor without a script: a `launch` fails, and a person is told
/// why.
#[derive(Drop)]
pub struct UnreadDesk<'t> {
    /// What a person is told.
    told: &'t str,
    /// The number of the next frame.
    number: u64,
    /// Whether the session is over.
    is_over: bool,
}

impl<'t> Model for UnreadDesk<'t> {
    ghost use Rattle.mpd_adapter.specs.Unread.{Unread, unread_code};

    ghost Value = { Unread };

    ghost coded = { unread_code };

    ghost view = { λ d. record { told = d.told.now; number = d.number; is_over = d.is_over } };
}

impl<'t> UnreadDesk<'t> {
    /// A desk that has written no frame, and tells this where a `launch` fails.
    pub fn new(told: &'t str) -> UnreadDesk<'t>
        ensures { result ≡ spec.unread_of told.now }
    {
        UnreadDesk {
            told,
            number: 1,
            is_over: false,
        }
    }

    /// Says that memory was refused, which takes none.
    fn tell_memory(&mut self, out: &mut Vec<u8>)
        requires room { vec_len out.old + 512 ≤ vec_capacity out.old }
        ensures text { out.new.items ≡ out.old.items ++ flat_map frame_text (spec.memory_frames self.old) }
        ensures number { self.new ≡ record self.old { number = more self.old.number } }
        ensures capacity { vec_capacity out.old ≤ vec_capacity out.new }
    {
        push_memory(out, self.number);
        self.number = one_more(self.number);
    }

    /// Answers a message.
    #[tactic(auto, using(crate::proofs::UnreadLemmas::hearing))]
    fn hear(&mut self, alloc: Global, message: &Message, out: &mut Vec<u8>)
        requires room { vec_len out.old + 512 ≤ vec_capacity out.old }
        ensures said { (told : List (List ℕ)) × (out.new.items ≡ out.old.items ++ flat_map frame_text told) × spec.Heeds self.old message.now told self.new }
        ensures capacity { vec_capacity out.old ≤ vec_capacity out.new }
    {
        match unread_sheet(alloc, self.number, message, self.told) {
            Ok(sheet) => self.hand_over(message, &sheet, out),
            Err(_) => self.tell_memory(out),
        }
    }

    /// Hands the frames of a message over; or says that memory was refused.
    #[tactic(auto, using(crate::proofs::UnreadLemmas::handing))]
    fn hand_over(&mut self, message: &Message, sheet: &Sheet, out: &mut Vec<u8>)
        requires sheet { IsSheet self.old.number (spec.unread_frames self.old.number message.now self.old.told) sheet.now.text.items sheet.now.number }
        requires room { vec_len out.old + 512 ≤ vec_capacity out.old }
        ensures said { (told : List (List ℕ)) × (out.new.items ≡ out.old.items ++ flat_map frame_text told) × spec.Heeds self.old message.now told self.new }
        ensures capacity { vec_capacity out.old ≤ vec_capacity out.new }
    {
        match out.extend_from_slice(&sheet.text) {
            Ok(()) => {
                self.number = sheet.number;
                self.is_over = self.is_over || is_end(message);
            }
            Err(_) => self.tell_memory(out),
        }
    }
}

impl<'t> FrameDesk for UnreadDesk<'t> {
    ghost use Rattle.mpd_adapter.specs.Unread.{Says};

    ghost says = { Says };

    ghost over = { λ d. d.is_over };

    fn is_over(&self) -> bool {
        self.is_over
    }

    #[tactic(auto, using(crate::proofs::UnreadLemmas::answering))]
    fn answer(&mut self, body: &[u8], out: &mut Vec<u8>) {
        let alloc = *out.allocator();
        match message_of(alloc, body) {
            Ok(Some(message)) => self.hear(alloc, &message, out),
            Ok(None) => {}
            Err(_) => self.tell_memory(out),
        }
    }
}
