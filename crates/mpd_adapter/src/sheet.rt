//! The frames that answer a message, before they are handed on: all of them, or none.

ghost use Rattle.std.specs.Prelude.{◌≡◌, ◌∷◌, ◌++◌, [], IfOk, OnOk, Ok, Err};
ghost use Rattle.serde_json.specs.View.{view};
ghost use Rattle.mpd_frames.specs.Frame.{frame_text};
ghost use Rattle.mpd_dap.specs.Told.{response_text, refusal_text, failure_text, event_text};
ghost use Rattle.mpd_adapter.specs.Numbers.{one_more};
ghost use Rattle.mpd_adapter.specs.Answers.{IsSheet, Tells, frames_of};
ghost use Rattle.mpd_adapter.specs.Says.{all_started, announced, started as started_at};
ghost use Rattle.mpd_adapter.specs.Unread.{failed_frames};

use crate::numbers::{one_more, thread_of};
use mpd_dap::{
    Event, Json, Message, Refusal, nothing, push_event, push_failure, push_refusal, push_response,
    started,
};
use std::alloc::{AllocError, Global};

/// Frames one after another, and the number of the next.
#[derive(Drop)]
pub(crate) struct Sheet {
    /// The frames.
    pub(crate) text: Vec<u8>,
    /// The number that the next has.
    pub(crate) number: u64,
}

impl Sheet {
    /// No frame yet; the first has this number.
    fn new(alloc: Global, number: u64) -> Sheet
        ensures text { result.text.items ≡ [] }
        ensures number { result.number ≡ number }
    {
        Sheet {
            text: Vec::new(alloc),
            number,
        }
    }

    /// Adds the response to a message. An `Err` is want of memory, here and below.
    fn respond(&mut self, alloc: Global, message: &Message, body: Json) -> Result<(), AllocError>
        ensures text { OnOk result (self.new.text.items ≡ self.old.text.items ++ frame_text (response_text self.old.number message.now.seq message.now.name (view body.value))) }
        ensures number { OnOk result (self.new.number ≡ one_more self.old.number) }
    {
        push_response(alloc, &mut self.text, self.number, message, body)?;
        self.number = one_more(self.number);
        Ok(())
    }

    /// Adds the response that refuses a message.
    fn refuse(
        &mut self,
        alloc: Global,
        message: &Message,
        refusal: Refusal,
    ) -> Result<(), AllocError>
        ensures text { OnOk result (self.new.text.items ≡ self.old.text.items ++ frame_text (refusal_text self.old.number message.now.seq message.now.name refusal)) }
        ensures number { OnOk result (self.new.number ≡ one_more self.old.number) }
    {
        push_refusal(alloc, &mut self.text, self.number, message, refusal)?;
        self.number = one_more(self.number);
        Ok(())
    }

    /// Adds the response that refuses a message, as the script could not be read, with what a person is told of it.
    fn fail(&mut self, alloc: Global, message: &Message, told: &str) -> Result<(), AllocError>
        ensures text { OnOk result (self.new.text.items ≡ self.old.text.items ++ frame_text (failure_text self.old.number message.now.seq message.now.name Refusal.NotRead told.now)) }
        ensures number { OnOk result (self.new.number ≡ one_more self.old.number) }
    {
        let why = Refusal::NotRead;
        push_failure(alloc, &mut self.text, self.number, message, why, told)?;
        self.number = one_more(self.number);
        Ok(())
    }

    /// Adds an event.
    pub(crate) fn tell(&mut self, alloc: Global, event: Event, body: Json) -> Result<(), AllocError>
        ensures text { OnOk result (self.new.text.items ≡ self.old.text.items ++ frame_text (event_text self.old.number event (view body.value))) }
        ensures number { OnOk result (self.new.number ≡ one_more self.old.number) }
    {
        push_event(alloc, &mut self.text, self.number, event, body)?;
        self.number = one_more(self.number);
        Ok(())
    }
}

/// The frame that refuses a message.
#[tactic(auto, using(crate::proofs::SheetLemmas::sheets))]
pub(crate) fn refusal(
    alloc: Global,
    number: u64,
    message: &Message,
    refusal: Refusal,
) -> Result<Sheet, AllocError>
    ensures { IfOk result (λ sheet. IsSheet number (frames_of number message.now (Err refusal)) sheet.text.items sheet.number) }
{
    let mut sheet = Sheet::new(alloc, number);
    sheet.refuse(alloc, message, refusal)?;
    Ok(sheet)
}

/// The frame that refuses a message, as the script could not be read, with what a person is told of it.
#[tactic(auto, using(crate::proofs::SheetLemmas::sheets))]
pub(crate) fn failure(
    alloc: Global,
    number: u64,
    message: &Message,
    told: &str,
) -> Result<Sheet, AllocError>
    ensures { IfOk result (λ sheet. IsSheet number (failed_frames number message.now told.now) sheet.text.items sheet.number) }
{
    let mut sheet = Sheet::new(alloc, number);
    sheet.fail(alloc, message, told)?;
    Ok(sheet)
}

/// The response to a message.
#[tactic(auto, using(crate::proofs::SheetLemmas::sheets))]
pub(crate) fn response(
    alloc: Global,
    number: u64,
    message: &Message,
    body: Json,
) -> Result<Sheet, AllocError>
    ensures { IfOk result (λ sheet. IsSheet number (frames_of number message.now (Ok (view body.value, []))) sheet.text.items sheet.number) }
{
    let mut sheet = Sheet::new(alloc, number);
    sheet.respond(alloc, message, body)?;
    Ok(sheet)
}

/// The same, and an event.
#[tactic(auto, using(crate::proofs::SheetLemmas::sheets))]
pub(crate) fn with_event(
    alloc: Global,
    number: u64,
    message: &Message,
    body: Json,
    event: Event,
    told: Json,
) -> Result<Sheet, AllocError>
    ensures { IfOk result (λ sheet. IsSheet number (frames_of number message.now (Ok (view body.value, (event, view told.value) ∷ []))) sheet.text.items sheet.number) }
{
    let mut sheet = Sheet::new(alloc, number);
    sheet.respond(alloc, message, body)?;
    sheet.tell(alloc, event, told)?;
    Ok(sheet)
}

/// The frames that answer a message with nothing but an event, whose body is empty.
pub(crate) fn announced(
    alloc: Global,
    number: u64,
    message: &Message,
    event: Event,
) -> Result<Sheet, AllocError>
    ensures { IfOk result (λ sheet. IsSheet number (frames_of number message.now (announced event)) sheet.text.items sheet.number) }
{
    let body = nothing(alloc)?;
    let told = nothing(alloc)?;
    with_event(alloc, number, message, body, event, told)
}

/// The response to a move, what the console says of it, and where the session stands.
#[tactic(auto, using(crate::proofs::SheetLemmas::sheets))]
pub(crate) fn with_stop(
    alloc: Global,
    number: u64,
    message: &Message,
    body: Json,
    said: Json,
    last: Json,
) -> Result<Sheet, AllocError>
    ensures { IfOk result (λ sheet. IsSheet number (frames_of number message.now (Ok (view body.value, (Event.Output, view said.value) ∷ (Event.Stopped, view last.value) ∷ []))) sheet.text.items sheet.number) }
{
    let mut sheet = Sheet::new(alloc, number);
    sheet.respond(alloc, message, body)?;
    sheet.tell(alloc, Event::Output, said)?;
    sheet.tell(alloc, Event::Stopped, last)?;
    Ok(sheet)
}

/// Adds that a rank, from 0, has started.
fn tell_one(alloc: Global, sheet: &mut Sheet, rank: usize) -> Result<(), AllocError>
    ensures text { OnOk result (sheet.new.text.items ≡ sheet.old.text.items ++ frame_text (event_text sheet.old.number (started_at rank).0 (started_at rank).1)) }
    ensures number { OnOk result (sheet.new.number ≡ one_more sheet.old.number) }
{
    let body = started(alloc, thread_of(rank))?;
    sheet.tell(alloc, Event::Thread, body)
}

/// Adds that each of so many ranks has started.
fn tell_started(alloc: Global, sheet: &mut Sheet, ranks: usize) -> Result<(), AllocError>
    ensures { OnOk result (Tells sheet.old.text.items sheet.old.number sheet.new.text.items sheet.new.number (all_started ranks)) }
{
    for rank in 0..ranks {
        tell_one(alloc, sheet, rank)?;
    }
    Ok(())
}

/// The response to a message, that each of so many ranks has started, and where the session stands.
#[tactic(auto, using(crate::proofs::SheetLemmas::begun_sheet))]
pub(crate) fn begun(
    alloc: Global,
    number: u64,
    message: &Message,
    body: Json,
    ranks: usize,
    stands: Json,
) -> Result<Sheet, AllocError>
    ensures { IfOk result (λ sheet. IsSheet number (frames_of number message.now (Ok (view body.value, all_started ranks ++ (Event.Stopped, view stands.value) ∷ []))) sheet.text.items sheet.number) }
{
    let mut sheet = Sheet::new(alloc, number);
    sheet.respond(alloc, message, body)?;
    tell_started(alloc, &mut sheet, ranks)?;
    sheet.tell(alloc, Event::Stopped, stands)?;
    Ok(sheet)
}
