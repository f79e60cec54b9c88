//! What is said of the step that decided how a run ends (docs/FORMATS.md, "The step that decides").

use crate::back::Blame;
use crate::told::{Deciding, PlacedBlame};
use mpd_explain::PlacedStep;
use mpd_model::CallKind;
use mpd_names::{Issuer, MarkedCall, Marks, PlacedCall};
use std::fmt;

/// The rank of a send, and what it brings: its line, value and tag.
#[derive(Clone, Copy)]
struct Message<'s>(PlacedCall, Marks<'s>);

impl<'s> fmt::Display for Message<'s> {
    fn fmt<W: fmt::Write>(&self, f: &mut fmt::Formatter<W>) -> fmt::Result {
        let Message(placed, marks) = *self;
        let rank = placed.call.rank;
        let line = marks.inner(placed.line);
        match placed.kind {
            Some(CallKind::Send(send)) => write!(
                f,
                "rank {rank} (line {line}, value {}, tag {})",
                send.value, send.tag
            ),
            _ => write!(f, "rank {rank}"),
        }
    }
}

/// What a step does.
#[derive(Clone, Copy)]
struct Deed<'s>(PlacedStep, Marks<'s>);

impl<'s> fmt::Display for Deed<'s> {
    fn fmt<W: fmt::Write>(&self, f: &mut fmt::Formatter<W>) -> fmt::Result {
        let Deed(step, marks) = *self;
        match step {
            PlacedStep::Local { rank, line } => {
                write!(f, "rank {rank}, line {}, goes on", marks.line(line))
            }
            PlacedStep::Match { send, receive } => write!(
                f,
                "{}, takes the message of {}",
                Issuer(receive, marks),
                Message(send, marks)
            ),
            PlacedStep::Wake(call) => write!(f, "{}, goes on", Issuer(call, marks)),
            PlacedStep::WakeAny {
                call,
                index: _,
                request: None,
            } => write!(f, "{}, goes on", Issuer(call, marks)),
            PlacedStep::WakeAny {
                call,
                index: _,
                request: Some(request),
            } => {
                let (rank, by) = (Issuer(call, marks), MarkedCall(request.call, marks));
                write!(f, "{rank}, goes on by {by}")
            }
            PlacedStep::Release => write!(f, "all ranks leave the barrier"),
        }
    }
}

/// The step that decided, and the other.
#[derive(Clone, Copy)]
struct Steps<'s>(Deciding, Marks<'s>);

impl<'s> fmt::Display for Steps<'s> {
    fn fmt<W: fmt::Write>(&self, f: &mut fmt::Formatter<W>) -> fmt::Result {
        let Steps(deciding, marks) = *self;
        write!(f, "{}; ", Deed(deciding.taken, marks))?;
        match deciding.other_message() {
            Some(send) => write!(f, "with that of {}", Message(send, marks))?,
            None => write!(f, "if {} instead,", Deed(deciding.other, marks))?,
        }
        write!(f, " it need not hang or trap")
    }
}

/// Where it was decided how a run ends, as it is told of a script with these marks.
#[derive(Clone, Copy)]
pub struct MarkedBlame<'s>(pub PlacedBlame, pub Marks<'s>);

impl<'s> fmt::Display for MarkedBlame<'s> {
    fn fmt<W: fmt::Write>(&self, f: &mut fmt::Formatter<W>) -> fmt::Result {
        let MarkedBlame(placed, marks) = *self;
        match placed.blame {
            Blame::At(decided) => {
                write!(f, "decided at depth {}: ", decided.depth)?;
                match placed.deciding {
                    None => Ok(()),
                    Some(deciding) => write!(f, "{}", Steps(deciding, marks)),
                }
            }
            Blame::FromStart => write!(f, "decided from the start: every run hangs or traps"),
            Blame::OrEarlier(depth) => write!(
                f,
                "decided at depth {depth} or earlier: not all runs from there were counted"
            ),
            Blame::Open => write!(f, "not decided: not every run hangs or traps"),
            Blame::Unknown => write!(f, "not known: not all runs from there were counted"),
        }
    }
}
