//! Cuts what comes in pieces into frames.
ghost use Rattle.std.specs.Prelude.{◌≡◌, ◌<◌, None, Some, [], length, IfOk, MatchBool};
ghost use Rattle.mpd_frames.specs.Header.{IsHeader};
ghost use Rattle.mpd_frames.specs.Reading.{Adds, Ends, Holds, held_bytes, nothing_held};

use crate::fault::{FrameFault, StreamFault};
use crate::header::{body_length, is_ended};
use crate::limits::{BODY_ROOM, HEADER_MAX};
use std::alloc::{AllocError, Global};
use std::marker::Model;

/// What one byte more has made of a frame.
#[derive(Clone, Copy)]
pub(crate) enum Added {
    /// It isn't whole yet.
    Within,
    /// It is whole.
    Whole,
}

/// A frame that is read.
#[derive(Drop)]
pub(crate) struct Reader {
    header: Vec<u8>,
    // how many bytes the body has, as soon as the header has ended
    wanted: Option<usize>,
    body: Vec<u8>,
}

impl Model for Reader {
    ghost use Rattle.std.specs.Prelude.{◌≤◌, vec_capacity};
    ghost use Rattle.mpd_frames.specs.Reading.{Held};

    ghost Value = { Held };

    ghost view = { λ r. record { header = r.header.items; wanted = r.wanted; body = r.body.items } };

    ghost invariant = { λ r. (4096 ≤ vec_capacity r.header) × (65536 ≤ vec_capacity r.body) };
}

impl Reader {
    /// No frame has begun. An `Err` is want of memory.
    pub(crate) fn new(alloc: Global) -> Result<Reader, AllocError>
        ensures { IfOk result (λ r. r ≡ nothing_held) }
    {
        Ok(Reader {
            header: Vec::with_capacity(alloc, HEADER_MAX)?,
            wanted: None,
            body: Vec::with_capacity(alloc, BODY_ROOM)?,
        })
    }

    /// No frame has begun any more.
    pub(crate) fn start(&mut self)
        ensures { self.new ≡ nothing_held }
    {
        self.header.clear();
        self.wanted = None;
        self.body.clear();
    }

    /// The bytes of the body that have come.
    pub(crate) fn body(&self) -> &[u8]
        ensures { result.now ≡ self.now.body }
    {
        &self.body
    }

    /// Whether no byte of a frame has come.
    pub(crate) fn is_empty(&self) -> bool
        requires { Holds self.now }
        ensures { MatchBool result (held_bytes self.now ≡ []) (0 < length (held_bytes self.now)) }
    {
        self.header.is_empty()
    }

    /// One byte more.
    pub(crate) fn add(&mut self, byte: u8) -> Result<Added, StreamFault>
        requires { Holds self.old }
        ensures { Adds self.old byte self.new result }
    {
        match self.wanted {
            None => self.add_to_header(byte),
            Some(size) => self.add_to_body(byte, size),
        }
    }

    /// One byte more of the header.
    fn add_to_header(&mut self, byte: u8) -> Result<Added, StreamFault>
        requires held { Holds self.old }
        requires header { self.old.wanted ≡ None }
        ensures { Adds self.old byte self.new result }
    {
        self.header.push_reserved(byte);
        if is_ended(&self.header) {
            return self.end_header();
        }
        if self.header.len() >= HEADER_MAX {
            return Err(StreamFault::Frame(FrameFault::HeaderTooLong));
        }
        Ok(Added::Within)
    }

    /// The header has ended here.
    #[tactic(auto, using(crate::proofs::ReaderLemmas::ending))]
    fn end_header(&mut self) -> Result<Added, StreamFault>
        requires header { IsHeader self.old.header }
        requires wanted { self.old.wanted ≡ None }
        requires body { self.old.body ≡ [] }
        ensures { Ends self.old self.new result }
    {
        match body_length(&self.header) {
            Err(fault) => Err(StreamFault::Frame(fault)),
            Ok(0) => Ok(Added::Whole),
            Ok(size) => {
                self.wanted = Some(size);
                Ok(Added::Within)
            }
        }
    }

    /// One byte more of the body.
    #[tactic(auto, using(crate::proofs::ReaderLemmas::adding))]
    fn add_to_body(&mut self, byte: u8, size: usize) -> Result<Added, StreamFault>
        requires held { Holds self.old }
        requires body { self.old.wanted ≡ Some size }
        ensures { Adds self.old byte self.new result }
    {
        match self.body.push(byte) {
            Ok(()) => {}
            Err(_) => return Err(StreamFault::BodyMemory),
        }
        if self.body.len() < size {
            Ok(Added::Within)
        } else {
            Ok(Added::Whole)
        }
    }
}
