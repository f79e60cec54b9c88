//! Tags of free sends, marked in places that senders share, so that a receive which no send of its source can fit is passed over
//! without a walk along that source's line.
ghost use Rattle.std.specs.Prelude.{◌≡◌, ℕ, ◌<◌, true, length};
ghost use Rattle.mpd_model.specs.steps.World.{call_id, kind_at, is_pending};
ghost use Rattle.mpd_model.specs.steps.Why.{first_in};
ghost use Rattle.mpd_model.specs.runs.Decisions.{is_named_match};
ghost use Rattle.mpd_match.specs.Picked.{picked_with, picked_at};
ghost use Rattle.mpd_match.specs.Tags as tags;
ghost use Rattle.mpd_match.specs.Tags.{tag_place, sent_tag as tag_in, marked, Covers};

use crate::board::Board;
use mpd_counter::Counter;
use mpd_model::{CallId, CallKind, RANKS_MAX, Step};

/// How many places there are for the tags of all senders: as many as there are tags.
const PLACES: usize = 32_768;

/// How far apart one tag of two senders is placed. Tags below 128 of 16 senders stay apart, also if
/// there are few words.
const APART: usize = 2_176;

/// How many places a word has, one in each bit.
const WORD_PLACES: usize = 64;

/// How many words there are if a rank has few free receives. Places that are 2,048 apart share a
/// bit there.
const FEW_WORDS: usize = 32;

/// How many words there are if it may have many: enough for all places.
const MANY_WORDS: usize = 512;

/// A rank may have many free receives if it has at least this many calls from its first free
/// receive on.
const MANY: usize = 128;

/// The place of a tag of a sender. No two tags of one sender share a place.
#[inline(always)]
fn place_of(sender: usize, tag: usize) -> usize
    ensures { result ≡ tag_place sender tag }
{
    (tag % PLACES + sender % RANKS_MAX * APART) % PLACES
}

/// Marks a place. If there are few words, it is marked for all places that share it.
#[inline(always)]
fn mark(marks: &mut [u64], place: usize)
    requires { 0 < length marks.old }
    ensures { marks.new ≡ marked marks.old place }
{
    let word = place / WORD_PLACES % marks.len();
    marks[word] |= 1u64 << (place % WORD_PLACES);
}

/// Whether a place is marked.
#[inline(always)]
fn is_marked(marks: &[u64], place: usize) -> bool
    requires { 0 < length marks.now }
    ensures { result ≡ tags.is_marked marks.now place }
{
    let word = place / WORD_PLACES % marks.len();
    (marks[word] >> (place % WORD_PLACES)) & 1 == 1
}

/// The tag of a send.
#[inline(always)]
fn sent_tag(kind: Option<CallKind>) -> usize
    ensures { result ≡ tag_in kind }
{
    match kind {
        Some(CallKind::Send(send)) => send.tag,
        _ => 0,
    }
}

/// Whether both are named, and the place of this tag of this sender is not marked.
#[inline(always)]
fn is_unseen_by(source: Option<usize>, tag: Option<usize>, marks: &[u64]) -> bool
    requires { 0 < length marks.now }
    ensures { result ≡ tags.is_unseen_by source tag marks.now }
{
    match (source, tag) {
        (Some(sender), Some(tag)) => !is_marked(marks, place_of(sender, tag)),
        _ => false,
    }
}

/// Whether it is a receive that names source and tag, whose place is not marked.
#[inline(always)]
fn is_unseen(kind: Option<CallKind>, marks: &[u64]) -> bool
    requires { 0 < length marks.now }
    ensures { result ≡ tags.is_unseen kind marks.now }
{
    match kind {
        Some(CallKind::Recv(recv)) => is_unseen_by(recv.from, recv.tag, marks),
        _ => false,
    }
}

impl Board {
    /// Marks the tag of each free send of the sender to the receiver.
    #[tactic(auto, using(crate::proofs::Tags::marking))]
    #[inline(always)]
    fn mark_tags(&self, sender: usize, receiver: usize, marks: &mut [u64])
        requires sender { sender < length self.now.board.calls }
        requires receiver { receiver < length self.now.board.calls }
        requires words { 0 < length marks.old }
        ensures words { length marks.new ≡ length marks.old }
        ensures marked { (i : ℕ) → is_pending self.now.board sender receiver i ≡ true → tags.is_marked marks.new (tag_place sender (tag_in (kind_at self.now.board (call_id sender i)))) ≡ true }
        ensures kept { (n : ℕ) → tags.is_marked marks.old n ≡ true → tags.is_marked marks.new n ≡ true }
    {
        let mut looks = Counter::new();
        let mut here = self.first_pending(sender, receiver, &mut looks);
        'walk: while let Some(index) = here {
            let send = CallId {
                rank: sender,
                index,
            };
            mark(marks, place_of(sender, sent_tag(self.kind(send))));
            here = self.next_free(send, &mut looks);
        }
    }

    /// Marks the tags of all free sends to the receiver.
    #[inline(always)]
    fn mark_all(&self, receiver: usize, marks: &mut [u64])
        requires receiver { receiver < length self.now.board.calls }
        requires words { 0 < length marks.old }
        ensures words { length marks.new ≡ length marks.old }
        ensures covers { Covers self.now.board receiver marks.new }
    {
        let count = self.rank_count();
        for sender in 0..count {
            self.mark_tags(sender, receiver, marks);
        }
    }

    /// The match of a receive that names its source, if one is enabled, found without a walk if no
    /// send of its tag is marked.
    #[tactic(auto, using(crate::proofs::Tags::seeing))]
    #[inline(always)]
    fn named_match_by(&self, recv: CallId, marks: &[u64]) -> Option<Step>
        requires words { 0 < length marks.now }
        requires covers { Covers self.now.board recv.rank marks.now }
        ensures { result ≡ first_in (picked_with is_named_match self.now.board recv) }
    {
        if is_unseen(self.kind(recv), marks) {
            return None;
        }
        self.named_match(recv)
    }

    /// The first match of the receiver's receives that name their source, if the tags of all free
    /// sends to it are marked. Its free receives are walked.
    #[inline(always)]
    fn named_match_past(&self, receiver: usize, marks: &[u64]) -> Option<Step>
        requires receiver { receiver < length self.now.board.calls }
        requires words { 0 < length marks.now }
        requires covers { Covers self.now.board receiver marks.now }
        ensures { result ≡ first_in (picked_at is_named_match self.now.board receiver) }
    {
        let mut looks = Counter::new();
        let mut here = self.first_posted(receiver, &mut looks);
        'walk: while let Some(index) = here {
            let recv = CallId {
                rank: receiver,
                index,
            };
            let found = self.named_match_by(recv, marks);
            if found.is_some() {
                return found;
            }
            here = self.next_free(recv, &mut looks);
        }
        None
    }

    /// The first match of the receiver's receives that name their source, by few words, which are
    /// cleared quickly.
    fn named_match_of_few(&self, receiver: usize) -> Option<Step>
        requires { receiver < length self.now.board.calls }
        ensures { result ≡ first_in (picked_at is_named_match self.now.board receiver) }
    {
        let mut marks = [0; FEW_WORDS];
        self.mark_all(receiver, &mut marks);
        self.named_match_past(receiver, &marks)
    }

    /// The first match of the receiver's receives that name their source, by words for all places, so that no two tags of one
    /// sender are taken for one.
    fn named_match_of_many(&self, receiver: usize) -> Option<Step>
        requires { receiver < length self.now.board.calls }
        ensures { result ≡ first_in (picked_at is_named_match self.now.board receiver) }
    {
        let mut marks = [0; MANY_WORDS];
        self.mark_all(receiver, &mut marks);
        self.named_match_past(receiver, &marks)
    }

    /// Whether a rank may have so many free receives that words for all places are worth clearing,
    /// by its calls from the first of them on. The answer changes the time taken, and nothing that
    /// is found.
    fn may_have_many_posted(&self, receiver: usize) -> bool
        requires { receiver < length self.now.board.calls }
    {
        let mut looks = Counter::new();
        let Some(first) = self.first_posted(receiver, &mut looks) else {
            return false;
        };
        self.call_count(receiver).saturating_sub(first) >= MANY
    }

    /// The first match of the receiver's receives that name their source. Its free receives are walked, and the free sends to it
    /// once beforehand.
    pub(crate) fn named_match_among(&self, receiver: usize) -> Option<Step>
        requires { receiver < length self.now.board.calls }
        ensures { result ≡ first_in (picked_at is_named_match self.now.board receiver) }
    {
        if self.may_have_many_posted(receiver) {
            return self.named_match_of_many(receiver);
        }
        self.named_match_of_few(receiver)
    }
}
