//! Why a call waits: the free calls that it could be paired with, and what holds each back.
ghost use Rattle.std.specs.Prelude.{◌≡◌, ◌++◌, ◌<◌, length, IfOk, OnOk, OnErr};
ghost use Rattle.mpd_model.specs.steps.World.{kind_at};
ghost use Rattle.mpd_model.specs.steps.Why.{earlier_send as earlier_send_on, earlier_recv as earlier_recv_on, holder as holder_on, why_send, why_from, why_recv, why_by, why as why_on};
ghost use Rattle.mpd_match.specs.Entries.{partner_entry};

use crate::board::Board;
use crate::kinds;
use mpd_counter::Counter;
use mpd_model::{CallId, CallKind};
use std::alloc::{AllocError, Global};
use std::marker::Model;

/// The free calls that fit a free call, by rank and then by number, each with the earlier call that
/// holds back their match: `None` if the two are eligible. Contracts see a list.
#[derive(Drop)]
pub struct Why {
    pub partners: Vec<(CallId, Option<CallId>)>,
}

impl Model for Why {
    ghost use Rattle.std.specs.Prelude.{Option, List};
    ghost use Rattle.mpd_model.specs.declared.step.CallId.{CallId};

    ghost Value = { List (CallId × Option CallId) };

    ghost view = { λ w. w.partners.items };
}

impl Board {
    /// The free calls that a free send or receive could be paired with, and what holds each back
    /// (MPI 4.0, section 3.5): an earlier free send of that sender that fits the receive, else an
    /// earlier free receive of that rank that fits the send. Of any other call the list is empty.
    /// `Err` means that memory for the list was refused, which happens only if it has an entry.
    pub fn why(&self, alloc: Global, call: CallId) -> Result<Why, AllocError>
        ensures why { IfOk result (λ w. w ≡ why_on self.now.board call) }
        ensures missing { OnErr result (0 < length (why_on self.now.board call)) }
    {
        let mut partners = Vec::new(alloc);
        if !self.is_free(call) {
            return Ok(Why { partners });
        }
        self.push_partners(call, &mut partners)?;
        Ok(Why { partners })
    }

    /// Adds the free calls that fit a free call.
    fn push_partners(
        &self,
        call: CallId,
        out: &mut Vec<(CallId, Option<CallId>)>,
    ) -> Result<(), AllocError>
        requires { call.rank < length self.now.board.calls }
        ensures ok { OnOk result (out.new.items ≡ out.old.items ++ why_by self.now.board call (kind_at self.now.board call)) }
        ensures missing { OnErr result (0 < length (why_by self.now.board call (kind_at self.now.board call))) }
    {
        match self.kind(call) {
            Some(CallKind::Send(send)) => self.push_recvs(call, send.to, out),
            Some(CallKind::Recv(_)) => self.push_sends(call, out),
            _ => Ok(()),
        }
    }

    /// Adds the free receives of a rank that fit the send. A rank that is not there has none.
    fn push_recvs(
        &self,
        send: CallId,
        rank: usize,
        out: &mut Vec<(CallId, Option<CallId>)>,
    ) -> Result<(), AllocError>
        requires { send.rank < length self.now.board.calls }
        ensures ok { OnOk result (out.new.items ≡ out.old.items ++ why_send self.now.board send rank) }
        ensures missing { OnErr result (0 < length (why_send self.now.board send rank)) }
    {
        if self.rank_count() <= rank {
            return Ok(());
        }
        let mut looks = Counter::new();
        let mut here = self.first_posted(rank, &mut looks);
        'walk: while let Some(index) = here {
            let recv = CallId { rank, index };
            self.push_partner(recv, send, recv, out)?;
            here = self.next_free(recv, &mut looks);
        }
        Ok(())
    }

    /// Adds the free sends of all ranks that fit the receive.
    fn push_sends(
        &self,
        recv: CallId,
        out: &mut Vec<(CallId, Option<CallId>)>,
    ) -> Result<(), AllocError>
        requires { recv.rank < length self.now.board.calls }
        ensures ok { OnOk result (out.new.items ≡ out.old.items ++ why_recv self.now.board recv) }
        ensures missing { OnErr result (0 < length (why_recv self.now.board recv)) }
    {
        let count = self.rank_count();
        for sender in 0..count {
            self.push_sends_from(sender, recv, out)?;
        }
        Ok(())
    }

    /// Adds the free sends of one rank that fit the receive.
    fn push_sends_from(
        &self,
        sender: usize,
        recv: CallId,
        out: &mut Vec<(CallId, Option<CallId>)>,
    ) -> Result<(), AllocError>
        requires sender { sender < length self.now.board.calls }
        requires receiver { recv.rank < length self.now.board.calls }
        ensures ok { OnOk result (out.new.items ≡ out.old.items ++ why_from self.now.board recv sender) }
        ensures missing { OnErr result (0 < length (why_from self.now.board recv sender)) }
    {
        let mut looks = Counter::new();
        let mut here = self.first_pending(sender, recv.rank, &mut looks);
        'walk: while let Some(index) = here {
            let send = CallId {
                rank: sender,
                index,
            };
            self.push_partner(send, send, recv, out)?;
            here = self.next_free(send, &mut looks);
        }
        Ok(())
    }

    /// Adds the partner, which is the send or the receive, if the two fit.
    fn push_partner(
        &self,
        partner: CallId,
        send: CallId,
        recv: CallId,
        out: &mut Vec<(CallId, Option<CallId>)>,
    ) -> Result<(), AllocError>
        requires sender { send.rank < length self.now.board.calls }
        requires receiver { recv.rank < length self.now.board.calls }
        ensures ok { OnOk result (out.new.items ≡ out.old.items ++ partner_entry self.now.board partner send recv) }
        ensures missing { OnErr result (0 < length (partner_entry self.now.board partner send recv)) }
    {
        if !kinds::is_fitting(self.kind(send), self.kind(recv), send.rank, recv.rank) {
            return Ok(());
        }
        out.push((partner, self.holder(send, recv)))?;
        Ok(())
    }

    /// What holds back the match of a send and a receive: an earlier send, else an earlier receive.
    fn holder(&self, send: CallId, recv: CallId) -> Option<CallId>
        requires sender { send.rank < length self.now.board.calls }
        requires receiver { recv.rank < length self.now.board.calls }
        ensures { result ≡ holder_on self.now.board send recv }
    {
        if let Some(earlier) = self.earlier_send(send, recv) {
            return Some(earlier);
        }
        self.earlier_recv(send, recv)
    }

    /// The earliest free send of the sender to the receive's rank that fits the receive, if one is
    /// before the send.
    fn earlier_send(&self, send: CallId, recv: CallId) -> Option<CallId>
        requires sender { send.rank < length self.now.board.calls }
        requires receiver { recv.rank < length self.now.board.calls }
        ensures { result ≡ earlier_send_on self.now.board send recv }
    {
        let mut looks = Counter::new();
        let index = self.first_send(send.rank, recv, &mut looks)?;
        if send.index <= index {
            return None;
        }
        Some(CallId {
            rank: send.rank,
            index,
        })
    }

    /// The earliest free receive of the receiver that fits the send, if one is before the receive.
    fn earlier_recv(&self, send: CallId, recv: CallId) -> Option<CallId>
        requires { recv.rank < length self.now.board.calls }
        ensures { result ≡ earlier_recv_on self.now.board send recv }
    {
        let mut looks = Counter::new();
        let index = self.first_recv(send, recv.rank, &mut looks)?;
        if recv.index <= index {
            return None;
        }
        Some(CallId {
            rank: recv.rank,
            index,
        })
    }
}
