//! Devices that are made to fail: for tests of what stands above a device.
ghost use Rattle.std.specs.Prelude.{◌≡◌, ◌+◌, ◌<◌, ◌≤◌, length, true, false, OnOk, OnErr, IfOk, ◌⊎◌};
ghost use Rattle.std.specs.Io.{ReadsAtMost, WritesAtMost};
ghost use Rattle.std.specs.Io.KnownBytes.{ReadConsumes, WriteAppends};
ghost use Rattle.mpd_model.specs.devices.Ends.{ends_of};
ghost use Rattle.mpd_model.specs.devices.Limits.{is_reached, limit_after, most_of};

use crate::device::{DeviceFault, Sink, Source};
use mpd_counter::Counter;
use std::cmp;

/// How far a device still goes before it fails in each call.
#[derive(Clone, Copy)]
pub enum Limit {
    /// This many calls.
    Calls(u64),
    /// This many bytes.
    Bytes(u64),
}

impl Limit {
    /// Nothing is left.
    fn is_reached(self) -> bool
        ensures { result ≡ is_reached self }
    {
        match self {
            Limit::Calls(left) => left == 0,
            Limit::Bytes(left) => left == 0,
        }
    }

    /// The limit after one call, which took or gave `count` bytes.
    fn after(self, count: usize) -> Limit
        ensures { result ≡ limit_after self count }
    {
        match self {
            Limit::Calls(left) => Limit::Calls(left.saturating_sub(1)),
            Limit::Bytes(left) => Limit::Bytes(left.saturating_sub(count as u64)),
        }
    }

    /// How many of `count` bytes one call may take or give.
    fn most_of(self, count: usize) -> usize
        ensures exact { result ≡ most_of self count }
        ensures most { result ≤ count }
        ensures some { is_reached self ≡ false → 0 < count → 0 < result }
    {
        match self {
            Limit::Calls(_) => count,
            Limit::Bytes(left) => cmp::min(left, count as u64) as usize,
        }
    }
}

/// A source that fails in each read once its limit is reached. A read that would pass a limit of bytes gives the bytes
/// up to it.
#[derive(Drop)]
pub struct FailingSource<S> {
    inner: S,
    limit: Limit,
    calls: Counter,
    failures: Counter,
    ends: Counter,
}

impl<S: Source> FailingSource<S> {
    /// The source `inner`, which fails in each read once the limit is reached.
    pub fn new(inner: S, limit: Limit) -> FailingSource<S>
        ensures seen { ⟦<FailingSource<S> as Source>⟧.seen result ≡ record { calls = 0; failures = 0; ends = 0; remaining = (S.seen inner).remaining } }
        ensures limit { result.limit ≡ limit }
    {
        FailingSource {
            inner,
            limit,
            calls: Counter::new(),
            failures: Counter::new(),
            ends: Counter::new(),
        }
    }
}

impl<S: Source> Source for FailingSource<S> {
    ghost seen = { λ s. record { calls = s.calls; failures = s.failures; ends = s.ends; remaining = (S.seen s.inner).remaining } };

    fn read(&mut self, buffer: &mut [u8]) -> Result<usize, DeviceFault>
        ensures bound { ReadsAtMost result buffer.new }
        ensures bytes { ReadConsumes (S.seen self.old.inner).remaining (S.seen self.new.inner).remaining result buffer.new }
        ensures counted { self.new.calls ≡ self.old.calls + 1 }
        ensures ok { OnOk result (self.new.failures ≡ self.old.failures) }
        ensures failed { OnErr result (self.new.failures ≡ self.old.failures + 1) }
        ensures ended { self.new.ends ≡ self.old.ends + ends_of result }
        ensures within { OnOk result ((is_reached self.old.limit ≡ false) × ((S.seen self.new.inner).failures ≡ (S.seen self.old.inner).failures)) }
        ensures most { IfOk result (λ n. n ≤ most_of self.old.limit (length buffer.new)) }
        ensures limit { IfOk result (λ n. self.new.limit ≡ limit_after self.old.limit n) }
        ensures stays { is_reached self.old.limit ≡ true → self.new.limit ≡ self.old.limit }
        ensures after { OnErr result (is_reached self.old.limit ≡ false → self.new.limit ≡ limit_after self.old.limit 0) }
        ensures refused { OnErr result ((is_reached self.old.limit ≡ true) ⊎ ((S.seen self.new.inner).failures ≡ (S.seen self.old.inner).failures + 1)) }
    {
        self.calls.tick();
        if self.limit.is_reached() {
            self.failures.tick();
            return Err(DeviceFault);
        }
        let (part, _) = buffer.split_at_mut(self.limit.most_of(buffer.len()));
        match self.inner.read(part) {
            Ok(count) => {
                self.limit = self.limit.after(count);
                if count == 0 {
                    self.ends.tick();
                }
                Ok(count)
            }
            Err(fault) => {
                self.limit = self.limit.after(0);
                self.failures.tick();
                Err(fault)
            }
        }
    }
}

/// A sink that fails in each write once its limit is reached. A write that would pass a limit of bytes takes the bytes
/// up to it.
#[derive(Drop)]
pub struct FailingSink<W> {
    inner: W,
    limit: Limit,
    calls: Counter,
    failures: Counter,
}

impl<W: Sink> FailingSink<W> {
    /// The sink `inner`, which fails in each write once the limit is reached.
    pub fn new(inner: W, limit: Limit) -> FailingSink<W>
        ensures seen { ⟦<FailingSink<W> as Sink>⟧.seen result ≡ record { calls = 0; failures = 0; contents = (W.seen inner).contents } }
        ensures limit { result.limit ≡ limit }
    {
        FailingSink {
            inner,
            limit,
            calls: Counter::new(),
            failures: Counter::new(),
        }
    }

    /// Returns the inner sink.
    pub fn into_inner(self) -> W
        ensures { result ≡ self.inner }
    {
        self.inner
    }
}

impl<W: Sink> Sink for FailingSink<W> {
    ghost seen = { λ s. record { calls = s.calls; failures = s.failures; contents = (W.seen s.inner).contents } };

    fn write(&mut self, piece: &[u8]) -> Result<usize, DeviceFault>
        ensures bound { WritesAtMost result piece.now }
        ensures some { 0 < length piece.now → IfOk result (λ n. 0 < n) }
        ensures bytes { WriteAppends (W.seen self.old.inner).contents (W.seen self.new.inner).contents result piece.now }
        ensures counted { self.new.calls ≡ self.old.calls + 1 }
        ensures ok { OnOk result (self.new.failures ≡ self.old.failures) }
        ensures failed { OnErr result (self.new.failures ≡ self.old.failures + 1) }
        ensures within { OnOk result ((is_reached self.old.limit ≡ false) × ((W.seen self.new.inner).failures ≡ (W.seen self.old.inner).failures)) }
        ensures most { IfOk result (λ n. n ≤ most_of self.old.limit (length piece.now)) }
        ensures limit { IfOk result (λ n. self.new.limit ≡ limit_after self.old.limit n) }
        ensures stays { is_reached self.old.limit ≡ true → self.new.limit ≡ self.old.limit }
        ensures after { OnErr result (is_reached self.old.limit ≡ false → self.new.limit ≡ limit_after self.old.limit 0) }
        ensures refused { OnErr result ((is_reached self.old.limit ≡ true) ⊎ ((W.seen self.new.inner).failures ≡ (W.seen self.old.inner).failures + 1)) }
    {
        self.calls.tick();
        if self.limit.is_reached() {
            self.failures.tick();
            return Err(DeviceFault);
        }
        let (part, _) = piece.split_at(self.limit.most_of(piece.len()));
        match self.inner.write(part) {
            Ok(count) => {
                self.limit = self.limit.after(count);
                Ok(count)
            }
            Err(fault) => {
                self.limit = self.limit.after(0);
                self.failures.tick();
                Err(fault)
            }
        }
    }
}
