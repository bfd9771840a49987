//! A source and a sink in memory, of known content, that fail at chosen calls.
ghost use Rattle.std.specs.Prelude.{◌≡◌, ◌==◌, ◌+◌, ◌-◌, ◌<◌, ◌≤◌, ◌↔◌, ℕ, List, [], Option, Some, Bool, false, length};
ghost use Rattle.std.specs.Prelude.{min, take, drop, vec_len, vec_capacity, IsErr, IsTrue, is_err, IfOk, OnErr, ◌++◌};
ghost use Rattle.std.specs.Prelude.{◌⊎◌, if◌then◌else◌};
ghost use Rattle.at_source.specs.Faults.{one_more};
ghost use Rattle.at_source.specs.Memory.{CallState, SourceState, SinkState, after_call, after_flush, fails_next};

use crate::bytes::{append, copy_prefix};
use crate::sink::Sink;
use crate::source::{Failed, Source};
use std::alloc::{AllocError, Global};
use std::marker::Model;

/// The calls of a device: the numbers of those that fail, how many were made and how many failed. A count stops at the
/// last u64.
#[derive(Drop)]
struct Calls {
    fails: Vec<u64>,
    made: u64,
    faults: u64,
}

impl Model for Calls {
    ghost Value = { CallState };

    ghost view = { λ c. record { fails = c.fails.items; made = c.made; faults = c.faults } };
}

impl Calls {
    fn new(fails: Vec<u64>) -> Calls
        ensures { result ≡ record { fails = fails.items; made = 0; faults = 0 } }
    {
        Calls {
            fails,
            made: 0,
            faults: 0,
        }
    }

    fn begin(&mut self) -> Result<(), Failed>
        ensures fails { IsErr result ↔ IsTrue (fails_next self.old) }
        ensures after { self.new ≡ after_call self.old (is_err result) }
        ensures later { self.old.faults ≤ self.new.faults }
    {
        let is_fault = self.fails.contains(&self.made);
        self.made = self.made.saturating_add(1);
        if is_fault {
            self.faults = self.faults.saturating_add(1);
            return Err(Failed);
        }
        Ok(())
    }

    /// Counts a fault that `begin` didn't know of.
    fn fault(&mut self)
        ensures after { self.new ≡ record self.old { faults = one_more self.old.faults } }
        ensures later { self.old.faults ≤ self.new.faults }
    {
        self.faults = self.faults.saturating_add(1);
    }
}

/// A source that gives the bytes of a list.
#[derive(Drop)]
pub struct MemSource {
    bytes: Vec<u8>,
    at: usize,
    most: usize,
    calls: Calls,
}

impl Model for MemSource {
    ghost Value = { SourceState };

    ghost view = { λ s. record { left = drop s.at s.bytes.items; most = s.most; calls = s.calls } };

    ghost invariant = { λ s. (s.at ≤ vec_len s.bytes) × (0 < s.most) };
}

impl MemSource {
    /// A source that gives `bytes`, at most `most` of them a read. Reads are counted from 0, and those whose numbers
    /// stand in `fails` fail.
    pub fn new(bytes: Vec<u8>, most: usize, fails: Vec<u64>) -> MemSource
        requires { 0 < most }
        ensures left { result.left ≡ bytes.items }
        ensures most { result.most ≡ most }
        ensures calls { result.calls ≡ record { fails = fails.items; made = 0; faults = 0 } }
    {
        MemSource {
            bytes,
            at: 0,
            most,
            calls: Calls::new(fails),
        }
    }
}

impl Source for MemSource {
    ghost left = { λ s. Some s.left };

    ghost faults = { λ s. s.calls.faults };

    fn read(&mut self, buf: &mut [u8]) -> Result<usize, Failed>
        // It fails at the chosen calls alone, and then gives nothing.
        ensures fails { IsErr result ↔ IsTrue (fails_next self.old.calls) }
        ensures unchanged { OnErr result (self.new.left ≡ self.old.left) }

        // Else it gives all that it may, at the beginning of `buf`.
        ensures count { IfOk result (λ k. k ≡ min (min self.old.most (length buf.old)) (length self.old.left)) }
        ensures prefix { IfOk result (λ k. self.old.left ≡ take k buf.new ++ self.new.left) }
        ensures rest { IfOk result (λ k. drop k buf.new ≡ drop k buf.old) }

        // The call is counted, and the limit is unchanged.
        ensures calls { self.new.calls ≡ after_call self.old.calls (is_err result) }
        ensures later { self.old.calls.faults ≤ self.new.calls.faults }
        ensures limit { self.new.most ≡ self.old.most }
        ensures positive { 0 < self.old.most }
    {
        self.calls.begin()?;
        let count = copy_prefix(&self.bytes[self.at..], buf, self.most);
        self.at += count;
        Ok(count)
    }
}

/// A sink that holds what is written, up to the room that was reserved for it.
#[derive(Drop)]
pub struct MemSink {
    bytes: Vec<u8>,
    room: usize,
    most: usize,
    is_flushed: bool,
    calls: Calls,
}

impl Model for MemSink {
    ghost Value = { SinkState };

    ghost view = { λ s. record {
      written = s.bytes.items;
      room = s.room;
      most = s.most;
      is_flushed = s.is_flushed;
      calls = s.calls;
    } };

    ghost invariant = { λ s. (vec_len s.bytes + s.room ≤ vec_capacity s.bytes) × (0 < s.most) };
}

impl MemSink {
    /// A sink with room for `room` bytes, which are reserved here, that takes at most `most` of them a write. The calls
    /// of `write` and `flush` are counted together from 0, and those whose numbers stand in `fails` fail.
    pub fn new(
        alloc: Global,
        room: usize,
        most: usize,
        fails: Vec<u64>,
    ) -> Result<MemSink, AllocError>
        requires { 0 < most }
        ensures written { IfOk result (λ s. s.written ≡ []) }
        ensures room { IfOk result (λ s. s.room ≡ room) }
        ensures most { IfOk result (λ s. s.most ≡ most) }
        ensures flushed { IfOk result (λ s. IsTrue s.is_flushed) }
        ensures calls { IfOk result (λ s. s.calls ≡ record { fails = fails.items; made = 0; faults = 0 }) }
    {
        Ok(MemSink {
            bytes: Vec::with_capacity(alloc, room)?,
            room,
            most,
            is_flushed: true,
            calls: Calls::new(fails),
        })
    }

    /// What was written so far.
    pub fn bytes(&self) -> &[u8]
        ensures { result.now ≡ self.now.written }
    {
        &self.bytes
    }
}

impl Sink for MemSink {
    ghost written = { λ s. Some s.written };

    ghost is_flushed = { λ s. s.is_flushed };

    ghost faults = { λ s. s.calls.faults };

    fn write(&mut self, piece: &[u8]) -> Result<usize, Failed>
        // It fails at the chosen calls, and where there is no room for a piece that isn't empty.
        ensures fails { IsErr result
            ↔ (IsTrue (fails_next self.old.calls) ⊎ ((self.old.room ≡ 0) × (0 < length piece.now))) }
        ensures unchanged { OnErr result
            ((self.new.written ≡ self.old.written) × (self.new.is_flushed ≡ self.old.is_flushed)) }

        // Else it takes all that it may.
        ensures count { IfOk result (λ k. k ≡ min (min self.old.most (length piece.now)) self.old.room) }
        ensures taken { IfOk result (λ k. self.new.written ≡ self.old.written ++ take k piece.now) }
        ensures flushed { IfOk result (λ k. self.new.is_flushed ≡ (if k == 0 then self.old.is_flushed else false)) }
        ensures room { self.new.room + length self.new.written ≡ self.old.room + length self.old.written }

        // The call is counted, and the limit is unchanged.
        ensures calls { self.new.calls ≡ after_call self.old.calls (is_err result) }
        ensures later { self.old.calls.faults ≤ self.new.calls.faults }
        ensures limit { self.new.most ≡ self.old.most }
        ensures positive { 0 < self.old.most }
    {
        self.calls.begin()?;
        let count = self.most.min(piece.len()).min(self.room);
        if count == 0 && !piece.is_empty() {
            self.calls.fault();
            return Err(Failed);
        }
        append(&mut self.bytes, &piece[..count]);
        self.room -= count;
        self.is_flushed = self.is_flushed && count == 0;
        Ok(count)
    }

    fn flush(&mut self) -> Result<(), Failed>
        // It fails at the chosen calls alone, and changes nothing else.
        ensures fails { IsErr result ↔ IsTrue (fails_next self.old.calls) }
        ensures after { self.new ≡ after_flush self.old (is_err result) }
        ensures later { self.old.calls.faults ≤ self.new.calls.faults }
    {
        self.calls.begin()?;
        self.is_flushed = true;
        Ok(())
    }
}
