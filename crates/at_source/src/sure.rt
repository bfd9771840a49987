//! A source and a sink that never fail.
ghost use Rattle.std.specs.Prelude.{◌≡◌, ◌==◌, ◌≤◌, ◌++◌, ℕ, List, None, Some, Bool, true, false, length, min, take};
ghost use Rattle.std.specs.Prelude.{drop, vec_len, IfOk, IsOk, IsTrue, Ok, if◌then◌else◌};

use crate::bytes::copy_prefix;
use crate::sink::Sink;
use crate::source::{Failed, Source};
use std::marker::Model;

/// A source that gives the bytes of a list, as many a read as there is room for.
#[derive(Drop)]
pub struct SureSource {
    bytes: Vec<u8>,
    at: usize,
}

impl Model for SureSource {
    ghost Value = { List ℕ };

    ghost view = { λ s. drop s.at s.bytes.items };

    ghost invariant = { λ s. s.at ≤ vec_len s.bytes };
}

impl SureSource {
    /// A source that gives `bytes`.
    pub fn new(bytes: Vec<u8>) -> SureSource
        ensures { result ≡ bytes.items }
    {
        SureSource { bytes, at: 0 }
    }
}

impl Source for SureSource {
    ghost left = { λ s. Some s };

    ghost faults = { λ _. 0 };

    fn read(&mut self, buf: &mut [u8]) -> Result<usize, Failed>
        // It never fails, and gives all that it may, at the beginning of `buf`.
        ensures count { result ≡ Ok (min (length buf.old) (length self.old)) }
        ensures prefix { IfOk result (λ k. self.old ≡ take k buf.new ++ self.new) }
        ensures rest { IfOk result (λ k. drop k buf.new ≡ drop k buf.old) }
    {
        let count = copy_prefix(&self.bytes[self.at..], buf, usize::MAX);
        self.at += count;
        Ok(count)
    }
}

/// A sink of unknown content that takes every piece whole and holds none. Clauses see whether it is flushed.
#[derive(Clone, Copy, Debug, PartialEq, Eq)]
pub struct SureSink {
    is_flushed: bool,
}

impl Model for SureSink {
    ghost Value = { Bool };

    ghost view = { λ s. s.is_flushed };

    ghost inverse = { λ b. record { is_flushed = b } };
}

impl SureSink {
    /// A sink that takes every piece.
    pub fn new() -> SureSink
        ensures { IsTrue result }
    {
        SureSink { is_flushed: true }
    }
}

impl Sink for SureSink {
    ghost written = { λ _. None };

    ghost is_flushed = { λ s. s };

    ghost faults = { λ _. 0 };

    fn write(&mut self, piece: &[u8]) -> Result<usize, Failed>
        // It never fails, and takes every piece whole.
        ensures count { result ≡ Ok (length piece.now) }
        ensures flushed { self.new ≡ (if length piece.now == 0 then self.old else false) }
    {
        self.is_flushed = self.is_flushed && piece.is_empty();
        Ok(piece.len())
    }

    fn flush(&mut self) -> Result<(), Failed>
        // It never fails.
        ensures ok { IsOk result }
        ensures flushed { IsTrue self.new }
    {
        self.is_flushed = true;
        Ok(())
    }
}
