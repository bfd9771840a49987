//! Std's input and output as a source and a sink.
ghost use Rattle.std.specs.Prelude.{◌≡◌, ◌==◌, ◌<◌, ◌≤◌, None, OnErr, true, false, length, IfOk, IsTrue, is_ok};
ghost use Rattle.std.specs.Prelude.{if◌then◌else◌};
ghost use Rattle.std.specs.Io.KnownBytes.{ReadConsumes, WriteAppends, Keeps};
ghost use Rattle.at_source.specs.Faults.{one_more};
ghost use Rattle.at_source.specs.Standard.{ReaderState, WriterState};

use crate::sink::Sink;
use crate::source::{Failed, Source};
use std::io::{Read, Write};
use std::marker::Model;

/// A reader of std as a source of unknown content. Each error is a fault, that of an interrupted call too.
#[derive(Drop)]
pub struct StdSource<I: Read> {
    faults: u64,
    input: I,
}

impl<I: Read> Model for StdSource<I> {
    ghost Value = { ReaderState };

    ghost view = { λ s. record { faults = s.faults; unread = I.remaining s.input } };
}

impl<I: Read> StdSource<I> {
    /// A source that reads `input`.
    pub fn new(input: I) -> StdSource<I>
        ensures faults { result.faults ≡ 0 }
        ensures unread { result.unread ≡ I.remaining input }
    {
        StdSource { faults: 0, input }
    }
}

impl<I: Read> Source for StdSource<I> {
    ghost left = { λ _. None };

    ghost faults = { λ s. s.faults };

    fn read(&mut self, buf: &mut [u8]) -> Result<usize, Failed>
        ensures most { IfOk result (λ k. k ≤ length buf.old) }

        // What the reader's contract says of the bytes holds here too.
        ensures bytes { ReadConsumes self.old.unread self.new.unread result buf.new }

        // The count of faults rises by one where this call fails, and else is unchanged.
        ensures count { self.new.faults ≡ (if is_ok result then self.old.faults else one_more self.old.faults) }
        ensures later { self.old.faults ≤ self.new.faults }
    {
        match self.input.read(buf) {
            Ok(count) => Ok(count),
            Err(_) => {
                self.faults = self.faults.saturating_add(1);
                Err(Failed)
            }
        }
    }
}

/// A writer of std as a sink of unknown content. Each error is a fault, that of an interrupted call too, and so is a
/// write that takes nothing of a piece that isn't empty.
#[derive(Drop)]
pub struct StdSink<O: Write> {
    faults: u64,
    is_flushed: bool,
    out: O,
}

impl<O: Write> Model for StdSink<O> {
    ghost Value = { WriterState };

    ghost view = { λ s. record { faults = s.faults; is_flushed = s.is_flushed; contents = O.contents s.out } };
}

impl<O: Write> StdSink<O> {
    /// A sink that writes to `out`, through which nothing was written yet.
    pub fn new(out: O) -> StdSink<O>
        ensures faults { result.faults ≡ 0 }
        ensures flushed { IsTrue result.is_flushed }
        ensures contents { result.contents ≡ O.contents out }
    {
        StdSink {
            faults: 0,
            is_flushed: true,
            out,
        }
    }

    fn fault(&mut self) -> Failed
        ensures count { self.new ≡ record self.old { faults = one_more self.old.faults } }
        ensures later { self.old.faults ≤ self.new.faults }
    {
        self.faults = self.faults.saturating_add(1);
        Failed
    }
}

impl<O: Write> Sink for StdSink<O> {
    ghost written = { λ _. None };

    ghost is_flushed = { λ s. s.is_flushed };

    ghost faults = { λ s. s.faults };

    fn write(&mut self, piece: &[u8]) -> Result<usize, Failed>
        ensures most { IfOk result (λ k. k ≤ length piece.now) }
        ensures some { 0 < length piece.now → IfOk result (λ k. 0 < k) }

        // What the writer's contract says of the bytes holds here too.
        ensures bytes { WriteAppends self.old.contents self.new.contents result piece.now }

        // A byte that is taken waits for a flush.
        ensures flushed { IfOk result (λ k. self.new.is_flushed ≡ (if k == 0 then self.old.is_flushed else false)) }
        ensures unchanged { OnErr result (self.new.is_flushed ≡ self.old.is_flushed) }

        // The count of faults rises by one where this call fails, and else is unchanged.
        ensures count { self.new.faults ≡ (if is_ok result then self.old.faults else one_more self.old.faults) }
        ensures later { self.old.faults ≤ self.new.faults }
    {
        match self.out.write(piece) {
            Ok(count) if count > 0 || piece.is_empty() => {
                self.is_flushed = self.is_flushed && count == 0;
                Ok(count)
            }
            _ => Err(self.fault()),
        }
    }

    fn flush(&mut self) -> Result<(), Failed>
        ensures bytes { Keeps self.old.contents self.new.contents }
        ensures flushed { self.new.is_flushed ≡ (if is_ok result then true else self.old.is_flushed) }

        // The count of faults rises by one where this call fails, and else is unchanged.
        ensures count { self.new.faults ≡ (if is_ok result then self.old.faults else one_more self.old.faults) }
        ensures later { self.old.faults ≤ self.new.faults }
    {
        match self.out.flush() {
            Ok(()) => {
                self.is_flushed = true;
                Ok(())
            }
            Err(_) => Err(self.fault()),
        }
    }
}
