//! A page of text before a sink. It remembers a failed write, so that what prints goes on in straight lines.
ghost use Rattle.std.specs.Prelude.{◌≡◌, ◌+◌, ◌<◌, ◌≤◌, ◌⊎◌, ℕ, List, [], ◌∷◌, Option, length, true, false};
ghost use Rattle.std.specs.Prelude.{vec_capacity, IfOk, IsErr, IsTrue, OnOk, OnErr};
ghost use Rattle.std.specs.Io.KnownBytes.{append_known};
ghost use Rattle.at_source.specs.Faults.{Rose};
ghost use Rattle.at_source.specs.Page.{Held, Writes, Printed, empty_page, page_len, with_more};
ghost use Rattle.at_source.specs.Whole.{GrewByPrefix};

use crate::bytes::append;
use crate::sink::Sink;
use crate::source::Failed;
use crate::whole::send;
use std::alloc::{AllocError, Global};
use std::marker::Model;

/// How many bytes a page holds.
const PAGE_LEN: usize = 65_536;

/// A page of 65,536 bytes before a sink. Clauses see what it holds back, and whether a write failed.
#[derive(Drop)]
pub struct Page {
    bytes: Vec<u8>,
    failed: bool,
}

impl Model for Page {
    ghost Value = { Held };

    ghost view = { λ p. record { bytes = p.bytes.items; failed = p.failed } };

    ghost invariant = { λ p. vec_capacity p.bytes ≡ page_len };
}

impl Page {
    /// An empty page. All its memory is taken here.
    pub fn new(alloc: Global) -> Result<Page, AllocError>
        ensures { IfOk result (λ p. p ≡ empty_page) }
    {
        Ok(Page {
            bytes: Vec::with_capacity(alloc, PAGE_LEN)?,
            failed: false,
        })
    }

    /// Puts the bytes after those before, and sends the page where there is no room for them. Once a write failed,
    /// nothing more is sent, and `finish` says so.
    #[inline]
    pub fn write<K: Sink>(&mut self, out: &mut K, bytes: &[u8])
        ensures text { Writes (K.written out.old) self.old (K.written out.new) self.new bytes.now }
        ensures fits { length self.old.bytes + length bytes.now ≤ page_len
            → (out.new ≡ out.old) × (self.new ≡ with_more self.old bytes.now) }
        ensures no_fault { self.new.failed ≡ self.old.failed → K.faults out.new ≡ K.faults out.old }
        ensures later { K.faults out.old ≤ K.faults out.new }
        ensures cause { self.new.failed ≡ true → (self.old.failed ≡ true) ⊎ Rose (K.faults out.old) (K.faults out.new) }
    {
        if bytes.len() <= PAGE_LEN - self.bytes.len() {
            append(&mut self.bytes, bytes);
        } else {
            self.write_on(out, bytes);
        }
    }

    /// Puts a byte after those before, as `write` does.
    #[inline]
    pub fn write_byte<K: Sink>(&mut self, out: &mut K, byte: u8)
        ensures text { Writes (K.written out.old) self.old (K.written out.new) self.new (byte ∷ []) }
        ensures fits { length self.old.bytes < page_len
            → (out.new ≡ out.old) × (self.new ≡ with_more self.old (byte ∷ [])) }
        ensures no_fault { self.new.failed ≡ self.old.failed → K.faults out.new ≡ K.faults out.old }
        ensures later { K.faults out.old ≤ K.faults out.new }
        ensures cause { self.new.failed ≡ true → (self.old.failed ≡ true) ⊎ Rose (K.faults out.old) (K.faults out.new) }
    {
        if self.bytes.len() < PAGE_LEN {
            self.bytes.push_reserved(byte);
        } else {
            self.write_on(out, &[byte]);
        }
    }

    /// Sends what is held back, and flushes the sink. `Ok` says that all that was put on the page is written and
    /// flushed.
    pub fn finish<K: Sink>(mut self, out: &mut K) -> Result<(), Failed>
        // What the page held back was sent.
        ensures whole { OnOk result
            ((self.failed ≡ false) × (K.written out.new ≡ append_known (K.written out.old) self.bytes)) }
        ensures part { OnErr result (GrewByPrefix (K.written out.old) (K.written out.new) self.bytes) }
        ensures stopped { self.failed ≡ true
            → IsErr result × (K.written out.new ≡ K.written out.old) × (K.faults out.new ≡ K.faults out.old) }

        // So all the text that was put on the page since it was empty is written, or a prefix of it.
        ensures text { OnOk result ((start : Option (List ℕ)) (text : List ℕ)
            → Printed start (K.written out.old) self text → K.written out.new ≡ append_known start text) }
        ensures prefix { OnErr result ((start : Option (List ℕ)) (text : List ℕ)
            → Printed start (K.written out.old) self text → GrewByPrefix start (K.written out.new) text) }

        // All that was written is flushed.
        ensures flushed { OnOk result (IsTrue (K.is_flushed out.new)) }

        // The count of faults rises exactly where it fails, unless a write failed before, and never falls.
        ensures no_fault { OnOk result (K.faults out.new ≡ K.faults out.old) }
        ensures cause { OnErr result ((self.failed ≡ true) ⊎ Rose (K.faults out.old) (K.faults out.new)) }
        ensures later { K.faults out.old ≤ K.faults out.new }
    {
        self.send_held(out);
        if self.failed {
            return Err(Failed);
        }
        out.flush()
    }

    /// Sends the page, and puts the bytes on it where they fit, else sends them too.
    #[cold]
    fn write_on<K: Sink>(&mut self, out: &mut K, bytes: &[u8])
        ensures text { Writes (K.written out.old) self.old (K.written out.new) self.new bytes.now }
        ensures no_fault { self.new.failed ≡ self.old.failed → K.faults out.new ≡ K.faults out.old }
        ensures later { K.faults out.old ≤ K.faults out.new }
        ensures cause { self.new.failed ≡ true → (self.old.failed ≡ true) ⊎ Rose (K.faults out.old) (K.faults out.new) }
    {
        self.send_held(out);
        if self.failed {
            return;
        }
        if bytes.len() <= PAGE_LEN {
            append(&mut self.bytes, bytes);
        } else {
            self.failed = send(out, bytes).is_err();
        }
    }

    /// Sends what is held back, if no write failed before, and empties the page.
    fn send_held<K: Sink>(&mut self, out: &mut K)
        ensures text { Writes (K.written out.old) self.old (K.written out.new) self.new [] }
        ensures empty { self.new.bytes ≡ [] }
        ensures no_fault { self.new.failed ≡ self.old.failed → K.faults out.new ≡ K.faults out.old }
        ensures later { K.faults out.old ≤ K.faults out.new }
        ensures cause { self.new.failed ≡ true → (self.old.failed ≡ true) ⊎ Rose (K.faults out.old) (K.faults out.new) }
    {
        if !self.failed {
            self.failed = send(out, &self.bytes).is_err();
        }
        self.bytes.clear();
    }
}
