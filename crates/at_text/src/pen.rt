//! A pen: a sink with a page before it, and the digits of numbers.
ghost use Rattle.std.specs.Prelude.{◌≡◌, [], ◌∷◌};
ghost use Rattle.std.specs.Fmt.{decimal, signed_decimal};
ghost use Rattle.at_text.specs.Prints.{Prints};

use at_source::{Page, Sink};
use itoa::Buffer;
use std::marker::Model;

/// A sink with a page before it, and room for the digits of a number. Clauses see the sink, what was written, how often
/// the sink failed, and what the page holds.
#[derive(Drop)]
pub struct Pen<'a, K: Sink> {
    out: &'a mut K,
    page: Page,
    digits: Buffer,
}

impl<'a, K: Sink> Model for Pen<'a, K> {
    ghost use Rattle.at_text.specs.Prints.{PenState};

    ghost Value = { PenState };

    ghost view = { λ p. record {
      sink = p.out.ghost_name;
      written = K.written p.out.now;
      faults = K.faults p.out.now;
      page = p.page;
    } };
}

impl<'a, K: Sink> Pen<'a, K> {
    /// A pen on this sink, with this page before it.
    pub fn new(out: &'a mut K, page: Page) -> Pen<'a, K>
        ensures sink { result.sink ≡ out.entry.ghost_name }
        ensures written { result.written ≡ K.written out.entry.now }
        ensures faults { result.faults ≡ K.faults out.entry.now }
        ensures page { result.page ≡ page }
    {
        Pen {
            out,
            page,
            digits: Buffer::new(),
        }
    }

    /// Prints the bytes.
    #[inline]
    pub fn write(&mut self, bytes: &[u8])
        ensures { Prints self.old self.new bytes.now }
    {
        self.page.write(self.out, bytes);
    }

    #[inline]
    fn write_byte(&mut self, byte: u8)
        ensures { Prints self.old self.new (byte ∷ []) }
    {
        self.page.write_byte(self.out, byte);
    }

    /// Prints a number.
    #[inline]
    pub fn number(&mut self, number: u64)
        ensures { Prints self.old self.new (decimal number) }
    {
        if number < 10 {
            self.write_byte(b'0' + number as u8);
        } else {
            self.page
                .write(self.out, self.digits.format(number).as_bytes());
        }
    }

    /// Prints a number that may be below zero.
    #[inline]
    pub fn signed(&mut self, number: i32)
        ensures { Prints self.old self.new (signed_decimal number) }
    {
        self.page
            .write(self.out, self.digits.format(number).as_bytes());
    }

    /// The sink and the page before it.
    pub fn into_page(self) -> (&'a mut K, Page)
        ensures sink { result.0.ghost_name ≡ self.entry.sink }
        ensures written { K.written result.0.now ≡ self.entry.written }
        ensures faults { K.faults result.0.now ≡ self.entry.faults }
        ensures page { result.1 ≡ self.entry.page }
    {
        let Pen {
            out,
            page,
            digits: _,
        } = self;
        (out, page)
    }
}
