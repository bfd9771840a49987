//! A text that is read from its front.
ghost use Rattle.std.specs.Prelude.{◌≡◌, ◌<◌, IfSome, not, position, true, false};
ghost use Rattle.std.specs.List.{list_all};
ghost use Rattle.at_script.specs.Bytes as bytes;
ghost use Rattle.at_script.specs.Words.{begins_identifier, continues_identifier};
ghost use Rattle.at_text.specs.Readers.{past, run, past_run, begins_run, begins_with, number_at, positive_at};
ghost use Rattle.at_text.specs.ReadValues.{begins_name, begins_item};
ghost use Rattle.at_text.specs.ReadLines.{begins_object};
ghost use Rattle.at_back.specs.Left.{left, kept, passed};

use crate::number::number_of;
use std::marker::Model;
use std::str;

/// What is left of a text. Contracts see its bytes.
#[derive(Drop)]
pub struct Cursor<'t> {
    rest: &'t [u8],
}

impl<'t> Model for Cursor<'t> {
    ghost use Rattle.std.specs.Prelude.{List, ℕ};

    ghost Value = { List ℕ };

    ghost view = { λ c. c.rest.now };
}

impl<'t> Cursor<'t> {
    /// The whole text is left.
    pub fn new(text: &'t [u8]) -> Cursor<'t>
        ensures { result ≡ text.now }
    {
        Cursor { rest: text }
    }

    /// What is left.
    pub fn rest(&self) -> &'t [u8]
        ensures { result.now ≡ self.now }
    {
        self.rest
    }

    /// Passes over the word, where it stands at the front. Otherwise nothing changes.
    pub(crate) fn past(&mut self, word: &[u8]) -> bool
        ensures word { kept result self.new ≡ past word.now self.old }
        ensures unchanged { result ≡ false → self.new ≡ self.old }
    {
        match self.rest.strip_prefix(word) {
            Some(rest) => {
                self.rest = rest;
                true
            }
            None => false,
        }
    }

    /// Passes over the word, which has to stand at the front.
    pub(crate) fn expect(&mut self, word: &[u8]) -> Option<()>
        ensures { passed result self.new ≡ past word.now self.old }
    {
        if self.past(word) { Some(()) } else { None }
    }

    /// Whether the byte stands at the front.
    pub(crate) fn begins_with(&self, byte: u8) -> bool
        ensures { result ≡ begins_with byte self.now }
    {
        begins_with(self.rest, byte)
    }

    /// Whether a letter, a digit or `_` stands at the front.
    pub(crate) fn begins_run(&self) -> bool
        ensures { result ≡ begins_run self.now }
    {
        match self.rest.split_first() {
            Some((first, _)) => continues_identifier(*first),
            None => false,
        }
    }

    /// Whether a blank and a name stand at the front.
    pub(crate) fn begins_item(&self) -> bool
        ensures { result ≡ begins_item self.now }
    {
        match self.rest.split_first() {
            Some((first, rest)) => *first == b' ' && begins_name(rest),
            None => false,
        }
    }

    /// Whether a blank and an object stand at the front.
    pub(crate) fn begins_object(&self) -> bool
        ensures { result ≡ begins_object self.now }
    {
        match self.rest.split_first() {
            Some((first, rest)) => *first == b' ' && begins_with(rest, b'#'),
            None => false,
        }
    }

    /// Whether a `:` follows the letters, digits and `_` at the front.
    pub(crate) fn wraps(&self) -> bool
        ensures { result ≡ begins_with bytes.colon (past_run self.now) }
    {
        let (_, rest) = split_run(self.rest);
        begins_with(rest, b':')
    }

    /// Takes the letters, digits and `_` at the front.
    pub(crate) fn run(&mut self) -> &'t str
        ensures word { result.now ≡ run self.old }
        ensures rest { self.new ≡ past_run self.old }
    {
        let (word, rest) = split_run(self.rest);
        self.rest = rest;
        unsafe { str::from_utf8_unchecked(word) }
    }

    /// Reads a number below the bound.
    #[tactic(auto, using(crate::proofs::Runs::run_again), unfolding(at_text::specs::Readers::number_at))]
    pub(crate) fn number(&mut self, bound: u64) -> Option<u64>
        ensures same { left result self.new ≡ number_at bound self.old }
        ensures below { IfSome result (λ n. n < bound) }
    {
        let number = number_of(self.run())?;
        if number < bound { Some(number) } else { None }
    }

    /// Reads a number from 1 on, below the bound.
    #[tactic(auto, unfolding(at_text::specs::Readers::passing))]
    pub(crate) fn positive(&mut self, bound: u64) -> Option<u64>
        ensures same { left result self.new ≡ positive_at bound self.old }
        ensures some { IfSome result (λ n. 0 < n) }
        ensures below { IfSome result (λ n. n < bound) }
    {
        let number = self.number(bound)?;
        if 0 < number { Some(number) } else { None }
    }
}

/// Whether a name or a number goes on with the byte.
fn continues_identifier(byte: u8) -> bool
    ensures { result ≡ continues_identifier byte }
{
    byte.is_ascii_alphanumeric() || byte == b'_'
}

/// Whether a name begins with the byte.
fn begins_identifier(byte: u8) -> bool
    ensures { result ≡ begins_identifier byte }
{
    byte.is_ascii_alphabetic() || byte == b'_'
}

fn begins_with(text: &[u8], byte: u8) -> bool
    ensures { result ≡ begins_with byte text.now }
{
    match text.split_first() {
        Some((first, _)) => *first == byte,
        None => false,
    }
}

fn begins_name(text: &[u8]) -> bool
    ensures { result ≡ begins_name text.now }
{
    match text.split_first() {
        Some((first, _)) => begins_identifier(*first),
        None => false,
    }
}

/// Where the first byte stands that is no letter, digit or `_`.
fn end_of_run(text: &[u8]) -> Option<usize>
    ensures { result ≡ position (λ byte. not (continues_identifier byte)) text.now }
{
    text.iter().position(|byte| !continues_identifier(*byte))
}

/// The letters, digits and `_` at the front, and what follows them.
fn split_run(text: &[u8]) -> (&[u8], &[u8])
    ensures word { result.0.now ≡ run text.now }
    ensures rest { result.1.now ≡ past_run text.now }
{
    match end_of_run(text) {
        Some(length) => (&text[..length], &text[length..]),
        None => (text, &[]),
    }
}
