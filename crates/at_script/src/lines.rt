//! The lines of a text, the words of a line, and the two sides of a byte in a word.
ghost use Rattle.std.specs.Prelude.{◌≡◌, ◌==◌, ◌+◌, ◌∷◌, ◌++◌, ◌<◌, length, position};
ghost use Rattle.std.specs.Option.{option_map, option_copied};
ghost use Rattle.std.specs.Iterator.{YieldsFirstRef, item_count};
ghost use Rattle.std.specs.List.{list_all, slice_split};
ghost use Rattle.at_script.specs.Lines.{lines_of, is_allowed, is_blank, words_in};
ghost use Rattle.at_script.specs.Pieces.{halves, one_part, two_parts};
ghost use Rattle.at_script.specs.Views.{parts_after, words_left, both_now};

use memchr::memchr;

fn is_allowed(byte: u8) -> bool
    ensures { result ≡ is_allowed byte }
{
    (b' ' <= byte && byte <= b'~') || byte == b'\n' || byte == b'\t' || byte == b'\r'
}

/// Whether a script may have these bytes. Each is looked at, so that many are tried at a time.
pub fn are_allowed(bytes: &[u8]) -> bool
    ensures { result ≡ list_all is_allowed bytes.now }
{
    let mut allowed = true;
    for byte in bytes {
        allowed &= is_allowed(*byte);
    }
    allowed
}

/// Whether the byte stands between words.
pub fn is_blank(byte: u8) -> bool
    ensures { result ≡ is_blank byte }
{
    byte == b' ' || byte == b'\n' || byte == b'\t' || byte == b'\r'
}

/// Where the byte first stands.
fn place_of(byte: u8, bytes: &[u8]) -> Option<usize>
    ensures { result ≡ position (λ b. b == byte) bytes.now }
{
    memchr(byte, bytes)
}

/// The first line with its newline, and the lines after it.
pub fn first_line(text: &[u8]) -> (&[u8], &[u8])
    requires { 0 < length text.now }
    ensures whole { text.now ≡ result.0.now ++ result.1.now }
    ensures lines { lines_of text.now ≡ result.0.now ∷ lines_of result.1.now }
    ensures more { 0 < length result.0.now }
    ensures same { length result.0.now + length result.1.now ≡ length text.now }
{
    match place_of(b'\n', text) {
        Some(i) => (&text[..i + 1], &text[i + 1..]),
        None => (text, &[]),
    }
}

/// Where the byte first stands in a word, which is short.
#[inline(always)]
fn place_in_word(byte: u8, word: &[u8]) -> Option<usize>
    ensures { result ≡ position (λ b. b == byte) word.now }
{
    word.iter().position(|other| *other == byte)
}

/// What stands before the first of these bytes and what stands after it, where there is one.
pub fn halves(byte: u8, word: &[u8]) -> Option<(&[u8], &[u8])>
    ensures { option_map both_now result ≡ halves byte word.now }
{
    match place_in_word(byte, word) {
        Some(i) => Some((&word[..i], &word[i + 1..])),
        None => None,
    }
}

/// The words of a line that are left, in order.
#[derive(Clone, Copy)]
pub struct Words<'a> {
    /// What stands after the blank behind the last word, where there was one.
    rest: Option<&'a [u8]>,
}

impl<'a> Words<'a> {
    /// The words of a line.
    pub fn new(line: &'a [u8]) -> Words<'a>
        ensures { words_left result ≡ words_in line.now }
    {
        Words { rest: Some(line) }
    }

    /// Whether no word is left.
    pub fn are_none(mut self) -> bool
        ensures { result ≡ (length (words_left self.entry) == 0) }
    {
        self.next().is_none()
    }

    /// The one word, where there is one.
    pub fn one(mut self) -> Option<&'a [u8]>
        ensures { option_copied result ≡ one_part (words_left self.entry) }
    {
        let word = self.next()?;
        match self.next() {
            Some(_) => None,
            None => Some(word),
        }
    }

    /// The two words, where there are two.
    pub fn two(mut self) -> Option<(&'a [u8], &'a [u8])>
        ensures { option_map both_now result ≡ two_parts (words_left self.entry) }
    {
        let first = self.next()?;
        Some((first, self.one()?))
    }
}

/// The bytes up to the first blank, and those after it where there is one.
fn cut(bytes: &[u8]) -> (&[u8], Option<&[u8]>)
    ensures { slice_split is_blank bytes.now ≡ result.0.now ∷ parts_after result.1 }
{
    match first_blank(bytes) {
        Some(i) => (&bytes[..i], Some(&bytes[i + 1..])),
        None => (bytes, None),
    }
}

fn first_blank(bytes: &[u8]) -> Option<usize>
    ensures { result ≡ position is_blank bytes.now }
{
    bytes.iter().position(|byte| is_blank(*byte))
}

impl<'a> Iterator for Words<'a> {
    type Item = &'a [u8];

    ghost next_gives = { YieldsFirstRef words_left };

    ghost remaining = { item_count words_left };

    fn next(&mut self) -> Option<&'a [u8]> {
        while let Some(bytes) = self.rest {
            let (word, rest) = cut(bytes);
            self.rest = rest;
            if !word.is_empty() {
                return Some(word);
            }
        }
        None
    }
}
