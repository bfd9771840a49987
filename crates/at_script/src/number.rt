//! Numbers in decimal.
ghost use Rattle.std.specs.Prelude.{◌≡◌, true, Some, None, if◌then◌else◌};
ghost use Rattle.std.specs.Option.{option_map};
ghost use Rattle.std.specs.List.{list_all};
ghost use Rattle.at_script.specs.Words.{is_digit, is_positive, is_negative, is_number, number_of, is_in_range};

use std::str;

fn is_digit(byte: u8) -> bool
    ensures { result ≡ is_digit byte }
{
    b'0' <= byte && byte <= b'9'
}

fn are_digits(bytes: &[u8]) -> bool
    ensures { result ≡ list_all is_digit bytes.now }
{
    bytes.iter().all(|byte| is_digit(*byte))
}

/// Whether the bytes are digits, of which the first isn't `0`.
fn is_positive(digits: &[u8]) -> bool
    ensures { result ≡ is_positive digits.now }
{
    match digits.split_first() {
        Some((first, rest)) => is_digit(*first) && *first != b'0' && are_digits(rest),
        None => false,
    }
}

/// Whether the bytes are such digits after a `-`.
fn is_negative(word: &[u8]) -> bool
    ensures { result ≡ is_negative word.now }
{
    match word.split_first() {
        Some((first, rest)) => *first == b'-' && is_positive(rest),
        None => false,
    }
}

/// Whether the word is the decimal text of a number, of any size.
fn is_number(word: &[u8]) -> bool
    ensures { result ≡ is_number word.now }
{
    word == b"0".as_slice() || is_positive(word) || is_negative(word)
}

/// The decimal text of a number, of any size.
#[derive(Clone, Copy)]
pub struct Numeral<'a> {
    word: &'a [u8],
    ghost form: { is_number word.now ≡ true },
}

impl<'a> Numeral<'a> {
    ghost use Rattle.at_script.specs.Numerals.{number_in};

    /// The word, where it is the decimal text of a number.
    pub fn of(word: &'a [u8]) -> Option<Numeral<'a>>
        ensures { option_map number_in result ≡ number_of word.now }
    {
        if is_number(word) {
            Some(Numeral { word })
        } else {
            None
        }
    }

    /// The number, where it fits 32 bits.
    pub fn integer(&self) -> Option<i32>
        ensures { result ≡ (let z = number_in self.now in if is_in_range z then Some z else None) }
    {
        let text = str::from_utf8(self.word).ok()?;
        text.parse().ok()
    }
}
