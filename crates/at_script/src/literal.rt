//! Values as a script writes them, told apart by their form alone.
ghost use Rattle.std.specs.Prelude.{◌≡◌};
ghost use Rattle.std.specs.Option.{option_map, option_copied};
ghost use Rattle.at_script.specs.Literals.{quoted_of, function_of, property_of, wrapped_of, value_of};
ghost use Rattle.at_script.specs.Views.{written};

use crate::lines::halves;
use crate::number::Numeral;
use crate::word::identifier_of;

/// A value whose names are still to be looked up.
#[derive(Clone, Copy)]
pub enum Literal<'a> {
    /// `none`.
    Nothing,
    /// The decimal text of a number, which may be too large.
    Number(Numeral<'a>),
    /// A text: an identifier between double quotes.
    Text(&'a str),
    /// The name of a class, a function or a variable, or `self`, `arg`, `other` or `it`.
    Word(&'a str),
    /// `static:F`.
    Static(&'a str),
    /// `classm:F`.
    ClassM(&'a str),
    /// `prop:P,P,P`: the functions that read, write and delete.
    Prop(Option<&'a str>, Option<&'a str>, Option<&'a str>),
}

/// The identifier between double quotes.
fn quoted_of(word: &[u8]) -> Option<&str>
    ensures { option_copied result ≡ quoted_of word.now }
{
    let (before, rest) = halves(b'"', word)?;
    let (text, after) = halves(b'"', rest)?;
    if before.is_empty() && after.is_empty() {
        identifier_of(text)
    } else {
        None
    }
}

/// A function of a property: an identifier, or `-` for none.
fn function_of(word: &[u8]) -> Option<Option<&str>>
    ensures { option_map option_copied result ≡ function_of word.now }
{
    if word == b"-".as_slice() {
        Some(None)
    } else {
        Some(Some(identifier_of(word)?))
    }
}

fn property_of(word: &[u8]) -> Option<Literal<'_>>
    ensures { option_map written result ≡ property_of word.now }
{
    let (get, rest) = halves(b',', word)?;
    let (set, del) = halves(b',', rest)?;
    Some(Literal::Prop(function_of(get)?, function_of(set)?, function_of(del)?))
}

/// `static:F`, `classm:F` or `prop:P,P,P`.
fn wrapped_of(word: &[u8]) -> Option<Literal<'_>>
    ensures { option_map written result ≡ wrapped_of word.now }
{
    let (kind, functions) = halves(b':', word)?;
    if kind == b"static".as_slice() {
        Some(Literal::Static(identifier_of(functions)?))
    } else if kind == b"classm".as_slice() {
        Some(Literal::ClassM(identifier_of(functions)?))
    } else if kind == b"prop".as_slice() {
        property_of(functions)
    } else {
        None
    }
}

/// The value of this form.
pub fn value_of(word: &[u8]) -> Option<Literal<'_>>
    ensures { option_map written result ≡ value_of word.now }
{
    if word == b"none".as_slice() {
        return Some(Literal::Nothing);
    }
    if let Some(name) = identifier_of(word) {
        return Some(Literal::Word(name));
    }
    if let Some(number) = Numeral::of(word) {
        return Some(Literal::Number(number));
    }
    if let Some(text) = quoted_of(word) {
        return Some(Literal::Text(text));
    }
    wrapped_of(word)
}
