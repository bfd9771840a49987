//! The words after a keyword, told apart by their form alone.
ghost use Rattle.std.specs.Prelude.{◌≡◌, nat_le, length};
ghost use Rattle.std.specs.Option.{option_map, option_copied};
ghost use Rattle.std.specs.List.{list_all};
ghost use Rattle.at_script.specs.Words as words_of_script;
ghost use Rattle.at_script.specs.Shapes as shapes;
ghost use Rattle.at_script.specs.Views.{both_now, written, words_left, first_and_words, first_and_second, place_and_value, first_and_place, first_and_value, both_and_given, first_place_and_given};

use crate::lines::{Words, halves};
use crate::literal::{Literal, value_of};
use crate::word::{identifier_of, is_identifier};
use at_value::Bases;

/// `C.x` or `R.x`: what stands before the dot, and the name of the attribute.
#[inline(always)]
fn attribute_of(word: &[u8]) -> Option<(&str, &str)>
    ensures { option_map both_now result ≡ shapes.attribute_of word.now }
{
    let (owner, name) = halves(b'.', word)?;
    Some((identifier_of(owner)?, identifier_of(name)?))
}

/// One identifier.
pub fn identifier(words: Words<'_>) -> Option<&str>
    ensures { option_copied result ≡ shapes.identifier (words_left words.entry) }
{
    identifier_of(words.one()?)
}

/// Two identifiers.
pub fn identifiers(words: Words<'_>) -> Option<(&str, &str)>
    ensures { option_map both_now result ≡ shapes.identifiers (words_left words.entry) }
{
    let (first, second) = words.two()?;
    Some((identifier_of(first)?, identifier_of(second)?))
}

/// An identifier, and one more or none.
pub fn identifier_or_two(mut words: Words<'_>) -> Option<(&str, Option<&str>)>
    ensures { option_map first_and_second result ≡ shapes.identifier_or_two (words_left words.entry) }
{
    let first = words.next()?;
    let Some(second) = words.next() else {
        return Some((identifier_of(first)?, None));
    };
    match words.next() {
        Some(_) => None,
        None => Some((identifier_of(first)?, Some(identifier_of(second)?))),
    }
}

/// Whether there are at most as many words as a class may have bases.
fn are_few(words: Words<'_>) -> bool
    ensures { result ≡ nat_le (length (words_left words.entry)) Bases.MOST }
{
    let mut left = Bases::MOST;
    for _ in words {
        if left == 0 {
            return false;
        }
        left -= 1;
    }
    true
}

fn are_identifiers(words: Words<'_>) -> bool
    ensures { result ≡ list_all words_of_script.is_identifier (words_left words.entry) }
{
    for word in words {
        if !is_identifier(word) {
            return false;
        }
    }
    true
}

/// An identifier, and the words after it, which are up to eight identifiers.
pub fn class_and_bases(mut words: Words<'_>) -> Option<(&str, Words<'_>)>
    ensures { option_map first_and_words result ≡ shapes.class_and_bases (words_left words.entry) }
{
    let class = identifier_of(words.next()?)?;
    if are_few(words) && are_identifiers(words) {
        Some((class, words))
    } else {
        None
    }
}

/// An attribute.
#[inline(always)]
pub fn attribute(words: Words<'_>) -> Option<(&str, &str)>
    ensures { option_map both_now result ≡ shapes.attribute (words_left words.entry) }
{
    attribute_of(words.one()?)
}

/// An attribute and a value.
pub fn attribute_and_value(words: Words<'_>) -> Option<((&str, &str), Literal<'_>)>
    ensures { option_map place_and_value result ≡ shapes.attribute_and_value (words_left words.entry) }
{
    let (place, value) = words.two()?;
    Some((attribute_of(place)?, value_of(value)?))
}

/// An identifier and an attribute.
pub fn identifier_and_attribute(words: Words<'_>) -> Option<(&str, (&str, &str))>
    ensures { option_map first_and_place result ≡ shapes.identifier_and_attribute (words_left words.entry) }
{
    let (class, place) = words.two()?;
    Some((identifier_of(class)?, attribute_of(place)?))
}

/// An identifier and a value.
pub fn identifier_and_value(words: Words<'_>) -> Option<(&str, Literal<'_>)>
    ensures { option_map first_and_value result ≡ shapes.identifier_and_value (words_left words.entry) }
{
    let (name, value) = words.two()?;
    Some((identifier_of(name)?, value_of(value)?))
}

/// A value.
pub fn value(words: Words<'_>) -> Option<Literal<'_>>
    ensures { option_map written result ≡ shapes.value (words_left words.entry) }
{
    value_of(words.one()?)
}

/// A value that may be left out.
fn given(mut words: Words<'_>) -> Option<Option<Literal<'_>>>
    ensures { option_map (λ value. option_map written value) result ≡ shapes.given (words_left words.entry) }
{
    let Some(word) = words.next() else {
        return Some(None);
    };
    match words.next() {
        Some(_) => None,
        None => Some(Some(value_of(word)?)),
    }
}

/// Two identifiers, and a value that may be left out.
pub fn identifiers_and_given(mut words: Words<'_>) -> Option<((&str, &str), Option<Literal<'_>>)>
    ensures { option_map both_and_given result ≡ shapes.identifiers_and_given (words_left words.entry) }
{
    let first = words.next()?;
    let second = words.next()?;
    Some((
        (identifier_of(first)?, identifier_of(second)?),
        given(words)?,
    ))
}

/// An attribute, and a value that may be left out.
pub fn attribute_and_given(mut words: Words<'_>) -> Option<((&str, &str), Option<Literal<'_>>)>
    ensures { option_map both_and_given result ≡ shapes.attribute_and_given (words_left words.entry) }
{
    let place = words.next()?;
    Some((attribute_of(place)?, given(words)?))
}

/// An identifier, an attribute, and a value that may be left out.
pub fn identifier_attribute_and_given(
    mut words: Words<'_>,
) -> Option<(&str, (&str, &str), Option<Literal<'_>>)>
    ensures { option_map first_place_and_given result ≡ shapes.identifier_attribute_and_given (words_left words.entry) }
{
    let class = words.next()?;
    let place = words.next()?;
    Some((identifier_of(class)?, attribute_of(place)?, given(words)?))
}
