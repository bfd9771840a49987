//! What a word is: an identifier, free or not, and the name of an attribute.
ghost use Rattle.std.specs.Prelude.{◌≡◌, IsTrue};
ghost use Rattle.std.specs.List.{list_all};
ghost use Rattle.std.specs.Option.{option_copied};
ghost use Rattle.at_script.specs.Words.{begins_identifier, continues_identifier, is_identifier, is_short, is_object, is_register, is_reserved, is_free, is_system_name, is_access_name, is_method_name, is_open_name, is_attribute_name, identifier_of};
ghost use Rattle.at_script.specs.Views.{register_in};

use std::str;

/// How many bytes an identifier has at most.
const IDENTIFIER_MOST: usize = 32;

fn begins_identifier(byte: u8) -> bool
    ensures { result ≡ begins_identifier byte }
{
    byte.is_ascii_alphabetic() || byte == b'_'
}

fn continues_identifier(byte: u8) -> bool
    ensures { result ≡ continues_identifier byte }
{
    byte.is_ascii_alphanumeric() || byte == b'_'
}

fn all_continue_identifier(bytes: &[u8]) -> bool
    ensures { result ≡ list_all continues_identifier bytes.now }
{
    bytes.iter().all(|byte| continues_identifier(*byte))
}

/// Whether the word is a letter or `_`, and then letters, digits or `_`.
pub fn is_identifier(word: &[u8]) -> bool
    ensures { result ≡ is_identifier word.now }
{
    match word.split_first() {
        Some((first, rest)) => begins_identifier(*first) && all_continue_identifier(rest),
        None => false,
    }
}

/// The word, which is an identifier.
pub fn text_of(word: &[u8]) -> &str
    requires { IsTrue (is_identifier word.now) }
    ensures { result.now ≡ word.now }
{
    unsafe { str::from_utf8_unchecked(word) }
}

/// The word, where it is an identifier. It may still be too long, or reserved.
pub fn identifier_of(word: &[u8]) -> Option<&str>
    ensures { option_copied result ≡ identifier_of word.now }
{
    if is_identifier(word) {
        Some(text_of(word))
    } else {
        None
    }
}

/// Whether the identifier has no more bytes than one may have.
pub fn is_short(word: &str) -> bool
    ensures { result ≡ is_short word.now }
{
    word.len() <= IDENTIFIER_MOST
}

/// Whether the identifier is `object`.
pub fn is_object(word: &str) -> bool
    ensures { result ≡ is_object word.now }
{
    word == "object"
}

/// What a running function was given, and the result of the last read or call.
#[derive(Clone, Copy, PartialEq, Eq)]
pub enum Register {
    SelfArg,
    Arg,
    Other,
    It,
}

/// The register that the identifier names.
pub fn register_of(word: &str) -> Option<Register>
    ensures { result ≡ register_in word.now }
{
    if word == "self" {
        Some(Register::SelfArg)
    } else if word == "arg" {
        Some(Register::Arg)
    } else if word == "other" {
        Some(Register::Other)
    } else if word == "it" {
        Some(Register::It)
    } else {
        None
    }
}

/// Whether the identifier names a register.
fn is_register(word: &str) -> bool
    ensures { result ≡ is_register word.now }
{
    word == "self" || word == "arg" || word == "other" || word == "it"
}

/// Whether scripts use the identifier for something else than a name.
fn is_reserved(word: &str) -> bool
    ensures { result ≡ is_reserved word.now }
{
    word == "none" || is_register(word) || is_object(word)
}

/// Whether a script may give the identifier a meaning: it is short and isn't reserved.
pub fn is_free(word: &str) -> bool
    ensures { result ≡ is_free word.now }
{
    is_short(word) && !is_reserved(word)
}

/// Whether the word begins and ends with `__`.
fn is_system_name(word: &[u8]) -> bool
    ensures { result ≡ is_system_name word.now }
{
    word.starts_with(b"__") && word.ends_with(b"__")
}

fn is_access_name(word: &[u8]) -> bool
    ensures { result ≡ is_access_name word.now }
{
    word == b"__get__".as_slice()
        || word == b"__set__".as_slice()
        || word == b"__delete__".as_slice()
        || word == b"__getattr__".as_slice()
        || word == b"__init__".as_slice()
}

/// Whether the word is another special method that a script may name.
fn is_method_name(word: &[u8]) -> bool
    ensures { result ≡ is_method_name word.now }
{
    word == b"__len__".as_slice()
        || word == b"__bool__".as_slice()
        || word == b"__iter__".as_slice()
        || word == b"__next__".as_slice()
        || word == b"__enter__".as_slice()
        || word == b"__exit__".as_slice()
        || word == b"__contains__".as_slice()
        || word == b"__getitem__".as_slice()
}

/// Whether the word isn't a name of the language, or one that scripts may use.
fn is_open_name(word: &[u8]) -> bool
    ensures { result ≡ is_open_name word.now }
{
    !is_system_name(word) || is_access_name(word) || is_method_name(word)
}

/// Whether an attribute may be called so.
pub fn is_attribute_name(word: &str) -> bool
    ensures { result ≡ is_attribute_name word.now }
{
    is_free(word) && word != "mro" && is_open_name(word.as_bytes())
}
