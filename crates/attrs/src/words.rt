//! The words that the program is started with.
ghost use Rattle.std.specs.Prelude.{◌≡◌, ◌∷◌, [], drop, map, IfOk, IsOk, OnErr, string_bytes};
ghost use Rattle.std.specs.Vec.Iter.{into_iter_items};
ghost use Rattle.attrs.specs.Commands.{command_of, command_of_word};

use std::alloc::{AllocError, Global};
use std::env::Args;
use std::io::{self, ErrorKind};

/// What the program does.
#[derive(Clone, Copy, Debug, PartialEq, Eq)]
pub enum Command {
    /// Reads a script, runs it, and writes the transcript.
    Run,
    /// The same on the plain data model, one thread after another.
    Plain,
}

/// The command that the words after the program's name are, each compared whole; none where they are no command.
pub fn command_of(words: &[String]) -> Option<Command>
    ensures { result ≡ command_of (map string_bytes words.now) }
{
    if words.len() == 1 {
        command_of_word(words[0].as_bytes())
    } else {
        None
    }
}

fn command_of_word(word: &[u8]) -> Option<Command>
    ensures { result ≡ command_of_word word.now }
{
    if word == b"run".as_slice() {
        Some(Command::Run)
    } else if word == b"plain".as_slice() {
        Some(Command::Plain)
    } else {
        None
    }
}

/// The words after the program's name, which comes first among the arguments that the environment gives. Where they
/// can't be read, since one of them isn't UTF-8, there is one empty word in their place, which no command is.
pub fn given_words(alloc: Global, arguments: io::Result<Args>) -> Result<Vec<String>, AllocError>
    ensures after_name { IfOk arguments (λ all. IfOk result (λ words. words.items ≡ drop 1 (into_iter_items all))) }
    ensures no_text { OnErr arguments (IfOk result (λ words. map string_bytes words.items ≡ [] ∷ [])) }
{
    match arguments {
        Ok(all) => {
            let all: Vec<String> = all.collect(alloc)?;
            words_from(alloc, Ok(all))
        }
        Err(error) => words_from(alloc, Err(error)),
    }
}

/// The words after the program's name, of a list of arguments. Where the list could be read, this takes no memory.
pub fn words_from(
    alloc: Global,
    arguments: io::Result<Vec<String>>,
) -> Result<Vec<String>, AllocError>
    ensures after_name { IfOk arguments (λ all. IfOk result (λ words. words.items ≡ drop 1 all.items)) }
    ensures no_text { OnErr arguments (IfOk result (λ words. map string_bytes words.items ≡ [] ∷ [])) }
    ensures room { IsOk arguments → IsOk result }
{
    match arguments {
        Ok(mut arguments) => {
            if !arguments.is_empty() {
                let _name = arguments.remove(0);
            }
            Ok(arguments)
        }
        Err(error) if error.kind() == ErrorKind::OutOfMemory => Err(AllocError),
        Err(_) => Ok(vec![in alloc; String::new(alloc)]?),
    }
}
