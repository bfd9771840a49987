//! The words with which a line of a script begins.
ghost use Rattle.std.specs.Prelude.{◌≡◌};
ghost use Rattle.at_script.specs.Keywords.{keyword_of, named, of_length};

/// A word with which a line may begin: the header, what begins or ends a block, or a statement.
#[derive(Clone, Copy, Debug, PartialEq, Eq)]
pub enum Keyword {
    Attrs,
    Budget,
    Func,
    Main,
    Thread,
    Finally,
    End,
    Class,
    Bases,
    Put,
    Cut,
    New,
    Set,
    Del,
    Get,
    Turn,
    Share,
    Super,
    Special,
    ClassOf,
    Mro,
    Call,
    CallSuper,
    Let,
    Return,
    Begin,
    Finish,
    Checkpoint,
}

fn keyword_of_three(word: &[u8]) -> Option<Keyword>
    ensures { result ≡ named word.now (of_length 3) }
{
    if word == b"end".as_slice() {
        Some(Keyword::End)
    } else if word == b"put".as_slice() {
        Some(Keyword::Put)
    } else if word == b"cut".as_slice() {
        Some(Keyword::Cut)
    } else if word == b"new".as_slice() {
        Some(Keyword::New)
    } else if word == b"set".as_slice() {
        Some(Keyword::Set)
    } else if word == b"del".as_slice() {
        Some(Keyword::Del)
    } else if word == b"get".as_slice() {
        Some(Keyword::Get)
    } else if word == b"mro".as_slice() {
        Some(Keyword::Mro)
    } else if word == b"let".as_slice() {
        Some(Keyword::Let)
    } else {
        None
    }
}

fn keyword_of_four(word: &[u8]) -> Option<Keyword>
    ensures { result ≡ named word.now (of_length 4) }
{
    if word == b"func".as_slice() {
        Some(Keyword::Func)
    } else if word == b"main".as_slice() {
        Some(Keyword::Main)
    } else if word == b"turn".as_slice() {
        Some(Keyword::Turn)
    } else if word == b"call".as_slice() {
        Some(Keyword::Call)
    } else {
        None
    }
}

fn keyword_of_five(word: &[u8]) -> Option<Keyword>
    ensures { result ≡ named word.now (of_length 5) }
{
    if word == b"attrs".as_slice() {
        Some(Keyword::Attrs)
    } else if word == b"class".as_slice() {
        Some(Keyword::Class)
    } else if word == b"bases".as_slice() {
        Some(Keyword::Bases)
    } else if word == b"share".as_slice() {
        Some(Keyword::Share)
    } else if word == b"super".as_slice() {
        Some(Keyword::Super)
    } else if word == b"begin".as_slice() {
        Some(Keyword::Begin)
    } else {
        None
    }
}

fn keyword_of_six(word: &[u8]) -> Option<Keyword>
    ensures { result ≡ named word.now (of_length 6) }
{
    if word == b"budget".as_slice() {
        Some(Keyword::Budget)
    } else if word == b"thread".as_slice() {
        Some(Keyword::Thread)
    } else if word == b"return".as_slice() {
        Some(Keyword::Return)
    } else if word == b"finish".as_slice() {
        Some(Keyword::Finish)
    } else {
        None
    }
}

fn keyword_of_seven(word: &[u8]) -> Option<Keyword>
    ensures { result ≡ named word.now (of_length 7) }
{
    if word == b"finally".as_slice() {
        Some(Keyword::Finally)
    } else if word == b"special".as_slice() {
        Some(Keyword::Special)
    } else if word == b"classof".as_slice() {
        Some(Keyword::ClassOf)
    } else {
        None
    }
}

fn keyword_of_nine(word: &[u8]) -> Option<Keyword>
    ensures { result ≡ named word.now (of_length 9) }
{
    if word == b"callsuper".as_slice() {
        Some(Keyword::CallSuper)
    } else {
        None
    }
}

fn keyword_of_ten(word: &[u8]) -> Option<Keyword>
    ensures { result ≡ named word.now (of_length 10) }
{
    if word == b"checkpoint".as_slice() {
        Some(Keyword::Checkpoint)
    } else {
        None
    }
}

/// The keyword that a word is.
pub fn keyword_of(word: &[u8]) -> Option<Keyword>
    ensures { result ≡ keyword_of word.now }
{
    match word.len() {
        3 => keyword_of_three(word),
        4 => keyword_of_four(word),
        5 => keyword_of_five(word),
        6 => keyword_of_six(word),
        7 => keyword_of_seven(word),
        9 => keyword_of_nine(word),
        10 => keyword_of_ten(word),
        _ => None,
    }
}
