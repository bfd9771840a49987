//! Where in the grammar of scripts a line stands.
ghost use Rattle.std.specs.Prelude.{◌≡◌};
ghost use Rattle.at_script.specs.Stages.{may_stand_in, may_open, may_follow_function, may_follow_main, may_stand, end_cause};

use crate::fault::Cause;
use crate::keyword::Keyword;

/// A kind of block.
#[derive(Clone, Copy, Debug, PartialEq, Eq)]
pub enum BlockKind {
    Func,
    Main,
    Thread,
    Finally,
}

/// Where a line stands.
#[derive(Clone, Copy, Debug, PartialEq, Eq)]
pub enum Stage {
    /// It is the first.
    Header,
    /// After the header: a budget may come, or what may come after one.
    Opening,
    /// After the budget or a function: another function, or `main`.
    Functions,
    /// In a block, with a section open, or not.
    Within(BlockKind, bool),
    /// After `main` or a thread: another thread, `finally`, or the end of the text.
    Ending,
    /// After `finally`: the end of the text.
    Closed,
}

/// Whether a line with this keyword may stand in a block with a section open, or not.
fn may_stand_in(kind: BlockKind, section: bool, keyword: Keyword) -> bool
    ensures { result ≡ may_stand_in kind section keyword }
{
    match keyword {
        Keyword::Attrs
        | Keyword::Budget
        | Keyword::Func
        | Keyword::Main
        | Keyword::Thread
        | Keyword::Finally => false,
        Keyword::End | Keyword::Begin | Keyword::Checkpoint => !section,
        Keyword::Finish => section,
        Keyword::Return => kind == BlockKind::Func && !section,
        Keyword::Class
        | Keyword::Bases
        | Keyword::Put
        | Keyword::Cut
        | Keyword::New
        | Keyword::Set
        | Keyword::Del
        | Keyword::Get
        | Keyword::Turn
        | Keyword::Share
        | Keyword::Super
        | Keyword::Special
        | Keyword::ClassOf
        | Keyword::Mro
        | Keyword::Call
        | Keyword::CallSuper
        | Keyword::Let => true,
    }
}

fn may_open(keyword: Keyword) -> bool
    ensures { result ≡ may_open keyword }
{
    matches!(keyword, Keyword::Budget | Keyword::Func | Keyword::Main)
}

fn may_follow_function(keyword: Keyword) -> bool
    ensures { result ≡ may_follow_function keyword }
{
    matches!(keyword, Keyword::Func | Keyword::Main)
}

fn may_follow_main(keyword: Keyword) -> bool
    ensures { result ≡ may_follow_main keyword }
{
    matches!(keyword, Keyword::Thread | Keyword::Finally)
}

impl Stage {
    /// Whether a line with this keyword may stand here.
    pub fn may_stand(self, keyword: Keyword) -> bool
        ensures { result ≡ may_stand self keyword }
    {
        match self {
            Stage::Header => true,
            Stage::Opening => may_open(keyword),
            Stage::Functions => may_follow_function(keyword),
            Stage::Within(kind, section) => may_stand_in(kind, section, keyword),
            Stage::Ending => may_follow_main(keyword),
            Stage::Closed => false,
        }
    }

    /// What is wrong where the text ends here.
    pub fn end_cause(self) -> Option<Cause>
        ensures { result ≡ end_cause self }
    {
        match self {
            Stage::Header => Some(Cause::Header),
            Stage::Opening | Stage::Functions | Stage::Within(_, _) => Some(Cause::End),
            Stage::Ending | Stage::Closed => None,
        }
    }
}
