//! The words of a transcript, each told once: printing writes them, and reading looks for them.
ghost use Rattle.std.specs.Prelude.{◌≡◌, ◌++◌, codes};
ghost use Rattle.at_text.specs.Lines.{hook_word, miss_word, path_item};
ghost use Rattle.at_text.specs.Tables.{op_word, reply_word, local_word, all_paths};

use at_value::{Class, HookKind, Miss, Name, Obj, Path};

/// The first line.
pub const HEADER: &[u8] = b"attrs transcript 1\n";

/// Before the number of the script's bytes.
pub const SCRIPT: &[u8] = b"script ";

/// Before the number of lines.
pub const LINES: &[u8] = b"lines ";

/// The line before the final namespaces.
pub const FINAL: &[u8] = b"final\n";

/// Before the number of an object of the final namespaces.
pub const OBJECT: &[u8] = b"object #";

/// The last line.
pub const END: &[u8] = b"end\n";

/// Between an operation and its reply.
pub const EQUALS: &[u8] = b" = ";

/// Before the word of a line that is no operation.
pub const LOCAL: &[u8] = b"- local ";

/// Before what `__init__` is in a new object's class.
pub const INIT: &[u8] = b" init ";

/// `None`.
pub const NONE: &[u8] = b"none";

/// Before the function of a staticmethod.
pub const STATIC: &[u8] = b"static:";

/// Before the function of a classmethod.
pub const CLASSM: &[u8] = b"classm:";

/// Before the functions of a property.
pub const PROP: &[u8] = b"prop:";

/// The word with which an operation begins.
#[derive(Clone, Copy)]
pub enum OpWord {
    Get,
    Set,
    New,
    Put,
    Class,
    Cget,
    Del,
    Special,
    Super,
    ClassOf,
    Mro,
    Cut,
    Bases,
    Turn,
    Share,
    Begin,
    Finish,
}

impl OpWord {
    /// All of them.
    pub const ALL: [OpWord; 17] = [
        OpWord::Get,
        OpWord::Set,
        OpWord::New,
        OpWord::Put,
        OpWord::Class,
        OpWord::Cget,
        OpWord::Del,
        OpWord::Special,
        OpWord::Super,
        OpWord::ClassOf,
        OpWord::Mro,
        OpWord::Cut,
        OpWord::Bases,
        OpWord::Turn,
        OpWord::Share,
        OpWord::Begin,
        OpWord::Finish,
    ];

    /// The word, with a blank after it where more follows.
    pub fn text(self) -> &'static [u8]
        ensures { result.now ≡ op_word self }
    {
        match self {
            OpWord::Get => b"get ",
            OpWord::Set => b"set ",
            OpWord::New => b"new ",
            OpWord::Put => b"put ",
            OpWord::Class => b"class ",
            OpWord::Cget => b"cget ",
            OpWord::Del => b"del ",
            OpWord::Special => b"special ",
            OpWord::Super => b"super ",
            OpWord::ClassOf => b"classof ",
            OpWord::Mro => b"mro ",
            OpWord::Cut => b"cut ",
            OpWord::Bases => b"bases ",
            OpWord::Turn => b"turn ",
            OpWord::Share => b"share ",
            OpWord::Begin => b"begin ",
            OpWord::Finish => b"finish",
        }
    }
}

/// The word with which a reply begins.
#[derive(Clone, Copy)]
pub enum ReplyWord {
    Value,
    Done,
    NoAttr,
    Method,
    Made,
    Hook,
    Order,
    Kept,
    Suspended,
    NoGetter,
    NoSetter,
    NoDeleter,
    NoClass,
    NameTaken,
    EmptyBases,
    Duplicate,
    Cycle,
    NoOrder,
    Immutable,
    NotSubclass,
    Full,
}

impl ReplyWord {
    /// All of them.
    pub const ALL: [ReplyWord; 21] = [
        ReplyWord::Value,
        ReplyWord::Done,
        ReplyWord::NoAttr,
        ReplyWord::Method,
        ReplyWord::Made,
        ReplyWord::Hook,
        ReplyWord::Order,
        ReplyWord::Kept,
        ReplyWord::Suspended,
        ReplyWord::NoGetter,
        ReplyWord::NoSetter,
        ReplyWord::NoDeleter,
        ReplyWord::NoClass,
        ReplyWord::NameTaken,
        ReplyWord::EmptyBases,
        ReplyWord::Duplicate,
        ReplyWord::Cycle,
        ReplyWord::NoOrder,
        ReplyWord::Immutable,
        ReplyWord::NotSubclass,
        ReplyWord::Full,
    ];

    /// The word, with a blank after it where one thing follows.
    pub fn text(self) -> &'static [u8]
        ensures { result.now ≡ reply_word self }
    {
        match self {
            ReplyWord::Value => b"value ",
            ReplyWord::Done => b"done",
            ReplyWord::NoAttr => b"noattr",
            ReplyWord::Method => b"method ",
            ReplyWord::Made => b"made ",
            ReplyWord::Hook => b"hook ",
            ReplyWord::Order => b"order",
            ReplyWord::Kept => b"kept",
            ReplyWord::Suspended => b"suspended ",
            ReplyWord::NoGetter => b"nogetter",
            ReplyWord::NoSetter => b"nosetter",
            ReplyWord::NoDeleter => b"nodeleter",
            ReplyWord::NoClass => b"noclass",
            ReplyWord::NameTaken => b"nametaken",
            ReplyWord::EmptyBases => b"emptybases",
            ReplyWord::Duplicate => b"duplicate",
            ReplyWord::Cycle => b"cycle",
            ReplyWord::NoOrder => b"noorder ",
            ReplyWord::Immutable => b"immutable",
            ReplyWord::NotSubclass => b"notsubclass",
            ReplyWord::Full => b"full",
        }
    }
}

/// The word of a line that is no operation.
#[derive(Clone, Copy)]
pub enum LocalWord {
    Depth,
    Budget,
    Kind,
    Unbound,
    NotCallable,
    Worn,
    Full,
}

impl LocalWord {
    /// All of them.
    pub const ALL: [LocalWord; 7] = [
        LocalWord::Depth,
        LocalWord::Budget,
        LocalWord::Kind,
        LocalWord::Unbound,
        LocalWord::NotCallable,
        LocalWord::Worn,
        LocalWord::Full,
    ];

    /// The word, with a blank after it where more follows.
    pub fn text(self) -> &'static [u8]
        ensures { result.now ≡ local_word self }
    {
        match self {
            LocalWord::Depth => b"depth",
            LocalWord::Budget => b"budget",
            LocalWord::Kind => b"kind",
            LocalWord::Unbound => b"unbound ",
            LocalWord::NotCallable => b"notcallable",
            LocalWord::Worn => b"worn ",
            LocalWord::Full => b"full ",
        }
    }
}

/// All kinds of hooks.
pub const HOOKS: [HookKind; 7] = [
    HookKind::Getter,
    HookKind::Setter,
    HookKind::Deleter,
    HookKind::DescGet,
    HookKind::DescSet,
    HookKind::DescDel,
    HookKind::GetAttr,
];

/// The word of a hook.
pub fn hook_text(kind: HookKind) -> &'static [u8]
    ensures { result.now ≡ hook_word kind }
{
    match kind {
        HookKind::Getter => b"getter",
        HookKind::Setter => b"setter",
        HookKind::Deleter => b"deleter",
        HookKind::DescGet => b"dget",
        HookKind::DescSet => b"dset",
        HookKind::DescDel => b"ddel",
        HookKind::GetAttr => b"getattr",
    }
}

/// The word of a miss, between blanks.
fn miss_text(miss: &Miss) -> &'static [u8]
    ensures { result.now ≡ codes " " ++ miss_word miss.now ++ codes " " }
{
    match miss {
        Miss::Untagged(_) => b" untagged ",
        Miss::Unlike(_) => b" unlike ",
        Miss::Writing(_, _) => b" writing ",
        Miss::Changed(_, _, _) => b" changed ",
        Miss::Odd(_, _) => b" odd ",
        Miss::Dict(_, _) => b" dict ",
        Miss::Keyless(_, _) => b" keyless ",
        Miss::Moved(_, _, _) => b" moved ",
    }
}

/// The word of the way that a call went, between blanks.
pub fn path_text(path: &Path) -> &'static [u8]
    ensures { result.now ≡ path_item path.now }
{
    match path {
        Path::Fast => b" fast ",
        Path::Slow(miss) => miss_text(miss),
        Path::Locked => b" locked ",
    }
}

/// The ways that a call may go, with 0 for each number that a miss carries.
pub fn paths() -> [Path; 10]
    ensures { result ≡ all_paths }
{
    let class = Class::object();
    let name = Name::descriptor_get();
    let object = Obj::new(0).unwrap();
    [
        Path::Locked,
        Path::Fast,
        Path::Slow(Miss::Untagged(class)),
        Path::Slow(Miss::Unlike(0)),
        Path::Slow(Miss::Writing(0, 0)),
        Path::Slow(Miss::Changed(0, 0, 0)),
        Path::Slow(Miss::Odd(object, 0)),
        Path::Slow(Miss::Dict(object, 0)),
        Path::Slow(Miss::Keyless(class, name)),
        Path::Slow(Miss::Moved(0, 0, 0)),
    ]
}
