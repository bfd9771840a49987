//! Replies to operations, and the answers that give a reply its place and its path.
use crate::list::ClassList;
use crate::number::{Class, Func, Name, Obj};
use crate::value::Value;

/// Which hook takes an operation over.
#[derive(Clone, Copy, Debug, PartialEq, Eq)]
pub enum HookKind {
    /// The getter of a property.
    Getter,
    /// The setter of a property.
    Setter,
    /// The deleter of a property.
    Deleter,
    /// `__get__` of an object used as a descriptor.
    DescGet,
    /// `__set__` of an object used as a descriptor.
    DescSet,
    /// `__delete__` of an object used as a descriptor.
    DescDel,
    /// `__getattr__` of the object's class.
    GetAttr,
}

/// What an operation replies. It was a write exactly where the reply is `Done` or `Made`; any other reply leaves the
/// world as it was.
#[derive(Drop, Debug)]
pub enum Reply {
    /// The write was done.
    Done,
    /// An object was made; with it, what `__init__` is in its class.
    Made(Obj, Option<Value>),
    /// The value that was read.
    Value(Value),
    /// A function bound to its first argument, an object or a class.
    Method(Func, Value),
    /// A hook is to be called: callee, receiver, other argument and value.
    Hook(HookKind, Value, Value, Value, Value),
    /// The order of a class.
    Order(ClassList),
    /// Nothing has the name, or an object that the operation names isn't made.
    NoAttr,
    /// The attribute is a property without a getter.
    NoGetter,
    /// The attribute can't be written: it is a property without a setter, or an object with `__delete__` and without
    /// `__set__`.
    NoSetter,
    /// The attribute can't be deleted: it is a property without a deleter, or an object with `__set__` and without
    /// `__delete__`.
    NoDeleter,
    /// A class that the operation names isn't made.
    NoClass,
    /// The class is made already.
    NameTaken,
    /// No base is given.
    EmptyBases,
    /// A base is given twice.
    Duplicate,
    /// The class would stand above itself.
    Cycle,
    /// The least of the classes, among those that would be made, that would have no order.
    NoOrder(Class),
    /// `object` can't be changed, nor have objects.
    Immutable,
    /// The class isn't in the order of the object's class.
    NotSubclass,
    /// There are as many objects as there may be.
    Full,
}

/// A place in the history of writes: how many writes there are up to it.
#[derive(Clone, Copy, Debug, PartialEq, Eq, PartialOrd, Ord)]
pub struct Place(pub u64);

/// Why a call didn't go the fast way, with the words that it loaded.
#[derive(Clone, Copy, Debug, PartialEq, Eq)]
pub enum Miss {
    /// The class has no tag.
    Untagged(Class),
    /// The cache entry has another tag or another name.
    Unlike(u16),
    /// The cache entry was being written: the entry and its odd sequence.
    Writing(u16, u64),
    /// The cache entry was written meanwhile: the entry and two of its sequences.
    Changed(u16, u64, u64),
    /// The object was being written: the object and its odd head.
    Odd(Obj, u64),
    /// The object's values are in a dictionary: the object and its head.
    Dict(Obj, u64),
    /// The class has no key of this name.
    Keyless(Class, Name),
    /// A word was changed meanwhile: its index and two loads of it.
    Moved(u32, u64, u64),
}

/// Which way a call went.
#[derive(Clone, Copy, Debug, PartialEq, Eq)]
pub enum Path {
    /// By the cache, without the lock of the classes: a read takes no lock at all, a write that of its object alone.
    Fast,
    /// Under locks, after a miss.
    Slow(Miss),
    /// Under locks, as operations of its kind always go.
    Locked,
}

/// A reply with its place in the history and the way that the call went.
#[derive(Drop, Debug)]
pub struct Answer {
    /// A write's own place, from 1, and for any other reply the number of the writes before it.
    pub place: Place,
    /// What the operation replied.
    pub reply: Reply,
    /// The way that the call went.
    pub path: Path,
}
