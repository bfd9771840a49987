//! What a pass knows, in groups. No value of these types is made: contracts alone speak of them.
//!
//! Three ideas are behind the groups. The holder of a lock has a copy of each word that it alone may change, from the
//! moment at which it took the lock. A list whose first entry of a number counts is a map from numbers: what is new comes
//! in front. What was loaded without a lock is kept with the history of that moment, and says something as long as the
//! word is found unchanged.
use crate::mark::{Mark, Trail};
use at_value::{Limits, Op};
use std::collections::LinkedList;

/// What one pass has seen of the history, and which writes are its own: the part of a pass's view over which whole
/// events are said.
pub struct HistoryView {
    /// The birth number, which no other pass has, not even one that was taken in.
    pub birth: u64,
    /// The prefix of the history that it has seen, the first write first.
    pub seen: LinkedList<Op>,
    /// The places of the writes that it made itself, or that a view made which it has taken in; places count from 1.
    pub own: LinkedList<u64>,
}

/// Who the pass is.
pub struct Who {
    /// Not yet taken in by another pass.
    pub live: bool,
    /// The number of the pass, which no other live view has.
    pub number: u64,
    /// The limits of the table.
    pub limits: Limits,
    /// The birth numbers of the passes that were split off it, or off a pass that it took in, and were not taken in since.
    pub children: LinkedList<u64>,
}

/// What the last two passes that were joined had seen.
pub struct JoinView {
    pub first: LinkedList<Op>,
    pub second: LinkedList<Op>,
}

/// The write that the pass intends.
pub struct IntentView {
    /// The four words of the operation, as far as they were stored.
    pub words: LinkedList<u64>,
    /// A place below the limit was loaded since the pass's last write.
    pub fresh: bool,
}

/// A tag that was dropped, and the sequence that each pass must have come to before it is free.
pub struct LimboTag {
    pub tag: u64,
    pub goal: Option<u64>,
}

/// The lists that one holder of the lock of the types hands to the next.
pub struct TypeLists {
    /// Which numbers of passes are free.
    pub numbers: LinkedList<bool>,
    /// The birth number of the next pass.
    pub next_birth: u64,
    /// The free tags, in the order in which they are given, and the tags in limbo.
    pub pool: LinkedList<u64>,
    pub limbo: LinkedList<LimboTag>,
}

/// The words that the holder of the lock of the types alone may change: the tag of each class, the keys of each class,
/// and the global sequence.
pub struct TypesWords {
    pub tags: LinkedList<u64>,
    pub keys: LinkedList<LinkedList<u64>>,
    pub global: u64,
}

/// The words that the holder of a row alone may change: the head and the inline values of its object.
pub struct RowWords {
    pub head: u64,
    pub values: LinkedList<u64>,
}

/// What a pass knows of a lock.
pub struct Hold {
    pub held: bool,
    /// The history when it took the lock, or at its last write since: what the lock protects is still as it was then.
    pub since: LinkedList<Op>,
    /// How many writes it had seen when it took the lock.
    pub entered: u64,
}

/// The lock of the types, and what its holder has in place of the value that it may have out.
pub struct TypesView {
    pub hold: Hold,
    pub lists: TypeLists,
    /// Copies.
    pub words: TypesWords,
}

/// The lock of a row: that of an object and of the dictionary that was born with it.
pub struct RowHold {
    pub object: u64,
    pub hold: Hold,
}

/// Copies of the words of a row.
pub struct RowCopy {
    pub object: u64,
    pub words: RowWords,
}

/// The keys that a class is known to have; it may have more.
pub struct ClassKeys {
    pub class: u64,
    pub keys: LinkedList<u64>,
}

/// An inline value that was loaded, and the key of its index at that moment.
pub struct InlineCell {
    pub object: u64,
    pub index: u64,
    pub key: u64,
    pub word: u64,
}

/// A key that was loaded.
pub struct KeyCell {
    pub class: u64,
    pub index: u64,
    pub word: u64,
}

/// A head that was loaded, the history at that moment, and what was loaded since.
pub struct HeadLook {
    pub object: u64,
    pub word: u64,
    pub at: LinkedList<Op>,
    pub cells: LinkedList<InlineCell>,
    pub keys: LinkedList<KeyCell>,
}

/// A tag that the pass loaded since its last checkpoint, with the class and the history at the moment when it was given.
pub struct HeldTag {
    pub tag: u64,
    pub class: u64,
    pub at: LinkedList<Op>,
}

/// Quiescence: whether the pass is online, what it last loaded of the global sequence (0 for nothing), and the tags that
/// it may still use.
pub struct TagView {
    pub online: bool,
    pub global: u64,
    pub held: LinkedList<HeldTag>,
}

/// A field of a cache entry that was loaded.
pub struct FieldCell {
    pub field: u64,
    pub word: u64,
}

/// The cache entry that is being read: its even sequence, and the fields loaded since.
pub struct EntryRead {
    pub reading: bool,
    pub entry: u64,
    pub at: u64,
    pub fields: LinkedList<FieldCell>,
}

/// The cache entry that is being written: the sequence at which it was opened, and the fields as they are.
pub struct EntryWrite {
    pub writing: bool,
    pub entry: u64,
    pub base: u64,
    pub fields: LinkedList<u64>,
}

/// The number of a pass, and tags that it was found not to hold.
pub struct Scan {
    pub number: u64,
    pub tags: LinkedList<u64>,
}

/// A cache entry, and a tag that it was found to name, or was closed with.
pub struct Clear {
    pub entry: u64,
    pub tag: u64,
}

/// What the holder of the lock of the types has shown on the way to a tag that is free.
pub struct ScanView {
    pub scans: LinkedList<Scan>,
    pub clears: LinkedList<Clear>,
}

/// What a pass knows.
pub struct View {
    pub who: Who,
    pub history: HistoryView,
    pub joined: JoinView,
    pub intent: IntentView,
    pub types: TypesView,
    /// The locks of rows, and the copies of their words. The first entry of an object counts.
    pub holds: LinkedList<RowHold>,
    pub rows: LinkedList<RowCopy>,
    /// The first entry of a class counts.
    pub known: LinkedList<ClassKeys>,
    /// The last head loaded first.
    pub looks: LinkedList<HeadLook>,
    pub tags: TagView,
    pub read: EntryRead,
    pub write: EntryWrite,
    pub scan: ScanView,
    /// All its steps on words, the first first.
    pub trace: LinkedList<Mark>,
    /// The traces of the passes that it took in, with those that they had kept.
    pub kept: LinkedList<Trail>,
}
