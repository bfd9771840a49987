//! The trace of a pass: what it did to the words of the table, step by step.
use std::collections::LinkedList;

/// The kinds of atomic step. `SlotOut` and `SlotIn` touch no word, so no trace has them.
pub enum StepKind {
    /// A lock is taken, or found held: a compare and exchange.
    LockTake,
    /// A lock is given back.
    LockGive,
    /// The value of a slot in hand is taken out of it.
    SlotOut,
    /// A value is put into a slot in hand.
    SlotIn,
    /// A new pass splits off.
    Split,
    /// Another pass is taken in.
    Join,
    /// The count of writes is loaded.
    PlaceLoad,
    /// One of the four words of the operation that the pass intends is stored.
    IntentStore,
    /// A write takes the next place: a fetch and add.
    Commit,
    /// The tag of a class is loaded.
    TagLoad,
    /// A class gets a tag.
    TagGive,
    /// The tag of a class is dropped.
    TagDrop,
    /// The sequence of a cache entry is loaded.
    SequenceLoad,
    /// A field of a cache entry is loaded.
    FieldLoad,
    /// A cache entry is opened for writing: a compare and exchange.
    SequenceTake,
    /// A field of a cache entry is stored.
    FieldStore,
    /// A cache entry is closed.
    SequenceClose,
    /// The head of an object is loaded.
    HeadLoad,
    /// The head of an object is opened for writing.
    HeadOpen,
    /// The head of an object is closed.
    HeadClose,
    /// An inline value is loaded.
    InlineLoad,
    /// An inline value is stored.
    InlineStore,
    /// A key of a class is loaded.
    KeyLoad,
    /// A key is appended to a class.
    KeyAppend,
    /// A write takes the next place where no other took it before: a compare and exchange.
    CommitIf,
    /// The global sequence is loaded.
    GlobalLoad,
    /// The global sequence is raised: a fetch and add.
    Retire,
    /// The own sequence is set to what was loaded of the global one.
    Checkpoint,
    /// The pass goes online.
    Online,
    /// The pass goes offline.
    Offline,
    /// The own sequence of a pass is loaded.
    ScanLoad,
}

/// One atomic step on a word.
pub struct Mark {
    pub kind: StepKind,
    /// The number of the word in the table.
    pub word: u64,
    /// What the step found there: none for a store, a split and a join, which tell nobody.
    pub found: Option<u64>,
    /// What the step left there: none for a split and a join, which change no word.
    pub left: Option<u64>,
    /// For the load of a tag under the lock of the types: how many tags were free then.
    pub free: Option<u64>,
}

/// The whole trace of a pass that was taken in by another.
pub struct Trail {
    /// The birth number of that pass.
    pub birth: u64,
    pub marks: LinkedList<Mark>,
}
