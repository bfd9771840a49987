//! The numbers of the words of the shared table.
ghost use Rattle.std.specs.Prelude.{◌≡◌, ◌<◌};
ghost use Rattle.at_value.specs.Widths as widths;
ghost use Rattle.at_view.specs.Counts as counts;
ghost use Rattle.at_view.specs.Words as names;

use at_value::{Class, Obj, PASSES};

/// Keys of a class.
pub const KEYS: usize = 8;

/// Inline values of an object.
pub const INLINE_VALUES: usize = 8;

/// Entries of the cache.
pub const ENTRIES: usize = 1_024;

/// Words of an intended operation.
pub const INTENT_WORDS: usize = 4;

/// Fields of a cache entry.
pub const ENTRY_FIELDS: usize = 3;

const ENTRY_WORDS: usize = ENTRY_FIELDS + 1;

const OBJECT_WORDS: usize = INLINE_VALUES + 2;

const FIRST_OWN: usize = 3;

const FIRST_INTENT: usize = FIRST_OWN + PASSES;

const FIRST_TAG: usize = FIRST_INTENT + INTENT_WORDS * PASSES;

const FIRST_KEY: usize = FIRST_TAG + Class::COUNT as usize;

const FIRST_ENTRY: usize = FIRST_KEY + KEYS * Class::COUNT as usize;

const FIRST_OBJECT: usize = FIRST_ENTRY + ENTRY_WORDS * ENTRIES;

/// How many words the table has.
pub const TABLE_WORDS: usize = FIRST_OBJECT + OBJECT_WORDS * Obj::COUNT as usize;

/// The count of writes.
pub const PLACE: usize = 0;

/// The lock of the types.
pub const TYPE_LOCK: usize = 1;

/// The sequence that each retirement raises.
pub const GLOBAL_SEQUENCE: usize = 2;

/// The sequence that the pass of this number has come to, 0 while it is offline.
pub fn own_sequence(pass: u8) -> usize
    requires { pass < counts.passes }
    ensures { result ≡ names.number_of (names.own_sequence pass) }
{
    FIRST_OWN + pass as usize
}

/// Word j of the operation that the pass of this number intends.
pub fn intent(pass: u8, j: u8) -> usize
    requires { (pass < counts.passes) × (j < counts.intent_words) }
    ensures { result ≡ names.number_of (names.intent pass j) }
{
    FIRST_INTENT + INTENT_WORDS * pass as usize + j as usize
}

/// The version tag of a class, 0 for none.
pub fn tag(c: Class) -> usize
    ensures { result ≡ names.number_of (names.tag c) }
{
    FIRST_TAG + c.number() as usize
}

/// Key i of a class: a name's number and 1, or 0.
pub fn key(c: Class, i: u8) -> usize
    requires { i < counts.keys }
    ensures { result ≡ names.number_of (names.key c i) }
{
    FIRST_KEY + KEYS * c.number() as usize + i as usize
}

/// The sequence of a cache entry, odd while it is written.
pub fn entry_sequence(entry: u16) -> usize
    requires { entry < counts.entries }
    ensures { result ≡ names.number_of (names.entry_sequence entry) }
{
    FIRST_ENTRY + ENTRY_WORDS * entry as usize
}

/// Field i of a cache entry: tag, name, and what was found.
pub fn entry_field(entry: u16, i: u8) -> usize
    requires { (entry < counts.entries) × (i < counts.entry_fields) }
    ensures { result ≡ names.number_of (names.entry_field entry i) }
{
    FIRST_ENTRY + ENTRY_WORDS * entry as usize + 1 + i as usize
}

/// The lock of an object's row.
pub fn row_lock(o: Obj) -> usize
    ensures { result ≡ names.number_of (names.row_lock o) }
{
    FIRST_OBJECT + OBJECT_WORDS * o.number() as usize
}

/// The head of an object.
pub fn head(o: Obj) -> usize
    ensures { result ≡ names.number_of (names.head o) }
{
    FIRST_OBJECT + OBJECT_WORDS * o.number() as usize + 1
}

/// Inline value i of an object: a value's word, or 0.
pub fn inline_value(o: Obj, i: u8) -> usize
    requires { i < counts.inline_values }
    ensures { result ≡ names.number_of (names.inline_value o i) }
{
    FIRST_OBJECT + OBJECT_WORDS * o.number() as usize + 2 + i as usize
}
