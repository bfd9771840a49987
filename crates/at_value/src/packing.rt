//! Operations as four words of 64 bits, for tables of words that several threads share.
ghost use Rattle.std.specs.Prelude.{◌≡◌, ◌<◌, ◌≤◌, ◌^◌, ◌++◌, Some, None, option_map, ◌+◌, ◌↔◌, IfSome, IfNone, OnSome};
ghost use Rattle.std.specs.Prelude.{length, map, take, drop, min, [], ◌∷◌};
ghost use Rattle.at_value.specs.declared.operation.Op as ops;
ghost use Rattle.at_value.specs.Classes.{AreClasses};
ghost use Rattle.at_value.specs.Widths.{most_bases, operation_bits, base_bits, bases_a_word};
ghost use Rattle.at_value.specs.Fields.{number_of, FitWords};
ghost use Rattle.at_value.specs.Packing.{IsClass, IsBases, IsOp, heading_fields, row_fields, bases_fields};
ghost use Rattle.at_value.specs.Packing.{words_fields, words_of, HasWords};
ghost use Rattle.at_value.specs.ReadingOps.{classes_of_word, bases_from, heading_at, op_at};

use crate::bits::{joined, split};
use crate::list::Bases;
use crate::number::Class;
use crate::operation::Op;
use crate::word::{class_at, name_at, object_at, read_value, to_word};

// The kinds of operations, as word 0 has them.
const NEW_CLASS: u64 = 1;

const TYPE_SET: u64 = 2;

const TYPE_DEL: u64 = 3;

const SET_BASES: u64 = 4;

const NEW: u64 = 5;

const SET: u64 = 6;

const DEL: u64 = 7;

const SET_CLASS: u64 = 8;

const SHARE: u64 = 9;

const GET: u64 = 10;

const TYPE_GET: u64 = 11;

const SUPER: u64 = 12;

const SPECIAL: u64 = 13;

const CLASS_OF: u64 = 14;

const MRO: u64 = 15;

// In how many bits each field of word 0 stands, the kind from bit 0 on and each further one above it.
const OPERATION_BITS: u32 = 8;

const SUBJECT_BITS: u32 = 16;

const SECOND_BITS: u32 = 16;

const ATTRIBUTE_BITS: u32 = 16;

const BASE_BITS: u32 = 8;

const BASES_A_WORD: usize = 8;

const BASES_WORDS: usize = 3;

/// What word 0 of an operation has: its kind, the class or object that it is done to, a second number, and a name.
#[derive(Clone, Copy)]
struct Heading {
    kind: u64,
    subject: u64,
    second: u64,
    name: u64,
}

fn heading_word(kind: u64, subject: u16, second: u16, name: u16) -> u64
    requires { kind < 2 ^ operation_bits }
    ensures { result ≡ number_of (heading_fields kind subject second name) }
{
    let word = joined(u64::from(name), SECOND_BITS, u64::from(second));
    let word = joined(word, SUBJECT_BITS, u64::from(subject));
    joined(word, OPERATION_BITS, kind)
}

/// The bits above the fields aren't read.
fn heading_of(word: u64) -> Heading
    ensures { result ≡ heading_at word }
{
    let (kind, word) = split(word, OPERATION_BITS);
    let (subject, word) = split(word, SUBJECT_BITS);
    let (second, word) = split(word, SECOND_BITS);
    let (name, _) = split(word, ATTRIBUTE_BITS);
    Heading {
        kind,
        subject,
        second,
        name,
    }
}

fn word_of_row(row: &[Class]) -> u64
    requires { length row.now ≤ bases_a_word }
    ensures word { result ≡ number_of (row_fields base_bits row.now) }
    ensures range { AreClasses row.now }
{
    let mut word = 0;
    for i in (0..row.len()).rev() {
        word = joined(word, BASE_BITS, u64::from(row[i].number()));
    }
    word
}

fn row_of(bases: &[Class]) -> (&[Class], &[Class])
    ensures row { result.0.now ≡ take bases_a_word bases.now }
    ensures left { result.1.now ≡ drop bases_a_word bases.now }
{
    bases.split_at(bases.len().min(BASES_A_WORD))
}

fn words_of_bases(bases: &[Class]) -> [u64; BASES_WORDS]
    requires { length bases.now ≤ most_bases }
    ensures words { result ≡ map number_of (bases_fields bases.now) }
    ensures range { AreClasses bases.now }
{
    let (first, left) = row_of(bases);
    let (second, left) = row_of(left);
    let (third, _) = row_of(left);
    [word_of_row(first), word_of_row(second), word_of_row(third)]
}

fn read_row(bases: &mut Bases, count: usize, word: u64) -> Option<()>
    requires { length bases.old + count ≤ most_bases }
    ensures some { OnSome result
        (option_map (λ row. bases.old ++ row) (classes_of_word base_bits count word) ≡ Some bases.new) }
    ensures none { IfNone result (classes_of_word base_bits count word ≡ None) }
{
    let mut left = word;
    for _ in 0..count {
        let (base, above) = split(left, BASE_BITS);
        bases.push(class_at(base)?).ok()?;
        left = above;
    }
    Some(())
}

fn bases_of(count: u64, words: &[u64; BASES_WORDS]) -> Option<Bases>
    ensures { result ≡ bases_from count words.now }
{
    let mut left = count as usize;
    if left > Bases::MOST {
        return None;
    }
    let mut bases = Bases::none();
    for word in words {
        let here = left.min(BASES_A_WORD);
        read_row(&mut bases, here, *word)?;
        left -= here;
    }
    Some(bases)
}

/// The four words of an operation: its kind, the class or object that it is done to, a second class, object or number
/// of bases, and its name in word 0; its value in word 1, or its bases in the words after word 0. What an operation
/// doesn't have is 0. The layout is this project's own, and stands in `docs/DATA_MODEL.md`, "Words".
pub fn pack(op: &Op) -> [u64; 4]
    ensures words { result ≡ words_of op.now }
    ensures range { IsOp op.now }
{
    match op {
        Op::NewClass(c, bases) => packed_bases(NEW_CLASS, *c, bases),
        Op::TypeSet(c, n, v) => packed(TYPE_SET, c.number(), 0, n.number(), to_word(*v)),
        Op::TypeDel(c, n) => packed(TYPE_DEL, c.number(), 0, n.number(), 0),
        Op::SetBases(c, bases) => packed_bases(SET_BASES, *c, bases),
        Op::New(c) => packed(NEW, c.number(), 0, 0, 0),
        Op::Set(o, n, v) => packed(SET, o.number(), 0, n.number(), to_word(*v)),
        Op::Del(o, n) => packed(DEL, o.number(), 0, n.number(), 0),
        Op::SetClass(o, c) => packed(SET_CLASS, o.number(), c.number(), 0, 0),
        Op::Share(o, q) => packed(SHARE, o.number(), q.number(), 0, 0),
        Op::Get(o, n) => packed(GET, o.number(), 0, n.number(), 0),
        Op::TypeGet(c, n) => packed(TYPE_GET, c.number(), 0, n.number(), 0),
        Op::Super(k, o, n) => packed(SUPER, o.number(), k.number(), n.number(), 0),
        Op::Special(o, n) => packed(SPECIAL, o.number(), 0, n.number(), 0),
        Op::ClassOf(o) => packed(CLASS_OF, o.number(), 0, 0, 0),
        Op::Mro(c) => packed(MRO, c.number(), 0, 0, 0),
    }
}

fn packed(kind: u64, subject: u16, second: u16, name: u16, first: u64) -> [u64; 4]
    requires { kind < 2 ^ operation_bits }
    ensures { result ≡ number_of (heading_fields kind subject second name) ∷ first ∷ 0 ∷ 0 ∷ [] }
{
    [heading_word(kind, subject, second, name), first, 0, 0]
}

fn packed_bases(kind: u64, c: Class, bases: &Bases) -> [u64; 4]
    requires { kind < 2 ^ operation_bits }
    ensures words { result
        ≡ number_of (heading_fields kind c (length bases.now) 0) ∷ map number_of (bases_fields bases.now) }
    ensures range { IsClass c × IsBases bases.now }
{
    let heading = heading_word(kind, c.number(), bases.len() as u16, 0);
    let words = words_of_bases(bases.as_slice());
    [heading, words[0], words[1], words[2]]
}

/// Fields that the operation doesn't use may have anything.
fn read_op(heading: Heading, words: &[u64; BASES_WORDS]) -> Option<Op>
    ensures { result ≡ op_at heading words.now }
{
    let Heading {
        kind,
        subject,
        second,
        name,
    } = heading;
    Some(match kind {
        NEW_CLASS => Op::NewClass(class_at(subject)?, bases_of(second, words)?),
        TYPE_SET => Op::TypeSet(class_at(subject)?, name_at(name)?, read_value(words[0])?),
        TYPE_DEL => Op::TypeDel(class_at(subject)?, name_at(name)?),
        SET_BASES => Op::SetBases(class_at(subject)?, bases_of(second, words)?),
        NEW => Op::New(class_at(subject)?),
        SET => Op::Set(object_at(subject)?, name_at(name)?, read_value(words[0])?),
        DEL => Op::Del(object_at(subject)?, name_at(name)?),
        SET_CLASS => Op::SetClass(object_at(subject)?, class_at(second)?),
        SHARE => Op::Share(object_at(subject)?, object_at(second)?),
        GET => Op::Get(object_at(subject)?, name_at(name)?),
        TYPE_GET => Op::TypeGet(class_at(subject)?, name_at(name)?),
        SUPER => Op::Super(class_at(second)?, object_at(subject)?, name_at(name)?),
        SPECIAL => Op::Special(object_at(subject)?, name_at(name)?),
        CLASS_OF => Op::ClassOf(object_at(subject)?),
        MRO => Op::Mro(class_at(subject)?),
        _ => return None,
    })
}

/// The operation whose words these are, and none exactly where they are the words of no operation: where the kind is
/// none of the fifteen, a number is out of its range, there are more than eight bases, the word of the value is no
/// value's, or a bit is set that the operation doesn't use. The layout is that of `pack`.
pub fn unpack(w: [u64; 4]) -> Option<Op>
    ensures same { (op : ops.Op) → (result ≡ Some op) ↔ HasWords op w }
    ensures some { IfSome result (λ op. HasWords op w) }
    ensures none { IfNone result ((op : ops.Op) → ¬ HasWords op w) }
{
    let op = read_op(heading_of(w[0]), &[w[1], w[2], w[3]])?;
    if pack(&op) == w { Some(op) } else { None }
}

/// What is true of the words of operations: each number of an operation in range fits into its field, and the fields
/// into their word; and no two operations in range have the same words. It does nothing.
pub fn packing_laws()
    ensures fields { (o : ops.Op) → IsOp o → FitWords (words_fields o) }
    ensures one_each { (o p : ops.Op) → IsOp o → IsOp p → words_of o ≡ words_of p → o ≡ p }
{}
