//! `Types`: what is kept of classes, objects, passes and tags under the lock of the types.
ghost use Rattle.std.specs.Prelude.{◌≡◌, ◌+◌, ◌<◌, ◌≤◌, ◌↔◌, ℕ, nat_lt, IsTrue, IsOk, IsSome, IfOk, OnOk, OnErr, IfSome, IfNone, All, Contains, false, is_some, length, position, slice_get, slice_index_or, slice_set, true};
ghost use Rattle.std.specs.Option.{option_copied};
ghost use Rattle.at_value.specs.Widths as widths;
ghost use Rattle.at_value.specs.Pairs.{value_at};
ghost use Rattle.at_value.specs.declared.operation.Op.TheVariants as ops;
ghost use Rattle.at_value.specs.declared.reply.Reply as reply;
ghost use Rattle.at_model.specs.World as world;
ghost use Rattle.at_model.specs.Step.{is_in_order};
ghost use Rattle.at_types.specs.Lookups.{found_in, found_after};
ghost use Rattle.at_types.specs.Subclasses.{IsSubclassWalk, AreClosedBelow, IsBelow};
ghost use Rattle.at_types.specs.Tags as tags;
ghost use Rattle.at_types.specs.ClassSteps.{plan_reply};
ghost use Rattle.at_types.specs.Memory.{is_early, changes_no_order};
ghost use Rattle.at_types.specs.Types.{IsStepped, IsReplyTo, IsTypes, opened, is_class_write, has_objects, has_classes, with_object, with_number, with_tags};

use crate::classes::Classes;
use crate::tags::{KeptBy, LimboRow, TagCounts, TagPool};
use at_value::{Bases, Class, ClassList, Name, Obj, Op, PASSES, Reply, Value};
use std::alloc::{AllocError, Global};
use std::marker::Model;

/// The classes with their stored orders and the tree of subclasses, the count of the objects, the numbers that no pass
/// has, and the pool of tags. The classes and objects stand for each world that has these classes and as many objects:
/// the replies and look-ups are those of the data model in it.
///
/// Contracts see the rows of the classes, the count of objects, whether each number of a pass is free, and the pool.
#[derive(Drop)]
pub struct Types {
    classes: Classes,
    objects: u16,
    numbers: [bool; PASSES],
    tags: TagPool,
}

impl Model for Types {
    ghost use Rattle.std.specs.Prelude.{◌≤◌};
    ghost use Rattle.at_value.specs.Widths as widths;
    ghost use Rattle.at_types.specs.Types.{TypesState};

    ghost Value = { TypesState };

    ghost view = { λ t. record {
      classes = t.classes;
      objects = t.objects;
      numbers = t.numbers;
      tags = t.tags;
    } };

    ghost invariant = { λ t. t.objects ≤ widths.objects };
}

impl Types {
    /// The class `object` alone, no object, each number of a pass free, and the tags from 1 to this number, all free. It
    /// takes the memory of the pool, of limbo and of the list of classes; later only rows, orders, subclasses and names
    /// take memory.
    pub fn new(alloc: Global, tags: u16) -> Result<Types, AllocError>
        ensures { IfOk result (λ types. types ≡ opened tags) }
    {
        Ok(Types {
            classes: Classes::new(alloc)?,
            objects: 0,
            numbers: [true; PASSES],
            tags: TagPool::new(alloc, tags)?,
        })
    }

    /// What is true of every `Types`: there is a row for each class number, each class that is made has an order, there
    /// are at most 4,096 objects and 64 numbers of passes, and the counts of tags are true. It does nothing.
    pub fn invariant(&self)
        ensures { IsTypes self.now }
    {
        self.classes.invariant();
        self.tags.invariant();
        let _: &[bool] = &self.numbers;
    }

    /// `class c(bases)`. The refusals are tried in this order: `NoClass` for a base that isn't made, `NameTaken`,
    /// `EmptyBases`, `Duplicate`, `NoOrder`. Where it is refused, and where memory runs out, nothing changes; memory may
    /// run out before `NoOrder` is known.
    ///
    /// After the Python language reference, "Custom classes"; orders after Barrett and others, "A Monotonic Superclass
    /// Linearization for Dylan" (1996).
    pub fn define(&mut self, c: Class, bases: &Bases) -> Result<Reply, AllocError>
        ensures ok { IfOk result (IsStepped (ops.NewClass c bases.now) self.old self.new) }
        ensures err { OnErr result (self.new ≡ self.old) }
        ensures early { (refusal : reply.Reply) → IsReplyTo (ops.NewClass c bases.now) self.old refusal
            → IsTrue (is_early refusal) → IsOk result }
    {
        self.classes.define(c, bases)
    }

    /// `c.n = v`, in the class's own namespace. Refused with `NoAttr` for an object as value that isn't made, then
    /// `NoClass`, then `Immutable` for `object`. Where it is refused, and where memory runs out, nothing changes. It
    /// takes memory only for a name that isn't there.
    pub fn put(&mut self, c: Class, n: Name, v: Value) -> Result<Reply, AllocError>
        ensures ok { IfOk result (IsStepped (ops.TypeSet c n v) self.old self.new) }
        ensures err { OnErr result (self.new ≡ self.old) }
        ensures early { (refusal : reply.Reply) → IsReplyTo (ops.TypeSet c n v) self.old refusal
            → IsTrue (is_early refusal) → IsOk result }
        ensures there { IsSome (value_at n (world.own_of (world.row_of self.old.classes c))) → IsOk result }
    {
        match self.put_reply(c, &v) {
            Reply::Done => {
                self.classes.put(c, n, v)?;
                Ok(Reply::Done)
            }
            refusal => Ok(refusal),
        }
    }

    /// `del c.n`, in the class's own namespace. Refused with `NoClass`, then `Immutable` for `object`, then `NoAttr` for
    /// a name that isn't there. Where it is refused nothing changes.
    pub fn cut(&mut self, c: Class, n: Name) -> Reply
        ensures { IsStepped (ops.TypeDel c n) self.old self.new result }
    {
        match self.cut_reply(c, n) {
            Reply::Done => {
                self.classes.cut(c, n);
                Reply::Done
            }
            refusal => refusal,
        }
    }

    /// `c.__bases__ = bases`. The refusals are tried in this order: `NoClass` for c or a base that isn't made, `Immutable`
    /// for `object`, `EmptyBases`, `Duplicate`, `Cycle` where c stands in the order of a base, `NoOrder` with the least
    /// class that would have no order. All new orders are computed before one is replaced, so where it is refused, and
    /// where memory runs out, nothing changes; memory may run out before `NoOrder` is known.
    pub fn rebase(&mut self, c: Class, bases: &Bases) -> Result<Reply, AllocError>
        ensures ok { IfOk result (IsStepped (ops.SetBases c bases.now) self.old self.new) }
        ensures err { OnErr result (self.new ≡ self.old) }
        ensures early { (refusal : reply.Reply) → IsReplyTo (ops.SetBases c bases.now) self.old refusal
            → IsTrue (is_early refusal) → IsOk result }
    {
        self.classes.rebase(c, bases)
    }

    /// The reply that `define`, `put`, `cut` or `rebase` would give to the operation. It takes memory for new orders
    /// alone.
    pub fn would(&self, op: &Op) -> Result<Reply, AllocError>
        requires { IsTrue (is_class_write op.now) }
        ensures reply { IfOk result (IsReplyTo op.now self.now) }
        ensures names { IsTrue (changes_no_order op.now) → IsOk result }
        ensures early { (refusal : reply.Reply) → IsReplyTo op.now self.now refusal
            → IsTrue (is_early refusal) → IsOk result }
    {
        match op {
            Op::NewClass(c, bases) => Ok(reply_of(self.classes.plan_class(*c, bases)?)),
            Op::TypeSet(c, _, v) => Ok(self.put_reply(*c, v)),
            Op::TypeDel(c, n) => Ok(self.cut_reply(*c, *n)),
            Op::SetBases(c, bases) => Ok(reply_of(self.classes.plan_bases(*c, bases)?)),
            Op::New(_)
            | Op::Set(_, _, _)
            | Op::Del(_, _)
            | Op::SetClass(_, _)
            | Op::Share(_, _)
            | Op::Get(_, _)
            | Op::TypeGet(_, _)
            | Op::Super(_, _, _)
            | Op::Special(_, _)
            | Op::ClassOf(_)
            | Op::Mro(_) => unreachable!(),
        }
    }

    /// The name's value in the first class of c's order that has the name itself; none where no class of it has, and
    /// where c isn't made. It walks the stored order, and takes no memory.
    pub fn find(&self, c: Class, n: Name) -> Option<Value>
        ensures { result ≡ found_in self.now.classes c n }
    {
        self.classes.find(c, n)
    }

    /// The name's value in the first class after k in c's order that has the name itself; none where no class after it
    /// has, where k isn't in the order, and where c isn't made.
    pub fn find_after(&self, k: Class, c: Class, n: Name) -> Option<Value>
        ensures { result ≡ found_after self.now.classes k c n }
    {
        self.classes.find_after(k, c, n)
    }

    /// The order of a class, and none exactly where the class isn't made.
    pub fn order_of(&self, c: Class) -> Option<&ClassList>
        ensures order { option_copied result ≡ world.order_in self.now.classes c }
        ensures made { is_some result ≡ is_some (world.row_of self.now.classes c) }
    {
        self.classes.order_of(c)
    }

    /// Whether a class is made.
    pub fn is_made(&self, c: Class) -> bool
        ensures { result ≡ is_some (world.row_of self.now.classes c) }
    {
        self.classes.is_made(c)
    }

    /// The pair at this index of a class's own names with their values, by rising name number; none exactly past the
    /// last, and where the class isn't made.
    pub fn own_at(&self, c: Class, i: usize) -> Option<(Name, Value)>
        ensures { result ≡ slice_get (world.own_of (world.row_of self.now.classes c)) i }
    {
        self.classes.own_at(c, i)
    }

    /// The class and all classes below it, each once, a class after its direct subclasses. Nothing below a class that
    /// `stop` marks, by number, is entered. Where all classes below a marked one are marked, the list has each unmarked
    /// class below c, and each class stands after the unmarked ones below it. The one error is out of memory.
    pub fn below(&self, c: Class, stop: &[bool]) -> Result<Vec<u16>, AllocError>
        requires { length stop.now ≡ widths.classes }
        ensures walk { IfOk result (λ list. IsSubclassWalk self.now.classes stop.now c list.items) }
        ensures unmarked { IfOk result (λ list.
            All (λ marked. marked ≡ false) stop.now → IsTrue (is_some (world.row_of self.now.classes c))
            → (d : ℕ) → Contains list.items d ↔ IsTrue (is_in_order c (world.order_in self.now.classes d))) }
        ensures below { IfOk result (λ list. IsTrue (is_some (world.row_of self.now.classes c))
            → (d : ℕ) → Contains list.items d → IsTrue (is_in_order c (world.order_in self.now.classes d))) }
        ensures closed { IfOk result (λ list. AreClosedBelow self.now.classes stop.now
            → IsTrue (is_some (world.row_of self.now.classes c)) → IsBelow self.now.classes stop.now c list.items) }
    {
        self.classes.below(c, stop)
    }

    /// How many objects were made, at most 4,096.
    pub fn objects(&self) -> u16
        ensures same { result ≡ self.now.objects }
        ensures most { result ≤ widths.objects }
    {
        self.objects
    }

    /// Makes the next object.
    pub fn add_object(&mut self) -> Obj
        requires { self.old.objects < widths.objects }
        ensures number { result ≡ self.old.objects }
        ensures one_more { self.new ≡ with_object self.old }
    {
        let o = Obj::new(self.objects).unwrap();
        self.objects += 1;
        o
    }

    /// Takes the least number that no pass has, and none exactly where each is taken.
    pub fn take_number(&mut self) -> Option<u8>
        ensures least { result ≡ position (λ free. free) self.old.numbers }
        ensures taken { IfSome result (λ q.
            (q < widths.passes) × (self.new ≡ with_number self.old q false)) }
        ensures out { IfSome result (λ q. slice_index_or self.new.numbers q true ≡ false) }
        ensures none { IfNone result (self.new ≡ self.old) }
    {
        let q = least_free(&self.numbers)?;
        self.numbers[q] = false;
        Some(q as u8)
    }

    /// Gives back the number of a pass.
    pub fn free_number(&mut self, q: u8)
        requires below { q < widths.passes }
        ensures { self.new ≡ with_number self.old q true }
    {
        self.numbers[usize::from(q)] = true;
    }

    /// Takes the first free tag and counts it as given, so that it is out; none exactly where no tag is free.
    pub fn next_tag(&mut self) -> Option<u16>
        ensures first { result ≡ slice_get self.old.tags.free 0 }
        ensures given { IfSome result (λ tag. self.new ≡ with_tags self.old (tags.next_given self.old.tags)) }
        ensures was_in { IfSome result (λ tag. ¬ tags.IsOut self.old.tags tag) }
        ensures out { IfSome result (λ tag. tags.IsOut self.new.tags tag) }
        ensures none { IfNone result (self.new ≡ self.old) }
    {
        self.tags.next()
    }

    /// Adds a row for a tag that is out, without a goal and kept by `New`, at the end of limbo.
    pub fn to_limbo(&mut self, tag: u16)
        requires { tags.IsOut self.old.tags tag }
        ensures { self.new ≡ with_tags self.old (tags.in_limbo self.old.tags tag) }
    {
        self.tags.to_limbo(tag);
    }

    /// The row of limbo at this index, and none exactly past the last.
    pub fn limbo_at(&self, i: u16) -> Option<LimboRow>
        ensures row { result ≡ slice_get self.now.tags.limbo i }
        ensures in_limbo { IfSome result (λ row. tags.IsInLimbo self.now.tags row.tag) }
    {
        self.tags.limbo_at(i)
    }

    /// Gives a row of limbo its goal.
    pub fn set_goal(&mut self, i: u16, goal: u64)
        requires { i < length self.old.tags.limbo }
        ensures { self.new ≡ with_tags self.old (tags.with_goal self.old.tags i goal) }
    {
        self.tags.set_goal(i, goal);
    }

    /// Says of a row of limbo what keeps it there.
    pub fn set_kept(&mut self, i: u16, k: KeptBy)
        requires { i < length self.old.tags.limbo }
        ensures { self.new ≡ with_tags self.old (tags.with_kept self.old.tags i k) }
    {
        self.tags.set_kept(i, k);
    }

    /// Moves the tag of a row of limbo to the end of the free tags, and counts it as freed.
    pub fn free_at(&mut self, i: u16)
        requires { i < length self.old.tags.limbo }
        ensures { self.new ≡ with_tags self.old (tags.with_freed self.old.tags i) }
    {
        self.tags.free_at(i);
    }

    /// How many tags were given and freed so far, each count standing still at 2^64 - 1, and how many are free and in
    /// limbo. The tags that are out make up the difference.
    pub fn counts(&self) -> TagCounts
        ensures counts { result ≡ tags.counts_of self.now.tags }
        ensures true_counts { tags.HasTrueCounts self.now.tags }
        ensures single { tags.AreSingle self.now.tags }
    {
        self.tags.counts()
    }

    fn put_reply(&self, c: Class, v: &Value) -> Reply
        ensures { (n : ℕ) → IsReplyTo (ops.TypeSet c n v.now) self.now result }
    {
        if !self.has_object_in(v) {
            return Reply::NoAttr;
        }
        if !self.classes.is_made(c) || !self.has_class_in(v) {
            return Reply::NoClass;
        }
        if c == Class::object() {
            return Reply::Immutable;
        }
        Reply::Done
    }

    fn cut_reply(&self, c: Class, n: Name) -> Reply
        ensures { IsReplyTo (ops.TypeDel c n) self.now result }
    {
        if !self.classes.is_made(c) {
            return Reply::NoClass;
        }
        if c == Class::object() {
            return Reply::Immutable;
        }
        match self.classes.own_value(c, n) {
            Some(_) => Reply::Done,
            None => Reply::NoAttr,
        }
    }

    fn has_object_in(&self, v: &Value) -> bool
        ensures { result ≡ has_objects self.now v.now }
    {
        match v {
            Value::Obj(o) => o.number() < self.objects,
            Value::Nothing
            | Value::Int(_)
            | Value::Text(_)
            | Value::Func(_)
            | Value::Prop(_)
            | Value::Static(_)
            | Value::ClassM(_)
            | Value::Class(_) => true,
        }
    }

    fn has_class_in(&self, v: &Value) -> bool
        ensures { result ≡ has_classes self.now v.now }
    {
        match v {
            Value::Class(c) => self.classes.is_made(*c),
            Value::Nothing
            | Value::Int(_)
            | Value::Text(_)
            | Value::Func(_)
            | Value::Prop(_)
            | Value::Static(_)
            | Value::ClassM(_)
            | Value::Obj(_) => true,
        }
    }
}

/// The least number that is free.
fn least_free(numbers: &[bool]) -> Option<usize>
    ensures least { result ≡ position (λ free. free) numbers.now }
    ensures within { IfSome result (λ q. q < length numbers.now) }
{
    numbers.iter().position(|free| *free)
}

/// The reply to an operation that this would come of.
fn reply_of<T: Drop>(plan: Result<T, Reply>) -> Reply
    ensures { result ≡ plan_reply plan }
{
    match plan {
        Ok(_) => Reply::Done,
        Err(refusal) => refusal,
    }
}
