//! The data model, run as it is written: a world, and the operations on it one after another.
ghost use Rattle.std.specs.Prelude.{◌≡◌, ◌-◌, ◌∷◌, [], false, IsTrue, IfOk, IsOk, OnErr, replicate};
ghost use Rattle.at_value.specs.Widths as widths;
ghost use Rattle.at_model.specs.World as world;
ghost use Rattle.at_model.specs.Step as steps;
ghost use Rattle.at_world.specs.Plain.{IsStepped, IsOutcome, lists_of, sets_known_name, takes_memory, wants_memory};

mod classes;
mod ending;
mod lookup;
mod naming;
mod objects;
mod orders;
mod reading;
mod rebasing;

use at_c3::List;
use at_model::{ClassRow, Object};
use at_value::{Bases, Class, Op, Pairs, Place, Reply};
use smallvec::SmallVec;
use std::alloc::{AllocError, Global};
use std::marker::Model;

const CLASSES: usize = Class::COUNT as usize;

/// A world, and the count of the writes that led to it. The orders of the classes stand beside it, so that a look-up
/// computes none. Contracts see the world and the count.
#[derive(Drop)]
pub struct Plain {
    classes: Vec<Option<ClassRow>>,
    orders: Vec<List>,
    objects: Vec<Object>,
    dicts: Vec<Pairs>,
    place: u64,
    alloc: Global,
}

impl Model for Plain {
    ghost use Rattle.at_world.specs.Plain.{PlainState};

    ghost Value = { PlainState };

    ghost use Rattle.at_world.specs.Plain.{IsCoherent, lists_of};

    ghost view = { λ p. record {
      world = record { classes = p.classes.items; objects = p.objects.items; dicts = p.dicts.items };
      place = p.place;
    } };

    ghost invariant = { λ p. IsCoherent p.classes.items (lists_of p.orders.items) p.objects.items p.dicts.items };
}

impl Plain {
    /// The opening world, of the class `object` alone, at place 0.
    pub fn new(alloc: Global) -> Result<Plain, AllocError>
        ensures { IfOk result (λ plain. plain ≡ record { world = world.opening; place = 0 }) }
    {
        Ok(Plain {
            classes: first_classes(alloc)?,
            orders: first_orders(alloc)?,
            objects: Vec::new(alloc),
            dicts: Vec::new(alloc),
            place: 0,
            alloc,
        })
    }

    /// The reply to an operation, which takes the world with it. A write, whose reply is `Done` or `Made`, counts one
    /// place more. Where the operation is refused, and where memory runs out, world and count are as they were. Only an
    /// operation that makes a class or an object, sets a value or bases, or replies an order may take memory, and none
    /// does where the name to be set is there, nor before a refusal is found, but for `NoOrder`.
    ///
    /// The refusals are tried in this order: `NoAttr` for an object that isn't made, `NoClass` for a class that isn't,
    /// `NameTaken`, `Immutable` where `object` would be changed or have objects, `EmptyBases`, `Duplicate`, `Cycle`
    /// where a class would stand above itself, `NoOrder` with the least class that would have no order, `Full` from
    /// 4,096 objects on, and then what the attribute tables refuse. New bases are judged by the orders that all
    /// classes have at the end of the change.
    ///
    /// After the Python language reference, "Objects, values and types", "Custom classes", "Customizing attribute
    /// access" and "Special method lookup"; the orders after Barrett and others, "A Monotonic Superclass Linearization
    /// for Dylan" (1996).
    pub fn apply(&mut self, op: &Op) -> Result<Reply, AllocError>
        ensures ok { IfOk result (IsStepped op.now self.old self.new) }
        ensures err { OnErr result (self.new ≡ self.old) }
        ensures room { takes_memory op.now ≡ false → IsOk result }
        ensures no_object { steps.are_objects self.old.world (steps.objects_in op.now) ≡ false → IsOk result }
        ensures no_class { steps.are_made self.old.world (steps.classes_in op.now) ≡ false → IsOk result }
        ensures there { IsTrue (sets_known_name self.old.world op.now) → IsOk result }
        ensures refused { wants_memory (steps.step self.old.world op.now).reply ≡ false → IsOk result }
    {
        if !self.has_objects(op) {
            return Ok(Reply::NoAttr);
        }
        if !self.has_classes(op) {
            return Ok(Reply::NoClass);
        }
        let reply = self.perform(op)?;
        if is_write_reply(&reply) {
            self.place = self.place.saturating_add(1);
        }
        Ok(reply)
    }

    /// How many writes were made; the count stands still at 2^64 - 1.
    pub fn place(&self) -> Place
        ensures { result ≡ record { 0 = self.now.place } }
    {
        Place(self.place)
    }

    fn perform(&mut self, op: &Op) -> Result<Reply, AllocError>
        requires { IsTrue (steps.are_made self.old.world (steps.classes_in op.now)) }
        ensures ok { IfOk result (IsOutcome (steps.effect self.old.world op.now) self.old self.new) }
        ensures err { OnErr result (self.new ≡ self.old) }
        ensures room { takes_memory op.now ≡ false → IsOk result }
        ensures there { IsTrue (sets_known_name self.old.world op.now) → IsOk result }
        ensures refused { wants_memory (steps.effect self.old.world op.now).reply ≡ false → IsOk result }
    {
        match op {
            Op::NewClass(c, bases) => self.new_class(*c, bases),
            Op::TypeSet(c, n, v) => self.type_set(*c, *n, *v),
            Op::TypeDel(c, n) => Ok(self.type_del(*c, *n)),
            Op::SetBases(c, bases) => self.set_bases(*c, bases),
            Op::New(c) => self.new_object(*c),
            Op::Set(o, n, v) => self.set(*o, *n, v),
            Op::Del(o, n) => Ok(self.del(*o, *n)),
            Op::SetClass(o, c) => Ok(self.set_class(*o, *c)),
            Op::Share(o, p) => Ok(self.share(*o, *p)),
            Op::Get(o, n) => Ok(self.get(*o, *n)),
            Op::TypeGet(c, n) => Ok(self.type_get(*c, *n)),
            Op::Super(k, o, n) => Ok(self.super_get(*k, *o, *n)),
            Op::Special(o, n) => Ok(self.special(*o, *n)),
            Op::ClassOf(o) => Ok(self.class_of(*o)),
            Op::Mro(c) => self.mro(*c),
        }
    }
}

fn first_classes(alloc: Global) -> Result<Vec<Option<ClassRow>>, AllocError>
    ensures { IfOk result (λ classes. classes.items ≡ world.opening.classes) }
{
    let mut classes = Vec::with_capacity(alloc, CLASSES)?;
    classes.push_reserved(Some(ClassRow {
        bases: Bases::none(),
        own: Pairs::new(alloc),
    }));
    for _ in 1..CLASSES {
        classes.push_reserved(None);
    }
    Ok(classes)
}

/// The orders of the opening world: that of `object` is itself, and the others are empty.
fn first_orders(alloc: Global) -> Result<Vec<List>, AllocError>
    ensures { IfOk result (λ orders. lists_of orders.items ≡ (0 ∷ []) ∷ replicate (widths.classes - 1) []) }
{
    let mut orders = Vec::with_capacity(alloc, CLASSES)?;
    let mut first = SmallVec::new(alloc);
    first.push(0)?;
    orders.push_reserved(first);
    for _ in 1..CLASSES {
        orders.push_reserved(SmallVec::new(alloc));
    }
    Ok(orders)
}

fn is_write_reply(reply: &Reply) -> bool
    ensures { result ≡ steps.is_done reply.now }
{
    matches!(reply, Reply::Done | Reply::Made(_, _))
}
