//! Operations that make classes, and that change their names.
ghost use Rattle.std.specs.Prelude.{◌≡◌, false, Some, None, IsTrue, IsSome, IsOk, IfOk, OnOk, OnErr, IsErrOf, length};
ghost use Rattle.at_value.specs.Pairs.{value_at};
ghost use Rattle.at_value.specs.Widths as widths;
ghost use Rattle.at_model.specs.World as world;
ghost use Rattle.at_model.specs.Step as steps;
ghost use Rattle.at_world.specs.Plain.{IsOutcome, wants_memory, with_name, without_name};

use super::Plain;
use super::orders::order_from;
use at_c3::{List, MergeFault};
use at_model::ClassRow;
use at_value::{Bases, Class, Name, Pairs, Reply, Value};
use std::alloc::AllocError;

impl Plain {
    /// Makes a class, where its name is free and its bases are as they must be.
    pub(super) fn new_class(&mut self, c: Class, bases: &Bases) -> Result<Reply, AllocError>
        requires { IsTrue (steps.are_made self.old.world bases.now) }
        ensures ok { IfOk result (IsOutcome (steps.new_class_effect self.old.world c bases.now) self.old self.new) }
        ensures err { OnErr result (self.new ≡ self.old) }
        ensures refused { wants_memory (steps.new_class_effect self.old.world c bases.now).reply ≡ false → IsOk result }
    {
        if self.has_class(c) {
            return Ok(Reply::NameTaken);
        }
        if bases.is_empty() {
            return Ok(Reply::EmptyBases);
        }
        if has_duplicate(bases.as_slice()) {
            return Ok(Reply::Duplicate);
        }
        self.define(c, bases)
    }

    /// Makes a class, where it has an order.
    fn define(&mut self, c: Class, bases: &Bases) -> Result<Reply, AllocError>
        requires free { world.row_of self.old.world.classes c ≡ None }
        requires made { IsTrue (steps.are_made self.old.world bases.now) }
        ensures ok { IfOk result (IsOutcome
            (steps.if_ordered self.old.world (steps.with_class self.old.world c bases.now)) self.old self.new) }
        ensures err { OnErr result (self.new ≡ self.old) }
    {
        let i = usize::from(c.number());
        match self.order_with(c, bases) {
            Ok(order) => {
                self.classes[i] = Some(ClassRow {
                    bases: *bases,
                    own: Pairs::new(self.alloc),
                });
                self.orders[i] = order;
                Ok(Reply::Done)
            }
            Err(MergeFault::NoHead) => Ok(Reply::NoOrder(c)),
            Err(MergeFault::NoMemory) => Err(AllocError),
        }
    }

    fn order_with(&self, c: Class, bases: &Bases) -> Result<List, MergeFault>
        requires free { world.row_of self.now.world.classes c ≡ None }
        requires made { IsTrue (steps.are_made self.now.world bases.now) }
        ensures ordered { IfOk result
            (λ order. world.order_of (steps.with_class self.now.world c bases.now) c ≡ Some order.items) }
        ensures none { IsErrOf result MergeFault.NoHead
            → world.order_of (steps.with_class self.now.world c bases.now) c ≡ None }
    {
        order_from(self.alloc, &self.orders, c.number(), bases.as_slice())
    }

    pub(super) fn type_set(&mut self, c: Class, n: Name, v: Value) -> Result<Reply, AllocError>
        ensures ok { IfOk result (IsOutcome (steps.type_set_effect self.old.world c n v) self.old self.new) }
        ensures err { OnErr result (self.new ≡ self.old) }
        ensures there { IsSome (value_at n (world.own_of (world.row_of self.old.world.classes c))) → IsOk result }
        ensures refused { wants_memory (steps.type_set_effect self.old.world c n v).reply ≡ false → IsOk result }
    {
        if c == Class::object() {
            return Ok(Reply::Immutable);
        }
        put_own(&mut self.classes, c, n, v)?;
        Ok(Reply::Done)
    }

    pub(super) fn type_del(&mut self, c: Class, n: Name) -> Reply
        ensures { IsOutcome (steps.type_del_effect self.old.world c n) self.old self.new result }
    {
        if c == Class::object() {
            return Reply::Immutable;
        }
        match cut_own(&mut self.classes, c, n) {
            Some(_) => Reply::Done,
            None => Reply::NoAttr,
        }
    }
}

pub(super) fn has_duplicate(classes: &[Class]) -> bool
    ensures { result ≡ steps.has_repeat classes.now }
{
    for i in 0..classes.len() {
        if is_among(classes[i], &classes[i + 1..]) {
            return true;
        }
    }
    false
}

fn is_among(c: Class, classes: &[Class]) -> bool
    ensures { result ≡ steps.has_number c classes.now }
{
    classes.iter().any(|class| *class == c)
}

fn put_own(classes: &mut [Option<ClassRow>], c: Class, n: Name, v: Value) -> Result<(), AllocError>
    requires { length classes.old ≡ widths.classes }
    ensures ok { OnOk result (classes.new ≡ with_name classes.old c n v) }
    ensures err { OnErr result (classes.new ≡ classes.old) }
    ensures there { IsSome (value_at n (world.own_of (world.row_of classes.old c))) → IsOk result }
{
    let i = usize::from(c.number());
    match &mut classes[i] {
        Some(row) => {
            row.own.put(n, v)?;
            Ok(())
        }
        None => Ok(()),
    }
}

/// Takes a name out of a class, and gives the value that it had.
fn cut_own(classes: &mut [Option<ClassRow>], c: Class, n: Name) -> Option<Value>
    requires { length classes.old ≡ widths.classes }
    ensures value { result ≡ value_at n (world.own_of (world.row_of classes.old c)) }
    ensures names { classes.new ≡ without_name classes.old c n }
    ensures absent { result ≡ None → classes.new ≡ classes.old }
{
    match &mut classes[usize::from(c.number())] {
        Some(row) => row.own.cut(n),
        None => None,
    }
}
