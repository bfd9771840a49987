//! The assignment of bases to a class that is made.
ghost use Rattle.std.specs.Prelude.{◌≡◌, ◌&&◌, ◌<◌, ◌^◌, ◌∷◌, [], ℕ, List, false, Some, IsTrue, IsOk, IfOk};
ghost use Rattle.std.specs.Prelude.{OnOk, OnErr, length, is_some, suc, slice_index_or};
ghost use Rattle.std.specs.List.{list_any, list_all};
ghost use Rattle.std.specs.Option.{option_copied};
ghost use Rattle.at_value.specs.Widths as widths;
ghost use Rattle.at_model.specs.World as world;
ghost use Rattle.at_model.specs.Step as steps;
ghost use Rattle.at_model.specs.StoredOrders.{AreOrders};
ghost use Rattle.at_world.specs.Plain.{IsOutcome, lists_of, wants_memory};
ghost use Rattle.at_model.specs.Step.{is_empty, rebased};
ghost use Rattle.at_world.specs.Rebasing.{AreNewOrders, AreRenewed, is_due, due_row, first_empty};

use super::classes::has_duplicate;
use super::lookup::class_row;
use super::orders::{copies_of, is_empty_at, longest_len, order_or_empty, put_order};
use super::{CLASSES, Plain};
use at_c3::List;
use at_model::ClassRow;
use at_value::{Bases, Class, Reply};
use std::alloc::{AllocError, Global};

impl Plain {
    /// Gives a class that is made other bases, where they are as they must be.
    pub(super) fn set_bases(&mut self, c: Class, bases: &Bases) -> Result<Reply, AllocError>
        requires { IsTrue (steps.are_made self.old.world (c ∷ bases.now)) }
        ensures ok { IfOk result (IsOutcome (steps.set_bases_effect self.old.world c bases.now) self.old self.new) }
        ensures err { OnErr result (self.new ≡ self.old) }
        ensures refused { wants_memory (steps.set_bases_effect self.old.world c bases.now).reply ≡ false → IsOk result }
    {
        if c == Class::object() {
            return Ok(Reply::Immutable);
        }
        if bases.is_empty() {
            return Ok(Reply::EmptyBases);
        }
        if has_duplicate(bases.as_slice()) {
            return Ok(Reply::Duplicate);
        }
        if self.is_cycle(c, bases.as_slice()) {
            return Ok(Reply::Cycle);
        }
        self.rebase(c, bases)
    }

    fn is_cycle(&self, c: Class, bases: &[Class]) -> bool
        ensures { result ≡ steps.is_cycle self.now.world c bases.now }
    {
        bases.iter().any(|base| self.stands_above(c, *base))
    }

    fn stands_above(&self, c: Class, base: Class) -> bool
        ensures { result ≡ steps.is_in_order c (world.order_of self.now.world base) }
    {
        match self.order_of(base) {
            Some(order) => has_number(c.number(), order),
            None => false,
        }
    }

    /// Gives a class other bases, where each class then has an order.
    fn rebase(&mut self, c: Class, bases: &Bases) -> Result<Reply, AllocError>
        requires made { IsTrue (steps.are_made self.old.world (c ∷ bases.now)) }
        requires acyclic { steps.is_cycle self.old.world c bases.now ≡ false }
        ensures ok { IfOk result (IsOutcome
            (steps.if_ordered self.old.world (steps.with_bases self.old.world c bases.now)) self.old self.new) }
        ensures err { OnErr result (self.new ≡ self.old) }
    {
        let orders = new_orders(self.alloc, &self.classes, &self.orders, c, bases)?;
        match first_without(&self.classes, &orders) {
            Some(k) => Ok(Reply::NoOrder(k)),
            None => {
                replace_bases(&mut self.classes, c, bases);
                self.orders = orders;
                Ok(Reply::Done)
            }
        }
    }
}

/// The orders of all classes once c has these bases, each empty where its class has none. Classes come by the length
/// that their orders had, so that the bases of each come before it. The order of a class that c doesn't stand above is
/// the one that it had.
fn new_orders(
    alloc: Global,
    classes: &[Option<ClassRow>],
    was: &[List],
    c: Class,
    bases: &Bases,
) -> Result<Vec<List>, AllocError>
    requires numbered { length classes.now ≡ widths.classes }
    requires ordered { length was.now ≡ widths.classes }
    requires orders { AreOrders classes.now (lists_of was.now) }
    requires made { IsTrue (list_all (λ b. is_some (world.row_of classes.now b)) (c ∷ bases.now)) }
    requires acyclic { list_any (λ b. steps.is_in_order c (world.order_in classes.now b)) bases.now ≡ false }
    ensures orders { IfOk result (λ orders. AreNewOrders (rebased classes.now c bases.now) (lists_of orders.items)) }
    ensures long { IfOk result (λ orders. length orders.items ≡ widths.classes) }
{
    let mut orders = copies_of(alloc, was)?;
    let order = order_or_empty(alloc, was, c.number(), bases.as_slice())?;
    put_order(&mut orders, c.number(), order);
    for long in 0..longest_len(was) {
        renew(alloc, classes, was, &mut orders, c, long)?;
    }
    Ok(orders)
}

/// Computes the new orders of the classes below c whose orders had one class more than `long`.
fn renew(
    alloc: Global,
    classes: &[Option<ClassRow>],
    was: &[List],
    orders: &mut [List],
    c: Class,
    long: usize,
) -> Result<(), AllocError>
    requires numbered { length classes.now ≡ widths.classes }
    requires ordered { length was.now ≡ widths.classes }
    requires orders { AreOrders classes.now (lists_of was.now) }
    requires same { length orders.old ≡ widths.classes }
    requires most { suc long < 2 ^ 64 }
    ensures { (bases : List ℕ) → let changed = rebased classes.now c bases in
        AreRenewed changed classes.now (lists_of was.now) c long 0 (lists_of orders.old)
        → OnOk result (AreRenewed changed classes.now (lists_of was.now) c (suc long) 0 (lists_of orders.new)) }
{
    for i in 0..CLASSES {
        match due_row(classes, was, c, long, i) {
            Some(row) => {
                let order = order_or_empty(alloc, orders, i as u16, row.bases.as_slice())?;
                put_order(orders, i as u16, order);
            }
            None => {}
        }
    }
    Ok(())
}

fn due_row<'a>(
    classes: &'a [Option<ClassRow>],
    was: &[List],
    c: Class,
    long: usize,
    i: usize,
) -> Option<&'a ClassRow>
    requires ordered { length was.now ≡ widths.classes }
    requires below { i < widths.classes }
    requires most { suc long < 2 ^ 64 }
    ensures { option_copied result ≡ due_row classes.now (lists_of was.now) c long i }
{
    if is_due(c.number(), long, i as u16, was[i].as_slice()) {
        class_row(classes, i as u16)
    } else {
        None
    }
}

fn is_due(c: u16, long: usize, d: u16, order: &[u16]) -> bool
    requires { suc long < 2 ^ 64 }
    ensures { result ≡ is_due c long d order.now }
{
    d != c && order.len() == long + 1 && has_number(c, order)
}

fn has_number(number: u16, list: &[u16]) -> bool
    ensures { result ≡ steps.has_number number list.now }
{
    list.iter().any(|x| *x == number)
}

fn first_without(classes: &[Option<ClassRow>], orders: &[List]) -> Option<Class>
    requires numbered { length classes.now ≡ widths.classes }
    requires ordered { length orders.now ≡ widths.classes }
    ensures { result ≡ first_empty 0 classes.now (lists_of orders.now) }
{
    for i in 0..CLASSES {
        if is_without(classes, orders, i as u16) {
            return Class::new(i as u16);
        }
    }
    None
}

fn is_without(classes: &[Option<ClassRow>], orders: &[List], c: u16) -> bool
    requires { c < length orders.now }
    ensures { result ≡ (is_some (world.row_of classes.now c) && is_empty (slice_index_or (lists_of orders.now) c [])) }
{
    class_row(classes, c).is_some() && is_empty_at(orders, c)
}

fn replace_bases(classes: &mut [Option<ClassRow>], c: Class, bases: &Bases)
    requires numbered { length classes.old ≡ widths.classes }
    requires made { IsTrue (is_some (world.row_of classes.old c)) }
    ensures { classes.new ≡ rebased classes.old c bases.now }
{
    if let Some(row) = &mut classes[usize::from(c.number())] {
        row.bases = *bases;
    }
}
