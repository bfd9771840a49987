//! The assignment of bases to a class that is made.
ghost use Rattle.std.specs.Prelude.{◌≡◌, ◌∷◌, ℕ, Some, None, IsTrue, IsOk, IfOk, IfErr, OnOk, OnErr, length, is_some, map, replicate, false, ◌<◌, slice_set};
ghost use Rattle.at_value.specs.Widths as widths;
ghost use Rattle.at_value.specs.declared.operation.Op.TheVariants as ops;
ghost use Rattle.at_model.specs.World as world;
ghost use Rattle.at_model.specs.Step as steps;
ghost use Rattle.at_types.specs.ClassSteps.{world_of, reply_to, plan_reply, IsClassStep};
ghost use Rattle.at_types.specs.Kept.{AreWhole};
ghost use Rattle.at_types.specs.Memory.{is_early};
ghost use Rattle.at_types.specs.Links.{missing_from};
ghost use Rattle.at_types.specs.Subclasses.{IsWholeWalk};
ghost use Rattle.at_types.specs.Renewing.{AreRenewed, AreReplaced, order_now, new_bases, first_lost};

use super::defining::{has_class, has_repeat};
use super::links::{link, unlink};
use super::orders::NewOrder;
use super::{CLASSES, Classes, Plan, class_at, row_at};
use at_model::ClassRow;
use at_value::{Bases, Class, ClassList, Reply};
use std::alloc::{AllocError, Global};

impl Classes {
    /// Gives a class that is made other bases, where they are as they must be and each class then has an order.
    pub(crate) fn rebase(&mut self, c: Class, bases: &Bases) -> Result<Reply, AllocError>
        ensures ok { IfOk result (IsClassStep (ops.SetBases c bases.now) self.old self.new) }
        ensures err { OnErr result (self.new ≡ self.old) }
        ensures early { IsTrue (is_early (reply_to self.old (ops.SetBases c bases.now))) → IsOk result }
    {
        match self.plan_bases(c, bases)? {
            Ok(mut renewed) => {
                let was = self.bases_of(c);
                link(&mut self.subclasses, without(bases, &was).as_slice(), c)?;
                unlink(&mut self.subclasses, without(&was, bases).as_slice(), c);
                replace_bases(&mut self.rows, c, bases);
                replace_orders(&mut self.orders, &mut renewed);
                Ok(Reply::Done)
            }
            Err(refusal) => Ok(refusal),
        }
    }

    /// The new orders that the change would bring, or the reply that refuses it.
    pub(crate) fn plan_bases(
        &self,
        c: Class,
        bases: &Bases,
    ) -> Result<Plan<Vec<Option<NewOrder>>>, AllocError>
        ensures early { IsTrue (is_early (reply_to self.now (ops.SetBases c bases.now))) → IsOk result }
        ensures reply { IfOk result (λ plan. plan_reply plan ≡ reply_to self.now (ops.SetBases c bases.now)) }
        ensures orders { IfOk result (λ plan. IfOk plan
            (λ renewed. AreRenewed self.now (steps.rebased self.now c bases.now) renewed.items)) }
        ensures refusal { IfOk result (λ plan. IfErr plan (λ refusal. steps.is_done refusal ≡ false)) }
    {
        if !self.is_made(c) || !self.are_made(bases.as_slice()) {
            return Ok(Err(Reply::NoClass));
        }
        if c == Class::object() {
            return Ok(Err(Reply::Immutable));
        }
        if bases.is_empty() {
            return Ok(Err(Reply::EmptyBases));
        }
        if has_repeat(bases.as_slice()) {
            return Ok(Err(Reply::Duplicate));
        }
        if self.is_cycle(c, bases.as_slice()) {
            return Ok(Err(Reply::Cycle));
        }
        self.plan_orders(c, bases)
    }

    fn is_cycle(&self, c: Class, bases: &[Class]) -> bool
        ensures { result ≡ steps.is_cycle (world_of self.now) c bases.now }
    {
        bases.iter().any(|base| self.stands_above(c, *base))
    }

    fn stands_above(&self, c: Class, base: Class) -> bool
        ensures { result ≡ steps.is_in_order c (world.order_in self.now base) }
    {
        match self.order_of(base) {
            Some(order) => has_class_in(c, order),
            None => false,
        }
    }

    fn plan_orders(
        &self,
        c: Class,
        bases: &Bases,
    ) -> Result<Plan<Vec<Option<NewOrder>>>, AllocError>
        requires whole { AreWhole self.now }
        requires made { IsTrue (steps.are_made (world_of self.now) (c ∷ bases.now)) }
        requires acyclic { steps.is_cycle (world_of self.now) c bases.now ≡ false }
        ensures early { is_early
            (steps.if_ordered (world_of self.now) (steps.with_bases (world_of self.now) c bases.now)).reply ≡ false }
        ensures reply { IfOk result (λ plan. plan_reply plan
            ≡ (steps.if_ordered (world_of self.now) (steps.with_bases (world_of self.now) c bases.now)).reply) }
        ensures orders { IfOk result (λ plan. IfOk plan
            (λ renewed. AreRenewed self.now (steps.rebased self.now c bases.now) renewed.items)) }
        ensures refusal { IfOk result (λ plan. IfErr plan (λ refusal. steps.is_done refusal ≡ false)) }
    {
        let renewed = self.new_orders(c, bases)?;
        match first_lost(&renewed) {
            Some(k) => Ok(Err(Reply::NoOrder(k))),
            None => Ok(Ok(renewed)),
        }
    }

    /// The orders of c and of all classes below it, once c has these bases; no other class changes its order. The walk
    /// has a class after its subclasses, so backwards the bases of each come before it.
    fn new_orders(&self, c: Class, bases: &Bases) -> Result<Vec<Option<NewOrder>>, AllocError>
        requires whole { AreWhole self.now }
        requires made { IsTrue (steps.are_made (world_of self.now) (c ∷ bases.now)) }
        requires acyclic { steps.is_cycle (world_of self.now) c bases.now ≡ false }
        ensures { IfOk result (λ renewed. AreRenewed self.now (steps.rebased self.now c bases.now) renewed.items) }
    {
        let below = self.subclasses.below(c.number(), &[false; CLASSES])?;
        let mut renewed = no_new_orders(self.alloc)?;
        self.renew(&mut renewed, &below, c, bases)?;
        Ok(renewed)
    }

    fn renew(
        &self,
        renewed: &mut [Option<NewOrder>],
        below: &[u16],
        c: Class,
        bases: &Bases,
    ) -> Result<(), AllocError>
        requires made { IsTrue (steps.are_made (world_of self.now) (c ∷ bases.now)) }
        requires acyclic { steps.is_cycle (world_of self.now) c bases.now ≡ false }
        requires whole { AreWhole self.now }
        requires walk { IsWholeWalk self.now c below.now }
        requires none { renewed.old ≡ replicate widths.classes None }
        ensures { OnOk result (AreRenewed self.now (steps.rebased self.now c bases.now) renewed.new) }
    {
        let mut left = below.len();
        while left > 0 {
            left -= 1;
            let d = below[left];
            let order = self.new_order(renewed, d, c, bases)?;
            put_order(renewed, d, order);
        }
        Ok(())
    }

    /// The order of class d, once c has these bases.
    fn new_order(
        &self,
        renewed: &[Option<NewOrder>],
        d: u16,
        c: Class,
        bases: &Bases,
    ) -> Result<NewOrder, AllocError>
        requires { d < widths.classes }
        ensures { IfOk result (λ order. order ≡ world.merged_order d (new_bases self.now c bases.now d)
            (world.all_orders (map (order_now self.now renewed.now) (new_bases self.now c bases.now d)))) }
    {
        let Some(class) = Class::new(d) else {
            return Ok(None);
        };
        if class == c {
            self.order_from(renewed, c, bases.as_slice())
        } else {
            self.order_from(renewed, class, self.bases_of(class).as_slice())
        }
    }

    fn bases_of(&self, c: Class) -> Bases
        ensures { result ≡ world.bases_of (world.row_of self.now c) }
    {
        match row_at(&self.rows, c) {
            Some(row) => row.bases,
            None => Bases::none(),
        }
    }
}

fn has_class_in(c: Class, order: &ClassList) -> bool
    ensures { result ≡ steps.has_number c order.now }
{
    for i in 0..order.len() {
        if class_at(order, i) == c {
            return true;
        }
    }
    false
}

/// No order is computed anew.
fn no_new_orders(alloc: Global) -> Result<Vec<Option<NewOrder>>, AllocError>
    ensures { IfOk result (λ renewed. renewed.items ≡ replicate widths.classes None) }
{
    let mut renewed = Vec::with_capacity(alloc, CLASSES)?;
    for _ in 0..CLASSES {
        renewed.push_reserved(None);
    }
    Ok(renewed)
}

/// The classes of a list that aren't in the other.
fn without(bases: &Bases, others: &Bases) -> Bases
    ensures { result ≡ missing_from others.now bases.now }
{
    let classes = bases.as_slice();
    let mut rest = Bases::none();
    for i in 0..bases.len() {
        let class = classes[i];
        if !has_class(class, others.as_slice()) {
            let _ = rest.push(class);
        }
    }
    rest
}

/// The least class whose new order is none.
fn first_lost(renewed: &[Option<NewOrder>]) -> Option<Class>
    requires { length renewed.now ≡ widths.classes }
    ensures { result ≡ first_lost 0 renewed.now }
{
    for i in 0..renewed.len() {
        if let Some(None) = &renewed[i] {
            return Class::new(i as u16);
        }
    }
    None
}

fn put_order(renewed: &mut [Option<NewOrder>], d: u16, order: NewOrder)
    requires { d < length renewed.old }
    ensures { renewed.new ≡ slice_set renewed.old d (Some order) }
{
    renewed[usize::from(d)] = Some(order);
}

fn replace_bases(rows: &mut [Option<ClassRow>], c: Class, bases: &Bases)
    requires numbered { length rows.old ≡ widths.classes }
    requires made { IsTrue (is_some (world.row_of rows.old c)) }
    ensures { rows.new ≡ steps.rebased rows.old c bases.now }
{
    if let Some(row) = &mut rows[usize::from(c.number())] {
        row.bases = *bases;
    }
}

fn replace_orders(orders: &mut [ClassList], renewed: &mut [Option<NewOrder>])
    requires { length renewed.old ≡ length orders.old }
    ensures { AreReplaced orders.old renewed.old orders.new }
{
    for i in 0..orders.len() {
        if let Some(Some(order)) = renewed[i].take() {
            orders[i] = order;
        }
    }
}
