//! The making of classes.
ghost use Rattle.std.specs.Prelude.{◌≡◌, ◌<◌, Some, None, IsTrue, IsOk, IfOk, IfErr, OnErr, false};
ghost use Rattle.at_value.specs.Widths as widths;
ghost use Rattle.at_value.specs.declared.operation.Op.TheVariants as ops;
ghost use Rattle.at_model.specs.World as world;
ghost use Rattle.at_model.specs.Step as steps;
ghost use Rattle.at_types.specs.Kept.{AreWhole};
ghost use Rattle.at_types.specs.Memory.{is_early};
ghost use Rattle.at_types.specs.ClassSteps.{world_of, reply_to, plan_reply, IsClassStep, new_class};

use super::links::link;
use super::{Classes, Plan};
use at_model::ClassRow;
use at_value::{Bases, Class, ClassList, Pairs, Reply};
use std::alloc::AllocError;

impl Classes {
    /// Makes a class, where its name is free, its bases are as they must be, and it has an order.
    pub(crate) fn define(&mut self, c: Class, bases: &Bases) -> Result<Reply, AllocError>
        ensures ok { IfOk result (IsClassStep (ops.NewClass c bases.now) self.old self.new) }
        ensures err { OnErr result (self.new ≡ self.old) }
        ensures early { IsTrue (is_early (reply_to self.old (ops.NewClass c bases.now))) → IsOk result }
    {
        match self.plan_class(c, bases)? {
            Ok(order) => {
                link(&mut self.subclasses, bases.as_slice(), c)?;
                let i = usize::from(c.number());
                self.rows[i] = Some(ClassRow {
                    bases: *bases,
                    own: Pairs::new(self.alloc),
                });
                self.orders[i] = order;
                Ok(Reply::Done)
            }
            Err(refusal) => Ok(refusal),
        }
    }

    /// The order that the class would have, or the reply that refuses it.
    pub(crate) fn plan_class(&self, c: Class, bases: &Bases) -> Result<Plan<ClassList>, AllocError>
        ensures early { IsTrue (is_early (reply_to self.now (ops.NewClass c bases.now))) → IsOk result }
        ensures reply { IfOk result (λ plan. plan_reply plan ≡ reply_to self.now (ops.NewClass c bases.now)) }
        ensures order { IfOk result (λ plan. IfOk plan
            (λ order. world.order_in (new_class self.now c bases.now) c ≡ Some order)) }
        ensures refusal { IfOk result (λ plan. IfErr plan (λ refusal. steps.is_done refusal ≡ false)) }
    {
        if !self.are_made(bases.as_slice()) {
            return Ok(Err(Reply::NoClass));
        }
        if self.is_made(c) {
            return Ok(Err(Reply::NameTaken));
        }
        if bases.is_empty() {
            return Ok(Err(Reply::EmptyBases));
        }
        if has_repeat(bases.as_slice()) {
            return Ok(Err(Reply::Duplicate));
        }
        self.plan_order(c, bases)
    }

    fn plan_order(&self, c: Class, bases: &Bases) -> Result<Plan<ClassList>, AllocError>
        requires whole { AreWhole self.now }
        requires range { c < widths.classes }
        requires free { world.row_of self.now c ≡ None }
        requires made { IsTrue (steps.are_made (world_of self.now) bases.now) }
        ensures early { is_early
            (steps.if_ordered (world_of self.now) (steps.with_class (world_of self.now) c bases.now)).reply ≡ false }
        ensures reply { IfOk result (λ plan. plan_reply plan
            ≡ (steps.if_ordered (world_of self.now) (steps.with_class (world_of self.now) c bases.now)).reply) }
        ensures order { IfOk result (λ plan. IfOk plan
            (λ order. world.order_in (new_class self.now c bases.now) c ≡ Some order)) }
        ensures refusal { IfOk result (λ plan. IfErr plan (λ refusal. steps.is_done refusal ≡ false)) }
    {
        match self.order_from(&[], c, bases.as_slice())? {
            Some(order) => Ok(Ok(order)),
            None => Ok(Err(Reply::NoOrder(c))),
        }
    }
}

pub(super) fn has_repeat(classes: &[Class]) -> bool
    ensures { result ≡ steps.has_repeat classes.now }
{
    for i in 0..classes.len() {
        if has_class(classes[i], &classes[i + 1..]) {
            return true;
        }
    }
    false
}

pub(super) fn has_class(c: Class, classes: &[Class]) -> bool
    ensures { result ≡ steps.has_number c classes.now }
{
    classes.iter().any(|class| *class == c)
}
