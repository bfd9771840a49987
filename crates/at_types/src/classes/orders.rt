//! Orders that are computed from those of the bases.
ghost use Rattle.std.specs.Prelude.{◌≡◌, ℕ, List, Some, None, Option, IfOk, IfSome, IsErrOf, map, option_map};
ghost use Rattle.std.specs.Option.{option_copied};
ghost use Rattle.at_value.specs.Classes.{AreClasses};
ghost use Rattle.at_c3.specs.Merge.{order_of_lists};
ghost use Rattle.at_model.specs.World as world;
ghost use Rattle.at_types.specs.Renewing.{order_now, lists_of, AllAreClasses};

use super::{Classes, class_at};
use at_c3::{List, MergeFault};
use at_value::{Class, ClassList};
use smallvec::SmallVec;
use std::alloc::{AllocError, Global};

/// The order of a class, and none where it has no order.
pub(super) type NewOrder = Option<ClassList>;

impl Classes {
    /// The order of class c with these bases, by the orders that the bases have now.
    pub(super) fn order_from(
        &self,
        renewed: &[Option<NewOrder>],
        c: Class,
        bases: &[Class],
    ) -> Result<NewOrder, AllocError>
        ensures { IfOk result (λ order.
            order ≡ world.merged_order c bases.now (world.all_orders (map (order_now self.now renewed.now) bases.now))) }
    {
        let Some(orders) = self.orders_of(renewed, bases)? else {
            return Ok(None);
        };
        merged(self.alloc, c, bases, &orders)
    }

    /// The orders that these classes have now, and none where one of them has no order.
    fn orders_of(
        &self,
        renewed: &[Option<NewOrder>],
        bases: &[Class],
    ) -> Result<Option<Vec<List>>, AllocError>
        ensures orders { IfOk result (λ orders.
            option_map (λ o. lists_of o.items) orders ≡ world.all_orders (map (order_now self.now renewed.now) bases.now)) }
        ensures classes { IfOk result (λ orders. IfSome orders (λ o. AllAreClasses (lists_of o.items))) }
    {
        let mut orders = Vec::with_capacity(self.alloc, bases.len())?;
        for base in bases {
            let Some(order) = self.order_now(renewed, *base) else {
                return Ok(None);
            };
            orders.push(numbers_of(self.alloc, order)?)?;
        }
        Ok(Some(orders))
    }

    /// The order that was computed anew for a class, and else its stored order.
    fn order_now<'a>(&'a self, renewed: &'a [Option<NewOrder>], c: Class) -> Option<&'a ClassList>
        ensures { option_copied result ≡ order_now self.now renewed.now c }
    {
        match renewed.get(usize::from(c.number())) {
            Some(Some(order)) => order.as_ref(),
            _ => self.order_of(c),
        }
    }
}

fn merged(alloc: Global, c: Class, bases: &[Class], orders: &[List]) -> Result<NewOrder, AllocError>
    requires { AllAreClasses (lists_of orders.now) }
    ensures { IfOk result (λ order. order ≡ order_of_lists c bases.now (lists_of orders.now)) }
{
    let mut numbers: SmallVec<u16, 8> = SmallVec::new(alloc);
    for base in bases {
        numbers.push(base.number())?;
    }
    match at_c3::order(alloc, c.number(), numbers.as_slice(), orders) {
        Ok(order) => Ok(Some(ClassList::of_numbers(alloc, order.as_slice())?)),
        Err(MergeFault::NoHead) => Ok(None),
        Err(MergeFault::NoMemory) => Err(AllocError),
    }
}

/// The numbers of the classes of a list.
fn numbers_of(alloc: Global, classes: &ClassList) -> Result<List, AllocError>
    ensures numbers { IfOk result (λ list. list.items ≡ classes.now) }
    ensures classes { IfOk result (λ list. AreClasses list.items) }
{
    let mut numbers = SmallVec::with_capacity(alloc, classes.len())?;
    for i in 0..classes.len() {
        numbers.push(class_at(classes, i).number())?;
    }
    Ok(numbers)
}
