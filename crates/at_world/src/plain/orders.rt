//! Stored orders, a list for each class number, and orders that are computed from them.
ghost use Rattle.std.specs.Prelude.{◌≡◌, ◌≤◌, ◌<◌, [], ℕ, Some, None, IfOk, IsErrOf};
ghost use Rattle.std.specs.Prelude.{length, map, slice_index_or, slice_set};
ghost use Rattle.std.specs.List.{list_any};
ghost use Rattle.at_value.specs.Widths as widths;
ghost use Rattle.at_c3.specs.Merge.{order_of_lists};
ghost use Rattle.at_model.specs.Step.{is_empty};
ghost use Rattle.at_world.specs.Plain.{lists_of, orders_at, order_or_none, order_by};

use at_c3::{List, MergeFault, order_of_slices};
use at_value::Class;
use smallvec::SmallVec;
use std::alloc::{AllocError, Global};

pub(super) fn order_from(
    alloc: Global,
    orders: &[List],
    c: u16,
    bases: &[Class],
) -> Result<List, MergeFault>
    requires { length orders.now ≡ widths.classes }
    ensures ordered { IfOk result
        (λ order. order_of_lists c bases.now (orders_at (lists_of orders.now) bases.now) ≡ Some order.items) }
    ensures none { IsErrOf result MergeFault.NoHead
        → order_of_lists c bases.now (orders_at (lists_of orders.now) bases.now) ≡ None }
{
    let mut numbers: SmallVec<u16, 8> = SmallVec::new(alloc);
    let mut found: SmallVec<&[u16], 8> = SmallVec::new(alloc);
    for base in bases {
        numbers.push(base.number())?;
        found.push(orders[usize::from(base.number())].as_slice())?;
    }
    order_of_slices(alloc, c, numbers.as_slice(), found.as_slice())
}

/// The empty list stands for no order, also of the bases.
pub(super) fn order_or_empty(
    alloc: Global,
    orders: &[List],
    c: u16,
    bases: &[Class],
) -> Result<List, AllocError>
    requires { length orders.now ≡ widths.classes }
    ensures { IfOk result (λ order. order_or_none order.items ≡ order_by (lists_of orders.now) c bases.now) }
{
    if has_unordered(orders, bases) {
        return Ok(SmallVec::new(alloc));
    }
    match order_from(alloc, orders, c, bases) {
        Ok(order) => Ok(order),
        Err(MergeFault::NoHead) => Ok(SmallVec::new(alloc)),
        Err(MergeFault::NoMemory) => Err(AllocError),
    }
}

fn has_unordered(orders: &[List], classes: &[Class]) -> bool
    requires { length orders.now ≡ widths.classes }
    ensures { result ≡ list_any (λ c. is_empty (slice_index_or (lists_of orders.now) c [])) classes.now }
{
    classes.iter().any(|c| is_empty_at(orders, c.number()))
}

pub(super) fn is_empty_at(orders: &[List], c: u16) -> bool
    requires { c < length orders.now }
    ensures { result ≡ is_empty (slice_index_or (lists_of orders.now) c []) }
{
    orders[usize::from(c)].is_empty()
}

pub(super) fn copies_of(alloc: Global, orders: &[List]) -> Result<Vec<List>, AllocError>
    ensures { IfOk result (λ copies. lists_of copies.items ≡ lists_of orders.now) }
{
    let mut copies = Vec::with_capacity(alloc, orders.len())?;
    for order in orders {
        copies.push(SmallVec::from_slice(alloc, order.as_slice())?)?;
    }
    Ok(copies)
}

pub(super) fn put_order(orders: &mut [List], c: u16, order: List)
    requires { c < length orders.old }
    ensures { lists_of orders.new ≡ slice_set (lists_of orders.old) c order.items }
{
    orders[usize::from(c)] = order;
}

pub(super) fn longest_len(orders: &[List]) -> usize
    ensures { (i : ℕ) → length (slice_index_or (lists_of orders.now) i []) ≤ result }
{
    let mut longest = 0;
    for order in orders {
        let len = order.len();
        if len > longest {
            longest = len;
        }
    }
    longest
}
