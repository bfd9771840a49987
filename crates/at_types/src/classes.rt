//! The classes by number: their rows, the order of each, and the tree of subclasses.
ghost use Rattle.std.specs.Prelude.{◌≡◌, ◌≤◌, ◌<◌, [], ℕ, IsTrue, IfOk, All, Contains, ◌↔◌, drop, length, is_some, false, slice_get, slice_index, option_map};
ghost use Rattle.std.specs.List.{list_all};
ghost use Rattle.std.specs.Option.{option_copied};
ghost use Rattle.at_value.specs.Pairs.{value_at};
ghost use Rattle.at_value.specs.Widths as widths;
ghost use Rattle.at_model.specs.World as world;
ghost use Rattle.at_model.specs.Attributes.{classes_after};
ghost use Rattle.at_model.specs.Step.{is_in_order};
ghost use Rattle.at_types.specs.Lookups.{found_in, found_after};
ghost use Rattle.at_types.specs.Kept.{AreWhole, opening_orders};
ghost use Rattle.at_types.specs.Subclasses.{IsSubclassWalk, AreClosedBelow, IsBelow};

mod defining;
mod links;
mod naming;
mod orders;
mod rebasing;

use at_model::ClassRow;
use at_tree::Tree;
use at_value::{Bases, Class, ClassList, Name, Pairs, Reply, Value};
use std::alloc::{AllocError, Global};
use std::marker::Model;

pub(crate) const CLASSES: usize = Class::COUNT as usize;

/// What comes of an operation: what was computed to do it, or the reply that refuses it.
pub(crate) type Plan<T> = Result<T, Reply>;

/// The rows of the classes, none where a class isn't made. Beside each row stand the order of its class and its direct
/// subclasses. Contracts see the rows.
#[derive(Drop)]
pub(crate) struct Classes {
    rows: Vec<Option<ClassRow>>,
    orders: Vec<ClassList>,
    subclasses: Tree,
    alloc: Global,
}

impl Model for Classes {
    ghost use Rattle.std.specs.Prelude.{List, Option};
    ghost use Rattle.at_model.specs.declared.rows.ClassRow.{ClassRow};
    ghost use Rattle.at_types.specs.Kept.{AreKept};

    ghost Value = { List (Option ClassRow) };

    ghost view = { λ c. c.rows.items };

    ghost invariant = { λ c. AreKept c.rows.items c.orders.items c.subclasses };
}

impl Classes {
    /// The class `object` alone.
    pub(crate) fn new(alloc: Global) -> Result<Classes, AllocError>
        ensures { IfOk result (λ classes. classes ≡ world.opening.classes) }
    {
        Ok(Classes {
            rows: first_rows(alloc)?,
            orders: first_orders(alloc)?,
            subclasses: Tree::new(alloc, Class::COUNT)?,
            alloc,
        })
    }

    pub(crate) fn invariant(&self)
        ensures { AreWhole self.now }
    {
        let _ = &self.rows;
    }

    pub(crate) fn is_made(&self, c: Class) -> bool
        ensures made { result ≡ is_some (world.row_of self.now c) }
        ensures range { c < widths.classes }
        ensures whole { AreWhole self.now }
    {
        row_at(&self.rows, c).is_some()
    }

    pub(crate) fn are_made(&self, classes: &[Class]) -> bool
        ensures { result ≡ list_all (λ c. is_some (world.row_of self.now c)) classes.now }
    {
        classes.iter().all(|c| self.is_made(*c))
    }

    pub(crate) fn order_of(&self, c: Class) -> Option<&ClassList>
        ensures order { option_copied result ≡ world.order_in self.now c }
        ensures made { is_some result ≡ is_some (world.row_of self.now c) }
    {
        if self.is_made(c) {
            Some(&self.orders[usize::from(c.number())])
        } else {
            None
        }
    }

    pub(crate) fn find(&self, c: Class, n: Name) -> Option<Value>
        ensures { result ≡ found_in self.now c n }
    {
        match self.order_of(c) {
            Some(order) => find_from(&self.rows, order, 0, n),
            None => None,
        }
    }

    /// The name's value in the first class after k in the order of c that has it.
    pub(crate) fn find_after(&self, k: Class, c: Class, n: Name) -> Option<Value>
        ensures { result ≡ found_after self.now k c n }
    {
        let order = self.order_of(c)?;
        let start = place_after(order, k)?;
        find_from(&self.rows, order, start, n)
    }

    pub(crate) fn own_value(&self, c: Class, n: Name) -> Option<Value>
        ensures { result ≡ value_at n (world.own_of (world.row_of self.now c)) }
    {
        own_value(&self.rows, c, n)
    }

    pub(crate) fn own_at(&self, c: Class, i: usize) -> Option<(Name, Value)>
        ensures { result ≡ slice_get (world.own_of (world.row_of self.now c)) i }
    {
        match row_at(&self.rows, c) {
            Some(row) => row.own.at(i),
            None => None,
        }
    }

    pub(crate) fn below(&self, c: Class, stop: &[bool]) -> Result<Vec<u16>, AllocError>
        requires { length stop.now ≡ widths.classes }
        ensures walk { IfOk result (λ list. IsSubclassWalk self.now stop.now c list.items) }
        ensures unmarked { IfOk result (λ list.
            All (λ marked. marked ≡ false) stop.now → IsTrue (is_some (world.row_of self.now c))
            → (d : ℕ) → Contains list.items d ↔ IsTrue (is_in_order c (world.order_in self.now d))) }
        ensures below { IfOk result (λ list. IsTrue (is_some (world.row_of self.now c))
            → (d : ℕ) → Contains list.items d → IsTrue (is_in_order c (world.order_in self.now d))) }
        ensures closed { IfOk result (λ list. AreClosedBelow self.now stop.now
            → IsTrue (is_some (world.row_of self.now c)) → IsBelow self.now stop.now c list.items) }
    {
        self.subclasses.below(c.number(), stop)
    }
}

fn first_rows(alloc: Global) -> Result<Vec<Option<ClassRow>>, AllocError>
    ensures { IfOk result (λ rows. rows.items ≡ world.opening.classes) }
{
    let mut rows = Vec::with_capacity(alloc, CLASSES)?;
    rows.push_reserved(Some(ClassRow {
        bases: Bases::none(),
        own: Pairs::new(alloc),
    }));
    for _ in 1..CLASSES {
        rows.push_reserved(None);
    }
    Ok(rows)
}

/// The order of `object` is itself; an empty list stands beside each other class.
fn first_orders(alloc: Global) -> Result<Vec<ClassList>, AllocError>
    ensures { IfOk result (λ orders. orders.items ≡ opening_orders) }
{
    let mut orders = Vec::with_capacity(alloc, CLASSES)?;
    orders.push_reserved(ClassList::copy_of(alloc, &[Class::object()])?);
    for _ in 1..CLASSES {
        orders.push_reserved(ClassList::copy_of(alloc, &[])?);
    }
    Ok(orders)
}

fn row_at(rows: &[Option<ClassRow>], c: Class) -> Option<&ClassRow>
    ensures row { option_copied result ≡ world.row_of rows.now c }
    ensures range { c < widths.classes }
{
    match rows.get(usize::from(c.number())) {
        Some(row) => row.as_ref(),
        None => None,
    }
}

fn own_value(rows: &[Option<ClassRow>], c: Class, n: Name) -> Option<Value>
    ensures { result ≡ value_at n (world.own_of (world.row_of rows.now c)) }
{
    match row_at(rows, c) {
        Some(row) => row.own.get(n),
        None => None,
    }
}

/// The name's value in the first class that has it, of those of the order from this index on.
fn find_from(rows: &[Option<ClassRow>], order: &ClassList, start: usize, n: Name) -> Option<Value>
    ensures { result ≡ world.find_along rows.now (drop start order.now) n }
{
    for i in start..order.len() {
        if let Some(value) = own_value(rows, class_at(order, i), n) {
            return Some(value);
        }
    }
    None
}

/// The index after that of the class in the order.
fn place_after(order: &ClassList, k: Class) -> Option<usize>
    ensures { option_map (λ i. drop i order.now) result ≡ classes_after k order.now }
{
    for i in 0..order.len() {
        if class_at(order, i) == k {
            return Some(i + 1);
        }
    }
    None
}

fn class_at(order: &ClassList, i: usize) -> Class
    requires { i < length order.now }
    ensures { result ≡ slice_index order.now i }
{
    order.at(i).unwrap()
}
