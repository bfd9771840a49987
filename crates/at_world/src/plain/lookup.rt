//! Look-ups: of classes, their orders, objects and dictionaries, and of names in them.
ghost use Rattle.std.specs.Prelude.{◌≡◌, None, IfOk, IsOk, length, nat_lt, slice_get};
ghost use Rattle.std.specs.Option.{option_copied};
ghost use Rattle.at_value.specs.Pairs.{value_at};
ghost use Rattle.at_model.specs.World as world;
ghost use Rattle.at_model.specs.Attributes as attributes;
ghost use Rattle.at_model.specs.Step as steps;

use super::Plain;
use at_desc::Three;
use at_model::{ClassRow, Object};
use at_value::{Class, ClassList, Name, Obj, Value};
use std::alloc::AllocError;

/// What an object has that is no descriptor.
const NO_THREE: Three = Three {
    get: None,
    set: None,
    del: None,
};

impl Plain {
    pub(super) fn has_class(&self, c: Class) -> bool
        ensures { result ≡ steps.is_made self.now.world c }
    {
        class_row(&self.classes, c.number()).is_some()
    }

    pub(super) fn order_of(&self, c: Class) -> Option<&[u16]>
        ensures { option_copied result ≡ world.order_of self.now.world c }
    {
        if self.has_class(c) {
            Some(self.orders[usize::from(c.number())].as_slice())
        } else {
            None
        }
    }

    pub(super) fn find(&self, c: Class, n: Name) -> Option<Value>
        ensures { result ≡ world.find_in self.now.world c n }
    {
        match self.order_of(c) {
            Some(order) => find_along_order(&self.classes, order, n),
            None => None,
        }
    }

    /// What the class of an object that stands as a value has as a descriptor.
    pub(super) fn three_of(&self, t: &Option<Value>) -> Three
        ensures { result ≡ attributes.three_of self.now.world t.now }
    {
        match t {
            Some(Value::Obj(d)) => match self.object_at(*d) {
                Some(object) => self.three_in(object.class),
                None => NO_THREE,
            },
            _ => NO_THREE,
        }
    }

    fn three_in(&self, c: Class) -> Three
        ensures { result ≡ attributes.three_in self.now.world c }
    {
        Three {
            get: self.find(c, Name::descriptor_get()),
            set: self.find(c, Name::descriptor_set()),
            del: self.find(c, Name::descriptor_delete()),
        }
    }

    pub(super) fn order_after(&self, k: Class, c: Class) -> Option<&[u16]>
        ensures { option_copied result ≡ attributes.classes_after_in k (world.order_of self.now.world c) }
    {
        match self.order_of(c) {
            Some(order) => classes_after(k.number(), order),
            None => None,
        }
    }

    pub(super) fn order_list(&self, c: Class) -> Result<Option<ClassList>, AllocError>
        ensures ok { IfOk result (λ list. list ≡ world.order_of self.now.world c) }
        ensures none { world.order_of self.now.world c ≡ None → IsOk result }
    {
        match self.order_of(c) {
            Some(order) => Ok(Some(ClassList::of_numbers(self.alloc, order)?)),
            None => Ok(None),
        }
    }

    pub(super) fn has_object(&self, o: Obj) -> bool
        ensures { result ≡ nat_lt o (length self.now.world.objects) }
    {
        usize::from(o.number()) < self.objects.len()
    }

    pub(super) fn object_at(&self, o: Obj) -> Option<Object>
        ensures { result ≡ slice_get self.now.world.objects o }
    {
        self.objects.get(usize::from(o.number())).copied()
    }

    pub(super) fn own_value(&self, object: &Object, n: Name) -> Option<Value>
        ensures { result ≡ value_at n (attributes.dict_of self.now.world object.now) }
    {
        match self.dicts.get(usize::from(object.dict.number())) {
            Some(dict) => dict.get(n),
            None => None,
        }
    }
}

pub(super) fn class_row(classes: &[Option<ClassRow>], c: u16) -> Option<&ClassRow>
    ensures { option_copied result ≡ world.row_of classes.now c }
{
    match classes.get(usize::from(c)) {
        Some(row) => row.as_ref(),
        None => None,
    }
}

fn own_value(classes: &[Option<ClassRow>], c: u16, n: Name) -> Option<Value>
    ensures { result ≡ value_at n (world.own_of (world.row_of classes.now c)) }
{
    match class_row(classes, c) {
        Some(row) => row.own.get(n),
        None => None,
    }
}

pub(super) fn find_along_order(
    classes: &[Option<ClassRow>],
    order: &[u16],
    n: Name,
) -> Option<Value>
    ensures { result ≡ world.find_along classes.now order.now n }
{
    for c in order {
        if let Some(value) = own_value(classes, *c, n) {
            return Some(value);
        }
    }
    None
}

fn classes_after(k: u16, order: &[u16]) -> Option<&[u16]>
    ensures { option_copied result ≡ attributes.classes_after k order.now }
{
    for i in 0..order.len() {
        if order[i] == k {
            return Some(&order[i + 1..]);
        }
    }
    None
}
