//! Operations that read.
ghost use Rattle.std.specs.Prelude.{◌≡◌, false, IfOk, IsOk};
ghost use Rattle.at_model.specs.Attributes as attributes;
ghost use Rattle.at_world.specs.Plain.{wants_memory};
ghost use Rattle.at_world.specs.Reading.{asks_getattr};

use super::Plain;
use super::lookup::find_along_order;
use at_desc::{bind_class, bind_get, bind_special};
use at_value::{Class, Name, Obj, Reply, Value};
use std::alloc::AllocError;

impl Plain {
    pub(super) fn get(&self, o: Obj, n: Name) -> Reply
        ensures { result ≡ attributes.get_reply self.now.world o n }
    {
        let Some(object) = self.object_at(o) else {
            return Reply::NoAttr;
        };
        let t = self.find(object.class, n);
        let three = self.three_of(&t);
        let own = self.own_value(&object, n);
        if asks_getattr(&t, &own) {
            let getattr = self.find(object.class, Name::getattr());
            bind_get(t, &three, own, o, object.class, n, getattr)
        } else {
            bind_get(t, &three, own, o, object.class, n, None)
        }
    }

    /// The look-up of a special method of an object, which passes over the object's own dictionary.
    pub(super) fn special(&self, o: Obj, n: Name) -> Reply
        ensures { result ≡ attributes.special_reply self.now.world o n }
    {
        let Some(object) = self.object_at(o) else {
            return Reply::NoAttr;
        };
        let t = self.find(object.class, n);
        let three = self.three_of(&t);
        bind_special(t, &three, o, object.class)
    }

    pub(super) fn super_get(&self, k: Class, o: Obj, n: Name) -> Reply
        ensures { result ≡ attributes.super_reply self.now.world k o n }
    {
        let Some(object) = self.object_at(o) else {
            return Reply::NoAttr;
        };
        let Some(rest) = self.order_after(k, object.class) else {
            return Reply::NotSubclass;
        };
        let t = find_along_order(&self.classes, rest, n);
        let three = self.three_of(&t);
        bind_special(t, &three, o, object.class)
    }

    pub(super) fn type_get(&self, c: Class, n: Name) -> Reply
        ensures { result ≡ attributes.type_get_reply self.now.world c n }
    {
        let t = self.find(c, n);
        let three = self.three_of(&t);
        bind_class(t, &three, c)
    }

    pub(super) fn class_of(&self, o: Obj) -> Reply
        ensures { result ≡ attributes.class_of_reply self.now.world o }
    {
        match self.object_at(o) {
            Some(object) => Reply::Value(Value::Class(object.class)),
            None => Reply::NoAttr,
        }
    }

    pub(super) fn mro(&self, c: Class) -> Result<Reply, AllocError>
        ensures ok { IfOk result (λ reply. reply ≡ attributes.mro_reply self.now.world c) }
        ensures refused { wants_memory (attributes.mro_reply self.now.world c) ≡ false → IsOk result }
    {
        match self.order_list(c)? {
            Some(order) => Ok(Reply::Order(order)),
            None => Ok(Reply::NoClass),
        }
    }
}

/// Whether a read has to know the `__getattr__` of the class: it finds nothing, or a property without a getter.
fn asks_getattr(t: &Option<Value>, own: &Option<Value>) -> bool
    ensures { result ≡ asks_getattr t.now own.now }
{
    match t {
        None => own.is_none(),
        Some(Value::Prop(property)) => property.get().is_none(),
        Some(_) => false,
    }
}
