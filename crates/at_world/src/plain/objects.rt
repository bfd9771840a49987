//! Operations that make and change objects.
ghost use Rattle.std.specs.Prelude.{◌≡◌, ◌<◌, [], false, None, IfOk, IsOk, IsSome, IsTrue};
ghost use Rattle.std.specs.Prelude.{OnOk, OnErr, slice_get, slice_set, slice_index_or, length};
ghost use Rattle.at_value.specs.Pairs.{value_at, with_value, without};
ghost use Rattle.at_desc.specs.Binding.{bound_set, bound_del};
ghost use Rattle.at_model.specs.World as world;
ghost use Rattle.at_model.specs.Attributes as attributes;
ghost use Rattle.at_model.specs.Step as steps;
ghost use Rattle.at_world.specs.Plain.{IsOutcome, is_in_dict, own_deleted, wants_memory};

use super::Plain;
use at_desc::{Step, bind_del, bind_set};
use at_model::Object;
use at_value::{Class, Name, Obj, Pairs, Reply, Value};
use std::alloc::AllocError;

impl Plain {
    pub(super) fn new_object(&mut self, c: Class) -> Result<Reply, AllocError>
        ensures ok { IfOk result (IsOutcome (steps.new_effect self.old.world c) self.old self.new) }
        ensures err { OnErr result (self.new ≡ self.old) }
        ensures refused { wants_memory (steps.new_effect self.old.world c).reply ≡ false → IsOk result }
    {
        if c == Class::object() {
            return Ok(Reply::Immutable);
        }
        let Some(o) = Obj::new(self.objects.len() as u16) else {
            return Ok(Reply::Full);
        };
        let init = self.find(c, Name::init());
        self.objects.reserve(1)?;
        self.dicts.push(Pairs::new(self.alloc))?;
        self.objects.push_reserved(Object { class: c, dict: o });
        Ok(Reply::Made(o, init))
    }

    pub(super) fn set(&mut self, o: Obj, n: Name, v: &Value) -> Result<Reply, AllocError>
        ensures ok { IfOk result (IsOutcome (attributes.set_effect self.old.world o n v.now) self.old self.new) }
        ensures err { OnErr result (self.new ≡ self.old) }
        ensures there { IsTrue (is_in_dict self.old.world n (slice_get self.old.world.objects o)) → IsOk result }
        ensures refused { wants_memory (attributes.set_effect self.old.world o n v.now).reply ≡ false → IsOk result }
    {
        let Some(object) = self.object_at(o) else {
            return Ok(Reply::NoAttr);
        };
        match self.set_step(&object, o, n, v) {
            Step::Says(reply) => Ok(reply),
            Step::Own => {
                put_in_dict(&mut self.dicts, object.dict, n, *v)?;
                Ok(Reply::Done)
            }
        }
    }

    fn set_step(&self, object: &Object, o: Obj, n: Name, v: &Value) -> Step
        ensures { result ≡ (let t = world.find_in self.now.world object.now.class n in
            bound_set t (attributes.three_of self.now.world t) o v.now) }
    {
        let t = self.find(object.class, n);
        let three = self.three_of(&t);
        bind_set(t, &three, o, *v)
    }

    pub(super) fn del(&mut self, o: Obj, n: Name) -> Reply
        ensures { IsOutcome (attributes.del_effect self.old.world o n) self.old self.new result }
    {
        let Some(object) = self.object_at(o) else {
            return Reply::NoAttr;
        };
        match self.del_step(&object, o, n) {
            Step::Says(reply) => reply,
            Step::Own => self.del_own(&object, n),
        }
    }

    fn del_step(&self, object: &Object, o: Obj, n: Name) -> Step
        ensures { result ≡ (let t = world.find_in self.now.world object.now.class n in
            bound_del t (attributes.three_of self.now.world t) o) }
    {
        let t = self.find(object.class, n);
        let three = self.three_of(&t);
        bind_del(t, &three, o)
    }

    fn del_own(&mut self, object: &Object, n: Name) -> Reply
        ensures { IsOutcome (own_deleted self.old.world object.now n) self.old self.new result }
    {
        match cut_in_dict(&mut self.dicts, object.dict, n) {
            Some(_) => Reply::Done,
            None => Reply::NoAttr,
        }
    }

    pub(super) fn set_class(&mut self, o: Obj, c: Class) -> Reply
        ensures { let was = slice_get self.old.world.objects o in
            IsOutcome (steps.set_class_on self.old.world o c was) self.old self.new result }
    {
        let Some(was) = self.object_at(o) else {
            return Reply::NoAttr;
        };
        if c == Class::object() {
            return Reply::Immutable;
        }
        replace_object(&mut self.objects, o, Object { class: c, ..was });
        Reply::Done
    }

    pub(super) fn share(&mut self, o: Obj, p: Obj) -> Reply
        ensures { IsOutcome
            (steps.share_on self.old.world o (slice_get self.old.world.objects o) (slice_get self.old.world.objects p))
            self.old self.new result }
    {
        let Some(was) = self.object_at(o) else {
            return Reply::NoAttr;
        };
        let Some(other) = self.object_at(p) else {
            return Reply::NoAttr;
        };
        let dict = other.dict;
        replace_object(&mut self.objects, o, Object { dict, ..was });
        Reply::Done
    }
}

fn put_in_dict(dicts: &mut [Pairs], d: Obj, n: Name, v: Value) -> Result<(), AllocError>
    ensures ok { OnOk result (dicts.new ≡ slice_set dicts.old d (with_value n v (slice_index_or dicts.old d []))) }
    ensures err { OnErr result (dicts.new ≡ dicts.old) }
    ensures there { IsSome (value_at n (slice_index_or dicts.old d [])) → IsOk result }
{
    let i = usize::from(d.number());
    if i < dicts.len() {
        dicts[i].put(n, v)?;
    }
    Ok(())
}

/// Takes a name out of a dictionary, and gives the value that it had.
fn cut_in_dict(dicts: &mut [Pairs], d: Obj, n: Name) -> Option<Value>
    ensures value { result ≡ value_at n (slice_index_or dicts.old d []) }
    ensures names { dicts.new ≡ slice_set dicts.old d (without n (slice_index_or dicts.old d [])) }
    ensures absent { result ≡ None → dicts.new ≡ dicts.old }
{
    let i = usize::from(d.number());
    if i < dicts.len() {
        dicts[i].cut(n)
    } else {
        None
    }
}

fn replace_object(objects: &mut [Object], o: Obj, now: Object)
    ensures { objects.new ≡ slice_set objects.old o now }
{
    let i = usize::from(o.number());
    if i < objects.len() {
        objects[i] = now;
    }
}
