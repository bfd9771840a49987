//! Operations: what can be asked of a world.
use crate::list::Bases;
use crate::number::{Class, Name, Obj};
use crate::value::Value;

/// An operation on a world. Writes of classes come first, then writes of objects; the last six only read.
#[derive(Clone, Copy, Debug, PartialEq, Eq)]
pub enum Op {
    /// `class C(B, ..)`: makes a class with these bases.
    NewClass(Class, Bases),
    /// `C.x = v`: puts a value into a class's own namespace.
    TypeSet(Class, Name, Value),
    /// `del C.x`: removes a name from a class's own namespace.
    TypeDel(Class, Name),
    /// `C.__bases__ = (B, ..)`: gives a class other bases.
    SetBases(Class, Bases),
    /// `C()`: makes an object of a class.
    New(Class),
    /// `o.x = v`: writes an attribute of an object.
    Set(Obj, Name, Value),
    /// `del o.x`: deletes an attribute of an object.
    Del(Obj, Name),
    /// `o.__class__ = C`: gives an object another class.
    SetClass(Obj, Class),
    /// `o.__dict__ = p.__dict__`: the first object takes the dictionary of the second.
    Share(Obj, Obj),
    /// `o.x`: reads an attribute of an object.
    Get(Obj, Name),
    /// `C.x`: reads an attribute of a class.
    TypeGet(Class, Name),
    /// `super(K, o).x`: reads an attribute after class K in the order of o's class.
    Super(Class, Obj, Name),
    /// The implicit look-up of a special method of an object, which passes over the object's own dictionary.
    Special(Obj, Name),
    /// `o.__class__`: reads the class of an object.
    ClassOf(Obj),
    /// `C.__mro__`: reads the order of a class.
    Mro(Class),
}
