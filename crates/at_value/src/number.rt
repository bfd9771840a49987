//! Numbers of names, classes, objects and functions, each in its range.
ghost use Rattle.std.specs.Prelude.{◌≡◌, ◌<◌, ◌≤◌, ℕ, IfSome, IfNone};
ghost use Rattle.at_value.specs.Numbers as numbers;
ghost use Rattle.at_value.specs.Widths.{names, classes, objects, functions};

use std::marker::Model;

/// The number of an attribute name or of a text. The first five are the special names, which are looked up on classes.
#[derive(Clone, Copy, Debug, PartialEq, Eq, PartialOrd, Ord)]
pub struct Name(u16);

impl Model for Name {
    ghost Value = { ℕ };

    ghost view = { λ n. n.0 };

    ghost invariant = { λ n. n.0 < names };

    ghost inverse = { λ n. record { 0 = n } };
}

impl Name {
    /// How many names and texts a script may have, the five special names included.
    pub const COUNT: u16 = 4096;

    /// The name with this number, and none exactly from 4,096 on.
    pub fn new(n: u16) -> Option<Self>
        ensures some { IfSome result (λ name. (name ≡ n) × (n < names)) }
        ensures none { IfNone result (names ≤ n) }
    {
        if n < Self::COUNT { Some(Name(n)) } else { None }
    }

    /// The number of the name, from 0 to 4,095.
    pub fn number(self) -> u16
        ensures same { result ≡ self }
        ensures range { result < names }
    {
        self.0
    }

    /// `__get__`.
    pub fn descriptor_get() -> Name
        ensures { result ≡ numbers.descriptor_get }
    {
        Name(0)
    }

    /// `__set__`.
    pub fn descriptor_set() -> Name
        ensures { result ≡ numbers.descriptor_set }
    {
        Name(1)
    }

    /// `__delete__`.
    pub fn descriptor_delete() -> Name
        ensures { result ≡ numbers.descriptor_delete }
    {
        Name(2)
    }

    /// `__getattr__`.
    pub fn getattr() -> Name
        ensures { result ≡ numbers.getattr }
    {
        Name(3)
    }

    /// `__init__`.
    pub fn init() -> Name
        ensures { result ≡ numbers.init }
    {
        Name(4)
    }
}

/// The number of a class. Class 0 is `object`.
#[derive(Clone, Copy, Debug, PartialEq, Eq, PartialOrd, Ord)]
pub struct Class(u16);

impl Model for Class {
    ghost Value = { ℕ };

    ghost view = { λ n. n.0 };

    ghost invariant = { λ n. n.0 < classes };

    ghost inverse = { λ n. record { 0 = n } };
}

impl Class {
    /// How many classes there may be, `object` included.
    pub const COUNT: u16 = 255;

    /// The class with this number, and none exactly from 255 on.
    pub fn new(n: u16) -> Option<Self>
        ensures some { IfSome result (λ class. (class ≡ n) × (n < classes)) }
        ensures none { IfNone result (classes ≤ n) }
    {
        if n < Self::COUNT {
            Some(Class(n))
        } else {
            None
        }
    }

    /// The number of the class, from 0 to 254.
    pub fn number(self) -> u16
        ensures same { result ≡ self }
        ensures range { result < classes }
    {
        self.0
    }

    /// `object`, the class at the root of all.
    pub fn object() -> Class
        ensures { result ≡ numbers.object }
    {
        Class(0)
    }
}

/// The number of an object that is no class, by the order in which the objects were made.
#[derive(Clone, Copy, Debug, PartialEq, Eq, PartialOrd, Ord)]
pub struct Obj(u16);

impl Model for Obj {
    ghost Value = { ℕ };

    ghost view = { λ n. n.0 };

    ghost invariant = { λ n. n.0 < objects };

    ghost inverse = { λ n. record { 0 = n } };
}

impl Obj {
    /// How many objects there may be.
    pub const COUNT: u16 = 4096;

    /// The object with this number, and none exactly from 4,096 on.
    pub fn new(n: u16) -> Option<Self>
        ensures some { IfSome result (λ object. (object ≡ n) × (n < objects)) }
        ensures none { IfNone result (objects ≤ n) }
    {
        if n < Self::COUNT { Some(Obj(n)) } else { None }
    }

    /// The number of the object, from 0 to 4,095.
    pub fn number(self) -> u16
        ensures same { result ≡ self }
        ensures range { result < objects }
    {
        self.0
    }
}

/// The number of a function of the script.
#[derive(Clone, Copy, Debug, PartialEq, Eq, PartialOrd, Ord)]
pub struct Func(u16);

impl Model for Func {
    ghost Value = { ℕ };

    ghost view = { λ n. n.0 };

    ghost invariant = { λ n. n.0 < functions };

    ghost inverse = { λ n. record { 0 = n } };
}

impl Func {
    /// How many functions a script may have.
    pub const COUNT: u16 = 1024;

    /// The function with this number, and none exactly from 1,024 on.
    pub fn new(n: u16) -> Option<Self>
        ensures some { IfSome result (λ function. (function ≡ n) × (n < functions)) }
        ensures none { IfNone result (functions ≤ n) }
    {
        if n < Self::COUNT { Some(Func(n)) } else { None }
    }

    /// The number of the function, from 0 to 1,023.
    pub fn number(self) -> u16
        ensures same { result ≡ self }
        ensures range { result < functions }
    {
        self.0
    }
}
