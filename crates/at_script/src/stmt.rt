//! Statements of a script.
ghost use Rattle.std.specs.Prelude.{◌≡◌};

use at_value::{Bases, Class, Func, Name, Value};

/// Where a statement takes a value from.
#[derive(Clone, Copy, Debug, PartialEq, Eq)]
pub enum Operand {
    /// A value that is written out. It is never an object.
    Value(Value),
    /// The variable with this number.
    Var(u16),
    /// What the running function was called on: an object, or a class; none outside a call, and where it was called as
    /// a plain value or as a staticmethod.
    SelfArg,
    /// The argument of the running function.
    Arg,
    /// The other argument of a hook.
    Other,
    /// The result of the last read or call.
    It,
}

/// What a statement works on: an object, or for some statements a class.
#[derive(Clone, Copy, Debug, PartialEq, Eq)]
pub enum Target {
    /// A class.
    Class(Class),
    /// The variable with this number.
    Var(u16),
    /// What the running function was called on: an object, or a class; none outside a call, and where it was called as
    /// a plain value or as a staticmethod.
    SelfArg,
    /// The argument of the running function.
    Arg,
    /// The other argument of a hook.
    Other,
    /// The result of the last read or call.
    It,
}

impl From<Target> for Operand {
    ghost use Rattle.at_script.specs.Operands.{operand_of};

    ghost from_gives = { λ target operand. operand ≡ operand_of target };

    /// The operand with the value of the target.
    fn from(target: Target) -> Operand {
        match target {
            Target::Class(class) => Operand::Value(Value::Class(class)),
            Target::Var(variable) => Operand::Var(variable),
            Target::SelfArg => Operand::SelfArg,
            Target::Arg => Operand::Arg,
            Target::Other => Operand::Other,
            Target::It => Operand::It,
        }
    }
}

/// A statement.
#[derive(Clone, Copy, Debug, PartialEq, Eq)]
pub enum Stmt {
    /// `class C B..`: makes a class. A line without bases has the lone base `object`.
    Class(Class, Bases),
    /// `bases C B..`: gives a class other bases.
    Bases(Class, Bases),
    /// `put C.x V`: puts a value into a class's own namespace.
    Put(Class, Name, Operand),
    /// `cut C.x`: removes a name from a class's own namespace.
    Cut(Class, Name),
    /// `new a C [V]`: makes an object, binds a variable to it, and passes a value to `__init__`.
    New(u16, Class, Option<Operand>),
    /// `set R.x V`: writes an attribute.
    Set(Target, Name, Operand),
    /// `del R.x`: deletes an attribute.
    Del(Target, Name),
    /// `get R.x`: reads an attribute of an object or a class.
    Get(Target, Name),
    /// `turn R C`: gives an object another class.
    Turn(Target, Class),
    /// `share R R`: the first object takes the dictionary of the second.
    Share(Target, Target),
    /// `super C R.x`: reads an attribute after a class in the order of the object's class.
    Super(Class, Target, Name),
    /// `special R.x`: looks a special method of an object up.
    Special(Target, Name),
    /// `classof R`: reads the class of an object.
    ClassOf(Target),
    /// `mro C`: reads the order of a class.
    Mro(Class),
    /// `call R.x [V]`: reads an attribute and calls it.
    Call(Target, Name, Option<Operand>),
    /// `callsuper C R.x [V]`: reads after a class and calls what is found.
    CallSuper(Class, Target, Name, Option<Operand>),
    /// `let a V`: binds a variable to a value.
    Let(u16, Operand),
    /// `return V`: ends a function with a value.
    Return(Operand),
    /// `begin R [R]`: opens a section over one object or two.
    Begin(Target, Option<Target>),
    /// `finish`: ends the section.
    Finish,
    /// `checkpoint`: no read of this thread is under way.
    Checkpoint,
}

/// A block of statements of a script.
#[derive(Clone, Copy, Debug, PartialEq, Eq)]
pub enum Block {
    /// The statements that run first.
    Main,
    /// Those of a thread, by its number from 0.
    Thread(u8),
    /// Those that run last.
    Finally,
    /// The body of a function.
    Func(Func),
}
