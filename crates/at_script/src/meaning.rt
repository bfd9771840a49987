//! What an identifier is numbered as.
ghost use Rattle.std.specs.Prelude.{◌≡◌, min};

use at_value::{Class, Func};

/// What an identifier is numbered as: a line may declare it as a class and another as a function, and an attribute may
/// be called as a variable is. Past the last class or function that there may be, each has the number of the first that
/// is one too many.
#[derive(Clone, Copy, PartialEq, Eq)]
pub struct Meaning {
    pub class: Option<u16>,
    pub func: Option<u16>,
    pub var: Option<u16>,
    pub name: Option<u16>,
}

/// An identifier that nothing numbers.
pub const NO_MEANING: Meaning = Meaning {
    class: None,
    func: None,
    var: None,
    name: None,
};

/// The number of a class, or of the first that is one too many.
pub fn class_number(number: usize) -> u16
    ensures { result ≡ min number Class.COUNT }
{
    number.min(usize::from(Class::COUNT)) as u16
}

/// The number of a function, or of the first that is one too many.
pub fn func_number(number: usize) -> u16
    ensures { result ≡ min number Func.COUNT }
{
    number.min(usize::from(Func::COUNT)) as u16
}
