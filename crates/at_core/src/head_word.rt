//! What the word of a head says.
ghost use Rattle.std.specs.Prelude.{◌≡◌, ◌<◌};
ghost use Rattle.at_value.specs.Widths.{classes};
ghost use Rattle.at_core.specs.Heads.{class_of, shape_of};

use at_value::{Class, Obj};

/// The layout of an object whose values stand in its inline words.
pub(crate) const INLINE: u64 = 1;

/// The class that a head names.
pub(crate) fn class_in(head: u64) -> Class
    requires { class_of head < classes }
    ensures { result ≡ class_of head }
{
    Class::new((head / 0x100_0000_0000 % 0x100) as u16).unwrap()
}

/// The layout that a head has.
pub(crate) fn layout_in(head: u64) -> u64
    ensures { result ≡ (shape_of head).layout }
{
    head / 0x1_0000_0000_0000 % 4
}

/// The row of the dictionary that a head names.
pub(crate) fn row_in(head: u64) -> Obj
    ensures { result ≡ (shape_of head).row }
{
    Obj::new((head / 0x4_0000_0000_0000 % 0x1000) as u16).unwrap()
}
