//! Writes of classes: each in a section of its own with the lock of the types, which it waits for where another pass holds it. They
//! ask that the pass is in fewer than 20 sections, and in none of the types. `PlaceFull` comes exactly where the place that was
//! loaded under the lock isn't below the limit of the world, and the operation would have been a write there. Where a write is
//! refused, and where it fails, nothing changes.
ghost use Rattle.std.specs.Prelude.{◌<◌, length, IfOk, IfErr};
ghost use Rattle.at_value.specs.declared.operation.Op.TheVariants as ops;
ghost use Rattle.at_core.specs.Passes.{notes, IsOf};
ghost use Rattle.at_section.specs.Surfaces.{Surface};
ghost use Rattle.at_class.specs.Changes.{IsChange, IsFault};

use crate::changing::change;
use crate::fault::ClassFault;
use at_core::note::MOST_NOTES;
use at_core::{Pass, World};
use at_value::{Answer, Bases, Class, Name, Op, Value};
use std::sync::Wait;

/// `class c(bases)`. The refusals are tried in this order: `NoClass` for a base that isn't made, `NameTaken`, `EmptyBases`,
/// `Duplicate`, `NoOrder`.
///
/// After the Python language reference, "Custom classes".
pub fn new_class<R: Wait>(
    world: &World,
    rt: &R,
    pass: &mut Pass,
    c: Class,
    bases: &Bases,
) -> Result<Answer, ClassFault>
    requires of { IsOf pass.old world.now }
    requires surface { Surface pass.old }
    requires few { length (notes pass.old) < MOST_NOTES }
    ensures of { IsOf pass.new world.now }
    ensures surface { Surface pass.new }
    ensures change { IfOk result (IsChange (ops.NewClass c bases.now) pass.old pass.new) }
    ensures fault { IfErr result (IsFault (ops.NewClass c bases.now) pass.old pass.new) }
{
    change(world, rt, pass, &Op::NewClass(c, *bases))
}

/// `c.n = v`, in the class's own namespace. Refused with `NoAttr` for an object as value that isn't made, then `NoClass`, then
/// `Immutable` for `object`. It takes memory only for a name that isn't there.
pub fn put<R: Wait>(
    world: &World,
    rt: &R,
    pass: &mut Pass,
    c: Class,
    n: Name,
    v: Value,
) -> Result<Answer, ClassFault>
    requires of { IsOf pass.old world.now }
    requires surface { Surface pass.old }
    requires few { length (notes pass.old) < MOST_NOTES }
    ensures of { IsOf pass.new world.now }
    ensures surface { Surface pass.new }
    ensures change { IfOk result (IsChange (ops.TypeSet c n v) pass.old pass.new) }
    ensures fault { IfErr result (IsFault (ops.TypeSet c n v) pass.old pass.new) }
{
    change(world, rt, pass, &Op::TypeSet(c, n, v))
}

/// `del c.n`, in the class's own namespace. Refused with `NoClass`, then `Immutable` for `object`, then `NoAttr` for a name that
/// isn't there.
pub fn cut<R: Wait>(
    world: &World,
    rt: &R,
    pass: &mut Pass,
    c: Class,
    n: Name,
) -> Result<Answer, ClassFault>
    requires of { IsOf pass.old world.now }
    requires surface { Surface pass.old }
    requires few { length (notes pass.old) < MOST_NOTES }
    ensures of { IsOf pass.new world.now }
    ensures surface { Surface pass.new }
    ensures change { IfOk result (IsChange (ops.TypeDel c n) pass.old pass.new) }
    ensures fault { IfErr result (IsFault (ops.TypeDel c n) pass.old pass.new) }
{
    change(world, rt, pass, &Op::TypeDel(c, n))
}

/// `c.__bases__ = bases`. The refusals are tried in this order: `NoClass` for c or a base that isn't made, `Immutable` for `object`,
/// `EmptyBases`, `Duplicate`, `Cycle` where c stands in the order of a base, `NoOrder` with the least class that would have no
/// order.
pub fn bases<R: Wait>(
    world: &World,
    rt: &R,
    pass: &mut Pass,
    c: Class,
    bases: &Bases,
) -> Result<Answer, ClassFault>
    requires of { IsOf pass.old world.now }
    requires surface { Surface pass.old }
    requires few { length (notes pass.old) < MOST_NOTES }
    ensures of { IsOf pass.new world.now }
    ensures surface { Surface pass.new }
    ensures change { IfOk result (IsChange (ops.SetBases c bases.now) pass.old pass.new) }
    ensures fault { IfErr result (IsFault (ops.SetBases c bases.now) pass.old pass.new) }
{
    change(world, rt, pass, &Op::SetBases(c, *bases))
}
