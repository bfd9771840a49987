//! Beginning a call.
ghost use Rattle.std.specs.Prelude.{◌≡◌, ◌<◌, true, length};
ghost use Rattle.std.specs.List.{list_all};
ghost use Rattle.at_core.specs.Passes.{notes, view, IsOf};
ghost use Rattle.at_section.specs.Deeds.{held};
ghost use Rattle.at_section.specs.Sections.{in_order};
ghost use Rattle.at_section.specs.Surfaces.{Surface, TypesSurface};
ghost use Rattle.at_call.specs.UnderWay.{HasInHand, IsUnderWay, IsUnwritten};

use at_core::note::MOST_NOTES;
use at_core::{Pass, World};
use at_section::begin_types;
use at_types::Types;
use at_value::Obj;
use std::sync::Wait;

/// Begins a call in a section of its own, with the lock of the types and the rows of up to two objects, waiting where another pass
/// holds one of them. It asks that the pass is in fewer than 20 sections, and in none of the types. The types come out: they are
/// those of all that the pass has seen.
pub fn begin_call<R: Wait>(
    world: &World,
    rt: &R,
    pass: &mut Pass,
    a: Option<Obj>,
    b: Option<Obj>,
) -> Box<Types>
    requires of { IsOf pass.old world.now }
    requires surface { Surface pass.old }
    requires few { length (notes pass.old) < MOST_NOTES }
    ensures of { IsOf pass.new world.now }
    ensures surface { TypesSurface pass.new }
    ensures under { IsUnderWay (in_order true a b) pass.old pass.new }
    ensures unwritten { IsUnwritten pass.old pass.new }
    ensures hand { HasInHand pass.new result.value }
    ensures rows { list_all (held (view pass.new)) (in_order true a b) ≡ true }
{
    begin_types(world, rt, pass, a, b)
}
