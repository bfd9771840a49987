//! Heads are opened and closed.
ghost use Rattle.std.specs.Prelude.{◌≡◌, ◌≤◌, ◌<◌, true, List, IfOk, IfErr};
ghost use Rattle.at_value.specs.declared.operation.Op as ops;
ghost use Rattle.at_core.specs.declared.lock.Lock.TheVariants as locks;
ghost use Rattle.at_core.specs.Heads.{sequence_of, IsWhole};
ghost use Rattle.at_core.specs.HeadSteps.{head_closed, head_loaded, head_opened, MayClose};
ghost use Rattle.at_core.specs.Locks.{holds};
ghost use Rattle.at_core.specs.Opened.{opening_of};
ghost use Rattle.at_core.specs.Passes.{view, IsOf, IsSame, HasSameHand};
ghost use Rattle.at_core.specs.PlacePlays.{Saw};
ghost use Rattle.at_core.specs.Steps.{copied_heads};
ghost use Rattle.at_head.specs.HeadWords.{HasWord, closed_with, word_of};

use crate::head::{Head, Layout};
use at_core::heads::{close_head, load_head, open_head};
use at_core::{Pass, World};
use at_value::{Class, Obj};
use thiserror::Error;

/// The head can't be opened any more: its word, whose sequence is not below the limit.
#[derive(Clone, Copy, Debug, PartialEq, Eq, Error)]
#[error("the head is worn")]
pub struct Worn(pub u64);

/// Opens the head of an object, made or not, and gives what it said. It asks for the row of the object, and that its head isn't open.
/// `Worn` comes exactly where the sequence of the head is not below the limit of the world.
pub fn open_write(world: &World, pass: &mut Pass, o: Obj) -> Result<Head, Worn>
    requires of { IsOf pass.old world.now }
    requires may { (holds (locks.Row o) (view pass.old) ≡ true) × IsWhole (copied_heads (view pass.old) o) }
    ensures same { IsSame pass.old pass.new × IsOf pass.new world.now × HasSameHand pass.old pass.new }
    ensures opened { IfOk result (λ head. HasWord head (copied_heads (view pass.old) o)
        × (head.sequence < world.now.limits.head_max) × (at : List ops.Op) × Saw (opening_of world.now.limits) (view pass.old) at
        × (view pass.new ≡ head_opened (head_loaded (view pass.old) o at (copied_heads (view pass.old) o)) o)) }
    ensures worn { IfErr result (λ worn. (worn.0 ≡ copied_heads (view pass.old) o)
        × (world.now.limits.head_max ≤ sequence_of worn.0) × (at : List ops.Op)
        × (view pass.new ≡ head_loaded (view pass.old) o at (copied_heads (view pass.old) o))) }
{
    let word = load_head(world, pass, o);
    let head = Head::of_word(word);
    if head.sequence >= world.limits().head_max {
        return Err(Worn(word));
    }
    open_head(world, pass, o, word);
    Ok(head)
}

/// Closes a head that the pass has open, with this class, layout and row. It asks for the row of the object, and that the head says then
/// what the object is after what the lock of the row has kept.
pub fn close_write(world: &World, pass: &mut Pass, o: Obj, class: Class, layout: Layout, row: Obj)
    requires of { IsOf pass.old world.now }
    requires may { MayClose (opening_of world.now.limits) (view pass.old) o
        (word_of (closed_with (view pass.old) o class layout row)) }
    ensures same { IsSame pass.old pass.new × IsOf pass.new world.now × HasSameHand pass.old pass.new }
    ensures closed { (at : List ops.Op) × Saw (opening_of world.now.limits) (view pass.old) at
        × (view pass.new ≡ head_closed (head_loaded (view pass.old) o at (copied_heads (view pass.old) o)) o
        (word_of (closed_with (view pass.old) o class layout row))) }
{
    let open = Head::of_word(load_head(world, pass, o));
    let head = Head {
        sequence: open.sequence + 1,
        class,
        layout,
        row,
    };
    close_head(world, pass, o, head.word());
}
