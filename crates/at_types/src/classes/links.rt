//! The pairs of a class and its bases in the tree of subclasses.
ghost use Rattle.std.specs.Prelude.{◌≡◌, ◌<◌, ℕ, List, [], false, OnOk, OnErr, length, take, Contains};
ghost use Rattle.at_value.specs.Widths as widths;
ghost use Rattle.at_tree.specs.Tree.{children, Reaches};
ghost use Rattle.at_model.specs.Step as steps;
ghost use Rattle.at_types.specs.Links.{linked, unlinked, IsLinked};

use at_tree::Tree;
use at_value::Class;
use std::alloc::AllocError;

/// Makes a class the last of the direct subclasses of each of these bases. Where memory runs out, the tree is as it was.
pub(super) fn link(tree: &mut Tree, bases: &[Class], c: Class) -> Result<(), AllocError>
    requires numbered { length tree.old ≡ widths.classes }
    requires once { steps.has_repeat bases.now ≡ false }
    requires absent { (b : ℕ) → Contains bases.now b → ¬ Contains (children tree.old b) c }
    requires not_below { (b : ℕ) → Contains bases.now b → ¬ Reaches tree.old [] c b }
    ensures ok { OnOk result (tree.new ≡ linked tree.old c bases.now) }
    ensures err { OnErr result (tree.new ≡ tree.old) }
{
    for i in 0..bases.len() {
        if let Err(error) = tree.add(bases[i].number(), c.number()) {
            unlink_last(tree, &bases[..i], c);
            return Err(error);
        }
    }
    Ok(())
}

/// Takes a class from the direct subclasses of each of these bases, of which it is the last.
fn unlink_last(tree: &mut Tree, bases: &[Class], c: Class)
    requires numbered { length tree.old ≡ widths.classes }
    requires linked { (was : List (List ℕ)) × IsLinked was c bases.now tree.old }
    ensures { (was : List (List ℕ)) → IsLinked was c bases.now tree.old → tree.new ≡ was }
{
    let mut left = bases.len();
    while left > 0 {
        left -= 1;
        tree.remove(bases[left].number(), c.number());
    }
}

/// Takes a class from the direct subclasses of each of these bases.
pub(super) fn unlink(tree: &mut Tree, bases: &[Class], c: Class)
    requires numbered { length tree.old ≡ widths.classes }
    requires once { steps.has_repeat bases.now ≡ false }
    requires present { (b : ℕ) → Contains bases.now b → Contains (children tree.old b) c }
    ensures { tree.new ≡ unlinked tree.old c bases.now }
{
    for base in bases {
        tree.remove(base.number(), c.number());
    }
}
