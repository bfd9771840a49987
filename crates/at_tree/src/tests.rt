//! Walks over small trees. The wanted lists are worked out by hand.
ghost use Rattle.std.specs.Prelude.{◌≡◌, ◌<◌, false, ◌∷◌, [], ◌++◌, length, Contains, OnOk, IfOk};
ghost use Rattle.at_tree.specs.Tree.{children, Reaches};

use super::Tree;
use std::alloc::{AllocError, Global};
use std::process::Abort;
use std::test::Fail;

/// Whether a class is another or lies below it.
fn reaches(alloc: Global, tree: &Tree, c: u16, d: u16) -> Result<bool, AllocError>
    requires { c < length tree.now }
    ensures apart { IfOk result (λ yes. yes ≡ false → ¬ Reaches tree.now [] c d) }
    ensures no_pair { IfOk result (λ yes. yes ≡ false → ¬ Contains (children tree.now c) d) }
{
    let unmarked = vec![in alloc; false; usize::from(tree.size())]?;
    let list = tree.below(c, &unmarked)?;
    Ok(list.contains(&d))
}

/// Adds a pair, once two walks have shown that it may be added.
fn link(
    rt: &impl Abort,
    alloc: Global,
    tree: &mut Tree,
    base: u16,
    c: u16,
) -> Result<(), AllocError>
    ensures { OnOk result (children tree.new base ≡ children tree.old base ++ c ∷ []) }
{
    assert!(rt; base < tree.size());
    assert!(rt; c < tree.size());
    let is_there = reaches(alloc, tree, base, c)?;
    let is_above = reaches(alloc, tree, c, base)?;
    assert!(rt; !is_there);
    assert!(rt; !is_above);
    tree.add(base, c)
}

#[test]
fn walks_a_diamond(rt: HostRuntime) -> Result<(), Fail> {
    let alloc = rt.alloc();
    let mut tree = Tree::new(alloc, 5)?;
    for (base, c) in [(0, 1), (1, 2), (1, 3), (2, 4), (3, 4)] {
        link(&rt, alloc, &mut tree, base, c)?;
    }
    assert_eq!(rt; tree.size(), 5);
    let whole = tree.below(0, &[false; 5])?;
    assert_eq!(rt; whole.as_slice(), [4, 2, 3, 1, 0].as_slice());
    let wanted: [&[u16]; 5] = [
        &[0],
        &[1, 0],
        &[2, 4, 3, 1, 0],
        &[4, 2, 3, 1, 0],
        &[4, 2, 3, 1, 0],
    ];
    for i in 0..5usize {
        let mut stop = [false; 5];
        stop[i] = true;
        let list = tree.below(0, &stop)?;
        assert_eq!(rt; list.as_slice(), wanted[i], "with {i} marked");
    }
    Ok(())
}

// The marks of 2 and 3 are closed downward. The walk can't know that 3 lies below 2, and so below 1.
#[test]
fn stops_below_marked_classes(rt: HostRuntime) -> Result<(), Fail> {
    let alloc = rt.alloc();
    let mut tree = Tree::new(alloc, 4)?;
    for (base, c) in [(0, 1), (0, 3), (1, 2), (2, 3)] {
        link(&rt, alloc, &mut tree, base, c)?;
    }
    assert_eq!(rt; tree.size(), 4);
    let list = tree.below(0, &[false, false, true, true])?;
    assert_eq!(rt; list.as_slice(), [2, 1, 3, 0].as_slice());
    let list = tree.below(0, &[false, false, false, true])?;
    assert_eq!(rt; list.as_slice(), [3, 2, 1, 0].as_slice());
    Ok(())
}

#[test]
fn walks_a_long_chain(rt: HostRuntime) -> Result<(), Fail> {
    let alloc = rt.alloc();
    let mut tree = Tree::new(alloc, 256)?;
    for c in 1..256u16 {
        link(&rt, alloc, &mut tree, c - 1, c)?;
    }
    assert_eq!(rt; tree.size(), 256);
    let list = tree.below(0, &[false; 256])?;
    assert!(rt; list.iter().copied().eq((0..256u16).rev()));
    Ok(())
}

#[test]
fn removes_from_the_middle(rt: HostRuntime) -> Result<(), Fail> {
    let alloc = rt.alloc();
    let mut tree = Tree::new(alloc, 4)?;
    link(&rt, alloc, &mut tree, 0, 3)?;
    link(&rt, alloc, &mut tree, 0, 1)?;
    link(&rt, alloc, &mut tree, 0, 2)?;
    tree.remove(0, 1);
    assert_eq!(rt; tree.size(), 4);
    let list = tree.below(0, &[false; 4])?;
    assert_eq!(rt; list.as_slice(), [3, 2, 0].as_slice());
    Ok(())
}
