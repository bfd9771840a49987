//! The walk over a class and all that lies below it, a class after its subclasses.

ghost use Rattle.std.specs.Prelude.{◌≡◌, ◌<◌, map, length, Contains, IfOk, OnSome, slice_get};
ghost use Rattle.at_tree.specs.Tree.{entered, IsTree};
ghost use Rattle.at_tree.specs.Walk.{IsWalk, walk_of};

use std::alloc::{AllocError, Global};

/// A class whose direct subclasses are gone through, and the index of the next of them.
#[derive(Clone, Copy)]
struct Stage {
    class: u16,
    next: usize,
}

fn next_below(lists: &[Vec<u16>], stop: &[bool], stage: Stage) -> Option<u16>
    requires class_in { stage.class < length lists.now }
    requires marks { length stop.now ≡ length lists.now }
    ensures value { result
        ≡ slice_get (entered (map (λ v. v.items) lists.now) stop.now stage.class) stage.next }
    ensures small { OnSome result (stage.next < usize.MAX) }
{
    let class = usize::from(stage.class);
    if stop[class] {
        return None;
    }
    lists[class].get(stage.next).copied()
}

/// The time is linear in the number of classes and of the pairs that are entered.
pub(crate) fn post_order(
    alloc: Global,
    lists: &[Vec<u16>],
    stop: &[bool],
    c: u16,
) -> Result<Vec<u16>, AllocError>
    requires tree { IsTree (map (λ v. v.items) lists.now) }
    requires class_in { c < length lists.now }
    requires marks { length stop.now ≡ length lists.now }
    ensures walk { IfOk result (λ list.
        IsWalk (map (λ v. v.items) lists.now) stop.now c list.items) }
    ensures exact { IfOk result (λ list.
        list.items ≡ walk_of (map (λ v. v.items) lists.now) stop.now c) }
{
    let mut seen = vec![in alloc; false; lists.len()]?;
    let mut stages = Vec::with_capacity(alloc, lists.len())?;
    let mut list = Vec::with_capacity(alloc, lists.len())?;
    seen[usize::from(c)] = true;
    stages.push(Stage { class: c, next: 0 })?;
    'walk: while let Some(stage) = stages.pop() {
        let Some(d) = next_below(lists, stop, stage) else {
            list.push(stage.class)?;
            continue;
        };
        stages.push(Stage {
            next: stage.next + 1,
            ..stage
        })?;
        let below = usize::from(d);
        if seen[below] {
            continue;
        }
        seen[below] = true;
        stages.push(Stage { class: d, next: 0 })?;
    }
    Ok(list)
}
