//! The tree of direct subclasses, and the walk over all that lies below a class.
#![tactic(auto)]

ghost use Rattle.std.specs.Prelude.{◌≡◌, ◌↔◌, ℕ, ◌<◌, false, [], ◌∷◌, ◌++◌, length, replicate, All, Contains, IsOk};
ghost use Rattle.std.specs.Prelude.{IfOk, OnOk, OnErr, slice_set, slice_index_or};
ghost use Rattle.at_tree.specs.Tree.{children, without_number, Reaches, IsTree};
ghost use Rattle.at_tree.specs.Walk.{IsWalk, IsReachedFirst, AreClosed, IsUnmarkedFirst, walk_of};

#[cfg(test)]
mod tests;
mod walk;

use std::alloc::{AllocError, Global};
use std::marker::Model;

/// For each class, by number, the list of its direct subclasses in the order in which they joined,
/// as `type.__subclasses__()` gives it (the language reference, "Data model").
///
/// Seen as the list of these lists. No class lies below itself.
#[derive(Drop)]
pub struct Tree {
    lists: Vec<Vec<u16>>,
}

impl Model for Tree {
    ghost use Rattle.std.specs.Prelude.{List, ℕ, map};
    ghost use Rattle.at_tree.specs.Tree.{IsTree};

    ghost Value = { List (List ℕ) };

    ghost view = { λ t. map (λ v. v.items) t.lists.items };

    ghost invariant = { λ t. IsTree (map (λ v. v.items) t.lists.items) };
}

impl Tree {
    /// The classes 0 to n - 1, none of which has a subclass. The one error is out of memory, and no
    /// class takes none.
    pub fn new(alloc: Global, n: u16) -> Result<Tree, AllocError>
        ensures lists { IfOk result (λ tree. tree ≡ replicate n []) }
        ensures empty { n ≡ 0 → IsOk result }
    {
        let mut lists = Vec::with_capacity(alloc, usize::from(n))?;
        for _ in 0..n {
            lists.push_reserved(Vec::new(alloc));
        }
        Ok(Tree { lists })
    }

    /// How many classes there are.
    pub fn size(&self) -> u16
        ensures value { result ≡ length self.now }
        ensures tree { IsTree self.now }
    {
        self.lists.len() as u16
    }

    /// Makes c the last of the direct subclasses of the base. The one error is out of memory, and
    /// changes nothing.
    ///
    /// The pair may not be there yet, and the base may neither be c nor lie below it.
    pub fn add(&mut self, base: u16, c: u16) -> Result<(), AllocError>
        requires base_in { base < length self.old }
        requires c_in { c < length self.old }
        requires absent { ¬ Contains (children self.old base) c }
        requires not_below { ¬ Reaches self.old [] c base }
        ensures ok { OnOk result
            (self.new ≡ slice_set self.old base (children self.old base ++ c ∷ [])) }
        ensures err { OnErr result (self.new ≡ self.old) }

        // What lies below c is unchanged.
        ensures below_c { (d : ℕ) → Reaches self.new [] c d ↔ Reaches self.old [] c d }
    {
        self.lists[usize::from(base)].push(c)?;
        Ok(())
    }

    /// Takes c, which is there, from the direct subclasses of the base. The others keep their order.
    pub fn remove(&mut self, base: u16, c: u16)
        requires base_in { base < length self.old }
        requires present { Contains (children self.old base) c }
        ensures removed { self.new ≡ slice_set self.old base (without_number (children self.old base) c) }

        // What lies below c is unchanged.
        ensures below_c { (d : ℕ) → Reaches self.new [] c d ↔ Reaches self.old [] c d }
    {
        take_out(&mut self.lists[usize::from(base)], c);
    }

    /// The class and all that lies below it, each once, a class after its subclasses, and the direct
    /// subclasses of a class in the order of their list. The one error is out of memory.
    ///
    /// From a class that `stop` marks, by number, nothing is entered: the class is in the list, and
    /// what lies only below it isn't. A class stands after every class that is reached from it
    /// through no marked one. So where the subclasses of a marked class are all marked, it stands
    /// after every unmarked class below it; what lies below a marked class may stand after it.
    pub fn below(&self, c: u16, stop: &[bool]) -> Result<Vec<u16>, AllocError>
        requires class_in { c < length self.now }
        requires marks { length stop.now ≡ length self.now }
        ensures walk { IfOk result (λ list. IsWalk self.now stop.now c list.items) }
        ensures unmarked { IfOk result (λ list. All (λ marked. marked ≡ false) stop.now
            → (d : ℕ) → Contains list.items d ↔ Reaches self.now [] c d) }
        ensures unmarked_in { IfOk result (λ list. AreClosed self.now stop.now
            → (d : ℕ) → slice_index_or stop.now d false ≡ false
            → Contains list.items d ↔ Reaches self.now [] c d) }
        ensures exact { IfOk result (λ list. list.items ≡ walk_of self.now stop.now c) }

        // A class stands after all that lies below it, also through several others, as far as the walk can know.
        ensures reached_first { IfOk result (λ list. IsReachedFirst self.now stop.now list.items) }
        ensures unmarked_first { IfOk result (λ list. AreClosed self.now stop.now
            → IsUnmarkedFirst self.now stop.now list.items) }
    {
        walk::post_order(*self.lists.allocator(), &self.lists, stop, c)
    }
}

fn take_out(list: &mut Vec<u16>, c: u16)
    ensures { list.new.items ≡ without_number list.old.items c }
{
    list.retain(|d| *d != c);
}
