//! A stack of bounded height. Contracts see it as the list of its items, the top first.
ghost use Rattle.std.specs.Prelude.{◌≡◌, ◌<◌, ◌≤◌, ◌∷◌, [], length, IfOk, IfSome, IfNone};

use std::alloc::{AllocError, Global};
use std::marker::Model;

/// At most `MOST` items, of which the last that was pushed comes first. Its memory is taken when it is made.
#[derive(Drop)]
pub struct Stack<T, const MOST: usize> {
    items: Vec<T>,
}

impl<T, const MOST: usize> Model for Stack<T, MOST> {
    ghost use Rattle.std.specs.Prelude.{◌≤◌, List, reverse, vec_len, vec_capacity};

    ghost Value = { List T };

    ghost view = { λ s. reverse s.items.items };

    ghost invariant = { λ s. (vec_len s.items ≤ MOST) × (MOST ≤ vec_capacity s.items) };
}

impl<T, const MOST: usize> Stack<T, MOST> {
    /// No items, and room for all.
    pub fn new(alloc: Global) -> Result<Self, AllocError>
        ensures { IfOk result (λ stack. stack ≡ []) }
    {
        Ok(Stack {
            items: Vec::with_capacity(alloc, MOST)?,
        })
    }

    /// How many items there are.
    pub fn len(&self) -> usize
        ensures same { result ≡ length self.now }
        ensures most { result ≤ MOST }
    {
        self.items.len()
    }

    /// Puts an item on the top. It takes no memory.
    pub fn push(&mut self, item: T)
        requires { length self.old < MOST }
        ensures { self.new ≡ item ∷ self.old }
    {
        self.items.push_reserved(item);
    }

    /// Takes the item at the top, and none exactly where there is no item.
    pub fn pop(&mut self) -> Option<T>
        ensures some { IfSome result (λ item. (self.old ≡ item ∷ self.new) × (length self.new < MOST)) }
        ensures none { IfNone result ((self.old ≡ []) × (self.new ≡ [])) }
    {
        self.items.pop()
    }

    /// Takes all items away.
    pub fn clear(&mut self)
    where
        T: Drop,
        ensures { self.new ≡ [] }
    {
        self.items.clear();
    }
}
