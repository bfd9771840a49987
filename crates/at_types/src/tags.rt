//! The pool of tags: which are free, and which were dropped and wait in limbo until nobody can hold them.
ghost use Rattle.std.specs.Prelude.{◌≡◌, ◌<◌, ◌≤◌, ◌∷◌, ◌++◌, Some, None, IfOk, IfSome, IfNone, drop, length, slice_get};
ghost use Rattle.at_types.specs.Tags as tags;

use std::alloc::{AllocError, Global};
use std::collections::VecDeque;
use std::marker::Model;

/// What keeps a tag in limbo, as far as the last attempt to free it found.
#[derive(Clone, Copy, Debug, PartialEq, Eq)]
pub enum KeptBy {
    /// There was no attempt yet.
    New,
    /// The pass with this number, whose own sequence was this.
    Pass(u8, u64),
    /// The cache entry of this index.
    Entry(u16),
}

/// A tag that was dropped and isn't free yet.
#[derive(Clone, Copy, Debug, PartialEq, Eq)]
pub struct LimboRow {
    /// The tag, from 1 on.
    pub tag: u16,
    /// The sequence that each pass must have come to before the tag is free; none before it was set.
    pub goal: Option<u64>,
    /// What keeps the tag here.
    pub kept_by: KeptBy,
}

/// How many tags were given and freed so far, and how many are free and in limbo now.
#[derive(Clone, Copy, Debug, PartialEq, Eq)]
pub struct TagCounts {
    /// How often a tag was given; it stands still at 2^64 - 1.
    pub given: u64,
    /// How often a tag was freed; it stands still at 2^64 - 1.
    pub freed: u64,
    /// How many tags are free.
    pub free: u16,
    /// How many tags are in limbo.
    pub limbo: u16,
}

/// The tags from 1 to a size. Contracts see the free ones in the order in which they will be given, the rows of limbo in
/// the order in which they came, and the counts.
#[derive(Drop)]
pub(crate) struct TagPool {
    size: u16,
    free: VecDeque<u16>,
    limbo: Vec<LimboRow>,
    given: u64,
    freed: u64,
}

impl Model for TagPool {
    ghost use Rattle.std.specs.Prelude.{◌≤◌, vec_capacity};
    ghost use Rattle.std.specs.VecDeque.{deque_capacity};
    ghost use Rattle.at_types.specs.Tags.{TagState, IsPool};

    ghost Value = { TagState };

    ghost view = { λ p. record {
      size = p.size;
      free = p.free.items;
      limbo = p.limbo.items;
      given = p.given;
      freed = p.freed;
    } };

    ghost invariant = { λ p.
        IsPool (record { size = p.size; free = p.free.items; limbo = p.limbo.items; given = p.given; freed = p.freed })
        × ((p.size ≤ deque_capacity p.free) × (p.size ≤ vec_capacity p.limbo)) };
}

impl TagPool {
    /// The pool of the tags from 1 to this size, all of them free. It takes all memory that the pool will need.
    pub(crate) fn new(alloc: Global, size: u16) -> Result<TagPool, AllocError>
        ensures { IfOk result (λ pool. pool ≡ tags.full_pool size) }
    {
        let mut free = VecDeque::with_capacity(alloc, usize::from(size))?;
        for below in 0..size {
            free.push_back_reserved(below + 1);
        }
        Ok(TagPool {
            size,
            free,
            limbo: Vec::with_capacity(alloc, usize::from(size))?,
            given: 0,
            freed: 0,
        })
    }

    pub(crate) fn invariant(&self)
        ensures { tags.IsPool self.now }
    {
        let _ = &self.size;
    }

    pub(crate) fn counts(&self) -> TagCounts
        ensures counts { result ≡ tags.counts_of self.now }
        ensures true_counts { tags.HasTrueCounts self.now }
        ensures single { tags.AreSingle self.now }
    {
        TagCounts {
            given: self.given,
            freed: self.freed,
            free: self.free.len() as u16,
            limbo: self.limbo.len() as u16,
        }
    }

    /// Takes the first free tag and counts it as given.
    pub(crate) fn next(&mut self) -> Option<u16>
        ensures first { result ≡ slice_get self.old.free 0 }
        ensures given { IfSome result (λ tag. self.new ≡ tags.next_given self.old) }
        ensures was_in { IfSome result (λ tag. ¬ tags.IsOut self.old tag) }
        ensures out { IfSome result (λ tag. tags.IsOut self.new tag) }
        ensures none { IfNone result (self.new ≡ self.old) }
    {
        let tag = self.free.pop_front()?;
        self.given = self.given.saturating_add(1);
        Some(tag)
    }

    /// Adds a row without a goal at the end of limbo.
    pub(crate) fn to_limbo(&mut self, tag: u16)
        requires { tags.IsOut self.old tag }
        ensures { self.new ≡ tags.in_limbo self.old tag }
    {
        self.limbo.push_reserved(LimboRow {
            tag,
            goal: None,
            kept_by: KeptBy::New,
        });
    }

    pub(crate) fn limbo_at(&self, i: u16) -> Option<LimboRow>
        ensures row { result ≡ slice_get self.now.limbo i }
        ensures in_limbo { IfSome result (λ row. tags.IsInLimbo self.now row.tag) }
    {
        row_at(&self.limbo, i)
    }

    pub(crate) fn set_goal(&mut self, i: u16, goal: u64)
        requires { i < length self.old.limbo }
        ensures { self.new ≡ tags.with_goal self.old i goal }
    {
        self.limbo[usize::from(i)].goal = Some(goal);
    }

    pub(crate) fn set_kept(&mut self, i: u16, kept_by: KeptBy)
        requires { i < length self.old.limbo }
        ensures { self.new ≡ tags.with_kept self.old i kept_by }
    {
        self.limbo[usize::from(i)].kept_by = kept_by;
    }

    /// Moves the tag of a row to the end of the free tags and counts it as freed.
    pub(crate) fn free_at(&mut self, i: u16)
        requires { i < length self.old.limbo }
        ensures { self.new ≡ tags.with_freed self.old i }
    {
        let row = self.limbo.remove(usize::from(i));
        self.free.push_back_reserved(row.tag);
        self.freed = self.freed.saturating_add(1);
    }
}

fn row_at(rows: &[LimboRow], i: u16) -> Option<LimboRow>
    ensures { result ≡ slice_get rows.now i }
{
    rows.get(usize::from(i)).copied()
}
