//! The merge of lists, and the order of a class.
ghost use Rattle.std.specs.Prelude.{◌≡◌, ◌≤◌, ◌++◌, ◌∷◌, [], ℕ, List, length, drop, Some, None, map, OnOk, IfOk, IsOk};
ghost use Rattle.std.specs.Prelude.{IsErr, IsSome, IsErrOf, IsOkUnless};
ghost use Rattle.std.specs.List.{list_all, concat};
ghost use Rattle.smallvec.specs.SmallVec.{HasRoomFor};
ghost use Rattle.at_c3.specs.Counts.{AreCountsOf, tail_numbers};
ghost use Rattle.at_c3.specs.Merge.{is_empty, next_head, without_head, merge_of, prefixed, order_of_lists};
ghost use Rattle.at_c3.specs.Room.{AreSmall, TakesNoMemory, lists_room};
ghost use Rattle.at_c3.specs.Slices.{contents};

use crate::counts::Counts;
use crate::fault::MergeFault;
use smallvec::SmallVec;
use std::alloc::{AllocError, Global};

/// How many numbers a list has before it takes memory.
const LIST_ROOM: usize = 8;

/// How many lists a merge has before it takes memory: those of eight bases, and the list of bases.
const LISTS_ROOM: usize = 9;

/// A list of numbers; one of at most eight takes no memory.
pub type List = SmallVec<u16, LIST_ROOM, Global>;

/// What is left of the lists of a merge.
type Rests<'a> = SmallVec<&'a [u16], LISTS_ROOM, Global>;

fn tail_of(list: &[u16]) -> &[u16]
    ensures { result.now ≡ drop 1 list.now }
{
    match list.split_first() {
        Some((_, tail)) => tail,
        None => list,
    }
}

fn count_tails(counts: &mut Counts, lists: &[&[u16]]) -> Result<(), AllocError>
    ensures counted { OnOk result (AreCountsOf counts.old.counts.items []
        → AreCountsOf counts.new.counts.items (tail_numbers (contents lists.now))) }
    ensures room { AreCountsOf counts.old.counts.items [] → AreSmall (contents lists.now)
        → length (tail_numbers (contents lists.now)) ≤ u32.MAX → IsOk result }
{
    for list in lists {
        counts.add_all(tail_of(list))?;
    }
    Ok(())
}

fn first_free_head(lists: &[&[u16]], in_tails: &Counts) -> Option<u16>
    requires { AreCountsOf in_tails.now.counts.items (tail_numbers (contents lists.now)) }
    ensures { result ≡ next_head (contents lists.now) }
{
    for list in lists {
        if let Some(head) = list.first()
            && !in_tails.has(*head)
        {
            return Some(*head);
        }
    }
    None
}

fn after_head<'a>(number: u16, list: &'a [u16], in_tails: &mut Counts) -> &'a [u16]
    requires { (others : List ℕ) × AreCountsOf in_tails.old.counts.items (drop 1 list.now ++ others) }
    ensures rest { result.now ≡ without_head number list.now }
    ensures counts { (others : List ℕ) → AreCountsOf in_tails.old.counts.items (drop 1 list.now ++ others)
        → AreCountsOf in_tails.new.counts.items (drop 1 result.now ++ others) }
{
    match list.split_first() {
        Some((head, rest)) if *head == number => {
            if let Some(next) = rest.first() {
                in_tails.remove(*next);
            }
            rest
        }
        _ => list,
    }
}

fn remove_head(number: u16, lists: &mut [&[u16]], in_tails: &mut Counts)
    requires { AreCountsOf in_tails.old.counts.items (tail_numbers (contents lists.old)) }
    ensures rests { contents lists.new ≡ map (without_head number) (contents lists.old) }
    ensures counts { AreCountsOf in_tails.new.counts.items (tail_numbers (contents lists.new)) }
{
    for list in lists.iter_mut() {
        *list = after_head(number, list, in_tails);
    }
}

fn are_all_empty(lists: &[&[u16]]) -> bool
    ensures { result ≡ list_all is_empty (contents lists.now) }
{
    lists.iter().all(|list| list.is_empty())
}

/// A merge has at least as many numbers as the longest list.
fn longest_len(lists: &[&[u16]]) -> usize
    ensures { result ≤ length (concat (contents lists.now)) }
{
    let mut longest = 0;
    for list in lists {
        longest = list.len().max(longest);
    }
    longest
}

fn merge_onto(alloc: Global, mut merged: List, rests: &mut [&[u16]]) -> Result<List, MergeFault>
    ensures merged { IfOk result
        (λ list. prefixed merged.items (merge_of (contents rests.old)) ≡ Some list.items) }
    ensures no_head { IsErrOf result MergeFault.NoHead
        → prefixed merged.items (merge_of (contents rests.old)) ≡ None }
    ensures none { prefixed merged.items (merge_of (contents rests.old)) ≡ None → IsErr result }
    ensures some { IsSome (prefixed merged.items (merge_of (contents rests.old)))
        → IsOkUnless result MergeFault.NoMemory }
    ensures room { HasRoomFor merged (length (concat (contents rests.old)))
        → length (concat (contents rests.old)) ≤ u32.MAX → AreSmall (contents rests.old)
        → IsOkUnless result MergeFault.NoHead }
{
    merged.reserve(longest_len(rests))?;
    let mut in_tails = Counts::new(alloc);
    count_tails(&mut in_tails, rests)?;
    while let Some(head) = first_free_head(rests, &in_tails) {
        merged.push(head)?;
        remove_head(head, rests, &mut in_tails);
    }
    if are_all_empty(rests) {
        Ok(merged)
    } else {
        Err(MergeFault::NoHead)
    }
}

fn slices_of<'a>(alloc: Global, lists: &'a [List]) -> Result<Rests<'a>, MergeFault>
    ensures slices { IfOk result (λ slices. contents slices.items ≡ map (λ l. l.items) lists.now) }
    ensures fault { IsOkUnless result MergeFault.NoMemory }
    ensures room { length lists.now ≤ lists_room → IsOk result }
{
    let mut slices = SmallVec::with_capacity(alloc, lists.len())?;
    for list in lists {
        slices.push_reserved(list.as_slice());
    }
    Ok(slices)
}

/// The C3 merge of the lists: while any number is left, the head of the first list whose head
/// stands in no tail, taken from all heads.
///
/// `NoHead` where the lists have no merge, since each head that is left stands in some tail.
/// `NoMemory` where memory ran out, or where a number stands in the tails 2^32 times; it may
/// come in place of either other answer. Where the lists have no merge, it is never `Ok`. A merge
/// of at most nine lists takes no memory, where they have at most eight numbers together and those
/// in their tails are below 32.
pub fn merge(alloc: Global, lists: &[List]) -> Result<List, MergeFault>
    ensures merged { IfOk result
        (λ list. merge_of (map (λ l. l.items) lists.now) ≡ Some list.items) }
    ensures no_head { IsErrOf result MergeFault.NoHead
        → merge_of (map (λ l. l.items) lists.now) ≡ None }
    ensures none { merge_of (map (λ l. l.items) lists.now) ≡ None → IsErr result }
    ensures some { IsSome (merge_of (map (λ l. l.items) lists.now))
        → IsOkUnless result MergeFault.NoMemory }
    ensures room { TakesNoMemory 0 (map (λ l. l.items) lists.now) → IsOkUnless result MergeFault.NoHead }
{
    merge_onto(alloc, SmallVec::new(alloc), &mut slices_of(alloc, lists)?)
}

/// The order of class `c`, where each of its bases has its order in `orders`: `c`, and then the
/// merge of these orders and of the list of bases.
///
/// `NoHead` where they have no merge, and then it is never `Ok`; `NoMemory` as [`merge`] answers
/// it. With the class itself there may be eight numbers before it takes memory.
pub fn order(alloc: Global, c: u16, bases: &[u16], orders: &[List]) -> Result<List, MergeFault>
    ensures ordered { IfOk result
        (λ list. order_of_lists c bases.now (map (λ l. l.items) orders.now) ≡ Some list.items) }
    ensures no_head { IsErrOf result MergeFault.NoHead
        → order_of_lists c bases.now (map (λ l. l.items) orders.now) ≡ None }
    ensures none { order_of_lists c bases.now (map (λ l. l.items) orders.now) ≡ None → IsErr result }
    ensures some { IsSome (order_of_lists c bases.now (map (λ l. l.items) orders.now))
        → IsOkUnless result MergeFault.NoMemory }
    ensures room { TakesNoMemory 1 (map (λ l. l.items) orders.now ++ bases.now ∷ [])
        → IsOkUnless result MergeFault.NoHead }
{
    order_of_slices(alloc, c, bases, &slices_of(alloc, orders)?)
}

/// The order of class `c`, where the orders of its bases are slices; it answers as [`order`]
/// does.
pub fn order_of_slices<'a>(
    alloc: Global,
    c: u16,
    bases: &'a [u16],
    orders: &[&'a [u16]],
) -> Result<List, MergeFault>
    ensures ordered { IfOk result
        (λ list. order_of_lists c bases.now (map (λ l. l.now) orders.now) ≡ Some list.items) }
    ensures no_head { IsErrOf result MergeFault.NoHead
        → order_of_lists c bases.now (map (λ l. l.now) orders.now) ≡ None }
    ensures none { order_of_lists c bases.now (map (λ l. l.now) orders.now) ≡ None → IsErr result }
    ensures some { IsSome (order_of_lists c bases.now (map (λ l. l.now) orders.now))
        → IsOkUnless result MergeFault.NoMemory }
    ensures room { TakesNoMemory 1 (map (λ l. l.now) orders.now ++ bases.now ∷ [])
        → IsOkUnless result MergeFault.NoHead }
{
    let mut rests: Rests = SmallVec::from_slice(alloc, orders)?;
    rests.push(bases)?;
    let mut prefix = SmallVec::new(alloc);
    prefix.push(c)?;
    merge_onto(alloc, prefix, &mut rests)
}
