//! A map from names to values as a vector of pairs by rising name number: the search, the insertion and the removal of
//! the types that wrap such a vector.
ghost use Rattle.std.specs.Prelude.{◌≡◌, ◌<◌, ◌≤◌, ◌↔◌, IsTrue, IsOk, IsSome, length, OnOk, OnErr, vec_len};
ghost use Rattle.std.specs.Prelude.{vec_capacity};
ghost use Rattle.at_value.specs.Pairs.{IsRising, value_at, with_value, without, place_in};

use crate::number::Name;
use crate::value::Value;
use std::alloc::AllocError;

/// The index of the first name from n on, and the length where there is none. The search is binary.
pub(crate) fn place_of(n: Name, items: &[(Name, Value)]) -> usize
    requires { IsRising items.now }
    ensures place { result ≡ place_in n items.now }
    ensures within { result ≤ length items.now }
{
    items.partition_point(|pair| pair.0 < n)
}

/// Whether the name stands at this index, where only the first name from n on may be asked for.
fn is_at(n: Name, place: usize, items: &[(Name, Value)]) -> bool
    requires rising { IsRising items.now }
    requires place { place ≡ place_in n items.now }
    ensures there { IsTrue result ↔ IsSome (value_at n items.now) }
    ensures within { IsTrue result → place < length items.now }
{
    match items.get(place) {
        Some(pair) => pair.0 == n,
        None => false,
    }
}

/// The value under the name, and none exactly where the name isn't there. The search is binary.
pub fn get(n: Name, items: &[(Name, Value)]) -> Option<Value>
    requires { IsRising items.now }
    ensures { result ≡ value_at n items.now }
{
    let place = place_of(n, items);
    if is_at(n, place, items) {
        Some(items[place].1)
    } else {
        None
    }
}

/// Puts the value under the name. It takes memory only for a name that isn't there, and only where the vector has no
/// room; it fails only where that memory is refused, and then nothing changes.
pub fn put(n: Name, v: Value, items: &mut Vec<(Name, Value)>) -> Result<(), AllocError>
    requires { IsRising items.old.items }
    ensures rising { IsRising items.new.items }
    ensures ok { OnOk result (items.new.items ≡ with_value n v items.old.items) }
    ensures err { OnErr result (items.new.items ≡ items.old.items) }
    ensures there { IsSome (value_at n items.old.items)
        → IsOk result × (vec_capacity items.new ≡ vec_capacity items.old) }
    ensures room { vec_len items.old < vec_capacity items.old
        → IsOk result × (vec_capacity items.new ≡ vec_capacity items.old) }
{
    let place = place_of(n, items);
    if is_at(n, place, items) {
        items[place].1 = v;
    } else {
        items.insert(place, (n, v))?;
    }
    Ok(())
}

/// Takes the name out, and gives the value that stood there. The vector's memory stays with it.
pub fn cut(n: Name, items: &mut Vec<(Name, Value)>) -> Option<Value>
    requires { IsRising items.old.items }
    ensures rising { IsRising items.new.items }
    ensures value { result ≡ value_at n items.old.items }
    ensures rest { items.new.items ≡ without n items.old.items }
    ensures capacity { vec_capacity items.new ≡ vec_capacity items.old }
{
    let place = place_of(n, items);
    if is_at(n, place, items) {
        Some(items.remove(place).1)
    } else {
        None
    }
}
