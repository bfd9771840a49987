//! The order of names by the bytes of their texts.
ghost use Rattle.std.specs.Prelude.{◌≡◌, ◌<◌, All, IfOk, map, length, slice_index, vec_capacity};
ghost use Rattle.std.specs.List.{range_with_len};
ghost use Rattle.std.specs.List.Sorted.{IsPermutation, IsNonDecreasingBy, IsSortedBy};
ghost use Rattle.std.specs.Ordering.{is_lt};
ghost use Rattle.at_value.specs.Pairs.{IsRising};
ghost use Rattle.at_value.specs.Widths as widths;
ghost use Rattle.at_text.specs.Order.{AreGiven, AreKeys, keyed, name_cmp, pair_of};
ghost use Rattle.at_text.specs.Values.{text_at};

use at_script::Script;
use at_value::{Name, Pairs, Value};
use std::alloc::{AllocError, Global};
use std::cmp::Ordering;
use std::marker::Model;

/// How many names there are, and so how many one map has at most.
const NAMES: usize = Name::COUNT as usize;

/// Keys that sort all names as the bytes of their texts do, and room for the names of one map, each after its key.
#[derive(Drop)]
pub struct ByBytes {
    keys: Vec<u16>,
    entries: Vec<(u16, Name, Value)>,
}

impl Model for ByBytes {
    ghost use Rattle.std.specs.Prelude.{◌≡◌, length, vec_capacity};
    ghost use Rattle.at_value.specs.Widths as widths;
    ghost use Rattle.at_text.specs.Order.{Order};

    ghost Value = { Order };

    ghost view = { λ o. record { keys = o.keys.items; entries = o.entries.items } };

    ghost invariant = { λ o. (length o.keys.items ≡ widths.names) × (vec_capacity o.entries ≡ widths.names) };
}

impl ByBytes {
    /// The order of the names of a script. All its memory is taken here.
    pub fn new(alloc: Global, names: &Script) -> Result<ByBytes, AllocError>
        ensures { IfOk result (λ order. AreKeys names.now.names order.keys) }
    {
        Ok(ByBytes {
            keys: keys_of(alloc, names)?,
            entries: Vec::with_capacity(alloc, NAMES)?,
        })
    }

    /// Takes the pairs of a map in, by rising key.
    pub fn sort(&mut self, own: &Pairs)
        ensures keys { self.new.keys ≡ self.old.keys }
        ensures same { IsPermutation own.now (map pair_of self.new.entries) }
        ensures sorted { IsNonDecreasingBy (λ pair. slice_index self.old.keys pair.0) (map pair_of self.new.entries) }
        ensures rising { IsRising own.now }
        ensures range { All (λ pair. pair.0 < widths.names) own.now }
    {
        take_in(own, &self.keys, &mut self.entries);
        self.entries.sort_unstable_by_key(|entry| entry.0);
    }

    /// The pairs that were taken in last, each after its key.
    pub fn entries(&self) -> &[(u16, Name, Value)]
        ensures { result.now ≡ self.now.entries }
    {
        &self.entries
    }
}

fn key_of(keys: &[u16], name: Name) -> u16
    requires { length keys.now ≡ widths.names }
    ensures key { result ≡ slice_index keys.now name }
    ensures range { name < widths.names }
{
    keys[usize::from(name.number())]
}

fn take_in(own: &Pairs, keys: &[u16], entries: &mut Vec<(u16, Name, Value)>)
    requires keys { length keys.now ≡ widths.names }
    requires capacity { vec_capacity entries.old ≡ widths.names }
    ensures entries { entries.new.items ≡ map (keyed keys.now) own.now }
    ensures capacity { vec_capacity entries.new ≡ vec_capacity entries.old }
    ensures rising { IsRising own.now }
    ensures range { All (λ pair. pair.0 < widths.names) own.now }
{
    entries.clear();
    for i in 0..own.len() {
        let pair = own.at(i).unwrap();
        let key = key_of(keys, pair.0);
        entries.push_reserved((key, pair.0, pair.1));
    }
}

fn bytes_of(names: &Script, name: Name) -> &[u8]
    ensures { result.now ≡ text_at names.now.names name }
{
    match names.name_text(name) {
        Some(text) => text.as_bytes(),
        None => &[],
    }
}

fn compare(names: &Script, a: Name, b: Name) -> Ordering
    ensures { result ≡ name_cmp names.now.names a b }
{
    bytes_of(names, a).cmp(bytes_of(names, b)).then(a.cmp(&b))
}

fn name_at(number: usize) -> Name
    requires { number < widths.names }
    ensures { result ≡ number }
{
    Name::new(number as u16).unwrap()
}

fn all_names(alloc: Global) -> Result<Vec<Name>, AllocError>
    ensures { IfOk result (λ all. all.items ≡ range_with_len 0 widths.names) }
{
    let mut all = Vec::with_capacity(alloc, NAMES)?;
    for number in 0..NAMES {
        all.push(name_at(number))?;
    }
    Ok(all)
}

fn sorted_names(alloc: Global, names: &Script) -> Result<Vec<Name>, AllocError>
    ensures same { IfOk result (λ sorted. IsPermutation (range_with_len 0 widths.names) sorted.items) }
    ensures sorted { IfOk result (λ sorted. IsSortedBy (λ a b. is_lt (name_cmp names.now.names a b)) sorted.items) }
{
    let mut sorted = all_names(alloc)?;
    sorted.sort_by(|a, b| compare(names, *a, *b))?;
    Ok(sorted)
}

fn keys_in(alloc: Global, sorted: &[Name]) -> Result<Vec<u16>, AllocError>
    requires length { length sorted.now ≡ widths.names }
    requires range { All (λ n. n < widths.names) sorted.now }
    ensures { IfOk result (λ keys.
        (length keys.items ≡ widths.names) × AreGiven widths.names sorted.now keys.items) }
{
    let mut keys = vec![in alloc; 0u16; NAMES]?;
    let mut key = 0;
    for name in sorted {
        key += 1;
        keys[usize::from(name.number())] = key;
    }
    Ok(keys)
}

fn keys_of(alloc: Global, names: &Script) -> Result<Vec<u16>, AllocError>
    ensures length { IfOk result (λ keys. length keys.items ≡ widths.names) }
    ensures order { IfOk result (λ keys. AreKeys names.now.names keys.items) }
{
    let sorted = sorted_names(alloc, names)?;
    keys_in(alloc, &sorted)
}
