//! The texts that a script numbers.
ghost use Rattle.std.specs.Prelude.{◌≡◌, ◌≤◌, ℕ, List, map, length, bytes_eq};
ghost use Rattle.std.specs.HashMap.{get_by};
ghost use Rattle.at_value.specs.Widths as widths;
ghost use Rattle.at_script.specs.Limits as limits;
ghost use Rattle.at_script.specs.Meanings.{now_of, meaning_among, meaning_or_none};

use crate::meaning::Meaning;
use std::collections::HashMap;

/// The texts that a script numbers: the classes and functions that the whole text declares, and the names and variables
/// of the lines so far.
#[derive(Drop)]
pub struct Tables<'a> {
    /// What each identifier is numbered as.
    pub meanings: HashMap<&'a str, Meaning>,
    /// The classes, `object` first.
    pub classes: Vec<&'a str>,
    /// The functions.
    pub funcs: Vec<&'a str>,
    /// The variables.
    pub vars: Vec<&'a str>,
    /// The names of attributes and the texts, the five special names first.
    pub names: Vec<&'a str>,
    /// How many variables the lines before this one have.
    pub earlier: usize,
    ghost agrees: { (word : List ℕ) → meaning_or_none (get_by (λ k. bytes_eq word k.now) meanings)
        ≡ meaning_among (map now_of classes.items) (map now_of funcs.items) (map now_of vars.items)
        (map now_of names.items) word },
    ghost few: { length vars.items ≤ limits.most_variables },
    ghost most_names: { length names.items ≤ widths.names },
    ghost known: { earlier ≤ length vars.items },
}
