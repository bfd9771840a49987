//! Scripts. Contracts see each as the record of its parts.
ghost use Rattle.std.specs.Prelude.{◌≡◌, ◌≤◌, length, map, slice_get, string_bytes};
ghost use Rattle.std.specs.Option.{option_copied};
ghost use Rattle.at_value.specs.Widths as widths;
ghost use Rattle.at_script.specs.Parts.{block_of};
ghost use Rattle.at_script.specs.Limits as limits;

use crate::stmt::{Block, Stmt};
use at_value::{Class, Func, Name};
use std::marker::Model;

/// How many variables there may be.
pub const VARS_MOST: usize = 1024;

/// A script: its statements, and the texts that they name by number.
#[derive(Drop)]
pub struct Script {
    pub(crate) budget: u32,
    pub(crate) names: Vec<String>,
    pub(crate) classes: Vec<String>,
    pub(crate) vars: Vec<String>,
    pub(crate) funcs: Vec<String>,
    pub(crate) bodies: Vec<Vec<Stmt>>,
    pub(crate) main: Vec<Stmt>,
    pub(crate) threads: Vec<Vec<Stmt>>,
    pub(crate) finally: Option<Vec<Stmt>>,
}

impl Model for Script {
    ghost use Rattle.std.specs.Prelude.{◌≤◌, map, length};
    ghost use Rattle.std.specs.Option.{option_map};
    ghost use Rattle.at_script.specs.Limits.{most_budget, most_threads, most_variables};
    ghost use Rattle.std.specs.String.{string_bytes};
    ghost use Rattle.at_value.specs.Widths as widths;
    ghost use Rattle.at_script.specs.Parts.{ScriptParts};

    ghost Value = { ScriptParts };

    ghost view = { λ s. record {
      budget = s.budget;
      names = map string_bytes s.names.items;
      classes = map string_bytes s.classes.items;
      vars = map string_bytes s.vars.items;
      funcs = map string_bytes s.funcs.items;
      bodies = map (λ block. block.items) s.bodies.items;
      main = s.main.items;
      threads = map (λ block. block.items) s.threads.items;
      finally = option_map (λ block. block.items) s.finally;
    } };

    ghost invariant = { λ s. (1 ≤ s.budget) × (s.budget ≤ most_budget) × (length s.threads.items ≤ most_threads)
        × (length s.names.items ≤ widths.names) × (length s.classes.items ≤ widths.classes)
        × (length s.vars.items ≤ most_variables) × (length s.funcs.items ≤ widths.functions) };
}

impl Script {
    /// How many statements each thread may begin, from 1 to 100,000.
    pub fn budget(&self) -> u32
        ensures same { result ≡ self.now.budget }
        ensures least { 1 ≤ result }
        ensures most { result ≤ limits.most_budget }
    {
        self.budget
    }

    /// How many threads there are, at most 32.
    pub fn threads(&self) -> u8
        ensures same { result ≡ length self.now.threads }
        ensures most { result ≤ limits.most_threads }
    {
        self.threads.len() as u8
    }

    /// The statements of a block, and none exactly where the script has no such block.
    pub fn block(&self, b: Block) -> Option<&[Stmt]>
        ensures { option_copied result ≡ block_of self.now b }
    {
        match b {
            Block::Main => Some(self.main.as_slice()),
            Block::Thread(thread) => nth(&self.threads, usize::from(thread)),
            Block::Finally => match &self.finally {
                Some(block) => Some(block.as_slice()),
                None => None,
            },
            Block::Func(func) => nth(&self.bodies, usize::from(func.number())),
        }
    }

    /// The text of an attribute name or a text, and none exactly where the script has none of this number.
    pub fn name_text(&self, n: Name) -> Option<&str>
        ensures { option_copied result ≡ slice_get self.now.names n }
    {
        nth_text(&self.names, usize::from(n.number()))
    }

    /// The text of a class, and none exactly where the script has none of this number.
    pub fn class_text(&self, c: Class) -> Option<&str>
        ensures { option_copied result ≡ slice_get self.now.classes c }
    {
        nth_text(&self.classes, usize::from(c.number()))
    }

    /// The text of a function, and none exactly where the script has none of this number.
    pub fn func_text(&self, f: Func) -> Option<&str>
        ensures { option_copied result ≡ slice_get self.now.funcs f }
    {
        nth_text(&self.funcs, usize::from(f.number()))
    }

    /// The text of a variable, and none exactly where the script has none of this number.
    pub fn var_text(&self, v: u16) -> Option<&str>
        ensures { option_copied result ≡ slice_get self.now.vars v }
    {
        nth_text(&self.vars, usize::from(v))
    }

    /// How many attribute names and texts there are, the five special names included.
    pub fn names(&self) -> usize
        ensures same { result ≡ length self.now.names }
        ensures most { result ≤ widths.names }
    {
        self.names.len()
    }

    /// How many classes there are, `object` included.
    pub fn classes(&self) -> usize
        ensures same { result ≡ length self.now.classes }
        ensures most { result ≤ widths.classes }
    {
        self.classes.len()
    }

    /// How many functions there are.
    pub fn funcs(&self) -> usize
        ensures same { result ≡ length self.now.funcs }
        ensures most { result ≤ widths.functions }
    {
        self.funcs.len()
    }

    /// How many variables there are.
    pub fn vars(&self) -> usize
        ensures same { result ≡ length self.now.vars }
        ensures most { result ≤ limits.most_variables }
    {
        self.vars.len()
    }
}

/// The statements of the block with this number.
fn nth(blocks: &[Vec<Stmt>], number: usize) -> Option<&[Stmt]>
    ensures { option_copied result ≡ slice_get (map (λ block. block.items) blocks.now) number }
{
    match blocks.get(number) {
        Some(block) => Some(block.as_slice()),
        None => None,
    }
}

/// The text with this number.
fn nth_text(texts: &[String], number: usize) -> Option<&str>
    ensures { option_copied result ≡ slice_get (map string_bytes texts.now) number }
{
    match texts.get(number) {
        Some(text) => Some(text.as_str()),
        None => None,
    }
}
