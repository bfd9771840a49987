//! How texts are numbered.
ghost use Rattle.std.specs.Prelude.{◌≡◌, ◌<◌, ◌∷◌, ◌++◌, [], length, Some, None, IfOk, IsTrue};
ghost use Rattle.std.specs.Option.{option_copied};
ghost use Rattle.at_value.specs.Widths as widths;
ghost use Rattle.at_value.specs.Numbers.{special_names};
ghost use Rattle.at_name.specs.Texts.{place_of};
ghost use Rattle.at_script.specs.Limits as limits;
ghost use Rattle.at_script.specs.Lines.{lines_of, words_in};
ghost use Rattle.at_script.specs.Texts.{Texts, with_text, declared_name, texts_of};
ghost use Rattle.at_script.specs.Views.{words_left};
ghost use Rattle.at_script.specs.Reading.{texts_in, meaning_in, no_texts, with_declared, with_all_declared, numbered_in, is_below, IfTold};

use crate::fault::{Cause, LineFault};
use crate::lines::{Words, first_line, is_blank};
use crate::meaning::{Meaning, NO_MEANING, class_number, func_number};
use crate::script::VARS_MOST;
use crate::tables::Tables;
use crate::word::{identifier_of, is_free};
use at_value::Name;
use std::alloc::{AllocError, Global};
use std::collections::HashMap;

/// The identifier that a line declares after its keyword.
fn declared_name(mut words: Words<'_>) -> Option<&str>
    ensures { option_copied result ≡ declared_name (words_left words.entry) }
{
    let name = identifier_of(words.next()?)?;
    if is_free(name) { Some(name) } else { None }
}

/// Whether the first byte of a line shows that the line declares nothing: no word that declares begins with it.
fn declares_nothing(line: &[u8]) -> bool
    ensures { IsTrue result → (t : Texts) → with_declared t (words_in line.now) ≡ t }
{
    match line.first() {
        Some(byte) => !is_blank(*byte) && *byte != b'c' && *byte != b'f',
        None => false,
    }
}

impl<'a> Tables<'a> {
    /// No texts. It takes no memory.
    fn new(alloc: Global) -> Tables<'a>
        ensures { texts_in result ≡ record { classes = []; funcs = []; names = []; vars = [] } }
    {
        Tables {
            meanings: HashMap::new(alloc),
            classes: Vec::new(alloc),
            funcs: Vec::new(alloc),
            vars: Vec::new(alloc),
            names: Vec::new(alloc),
            earlier: 0,
        }
    }

    fn with_special_names(alloc: Global) -> Result<Tables<'a>, AllocError>
        ensures { IfOk result (λ tables. texts_in tables ≡ no_texts) }
    {
        let mut tables = Tables::new(alloc);
        tables.insert_special("__get__")?;
        tables.insert_special("__set__")?;
        tables.insert_special("__delete__")?;
        tables.insert_special("__getattr__")?;
        tables.insert_special("__init__")?;
        Ok(tables)
    }

    /// Numbers a name, of which there are few.
    fn insert_special(&mut self, name: &'a str) -> Result<(), AllocError>
        requires room { length self.old.names.items < special_names }
        requires absent { place_of name.now (texts_in self.old).names ≡ None }
        ensures { IfOk result (λ _. texts_in self.new ≡
            record (texts_in self.old) { names = (texts_in self.old).names ++ name.now ∷ [] }) }
    {
        let number = self.names.len() as u16;
        let meaning = self.meaning(name);
        self.insert_name(name, number, meaning)
    }

    /// The classes and functions that the lines of a text declare.
    pub fn declared(alloc: Global, text: &'a [u8]) -> Result<Tables<'a>, AllocError>
        ensures { IfOk result (λ tables. texts_in tables ≡ texts_of (lines_of text.now)) }
    {
        let mut tables = Tables::with_special_names(alloc)?;
        tables.declare_class("object")?;
        tables.declare_lines(text)?;
        Ok(tables)
    }

    fn declare_lines(&mut self, text: &'a [u8]) -> Result<(), AllocError>
        ensures { IfOk result (λ _. texts_in self.new ≡ with_all_declared (texts_in self.old) (lines_of text.now)) }
    {
        let mut rest = text;
        while !rest.is_empty() {
            let (line, after) = first_line(rest);
            self.declare_line(line)?;
            rest = after;
        }
        Ok(())
    }

    fn declare_line(&mut self, line: &'a [u8]) -> Result<(), AllocError>
        ensures { IfOk result (λ _. texts_in self.new ≡ with_declared (texts_in self.old) (words_in line.now)) }
    {
        if declares_nothing(line) {
            return Ok(());
        }
        let mut words = Words::new(line);
        let Some(word) = words.next() else {
            return Ok(());
        };
        if word == b"class".as_slice() {
            match declared_name(words) {
                Some(name) => self.declare_class(name),
                None => Ok(()),
            }
        } else if word == b"func".as_slice() {
            match declared_name(words) {
                Some(name) => self.declare_func(name),
                None => Ok(()),
            }
        } else {
            Ok(())
        }
    }

    fn declare_class(&mut self, name: &'a str) -> Result<(), AllocError>
        ensures { IfOk result (λ _. texts_in self.new ≡
            record (texts_in self.old) { classes = with_text (texts_in self.old).classes name.now }) }
    {
        let meaning = self.meaning(name);
        if meaning.class.is_some() {
            return Ok(());
        }
        let class = Some(class_number(self.classes.len()));
        self.classes.reserve(1)?;
        self.meanings.insert(name, Meaning { class, ..meaning })?;
        self.classes.push_reserved(name);
        Ok(())
    }

    fn declare_func(&mut self, name: &'a str) -> Result<(), AllocError>
        ensures { IfOk result (λ _. texts_in self.new ≡
            record (texts_in self.old) { funcs = with_text (texts_in self.old).funcs name.now }) }
    {
        let meaning = self.meaning(name);
        if meaning.func.is_some() {
            return Ok(());
        }
        let func = Some(func_number(self.funcs.len()));
        self.funcs.reserve(1)?;
        self.meanings.insert(name, Meaning { func, ..meaning })?;
        self.funcs.push_reserved(name);
        Ok(())
    }

    /// What the identifier is numbered as.
    #[inline(always)]
    pub fn meaning(&self, name: &str) -> Meaning
        ensures { result ≡ meaning_in (texts_in self.now) name.now }
    {
        match self.meanings.get(&name) {
            Some(meaning) => *meaning,
            None => NO_MEANING,
        }
    }

    /// A line begins: the variables so far are those of earlier lines.
    pub fn begin_line(&mut self)
        ensures texts { texts_in self.new ≡ texts_in self.old }
        ensures earlier { self.new.earlier ≡ length (texts_in self.old).vars }
    {
        self.earlier = self.vars.len();
    }

    /// Whether an earlier line has the variable.
    pub fn is_earlier(&self, meaning: Meaning) -> bool
        ensures { result ≡ is_below self.now.earlier meaning.var }
    {
        match meaning.var {
            Some(var) => usize::from(var) < self.earlier,
            None => false,
        }
    }

    /// The number of a variable, of which this is the meaning.
    #[inline(always)]
    pub fn variable(&mut self, name: &'a str, meaning: Meaning) -> Result<u16, LineFault>
        requires { meaning ≡ meaning_in (texts_in self.old) name.now }
        ensures told { let found = numbered_in limits.most_variables (texts_in self.old).vars name.now in
            IfTold result ((result ≡ found.0) × (texts_in self.new ≡ record (texts_in self.old) { vars = found.1 })) }
        ensures earlier { self.new.earlier ≡ self.old.earlier }
    {
        match meaning.var {
            Some(var) => Ok(var),
            None => self.add_variable(name, meaning),
        }
    }

    fn add_variable(&mut self, name: &'a str, meaning: Meaning) -> Result<u16, LineFault>
        requires is { meaning ≡ meaning_in (texts_in self.old) name.now }
        requires absent { meaning.var ≡ None }
        ensures told { let found = numbered_in limits.most_variables (texts_in self.old).vars name.now in
            IfTold result ((result ≡ found.0) × (texts_in self.new ≡ record (texts_in self.old) { vars = found.1 })) }
        ensures earlier { self.new.earlier ≡ self.old.earlier }
    {
        let count = self.vars.len();
        if count >= VARS_MOST {
            return Err(LineFault::Wrong(Cause::Limit));
        }
        let var = count as u16;
        self.insert_variable(name, var, meaning)?;
        Ok(var)
    }

    fn insert_variable(
        &mut self,
        name: &'a str,
        var: u16,
        meaning: Meaning,
    ) -> Result<(), AllocError>
        requires is { meaning ≡ meaning_in (texts_in self.old) name.now }
        requires absent { meaning.var ≡ None }
        requires next { var ≡ length self.old.vars.items }
        requires room { var < limits.most_variables }
        ensures added { IfOk result (λ _. texts_in self.new ≡
            record (texts_in self.old) { vars = (texts_in self.old).vars ++ name.now ∷ [] }) }
        ensures earlier { self.new.earlier ≡ self.old.earlier }
    {
        let var = Some(var);
        self.vars.reserve(1)?;
        self.meanings.insert(name, Meaning { var, ..meaning })?;
        self.vars.push_reserved(name);
        Ok(())
    }

    /// The number of the name of an attribute or of a text, of which this is the meaning.
    #[inline(always)]
    pub fn name(&mut self, text: &'a str, meaning: Meaning) -> Result<Name, LineFault>
        requires { meaning ≡ meaning_in (texts_in self.old) text.now }
        ensures told { let found = numbered_in widths.names (texts_in self.old).names text.now in
            IfTold result ((result ≡ found.0) × (texts_in self.new ≡ record (texts_in self.old) { names = found.1 })) }
        ensures earlier { self.new.earlier ≡ self.old.earlier }
    {
        match meaning.name {
            Some(number) => Ok(name_of(number)),
            None => self.add_name(text, meaning),
        }
    }

    fn add_name(&mut self, text: &'a str, meaning: Meaning) -> Result<Name, LineFault>
        requires is { meaning ≡ meaning_in (texts_in self.old) text.now }
        requires absent { meaning.name ≡ None }
        ensures told { let found = numbered_in widths.names (texts_in self.old).names text.now in
            IfTold result ((result ≡ found.0) × (texts_in self.new ≡ record (texts_in self.old) { names = found.1 })) }
        ensures earlier { self.new.earlier ≡ self.old.earlier }
    {
        let count = self.names.len();
        if count >= usize::from(Name::COUNT) {
            return Err(LineFault::Wrong(Cause::Limit));
        }
        let number = count as u16;
        self.insert_name(text, number, meaning)?;
        Ok(name_of(number))
    }

    fn insert_name(
        &mut self,
        text: &'a str,
        number: u16,
        meaning: Meaning,
    ) -> Result<(), AllocError>
        requires is { meaning ≡ meaning_in (texts_in self.old) text.now }
        requires absent { meaning.name ≡ None }
        requires next { number ≡ length self.old.names.items }
        requires room { number < widths.names }
        ensures added { IfOk result (λ _. texts_in self.new ≡
            record (texts_in self.old) { names = (texts_in self.old).names ++ text.now ∷ [] }) }
        ensures earlier { self.new.earlier ≡ self.old.earlier }
    {
        let name = Some(number);
        self.names.reserve(1)?;
        self.meanings.insert(text, Meaning { name, ..meaning })?;
        self.names.push_reserved(text);
        Ok(())
    }
}

/// The name with this number.
fn name_of(number: u16) -> Name
    requires { number < widths.names }
    ensures { result ≡ number }
{
    Name::new(number).unwrap()
}
