//! The operands of a line: what each is by the numbers of what its identifiers stand for, or what is wrong with it.
ghost use Rattle.std.specs.Prelude.{◌≡◌, ◌<◌, ◌∷◌, ◌++◌, [], length, Ok, Err, IsTrue, IfOk, if◌then◌else◌};
ghost use Rattle.std.specs.Option.{option_map, option_copied};
ghost use Rattle.at_script.specs.declared.fault.LineFault.TheVariants as line_faults;
ghost use Rattle.at_value.specs.Widths as widths;
ghost use Rattle.at_script.specs.Words.{is_identifier};
ghost use Rattle.at_script.specs.Shapes.{are_bases};
ghost use Rattle.at_script.specs.Statements.{class_numbered, func_numbered};
ghost use Rattle.at_script.specs.Views.{written, words_left, both_now, register_in};
ghost use Rattle.at_script.specs.Reading.{texts_in, is_below, IfTold};
ghost use Rattle.at_script.specs.Taking as taking;

use crate::fault::{Cause, LineFault, both};
use crate::lines::Words;
use crate::literal::Literal;
use crate::meaning::{Meaning, class_number, func_number};
use crate::stmt::{Operand, Target};
use crate::tables::Tables;
use crate::word::{
    Register, is_attribute_name, is_free, is_object, is_short, register_of, text_of,
};
use at_value::{Bases, Class, Func, Name, Prop, Value};

fn wrong<T>(cause: Cause) -> Result<T, LineFault>
    ensures { result ≡ Err (line_faults.Wrong cause) }
{
    Err(LineFault::Wrong(cause))
}

/// The class with this number. Past the last there may be it stands for the last: the line that declares the first such
/// class is refused, so no script has it.
fn class_numbered(number: u16) -> Class
    ensures { result ≡ class_numbered number }
{
    Class::new(number.min(Class::COUNT - 1)).unwrap()
}

/// The function with this number; past the last there may be it stands for the last, as for a class.
fn func_numbered(number: u16) -> Func
    ensures { result ≡ func_numbered number }
{
    Func::new(number.min(Func::COUNT - 1)).unwrap()
}

/// The bases with one more.
fn with_class(mut bases: Bases, class: Class) -> Bases
    requires { length bases < widths.most_bases }
    ensures { result ≡ bases ++ class ∷ [] }
{
    let _ = bases.push(class);
    bases
}

impl<'a> Tables<'a> {
    /// The cause for an identifier that stands for a class or a function, and that no line declares so.
    fn undeclared(&self, meaning: Meaning, cause: Cause) -> LineFault
        ensures { result ≡ (if is_below self.now.earlier meaning.var
            then line_faults.Wrong Cause.Name else line_faults.Wrong cause) }
    {
        if self.is_earlier(meaning) {
            LineFault::Wrong(Cause::Name)
        } else {
            LineFault::Wrong(cause)
        }
    }

    /// A class.
    pub fn class(&self, name: &str) -> Result<Class, LineFault>
        ensures { result ≡ taking.class_taken self.now.earlier (texts_in self.now) name.now }
    {
        if !is_free(name) && !is_object(name) {
            return wrong(Cause::Name);
        }
        let meaning = self.meaning(name);
        if meaning.func.is_some() {
            return wrong(Cause::Name);
        }
        match meaning.class {
            Some(number) => Ok(class_numbered(number)),
            None => Err(self.undeclared(meaning, Cause::Class)),
        }
    }

    /// The class that a line `class` makes.
    pub fn subject(&self, name: &str) -> Result<Class, LineFault>
        ensures { result ≡ taking.subject_taken (texts_in self.now) name.now }
    {
        if !is_free(name) {
            return wrong(Cause::Name);
        }
        let meaning = self.meaning(name);
        if meaning.func.is_some() {
            return wrong(Cause::Name);
        }
        let next = class_number(self.classes.len());
        let number = meaning.class.unwrap_or(next);
        if number >= Class::COUNT {
            return wrong(Cause::Limit);
        }
        Ok(class_numbered(number))
    }

    /// The bases with the class of a word, which is an identifier.
    fn with_base(&self, bases: Result<Bases, LineFault>, word: &[u8]) -> Result<Bases, LineFault>
        requires form { IsTrue (is_identifier word.now) }
        requires room { IfOk bases (λ classes. length classes < widths.most_bases) }
        ensures { result ≡ taking.with_base self.now.earlier (texts_in self.now) bases word.now }
    {
        let class = self.class(text_of(word));
        match both(bases, class) {
            Ok((bases, class)) => Ok(with_class(bases, class)),
            Err(fault) => Err(fault),
        }
    }

    /// The classes of the words, which are identifiers, as bases.
    pub fn bases(&self, words: Words<'_>) -> Result<Bases, LineFault>
        requires { IsTrue (are_bases (words_left words)) }
        ensures { result ≡ taking.bases_taken self.now.earlier (texts_in self.now) (Ok []) (words_left words.entry) }
    {
        let mut bases = Ok(Bases::none());
        for word in words {
            bases = self.with_base(bases, word);
        }
        bases
    }

    /// Begins a function, which is the next where so many were begun before.
    pub fn begin_function(&self, name: &str, begun: usize) -> Result<(), LineFault>
        ensures { result ≡ taking.function_begun begun (texts_in self.now) name.now }
    {
        if !is_free(name) {
            return wrong(Cause::Name);
        }
        let next = func_number(self.funcs.len());
        let number = self.meaning(name).func.unwrap_or(next);
        if usize::from(number) < begun {
            return wrong(Cause::Name);
        }
        if number >= Func::COUNT {
            return wrong(Cause::Limit);
        }
        Ok(())
    }

    /// A function after `static:`, `classm:` or `prop:`.
    fn function(&self, name: &str) -> Result<Func, LineFault>
        ensures { result ≡ taking.function_taken self.now.earlier (texts_in self.now) name.now }
    {
        if !is_free(name) {
            return wrong(Cause::Name);
        }
        let meaning = self.meaning(name);
        match meaning.func {
            Some(number) => Ok(func_numbered(number)),
            None if meaning.class.is_some() => wrong(Cause::Name),
            None => Err(self.undeclared(meaning, Cause::Func)),
        }
    }

    /// A function of a property, where it has one.
    fn part(&self, name: Option<&str>) -> Result<Option<Func>, LineFault>
        ensures { result ≡ taking.part_taken self.now.earlier (texts_in self.now) (option_copied name.entry) }
    {
        match name {
            Some(name) => Ok(Some(self.function(name)?)),
            None => Ok(None),
        }
    }

    fn property(
        &self,
        get: Option<&str>,
        set: Option<&str>,
        del: Option<&str>,
    ) -> Result<Value, LineFault>
        ensures { result ≡ taking.property_taken self.now.earlier (texts_in self.now)
            (option_copied get.entry) (option_copied set.entry) (option_copied del.entry) }
    {
        let ((get, set), del) = both(both(self.part(get), self.part(set)), self.part(del))?;
        Ok(Value::Prop(Prop::new(get, set, del)))
    }

    /// A variable that is bound.
    pub fn bound(&mut self, name: &'a str) -> Result<u16, LineFault>
        ensures told { let found = taking.bound_taken (texts_in self.old) name.now in
            IfTold result ((result ≡ found.0) × (texts_in self.new ≡ found.1)) }
        ensures earlier { self.new.earlier ≡ self.old.earlier }
    {
        let meaning = self.meaning(name);
        if !is_free(name) || meaning.func.is_some() || meaning.class.is_some() {
            return wrong(Cause::Name);
        }
        self.variable(name, meaning)
    }

    /// What a statement works on.
    pub fn owner(&mut self, name: &'a str) -> Result<Target, LineFault>
        ensures told { let found = taking.owner_taken (texts_in self.old) name.now in
            IfTold result ((result ≡ found.0) × (texts_in self.new ≡ found.1)) }
        ensures earlier { self.new.earlier ≡ self.old.earlier }
    {
        match register_of(name) {
            Some(Register::SelfArg) => Ok(Target::SelfArg),
            Some(Register::Arg) => Ok(Target::Arg),
            Some(Register::Other) => Ok(Target::Other),
            Some(Register::It) => Ok(Target::It),
            None => self.named_owner(name),
        }
    }

    fn named_owner(&mut self, name: &'a str) -> Result<Target, LineFault>
        ensures told { let found = taking.named_owner (texts_in self.old) name.now in
            IfTold result ((result ≡ found.0) × (texts_in self.new ≡ found.1)) }
        ensures earlier { self.new.earlier ≡ self.old.earlier }
    {
        if !is_free(name) && !is_object(name) {
            return wrong(Cause::Name);
        }
        let meaning = self.meaning(name);
        if meaning.func.is_some() {
            return wrong(Cause::Name);
        }
        match meaning.class {
            Some(number) => Ok(Target::Class(class_numbered(number))),
            None => Ok(Target::Var(self.variable(name, meaning)?)),
        }
    }

    /// An owner that may be left out.
    pub fn second_owner(&mut self, name: Option<&'a str>) -> Result<Option<Target>, LineFault>
        ensures told { let found = taking.second_owner_taken (texts_in self.old) (option_copied name.entry) in
            IfTold result ((result ≡ found.0) × (texts_in self.new ≡ found.1)) }
        ensures earlier { self.new.earlier ≡ self.old.earlier }
    {
        match name {
            Some(name) => Ok(Some(self.owner(name)?)),
            None => Ok(None),
        }
    }

    /// The name of an attribute.
    pub fn attribute_name(&mut self, name: &'a str) -> Result<Name, LineFault>
        ensures told { let found = taking.attribute_name_taken (texts_in self.old) name.now in
            IfTold result ((result ≡ found.0) × (texts_in self.new ≡ found.1)) }
        ensures earlier { self.new.earlier ≡ self.old.earlier }
    {
        if !is_attribute_name(name) {
            return wrong(Cause::Name);
        }
        let meaning = self.meaning(name);
        self.name(name, meaning)
    }

    /// An attribute of an owner.
    pub fn attribute(&mut self, place: (&'a str, &'a str)) -> Result<(Target, Name), LineFault>
        ensures told { let found = taking.attribute_taken (texts_in self.old) (both_now place.entry) in
            IfTold result ((result ≡ found.0) × (texts_in self.new ≡ found.1)) }
        ensures earlier { self.new.earlier ≡ self.old.earlier }
    {
        let owner = self.owner(place.0);
        both(owner, self.attribute_name(place.1))
    }

    /// An attribute of a class.
    pub fn class_attribute(&mut self, place: (&'a str, &'a str)) -> Result<(Class, Name), LineFault>
        ensures told { let found = taking.class_attribute_taken self.old.earlier
            (texts_in self.old) (both_now place.entry) in
            IfTold result ((result ≡ found.0) × (texts_in self.new ≡ found.1)) }
        ensures earlier { self.new.earlier ≡ self.old.earlier }
    {
        let class = self.class(place.0);
        both(class, self.attribute_name(place.1))
    }

    fn text(&mut self, text: &'a str) -> Result<Operand, LineFault>
        ensures told { let found = taking.text_taken (texts_in self.old) text.now in
            IfTold result ((result ≡ found.0) × (texts_in self.new ≡ found.1)) }
        ensures earlier { self.new.earlier ≡ self.old.earlier }
    {
        if !is_free(text) {
            return wrong(Cause::Name);
        }
        let meaning = self.meaning(text);
        Ok(Operand::Value(Value::Text(self.name(text, meaning)?)))
    }

    /// The value of a name.
    fn named(&mut self, name: &'a str) -> Result<Operand, LineFault>
        ensures told { let found = taking.register_value (texts_in self.old) name.now (register_in name.now) in
            IfTold result ((result ≡ found.0) × (texts_in self.new ≡ found.1)) }
        ensures earlier { self.new.earlier ≡ self.old.earlier }
    {
        match register_of(name) {
            Some(Register::SelfArg) => Ok(Operand::SelfArg),
            Some(Register::Arg) => Ok(Operand::Arg),
            Some(Register::Other) => Ok(Operand::Other),
            Some(Register::It) => Ok(Operand::It),
            None => self.numbered(name),
        }
    }

    /// The value of a function, a class or a variable.
    fn numbered(&mut self, name: &'a str) -> Result<Operand, LineFault>
        ensures told { let found = taking.named_value (texts_in self.old) name.now in
            IfTold result ((result ≡ found.0) × (texts_in self.new ≡ found.1)) }
        ensures earlier { self.new.earlier ≡ self.old.earlier }
    {
        if !is_short(name) {
            return wrong(Cause::Name);
        }
        let meaning = self.meaning(name);
        if let Some(number) = meaning.func {
            return Ok(Operand::Value(Value::Func(func_numbered(number))));
        }
        match meaning.class {
            Some(number) => Ok(Operand::Value(Value::Class(class_numbered(number)))),
            None => Ok(Operand::Var(self.variable(name, meaning)?)),
        }
    }

    /// A value.
    pub fn value(&mut self, literal: Literal<'a>) -> Result<Operand, LineFault>
        ensures told { let found = taking.value_taken self.old.earlier (texts_in self.old) (written literal.entry) in
            IfTold result ((result ≡ found.0) × (texts_in self.new ≡ found.1)) }
        ensures earlier { self.new.earlier ≡ self.old.earlier }
    {
        match literal {
            Literal::Nothing => Ok(Operand::Value(Value::Nothing)),
            Literal::Number(number) => match number.integer() {
                Some(number) => Ok(Operand::Value(Value::Int(number))),
                None => wrong(Cause::Number),
            },
            Literal::Text(text) => self.text(text),
            Literal::Word(name) => self.named(name),
            Literal::Static(name) => Ok(Operand::Value(Value::Static(self.function(name)?))),
            Literal::ClassM(name) => Ok(Operand::Value(Value::ClassM(self.function(name)?))),
            Literal::Prop(get, set, del) => Ok(Operand::Value(self.property(get, set, del)?)),
        }
    }

    /// A value that may be left out.
    pub fn given(&mut self, literal: Option<Literal<'a>>) -> Result<Option<Operand>, LineFault>
        ensures told { let found = taking.given_taken self.old.earlier
            (texts_in self.old) (option_map written literal.entry) in
            IfTold result ((result ≡ found.0) × (texts_in self.new ≡ found.1)) }
        ensures earlier { self.new.earlier ≡ self.old.earlier }
    {
        match literal {
            Some(literal) => Ok(Some(self.value(literal)?)),
            None => Ok(None),
        }
    }
}
