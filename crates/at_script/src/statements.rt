//! The statements of a script.
ghost use Rattle.std.specs.Prelude.{◌≡◌};
ghost use Rattle.at_script.specs.Views.{words_left, both_now};
ghost use Rattle.at_script.specs.Reading.{texts_in, IfTold};
ghost use Rattle.at_script.specs.Taking.{both_taken, bound_taken, class_taken, attribute_taken};
ghost use Rattle.at_script.specs.Stating.{statement_taken, alone_says};

use crate::fault::{Cause, LineFault, both};
use crate::forms;
use crate::keyword::Keyword;
use crate::lines::Words;
use crate::stmt::{Stmt, Target};
use crate::tables::Tables;
use at_value::{Bases, Class, Name};

/// The fault of words that haven't the form that they should.
const MALFORMED: LineFault = LineFault::Wrong(Cause::Form);

/// A statement without operands.
fn alone(words: Words<'_>, statement: Stmt) -> Result<Stmt, LineFault>
    ensures { result ≡ alone_says statement (words_left words.entry) }
{
    if words.are_none() {
        Ok(statement)
    } else {
        Err(MALFORMED)
    }
}

impl<'a> Tables<'a> {
    fn class_statement(&mut self, words: Words<'a>) -> Result<Stmt, LineFault>
        ensures told { let found = statement_taken self.old.earlier (texts_in self.old) Keyword.Class
            (words_left words.entry) in
            IfTold result ((result ≡ found.0) × (texts_in self.new ≡ found.1)) }
        ensures earlier { self.new.earlier ≡ self.old.earlier }
    {
        let Some((class, words)) = forms::class_and_bases(words) else {
            return Err(MALFORMED);
        };
        let first = self.subject(class);
        let (class, bases) = both(first, self.bases(words))?;
        if bases.is_empty() {
            Ok(Stmt::Class(class, Bases::only(Class::object())))
        } else {
            Ok(Stmt::Class(class, bases))
        }
    }

    fn bases_statement(&mut self, words: Words<'a>) -> Result<Stmt, LineFault>
        ensures told { let found = statement_taken self.old.earlier (texts_in self.old) Keyword.Bases
            (words_left words.entry) in
            IfTold result ((result ≡ found.0) × (texts_in self.new ≡ found.1)) }
        ensures earlier { self.new.earlier ≡ self.old.earlier }
    {
        let Some((class, words)) = forms::class_and_bases(words) else {
            return Err(MALFORMED);
        };
        let first = self.class(class);
        let (class, bases) = both(first, self.bases(words))?;
        Ok(Stmt::Bases(class, bases))
    }

    fn put(&mut self, words: Words<'a>) -> Result<Stmt, LineFault>
        ensures told { let found = statement_taken self.old.earlier (texts_in self.old) Keyword.Put
            (words_left words.entry) in
            IfTold result ((result ≡ found.0) × (texts_in self.new ≡ found.1)) }
        ensures earlier { self.new.earlier ≡ self.old.earlier }
    {
        let Some((place, value)) = forms::attribute_and_value(words) else {
            return Err(MALFORMED);
        };
        let first = self.class_attribute(place);
        let ((class, name), value) = both(first, self.value(value))?;
        Ok(Stmt::Put(class, name, value))
    }

    fn cut(&mut self, words: Words<'a>) -> Result<Stmt, LineFault>
        ensures told { let found = statement_taken self.old.earlier (texts_in self.old) Keyword.Cut
            (words_left words.entry) in
            IfTold result ((result ≡ found.0) × (texts_in self.new ≡ found.1)) }
        ensures earlier { self.new.earlier ≡ self.old.earlier }
    {
        let Some(place) = forms::attribute(words) else {
            return Err(MALFORMED);
        };
        let (class, name) = self.class_attribute(place)?;
        Ok(Stmt::Cut(class, name))
    }

    fn bound_and_class(
        &mut self,
        variable: &'a str,
        class: &'a str,
    ) -> Result<(u16, Class), LineFault>
        ensures told { let found = both_taken (bound_taken (texts_in self.old) variable.now)
            (λ u. (class_taken self.old.earlier u class.now, u)) in
            IfTold result ((result ≡ found.0) × (texts_in self.new ≡ found.1)) }
        ensures earlier { self.new.earlier ≡ self.old.earlier }
    {
        let first = self.bound(variable);
        both(first, self.class(class))
    }

    fn class_and_attribute(
        &mut self,
        class: &'a str,
        place: (&'a str, &'a str),
    ) -> Result<(Class, (Target, Name)), LineFault>
        ensures told { let found = both_taken
            (class_taken self.old.earlier (texts_in self.old) class.now, texts_in self.old)
            (λ u. attribute_taken u (both_now place.entry)) in
            IfTold result ((result ≡ found.0) × (texts_in self.new ≡ found.1)) }
        ensures earlier { self.new.earlier ≡ self.old.earlier }
    {
        let first = self.class(class);
        both(first, self.attribute(place))
    }

    fn new_statement(&mut self, words: Words<'a>) -> Result<Stmt, LineFault>
        ensures told { let found = statement_taken self.old.earlier (texts_in self.old) Keyword.New
            (words_left words.entry) in
            IfTold result ((result ≡ found.0) × (texts_in self.new ≡ found.1)) }
        ensures earlier { self.new.earlier ≡ self.old.earlier }
    {
        let Some(((variable, class), given)) = forms::identifiers_and_given(words) else {
            return Err(MALFORMED);
        };
        let first = self.bound_and_class(variable, class);
        let ((variable, class), given) = both(first, self.given(given))?;
        Ok(Stmt::New(variable, class, given))
    }

    fn set(&mut self, words: Words<'a>) -> Result<Stmt, LineFault>
        ensures told { let found = statement_taken self.old.earlier (texts_in self.old) Keyword.Set
            (words_left words.entry) in
            IfTold result ((result ≡ found.0) × (texts_in self.new ≡ found.1)) }
        ensures earlier { self.new.earlier ≡ self.old.earlier }
    {
        let Some((place, value)) = forms::attribute_and_value(words) else {
            return Err(MALFORMED);
        };
        let first = self.attribute(place);
        let ((target, name), value) = both(first, self.value(value))?;
        Ok(Stmt::Set(target, name, value))
    }

    fn del(&mut self, words: Words<'a>) -> Result<Stmt, LineFault>
        ensures told { let found = statement_taken self.old.earlier (texts_in self.old) Keyword.Del
            (words_left words.entry) in
            IfTold result ((result ≡ found.0) × (texts_in self.new ≡ found.1)) }
        ensures earlier { self.new.earlier ≡ self.old.earlier }
    {
        let Some(place) = forms::attribute(words) else {
            return Err(MALFORMED);
        };
        let (target, name) = self.attribute(place)?;
        Ok(Stmt::Del(target, name))
    }

    fn get(&mut self, words: Words<'a>) -> Result<Stmt, LineFault>
        ensures told { let found = statement_taken self.old.earlier (texts_in self.old) Keyword.Get
            (words_left words.entry) in
            IfTold result ((result ≡ found.0) × (texts_in self.new ≡ found.1)) }
        ensures earlier { self.new.earlier ≡ self.old.earlier }
    {
        let Some(place) = forms::attribute(words) else {
            return Err(MALFORMED);
        };
        let (target, name) = self.attribute(place)?;
        Ok(Stmt::Get(target, name))
    }

    fn turn(&mut self, words: Words<'a>) -> Result<Stmt, LineFault>
        ensures told { let found = statement_taken self.old.earlier (texts_in self.old) Keyword.Turn
            (words_left words.entry) in
            IfTold result ((result ≡ found.0) × (texts_in self.new ≡ found.1)) }
        ensures earlier { self.new.earlier ≡ self.old.earlier }
    {
        let Some((owner, class)) = forms::identifiers(words) else {
            return Err(MALFORMED);
        };
        let first = self.owner(owner);
        let (target, class) = both(first, self.class(class))?;
        Ok(Stmt::Turn(target, class))
    }

    fn share(&mut self, words: Words<'a>) -> Result<Stmt, LineFault>
        ensures told { let found = statement_taken self.old.earlier (texts_in self.old) Keyword.Share
            (words_left words.entry) in
            IfTold result ((result ≡ found.0) × (texts_in self.new ≡ found.1)) }
        ensures earlier { self.new.earlier ≡ self.old.earlier }
    {
        let Some((first, second)) = forms::identifiers(words) else {
            return Err(MALFORMED);
        };
        let first = self.owner(first);
        let (first, second) = both(first, self.owner(second))?;
        Ok(Stmt::Share(first, second))
    }

    fn super_statement(&mut self, words: Words<'a>) -> Result<Stmt, LineFault>
        ensures told { let found = statement_taken self.old.earlier (texts_in self.old) Keyword.Super
            (words_left words.entry) in
            IfTold result ((result ≡ found.0) × (texts_in self.new ≡ found.1)) }
        ensures earlier { self.new.earlier ≡ self.old.earlier }
    {
        let Some((class, place)) = forms::identifier_and_attribute(words) else {
            return Err(MALFORMED);
        };
        let first = self.class(class);
        let (class, (target, name)) = both(first, self.attribute(place))?;
        Ok(Stmt::Super(class, target, name))
    }

    fn special(&mut self, words: Words<'a>) -> Result<Stmt, LineFault>
        ensures told { let found = statement_taken self.old.earlier (texts_in self.old) Keyword.Special
            (words_left words.entry) in
            IfTold result ((result ≡ found.0) × (texts_in self.new ≡ found.1)) }
        ensures earlier { self.new.earlier ≡ self.old.earlier }
    {
        let Some(place) = forms::attribute(words) else {
            return Err(MALFORMED);
        };
        let (target, name) = self.attribute(place)?;
        Ok(Stmt::Special(target, name))
    }

    fn classof(&mut self, words: Words<'a>) -> Result<Stmt, LineFault>
        ensures told { let found = statement_taken self.old.earlier (texts_in self.old) Keyword.ClassOf
            (words_left words.entry) in
            IfTold result ((result ≡ found.0) × (texts_in self.new ≡ found.1)) }
        ensures earlier { self.new.earlier ≡ self.old.earlier }
    {
        let Some(owner) = forms::identifier(words) else {
            return Err(MALFORMED);
        };
        Ok(Stmt::ClassOf(self.owner(owner)?))
    }

    fn mro(&mut self, words: Words<'a>) -> Result<Stmt, LineFault>
        ensures told { let found = statement_taken self.old.earlier (texts_in self.old) Keyword.Mro
            (words_left words.entry) in
            IfTold result ((result ≡ found.0) × (texts_in self.new ≡ found.1)) }
        ensures earlier { self.new.earlier ≡ self.old.earlier }
    {
        let Some(class) = forms::identifier(words) else {
            return Err(MALFORMED);
        };
        Ok(Stmt::Mro(self.class(class)?))
    }

    fn call(&mut self, words: Words<'a>) -> Result<Stmt, LineFault>
        ensures told { let found = statement_taken self.old.earlier (texts_in self.old) Keyword.Call
            (words_left words.entry) in
            IfTold result ((result ≡ found.0) × (texts_in self.new ≡ found.1)) }
        ensures earlier { self.new.earlier ≡ self.old.earlier }
    {
        let Some((place, given)) = forms::attribute_and_given(words) else {
            return Err(MALFORMED);
        };
        let first = self.attribute(place);
        let ((target, name), given) = both(first, self.given(given))?;
        Ok(Stmt::Call(target, name, given))
    }

    fn call_super(&mut self, words: Words<'a>) -> Result<Stmt, LineFault>
        ensures told { let found = statement_taken self.old.earlier (texts_in self.old) Keyword.CallSuper
            (words_left words.entry) in
            IfTold result ((result ≡ found.0) × (texts_in self.new ≡ found.1)) }
        ensures earlier { self.new.earlier ≡ self.old.earlier }
    {
        let Some((class, place, given)) = forms::identifier_attribute_and_given(words) else {
            return Err(MALFORMED);
        };
        let first = self.class_and_attribute(class, place);
        let ((class, (target, name)), given) = both(first, self.given(given))?;
        Ok(Stmt::CallSuper(class, target, name, given))
    }

    fn let_statement(&mut self, words: Words<'a>) -> Result<Stmt, LineFault>
        ensures told { let found = statement_taken self.old.earlier (texts_in self.old) Keyword.Let
            (words_left words.entry) in
            IfTold result ((result ≡ found.0) × (texts_in self.new ≡ found.1)) }
        ensures earlier { self.new.earlier ≡ self.old.earlier }
    {
        let Some((variable, value)) = forms::identifier_and_value(words) else {
            return Err(MALFORMED);
        };
        let first = self.bound(variable);
        let (variable, value) = both(first, self.value(value))?;
        Ok(Stmt::Let(variable, value))
    }

    fn return_statement(&mut self, words: Words<'a>) -> Result<Stmt, LineFault>
        ensures told { let found = statement_taken self.old.earlier (texts_in self.old) Keyword.Return
            (words_left words.entry) in
            IfTold result ((result ≡ found.0) × (texts_in self.new ≡ found.1)) }
        ensures earlier { self.new.earlier ≡ self.old.earlier }
    {
        let Some(value) = forms::value(words) else {
            return Err(MALFORMED);
        };
        Ok(Stmt::Return(self.value(value)?))
    }

    fn begin(&mut self, words: Words<'a>) -> Result<Stmt, LineFault>
        ensures told { let found = statement_taken self.old.earlier (texts_in self.old) Keyword.Begin
            (words_left words.entry) in
            IfTold result ((result ≡ found.0) × (texts_in self.new ≡ found.1)) }
        ensures earlier { self.new.earlier ≡ self.old.earlier }
    {
        let Some((first, second)) = forms::identifier_or_two(words) else {
            return Err(MALFORMED);
        };
        let first = self.owner(first);
        let (first, second) = both(first, self.second_owner(second))?;
        Ok(Stmt::Begin(first, second))
    }

    /// The statement of a line with this keyword and these words after it.
    pub fn statement(&mut self, keyword: Keyword, words: Words<'a>) -> Result<Stmt, LineFault>
        ensures told { let found = statement_taken self.old.earlier (texts_in self.old) keyword
            (words_left words.entry) in
            IfTold result ((result ≡ found.0) × (texts_in self.new ≡ found.1)) }
        ensures earlier { self.new.earlier ≡ self.old.earlier }
    {
        match keyword {
            Keyword::Class => self.class_statement(words),
            Keyword::Bases => self.bases_statement(words),
            Keyword::Put => self.put(words),
            Keyword::Cut => self.cut(words),
            Keyword::New => self.new_statement(words),
            Keyword::Set => self.set(words),
            Keyword::Del => self.del(words),
            Keyword::Get => self.get(words),
            Keyword::Turn => self.turn(words),
            Keyword::Share => self.share(words),
            Keyword::Super => self.super_statement(words),
            Keyword::Special => self.special(words),
            Keyword::ClassOf => self.classof(words),
            Keyword::Mro => self.mro(words),
            Keyword::Call => self.call(words),
            Keyword::CallSuper => self.call_super(words),
            Keyword::Let => self.let_statement(words),
            Keyword::Return => self.return_statement(words),
            Keyword::Begin => self.begin(words),
            Keyword::Finish => alone(words, Stmt::Finish),
            Keyword::Checkpoint => alone(words, Stmt::Checkpoint),
            Keyword::Attrs
            | Keyword::Budget
            | Keyword::Func
            | Keyword::Main
            | Keyword::Thread
            | Keyword::Finally
            | Keyword::End => Err(MALFORMED),
        }
    }
}
