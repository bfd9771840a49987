//! The reader of scripts.
ghost use Rattle.std.specs.Prelude.{◌≡◌, ◌<◌, ◌+◌, ◌^◌, ◌≤◌, ◌∷◌, ◌++◌, [], length, map, codes, string_bytes, Ok, Err, IfOk, IfErr, OnOk, OnErr, IsTrue};
ghost use Rattle.std.specs.List.{list_all};
ghost use Rattle.at_script.specs.declared.fault.LineFault.TheVariants as line_faults;
ghost use Rattle.at_value.specs.Widths as widths;
ghost use Rattle.at_script.specs.Limits as limits;
ghost use Rattle.at_script.specs.Lines.{lines_of, is_allowed, words_in, begins_with_hash};
ghost use Rattle.at_script.specs.Meanings.{now_of};
ghost use Rattle.at_script.specs.Words.{is_budget};
ghost use Rattle.at_script.specs.Pieces.{two_parts};
ghost use Rattle.at_script.specs.Views.{words_left};
ghost use Rattle.at_script.specs.State.{before_all, parts_of};
ghost use Rattle.at_script.specs.Causes.{are_words};
ghost use Rattle.at_script.specs.Reading.{texts_in, IfTold};
ghost use Rattle.at_script.specs.LineReading as reading;
ghost use Rattle.at_script.specs.LineReading.{state_of, left, left_read, IfToldRead};
ghost use Rattle.at_script.specs.Script.{IsScript, first_offence, ended};
ghost use Rattle.at_script.specs.Faults.{IsFaultAt};

use crate::fault::{Cause, LineFault, ReadFault};
use crate::keyword::{Keyword, keyword_of};
use crate::lines::{Words, are_allowed, first_line};
use crate::number::Numeral;
use crate::script::Script;
use crate::so_far::Reader;
use crate::stage::{BlockKind, Stage};
use crate::stmt::Stmt;
use crate::tables::Tables;
use crate::word::identifier_of;
use std::alloc::{AllocError, Global};
use std::mem;

/// How many bytes a script has at most.
const BYTES_MOST: usize = 1_048_576;

/// How many threads a script has at most.
const THREADS_MOST: usize = 32;

/// How many statements each thread may begin, in a script that says none.
const USUAL_BUDGET: u32 = 10_000;

/// How many statements each thread may begin at most.
const BUDGET_MOST: i32 = 100_000;

fn wrong<T>(cause: Cause) -> Result<T, LineFault>
    ensures { result ≡ Err (line_faults.Wrong cause) }
{
    Err(LineFault::Wrong(cause))
}

fn is_header(line: &[u8]) -> bool
    ensures { result ≡ are_words (codes "attrs") (codes "1") (two_parts (words_in line.now)) }
{
    match Words::new(line).two() {
        Some((first, second)) => first == b"attrs".as_slice() && second == b"1".as_slice(),
        None => false,
    }
}

fn is_budget(number: i32) -> bool
    ensures { result ≡ is_budget number }
{
    1 <= number && number <= BUDGET_MOST
}

/// The number of a line `budget NUMBER`.
fn budget_of(words: Words<'_>) -> Result<u32, LineFault>
    ensures { result ≡ reading.budget_taken (words_left words.entry) }
{
    let Some(word) = words.one() else {
        return wrong(Cause::Form);
    };
    let Some(number) = Numeral::of(word) else {
        return wrong(Cause::Form);
    };
    let Some(budget) = number.integer() else {
        return wrong(Cause::Number);
    };
    if is_budget(budget) {
        Ok(budget as u32)
    } else {
        wrong(Cause::Number)
    }
}

/// Whether the line of this first word is skipped.
fn begins_with_hash(word: &[u8]) -> bool
    ensures { result ≡ begins_with_hash word.now }
{
    match word.first() {
        Some(byte) => *byte == b'#',
        None => true,
    }
}

/// Nothing follows the keyword.
fn alone(words: Words<'_>) -> Result<(), LineFault>
    ensures { result ≡ reading.if_alone (words_left words.entry) (Ok tt) }
{
    if words.are_none() {
        Ok(())
    } else {
        wrong(Cause::Form)
    }
}

fn add_block(blocks: &mut Vec<Vec<Stmt>>, block: Vec<Stmt>) -> Result<(), AllocError>
    ensures added { IfOk result (λ _. blocks.new.items ≡ blocks.old.items ++ block ∷ []) }
    ensures unchanged { OnErr result (blocks.new.items ≡ blocks.old.items) }
{
    blocks.push(block)?;
    Ok(())
}

impl<'a> Reader<'a> {
    fn new(alloc: Global, tables: Tables<'a>) -> Reader<'a>
        ensures { state_of result ≡ record (before_all []) { texts = texts_in tables.entry } }
    {
        Reader {
            alloc,
            tables,
            stage: Stage::Header,
            bytes: 0,
            budget: USUAL_BUDGET,
            block: Vec::new(alloc),
            bodies: Vec::new(alloc),
            main: Vec::new(alloc),
            threads: Vec::new(alloc),
            finally: None,
        }
    }

    /// Reads lines to the end of a text, of which these are the first.
    fn read_lines(&mut self, text: &'a [u8]) -> Result<(), ReadFault>
        requires { self.old.bytes ≡ 0 }
        ensures { IfToldRead result (left_read result (state_of self.new) ≡
            reading.lines_read 1 (state_of self.old) (lines_of text.now)) }
    {
        let allowed = are_allowed(text);
        let mut rest = text;
        let mut number = 1;
        while !rest.is_empty() {
            let (line, after) = first_line(rest);
            if let Err(fault) = self.read_line(line, allowed) {
                return Err(fault.at(number));
            }
            number += 1;
            rest = after;
        }
        match self.stage.end_cause() {
            Some(cause) => Err(ReadFault::Refused {
                line: number,
                cause,
            }),
            None => Ok(()),
        }
    }

    /// Reads the next line, with the newline that ends it. Where its bytes are known to be allowed, they aren't tried.
    fn read_line(&mut self, line: &'a [u8], allowed: bool) -> Result<(), LineFault>
        requires few { self.old.bytes + length line.now < 2 ^ 64 }
        requires allowed { IsTrue allowed → IsTrue (list_all is_allowed line.now) }
        ensures told { IfTold result (left result (state_of self.new) ≡
            reading.line_read (state_of self.old) line.now) }
        ensures counted { OnOk result (self.new.bytes ≡ self.old.bytes + length line.now) }
        ensures few { OnOk result (self.new.bytes ≤ limits.most_bytes) }
    {
        if !allowed && !are_allowed(line) {
            return wrong(Cause::Byte);
        }
        self.read_said(line)?;
        self.count(line.len())
    }

    fn read_said(&mut self, line: &'a [u8]) -> Result<(), LineFault>
        ensures told { IfTold result (left result (state_of self.new) ≡
            reading.said_read self.old.stage (state_of self.old) line.now) }
        ensures bytes { self.new.bytes ≡ self.old.bytes }
    {
        match self.stage {
            Stage::Header => self.read_header(line),
            Stage::Opening
            | Stage::Functions
            | Stage::Within(_, _)
            | Stage::Ending
            | Stage::Closed => self.read_words(Words::new(line)),
        }
    }

    /// Counts the bytes of a line.
    fn count(&mut self, bytes: usize) -> Result<(), LineFault>
        requires { self.old.bytes + bytes < 2 ^ 64 }
        ensures told { left result (state_of self.new) ≡ reading.counted bytes (state_of self.old) }
        ensures counted { self.new.bytes ≡ self.old.bytes + bytes }
        ensures few { OnOk result (self.new.bytes ≤ limits.most_bytes) }
    {
        self.bytes += bytes;
        if self.bytes > BYTES_MOST {
            return wrong(Cause::Limit);
        }
        Ok(())
    }

    fn read_header(&mut self, line: &[u8]) -> Result<(), LineFault>
        ensures told { IfTold result (left result (state_of self.new) ≡
            reading.header_read (state_of self.old) line.now) }
        ensures bytes { self.new.bytes ≡ self.old.bytes }
    {
        if !is_header(line) {
            return wrong(Cause::Header);
        }
        self.stage = Stage::Opening;
        Ok(())
    }

    fn read_words(&mut self, mut words: Words<'a>) -> Result<(), LineFault>
        ensures told { IfTold result (left result (state_of self.new) ≡
            reading.words_read (state_of self.old) (words_left words.entry)) }
        ensures bytes { self.new.bytes ≡ self.old.bytes }
    {
        let Some(word) = words.next() else {
            return Ok(());
        };
        if begins_with_hash(word) {
            return Ok(());
        }
        let Some(keyword) = keyword_of(word) else {
            return wrong(Cause::Word);
        };
        if !self.stage.may_stand(keyword) {
            return wrong(Cause::Place);
        }
        self.read_keyword(keyword, words)
    }

    fn read_keyword(&mut self, keyword: Keyword, words: Words<'a>) -> Result<(), LineFault>
        ensures told { IfTold result (left result (state_of self.new) ≡
            reading.keyword_read (state_of self.old) keyword (words_left words.entry)) }
        ensures bytes { self.new.bytes ≡ self.old.bytes }
    {
        match keyword {
            Keyword::Budget => {
                self.budget = budget_of(words)?;
                self.stage = Stage::Functions;
                Ok(())
            }
            Keyword::Func => self.begin_function(words),
            Keyword::Main => self.begin_main(words),
            Keyword::Thread => self.begin_thread(words),
            Keyword::Finally => self.begin_finally(words),
            Keyword::End => {
                alone(words)?;
                self.end_block()
            }
            _ => self.add_statement(keyword, words),
        }
    }

    fn begin_main(&mut self, words: Words<'a>) -> Result<(), LineFault>
        ensures told { IfTold result (left result (state_of self.new) ≡
            reading.block_read (state_of self.old) BlockKind.Main (words_left words.entry)) }
        ensures bytes { self.new.bytes ≡ self.old.bytes }
    {
        alone(words)?;
        self.stage = Stage::Within(BlockKind::Main, false);
        Ok(())
    }

    fn begin_finally(&mut self, words: Words<'a>) -> Result<(), LineFault>
        ensures told { IfTold result (left result (state_of self.new) ≡
            reading.block_read (state_of self.old) BlockKind.Finally (words_left words.entry)) }
        ensures bytes { self.new.bytes ≡ self.old.bytes }
    {
        alone(words)?;
        self.stage = Stage::Within(BlockKind::Finally, false);
        Ok(())
    }

    fn begin_function(&mut self, words: Words<'a>) -> Result<(), LineFault>
        ensures told { IfTold result (left result (state_of self.new) ≡
            reading.function_read (state_of self.old) (words_left words.entry)) }
        ensures bytes { self.new.bytes ≡ self.old.bytes }
    {
        let word = match words.one() {
            Some(word) => word,
            None => return wrong(Cause::Form),
        };
        let Some(name) = identifier_of(word) else {
            return wrong(Cause::Form);
        };
        self.tables.begin_function(name, self.bodies.len())?;
        self.stage = Stage::Within(BlockKind::Func, false);
        Ok(())
    }

    fn begin_thread(&mut self, words: Words<'a>) -> Result<(), LineFault>
        ensures told { IfTold result (left result (state_of self.new) ≡
            reading.thread_read (state_of self.old) (words_left words.entry)) }
        ensures bytes { self.new.bytes ≡ self.old.bytes }
    {
        alone(words)?;
        if self.threads.len() >= THREADS_MOST {
            return wrong(Cause::Limit);
        }
        self.stage = Stage::Within(BlockKind::Thread, false);
        Ok(())
    }

    fn end_block(&mut self) -> Result<(), LineFault>
        ensures told { IfTold result (left result (state_of self.new) ≡ Ok (ended self.old.stage (state_of self.old))) }
        ensures bytes { self.new.bytes ≡ self.old.bytes }
    {
        let Stage::Within(kind, _) = self.stage else {
            return Ok(());
        };
        let block = mem::replace(&mut self.block, Vec::new(self.alloc));
        match kind {
            BlockKind::Func => {
                self.stage = Stage::Functions;
                add_block(&mut self.bodies, block)?;
            }
            BlockKind::Main => {
                self.stage = Stage::Ending;
                self.main = block;
            }
            BlockKind::Thread => {
                self.stage = Stage::Ending;
                add_block(&mut self.threads, block)?;
            }
            BlockKind::Finally => {
                self.stage = Stage::Closed;
                self.finally = Some(block);
            }
        }
        Ok(())
    }

    fn add_statement(&mut self, keyword: Keyword, words: Words<'a>) -> Result<(), LineFault>
        ensures told { IfTold result (left result (state_of self.new) ≡
            reading.statement_read (state_of self.old) keyword (words_left words.entry)) }
        ensures bytes { self.new.bytes ≡ self.old.bytes }
    {
        self.tables.begin_line();
        let statement = self.tables.statement(keyword, words)?;
        self.block.extend_from_slice(&[statement])?;
        if let Stage::Within(kind, section) = self.stage {
            let section = match keyword {
                Keyword::Begin => true,
                Keyword::Finish => false,
                _ => section,
            };
            self.stage = Stage::Within(kind, section);
        }
        Ok(())
    }
}

/// The texts, in memory of their own.
fn owned(alloc: Global, texts: &[&str]) -> Result<Vec<String>, AllocError>
    ensures same { IfOk result (λ owned. map string_bytes owned.items ≡ map now_of texts.now) }
    ensures count { IfOk result (λ owned. length owned.items ≡ length texts.now) }
{
    let mut owned = Vec::with_capacity(alloc, texts.len())?;
    for text in texts {
        owned.push_reserved(String::from_str(alloc, text)?);
    }
    Ok(owned)
}

/// The script that the lines say, where none is left, and no more classes and functions are declared than there may be.
fn script_of(reader: Reader<'_>) -> Result<Script, AllocError>
    requires classes { length reader.tables.classes.items ≤ widths.classes }
    requires functions { length reader.tables.funcs.items ≤ widths.functions }
    ensures { IfOk result (λ script. script ≡ parts_of (state_of reader.entry)) }
{
    let Reader {
        alloc,
        tables,
        budget,
        bodies,
        main,
        threads,
        finally,
        ..
    } = reader;
    let Tables {
        classes,
        funcs,
        vars,
        names,
        ..
    } = tables;
    Ok(Script {
        budget,
        names: owned(alloc, &names)?,
        classes: owned(alloc, &classes)?,
        vars: owned(alloc, &vars)?,
        funcs: owned(alloc, &funcs)?,
        bodies,
        main,
        threads,
        finally,
    })
}

/// Reads the text of a script, of at most 1,048,576 bytes.
///
/// A text that is no script is refused with the first line that has an offence, and with the first cause that it has.
pub fn read(alloc: Global, bytes: &[u8]) -> Result<Script, ReadFault>
    ensures accepted { IfOk result (IsScript bytes.now) }
    ensures refused { IfErr result (IsFaultAt (first_offence bytes.now)) }
{
    let tables = Tables::declared(alloc, bytes)?;
    let mut reader = Reader::new(alloc, tables);
    reader.read_lines(bytes)?;
    Ok(script_of(reader)?)
}
