//! The lines of a script's procedures.

use crate::procedure::ToldProcedure;
use lvish_checks::{lines_of, put_words};
use std::alloc::{AllocError, Global};

/// A block that is open.
#[derive(Clone, Copy)]
enum Open {
    Procedure,
    /// Of an `if`, or behind its `else`.
    If,
    /// Of a `while` in this line.
    While(usize),
}

/// What was read of a text.
struct Reading<'t> {
    procedures: Vec<ToldProcedure<'t>>,
    open: Vec<Open>,
}

// Written out, so that it is proved once, and not at each exit of a function that owns one.
impl<'t> Drop for Reading<'t> {
    fn drop(self) {
        let Reading {
            procedures: _,
            open: _,
        } = self;
    }
}

/// Whether a word is this text.
fn is(word: &[u8], text: &[u8]) -> bool {
    word == text
}

/// Whether a line that begins with this word gives its second word, a local, a value.
fn binds_local(first: &[u8]) -> bool {
    is(first, b"let") || is(first, b"get") || is(first, b"freeze")
}

impl<'t> ToldProcedure<'t> {
    /// Adds a local, unless it is one already.
    fn add_local(&mut self, name: &'t [u8]) -> Result<(), AllocError> {
        for local in self.locals.iter() {
            if is(local, name) {
                return Ok(());
            }
        }
        self.locals.push(name)?;
        Ok(())
    }
}

impl<'t> Reading<'t> {
    /// The procedures.
    fn into_procedures(self) -> Vec<ToldProcedure<'t>> {
        let Reading {
            procedures,
            open: _,
        } = self;
        procedures
    }

    /// Begins a procedure.
    fn begin(
        &mut self,
        alloc: Global,
        line: usize,
        name: &'t [u8],
        parameters: &[&'t [u8]],
    ) -> Result<(), AllocError> {
        let mut locals = Vec::new(alloc);
        locals.extend_from_slice(parameters)?;
        self.procedures.push(ToldProcedure {
            name,
            line,
            locals,
            lines: Vec::new(alloc),
        })?;
        self.open.push(Open::Procedure)?;
        Ok(())
    }

    /// The last procedure has one more instruction, which stands in this line.
    fn instruct(&mut self, line: usize) -> Result<(), AllocError> {
        if let Some(procedure) = self.procedures.last_mut() {
            procedure.lines.push(line)?;
        }
        Ok(())
    }

    /// The last procedure has this local.
    fn bind(&mut self, name: &'t [u8]) -> Result<(), AllocError> {
        if let Some(procedure) = self.procedures.last_mut() {
            procedure.add_local(name)?;
        }
        Ok(())
    }

    /// A line that closes a block: at the end of a `while` stands its second test, at the end of a
    /// procedure the return.
    fn close(&mut self, line: usize) -> Result<(), AllocError> {
        match self.open.pop() {
            Some(Open::Procedure) => self.instruct(line),
            Some(Open::While(test)) => self.instruct(test),
            Some(Open::If) | None => Ok(()),
        }
    }

    /// A statement of a procedure, or a line of a block.
    fn statement(&mut self, line: usize, words: &[&'t [u8]]) -> Result<(), AllocError> {
        let [first, rest @ ..] = words else {
            return Ok(());
        };
        if is(first, b"end") {
            return self.close(line);
        }
        if is(first, b"if") {
            self.open.push(Open::If)?;
        } else if is(first, b"while") {
            self.open.push(Open::While(line))?;
        } else if binds_local(first) {
            if let [name, ..] = rest {
                self.bind(name)?;
            }
        }
        self.instruct(line)
    }

    /// Takes a line with these words: it begins a procedure, or stands in one, or is a declaration.
    fn take(&mut self, alloc: Global, line: usize, words: &[&'t [u8]]) -> Result<(), AllocError> {
        if let [first, name, parameters @ ..] = words {
            if is(first, b"proc") {
                return self.begin(alloc, line, name, parameters);
            }
        }
        if self.open.is_empty() {
            return Ok(());
        }
        self.statement(line, words)
    }
}

/// The procedures of a script's text, each with its locals and with the lines of its instructions.
pub fn procedures_of<'t>(
    alloc: Global,
    text: &'t [u8],
) -> Result<Vec<ToldProcedure<'t>>, AllocError> {
    let lines = lines_of(alloc, text)?;
    let mut words = Vec::new(alloc);
    let mut reading = Reading {
        procedures: Vec::new(alloc),
        open: Vec::new(alloc),
    };
    for number in 0..lines.len() {
        put_words(&mut words, lines[number])?;
        reading.take(alloc, number + 1, words.as_slice())?;
    }
    Ok(reading.into_procedures())
}
