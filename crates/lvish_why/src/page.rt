//! What a text says of a run: names, lines and tasks, as they are told.

use crate::question::declaration_of;
use lvish_checks::{lines_of, words_of};
use lvish_code::Code;
use lvish_compound::Event;
use lvish_explain::Draft;
use lvish_names::TaskName;
use lvish_retrace::{Begin, Standing, Story, ToldProcedure};
use lvish_syntax::{Script, VariableKind};
use std::alloc::{AllocError, Global};

/// A script, its flat code and its lines, and what is told of its run.
pub struct Page<'a, 't> {
    pub script: &'a Script,
    pub code: &'a Code,
    pub lines: Vec<&'t [u8]>,
    pub told: &'a Story<'t>,
}

// Written out, so that it is proved once, and not at each exit of a function that owns one.
impl<'a, 't> Drop for Page<'a, 't> {
    fn drop(self) {
        let Page {
            script: _,
            code: _,
            lines: _,
            told: _,
        } = self;
    }
}

/// Whether the events of a variable are named by a key too.
fn has_keys(kind: VariableKind) -> bool {
    !matches!(kind, VariableKind::Simple(_))
}

/// Whether a line has this word behind so many.
fn names(words: &[&[u8]], behind: usize, name: &[u8]) -> bool {
    for place in behind..words.len() {
        if is(words[place], name) {
            return true;
        }
    }
    false
}

/// Adds a task's name.
pub fn push_task(text: &mut Draft, task: &TaskName<Event>) {
    let name = task.text(text.alloc);
    text.add_asked(name);
}

/// Adds words, one space between them.
fn push_words(text: &mut Draft, words: &[&[u8]]) {
    for place in 0..words.len() {
        if place > 0 {
            text.add(b" ");
        }
        text.add(words[place]);
    }
}

/// Whether a word is this text.
fn is(word: &[u8], text: &[u8]) -> bool {
    word == text
}

/// Whether a line that begins with this word gives a local a value.
fn binds_local(first: &[u8]) -> bool {
    is(first, b"let") || is(first, b"get") || is(first, b"freeze")
}

/// How many words stand before those that a line reads: two, where it gives a local a value.
fn unread(words: &[&[u8]]) -> usize {
    match words {
        [first, ..] if binds_local(first) => 2,
        _ => 1,
    }
}

impl<'a, 't> Page<'a, 't> {
    /// What is said of this run of the script with this text.
    pub fn new(
        alloc: Global,
        text: &'t [u8],
        script: &'a Script,
        code: &'a Code,
        told: &'a Story<'t>,
    ) -> Result<Page<'a, 't>, AllocError> {
        Ok(Page {
            script,
            code,
            lines: lines_of(alloc, text)?,
            told,
        })
    }

    /// Adds a variable's name.
    pub fn push_variable(&self, text: &mut Draft, variable: usize) {
        if let Some((name, _)) = declaration_of(self.script, variable) {
            text.add(name.as_bytes());
        }
    }

    /// Adds a variable's name and its event's number, behind its key where there are keys.
    pub fn push_event(&self, text: &mut Draft, variable: usize, key: i64, number: i64) {
        let Some((name, kind)) = declaration_of(self.script, variable) else {
            return;
        };
        text.add(name.as_bytes());
        text.add(b" ");
        if has_keys(kind) {
            text.add_integer(key);
            text.add(b":");
        }
        text.add_integer(number);
    }

    /// The words of the line of this number; none where memory was refused, which the text notes.
    fn words(&self, text: &mut Draft, line: usize) -> Vec<&'t [u8]> {
        let Some(line) = self.lines.get(line.wrapping_sub(1)) else {
            return Vec::new(text.alloc);
        };
        match words_of(text.alloc, line) {
            Ok(words) => words,
            Err(_) => {
                text.fail();
                Vec::new(text.alloc)
            }
        }
    }

    /// Adds the words of the line of this number, one space between them.
    pub fn push_line(&self, text: &mut Draft, line: usize) {
        let words = self.words(text, line);
        push_words(text, words.as_slice());
    }

    /// Adds `line` and its number.
    pub fn push_place(&self, text: &mut Draft, line: usize) {
        text.add(b"line ");
        text.add_count(line as u64);
    }

    /// Adds in which line the task of this index was forked, if it was.
    pub fn push_fork(&self, text: &mut Draft, task: usize) {
        let Some(Begin::Forked { step, .. }) = self.told.begins.get(task) else {
            return;
        };
        let Some(step) = self.told.steps.get(*step) else {
            return;
        };
        text.add(b", forked in ");
        self.push_place(text, step.line);
    }

    /// Whether a line of the procedure above this one names the local, or this one reads it.
    fn is_named(
        &self,
        text: &mut Draft,
        procedure: &ToldProcedure<'_>,
        local: &[u8],
        line: usize,
    ) -> bool {
        for number in procedure.line.saturating_add(1)..line {
            let words = self.words(text, number);
            if names(words.as_slice(), 1, local) {
                return true;
            }
        }
        let words = self.words(text, line);
        names(words.as_slice(), unread(words.as_slice()), local)
    }

    /// Adds the locals that the procedure's lines name up to where a task stands, with their values.
    pub fn push_locals(&self, text: &mut Draft, standing: &Standing) {
        let Some(procedure) = self.told.procedures.get(standing.procedure) else {
            return;
        };
        let mut before: &[u8] = b", with ";
        for (local, value) in procedure
            .locals
            .as_slice()
            .iter()
            .zip(standing.values.as_slice())
        {
            if self.is_named(text, procedure, local, standing.line) {
                text.add(before);
                text.add(local);
                text.add(b" ");
                text.add_integer(*value);
                before = b", ";
            }
        }
    }
}
