//! What is said of a part of a derivation.

use crate::derivation::{Node, What};
use crate::page::{Page, push_task};
use lvish_compound::Event;
use lvish_explain::Draft;
use std::alloc::Global;

/// What stands in the columns of a row: the event, the statement, its line, and who made it.
pub struct Row {
    pub event: Draft,
    pub statement: Draft,
    pub line: Draft,
    pub who: Draft,
}

// Written out, so that it is proved once, and not at each exit of a function that owns one.
impl Drop for Row {
    fn drop(self) {
        let Row {
            event: _,
            statement: _,
            line: _,
            who: _,
        } = self;
    }
}

/// Whether nothing is said; not where memory was refused.
pub fn is_blank(text: &Draft) -> bool {
    text.is_whole && text.bytes.is_empty()
}

impl Row {
    /// Nothing said.
    fn new(alloc: Global) -> Row {
        Row {
            event: Draft::new(alloc),
            statement: Draft::new(alloc),
            line: Draft::new(alloc),
            who: Draft::new(alloc),
        }
    }
}

impl<'a, 't> Page<'a, 't> {
    /// What is said of a part of a derivation.
    pub fn row_of(&self, alloc: Global, node: Node) -> Row {
        let mut row = Row::new(alloc);
        match node.what {
            What::Put(place) => self.fill_put(&mut row, place, node.follows),
            What::Again(place) => {
                self.fill_event(&mut row.event, place);
                row.statement.add(b"as above");
            }
            What::Total { variable, line } => self.fill_read(&mut row, variable, b" total", line),
            What::Frozen { variable, line } => self.fill_read(&mut row, variable, b" frozen", line),
            What::More => row.event.add(b".."),
        }
        row
    }

    /// Says which event the put at this place brought.
    fn fill_event(&self, text: &mut Draft, place: usize) {
        if let Some(put) = self.told.brought.get(place) {
            let Event { key, number, .. } = put.event;
            self.push_event(text, put.variable, key, number);
        }
    }

    /// Says what a get or a freeze in this line read of a variable.
    fn fill_read(&self, row: &mut Row, variable: usize, what: &[u8], line: usize) {
        self.push_variable(&mut row.event, variable);
        row.event.add(what);
        self.push_line(&mut row.statement, line);
        self.push_place(&mut row.line, line);
    }

    /// Says by which put an event came, and with which locals where it follows from something.
    fn fill_put(&self, row: &mut Row, place: usize, follows: bool) {
        self.fill_event(&mut row.event, place);
        let Some(put) = self.told.brought.get(place) else {
            return;
        };
        let Some(step) = self.told.steps.get(put.step) else {
            return;
        };
        self.push_line(&mut row.statement, step.line);
        self.push_place(&mut row.line, step.line);
        let who = &mut row.who;
        push_task(who, &put.task);
        who.add(b", its put ");
        who.add_count(put.number);
        self.push_fork(who, step.task);
        if let Some(standing) = self.told.standings.get(place) {
            if follows {
                self.push_locals(who, standing);
            }
        }
    }
}
