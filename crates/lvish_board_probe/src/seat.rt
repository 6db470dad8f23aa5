//! A board and the work that it has left. Calls are made one by one, and each answer is written.

use crate::desk::{Desk, Told};
use crate::work_left::WorkLeft;
use std::alloc::{AllocError, Global};

/// A board, a copy of its first work, the work that it has left and that another board has left, the piece
/// in hand, and what was answered last. So what is owned stands here, and what is written of it is borrowed.
pub struct Seat<D, W: Drop> {
    desk: D,
    first: Option<W>,
    left: WorkLeft<W>,
    others: WorkLeft<W>,
    work: Option<W>,
    told: Told<W>,
}

// Written out, so that it is proved once, and not at each exit of a function that owns one.
impl<D: Drop, W: Drop> Drop for Seat<D, W> {
    fn drop(self) {
        let Seat {
            desk: _,
            first: _,
            left: _,
            others: _,
            work: _,
            told: _,
        } = self;
    }
}

impl<D: Desk<W> + Drop, W: Drop> Seat<D, W> {
    /// A board that was opened with this work, and what another one has left.
    pub fn new(alloc: Global, desk: D, work: W, others: Vec<W>) -> Result<Seat<D, W>, AllocError> {
        let mut seat = Seat {
            desk,
            first: None,
            left: WorkLeft::of(Vec::new(alloc)),
            others: WorkLeft::of(others),
            work: None,
            told: Told::Parked,
        };
        seat.begin(alloc, work)?;
        Ok(seat)
    }

    /// Copies the first work, and adds it to what is left.
    fn begin(&mut self, alloc: Global, work: W) -> Result<(), AllocError> {
        self.first = self.desk.copied(alloc, &work)?;
        self.left.keep(work)
    }

    /// Takes the work in hand; none where there was no such work.
    fn hold(&mut self, work: Option<W>) {
        self.work = work;
    }

    /// Does the work in hand, if there is one.
    fn tell(&mut self, alloc: Global) -> Result<(), AllocError> {
        if let Some(work) = self.work.take() {
            self.told = self.desk.tell(alloc, work)?;
        }
        Ok(())
    }

    /// Keeps the work that the last answer left.
    fn keep(&mut self) -> Result<(), AllocError> {
        match &mut self.told {
            Told::Next(works) | Told::Gone(works) => self.left.keep_all(works),
            _ => Ok(()),
        }
    }

    /// The place of the first of these pieces of work that has this text.
    fn place_of(
        &self,
        alloc: Global,
        works: &[W],
        wanted: &str,
    ) -> Result<Option<usize>, AllocError> {
        for (place, work) in works.iter().enumerate() {
            if self.desk.text(alloc, work)?.as_str() == wanted {
                return Ok(Some(place));
            }
        }
        Ok(None)
    }

    /// A copy of work, if there is any, and it is a ticket.
    fn copy_of(&self, alloc: Global, work: Option<&W>) -> Result<Option<W>, AllocError> {
        match work {
            Some(work) => self.desk.copied(alloc, work),
            None => Ok(None),
        }
    }

    /// A copy of a ticket that was left; none where this is no such ticket.
    fn copied(&self, alloc: Global, wanted: &str) -> Result<Option<W>, AllocError> {
        match self.place_of(alloc, self.left.works(), wanted)? {
            Some(place) => self.copy_of(alloc, self.left.works().get(place)),
            None => Ok(None),
        }
    }

    /// The handing that a call names by the number of one of main's handlers.
    fn handing(&self, call: &str) -> Result<Option<W>, AllocError> {
        let Some(number) = call.strip_prefix("Hand main/h") else {
            return Ok(None);
        };
        match number.parse::<u64>() {
            Ok(number) => Ok(Some(self.desk.handing(number)?)),
            Err(_) => Ok(None),
        }
    }

    /// The work that a call names: a copy of a ticket, what was left, here or by another board, or a
    /// handing by any handler of main.
    fn named(&mut self, alloc: Global, call: &str) -> Result<Option<W>, AllocError> {
        if call == "First" {
            return self.copy_of(alloc, self.first.as_ref());
        }
        if let Some(ticket) = call.strip_prefix("copy of ") {
            return self.copied(alloc, ticket);
        }
        if let Some(other) = call.strip_prefix("from there: ") {
            return self.take_other(alloc, other);
        }
        match self.take(alloc, call)? {
            Some(work) => Ok(Some(work)),
            None => self.handing(call),
        }
    }

    fn machine(&self, alloc: Global) -> Result<String, AllocError> {
        let mut text = String::new(alloc);
        self.desk.write_machine(alloc, &mut text)?;
        Ok(text)
    }

    /// Writes what an answer has done and must not do.
    fn write_faults(
        &self,
        alloc: Global,
        text: &mut String,
        given: &str,
        before: &str,
        was_over: bool,
    ) -> Result<(), AllocError> {
        match &self.told {
            Told::Next(_) | Told::Gone(_) => return Ok(()),
            Told::Stale => self.write_made_over(text, was_over)?,
            Told::Memory(back) => {
                self.write_made_over(text, was_over)?;
                self.write_other(alloc, text, back, given)?;
            }
            Told::Over | Told::Parked => {}
        }
        if self.machine(alloc)?.as_str() != before {
            text.push_str("changed, ")?;
        }
        Ok(())
    }

    /// Writes where an answer that leaves a board as it was has yet made this one over.
    fn write_made_over(&self, text: &mut String, was_over: bool) -> Result<(), AllocError> {
        if self.desk.is_over() != was_over {
            text.push_str("made over, ")?;
        }
        Ok(())
    }

    /// Writes where the work that came back for want of memory is another task's or handler's than
    /// what was given.
    fn write_other(
        &self,
        alloc: Global,
        text: &mut String,
        back: &W,
        given: &str,
    ) -> Result<(), AllocError> {
        let back = self.desk.text(alloc, back)?;
        if after_space(back.as_str()) != after_space(given) {
            text.push_str("other work, ")?;
        }
        Ok(())
    }

    /// Writes what was answered last.
    fn write_act(&self, alloc: Global, text: &mut String) -> Result<(), AllocError> {
        match &self.told {
            Told::Over => text.push_str("Over"),
            Told::Stale => text.push_str("Stale"),
            Told::Parked => text.push_str("Parked"),
            Told::Memory(_) => text.push_str("Memory"),
            Told::Next(works) => {
                text.push_str("Next [")?;
                self.write_works(alloc, text, works)
            }
            Told::Gone(works) => {
                text.push_str("Gone [")?;
                self.write_works(alloc, text, works)
            }
        }
    }

    /// Writes these pieces, and the bracket behind them.
    fn write_works(&self, alloc: Global, text: &mut String, works: &[W]) -> Result<(), AllocError> {
        let mut between = "";
        for work in works {
            text.push_str(between)?;
            text.push_str(self.desk.text(alloc, work)?.as_str())?;
            between = ", ";
        }
        text.push_str("]")
    }

    /// Does the work in hand, and where it comes back for want of memory, does it again. Writes what
    /// the first answer has done and must not do.
    fn tell_twice(
        &mut self,
        alloc: Global,
        text: &mut String,
        given: &str,
    ) -> Result<(), AllocError> {
        let before = self.machine(alloc)?;
        let was_over = self.desk.is_over();
        self.tell(alloc)?;
        self.write_faults(alloc, text, given, before.as_str(), was_over)?;
        self.work = self.told.take_back();
        self.tell(alloc)
    }

    /// Does the work in hand, writes what is answered, and keeps what is left.
    fn write_told(&mut self, alloc: Global, text: &mut String) -> Result<(), AllocError> {
        let Some(work) = &self.work else {
            return text.push_str("no such work");
        };
        let given = self.desk.text(alloc, work)?;
        self.tell_twice(alloc, text, given.as_str())?;
        self.write_act(alloc, text)?;
        self.keep()
    }

    /// Writes what is answered to the call.
    pub fn write_answer(
        &mut self,
        alloc: Global,
        text: &mut String,
        call: &str,
    ) -> Result<(), AllocError> {
        match call {
            "over" => self.desk.write_over(text),
            "machine" => self.desk.write_machine(alloc, text),
            _ => {
                let work = self.named(alloc, call)?;
                self.hold(work);
                self.write_told(alloc, text)
            }
        }
    }

    /// Takes out the first piece of work that has this text.
    fn take(&mut self, alloc: Global, wanted: &str) -> Result<Option<W>, AllocError> {
        match self.place_of(alloc, self.left.works(), wanted)? {
            Some(place) => Ok(self.left.take_at(place)),
            None => Ok(None),
        }
    }

    /// Takes out the first piece of work of another board that has this text.
    fn take_other(&mut self, alloc: Global, wanted: &str) -> Result<Option<W>, AllocError> {
        match self.place_of(alloc, self.others.works(), wanted)? {
            Some(place) => Ok(self.others.take_at(place)),
            None => Ok(None),
        }
    }

    /// The work that the board has left.
    pub fn into_left(self) -> Vec<W> {
        let Seat {
            desk: _,
            first: _,
            left,
            others: _,
            work: _,
            told: _,
        } = self;
        left.into_works()
    }
}

/// What stands behind the first space.
fn after_space(text: &str) -> &str {
    match text.split_once(' ') {
        Some((_, rest)) => rest,
        None => "",
    }
}
