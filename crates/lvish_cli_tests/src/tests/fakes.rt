ghost use Rattle.std.specs.Prelude.{◌≤◌};

use std::io::{Error, ErrorKind, Read, Result, Write};

/// Gives its bytes, at most `step` of them a read, and then ends, or fails where it has a fault.
#[derive(Drop)]
pub struct SlowReader<'a> {
    pub bytes: &'a [u8],
    pub step: usize,
    pub fault: Option<ErrorKind>,
    pub faults: usize,
}

impl Read for SlowReader<'_> {
    fn read(&mut self, buf: &mut [u8]) -> Result<usize> {
        if self.bytes.is_empty() {
            let Some(kind) = self.fault else {
                return Ok(0);
            };
            self.faults = self.faults.saturating_add(1);
            return Err(Error::from(kind));
        }
        let count = self.bytes.len().min(buf.len()).min(self.step);
        let (front, rest) = self.bytes.split_at(count);
        buf[..count].copy_from_slice(front);
        self.bytes = rest;
        Ok(count)
    }
}

/// Gives line feeds, at most `step` of them a read, and counts them; it fails once it gave 65,537.
#[derive(Drop)]
pub struct LongReader {
    pub given: usize,
    pub step: usize,
}

impl Read for LongReader {
    fn read(&mut self, buf: &mut [u8]) -> Result<usize> {
        if self.given >= 65_537 {
            return Err(Error::from(ErrorKind::Other));
        }
        let count = buf.len().min(self.step);
        buf[..count].fill(b'\n');
        self.given = self.given.saturating_add(count);
        Ok(count)
    }
}

/// What a writer does at the write that it is told of, or after all of them.
#[derive(Clone, Copy, Debug, PartialEq, Eq)]
pub enum Refusal {
    Fails,
    TakesNothing,
    FailsAtFlush,
}

/// Keeps what it is given, at most `step` bytes a write, and refuses its write number `refuses`.
#[derive(Drop)]
pub struct ShortWriter {
    pub kept: [u8; 512],
    pub len: usize,
    pub writes: usize,
    pub step: usize,
    pub refuses: usize,
    pub refusal: Refusal,
    ghost within: { len ≤ 512 },
}

impl ShortWriter {
    pub fn new(step: usize, refuses: usize, refusal: Refusal) -> Self {
        ShortWriter {
            kept: [0; 512],
            len: 0,
            writes: 0,
            step,
            refuses,
            refusal,
        }
    }

    pub fn text(&self) -> &[u8] {
        &self.kept[..self.len]
    }
}

impl Write for ShortWriter {
    fn write(&mut self, buf: &[u8]) -> Result<usize> {
        self.writes = self.writes.saturating_add(1);
        if self.writes == self.refuses {
            return match self.refusal {
                Refusal::Fails => Err(Error::from(ErrorKind::BrokenPipe)),
                Refusal::TakesNothing | Refusal::FailsAtFlush => Ok(0),
            };
        }
        let count = buf.len().min(self.step).min(512 - self.len);
        let end = self.len + count;
        self.kept[self.len..end].copy_from_slice(&buf[..count]);
        self.len = end;
        Ok(count)
    }

    fn flush(&mut self) -> Result<()> {
        if self.refusal == Refusal::FailsAtFlush {
            return Err(Error::from(ErrorKind::StorageFull));
        }
        Ok(())
    }
}
