//! A text that grows.

ghost use Rattle.std.specs.Prelude.{◌≡◌, ℕ, List, [], ◌∷◌, IfOk, IsTrue, map, replicate, string_bytes};
ghost use Rattle.std.specs.Fmt.{decimal, signed_decimal};
ghost use Rattle.lvish_explain.specs.Draft.{Adds};
ghost use Rattle.lvish_explain.specs.Text.{shown_byte};

use crate::shown::{push_count, push_integer, push_number, push_repeated, push_shown};
use std::alloc::{AllocError, Global};

/// A text that grows. It notes where a growth was refused, and says so at its end: so whoever writes it asks
/// once, and not at each piece.
pub struct Draft {
    pub alloc: Global,
    pub bytes: Vec<u8>,
    /// Whether no growth was refused.
    pub is_whole: bool,
}

// Written out, so that it is proved once, and not at each exit of a function that owns one.
impl Drop for Draft {
    fn drop(self) {
        let Draft {
            alloc: _,
            bytes: _,
            is_whole: _,
        } = self;
    }
}

impl Draft {
    /// Nothing yet.
    pub fn new(alloc: Global) -> Draft
        ensures { result.bytes.items ≡ [] }
    {
        Draft {
            alloc,
            bytes: Vec::new(alloc),
            is_whole: true,
        }
    }

    /// Notes that memory was refused.
    pub fn fail(&mut self)
        ensures { (bytes : List ℕ) → Adds self.old self.new bytes }
    {
        self.is_whole = false;
    }

    /// Adds bytes.
    pub fn add(&mut self, bytes: &[u8])
        ensures { Adds self.old self.new bytes.now }
    {
        if let Err(_) = self.bytes.extend_from_slice(bytes) {
            self.is_whole = false;
        }
    }

    /// Adds another text, or notes that memory was refused to it.
    pub fn add_draft(&mut self, other: &Draft)
        ensures { Adds self.old self.new other.now.bytes.items }
    {
        self.add(other.bytes.as_slice());
        if !other.is_whole {
            self.is_whole = false;
        }
    }

    /// Adds a text for which memory was asked.
    pub fn add_asked(&mut self, text: Result<String, AllocError>)
        ensures { (bytes : List ℕ) → IfOk text (λ t. string_bytes t ≡ bytes) → Adds self.old self.new bytes }
    {
        match text {
            Ok(text) => self.add(text.as_bytes()),
            Err(_) => self.fail(),
        }
    }

    /// Adds a number in decimal.
    pub fn add_number(&mut self, number: usize)
        ensures { Adds self.old self.new (decimal number) }
    {
        if let Err(_) = push_number(self.alloc, &mut self.bytes, number) {
            self.is_whole = false;
        }
    }

    /// Adds an integer in decimal.
    pub fn add_integer(&mut self, number: i64)
        ensures { Adds self.old self.new (signed_decimal number) }
    {
        if let Err(_) = push_integer(self.alloc, &mut self.bytes, number) {
            self.is_whole = false;
        }
    }

    /// Adds a count in decimal.
    pub fn add_count(&mut self, number: u64)
        ensures { Adds self.old self.new (decimal number) }
    {
        if let Err(_) = push_count(self.alloc, &mut self.bytes, number) {
            self.is_whole = false;
        }
    }

    /// Adds bytes as they are shown.
    pub fn add_shown(&mut self, bytes: &[u8])
        ensures { Adds self.old self.new (map shown_byte bytes.now) }
    {
        if let Err(_) = push_shown(&mut self.bytes, bytes) {
            self.is_whole = false;
        }
    }

    /// Adds a byte so many times.
    pub fn add_repeated(&mut self, byte: u8, times: usize)
        ensures { Adds self.old self.new (replicate times byte) }
    {
        if let Err(_) = push_repeated(&mut self.bytes, byte, times) {
            self.is_whole = false;
        }
    }

    /// The text.
    ///
    /// # Errors
    ///
    /// `AllocError` where a growth was refused.
    pub fn into_bytes(self) -> Result<Vec<u8>, AllocError>
        ensures whole { IfOk result (λ v. IsTrue self.is_whole) }
        ensures text { IfOk result (λ v. v ≡ self.bytes) }
    {
        let Draft {
            alloc: _,
            bytes,
            is_whole,
        } = self;
        if !is_whole {
            return Err(AllocError);
        }
        Ok(bytes)
    }
}
