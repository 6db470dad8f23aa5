ghost use Rattle.std.specs.Prelude.{◌≡◌, ◌∷◌, [], OnOk, OnErr, length, drop, ◌<◌};
ghost use Rattle.lvish_checks.specs.Checks.{is_nil, takes_else, open_step};
ghost use Rattle.lvish_checks.specs.declared.open_blocks.Opener.TheVariants.{Else};

use crate::line::Line;
use std::alloc::{AllocError, Global};
use std::marker::Model;

/// What a line opened.
#[derive(Clone, Copy, PartialEq, Eq)]
pub enum Opener {
    /// A procedure.
    Procedure,
    /// The first part of an `if`.
    If,
    /// The other part of an `if`.
    Else,
    /// A `while`.
    While,
}

/// What is open at a line: a stack, seen as a list with the innermost first.
#[derive(Drop)]
pub struct OpenBlocks {
    openers: Vec<Opener>,
}

impl Model for OpenBlocks {
    ghost use Rattle.std.specs.Prelude.{List, reverse};
    ghost use Rattle.lvish_checks.specs.declared.open_blocks.Opener as opener;

    ghost Value = { List opener.Opener };

    ghost view = { λ o. reverse o.openers.items };
}

impl OpenBlocks {
    pub fn new(alloc: Global) -> OpenBlocks
        ensures { result ≡ [] }
    {
        OpenBlocks {
            openers: Vec::new(alloc),
        }
    }

    /// How many are open.
    pub fn depth(&self) -> usize
        ensures { result ≡ length self.now }
    {
        self.openers.len()
    }

    pub fn is_empty(&self) -> bool
        ensures { result ≡ is_nil self.now }
    {
        self.openers.is_empty()
    }

    /// Whether the innermost is an `if` without an `else`.
    pub fn takes_else(&self) -> bool
        ensures { result ≡ takes_else self.now }
    {
        match self.openers.last() {
            Some(opener) => *opener == Opener::If,
            None => false,
        }
    }

    fn open(&mut self, opener: Opener) -> Result<(), AllocError>
        ensures opened { OnOk result (self.new ≡ opener ∷ self.old) }
        ensures refused { OnErr result (self.new ≡ self.old) }
    {
        self.openers.push(opener)?;
        Ok(())
    }

    fn close(&mut self)
        ensures { self.new ≡ drop 1 self.old }
    {
        self.openers.pop();
    }

    /// Goes on with the other part of the innermost.
    #[tactic(auto, using(crate::proofs::Stacks::set_innermost, crate::proofs::Stacks::not_empty))]
    fn turn(&mut self)
        requires { 0 < length self.old }
        ensures { self.new ≡ Else ∷ drop 1 self.old }
    {
        let innermost = self.openers.len() - 1;
        self.openers[innermost] = Opener::Else;
    }

    /// Takes a line: what is open after it. Where the growth is refused nothing has changed.
    pub fn add(&mut self, line: &Line) -> Result<(), AllocError>
        ensures added { OnOk result (self.new ≡ open_step self.old line.now) }
        ensures refused { OnErr result (self.new ≡ self.old) }
    {
        match line {
            Line::Proc(_, _) => self.open(Opener::Procedure)?,
            Line::If(_) if !self.is_empty() => self.open(Opener::If)?,
            Line::While(_) if !self.is_empty() => self.open(Opener::While)?,
            Line::Else if self.takes_else() => self.turn(),
            Line::End => self.close(),
            _ => {}
        }
        Ok(())
    }
}
