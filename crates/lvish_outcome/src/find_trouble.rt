//! What went wrong, by the line at which the task stands.

ghost use Rattle.std.specs.Prelude.{◌≡◌, IfSome, Option, ℤ};
ghost use Rattle.lvish_calculus.specs.declared.request.ErrorKind.TheVariants.{Conflict, Frozen, Late, Range, Deep};
ghost use Rattle.lvish_outcome.specs.Trouble.{kind_of};
ghost use Rattle.lvish_outcome.specs.Rests.{Says};

use crate::spot::Spot;
use crate::spots::{spot_named, spot_of_pool};
use crate::standing::LocalText;
use crate::trouble::{Sum, Trouble};
use crate::values::value_of;
use lvish_calculus::ErrorKind;
use lvish_compound::HIGHEST_TOTAL;
use lvish_lattice::HIGHEST_LEVEL;
use lvish_syntax::{Command, Declaration, Identifier, LetValue, Term, Threshold, VariableKind};

/// A statement that a task comes to: its words, the declarations of the script, and the task's locals.
#[derive(Clone, Copy)]
pub struct Said<'b, 'a> {
    pub command: &'b Command,
    pub declarations: &'a [Declaration],
    pub locals: &'b [LocalText<'a>],
}

impl<'a> Said<'_, 'a> {
    /// The variable of this name.
    pub fn whole(&self, variable: &Identifier) -> Option<Spot<'a>> {
        spot_named(self.declarations, variable, None)
    }

    /// The variable of this name at the value of a term.
    fn part(&self, variable: &Identifier, at: &Term) -> Option<Spot<'a>> {
        spot_named(
            self.declarations,
            variable,
            Some(value_of(self.locals, at)?),
        )
    }

    /// What a put is into, and what it puts.
    fn put(&self) -> Option<(Spot<'a>, i64)> {
        match self.command {
            Command::Put(variable, term) => {
                Some((self.whole(variable)?, value_of(self.locals, term)?))
            }
            Command::PutAt(variable, at, term) => {
                Some((self.part(variable, at)?, value_of(self.locals, term)?))
            }
            _ => None,
        }
    }

    /// What a get reads, and until when.
    pub fn get(&self) -> Option<(Spot<'a>, &Threshold)> {
        match self.command {
            Command::Get(_, variable, threshold) => Some((self.whole(variable)?, threshold)),
            Command::GetAt(_, variable, at, threshold) => {
                Some((self.part(variable, at)?, threshold))
            }
            _ => None,
        }
    }

    /// A conflict with what is there.
    fn conflict(&self, there: Option<i64>) -> Option<Trouble<'a>>
        ensures kind { IfSome result (λ t. kind_of t ≡ Conflict) }
        ensures said { IfSome result (Says there) }
    {
        let (spot, number) = self.put()?;
        match spot.kind {
            VariableKind::Tally => Some(Trouble::Total(spot, number)),
            _ => Some(Trouble::Other(spot, number, there?)),
        }
    }

    /// A put into what is frozen.
    fn frozen(&self) -> Option<Trouble<'a>>
        ensures kind { IfSome result (λ t. kind_of t ≡ Frozen) }
        ensures said { IfSome result (λ t. (there : Option ℤ) → Says there t) }
    {
        let (spot, number) = self.put()?;
        Some(Trouble::Frozen(spot, number))
    }

    /// A handler that comes to what is frozen.
    fn late(&self) -> Option<Trouble<'a>>
        ensures kind { IfSome result (λ t. kind_of t ≡ Late) }
        ensures said { IfSome result (λ t. (there : Option ℤ) → Says there t) }
    {
        match self.command {
            Command::Handle(pool, _) => Some(Trouble::Late(spot_of_pool(self.declarations, pool)?)),
            _ => None,
        }
    }

    /// Two numbers, and what combines them.
    fn sum(&self) -> Option<Sum> {
        match self.command {
            Command::Let(_, LetValue::Combined(left, operator, right)) => Some(Sum {
                left: value_of(self.locals, left)?,
                operator: *operator,
                right: value_of(self.locals, right)?,
            }),
            _ => None,
        }
    }

    /// A number outside what a counter, an amount or a total takes.
    fn range(&self) -> Option<Trouble<'a>>
        ensures kind { IfSome result (λ t. kind_of t ≡ Range) }
        ensures said { IfSome result (λ t. (there : Option ℤ) → Says there t) }
    {
        if let Some((spot, number)) = self.put() {
            return Some(Trouble::Range(spot, number, i64::from(HIGHEST_LEVEL)));
        }
        let (spot, threshold) = self.get()?;
        match threshold {
            Threshold::Least(term) => {
                let number = value_of(self.locals, term)?;
                Some(Trouble::Range(spot, number, i64::from(HIGHEST_LEVEL)))
            }
            Threshold::Total(term) => {
                let number = value_of(self.locals, term)?;
                Some(Trouble::Range(spot, number, i64::from(HIGHEST_TOTAL)))
            }
            _ => None,
        }
    }

    /// What has no frame, or no name.
    fn deep(&self) -> Trouble<'a>
        ensures kind { kind_of result ≡ Deep }
        ensures said { (there : Option ℤ) → Says there result }
    {
        match self.command {
            Command::Fork(_, _) => Trouble::Parts,
            Command::Handle(_, _) => Trouble::Parts,
            _ => Trouble::Frames,
        }
    }

    /// What went wrong in an error of this kind, where the number is what is there.
    pub fn trouble(&self, kind: ErrorKind, there: Option<i64>) -> Option<Trouble<'a>>
        ensures kind { IfSome result (λ t. kind_of t ≡ kind) }
        ensures said { IfSome result (Says there) }
    {
        match kind {
            ErrorKind::Conflict => self.conflict(there),
            ErrorKind::Frozen => self.frozen(),
            ErrorKind::Late => self.late(),
            ErrorKind::Overflow => Some(Trouble::Overflow(self.sum()?)),
            ErrorKind::Zero => Some(Trouble::Zero(self.sum()?)),
            ErrorKind::Range => self.range(),
            ErrorKind::Deep => Some(self.deep()),
        }
    }
}
