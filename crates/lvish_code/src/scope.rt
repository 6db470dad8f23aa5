use crate::expression::Expression;
use crate::instruction::{Action, Indices, Instruction};
use crate::numbering::Numbering;
use crate::operand::{Operand, Operands};
use crate::tables::Tables;
use crate::target::{Side, Target};
use crate::wanted::Wanted;
use lvish_syntax::{
    Command, Identifier, Identifiers, LetValue, SimpleKind, Term, Threshold, VariableKind,
};
use std::alloc::{AllocError, Global};

/// What the names in a procedure stand for.
#[derive(Drop)]
pub struct Scope<'t, 's> {
    pub tables: &'t Tables<'s>,
    pub locals: &'t Numbering<'s>,
}

impl Scope<'_, '_> {
    ghost use Rattle.std.specs.Prelude.{◌≡◌, IfOk, map};
    ghost use Rattle.lvish_code.specs.Numbering.{name_number};
    ghost use Rattle.lvish_code.specs.Compile.{operand_of, expression_of, wanted_of, kind_in, whole, part, command_code};
    ghost use Rattle.lvish_code.specs.InScope.{names_in};
    ghost use Rattle.lvish_code.specs.declared.instruction.Action.TheVariants.{Put, Get, Freeze};
    ghost use Rattle.lvish_code.specs.declared.instruction.Instruction.TheVariants.{Ask};

    fn local(&self, name: &Identifier) -> usize
        ensures { result ≡ name_number (names_in self.now).locals name.now }
    {
        self.locals.number_of(name.as_str())
    }

    fn variable(&self, name: &Identifier) -> usize
        ensures { result ≡ name_number (names_in self.now).variables name.now }
    {
        self.tables.variables.number_of(name.as_str())
    }

    fn pool(&self, name: &Identifier) -> usize
        ensures { result ≡ name_number (names_in self.now).pools name.now }
    {
        self.tables.pools.number_of(name.as_str())
    }

    fn procedure(&self, name: &Identifier) -> usize
        ensures { result ≡ name_number (names_in self.now).procedures name.now }
    {
        self.tables.procedures.number_of(name.as_str())
    }

    /// The operand of a term.
    pub fn operand(&self, term: &Term) -> Operand
        ensures { result ≡ operand_of (names_in self.now) term.now }
    {
        match term {
            Term::Local(name) => Operand::Local(self.local(name)),
            Term::Number(n) => Operand::Number(*n),
        }
    }

    fn operands(&self, alloc: Global, terms: &[Term]) -> Result<Operands, AllocError>
        ensures { IfOk result (λ o. o ≡ map (operand_of (names_in self.now)) terms.now) }
    {
        let mut operands = Vec::with_capacity(alloc, terms.len())?;
        for term in terms {
            operands.push(self.operand(term))?;
        }
        Ok(Operands::new(operands))
    }

    fn pools(&self, alloc: Global, names: &[Identifier]) -> Result<Indices, AllocError>
        ensures { IfOk result (λ p. p ≡ map (name_number (names_in self.now).pools) names.now) }
    {
        let mut pools = Vec::with_capacity(alloc, names.len())?;
        for name in names {
            pools.push(self.pool(name))?;
        }
        Ok(Indices::new(pools))
    }

    fn expression(&self, value: &LetValue) -> Expression
        ensures { result ≡ expression_of (names_in self.now) value.now }
    {
        match value {
            LetValue::Same(term) => Expression::Same(self.operand(term)),
            LetValue::Combined(left, operator, right) => {
                Expression::Combined(self.operand(left), *operator, self.operand(right))
            }
        }
    }

    fn wanted(&self, alloc: Global, threshold: &Threshold) -> Result<Wanted, AllocError>
        ensures { IfOk result (λ w. w ≡ wanted_of (names_in self.now) threshold.now) }
    {
        match threshold {
            Threshold::Any => Ok(Wanted::Any),
            Threshold::In(numbers) => Ok(Wanted::In(numbers.copy(alloc)?)),
            Threshold::Has(term) => Ok(Wanted::At(self.operand(term))),
            Threshold::Least(term) => Ok(Wanted::At(self.operand(term))),
            Threshold::Total(term) => Ok(Wanted::At(self.operand(term))),
        }
    }

    fn kind(&self, variable: &Identifier) -> Option<VariableKind>
        ensures { result ≡ kind_in (names_in self.now) variable.now }
    {
        self.tables
            .kinds
            .as_slice()
            .get(self.variable(variable))
            .copied()
    }

    fn whole(&self, variable: &Identifier) -> Target
        ensures { result ≡ whole (names_in self.now) variable.now }
    {
        match self.kind(variable) {
            Some(VariableKind::Simple(kind)) => Target::Whole(kind),
            Some(VariableKind::Tally) => Target::Total,
            _ => Target::Whole(SimpleKind::Cell),
        }
    }

    fn part(&self, variable: &Identifier, place: &Term) -> Target
        ensures { result ≡ part (names_in self.now) variable.now place.now }
    {
        match self.kind(variable) {
            Some(VariableKind::Map) => Target::Entry(self.operand(place)),
            Some(VariableKind::Tally) => Target::Amount(self.operand(place)),
            Some(VariableKind::Pair(first, second)) => match place {
                Term::Number(1) => Target::Side(Side::First, first),
                _ => Target::Side(Side::Second, second),
            },
            _ => Target::Whole(SimpleKind::Cell),
        }
    }

    fn put(&self, variable: &Identifier, target: Target, term: &Term) -> Instruction
        ensures { result ≡ Ask (Put (name_number (names_in self.now).variables variable.now) target (operand_of (names_in self.now) term.now)) }
    {
        Instruction::Ask(Action::Put(self.variable(variable), target, self.operand(term)))
    }

    fn get(
        &self,
        alloc: Global,
        local: &Identifier,
        variable: &Identifier,
        target: Target,
        threshold: &Threshold,
    ) -> Result<Instruction, AllocError>
        ensures { IfOk result (λ i. i ≡ Ask (Get (name_number (names_in self.now).locals local.now) (name_number (names_in self.now).variables variable.now) target (wanted_of (names_in self.now) threshold.now))) }
    {
        let wanted = self.wanted(alloc, threshold)?;
        let local = self.local(local);
        Ok(Instruction::Ask(Action::Get(local, self.variable(variable), target, wanted)))
    }

    fn freeze(
        &self,
        alloc: Global,
        local: &Identifier,
        variable: &Identifier,
        pools: &Identifiers,
        each: Option<usize>,
    ) -> Result<Instruction, AllocError>
        ensures { IfOk result (λ i. i ≡ Ask (Freeze (name_number (names_in self.now).locals local.now) (name_number (names_in self.now).variables variable.now) (map (name_number (names_in self.now).pools) pools.now) each)) }
    {
        let pools = self.pools(alloc, pools.as_slice())?;
        let local = self.local(local);
        Ok(Instruction::Ask(Action::Freeze(local, self.variable(variable), pools, each)))
    }

    /// The instruction of a statement of one line.
    pub fn command(&self, alloc: Global, command: &Command) -> Result<Instruction, AllocError>
        ensures { IfOk result (λ i. i ≡ command_code (names_in self.now) command.now) }
    {
        match command {
            Command::Let(local, value) => {
                Ok(Instruction::Let(self.local(local), self.expression(value)))
            }
            Command::Put(variable, term) => Ok(self.put(variable, self.whole(variable), term)),
            Command::PutAt(variable, place, term) => {
                Ok(self.put(variable, self.part(variable, place), term))
            }
            Command::Get(local, variable, read) => {
                self.get(alloc, local, variable, self.whole(variable), read)
            }
            Command::GetAt(local, variable, place, read) => {
                self.get(alloc, local, variable, self.part(variable, place), read)
            }
            Command::Fork(procedure, terms) => {
                let operands = self.operands(alloc, terms.as_slice())?;
                Ok(Instruction::Ask(Action::Fork(self.procedure(procedure), operands)))
            }
            Command::Call(procedure, terms) => {
                let operands = self.operands(alloc, terms.as_slice())?;
                Ok(Instruction::Call(self.procedure(procedure), operands))
            }
            Command::Handle(pool, procedure) => {
                Ok(Instruction::Ask(Action::Handle(self.pool(pool), self.procedure(procedure))))
            }
            Command::Freeze(local, variable, pools) => {
                self.freeze(alloc, local, variable, pools, None)
            }
            Command::FreezeEach(local, variable, pools, each) => {
                self.freeze(alloc, local, variable, pools, Some(self.procedure(each)))
            }
        }
    }
}
