//! Which names are told: each to which a procedure does something, once, in the order in which the
//! script declares them.

ghost use Rattle.std.specs.Prelude.{◌≡◌, filter, IfOk};
ghost use Rattle.std.specs.List.{list_any};
ghost use Rattle.lvish_syntax.specs.Sound.{procedure_names};
ghost use Rattle.lvish_graph.specs.Deeds.{does, handles, targets, handlers};

use crate::deed::Deed;
use crate::names::{names_for, procedure_names};
use crate::verb::Verb;
use lvish_syntax::{Identifier, Identifiers, Script};
use std::alloc::{AllocError, Global};

impl Deed {
    /// Whether it does this to the one with this name.
    fn does(&self, verb: Verb, name: &Identifier) -> bool
        ensures { result ≡ does verb name.now self.now }
    {
        match self {
            Deed::Does(own, target) => *own == verb && target == name,
            Deed::Handles(_, _) => false,
        }
    }

    /// Whether it adds a handler that runs this procedure to this pool.
    fn handles(&self, pool: &Identifier, procedure: &Identifier) -> bool
        ensures { result ≡ handles pool.now procedure.now self.now }
    {
        match self {
            Deed::Does(_, _) => false,
            Deed::Handles(own, target) => own == pool && target == procedure,
        }
    }
}

/// Whether one of the deeds does this to the one with this name.
fn any_does(deeds: &[Deed], verb: Verb, name: &Identifier) -> bool
    ensures { result ≡ list_any (does verb name.now) deeds.now }
{
    for deed in deeds {
        if deed.does(verb, name) {
            return true;
        }
    }
    false
}

/// Whether one of the deeds adds a handler that runs this procedure to this pool.
fn any_handles(deeds: &[Deed], pool: &Identifier, procedure: &Identifier) -> bool
    ensures { result ≡ list_any (handles pool.now procedure.now) deeds.now }
{
    for deed in deeds {
        if deed.handles(pool, procedure) {
            return true;
        }
    }
    false
}

/// The names of those to which the deeds do this.
pub fn targets(
    alloc: Global,
    script: &Script,
    deeds: &[Deed],
    verb: Verb,
) -> Result<Identifiers, AllocError>
    ensures { IfOk result (λ told. told ≡ targets script.now deeds.now verb) }
{
    let names = names_for(alloc, script, verb)?;
    let mut told = Vec::new(alloc);
    for name in names.as_slice() {
        if any_does(deeds, verb, name) {
            told.push(name.copy())?;
        }
    }
    Ok(Identifiers::from(told))
}

/// Those of these procedures that the deeds have run by handlers of this pool.
fn handling(
    alloc: Global,
    procedures: &[Identifier],
    deeds: &[Deed],
    pool: &Identifier,
) -> Result<Identifiers, AllocError>
    ensures { IfOk result (λ told. told ≡ handlers procedures.now deeds.now pool.now) }
{
    let mut told = Vec::new(alloc);
    for procedure in procedures {
        if any_handles(deeds, pool, procedure) {
            told.push(procedure.copy())?;
        }
    }
    Ok(Identifiers::from(told))
}

/// The procedures that the deeds have run by handlers of this pool.
pub fn handlers(
    alloc: Global,
    script: &Script,
    deeds: &[Deed],
    pool: &Identifier,
) -> Result<Identifiers, AllocError>
    ensures { IfOk result (λ told. told ≡ handlers (procedure_names script.now.procedures) deeds.now pool.now) }
{
    let procedures = procedure_names(alloc, script.procedures())?;
    handling(alloc, procedures.as_slice(), deeds, pool)
}
