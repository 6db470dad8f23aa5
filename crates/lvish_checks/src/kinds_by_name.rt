ghost use Rattle.std.specs.Prelude.{◌≡◌, ◌++◌, ◌∷◌, [], List, IfOk, OnOk, None, Some};
ghost use Rattle.std.specs.List.{list_all};
ghost use Rattle.lvish_syntax.specs.Sound.{kind_there, is_get_of_kind, is_pool_of};
ghost use Rattle.lvish_syntax.specs.declared.declaration.Declaration.{Declaration};
ghost use Rattle.lvish_checks.specs.Checks.{declarations, declared_by};
ghost use Rattle.lvish_checks.specs.Known.{AreKinds, AreOfPools};

use crate::fit::{is_read_at, is_whole_read, kind_at, kind_of_whole};
use crate::line::Line;
use crate::name_table::NameTable;
use lvish_syntax::{Declaration, Identifier, SimpleKind, Term, Threshold, VariableKind};
use std::alloc::{AllocError, Global};

/// The kinds of variables, and the variables of pools, by name.
#[derive(Drop)]
pub struct KindsByName<'a> {
    pub variables: NameTable<'a, VariableKind>,
    pub pools: NameTable<'a, &'a str>,
}

impl<'a> KindsByName<'a> {
    fn new(alloc: Global) -> KindsByName<'a>
        ensures variables { AreKinds result.variables [] }
        ensures pools { AreOfPools result.pools [] }
    {
        KindsByName {
            variables: NameTable::new(alloc),
            pools: NameTable::new(alloc),
        }
    }

    /// Adds a declaration.
    fn add(&mut self, declaration: &'a Declaration) -> Result<(), AllocError>
        ensures variables { (before : List Declaration) → AreKinds self.old.variables before → OnOk result (AreKinds self.new.variables (before ++ declaration.now ∷ [])) }
        ensures pools { (before : List Declaration) → AreOfPools self.old.pools before → OnOk result (AreOfPools self.new.pools (before ++ declaration.now ∷ [])) }
    {
        match declaration {
            Declaration::Variable(name, kind) => self.variables.add(name, *kind),
            Declaration::Pool(pool, variable) => self.pools.add(pool, variable.as_str()),
        }
    }

    /// Adds what a line declares, if it declares a variable or a pool.
    fn add_line(&mut self, line: &'a Line) -> Result<(), AllocError>
        ensures variables { (before : List Declaration) → AreKinds self.old.variables before → OnOk result (AreKinds self.new.variables (before ++ declared_by line.now)) }
        ensures pools { (before : List Declaration) → AreOfPools self.old.pools before → OnOk result (AreOfPools self.new.pools (before ++ declared_by line.now)) }
    {
        match line {
            Line::Declare(declaration) => self.add(declaration.get()),
            _ => Ok(()),
        }
    }

    /// The kind of a variable, where it is a cell, a set or a counter.
    pub fn of_whole(&self, variable: &Identifier) -> Option<SimpleKind>
        ensures { (ds : List Declaration) → AreKinds self.now.variables ds → result ≡ kind_there ds variable.now None }
    {
        match self.variables.get(variable) {
            Some(kind) => kind_of_whole(kind),
            None => None,
        }
    }

    /// The kind of what is at a map's or a tally's key, or of a pair's side.
    pub fn of_place(&self, variable: &Identifier, place: &Term) -> Option<SimpleKind>
        ensures { (ds : List Declaration) → AreKinds self.now.variables ds → result ≡ kind_there ds variable.now (Some place.now) }
    {
        match self.variables.get(variable) {
            Some(kind) => kind_at(kind, place),
            None => None,
        }
    }

    /// Whether the threshold is one of the variable.
    pub fn reads_whole(&self, variable: &Identifier, threshold: &Threshold) -> bool
        ensures { (ds : List Declaration) → AreKinds self.now.variables ds → result ≡ is_get_of_kind ds variable.now None threshold.now }
    {
        match self.variables.get(variable) {
            Some(kind) => is_whole_read(kind, threshold),
            None => false,
        }
    }

    /// Whether the threshold is one of what is at this place of the variable.
    pub fn reads_at(&self, variable: &Identifier, place: &Term, threshold: &Threshold) -> bool
        ensures { (ds : List Declaration) → AreKinds self.now.variables ds → result ≡ is_get_of_kind ds variable.now (Some place.now) threshold.now }
    {
        match self.variables.get(variable) {
            Some(kind) => is_read_at(kind, place, threshold),
            None => false,
        }
    }

    /// Whether a pool is one of the variable.
    fn is_pool_of(&self, variable: &Identifier, pool: &Identifier) -> bool
        ensures { (ds : List Declaration) → AreOfPools self.now.pools ds → result ≡ is_pool_of ds variable.now pool.now }
    {
        match self.pools.get(pool) {
            Some(found) => found == variable.as_str(),
            None => false,
        }
    }

    /// Whether each pool is one of the variable.
    pub fn are_pools_of(&self, variable: &Identifier, pools: &[Identifier]) -> bool
        ensures { (ds : List Declaration) → AreOfPools self.now.pools ds → result ≡ list_all (is_pool_of ds variable.now) pools.now }
    {
        for pool in pools {
            if !self.is_pool_of(variable, pool) {
                return false;
            }
        }
        true
    }
}

/// The kinds of the variables that the lines declare, and the variables of their pools.
pub fn kinds_of(alloc: Global, lines: &[Line]) -> Result<KindsByName<'_>, AllocError>
    ensures variables { IfOk result (λ kinds. AreKinds kinds.variables (declarations lines.now)) }
    ensures pools { IfOk result (λ kinds. AreOfPools kinds.pools (declarations lines.now)) }
{
    let mut kinds = KindsByName::new(alloc);
    for line in lines {
        kinds.add_line(line)?;
    }
    Ok(kinds)
}
