ghost use Rattle.std.specs.Prelude.{◌≡◌};
ghost use Rattle.lvish_code.specs.Sound.{IsCodeSound};

use crate::compile::routines_of;
use crate::instruction::Indices;
use crate::routine::{Routine, Routines};
use crate::tables::{Kinds, Tables, pool_variables};
use lvish_syntax::{Script, VariableKind};
use std::alloc::{AllocError, Global};
use std::marker::Model;

/// The flat code of a script.
///
/// Variables, pools and procedures are numbers, from 0, each in the order of their lines. All that an
/// instruction names is there, and each jump stays within its routine, by this type: `IsCodeSound`.
pub struct Code {
    kinds: Kinds,
    pools: Indices,
    main: usize,
    routines: Routines,
    ghost sound: { IsCodeSound kinds pools main routines },
}

// Written out, so that it is proved once, and not at each exit of a function that owns one.
impl Drop for Code {
    fn drop(self) {
        let Code {
            kinds: _,
            pools: _,
            main: _,
            routines: _,
        } = self;
    }
}

impl Model for Code {
    ghost use Rattle.lvish_code.specs.Flat.{Code};

    ghost Value = { Code };

    ghost view = { λ c. record { kinds = c.kinds; pools = c.pools; main = c.main; routines = c.routines; sound = c.sound } };
}

impl Code {
    ghost use Rattle.std.specs.Prelude.{IfOk};
    ghost use Rattle.lvish_code.specs.Compile.{IsCodeOf};

    /// The code of the script.
    pub fn new(alloc: Global, script: &Script) -> Result<Code, AllocError>
        ensures { IfOk result (λ c. IsCodeOf script.now c) }
    {
        let tables = Tables::new(alloc, script.declarations(), script.procedures())?;
        let pools = pool_variables(alloc, &tables.variables, script.declarations())?;
        let routines = routines_of(alloc, &tables, script.procedures())?;
        let main = tables.procedures.number_of("main");
        Ok(Code {
            kinds: tables.into_kinds(),
            pools,
            main,
            routines,
        })
    }

    /// The kinds of the variables.
    pub fn kinds(&self) -> &[VariableKind]
        ensures { result.now ≡ self.now.kinds }
    {
        self.kinds.as_slice()
    }

    /// The variable of each pool.
    pub fn pools(&self) -> &[usize]
        ensures { result.now ≡ self.now.pools }
    {
        self.pools.as_slice()
    }

    /// The number of the procedure `main`.
    pub fn main(&self) -> usize
        ensures { result ≡ self.now.main }
    {
        self.main
    }

    /// The routines of the procedures.
    pub fn routines(&self) -> &[Routine]
        ensures { result.now ≡ self.now.routines }
    {
        self.routines.as_slice()
    }
}
