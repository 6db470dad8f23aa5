ghost use Rattle.lvish_syntax.specs.Sound.{IsSound};

use crate::declaration::{Declaration, Declarations};
use crate::procedure::{Procedure, Procedures};
use crate::version::Version;

/// A script that was read: its version, its declarations, and its procedures with nested statements.
///
/// Every name in it is declared, the counts of terms and parameters agree, its names differ, its
/// tables are within their limits and its lines are those of its version, by its type:
/// `IsSound version declarations procedures` holds of each script.
pub struct Script {
    pub version: Version,
    pub declarations: Declarations,
    pub procedures: Procedures,
    pub ghost sound: { IsSound version declarations procedures },
}

// Written out, so that it is proved once, and not at each exit of a function that owns one.
impl Drop for Script {
    fn drop(self) {
        let Script {
            version: _,
            declarations: _,
            procedures: _,
        } = self;
    }
}

impl Script {
    ghost use Rattle.std.specs.Prelude.{◌≡◌};
    ghost use Rattle.lvish_syntax.specs.Sound.{IsSound};

    /// The version of the script.
    pub fn version(&self) -> Version
        ensures { result ≡ self.now.version }
    {
        self.version
    }

    /// The declarations in the order of their lines.
    pub fn declarations(&self) -> &[Declaration]
        ensures value { result.now ≡ self.now.declarations }
        ensures sound { IsSound self.now.version self.now.declarations self.now.procedures }
    {
        self.declarations.as_slice()
    }

    /// The procedures in the order of their `proc` lines.
    pub fn procedures(&self) -> &[Procedure]
        ensures value { result.now ≡ self.now.procedures }
        ensures sound { IsSound self.now.version self.now.declarations self.now.procedures }
    {
        self.procedures.as_slice()
    }

    /// The script of this version with these declarations and procedures.
    pub fn of(version: Version, declarations: Declarations, procedures: Procedures) -> Script
        requires { IsSound version declarations procedures }
        ensures version { result.version ≡ version }
        ensures declarations { result.declarations ≡ declarations }
        ensures procedures { result.procedures ≡ procedures }
    {
        Script {
            version,
            declarations,
            procedures,
        }
    }
}
