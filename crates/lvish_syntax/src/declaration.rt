ghost use Rattle.std.specs.Prelude.{◌≡◌};

use crate::identifier::Identifier;
use crate::kind::VariableKind;
use lvish_base::Items;

/// A line at the head of a script.
pub enum Declaration {
    /// Declares a variable of this kind.
    Variable(Identifier, VariableKind),
    /// Declares a pool on a variable: the pool, then the variable.
    Pool(Identifier, Identifier),
}

// Written out, so that it is proved once, and not at each exit of a function that owns one.
impl Drop for Declaration {
    fn drop(self) {
        match self {
            Declaration::Variable(_, _) => {}
            Declaration::Pool(_, _) => {}
        }
    }
}

impl Declaration {
    /// An equal declaration, which takes no memory.
    pub fn copy(&self) -> Declaration
        ensures { result ≡ self.now }
    {
        match self {
            Declaration::Variable(name, kind) => Declaration::Variable(name.copy(), *kind),
            Declaration::Pool(pool, variable) => Declaration::Pool(pool.copy(), variable.copy()),
        }
    }
}

/// The declarations of a script in the order of its lines.
pub type Declarations = Items<Declaration>;
