ghost use Rattle.std.specs.Prelude.{◌≡◌, ◌≤◌, IfOk, length, true};
ghost use Rattle.lvish_syntax.specs.Words.{is_name};

use crate::limits::MOST_IN_NAME;
use arrayvec::ArrayString;
use lvish_base::Items;
use std::alloc::{AllocError, Global};
use std::marker::Model;

/// The name of a variable, a pool, a procedure or a local, seen as its bytes.
pub struct Identifier {
    text: ArrayString<MOST_IN_NAME>,
}

// Written out, so that it is proved once, and not at each exit of a function that owns one.
impl Drop for Identifier {
    fn drop(self) {
        let Identifier { text: _ } = self;
    }
}

impl Model for Identifier {
    ghost use Rattle.std.specs.Prelude.{List, ℕ};

    ghost Value = { List ℕ };

    ghost view = { λ n. n.text.bytes };
}

impl PartialEq for Identifier {
    ghost use Rattle.lvish_syntax.specs.Equality.{text_eq, text_equivalence};
    ghost use Rattle.std.specs.Cmp.{partial_equiv_from_equiv};

    ghost eq = { text_eq };

    ghost laws = { partial_equiv_from_equiv text_equivalence };

    fn eq(&self, other: &Identifier) -> bool {
        self.as_str() == other.as_str()
    }
}

impl Eq for Identifier {
    ghost use Rattle.lvish_syntax.specs.Equality.{text_equivalence};

    ghost laws = { text_equivalence };
}

/// Names in order.
pub type Identifiers = Items<Identifier>;

impl Identifier {
    /// The name that a word writes. It takes no memory.
    pub fn new(word: &[u8]) -> Identifier
        requires { is_name word.now ≡ true }
        ensures { result ≡ word.now }
    {
        match str::from_utf8(word) {
            Ok(text) => Identifier::from_text(text),
            Err(_) => unreachable!(),
        }
    }

    fn from_text(text: &str) -> Identifier
        requires { length text.now ≤ MOST_IN_NAME }
        ensures { result ≡ text.now }
    {
        match ArrayString::from(text) {
            Ok(text) => Identifier { text },
            Err(_) => unreachable!(),
        }
    }

    /// The name as text.
    pub fn as_str(&self) -> &str
        ensures { result.now ≡ self.now }
    {
        self.text.as_str()
    }

    /// An equal name, which takes no memory.
    pub fn copy(&self) -> Identifier
        ensures { result ≡ self.now }
    {
        Identifier { text: self.text }
    }

    /// Equal names in the same order.
    pub fn copy_all(alloc: Global, names: &Identifiers) -> Result<Identifiers, AllocError>
        ensures { IfOk result (λ n. n ≡ names.now) }
    {
        let mut items = Vec::new(alloc);
        for name in names.as_slice() {
            items.push(name.copy())?;
        }
        Ok(Identifiers::from(items))
    }
}
