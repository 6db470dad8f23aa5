ghost use Rattle.lvish_pointing.specs.Numbers.{AreInside, AreInside-prop};

use crate::fact::NodeFact;
use lvish_lattice::Items;

/// Facts over so many names.
pub struct Constraints {
    pub names: usize,
    pub facts: Items<NodeFact>,
    ghost inside: { AreInside names facts } by { AreInside-prop names facts },
}

// Written out, so that it is proved once, and not at each exit of a function that owns one.
impl Drop for Constraints {
    fn drop(self) {
        let Constraints { names: _, facts: _ } = self;
    }
}
