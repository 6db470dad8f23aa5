//! Numbers, truth values and characters as events.

use crate::lattice::Plain;
use crate::numbered::Numbered;

impl Plain for i8 {
    ghost use Rattle.lvish_lattice.specs.Plain.{int_identical};

    ghost identical = { int_identical };
}

impl Plain for i16 {
    ghost use Rattle.lvish_lattice.specs.Plain.{int_identical};

    ghost identical = { int_identical };
}

impl Plain for i32 {
    ghost use Rattle.lvish_lattice.specs.Plain.{int_identical};

    ghost identical = { int_identical };
}

impl Plain for i64 {
    ghost use Rattle.lvish_lattice.specs.Plain.{int_identical};

    ghost identical = { int_identical };
}

impl Plain for i128 {
    ghost use Rattle.lvish_lattice.specs.Plain.{int_identical};

    ghost identical = { int_identical };
}

impl Plain for isize {
    ghost use Rattle.lvish_lattice.specs.Plain.{int_identical};

    ghost identical = { int_identical };
}

impl Plain for u8 {
    ghost use Rattle.lvish_lattice.specs.Plain.{natural_identical};

    ghost identical = { natural_identical };
}

impl Plain for u16 {
    ghost use Rattle.lvish_lattice.specs.Plain.{natural_identical};

    ghost identical = { natural_identical };
}

impl Plain for u32 {
    ghost use Rattle.lvish_lattice.specs.Plain.{natural_identical};

    ghost identical = { natural_identical };
}

impl Plain for u64 {
    ghost use Rattle.lvish_lattice.specs.Plain.{natural_identical};

    ghost identical = { natural_identical };
}

impl Plain for u128 {
    ghost use Rattle.lvish_lattice.specs.Plain.{natural_identical};

    ghost identical = { natural_identical };
}

impl Plain for usize {
    ghost use Rattle.lvish_lattice.specs.Plain.{natural_identical};

    ghost identical = { natural_identical };
}

impl Plain for char {
    ghost use Rattle.lvish_lattice.specs.Plain.{natural_identical};

    ghost identical = { natural_identical };
}

impl Plain for bool {
    ghost use Rattle.lvish_lattice.specs.Plain.{bool_identical};

    ghost identical = { bool_identical };
}

impl Numbered for i8 {
    ghost use Rattle.std.specs.Prelude.{pos};

    ghost key_of = { λ _. pos 0 };

    ghost number_of = { λ n. n };

    fn key(&self) -> i64 {
        0
    }

    fn number(&self) -> i64 {
        i64::from(*self)
    }
}

impl Numbered for i16 {
    ghost use Rattle.std.specs.Prelude.{pos};

    ghost key_of = { λ _. pos 0 };

    ghost number_of = { λ n. n };

    fn key(&self) -> i64 {
        0
    }

    fn number(&self) -> i64 {
        i64::from(*self)
    }
}

impl Numbered for i32 {
    ghost use Rattle.std.specs.Prelude.{pos};

    ghost key_of = { λ _. pos 0 };

    ghost number_of = { λ n. n };

    fn key(&self) -> i64 {
        0
    }

    fn number(&self) -> i64 {
        i64::from(*self)
    }
}

impl Numbered for i64 {
    ghost use Rattle.std.specs.Prelude.{pos};

    ghost key_of = { λ _. pos 0 };

    ghost number_of = { λ n. n };

    fn key(&self) -> i64 {
        0
    }

    fn number(&self) -> i64 {
        *self
    }
}

impl Numbered for isize {
    ghost use Rattle.std.specs.Prelude.{pos};

    ghost key_of = { λ _. pos 0 };

    ghost number_of = { λ n. n };

    fn key(&self) -> i64 {
        0
    }

    fn number(&self) -> i64 {
        *self as i64
    }
}

impl Numbered for u8 {
    ghost use Rattle.std.specs.Prelude.{pos};

    ghost key_of = { λ _. pos 0 };

    ghost number_of = { λ n. pos n };

    fn key(&self) -> i64 {
        0
    }

    fn number(&self) -> i64 {
        i64::from(*self)
    }
}

impl Numbered for u16 {
    ghost use Rattle.std.specs.Prelude.{pos};

    ghost key_of = { λ _. pos 0 };

    ghost number_of = { λ n. pos n };

    fn key(&self) -> i64 {
        0
    }

    fn number(&self) -> i64 {
        i64::from(*self)
    }
}

impl Numbered for u32 {
    ghost use Rattle.std.specs.Prelude.{pos};

    ghost key_of = { λ _. pos 0 };

    ghost number_of = { λ n. pos n };

    fn key(&self) -> i64 {
        0
    }

    fn number(&self) -> i64 {
        i64::from(*self)
    }
}

impl Numbered for char {
    ghost use Rattle.std.specs.Prelude.{pos};

    ghost key_of = { λ _. pos 0 };

    ghost number_of = { λ c. pos c };

    fn key(&self) -> i64 {
        0
    }

    fn number(&self) -> i64 {
        i64::from(u32::from(*self))
    }
}

impl Numbered for bool {
    ghost use Rattle.std.specs.Prelude.{pos, if◌then◌else◌};

    ghost key_of = { λ _. pos 0 };

    ghost number_of = { λ b. if b then pos 1 else pos 0 };

    fn key(&self) -> i64 {
        0
    }

    fn number(&self) -> i64 {
        i64::from(*self)
    }
}
