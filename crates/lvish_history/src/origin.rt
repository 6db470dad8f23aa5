use std::marker::Brand;

/// Which history a stamp is from: a name for it, in a type. A call picks it.
pub trait Origin {
    ghost use Rattle.std.specs.Prelude.{ℕ};

    ghost book: { ℕ };
}

impl Origin for Brand {
    ghost book = { 0 };
}
