ghost use Rattle.std.specs.Prelude.{◌≡◌, ℤ};

/// Events that are printed by a key and a number, as names of tasks print them.
pub trait Numbered {
    ghost key_of: { Self → ℤ };

    ghost number_of: { Self → ℤ };

    /// The key, 0 where an event has none of its own.
    fn key(&self) -> i64
        ensures { result ≡ key_of self.now };

    /// The number.
    fn number(&self) -> i64
        ensures { result ≡ number_of self.now };
}
