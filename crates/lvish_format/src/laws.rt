//! Laws of the definitions, as contracts of functions without code.

ghost use Rattle.std.specs.Prelude.{◌≡◌, ◌≤◌, length, List, ℕ};
ghost use Rattle.lvish_syntax.specs.declared.limits.TheConstants.{MOST_BYTES};
ghost use Rattle.lvish_format.specs.Format.{formatted};
ghost use Rattle.lvish_format.specs.Same.{SpellTheSame};

/// A text and its formatted one spell the same script, or have the same fault on the same line, where
/// both are short enough for a script.
pub fn formatting_keeps_the_script()
    ensures { (text : List ℕ) → length text ≤ MOST_BYTES → length (formatted text) ≤ MOST_BYTES → SpellTheSame text (formatted text) }
{}

/// To format a formatted text changes nothing.
pub fn formatting_twice_is_formatting_once()
    ensures { (text : List ℕ) → formatted (formatted text) ≡ formatted text }
{}
