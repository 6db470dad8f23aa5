//! A law of the definitions, as the contract of a function without code.

ghost use Rattle.std.specs.Prelude.{◌≡◌, slice_get, List, ℕ, Some};
ghost use Rattle.lvish_syntax.specs.Words.{Word};
ghost use Rattle.lvish_checks.specs.Text.{words_of};
ghost use Rattle.lvish_explain.specs.Mark.{IsUnder, mark_of};

/// The carets of a word of a line stand under just its bytes.
pub fn marks_are_words()
    ensures { (line : List ℕ) (k : ℕ) (w : Word) → slice_get (words_of line) k ≡ Some w → IsUnder line w (mark_of line (words_of line) k) }
{}
