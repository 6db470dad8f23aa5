//! Laws of the definitions, as contracts of functions without code.

ghost use Rattle.std.specs.Prelude.{◌≡◌, ◌≢◌, List, false};
ghost use Rattle.std.specs.List.{list_any};
ghost use Rattle.lvish_syntax.specs.Words.{Word};
ghost use Rattle.lvish_checks.specs.Form.{is_bad_number, line_of};
ghost use Rattle.lvish_checks.specs.Spelling.{line_words, Agree};
ghost use Rattle.lvish_checks.specs.declared.line.Line.TheVariants.{Bad, Version};

/// Words that have a form are the words that this form is written with, in their places, and no
/// others, except that a number may be written by another numeral.
pub fn a_form_has_its_words_alone()
    ensures { (words : List Word) → list_any is_bad_number words ≡ false → line_of words ≢ Bad → Agree words (line_words (line_of words)) }
{}

/// A number may be spelled in any way: words that agree with those of a line have its form, unless it
/// is the line of a version, which is written `lvish 2` alone.
pub fn every_spelling_of_a_number_is_read()
    ensures { (words others : List Word) → Agree words others → line_of others ≢ Bad → line_of others ≢ Version → line_of words ≡ line_of others }
{}
