//! Laws of the definitions, as contracts of functions without code.

ghost use Rattle.std.specs.Prelude.{◌≡◌, ◌≤◌, length, map, List, ℕ};
ghost use Rattle.std.specs.List.{AllZip};
ghost use Rattle.lvish_syntax.specs.declared.script.Script.{Script};
ghost use Rattle.lvish_syntax.specs.Words.{Word};
ghost use Rattle.lvish_checks.specs.Checks.{parts_of};
ghost use Rattle.lvish_checks.specs.Form.{line_of};
ghost use Rattle.lvish_checks.specs.Spelling.{line_words, Agree};
ghost use Rattle.lvish_script.specs.Spells.{Spells, script_lines};
ghost use Rattle.lvish_script.specs.Same.{IsSameProcedure};
ghost use Rattle.lvish_script.specs.Canonical.{canonical_lines, text_of, text_words, script_words};

use lvish_syntax::MOST_BYTES;

/// The canonical text of each script spells that very script, where it isn't too long; and in any
/// case its lines say the lines of the script, none of them blank.
pub fn what_is_written_is_read()
    ensures said { (s : Script) → (parts_of (text_of s)).said ≡ canonical_lines s }
    ensures spells { (s : Script) → length (text_of s) ≤ MOST_BYTES → Spells (text_of s) s }
{}

/// Two scripts that one text spells have one version, equal declarations, and the same procedures in
/// order.
pub fn a_text_spells_one_script()
    ensures version { (text : List ℕ) (s t : Script) → Spells text s → Spells text t → s.version ≡ t.version }
    ensures declarations { (text : List ℕ) (s t : Script) → Spells text s → Spells text t → s.declarations ≡ t.declarations }
    ensures procedures { (text : List ℕ) (s t : Script) → Spells text s → Spells text t → AllZip IsSameProcedure s.procedures t.procedures }
{}

/// A text that spells a script has the words that the script is written with, line by line, and no
/// others, except that a number may be written by another numeral, and that lines may be blank.
pub fn a_text_has_the_words_of_its_script()
    ensures { (text : List ℕ) (s : Script) → Spells text s → AllZip Agree (text_words text) (script_words s) }
{}

/// Lines whose words agree with those of a script's declarations and procedures say just these lines,
/// however their numbers are spelled.
pub fn every_spelling_says_its_line()
    ensures { (s : Script) (lines : List (List Word)) → AllZip Agree lines (map line_words (script_lines s.declarations s.procedures)) → map line_of lines ≡ script_lines s.declarations s.procedures }
{}
