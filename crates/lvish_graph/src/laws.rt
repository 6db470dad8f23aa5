//! A law of the definitions, as the contract of a function without code.

ghost use Rattle.std.specs.Prelude.{◌≡◌, List, true};
ghost use Rattle.std.specs.List.{list_all, list_any};
ghost use Rattle.lvish_syntax.specs.Words.{Word};
ghost use Rattle.lvish_syntax.specs.Name.{has_name};
ghost use Rattle.lvish_syntax.specs.declared.script.Script.{Script};
ghost use Rattle.lvish_graph.specs.declared.verb.Verb.{Verb};
ghost use Rattle.lvish_graph.specs.declared.deed.Deed.{Deed};
ghost use Rattle.lvish_graph.specs.Deeds.{does, handles, deeds_of, targets, handlers};
ghost use Rattle.lvish_graph.specs.Told.{is_told};

/// All that a statement of a script's procedure does is told of this procedure, and nothing is told
/// that no deed does.
pub fn what_is_done_is_told()
    ensures all { (s : Script) → list_all (λ p. list_all (is_told s (deeds_of p)) (deeds_of p)) s.procedures ≡ true }
    ensures only { (s : Script) (ds : List Deed) (v : Verb) (n : Word) → has_name n (targets s ds v) ≡ true → list_any (does v n) ds ≡ true }
    ensures handlers { (ns : List Word) (ds : List Deed) (p n : Word) → has_name n (handlers ns ds p) ≡ true → list_any (handles p n) ds ≡ true }
{}
