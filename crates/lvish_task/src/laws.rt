//! What the code of each script promises, as contracts of functions with no code.

ghost use Rattle.std.specs.Prelude.{◌≡◌, true, false, List, Option, Some, None};
ghost use Rattle.lvish_lattice.specs.Lattice.{IsChecked};
ghost use Rattle.lvish_compound.specs.AnyReads.{Member};
ghost use Rattle.lvish_compound.specs.States.{joined};
ghost use Rattle.lvish_calculus.specs.SameRuns.{IsMatch, HaveSameRuns};
ghost use Rattle.lvish_calculus.specs.Laws.{AsksNoFreeze};
ghost use Rattle.lvish_calculus.specs.Agreement.{NeverAsksFreeze};
ghost use Rattle.lvish_calculus.specs.LeastModel.{EndsAreClosed, RunsAreLeast, FrozenDecides};
ghost use Rattle.lvish_syntax.specs.declared.script.Script.{Script};
ghost use Rattle.lvish_syntax.specs.Words.{Word};
ghost use Rattle.lvish_syntax.specs.Sound.{is_get_of_kind, is_get_apart};
ghost use Rattle.lvish_syntax.specs.declared.command.Command.TheVariants.{Get, GetAt};
ghost use Rattle.lvish_task.specs.declared.script_code.ScriptCode.{ScriptCode};
ghost use Rattle.lvish_task.specs.CodeOf.{IsScriptCodeOf};
ghost use Rattle.lvish_task.specs.Freezing.{code_freezes, has_freeze};
ghost use Rattle.lvish_task.specs.Fitting.{KeepsFitting};
ghost use Rattle.lvish_task.specs.Vocabulary.{AnyRead, Declaration, Statement, Term, Threshold};
ghost use Rattle.lvish_task.specs.Meaning.{Activation, Valuation, term_value, variable, getting, command_turn, script_functions};
ghost use Rattle.lvish_task.specs.Compatible.{read_of_get};
ghost use Rattle.lvish_task.specs.Pictures.{Pictures, BeginsOnTwo};
ghost use Rattle.lvish_task.specs.SamePlays.{HaveSamePlays};

use crate::meaning::ScriptMeaning;
use crate::script_code::ScriptCode;
use lvish_calculus::laws::least_model;
use lvish_calculus::{Meaning, Program};
use lvish_syntax::Script;

/// The code of a script means what the nested statements of the script mean.
///
/// It has as many variables and the same pools. `main` starts alike, and so does each procedure that
/// a handler begins, which takes a key and a number. Wherever a local state stands for a state of the
/// nested statements, it asks for the same, the local state in which it asks stands for the state in
/// which they ask, and after each reply it stands for what follows there.
pub fn code_means()
    ensures alike { (s : Script) (c : ScriptCode) → IsScriptCodeOf s c → IsMatch (⟦<ScriptCode as Program>⟧.functions c) (script_functions s) (Pictures s) (BeginsOnTwo s) }
    ensures variables { (s : Script) (c : ScriptCode) → IsScriptCodeOf s c → (⟦<ScriptCode as Program>⟧.functions c).variables ≡ (script_functions s).variables }
{}

/// The code of a script has the runs of the script's nested statements: the same labels lead to
/// equal contents, marks, handlers and errors, and to the same tasks with the same counts, at the
/// same requests.
pub fn same_runs()
    ensures { (s : Script) (c : ScriptCode) → IsScriptCodeOf s c → HaveSameRuns (⟦<ScriptCode as Meaning>⟧.machine c) (⟦<Script as ScriptMeaning>⟧.machine s) }
{}

/// Against any contents the same plays of the code and of the script's nested statements: the same
/// tasks, after as many forks and adds, at the same requests. So they have the same models, and what
/// the calculus says of models holds of the nested statements.
pub fn same_models()
    ensures plays { (s : Script) (c : ScriptCode) → IsScriptCodeOf s c → HaveSamePlays (⟦<ScriptCode as Meaning>⟧.machine c) (⟦<Script as ScriptMeaning>⟧.machine s) }
    // The contents at an end that no task leaves at a freeze of a frozen variable are closed.
    ensures closed { (s : Script) (c : ScriptCode) → IsScriptCodeOf s c → EndsAreClosed (⟦<Script as ScriptMeaning>⟧.machine s) }
    // Whatever contents a run reaches are at or below those of each model with what it froze.
    ensures least { (s : Script) (c : ScriptCode) → IsScriptCodeOf s c → RunsAreLeast (⟦<Script as ScriptMeaning>⟧.machine s) }
    // Two such ends with the same frozen contents have the same contents.
    ensures frozen_decides { (s : Script) (c : ScriptCode) → IsScriptCodeOf s c → FrozenDecides (⟦<Script as ScriptMeaning>⟧.machine s) }
{
    same_runs();
    least_model::<ScriptCode>();
}

/// From a local state that fits, an ask, a fork and a reply lead to local states that fit, and each
/// task starts in one. A local state that doesn't fit asks End, and a reply gives it back.
pub fn keeps_fitting()
    ensures { (c : ScriptCode) → KeepsFitting c }
{}

/// A script without the line `freeze` asks for no freeze.
pub fn asks_no_freeze()
    // Its code has an instruction that freezes exactly where it has the line.
    ensures lines { (s : Script) (c : ScriptCode) → IsScriptCodeOf s c → code_freezes c.flat ≡ has_freeze s }
    // Without the line no local state of its code asks for one,
    ensures code { (s : Script) (c : ScriptCode) → IsScriptCodeOf s c → has_freeze s ≡ false → AsksNoFreeze (⟦<ScriptCode as Meaning>⟧.machine c) }
    // and no task of the nested statements does, in any run.
    ensures statements { (s : Script) (c : ScriptCode) → IsScriptCodeOf s c → has_freeze s ≡ false → NeverAsksFreeze (⟦<Script as ScriptMeaning>⟧.machine s) }
{
    same_runs();
}

/// A get that fits the kind of its variable reads by a checked read exactly where the check of
/// compatible members accepts it. So what that check refuses has two members that are compatible.
pub fn compatible_members_are_refused()
    // Its read is the one by which the line waits.
    ensures whole { (s : Script) (values : Valuation) (following : List Statement) (below : List Activation) (x v : Word) (r : Threshold) → command_turn s values following below (Get x v r) ≡ getting s (variable s v) (read_of_get s.declarations values v None r) }
    ensures place { (s : Script) (values : Valuation) (following : List Statement) (below : List Activation) (x v : Word) (t : Term) (r : Threshold) → command_turn s values following below (GetAt x v t r) ≡ getting s (variable s v) (read_of_get s.declarations values v (Some t) r) }
    ensures accepted { (ds : List Declaration) (values : Valuation) (v : Word) (at : Option Term) (r : Threshold) (read : AnyRead) → is_get_of_kind ds v at r ≡ true → is_get_apart ds v at r ≡ true → read_of_get ds values v at r ≡ Some read → IsChecked joined (Member read) }
    ensures refused { (ds : List Declaration) (values : Valuation) (v : Word) (at : Option Term) (r : Threshold) → is_get_of_kind ds v at r ≡ true → is_get_apart ds v at r ≡ false → (read : AnyRead) × (read_of_get ds values v at r ≡ Some read) × (IsChecked joined (Member read) → ⊥) }
{}
