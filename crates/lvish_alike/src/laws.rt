//! What the lines of a script say of all its runs, and when one end shows all runs, as contracts of
//! functions with no code.

ghost use Rattle.std.specs.Prelude.{ℕ, List, [], ◌∷◌};
ghost use Rattle.lvish_code.specs.Flat.{Code};
ghost use Rattle.lvish_calculus.specs.Agreement.{AllLeadToTheEnd};
ghost use Rattle.lvish_syntax.specs.declared.script.Script.{Script};
ghost use Rattle.lvish_task.specs.declared.script_code.ScriptCode.{ScriptCode};
ghost use Rattle.lvish_task.specs.CodeOf.{IsScriptCodeOf};
ghost use Rattle.lvish_alike.specs.Alike.{outline, machine_of_script};
ghost use Rattle.lvish_alike.specs.Layered.{IsLayered, FreezesAt, PoolRuns, RoutineWrites};
ghost use Rattle.lvish_alike.specs.OneEnd.{HasOneEnd, OneEndShowsAll};
ghost use Rattle.lvish_alike.specs.Reaching.{HasOneOrder};
ghost use Rattle.lvish_alike.specs.Strata.{IsStratified};
ghost use Rattle.lvish_alike.specs.TooLate.{NeverTooLate};

use lvish_calculus::laws::lawful;
use lvish_calculus::{Meaning, Program};
use lvish_task::ScriptCode;
use lvish_task::laws::same_runs;

/// Where the tasks of a script freeze one variable at most, or no task but `main` freezes, all ends of
/// the script without an error are the same.
pub fn one_end()
    ensures { (s : Script) (c : ScriptCode) → IsScriptCodeOf s c → HasOneOrder (outline s) → HasOneEnd (machine_of_script s) }
{
    lawful::<ScriptCode>();
    same_runs();
}

/// Where no run of a program is in error because a put would raise a frozen variable or a handler comes
/// to one, each run leads to the end of a run that ends without an error, with the same labels in all:
/// so no run is in error, and none is longer.
pub fn one_end_shows_all<P: Program>()
    ensures { (p : P) → NeverTooLate (⟦<P as Meaning>⟧.machine p) → AllLeadToTheEnd (⟦<P as Meaning>⟧.machine p) }
{
    lawful::<P>();
}

/// Where each freeze of a program waits for pools of its variable, and whoever asks to write to a frozen
/// variable belongs to a pool that was waited for, no run is in error because a put would raise a frozen
/// variable or a handler comes to one.
pub fn strata_keep_time<P: Program>()
    ensures { (p : P) (waited : ℕ → List ℕ) → IsStratified (⟦<P as Meaning>⟧.machine p) waited → NeverTooLate (⟦<P as Meaning>⟧.machine p) }
{
    lawful::<P>();
}

/// Where `main` freezes each variable after all that write to it, in a script's code, all ends of the
/// script without an error are the same, and one shows that no run is in error and none is longer.
///
/// The freezes are lines of `main` that stand in no block. Below its freeze neither `main` nor what it
/// calls writes to the variable, and other tasks write to it only in pools for which this freeze waits,
/// or one above it.
pub fn layers_end_alike()
    ensures one_end { (s : Script) (c : ScriptCode) → IsScriptCodeOf s c → IsLayered c.flat → HasOneEnd (machine_of_script s) }
    ensures shows_all { (s : Script) (c : ScriptCode) → IsScriptCodeOf s c → IsLayered c.flat → OneEndShowsAll (machine_of_script s) }
{
    lawful::<ScriptCode>();
    same_runs();
    one_end_shows_all::<ScriptCode>();
    strata_keep_time::<ScriptCode>();
}

/// Some code is layered: `main` adds a handler to a set's pool, puts into the set and freezes it after
/// the pool, and the handler's task puts into it too.
pub fn some_code_is_layered()
    ensures { (c : Code) × IsLayered c × FreezesAt c 2 0 (0 ∷ []) × PoolRuns c 0 0 × RoutineWrites c 0 0 }
{}
