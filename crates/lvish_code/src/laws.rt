//! What the code of each script promises, as contracts of functions with no code.

ghost use Rattle.std.specs.Prelude.{◌≡◌, ℕ, List, Some};
ghost use Rattle.std.specs.List.{slice_get};
ghost use Rattle.lvish_syntax.specs.Nested.{statements};
ghost use Rattle.lvish_syntax.specs.declared.procedure.Procedure.{Procedure};
ghost use Rattle.lvish_syntax.specs.declared.statement.Statement.{Statement};
ghost use Rattle.lvish_code.specs.declared.instruction.Instruction.{Instruction};
ghost use Rattle.lvish_code.specs.Compile.{Names, routine_of};
ghost use Rattle.lvish_code.specs.Follows.{Follows, Does};

/// The code of each procedure does the procedure's statements, from the first instruction on.
pub fn code_follows()
    ensures { (names : Names) (p : Procedure) → Follows names (routine_of names p).instructions 0 (statements p.body) }
{}

/// Where statements follow, there is an instruction, and it does the first of them, or jumps to
/// where they follow too, or ends the procedure where there are none.
pub fn code_does()
    ensures { (names : Names) (code : List Instruction) (place : ℕ) (ks : List Statement) → Follows names code place ks → (i : Instruction) × (slice_get code place ≡ Some i) × Does names code place ks i }
{}
