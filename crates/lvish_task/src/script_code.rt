ghost use Rattle.std.specs.Prelude.{◌≡◌, IfOk};
ghost use Rattle.lvish_task.specs.CodeOf.{IsScriptCodeOf};
ghost use Rattle.lvish_task.specs.Freezing.{code_freezes, is_freeze, routine_freezes};

use lvish_code::{Action, Code as FlatCode, Instruction, Routine};
use lvish_syntax::Script;
use std::alloc::{AllocError, Global};

/// The flat code of a script, as a program of the calculus.
pub struct ScriptCode {
    pub flat: FlatCode,
}

// Written out, so that it is proved once, and not at each exit of a function that owns one.
impl Drop for ScriptCode {
    fn drop(self) {
        let ScriptCode { flat: _ } = self;
    }
}

impl ScriptCode {
    /// The code of the script.
    ///
    /// # Errors
    ///
    /// Where there is no room for it.
    pub fn new(alloc: Global, script: &Script) -> Result<ScriptCode, AllocError>
        ensures { IfOk result (λ c. IsScriptCodeOf script.now c) }
    {
        Ok(ScriptCode {
            flat: FlatCode::new(alloc, script)?,
        })
    }

    /// Whether an instruction of the code asks to freeze.
    pub fn freezes(&self) -> bool
        ensures { result ≡ code_freezes self.now.flat }
    {
        self.flat.routines().iter().any(routine_freezes)
    }
}

/// Whether an instruction of the routine asks to freeze.
fn routine_freezes(routine: &Routine) -> bool
    ensures { result ≡ routine_freezes routine.now }
{
    routine.instructions.as_slice().iter().any(is_freeze)
}

/// Whether an instruction asks to freeze.
fn is_freeze(instruction: &Instruction) -> bool
    ensures { result ≡ is_freeze instruction.now }
{
    matches!(instruction, Instruction::Ask(Action::Freeze(..)))
}
