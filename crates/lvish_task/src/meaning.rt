use lvish_compound::{Any, Event};
use lvish_lattice::{Lattice, Reads};
use lvish_syntax::Script;

/// What a script means: the machine whose local states are what is left of a task's nested
/// statements.
pub trait ScriptMeaning {
    ghost use Rattle.std.specs.Prelude.{ℤ};
    ghost use Rattle.lvish_calculus.specs.Machine.{Machine};
    ghost use Rattle.lvish_compound.specs.declared.any.Any.{Any};
    ghost use Rattle.lvish_compound.specs.declared.any_read.AnyRead.{AnyRead};
    ghost use Rattle.lvish_compound.specs.declared.event.Event.{Event};
    ghost use Rattle.lvish_task.specs.Meaning.{LocalState};

    ghost machine: { Self → Machine Any Event AnyRead ℤ LocalState };
}

impl ScriptMeaning for Script {
    ghost use Rattle.lvish_calculus.specs.Program.{machine_of};
    ghost use Rattle.lvish_task.specs.Meaning.{script_functions};

    ghost machine = { λ script. machine_of ⟦<Any as PartialEq>⟧.eq ⟦<Event as PartialEq>⟧.eq ⟦<Event as Ord>⟧.cmp ⟦<Any as Lattice>⟧.least ⟦<Any as Lattice>⟧.joined ⟦<Any as Lattice>⟧.events_of ⟦<Any as Reads>⟧.answer_of (script_functions script) };
}
