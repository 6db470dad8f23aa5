use crate::program::Program;

/// A program's machine: its functions together with those of its lattice, as the definitions
/// of the calculus take them.
pub trait Meaning: Program {
    ghost use Rattle.lvish_calculus.specs.Machine.{Machine};

    ghost machine: { Self → Machine Self.Lat Self.Lat.Event Self.Lat.Read Self.Lat.Answer Self.Local };
}

impl<P: Program> Meaning for P {
    ghost use Rattle.lvish_calculus.specs.Program.{machine_of};

    ghost machine = { λ p. machine_of P.Lat.eq P.Lat.Event.eq P.Lat.Event.cmp P.Lat.least P.Lat.joined P.Lat.events_of P.Lat.answer_of (P.functions p) };
}
