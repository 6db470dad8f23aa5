//! What the text of a trace says, as contracts of functions with no code.

ghost use Rattle.std.specs.Prelude.{◌≡◌, ℤ, Contains};
ghost use Rattle.lvish_compound.specs.States.{events_of};
ghost use Rattle.lvish_compound.specs.declared.event.Event.{Event};
ghost use Rattle.lvish_compound.specs.declared.any.Any.{Any};
ghost use Rattle.lvish_report.specs.Told.{TextsTellRuns};

use lvish_calculus::laws::lawful;
use lvish_calculus::{Meaning, Program};

/// The text of a trace is that of one run's trace: two runs of a program whose traces have the same
/// text have the same labels.
///
/// A name's text has the key and the number of an event, and not its kind. So the law is of programs
/// over lattices in which key and number tell the events of one state apart.
pub fn texts_tell_runs<P: Program>()
    ensures { (p : P) (key number : P.Lat.Event → ℤ) → TextsTellRuns (⟦<P as Meaning>⟧.machine p) key number }
{
    lawful::<P>();
}

/// Key and number tell the events of a script's variable apart: a state has no two kinds under one
/// key.
pub fn script_events_are_told()
    ensures { (s : Any) (e x : Event) → Contains (events_of s) e → Contains (events_of s) x → e.key ≡ x.key → e.number ≡ x.number → e ≡ x }
{}
