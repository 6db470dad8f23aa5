ghost use Rattle.std.specs.Prelude.{◌≡◌};

use lvish_calculus::Program;
use lvish_lattice::Lattice;
use lvish_names::TaskName;
use std::marker::Model;
use std::mem;

/// A task and a local state in which it stands.
pub struct Stand<P: Program> {
    task: TaskName<<P::Lat as Lattice>::Event>,
    from: P::Local,
}

// Written out, so that it is proved once, and not at each exit of a function that owns one.
impl<P: Program> Drop for Stand<P> {
    fn drop(self) {
        let Stand { task: _, from: _ } = self;
    }
}

impl<P: Program> Model for Stand<P> {
    ghost use Rattle.lvish_board.specs.Stand.{TaskStand};

    ghost Value = { TaskStand P.Lat.Event P.Local };

    ghost view = { λ p. record { task = p.task; from = p.from } };
}

impl<P: Program> Stand<P> {
    pub(crate) fn new(task: TaskName<<P::Lat as Lattice>::Event>, from: P::Local) -> Stand<P>
        ensures { result ≡ record { task = task; from = from } }
    {
        Stand { task, from }
    }

    /// The local state.
    #[inline(always)]
    pub(crate) fn into_from(self) -> P::Local
        ensures { result ≡ self.from }
    {
        let Stand { task: _, from } = self;
        from
    }

    /// The task's name.
    pub(crate) fn task(&self) -> &TaskName<<P::Lat as Lattice>::Event>
        ensures { result.now ≡ self.now.task }
    {
        &self.task
    }

    /// The local state.
    pub(crate) fn from(&self) -> &P::Local
        ensures { result.now ≡ self.now.from }
    {
        &self.from
    }

    /// Takes out the task's name, and leaves another.
    #[inline(always)]
    pub(crate) fn take_task(&mut self) -> TaskName<<P::Lat as Lattice>::Event>
        ensures task { result ≡ self.old.task }
        ensures from { self.new.from ≡ self.old.from }
    {
        mem::replace(&mut self.task, TaskName::main())
    }
}
