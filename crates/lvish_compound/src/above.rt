ghost use Rattle.std.specs.Prelude.{◌≡◌, ◌↔◌, false, IfOk, IfErr, is_some, unwrap_or};
ghost use Rattle.lvish_lattice.specs.Lattice.{fresh_of, IsOutcome};

use lvish_lattice::{Brought, Lattice};
use std::alloc::{AllocError, Global};

/// A state that isn't bottom.
#[derive(Debug, Drop)]
pub struct Above<L: Lattice> {
    pub(crate) state: L,
    ghost rises: { L.eq state L.least ≡ false },
}

impl<L: Lattice> Above<L> {
    ghost use Rattle.lvish_compound.specs.Above.{above, state_of};

    /// The state, unless it is bottom.
    pub fn of(alloc: Global, state: L) -> Option<Above<L>>
        ensures { result ≡ above state }
    {
        if state == L::bottom(alloc) {
            None
        } else {
            Some(Above { state })
        }
    }

    /// A state that isn't bottom.
    pub(crate) fn rising(state: L) -> Above<L>
        requires { L.eq state L.least ≡ false }
        ensures { state_of result ≡ state }
    {
        Above { state }
    }

    pub fn state(&self) -> &L
        ensures { result.now ≡ state_of self.now }
    {
        &self.state
    }

    pub fn copy(&self, alloc: Global) -> Result<Above<L>, AllocError>
        ensures { IfOk result (λ r. r ≡ self.now) }
    {
        Ok(Above {
            state: self.state.copy(alloc)?,
        })
    }

    /// Joins a state to this one in place, as `Lattice::merge` does.
    pub fn merge(&mut self, alloc: Global, put: &Above<L>) -> Result<bool, AllocError>
        ensures merged { IfOk result (λ b. (b ≡ is_some (L.joined (state_of self.old) (state_of put.now))) × (state_of self.new ≡ unwrap_or (L.joined (state_of self.old) (state_of put.now)) (state_of self.old))) }
        ensures refused { IfErr result (λ _. self.new ≡ self.old) }
    {
        self.state.merge(alloc, &put.state)
    }

    /// Joins a state to this one in place, and says what it brought, as `Lattice::merge_one` does.
    pub fn merge_one(
        &mut self,
        alloc: Global,
        put: &Above<L>,
    ) -> Result<Brought<L::Event>, AllocError>
        ensures merged { IfOk result (λ b. IsOutcome (L.joined (state_of self.old) (state_of put.now)) (fresh_of L.joined L.Event.eq L.events_of (state_of self.old) (state_of put.now)) (state_of self.old) (state_of self.new) b) }
        ensures refused { IfErr result (λ _. self.new ≡ self.old) }
    {
        self.state.merge_one(alloc, &put.state)
    }
}

impl<L: Lattice> PartialEq for Above<L> {
    ghost use Rattle.std.specs.Cmp.{partial_equiv_from_equiv, on_equiv};
    ghost use Rattle.lvish_compound.specs.Above.{alike, state_of};

    ghost eq = { alike };

    ghost laws = { partial_equiv_from_equiv (on_equiv state_of L.Eq.laws) };

    fn eq(&self, other: &Above<L>) -> bool {
        self.state == other.state
    }
}

impl<L: Lattice> Eq for Above<L> {
    ghost use Rattle.std.specs.Cmp.{on_equiv};
    ghost use Rattle.lvish_compound.specs.Above.{state_of};

    ghost laws = { on_equiv state_of L.Eq.laws };
}
