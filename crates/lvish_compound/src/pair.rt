ghost use Rattle.std.specs.Prelude.{◌≡◌};

use crate::side_of::{SideOf, of_sides};
use lvish_lattice::{Lattice, Reads};
use std::alloc::{AllocError, Global};

/// Two states side by side.
#[derive(Debug, PartialEq, Eq, Drop)]
pub struct Pair<A, B> {
    pub one: A,
    pub two: B,
}

impl<A, B> Pair<A, B> {
    pub fn new(one: A, two: B) -> Pair<A, B>
        ensures one { result.one ≡ one }
        ensures two { result.two ≡ two }
    {
        Pair { one, two }
    }
}

impl<A: Lattice, B: Lattice> Lattice for Pair<A, B> {
    ghost use Rattle.lvish_compound.specs.Pair.{joined, events_of};

    type Event = SideOf<A::Event, B::Event>;

    ghost least = { record { one = A.least; two = B.least } };

    ghost joined = { joined A.joined B.joined };

    ghost events_of = { events_of A.events_of B.events_of };

    fn bottom(alloc: Global) -> Pair<A, B> {
        Pair::new(A::bottom(alloc), B::bottom(alloc))
    }

    fn join(&self, alloc: Global, other: &Pair<A, B>) -> Result<Option<Pair<A, B>>, AllocError> {
        let Some(one) = self.one.join(alloc, &other.one)? else {
            return Ok(None);
        };
        let Some(two) = self.two.join(alloc, &other.two)? else {
            return Ok(None);
        };
        Ok(Some(Pair::new(one, two)))
    }

    fn leq(&self, other: &Pair<A, B>) -> bool {
        self.one.leq(&other.one) && self.two.leq(&other.two)
    }

    fn events(&self, alloc: Global) -> Result<Vec<SideOf<A::Event, B::Event>>, AllocError> {
        let ones = self.one.events(alloc)?;
        let twos = self.two.events(alloc)?;
        of_sides(alloc, &ones, &twos)
    }

    fn fresh(
        alloc: Global,
        old: &Pair<A, B>,
        put: &Pair<A, B>,
    ) -> Result<Vec<SideOf<A::Event, B::Event>>, AllocError> {
        if put.two.leq(&old.two) {
            let ones = A::fresh(alloc, &old.one, &put.one)?;
            return of_sides(alloc, &ones, &[]);
        }
        if put.one.leq(&old.one) {
            let twos = B::fresh(alloc, &old.two, &put.two)?;
            return of_sides(alloc, &[], &twos);
        }
        if old.join(alloc, put)?.is_none() {
            return Ok(Vec::new(alloc));
        }
        let ones = A::fresh(alloc, &old.one, &put.one)?;
        let twos = B::fresh(alloc, &old.two, &put.two)?;
        of_sides(alloc, &ones, &twos)
    }

    fn copy(&self, alloc: Global) -> Result<Pair<A, B>, AllocError> {
        Ok(Pair::new(self.one.copy(alloc)?, self.two.copy(alloc)?))
    }

    fn merge(&mut self, alloc: Global, put: &Pair<A, B>) -> Result<bool, AllocError> {
        if put.two.leq(&self.two) {
            return self.one.merge(alloc, &put.one);
        }
        if put.one.leq(&self.one) {
            return self.two.merge(alloc, &put.two);
        }
        match self.join(alloc, put)? {
            Some(new) => {
                *self = new;
                Ok(true)
            }
            None => Ok(false),
        }
    }

    ghost use Rattle.std.specs.Prelude.{refl};
    ghost use Rattle.lvish_compound.specs.laws.PairLaws.{pairs_identical, pair_is_join, pair_has_events};

    ghost identical = { pairs_identical A.eq B.eq A.Lattice.identical B.Lattice.identical _ (λ p q. refl) };

    ghost is_join = { pair_is_join A.is_join B.is_join };

    ghost has_events = { pair_has_events A.has_events B.has_events _ (λ x z. refl) (λ y w. refl) (λ x y. refl) (λ x y. refl) _ (λ x z. refl) (λ y w. refl) (λ x y. refl) };
}

impl<A: Reads, B: Reads> Reads for Pair<A, B> {
    ghost use Rattle.lvish_compound.specs.Pair.{Member, answer_of, spot_of, watched};

    type Read = SideOf<A::Read, B::Read>;

    type Answer = SideOf<A::Answer, B::Answer>;

    type Spot = SideOf<A::Spot, B::Spot>;

    ghost member = { Member A.least B.least A.member B.member };

    ghost answer_of = { answer_of A.answer_of B.answer_of };

    ghost spot_of = { spot_of A.spot_of B.spot_of };

    ghost watched = { watched A.watched B.watched };

    fn check(read: &SideOf<A::Read, B::Read>) -> bool {
        match read {
            SideOf::One(read) => A::check(read),
            SideOf::Two(read) => B::check(read),
        }
    }

    fn trigger(
        read: &SideOf<A::Read, B::Read>,
        state: &Pair<A, B>,
    ) -> Option<SideOf<A::Answer, B::Answer>> {
        match read {
            SideOf::One(read) => Some(SideOf::One(A::trigger(read, &state.one)?)),
            SideOf::Two(read) => Some(SideOf::Two(B::trigger(read, &state.two)?)),
        }
    }

    fn spot(event: &SideOf<A::Event, B::Event>) -> SideOf<A::Spot, B::Spot> {
        match event {
            SideOf::One(event) => SideOf::One(A::spot(event)),
            SideOf::Two(event) => SideOf::Two(B::spot(event)),
        }
    }

    fn watch(read: &SideOf<A::Read, B::Read>) -> Option<SideOf<A::Spot, B::Spot>> {
        match read {
            SideOf::One(read) => match A::watch(read) {
                Some(spot) => Some(SideOf::One(spot)),
                None => None,
            },
            SideOf::Two(read) => match B::watch(read) {
                Some(spot) => Some(SideOf::Two(spot)),
                None => None,
            },
        }
    }

    ghost use Rattle.std.specs.Prelude.{refl};
    ghost use Rattle.lvish_compound.specs.laws.Embedded.{pair_answers, pair_waits};

    ghost waits = { pair_waits A.Event.eq B.Event.eq A.events_of B.events_of A.spot_of B.spot_of A.watched B.watched A.answer_of B.answer_of _ (λ x z. refl) (λ y w. refl) (λ x y. refl) (λ x y. refl) A.waits B.waits };

    ghost answers = { pair_answers A.is_join B.is_join A.member B.member A.answer_of B.answer_of A.answers B.answers };
}
