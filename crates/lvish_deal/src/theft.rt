// Taking from a deque within reach.
ghost use Rattle.std.specs.Prelude.{◌≡◌, ◌<◌, [], ◌∷◌, ◌++◌};
ghost use Rattle.crossbeam_deque.specs.Handles.{view, IsPassOf, stealer_deque, stealer_flavor};
ghost use Rattle.lvish_deal.specs.Rule.{log};
ghost use Rattle.lvish_deal.specs.Reaches.{reach_deque, reach_parts, reach_got};
ghost use Rattle.lvish_deal.specs.Answer.{MatchSteal};

use crate::reach::Reach;
use crate::rule::Got;
use crate::steal::Steal;
use crossbeam_deque::Steal as Stolen;

impl<T> Reach<T> {
    // Takes the item at the front.
    pub fn take(&mut self) -> Steal<T>
        requires { 0 < reach_parts self.old }
        ensures same { reach_deque self.new ≡ reach_deque self.old }
        ensures parts { reach_parts self.new ≡ reach_parts self.old }
        ensures taken { MatchSteal result (λ x. reach_got self.new ≡ reach_got self.old ++ x ∷ []) (reach_got self.new ≡ reach_got self.old) }
    {
        match self.stealer.steal_as::<Got>(&mut self.pass) {
            Stolen::Success(item) => Steal::Taken(item),
            Stolen::Empty => Steal::Nothing,
            Stolen::Retry => Steal::Again,
        }
    }
}
