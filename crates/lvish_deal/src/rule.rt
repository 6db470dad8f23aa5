// The rule that one deque keeps, and the moves under it.
use crate::log::Log;
use crossbeam_deque::protocol::{Join, Lesson, Outcome, Protocol, Split};

// What was pushed leaves in its order, each item once, to the pass that takes it.
pub struct InOrder;

impl<T> Protocol<T, Log<T>> for InOrder {
    ghost use Rattle.std.specs.Prelude.{[]};
    ghost use Rattle.lvish_deal.specs.Rule.{log, Dealt};

    ghost holds = { Dealt };

    ghost first = { log 9 [] [] [] };

    ghost guest = { log 0 [] [] [] };
}

// The owner adds an item at the back.
pub struct Sent;

impl<T> Outcome<T, Log<T>> for Sent {
    ghost use Rattle.std.specs.Prelude.{◌≡◌, ◌++◌};
    ghost use Rattle.lvish_deal.specs.Rule.{log};

    ghost then = { λ v xs w. w ≡ log v.parts (v.sent ++ xs) v.got v.joined };
}

// The owner takes the item at the front.
pub struct Popped;

impl<T> Outcome<T, Log<T>> for Popped {
    ghost use Rattle.std.specs.Prelude.{◌≡◌, List, [], ◌++◌, ◌+◌, ◌≤◌, length};
    ghost use Rattle.lvish_deal.specs.Order.{IsSubsequence};
    ghost use Rattle.lvish_deal.specs.Rule.{log, TookAlone};

    ghost then = { λ v xs w. (w ≡ log v.parts v.sent (v.got ++ xs) v.joined) × (length v.got + length xs ≤ length v.sent) × IsSubsequence w.got w.sent × ((rest : List T) × TookAlone w rest) };

    ghost empty = { λ v. TookAlone v [] };
}

// A thief takes the item at the front.
pub struct Got;

impl<T> Outcome<T, Log<T>> for Got {
    ghost use Rattle.std.specs.Prelude.{◌≡◌, ◌++◌};
    ghost use Rattle.lvish_deal.specs.Rule.{log};

    ghost then = { λ v xs w. w ≡ log v.parts v.sent (v.got ++ xs) v.joined };
}

// A thief's pass: it is made with one part, and has taken nothing. When it joins the owner's, it gives back its part and what it took.
pub struct Cut;

impl<T> Split<Log<T>> for Cut {
    ghost use Rattle.std.specs.Prelude.{[], ◌-◌};
    ghost use Rattle.lvish_deal.specs.Rule.{log};

    ghost left = { λ v. log (v.parts - 1) v.sent v.got v.joined };

    ghost right = { λ v. log 1 [] [] [] };
}

impl<T> Join<Log<T>> for Cut {
    ghost use Rattle.std.specs.Prelude.{[], ◌+◌, ◌++◌, ◌∷◌};
    ghost use Rattle.lvish_deal.specs.Rule.{log};

    ghost both = { λ v w. log (v.parts + w.parts) v.sent v.got (w.got ∷ (w.joined ++ v.joined)) };

    ghost spent = { log 0 [] [] [] };
}

// A seat's pass for its own deque: it has no part, and takes nothing.
pub struct Idle;

impl<T> Split<Log<T>> for Idle {
    ghost use Rattle.std.specs.Prelude.{[]};
    ghost use Rattle.lvish_deal.specs.Rule.{log};

    ghost left = { λ v. v };

    ghost right = { λ v. log 0 [] [] [] };
}

// What the owner learns once it has every part: which items left, and which are still there.
pub struct WholeLesson;

impl<T> Lesson<T, Log<T>> for WholeLesson {
    ghost use Rattle.lvish_deal.specs.Rule.{Told};

    ghost fact = { Told };
}

// A pop of the owner that has every part.
pub struct OwnerPop;

impl<T> Outcome<T, Log<T>> for OwnerPop {
    ghost use Rattle.std.specs.Prelude.{◌≡◌, [], ◌++◌};
    ghost use Rattle.lvish_deal.specs.Rule.{log, rest_of};

    ghost then = { λ v xs w. (w ≡ log v.parts v.sent (v.got ++ xs) v.joined) × (rest_of v ≡ xs ++ rest_of w) };

    ghost empty = { λ v. rest_of v ≡ [] };
}
