//! Which of the labels a label is.

ghost use Rattle.std.specs.Prelude.{◌≡◌, MatchOption, Some, slice_get};
ghost use Rattle.lvish_calculus.specs.Handing.{IsAmong};
ghost use Rattle.lvish_again.specs.Walk.{same_label};

use lvish_calculus::Label;
use lvish_lattice::Plain;

/// The label's place in the list, `None` where it isn't there.
pub fn place_of<E: Plain>(labels: &[Label<E>], label: &Label<E>) -> Option<usize>
    ensures { MatchOption result (IsAmong label.now labels.now → ⊥) (λ n. slice_get labels.now n ≡ Some label.now) }
{
    for place in 0..labels.len() {
        if are_one(&labels[place], label) {
            return Some(place);
        }
    }
    None
}

/// Whether both are the step of one task, or the handing of one event to one handler.
fn are_one<E: Plain>(one: &Label<E>, other: &Label<E>) -> bool
    ensures { result ≡ same_label E.eq one.now other.now }
{
    match one {
        Label::Act(task) => match other {
            Label::Act(named) => task == named,
            Label::Hand(_, _) => false,
        },
        Label::Hand(handler, event) => match other {
            Label::Act(_) => false,
            Label::Hand(named, handed) => handler == named && event == handed,
        },
    }
}
