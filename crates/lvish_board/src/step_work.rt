ghost use Rattle.std.specs.Prelude.{◌≡◌, ◌<◌, ◌≤◌, ◌+◌, ◌++◌, [], None, IfErr, IfOk, vec_len, vec_capacity};
ghost use Rattle.lvish_board.specs.Listed.{work_of, stretches, acts, handings, option_list};

use crate::asked::Asked;
use crate::board_brand::BoardBrand;
use crate::ticket::Ticket;
use crate::work::Work;
use lvish_calculus::Program;
use lvish_lattice::Lattice;
use lvish_names::HandlerName;
use lvish_trace::Step;
use std::alloc::Global;

/// The work that a step leaves, in this order. All of it is to be done, by whomever and in any order.
#[derive(Drop)]
pub struct StepWork<P: Program, B: BoardBrand<P>> {
    /// The step itself.
    pub step: Step,
    /// The next ticket of the task that acted, where it goes on.
    pub own: Option<Ticket<P, B>>,
    /// A local state that nobody needs any more, where the task was parked: it is of no more use than its
    /// memory, and no work.
    pub spare: Option<P::Local>,
    /// The ticket of a task that the step made.
    pub made: Option<Ticket<P, B>>,
    /// What the parked tasks ask for that the step woke, by their names.
    pub woken: Vec<Asked<P, B>>,
    /// The handlers that the step concerned with something left for them, by name.
    pub hands: Vec<HandlerName<<P::Lat as Lattice>::Event>>,
}

impl<P: Program, B: BoardBrand<P>> StepWork<P, B> {
    /// No work of this step.
    pub fn none(alloc: Global, step: Step) -> StepWork<P, B>
        ensures list { work_of result ≡ [] }
        ensures own { result.own ≡ None }
        ensures step { result.step ≡ step }
    {
        StepWork {
            step,
            own: None,
            spare: None,
            made: None,
            woken: Vec::new(alloc),
            hands: Vec::new(alloc),
        }
    }

    /// No work of this step.
    pub(crate) fn empty(&mut self, step: Step)
        ensures list { work_of self.new ≡ [] }
        ensures own { self.new.own ≡ None }
        ensures step { self.new.step ≡ step }
    {
        self.step = step;
        self.own = None;
        self.made = None;
        self.woken.clear();
        self.hands.clear();
    }

    /// The pieces of work in a list, in their order.
    ///
    /// # Errors
    ///
    /// Where there is no room for it, the work.
    pub fn into_list(self, alloc: Global) -> Result<Vec<Work<P, B>>, StepWork<P, B>>
        ensures ok { IfOk result (λ v. v.items ≡ work_of self) }
        ensures err { IfErr result (λ w. w ≡ self) }
    {
        let most = self
            .woken
            .len()
            .saturating_add(self.hands.len())
            .saturating_add(2);
        let Ok(mut list) = Vec::with_capacity(alloc, most) else {
            return Err(self);
        };
        let StepWork {
            step: _,
            own,
            spare: _,
            made,
            woken,
            hands,
        } = self;
        list_ticket(&mut list, own);
        list_ticket(&mut list, made);
        list_acts(&mut list, woken);
        list_handings(&mut list, hands);
        Ok(list)
    }
}

/// Lists the ticket, if there is one.
fn list_ticket<P: Program, B: BoardBrand<P>>(
    list: &mut Vec<Work<P, B>>,
    ticket: Option<Ticket<P, B>>,
)
    requires room { vec_len list.old < vec_capacity list.old }
    ensures items { list.new.items ≡ list.old.items ++ stretches (option_list ticket) }
    ensures capacity { vec_capacity list.new ≡ vec_capacity list.old }
    ensures len { vec_len list.new ≤ vec_len list.old + 1 }
{
    if let Some(ticket) = ticket {
        list.push_reserved(Work::Stretch(ticket));
    }
}

/// Lists what these tasks ask for.
fn list_acts<P: Program, B: BoardBrand<P>>(list: &mut Vec<Work<P, B>>, woken: Vec<Asked<P, B>>)
    requires room { vec_len list.old + vec_len woken ≤ vec_capacity list.old }
    ensures items { list.new.items ≡ list.old.items ++ acts woken.items }
    ensures capacity { vec_capacity list.new ≡ vec_capacity list.old }
    ensures len { vec_len list.new ≡ vec_len list.old + vec_len woken }
{
    for asked in woken {
        list.push_reserved(Work::Act(asked));
    }
}

/// Lists the next handing of each of these handlers.
fn list_handings<P: Program, B: BoardBrand<P>>(
    list: &mut Vec<Work<P, B>>,
    hands: Vec<HandlerName<<P::Lat as Lattice>::Event>>,
)
    requires room { vec_len list.old + vec_len hands ≤ vec_capacity list.old }
    ensures { list.new.items ≡ list.old.items ++ handings hands.items }
{
    for handler in hands {
        list.push_reserved(Work::Hand(handler));
    }
}
