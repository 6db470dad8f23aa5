use crate::asked::Asked;
use crate::board_brand::BoardBrand;
use crate::ticket::Ticket;
use lvish_calculus::Program;
use lvish_lattice::Lattice;
use lvish_names::HandlerName;

/// What a worker can do for a board.
#[derive(Drop)]
pub enum Work<P: Program, B: BoardBrand<P>> {
    /// To run the task's local statements, by [`stretch`](crate::stretch).
    Stretch(Ticket<P, B>),
    /// To make what the task asks for, by [`Board::act`](crate::Board::act).
    Act(Asked<P, B>),
    /// To hand the handler its next event, by [`Board::hand`](crate::Board::hand).
    Hand(HandlerName<<P::Lat as Lattice>::Event>),
}
