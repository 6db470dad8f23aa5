// Making the seats of a deal.
ghost use Rattle.std.specs.Prelude.{◌≡◌, ◌≢◌, [], ◌∷◌, ◌+◌, ◌-◌, ◌<◌, ◌≤◌, length, map, All, IfOk, vec_len};
ghost use Rattle.lvish_deal.specs.Reaches.{reach_deque, reach_parts, reach_got};
ghost use Rattle.lvish_deal.specs.Deals.{IsNew, IsNewRow, AreNewRows, AreCut, parts_after, deques};
ghost use Rattle.lvish_deal.specs.Place.{AreFreshFrom, IsFreshDeal, IsWholeDeal};
ghost use Rattle.crossbeam_deque.specs.Handles.{worker_deque};

use crate::reach::{Own, Reach};
use crate::rule::{Cut, Idle};
use crate::seat::Seat;
use std::alloc::{AllocError, Global};

// The slots that a deque begins with: that many pushes need no memory.
const FIRST_SLOTS: usize = 16;

// A deque for each seat.
pub fn owners<T: Drop>(alloc: Global, n: usize) -> Result<Vec<Own<T>>, AllocError>
    ensures { IfOk result (λ v. (length v.items ≡ n) × All (IsNew 9) v.items) }
{
    let mut all = Vec::with_capacity(alloc, n)?;
    for _ in 0..n {
        all.push(Own::fifo_as(alloc, FIRST_SLOTS)?)?;
    }
    Ok(all)
}

// What the seat `number` uses to take from the deque k. The owner gives up a part, but not to its
// own seat.
fn reach<T: Drop>(own: &mut Own<T>, number: usize, k: usize) -> Result<Reach<T>, AllocError>
    requires { IsNew (parts_after number k) own.old × (number < 8) }
    ensures new { IfOk result (λ _. IsNew (parts_after (number + 1) k) own.new × (worker_deque own.new ≡ worker_deque own.old)) }
    ensures reach { IfOk result (λ r. (reach_deque r ≡ worker_deque own.old) × (reach_got r ≡ [])) }
    ensures parts { IfOk result (λ r. (k ≡ number → reach_parts r ≡ 0) × (k ≢ number → reach_parts r ≡ 1)) }
{
    let stealer = own.stealer()?;
    let pass = if k == number {
        own.another::<Idle>()
    } else {
        own.another::<Cut>()
    };
    Ok(Reach { stealer, pass })
}

// What the seat `number` uses to take from each deque.
fn row<T: Drop>(
    alloc: Global,
    owners: &mut Vec<Own<T>>,
    number: usize,
) -> Result<Vec<Reach<T>>, AllocError>
    requires { AreCut number owners.old.items × (number < 8) }
    ensures { IfOk result (λ row. AreCut (number + 1) owners.new.items × (deques owners.new.items ≡ deques owners.old.items) × IsNewRow (deques owners.old.items) number row) }
{
    let mut row = Vec::with_capacity(alloc, owners.len())?;
    for k in 0..owners.len() {
        row.push(reach(&mut owners[k], number, k)?)?;
    }
    Ok(row)
}

// What each seat uses to take from each deque.
fn rows<T: Drop>(alloc: Global, owners: &mut Vec<Own<T>>) -> Result<Vec<Vec<Reach<T>>>, AllocError>
    requires { All (IsNew 9) owners.old.items × (length owners.old.items ≤ 8) }
    ensures { IfOk result (λ rows. All (IsNew (10 - length owners.old.items)) owners.new.items × (deques owners.new.items ≡ deques owners.old.items) × (length rows.items ≡ length owners.old.items) × AreNewRows (deques owners.old.items) rows.items) }
{
    let mut rows = Vec::with_capacity(alloc, owners.len())?;
    for i in 0..owners.len() {
        rows.push(row(alloc, owners, i)?)?;
    }
    Ok(rows)
}

// The seats, made from the last to the first.
fn seats<T: Drop>(
    alloc: Global,
    mut owners: Vec<Own<T>>,
    mut rows: Vec<Vec<Reach<T>>>,
) -> Result<Vec<Seat<T>>, AllocError>
    requires { All (IsNew (10 - length owners.items)) owners.items × (length owners.items ≤ 8) × (length rows.items ≡ length owners.items) × AreNewRows (deques owners.items) rows.items }
    ensures { IfOk result (λ seats. AreFreshFrom (deques owners.items) 0 seats.items) }
{
    let mut seats = Vec::with_capacity(alloc, owners.len())?;
    while let Some(own) = owners.pop() {
        let Some(reaches) = rows.pop() else {
            break;
        };
        seats.insert(0, Seat::new(owners.len(), own, reaches))?;
    }
    Ok(seats)
}

/// The `n` seats of a new deal, 1 to 8, in the order of their numbers. Their deques are empty. The only error is want of
/// memory.
pub fn deal<T: Drop>(alloc: Global, n: usize) -> Result<Vec<Seat<T>>, AllocError>
    requires some { 0 < n }
    requires few { n ≤ 8 }
    ensures fresh { IfOk result (λ seats. IsFreshDeal n seats.items) }
    ensures whole { IfOk result (λ seats. IsWholeDeal seats.items × (length seats.items ≡ n)) }
{
    let mut owners = owners(alloc, n)?;
    let rows = rows(alloc, &mut owners)?;
    seats(alloc, owners, rows)
}
