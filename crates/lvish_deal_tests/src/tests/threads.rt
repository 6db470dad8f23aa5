// Seats on threads of their own.
ghost use Rattle.std.specs.Prelude.{◌≡◌, ℕ, ◌<◌, ◌≤◌, length, map, IfOk, slice_index_or};
ghost use Rattle.lvish_deal.specs.Place.{IsWholeDeal, IsSameSeat};

use lvish_deal::{Seat, Steal, close, deal};
use std::alloc::{AllocError, Global};
use std::test::Fail;
use std::thread;
use std::thread::Threads;

const ITEMS: u32 = 100_000;

// A seat that has done its work, and what it took. None: there was no memory to note that.
type Done = (Seat<u32>, Option<Vec<u32>>);

// An item of its own, or one of the next seat that has any.
fn next<T>(seat: &mut Seat<T>) -> Option<T>
    ensures { IsSameSeat seat.old seat.new }
{
    if let Some(item) = seat.pop() {
        return Some(item);
    }
    for from in 0..seat.seats() {
        if from != seat.number() {
            if let Steal::Taken(item) = seat.steal(from) {
                return Some(item);
            }
        }
    }
    None
}

// Steals from the next seat, if there is one.
fn steal_next(seat: &mut Seat<u32>) -> Steal<u32>
    ensures { IsSameSeat seat.old seat.new }
{
    let seats = seat.seats();
    let number = seat.number();
    let from = if number + 1 < seats { number + 1 } else { 0 };
    if from == number {
        return Steal::Nothing;
    }
    seat.steal(from)
}

// Pushes its share of the items, and takes some of its own and of the others' in between. An item that a refused push
// gives back counts as taken.
fn share(seat: &mut Seat<u32>, taken: &mut Vec<u32>)
    ensures { IsSameSeat seat.old seat.new }
{
    let number = seat.number();
    let seats = seat.seats();
    for item in 0..ITEMS {
        if item as usize % seats == number {
            if let Err(back) = seat.push(item) {
                let _ = taken.push(back);
            }
            if item % 3 == 0 {
                if let Some(got) = next(seat) {
                    let _ = taken.push(got);
                }
            }
            if item % 5 == 0 {
                if let Steal::Taken(got) = steal_next(seat) {
                    let _ = taken.push(got);
                }
            }
        }
    }
}

// Shares its items, and then takes what it finds, for a number of turns.
fn work(alloc: Global, mut seat: Seat<u32>) -> Done
    ensures { IsSameSeat seat result.0 }
{
    let Ok(mut taken) = Vec::with_capacity(alloc, ITEMS as usize) else {
        return (seat, None);
    };
    share(&mut seat, &mut taken);
    for _ in 0..10_000 {
        if let Some(got) = next(&mut seat) {
            let _ = taken.push(got);
        }
    }
    (seat, Some(taken))
}

// Each seat does its work, on as many threads.
fn on_threads<R: Threads + Sync>(
    rt: &R,
    alloc: Global,
    seats: Vec<Seat<u32>>,
) -> Result<Vec<Done>, AllocError>
    ensures len { IfOk result (λ done. length done.items ≡ length seats.items) }
    ensures same { IfOk result (λ done. (k : ℕ) (s d : _) → k < length seats.items → IsSameSeat (slice_index_or seats.items k s) (slice_index_or done.items k d).0) }
{
    thread::map_vec(
        rt,
        seats,
        &|seat| -> Done
            ensures { IsSameSeat seat result.0 }
        { work(alloc, seat) },
    )
}

fn count(times: &mut Vec<u32>, items: &[u32]) {
    for item in items {
        if let Some(n) = times.get_mut(*item as usize) {
            *n = n.saturating_add(1);
        }
    }
}

// The seats again, and how often each item was taken.
fn gathered(alloc: Global, mut done: Vec<Done>) -> Result<(Vec<Seat<u32>>, Vec<u32>), AllocError>
    requires { IsWholeDeal (map (λ d. d.0) done.items) }
    ensures { IfOk result (λ r. IsWholeDeal r.0.items) }
{
    let mut times = vec![in alloc; 0u32; ITEMS as usize]?;
    let mut seats = Vec::with_capacity(alloc, done.len())?;
    while let Some(one) = done.pop() {
        let (seat, taken) = one;
        let Some(taken) = taken else {
            return Err(AllocError);
        };
        count(&mut times, &taken);
        seats.insert(0, seat)?;
    }
    Ok((seats, times))
}

// How many items didn't come out just once, taken or left.
fn miscounted<R: Threads + Sync>(rt: &R, alloc: Global, n: usize) -> Result<u64, AllocError>
    requires { (0 < n) × (n ≤ 8) }
{
    let done = on_threads(rt, alloc, deal(alloc, n)?)?;
    let (seats, mut times) = gathered(alloc, done)?;
    let Ok(left) = close(alloc, seats) else {
        return Err(AllocError);
    };
    for items in left.iter() {
        count(&mut times, items);
    }
    let mut wrong = 0u64;
    for n in times.iter() {
        if *n != 1 {
            wrong = wrong.saturating_add(1);
        }
    }
    Ok(wrong)
}

#[test]
fn each_item_is_taken_once(rt: HostRuntime) -> Result<(), Fail> {
    assert_eq!(rt; miscounted(&rt, rt.alloc(), 2)?, 0, "on two threads");
    assert_eq!(rt; miscounted(&rt, rt.alloc(), 3)?, 0, "on three threads");
    assert_eq!(rt; miscounted(&rt, rt.alloc(), 8)?, 0, "on eight threads");
    Ok(())
}

// Pushes all items, or as many as there is memory for.
fn fill(seat: &mut Seat<u32>) {
    for item in 0..ITEMS {
        let _ = seat.push(item);
    }
}

// Takes from the first deque: the first seat by a pop, the others by a steal.
fn take_first(seat: &mut Seat<u32>) -> Steal<u32> {
    if seat.number() > 0 {
        return seat.steal(0);
    }
    match seat.pop() {
        Some(item) => Steal::Taken(item),
        None => Steal::Nothing,
    }
}

// Takes from the first deque again and again, and answers whether it took an item after it was
// told that nothing was there.
fn takes_after_nothing(mut seat: Seat<u32>) -> bool {
    let mut told = false;
    for _ in 0..2 * ITEMS {
        match take_first(&mut seat) {
            Steal::Taken(_) if told => return true,
            Steal::Nothing => told = true,
            _ => {}
        }
    }
    false
}

// How many seats took an item after they were told that nothing was there, where nobody pushes any
// more.
fn misinformed<R: Threads + Sync>(rt: &R, alloc: Global, n: usize) -> Result<usize, AllocError>
    requires { (0 < n) × (n ≤ 8) }
{
    let mut seats = deal(alloc, n)?;
    fill(&mut seats[0]);
    let done = thread::map_vec(rt, seats, &|seat| -> bool { takes_after_nothing(seat) })?;
    Ok(done.iter().filter(|wrong| **wrong).count())
}

#[test]
fn who_is_told_nothing_takes_no_more(rt: HostRuntime) -> Result<(), Fail> {
    assert_eq!(rt; misinformed(&rt, rt.alloc(), 3)?, 0, "on three threads");
    assert_eq!(rt; misinformed(&rt, rt.alloc(), 8)?, 0, "on eight threads");
    Ok(())
}
