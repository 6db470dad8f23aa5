//! How many steps, or tasks, there are by line.

ghost use Rattle.std.specs.Prelude.{◌≡◌, ◌↔◌, IfOk, IfSome, IsTrue, take};
ghost use Rattle.std.specs.List.Sorted.{IsPermutation, IsNonDecreasingBy};
ghost use Rattle.lvish_outcome.specs.Count.{times, sum, AreCounts, AreAllCounts, AreFalling, AreBusiest};

use crate::told::LineCount;
use std::alloc::{AllocError, Global};

/// The most lines of which the steps are told.
const MOST_LINES: usize = 5;

/// The lines, each once, in ascending order.
fn each_once(alloc: Global, at: &[usize]) -> Result<Vec<usize>, AllocError> {
    let mut sorted = at.to_vec(alloc)?;
    sorted.as_mut_slice().sort_unstable();
    let mut lines = Vec::new(alloc);
    for line in sorted.as_slice() {
        if lines.last() != Some(line) {
            lines.push(*line)?;
        }
    }
    Ok(lines)
}

/// How often the line is there.
fn times(at: &[usize], line: usize) -> usize
    ensures { result ≡ times line at.now }
{
    at.iter().filter(|other| **other == line).count()
}

/// How often each line is there, in the order of the lines.
fn counts_of(alloc: Global, at: &[usize]) -> Result<Vec<LineCount>, AllocError>
    ensures { IfOk result (λ v. AreCounts at.now v.items) }
{
    let mut counts = Vec::new(alloc);
    let lines = each_once(alloc, at)?;
    for line in lines.as_slice() {
        let line = *line;
        let count = times(at, line);
        counts.push(LineCount { line, count })?;
    }
    Ok(counts)
}

/// Whether the counts come to this number.
fn come_to(counts: &[LineCount], total: usize) -> bool
    ensures { IsTrue result ↔ (sum counts.now ≡ total) }
{
    let mut left = total;
    for counted in counts {
        if counted.count > left {
            return false;
        }
        left -= counted.count;
    }
    left == 0
}

/// How often each line is there, where that is known of all.
pub fn all_counts(alloc: Global, at: &[usize]) -> Result<Option<Vec<LineCount>>, AllocError>
    ensures { IfOk result (λ o. IfSome o (λ v. AreAllCounts at.now v.items)) }
{
    let counts = counts_of(alloc, at)?;
    if !come_to(counts.as_slice(), at.len()) {
        return Ok(None);
    }
    Ok(Some(counts))
}

/// Puts the least counts first.
fn sort_rising(counts: &mut [LineCount])
    ensures same { IsPermutation counts.old counts.new }
    ensures sorted { IsNonDecreasingBy (λ c. c.count) counts.new }
{
    counts.sort_unstable_by_key(|counted| counted.count)
}

/// Puts the greatest counts first.
fn sort_falling(counts: &mut [LineCount])
    ensures { AreFalling counts.old counts.new }
{
    sort_rising(counts);
    counts.reverse()
}

/// The first of them.
fn first_of(alloc: Global, counts: &[LineCount]) -> Result<Vec<LineCount>, AllocError>
    ensures { IfOk result (λ v. v.items ≡ take MOST_LINES counts.now) }
{
    if counts.len() <= MOST_LINES {
        return counts.to_vec(alloc);
    }
    counts[..MOST_LINES].to_vec(alloc)
}

/// Those of the lines that are there most often, the most frequent first.
pub fn busiest(alloc: Global, counts: &mut [LineCount]) -> Result<Vec<LineCount>, AllocError>
    ensures { IfOk result (λ v. AreBusiest counts.old v.items) }
{
    sort_falling(counts);
    first_of(alloc, counts)
}
