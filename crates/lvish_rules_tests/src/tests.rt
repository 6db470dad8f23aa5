//! Graphs whose successors are listed by node, walked from a root.

ghost use Rattle.std.specs.Prelude.{◌≤◌, ◌<◌};

use crate::weighed::Weighed;
use lvish_lattice::{GrowSet, Items};
use lvish_rules::{Answer, Graph, Ruled, SolveFault, solve, solve_alone};
use std::alloc::{AllocError, Global};
use std::fmt::Write;
use std::sync::Wait;
use std::test::Fail;
use std::thread::Threads;

fn nodes(alloc: Global, numbers: &[i64]) -> Result<Items<i64>, AllocError> {
    Ok(Items::new(Vec::from_slice(alloc, numbers)?))
}

/// 0 leads to 1 and 2, 1 to 3, 3 back to 0 and to 7, of which no successors are listed; 4 leads to 5.
fn graph(alloc: Global, root: i64) -> Result<Graph, AllocError> {
    let mut next = Vec::new(alloc);
    next.push(nodes(alloc, &[1, 2])?)?;
    next.push(nodes(alloc, &[3])?)?;
    next.push(nodes(alloc, &[])?)?;
    next.push(nodes(alloc, &[0, 7])?)?;
    next.push(nodes(alloc, &[5])?)?;
    Ok(Graph {
        root,
        next: Items::new(next),
    })
}

/// The nodes of the answer, whether they are all, and the steps.
fn text_of(alloc: Global, answer: &Answer<GrowSet<i64>>) -> Result<String, AllocError> {
    let mut text = String::new(alloc);
    if let Some(set) = answer.state(0) {
        for node in set.items() {
            write!(text, "{node} ")?;
        }
    }
    let word = if answer.is_whole() {
        "whole"
    } else {
        "stopped"
    };
    write!(text, "{word} after {}", answer.steps())?;
    Ok(text)
}

fn reached(alloc: Global, root: i64, budget: u64) -> Result<String, SolveFault> {
    let analysis = Ruled {
        rules: graph(alloc, root)?,
    };
    let answer = solve_alone(alloc, &analysis, budget)?;
    Ok(text_of(alloc, &answer)?)
}

/// What this many workers find; once more where a growth was refused, or a thread is missing for it.
fn found<R: Threads + Wait + Sync>(
    rt: &R,
    alloc: Global,
    root: i64,
    workers: usize,
    budget: u64,
) -> Result<String, SolveFault>
    requires some { 0 < workers }
    requires few { workers ≤ 8 }
{
    let analysis = Ruled {
        rules: graph(alloc, root)?,
    };
    let answer = match solve(rt, alloc, &analysis, workers, budget) {
        Err(SolveFault::Memory | SolveFault::NoThread) => {
            solve(rt, alloc, &analysis, workers, budget)?
        }
        told => told?,
    };
    Ok(text_of(alloc, &answer)?)
}

#[test]
fn what_can_be_reached_is_found(rt: HostRuntime) -> Result<(), Fail> {
    let alloc = rt.alloc();
    let rows = [
        (0, 1000, "0 1 2 3 7 whole after 18"),
        (0, 18, "0 1 2 3 7 whole after 18"),
        (0, 17, "0 1 2 3 7 stopped after 17"),
        (0, 0, "stopped after 0"),
        (4, 1000, "4 5 whole after 8"),
        (9, 1000, "9 whole after 5"),
        (-1, 1000, "-1 whole after 5"),
    ];
    for (root, budget, text) in rows {
        let said = reached(alloc, root, budget)?;
        assert_eq!(rt; said.as_str(), text);
        for workers in 1..9 {
            let said = found(&rt, alloc, root, workers, budget)?;
            assert_eq!(rt; said.as_str(), text);
        }
    }
    Ok(())
}

/// Node 0 leads to nodes 1 to 200, each of these to two others up to 600.
fn fan(alloc: Global) -> Result<Graph, AllocError> {
    let mut next = Vec::new(alloc);
    let mut first = Vec::new(alloc);
    for node in 1..201i64 {
        first.push(node)?;
    }
    next.push(Items::new(first))?;
    for node in 1..201i64 {
        next.push(nodes(alloc, &[node + 200, node + 400])?)?;
    }
    Ok(Graph {
        root: 0,
        next: Items::new(next),
    })
}

/// What this many workers find in the fan; once more where a growth was refused, or a thread is missing
/// for it.
fn found_in_fan<R: Threads + Wait + Sync>(
    rt: &R,
    alloc: Global,
    statements: usize,
    workers: usize,
) -> Result<Answer<GrowSet<i64>>, SolveFault>
    requires some { 0 < workers }
    requires few { workers ≤ 8 }
{
    let analysis = Ruled {
        rules: Weighed {
            graph: fan(alloc)?,
            statements,
        },
    };
    match solve(rt, alloc, &analysis, workers, 10_000) {
        Err(SolveFault::Memory | SolveFault::NoThread) => {
            solve(rt, alloc, &analysis, workers, 10_000)
        }
        told => told,
    }
}

/// A crew is called where moves are said to take a thousand statements, and none where they take none.
#[test]
fn a_crew_finds_what_one_worker_finds(rt: HostRuntime) -> Result<(), Fail> {
    let alloc = rt.alloc();
    for statements in [0, 1000] {
        for workers in 1..9 {
            let answer = found_in_fan(&rt, alloc, statements, workers)?;
            assert!(rt; answer.is_whole());
            assert_eq!(rt; answer.steps(), 1805);
            let Some(set) = answer.state(0) else {
                return Err(Fail::from("no relation"));
            };
            assert_eq!(rt; set.len(), 601);
        }
    }
    Ok(())
}
