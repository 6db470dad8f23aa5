//! Puts into a variable.

use lvish_lattice::Flat;
use lvish_names::{NameFault, TaskName};
use lvish_variable::{PutFault, Variable};
use std::alloc::{AllocError, Global};
use std::process::Abort;
use std::test::Fail;

type CellVariable = Variable<Flat<i64>>;

/// Puts 5, again where memory was refused: the variable is as it was then.
fn put_at_last(
    rt: &impl Abort,
    alloc: Global,
    cell: &mut CellVariable,
    task: &TaskName<i64>,
) -> Result<(), PutFault> {
    match cell.put(alloc, task, 1, &Flat::Value(5)) {
        Err(PutFault::Memory) => {
            assert_eq!(rt; *cell.state(), Flat::Bottom);
            assert_eq!(rt; cell.log().len(), 0);
            cell.put(alloc, task, 1, &Flat::Value(5))
        }
        answer => answer,
    }
}

fn child(alloc: Global) -> Result<TaskName<i64>, NameFault> {
    TaskName::main().child(alloc, 1)
}

/// The only entry of the log, as text.
fn entry_text(alloc: Global, cell: &CellVariable) -> Result<String, AllocError> {
    match cell.log() {
        [entry] => format!(in alloc; "{} {} {}", entry.event, entry.task, entry.number),
        _ => Ok(String::new(alloc)),
    }
}

#[test]
fn a_value_is_put(rt: HostRuntime) -> Result<(), Fail> {
    let alloc = rt.alloc();
    let mut cell = Variable::new(alloc);
    assert_eq!(rt; put_at_last(&rt, alloc, &mut cell, &child(alloc)?), Ok(()));
    assert_eq!(rt; entry_text(alloc, &cell)?.as_str(), "5 main/1 1");
    Ok(())
}
